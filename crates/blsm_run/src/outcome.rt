//! How a call ends.
ghost use Rattle.std.specs.Prelude.{◌≡◌};

use program_words::{Options, Unread};
use recover_open::{NotMade, Place, Report, Unreadable};
use refusal::NoMemory;
use store_run::{Finished, Settled};
use store_serve::Served;

/// What was asked for was done.
#[derive(Drop)]
pub(crate) enum Answer {
    /// A store was made, whose file has this length in bytes.
    Made(u64),
    /// A script was run, of which is printed what the options say.
    Ran(Options, Finished),
    /// A session was served, whose first ship was to have this number, and all up to its end was told but where the sink failed.
    Served(u64, Served),
    /// A store was checked.
    Checked(Report),
    /// A store was settled by its opening.
    Settled(Settled),
    /// The script of so many commands from this seed was run.
    Tried(u64, u32, Finished),
}

/// Why nothing was done.
#[derive(Clone, Copy, Debug, PartialEq, Eq)]
pub(crate) enum Refusal {
    Usage,
    SourceFault,
    TooBig,
    BadLine(u64),
    DiskFault,
    NotAStore,
    NotEmpty(u64),
    Damaged(Place),
    Worn(u64),
    NoMemory,
}

impl From<Unread> for Refusal {
    ghost use Rattle.blsm_run.specs.Outcome.{refusal_of_words};

    ghost from_gives = { λ why refusal. refusal ≡ refusal_of_words why };

    fn from(why: Unread) -> Refusal {
        match why {
            Unread::Refused => Refusal::Usage,
            Unread::NoMemory => Refusal::NoMemory,
        }
    }
}

impl From<Unreadable> for Refusal {
    ghost use Rattle.blsm_run.specs.Outcome.{refusal_of_store};

    ghost from_gives = { λ why refusal. refusal ≡ refusal_of_store why };

    fn from(why: Unreadable) -> Refusal {
        match why {
            Unreadable::NotAStore => Refusal::NotAStore,
            Unreadable::Damaged(place) => Refusal::Damaged(place),
            Unreadable::Worn(version) => Refusal::Worn(version),
            Unreadable::Fault => Refusal::DiskFault,
            Unreadable::NoMemory => Refusal::NoMemory,
        }
    }
}

impl From<NotMade> for Refusal {
    ghost use Rattle.blsm_run.specs.Outcome.{refusal_of_making};

    ghost from_gives = { λ why refusal. refusal ≡ refusal_of_making why };

    fn from(why: NotMade) -> Refusal {
        match why {
            NotMade::NotEmpty(length) => Refusal::NotEmpty(length),
            NotMade::Fault => Refusal::DiskFault,
        }
    }
}

impl From<NoMemory> for Refusal {
    ghost use Rattle.blsm_run.specs.declared.outcome.Refusal.{Refusal};

    ghost from_gives = { λ _ refusal. refusal ≡ Refusal.NoMemory };

    fn from(_refused: NoMemory) -> Refusal {
        Refusal::NoMemory
    }
}
