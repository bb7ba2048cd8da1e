//! The plainest value that stands for a history: its entries, numbered by each seat. The tests run callers over it.
ghost use Rattle.std.specs.Prelude.{◌≡◌};
ghost use Rattle.blsm_model.specs.Book.{HasRoom, noted};
ghost use Rattle.turn_lock.specs.Tallies.{work_by};

use blsm_model::{Annals, Op, ShortReply, Stands};

/// It counts nothing, owes nothing and never stops.
#[derive(Drop)]
pub struct Tally {
    pub annals: Annals,
}

impl Stands for Tally {
    ghost use mathlib.Core.List.{IsPrefix};
    ghost use native.Mathlib.Nat.{le_refl};
    ghost use Rattle.turn_lock.specs.Tallies.{WorksOnce, tally_facts};

    ghost facts = { λ t. tally_facts t.annals };

    ghost stands = { λ a b. IsPrefix a.annals.entries b.annals.entries };

    ghost one = { λ seat a b. WorksOnce seat a.annals b.annals };

    ghost most = { λ a. 0 };

    ghost within = { λ start value stands. le_refl 0 };

    fn entries(&self) -> u64 {
        self.annals.len() as u64
    }

    fn peak(&self) -> u64 {
        0
    }
}

impl Tally {
    /// Notes the n-th entry of a seat, of those from 0 on.
    pub fn work(&mut self, seat: u32, n: u32)
        requires { HasRoom self.old.annals.room (work_by seat n) }
        ensures { self.new.annals ≡ noted self.old.annals (work_by seat n) }
    {
        self.annals
            .note_short(seat, Op::Work(n), ShortReply::Did(n));
    }
}
