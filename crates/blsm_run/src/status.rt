//! How a call ends.
ghost use Rattle.std.specs.Prelude.{◌≡◌};

/// How a call ends. The numbers are the exit statuses.
#[derive(Clone, Copy, Debug, PartialEq, Eq)]
pub enum Status {
    /// What was asked for was done.
    Done = 0,
    /// The words are not accepted.
    Usage = 1,
    /// A line of the script is outside the grammar or past a limit.
    BadLine = 2,
    /// The script has more than 8,388,608 bytes.
    TooBig = 3,
    /// The disk is no store.
    NotAStore = 4,
    /// The disk has bytes already.
    NotEmpty = 5,
    /// A part of the store is not of the written form, or the store is worn.
    Damaged = 6,
    /// The shelf or the disk failed.
    DiskFault = 7,
    /// The source failed.
    SourceFault = 8,
    /// The sink failed: what was written is a front of the text.
    SinkFault = 9,
    /// Memory was refused, before the first command.
    NoMemory = 10,
    /// A caller of a session has no room for its line.
    NoRoom = 11,
}

impl Status {
    ghost use Rattle.blsm_run.specs.Outcome.{code_of};

    /// The exit status.
    pub fn code(self) -> u8
        ensures { result ≡ code_of self }
    {
        self as u8
    }
}
