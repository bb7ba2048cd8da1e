//! What the calls answer.

use blsm_model::{Value, Why};

/// What an admission answers.
#[derive(Clone, Copy, PartialEq, Eq, Debug)]
pub enum Admission {
    /// The write is in the tree and its log.
    Admitted,
    /// The condition of a new or a swap doesn't hold. The history has the value that shows it, if its key has one.
    Kept,
    /// The write is refused for its size, at this charge in bytes.
    Full(u64),
    /// A call of the disk failed in the lookup of a new or a swap. Nothing was written, and the tree runs on.
    ReadFault,
    /// This page was found damaged in the lookup of a new or a swap. Nothing was written, and the tree runs on.
    Damaged(u32),
    /// A call of the disk failed, and the tree is stopped. The write is lost, or where it had begun to be appended unsure.
    Fault {
        /// Whether the append had begun.
        begun: bool,
    },
    /// The tree was stopped before, for this cause.
    Stopped(Why),
}

/// What a payment answers.
#[derive(Clone, Copy, PartialEq, Eq, Debug)]
pub enum Payment {
    /// One quantum was done.
    Paid,
    /// Nothing is owed.
    Settled,
    /// A call of the disk failed, and the tree is stopped.
    Fault,
    /// This page was found damaged, and the tree is stopped.
    Damaged(u32),
    /// The tree was stopped before, for this cause.
    Stopped(Why),
}

/// What a lookup answers.
#[derive(PartialEq, Eq, Debug, Drop)]
pub enum Lookup {
    /// The value of the key.
    Is(Value),
    /// The key has no value.
    Absent,
    /// A call of the disk failed.
    Fault,
    /// This page was found damaged.
    Damaged(u32),
    /// The tree was stopped before, for this cause.
    Stopped(Why),
}

/// What holding a range answers.
#[derive(Clone, Copy, PartialEq, Eq, Debug)]
pub enum Holding {
    /// The rows are held.
    Held,
    /// Memory was refused, and an earlier hold stays.
    NoMemory,
    /// The tree was stopped before, for this cause.
    Stopped(Why),
}

/// What reading on in a hold answers.
#[derive(Clone, Copy, PartialEq, Eq, Debug)]
pub enum Scan {
    /// So many rows were noted, the next ones of the hold: the history has them.
    Rows(u32),
    /// The caller has no hold.
    NoHold,
    /// A call of the disk failed.
    Fault,
    /// This page was found damaged.
    Damaged(u32),
    /// The tree was stopped before, for this cause.
    Stopped(Why),
}

/// What dropping a hold answers.
#[derive(Clone, Copy, PartialEq, Eq, Debug)]
pub enum Release {
    /// The hold is dropped.
    Done,
    /// The caller has no hold.
    NoHold,
    /// The tree was stopped before, for this cause.
    Stopped(Why),
}
