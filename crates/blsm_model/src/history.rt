//! Replies, and the entries of a history.
ghost use Rattle.std.specs.Prelude.{◌≡◌};
ghost use Rattle.blsm_model.specs.Stored.{as_reply};

use crate::{Op, RowList, Value};

/// Why the store is stopped.
#[derive(Clone, Copy, PartialEq, Eq, Debug)]
pub enum Why {
    /// The disk's count of faults after the call that failed.
    Faulted(u64),
    /// The number of the page that was found damaged.
    BadPage(u32),
}

/// The reply to a command.
#[derive(PartialEq, Eq, Debug, Drop)]
pub enum Reply {
    /// The write is done, or the held rows are dropped.
    Done,
    /// The value of the key.
    Is(Value),
    /// The key has no value.
    Absent,
    /// The condition of a new or a swap doesn't hold: this is the value of the key, if it has one.
    Kept(Option<Value>),
    /// The rows of the range are held.
    Held,
    /// The next rows of those that the caller holds.
    Rows(RowList),
    /// The caller holds no rows.
    NoHold,
    /// How many turns of work were done.
    Did(u32),
    /// The write is refused for its size. The number is the charge, in bytes.
    Full(u64),
    /// A hold is refused for want of memory. The caller keeps the rows that it held.
    NoMemory,
    /// The write failed and is in no image of the disk.
    FaultLost,
    /// The write failed and may be in an image of the disk or not.
    FaultUnsure,
    /// The disk failed.
    Fault,
    /// The number of the page that was found damaged.
    Damaged(u32),
    /// The store is stopped.
    Stopped(Why),
}

/// A reply that gives no rows. A `Reply` has room for 32 rows and is moved whole, some 17 kilobytes at each hand-over, and
/// this one is some 460 bytes.
#[derive(PartialEq, Eq, Debug, Drop)]
pub enum ShortReply {
    /// The write is done, or the held rows are dropped.
    Done,
    /// The value of the key.
    Is(Value),
    /// The key has no value.
    Absent,
    /// The condition of a new or a swap doesn't hold: this is the value of the key, if it has one.
    Kept(Option<Value>),
    /// The rows of the range are held.
    Held,
    /// The caller holds no rows.
    NoHold,
    /// How many turns of work were done.
    Did(u32),
    /// The write is refused for its size. The number is the charge, in bytes.
    Full(u64),
    /// A hold is refused for want of memory.
    NoMemory,
    /// The write failed and is in no image of the disk.
    FaultLost,
    /// The write failed and may be in an image of the disk or not.
    FaultUnsure,
    /// The disk failed.
    Fault,
    /// The number of the page that was found damaged.
    Damaged(u32),
    /// The store is stopped.
    Stopped(Why),
}

// The same value, if there is one.
fn copy_of(value: &Option<Value>) -> Option<Value>
    ensures { result ≡ value.now }
{
    match value {
        Some(value) => Some(value.copy()),
        None => None,
    }
}

impl Reply {
    /// The same reply once more. It takes no memory.
    pub fn copy(&self) -> Reply
        ensures { result ≡ self.now }
    {
        match self {
            Reply::Done => Reply::Done,
            Reply::Is(value) => Reply::Is(value.copy()),
            Reply::Absent => Reply::Absent,
            Reply::Kept(value) => Reply::Kept(copy_of(value)),
            Reply::Held => Reply::Held,
            Reply::Rows(rows) => Reply::Rows(rows.copy()),
            Reply::NoHold => Reply::NoHold,
            Reply::Did(turns) => Reply::Did(*turns),
            Reply::Full(charge) => Reply::Full(*charge),
            Reply::NoMemory => Reply::NoMemory,
            Reply::FaultLost => Reply::FaultLost,
            Reply::FaultUnsure => Reply::FaultUnsure,
            Reply::Fault => Reply::Fault,
            Reply::Damaged(page) => Reply::Damaged(*page),
            Reply::Stopped(why) => Reply::Stopped(*why),
        }
    }
}

impl ShortReply {
    /// The reply that it is.
    pub fn to_reply(&self) -> Reply
        ensures { result ≡ as_reply self.now }
    {
        match self {
            ShortReply::Done => Reply::Done,
            ShortReply::Is(value) => Reply::Is(value.copy()),
            ShortReply::Absent => Reply::Absent,
            ShortReply::Kept(value) => Reply::Kept(copy_of(value)),
            ShortReply::Held => Reply::Held,
            ShortReply::NoHold => Reply::NoHold,
            ShortReply::Did(turns) => Reply::Did(*turns),
            ShortReply::Full(charge) => Reply::Full(*charge),
            ShortReply::NoMemory => Reply::NoMemory,
            ShortReply::FaultLost => Reply::FaultLost,
            ShortReply::FaultUnsure => Reply::FaultUnsure,
            ShortReply::Fault => Reply::Fault,
            ShortReply::Damaged(page) => Reply::Damaged(*page),
            ShortReply::Stopped(why) => Reply::Stopped(*why),
        }
    }
}

/// A command that was answered: one entry of a history.
#[derive(PartialEq, Eq, Debug, Drop)]
pub struct Entry {
    /// The seat of the caller, from 0.
    pub seat: u32,
    /// What it asked for.
    pub op: Op,
    /// What it was answered.
    pub reply: Reply,
}

impl Entry {
    /// The same entry once more. It takes no memory.
    pub fn copy(&self) -> Entry
        ensures { result ≡ self.now }
    {
        Entry {
            seat: self.seat,
            op: self.op.copy(),
            reply: self.reply.copy(),
        }
    }
}

/// One line of a script: a command that a caller is to give.
#[derive(PartialEq, Eq, Debug, Drop)]
pub struct Line {
    /// The seat of the caller, from 0.
    pub seat: u32,
    /// What it is to ask for.
    pub op: Op,
}

impl Line {
    /// The same line once more. It takes no memory.
    pub fn copy(&self) -> Line
        ensures { result ≡ self.now }
    {
        Line {
            seat: self.seat,
            op: self.op.copy(),
        }
    }
}

/// The numbers of a whole run, from the opening of the store to its end. The last line of a history has all but the last two.
#[derive(Clone, Copy, PartialEq, Eq, Debug)]
pub struct Totals {
    /// The greatest weight of the memory table at the end of any step, in bytes.
    pub peak: u64,
    /// How much the memory table may weigh, in bytes.
    pub high: u64,
    /// The merge quanta of callers.
    pub callers: u64,
    /// The merge quanta of workers.
    pub workers: u64,
    /// The swaps that ended a pass.
    pub passes: u64,
    /// The swaps that ended a deep merge.
    pub deeps: u64,
    /// The charge at the end, in bytes.
    pub charge: u64,
    /// Why the store is stopped, if it is.
    pub stopped: Option<Why>,
}
