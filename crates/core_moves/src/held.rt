//! What the core has in memory.

use gear_sched::Gears;
use seat_book::SeatBook;
use tree_log::LoggedTables;
use tree_runs::Runs;

/// What settling took when a store was opened.
#[derive(Clone, Copy, PartialEq, Eq, Debug)]
pub struct Settled {
    /// The version of the newest catalogue behind it.
    pub version: u64,
    /// How many quanta it took.
    pub quanta: u64,
    /// How many it may take at most, by what the components and the tables weighed.
    pub bound: u64,
}

/// What the core of a tree has in memory.
#[derive(Drop)]
pub struct Held {
    /// The components, and the merges that run over them.
    pub runs: Runs,
    /// The memory table and its log.
    pub log: LoggedTables,
    /// What each write owes to the merges.
    pub gears: Gears,
    /// What the memory table weighed after the last swap of a pass, and what it took in since then while no pass ran, in bytes.
    pub spring: u64,
    /// The history, and what the seats did.
    pub book: SeatBook,
    /// What settling took when the store was opened.
    pub settled: Settled,
}
