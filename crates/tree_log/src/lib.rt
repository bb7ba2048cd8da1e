//! The memory table of a tree: table A, which the pass takes from, and table B, of the next pass, each with its lane of the write-ahead log.
//! A write is in its table once it is acknowledged by its lane. What the pass has written to finished pages may be dropped of table A: it is
//! in the lane and in the table's list still, but not in memory. Whoever owns the disk and the merges drives it.
#![tactic(auto)]

mod laws;
mod logged;

pub use laws::{a_drop_shows_nothing, entries_join, tables_turn};
pub use logged::LoggedTables;
