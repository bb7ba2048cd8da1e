//! The memory table: the record of each key that was written, in key order, with room reserved for all that it may hold.
//! Contracts see a sorted list of keys and records, and the keys as they came. Whoever owns the log uses it.
//!
//! A table can be dropped up to a key: what has gone to a page needs no memory. The bytes of a key and its text are free at
//! once, 20 bytes of memory for each 16 of them; the 28 bytes of its place are free when the table is cleared.
#![tactic(auto)]

mod above;
mod lent;
mod nodes;
mod steps;
mod table;
mod ways;

pub use above::Above;
pub use lent::LentEntry;
pub use steps::Steps;
pub use table::Table;
