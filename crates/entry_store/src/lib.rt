//! Keys and records at numbered places, with their bytes in chunks. Contracts see the list of them, and how much they may
//! weigh. Of an entry that is removed the chunks are free at once, and its place when the store is cleared. The memory table
//! stands on it.
#![tactic(auto)]

mod chunks;
mod store;

pub use store::{LEAST_WEIGHT, Store, places_for};
