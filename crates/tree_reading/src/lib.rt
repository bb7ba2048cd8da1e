//! How a store's file is read, once and in one order: the superblock and the length, the catalogue slots, the version, the pages of C1,
//! C1' and C2, and the lanes A and B of the log. It refuses at the first place that isn't of the written form. Opening a store and checking
//! it both read this way.
#![tactic(auto)]

mod components;
mod first;
mod found;
mod head;
mod lane;
mod lanes;
mod laws;
mod pages;
mod reading;
mod report;

pub use first::{a_map_is_read, one_reason};
pub use found::{Found, Place, Unreadable};
pub use laws::{a_damage_is_no_tree, what_is_found_is_a_tree};
pub use reading::{Purpose, read_tree};
pub use report::{Report, check_store};
