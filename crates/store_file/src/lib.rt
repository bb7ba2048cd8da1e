//! The layout of a store's file: how a disk of length 0 is made into a store, and what a disk must be to be one.
//! The opening of a store calls it.
#![tactic(auto)]

mod layout;
mod making;
mod reading;

pub use making::make_store;
pub use reading::{StoreBroken, one_geometry, read_geometry};
