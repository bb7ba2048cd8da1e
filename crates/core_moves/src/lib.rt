//! What the core of a tree has in memory, and each move that it makes: a merge begins, takes a quantum or is swapped in; a write is appended
//! and taken. Whoever owns the disk and the order of the moves drives it.
#![tactic(auto)]

mod held;
mod quanta;
mod swaps;
mod writes;

pub use held::{Held, Settled};
