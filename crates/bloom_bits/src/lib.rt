//! What tells where a key of a sorted run can be, without a look at the run: a Bloom filter over its keys, and its fences, which are
//! the first key of each of its pages with that page's number, and how much stands before it. Both are in memory, and their room is
//! reserved before.
//!
//! A filter's no is certain, its yes may be wrong: it says of a key that it may be there just where the bits of the keys that
//! were added cover the key's. The fences name the one page that can have a key, and the run from that page on. Writers of runs
//! fill both, and a lookup asks them.
#![tactic(auto)]

mod fences;
mod filter;
mod hash;

pub use fences::{Fence, Fences};
pub use filter::Filter;
pub use hash::fnv1a;
