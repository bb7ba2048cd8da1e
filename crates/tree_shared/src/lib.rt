//! Callers and merge workers of a store, each in a thread of its own, over one core behind a lock.
//!
//! One hold of the lock is one call of the core. Between two holds a gate is called, at which a test may make threads wait for one another.
#![tactic(auto)]

mod commands;
mod holds;
mod jobs;
mod laws;
mod told;

pub use commands::do_one;
pub use jobs::{run_all, worker};
pub use laws::an_opened_core_is_fresh;
pub use told::Told;
