//! A script, run over the core of a tree on one thread: each line's command is done to its end before the next begins.
#![tactic(auto)]

mod holds;
mod laws;
mod session;
mod works;
mod writes;

pub use laws::an_opened_core_rests;
pub use session::{perform, run_lines};
