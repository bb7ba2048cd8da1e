//! The program's one call: it reads the words, does what they ask for over a shelf of disks, and prints the answer.
//! `main` makes the real ends, calls it, and ends with its status.
#![tactic(auto)]

mod answer;
mod outcome;
mod perform;
mod run;
mod source;
mod status;
mod stores;

pub use run::blsm_run;
pub use status::Status;
