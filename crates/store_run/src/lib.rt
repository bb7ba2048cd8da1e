//! The run of a script over the store on a disk: the store is opened, callers and merge workers on threads do the script's lines, or one thread does
//! them one after another, and the disk comes back with what there is to print.
#![tactic(auto)]

mod ending;
mod run;
mod settling;

pub use core_moves::Settled;
pub use run::{Ending, Finished, finish, run_in_order, run_over};
pub use settling::settle_over;
