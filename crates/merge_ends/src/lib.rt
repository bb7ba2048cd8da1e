//! The two ends of a merge: a component that it reads, as an input of which all up to a key was taken, and the run that it writes.
//! The merges use it.
#![tactic(auto)]

mod finished;
mod input;
mod laws;
mod merge;
mod newer;
mod output;

pub use finished::Finished;
pub use input::{go_above, is_through, left_above};
pub use laws::what_is_finished;
pub use merge::Merge;
pub use newer::Newer;
