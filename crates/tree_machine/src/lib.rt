//! The tree as a machine over lists: its state, its steps, and the answer of each. It has sorted lists where the store has
//! tables, pages and a log, so that what the store answers, how its merges are paced and what a crash leaves can be said of
//! lists and numbers. The core's calls are its steps. It touches no disk.
#![tactic(auto)]

mod laws;
mod step;

pub use laws::{
    merges_fold, outcomes_are_told, seats_apart, snowshovelling, steps_change_little, steps_stand,
};
pub use step::{Kind, Step};
