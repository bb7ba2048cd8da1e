//! One step of a merge of two sorted runs: the least key, its records folded, and the weight that the step takes.
#![tactic(auto)]

mod group;
mod laws;

pub use group::{Taken, least_group, least_of_lent, lying};
pub use laws::{
    a_list_is_taken, a_merge_goes_on, a_step_of_a_merge, a_table_that_grows_ahead, folds_per_key,
};
