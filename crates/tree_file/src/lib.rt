//! What the file of a store holds: a tree of five lists. Opening, the tree's calls and every promise on crashes share these words.
//!
//! The functions do nothing: each stands for the laws that its clauses name.
#![tactic(auto)]

mod laws;

pub use laws::{a_first_tree, a_tree_has_lists, a_tree_stays, one_tree};
