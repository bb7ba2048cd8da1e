//! What one caller is printed where nobody else works: one function of the tree and its commands. The functions do nothing: each stands for the
//! law that its clause names.
#![tactic(auto)]

mod laws;

pub use laws::{alone_pays, runs_alone};
