//! How the output of a deep merge is read that was left before its end: the finished pages of its run, walked beside C1' and C2, which it comes
//! of. They are what both have up to a key, folded key by key and settled, and the first page that departs from that is damaged. Who opens or
//! checks a store reads it so, and takes the merge up with what the walk hands on.
#![tactic(auto)]

mod inputs;
mod output;
mod walk;

pub use walk::walk_output;
