//! The three components of a tree and the two merges that run over them, on the pages of a store's file: a merge begins, takes a
//! quantum, and is swapped in by one commit of the catalogue. Whoever owns the disk, the memory table and the log drives it.
#![tactic(auto)]

mod guides;
mod holds;
mod laws;
mod lookup;
mod quanta;
mod resumable;
mod runs;
mod swaps;

pub use guides::{GuideRoom, PageStart};
pub use laws::{each_claims_its_own, others_may_write};
pub use resumable::{Cursors, Resumable};
pub use runs::{MergeRoom, Runs};
