//! A disk, and a shelf of named disks, as traits: what each call promises, what a crash may leave, and how often a call has failed.
//! Whatever stores bytes is generic over `Disk`; whatever opens files by name is generic over `Shelf`.
#![tactic(auto)]

mod disk;
mod shelf;

pub use disk::Disk;
pub use shelf::Shelf;
