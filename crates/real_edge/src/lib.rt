//! The standard streams as a source and a sink, a file as a disk, and the files of a file system as a shelf. What they give and
//! take is not told: only that a call which fails has raised their count of faults. A program's `main` makes them.
//!
//! What a real file is taken for, so that what is proved of a disk which tells its bytes and images holds of a file too:
//!
//! - A read gives what the last write at that place wrote, and the file is as long as its writes made it. After a write that
//!   failed, its range and what stands behind the old end may read as anything, and bytes outside stay.
//! - After a sync that ended well a crash leaves what a read gives. Before it, each range that was written and what stands behind
//!   the old end may hold anything after a crash, and bytes outside stay.
//! - Nobody else writes the file, cuts it off or takes its name from it. The lock of a fetch keeps out only those who ask for it.
//! - A file that a fetch made has its name after a crash, since the folder that names it was synced. The folders above it are
//!   taken to stand.
//!
//! No proof and no test shows this. Nor is it said what a crash leaves of a file that was just fetched: who had it before may have
//! been cut off before a sync.
#![tactic(auto)]

mod disk;
mod shelf;
mod sink;
mod source;

pub use disk::FileDisk;
pub use shelf::FileShelf;
pub use sink::StdSink;
pub use source::StdSource;

#[cfg(test)]
mod tests;
