//! The write-ahead log: three lanes of entries, each in a region of its own on the store's disk. A lane is open gates, each
//! with its record, and then a gate that is closed. A record is one entry, or several that stand or fall together; one that is
//! acknowledged stands in every crash image. The core appends each write to the lane of its memory table, and opening replays a
//! lane to that table, entry by entry.
#![tactic(auto)]

mod lanes;
mod records;
mod region;
mod replay;

pub use lanes::Lanes;
pub use region::{HEAD_LEN, kept_lanes, one_list, place_in_file};
pub use replay::{LaneBroken, Replay};
