//! Holds: snapshots of a range of keys over the tree of one moment. A hold has copies of the memory table's records of the range, and the
//! pages of the three components stay pinned for it, so that it gives the rows of its moment while merges go on. Whoever owns the
//! tables, the disk and the free-page map makes it and asks it for rows.
#![tactic(auto)]

mod copy;
mod gather;
mod hold;
mod holds;
mod laws;
mod least;
mod records;
mod row_room;
mod scan;
mod seek;
mod splice;

pub use hold::Hold;
pub use holds::Holds;
pub use laws::{pins_stay, rows_stay, what_is_read};
pub use row_room::RowRoom;
