//! Components on disk.

/// Where a sorted run lies on the disk, and what it holds.
#[derive(Clone, Copy, PartialEq, Eq, Debug)]
pub struct Component {
    /// The number of its first page; 2^32 - 1 where it is empty.
    pub first: u32,
    /// How many pages it has.
    pub pages: u32,
    /// How many entries it has.
    pub entries: u64,
    /// The weights of its entries together, in bytes.
    pub weight: u64,
}
