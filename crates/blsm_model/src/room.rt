//! Callers' seats, and the room of each.

/// How many seats there are for callers. They are numbered from 0.
pub const CALLERS: u32 = 16;

const SEATS: usize = CALLERS as usize;

/// How many entries, and how many rows, each caller's seat may still note. In all there are at most 65,537 entries and
/// 131,072 rows: those of the longest script, and one entry.
#[derive(Clone, Copy, PartialEq, Eq, Debug)]
pub struct Room {
    /// The entries that each seat may still note.
    pub entries: [u32; SEATS],
    /// The rows that the replies to each seat may still give, together.
    pub rows: [u32; SEATS],
}
