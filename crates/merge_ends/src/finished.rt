//! What of a merge's run is on closed pages.
use blsm_model::{Component, Key};

/// The closed pages of a merge's run, of which there is one at least, and how far the merge had come when the last of them was closed. So it may be
/// taken up behind them.
#[derive(Debug, Drop)]
pub struct Finished {
    /// The pages, as a run of their own.
    pub output: Component,
    /// The page that the last of them names.
    pub next: u32,
    /// What comes of both inputs up to this key is on them, and no more. The greatest key on them may be a lower one, since what settles to nothing
    /// leaves no entry.
    pub key: Key,
    /// How much of the components was left above it, in bytes.
    pub left: u64,
}
