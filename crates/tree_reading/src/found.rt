//! What reading a store's file finds, and why it gives up.

use blsm_model::Geometry;
use catalog_swap::Catalog;
use gated_log::Lanes;
use mem_table::Table;
use page_space::Space;
use thiserror::Error;
use tree_runs::{GuideRoom, Resumable};

/// A part of a store's file.
#[derive(Clone, Copy, PartialEq, Eq, Debug)]
pub enum Place {
    /// The two catalogue slots.
    Slots,
    /// The region of the log of this number.
    Lane(u8),
    /// The page of this number.
    Page(u32),
}

/// Why a disk was not read as a store.
#[derive(Clone, Copy, PartialEq, Eq, Debug, Drop, Error)]
pub enum Unreadable {
    /// The superblock isn't one, or the length isn't that of its geometry.
    #[error("the disk is not a store")]
    NotAStore,
    /// This is the first place that isn't of the written form.
    #[error("the store is damaged")]
    Damaged(Place),
    /// The newest catalogue has this version, which leaves too few.
    #[error("the store is worn: its version is {0}")]
    Worn(u64),
    /// A call of the disk failed.
    #[error("the disk failed")]
    Fault,
    /// Memory was refused.
    #[error("no memory")]
    NoMemory,
}

/// What a store's file has.
#[derive(Drop)]
pub struct Found {
    pub geometry: Geometry,
    /// The newest catalogue.
    pub catalogue: Catalog,
    /// The pages of C1, C1' and C2 have the tags 0, 1 and 2, and those of a deep merge that is taken up the tag 4; all others are free.
    pub space: Space,
    /// The tables that lanes A and B replay to, each with room for the high mark and one entry more.
    pub a: Table,
    pub b: Table,
    pub lanes: Lanes,
    /// How many records the lanes have.
    pub records_a: u64,
    pub records_b: u64,
    /// The filters and the fences of C1, C1' and C2, which have the tags 0, 1 and 2, and of a deep merge that is taken up, or none.
    pub guides: GuideRoom,
    /// With what the deep merge goes on that the catalogue names, if it names one.
    pub ahead: Option<Resumable>,
}
