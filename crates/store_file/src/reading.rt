//! Reading: which store a disk is.
ghost use Rattle.std.specs.Prelude.{◌≡◌, ◌≤◌, ◌+◌, List, ℕ, length, Err, IsTrue, IfSome, IfNone, IfOk};
ghost use Rattle.std.specs.Int.{w32, from_be_bytes};
ghost use Rattle.disk_trait.specs.Disk.{part, TellsFaultsBy};
ghost use Rattle.disk_trait.specs.Reads.{OnlyReads};
ghost use Rattle.gated_write.specs.Gated.{open_byte};
ghost use Rattle.blsm_model.specs.Sizes.{Sizes, IsGeometry};
ghost use Rattle.blsm_model.specs.Geometry.{file_length};
ghost use Rattle.catalog_swap.specs.Slots.{odd_slot, even_slot, plain_length};
ghost use Rattle.store_file.specs.Layout.{superblock, superblock_length, IsStoreOf, HasFirstSlots};
ghost use Rattle.store_file.specs.Reading.{TellsGeometry};

use crate::layout::{HALF_AT, LOW_AT, QUANTUM_AT, RATIO_AT, SUPERBLOCK_LEN, superblock};
use big_endian::u32_at;
use blsm_model::Geometry;
use disk_trait::Disk;
use gated_write::OPEN;
use refusal::Failed;
use thiserror::Error;

/// Why a disk was not read as a store.
#[derive(Clone, Copy, PartialEq, Eq, Debug, Drop, Error)]
pub enum StoreBroken {
    /// A call of the disk failed.
    #[error("the disk failed")]
    Fault,
    /// The superblock isn't one, or the length isn't that of its geometry.
    #[error("the disk is not a store")]
    NotAStore,
}

impl From<Failed> for StoreBroken {
    ghost use Rattle.store_file.specs.declared.reading.StoreBroken.{StoreBroken};

    ghost from_gives = { λ _ broken. broken ≡ StoreBroken.Fault };

    fn from(_failed: Failed) -> StoreBroken {
        StoreBroken::Fault
    }
}

// The number of four bytes at a place.
fn number_at(block: &[u8; SUPERBLOCK_LEN], at: usize) -> u64
    requires { at + 4 ≤ SUPERBLOCK_LEN }
    ensures { result ≡ from_be_bytes w32 (part block.now at 4) }
{
    u64::from(u32_at(block, at))
}

// The geometry whose superblock this is, if there is one.
fn geometry_of(block: &[u8; SUPERBLOCK_LEN]) -> Option<Geometry>
    ensures found { IfSome result (λ sizes. IsGeometry sizes × (block.now ≡ superblock open_byte sizes)) }
    ensures none { IfNone result ((sizes : Sizes) → IsGeometry sizes → block.now ≡ superblock open_byte sizes → ⊥) }
{
    let half = number_at(block, HALF_AT);
    let ratio = number_at(block, RATIO_AT);
    let low = number_at(block, LOW_AT);
    let quantum = number_at(block, QUANTUM_AT);
    let Ok(geometry) = Geometry::new(half, ratio, low, quantum) else {
        return None;
    };
    if *block == superblock(OPEN, &geometry) {
        Some(geometry)
    } else {
        None
    }
}

/// Reads which geometry the store on a disk has, by its superblock and its length alone: `NotAStore` comes exactly where these
/// are those of no geometry.
///
/// It takes at most two calls of the disk: its length, and a read. No answer changes what the disk holds.
pub fn read_geometry<D: Disk>(disk: &mut D) -> Result<Geometry, StoreBroken>
    ensures tells { IsTrue (D.state disk.old).is_honest → TellsGeometry (D.state disk.old).bytes result }
    ensures length { IfOk result (λ sizes. IsTrue (D.state disk.old).tells_bytes → length (D.state disk.old).bytes ≡ file_length sizes) }
    ensures fits { IfOk result IsGeometry }
    ensures faults { TellsFaultsBy (Err StoreBroken.Fault) result (D.state disk.old) (D.state disk.new) }
    ensures effect { OnlyReads SUPERBLOCK_LEN 2 (D.state disk.old) (D.state disk.new) }
{
    let length = disk.len()?;
    if length < SUPERBLOCK_LEN as u64 {
        return Err(StoreBroken::NotAStore);
    }
    let mut block = [0; SUPERBLOCK_LEN];
    disk.read(0, &mut block)?;
    let Some(geometry) = geometry_of(&block) else {
        return Err(StoreBroken::NotAStore);
    };
    if length == geometry.length() {
        Ok(geometry)
    } else {
        Err(StoreBroken::NotAStore)
    }
}

/// A file is a store of one geometry at most. It stays it after any change outside its superblock that keeps its length, and its
/// slots stay as at making after any change outside of them.
pub fn one_geometry()
    ensures same { (a b : Sizes) (file : List ℕ) → IsStoreOf a file → IsStoreOf b file → a ≡ b }
    ensures kept { (sizes : Sizes) (old new : List ℕ) → part new 0 superblock_length ≡ part old 0 superblock_length
        → length new ≡ length old → IsStoreOf sizes old → IsStoreOf sizes new }
    ensures slots { (old new : List ℕ) → part new odd_slot plain_length ≡ part old odd_slot plain_length
        → part new even_slot plain_length ≡ part old even_slot plain_length → HasFirstSlots old → HasFirstSlots new }
{}
