//! Making: a disk of length 0 becomes a store that has no keys.
ghost use Rattle.std.specs.Prelude.{◌≡◌, ◌≤◌, ◌+◌, ◌-◌, ◌/◌, length, IsTrue, OnOk};
ghost use Rattle.disk_trait.specs.Disk.{HasWritten, TellsFaults};
ghost use Rattle.disk_trait.specs.Effects.{Affects};
ghost use Rattle.disk_trait.specs.Moments.{HasSynced, IsUnwritten};
ghost use Rattle.disk_trait.specs.Region.{span, IsSameOutside};
ghost use Rattle.blsm_model.specs.Sizes.{IsGeometry};
ghost use Rattle.blsm_model.specs.Geometry.{file_length};
ghost use Rattle.store_file.specs.Layout.{zeros, first_file};
ghost use Rattle.store_file.specs.Making.{IsHalfMade, LeavesOldOr, HasMade, making_calls};

use crate::layout::{BLOCK, FIRST_CATALOGUE, superblock_text};
use blsm_model::Geometry;
use catalog_swap::ODD_SLOT;
use disk_trait::Disk;
use gated_write::{OPEN, write_through};
use refusal::Failed;

const BLOCK_LEN: usize = BLOCK as usize;

static ZEROS: [u8; BLOCK_LEN] = [0; BLOCK_LEN];

// So many zeros, at most a block.
fn zero_bytes(count: u64) -> &'static [u8]
    requires { count ≤ BLOCK }
    ensures value { result.now ≡ zeros count }
    ensures len { length result.now ≡ count }
{
    &ZEROS[..count as usize]
}

// Writes over the beginning of the file. All that was written before is durable first, and so is this in the end.
fn write_between_syncs<D: Disk>(disk: &mut D, bytes: &[u8]) -> Result<(), Failed>
    ensures leaves { IsTrue (D.state disk.old).is_honest
        → LeavesOldOr (D.state disk.old) (D.state disk.new) (IsSameOutside (span 0 (length bytes.now)) (D.state disk.old).bytes) }
    ensures unsynced { IsTrue (D.state disk.old).is_honest → IsTrue (D.state disk.old).tells_images → IsUnwritten (D.state disk.old) (D.state disk.new) }
    ensures synced { OnOk result (IsTrue (D.state disk.old).tells_images → HasSynced (D.state disk.old) (D.state disk.new)) }
    ensures written { OnOk result (HasWritten 0 bytes.now (D.state disk.old) (D.state disk.new)) }
    ensures effect { Affects (span 0 (length bytes.now)) (length bytes.now) 3 (D.state disk.old) (D.state disk.new) }
    ensures faults { TellsFaults result (D.state disk.old) (D.state disk.new) }
{
    disk.sync()?; // what was written before
    write_through(disk, 0, bytes)
}

// Writes zeros behind the first block, up to this length in bytes.
fn write_zeros<D: Disk>(disk: &mut D, end: u64) -> Result<(), Failed>
    requires start { BLOCK ≤ end }
    requires block { IsTrue (D.state disk.old).tells_bytes → length (D.state disk.old).bytes ≡ BLOCK }
    ensures written { OnOk result (IsTrue (D.state disk.old).is_honest → (D.state disk.old).bytes ≡ zeros BLOCK → (D.state disk.new).bytes ≡ zeros end) }
    ensures length { OnOk result (IsTrue (D.state disk.old).tells_bytes → length (D.state disk.new).bytes ≡ end) }
    ensures effect { Affects (span BLOCK (end - BLOCK)) end ((end - 1) / BLOCK) (D.state disk.old) (D.state disk.new) }
    ensures faults { TellsFaults result (D.state disk.old) (D.state disk.new) }
{
    let mut at = BLOCK;
    while at < end {
        let count = (end - at).min(BLOCK);
        disk.write(at, zero_bytes(count))?;
        at += count;
    }
    Ok(())
}

// Writes all but the gate: zeros behind the first block, the first catalogue, and what the superblock says.
fn write_behind_gate<D: Disk>(disk: &mut D, geometry: &Geometry) -> Result<(), Failed>
    requires { IsTrue (D.state disk.old).tells_bytes → length (D.state disk.old).bytes ≡ BLOCK }
    ensures fits { OnOk result (IsGeometry geometry.now) }
    ensures written { OnOk result (IsTrue (D.state disk.old).is_honest → (D.state disk.old).bytes ≡ zeros BLOCK
        → (D.state disk.new).bytes ≡ first_file 0 geometry.now) }
    ensures length { OnOk result (IsTrue (D.state disk.old).tells_bytes → length (D.state disk.new).bytes ≡ file_length geometry.now) }
    ensures effect { Affects (span 1 (file_length geometry.now - 1)) (file_length geometry.now) ((file_length geometry.now - 1) / BLOCK + 2)
        (D.state disk.old) (D.state disk.new) }
    ensures faults { TellsFaults result (D.state disk.old) (D.state disk.new) }
{
    let _half = geometry.half();
    write_zeros(disk, geometry.length())?;
    disk.write(ODD_SLOT, &FIRST_CATALOGUE)?;
    disk.write(1, &superblock_text(geometry))?;
    Ok(())
}

/// Makes a store of this geometry, with no keys, out of a disk of length 0. The file gets its whole length, in bytes.
///
/// All is written with the superblock's gate closed and synced before that gate is opened, so a crash leaves no store, or the
/// store that was to be made, whatever is answered. After an `Err` the disk reads as one of these too, and no byte behind the
/// store's length was written.
pub fn make_store<D: Disk>(disk: &mut D, geometry: &Geometry) -> Result<(), Failed>
    requires { IsTrue (D.state disk.old).tells_bytes → length (D.state disk.old).bytes ≡ 0 }
    ensures half_made { IsTrue (D.state disk.old).is_honest → LeavesOldOr (D.state disk.old) (D.state disk.new) (IsHalfMade geometry.now) }
    ensures unsynced { IsTrue (D.state disk.old).is_honest → IsTrue (D.state disk.old).tells_images → IsUnwritten (D.state disk.old) (D.state disk.new) }
    ensures made { OnOk result (HasMade geometry.now (D.state disk.old) (D.state disk.new)) }
    ensures effect { Affects (span 0 (file_length geometry.now)) (file_length geometry.now) (making_calls geometry.now)
        (D.state disk.old) (D.state disk.new) }
    ensures faults { TellsFaults result (D.state disk.old) (D.state disk.new) }
{
    // Until a sync, a write may leave any bytes in its range, a whole store of other keys among them. So the file stays
    // shorter than any store until its gate is known to be closed. The sync before it is for a disk that reads as empty and
    // may still have the bytes of an earlier write that failed.
    write_between_syncs(disk, zero_bytes(BLOCK))?;
    write_behind_gate(disk, geometry)?;
    write_between_syncs(disk, &[OPEN])?;
    Ok(())
}
