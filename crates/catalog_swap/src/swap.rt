//! From one catalogue to the next.
ghost use Rattle.std.specs.Prelude.{◌≡◌, ◌≤◌, ◌<◌, ◌+◌, ◌∷◌, ◌^◌, List, ℕ, length, IsTrue, OnOk};
ghost use Rattle.disk_trait.specs.Disk.{HasWritten, TellsFaults};
ghost use Rattle.disk_trait.specs.Effects.{Affects};
ghost use Rattle.disk_trait.specs.Moments.{LeavesOnly};
ghost use Rattle.disk_trait.specs.Region.{span};
ghost use Rattle.gated_write.specs.Gated.{IsClosed};
ghost use Rattle.blsm_model.specs.Geometry.{file_length};
ghost use Rattle.catalog_swap.specs.declared.catalog.Catalog.{Catalog};
ghost use Rattle.blsm_model.specs.Lanes.{spare_of, region_start};
ghost use Rattle.catalog_swap.specs.Text.{HasKey, slot_text};
ghost use Rattle.catalog_swap.specs.Slots.{slot_of, other_slot, slot_length, IsNewest};
ghost use Rattle.catalog_swap.specs.Swap.{prepared, IsSettled, IsPrepared, IsReady, IsNext, IsEither};

use crate::catalog::{BODY_LEN, Catalog, put_body};
use crate::slots::{other_slot, slot_of};
use blsm_model::Geometry;
use disk_trait::Disk;
use gated_write::{CLOSED, OPEN, write_gated, write_through};
use refusal::Failed;

// The bytes of a store's file before the lanes of the log, and how many halves of the spring a lane has.
const HEAD_LEN: u64 = 4_096;

const LANE_HALVES: u64 = 4;

// Where a lane begins in the file.
fn start_of(geo: &Geometry, lane: u8) -> u64
    requires { lane < 3 }
    ensures start { result ≡ region_start geo.now lane }
    ensures inside { result + 1 ≤ file_length geo.now }
    ensures small { file_length geo.now < 2 ^ 63 }
{
    HEAD_LEN + LANE_HALVES * geo.half() * u64::from(lane)
}

// Closes a gate, where it reads open. A write over a closed one could open it in a crash.
fn close_gate<D: Disk>(disk: &mut D, at: u64) -> Result<(), Failed>
    requires inside { IsTrue (D.state disk.old).tells_bytes → at + 1 ≤ length (D.state disk.old).bytes }
    requires small { at + 1 < 2 ^ 64 }
    ensures closed { OnOk result (IsTrue (D.state disk.old).is_honest → IsClosed at (D.state disk.new).bytes) }
    ensures kept { IsTrue (D.state disk.old).is_honest → IsClosed at (D.state disk.old).bytes
        → (D.state disk.new).bytes ≡ (D.state disk.old).bytes }
    ensures each { IsTrue (D.state disk.old).is_honest → IsClosed at (D.state disk.old).bytes
        → LeavesOnly (D.state disk.old) (D.state disk.new) (D.state disk.old).images }
    ensures effect { Affects (span at 1) (at + 1) 2 (D.state disk.old) (D.state disk.new) }
    ensures faults { TellsFaults result (D.state disk.old) (D.state disk.new) }
{
    let mut gate = [0];
    disk.read(at, &mut gate)?;
    if gate[0] == OPEN {
        disk.write(at, &[CLOSED])?;
    }
    Ok(())
}

/// Makes the slots and the spare lane ready for the commit of the version after `now`, the newest one: closes the gate of the
/// older slot, where it reads open, and the first gate of the spare lane, and makes that durable.
///
/// Where the disk is settled at `now` (`IsSettled`), `now` stays the newest in every image of every moment, whatever is
/// answered. After `Ok` the disk is prepared (`IsPrepared`): a crash leaves what a read gives, and the older slot and the spare
/// lane are closed. A prepared disk whose newest catalogue is `now` is ready for the commit (`IsReady`).
pub fn prepare<D: Disk>(disk: &mut D, geo: &Geometry, now: &Catalog) -> Result<(), Failed>
    requires length { IsTrue (D.state disk.old).tells_bytes → length (D.state disk.old).bytes ≡ file_length geo.now }
    requires lane { spare_of now.now.lanes < 3 }
    ensures each { IsTrue (D.state disk.old).is_honest → IsSettled geo.now now.now (D.state disk.old)
        → LeavesOnly (D.state disk.old) (D.state disk.new) (IsNewest geo.now now.now) }
    ensures reads { IsTrue (D.state disk.old).is_honest → IsNewest geo.now now.now (D.state disk.old).bytes
        → IsNewest geo.now now.now (D.state disk.new).bytes }
    ensures prepared { OnOk result (IsTrue (D.state disk.old).is_honest → IsPrepared geo.now now.now (D.state disk.new)) }
    ensures effect { Affects (prepared geo.now now.now) (file_length geo.now) 4 (D.state disk.old) (D.state disk.new) }
    ensures faults { TellsFaults result (D.state disk.old) (D.state disk.new) }
{
    let [_, _, spare] = now.lanes;
    let spare_gate = start_of(geo, spare);
    close_gate(disk, other_slot(now.version))?;
    write_through(disk, spare_gate, &[CLOSED])?;
    Ok(())
}

/// Commits the next catalogue: writes it into the slot of its version behind a closed gate, makes it durable, opens the gate,
/// and makes that durable.
///
/// Where the disk is ready for it (`IsReady`, of the catalogue whose version is one less), the newest catalogue of every image
/// of every moment is the old one or the new one, whatever is answered. After `Ok` it is the new one, and a crash leaves what a
/// read gives.
pub fn commit<D: Disk>(disk: &mut D, geo: &Geometry, new: &Catalog) -> Result<(), Failed>
    requires { IsTrue (D.state disk.old).tells_bytes → length (D.state disk.old).bytes ≡ file_length geo.now }
    ensures each { IsTrue (D.state disk.old).is_honest → (now : Catalog) → IsNext geo.now now new.now
        → IsReady geo.now now (D.state disk.old)
        → LeavesOnly (D.state disk.old) (D.state disk.new) (IsEither geo.now now new.now) }
    ensures reads { IsTrue (D.state disk.old).is_honest → (now : Catalog) → IsNext geo.now now new.now
        → IsReady geo.now now (D.state disk.old) → IsEither geo.now now new.now (D.state disk.new).bytes }
    ensures committed { OnOk result (IsTrue (D.state disk.old).is_honest → (now : Catalog) → IsNext geo.now now new.now
        → IsReady geo.now now (D.state disk.old) → IsSettled geo.now new.now (D.state disk.new)) }
    ensures key { HasKey new.now.progress }
    ensures written { OnOk result (HasWritten (slot_of new.now.version) (slot_text new.now) (D.state disk.old) (D.state disk.new)) }
    ensures effect { Affects (span (slot_of new.now.version) slot_length) (file_length geo.now) 4 (D.state disk.old) (D.state disk.new) }
    ensures faults { TellsFaults result (D.state disk.old) (D.state disk.new) }
{
    let mut body = [0; BODY_LEN];
    let len = put_body(&mut body, new);
    write_gated(disk, slot_of(new.version), &body[..len])
}
