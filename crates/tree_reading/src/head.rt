//! The head of a store: its superblock and length, and its newest catalogue.
ghost use Rattle.std.specs.Prelude.{◌≡◌, ◌↔◌, length, Err, IsTrue, IfOk, IfErr, IsErr};
ghost use Rattle.disk_trait.specs.Disk.{TellsFaultsBy};
ghost use Rattle.disk_trait.specs.Reads.{OnlyReads};
ghost use Rattle.blsm_model.specs.Sizes.{IsGeometry};
ghost use Rattle.blsm_model.specs.Geometry.{file_length};
ghost use Rattle.store_file.specs.Layout.{IsStoreOf, superblock_length};
ghost use Rattle.tree_reading.specs.Damage.{FitsMarks, HasCatalogue};
ghost use Rattle.tree_reading.specs.Reading.{HasLooked, IsHead, IsWhy, head_calls};

use crate::found::{Place, Unreadable};
use blsm_model::Geometry;
use catalog_swap::{Catalog, SlotsBroken, newest};
use disk_trait::Disk;
use store_file::{StoreBroken, read_geometry};

// The greatest version that is taken.
const MOST_VERSION: u64 = 1 << 62;

/// The superblock, the length, the slots and the version.
#[derive(PartialEq, Eq, Debug, Drop)]
pub struct Head {
    /// The geometry.
    pub geometry: Geometry,
    /// The newest catalogue.
    pub catalogue: Catalog,
}

// Whether C1 is below its mark and all components are within the capacity, by the catalogue.
fn fits_marks(catalogue: &Catalog, geometry: &Geometry) -> bool
    ensures { IsTrue result ↔ FitsMarks geometry.now catalogue.now }
{
    let c1 = catalogue.c1.weight;
    let c1x = catalogue.c1x.weight;
    let c2 = catalogue.c2.weight;
    let capacity = geometry.capacity();
    c1 < geometry.c1_mark() && c1 <= capacity && c1x <= capacity - c1 && c2 <= capacity - c1 - c1x
}

// Reads the superblock and the length.
fn read_sizes<D: Disk>(disk: &mut D) -> Result<Geometry, Unreadable>
    ensures found { IsTrue (D.state disk.old).is_honest → IfOk result (λ sizes. IsStoreOf sizes (D.state disk.old).bytes) }
    ensures refused { IsTrue (D.state disk.old).is_honest → IfErr result (λ why. IsWhy why (D.state disk.old).bytes) }
    ensures length { IfOk result (λ sizes. IsTrue (D.state disk.old).tells_bytes → length (D.state disk.old).bytes ≡ file_length sizes) }
    ensures fits { IfOk result IsGeometry }
    ensures faults { TellsFaultsBy (Err Unreadable.Fault) result (D.state disk.old) (D.state disk.new) }
    ensures effect { OnlyReads superblock_length 2 (D.state disk.old) (D.state disk.new) }
{
    match read_geometry(disk) {
        Ok(geometry) => Ok(geometry),
        Err(StoreBroken::NotAStore) => Err(Unreadable::NotAStore),
        Err(StoreBroken::Fault) => Err(Unreadable::Fault),
    }
}

// Reads the newest catalogue.
fn read_catalogue<D: Disk>(disk: &mut D, geometry: &Geometry) -> Result<Catalog, Unreadable>
    requires { IsTrue (D.state disk.old).tells_bytes → length (D.state disk.old).bytes ≡ file_length geometry.now }
    ensures found { IsTrue (D.state disk.old).is_honest → IsStoreOf geometry.now (D.state disk.old).bytes
        → IfOk result (λ catalogue. HasCatalogue geometry.now catalogue (D.state disk.old).bytes) }
    ensures refused { IsTrue (D.state disk.old).is_honest → IsStoreOf geometry.now (D.state disk.old).bytes
        → IfErr result (λ why. IsWhy why (D.state disk.old).bytes) }
    ensures fits { IfOk result (IsHead geometry.now) }
    ensures faults { TellsFaultsBy (Err Unreadable.Fault) result (D.state disk.old) (D.state disk.new) }
    ensures effect { OnlyReads (file_length geometry.now) 2 (D.state disk.old) (D.state disk.new) }
{
    let _half = geometry.half();
    let catalogue = match newest(disk, geometry) {
        Ok(catalogue) => catalogue,
        Err(SlotsBroken::Damaged) => return Err(Unreadable::Damaged(Place::Slots)),
        Err(SlotsBroken::Fault) => return Err(Unreadable::Fault),
    };
    if !fits_marks(&catalogue, geometry) {
        return Err(Unreadable::Damaged(Place::Slots));
    }
    if catalogue.version > MOST_VERSION {
        return Err(Unreadable::Worn(catalogue.version));
    }
    Ok(catalogue)
}

/// Reads the superblock and the length, then the slots, with four calls of the disk at most.
pub(crate) fn read_head<D: Disk>(disk: &mut D) -> Result<Head, Unreadable>
    ensures found { IsTrue (D.state disk.old).is_honest → IfOk result (λ head. HasCatalogue head.geometry head.catalogue (D.state disk.old).bytes) }
    ensures refused { IsTrue (D.state disk.old).is_honest → IfErr result (λ why. IsWhy why (D.state disk.old).bytes) }
    ensures length { IfOk result (λ head. IsTrue (D.state disk.old).tells_bytes → length (D.state disk.old).bytes ≡ file_length head.geometry) }
    ensures fits { IfOk result (λ head. IsHead head.geometry head.catalogue) }
    ensures faults { TellsFaultsBy (Err Unreadable.Fault) result (D.state disk.old) (D.state disk.new) }
    ensures effect { IfOk result (λ head. OnlyReads (file_length head.geometry) 4 (D.state disk.old) (D.state disk.new)) }
    ensures looked { IsErr result → HasLooked head_calls (D.state disk.old) (D.state disk.new) }
{
    let geometry = read_sizes(disk)?;
    let catalogue = read_catalogue(disk, &geometry)?;
    Ok(Head {
        geometry,
        catalogue,
    })
}
