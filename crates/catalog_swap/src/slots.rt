//! The slots, and the newest catalogue.
ghost use Rattle.std.specs.Prelude.{◌≡◌, ◌≤◌, ◌<◌, ◌+◌, ◌∷◌, ◌^◌, List, ℕ, length, drop, IsTrue, IfOk, IfSome, IfNone, IfErr, Ok, Err};
ghost use Rattle.disk_trait.specs.Disk.{part, TellsFaultsBy};
ghost use Rattle.disk_trait.specs.Reads.{OnlyReads};
ghost use Rattle.blsm_model.specs.Sizes.{Sizes};
ghost use Rattle.blsm_model.specs.Geometry.{file_length};
ghost use Rattle.catalog_swap.specs.declared.catalog.Catalog.{Catalog};
ghost use Rattle.catalog_swap.specs.declared.slots.SlotsBroken.TheVariants.{Damaged};
ghost use Rattle.catalog_swap.specs.Text.{IsCatalog, BeginsWith};
ghost use Rattle.catalog_swap.specs.Slots.{slot_of, other_slot, odd_slot, even_slot};
ghost use Rattle.catalog_swap.specs.Reading.{TellsNewest, TellsSlot};

use crate::catalog::{BODY_LEN, Catalog, catalog_in, is_catalog};
use blsm_model::Geometry;
use disk_trait::Disk;
use gated_write::OPEN;
use refusal::Failed;
use thiserror::Error;

/// Where the slot of the odd versions begins.
pub const ODD_SLOT: u64 = 512;

/// Where the slot of the even versions begins.
pub const EVEN_SLOT: u64 = 1_024;

/// The length of a slot at most, in bytes.
pub const SLOT_LEN: usize = BODY_LEN + 1;

/// The length of a slot that names no deep merge's progress, in bytes.
pub const PLAIN_LEN: usize = 85;

/// Why no catalogue was read.
#[derive(Clone, Copy, PartialEq, Eq, Debug, Drop, Error)]
pub enum SlotsBroken {
    /// A read of the disk failed.
    #[error("a read of a catalogue slot failed")]
    Fault,
    /// No slot is open, or an open one has no valid body.
    #[error("the catalogue slots are damaged")]
    Damaged,
}

impl From<Failed> for SlotsBroken {
    ghost use Rattle.std.specs.Prelude.{◌≡◌};
    ghost use Rattle.catalog_swap.specs.declared.slots.SlotsBroken.TheVariants.{Fault};

    ghost from_gives = { λ _ broken. broken ≡ Fault };

    fn from(_failed: Failed) -> SlotsBroken {
        SlotsBroken::Fault
    }
}

// Where the slot of a version begins.
pub fn slot_of(version: u64) -> u64
    ensures { result ≡ slot_of version }
{
    if version % 2 == 1 {
        ODD_SLOT
    } else {
        EVEN_SLOT
    }
}

// Where the other slot begins.
pub fn other_slot(version: u64) -> u64
    ensures { result ≡ other_slot version }
{
    if version % 2 == 1 {
        EVEN_SLOT
    } else {
        ODD_SLOT
    }
}

// The catalogue of an open slot, if its body is valid.
fn valid_catalog(body: &[u8], geo: &Geometry, at: u64) -> Option<Catalog>
    requires { length body.now ≡ BODY_LEN }
    ensures found { IfSome result (λ found. IsCatalog geo.now found × (slot_of found.version ≡ at) × BeginsWith body.now found) }
    ensures none { IfNone result ((other : Catalog) → IsCatalog geo.now other → slot_of other.version ≡ at → BeginsWith body.now other → ⊥) }
{
    let found = catalog_in(body)?;
    if is_catalog(&found, geo) && slot_of(found.version) == at {
        Some(found)
    } else {
        None
    }
}

// Reads the catalogue of a slot. There is none where it is closed.
fn read_slot<D: Disk>(disk: &mut D, geo: &Geometry, at: u64) -> Result<Option<Catalog>, SlotsBroken>
    requires inside { IsTrue (D.state disk.old).tells_bytes → at + SLOT_LEN ≤ length (D.state disk.old).bytes }
    requires small { at + SLOT_LEN < 2 ^ 64 }
    ensures tells { IsTrue (D.state disk.old).is_honest → TellsSlot geo.now at (D.state disk.old).bytes result }
    ensures fits { IfOk result (λ found. IfSome found (IsCatalog geo.now)) }
    ensures faults { TellsFaultsBy (Err SlotsBroken.Fault) result (D.state disk.old) (D.state disk.new) }
    ensures effect { OnlyReads (at + SLOT_LEN) 1 (D.state disk.old) (D.state disk.new) }
{
    let mut slot = [0; SLOT_LEN];
    disk.read(at, &mut slot)?;
    if slot[0] != OPEN {
        return Ok(None);
    }
    match valid_catalog(&slot[1..], geo, at) {
        Some(found) => Ok(Some(found)),
        None => Err(SlotsBroken::Damaged),
    }
}

// The newest catalogue, of what the two slots have.
fn newest_of(odd: Option<Catalog>, even: Option<Catalog>) -> Result<Catalog, SlotsBroken>
    ensures tells { (sizes : Sizes) (file : List ℕ) → TellsSlot sizes odd_slot file (Ok odd) → TellsSlot sizes even_slot file (Ok even)
        → TellsNewest sizes file result }
    ensures fits { (sizes : Sizes) → IfSome odd (IsCatalog sizes) → IfSome even (IsCatalog sizes) → IfOk result (IsCatalog sizes) }
    ensures no_fault { IfErr result (λ broken. broken ≡ Damaged) }
{
    match (odd, even) {
        (Some(odd), Some(even)) => {
            if odd.version < even.version {
                Ok(even)
            } else {
                Ok(odd)
            }
        }
        (Some(odd), None) => Ok(odd),
        (None, Some(even)) => Ok(even),
        (None, None) => Err(SlotsBroken::Damaged),
    }
}

/// Reads the newest catalogue: of the open slots, of which each must have a valid body, the one of the higher version.
///
/// A body is valid where the version is at least 1 and of its slot's parity, the lanes are 0, 1 and 2 in some order, each
/// component is empty or has a first page and pages of the store, at least one entry, and a weight of at least 14 bytes, and the
/// flag is 0.
/// `Damaged` comes exactly where no slot is open or an open one has no valid body.
pub fn newest<D: Disk>(disk: &mut D, geo: &Geometry) -> Result<Catalog, SlotsBroken>
    requires { IsTrue (D.state disk.old).tells_bytes → length (D.state disk.old).bytes ≡ file_length geo.now }
    ensures tells { IsTrue (D.state disk.old).is_honest → TellsNewest geo.now (D.state disk.old).bytes result }
    ensures fits { IfOk result (IsCatalog geo.now) }
    ensures faults { TellsFaultsBy (Err SlotsBroken.Fault) result (D.state disk.old) (D.state disk.new) }
    ensures effect { OnlyReads (EVEN_SLOT + SLOT_LEN) 2 (D.state disk.old) (D.state disk.new) }
{
    let odd = read_slot(disk, geo, ODD_SLOT)?;
    let even = read_slot(disk, geo, EVEN_SLOT)?;
    newest_of(odd, even)
}
