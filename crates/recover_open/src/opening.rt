//! A store on a disk becomes a core.
ghost use Rattle.std.specs.Prelude.{◌≡◌, ◌≤◌, ◌+◌, [], ℕ, List, length, replicate, sum, None, Some, Err, IsTrue, IfOk, IfErr, OnOk};
ghost use Rattle.disk_trait.specs.Disk.{TellsFaultsBy, Only};
ghost use Rattle.disk_trait.specs.Moments.{LeavesOnly, LeavesOnlyOnceSynced};
ghost use Rattle.blsm_model.specs.Format.{callers, most_entries, most_rows_asked};
ghost use Rattle.blsm_model.specs.Geometry.{file_length};
ghost use Rattle.blsm_model.specs.Sizes.{Sizes};
ghost use Rattle.blsm_model.specs.declared.key.Key.{Key};
ghost use Rattle.blsm_model.specs.declared.row.Value.{Value};
ghost use Rattle.tree_file.specs.Tree.{ReadsAsMap};
ghost use Rattle.tree_reading.specs.Damage.{most_version};
ghost use Rattle.tree_reading.specs.Reading.{HoldsFound, IsFound, IsWhy, calls_of_reading, reading_calls};
ghost use Rattle.tree_runs.specs.Runs.{AreGuides, first_tags};
ghost use Rattle.tree_settling.specs.Settling.{CallsFew};
ghost use Rattle.core_moves.specs.Held.{charge_in};
ghost use Rattle.core_pace.specs.Opening.{IsOpened};
ghost use Rattle.recover_open.specs.Opening.{
  IsReady,
  KeepsMapOf,
  ReadsAsNone,
  HasLengthOf,
  HasOpenedOn,
  OpensAs,
  SparesImages,
  StaysInside,
  TakesFew,
  disk_of,
  no_entries,
  why_of,
};
ghost use Rattle.recover_open.specs.Settled.{CountsSettling};

use crate::beginning::{Begun, settle_found};
use blsm_model::{Annals, Room};
use disk_trait::Disk;
use refusal::NoMemory;
use scan_view::{Holds, RowRoom};
use std::alloc::Global;
use tree_core::{Core, Parts};
use tree_log::LoggedTables;
use tree_reading::{Found, Purpose, Unreadable, read_tree};
use tree_runs::{MergeRoom, Runs};

// Syncs and reads, with filters and fences. What an earlier run left to a crash is settled before a byte of it counts.
fn read_synced<D: Disk>(alloc: Global, disk: &mut D) -> Result<Found, Unreadable>
    ensures found { IfOk result (λ found. IsFound found (D.state disk.new).is_honest (D.state disk.new).bytes) }
    ensures holds { IsTrue (D.state disk.old).is_honest → IfOk result (λ found. HoldsFound found (D.state disk.old).bytes) }
    ensures refused { IsTrue (D.state disk.old).is_honest → IfErr result (λ why. IsWhy why (D.state disk.old).bytes) }
    ensures length { IfOk result (λ found. IsTrue (D.state disk.old).tells_bytes → length (D.state disk.new).bytes ≡ file_length found.geometry) }
    ensures was_long { IfOk result (λ found. IsTrue (D.state disk.old).tells_bytes → length (D.state disk.old).bytes ≡ file_length found.geometry) }
    ensures same { IsTrue (D.state disk.old).is_honest → (D.state disk.new).bytes ≡ (D.state disk.old).bytes }
    ensures only { OnOk result (IsTrue (D.state disk.old).is_honest → Only (D.state disk.new).bytes (D.state disk.new).images) }
    ensures kept { IsTrue (D.state disk.old).is_honest → LeavesOnly (D.state disk.old) (D.state disk.new) (D.state disk.old).images }
    ensures synced { IsTrue (D.state disk.old).is_honest → LeavesOnlyOnceSynced (D.state disk.old) (D.state disk.new) (λ c. c ≡ (D.state disk.old).bytes) }
    ensures guides { IfOk result (λ found. AreGuides found.geometry first_tags found.guides) }
    ensures calls { IfOk result (λ found. CallsFew (1 + reading_calls found.geometry) (D.state disk.old) (D.state disk.new)) }
    ensures few { IfOk result (λ found. CallsFew (1 + calls_of_reading found.catalogue found.records_a found.records_b) (D.state disk.old)
        (D.state disk.new)) }
    ensures effect { StaysInside (D.state disk.old) (D.state disk.new) }
    ensures faults { TellsFaultsBy (Err Unreadable.Fault) result (D.state disk.old) (D.state disk.new) }
{
    let Ok(()) = disk.sync() else {
        return Err(Unreadable::Fault);
    };
    read_tree(alloc, disk, Purpose::Opening)
}

// Memory for what reading doesn't fill, of one size for each store: the merges, the callers' holds, and the rows of one reply.
#[derive(Drop)]
struct Memory {
    merges: MergeRoom,
    holds: Holds,
    rows: RowRoom,
}

fn reserve(alloc: Global) -> Result<Memory, NoMemory>
    ensures { IfOk result (λ memory. memory.holds ≡ replicate callers None) }
{
    Ok(Memory {
        merges: MergeRoom::reserve(alloc)?,
        holds: Holds::reserve(alloc)?,
        rows: RowRoom::reserve(alloc)?,
    })
}

// Reads the store on a disk, and settles it. Between the two the memory for the history is taken, and put where it is to lie: a store that isn't
// read needs none, and where it is refused nothing is written yet.
fn open_tree<D: Disk>(
    alloc: Global,
    disk: &mut D,
    merges: MergeRoom,
    room: Room,
    history: &mut Option<Annals>,
) -> Result<Begun, Unreadable>
    requires entries { sum room.entries ≤ most_entries }
    requires rows { sum room.rows ≤ most_rows_asked }
    ensures history { IfOk result (λ begun. history.new ≡ Some (no_entries room)) }
    ensures ready { IfOk result (λ begun. (version : ℕ) × (version ≤ most_version) × IsReady begun.runs.sizes version begun.runs begun.log (D.state disk.new)) }
    ensures stands { IsTrue (D.state disk.old).is_honest → IfOk result (λ begun. HasOpenedOn begun.runs (D.state disk.old).bytes (D.state disk.new)) }
    ensures refused { IsTrue (D.state disk.old).is_honest → IfErr result (λ why. IsWhy why (D.state disk.old).bytes) }
    ensures keeps { (sizes : Sizes) (pairs : List (Key × Value)) → IsTrue (D.state disk.old).is_honest → ReadsAsMap sizes pairs (D.state disk.old).bytes
        → KeepsMapOf sizes pairs (D.state disk.old) (D.state disk.new) }
    ensures untouched { IsTrue (D.state disk.old).is_honest → ReadsAsNone (D.state disk.old).bytes → LeavesOnly (D.state disk.old) (D.state disk.new) (D.state disk.old).images }
    ensures long { IfOk result (λ begun. HasLengthOf begun.runs.sizes (D.state disk.old)) }
    ensures spares { IsTrue (D.state disk.old).is_honest → IfErr result (λ why. SparesImages why (D.state disk.old) (D.state disk.new)) }
    ensures takes { IfOk result (λ begun. TakesFew begun.runs.sizes (D.state disk.old) (D.state disk.new)) }
    ensures counts { IfOk result (λ begun. CountsSettling begun.runs.sizes begun.runs.catalogue begun.settled (D.state disk.old) (D.state disk.new)) }
    ensures counted { IfOk result (λ begun. begun.runs.quanta ≡ begun.settled.quanta) }
    ensures effect { StaysInside (D.state disk.old) (D.state disk.new) }
    ensures faults { TellsFaultsBy (Err Unreadable.Fault) result (D.state disk.old) (D.state disk.new) }
{
    let found = read_synced(alloc, disk)?;
    let Ok(annals) = Annals::reserve(alloc, room) else {
        return Err(Unreadable::NoMemory);
    };
    *history = Some(annals);
    settle_found(disk, found, merges)
}

/// Why a store was not opened, and the disk.
#[derive(Drop)]
pub struct NotOpened<D: Drop> {
    /// The disk.
    pub disk: D,
    /// The cause.
    pub why: Unreadable,
}

/// Opens the store on a disk as a core with these rooms for the callers. It syncs first, reads the store, each page once, whose keys it notes in
/// the filters and fences of its components, and settles it by its merges: then C1' and both tables are empty, and the history has no entry. A deep
/// merge of which the catalogue names finished pages goes on behind them; beside these it reads C1' and C2 once more, up to their greatest key.
///
/// `NotAStore`, `Damaged` and `Worn` come as `read_tree` tells them, `Fault` just where the disk's count of faults rose, and `NoMemory` where memory
/// was refused, also that for tables, filters, fences and the history, whose size is known once the geometry is read: so a damage comes before it.
/// The disk is given back, with what it had.
/// Half of the clauses are of the core that it gives, half of what a refusal or a crash leaves, of calls and of faults.
///
/// It stays a call, so that the parts of a core aren't added to the frame of who runs it.
#[inline(never)]
pub fn open_store<D: Disk + Drop>(
    alloc: Global,
    disk: D,
    room: Room,
) -> Result<Core<D>, NotOpened<D>>
    requires entries { sum room.entries ≤ most_entries }
    requires rows { sum room.rows ≤ most_rows_asked }

    // On every disk: no entry, no hold, no table, no C1'; the charge is what C1 and C2 weigh, the count of faults is the disk's, and the file was as long as the
    // sizes say.
    ensures opened { IfOk result (λ core. IsOpened (no_entries room) (D.state core.disk).faults core.held) }
    ensures long { IfOk result (λ core. HasLengthOf core.held.runs.sizes (D.state disk)) }
    ensures none { IfOk result (λ core. core.holds ≡ replicate callers None) }
    ensures charge { IfOk result (λ core. charge_in core.held ≡ core.held.runs.catalogue.c1.weight + core.held.runs.catalogue.c2.weight) }

    // On an honest disk: the disk read as a map, for which the core stands; or what it read as is why it isn't opened.
    ensures stands { IsTrue (D.state disk).is_honest → IfOk result (λ core. OpensAs D.state room core (D.state disk).bytes) }
    ensures refused { IsTrue (D.state disk).is_honest → IfErr result (λ refused. IsWhy refused.why (D.state disk).bytes) }

    // Whatever is answered, each image of each moment is one from before or reads as the map, and since the first sync each reads so. Where the disk
    // read as no map, and after each refusal without a fault, each is one from before.
    ensures keeps { (sizes : Sizes) (pairs : List (Key × Value)) → IsTrue (D.state disk).is_honest → ReadsAsMap sizes pairs (D.state disk).bytes
        → KeepsMapOf sizes pairs (D.state disk) (D.state (disk_of result)) }
    ensures untouched { IsTrue (D.state disk).is_honest → ReadsAsNone (D.state disk).bytes
        → LeavesOnly (D.state disk) (D.state (disk_of result)) (D.state disk).images }
    ensures spares { IsTrue (D.state disk).is_honest → IfErr result (λ refused. SparesImages refused.why (D.state disk) (D.state refused.disk)) }

    // On every disk no more calls than what was read takes: the pages and the weight that the catalogue says, and the records of the lanes.
    ensures takes { IfOk result (λ core. TakesFew core.held.runs.sizes (D.state disk) (D.state core.disk)) }
    // And no more quanta than the bound, by the weights of what was found, as the core tells them.
    ensures counts { IfOk result (λ core. CountsSettling core.held.runs.sizes core.held.runs.catalogue core.held.settled (D.state disk)
        (D.state core.disk)) }
    // These are the quanta that went well since its components were opened, as they count them.
    ensures counted { IfOk result (λ core. core.held.runs.quanta ≡ core.held.settled.quanta) }
    ensures effect { StaysInside (D.state disk) (D.state (disk_of result)) }
    ensures faults { TellsFaultsBy (Some Unreadable.Fault) (why_of result) (D.state disk) (D.state (disk_of result)) }
{
    let mut disk = disk;
    let Ok(memory) = reserve(alloc) else {
        return Err(NotOpened {
            disk,
            why: Unreadable::NoMemory,
        });
    };
    let Memory {
        merges,
        holds,
        rows,
    } = memory;
    let mut history = None;
    match open_tree(alloc, &mut disk, merges, room, &mut history) {
        Ok(begun) => {
            let Begun { runs, log, settled } = begun;
            let Some(annals) = history else {
                unreachable!()
            };
            Ok(Core::assemble(Parts {
                disk,
                runs,
                log,
                annals,
                holds,
                rows,
                settled,
            }))
        }
        Err(why) => Err(NotOpened { disk, why }),
    }
}
