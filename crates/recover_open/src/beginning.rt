//! What was read of a store becomes components and a log that are settled.
ghost use Rattle.std.specs.Prelude.{◌≡◌, ◌+◌, ◌≤◌, ◌<◌, ◌^◌, ℕ, Bool, List, Err, length, IsTrue, IfOk, IfErr};
ghost use Rattle.disk_trait.specs.Disk.{Only, TellsFaultsBy};
ghost use Rattle.disk_trait.specs.Effects.{Affects};
ghost use Rattle.blsm_model.specs.Geometry.{file_length};
ghost use Rattle.blsm_model.specs.declared.key.Key.{Key};
ghost use Rattle.blsm_model.specs.declared.row.Value.{Value};
ghost use Rattle.record_delta.specs.Entries.{entries_weight};
ghost use Rattle.tree_log.specs.Log.{listed_in_a};
ghost use Rattle.tree_reading.specs.Reading.{HoldsFound, IsFound};
ghost use Rattle.tree_runs.specs.Runs.{AreGuides, AreRunning, first_tags, opened_from};
ghost use Rattle.tree_settling.specs.Counting.{CountsQuanta, most_merges, quanta_bound, settling_due, settling_least};
ghost use Rattle.tree_settling.specs.Settling.{
  HasBegun,
  IsSettled,
  LeavesMaps,
  MaySettle,
  SettlesOn,
  ShowsMap,
  anywhere,
  settling_calls,
  settling_weight,
};
ghost use Rattle.recover_open.specs.Opening.{BeginsIn, IsReady, TellsSettled, weight_found};
ghost use Rattle.recover_open.specs.Settled.{SettlesWithin};

use core_moves::Settled;
use disk_trait::Disk;
use page_file::Broken;
use tree_log::LoggedTables;
use tree_reading::{Found, Place, Unreadable};
use tree_runs::{MergeRoom, Runs};
use tree_settling::{most_quanta, settle};

/// The components and the log of a store that was read, and what settling them took.
#[derive(Drop)]
pub(crate) struct Begun {
    pub(crate) runs: Runs,
    pub(crate) log: LoggedTables,
    pub(crate) settled: Settled,
}

// Begins with what was found. A deep merge runs where C1' has pages, behind what was finished of it, where that is named.
fn begin(found: Found, room: MergeRoom) -> Begun
    requires found { (honest : Bool) × (file : List ℕ) × IsFound found honest file }
    requires guides { AreGuides found.geometry first_tags found.guides }
    ensures runs { result.runs ≡ opened_from found.geometry found.catalogue found.space found.guides found.ahead }
    ensures log { result.log ≡ record { a = found.a; b = found.b; lanes = found.lanes } }
    ensures bound { result.settled.bound ≡ quanta_bound result.runs.sizes (settling_due result.runs result.log) }
    ensures numbers { HasBegun result.runs result.log }
    ensures running { (honest : Bool) (file : List ℕ) → IsFound found honest file → AreRunning honest file result.runs }
    ensures lists { (file : List ℕ) → (holds : HoldsFound found file) → BeginsIn result.runs result.log holds.tree file }
{
    let Found {
        geometry,
        catalogue,
        space,
        a,
        b,
        lanes,
        guides,
        ahead,
        ..
    } = found;
    let version = catalogue.version;
    let runs = Runs::open(&geometry, catalogue, space, room, guides, ahead);
    let log = LoggedTables::open(a, b, lanes);
    let settled = Settled {
        version,
        quanta: 0,
        bound: most_quanta(&runs, &log),
    };
    Begun { runs, log, settled }
}

// Settles what was begun with.
fn settle_begun<D: Disk>(disk: &mut D, begun: Begun) -> Result<Begun, Unreadable>
    requires may { MaySettle begun.runs begun.log (D.state disk.old) }
    requires version { begun.runs.catalogue.version + 5 < 2 ^ 64 }
    ensures leaves { LeavesMaps (settling_calls begun.runs.sizes (settling_weight begun.runs begun.log)) begun.runs begun.log (D.state disk.old)
        (D.state disk.new) }
    ensures on { IfOk result (λ ready. SettlesOn begun.runs ready.runs begun.log ready.log (D.state disk.old) (D.state disk.new)) }
    ensures settled { IfOk result (λ ready. IsSettled ready.runs ready.log × (ready.runs.catalogue.version ≤ begun.runs.catalogue.version + 5)) }
    ensures counts { IfOk result (λ ready. CountsQuanta (1 + most_merges (listed_in_a begun.log) (entries_weight begun.log.b.entries))
        (settling_least begun.runs begun.log) (settling_due begun.runs begun.log) begun.runs ready.runs ready.settled.quanta
        × (ready.settled.bound ≡ begun.settled.bound) × (ready.settled.version ≡ ready.runs.catalogue.version)) }
    ensures counted { IfOk result (λ ready. begun.runs.quanta ≡ 0 → ready.runs.quanta ≡ ready.settled.quanta) }
    ensures why { (pairs : List (Key × Value)) → IsTrue (D.state disk.old).is_honest → ShowsMap begun.runs begun.log pairs (D.state disk.old)
        → IfErr result (λ why. why ≡ Unreadable.Fault) }
    ensures faults { TellsFaultsBy (Err Unreadable.Fault) result (D.state disk.old) (D.state disk.new) }
{
    let Begun {
        mut runs,
        mut log,
        settled,
    } = begun;
    match settle(disk, &mut runs, &mut log) {
        Ok(quanta) => {
            let settled = Settled {
                version: runs.catalogue().version,
                quanta,
                bound: settled.bound,
            };
            Ok(Begun { runs, log, settled })
        }
        Err(Broken::Damaged(page)) => Err(Unreadable::Damaged(Place::Page(page))),
        Err(Broken::Fault) => Err(Unreadable::Fault),
    }
}

/// Begins with what was found, with its filters and fences, and settles it.
pub(crate) fn settle_found<D: Disk>(
    disk: &mut D,
    found: Found,
    room: MergeRoom,
) -> Result<Begun, Unreadable>
    requires found { IsFound found (D.state disk.old).is_honest (D.state disk.old).bytes }
    requires guides { AreGuides found.geometry first_tags found.guides }
    requires length { IsTrue (D.state disk.old).tells_bytes → length (D.state disk.old).bytes ≡ file_length found.geometry }
    ensures ready { IfOk result (λ begun. IsReady found.geometry found.catalogue.version begun.runs begun.log (D.state disk.new)) }
    ensures counts { IfOk result (λ begun. SettlesWithin found.geometry found.catalogue (entries_weight found.a.entries)
        (entries_weight found.b.entries)
        begun.runs.catalogue begun.settled) }
    ensures counted { IfOk result (λ begun. begun.runs.quanta ≡ begun.settled.quanta) }
    ensures tells { IsTrue (D.state disk.old).is_honest → Only (D.state disk.old).bytes (D.state disk.old).images → (holds : HoldsFound found (D.state disk.old).bytes)
        → TellsSettled found.geometry holds.tree result (D.state disk.old) (D.state disk.new) }
    ensures effect { Affects anywhere (file_length found.geometry) (settling_calls found.geometry (weight_found found)) (D.state disk.old)
        (D.state disk.new) }
    ensures faults { TellsFaultsBy (Err Unreadable.Fault) result (D.state disk.old) (D.state disk.new) }
{
    settle_begun(disk, begin(found, room))
}
