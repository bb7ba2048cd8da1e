//! A script, run over the store on a disk.
ghost use Rattle.std.specs.Prelude.{◌≡◌, ◌≤◌, ◌+◌, ℕ, List, Err, max, length, sum, IsTrue, IfOk, IfErr, IsErr};
ghost use Rattle.disk_trait.specs.Disk.{TellsFaultsBy};
ghost use Rattle.disk_trait.specs.Moments.{LeavesOnly};
ghost use Rattle.blsm_model.specs.Format.{callers, most_entries, most_rows_asked};
ghost use Rattle.blsm_model.specs.Sizes.{Sizes};
ghost use Rattle.blsm_model.specs.declared.key.Key.{Key};
ghost use Rattle.blsm_model.specs.declared.row.Value.{Value};
ghost use Rattle.store_file.specs.Layout.{superblock_length};
ghost use Rattle.tree_file.specs.Tree.{ReadsAsMap};
ghost use Rattle.tree_machine.specs.Machine.{seats};
ghost use Rattle.tree_reading.specs.First.{IsOfFile};
ghost use Rattle.tree_reading.specs.Reading.{IsWhy};
ghost use Rattle.recover_open.specs.Opening.{HasLengthOf, KeepsMapOf, ReadsAsNone};
ghost use Rattle.tree_session.specs.Faults.{Reaches};
ghost use Rattle.tree_session.specs.Lines.{AreRunnable, HasRoomFor};
ghost use Rattle.store_run.specs.Run.{AreCounted, CameToEnd, HasCauses, IsEnding, IsRunInOrder, IsRunOf, run_at, run_of};
ghost use Rattle.store_run.specs.Headline.{Headline, IsServedInOrder};

use crate::ending::ending;
use blsm_model::{Annals, Gate, Line, Room, Totals};
use disk_trait::Disk;
use recover_open::{Unreadable, open_store};
use std::alloc::Global;
use std::sync::Wait;
use std::thread::Threads;
use tree_core::Core;
use tree_session::run_lines;
use tree_shared::run_all;

/// How the run of a script ended.
#[derive(Clone, Copy, PartialEq, Eq, Debug)]
pub enum Ending {
    /// No call of the disk failed, and no page was found damaged.
    Well,
    /// A call of the disk failed.
    Faulted,
    /// No call of the disk failed, and a lookup, a next or a merge found a page damaged.
    Damaged,
}

/// What a run leaves to be printed.
#[derive(Drop)]
pub struct Finished {
    /// The charge at the opening, in bytes.
    pub charge: u64,
    pub annals: Annals,
    pub totals: Totals,
    /// What was held of the memory table in the end, in bytes of weight.
    pub resident: u64,
    pub ending: Ending,
}

/// The disk of a core whose run is over, and what that leaves to be printed.
pub fn finish<D: Disk + Drop>(core: Core<D>, charge: u64) -> (D, Finished)
    ensures disk { result.0 ≡ core.disk }
    ensures finished { run_of result.1 ≡ run_at charge core.held }
    ensures ending { IsEnding result.1.ending (run_of result.1) (D.state core.disk).faults }
{
    let resident = core.resident();
    let (disk, annals, totals) = core.end();
    let faults = disk.faults();
    let ended = ending(faults, &annals, &totals);
    let finished = Finished {
        charge,
        annals,
        totals,
        resident,
        ending: ended,
    };
    (disk, finished)
}

/// Opens the store on a disk and does the commands of these lines on it: sixteen callers do their own ones, each in order, beside so many merge workers,
/// each of which takes so many turns at most, all on threads where they can be made. The disk comes back whatever happens.
///
/// The refusals are those of `open_store`, or want of memory for the threads' lock; then no command was done. The lines are writes, gets, holds,
/// nexts, drops of holds and works, of callers who have room for them and for the rows that they may give. A hold for which memory is refused is
/// answered so in its entry.
///
/// A clause for each thing that is said on every disk, in words of their own, one for the refusals, and `headline` for an honest disk.
pub fn run_over<R: Threads + Wait + Sync, D: Disk + Send + Drop, G: Gate + Sync>(
    rt: &R,
    alloc: Global,
    disk: D,
    lines: &[Line],
    room: Room,
    workers: u32,
    turns: u32,
    gate: &G,
) -> (D, Result<Finished, Unreadable>)
    requires entries { sum room.entries ≤ most_entries }
    requires rows { sum room.rows ≤ most_rows_asked }
    requires runnable { AreRunnable lines.now }
    requires room { HasRoomFor room lines.now }
    requires few { callers + workers ≤ seats }

    // On every disk: what is printed, for sizes that the file's length is of, how faults are told, and that no call ends behind the file or the superblock.
    ensures ran { IfOk result.1 (λ finished. (sizes : Sizes) × HasLengthOf sizes (D.state disk) × IsRunOf sizes lines.now workers turns (run_of finished)) }
    ensures ended { IfOk result.1 (λ finished. CameToEnd workers turns (run_of finished)) }
    ensures counted { IfOk result.1 (λ finished. AreCounted (run_of finished) (D.state disk) (D.state result.0)) }
    ensures ending { IfOk result.1 (λ finished. IsEnding finished.ending (run_of finished) (D.state result.0).faults) }
    // Why each reply is so, and what stopped the store.
    ensures causes { IfOk result.1 (λ finished. HasCauses D.state room (run_of finished) disk result.0) }
    ensures reaches { (end : ℕ) × (calls : ℕ) × (IsTrue (D.state disk).tells_bytes → end ≤ max superblock_length (length (D.state disk).bytes))
        × Reaches end calls (D.state disk) (D.state result.0) }
    ensures faults { IsErr result.1 → TellsFaultsBy (Err Unreadable.Fault) result.1 (D.state disk) (D.state result.0) }
    ensures one_fault { IsErr result.1 → (D.state result.0).faults ≤ (D.state disk).faults + 1 }

    // On an honest disk: the headline, or why the store wasn't opened.
    ensures headline { IsTrue (D.state disk).is_honest
        → IfOk result.1 (λ finished. (sizes : Sizes) × IsRunOf sizes lines.now workers turns (run_of finished) × Headline D.state sizes lines.now workers turns (run_of finished) room disk result.0) }
    ensures refused { IsTrue (D.state disk).is_honest → IfErr result.1 (λ why. IsWhy why (D.state disk).bytes) }

    // Where no command was done, each image of each moment is one from before or reads as the map that the file read as; where it read as none, one
    // from before. Where the file is why it wasn't opened, each is one from before.
    ensures spares { IsTrue (D.state disk).is_honest
        → IfErr result.1 (λ why. IsOfFile why → LeavesOnly (D.state disk) (D.state result.0) (D.state disk).images) }
    ensures keeps { (sizes : Sizes) (pairs : List (Key × Value)) → IsTrue (D.state disk).is_honest → ReadsAsMap sizes pairs (D.state disk).bytes
        → IfErr result.1 (λ why. KeepsMapOf sizes pairs (D.state disk) (D.state result.0)) }
    ensures untouched { IsTrue (D.state disk).is_honest → ReadsAsNone (D.state disk).bytes
        → LeavesOnly (D.state disk) (D.state result.0) (D.state disk).images }
{
    let core = match open_store(alloc, disk, room) {
        Ok(core) => core,
        Err(refused) => return (refused.disk, Err(refused.why)),
    };
    core.kept();
    let charge = core.charge();
    match run_all(rt, alloc, core, lines, workers, turns, gate) {
        Ok(core) => {
            let (disk, finished) = finish(core, charge);
            (disk, Ok(finished))
        }
        Err(core) => {
            let (disk, _annals, _totals) = core.end();
            (disk, Err(Unreadable::NoMemory))
        }
    }
}

/// Opens the store on a disk and does the commands of these lines on it, one after another, on one thread and with no merge worker. The disk comes back
/// whatever happens.
///
/// The refusals are those of `open_store`; then no command was done. The lines are as those of `run_over`.
/// Its clauses are those of `run_over` that one thread needs.
pub fn run_in_order<D: Disk + Drop>(
    alloc: Global,
    disk: D,
    lines: &[Line],
    room: Room,
) -> (D, Result<Finished, Unreadable>)
    requires entries { sum room.entries ≤ most_entries }
    requires rows { sum room.rows ≤ most_rows_asked }
    requires runnable { AreRunnable lines.now }
    requires room { HasRoomFor room lines.now }
    ensures counted { IfOk result.1 (λ finished. AreCounted (run_of finished) (D.state disk) (D.state result.0)) }
    ensures reaches { (end : ℕ) × (calls : ℕ) × (IsTrue (D.state disk).tells_bytes → end ≤ max superblock_length (length (D.state disk).bytes))
        × Reaches end calls (D.state disk) (D.state result.0) }
    ensures faults { IsErr result.1 → TellsFaultsBy (Err Unreadable.Fault) result.1 (D.state disk) (D.state result.0) }
    ensures served { IsTrue (D.state disk).is_honest
        → IfOk result.1 (λ finished. (sizes : Sizes) × IsRunInOrder sizes lines.now (run_of finished) × IsServedInOrder D.state sizes lines.now (run_of finished) room (D.state disk) (D.state result.0)) }
    ensures refused { IsTrue (D.state disk).is_honest → IfErr result.1 (λ why. IsWhy why (D.state disk).bytes) }
{
    let mut core = match open_store(alloc, disk, room) {
        Ok(core) => core,
        Err(refused) => return (refused.disk, Err(refused.why)),
    };
    core.kept();
    let charge = core.charge();
    run_lines(alloc, &mut core, lines);
    let (disk, finished) = finish(core, charge);
    (disk, Ok(finished))
}
