//! The session.
ghost use Rattle.std.specs.Prelude.{◌≡◌, ◌≤◌, ◌+◌, ℕ, List, Err, max, length, sum, IsTrue, IfOk, IfErr, IsErr};
ghost use Rattle.blsm_model.specs.Format.{callers, most_entries, most_rows_asked};
ghost use Rattle.blsm_model.specs.Sizes.{Sizes};
ghost use Rattle.blsm_model.specs.declared.key.Key.{Key};
ghost use Rattle.blsm_model.specs.declared.row.Value.{Value};
ghost use Rattle.disk_trait.specs.Disk.{TellsFaultsBy};
ghost use Rattle.disk_trait.specs.Moments.{LeavesOnly};
ghost use Rattle.recover_open.specs.Opening.{HasLengthOf, KeepsMapOf, ReadsAsNone};
ghost use Rattle.ship_text.specs.Ships.{most_first};
ghost use Rattle.store_file.specs.Layout.{superblock_length};
ghost use Rattle.store_run.specs.Headline.{Headline};
ghost use Rattle.store_run.specs.Run.{AreCounted, CameToEnd, HasCauses, IsEnding, IsRunInOrder, run_of};
ghost use Rattle.store_serve.specs.Session.{LeftBy};
ghost use Rattle.store_serve.specs.Taken.{TakesLines, lines_in};
ghost use Rattle.store_serve.specs.Told.{IsTold};
ghost use Rattle.tree_file.specs.Tree.{ReadsAsMap};
ghost use Rattle.tree_reading.specs.First.{IsOfFile};
ghost use Rattle.tree_reading.specs.Reading.{IsWhy};
ghost use Rattle.tree_session.specs.Faults.{Reaches};

use crate::closing::Closing;
use crate::session::do_lines;
use blsm_model::{CALLERS, Room};
use disk_trait::Disk;
use recover_open::{Unreadable, open_store};
use std::alloc::Global;
use store_run::{Finished, finish};
use text_io::{Sink, Source};
use tree_core::Core;

/// What a session leaves to be told.
#[derive(Drop)]
pub struct Served {
    /// Its history and its totals, of which all up to the end was told but where the sink failed.
    pub finished: Finished,
    pub closing: Closing,
}

// All callers leave.
fn leave_all<D: Disk + Drop>(core: &mut Core<D>)
    ensures { LeftBy D.state callers core.old core.new }
{
    for seat in 0..CALLERS {
        core.leave(seat);
    }
}

/// Opens the store on a disk and does the lines of the source on it as they come, on one thread, each told before the source is asked for more. The
/// disk comes back whatever happens. Right behind an entry that is a write and was done its ship is told, the first with this number, at most 2^63;
/// with 0 none is.
///
/// The refusals are those of `open_store`; then source and sink are as they were. Where the sink failed nothing more was done.
#[inline(never)]
pub fn serve_over<D: Disk + Drop, S: Source, K: Sink>(
    alloc: Global,
    disk: D,
    room: Room,
    ships: u64,
    source: &mut S,
    sink: &mut K,
) -> (D, Result<Served, Unreadable>)
    requires entries { sum room.entries ≤ most_entries }
    requires rows { sum room.rows ≤ most_rows_asked }
    requires number { ships ≤ most_first }

    // The headline of a run of the lines that were done, with nobody else at work, and in order.
    ensures ran { IfOk result.1 (λ served. (sizes : Sizes) × HasLengthOf sizes (D.state disk)
        × IsRunInOrder sizes (lines_in (run_of served.finished).entries) (run_of served.finished)) }
    ensures ended { IfOk result.1 (λ served. CameToEnd 0 0 (run_of served.finished)) }
    ensures counted { IfOk result.1 (λ served. AreCounted (run_of served.finished) (D.state disk) (D.state result.0)) }
    ensures ending { IfOk result.1 (λ served. IsEnding served.finished.ending (run_of served.finished) (D.state result.0).faults) }
    ensures causes { IfOk result.1 (λ served. HasCauses D.state room (run_of served.finished) disk result.0) }
    ensures reaches { (end : ℕ) × (calls : ℕ) × (IsTrue (D.state disk).tells_bytes → end ≤ max superblock_length (length (D.state disk).bytes))
        × Reaches end calls (D.state disk) (D.state result.0) }
    ensures faults { IsErr result.1 → TellsFaultsBy (Err Unreadable.Fault) result.1 (D.state disk) (D.state result.0) }
    ensures one_fault { IsErr result.1 → (D.state result.0).faults ≤ (D.state disk).faults + 1 }
    ensures headline { IsTrue (D.state disk).is_honest
        → IfOk result.1 (λ served. (sizes : Sizes) × IsRunInOrder sizes (lines_in (run_of served.finished).entries) (run_of served.finished)
        × Headline D.state sizes (lines_in (run_of served.finished).entries) 0 0 (run_of served.finished) room disk result.0) }
    ensures refused { IsTrue (D.state disk).is_honest → IfErr result.1 (λ why. IsWhy why (D.state disk).bytes) }
    ensures spares { IsTrue (D.state disk).is_honest
        → IfErr result.1 (λ why. IsOfFile why → LeavesOnly (D.state disk) (D.state result.0) (D.state disk).images) }
    ensures keeps { (sizes : Sizes) (pairs : List (Key × Value)) → IsTrue (D.state disk).is_honest → ReadsAsMap sizes pairs (D.state disk).bytes
        → IfErr result.1 (λ why. KeepsMapOf sizes pairs (D.state disk) (D.state result.0)) }
    ensures untouched { IsTrue (D.state disk).is_honest → ReadsAsNone (D.state disk).bytes
        → LeavesOnly (D.state disk) (D.state result.0) (D.state disk).images }

    // What was taken of the source, and what was told. One command at most is done that isn't told, or whose ship isn't, and the source isn't asked
    // before all are.
    ensures takes { IfOk result.1
        (λ served. TakesLines (run_of served.finished).entries served.closing room (S.state source.old) (S.state source.new)) }
    ensures told { IfOk result.1
        (λ served. IsTold served.closing ships (run_of served.finished).charge (run_of served.finished).entries (run_of served.finished).quanta
        (K.state sink.old) (K.state sink.new)) }
    ensures unasked { IsErr result.1 → S.state source.new ≡ S.state source.old }
    ensures silent { IsErr result.1 → K.state sink.new ≡ K.state sink.old }
{
    let mut core = match open_store(alloc, disk, room) {
        Ok(core) => core,
        Err(refused) => return (refused.disk, Err(refused.why)),
    };
    core.kept();
    let charge = core.charge();
    let closing = do_lines(alloc, &mut core, ships, source, sink);
    leave_all(&mut core);
    let (disk, finished) = finish(core, charge);
    (disk, Ok(Served { finished, closing }))
}
