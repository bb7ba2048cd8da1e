//! What is done to the store on the disk of a name. The disk goes back to the shelf whatever happens. Each stays a call, so
//! that the frame of who carries a request out has the locals of none.
ghost use Rattle.std.specs.Prelude.{◌≡◌, ◌+◌, ◌≤◌, sum, IfOk, IsErr};
ghost use Rattle.blsm_model.specs.Format.{callers, most_entries, most_rows_asked};
ghost use Rattle.tree_machine.specs.Machine.{seats};
ghost use Rattle.store_trial.specs.Trial.{IsRoomOf};
ghost use Rattle.tree_session.specs.Lines.{AreRunnable};
ghost use Rattle.store_run.specs.Run.{run_of};
ghost use Rattle.ship_text.specs.Ships.{most_first};
ghost use Rattle.store_serve.specs.Told.{IsTold};
ghost use Rattle.blsm_run.specs.Stores.{ChecksOnShelf, MakesOnShelf, RunsOnShelf, ServesOnShelf, SettlesOnShelf};

use blsm_model::{Gate, Geometry, Line, Room};
use disk_trait::Shelf;
use recover_open::{NotMade, Report, Unreadable, check_store, make_store};
use std::alloc::Global;
use std::sync::Wait;
use std::thread::Threads;
use store_run::{Finished, Settled, run_over, settle_over};
use store_serve::{Served, serve_over, share};
use text_io::{Sink, Source};

/// Makes a store of this geometry on the disk of a name, which may be a new one, and answers its length in bytes.
#[inline(never)]
pub(crate) fn make_on_shelf<H: Shelf>(
    shelf: &mut H,
    name: &str,
    geometry: &Geometry,
) -> Result<u64, NotMade>
    ensures { MakesOnShelf H.D.state name.now geometry.now (H.state shelf.old) (H.state shelf.new) result }
{
    let Ok(mut disk) = shelf.fetch(name, true) else {
        return Err(NotMade::Fault);
    };
    let made = make_store(&mut disk, geometry);
    shelf.give_back(name, disk);
    match made {
        Ok(()) => Ok(geometry.length()),
        Err(why) => Err(why),
    }
}

/// Runs a script over the store on the disk of a name, beside so many merge workers with so many turns each.
#[inline(never)]
pub(crate) fn run_on_shelf<R: Threads + Wait + Sync, H: Shelf, G: Gate + Sync>(
    rt: &R,
    alloc: Global,
    shelf: &mut H,
    name: &str,
    lines: &[Line],
    room: Room,
    workers: u32,
    turns: u32,
    gate: &G,
) -> Result<Finished, Unreadable>
    requires entries { sum room.entries ≤ most_entries }
    requires rows { sum room.rows ≤ most_rows_asked }
    requires runnable { AreRunnable lines.now }
    requires room { IsRoomOf room lines.now }
    requires few { callers + workers ≤ seats }
    ensures { RunsOnShelf H.D.state name.now lines.now workers turns (H.state shelf.old) (H.state shelf.new) result }
{
    let Ok(disk) = shelf.fetch(name, false) else {
        return Err(Unreadable::Fault);
    };
    let (disk, outcome) = run_over(rt, alloc, disk, lines, room, workers, turns, gate);
    shelf.give_back(name, disk);
    outcome
}

/// Checks the store on the disk of a name.
#[inline(never)]
pub(crate) fn check_on_shelf<H: Shelf>(
    alloc: Global,
    shelf: &mut H,
    name: &str,
) -> Result<Report, Unreadable>
    ensures { ChecksOnShelf H.D.state name.now (H.state shelf.old) (H.state shelf.new) result }
{
    let Ok(mut disk) = shelf.fetch(name, false) else {
        return Err(Unreadable::Fault);
    };
    let checked = check_store(alloc, &mut disk);
    shelf.give_back(name, disk);
    checked
}

/// Settles the store on the disk of a name, as each opening does.
#[inline(never)]
pub(crate) fn settle_on_shelf<H: Shelf>(
    alloc: Global,
    shelf: &mut H,
    name: &str,
) -> Result<Settled, Unreadable>
    ensures { SettlesOnShelf H.D.state name.now (H.state shelf.old) (H.state shelf.new) result }
{
    let Ok(found) = shelf.fetch(name, false) else {
        return Err(Unreadable::Fault);
    };
    let (disk, settled) = settle_over(alloc, found);
    shelf.give_back(name, disk);
    settled
}

/// Serves the lines of the source over the store on the disk of a name, with room for so many callers. Each line is told as it was done,
/// and its ship behind it, the first with this number; with 0 none is.
#[inline(never)]
pub(crate) fn serve_on_shelf<H: Shelf, S: Source, K: Sink>(
    alloc: Global,
    shelf: &mut H,
    name: &str,
    count: u32,
    ships: u64,
    source: &mut S,
    sink: &mut K,
) -> Result<Served, Unreadable>
    requires some { 1 ≤ count }
    requires few { count ≤ callers }
    requires number { ships ≤ most_first }
    ensures serves { ServesOnShelf H.D.state name.now count (H.state shelf.old) (H.state shelf.new) (S.state source.old) (S.state source.new) result }
    ensures told { IfOk result
        (λ served. IsTold served.closing ships (run_of served.finished).charge (run_of served.finished).entries (run_of served.finished).quanta
        (K.state sink.old) (K.state sink.new)) }
    ensures silent { IsErr result → K.state sink.new ≡ K.state sink.old }
{
    let Ok(fetched) = shelf.fetch(name, false) else {
        return Err(Unreadable::Fault);
    };
    let (disk, served) = serve_over(alloc, fetched, share(count), ships, source, sink);
    shelf.give_back(name, disk);
    served
}
