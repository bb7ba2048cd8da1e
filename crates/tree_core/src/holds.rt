//! Callers hold ranges, and read them.
ghost use Rattle.std.specs.Prelude.{◌≡◌, ◌≢◌, ◌+◌, ◌<◌, ◌≤◌, ◌^◌, ℕ, List, None, Some, IsTrue, take, drop};
ghost use Rattle.blsm_model.specs.declared.key.Key.{Key};
ghost use Rattle.blsm_model.specs.declared.row.Row.{Row};
ghost use Rattle.blsm_model.specs.declared.op.Op.TheVariants as op;
ghost use Rattle.blsm_model.specs.Book.{HasRoom};
ghost use Rattle.blsm_model.specs.Format.{callers, most_rows};
ghost use Rattle.blsm_model.specs.Geometry.{file_length};
ghost use Rattle.blsm_model.specs.Stored.{as_reply};
ghost use Rattle.disk_trait.specs.Reads.{OnlyReads};
ghost use Rattle.page_file.specs.Component.{entries_of};
ghost use Rattle.record_delta.specs.Entries.{above, replayed};
ghost use Rattle.scan_view.specs.Holds.{hold_of, pages_behind};
ghost use Rattle.scan_view.specs.Pins.{HasHeld};
ghost use Rattle.seat_book.specs.State.{may_note_in, noted_in};
ghost use Rattle.tree_machine.specs.Lists.{rows_in};
ghost use Rattle.tree_file.specs.Tree.{Tree};
ghost use Rattle.tree_runs.specs.Runs.{AreRuns};
ghost use Rattle.tree_runs.specs.Holding.{AreOf, HoldFits};
ghost use Rattle.core_moves.specs.Needs.{IsOn};
ghost use Rattle.tree_core.specs.declared.answers.Holding.TheVariants as holding;
ghost use Rattle.tree_core.specs.Answers.{HasDropped, reply_to_hold, reply_to_next, reply_to_drop};
ghost use Rattle.tree_core.specs.Calls.{HoldsRange, LetsGo, ReadsOn};
ghost use Rattle.tree_core.specs.Causes.{HoldsBecause, PassesPages, ScansBecause, DropsBecause, ScansNone};
ghost use Rattle.tree_core.specs.Holds.{AreFew};
ghost use Rattle.tree_core.specs.HoldMoves.{MovesHold, undisked};
ghost use Rattle.tree_core.specs.Scanned as scanned;
ghost use Rattle.tree_core.specs.Scanned.{Counts, rows_noted, scanned_by, scanned_in};

use crate::{Core, Holding, Release, Scan};
use blsm_model::{Key, Op, ShortReply};
use core_moves::Held;
use disk_trait::Disk;
use page_file::Broken;
use refusal::NoMemory;
use scan_view::{Holds, RowRoom};
use seat_book::SeatBook;
use std::alloc::Global;

// The hold is made, in place of an earlier one, or all stays.
fn take_hold(
    held: &mut Held,
    holds: &mut Holds,
    alloc: Global,
    seat: u32,
    low: &Key,
    high: &Key,
) -> Holding
    requires seat { seat < callers }
    requires runs { held.old.book.stopped ≡ None → AreRuns held.old.runs }
    requires fits { held.old.book.stopped ≡ None → HoldFits held.old.runs held.old.log.a.entries }
    ensures moves { MovesHold seat held.old held.new holds.old holds.new }
    ensures cause { HoldsBecause result seat low.now high.now (undisked held.old holds.old) (undisked held.new holds.new) }
    ensures few { AreFew held.old.runs.sizes holds.old → AreFew held.new.runs.sizes holds.new }
    ensures rows { (tree : Tree) (file : List ℕ) → result ≡ holding.Held → AreOf held.old.runs tree file → HasDropped held.old tree file
        → held.old.log.a.entries ≡ above held.old.log.a.floor (replayed tree.lane_a.entries)
        → HasHeld held.old.runs.sizes held.new.runs.space.pins seat (hold_of seat holds.new)
        (Some (rows_in (record { b = held.old.log.b.entries; a = replayed tree.lane_a.entries; c1 = entries_of tree.c1; c1x = entries_of tree.c1x; c2 = entries_of tree.c2 }) low.now high.now)) file }
{
    if let Some(why) = held.book.stopped() {
        return Holding::Stopped(why);
    }
    match held
        .runs
        .hold(alloc, seat, low, high, held.log.a(), held.log.b())
    {
        Ok(hold) => {
            // Each caller has its place.
            let _had = holds.has(seat);
            holds.set(seat, hold);
            Holding::Held
        }
        Err(NoMemory) => Holding::NoMemory,
    }
}

// The room is filled with the next rows of the seat's hold, if it has one.
fn read_on<D: Disk>(
    held: &Held,
    holds: &mut Holds,
    disk: &mut D,
    room: &mut RowRoom,
    seat: u32,
    n: u32,
) -> Scan
    requires seat { seat < callers }
    requires few { n ≤ most_rows }
    requires on { held.now.book.stopped ≡ None → IsOn held.now (D.state disk.old) }
    ensures cause { ScansBecause (scanned_by result room.new) seat n (undisked held.now holds.old) (undisked held.now holds.new) (D.state disk.old) (D.state disk.new) }
    ensures counts { Counts result room.new }
    ensures rows { (rows : List Row) → IsTrue (D.state disk.old).is_honest → held.now.book.stopped ≡ None
        → HasHeld held.now.runs.sizes held.now.runs.space.pins seat (hold_of seat holds.old) (Some rows) (D.state disk.old).bytes → scanned_by result room.new ≢ scanned.Fault
        → (scanned_by result room.new ≡ scanned.Rows (take n rows)) × HasHeld held.now.runs.sizes held.now.runs.space.pins seat (hold_of seat holds.new) (Some (drop n rows)) (D.state disk.new).bytes }
    ensures others { (other : ℕ) → other ≢ seat → hold_of other holds.new ≡ hold_of other holds.old }
    ensures few { AreFew held.now.runs.sizes holds.old → AreFew held.now.runs.sizes holds.new }
    ensures counted { scanned_by result room.new ≡ scanned.Fault → (D.state disk.new).faults < 2 ^ 64 }
    ensures reads { OnlyReads (file_length held.now.runs.sizes) (pages_behind (hold_of seat holds.old)) (D.state disk.old) (D.state disk.new) }
    ensures passes { PassesPages (scanned_by result room.new) (hold_of seat holds.old) (hold_of seat holds.new) (D.state disk.old) (D.state disk.new) }
    ensures untouched { ScansNone (scanned_by result room.new) → disk.new ≡ disk.old }
{
    if let Some(why) = held.book.stopped() {
        return Scan::Stopped(why);
    }
    if !holds.has(seat) {
        return Scan::NoHold;
    }
    match holds.next_rows(seat, disk, &held.runs.geometry(), n, room) {
        Ok(()) => Scan::Rows(room.len()),
        Err(Broken::Fault) => {
            // The disk's count is a number of 64 bits.
            let _faults = disk.faults();
            Scan::Fault
        }
        Err(Broken::Damaged(page)) => Scan::Damaged(page),
    }
}

// The seat's hold is dropped with its pins, if it has one.
fn let_go(held: &mut Held, holds: &mut Holds, seat: u32) -> Release
    requires seat { seat < callers }
    requires runs { held.old.book.stopped ≡ None → AreRuns held.old.runs }
    ensures moves { MovesHold seat held.old held.new holds.old holds.new }
    ensures cause { DropsBecause result seat (undisked held.old holds.old) (undisked held.new holds.new) }
    ensures few { AreFew held.old.runs.sizes holds.old → AreFew held.new.runs.sizes holds.new }
{
    if let Some(why) = held.book.stopped() {
        return Release::Stopped(why);
    }
    if !holds.has(seat) {
        return Release::NoHold;
    }
    held.runs.unpin(seat);
    holds.clear(seat);
    Release::Done
}

// The replies that the history keeps.
fn held_reply(holding: &Holding) -> ShortReply
    ensures { as_reply result ≡ reply_to_hold holding.now }
{
    match holding {
        Holding::Held => ShortReply::Held,
        Holding::NoMemory => ShortReply::NoMemory,
        Holding::Stopped(why) => ShortReply::Stopped(*why),
    }
}

fn release_reply(release: &Release) -> ShortReply
    ensures { as_reply result ≡ reply_to_drop release.now }
{
    match release {
        Release::Done => ShortReply::Done,
        Release::NoHold => ShortReply::NoHold,
        Release::Stopped(why) => ShortReply::Stopped(*why),
    }
}

fn note_scan(book: &mut SeatBook, seat: u32, n: u32, scan: &Scan, room: &RowRoom)
    requires { HasRoom book.old.book.room (record { seat = seat; op = op.Next n; reply = reply_to_next (scanned_by scan.now room.now) }) }
    ensures { book.new ≡ noted_in seat (op.Next n) (reply_to_next (scanned_by scan.now room.now)) book.old }
{
    match scan {
        Scan::Rows(_) => book.note_rows(seat, Op::Next(n), room.as_slice()),
        Scan::NoHold => book.note(seat, Op::Next(n), ShortReply::NoHold),
        Scan::Fault => book.note(seat, Op::Next(n), ShortReply::Fault),
        Scan::Damaged(page) => book.note(seat, Op::Next(n), ShortReply::Damaged(*page)),
        Scan::Stopped(why) => book.note(seat, Op::Next(n), ShortReply::Stopped(*why)),
    }
}

impl<D: Disk + Drop> Core<D> {
    /// Holds the rows of a range as they are now, from `low` on, without `high`, for the caller. An earlier hold of the caller is replaced. It
    /// notes one entry, and calls no disk.
    ///
    /// Where memory is refused the earlier hold stays.
    #[inline(never)]
    pub fn hold(&mut self, alloc: Global, seat: u32, low: &Key, high: &Key) -> Holding
        requires { IsTrue (may_note_in seat 0 self.old.held.book) }
        ensures { HoldsRange D.state seat low.now high.now result self.old self.new }
    {
        let holding = take_hold(&mut self.held, &mut self.holds, alloc, seat, low, high);
        self.held.book.note(
            seat,
            Op::Hold(low.copy(), high.copy()),
            held_reply(&holding),
        );
        holding
    }

    /// Notes the next `n` rows of the caller's hold, 1 to 32, or as many as are left, in one entry, and answers how many they are. It only reads
    /// the disk, and a failure leaves the place and doesn't stop the store.
    #[inline(never)]
    pub fn next_rows(&mut self, seat: u32, n: u32) -> Scan
        requires note { IsTrue (may_note_in seat n self.old.held.book) }
        requires some { 0 < n }
        requires few { n ≤ most_rows }
        ensures reads { ReadsOn D.state seat n (scanned_in result self.new.held.book) self.old self.new }
        // The answer tells how many rows the entry has.
        ensures counts { Counts result (rows_noted self.new.held.book.book) }
    {
        let scan = read_on(
            &self.held,
            &mut self.holds,
            &mut self.disk,
            &mut self.rows,
            seat,
            n,
        );
        note_scan(&mut self.held.book, seat, n, &scan, &self.rows);
        scan
    }

    /// Drops the caller's hold, and what it pinned. It notes one entry, and calls no disk.
    #[inline(never)]
    pub fn drop_hold(&mut self, seat: u32) -> Release
        requires { IsTrue (may_note_in seat 0 self.old.held.book) }
        ensures { LetsGo D.state seat result self.old self.new }
    {
        let release = let_go(&mut self.held, &mut self.holds, seat);
        self.held
            .book
            .note(seat, Op::Release, release_reply(&release));
        release
    }
}
