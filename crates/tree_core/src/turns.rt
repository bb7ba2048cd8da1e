//! Turns of work, by callers and workers.
ghost use Rattle.std.specs.Prelude.{◌≡◌, ◌&&◌, ◌≤◌, ◌<◌, ◌+◌, ◌/◌, ℕ, Err, None, IsTrue, IsErr, IfOk, OnOk};
ghost use Rattle.blsm_model.specs.Format.{callers};
ghost use Rattle.blsm_model.specs.Geometry.{file_length};
ghost use Rattle.disk_trait.specs.Disk.{TellsFaultsBy};
ghost use Rattle.disk_trait.specs.Effects.{Affects};
ghost use Rattle.gear_sched.specs.Gears.{first_debt, second_debt};
ghost use Rattle.seat_book.specs.Places.{HasPlaces};
ghost use Rattle.seat_book.specs.State.{is_closed_in, may_turn_in};
ghost use Rattle.seat_book.specs.Turns.{turned_of};
ghost use Rattle.scan_view.specs.Pins.{beside_pins};
ghost use Rattle.tree_machine.specs.Machine.{seats};
ghost use Rattle.tree_machine.specs.Outcomes.{calls_disk};
ghost use Rattle.paced_tree.specs.Booking.{quanta_of_move};
ghost use Rattle.tree_file.specs.Tree.{Tree};
ghost use Rattle.tree_runs.specs.Holding.{HasAllAhead, StandOver};
ghost use Rattle.core_moves.specs.Needs.{IsOn, IsReady};
ghost use Rattle.core_moves.specs.Moves.{KeepsAllButMerges};
ghost use Rattle.core_pace.specs.Turns.{MayMove, TurnsBy, may_begin_in, move_at_rest, move_in, end_of_move};
ghost use Rattle.core_lists.specs.Steps.{choice_of};
ghost use Rattle.tree_core.specs.Calls.{Helps, TurnsOnce};
ghost use Rattle.tree_core.specs.Causes.{IsDamageAhead, merge_of};
ghost use Rattle.tree_core.specs.Clock.{LeavesDisk};
ghost use Rattle.tree_core.specs.Quanta.{LeavesMoved, as_moved, ended_by, quanta_by, stopped_by};
ghost use Rattle.tree_core.specs.Turning.{IsEven, MayCount, TakesTurn, counted_by, move_of};

use crate::Core;
use blsm_model::Why;
use core_moves::Held;
use disk_trait::Disk;
use page_file::Broken;
use refusal::Failed;
use seat_book::{SeatBook, Turned};
use spring_mark::may_begin;

// What a turn does.
#[derive(Clone, Copy, PartialEq, Eq, Debug)]
enum Choice {
    SwapDeep,
    SwapPass,
    DeepQuantum,
    PassQuantum,
    Begin,
    Rotate,
    Rest,
}

// A worker begins a pass past the low mark of the spring, and a caller's work where the memory table has entries.
fn begins(held: &Held, is_worker: bool) -> bool
    ensures { result ≡ may_begin_in is_worker held.now }
{
    if is_worker {
        may_begin(held.spring, held.runs.geometry().low())
    } else {
        !held.log.is_empty()
    }
}

// What a turn does where no merge runs.
fn choose_at_rest(held: &Held, is_worker: bool) -> Choice
    ensures { move_of result ≡ move_at_rest is_worker held.now }
{
    if begins(held, is_worker) {
        Choice::Begin
    } else if !is_worker && held.runs.catalogue().c1.weight != 0 {
        Choice::Rotate
    } else {
        Choice::Rest
    }
}

// Which turn it is, the first that applies.
fn choose(held: &Held, is_worker: bool) -> Choice
    ensures { move_of result ≡ move_in is_worker held.now }
{
    if held.runs.is_deep_done() {
        Choice::SwapDeep
    } else if held.runs.is_pass_done(held.log.a()) {
        Choice::SwapPass
    } else if held.runs.in_deep() && (!held.runs.in_pass() || held.gears.deep_is_behind()) {
        Choice::DeepQuantum
    } else if held.runs.in_pass() {
        Choice::PassQuantum
    } else {
        choose_at_rest(held, is_worker)
    }
}

// Each seat has its places in the book.
fn has_places(book: &SeatBook)
    ensures { HasPlaces book.now }
{
    let _ = book.entries();
}

// What a move gives that takes no quantum.
fn no_quantum(done: Result<(), Failed>) -> Result<u64, Broken>
    ensures { result ≡ as_moved done }
{
    match done {
        Ok(()) => Ok(0),
        Err(_) => Err(Broken::Fault),
    }
}

// Makes the move that was chosen. Gives the weight that its quantum took, in bytes, and 0 where it takes none.
fn make<D: Disk>(held: &mut Held, disk: &mut D, seat: u32, choice: Choice) -> Result<u64, Broken>
    requires seat { seat < seats }
    requires may { MayMove (move_of choice) held.old }
    requires ready { IsReady held.old (D.state disk.old) }
    ensures lists { (tree : Tree) → IsTrue (D.state disk.old).is_honest → StandOver held.old.runs tree (D.state disk.old)
        → HasAllAhead held.old.runs.pass held.old.log.a.entries tree
        → (next : Tree) × LeavesMoved (move_of choice) result held.old held.new tree next (D.state disk.old) (D.state disk.new) }
    ensures moves { IfOk result (λ n. TurnsBy (move_of choice) seat n held.old held.new) }
    ensures damaged { (n : ℕ) → result ≡ Err (Broken.Damaged n) → IsTrue (D.state disk.old).tells_bytes → IsDamageAhead (merge_of (move_of choice)) held.new.runs n (D.state disk.new).bytes }
    ensures on { OnOk result (IsOn held.new (D.state disk.new)) }
    ensures calls { IsErr result → IsTrue (calls_disk (choice_of (move_of choice))) }
    ensures in_memory { LeavesDisk (move_of choice) disk.old disk.new }
    ensures kept { KeepsAllButMerges (IsErr result) held.old held.new }
    ensures effect { Affects (beside_pins held.old.runs.sizes held.old.runs.space.pins) (file_length held.old.runs.sizes) (held.old.runs.sizes.quantum / 4 + 9) (D.state disk.old) (D.state disk.new) }
    ensures faults { TellsFaultsBy (Err Broken.Fault) result (D.state disk.old) (D.state disk.new) }
{
    match choice {
        Choice::SwapDeep => no_quantum(held.swap_deep(disk)),
        Choice::SwapPass => no_quantum(held.swap_pass(disk)),
        Choice::Rotate => no_quantum(held.rotate(disk)),
        Choice::DeepQuantum => held.deep_quantum(disk, seat),
        Choice::PassQuantum => held.pass_quantum(disk, seat),
        Choice::Begin => {
            held.begin_pass();
            Ok(0)
        }
        Choice::Rest => Ok(0),
    }
}

// How a turn ends whose move went well.
fn ended_of(choice: Choice) -> Turned
    ensures { turned_of result ≡ end_of_move (move_of choice) }
{
    match choice {
        Choice::Rest => Turned::Idle,
        _ => Turned::Worked,
    }
}

// How many quanta it takes.
fn quanta_of(choice: Choice) -> u32
    ensures { result ≡ quanta_of_move (move_of choice) }
{
    match choice {
        Choice::DeepQuantum | Choice::PassQuantum => 1,
        _ => 0,
    }
}

// Tells how the turn ended, and its quanta. Where its move failed the store stops; the disk has counted so many faults then.
fn end(book: &mut SeatBook, faults: u64, choice: Choice, made: Result<u64, Broken>) -> (Turned, u32)
    ensures ended { turned_of result.0 ≡ ended_by made (move_of choice) }
    ensures quanta { result.1 ≡ quanta_by made (move_of choice) }
    ensures book { book.new ≡ stopped_by made faults book.old }
{
    match made {
        Ok(_) => (ended_of(choice), quanta_of(choice)),
        Err(Broken::Fault) => {
            book.stop(Why::Faulted(faults));
            (Turned::Failed, 0)
        }
        Err(Broken::Damaged(page)) => {
            book.stop(Why::BadPage(page));
            (Turned::BadPage(page), 0)
        }
    }
}

// Whether the store is closed to a turn: to a worker's, once all callers left.
fn is_closed_to(book: &SeatBook, is_worker: bool) -> bool
    ensures { result ≡ (is_worker && is_closed_in book.now) }
{
    is_worker && book.is_closed()
}

// Counts a turn that ended so; a caller's with its quanta.
fn count(book: &mut SeatBook, seat: u32, is_worker: bool, ended: Turned, quanta: u32)
    requires may { MayCount is_worker seat book.old }
    requires quanta { quanta ≤ 1 }
    ensures { book.new ≡ counted_by is_worker seat (turned_of ended) quanta book.old }
{
    if is_worker {
        book.worker_turn(seat);
    } else {
        book.turn(seat, ended, quanta);
    }
}

impl<D: Disk + Drop> Core<D> {
    // A turn of a worker, or of a caller's work.
    #[inline(never)]
    fn turn(&mut self, seat: u32, is_worker: bool) -> Turned
        requires may { MayCount is_worker seat self.old.held.book }
        requires even { self.old.held.book.stopped ≡ None → IsEven is_worker seat self.old.held }
        ensures { TakesTurn is_worker D.state seat (turned_of result) self.old self.new }
    {
        has_places(&self.held.book);
        if let Some(why) = self.held.book.stopped() {
            count(&mut self.held.book, seat, is_worker, Turned::Halted(why), 0);
            return Turned::Halted(why);
        }
        if is_closed_to(&self.held.book, is_worker) {
            count(&mut self.held.book, seat, is_worker, Turned::Closed, 0);
            return Turned::Closed;
        }
        let choice = choose(&self.held, is_worker);
        let made = make(&mut self.held, &mut self.disk, seat, choice);
        let (ended, quanta) = end(&mut self.held.book, self.disk.faults(), choice, made);
        count(&mut self.held.book, seat, is_worker, ended, quanta);
        ended
    }

    /// A caller does one turn of its work: it swaps in a merge that is done, does a quantum, begins a pass where the memory table has
    /// entries, or rotates a C1 that has some; with nothing of these to do it is idle.
    ///
    /// The caller must owe nothing, unless the store is stopped, and its open work must have had fewer than 100,000 turns.
    pub fn work_turn(&mut self, seat: u32) -> Turned
        requires open { IsTrue (may_turn_in seat self.old.held.book) }
        requires even { self.old.held.book.stopped ≡ None → first_debt self.old.held.gears seat + second_debt self.old.held.gears seat ≡ 0 }
        ensures { TurnsOnce D.state seat (turned_of result) self.old self.new }
    {
        self.turn(seat, false)
    }

    /// A worker does one turn: as a caller's, but it begins a pass past the low mark of the spring only, and rotates nothing.
    pub fn worker_turn(&mut self, seat: u32) -> Turned
        requires { (callers ≤ seat) × (seat < seats) }
        ensures { Helps D.state seat (turned_of result) self.old self.new }
    {
        self.turn(seat, true)
    }
}
