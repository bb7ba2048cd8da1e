//! One hold of the lock each: the value is taken, one call of the core is made, and the value is given back.
ghost use Rattle.std.specs.Prelude.{◌≡◌, ◌≢◌, ◌+◌, ◌<◌, ◌≤◌, ℕ, List, [], ◌∷◌, Option, Some, IsTrue, true};
ghost use Rattle.blsm_model.specs.Format.{callers, most_rows, most_turns};
ghost use Rattle.blsm_model.specs.Scripts.{rows_of};
ghost use Rattle.blsm_model.specs.Stored.{as_reply};
ghost use Rattle.blsm_model.specs.declared.op.Op.TheVariants as op;
ghost use Rattle.blsm_model.specs.declared.row.Row.{Row};
ghost use Rattle.blsm_model.specs.declared.row.Value.{Value};
ghost use Rattle.seat_book.specs.declared.turned.Turned.TheVariants.{Worked, Idle};
ghost use Rattle.tree_machine.specs.Machine.{seats, turn_more};
ghost use Rattle.blsm_model.specs.Legal.{is_write, TailsFit};
ghost use Rattle.turn_lock.specs.Tallies.{IsOf};
ghost use Rattle.tree_core.specs.Answers.{reply_to_drop, reply_to_get, reply_to_hold, reply_to_next, reply_to_write};
ghost use Rattle.tree_core.specs.Core.{CoreState};
ghost use Rattle.tree_core.specs.Ruling.{ruled_by};
ghost use Rattle.tree_core.specs.Scanned.{Counts, scanned_by};
ghost use Rattle.tree_core.specs.declared.answers.Admission.TheVariants as admission;
ghost use Rattle.tree_core.specs.declared.answers.Payment.TheVariants as payment;
ghost use Rattle.tree_shared.specs.Runs.{LeftAs};
ghost use Rattle.tree_shared.specs.Seats.{Answered, Comes, DidOn, KnowsOf, HasHelped, IsFinished, IsFree, IsGone, IsOwing, IsWorking};

use blsm_model::{Key, Op, ShortReply};
use disk_trait::Disk;
use seat_book::Turned;
use std::alloc::Global;
use std::sync::Wait;
use tree_core::{Admission, Core, Holding, Lookup, Payment, Release, Scan};
use turn_lock::{Caller, TurnLock};

// A write is admitted or refused, where it looks first by what it finds in the same hold.
pub(crate) fn admit<R: Wait, D: Disk + Drop>(
    rt: &R,
    lock: &TurnLock<Core<D>>,
    caller: &mut Caller<Core<D>>,
    op: &Op,
) -> Admission
    requires comes { Comes lock.now (IsFree 1 0) caller.old }
    requires write { IsTrue (is_write op.now) }
    requires tails { TailsFit op.now }
    ensures did { (found : Option Value) × DidOn D.state caller.old (record
        { seat = caller.old.number; op = op.now; reply = reply_to_write (ruled_by result found) } ∷ []) caller.new }
    ensures owing { (entries rows : ℕ) → KnowsOf (IsFree (entries + 1) (rows + rows_of op.now)) caller.old → KnowsOf (IsOwing entries rows) caller.new }
    ensures free { result ≢ admission.Admitted → (entries rows : ℕ) → KnowsOf (IsFree (entries + 1) (rows + rows_of op.now)) caller.old
        → KnowsOf (IsFree entries rows) caller.new }
{
    let seat = caller.number();
    let mut core = lock.take(rt, caller);
    let answer = core.admit(seat, op);
    lock.give(caller, core);
    answer
}

// A payment for what is owed.
pub(crate) fn pay<R: Wait, D: Disk + Drop>(
    rt: &R,
    lock: &TurnLock<Core<D>>,
    caller: &mut Caller<Core<D>>,
) -> Payment
    requires comes { Comes lock.now (IsOwing 0 0) caller.old }
    ensures did { DidOn D.state caller.old [] caller.new }
    ensures owing { (entries rows : ℕ) → KnowsOf (IsOwing entries rows) caller.old → KnowsOf (IsOwing entries rows) caller.new }
    ensures free { result ≢ payment.Paid → (entries rows : ℕ) → KnowsOf (IsOwing entries rows) caller.old → KnowsOf (IsFree entries rows) caller.new }
{
    let seat = caller.number();
    let mut core = lock.take(rt, caller);
    let answer = core.pay(seat);
    lock.give(caller, core);
    answer
}

// A lookup.
pub(crate) fn get<R: Wait, D: Disk + Drop>(
    rt: &R,
    lock: &TurnLock<Core<D>>,
    caller: &mut Caller<Core<D>>,
    key: &Key,
) -> Lookup
    requires comes { Comes lock.now (IsFree 1 0) caller.old }
    ensures { Answered D.state (op.Get key.now) (reply_to_get result) caller.old caller.new }
{
    let seat = caller.number();
    let mut core = lock.take(rt, caller);
    let answer = core.get(seat, key);
    lock.give(caller, core);
    answer
}

// A range is held.
pub(crate) fn hold<R: Wait, D: Disk + Drop>(
    rt: &R,
    alloc: Global,
    lock: &TurnLock<Core<D>>,
    caller: &mut Caller<Core<D>>,
    low: &Key,
    high: &Key,
) -> Holding
    requires comes { Comes lock.now (IsFree 1 0) caller.old }
    ensures { Answered D.state (op.Hold low.now high.now) (reply_to_hold result) caller.old caller.new }
{
    let seat = caller.number();
    let mut core = lock.take(rt, caller);
    let answer = core.hold(alloc, seat, low, high);
    lock.give(caller, core);
    answer
}

// The next rows of a hold are noted.
pub(crate) fn read_on<R: Wait, D: Disk + Drop>(
    rt: &R,
    lock: &TurnLock<Core<D>>,
    caller: &mut Caller<Core<D>>,
    n: u32,
) -> Scan
    requires comes { Comes lock.now (IsFree 1 n) caller.old }
    requires some { 0 < n }
    requires few { n ≤ most_rows }
    // The answer tells how many rows the entry has.
    ensures { (rows : List Row) × Counts result rows × Answered D.state (op.Next n) (reply_to_next (scanned_by result rows)) caller.old caller.new }
{
    let seat = caller.number();
    let mut core = lock.take(rt, caller);
    let answer = core.next_rows(seat, n);
    lock.give(caller, core);
    answer
}

// A hold is dropped.
pub(crate) fn let_go<R: Wait, D: Disk + Drop>(
    rt: &R,
    lock: &TurnLock<Core<D>>,
    caller: &mut Caller<Core<D>>,
) -> Release
    requires comes { Comes lock.now (IsFree 1 0) caller.old }
    ensures { Answered D.state op.Release (reply_to_drop result) caller.old caller.new }
{
    let seat = caller.number();
    let mut core = lock.take(rt, caller);
    let answer = core.drop_hold(seat);
    lock.give(caller, core);
    answer
}

// A turn of a caller's work, which had so many.
pub(crate) fn turn<R: Wait, D: Disk + Drop>(
    rt: &R,
    lock: &TurnLock<Core<D>>,
    caller: &mut Caller<Core<D>>,
    done: u32,
) -> Turned
    requires comes { Comes lock.now (IsWorking done 0 0) caller.old }
    requires done { done < most_turns }
    ensures did { DidOn D.state caller.old [] caller.new }
    ensures working { (entries rows : ℕ) → KnowsOf (IsWorking done entries rows) caller.old → KnowsOf (IsWorking (done + 1) entries rows) caller.new }
    ensures early { result ≢ Worked → (n entries rows : ℕ) → done < n → KnowsOf (IsWorking done entries rows) caller.old → KnowsOf (IsFinished n entries rows) caller.new }
{
    let seat = caller.number();
    let mut core = lock.take(rt, caller);
    let answer = core.work_turn(seat);
    lock.give(caller, core);
    answer
}

// A caller's work ends.
pub(crate) fn end_work<R: Wait, D: Disk + Drop>(
    rt: &R,
    lock: &TurnLock<Core<D>>,
    caller: &mut Caller<Core<D>>,
    n: u32,
) -> ShortReply
    requires comes { Comes lock.now (IsFinished n 1 0) caller.old }
    ensures did { DidOn D.state caller.old (record { seat = caller.old.number; op = op.Work n; reply = as_reply result } ∷ []) caller.new }
    ensures free { (entries rows : ℕ) → KnowsOf (IsFinished n (entries + 1) (rows + rows_of (op.Work n))) caller.old → KnowsOf (IsFree entries rows) caller.new }
{
    let seat = caller.number();
    let mut core = lock.take(rt, caller);
    let answer = core.work_end(seat, n);
    lock.give(caller, core);
    answer
}

// A turn of a worker.
pub(crate) fn help<R: Wait, D: Disk + Drop>(
    rt: &R,
    lock: &TurnLock<Core<D>>,
    caller: &mut Caller<Core<D>>,
) -> Turned
    requires lock { IsOf lock.now caller.old }
    requires number { (callers ≤ caller.old.number) × (caller.old.number < seats) }
    requires knows { (turns : ℕ) × (taken : ℕ) × KnowsOf (HasHelped turns taken) caller.old }
    ensures did { DidOn D.state caller.old [] caller.new }
    ensures helped { (turns taken : ℕ) → KnowsOf (HasHelped turns taken) caller.old → KnowsOf (HasHelped (turn_more turns) (taken + 1)) caller.new }
    ensures over { result ≢ Worked → result ≢ Idle → caller.new.me.0.over ≡ true }
{
    let seat = caller.number();
    let mut core = lock.take(rt, caller);
    let answer = core.worker_turn(seat);
    lock.give(caller, core);
    answer
}

// A caller leaves.
pub(crate) fn leave<R: Wait, D: Disk + Drop>(
    rt: &R,
    lock: &TurnLock<Core<D>>,
    caller: &mut Caller<Core<D>>,
)
    requires comes { Comes lock.now (IsFree 0 0) caller.old }
    ensures did { DidOn D.state caller.old [] caller.new }
    // It knows its part by the core that its leave made.
    ensures gone { (knows : KnowsOf IsGone caller.new) × ((start : CoreState D) → caller.new.me.0.start ≡ Some start → LeftAs D.state start caller.new.number knows.value) }
{
    let seat = caller.number();
    let mut core = lock.take(rt, caller);
    core.leave(seat);
    lock.give(caller, core);
}
