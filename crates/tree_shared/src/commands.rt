//! Commands of a caller, in as many holds of the lock as they have steps.
ghost use Rattle.std.specs.Prelude.{◌≡◌, ◌<◌, ◌≤◌, ℕ, [], IsTrue, false};
ghost use Rattle.blsm_model.specs.Format.{most_rows, most_turns};
ghost use Rattle.blsm_model.specs.Legal.{is_write, TailsFit};
ghost use Rattle.blsm_model.specs.Stored.{as_reply};
ghost use Rattle.blsm_model.specs.declared.op.Op.TheVariants as op;
ghost use Rattle.tree_session.specs.Lines.{IsCommand};
ghost use Rattle.tree_shared.specs.Seats.{Answered, Comes, DidOn, WentOn, KnowsOf, IsFinished, IsFree, IsOwing};
ghost use Rattle.tree_shared.specs.Told.{IsAnswered};
ghost use Rattle.blsm_model.specs.Scripts.{rows_of};

use crate::Told;
use crate::holds::{admit, end_work, get, hold, let_go, pay, read_on, turn};
use blsm_model::{Gate, Key, Op, Point, ShortReply};
use disk_trait::Disk;
use seat_book::Turned;
use std::alloc::Global;
use std::sync::Wait;
use tree_core::{Admission, Core, Holding, Lookup, Payment, Release, Scan};
use turn_lock::{Caller, TurnLock};

// Pays once. Whether more may be owed.
fn pay_once<R: Wait, D: Disk + Drop, G: Gate>(
    rt: &R,
    lock: &TurnLock<Core<D>>,
    caller: &mut Caller<Core<D>>,
    gate: &G,
) -> bool
    requires comes { Comes lock.now (IsOwing 0 0) caller.old }
    ensures did { DidOn D.state caller.old [] caller.new }
    ensures owing { (entries rows : ℕ) → KnowsOf (IsOwing entries rows) caller.old → KnowsOf (IsOwing entries rows) caller.new }
    ensures free { result ≡ false → (entries rows : ℕ) → KnowsOf (IsOwing entries rows) caller.old → KnowsOf (IsFree entries rows) caller.new }
{
    match pay(rt, lock, caller) {
        Payment::Paid => {
            gate.at(caller.number(), Point::Paid);
            true
        }
        _ => false,
    }
}

// Pays until nothing is owed any more, or the store is stopped.
fn pay_off<R: Wait, D: Disk + Drop, G: Gate>(
    rt: &R,
    lock: &TurnLock<Core<D>>,
    caller: &mut Caller<Core<D>>,
    gate: &G,
)
    requires comes { Comes lock.now (IsOwing 0 0) caller.old }
    ensures did { DidOn D.state caller.old [] caller.new }
    ensures free { (entries rows : ℕ) → KnowsOf (IsOwing entries rows) caller.old → KnowsOf (IsFree entries rows) caller.new }
{
    for _ in rt.forever() {
        if !pay_once(rt, lock, caller, gate) {
            return;
        }
    }
    unreachable!()
}

fn write<R: Wait, D: Disk + Drop, G: Gate>(
    rt: &R,
    lock: &TurnLock<Core<D>>,
    caller: &mut Caller<Core<D>>,
    op: &Op,
    gate: &G,
) -> Told
    requires comes { Comes lock.now (IsFree 1 0) caller.old }
    requires write { IsTrue (is_write op.now) }
    requires tails { TailsFit op.now }
    ensures { IsAnswered D.state op.now result caller.old caller.new }
{
    match admit(rt, lock, caller, op) {
        Admission::Admitted => {
            gate.at(caller.number(), Point::Admitted);
            pay_off(rt, lock, caller, gate);
            Told::Short(ShortReply::Done)
        }
        Admission::Kept => Told::Kept,
        Admission::Full(charge) => Told::Short(ShortReply::Full(charge)),
        Admission::ReadFault => Told::Short(ShortReply::Fault),
        Admission::Damaged(page) => Told::Short(ShortReply::Damaged(page)),
        Admission::Fault { begun: true } => Told::Short(ShortReply::FaultUnsure),
        Admission::Fault { begun: false } => Told::Short(ShortReply::FaultLost),
        Admission::Stopped(why) => Told::Short(ShortReply::Stopped(why)),
    }
}

fn look_up<R: Wait, D: Disk + Drop>(
    rt: &R,
    lock: &TurnLock<Core<D>>,
    caller: &mut Caller<Core<D>>,
    key: &Key,
) -> ShortReply
    requires comes { Comes lock.now (IsFree 1 0) caller.old }
    ensures { Answered D.state (op.Get key.now) (as_reply result) caller.old caller.new }
{
    match get(rt, lock, caller, key) {
        Lookup::Is(value) => ShortReply::Is(value),
        Lookup::Absent => ShortReply::Absent,
        Lookup::Fault => ShortReply::Fault,
        Lookup::Damaged(page) => ShortReply::Damaged(page),
        Lookup::Stopped(why) => ShortReply::Stopped(why),
    }
}

fn hold_range<R: Wait, D: Disk + Drop>(
    rt: &R,
    alloc: Global,
    lock: &TurnLock<Core<D>>,
    caller: &mut Caller<Core<D>>,
    low: &Key,
    high: &Key,
) -> ShortReply
    requires comes { Comes lock.now (IsFree 1 0) caller.old }
    ensures { Answered D.state (op.Hold low.now high.now) (as_reply result) caller.old caller.new }
{
    match hold(rt, alloc, lock, caller, low, high) {
        Holding::Held => ShortReply::Held,
        Holding::NoMemory => ShortReply::NoMemory,
        Holding::Stopped(why) => ShortReply::Stopped(why),
    }
}

fn next<R: Wait, D: Disk + Drop>(
    rt: &R,
    lock: &TurnLock<Core<D>>,
    caller: &mut Caller<Core<D>>,
    n: u32,
) -> Told
    requires comes { Comes lock.now (IsFree 1 n) caller.old }
    requires some { 0 < n }
    requires few { n ≤ most_rows }
    ensures { IsAnswered D.state (op.Next n) result caller.old caller.new }
{
    match read_on(rt, lock, caller, n) {
        Scan::Rows(count) => Told::Rows(count),
        Scan::NoHold => Told::Short(ShortReply::NoHold),
        Scan::Fault => Told::Short(ShortReply::Fault),
        Scan::Damaged(page) => Told::Short(ShortReply::Damaged(page)),
        Scan::Stopped(why) => Told::Short(ShortReply::Stopped(why)),
    }
}

fn release<R: Wait, D: Disk + Drop>(
    rt: &R,
    lock: &TurnLock<Core<D>>,
    caller: &mut Caller<Core<D>>,
) -> ShortReply
    requires comes { Comes lock.now (IsFree 1 0) caller.old }
    ensures { Answered D.state op.Release (as_reply result) caller.old caller.new }
{
    match let_go(rt, lock, caller) {
        Release::Done => ShortReply::Done,
        Release::NoHold => ShortReply::NoHold,
        Release::Stopped(why) => ShortReply::Stopped(why),
    }
}

// Makes n turns of a caller's work, or fewer where one of them doesn't work.
fn turns<R: Wait, D: Disk + Drop>(
    rt: &R,
    lock: &TurnLock<Core<D>>,
    caller: &mut Caller<Core<D>>,
    n: u32,
)
    requires comes { Comes lock.now (IsFree 1 0) caller.old }
    requires few { n ≤ most_turns }
    ensures went { WentOn D.state caller.old [] caller.new }
    ensures finished { (entries rows : ℕ) → KnowsOf (IsFree entries rows) caller.old → KnowsOf (IsFinished n entries rows) caller.new }
{
    for done in 0..n {
        match turn(rt, lock, caller, done) {
            Turned::Worked => {}
            _ => return,
        }
    }
}

fn work<R: Wait, D: Disk + Drop>(
    rt: &R,
    lock: &TurnLock<Core<D>>,
    caller: &mut Caller<Core<D>>,
    n: u32,
) -> ShortReply
    requires comes { Comes lock.now (IsFree 1 0) caller.old }
    requires few { n ≤ most_turns }
    ensures { Answered D.state (op.Work n) (as_reply result) caller.old caller.new }
{
    turns(rt, lock, caller, n);
    end_work(rt, lock, caller, n)
}

fn perform<R: Wait, D: Disk + Drop, G: Gate>(
    rt: &R,
    alloc: Global,
    lock: &TurnLock<Core<D>>,
    caller: &mut Caller<Core<D>>,
    op: &Op,
    gate: &G,
) -> Told
    requires comes { Comes lock.now (IsFree 1 (rows_of op.now)) caller.old }
    requires command { IsCommand op.now }
    ensures { IsAnswered D.state op.now result caller.old caller.new }
{
    match op {
        Op::Put(..) | Op::Add(..) | Op::Tail(..) | Op::Del(_) | Op::New(..) | Op::Swap(..) => {
            write(rt, lock, caller, op, gate)
        }
        Op::Get(key) => Told::Short(look_up(rt, lock, caller, key)),
        Op::Hold(low, high) => Told::Short(hold_range(rt, alloc, lock, caller, low, high)),
        Op::Next(n) => next(rt, lock, caller, *n),
        Op::Release => Told::Short(release(rt, lock, caller)),
        Op::Work(n) => Told::Short(work(rt, lock, caller, *n)),
    }
}

/// Does a command of the caller to its end, one step in each hold of the lock, and answers its reply, of rows only how many they are, and of a value
/// that was kept only that it was. A write is admitted, where it looks first in one hold with its lookup, and then paid for until nothing is owed; a
/// work ends at its first turn that finds nothing to do.
pub fn do_one<R: Wait, D: Disk + Drop, G: Gate>(
    rt: &R,
    alloc: Global,
    lock: &TurnLock<Core<D>>,
    caller: &mut Caller<Core<D>>,
    op: &Op,
    gate: &G,
) -> Told
    requires comes { Comes lock.now (IsFree 1 (rows_of op.now)) caller.old }
    requires command { IsCommand op.now }
    ensures { IsAnswered D.state op.now result caller.old caller.new }
{
    let told = perform(rt, alloc, lock, caller, op, gate);
    gate.at(caller.number(), Point::Answered);
    told
}
