//! The jobs of callers and workers, each in a thread of its own where one can be made.
ghost use Rattle.std.specs.Prelude.{◌≡◌, ◌≢◌, ◌+◌, ◌-◌, ◌<◌, ◌≤◌, ℕ, length, MatchResult};
ghost use Rattle.std.specs.Thread.{IsSync};
ghost use Rattle.blsm_model.specs.Format.{callers};
ghost use Rattle.blsm_model.specs.declared.history.Reply.{Reply};
ghost use Rattle.blsm_model.specs.Scripts.{lines_of, rows_of, rows_asked};
ghost use Rattle.turn_lock.specs.Tallies.{IsOf};
ghost use Rattle.turn_lock.specs.Views.{size};
ghost use Rattle.tree_machine.specs.Machine.{seats};
ghost use Rattle.tree_session.specs.Lines.{AreRunnable, IsCommand};
ghost use Rattle.tree_shared.specs.Seats.{Answered, Comes, KnowsOf, HasHelped, IsFree};
ghost use Rattle.tree_shared.specs.Runs.{Ends, Helped, IsFresh, IsNew, RanLines, RunsAll, Starts, TellsEnd};

use crate::commands::do_one;
use crate::holds::{help, leave};
use blsm_model::{CALLERS, Gate, Line, Point};
use disk_trait::Disk;
use seat_book::Turned;
use std::alloc::Global;
use std::sync::Wait;
use std::thread::{Threads, join, yield_now};
use tree_core::Core;
use turn_lock::{Caller, TurnLock};

/// A merge worker's turns, one in each hold of the lock. It ends when it took so many, or where the store is closed or stopped.
pub fn worker<R: Wait, D: Disk + Drop, G: Gate>(
    rt: &R,
    lock: &TurnLock<Core<D>>,
    caller: &mut Caller<Core<D>>,
    turns: u32,
    gate: &G,
)
    requires lock { IsOf lock.now caller.old }
    requires number { (callers ≤ caller.old.number) × (caller.old.number < seats) }
    requires knows { (before : ℕ) × (taken : ℕ) × KnowsOf (HasHelped before taken) caller.old }
    ensures { Helped D.state turns caller.old caller.new }
{
    for _turn in 0..turns {
        let ended = help(rt, lock, caller);
        gate.at(caller.number(), Point::Turned);
        match ended {
            Turned::Worked => {}
            Turned::Idle => yield_now(),
            _ => return,
        }
    }
}

// Does a line, where it is the caller's.
fn do_line<R: Wait, D: Disk + Drop, G: Gate>(
    rt: &R,
    alloc: Global,
    lock: &TurnLock<Core<D>>,
    caller: &mut Caller<Core<D>>,
    line: &Line,
    gate: &G,
)
    requires lock { IsOf lock.now caller.old }
    requires number { caller.old.number < callers }
    requires command { IsCommand line.now.op }
    requires free { line.now.seat ≡ caller.old.number → KnowsOf (IsFree 1 (rows_of line.now.op)) caller.old }
    // Another caller's line leaves a caller as it is, and its own is done and answered.
    ensures other { line.now.seat ≢ caller.old.number → caller.new ≡ caller.old }
    ensures its { line.now.seat ≡ caller.old.number → (reply : Reply) × Answered D.state line.now.op reply caller.old caller.new }
{
    if line.seat == caller.number() {
        let _told = do_one(rt, alloc, lock, caller, &line.op, gate);
    }
}

// Does the caller's own lines of the script, in order.
fn do_lines<R: Wait, D: Disk + Drop, G: Gate>(
    rt: &R,
    alloc: Global,
    lock: &TurnLock<Core<D>>,
    caller: &mut Caller<Core<D>>,
    script: &[Line],
    gate: &G,
)
    requires comes { Comes lock.now (IsFree (length (lines_of caller.old.number script.now)) (rows_asked caller.old.number script.now)) caller.old }
    requires runnable { AreRunnable script.now }
    ensures ran { RanLines D.state script.now caller.old caller.new }
    ensures free { KnowsOf (IsFree 0 0) caller.new }
{
    for line in script {
        do_line(rt, alloc, lock, caller, line, gate);
    }
}

// A job: a caller does its lines and leaves, a worker takes its turns.
fn run_one<R: Wait, D: Disk + Drop, G: Gate>(
    rt: &R,
    alloc: Global,
    lock: &TurnLock<Core<D>>,
    mut caller: Caller<Core<D>>,
    script: &[Line],
    turns: u32,
    gate: &G,
) -> Caller<Core<D>>
    requires new { IsNew lock.now caller }
    requires fresh { IsFresh script.now lock.now.start }
    requires runnable { AreRunnable script.now }
    ensures same { IsOf lock.now result }
    ensures sized { size result.me.0 ≡ size caller.me.0 }
    ensures spare { result.me.0.spare ≡ caller.me.0.spare }
    ensures ends { TellsEnd D.state lock.now.start script.now turns caller.number result }
{
    if caller.number() < CALLERS {
        do_lines(rt, alloc, lock, &mut caller, script, gate);
        leave(rt, lock, &mut caller);
    } else {
        worker(rt, lock, &mut caller, turns, gate);
    }
    caller
}

// The job of the caller, and those of so many others that it splits off.
fn run_rest<R: Threads + Wait + Sync, D: Disk + Send + Drop, G: Gate + Sync>(
    rt: &R,
    alloc: Global,
    lock: &TurnLock<Core<D>>,
    mut first: Caller<Core<D>>,
    more: u32,
    script: &[Line],
    turns: u32,
    gate: &G,
) -> Caller<Core<D>>
    requires starts { Starts lock.now more first }
    requires fresh { IsFresh script.now lock.now.start }
    requires runnable { AreRunnable script.now }
    ensures { Ends D.state script.now turns lock.now more first result }
{
    if more == 0 {
        return run_one(rt, alloc, lock, first, script, turns, gate);
    }
    let other = lock.split(&mut first);
    let (mut first, other) = join(
        rt,
        || -> Caller<Core<D>>
            requires { IsSync R.row × (0 < more) × Starts lock.now (more - 1) first × IsFresh script.now lock.now.start × AreRunnable script.now }
            ensures { Ends D.state script.entry.now turns lock.entry.now (more - 1) first result }
        { run_rest(rt, alloc, lock, first, more - 1, script, turns, gate) },
        || -> Caller<Core<D>>
            requires { IsNew lock.now other × IsFresh script.now lock.now.start × AreRunnable script.now }
            ensures { IsOf lock.entry.now result × (size result.me.0 ≡ size other.me.0) × TellsEnd D.state lock.entry.now.start script.entry.now turns other.number result }
        { run_one(rt, alloc, lock, other, script, turns, gate) },
    );
    lock.join(&mut first, other);
    first
}

/// Runs the lines of a script over a core: sixteen callers do their own ones, each in order, and so many workers take so many turns, each in a
/// thread of its own where one can be made.
///
/// Where memory is refused for the lock the core comes back, and nothing was done. It stays a call, so that the lock round the core isn't added to the
/// frame of who opened the store.
#[inline(never)]
pub fn run_all<R: Threads + Wait + Sync, D: Disk + Send + Drop, G: Gate + Sync>(
    rt: &R,
    alloc: Global,
    core: Core<D>,
    script: &[Line],
    workers: u32,
    turns: u32,
    gate: &G,
) -> Result<Core<D>, Core<D>>
    requires fresh { IsFresh script.now core }
    requires runnable { AreRunnable script.now }
    requires few { callers + workers ≤ seats }
    ensures { MatchResult result (λ end. RunsAll D.state script.now workers turns core end) (λ back. back ≡ core) }
{
    core.kept();
    let (lock, first) = match TurnLock::new(alloc, core) {
        Ok(made) => made,
        Err(core) => return Err(core),
    };
    let first = run_rest(
        rt,
        alloc,
        &lock,
        first,
        CALLERS - 1 + workers,
        script,
        turns,
        gate,
    );
    Ok(lock.close(first))
}
