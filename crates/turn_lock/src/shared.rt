//! Callers in threads of their own, over the small value.
ghost use Rattle.std.specs.Prelude.{◌≡◌, ◌≢◌, ℕ, ◌+◌, ◌-◌, ◌<◌, ◌≤◌, [], ◌∷◌, slice_index, slice_index_or, length, All, MatchResult};
ghost use Rattle.blsm_model.specs.Facts.{entries_of};
ghost use Rattle.std.specs.Thread.{IsSync};
ghost use Rattle.turn_lock.specs.Rests.{Starts, Ends};
ghost use Rattle.turn_lock.specs.Tallies.{tally_facts, work_by, works_by, HasRoomFor, IsOf, IsReady, Noted};

use crate::tally::Tally;
use crate::{Caller, TurnLock};
use std::alloc::Global;
use std::sync::Wait;
use std::thread;
use std::thread::{Threads, join};

/// One hold of the lock: notes the n-th entry of the caller's own seat.
pub fn do_one<R: Wait>(rt: &R, lock: &TurnLock<Tally>, caller: &mut Caller<Tally>, n: u32)
    requires lock { IsOf lock.now caller.old }
    requires number { caller.old.number < 16 }
    requires room { HasRoomFor (λ t. tally_facts t.annals) 1 caller.old }
    ensures noted { Noted (λ t. tally_facts t.annals) caller.old (work_by caller.old.number n ∷ []) caller.new }
    ensures room { (left : ℕ) → HasRoomFor (λ t. tally_facts t.annals) (left + 1) caller.old
        → HasRoomFor (λ t. tally_facts t.annals) left caller.new }
{
    let mut value = lock.take(rt, caller);
    value.work(caller.number(), n);
    lock.give(caller, value);
}

/// Notes so many entries, in as many holds of the lock.
pub(crate) fn note_all<R: Wait>(
    rt: &R,
    lock: &TurnLock<Tally>,
    caller: &mut Caller<Tally>,
    count: u32,
)
    requires lock { IsOf lock.now caller.old }
    requires number { caller.old.number < 16 }
    requires room { HasRoomFor (λ t. tally_facts t.annals) count caller.old }
    ensures { Noted (λ t. tally_facts t.annals) caller.old (works_by caller.old.number count) caller.new }
{
    for n in 0..count {
        do_one(rt, lock, caller, n);
    }
}

fn run_one<R: Wait>(
    rt: &R,
    lock: &TurnLock<Tally>,
    mut caller: Caller<Tally>,
    count: u32,
) -> Caller<Tally>
    requires lock { IsOf lock.now caller }
    requires number { caller.number < 16 }
    requires room { HasRoomFor (λ t. tally_facts t.annals) count caller }
    ensures { Noted (λ t. tally_facts t.annals) caller (works_by caller.number count) result }
{
    note_all(rt, lock, &mut caller, count);
    caller
}

/// The caller, and `more` others that it splits off, note so many entries each, each in a thread of its own where one can be made.
fn run_rest<R: Threads + Wait + Sync>(
    rt: &R,
    lock: &TurnLock<Tally>,
    mut first: Caller<Tally>,
    more: u32,
    count: u32,
) -> Caller<Tally>
    requires { Starts lock.now more count first }
    ensures { Ends lock.now more count first result }
{
    if more == 0 {
        return run_one(rt, lock, first, count);
    }
    let other = lock.split(&mut first);
    let (mut first, other) = join(
        rt,
        || -> Caller<Tally>
            requires { IsSync R.row × (0 < more) × Starts lock.now (more - 1) count first }
            ensures { Ends lock.entry.now (more - 1) count first result }
        { run_rest(rt, lock, first, more - 1, count) },
        || -> Caller<Tally>
            requires { IsReady lock.now (λ t. tally_facts t.annals) count other }
            ensures { Noted (λ t. tally_facts t.annals) other (works_by other.number count) result }
        { run_one(rt, lock, other, count) },
    );
    lock.join(&mut first, other);
    first
}

/// Sixteen callers note so many entries each, each in a thread of its own where one can be made. The history of the value has
/// just these of each seat, in order.
pub fn run_all<R: Threads + Wait + Sync>(
    rt: &R,
    alloc: Global,
    value: Tally,
    count: u32,
) -> Result<Tally, Tally>
    requires fresh { value.annals.entries ≡ [] }
    requires room { (i : ℕ) → i < 16 → count ≤ slice_index value.annals.room.entries i }
    ensures { MatchResult result
        (λ v. (i : ℕ) → i < 16 → entries_of i v.annals.entries ≡ works_by i count)
        (λ v. v ≡ value) }
{
    let (lock, first) = match TurnLock::new(alloc, value) {
        Ok(made) => made,
        Err(value) => return Err(value),
    };
    let first = run_rest(rt, &lock, first, 15, count);
    Ok(lock.close(first))
}
