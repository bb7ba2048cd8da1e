// Callers in threads of their own, over the plainest value.
ghost use Rattle.std.specs.Prelude.{◌≡◌, ◌<◌, ℕ, [], Some, IfOk, slice_index};
ghost use mathlib.Core.List.{IsPrefix};
ghost use Rattle.turn_lock.specs.declared.tally.Tally.{Tally};
ghost use Rattle.turn_lock.specs.Callers.{Idles, MayGive};
ghost use Rattle.turn_lock.specs.Tallies.{WorksOnce, tally_facts, HasRoomFor, IsOf, IsReady};

use crate::shared::note_all;
use crate::{Caller, Tally, TurnLock, do_one, run_all};
use blsm_model::{Annals, Op, Room};
use std::alloc::Global;
use std::sync::Wait;
use std::test::Fail;
use std::thread::{join, yield_now};

fn tally(alloc: Global) -> Result<Tally, Fail>
    ensures { IfOk result (λ t. (t.annals.entries ≡ [])
        × ((i : ℕ) → i < 16 → slice_index t.annals.room.entries i ≡ 10)) }
{
    let room = Room {
        entries: [10; 16],
        rows: [0; 16],
    };
    Ok(Tally {
        annals: Annals::reserve(alloc, room)?,
    })
}

// One hold of the lock that isn't over yet.
fn take_and_work<R: Wait>(rt: &R, lock: &TurnLock<Tally>, caller: &mut Caller<Tally>) -> Tally
    requires lock { IsOf lock.now caller.old }
    requires number { caller.old.number < 16 }
    requires room { HasRoomFor (λ t. tally_facts t.annals) 1 caller.old }
    ensures table { caller.new.table ≡ caller.old.table }
    ensures turn { MayGive (λ t. tally_facts t.annals) (λ seat a b. WorksOnce seat a.annals b.annals) caller.new result }
    ensures lasts { (a : Tally) → caller.new.me.0.start ≡ Some a → IsPrefix a.annals.entries result.annals.entries }
{
    let mut value = lock.take(rt, caller);
    value.work(caller.number(), 0);
    value
}

fn give_late(lock: &TurnLock<Tally>, mut caller: Caller<Tally>, value: Tally) -> Caller<Tally>
    requires table { caller.table ≡ lock.now.table }
    requires turn { MayGive (λ t. tally_facts t.annals) (λ seat a b. WorksOnce seat a.annals b.annals) caller value }
    requires lasts { (a : Tally) → caller.me.0.start ≡ Some a → IsPrefix a.annals.entries value.annals.entries }
    ensures { (result.table ≡ caller.table) × Idles result.me }
{
    for _ in 0..10_000 {
        yield_now();
    }
    lock.give(&mut caller, value);
    caller
}

// Each caller's numbers stand in the history once, in order.
#[test]
fn sixteen_callers_note_their_entries(rt: HostRuntime) -> Result<(), Fail> {
    let value = tally(rt.alloc())?;
    let Ok(value) = run_all(&rt, rt.alloc(), value, 10) else {
        panic!(rt; "no memory");
    };
    assert_eq!(rt; value.annals.len(), 160);
    let mut noted = [0_u32; 16];
    for place in 0..160 {
        let seat = value.annals.seat(place) as usize;
        assert!(rt; seat < 16);
        assert_eq!(rt; *value.annals.op(place), Op::Work(noted[seat]));
        noted[seat] = noted[seat].saturating_add(1);
    }
    assert_eq!(rt; noted, [10; 16]);
    Ok(())
}

// One caller has the value before the other draws its ticket: the other waits, and its entry comes second.
#[test]
fn a_caller_waits_for_its_turn(rt: HostRuntime) -> Result<(), Fail> {
    let Ok((lock, mut one)) = TurnLock::new(rt.alloc(), tally(rt.alloc())?) else {
        panic!(rt; "no memory");
    };
    let mut two = lock.split(&mut one);
    let value = take_and_work(&rt, &lock, &mut one);
    let shared = &lock;
    let (mut one, _two) = join(
        &rt,
        || -> Caller<Tally>
            requires { (one.table ≡ shared.now.table)
                × MayGive (λ t. tally_facts t.annals) (λ seat a b. WorksOnce seat a.annals b.annals) one value
                × ((a : Tally) → one.me.0.start ≡ Some a → IsPrefix a.annals.entries value.annals.entries) }
            ensures { (result.table ≡ one.table) × Idles result.me }
        { give_late(shared, one, value) },
        || -> Caller<Tally>
            requires { IsReady shared.now (λ t. tally_facts t.annals) 1 two }
        {
            do_one(&rt, shared, &mut two, 0);
            two
        },
    );
    let value = lock.take(&rt, &mut one);
    assert_eq!(rt; value.annals.len(), 2);
    assert_eq!(rt; [value.annals.seat(0), value.annals.seat(1)], [0, 1]);
    Ok(())
}

// A caller looks, notes ten entries, and looks again. Another one noted the first entry.
#[test]
fn a_caller_looks_notes_and_looks_again(rt: HostRuntime) -> Result<(), Fail> {
    let Ok((lock, mut one)) = TurnLock::new(rt.alloc(), tally(rt.alloc())?) else {
        panic!(rt; "no memory");
    };
    let mut two = lock.split(&mut one);
    do_one(&rt, &lock, &mut two, 0);
    let before = lock.look_front(&mut one);
    note_all(&rt, &lock, &mut one, 10);
    let behind = lock.look_front(&mut one);
    let peak = lock.look_bytes(&mut one);
    assert_eq!(rt; [before, behind, peak], [1, 11, 0]);
    Ok(())
}
