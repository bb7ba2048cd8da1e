// Sixteen callers who want the same: a lock that one of them has, a count that all raise, and room where there is none.
ghost use Rattle.std.specs.Prelude.{◌≤◌};

use crate::asserts::{assert_same, assert_that, assert_that_at};
use crate::judge::asks_the_lines;
use crate::random::LETTERS;
use crate::stores::{fresh, run, script};
use crate::threads::{LOW, run_judged};
use blsm_model::{Annals, CALLERS, Op, Reply, ShortReply, Text, Value};
use disk_mem::MemDisk;
use script_text::Script;
use std::alloc::{AllocError, Global};
use std::process::Abort;
use std::sync::Wait;
use std::thread::Threads;

fn add(rt: &impl Abort, text: &mut String, lines: Result<String, AllocError>) {
    match lines {
        Ok(lines) => assert_that(rt, text.push_str(&lines).is_ok()),
        Err(_) => rt.abort(),
    }
}

// A count with no text.
fn bare(count: u64) -> Value {
    Value {
        count,
        text: Text::empty(),
    }
}

// ---- a lock

// Each caller wants the lock, and writes its number into it.
fn wanting(rt: &impl Abort, alloc: Global) -> Script {
    let mut text = String::new(alloc);
    for seat in 0..CALLERS {
        let caller = seat.saturating_add(1);
        add(
            rt,
            &mut text,
            format!(in alloc; "{caller} new lock {caller} -\n"),
        );
    }
    script(rt, alloc, text.as_bytes())
}

// Who came first has it, and each of the others is told who that is.
fn one_has_it(rt: &impl Abort, annals: &Annals) {
    let count = annals.len() as u32;
    assert!(rt; 0 < count);
    assert_that(rt, annals.reply(0) == Reply::Done);
    let who = u64::from(annals.seat(0)).saturating_add(1);
    for place in 1..count {
        let is_told = annals.reply(place) == Reply::Kept(Some(bare(who)));
        assert_that_at(rt, is_told, place);
    }
}

fn check_lock<R: Abort + Threads + Wait + Sync>(rt: &R, alloc: Global, workers: u32)
    requires { workers ≤ 8 }
{
    let script = wanting(rt, alloc);
    let (ran, _judge) = run_judged(rt, alloc, fresh(rt, alloc, LOW), &script, workers);
    one_has_it(rt, &ran.annals);
}

#[test]
fn one_of_sixteen_callers_has_a_lock(rt: HostRuntime) {
    check_lock(&rt, rt.alloc(), 0);
    check_lock(&rt, rt.alloc(), 2);
    check_lock(&rt, rt.alloc(), 8);
}

// ---- a count

// Up to where all count.
const MOST: u64 = 8;

// A caller makes the count where there is none, and then tries to raise it from each number on.
fn add_counting(rt: &impl Abort, alloc: Global, text: &mut String, caller: u32) {
    add(rt, text, format!(in alloc; "{caller} new n 0 -\n"));
    for count in 0..MOST {
        let next = count.saturating_add(1);
        add(
            rt,
            text,
            format!(in alloc; "{caller} swap n {count} {next} -\n"),
        );
    }
}

// All callers do so. The count comes to the end however they come between one another: who tries last to raise it from a number finds that, or more.
fn counting(rt: &impl Abort, alloc: Global) -> Script {
    let mut text = String::new(alloc);
    for seat in 0..CALLERS {
        add_counting(rt, alloc, &mut text, seat.saturating_add(1));
    }
    script(rt, alloc, text.as_bytes())
}

// How many swaps were done.
fn swaps_done(annals: &Annals) -> u64 {
    let count = annals.len() as u32;
    let mut done: u64 = 0;
    for place in 0..count {
        match (annals.op(place), annals.short_reply(place)) {
            (Op::Swap(..), Some(ShortReply::Done)) => done = done.saturating_add(1),
            _ => {}
        }
    }
    done
}

// What the store on this disk has at the key of the count.
fn check_count<R: Abort + Threads + Wait + Sync>(rt: &R, alloc: Global, disk: MemDisk, count: u64) {
    let ran = run(rt, alloc, disk, &script(rt, alloc, b"1 get n\n"), 0);
    assert!(rt; 0 < ran.annals.len());
    assert_that(rt, ran.annals.reply(0) == Reply::Is(bare(count)));
}

#[test]
fn a_count_is_as_many_as_raised_it(rt: HostRuntime) {
    let alloc = rt.alloc();
    let script = counting(&rt, alloc);
    let (ran, _judge) = run_judged(&rt, alloc, fresh(&rt, alloc, 0), &script, 2);
    assert_same(&rt, swaps_done(&ran.annals), MOST);
    check_count(&rt, alloc, ran.disk, MOST);
}

// ---- room where there is none

// With five characters before it a key of 64.
const KEY: &str = "-----------------------------------------------------------";

// A caller's puts of fifteen keys of its own, each of the greatest weight: 512 bytes.
fn add_puts(rt: &impl Abort, alloc: Global, text: &mut String, seat: u32) {
    let caller = seat.saturating_add(1);
    let name = seat.saturating_add(10);
    for place in 10..25 {
        add(
            rt,
            text,
            format!(in alloc;
                "{caller} put k{name}{place}{KEY} 1 100{LETTERS}{LETTERS}{LETTERS}{LETTERS}\n"
            ),
        );
    }
}

// The puts of all callers, of which the last two have no room.
fn filling(rt: &impl Abort, alloc: Global) -> Script {
    let mut text = String::new(alloc);
    for seat in 0..CALLERS {
        add_puts(rt, alloc, &mut text, seat);
    }
    script(rt, alloc, text.as_bytes())
}

// Each caller's new and swap that are kept out by what is there, and those that nothing keeps out, and that have no room.
fn asking(rt: &impl Abort, alloc: Global) -> Script {
    let mut text = String::new(alloc);
    for seat in 0..CALLERS {
        let caller = seat.saturating_add(1);
        let name = seat.saturating_add(10);
        add(
            rt,
            &mut text,
            format!(in alloc; "{caller} new k{name}10{KEY} 2 -\n{caller} new k{name}99{KEY} 2 -\n"),
        );
        add(
            rt,
            &mut text,
            format!(in alloc;
                "{caller} swap k{name}10{KEY} 7 2 -\n{caller} swap k{name}10{KEY} 1 2 -\n"
            ),
        );
    }
    script(rt, alloc, text.as_bytes())
}

// How many writes were refused at the charge of a full store.
fn refused(annals: &Annals) -> u32 {
    let count = annals.len() as u32;
    let mut refused: u32 = 0;
    for place in 0..count {
        if annals.short_reply(place) == Some(&ShortReply::Full(121_856)) {
            refused = refused.saturating_add(1);
        }
    }
    refused
}

#[test]
fn a_full_store_looks_first(rt: HostRuntime) {
    let alloc = rt.alloc();
    let (filled, mut judge) = run_judged(
        &rt,
        alloc,
        fresh(&rt, alloc, LOW),
        &filling(&rt, alloc),
        2,
    );
    assert_same(&rt, refused(&filled.annals), 2);
    let asking = asking(&rt, alloc);
    let ran = run(&rt, alloc, filled.disk, &asking, 2);
    asks_the_lines(&rt, asking.lines(), &ran.annals);
    judge.judge_all(&rt, alloc, &ran.annals);
    assert_same(&rt, refused(&ran.annals), 32);
}
