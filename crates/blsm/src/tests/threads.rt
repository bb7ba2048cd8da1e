// Callers and workers on threads, whose lines come in any order that the rules allow.
use super::asserts::{assert_same, assert_that};
use super::gates::{Fifteen, OneWorker};
use super::turns::{outcome_gated, run_gated};
use super::{
    CHECK, NAME, RUN, add, check, heavy_text, run_text, shelf_of, shelf_with_default,
    shelf_with_smallest, shelf_with_store,
};
use blsm_model::NoGate;
use disk_mem::{MemDisk, MemShelf};
use disk_trait::Shelf;
use std::alloc::Global;
use std::process::Abort;
use std::sync::Wait;
use std::thread::Threads;

// Caller 2 reads what it wrote, or what caller 1 wrote between.
#[test]
fn two_callers_of_one_key(rt: HostRuntime) {
    let alloc = rt.alloc();
    let mut shelf = shelf_with_default(&rt, alloc);
    let script = "1 put a 1 -\n2 put a 2 -\n2 get a\n";
    let text = run_gated(&rt, alloc, &mut shelf, "2", script, &NoGate);
    assert_that(&rt, text.contains(" 1 put a 1 - => ok q"));
    assert_that(&rt, text.contains(" 2 put a 2 - => ok q"));
    assert_that(
        &rt,
        text.contains(" 2 get a => is 1 - q0") || text.contains(" 2 get a => is 2 - q0"),
    );
    assert_same(&rt, text.lines().count(), 5);
}

// A put of each caller.
fn puts_of_one_key(rt: &impl Abort, alloc: Global) -> String {
    let mut script = String::new(alloc);
    for caller in 1..17 {
        match format!(in alloc; "{caller} put a {caller} -") {
            Ok(line) => add(rt, &mut script, &line),
            Err(_) => rt.abort(),
        }
    }
    script
}

// A history has the put of a caller as done.
fn check_put(rt: &impl Abort, alloc: Global, text: &str, caller: u64) {
    match format!(in alloc; " {caller} put a {caller} - => ok q0\n") {
        Ok(line) => assert_that(rt, text.contains(&line)),
        Err(_) => rt.abort(),
    }
}

// Caller 16 waits at its admission for the fifteen others, and they for its answer.
#[test]
fn sixteen_puts_beside_one_another(rt: HostRuntime) {
    let alloc = rt.alloc();
    let mut shelf = shelf_with_default(&rt, alloc);
    let script = puts_of_one_key(&rt, alloc);
    let gate = Fifteen::new(1);
    let text = run_gated(&rt, alloc, &mut shelf, "2", &script, &gate);
    assert_that(&rt, !gate.gave_up());
    assert_same(&rt, text.lines().count(), 18);
    for caller in 1..17 {
        check_put(&rt, alloc, &text, caller);
    }
}

// Puts of a caller, each of the greatest weight, 512 bytes, and of a key that no other line has.
fn add_puts(rt: &impl Abort, alloc: Global, script: &mut String, caller: u64, count: u64) {
    let text = heavy_text(rt, alloc);
    for number in 0..count {
        match format!(in alloc; "{caller} put k{caller:031}{number:032} 1 {text}") {
            Ok(line) => add(rt, script, &line),
            Err(_) => rt.abort(),
        }
    }
}

// So many puts of caller 1.
fn puts(rt: &impl Abort, alloc: Global, count: u64) -> String {
    let mut script = String::new(alloc);
    add_puts(rt, alloc, &mut script, 1, count);
    script
}

// How many writes caller 16 has.
const MANY: u64 = 200;

// Callers 1 to 15 have a put each, and caller 16 has many.
fn puts_of_all(rt: &impl Abort, alloc: Global) -> String {
    let mut script = puts(rt, alloc, 1);
    for caller in 2..16 {
        add_puts(rt, alloc, &mut script, caller, 1);
    }
    add_puts(rt, alloc, &mut script, 16, MANY);
    script
}

// A write was done, with four quanta at most.
fn is_cheap(line: &str) -> bool {
    line.ends_with(" => ok q0")
        || line.ends_with(" => ok q1")
        || line.ends_with(" => ok q2")
        || line.ends_with(" => ok q3")
        || line.ends_with(" => ok q4")
}

// So many writes were done, none of which took many quanta, and nothing else stands between the first line and the last one.
fn check_cheap(rt: &impl Abort, text: &str, count: usize) {
    assert_same(rt, text.lines().count(), count.saturating_add(2));
    for line in text.lines().skip(1).take(count) {
        assert_that(rt, is_cheap(line));
    }
}

// The peak of the memory table that a text's last line tells.
fn peak_of(rt: &impl Abort, text: &str) -> u64 {
    let Some((_, end)) = text.rsplit_once("\nend c0 ") else {
        rt.abort()
    };
    let Some((peak, _)) = end.split_once(" of 65536 ") else {
        rt.abort()
    };
    match peak.parse::<u64>() {
        Ok(peak) => peak,
        Err(_) => rt.abort(),
    }
}

// Fifteen callers stand in debt while one writes on, in a store that begins a pass at each write and has no workers: nobody pays much, nothing is
// refused, and the memory table stays below its high mark.
#[test]
fn a_caller_with_many_writes_beside_fifteen_in_debt(rt: HostRuntime) {
    let alloc = rt.alloc();
    let make = ["blsm", "make", NAME, "--low", "0"];
    let mut shelf = shelf_with_store(&rt, alloc, &make, "made 23511040\n");
    let gate = Fifteen::new(MANY);
    let script = puts_of_all(&rt, alloc);
    let text = run_gated(&rt, alloc, &mut shelf, "0", &script, &gate);
    assert_that(&rt, !gate.gave_up());
    check_cheap(&rt, &text, 215);
    assert_that(&rt, peak_of(&rt, &text) <= 65_536);
}

// The last put passes the low mark and owes 20 bytes for each of its own, which are three quanta of eight puts. Two are left for the worker, and the
// swap.
#[test]
fn a_worker_merges_behind_a_caller(rt: HostRuntime) {
    let alloc = rt.alloc();
    let mut shelf = shelf_with_default(&rt, alloc);
    let gate = OneWorker::new(33, 4);
    let text = run_gated(&rt, alloc, &mut shelf, "1", &puts(&rt, alloc, 33), &gate);
    assert_that(&rt, !gate.gave_up());
    check_cheap(&rt, &text, 33);
    assert_that(
        &rt,
        text.ends_with(" => ok q3\nend c0 16896 of 65536 callers 3 workers 2 swaps 1 0\n"),
    );
}

// The number of an image with all writes.
const ALL: u64 = 2_000_000_000_000_999_999;

// Where the third page of a store of the smallest geometry has the number of its used bytes.
const USED: u64 = 4_096 + 3 * 4 * 17_408 + 2 * 4_096 + 2;

// A call of the disk behind an opening, and before the last of 33 puts.
const CALL: u64 = 100;

// The disk of a name, as one on which no call was answered, whose third page has too many used bytes from that call on.
fn damaged_later(rt: &impl Abort, shelf: &mut MemShelf) -> MemDisk {
    let Ok(disk) = shelf.fetch(NAME, false) else {
        rt.abort()
    };
    let Ok(mut disk) = disk.image(ALL) else {
        rt.abort()
    };
    if disk.poke(CALL, USED, &[0x0f, 0xf9]).is_err() {
        rt.abort()
    }
    disk
}

// A store of the smallest geometry whose C1 has 32 puts on five pages, seven on each of the first four, of which the third will be damaged.
fn shelf_with_c1<R: Abort + Threads + Wait + Sync>(rt: &R, alloc: Global) -> MemShelf {
    let mut shelf = shelf_with_smallest(rt, alloc);
    let mut script = puts(rt, alloc, 32);
    add(rt, &mut script, "1 work 6");
    let text = run_text(rt, alloc, &mut shelf, &RUN, script.as_bytes());
    assert_that(
        rt,
        text.ends_with(
            "33 1 work 6 => did 6 q4\nend c0 16384 of 34816 callers 4 workers 0 swaps 1 0\n",
        ),
    );
    let disk = damaged_later(rt, &mut shelf);
    shelf_of(rt, alloc, disk)
}

// The last put owes 12 bytes for each of its own, which are two quanta of four keys, as C1 has the same ones: they end on the second page. So does
// the worker's first one, and its second one meets the third page, which stops the store. No line tells of it.
#[test]
fn a_page_that_only_a_worker_meets(rt: HostRuntime) {
    let alloc = rt.alloc();
    let mut shelf = shelf_with_c1(&rt, alloc);
    let gate = OneWorker::new(33, 3);
    let script = puts(&rt, alloc, 33);
    let (status, text) = outcome_gated(&rt, alloc, &mut shelf, "1", &script, &gate);
    assert_that(&rt, !gate.gave_up());
    assert_same(&rt, status, 6);
    check_cheap(&rt, &text, 33);
    assert_that(
        &rt,
        text.ends_with(" => ok q2\nend c0 16896 of 34816 callers 2 workers 1 swaps 0 0\n"),
    );
    check(&rt, alloc, &mut shelf, &CHECK, b"", (6, "damaged page 2\n"));
}
