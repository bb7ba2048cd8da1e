// How many pages a get reads, or a write that looks first, by what the memory table and the components have of the key.
use crate::asserts::{assert_same, assert_same_at, assert_that, assert_that_at};
use crate::maps::{follow, told_at};
use crate::rich::{KEYS, fill_c1x, fill_c2};
use crate::samples::{add, del, key_of, long, new, put, swap};
use crate::stops::calls_of;
use crate::stores::{admit, copy, made, make, open, quickest, report, work};
use blsm_model::{Annals, Op};
use disk_mem::MemDisk;
use std::alloc::Global;
use std::process::Abort;
use tree_core::Core;
use tree_machine::Kind;

// A pass over 2, 3 and 7 is swapped in while the deep merge runs. So 2 has a delta in C1 and one in C1' over its base in C2.
fn fill_c1(rt: &impl Abort, alloc: Global, core: &mut Core<MemDisk>) {
    admit(alloc, core, 5, add(rt, 2, 20));
    admit(alloc, core, 6, long(rt, 3, 4));
    admit(alloc, core, 7, put(rt, 7, 1, 10));
    work(alloc, core, 2);
}

// The memory table gets a base of 8, a tombstone of 5 and a delta of 3.
fn fill_memory(rt: &impl Abort, alloc: Global, core: &mut Core<MemDisk>) {
    admit(alloc, core, 8, put(rt, 8, 9, 0));
    admit(alloc, core, 9, del(rt, 5));
    admit(alloc, core, 10, add(rt, 3, 6));
}

// C1 has 2, 3 and 7, C1' has 1, 2, 5 and 6, and C2 has 2, 6 and 8.
fn check_deep(rt: &impl Abort, alloc: Global, disk: &mut MemDisk) {
    let found = report(rt, alloc, disk);
    assert_same(
        rt,
        (found.c1.entries, found.c1x.entries, found.c2.entries),
        (3, 4, 3),
    );
}

// The core of the store.
fn make_deep(rt: &impl Abort, alloc: Global) -> Core<MemDisk> {
    let mut core = open(rt, alloc, made(rt, alloc, &quickest(rt)));
    fill_c2(rt, alloc, &mut core);
    fill_c1x(rt, alloc, &mut core);
    fill_c1(rt, alloc, &mut core);
    fill_memory(rt, alloc, &mut core);
    core
}

// How many calls the disk of the store has had.
fn calls_before(rt: &impl Abort, alloc: Global) -> u64 {
    let (disk, _, _) = make_deep(rt, alloc).end();
    check_deep(rt, alloc, &mut copy(rt, &disk));
    calls_of(disk)
}

// The store does this. Answers its history, and how many calls its disk had in all.
fn calls_behind(rt: &impl Abort, alloc: Global, kind: Kind) -> (Annals, u64) {
    let mut core = make_deep(rt, alloc);
    make(alloc, &mut core, 0, kind);
    let (disk, annals, totals) = core.end();
    assert_that(rt, totals.stopped.is_none());
    (annals, calls_of(disk))
}

// The last entry tells what the writes led to of the key of this number.
fn check_told(rt: &impl Abort, alloc: Global, annals: &Annals, number: usize) {
    let last = (annals.len() as u32).saturating_sub(1);
    let told = told_at(rt, annals, last);
    let map = follow(rt, alloc, KEYS, annals);
    let value = map.get(number).expect(rt, "a key of the map");
    assert_that_at(rt, told == *value, number);
}

// A get of the key of this number, or a write that its condition keeps out, reads so many pages, and tells what the writes led to.
fn check_look(rt: &impl Abort, alloc: Global, number: usize, kind: Kind, calls: u64) {
    let (annals, made) = calls_behind(rt, alloc, kind);
    assert_same_at(rt, made, calls, number);
    check_told(rt, alloc, &annals, number);
}

// A new of a key that isn't there is appended, by four calls more.
fn check_taken(rt: &impl Abort, alloc: Global, number: usize, calls: u64) {
    let (annals, made) = calls_behind(rt, alloc, Kind::Admit(new(rt, number, 0, 0)));
    assert_same_at(rt, made, calls.saturating_add(4), number);
    let map = follow(rt, alloc, KEYS, &annals);
    let value = map.get(number).expect(rt, "a key of the map");
    assert_that_at(rt, value.is_some(), number);
}

// A get and a swap from a count that no key has.
fn check_both(rt: &impl Abort, alloc: Global, number: usize, calls: u64) {
    let get = Kind::Look(Op::Get(key_of(rt, number)));
    check_look(rt, alloc, number, get, calls);
    let swap = Kind::Admit(swap(rt, number, 77, 0, 0));
    check_look(rt, alloc, number, swap, calls);
}

// Two deltas over a base, a base in C1', a base in C1 under a delta in memory and one alone, and a base in memory over one.
#[test]
fn a_lookup_reads_a_page_of_each_component_down_to_a_base(rt: HostRuntime) {
    let alloc = rt.alloc();
    let before = calls_before(&rt, alloc);
    for (number, reads) in [(2, 3), (1, 1), (3, 1), (7, 1), (8, 0)] {
        let calls = before.saturating_add(reads);
        check_both(&rt, alloc, number, calls);
        let new = Kind::Admit(new(&rt, number, 0, 0));
        check_look(&rt, alloc, number, new, calls);
    }
}

// A tombstone in C1' and one in memory over bases, and keys that were never there.
#[test]
fn a_lookup_of_no_key_reads_a_page_down_to_a_tombstone(rt: HostRuntime) {
    let alloc = rt.alloc();
    let before = calls_before(&rt, alloc);
    for (number, reads) in [(6, 1), (5, 0), (0, 0), (4, 0), (15, 0)] {
        let calls = before.saturating_add(reads);
        check_both(&rt, alloc, number, calls);
        check_taken(&rt, alloc, number, calls);
    }
}
