// Pages that turn to zeros while the store runs: each call that comes to one names it. After a lookup, a write's too, or a next the store goes on,
// and a payment or a turn stops it.
use crate::samples::{key, new, put, put_of, swap, value};
use crate::stops::calls_of;
use crate::stores::{File, check_reply, make, smallest, work, write};
use blsm_model::{Annals, CALLERS, Component, Geometry, Op, ShortReply, Why};
use catalog_swap::Catalog;
use disk_mem::MemDisk;
use seat_book::Turned;
use std::alloc::Global;
use std::process::Abort;
use tree_core::{Core, Payment};
use tree_machine::Kind;

// A component.
#[derive(Clone, Copy)]
enum Part {
    C1,
    C1x,
    C2,
}

// Keys that are put one after another, and how many turns of work follow each: three merge it into C1, four into C1', and six into C2.
type Merged<'a> = &'a [(&'a [u8], u32)];

const IN_C1: Merged = &[(b"k", 3)];

const IN_C1X: Merged = &[(b"k", 4)];

const IN_C2: Merged = &[(b"k", 6)];

// C2 under a C1' whose deep merge has begun.
const IN_BOTH: Merged = &[(b"k", 6), (b"l", 4)];

// The first turns to zeros where the key of a store is merged so.
const PLACES: [(Part, Merged); 4] = [
    (Part::C1, IN_C1),
    (Part::C1x, IN_C1X),
    (Part::C2, IN_C2),
    (Part::C2, IN_BOTH),
];

fn merge(rt: &impl Abort, alloc: Global, core: &mut Core<MemDisk>, merged: Merged) {
    for (name, turns) in merged {
        make(alloc, core, 0, Kind::Admit(put(rt, name, 7, b"seven")));
        work(alloc, core, *turns);
    }
}

// A core over a disk of a store that was just made, whose keys are merged so. Caller 1 holds them all.
fn prepare(rt: &impl Abort, alloc: Global, disk: MemDisk, merged: Merged) -> Core<MemDisk> {
    let mut core = File::over(rt, smallest(rt), disk).start(rt, alloc);
    merge(rt, alloc, &mut core, merged);
    make(
        alloc,
        &mut core,
        1,
        Kind::Hold(key(rt, b"a"), key(rt, b"z")),
    );
    core
}

fn blank(rt: &impl Abort, alloc: Global) -> MemDisk {
    File::make(rt, alloc, smallest(rt)).disk
}

fn part_of(now: &Catalog, part: Part) -> Component {
    match part {
        Part::C1 => now.c1,
        Part::C1x => now.c1x,
        Part::C2 => now.c2,
    }
}

// The only page of a component.
fn page_of(rt: &impl Abort, alloc: Global, part: Part, merged: Merged) -> u32 {
    let (disk, _, _) = prepare(rt, alloc, blank(rt, alloc), merged).end();
    let now = File::over(rt, smallest(rt), disk).newest(rt);
    let run = part_of(&now, part);
    assert_eq!(rt; (run.pages, run.entries), (1, 1));
    run.first
}

// How many calls the disk has had when the keys are merged.
fn calls_before(rt: &impl Abort, alloc: Global, merged: Merged) -> u64 {
    let (disk, _, totals) = prepare(rt, alloc, blank(rt, alloc), merged).end();
    assert!(rt; totals.stopped.is_none());
    calls_of(disk)
}

// Where a page stands in the file. The pages are the file's end.
fn place_of(geo: &Geometry, page: u32) -> u64 {
    let behind = geo.pages().saturating_sub(u64::from(page));
    geo.length().saturating_sub(behind.saturating_mul(4_096))
}

// The store with its keys merged, where the component's page has turned to zeros since, and that page.
fn damaged(rt: &impl Abort, alloc: Global, part: Part, merged: Merged) -> (Core<MemDisk>, u32) {
    let page = page_of(rt, alloc, part, merged);
    let next = calls_before(rt, alloc, merged).saturating_add(1);
    let mut disk = blank(rt, alloc);
    let poked = disk.poke(next, place_of(&smallest(rt), page), &[0; 4_096]);
    assert!(rt; poked.is_ok());
    (prepare(rt, alloc, disk, merged), page)
}

// How many entries are noted before: of each key its put and its work, and the hold.
fn first_place(merged: Merged) -> u32 {
    u32::try_from(merged.len())
        .unwrap_or(0)
        .saturating_mul(2)
        .saturating_add(1)
}

// A lookup names the page, and the store goes on.
fn check_get(rt: &impl Abort, alloc: Global, part: Part, merged: Merged) {
    let (mut core, page) = damaged(rt, alloc, part, merged);
    make(alloc, &mut core, 2, Kind::Look(Op::Get(key(rt, b"k"))));
    make(alloc, &mut core, 2, Kind::Look(Op::Get(key(rt, b"absent"))));
    make(alloc, &mut core, 2, Kind::Admit(put(rt, b"m", 1, b"")));
    let (_, annals, totals) = core.end();
    let place = first_place(merged);
    check_reply(rt, &annals, place, &ShortReply::Damaged(page));
    check_reply(rt, &annals, place.saturating_add(1), &ShortReply::Absent);
    check_reply(rt, &annals, place.saturating_add(2), &ShortReply::Done);
    assert!(rt; totals.stopped.is_none());
}

#[test]
fn a_get_names_the_damaged_page(rt: HostRuntime) {
    for (part, merged) in PLACES {
        check_get(&rt, rt.alloc(), part, merged);
    }
}

// A new and a swap name the page too, and then their caller writes without a look.
fn check_condition(rt: &impl Abort, alloc: Global, part: Part, merged: Merged) {
    let (mut core, page) = damaged(rt, alloc, part, merged);
    make(alloc, &mut core, 2, Kind::Admit(new(rt, b"k", 1, b"")));
    make(alloc, &mut core, 2, Kind::Admit(swap(rt, b"k", 7, 1, b"")));
    make(alloc, &mut core, 2, Kind::Admit(put(rt, b"k", 8, b"")));
    make(alloc, &mut core, 3, Kind::Admit(new(rt, b"k", 1, b"")));
    let (_, annals, totals) = core.end();
    let place = first_place(merged);
    let damaged = ShortReply::Damaged(page);
    check_reply(rt, &annals, place, &damaged);
    check_reply(rt, &annals, place.saturating_add(1), &damaged);
    check_reply(rt, &annals, place.saturating_add(2), &ShortReply::Done);
    let kept = ShortReply::Kept(Some(value(rt, 8, b"")));
    check_reply(rt, &annals, place.saturating_add(3), &kept);
    assert!(rt; totals.stopped.is_none());
}

#[test]
fn a_write_that_looks_first_names_the_damaged_page(rt: HostRuntime) {
    for (part, merged) in PLACES {
        check_condition(&rt, rt.alloc(), part, merged);
    }
}

// So does a next, whose hold stays.
fn check_next(rt: &impl Abort, alloc: Global, part: Part, merged: Merged) {
    let (mut core, page) = damaged(rt, alloc, part, merged);
    make(alloc, &mut core, 1, Kind::Next(32));
    make(alloc, &mut core, 1, Kind::Next(1));
    make(alloc, &mut core, 1, Kind::Release);
    make(alloc, &mut core, 1, Kind::Next(1));
    let (_, annals, totals) = core.end();
    let place = first_place(merged);
    check_reply(rt, &annals, place, &ShortReply::Damaged(page));
    check_reply(
        rt,
        &annals,
        place.saturating_add(1),
        &ShortReply::Damaged(page),
    );
    check_reply(rt, &annals, place.saturating_add(2), &ShortReply::Done);
    check_reply(rt, &annals, place.saturating_add(3), &ShortReply::NoHold);
    assert!(rt; totals.stopped.is_none());
}

#[test]
fn a_next_names_the_damaged_page(rt: HostRuntime) {
    for (part, merged) in PLACES {
        check_next(&rt, rt.alloc(), part, merged);
    }
}

// The page stopped the store, and a lookup is told so.
fn check_stop(rt: &impl Abort, alloc: Global, core: Core<MemDisk>, page: u32) -> Annals {
    let mut core = core;
    make(alloc, &mut core, 3, Kind::Look(Op::Get(key(rt, b"k"))));
    let (_, annals, totals) = core.end();
    let why = Why::BadPage(page);
    assert_eq!(rt; totals.stopped, Some(why));
    let last = (annals.len() as u32).saturating_sub(1);
    check_reply(rt, &annals, last, &ShortReply::Stopped(why));
    annals
}

// A caller's work comes to it in so many turns.
fn check_work(rt: &impl Abort, alloc: Global, part: Part, merged: Merged, turns: u32) {
    let (mut core, page) = damaged(rt, alloc, part, merged);
    make(alloc, &mut core, 2, Kind::Admit(put(rt, b"m", 1, b"")));
    work(alloc, &mut core, turns);
    let annals = check_stop(rt, alloc, core, page);
    check_reply(
        rt,
        &annals,
        first_place(merged).saturating_add(1),
        &ShortReply::Damaged(page),
    );
}

// A pass comes to C1 in the turn after the one that begins it, and a deep merge that has begun to each of its inputs in the next turn.
#[test]
fn a_work_names_the_damaged_page(rt: HostRuntime) {
    let alloc = rt.alloc();
    check_work(&rt, alloc, Part::C1, IN_C1, 2);
    check_work(&rt, alloc, Part::C1x, IN_C1X, 1);
    check_work(&rt, alloc, Part::C2, IN_BOTH, 1);
}

// A worker's turn over a deep merge.
#[test]
fn a_worker_names_the_damaged_page(rt: HostRuntime) {
    let alloc = rt.alloc();
    let (mut core, page) = damaged(&rt, alloc, Part::C1x, IN_C1X);
    let ended = core.worker_turn(CALLERS);
    assert!(rt; ended == Turned::BadPage(page));
    check_stop(&rt, alloc, core, page);
}

// A payment of the deep merge.
#[test]
fn a_payment_names_the_damaged_page(rt: HostRuntime) {
    let alloc = rt.alloc();
    let (mut core, page) = damaged(&rt, alloc, Part::C1x, IN_C1X);
    make(alloc, &mut core, 2, Kind::Admit(put_of(&rt, 9)));
    assert!(rt; core.pay(2) == Payment::Damaged(page));
    check_stop(&rt, alloc, core, page);
}

// Writes come until one has begun a pass and pays for it.
#[test]
fn a_write_that_pays_for_a_pass_names_the_damaged_page(rt: HostRuntime) {
    let alloc = rt.alloc();
    let (mut core, page) = damaged(&rt, alloc, Part::C1, IN_C1);
    for number in 0..64 {
        write(alloc, &mut core, 2, put_of(&rt, number));
    }
    check_stop(&rt, alloc, core, page);
}
