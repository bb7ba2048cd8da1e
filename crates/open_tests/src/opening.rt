// What an opening leaves: of three geometries, after drawn steps, and a second time.
use crate::asserts::{assert_same, assert_that};
use crate::maps::{Map, follow, map_of};
use crate::samples::{Draws, add, del, draw_write, key_of, put};
use crate::stores::{copy, made, make, open, report, smallest, steepest, work, write};
use blsm_model::{CALLERS, Geometry, Op};
use disk_mem::MemDisk;
use page_file::no_component;
use std::alloc::Global;
use std::process::Abort;
use tree_core::Core;
use tree_machine::Kind;

// How many schedules there are of each geometry.
const SCHEDULES: u64 = 12;

// How many keys there are.
const KEYS: u64 = 60;

// A step of a caller, or of a worker.
fn draw_kind(rt: &impl Abort, draws: &mut Draws, seat: u32) -> Kind {
    if seat >= CALLERS {
        return Kind::WorkerTurn;
    }
    match draws.below(20) {
        0..=6 => Kind::Admit(draw_write(rt, draws, KEYS)),
        7..=13 => Kind::Pay,
        14..=15 => Kind::Look(Op::Get(key_of(rt, draws.below(KEYS) as usize))),
        16..=17 => Kind::WorkTurn,
        _ => Kind::WorkEnd(draws.below(4) as u32),
    }
}

// A drawn step of a drawn seat.
fn play_drawn(rt: &impl Abort, alloc: Global, core: &mut Core<MemDisk>, draws: &mut Draws) {
    let seat = draws.below(24) as u32;
    let kind = draw_kind(rt, draws, seat);
    make(alloc, core, seat, kind);
}

// So many drawn steps over a disk.
fn schedule(rt: &impl Abort, alloc: Global, disk: MemDisk, seed: u64, steps: u32) -> Core<MemDisk> {
    let mut draws = Draws(seed);
    let mut core = open(rt, alloc, disk);
    for _ in 0..steps {
        play_drawn(rt, alloc, &mut core, &mut draws);
    }
    core
}

// A store was settled: C1' and both lanes are empty, and the core's charge is what C1 and C2 weigh.
fn check_settled(rt: &impl Abort, alloc: Global, disk: &mut MemDisk, charge: u64) {
    let found = report(rt, alloc, disk);
    assert_same(rt, found.c1x, no_component());
    assert_same(rt, (found.lane_a, found.lane_b), (0, 0));
    assert_same(rt, found.c1.weight.saturating_add(found.c2.weight), charge);
}

// Opens the store on a disk, which has the map and is settled then. Answers the disk.
fn check_opening(rt: &impl Abort, alloc: Global, disk: MemDisk, map: &Map) -> MemDisk {
    let core = open(rt, alloc, disk);
    let charge = core.charge();
    let (found, mut disk) = map_of(rt, alloc, core, map.len());
    assert_that(rt, found == *map);
    check_settled(rt, alloc, &mut disk, charge);
    disk
}

// Opens a disk twice. The second opening finds all settled: the catalogue stays.
fn check_twice(rt: &impl Abort, alloc: Global, disk: MemDisk, map: &Map) -> MemDisk {
    let mut once = check_opening(rt, alloc, disk, map);
    let then = report(rt, alloc, &mut once);
    let mut twice = check_opening(rt, alloc, once, map);
    assert_same(rt, report(rt, alloc, &mut twice), then);
    twice
}

// A schedule's disk opens to its map, twice.
fn check_schedule(rt: &impl Abort, alloc: Global, disk: MemDisk, seed: u64, steps: u32) {
    let core = schedule(rt, alloc, disk, seed, steps);
    let (disk, annals, totals) = core.end();
    assert!(rt; 0 < totals.passes);
    assert_that(rt, totals.stopped.is_none());
    let map = follow(rt, alloc, KEYS as usize, &annals);
    let _ = check_twice(rt, alloc, disk, &map);
}

// Schedules of so many steps over stores of this geometry.
fn check_all(rt: &impl Abort, alloc: Global, geo: Geometry, steps: u32) {
    let fresh = made(rt, alloc, &geo);
    for seed in 0..SCHEDULES {
        check_schedule(rt, alloc, copy(rt, &fresh), seed, steps);
    }
}

#[test]
fn a_schedule_of_the_default_geometry_opens(rt: HostRuntime) {
    check_all(&rt, rt.alloc(), Geometry::default(), 1_500);
}

#[test]
fn a_schedule_of_the_smallest_geometry_opens(rt: HostRuntime) {
    check_all(&rt, rt.alloc(), smallest(&rt), 1_500);
}

#[test]
fn a_schedule_of_the_steepest_geometry_opens(rt: HostRuntime) {
    check_all(&rt, rt.alloc(), steepest(&rt), 1_500);
}

// A C2 of keys 1 and 3, a deep merge with a tombstone of 1 and a delta of 2, a record of 4 in lane A and one of 5 in lane B.
fn run_merges(rt: &impl Abort, alloc: Global, core: &mut Core<MemDisk>) {
    write(alloc, core, 0, put(rt, 1, 100, 3));
    write(alloc, core, 0, put(rt, 3, 1, 0));
    work(alloc, core, 6);
    write(alloc, core, 0, del(rt, 1));
    write(alloc, core, 0, add(rt, 2, 4));
    work(alloc, core, 4);
    write(alloc, core, 0, put(rt, 4, 9, 1));
}

// What the reading of that store tells.
fn check_merges(rt: &impl Abort, alloc: Global, disk: &mut MemDisk) {
    let found = report(rt, alloc, disk);
    assert_same(rt, found.version, 6);
    assert_same(rt, found.c1, no_component());
    assert_same(
        rt,
        (found.c1x.pages, found.c1x.entries, found.c1x.weight),
        (1, 2, 30),
    );
    assert_same(
        rt,
        (found.c2.pages, found.c2.entries, found.c2.weight),
        (1, 2, 33),
    );
    assert_same(rt, (found.lane_a, found.lane_b), (1, 0));
}

// What the reading tells once it was opened: the deep merge and a pass were swapped in.
fn check_merged(rt: &impl Abort, alloc: Global, disk: &mut MemDisk) {
    let found = report(rt, alloc, disk);
    assert_same(rt, found.version, 8);
    assert_same(
        rt,
        (found.c1.pages, found.c1.entries, found.c1.weight),
        (1, 1, 16),
    );
    assert_same(
        rt,
        (found.c2.pages, found.c2.entries, found.c2.weight),
        (1, 2, 30),
    );
}

#[test]
fn an_opening_goes_on_with_the_merges(rt: HostRuntime) {
    let alloc = rt.alloc();
    let mut core = open(&rt, alloc, made(&rt, alloc, &Geometry::default()));
    run_merges(&rt, alloc, &mut core);
    let (mut disk, annals, _) = core.end();
    let map = follow(&rt, alloc, KEYS as usize, &annals);
    check_merges(&rt, alloc, &mut disk);
    let mut disk = check_twice(&rt, alloc, disk, &map);
    check_merged(&rt, alloc, &mut disk);
}
