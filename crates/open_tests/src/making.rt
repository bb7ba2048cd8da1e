// Stores that are made: of three geometries, on disks that have bytes, and a making that is stopped at each of its calls.
use crate::asserts::{assert_same, assert_same_at, assert_that};
use crate::damage::poke;
use crate::maps::{empty, map_of};
use crate::samples::Draws;
use crate::stops::{calls_of, check_same, pick_of};
use crate::stores::{ALL, NONE, blank, copy, image, made, open, report, room, smallest, steepest};
use blsm_model::Geometry;
use disk_mem::MemDisk;
use disk_trait::Disk;
use page_file::no_component;
use recover_open::{NotMade, NotOpened, Unreadable, make_store, open_store};
use std::alloc::Global;
use std::process::Abort;
use tree_core::Core;

// How many keys are looked up in an empty store.
const KEYS: usize = 4;

// How many of the first calls of the making of a great store, and of the last ones, it is stopped at.
const NEAR: u64 = 6;

// How many drawn images of a stop there are.
const DRAWN: u64 = 4;

// A store that was just made has its first catalogue, and nothing else.
fn check_first(rt: &impl Abort, alloc: Global, disk: &mut MemDisk) {
    let found = report(rt, alloc, disk);
    assert_same(rt, found.version, 1);
    for run in [found.c1, found.c1x, found.c2] {
        assert_same(rt, run, no_component());
        assert_same(
            rt,
            (run.first, run.pages, run.entries, run.weight),
            (u32::MAX, 0, 0, 0),
        );
    }
    assert_same(rt, (found.lane_a, found.lane_b), (0, 0));
}

// A core has no key.
fn check_empty(rt: &impl Abort, alloc: Global, core: Core<MemDisk>) -> MemDisk {
    assert_same(rt, core.charge(), 0);
    let (map, disk) = map_of(rt, alloc, core, KEYS);
    assert_that(rt, map == empty(rt, alloc, KEYS));
    disk
}

// A store of this geometry is made, and opens to the empty map.
fn check_made(rt: &impl Abort, alloc: Global, geo: &Geometry) {
    let mut disk = made(rt, alloc, geo);
    assert_same(rt, disk.len().expect(rt, "a length"), geo.length());
    check_first(rt, alloc, &mut disk);
    let core = open(rt, alloc, disk);
    assert_that(rt, core.geometry() == *geo);
    let mut disk = check_empty(rt, alloc, core);
    check_first(rt, alloc, &mut disk);
}

#[test]
fn a_made_store_opens_empty(rt: HostRuntime) {
    let alloc = rt.alloc();
    check_made(&rt, alloc, &Geometry::default());
    check_made(&rt, alloc, &smallest(&rt));
    check_made(&rt, alloc, &steepest(&rt));
}

// A disk that has bytes gets no store, and keeps its bytes.
fn check_full(rt: &impl Abort, alloc: Global, bytes: &[u8]) {
    let mut disk = blank(rt, alloc, &smallest(rt));
    poke(rt, &mut disk, 0, bytes);
    let disk = copy(rt, &disk);
    let mut after = copy(rt, &disk);
    let made = make_store(&mut after, &smallest(rt));
    assert_same(rt, made, Err(NotMade::NotEmpty(bytes.len() as u64)));
    check_same(rt, copy(rt, &disk), copy(rt, &after));
    check_same(rt, disk, after);
}

#[test]
fn a_disk_with_bytes_is_not_made_a_store(rt: HostRuntime) {
    check_full(&rt, rt.alloc(), &[0]);
    check_full(&rt, rt.alloc(), &[1; 27]);
    check_full(&rt, rt.alloc(), &[0; 4_096]);
}

// A store is not made a store again.
#[test]
fn a_store_is_not_made_again(rt: HostRuntime) {
    let alloc = rt.alloc();
    let geo = smallest(&rt);
    let mut disk = made(&rt, alloc, &geo);
    let again = make_store(&mut disk, &geo);
    assert_same(&rt, again, Err(NotMade::NotEmpty(geo.length())));
    check_same(&rt, made(&rt, alloc, &geo), disk);
}

// What opening an image gives: no store, or the empty one.
fn check_image(rt: &impl Abort, alloc: Global, disk: &MemDisk, pick: u64) {
    match open_store(alloc, image(rt, disk, pick), room()) {
        Ok(core) => {
            let _ = check_empty(rt, alloc, core);
        }
        Err(NotOpened { why, .. }) => {
            assert_same_at(rt, why, Unreadable::NotAStore, pick);
        }
    }
}

// Images of a making: without any of the writes that aren't durable, with all, and some drawn ones.
fn check_images(rt: &impl Abort, alloc: Global, disk: &MemDisk, draws: &mut Draws) {
    check_image(rt, alloc, disk, NONE);
    check_image(rt, alloc, disk, ALL);
    for _ in 0..DRAWN {
        let kind = draws.below(3).saturating_add(1);
        let place = draws.below(1_000);
        let digits = draws.below(8_194);
        let pick = pick_of(kind, place, draws.below(4), digits);
        check_image(rt, alloc, disk, pick);
    }
}

// A making is stopped behind so many calls.
fn check_stop(rt: &impl Abort, alloc: Global, geo: &Geometry, calls: u64, draws: &mut Draws) {
    let mut disk = blank(rt, alloc, geo);
    disk.stop_after(calls);
    let made = make_store(&mut disk, geo);
    assert_same_at(rt, made, Err(NotMade::Fault), calls);
    check_images(rt, alloc, &disk, draws);
}

// How many calls a making takes.
fn calls_of_making(rt: &impl Abort, alloc: Global, geo: &Geometry) -> u64 {
    let mut disk = blank(rt, alloc, geo);
    assert_same(rt, make_store(&mut disk, geo), Ok(()));
    check_images(rt, alloc, &disk, &mut Draws(0));
    calls_of(disk)
}

// Stops behind each number of calls between two.
fn stop_between(rt: &impl Abort, alloc: Global, geo: &Geometry, first: u64, last: u64) {
    let mut draws = Draws(first);
    for calls in first..last {
        check_stop(rt, alloc, geo, calls, &mut draws);
    }
}

// Stops behind each number of calls of a part of the making of the smallest store, of four.
fn stop_in_part(rt: &impl Abort, alloc: Global, part: u64) {
    let geo = smallest(rt);
    let all = calls_of_making(rt, alloc, &geo);
    let first = all.saturating_mul(part) / 4;
    let last = all.saturating_mul(part.saturating_add(1)) / 4;
    stop_between(rt, alloc, &geo, first, last);
}

// Stops behind the first numbers of calls, and the last ones.
fn stop_near(rt: &impl Abort, alloc: Global, geo: &Geometry) {
    let all = calls_of_making(rt, alloc, geo);
    stop_between(rt, alloc, geo, 0, NEAR);
    stop_between(rt, alloc, geo, all.saturating_sub(NEAR), all);
}

#[test]
fn a_making_is_stopped_in_its_first_quarter(rt: HostRuntime) {
    stop_in_part(&rt, rt.alloc(), 0);
}

#[test]
fn a_making_is_stopped_in_its_second_quarter(rt: HostRuntime) {
    stop_in_part(&rt, rt.alloc(), 1);
}

#[test]
fn a_making_is_stopped_in_its_third_quarter(rt: HostRuntime) {
    stop_in_part(&rt, rt.alloc(), 2);
}

#[test]
fn a_making_is_stopped_in_its_last_quarter(rt: HostRuntime) {
    stop_in_part(&rt, rt.alloc(), 3);
}

#[test]
fn a_making_of_the_default_store_is_stopped(rt: HostRuntime) {
    stop_near(&rt, rt.alloc(), &Geometry::default());
}

#[test]
fn a_making_of_the_steepest_store_is_stopped(rt: HostRuntime) {
    let geo = steepest(&rt);
    stop_near(&rt, rt.alloc(), &geo);
}
