// An opening that is stopped at each of its calls of the disk. What each image holds that a crash may leave then is opened.
use crate::asserts::{assert_same, assert_same_at, assert_that, assert_that_at};
use crate::maps::{Map, map_of};
use crate::rich::{KEYS, Rich, make_rich};
use crate::samples::Draws;
use crate::stores::{ALL, copy, image, open, refused};
use disk_mem::MemDisk;
use disk_trait::Disk;
use recover_open::Unreadable;
use std::alloc::Global;
use std::process::Abort;

// How many writes of the disk wait for a sync at most.
const WRITES: u64 = 3;

// How many images tear a write beside a set of others.
const TEARS: u64 = 3;

// How many images tear each write.
const ALL_TORN: u64 = 24;

// The digits that tear a page: how many of its bytes stand, and whether a strange byte follows them.
const DIGITS: u64 = 8_194;

/// How many calls of a disk have come, none of which was past its record: all calls behind a number of calls fail, and with each failure
/// that number rises by two.
pub fn calls_of(disk: MemDisk) -> u64 {
    let mut disk = disk;
    for calls in 0..100_000u64 {
        disk.stop_after(calls.saturating_mul(2));
        if disk.len().is_ok() {
            return calls.saturating_sub(1);
        }
    }
    0
}

/// How many calls an opening of this disk takes.
pub fn calls_of_opening(rt: &impl Abort, alloc: Global, disk: &MemDisk) -> u64 {
    let (disk, _, _) = open(rt, alloc, copy(rt, disk)).end();
    calls_of(disk)
}

/// The number of an image: by its kind and a place those writes stand whole that come before the place, all but the one there, or it alone;
/// one write more is torn, as these digits say.
pub fn pick_of(kind: u64, place: u64, torn: u64, digits: u64) -> u64 {
    let parts = digits.saturating_mul(1_000).saturating_add(torn);
    kind.saturating_mul(1_000_000_000_000_000_000)
        .saturating_add(parts.saturating_mul(1_000))
        .saturating_add(place)
}

/// Whether two disks have the same bytes from here on, up to a page's length or the end.
pub fn is_same_at(
    rt: &impl Abort,
    one: &mut MemDisk,
    two: &mut MemDisk,
    at: u64,
    length: u64,
) -> bool {
    let mut here = [0u8; 4_096];
    let mut there = [0u8; 4_096];
    let count = length.saturating_sub(at).min(4_096) as usize;
    assert_that(rt, one.read(at, &mut here[..count]).is_ok());
    assert_that(rt, two.read(at, &mut there[..count]).is_ok());
    here == there
}

/// Two disks have the same bytes.
pub fn check_same(rt: &impl Abort, one: MemDisk, two: MemDisk) {
    let mut one = one;
    let mut two = two;
    let length = one.len().expect(rt, "a length");
    assert_same(rt, two.len().expect(rt, "a length"), length);
    for page in 0..length / 4_096 + 1 {
        let at = page.saturating_mul(4_096).min(length);
        assert_that_at(rt, is_same_at(rt, &mut one, &mut two, at, length), at);
    }
}

// No more writes wait for a sync than this: the image with so many of them is the one with all.
fn check_few(rt: &impl Abort, disk: &MemDisk) {
    let some = image(rt, disk, pick_of(1, WRITES, 999, 0));
    check_same(rt, some, image(rt, disk, ALL));
}

// An image of a stop, by its number.
fn check_image(rt: &impl Abort, alloc: Global, disk: &MemDisk, map: &Map, pick: u64) {
    let core = open(rt, alloc, image(rt, disk, pick));
    let (found, _) = map_of(rt, alloc, core, KEYS);
    assert_that_at(rt, found == *map, pick);
}

// Images with those writes whole that a kind and a place name, and one write more torn by drawn digits.
fn check_torn(
    rt: &impl Abort,
    alloc: Global,
    disk: &MemDisk,
    map: &Map,
    which: [u64; 3],
    draws: &mut Draws,
) {
    let [kind, place, torn] = which;
    for _ in 0..TEARS {
        let pick = pick_of(kind, place, torn, draws.below(DIGITS));
        check_image(rt, alloc, disk, map, pick);
    }
}

// Images with those writes whole that a kind and a place name: the one with no other write, and for each write some in which it is torn.
fn check_kind(
    rt: &impl Abort,
    alloc: Global,
    disk: &MemDisk,
    map: &Map,
    which: [u64; 2],
    draws: &mut Draws,
) {
    let [kind, place] = which;
    check_image(rt, alloc, disk, map, pick_of(kind, place, 999, 0));
    for torn in 0..WRITES {
        check_torn(rt, alloc, disk, map, [kind, place, torn], draws);
    }
}

// Images in which each write is torn as drawn digits say.
fn check_all_torn(rt: &impl Abort, alloc: Global, disk: &MemDisk, map: &Map, draws: &mut Draws) {
    for _ in 0..ALL_TORN {
        let high = draws.below(1_000_000_000).saturating_mul(1_000_000_000);
        let pick = high.saturating_add(draws.below(1_000_000_000));
        check_image(rt, alloc, disk, map, pick);
    }
}

// Images hold the map. For each set of the writes that aren't durable the image is read in which just these stand whole, and for each write some
// in which it is torn beside them; and some are read in which each write is torn. Of three writes each set is a front, all but one, or one
// alone.
fn check_images(rt: &impl Abort, alloc: Global, disk: &MemDisk, map: &Map, draws: &mut Draws) {
    check_few(rt, disk);
    for kind in 1..4u64 {
        for place in 0..WRITES + 1 {
            check_kind(rt, alloc, disk, map, [kind, place], draws);
        }
    }
    check_all_torn(rt, alloc, disk, map, draws);
}

// An opening is stopped behind so many calls.
fn check_stop(rt: &impl Abort, alloc: Global, store: &Rich, calls: u64, draws: &mut Draws) {
    let mut disk = copy(rt, &store.disk);
    disk.stop_after(calls);
    let (why, disk) = refused(rt, alloc, disk);
    assert_same_at(rt, why, Unreadable::Fault, calls);
    assert_same_at(rt, disk.faults(), 1, calls);
    check_images(rt, alloc, &disk, &store.map, draws);
}

// Stops behind each number of calls of a part of the opening, of five.
fn stop_in_part(rt: &impl Abort, alloc: Global, part: u64) {
    let store = make_rich(rt, alloc);
    let all = calls_of_opening(rt, alloc, &store.disk);
    assert!(rt; 40 < all && all < 200, "{all} calls");
    let mut draws = Draws(part);
    let first = all.saturating_mul(part) / 5;
    let last = all.saturating_mul(part.saturating_add(1)) / 5;
    for calls in first..last {
        check_stop(rt, alloc, &store, calls, &mut draws);
    }
}

#[test]
fn an_opening_is_stopped_in_its_first_fifth(rt: HostRuntime) {
    stop_in_part(&rt, rt.alloc(), 0);
}

#[test]
fn an_opening_is_stopped_in_its_second_fifth(rt: HostRuntime) {
    stop_in_part(&rt, rt.alloc(), 1);
}

#[test]
fn an_opening_is_stopped_in_its_third_fifth(rt: HostRuntime) {
    stop_in_part(&rt, rt.alloc(), 2);
}

#[test]
fn an_opening_is_stopped_in_its_fourth_fifth(rt: HostRuntime) {
    stop_in_part(&rt, rt.alloc(), 3);
}

#[test]
fn an_opening_is_stopped_in_its_last_fifth(rt: HostRuntime) {
    stop_in_part(&rt, rt.alloc(), 4);
}
