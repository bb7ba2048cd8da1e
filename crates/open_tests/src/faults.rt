// A disk on which one call fails, each in turn.
use crate::asserts::{assert_same, assert_same_at, assert_that, assert_that_at};
use crate::damage::peek;
use crate::maps::map_of;
use crate::rich::{KEYS, Rich, make_rich};
use crate::samples::long;
use crate::stops::{calls_of, calls_of_opening};
use crate::stores::{copy, made, open, refused, report, smallest, write};
use catalog_swap::EVEN_SLOT;
use disk_mem::MemDisk;
use disk_trait::Disk;
use recover_open::{Report, Unreadable, check_store};
use std::alloc::Global;
use std::process::Abort;

// A disk with what a disk has, of which this call fails.
fn failing(rt: &impl Abort, disk: &MemDisk, call: u64) -> MemDisk {
    let mut disk = copy(rt, disk);
    assert_that(rt, disk.fail(call).is_ok());
    disk
}

// Checking tells a fault of a call, and what it told before once the disk answers.
fn check_checking(rt: &impl Abort, alloc: Global, store: &Rich, call: u64, then: &Report) {
    let mut disk = failing(rt, &store.disk, call);
    assert_same_at(
        rt,
        check_store(alloc, &mut disk),
        Err(Unreadable::Fault),
        call,
    );
    assert_same_at(rt, disk.faults(), 1, call);
    assert_same_at(rt, report(rt, alloc, &mut disk), *then, call);
}

#[test]
fn checking_tells_each_fault(rt: HostRuntime) {
    let alloc = rt.alloc();
    let store = make_rich(&rt, alloc);
    let mut disk = copy(&rt, &store.disk);
    let then = report(&rt, alloc, &mut disk);
    let all = calls_of(disk);
    assert!(rt; 10 < all, "{all} calls");
    for call in 1..all.saturating_add(1) {
        check_checking(&rt, alloc, &store, call, &then);
    }
}

// How many calls a reading of this store makes: two for its superblock and its length, two for its slots, one for each page of a component, one for
// each record of a lane, and one for the closed gate behind those of each. It has no page that a deep merge has finished.
fn calls_of_reading(found: &Report) -> u64 {
    let pages = u64::from(found.c1.pages)
        .saturating_add(u64::from(found.c1x.pages))
        .saturating_add(u64::from(found.c2.pages));
    let records = found.lane_a.saturating_add(found.lane_b);
    pages.saturating_add(records).saturating_add(6)
}

#[test]
fn a_check_reads_each_page_and_each_record_once(rt: HostRuntime) {
    let alloc = rt.alloc();
    let store = make_rich(&rt, alloc);
    let mut disk = copy(&rt, &store.disk);
    let found = report(&rt, alloc, &mut disk);
    assert_same(&rt, calls_of(disk), calls_of_reading(&found));
}

// So many long puts that the last pass's swap named what the deep merge beside it had finished.
const PUTS: usize = 221;

// Where a slot says so, and where the last byte of how many pages there are.
const FLAG_AT: u64 = 84;

const PAGES_AT: u64 = 92;

// The disk of their store, behind the calls that made it. An image of it would take long, since each sync among them copies the file.
fn make_named(rt: &impl Abort, alloc: Global) -> MemDisk {
    let mut core = open(rt, alloc, made(rt, alloc, &smallest(rt)));
    for number in 0..PUTS {
        write(alloc, &mut core, 0, long(rt, number, 1));
    }
    let (disk, _, totals) = core.end();
    assert_that(rt, totals.stopped.is_none());
    disk
}

// How many pages its deep merge has finished.
fn finished_pages(rt: &impl Abort, alloc: Global) -> u64 {
    let mut disk = make_named(rt, alloc);
    assert_same(rt, peek(rt, &mut disk, EVEN_SLOT + FLAG_AT), 1);
    u64::from(peek(rt, &mut disk, EVEN_SLOT + PAGES_AT))
}

// Beside the finished pages those of C1' are read once more, of which they are copies, and the one behind them.
#[test]
fn a_check_reads_finished_pages_beside_what_they_come_of(rt: HostRuntime) {
    let alloc = rt.alloc();
    let before = calls_of(make_named(&rt, alloc));
    let mut disk = make_named(&rt, alloc);
    let found = report(&rt, alloc, &mut disk);
    assert_same(&rt, found.c2.pages, 0);
    let finished = finished_pages(&rt, alloc);
    assert!(rt; 10 < finished, "{finished} pages");
    assert_same(
        &rt,
        calls_of(disk).saturating_sub(before),
        calls_of_reading(&found)
            .saturating_add(finished.saturating_mul(2))
            .saturating_add(1),
    );
}

// Where nothing is to be settled an opening syncs and reads.
#[test]
fn an_opening_reads_each_page_once(rt: HostRuntime) {
    let alloc = rt.alloc();
    let store = make_rich(&rt, alloc);
    let (settled, _, _) = open(&rt, alloc, copy(&rt, &store.disk)).end();
    let mut disk = copy(&rt, &settled);
    let found = report(&rt, alloc, &mut disk);
    assert_same(
        &rt,
        calls_of_opening(&rt, alloc, &settled),
        calls_of_reading(&found).saturating_add(1),
    );
}

// Opening tells a fault of a call, and the disk that is given back opens to the map.
fn check_opening(rt: &impl Abort, alloc: Global, store: &Rich, call: u64) {
    let (why, disk) = refused(rt, alloc, failing(rt, &store.disk, call));
    assert_same_at(rt, why, Unreadable::Fault, call);
    assert_same_at(rt, disk.faults(), 1, call);
    let (map, _) = map_of(rt, alloc, open(rt, alloc, disk), KEYS);
    assert_that_at(rt, map == store.map, call);
}

#[test]
fn opening_tells_each_fault(rt: HostRuntime) {
    let alloc = rt.alloc();
    let store = make_rich(&rt, alloc);
    let all = calls_of_opening(&rt, alloc, &store.disk);
    for call in 1..all.saturating_add(1) {
        check_opening(&rt, alloc, &store, call);
    }
}
