// A store in the midst of its merges: on its disk C1, C1' and C2 have entries, and both lanes have records.
use crate::asserts::{assert_same, assert_that};
use crate::maps::{Map, follow};
use crate::samples::{add, del, long, put};
use crate::stores::{admit, copy, made, open, quickest, report, work, write};
use disk_mem::MemDisk;
use std::alloc::Global;
use std::process::Abort;
use tree_core::Core;

/// How many keys there are.
pub const KEYS: usize = 16;

/// C2 gets 2, 6 and 8.
pub fn fill_c2(rt: &impl Abort, alloc: Global, core: &mut Core<MemDisk>) {
    write(alloc, core, 0, put(rt, 2, 5, 0));
    write(alloc, core, 0, long(rt, 6, 1));
    write(alloc, core, 0, long(rt, 8, 2));
    work(alloc, core, 16);
}

/// A pass over 1, 2, 5 and 6 is swapped in and rotated. One quantum of the deep merge takes all but 8.
pub fn fill_c1x(rt: &impl Abort, alloc: Global, core: &mut Core<MemDisk>) {
    admit(alloc, core, 1, long(rt, 1, 10));
    admit(alloc, core, 2, add(rt, 2, 7));
    admit(alloc, core, 3, long(rt, 5, 3));
    admit(alloc, core, 4, del(rt, 6));
    work(alloc, core, 4);
}

// A pass over 3 and 7 is swapped in while the deep merge runs.
fn fill_c1(rt: &impl Abort, alloc: Global, core: &mut Core<MemDisk>) {
    admit(alloc, core, 5, long(rt, 3, 4));
    admit(alloc, core, 6, put(rt, 7, 1, 10));
    work(alloc, core, 2);
}

// A quantum of a pass takes all up to 9. Behind its cursor are a write of 3 and one of 9, ahead of it two of 11 and one of 13.
fn fill_lanes(rt: &impl Abort, alloc: Global, core: &mut Core<MemDisk>) {
    admit(alloc, core, 7, long(rt, 0, 1));
    admit(alloc, core, 8, long(rt, 9, 2));
    admit(alloc, core, 9, long(rt, 11, 3));
    work(alloc, core, 1);
    admit(alloc, core, 10, add(rt, 3, 5));
    admit(alloc, core, 11, del(rt, 9));
    admit(alloc, core, 12, add(rt, 11, 6));
    admit(alloc, core, 13, long(rt, 13, 7));
}

/// Its disk, on which no call was answered, and its map.
#[derive(Drop)]
pub struct Rich {
    pub disk: MemDisk,
    pub map: Map,
}

// All parts have something.
fn check_rich(rt: &impl Abort, alloc: Global, disk: &mut MemDisk) {
    let found = report(rt, alloc, disk);
    assert_same(
        rt,
        (found.c1.entries, found.c1x.entries, found.c2.entries),
        (2, 4, 3),
    );
    assert_same(rt, (found.lane_a, found.lane_b), (5, 2));
}

/// The store.
pub fn make_rich(rt: &impl Abort, alloc: Global) -> Rich {
    let mut core = open(rt, alloc, made(rt, alloc, &quickest(rt)));
    fill_c2(rt, alloc, &mut core);
    fill_c1x(rt, alloc, &mut core);
    fill_c1(rt, alloc, &mut core);
    fill_lanes(rt, alloc, &mut core);
    let (disk, annals, totals) = core.end();
    assert_that(rt, totals.stopped.is_none());
    let mut disk = copy(rt, &disk);
    check_rich(rt, alloc, &mut disk);
    Rich {
        disk: copy(rt, &disk),
        map: follow(rt, alloc, KEYS, &annals),
    }
}
