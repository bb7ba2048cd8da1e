// Stores on disks in memory, cores over them, and what they are told to do.
ghost use Rattle.std.specs.Prelude.{◌≡◌, ◌≤◌, false, sum};
ghost use Rattle.blsm_model.specs.Format.{most_entries, most_rows_asked};

use crate::asserts::assert_same;
use blsm_model::{CALLERS, Geometry, Op, Room};
use disk_mem::MemDisk;
use recover_open::{Report, Unreadable, check_store, make_store, open_store};
use std::alloc::Global;
use std::process::Abort;
use tree_core::Core;
use tree_machine::{Kind, Step};

/// The number of an image with no write that isn't durable, and of one with all.
pub const NONE: u64 = 1_000_000_000_000_999_000;

pub const ALL: u64 = 2_000_000_000_000_999_999;

// How many entries each caller may note.
const ENTRIES: u32 = 1_000;

// How many bytes of record a disk has beside those of its making.
const RECORD: u64 = 16_000_000;

/// A geometry with these numbers.
pub fn geometry(rt: &impl Abort, half: u64, ratio: u64, low: u64, quantum: u64) -> Geometry {
    Geometry::new(half, ratio, low, quantum).expect(rt, "a geometry")
}

/// The geometry of the least store.
pub fn smallest(rt: &impl Abort) -> Geometry {
    geometry(rt, Geometry::MIN_HALF, Geometry::MIN_RATIO, 16_384, 4_096)
}

/// The geometry of the greatest ratio over the least half spring.
pub fn steepest(rt: &impl Abort) -> Geometry {
    geometry(rt, Geometry::MIN_HALF, Geometry::MAX_RATIO, 1_024, 1_024)
}

/// The geometry of a least store, with a pass at each write and short quanta.
pub fn quickest(rt: &impl Abort) -> Geometry {
    geometry(
        rt,
        Geometry::MIN_HALF,
        Geometry::MIN_RATIO,
        0,
        Geometry::MIN_QUANTUM,
    )
}

/// The room of each seat.
pub fn room() -> Room
    ensures entries { sum result.entries ≤ most_entries }
    ensures rows { sum result.rows ≤ most_rows_asked }
{
    Room {
        entries: [ENTRIES; CALLERS as usize],
        rows: [0; CALLERS as usize],
    }
}

/// A disk without bytes, with room for a store of this geometry.
pub fn blank(rt: &impl Abort, alloc: Global, geo: &Geometry) -> MemDisk {
    let length = geo.length();
    let kept = length.saturating_mul(2).saturating_add(RECORD);
    match MemDisk::new(alloc, length, kept) {
        Ok(disk) => disk,
        Err(_) => rt.abort(),
    }
}

/// One of the images that a crash may leave of a disk, by its number, on which no call was answered.
pub fn image(rt: &impl Abort, disk: &MemDisk, pick: u64) -> MemDisk {
    disk.image(pick).expect(rt, "memory")
}

/// A disk with what a disk has, on which no call was answered.
pub fn copy(rt: &impl Abort, disk: &MemDisk) -> MemDisk {
    image(rt, disk, ALL)
}

/// The disk of a store that was just made.
pub fn made(rt: &impl Abort, alloc: Global, geo: &Geometry) -> MemDisk {
    let mut disk = blank(rt, alloc, geo);
    assert_same(rt, make_store(&mut disk, geo), Ok(()));
    copy(rt, &disk)
}

/// The core of the store on a disk.
pub fn open(rt: &impl Abort, alloc: Global, disk: MemDisk) -> Core<MemDisk> {
    match open_store(alloc, disk, room()) {
        Ok(core) => core,
        Err(_) => rt.abort(),
    }
}

/// Why the store on a disk isn't opened, and the disk.
pub fn refused(rt: &impl Abort, alloc: Global, disk: MemDisk) -> (Unreadable, MemDisk) {
    match open_store(alloc, disk, room()) {
        Ok(_) => rt.abort(),
        Err(refused) => (refused.why, refused.disk),
    }
}

/// The numbers of the store on a disk.
pub fn report(rt: &impl Abort, alloc: Global, disk: &mut MemDisk) -> Report {
    check_store(alloc, disk).expect(rt, "a store")
}

/// A seat makes a step.
pub fn make(alloc: Global, core: &mut Core<MemDisk>, seat: u32, kind: Kind) {
    core.play(alloc, &[Step { seat, kind }]);
}

/// A seat admits a write that it doesn't pay for.
pub fn admit(alloc: Global, core: &mut Core<MemDisk>, seat: u32, op: Op) {
    make(alloc, core, seat, Kind::Admit(op));
}

/// A seat admits a write, and pays as often as its weight may ask for at most.
pub fn write(alloc: Global, core: &mut Core<MemDisk>, seat: u32, op: Op) {
    let most = if op.is_write() {
        core.geometry().bound(op.weight())
    } else {
        0
    };
    admit(alloc, core, seat, op);
    for _ in 0..most {
        make(alloc, core, seat, Kind::Pay);
    }
}

/// Caller 0 does so many turns and ends its work.
pub fn work(alloc: Global, core: &mut Core<MemDisk>, turns: u32) {
    for _ in 0..turns {
        make(alloc, core, 0, Kind::WorkTurn);
    }
    make(alloc, core, 0, Kind::WorkEnd(turns));
}
