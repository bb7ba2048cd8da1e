// Making and reading, over disks in memory.
ghost use Rattle.std.specs.Prelude.{◌+◌, ◌≤◌};

use crate::asserts::{assert_same, assert_same_at, assert_that};
use crate::samples::{SMALLEST_LENGTH, put, smallest};
use blsm_model::Geometry;
use disk_mem::{FaultlessDisk, MemDisk};
use disk_trait::Disk;
use std::alloc::Global;
use std::process::Abort;
use store_file::{StoreBroken, make_store, one_geometry, read_geometry};

// The superblock and the first catalogue of the default geometry, byte by byte.
const DEFAULT_SUPERBLOCK: [u8; 27] = [
    0x01, 0x42, 0x4c, 0x53, 0x4d, 0x30, 0x30, 0x30, 0x31, 0x00, 0x01, 0x00, 0x00, 0x80, 0x00, 0x00,
    0x00, 0x00, 0x04, 0x00, 0x00, 0x40, 0x00, 0x00, 0x00, 0x10, 0x00,
];

const CATALOGUE_BEGINS: [u8; 20] = [
    1, 0, 0, 0, 0, 0, 0, 0, 1, 0, 1, 2, 0xff, 0xff, 0xff, 0xff, 0, 0, 0, 0,
];

const DEFAULT_LENGTH: u64 = 23_511_040;

// A store that was made on a disk with room for so many bytes.
fn make(rt: &impl Abort, alloc: Global, length: u64, geometry: &Geometry) -> FaultlessDisk {
    let mut disk = FaultlessDisk::new(alloc, length).expect(rt, "memory");
    assert_that(rt, make_store(&mut disk, geometry).is_ok());
    disk
}

fn read<const N: usize>(rt: &impl Abort, disk: &mut FaultlessDisk, at: u64) -> [u8; N] {
    let mut found = [0; N];
    assert_that(rt, disk.read(at, &mut found).is_ok());
    found
}

#[test]
fn the_default_store_is_made_and_read(rt: HostRuntime) {
    let geometry = Geometry::default();
    let mut disk = make(&rt, rt.alloc(), DEFAULT_LENGTH, &geometry);
    assert_same(&rt, disk.len(), Ok(DEFAULT_LENGTH));
    assert_same(&rt, read::<27>(&rt, &mut disk, 0), DEFAULT_SUPERBLOCK);
    assert_same(&rt, read::<20>(&rt, &mut disk, 512), CATALOGUE_BEGINS);
    assert_same(&rt, read_geometry(&mut disk), Ok(geometry));
    one_geometry();
}

// What a file reads as: by its superblock and its length, whatever its slots and lanes are.
#[derive(Clone, Copy)]
enum Reads {
    Store,
    NotAStore,
}

use Reads::{NotAStore, Store};

fn reads_as(rt: &impl Abort, disk: &mut FaultlessDisk, geometry: Geometry, reads: Reads) {
    let answer = match reads {
        Store => Ok(geometry),
        NotAStore => Err(StoreBroken::NotAStore),
    };
    assert_same(rt, read_geometry(disk), answer);
}

fn write_byte(rt: &impl Abort, disk: &mut FaultlessDisk, at: u64, byte: [u8; 1]) {
    assert_that(rt, disk.write(at, &byte).is_ok());
}

// One byte is changed, and then as it was.
fn changed(
    rt: &impl Abort,
    disk: &mut FaultlessDisk,
    geometry: Geometry,
    (at, byte, reads): (u64, u8, Reads),
) {
    let old = read::<1>(rt, disk, at);
    write_byte(rt, disk, at, [byte]);
    reads_as(rt, disk, geometry, reads);
    write_byte(rt, disk, at, old);
}

const CHANGES: [(u64, u8, Reads); 25] = [
    (0, 0, NotAStore),
    (0, 2, NotAStore),
    (1, b'b', NotAStore),
    (8, b'2', NotAStore),
    (9, 1, NotAStore),
    (10, 2, NotAStore),
    (11, 255, NotAStore),
    (13, 0x43, NotAStore),
    (14, 1, NotAStore),
    (18, 1, NotAStore),
    (18, 3, NotAStore),
    (18, 9, NotAStore),
    (21, 0x45, NotAStore),
    (25, 3, NotAStore),
    (27, 1, Store),
    (511, 1, Store),
    (512, 0, Store),
    (520, 3, Store),
    (596, 1, Store),
    (597, 1, Store),
    (1_023, 1, Store),
    (1_024, 1, Store),
    (1_108, 1, Store),
    (1_109, 1, Store),
    (4_096, 1, Store),
];

// A store is read again with one byte changed: each byte that the superblock is made of counts, and no other.
#[test]
fn each_changed_byte_is_found(rt: HostRuntime) {
    let geometry = smallest(&rt);
    let mut disk = make(&rt, rt.alloc(), SMALLEST_LENGTH, &geometry);
    for &change in &CHANGES {
        changed(&rt, &mut disk, geometry, change);
    }
    reads_as(&rt, &mut disk, geometry, Store);
}

// A file of so many bytes, which are zeros behind these ones, as far as there is room.
fn is_no_store(rt: &impl Abort, alloc: Global, length: u64, head: &[u8])
    requires { length ≤ SMALLEST_LENGTH + 1 }
{
    let mut file = vec![in alloc; 0; length as usize].expect(rt, "memory");
    put(&mut file, 0, head);
    let mut disk = FaultlessDisk::new(alloc, SMALLEST_LENGTH + 1).expect(rt, "memory");
    assert_that(rt, disk.write(0, file.as_slice()).is_ok());
    assert_same_at(
        rt,
        read_geometry(&mut disk),
        Err(StoreBroken::NotAStore),
        length,
    );
}

// A file that begins with the smallest store's superblock, or with zeros, by its length.
#[test]
fn a_file_of_another_length_is_no_store(rt: HostRuntime) {
    let rows = [1, 26, 27, 100, SMALLEST_LENGTH - 1, SMALLEST_LENGTH + 1];
    let mut made = make(&rt, rt.alloc(), SMALLEST_LENGTH, &smallest(&rt));
    let head = read::<27>(&rt, &mut made, 0);
    for &length in &rows {
        is_no_store(&rt, rt.alloc(), length, &head);
    }
    for &length in &[0, 100] {
        is_no_store(&rt, rt.alloc(), length, b"");
    }
}

// Whether an image reads as the smallest store; else it is none.
fn is_made(rt: &impl Abort, disk: &MemDisk, geometry: &Geometry, pick: u64) -> bool {
    let mut image = disk.image(pick).expect(rt, "memory");
    let found = read_geometry(&mut image);
    if found == Ok(*geometry) {
        return true;
    }
    assert_same(rt, found, Err(StoreBroken::NotAStore));
    false
}

// Whether a store and whether none is found in so many images of a disk.
fn find(rt: &impl Abort, disk: &MemDisk, geometry: &Geometry, picks: u64) -> (bool, bool) {
    let mut finds_store = false;
    let mut finds_none = false;
    for pick in 0..picks {
        if is_made(rt, disk, geometry, pick) {
            finds_store = true;
        } else {
            finds_none = true;
        }
    }
    (finds_store, finds_none)
}

fn stops_after(rt: &impl Abort, alloc: Global, calls: u64, picks: u64, finds: (bool, bool)) {
    let geometry = smallest(rt);
    let kept = SMALLEST_LENGTH + 65_536;
    let mut disk = MemDisk::new(alloc, SMALLEST_LENGTH, kept).expect(rt, "memory");
    disk.stop_after(calls);
    let outcome = make_store(&mut disk, &geometry);
    assert_same_at(rt, outcome.is_ok(), calls == 857, calls);
    assert_same_at(rt, find(rt, &disk, &geometry, picks), finds, calls);
}

// The smallest store is made over a disk that stops after so many calls. Each image that is picked is no store, but where the
// gate was written: there both are found.
#[test]
fn a_stop_leaves_no_store_or_a_whole_one(rt: HostRuntime) {
    let rows = [
        (2, 1, (false, true)),
        (500, 1, (false, true)),
        (855, 3, (true, true)),
        (857, 1, (true, false)),
    ];
    for &(calls, picks, finds) in &rows {
        stops_after(&rt, rt.alloc(), calls, picks, finds);
    }
}
