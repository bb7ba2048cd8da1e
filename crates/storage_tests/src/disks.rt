// Disks and a shelf in memory: which calls fail, and what each crash image has.
ghost use Rattle.std.specs.Prelude.{◌≤◌};

use crate::asserts::{assert_same, assert_same_at, assert_that, assert_that_at};
use disk_mem::{FaultlessDisk, MemDisk, MemShelf};
use disk_trait::{Disk, Shelf};
use std::alloc::Global;
use std::process::Abort;

const LIMIT: u64 = 4;

const RECORD: u64 = 1000;

fn mem_disk(rt: &impl Abort, alloc: Global, limit: u64, kept: u64) -> MemDisk {
    MemDisk::new(alloc, limit, kept).expect(rt, "memory")
}

// Two bytes, written and synced, by two calls.
fn make_disk(rt: &impl Abort, alloc: Global, kept: u64) -> MemDisk {
    let mut disk = mem_disk(rt, alloc, LIMIT, kept);
    let _ = disk.write(0, b"ab");
    let _ = disk.sync();
    disk
}

fn write<D: Disk>(rt: &impl Abort, disk: &mut D, at: u64, from: &[u8]) {
    assert_that(rt, disk.write(at, from).is_ok());
}

fn read_two<D: Disk>(rt: &impl Abort, disk: &mut D) -> [u8; 2] {
    let mut two = [0; 2];
    assert_that(rt, disk.read(0, &mut two).is_ok());
    two
}

fn read_four<D: Disk>(rt: &impl Abort, disk: &mut D) -> [u8; 4] {
    let mut four = [0; 4];
    assert_that(rt, disk.read(0, &mut four).is_ok());
    four
}

fn image(rt: &impl Abort, disk: &MemDisk, pick: u64) -> MemDisk {
    disk.image(pick).expect(rt, "memory")
}

#[derive(Clone, Copy, Debug)]
enum Attempt {
    Len,
    Read(u64),
    Write(u64, &'static [u8]),
    Sync,
}

// Whether it fails, and the disk's faults then.
fn outcome_of<D: Disk>(disk: &mut D, attempt: Attempt) -> (bool, u64) {
    let fails = match attempt {
        Attempt::Len => disk.len().is_err(),
        Attempt::Read(at) => {
            let mut two = [0; 2];
            disk.read(at, &mut two).is_err()
        }
        Attempt::Write(at, from) => disk.write(at, from).is_err(),
        Attempt::Sync => disk.sync().is_err(),
    };
    (fails, disk.faults())
}

// Each attempt on a disk of two bytes with room for four: whether it fails by itself, and its faults then; its faults where each
// call fails.
const ATTEMPTS: [(Attempt, bool, u64, u64); 9] = [
    (Attempt::Len, false, 0, 1),
    (Attempt::Read(0), false, 0, 1),
    (Attempt::Read(1), true, 0, 0),
    (Attempt::Write(0, b"xy"), false, 0, 1),
    (Attempt::Write(2, b"xy"), false, 0, 1),
    (Attempt::Write(2, b"xyz"), true, 1, 1),
    (Attempt::Write(3, b"xy"), true, 0, 0),
    (Attempt::Write(2, b""), false, 0, 1),
    (Attempt::Sync, false, 0, 1),
];

// An attempt by itself.
fn by_itself(rt: &impl Abort, alloc: Global, attempt: Attempt, expected: (bool, u64)) {
    let mut disk = make_disk(rt, alloc, RECORD);
    assert_same_at(rt, outcome_of(&mut disk, attempt), expected, attempt);
}

// Where its call is listed, which the next one isn't.
fn by_list(rt: &impl Abort, alloc: Global, attempt: Attempt, faults: u64) {
    let mut disk = make_disk(rt, alloc, RECORD);
    assert_that(rt, disk.fail(3).is_ok());
    assert_same_at(rt, outcome_of(&mut disk, attempt), (true, faults), attempt);
    assert_that_at(rt, disk.len().is_ok(), attempt);
}

// Behind a stop, which has no end.
fn by_stop(rt: &impl Abort, alloc: Global, attempt: Attempt, faults: u64) {
    let mut disk = make_disk(rt, alloc, RECORD);
    disk.stop_after(2);
    assert_same_at(rt, outcome_of(&mut disk, attempt), (true, faults), attempt);
    assert_that_at(rt, disk.len().is_err(), attempt);
}

// At the end of the record, which has no end either. A call takes sixteen bytes of it, a write also its own.
fn by_record(rt: &impl Abort, alloc: Global, attempt: Attempt, faults: u64) {
    let mut disk = make_disk(rt, alloc, 16 + 2 + 16 + 15);
    assert_same_at(rt, outcome_of(&mut disk, attempt), (true, faults), attempt);
    assert_that_at(rt, disk.len().is_err(), attempt);
}

#[test]
fn calls_fail_by_list_stop_record_limit_and_range(rt: HostRuntime) {
    for &(attempt, fails_alone, faults_alone, faults_else) in &ATTEMPTS {
        by_itself(&rt, rt.alloc(), attempt, (fails_alone, faults_alone));
        by_list(&rt, rt.alloc(), attempt, faults_else);
        by_stop(&rt, rt.alloc(), attempt, faults_else);
        by_record(&rt, rt.alloc(), attempt, faults_else);
    }
}

fn faultless(rt: &impl Abort, alloc: Global) -> FaultlessDisk {
    let mut disk = FaultlessDisk::new(alloc, LIMIT).expect(rt, "memory");
    write(rt, &mut disk, 0, b"ab");
    disk
}

#[test]
fn a_faultless_disk_fails_past_its_bytes_and_its_limit(rt: HostRuntime) {
    for &(attempt, fails_alone, faults_alone, _) in &ATTEMPTS {
        let mut disk = faultless(&rt, rt.alloc());
        let alone = outcome_of(&mut disk, attempt);
        assert_same_at(&rt, alone, (fails_alone, faults_alone), attempt);
    }
    let mut disk = faultless(&rt, rt.alloc());
    write(&rt, &mut disk, 1, b"xyz");
    assert_same(&rt, read_four(&rt, &mut disk), *b"axyz");
}

// What stands of a write over "ab" of "xy", and over "cd" of "zw", by its two digits as one number.
const FRONTS: [[u8; 2]; 6] = [*b"ab", *b"xb", *b"xy", [0, b'b'], [b'x', 0], [0, 0]];

const BACKS: [[u8; 2]; 6] = [*b"cd", *b"zd", *b"zw", [0, b'd'], [b'z', 0], [0, 0]];

// Four bytes, synced, then two writes of which one fails, by its number, or none, and a sync that fails.
fn torn(rt: &impl Abort, alloc: Global, failing: u64) -> MemDisk {
    let mut disk = mem_disk(rt, alloc, LIMIT, RECORD);
    write(rt, &mut disk, 0, b"abcd");
    assert_that(rt, disk.sync().is_ok());
    assert_that(rt, disk.fail(failing).is_ok());
    assert_same(rt, disk.write(0, b"xy").is_err(), failing == 3);
    assert_same(rt, disk.write(2, b"zw").is_err(), failing == 4);
    assert_that(rt, disk.fail(5).is_ok());
    assert_that(rt, disk.sync().is_err());
    disk
}

// An image of it.
fn reads_torn(rt: &impl Abort, disk: &MemDisk, pick: u64) {
    let [a, b] = FRONTS[(pick % 6) as usize];
    let [c, d] = BACKS[(pick / 6 % 6) as usize];
    let mut image = image(rt, disk, pick);
    assert_same_at(rt, read_four(rt, &mut image), [a, b, c, d], pick);
    assert_same(rt, image.faults(), 0);
}

// After a sync that ends well each image is as the disk reads.
fn settles(rt: &impl Abort, mut disk: MemDisk) {
    assert_that(rt, disk.sync().is_ok());
    let reads = read_four(rt, &mut disk);
    for &pick in &[0, 2, 35] {
        let mut image = image(rt, &disk, pick);
        assert_same_at(rt, read_four(rt, &mut image), reads, pick);
    }
}

// Two writes are torn between two syncs, the second of which fails: each stands not at all, in part, garbled or in whole,
// whatever the other does; and so for writes that failed.
#[test]
fn images_have_every_part_of_each_torn_write(rt: HostRuntime) {
    for &failing in &[0, 3, 4] {
        let disk = torn(&rt, rt.alloc(), failing);
        for pick in 0..36u64 {
            reads_torn(&rt, &disk, pick);
        }
        settles(&rt, disk);
    }
}

// A write past the old end leaves an image of each length up to its own.
#[test]
fn images_end_anywhere_in_a_torn_write_past_the_end(rt: HostRuntime) {
    let mut disk = make_disk(&rt, rt.alloc(), RECORD);
    write(&rt, &mut disk, 2, b"cd");
    for &(pick, length) in &[(0, 2), (1, 3), (2, 4), (3, 3), (4, 4), (5, 4)] {
        let mut image = image(&rt, &disk, pick);
        assert_same_at(&rt, image.len(), Ok(length), pick);
        assert_same_at(&rt, read_two(&rt, &mut image), *b"ab", pick);
    }
}

const WRITES: u64 = 64;

// A disk of 128 dots, synced, over which 64 pairs are written that no sync makes durable.
fn make_pending(rt: &impl Abort, alloc: Global) -> MemDisk {
    let mut disk = mem_disk(rt, alloc, 2 * WRITES, 4_000);
    write(rt, &mut disk, 0, &[b'.'; 128]);
    assert_that(rt, disk.sync().is_ok());
    for place in 0..WRITES {
        write(rt, &mut disk, 2 * place, b"xy");
    }
    disk
}

// What stands of the pair of a place, in an image of this kind, or of this one that is torn.
fn pair_at(at: u64, (kind, place): (u64, u64), (torn, torn_pair): (u64, [u8; 2])) -> [u8; 2] {
    let whole = match kind {
        1 => at < place,
        2 => at != place,
        _ => at == place,
    };
    if at == torn {
        torn_pair
    } else if whole {
        *b"xy"
    } else {
        *b".."
    }
}

// The pair of each place stands in the image that the number picks just where it does by kind and place, and that of one place is
// torn so.
fn stand(
    rt: &impl Abort,
    disk: &MemDisk,
    pick: u64,
    (kind, place): (u64, u64),
    torn: (u64, [u8; 2]),
) {
    let mut image = image(rt, disk, pick);
    for at in 0..WRITES {
        let mut pair = [0; 2];
        assert_that(rt, image.read(2 * at, &mut pair).is_ok());
        assert_same_at(
            rt,
            pair,
            pair_at(at, (kind, place), torn),
            (kind, place, at),
        );
    }
}

// Each of the images of a kind, whose numbers begin with this one.
fn kind_stands(rt: &impl Abort, disk: &MemDisk, kind: u64, pick: u64)
    requires { pick ≤ 3_000_000_000_000_000_000 }
{
    for place in 0..WRITES + 1 {
        stand(
            rt,
            disk,
            pick + 999_000 + place,
            (kind, place),
            (WRITES, *b".."),
        );
    }
    for &(digits, pair) in &[
        (0, *b".."),
        (1, *b"x."),
        (2, *b"xy"),
        (4, *b"x\x00"),
        (5, [0; 2]),
    ] {
        stand(
            rt,
            disk,
            pick + digits * 1_000_000 + 7_009,
            (kind, 9),
            (7, pair),
        );
    }
}

// Of 64 writes since a sync: each front, all but any one, any one alone; and in each of these a torn one.
#[test]
fn images_have_fronts_and_all_but_one_of_many_writes(rt: HostRuntime) {
    let disk = make_pending(&rt, rt.alloc());
    for kind in 1..4u64 {
        kind_stands(&rt, &disk, kind, kind * 1_000_000_000_000_000_000);
    }
}

// The disk reads so, and its first image too.
fn both_read(rt: &impl Abort, disk: &mut MemDisk, two: [u8; 2]) {
    assert_same(rt, read_two(rt, disk), two);
    let mut image = image(rt, disk, 0);
    assert_same(rt, read_two(rt, &mut image), two);
}

// The bytes change before their call, and in each image from that call on; what is written over them later may stand.
#[test]
fn a_poke_changes_bytes_and_images_from_its_call_on(rt: HostRuntime) {
    let mut disk = make_disk(&rt, rt.alloc(), RECORD);
    assert_that(&rt, disk.poke(4, 1, b"xyz").is_ok());
    both_read(&rt, &mut disk, *b"ab");
    both_read(&rt, &mut disk, *b"ax");
    write(&rt, &mut disk, 0, b"cd");
    for &(pick, reads) in &[(0, *b"ax"), (1, *b"cx"), (2, *b"cd")] {
        let mut image = image(&rt, &disk, pick);
        assert_same_at(&rt, read_two(&rt, &mut image), reads, pick);
    }
    assert_same(&rt, disk.len(), Ok(2));
}

// A shelf with room for so many fetches, and disks of these names.
fn shelf_of(rt: &impl Abort, alloc: Global, fetches: u32, names: &[&str]) -> MemShelf {
    let mut shelf = MemShelf::new(alloc, fetches).expect(rt, "memory");
    for name in names {
        let disk = make_disk(rt, alloc, RECORD);
        assert_that(rt, shelf.put(alloc, name, disk).is_ok());
    }
    shelf
}

fn fetch(rt: &impl Abort, shelf: &mut MemShelf, name: &str) -> MemDisk {
    shelf.fetch(name, false).expect(rt, "a disk")
}

fn is_out(rt: &impl Abort, shelf: &mut MemShelf, name: &str, makes: bool) {
    assert_that_at(rt, shelf.fetch(name, makes).is_err(), name);
}

// Two disks are written and given back. The first is given back twice, and the second time another disk, which is dropped.
fn write_both(rt: &impl Abort, alloc: Global, shelf: &mut MemShelf) {
    let mut left = fetch(rt, shelf, "left");
    let mut right = shelf.fetch("right", true).expect(rt, "a disk");
    write(rt, &mut left, 0, b"lt");
    write(rt, &mut right, 0, b"rt");
    assert_that(rt, right.write(9, b"rt").is_err());

    // One that is out, and one that the shelf doesn't hold.
    is_out(rt, shelf, "left", false);
    is_out(rt, shelf, "middle", true);
    shelf.give_back("right", right);
    shelf.give_back("left", left);
    shelf.give_back("left", make_disk(rt, alloc, RECORD));
}

#[test]
fn two_disks_of_a_shelf_are_out_at_once(rt: HostRuntime) {
    let mut shelf = shelf_of(&rt, rt.alloc(), 5, &["left", "right"]);
    write_both(&rt, rt.alloc(), &mut shelf);
    let mut left = fetch(&rt, &mut shelf, "left");
    assert_same(&rt, read_two(&rt, &mut left), *b"lt");

    // There was room for five fetches.
    is_out(&rt, &mut shelf, "right", false);
}

#[test]
fn a_disk_comes_back_with_its_count_at_zero(rt: HostRuntime) {
    let mut shelf = shelf_of(&rt, rt.alloc(), 2, &["mem"]);
    let mut disk = fetch(&rt, &mut shelf, "mem");
    assert_that(&rt, disk.write(2, b"xyz").is_err());
    assert_same(&rt, disk.faults(), 1);
    shelf.give_back("mem", disk);
    let disk = fetch(&rt, &mut shelf, "mem");
    assert_same(&rt, disk.faults(), 0);
}
