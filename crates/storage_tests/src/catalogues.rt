// Slots of the smallest store, over disks in memory.
ghost use Rattle.std.specs.Prelude.{◌≡◌, ◌<◌, length};
ghost use Rattle.blsm_model.specs.Geometry.{file_length};
ghost use Rattle.blsm_model.specs.Lanes.{spare_of};
ghost use Rattle.disk_mem.specs.Recorded.{told};

use crate::asserts::{assert_same, assert_same_at, assert_that};
use crate::samples::{disk_of, has_bytes, put, smallest};
use blsm_model::{Component, Geometry};
use catalog_swap::{
    Catalog, EVEN_SLOT, ODD_SLOT, SLOT_LEN, SlotsBroken, commit, first_newest, newest, one_body,
    one_newest, prepare,
};
use disk_mem::MemDisk;
use disk_trait::Disk;
use refusal::Failed;
use std::alloc::Global;
use std::process::Abort;

// Where the lanes of the smallest store begin, and how far apart.
const LANES_START: usize = 4_096;

const LANE: usize = 69_632;

// How many images are read at each stop: all that the write of a slot may leave, which has two digits, below 86 and below 2. Those of
// two gates are 16.
const PICKS: u64 = 172;

// Where in a slot its flag stands.
const FLAG_AT: u64 = 84;

// A component that has no pages.
const NOTHING: [u8; 24] = [
    255, 255, 255, 255, 0, 0, 0, 0, 0, 0, 0, 0, 0, 0, 0, 0, 0, 0, 0, 0, 0, 0, 0, 0,
];

// No pages, and a weight of 14.
const WEIGHTY: [u8; 24] = [
    255, 255, 255, 255, 0, 0, 0, 0, 0, 0, 0, 0, 0, 0, 0, 0, 0, 0, 0, 0, 0, 0, 0, 14,
];

// 1,023 pages, of 798.
const BAD: [u8; 24] = [
    0, 0, 0, 3, 0, 0, 3, 255, 0, 0, 0, 0, 0, 0, 0, 5, 0, 0, 0, 0, 0, 0, 1, 44,
];

// One of the pages 3 and on: 2 pages, 5 entries, 300 bytes.
const SOME: [u8; 24] = [
    0, 0, 0, 3, 0, 0, 0, 2, 0, 0, 0, 0, 0, 0, 0, 5, 0, 0, 0, 0, 0, 0, 1, 44,
];

fn empty() -> Component {
    Component {
        first: u32::MAX,
        pages: 0,
        entries: 0,
        weight: 0,
    }
}

fn some() -> Component {
    Component {
        first: 3,
        pages: 2,
        entries: 5,
        weight: 300,
    }
}

fn first() -> Catalog
    ensures { spare_of result.lanes < 3 }
{
    Catalog {
        version: 1,
        lanes: [0, 1, 2],
        c1: empty(),
        c1x: empty(),
        c2: empty(),
        progress: None,
    }
}

fn second() -> Catalog
    ensures { spare_of result.lanes < 3 }
{
    Catalog {
        version: 2,
        lanes: [1, 2, 0],
        c1: some(),
        c1x: empty(),
        c2: empty(),
        progress: None,
    }
}

fn third() -> Catalog
    ensures { spare_of result.lanes < 3 }
{
    Catalog {
        version: 3,
        lanes: [2, 0, 1],
        c1: empty(),
        c1x: some(),
        c2: some(),
        progress: None,
    }
}

// A slot's gate, version, lanes and C1; or that it is zeros.
type Words = Option<(u8, u8, [u8; 3], [u8; 24])>;

// A slot with no other component and no flag.
fn slot(words: Words) -> [u8; SLOT_LEN] {
    let mut slot = [0; SLOT_LEN];
    if let Some(words) = words {
        let lanes = words.2;
        let c1 = words.3;
        slot[0] = words.0;
        slot[8] = words.1;
        put(&mut slot, 9, &lanes);
        put(&mut slot, 12, &c1);
        put(&mut slot, 36, &NOTHING);
        put(&mut slot, 60, &NOTHING);
    }
    slot
}

// A disk with these slots, the first gates of the lanes open, and zeros elsewhere, by two calls.
fn make_disk(
    rt: &impl Abort,
    alloc: Global,
    geometry: &Geometry,
    odd: Words,
    even: Words,
) -> MemDisk
    ensures { length (told result).bytes ≡ file_length geometry.now }
{
    let mut file = vec![in alloc; 0; geometry.length() as usize].expect(rt, "memory");
    put(&mut file, 512, &slot(odd));
    put(&mut file, 1_024, &slot(even));
    for lane in 0..3usize {
        put(&mut file, LANES_START + lane * LANE, &[1]);
    }
    assert!(rt; file.len() as u64 == geometry.length());
    disk_of(rt, alloc, geometry, file.as_slice(), 4_096)
}

// What the slots of a disk say.
fn read_slots(
    rt: &impl Abort,
    disk: &mut MemDisk,
    geometry: &Geometry,
) -> Result<Catalog, SlotsBroken> {
    assert_eq!(rt; disk.len(), Ok(geometry.length()));
    newest(disk, geometry)
}

const LANES: [u8; 3] = [0, 1, 2];

// Both slots, and which version they have, or that they are damaged.
const SLOTS: [(Words, Words, Result<u64, SlotsBroken>); 15] = [
    (Some((1, 1, LANES, NOTHING)), None, Ok(1)),
    (
        Some((1, 1, LANES, NOTHING)),
        Some((1, 2, [1, 2, 0], SOME)),
        Ok(2),
    ),
    (
        Some((1, 3, LANES, SOME)),
        Some((1, 2, [1, 2, 0], SOME)),
        Ok(3),
    ),
    (
        Some((0, 3, LANES, SOME)),
        Some((1, 2, [1, 2, 0], SOME)),
        Ok(2),
    ),
    (
        Some((0, 1, LANES, NOTHING)),
        Some((2, 2, LANES, SOME)),
        Err(SlotsBroken::Damaged),
    ),
    (
        Some((1, 2, LANES, NOTHING)),
        None,
        Err(SlotsBroken::Damaged),
    ),
    (
        Some((1, 1, LANES, NOTHING)),
        Some((1, 1, LANES, NOTHING)),
        Err(SlotsBroken::Damaged),
    ),
    (
        Some((1, 1, LANES, NOTHING)),
        Some((1, 0, LANES, NOTHING)),
        Err(SlotsBroken::Damaged),
    ),
    (
        Some((1, 1, [0, 1, 1], NOTHING)),
        None,
        Err(SlotsBroken::Damaged),
    ),
    (
        Some((1, 1, [0, 1, 3], NOTHING)),
        None,
        Err(SlotsBroken::Damaged),
    ),
    (
        Some((1, 1, LANES, BAD)),
        Some((0, 2, LANES, SOME)),
        Err(SlotsBroken::Damaged),
    ),
    (
        Some((1, 1, LANES, BAD)),
        Some((1, 2, LANES, SOME)),
        Err(SlotsBroken::Damaged),
    ),
    (Some((0, 1, LANES, BAD)), Some((1, 2, LANES, SOME)), Ok(2)),
    (
        Some((1, 1, LANES, WEIGHTY)),
        None,
        Err(SlotsBroken::Damaged),
    ),
    (
        Some((1, 1, [0, 0, 1], NOTHING)),
        None,
        Err(SlotsBroken::Damaged),
    ),
];

fn reads_as(
    rt: &impl Abort,
    alloc: Global,
    odd: Words,
    even: Words,
    outcome: Result<u64, SlotsBroken>,
) {
    let geo = smallest(rt);
    let mut disk = make_disk(rt, alloc, &geo, odd, even);
    let found = newest(&mut disk, &geo).map(|catalog| catalog.version);
    assert_same(rt, found, outcome);
    assert_same(rt, disk.faults(), 0);
}

#[test]
fn the_open_slot_of_the_higher_version_counts(rt: HostRuntime) {
    for &(odd, even, outcome) in &SLOTS {
        reads_as(&rt, rt.alloc(), odd, even, outcome);
    }
}

// A flag 1 without a progress behind it, or a greater one, is in no valid body, whichever open slot has it.
#[test]
fn a_slot_with_a_flag_is_damaged(rt: HostRuntime) {
    let geo = smallest(&rt);
    for &(slot, flag) in &[(ODD_SLOT, 1), (ODD_SLOT, 2), (EVEN_SLOT, 1), (EVEN_SLOT, 2)] {
        let mut disk = make_disk(&rt, rt.alloc(), &geo, ODD, EVEN);
        assert_that(&rt, disk.write(slot + FLAG_AT, &[flag]).is_ok());
        assert_same(&rt, newest(&mut disk, &geo), Err(SlotsBroken::Damaged));
    }
}

// A catalogue, the next one, and the slots as the first of them was committed.
#[derive(Drop)]
struct Pair {
    now: Catalog,
    next: Catalog,
    odd: Words,
    even: Words,
    ghost lane: { spare_of now.lanes < 3 },
}

const ODD: Words = Some((1, 1, LANES, NOTHING));

const EVEN: Words = Some((1, 2, [1, 2, 0], SOME));

fn first_and_second() -> Pair {
    Pair {
        now: first(),
        next: second(),
        odd: ODD,
        even: None,
    }
}

fn second_and_third() -> Pair {
    Pair {
        now: second(),
        next: third(),
        odd: ODD,
        even: EVEN,
    }
}

impl Pair {
    // Whether an image has the next catalogue; it has the one or the other.
    fn has_next(&self, rt: &impl Abort, disk: &MemDisk, geometry: &Geometry, pick: u64) -> bool {
        let mut image = disk.image(pick).expect(rt, "memory");
        let found = read_slots(rt, &mut image, geometry).expect(rt, "a catalogue");
        if found == self.now {
            return false;
        }
        assert_same_at(rt, found == self.next, true, pick);
        true
    }

    // Whether the one is found, and whether the next one is, in so many images of a disk.
    fn find(&self, rt: &impl Abort, disk: &MemDisk, geometry: &Geometry) -> (bool, bool) {
        let mut finds_now = false;
        let mut finds_next = false;
        for pick in 0..PICKS {
            if self.has_next(rt, disk, geometry, pick) {
                finds_next = true;
            } else {
                finds_now = true;
            }
        }
        (finds_now, finds_next)
    }

    fn commit(&self, disk: &mut MemDisk, geometry: &Geometry) -> Result<(), Failed>
        requires { length (told disk.old).bytes ≡ file_length geometry.now }
    {
        match prepare(disk, geometry, &self.now) {
            Ok(()) => commit(disk, geometry, &self.next),
            Err(failed) => Err(failed),
        }
    }

    // The next one is committed over a disk that stops after so many calls, where all of them are this many.
    fn stops_after(&self, rt: &impl Abort, alloc: Global, calls: u64, all: u64)
        requires { calls < 9 }
    {
        let geo = smallest(rt);
        let mut disk = make_disk(rt, alloc, &geo, self.odd, self.even);
        disk.stop_after(calls + 2);
        let outcome = self.commit(&mut disk, &geo);
        assert_same_at(rt, outcome.is_ok(), calls >= all, calls);
        assert_same_at(
            rt,
            self.find(rt, &disk, &geo),
            (calls < all, calls + 2 >= all),
            calls,
        );
    }
}

// The next catalogue is committed over a disk that stops after so many calls. Each image that is picked has the old catalogue or
// the new one: the new one from the write that opens its gate on, and it alone once that is durable. It takes one call more where the
// older slot is open.
#[test]
fn a_commit_is_whole_or_not_there(rt: HostRuntime) {
    for (pair, all) in &[(first_and_second(), 7), (second_and_third(), 8)] {
        for calls in 0..9 {
            pair.stops_after(&rt, rt.alloc(), calls, *all);
        }
    }
}

// The third catalogue's slot.
fn third_slot() -> [u8; SLOT_LEN] {
    let mut expected = slot(Some((1, 3, [2, 0, 1], NOTHING)));
    put(&mut expected, 36, &SOME);
    put(&mut expected, 60, &SOME);
    expected
}

// The smallest store's disk with the third catalogue.
fn with_third(rt: &impl Abort, alloc: Global, geo: &Geometry) -> MemDisk {
    let mut disk = make_disk(rt, alloc, geo, ODD, EVEN);
    assert_that(rt, second_and_third().commit(&mut disk, geo).is_ok());
    disk
}

// What a commit writes, byte by byte: the slot and the gates of the lanes.
#[test]
fn the_third_stands_where_the_first_stood(rt: HostRuntime) {
    let geo = smallest(&rt);
    let mut disk = with_third(&rt, rt.alloc(), &geo);
    for &(lane, expected) in &[(0, 0), (1, 1), (2, 1)] {
        has_bytes(
            &rt,
            &mut disk,
            (LANES_START + LANE * lane) as u64,
            [expected],
        );
    }
    has_bytes(&rt, &mut disk, ODD_SLOT, third_slot());
    has_bytes(&rt, &mut disk, EVEN_SLOT, slot(EVEN));
    assert_same(&rt, read_slots(&rt, &mut disk, &geo), Ok(third()));
    one_newest();
    one_body();
    first_newest();
}
