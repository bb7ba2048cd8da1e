// Damage of the superblock, the length and the slots, and which of several damages is told. A damaged store is neither checked nor opened,
// and nothing is written.
use crate::asserts::{assert_same, assert_that};
use crate::lanes::spoil_lane;
use crate::pages::spoil_page;
use crate::rich::make_rich;
use crate::stops::check_same;
use crate::stores::{blank, copy, open, refused, report, smallest};
use blsm_model::Component;
use catalog_swap::{EVEN_SLOT, ODD_SLOT, SLOT_LEN};
use disk_mem::MemDisk;
use disk_trait::Disk;
use recover_open::{Place, Report, Unreadable, check_store};
use std::alloc::Global;
use std::process::Abort;

// The greatest version that is opened.
const MOST_VERSION: u64 = 1 << 62;

/// Writes bytes at a place of a disk.
pub fn poke(rt: &impl Abort, disk: &mut MemDisk, at: u64, bytes: &[u8]) {
    assert_that(rt, disk.write(at, bytes).is_ok());
}

/// Reads a byte at a place of a disk.
pub fn peek(rt: &impl Abort, disk: &mut MemDisk, at: u64) -> u8 {
    let mut byte = [0];
    assert_that(rt, disk.read(at, &mut byte).is_ok());
    byte[0]
}

/// Neither checking nor opening takes the store on a disk, for this reason, and the disk stays as it was.
pub fn check_refused(rt: &impl Abort, alloc: Global, disk: &MemDisk, why: Unreadable) {
    let mut damaged = copy(rt, disk);
    assert_same(rt, check_store(alloc, &mut damaged), Err(why));
    let (found, after) = refused(rt, alloc, damaged);
    assert_same(rt, found, why);
    check_same(rt, copy(rt, disk), copy(rt, &after));
    check_same(rt, copy(rt, disk), after);
}

/// The same, for a damaged place.
pub fn check_damaged(rt: &impl Abort, alloc: Global, disk: &MemDisk, place: Place) {
    check_refused(rt, alloc, disk, Unreadable::Damaged(place));
}

/// The store on a disk is checked and opened.
pub fn check_opens(rt: &impl Abort, alloc: Global, disk: &MemDisk) {
    let mut disk = copy(rt, disk);
    let _ = report(rt, alloc, &mut disk);
    let _ = open(rt, alloc, disk);
}

/// The place of the newest slot of a store that reads well.
pub fn slot_of(rt: &impl Abort, alloc: Global, disk: &MemDisk) -> u64 {
    let mut disk = copy(rt, disk);
    if report(rt, alloc, &mut disk).version % 2 == 1 {
        ODD_SLOT
    } else {
        EVEN_SLOT
    }
}

// The place of the other slot.
fn other_slot(slot: u64) -> u64 {
    if slot == ODD_SLOT {
        EVEN_SLOT
    } else {
        ODD_SLOT
    }
}

// Where in a slot the version stands.
const VERSION_AT: u64 = 1;

/// Where in a slot the numbers of the lanes stand.
pub const LANES_AT: u64 = 9;

/// Where in a slot C1 stands.
pub const C1_AT: u64 = 12;

/// Where in a slot C1' stands.
pub const C1X_AT: u64 = 36;

/// Where in a slot C2 stands.
pub const C2_AT: u64 = 60;

/// Writes a component at a place of a slot.
pub fn poke_component(rt: &impl Abort, disk: &mut MemDisk, at: u64, run: &Component) {
    poke(rt, disk, at, &run.first.to_be_bytes());
    poke(rt, disk, at.saturating_add(4), &run.pages.to_be_bytes());
    poke(rt, disk, at.saturating_add(8), &run.entries.to_be_bytes());
    poke(rt, disk, at.saturating_add(16), &run.weight.to_be_bytes());
}

// A byte of the superblock is another one.
fn check_superblock(rt: &impl Abort, alloc: Global, disk: &MemDisk, at: u64) {
    let mut disk = copy(rt, disk);
    let byte = peek(rt, &mut disk, at);
    poke(rt, &mut disk, at, &[byte ^ 1]);
    check_refused(rt, alloc, &disk, Unreadable::NotAStore);
}

// The gate, the magic, the format, the half and the ratio; of the low mark and the quantum the bytes by which they would be too great.
#[test]
fn a_superblock_with_another_byte_is_no_store(rt: HostRuntime) {
    let alloc = rt.alloc();
    let disk = make_rich(&rt, alloc).disk;
    for at in 0..21u64 {
        check_superblock(&rt, alloc, &disk, at);
    }
    check_superblock(&rt, alloc, &disk, 23);
    check_superblock(&rt, alloc, &disk, 24);
}

// Copies a page's length of bytes to another disk, or those up to this length.
fn copy_page(rt: &impl Abort, from: &mut MemDisk, into: &mut MemDisk, at: u64, length: u64) {
    let mut bytes = [0u8; 4_096];
    let count = length.saturating_sub(at).min(4_096) as usize;
    assert_that(rt, from.read(at, &mut bytes[..count]).is_ok());
    poke(rt, into, at, &bytes[..count]);
}

// A disk with the first bytes of one, so many.
fn front(rt: &impl Abort, alloc: Global, from: &MemDisk, length: u64) -> MemDisk {
    let mut from = copy(rt, from);
    let mut into = blank(rt, alloc, &smallest(rt));
    for page in 0..length / 4_096 + 1 {
        let at = page.saturating_mul(4_096).min(length);
        copy_page(rt, &mut from, &mut into, at, length);
    }
    copy(rt, &into)
}

#[test]
fn another_length_is_no_store(rt: HostRuntime) {
    let alloc = rt.alloc();
    let disk = make_rich(&rt, alloc).disk;
    let length = smallest(&rt).length();
    check_opens(&rt, alloc, &front(&rt, alloc, &disk, length));
    for count in [0, 1, 27, 597, 4_096, 4_097, length.saturating_sub(1)] {
        let cut = front(&rt, alloc, &disk, count);
        check_refused(&rt, alloc, &cut, Unreadable::NotAStore);
    }
}

#[test]
fn zeros_are_no_store(rt: HostRuntime) {
    let alloc = rt.alloc();
    let mut disk = blank(&rt, alloc, &smallest(&rt));
    check_refused(&rt, alloc, &disk, Unreadable::NotAStore);
    poke(&rt, &mut disk, 0, &[0; 100]);
    check_refused(&rt, alloc, &disk, Unreadable::NotAStore);
}

#[test]
fn lanes_of_one_number_are_damaged(rt: HostRuntime) {
    let alloc = rt.alloc();
    let disk = make_rich(&rt, alloc).disk;
    let slot = slot_of(&rt, alloc, &disk);
    for lanes in [[0, 0, 1], [0, 1, 1], [1, 2, 3], [2, 1, 2]] {
        let mut damaged = copy(&rt, &disk);
        poke(&rt, &mut damaged, slot.saturating_add(LANES_AT), &lanes);
        check_damaged(&rt, alloc, &damaged, Place::Slots);
    }
}

// The other slot gets what the newest one says.
#[test]
fn two_slots_of_one_version_are_damaged(rt: HostRuntime) {
    let alloc = rt.alloc();
    let mut disk = make_rich(&rt, alloc).disk;
    let slot = slot_of(&rt, alloc, &disk);
    let mut bytes = [0; SLOT_LEN];
    assert_that(&rt, disk.read(slot, &mut bytes).is_ok());
    poke(&rt, &mut disk, other_slot(slot), &bytes);
    check_damaged(&rt, alloc, &disk, Place::Slots);
}

// A store whose newest slot states this weight at a place is damaged there.
fn check_weight(
    rt: &impl Abort,
    alloc: Global,
    disk: &MemDisk,
    at: u64,
    weight: u64,
    place: Place,
) {
    let mut heavy = copy(rt, disk);
    let slot = slot_of(rt, alloc, disk);
    let at = slot.saturating_add(at).saturating_add(16);
    poke(rt, &mut heavy, at, &weight.to_be_bytes());
    check_damaged(rt, alloc, &heavy, place);
}

// Below the mark it isn't the slots that are damaged: C1 doesn't weigh so.
#[test]
fn a_c1_at_its_mark_is_damaged(rt: HostRuntime) {
    let alloc = rt.alloc();
    let mut disk = make_rich(&rt, alloc).disk;
    let found = report(&rt, alloc, &mut disk);
    let mark = smallest(&rt).c1_mark();
    check_weight(&rt, alloc, &disk, C1_AT, mark, Place::Slots);
    let page = Place::Page(found.c1.first);
    check_weight(&rt, alloc, &disk, C1_AT, mark.saturating_sub(1), page);
}

// How much C2 may weigh, beside the other components.
fn most_of_c2(rt: &impl Abort, found: &Report) -> u64 {
    let others = found.c1.weight.saturating_add(found.c1x.weight);
    smallest(rt).capacity().saturating_sub(others)
}

// At the capacity it isn't the slots that are damaged: C2 doesn't weigh so.
#[test]
fn components_above_the_capacity_are_damaged(rt: HostRuntime) {
    let alloc = rt.alloc();
    let mut disk = make_rich(&rt, alloc).disk;
    let found = report(&rt, alloc, &mut disk);
    let most = most_of_c2(&rt, &found);
    check_weight(
        &rt,
        alloc,
        &disk,
        C2_AT,
        most.saturating_add(1),
        Place::Slots,
    );
    check_weight(&rt, alloc, &disk, C2_AT, u64::MAX, Place::Slots);
    check_weight(&rt, alloc, &disk, C2_AT, most, Place::Page(found.c2.first));
}

// Gives a slot the first version of its parity from this one on, which it answers.
fn age(rt: &impl Abort, disk: &mut MemDisk, slot: u64, first: u64) -> u64 {
    let version = if slot == ODD_SLOT {
        first | 1
    } else {
        first.saturating_add(first % 2)
    };
    let at = slot.saturating_add(VERSION_AT);
    poke(rt, disk, at, &version.to_be_bytes());
    version
}

#[test]
fn a_version_past_the_most_is_worn(rt: HostRuntime) {
    let alloc = rt.alloc();
    let mut disk = make_rich(&rt, alloc).disk;
    let slot = slot_of(&rt, alloc, &disk);
    let version = age(&rt, &mut disk, slot, MOST_VERSION.saturating_add(1));
    check_refused(&rt, alloc, &disk, Unreadable::Worn(version));
    let version = age(&rt, &mut disk, slot, MOST_VERSION.saturating_sub(1));
    assert!(rt; version <= MOST_VERSION);
    check_opens(&rt, alloc, &disk);
}

// Closes both slots.
fn close_slots(rt: &impl Abort, disk: &mut MemDisk) {
    poke(rt, disk, ODD_SLOT, &[0]);
    poke(rt, disk, EVEN_SLOT, &[0]);
}

#[test]
fn closed_slots_are_damaged(rt: HostRuntime) {
    let alloc = rt.alloc();
    let mut disk = make_rich(&rt, alloc).disk;
    close_slots(&rt, &mut disk);
    check_damaged(&rt, alloc, &disk, Place::Slots);
}

// Damages lane B, and then lane A, too. Each is told.
fn spoil_lanes(rt: &impl Abort, alloc: Global, disk: &mut MemDisk, slot: u64) {
    let geo = smallest(rt);
    for at in [LANES_AT + 1, LANES_AT] {
        let lane = peek(rt, disk, slot.saturating_add(at));
        spoil_lane(rt, disk, &geo, lane);
        check_damaged(rt, alloc, disk, Place::Lane(lane));
    }
}

// Damages C2, and then C1', and C1, too. Each is told.
fn spoil_components(rt: &impl Abort, alloc: Global, disk: &mut MemDisk, found: &Report) {
    for run in [found.c2, found.c1x, found.c1] {
        spoil_page(rt, disk, &smallest(rt), run.first);
        check_damaged(rt, alloc, disk, Place::Page(run.first));
    }
}

// Damages the version, and then the slots, and the superblock, too. Each is told.
fn spoil_head(rt: &impl Abort, alloc: Global, disk: &mut MemDisk, slot: u64) {
    let worn = age(rt, disk, slot, u64::MAX - 1);
    check_refused(rt, alloc, disk, Unreadable::Worn(worn));
    close_slots(rt, disk);
    check_damaged(rt, alloc, disk, Place::Slots);
    poke(rt, disk, 0, &[0]);
    check_refused(rt, alloc, disk, Unreadable::NotAStore);
}

// Each damage comes before those that were there, in the order in which a store is read.
#[test]
fn the_first_damage_is_told(rt: HostRuntime) {
    let alloc = rt.alloc();
    let mut disk = make_rich(&rt, alloc).disk;
    let slot = slot_of(&rt, alloc, &disk);
    let found = report(&rt, alloc, &mut disk);
    spoil_lanes(&rt, alloc, &mut disk, slot);
    spoil_components(&rt, alloc, &mut disk, &found);
    spoil_head(&rt, alloc, &mut disk, slot);
}
