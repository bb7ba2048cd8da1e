// Damage of the lanes, and lanes as heavy and as long as they may be.
use crate::asserts::assert_same;
use crate::damage::{LANES_AT, check_damaged, check_opens, peek, poke, slot_of};
use crate::rich::make_rich;
use crate::samples::{key_of, value};
use crate::stores::{copy, made, open, report, smallest};
use blsm_model::{Geometry, Key};
use disk_mem::MemDisk;
use entry_codec::encode;
use record_delta::Rec;
use recover_open::Place;
use std::alloc::Global;
use std::process::Abort;

// Where the region of a lane stands in the file.
fn region_at(geo: &Geometry, lane: u8) -> u64 {
    let length = geo.half().saturating_mul(4);
    length.saturating_mul(u64::from(lane)).saturating_add(4_096)
}

/// Damages a lane: its first gate is open, and no entry follows.
pub fn spoil_lane(rt: &impl Abort, disk: &mut MemDisk, geo: &Geometry, lane: u8) {
    poke(rt, disk, region_at(geo, lane), &[1, 4]);
}

// The least key but one, and one as long as a key may be, by its number.
fn wide_key(rt: &impl Abort, number: u8) -> Key {
    let mut bytes = [b'w'; Key::MAX_LEN];
    bytes[1] = number;
    Key::from_bytes(&bytes).expect(rt, "a key")
}

// Writes an entry behind a gate, which is open. Answers the place behind it.
fn put_entry(rt: &impl Abort, disk: &mut MemDisk, at: u64, key: &Key, rec: &Rec) -> u64 {
    let mut bytes = [0; 512];
    let length = encode(key, rec, &mut bytes);
    poke(rt, disk, at, &[1]);
    poke(
        rt,
        disk,
        at.saturating_add(1),
        bytes.get(..length).expect(rt, "an entry"),
    );
    at.saturating_add(1).saturating_add(length as u64)
}

// Writes so many entries of 512 bytes, the keys' numbers from this one on, behind a place. Answers the place behind them.
fn put_full(rt: &impl Abort, disk: &mut MemDisk, at: u64, first: u8, count: u8) -> u64 {
    let mut end = at;
    for number in 0..count {
        let key = wide_key(rt, first.saturating_add(number));
        end = put_entry(rt, disk, end, &key, &Rec::Base(value(rt, 1, 435)));
    }
    end
}

// Writes an entry of 14 bytes, the lightest.
fn put_least(rt: &impl Abort, disk: &mut MemDisk, at: u64) {
    let key = Key::from_bytes(b"a").expect(rt, "a key");
    put_entry(rt, disk, at, &key, &Rec::Tomb);
}

// The number of lane A, or with one of lane B.
fn lane_of(rt: &impl Abort, alloc: Global, disk: &MemDisk, role: u64) -> u8 {
    let slot = slot_of(rt, alloc, disk);
    let at = slot.saturating_add(LANES_AT).saturating_add(role);
    peek(rt, &mut copy(rt, disk), at)
}

// The gate of the first entry of a lane is open, but the entry is none.
fn check_no_entry(rt: &impl Abort, alloc: Global, disk: &MemDisk, role: u64, bytes: &[u8]) {
    let lane = lane_of(rt, alloc, disk, role);
    let mut damaged = copy(rt, disk);
    poke(rt, &mut damaged, region_at(&smallest(rt), lane), bytes);
    check_damaged(rt, alloc, &damaged, Place::Lane(lane));
}

// An entry of no kind, one with no key, one with too long a text, a delta with a text.
fn check_no_entries(rt: &impl Abort, alloc: Global, disk: &MemDisk, role: u64) {
    check_no_entry(rt, alloc, disk, role, &[1, 0]);
    check_no_entry(rt, alloc, disk, role, &[1, 4]);
    check_no_entry(rt, alloc, disk, role, &[1, 1, 0, 0]);
    check_no_entry(rt, alloc, disk, role, &[1, 1, 0, 2, 1, 180]);
    check_no_entry(rt, alloc, disk, role, &[1, 2, 0, 2, 0, 1]);
}

#[test]
fn an_open_gate_without_an_entry_is_damaged(rt: HostRuntime) {
    let alloc = rt.alloc();
    let disk = make_rich(&rt, alloc).disk;
    check_no_entries(&rt, alloc, &disk, 0);
    check_no_entries(&rt, alloc, &disk, 1);
}

// The closed gate behind the entries is open.
fn check_no_gate(rt: &impl Abort, alloc: Global, geo: &Geometry, lane: u8) {
    let mut disk = made(rt, alloc, geo);
    let end = put_full(rt, &mut disk, region_at(geo, lane), 0, 3);
    check_opens(rt, alloc, &disk);
    poke(rt, &mut disk, end, &[1]);
    check_damaged(rt, alloc, &disk, Place::Lane(lane));
}

#[test]
fn a_lane_with_no_closed_gate_is_damaged(rt: HostRuntime) {
    let alloc = rt.alloc();
    check_no_gate(&rt, alloc, &smallest(&rt), 0);
    check_no_gate(&rt, alloc, &smallest(&rt), 1);
}

// Fills a region with 135 records of one key, of 512 bytes each, and a last record of another with a text of so many bytes: with 360 bytes its
// closed gate is the region's last byte.
fn filled(rt: &impl Abort, alloc: Global, geo: &Geometry, lane: u8, text: usize) -> MemDisk {
    let mut disk = made(rt, alloc, geo);
    let mut end = region_at(geo, lane);
    for _ in 0..135u32 {
        end = put_full(rt, &mut disk, end, 0, 1);
    }
    let last = Rec::Base(value(rt, 1, text));
    put_entry(rt, &mut disk, end, &key_of(rt, 1), &last);
    copy(rt, &disk)
}

// A lane whose last entry has its closed gate inside the region opens, and else it is damaged.
fn check_filled(rt: &impl Abort, alloc: Global, lane: u8) {
    let geo = smallest(rt);
    let mut disk = filled(rt, alloc, &geo, lane, 360);
    let found = report(rt, alloc, &mut disk);
    assert_same(rt, found.lane_a.saturating_add(found.lane_b), 136);
    check_opens(rt, alloc, &disk);
    let disk = filled(rt, alloc, &geo, lane, 361);
    check_damaged(rt, alloc, &disk, Place::Lane(lane));
}

#[test]
fn a_gate_past_its_region_is_damaged(rt: HostRuntime) {
    check_filled(&rt, rt.alloc(), 0);
    check_filled(&rt, rt.alloc(), 1);
}

// The core of a store weighs so much.
fn check_charge(rt: &impl Abort, alloc: Global, disk: &MemDisk, charge: u64) {
    let core = open(rt, alloc, copy(rt, disk));
    assert_same(rt, core.charge(), charge);
}

// Records of so many bytes in lane A as the high mark opens with them, and is damaged with 14 bytes more.
#[test]
fn a_lane_past_the_high_mark_is_damaged(rt: HostRuntime) {
    let alloc = rt.alloc();
    let geo = smallest(&rt);
    let mut disk = made(&rt, alloc, &geo);
    let end = put_full(&rt, &mut disk, region_at(&geo, 0), 0, 68);
    check_charge(&rt, alloc, &disk, geo.high_mark());
    put_least(&rt, &mut disk, end);
    check_damaged(&rt, alloc, &disk, Place::Lane(0));
}

// And so records in both lanes together, half of the keys the same.
#[test]
fn two_lanes_past_the_high_mark_are_damaged(rt: HostRuntime) {
    let alloc = rt.alloc();
    let geo = smallest(&rt);
    let mut disk = made(&rt, alloc, &geo);
    put_full(&rt, &mut disk, region_at(&geo, 0), 0, 34);
    let end = put_full(&rt, &mut disk, region_at(&geo, 1), 17, 34);
    check_charge(&rt, alloc, &disk, 51 * 512);
    put_least(&rt, &mut disk, end);
    check_damaged(&rt, alloc, &disk, Place::Lane(1));
}
