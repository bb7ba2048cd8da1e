// A store's lanes on a disk in memory: what is appended is read back, byte by byte and entry by entry.
ghost use Rattle.std.specs.Prelude.{◌≡◌, ◌<◌, ◌≤◌, ◌+◌, ◌-◌, ◌/◌, ℕ, length, IfOk, IsTrue, Err};
ghost use Rattle.blsm_model.specs.Sizes.{IsGeometry};
ghost use Rattle.blsm_model.specs.Geometry.{file_length};
ghost use Rattle.disk_mem.specs.Recorded.{told};
ghost use Rattle.disk_trait.specs.Reads.{OnlyReads};
ghost use Rattle.blsm_model.specs.Lanes.{region_length};
ghost use Rattle.gated_log.specs.Lane.{Lane, HasEntries, IsDamaged};

use crate::asserts::{assert_same, assert_same_at, assert_that, assert_that_at};
use crate::samples::{blank, has_bytes, smallest};
use blsm_model::{Geometry, Key, Op, Pack, Text, Value, Write};
use disk_mem::MemDisk;
use disk_trait::Disk;
use gated_log::{LaneBroken, Lanes, Replay, kept_lanes, place_in_file};
use record_delta::{Rec, weight};
use std::alloc::Global;
use std::process::Abort;

// How many entries a lane has.
fn count<D: Disk>(disk: &mut D, geometry: &Geometry, lane: u8) -> Result<u64, LaneBroken>
    requires lane { lane < 3 }
    requires length { IsTrue (D.state disk.old).tells_bytes → length (D.state disk.old).bytes ≡ file_length geometry.now }
    ensures whole { IfOk result (λ n. IsTrue (D.state disk.old).is_honest
        → (of : Lane) × HasEntries geometry.now lane of (D.state disk.old).bytes × (length of.entries ≡ n)) }
    ensures damaged { (place : ℕ) → result ≡ Err (LaneBroken.Damaged place) → IsTrue (D.state disk.old).is_honest
        → IsDamaged geometry.now lane (D.state disk.old).bytes }

    // An entry and its gate take 15 bytes at least, and the last gate one.
    ensures effect { OnlyReads (file_length geometry.now) ((region_length geometry.now - 1) / 15 + 1) (D.state disk.old) (D.state disk.new) }
{
    let _half = geometry.half();
    let mut replay = Replay::new(geometry, lane);
    let mut entries = 0;
    while let Some(_) = replay.next(disk)? {
        entries += 1;
    }
    Ok(entries)
}

// How many bytes a lane's region has.
fn region_len(geometry: &Geometry) -> u64
    ensures length { result ≡ region_length geometry.now }
    ensures fits { IsGeometry geometry.now }
{
    4 * geometry.half()
}

// Writes bytes at the start of a lane's region.
fn write_lane(rt: &impl Abort, disk: &mut MemDisk, geometry: &Geometry, lane: u8, bytes: &[u8])
    requires lane { lane < 3 }
    requires fits { length bytes.now ≤ 100 }
    requires length { length (told disk.old).bytes ≡ file_length geometry.now }
    ensures { length (told disk.new).bytes ≡ file_length geometry.now }
{
    let _length = region_len(geometry);
    assert_that(
        rt,
        disk.write(place_in_file(geometry, lane, 0), bytes).is_ok(),
    );
}

// Appends an entry that fits.
fn append(
    rt: &impl Abort,
    disk: &mut MemDisk,
    geometry: &Geometry,
    lanes: &mut Lanes,
    lane: u8,
    key: &Key,
    rec: &Rec,
) -> bool
    requires lane { lane < 3 }
    requires sizes { lanes.old.sizes ≡ geometry.now }
    requires length { length (told disk.old).bytes ≡ file_length geometry.now }
    ensures sizes { lanes.new.sizes ≡ geometry.now }
    ensures length { length (told disk.new).bytes ≡ file_length geometry.now }
{
    let room = region_len(geometry) - lanes.end(lane);
    assert!(rt; weight(key, rec) + 2 <= room);
    lanes.append(disk, lane, key, rec).is_ok()
}

// Appends a batch that fits.
fn append_batch(
    rt: &impl Abort,
    disk: &mut MemDisk,
    geometry: &Geometry,
    lanes: &mut Lanes,
    lane: u8,
    batch: &Pack,
) -> bool
    requires lane { lane < 3 }
    requires sizes { lanes.old.sizes ≡ geometry.now }
    requires length { length (told disk.old).bytes ≡ file_length geometry.now }
    ensures sizes { lanes.new.sizes ≡ geometry.now }
    ensures length { length (told disk.new).bytes ≡ file_length geometry.now }
{
    let room = region_len(geometry) - lanes.end(lane);
    let weight = batch.weight();
    assert!(rt; batch.fits());
    assert!(rt; weight <= Op::MAX_WEIGHT);
    assert!(rt; weight + 6 <= room);
    lanes.append_pack(disk, lane, batch).is_ok()
}

// Appends an entry so many times.
fn append_times(
    rt: &impl Abort,
    disk: &mut MemDisk,
    geometry: &Geometry,
    lanes: &mut Lanes,
    lane: u8,
    key: &Key,
    rec: &Rec,
    times: u32,
)
    requires lane { lane < 3 }
    requires sizes { lanes.old.sizes ≡ geometry.now }
    requires length { length (told disk.old).bytes ≡ file_length geometry.now }
    ensures sizes { lanes.new.sizes ≡ geometry.now }
    ensures length { length (told disk.new).bytes ≡ file_length geometry.now }
{
    for i in 0..times {
        assert_that_at(rt, append(rt, disk, geometry, lanes, lane, key, rec), i);
    }
}

// The replay answers so.
fn answers(
    rt: &impl Abort,
    disk: &mut MemDisk,
    geometry: &Geometry,
    replay: &mut Replay,
    expected: Result<Option<(Key, Rec)>, LaneBroken>,
)
    requires sizes { replay.old.sizes ≡ geometry.now }
    requires length { length (told disk.old).bytes ≡ file_length geometry.now }
    ensures sizes { replay.new.sizes ≡ geometry.now }
    ensures length { length (told disk.new).bytes ≡ file_length geometry.now }
{
    assert_that(rt, replay.next(disk) == expected);
}

// A lane has so many entries, or this is wrong with it.
fn has_count(
    rt: &impl Abort,
    disk: &mut MemDisk,
    geometry: &Geometry,
    lane: u8,
    outcome: Result<u64, LaneBroken>,
)
    requires lane { lane < 3 }
    requires length { length (told disk.old).bytes ≡ file_length geometry.now }
    ensures { length (told disk.new).bytes ≡ file_length geometry.now }
{
    assert_that_at(rt, count(disk, geometry, lane) == outcome, lane);
}

fn key(rt: &impl Abort, bytes: &[u8]) -> Key {
    Key::from_bytes(bytes).expect(rt, "a key")
}

fn base(rt: &impl Abort, count: u64, text: &[u8]) -> Rec {
    Rec::Base(Value {
        count,
        text: Text::from_bytes(text).expect(rt, "a text"),
    })
}

// A put of a key and a del of it are written to lane 0.
fn write_two(rt: &impl Abort, disk: &mut MemDisk, geometry: &Geometry)
    requires { length (told disk.old).bytes ≡ file_length geometry.now }
    ensures { length (told disk.new).bytes ≡ file_length geometry.now }
{
    let _length = region_len(geometry);
    let mut lanes = Lanes::resume(geometry, [0, 1, 2], [0, 0, 0]);
    let a = key(rt, b"a");
    let put = base(rt, 5, b"hi");
    assert_that(rt, append(rt, disk, geometry, &mut lanes, 0, &a, &put));
    assert_same(rt, lanes.end(0), 17);
    assert_that(
        rt,
        append(rt, disk, geometry, &mut lanes, 0, &a, &Rec::Tomb),
    );
    assert_same(rt, lanes.end(0), 32);
}

// They are read back, and behind them nothing, twice.
fn read_two(rt: &impl Abort, disk: &mut MemDisk, geometry: &Geometry)
    requires { length (told disk.old).bytes ≡ file_length geometry.now }
    ensures { length (told disk.new).bytes ≡ file_length geometry.now }
{
    let mut replay = Replay::new(geometry, 0);
    let put = Some((key(rt, b"a"), base(rt, 5, b"hi")));
    answers(rt, disk, geometry, &mut replay, Ok(put));
    assert_same(rt, replay.end(), 17);
    let del = Some((key(rt, b"a"), Rec::Tomb));
    answers(rt, disk, geometry, &mut replay, Ok(del));
    answers(rt, disk, geometry, &mut replay, Ok(None));
    answers(rt, disk, geometry, &mut replay, Ok(None));
    assert_same(rt, replay.end(), 32);
}

#[test]
fn a_put_and_a_del_are_read_back(rt: HostRuntime) {
    let geometry = smallest(&rt);
    let mut disk = blank(&rt, rt.alloc(), &geometry, 1_000);
    write_two(&rt, &mut disk, &geometry);
    read_two(&rt, &mut disk, &geometry);
    has_count(&rt, &mut disk, &geometry, 1, Ok(0));
    has_bytes(
        &rt,
        &mut disk,
        4_096,
        *b"\x01\x01\x00\x01\x00\x02\x00\x00\x00\x00\x00\x00\x00\x05ahi\x01\x03\x00\x01\x00\x00\x00\x00\x00\x00\x00\x00\x00\x00a\x00",
    );
    assert_same(&rt, disk.faults(), 0);
}

// A put, a del and an add of three keys.
fn three_writes(rt: &impl Abort) -> Pack {
    let put = Write::Put(
        key(rt, b"b"),
        Value {
            count: 2,
            text: Text::from_bytes(b"").expect(rt, "a text"),
        },
    );
    let writes = [put, Write::Del(key(rt, b"a")), Write::Add(key(rt, b"c"), 3)];
    Pack::of(&writes).expect(rt, "a batch")
}

// They are written to lane 0 as one record.
fn write_three(rt: &impl Abort, disk: &mut MemDisk, geometry: &Geometry)
    requires { length (told disk.old).bytes ≡ file_length geometry.now }
    ensures { length (told disk.new).bytes ≡ file_length geometry.now }
{
    let _length = region_len(geometry);
    let mut lanes = Lanes::resume(geometry, [0, 1, 2], [0, 0, 0]);
    let batch = three_writes(rt);
    assert_that(rt, append_batch(rt, disk, geometry, &mut lanes, 0, &batch));
    assert_same(rt, lanes.end(0), 47);
}

// They are read back by one call of the disk, and the end by another one.
fn read_three(rt: &impl Abort, disk: &mut MemDisk, geometry: &Geometry)
    requires { length (told disk.old).bytes ≡ file_length geometry.now }
    ensures { length (told disk.new).bytes ≡ file_length geometry.now }
{
    let mut replay = Replay::new(geometry, 0);
    let put = Some((key(rt, b"b"), base(rt, 2, b"")));
    answers(rt, disk, geometry, &mut replay, Ok(put));
    assert_same(rt, replay.end(), 47);
    // Two calls made the disk, four appended, one read the record.
    assert_that(rt, disk.fail(8).is_ok());
    let del = Some((key(rt, b"a"), Rec::Tomb));
    answers(rt, disk, geometry, &mut replay, Ok(del));
    let add = Some((key(rt, b"c"), Rec::of_write(&Write::Add(key(rt, b"c"), 3))));
    answers(rt, disk, geometry, &mut replay, Ok(add));
    answers(rt, disk, geometry, &mut replay, Err(LaneBroken::Fault));
    answers(rt, disk, geometry, &mut replay, Ok(None));
    assert_same(rt, replay.end(), 47);
}

#[test]
fn a_batch_is_one_record(rt: HostRuntime) {
    let geometry = smallest(&rt);
    let mut disk = blank(&rt, rt.alloc(), &geometry, 1_000);
    write_three(&rt, &mut disk, &geometry);
    read_three(&rt, &mut disk, &geometry);
    has_count(&rt, &mut disk, &geometry, 0, Ok(3));
    has_bytes(
        &rt,
        &mut disk,
        4_096,
        *b"\x01\x05\x03\x00\x2a\x01\x00\x01\x00\x00\x00\x00\x00\x00\x00\x00\x00\x02b\x03\x00\x01\x00\x00\x00\x00\x00\x00\x00\x00\x00\x00a\x02\x00\x01\x00\x00\x00\x00\x00\x00\x00\x00\x00\x03c\x00",
    );
}

// A lane's first bytes, and how many entries it has or what is wrong with it.
#[derive(Drop)]
struct Row {
    lane: u8,
    bytes: &'static [u8],
    outcome: Result<u64, LaneBroken>,
}

fn rows() -> [Row; 8] {
    let damaged = |lane| Err(LaneBroken::Damaged(lane));
    [
        // A closed gate, whatever it is and whatever follows.
        Row {
            lane: 0,
            bytes: b"\x00\x03\x00\x01\x00\x00\x00\x00\x00\x00\x00\x00\x00\x00a\x00",
            outcome: Ok(0),
        },
        Row {
            lane: 1,
            bytes: b"\x02\x03\x00\x01\x00\x00\x00\x00\x00\x00\x00\x00\x00\x00a\x00",
            outcome: Ok(0),
        },
        // One entry, and a closed gate.
        Row {
            lane: 2,
            bytes: b"\x01\x03\x00\x01\x00\x00\x00\x00\x00\x00\x00\x00\x00\x00a\xff",
            outcome: Ok(1),
        },
        // An open gate, and kind 0; in the first place and behind an entry.
        Row {
            lane: 0,
            bytes: b"\x01\x00\x00\x01\x00\x00\x00\x00\x00\x00\x00\x00\x00\x00a\x00",
            outcome: damaged(0),
        },
        Row {
            lane: 1,
            bytes: b"\x01\x03\x00\x01\x00\x00\x00\x00\x00\x00\x00\x00\x00\x00a\x01",
            outcome: damaged(1),
        },
        // A key of no bytes, a tombstone with a count, a text of 436 bytes.
        Row {
            lane: 2,
            bytes: b"\x01\x03\x00\x00\x00\x00\x00\x00\x00\x00\x00\x00\x00\x00a\x00",
            outcome: damaged(2),
        },
        Row {
            lane: 2,
            bytes: b"\x01\x03\x00\x01\x00\x00\x00\x00\x00\x00\x00\x00\x00\x01a\x00",
            outcome: damaged(2),
        },
        Row {
            lane: 2,
            bytes: b"\x01\x01\x00\x01\x01\xb4\x00\x00\x00\x00\x00\x00\x00\x01a\x00",
            outcome: damaged(2),
        },
    ]
}

fn reads_as(rt: &impl Abort, alloc: Global, row: &Row) {
    let geometry = smallest(rt);
    let mut disk = blank(rt, alloc, &geometry, 1_000);
    assert!(rt; row.lane < 3);
    assert!(rt; row.bytes.len() <= 100);
    write_lane(rt, &mut disk, &geometry, row.lane, row.bytes);
    assert_that_at(
        rt,
        count(&mut disk, &geometry, row.lane) == row.outcome,
        row.bytes,
    );
}

#[test]
fn an_open_gate_wants_an_entry(rt: HostRuntime) {
    for row in &rows() {
        reads_as(&rt, rt.alloc(), row);
    }
}

// Fills lane 1: 135 entries of 512 bytes and one of 375, each behind its gate, and the last gate.
fn fill(rt: &impl Abort, disk: &mut MemDisk, geometry: &Geometry)
    requires { length (told disk.old).bytes ≡ file_length geometry.now }
    ensures { length (told disk.new).bytes ≡ file_length geometry.now }
{
    let _length = region_len(geometry);
    let mut lanes = Lanes::resume(geometry, [0, 1, 2], [0, 0, 0]);
    let key = key(rt, &[b'k'; 64]);
    let longest = base(rt, u64::MAX, &[b't'; 435]);
    append_times(rt, disk, geometry, &mut lanes, 1, &key, &longest, 135);
    let last = base(rt, 0, &[b't'; 298]);
    assert_that(rt, append(rt, disk, geometry, &mut lanes, 1, &key, &last));
    assert_same(rt, lanes.end(1), 69_631);
}

// The gate at the end of a full lane is found open.
fn open_last_gate(rt: &impl Abort, disk: &mut MemDisk, geometry: &Geometry)
    requires { length (told disk.old).bytes ≡ file_length geometry.now }
    ensures { length (told disk.new).bytes ≡ file_length geometry.now }
{
    assert_that(rt, region_len(geometry) == 69_632);
    let place = place_in_file(geometry, 1, 69_631);
    assert_that(rt, disk.write(place, b"\x01").is_ok());
}

// A lane of 69,632 bytes. The regions beside it stay as they were, and the gate at its end may be found open.
#[test]
fn a_lane_is_full_to_its_last_byte(rt: HostRuntime) {
    let geometry = smallest(&rt);
    let mut disk = blank(&rt, rt.alloc(), &geometry, 100_000);
    fill(&rt, &mut disk, &geometry);
    has_count(&rt, &mut disk, &geometry, 1, Ok(136));
    has_count(&rt, &mut disk, &geometry, 0, Ok(0));
    has_count(&rt, &mut disk, &geometry, 2, Ok(0));
    open_last_gate(&rt, &mut disk, &geometry);
    has_count(&rt, &mut disk, &geometry, 1, Err(LaneBroken::Damaged(1)));
}

// An append whose disk fails at this call.
fn append_failing(rt: &impl Abort, alloc: Global, call: u64, outcome: bool, end: u64, faults: u64) {
    let geometry = smallest(rt);
    let mut disk = blank(rt, alloc, &geometry, 1_000);
    assert_that(rt, disk.fail(call).is_ok());
    let mut lanes = Lanes::resume(&geometry, [0, 1, 2], [0, 0, 0]);
    let a = key(rt, b"a");
    let done = append(rt, &mut disk, &geometry, &mut lanes, 0, &a, &Rec::Tomb);
    assert_same_at(rt, done, outcome, call);
    assert_same_at(rt, lanes.end(0), end, call);
    assert_same_at(rt, disk.faults(), faults, call);
}

// Two dels of one key, one record, and what is no record of theirs.
fn packed_rows() -> [Row; 6] {
    let damaged = Err(LaneBroken::Damaged(1));
    [
        Row {
            lane: 1,
            bytes: b"\x01\x05\x02\x00\x1c\x03\x00\x01\x00\x00\x00\x00\x00\x00\x00\x00\x00\x00a\x03\x00\x01\x00\x00\x00\x00\x00\x00\x00\x00\x00\x00a\x00",
            outcome: Ok(2),
        },
        // A count of one entry, of one too many, and a length of a byte too few and too many.
        Row {
            lane: 1,
            bytes: b"\x01\x05\x01\x00\x0e\x03\x00\x01\x00\x00\x00\x00\x00\x00\x00\x00\x00\x00a\x00",
            outcome: damaged,
        },
        Row {
            lane: 1,
            bytes: b"\x01\x05\x03\x00\x1c\x03\x00\x01\x00\x00\x00\x00\x00\x00\x00\x00\x00\x00a\x03\x00\x01\x00\x00\x00\x00\x00\x00\x00\x00\x00\x00a\x00",
            outcome: damaged,
        },
        Row {
            lane: 1,
            bytes: b"\x01\x05\x02\x00\x1b\x03\x00\x01\x00\x00\x00\x00\x00\x00\x00\x00\x00\x00a\x03\x00\x01\x00\x00\x00\x00\x00\x00\x00\x00\x00\x00a\x00",
            outcome: damaged,
        },
        Row {
            lane: 1,
            bytes: b"\x01\x05\x02\x00\x1d\x03\x00\x01\x00\x00\x00\x00\x00\x00\x00\x00\x00\x00a\x03\x00\x01\x00\x00\x00\x00\x00\x00\x00\x00\x00\x00a\x00",
            outcome: damaged,
        },
        // The last entry is none, so the first isn't given either.
        Row {
            lane: 1,
            bytes: b"\x01\x05\x02\x00\x1c\x03\x00\x01\x00\x00\x00\x00\x00\x00\x00\x00\x00\x00a\x00\x00\x01\x00\x00\x00\x00\x00\x00\x00\x00\x00\x00a\x00",
            outcome: damaged,
        },
    ]
}

#[test]
fn a_record_of_several_is_tested_whole(rt: HostRuntime) {
    for row in &packed_rows() {
        reads_as(&rt, rt.alloc(), row);
    }
}

// The disk fails at one of the four calls of an append, or at none of them.
#[test]
fn an_append_fails_with_any_of_its_calls(rt: HostRuntime) {
    for &(call, outcome, end, faults) in &[
        (3, false, 0, 1),
        (4, false, 0, 1),
        (5, false, 0, 1),
        (6, false, 0, 1),
        (7, true, 15, 0),
    ] {
        append_failing(&rt, rt.alloc(), call, outcome, end, faults);
    }
}

// A disk whose next call fails.
fn failing_next(rt: &impl Abort, alloc: Global, geometry: &Geometry) -> MemDisk
    ensures { length (told result).bytes ≡ file_length geometry.now }
{
    let mut disk = blank(rt, alloc, geometry, 1_000);
    write_lane(rt, &mut disk, geometry, 0, b"\x01\x00");
    assert_that(rt, disk.fail(4).is_ok());
    disk
}

#[test]
fn a_read_that_fails_is_a_fault(rt: HostRuntime) {
    let geometry = smallest(&rt);
    let mut disk = failing_next(&rt, rt.alloc(), &geometry);
    let mut replay = Replay::new(&geometry, 1);
    answers(
        &rt,
        &mut disk,
        &geometry,
        &mut replay,
        Err(LaneBroken::Fault),
    );
    assert_same(&rt, (disk.faults(), replay.end()), (1, 0));
    answers(&rt, &mut disk, &geometry, &mut replay, Ok(None));
    assert_same(&rt, (disk.faults(), replay.end()), (1, 0));
}

#[test]
fn the_lanes_turn(rt: HostRuntime) {
    let geometry = smallest(&rt);
    let mut lanes = Lanes::resume(&geometry, [2, 0, 1], [32, 7, 17]);
    assert_same(&rt, (lanes.a(), lanes.b(), lanes.spare()), (2, 0, 1));
    lanes.turn();
    assert_same(&rt, (lanes.a(), lanes.b(), lanes.spare()), (0, 1, 2));
    assert_same(&rt, (lanes.end(0), lanes.end(1), lanes.end(2)), (32, 0, 17));
    kept_lanes();
}
