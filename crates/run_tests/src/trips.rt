// Runs of the smallest store, over disks in memory, written and read back.
ghost use Rattle.std.specs.Prelude.{◌≡◌, ◌≢◌, length};
ghost use Rattle.blsm_model.specs.Geometry.{file_length};
ghost use Rattle.disk_mem.specs.Recorded.{told};

use crate::asserts::{assert_same, assert_that};
use crate::samples::{Guide, blank, empty_guide, free_map, push_entry, smallest};
use blsm_model::{Component, Geometry, Key, Text, Value};
use disk_mem::MemDisk;
use page_space::{Role, Space};
use record_delta::{Rec, Stream};
use run_cursor::{Cursor, find};
use run_writer::Writer;
use std::process::Abort;

/// The entry of a number: a key of four bytes, and a base whose text has 432, a delta, or a tombstone.
pub fn entry(rt: &impl Abort, n: u32) -> (Key, Rec) {
    let key = Key::from_bytes(&n.to_be_bytes()).expect(rt, "a key");
    let rec = match n % 8 {
        6 => Rec::added(u64::from(n)),
        7 => Rec::Tomb,
        _ => Rec::Base(Value {
            count: u64::from(n),
            text: Text::from_bytes(&[b't'; 432]).expect(rt, "a text"),
        }),
    };
    (key, rec)
}

/// Writes the entries of the first even numbers.
pub fn write(
    rt: &impl Abort,
    disk: &mut MemDisk,
    geo: &Geometry,
    space: &mut Space,
    guide: &mut Guide,
    count: u32,
) -> Component
    requires { length (told disk.old).bytes ≡ file_length geo.now }
    ensures { length (told disk.new).bytes ≡ file_length geo.now }
{
    let mut writer = Writer::start(Role::new(1));
    for n in 0..count {
        let (key, rec) = entry(rt, n.saturating_mul(2));
        assert_that(
            rt,
            push_entry(rt, &mut writer, disk, geo, space, guide, &key, &rec).is_ok(),
        );
    }
    writer.end(disk, geo).expect(rt, "a run")
}

// The next entry of a run is that of this number.
fn goes_on(rt: &impl Abort, disk: &mut MemDisk, geo: &Geometry, cursor: &mut Cursor, n: u32)
    requires { length (told disk.old).bytes ≡ file_length geo.now }
    ensures { length (told disk.new).bytes ≡ file_length geo.now }
{
    assert_same(rt, cursor.advance(disk, geo), Ok(()));
    assert_same(rt, cursor.head(), Some(entry(rt, n)));
}

// A cursor gives the entries of the first 2,000 even numbers, in order.
fn walk(rt: &impl Abort, disk: &mut MemDisk, geo: &Geometry, run: &Component)
    requires pages { run.now.pages ≢ 0 }
    requires length { length (told disk.old).bytes ≡ file_length geo.now }
    ensures { length (told disk.new).bytes ≡ file_length geo.now }
{
    let mut cursor = Cursor::start(run);
    'entries: for n in 0..2_000u32 {
        goes_on(rt, disk, geo, &mut cursor, n.saturating_mul(2));
    }
    assert_same(rt, cursor.advance(disk, geo), Ok(()));
    assert_same(rt, cursor.head(), None);
}

/// A lookup of the key of a number finds its entry, or none.
pub fn finds(
    rt: &impl Abort,
    disk: &mut MemDisk,
    geo: &Geometry,
    run: &Component,
    guide: &Guide,
    n: u32,
    has: bool,
)
    requires length { length (told disk.old).bytes ≡ file_length geo.now }
    ensures { length (told disk.new).bytes ≡ file_length geo.now }
{
    let (key, rec) = entry(rt, n);
    let expected = if has { Some(rec) } else { None };
    assert_same(
        rt,
        find(disk, geo, run, &guide.filter, &guide.fences, &key),
        Ok(expected),
    );
}

// Lookups find eight of the keys, and none of those behind them, which aren't there.
fn look_up(rt: &impl Abort, disk: &mut MemDisk, geo: &Geometry, run: &Component, guide: &Guide)
    requires length { length (told disk.old).bytes ≡ file_length geo.now }
{
    'keys: for n in 0..8u32 {
        finds(rt, disk, geo, run, guide, n.saturating_mul(500), true);
        finds(
            rt,
            disk,
            geo,
            run,
            guide,
            n.saturating_mul(500).saturating_add(1),
            false,
        );
    }
}

// The part of a run that may have the key of a number has so many entries. A cursor goes through it to its end, where just these numbers
// go on.
fn reads_on(
    rt: &impl Abort,
    disk: &mut MemDisk,
    geo: &Geometry,
    run: &Component,
    guide: &Guide,
    n: u32,
)
    requires run { run.now.pages ≢ 0 }
    requires length { length (told disk.old).bytes ≡ file_length geo.now }
    ensures { length (told disk.new).bytes ≡ file_length geo.now }
{
    let (key, _) = entry(rt, n);
    let part = guide.fences.part_from(&key, run);
    assert!(rt; part.pages > 0);
    let mut cursor = Cursor::start(&part);
    'entries: for _ in 0..part.entries {
        assert_same(rt, cursor.advance(disk, geo), Ok(()));
        assert_that(rt, cursor.head().is_some());
    }
    assert_same(rt, cursor.advance(disk, geo), Ok(()));
    assert_same(rt, cursor.head(), None);
}

#[test]
fn a_run_of_2000_entries_is_read_back(rt: HostRuntime) {
    let geo = smallest(&rt);
    let mut disk = blank(&rt, rt.alloc(), &geo, 2_000_000);
    let mut space = free_map(&rt, rt.alloc(), &geo);
    let mut guide = empty_guide(&rt, rt.alloc());
    let run = write(&rt, &mut disk, &geo, &mut space, &mut guide, 2_000);
    assert_same(&rt, run.entries, 2_000);
    assert_that(&rt, run.pages != 0);
    walk(&rt, &mut disk, &geo, &run);
    reads_on(&rt, &mut disk, &geo, &run, &guide, 1);
    reads_on(&rt, &mut disk, &geo, &run, &guide, 2_001);
    reads_on(&rt, &mut disk, &geo, &run, &guide, 3_999);
    look_up(&rt, &mut disk, &geo, &run, &guide);
}
