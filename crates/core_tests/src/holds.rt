// A hold over merges, and how many pages one of the last keys reads.
use crate::asserts::{assert_same, assert_that_at};
use crate::samples::{del, key, key_of, put, put_of, value};
use crate::stops::calls_of;
use crate::stores::{File, check_reply, fresh, make, smallest, work, write};
use blsm_model::{Annals, Geometry, Op, Row, ShortReply, Totals};
use disk_mem::MemDisk;
use std::alloc::Global;
use std::process::Abort;
use tree_core::Core;
use tree_machine::Kind;

// Two puts are merged down, and held; then one is put again, the other one deleted, and both are merged down.
fn hold_over_merges(rt: &impl Abort, alloc: Global, core: &mut Core<MemDisk>) {
    write(alloc, core, 0, put(rt, b"a", 1, b""));
    write(alloc, core, 0, put(rt, b"b", 2, b""));
    work(alloc, core, 1_000);
    make(alloc, core, 0, Kind::Hold(key(rt, b"a"), key(rt, b"c")));
    write(alloc, core, 0, put(rt, b"a", 9, b""));
    write(alloc, core, 0, del(rt, b"b"));
    work(alloc, core, 1_000);
}

// The rows are read to their end, and dropped.
fn read_and_drop(rt: &impl Abort, alloc: Global, core: &mut Core<MemDisk>) {
    make(alloc, core, 0, Kind::Next(32));
    make(alloc, core, 0, Kind::Next(32));
    make(alloc, core, 0, Kind::Look(Op::Get(key(rt, b"b"))));
    make(alloc, core, 0, Kind::Release);
    make(alloc, core, 0, Kind::Next(1));
}

// What the commands before the rows were told: two of each, and works of six turns.
fn check_merges(rt: &impl Abort, annals: &Annals) {
    for place in [0, 1, 4, 5] {
        check_reply(rt, annals, place, &ShortReply::Done);
    }
    for place in [2, 6] {
        check_reply(rt, annals, place, &ShortReply::Did(6));
    }
    check_reply(rt, annals, 3, &ShortReply::Held);
}

// What the commands behind the rows were told.
fn check_end(rt: &impl Abort, annals: &Annals) {
    check_reply(rt, annals, 9, &ShortReply::Absent);
    check_reply(rt, annals, 10, &ShortReply::Done);
    check_reply(rt, annals, 11, &ShortReply::NoHold);
}

fn row(rt: &impl Abort, name: &[u8], count: u64) -> Row {
    Row {
        key: key(rt, name),
        value: value(rt, count, b""),
    }
}

// The rows of an entry are these.
fn check_rows(rt: &impl Abort, annals: &Annals, place: u32, rows: &[Row]) {
    assert!(rt; (place as usize) < annals.len());
    assert_that_at(rt, annals.short_reply(place).is_none(), place);
    assert_that_at(rt, annals.rows(place) == rows, place);
}

// The first next gave a and b, as they were held, and the second none.
fn check_held(rt: &impl Abort, annals: &Annals) {
    assert_same(rt, annals.len(), 12);
    check_rows(rt, annals, 7, &[row(rt, b"a", 1), row(rt, b"b", 2)]);
    check_rows(rt, annals, 8, &[]);
}

fn check_totals(rt: &impl Abort, totals: &Totals) {
    assert_same(rt, (totals.peak, totals.callers), (28, 4));
    assert_same(rt, (totals.passes, totals.deeps), (2, 2));
}

// A hold keeps the rows of its moment over writes and merges.
#[test]
fn a_hold_lasts_over_merges(rt: HostRuntime) {
    let mut core = fresh(&rt, rt.alloc(), Geometry::default());
    hold_over_merges(&rt, rt.alloc(), &mut core);
    read_and_drop(&rt, rt.alloc(), &mut core);
    let (_, annals, totals) = core.end();
    check_merges(&rt, &annals);
    check_end(&rt, &annals);
    check_held(&rt, &annals);
    check_totals(&rt, &totals);
}

// How many keys a store has, and the number from which on the last hundredth of them stands.
const KEYS: usize = 200;

const LAST: usize = 198;

// A store whose keys were put in another order than theirs, 512 bytes each, and merged down as the writes paid.
fn filled(rt: &impl Abort, alloc: Global) -> Core<MemDisk> {
    let mut core = fresh(rt, alloc, smallest(rt));
    for number in 0..KEYS {
        let op = put_of(rt, number.saturating_mul(77) % KEYS);
        write(alloc, &mut core, 0, op);
    }
    core
}

// The row of the put of a number.
fn row_of(rt: &impl Abort, number: usize) -> Row {
    Row {
        key: key_of(rt, number.saturating_mul(5).saturating_add(4)),
        value: value(rt, 0, &[b'x'; 435]),
    }
}

// Caller 1 holds the last hundredth of the keys.
fn last_held(rt: &impl Abort, alloc: Global) -> Core<MemDisk> {
    let mut core = filled(rt, alloc);
    let low = row_of(rt, LAST).key;
    make(alloc, &mut core, 1, Kind::Hold(low, key_of(rt, 4_095)));
    core
}

// Its rows are the last entry's.
fn check_last(rt: &impl Abort, annals: &Annals) {
    let rows = [row_of(rt, LAST), row_of(rt, LAST.saturating_add(1))];
    let place = (annals.len() as u32).saturating_sub(1);
    check_rows(rt, annals, place, &rows);
}

// The components have twenty pages at least.
fn check_pages(rt: &impl Abort, disk: MemDisk) {
    let now = File::over(rt, smallest(rt), disk).newest(rt);
    let mut all = 0u32;
    for run in [now.c1, now.c1x, now.c2] {
        all = all.saturating_add(run.pages);
    }
    assert!(rt; all >= 20, "{all} pages");
}

// How many calls the disk has had when the last hundredth is held.
fn calls_before(rt: &impl Abort, alloc: Global) -> u64 {
    let (disk, _, _) = last_held(rt, alloc).end();
    calls_of(disk)
}

// And when its rows are read.
fn calls_behind(rt: &impl Abort, alloc: Global) -> u64 {
    let mut core = last_held(rt, alloc);
    make(alloc, &mut core, 1, Kind::Next(32));
    let (disk, annals, _) = core.end();
    check_last(rt, &annals);
    calls_of(disk)
}

// A hold begins at its low key's page of each component, so a first next in the last hundredth of the keys reads nine pages at most.
#[test]
fn a_hold_of_the_last_keys_reads_few_pages(rt: HostRuntime) {
    let (disk, _, _) = last_held(&rt, rt.alloc()).end();
    check_pages(&rt, disk);
    let before = calls_before(&rt, rt.alloc());
    let behind = calls_behind(&rt, rt.alloc());
    let calls = behind.saturating_sub(before);
    assert!(rt; 0 < calls && calls <= 9, "{calls} calls");
}
