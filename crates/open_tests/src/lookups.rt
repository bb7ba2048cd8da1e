// A store of more than a hundred pages is opened again and read whole by gets alone, whose calls of the disk are counted.
use crate::asserts::{assert_same, assert_that, assert_that_at};
use crate::maps::told_at;
use crate::samples::value;
use crate::stops::calls_of;
use crate::stores::{geometry, made, make, open, report, work, write};
use blsm_model::{Annals, CALLERS, Geometry, Key, Op, Text, Value};
use disk_mem::MemDisk;
use page_file::no_component;
use std::alloc::Global;
use std::process::Abort;
use tree_core::Core;
use tree_machine::Kind;

// How many keys there are.
const KEYS: usize = 1_000;

// How many of them, the first ones, were added to since all were merged into C2.
const CHANGED: usize = 100;

// What was added to them.
const MORE: u64 = 5_000;

// The last byte of the keys that are there, and of as many between them that aren't.
const PRESENT: u8 = b'a';

const ABSENT: u8 = b'b';

// The key of a number with this last byte. Keys are in the order of their numbers.
fn wide_key(rt: &impl Abort, number: usize, last: u8) -> Key {
    let number = u16::try_from(number).expect(rt, "a number");
    let [high, low] = number.to_be_bytes();
    Key::from_bytes(&[b'w', high, low, last]).expect(rt, "a key")
}

// Callers take turns, since each may note so many entries.
fn seat_of(number: usize) -> u32 {
    (number % CALLERS as usize) as u32
}

// Puts each key, with its number and the longest text, and merges all into C2.
fn fill_c2(rt: &impl Abort, alloc: Global, core: &mut Core<MemDisk>) {
    for number in 0..KEYS {
        let put = Op::Put(
            wide_key(rt, number, PRESENT),
            value(rt, number as u64, Text::MAX_LEN),
        );
        write(alloc, core, seat_of(number), put);
    }
    work(alloc, core, 1_000);
}

// Adds to the first keys. Their deltas stay in a log's lane, from which an opening makes C1.
fn change_first(rt: &impl Abort, alloc: Global, core: &mut Core<MemDisk>) {
    for number in 0..CHANGED {
        let add = Op::Add(wide_key(rt, number, PRESENT), MORE);
        write(alloc, core, seat_of(number), add);
    }
}

// All keys are in C2, on more than a hundred pages, and those that were changed in a lane.
fn check_wide(rt: &impl Abort, alloc: Global, disk: &mut MemDisk) {
    let found = report(rt, alloc, disk);
    assert_same(rt, (found.c1, found.c1x), (no_component(), no_component()));
    assert_same(rt, found.c2.entries, KEYS as u64);
    assert!(rt; 100 < found.c2.pages, "{} pages", found.c2.pages);
    assert_same(
        rt,
        found.lane_a.saturating_add(found.lane_b),
        CHANGED as u64,
    );
}

// The disk of the store, behind the calls that made it. An image of it would take long, since each sync among them copies the file.
fn make_wide(rt: &impl Abort, alloc: Global) -> MemDisk {
    let geo = geometry(rt, Geometry::MIN_HALF, 4, 16_384, 4_096);
    let mut core = open(rt, alloc, made(rt, alloc, &geo));
    fill_c2(rt, alloc, &mut core);
    change_first(rt, alloc, &mut core);
    let (mut disk, _, totals) = core.end();
    assert_that(rt, totals.stopped.is_none());
    check_wide(rt, alloc, &mut disk);
    disk
}

// Opens the store and gets the first keys with this last byte, so many. Answers what was noted, and how many calls its disk had in all.
fn get_first(rt: &impl Abort, alloc: Global, keys: usize, last: u8) -> (Annals, u64) {
    let mut core = open(rt, alloc, make_wide(rt, alloc));
    for number in 0..keys {
        make(
            alloc,
            &mut core,
            seat_of(number),
            Kind::Look(Op::Get(wide_key(rt, number, last))),
        );
    }
    let (disk, annals, _) = core.end();
    assert_same(rt, annals.len(), keys);
    (annals, calls_of(disk))
}

// Gets all keys with this last byte. Answers what was noted, and how many calls of the disk the gets took.
fn get_all(rt: &impl Abort, alloc: Global, last: u8) -> (Annals, u64) {
    let (_, before) = get_first(rt, alloc, 0, last);
    let (annals, calls) = get_first(rt, alloc, KEYS, last);
    (annals, calls.saturating_sub(before))
}

// The value that a key has.
fn value_of(rt: &impl Abort, number: usize) -> Value {
    let more = if number < CHANGED { MORE } else { 0 };
    value(rt, more.saturating_add(number as u64), Text::MAX_LEN)
}

// A base in C2 alone takes one call, and a delta in C1 over one two.
#[test]
fn each_key_is_got_by_a_read_of_one_page_a_component(rt: HostRuntime) {
    let alloc = rt.alloc();
    let (annals, calls) = get_all(&rt, alloc, PRESENT);
    for number in 0..KEYS {
        let found = told_at(&rt, &annals, number as u32);
        assert_that_at(&rt, found == Some(value_of(&rt, number)), number);
    }
    assert_same(&rt, calls, (KEYS + CHANGED) as u64);
}

// The filters say no, but for one key in a hundred at most.
#[test]
fn keys_between_them_are_absent_by_the_filters(rt: HostRuntime) {
    let alloc = rt.alloc();
    let (annals, calls) = get_all(&rt, alloc, ABSENT);
    for number in 0..KEYS {
        assert_that_at(&rt, told_at(&rt, &annals, number as u32).is_none(), number);
    }
    assert!(rt; calls < 10, "{calls} calls");
}
