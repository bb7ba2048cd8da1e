// What passes have written, a deep merge settles.
use crate::asserts::{assert_same, assert_that};
use crate::helpers::{File, Memory, Merged, Store};
use blsm_model::{Component, Key, Text, Value};
use page_space::Role;
use record_delta::Rec;
use run_cursor::Cursor;
use std::alloc::Global;
use std::process::Abort;

fn key(rt: &impl Abort, bytes: &[u8]) -> Key {
    Key::from_bytes(bytes).expect(rt, "a key")
}

fn base(rt: &impl Abort, count: u64, text: &[u8]) -> Rec {
    Rec::Base(Value {
        count,
        text: Text::from_bytes(text).expect(rt, "a text"),
    })
}

// A table of two records.
fn table_of(rt: &impl Abort, alloc: Global, first: (&[u8], Rec), second: (&[u8], Rec)) -> Memory {
    let mut memory = Memory::reserve(rt, alloc);
    memory.fold_in(rt, &key(rt, first.0), &first.1);
    memory.fold_in(rt, &key(rt, second.0), &second.1);
    memory
}

// What a pass writes of x and z is merged with what one writes of x and y.
fn merge_two(rt: &impl Abort, alloc: Global) -> (Store, Merged) {
    let old_x = base(rt, 100, b"old");
    let old_z = base(rt, 1, b"");
    let mut older = table_of(rt, alloc, (b"x", old_x), (b"z", old_z));
    let mut newer = table_of(rt, alloc, (b"x", Rec::Tomb), (b"y", Rec::added(4)));
    let store = Store::blank(rt, alloc, 1_024);
    let (store, c2) = store.pass_alone(rt, alloc, Role::new(2), &mut older);
    let (store, c1x) = store.pass_alone(rt, alloc, Role::new(1), &mut newer);
    store.deep(rt, alloc, &c1x, &c2, Role::new(4))
}

// A run has these two entries, y and z, as bases.
fn has_two(rt: &impl Abort, file: &mut File, run: &Component, y: Rec, z: Rec) {
    assert_that(rt, run.pages != 0);
    let mut cursor = Cursor::start(run);
    file.goes_on(rt, &mut cursor, key(rt, b"y"), y);
    file.goes_on(rt, &mut cursor, key(rt, b"z"), z);
    file.is_at_end(rt, &mut cursor);
}

// A tombstone of x and 4 more for y, over x and z: y and z are left, as bases.
#[test]
fn a_tombstone_and_a_delta_over_two_bases(rt: HostRuntime) {
    let (mut store, merged) = merge_two(&rt, rt.alloc());
    let run = merged.run.expect(&rt, "no fault");
    // Records of 14 and 17 bytes of x, and of 14 each of y and z.
    assert_eq!(rt; merged.quanta.len(), 1);
    assert_that(
        &rt,
        merged.quanta[0] == (14 + 14 + 17 + 14, Some(key(&rt, b"z"))),
    );
    assert_same(&rt, (run.pages, run.entries, run.weight), (1, 2, 28));
    let y = base(&rt, 4, b"");
    let z = base(&rt, 1, b"");
    has_two(&rt, &mut store.file, &run, y, z);
}
