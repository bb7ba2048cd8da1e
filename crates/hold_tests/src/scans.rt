// A hold that is read in parts: which pages each part of it reads.
use crate::asserts::{assert_same, assert_same_at, assert_that};
use crate::holds::{TEXT, Tree, gives, is_row, map_of, page_of};
use crate::store::{Store, table_of};
use blsm_model::{Component, Row};
use disk_trait::Disk;
use page_file::{Broken, no_component};
use scan_view::Hold;
use std::alloc::Global;
use std::process::Abort;

// A C1 of four pages with nine entries each.
fn make_wide(rt: &impl Abort, alloc: Global, store: &mut Store) -> Component {
    let a = page_of(rt, alloc, b'a');
    let b = page_of(rt, alloc, b'b');
    let c = page_of(rt, alloc, b'c');
    let d = page_of(rt, alloc, b'd');
    let pages = [
        (7, a.as_slice()),
        (4, b.as_slice()),
        (12, c.as_slice()),
        (9, d.as_slice()),
    ];
    store.write(rt, &pages)
}

fn wide_tree(rt: &impl Abort, alloc: Global, store: &mut Store) -> Tree {
    Tree {
        a: table_of(rt, alloc, &[]),
        b: table_of(rt, alloc, &[]),
        c1: make_wide(rt, alloc, store),
        c1x: no_component(),
        c2: no_component(),
    }
}

// A hold of its 36 rows. Five calls wrote the store, so its first read is call 6.
fn wide(rt: &impl Abort, alloc: Global, store: &mut Store) -> Hold {
    let tree = wide_tree(rt, alloc, store);
    let mut space = map_of(rt, alloc, &[(0, 7), (0, 4), (0, 12), (0, 9)]);
    tree.hold(rt, alloc, &mut space, b"a", b"e")
}

// The rows are those from this number on. It answers the next number.
fn are_from(rt: &impl Abort, rows: &[Row], from: u8) -> u8 {
    let mut number = from;
    for row in rows {
        let letter = b'a'.saturating_add(number / 9);
        let count = number % 9;
        is_row(rt, row, (&[letter, count], u64::from(count), &TEXT));
        number = number.saturating_add(1);
    }
    number
}

// How far a hold gave its rows, eight at a time, and what broke.
#[derive(Clone, Copy)]
struct Read {
    number: u8,
    broken: Option<Broken>,
}

fn read_on(rt: &impl Abort, store: &mut Store, hold: &mut Hold, from: u8) -> Read {
    let mut number = from;
    for _ in 0..5u8 {
        if let Err(broken) = store.next(rt, hold, 8) {
            return Read {
                number,
                broken: Some(broken),
            };
        }
        number = are_from(rt, store.room.as_slice(), number);
    }
    Read {
        number,
        broken: None,
    }
}

// The hold gives the rows from this number to the last one.
fn reads_all(rt: &impl Abort, store: &mut Store, hold: &mut Hold, from: u8) {
    let read = read_on(rt, store, hold, from);
    assert_same(rt, read.broken, None);
    assert_same(rt, read.number, 36);
}

// At the end, and of no rows, nothing is read.
fn reads_nothing(rt: &impl Abort, store: &mut Store, hold: &mut Hold) {
    gives(rt, store, hold, 32, &[]);
    gives(rt, store, hold, 0, &[]);
    gives(rt, store, hold, 32, &[]);
}

#[test]
fn each_page_is_read_once_and_once_more_a_next(rt: HostRuntime) {
    let mut store = Store::blank(&rt, rt.alloc());
    let mut hold = wide(&rt, rt.alloc(), &mut store);
    // Four pages, and each of four times eight rows ends within one, which is read again.
    store.disk.stop_after(13);
    gives(&rt, &mut store, &mut hold, 0, &[]);
    reads_all(&rt, &mut store, &mut hold, 0);
    reads_nothing(&rt, &mut store, &mut hold);
    assert_that(&rt, store.disk.read(0, &mut [0]).is_err());
}

// A fault at one of its reads: the next part is the one that failed.
fn reads_over_a_fault(rt: &impl Abort, alloc: Global, call: u64) {
    let mut store = Store::blank(rt, alloc);
    let mut hold = wide(rt, alloc, &mut store);
    assert_that(rt, store.disk.fail(call).is_ok());
    let read = read_on(rt, &mut store, &mut hold, 0);
    assert_same_at(rt, read.broken, Some(Broken::Fault), call);
    reads_all(rt, &mut store, &mut hold, read.number);
}

#[test]
fn a_fault_at_each_read_of_a_scan(rt: HostRuntime) {
    for call in 6..14u64 {
        reads_over_a_fault(&rt, rt.alloc(), call);
    }
}

// Where the length of a page's entries stands in the file.
fn used_at(page: u32) -> u64 {
    212_994 + u64::from(page) * 4_096
}

// Sixteen rows were given, by three calls, and the place is in the second page: how the hold reads on where this page is changed.
fn reads_on_where_changed(rt: &impl Abort, alloc: Global, page: u32) -> Read {
    let mut store = Store::blank(rt, alloc);
    let mut hold = wide(rt, alloc, &mut store);
    assert_that(rt, store.disk.poke(9, used_at(page), &[0xff]).is_ok());
    assert_that(rt, store.next(rt, &mut hold, 8).is_ok());
    assert_that(rt, store.next(rt, &mut hold, 8).is_ok());
    let number = are_from(rt, store.room.as_slice(), 8);
    read_on(rt, &mut store, &mut hold, number)
}

#[test]
fn a_page_changed_behind_the_place_and_ahead(rt: HostRuntime) {
    let cases = [
        (7, 36, None),
        (4, 16, Some(Broken::Damaged(4))),
        (12, 16, Some(Broken::Damaged(12))),
        (9, 24, Some(Broken::Damaged(9))),
    ];
    for (page, number, broken) in cases {
        let read = reads_on_where_changed(&rt, rt.alloc(), page);
        assert_same_at(&rt, read.number, number, page);
        assert_same_at(&rt, read.broken, broken, page);
    }
}
