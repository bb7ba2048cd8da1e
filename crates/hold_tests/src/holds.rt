// Holds over two tables and three components.
ghost use Rattle.std.specs.Prelude.{◌≡◌};
ghost use Rattle.blsm_model.specs.Components.{empty_component};

use crate::asserts::{assert_same, assert_same_at, assert_that};
use crate::store::{Entry, Store, base, key, put, table_of};
use blsm_model::{Component, Row};
use mem_table::Table;
use page_file::{Broken, no_component};
use page_space::{Role, Space};
use record_delta::Rec;
use scan_view::Hold;
use std::alloc::Global;
use std::process::Abort;

// The roles of C1, C1' and C2.
const ROLES: [u8; 3] = [0, 1, 2];

/// A row as it is written down: a key, a count and a text.
pub type Written<'a> = (&'a [u8], u64, &'a [u8]);

/// The row is this one.
pub fn is_row(rt: &impl Abort, row: &Row, (key, count, text): Written) {
    assert_that(rt, row.key.as_bytes() == key);
    assert_same(rt, row.value.count, count);
    assert_that(rt, row.value.text.as_bytes() == text);
}

fn are_rows(rt: &impl Abort, found: &[Row], rows: &[Written]) {
    assert_same(rt, found.len(), rows.len());
    for (row, written) in found.iter().zip(rows) {
        is_row(rt, row, *written);
    }
}

/// A hold gives these rows.
pub fn gives(rt: &impl Abort, store: &mut Store, hold: &mut Hold, n: u32, rows: &[Written]) {
    assert_that(rt, store.next(rt, hold, n).is_ok());
    are_rows(rt, store.room.as_slice(), rows);
}

// Or it breaks.
fn breaks(rt: &impl Abort, store: &mut Store, hold: &mut Hold, n: u32, broken: Broken) {
    assert_same(rt, store.next(rt, hold, n).err(), Some(broken));
}

fn claim(rt: &impl Abort, space: &mut Space, role: u8, page: u32) {
    assert!(rt; role < 5 && page < space.pages());
    space.claim(Role::new(role), page);
}

/// A free-page map in which each component's pages have its role.
pub fn map_of(rt: &impl Abort, alloc: Global, pages: &[(u8, u32)]) -> Space {
    let mut space = Space::reserve(alloc, 798).expect(rt, "memory");
    for (role, page) in pages {
        claim(rt, &mut space, *role, *page);
    }
    space
}

/// What a hold is made over.
#[derive(Drop)]
pub struct Tree {
    pub a: Table,
    pub b: Table,
    pub c1: Component,
    pub c1x: Component,
    pub c2: Component,
    ghost reserved: { b.reserved ≡ 65536 },
}

fn is_component(rt: &impl Abort, run: &Component)
    ensures { run.now.pages ≡ 0 → run.now ≡ empty_component }
{
    assert_that(rt, run.pages != 0 || *run == no_component());
}

impl Tree {
    /// A hold of the rows from low on, without high.
    pub fn hold(
        &self,
        rt: &impl Abort,
        alloc: Global,
        space: &mut Space,
        low: &[u8],
        high: &[u8],
    ) -> Hold {
        is_component(rt, &self.c1);
        is_component(rt, &self.c1x);
        is_component(rt, &self.c2);
        let hold = Hold::build(
            alloc,
            &key(rt, low),
            &key(rt, high),
            &self.a,
            &self.b,
            &no_component(),
            &None,
            &self.c1,
            &self.c1x,
            &self.c2,
        )
        .expect(rt, "memory");
        let [c1, c1x, c2] = ROLES;
        space.pin(3, Role::new(c1), Role::new(c1x), Role::new(c2));
        hold
    }
}

// Tables that have records of some keys.
fn table_a(rt: &impl Abort, alloc: Global) -> Table {
    let entries = [
        (key(rt, b"d"), base(rt, 10, b"x")),
        (key(rt, b"e"), Rec::added(1)),
        (key(rt, b"b"), Rec::added(3)),
    ];
    table_of(rt, alloc, &entries)
}

fn table_b(rt: &impl Abort, alloc: Global) -> Table
    ensures { result.reserved ≡ 65536 }
{
    let entries = [(key(rt, b"b"), Rec::Tomb), (key(rt, b"d"), Rec::added(5))];
    table_of(rt, alloc, &entries)
}

// Components, each of one page.
fn make_c1(rt: &impl Abort, store: &mut Store) -> Component {
    let entries = [
        (key(rt, b"a"), base(rt, 1, b"")),
        (key(rt, b"g"), Rec::Tomb),
    ];
    store.write(rt, &[(5, entries.as_slice())])
}

fn make_c1x(rt: &impl Abort, store: &mut Store) -> Component {
    let entries = [
        (key(rt, b"b"), base(rt, 2, b"")),
        (key(rt, b"e"), base(rt, 7, b"t")),
    ];
    store.write(rt, &[(2, entries.as_slice())])
}

fn named(rt: &impl Abort, name: &[u8], count: u64, text: &[u8]) -> Entry {
    (key(rt, name), base(rt, count, text))
}

fn make_c2(rt: &impl Abort, store: &mut Store) -> Component {
    let entries = [
        named(rt, b"a", 9, b"old"),
        named(rt, b"c", 3, b""),
        named(rt, b"f", 4, b""),
        named(rt, b"g", 6, b""),
        named(rt, b"h", 8, b""),
    ];
    store.write(rt, &[(9, entries.as_slice())])
}

// Tables and components that have each kind of record over each other.
fn make_tree(rt: &impl Abort, alloc: Global, store: &mut Store) -> Tree {
    Tree {
        a: table_a(rt, alloc),
        b: table_b(rt, alloc),
        c1: make_c1(rt, store),
        c1x: make_c1x(rt, store),
        c2: make_c2(rt, store),
    }
}

const PAGES: [(u8, u32); 3] = [(0, 5), (1, 2), (2, 9)];

// Pages lose their tags, and aren't given while they are pinned.
fn release_all(rt: &impl Abort, space: &mut Space) {
    for role in ROLES {
        assert!(rt; role < Role::COUNT);
        space.release(Role::new(role));
    }
    assert_that(rt, space.pages() == 798);
    for (page, free) in [(2, false), (5, false), (9, false), (3, true)] {
        assert!(rt; page < space.pages());
        assert_same_at(rt, space.is_free(page), free, page);
    }
}

fn delete_c(rt: &impl Abort, tree: &mut Tree) {
    put(rt, &mut tree.b, &key(rt, b"c"), &Rec::Tomb);
}

#[test]
fn rows_of_the_moment(rt: HostRuntime) {
    let mut store = Store::blank(&rt, rt.alloc());
    let mut tree = make_tree(&rt, rt.alloc(), &mut store);
    let mut space = map_of(&rt, rt.alloc(), &PAGES);
    let mut hold = tree.hold(&rt, rt.alloc(), &mut space, b"a", b"h");
    release_all(&rt, &mut space);
    // What is written later isn't seen.
    delete_c(&rt, &mut tree);
    gives(
        &rt,
        &mut store,
        &mut hold,
        2,
        &[(b"a", 1, b""), (b"c", 3, b"")],
    );
    gives(&rt, &mut store, &mut hold, 0, &[]);
    let others: [Written; 3] = [(b"d", 15, b"x"), (b"e", 8, b"t"), (b"f", 4, b"")];
    gives(&rt, &mut store, &mut hold, 32, &others);
    gives(&rt, &mut store, &mut hold, 32, &[]);
}

// A hold over the tree of all kinds, between these keys.
fn held(rt: &impl Abort, alloc: Global, store: &mut Store, low: &[u8], high: &[u8]) -> Hold {
    let tree = make_tree(rt, alloc, store);
    let mut space = map_of(rt, alloc, &PAGES);
    tree.hold(rt, alloc, &mut space, low, high)
}

#[test]
fn the_place_stays_after_an_error(rt: HostRuntime) {
    let mut store = Store::blank(&rt, rt.alloc());
    let mut hold = held(&rt, rt.alloc(), &mut store, b"b", b"z");
    gives(&rt, &mut store, &mut hold, 1, &[(b"c", 3, b"")]);
    // Four calls wrote the store, and three read; the ninth is the second read of a page.
    assert_that(&rt, store.disk.fail(9).is_ok());
    breaks(&rt, &mut store, &mut hold, 32, Broken::Fault);
    let rest: [Written; 4] = [
        (b"d", 15, b"x"),
        (b"e", 8, b"t"),
        (b"f", 4, b""),
        (b"h", 8, b""),
    ];
    gives(&rt, &mut store, &mut hold, 32, &rest);
}

// Where the length of page 9's entries stands in the file.
const USED: u64 = 212_992 + 9 * 4_096 + 2;

#[test]
fn the_place_stays_where_a_page_is_damaged(rt: HostRuntime) {
    let mut store = Store::blank(&rt, rt.alloc());
    let mut hold = held(&rt, rt.alloc(), &mut store, b"c", b"f");
    gives(&rt, &mut store, &mut hold, 1, &[(b"c", 3, b"")]);
    // Calls 8 to 10 read the three pages, and calls 11 to 13 do again.
    assert_that(&rt, store.disk.poke(8, USED, &[0xff]).is_ok());
    assert_that(&rt, store.disk.poke(11, USED, &[0]).is_ok());
    breaks(&rt, &mut store, &mut hold, 1, Broken::Damaged(9));
    gives(&rt, &mut store, &mut hold, 1, &[(b"d", 15, b"x")]);
}

/// The text of long entries.
pub const TEXT: [u8; 435] = [b't'; 435];

/// Nine long entries, which fill a page, of keys that begin with this letter.
pub fn page_of(rt: &impl Abort, alloc: Global, letter: u8) -> Vec<Entry> {
    let mut entries = Vec::new(alloc);
    for number in 0..9u8 {
        let entry = named(rt, &[letter, number], u64::from(number), &TEXT);
        assert_that(rt, entries.push(entry).is_ok());
    }
    entries
}

// A C1 of two pages: the long entries, and three short ones.
fn make_long(rt: &impl Abort, alloc: Global, store: &mut Store) -> Component {
    let front = page_of(rt, alloc, b'a');
    let back = [
        (key(rt, b"b"), Rec::added(11)),
        (key(rt, b"c"), Rec::Tomb),
        (key(rt, b"d"), base(rt, 12, b"")),
    ];
    store.write(rt, &[(7, front.as_slice()), (4, back.as_slice())])
}

fn long_tree(rt: &impl Abort, alloc: Global, store: &mut Store) -> Tree {
    Tree {
        a: table_of(rt, alloc, &[]),
        b: table_of(rt, alloc, &[]),
        c1: make_long(rt, alloc, store),
        c1x: no_component(),
        c2: no_component(),
    }
}

#[test]
fn pages_one_after_the_other(rt: HostRuntime) {
    let mut store = Store::blank(&rt, rt.alloc());
    let tree = long_tree(&rt, rt.alloc(), &mut store);
    let mut space = map_of(&rt, rt.alloc(), &[(0, 7), (0, 4)]);
    let mut none = tree.hold(&rt, rt.alloc(), &mut space, b"d", b"a");
    gives(&rt, &mut store, &mut none, 32, &[]);
    let mut hold = tree.hold(&rt, rt.alloc(), &mut space, &[b'a', 7], b"e");
    let rows: [Written; 4] = [
        (&[b'a', 7], 7, &TEXT),
        (&[b'a', 8], 8, &TEXT),
        (b"b", 11, b""),
        (b"d", 12, b""),
    ];
    gives(&rt, &mut store, &mut hold, 32, &rows);
}

// The long entries' page as a front: it names page 4 as the next one, which isn't the front's.
fn make_front(rt: &impl Abort, alloc: Global, store: &mut Store) -> Component {
    let back = [(key(rt, b"b"), Rec::added(11))];
    let open = store.write(rt, &[(4, back.as_slice())]);
    let entries = page_of(rt, alloc, b'a');
    let whole = store.write(rt, &[(7, entries.as_slice()), (4, back.as_slice())]);
    assert!(rt; whole.entries >= open.entries && whole.weight >= open.weight);
    Component {
        first: 7,
        pages: 1,
        entries: whole.entries - open.entries,
        weight: whole.weight - open.weight,
    }
}

#[test]
fn a_front_and_what_is_behind_it(rt: HostRuntime) {
    let mut store = Store::blank(&rt, rt.alloc());
    let front = make_front(&rt, rt.alloc(), &mut store);
    // The first of C1's entries isn't above the released key.
    let behind = [named(&rt, &[b'a', 7], 99, b""), named(&rt, b"b", 1, b"")];
    let c1 = store.write(&rt, &[(5, behind.as_slice())]);
    is_component(&rt, &front);
    is_component(&rt, &c1);
    let none = table_of(&rt, rt.alloc(), &[]);
    let mut hold = Hold::build(
        rt.alloc(),
        &key(&rt, &[b'a', 7]),
        &key(&rt, b"z"),
        &none,
        &none,
        &front,
        &Some(key(&rt, &[b'a', 8])),
        &c1,
        &no_component(),
        &no_component(),
    )
    .expect(&rt, "memory");
    gives(&rt, &mut store, &mut hold, 1, &[(&[b'a', 7], 7, &TEXT)]);
    let rest: [Written; 2] = [(&[b'a', 8], 8, &TEXT), (b"b", 1, b"")];
    gives(&rt, &mut store, &mut hold, 32, &rest);
    gives(&rt, &mut store, &mut hold, 32, &[]);
}

// How many records of two-byte keys a table of the default size has room for: each weighs 15 of its 65,536 bytes.
const FULL: u16 = 4_369;

// A table that has no room for any more.
fn full_table(rt: &impl Abort, alloc: Global) -> Table
    ensures { result.reserved ≡ 65536 }
{
    let mut table = table_of(rt, alloc, &[]);
    for number in 0..FULL {
        let rec = base(rt, u64::from(number), b"");
        put(rt, &mut table, &key(rt, &number.to_be_bytes()), &rec);
    }
    assert_same(rt, table.weight(), 65_535);
    table
}

fn full_tree(rt: &impl Abort, alloc: Global) -> Tree {
    Tree {
        a: table_of(rt, alloc, &[]),
        b: full_table(rt, alloc),
        c1: no_component(),
        c1x: no_component(),
        c2: no_component(),
    }
}

// The rows are those of the numbers from this one on. It answers the next number.
fn are_numbers(rt: &impl Abort, rows: &[Row], from: u16) -> u16 {
    let mut number = from;
    for row in rows {
        is_row(rt, row, (&number.to_be_bytes(), u64::from(number), b""));
        number = number.saturating_add(1);
    }
    number
}

// The hold gives all numbers, 32 at a time, and then none.
fn gives_numbers(rt: &impl Abort, store: &mut Store, hold: &mut Hold) {
    let mut number = 0;
    for _ in 0..137u8 {
        assert_that(rt, store.next(rt, hold, 32).is_ok());
        number = are_numbers(rt, store.room.as_slice(), number);
    }
    assert_same(rt, number, FULL);
    gives(rt, store, hold, 32, &[]);
}

#[test]
fn a_hold_over_a_full_table(rt: HostRuntime) {
    let mut store = Store::blank(&rt, rt.alloc());
    let tree = full_tree(&rt, rt.alloc());
    let mut space = map_of(&rt, rt.alloc(), &[]);
    let mut hold = tree.hold(&rt, rt.alloc(), &mut space, &[0], &[0xff]);
    gives_numbers(&rt, &mut store, &mut hold);
}
