// The memory table, beside the list of the writes.
ghost use Rattle.std.specs.Prelude.{◌≡◌, ◌<◌, ◌≤◌};
ghost use Rattle.record_delta.specs.Entries.{is_above};

use crate::asserts::{assert_same, assert_that};
use crate::samples::{all_fit, base, fits, key, value};
use blsm_model::{Key, Text, Value, Write, value_of};
use mem_table::{Above, Steps, Table};
use record_delta::{Rec, Stream, fold_writes, settle, weight};
use std::alloc::Global;
use std::marker::Brand;
use std::process::Abort;
use std::sync::ledger::{Blank, Ledger};

/// How much a table of these tests may weigh, in bytes.
pub const RESERVED: u64 = 65_536;

/// Knuth's linear congruential generator.
#[derive(Drop)]
pub struct Draws(pub u64);

impl Draws {
    fn below(&mut self, limit: u64) -> u64
        requires { 0 < limit }
        ensures { result < limit }
    {
        self.0 = self
            .0
            .wrapping_mul(6_364_136_223_846_793_005)
            .wrapping_add(1_442_695_040_888_963_407);
        (self.0 >> 33) % limit
    }
}

// One of 84 keys of one to three letters, so that some begin others.
fn any_key(rt: &impl Abort, draws: &mut Draws) -> Key {
    let mut letters = [0; 3];
    for letter in letters.iter_mut() {
        *letter = b'a' + draws.below(4) as u8;
    }
    let len = 1 + draws.below(3) as usize;
    key(rt, letters.get(..len).expect(rt, "so many"))
}

// A tail of 1 to 64 times one letter.
fn any_tail(rt: &impl Abort, draws: &mut Draws, key: Key) -> Write {
    let letter = b'a'.wrapping_add(draws.below(26) as u8);
    let len = 1 + draws.below(Text::MAX_TAIL as u64) as usize;
    let bytes = [letter; Text::MAX_TAIL];
    let tail = bytes.get(..len).expect(rt, "so many");
    Write::Tail(key, Text::from_bytes(tail).expect(rt, "a text"))
}

/// Of twelve six are puts, three adds, two tails and one a del. Sums of counts wrap often.
pub fn any_write(rt: &impl Abort, draws: &mut Draws) -> Write {
    let key = any_key(rt, draws);
    let count = draws.below(3) * (u64::MAX / 3) + draws.below(100);
    match draws.below(12) {
        0..=5 => {
            let len = draws.below(300) as usize;
            Write::Put(
                key,
                value(rt, count, [b't'; 300].get(..len).expect(rt, "so many")),
            )
        }
        6..=8 => Write::Add(key, count),
        9..=10 => any_tail(rt, draws, key),
        _ => Write::Del(key),
    }
}

/// Whether a key is above the one up to which the table was dropped.
pub fn is_free(table: &Table, key: &Key) -> bool
    ensures { result ≡ is_above table.now.floor key.now }
{
    match table.floor() {
        Some(floor) => floor < key,
        None => true,
    }
}

/// Folds a record into a table of this weight that has room for it.
pub fn fold_within(rt: &impl Abort, table: &mut Table, room: u64, key: &Key, rec: &Rec)
    requires reserved { table.old.reserved ≡ room }
    requires small { room ≤ RESERVED }
    ensures { table.new.reserved ≡ room }
{
    assert_that(rt, is_free(table, key));
    assert!(rt; table.weight() + table.dropped() + weight(key, rec) <= room);
    table.fold_in(key, rec);
}

// Folds a write into a table that has room for it.
fn fold_in(rt: &impl Abort, table: &mut Table, key: &Key, rec: &Rec)
    requires { table.old.reserved ≡ RESERVED }
    ensures { table.new.reserved ≡ RESERVED }
{
    fold_within(rt, table, RESERVED, key, rec);
}

fn settled(table: &Table, key: &Key) -> Option<Value> {
    match table.get(key) {
        Some(rec) => settle(rec),
        None => None,
    }
}

/// An empty table.
pub fn reserved(rt: &impl Abort, alloc: Global) -> Table
    ensures { result.reserved ≡ RESERVED }
{
    match Table::reserve(alloc, RESERVED) {
        Ok(table) => table,
        Err(_) => rt.abort(),
    }
}

// The writes, and their keys in the order in which they came.
#[derive(Drop)]
struct Written {
    writes: Vec<Write>,
    keys: Vec<Key>,
}

fn place_among(keys: &[Key], key: &Key) -> Option<u32> {
    match keys.iter().position(|other| other == key) {
        Some(place) => u32::try_from(place).ok(),
        None => None,
    }
}

// The table has a key's place and record as the lists do, whichever way they are looked up.
fn as_written(rt: &impl Abort, table: &Table, written: &Written, key: &Key) {
    assert!(rt; all_fit(&written.writes));
    let record = fold_writes(&written.writes, key);
    assert_same(rt, table.place_of(key), place_among(&written.keys, key));
    let found = searched::<Brand>(table, key, Blank::new(1));
    assert_same(rt, &found, &record);
    assert_same(rt, table.get(key), record);
    assert_same(rt, settled(table, key), value_of(&written.writes, key));
}

fn note(rt: &impl Abort, written: &mut Written, write: Write) {
    let key = write.key().copy();
    assert_that(rt, written.writes.push(write).is_ok());
    if place_among(&written.keys, &key).is_none() {
        assert_that(rt, written.keys.push(key).is_ok());
    }
}

// One write more, and what the table and the lists have then.
fn one_more(rt: &impl Abort, table: &mut Table, written: &mut Written, draws: &mut Draws)
    requires { table.old.reserved ≡ RESERVED }
    ensures { table.new.reserved ≡ RESERVED }
{
    let write = any_write(rt, draws);
    assert!(rt; fits(&write));
    let key = write.key().copy();
    fold_in(rt, table, &key, &Rec::of_write(&write));
    note(rt, written, write);
    as_written(rt, table, written, &key);
    as_written(rt, table, written, &any_key(rt, draws));
}

// From key to key, each once.
fn walk(rt: &impl Abort, table: &Table, keys: &[Key]) {
    let mut weights = 0u64;
    let mut next = table.least_above(None);
    for _ in 0..keys.len() {
        next = match next {
            Some((key, rec)) => {
                assert!(rt; place_among(keys, &key).is_some());
                assert_same(rt, table.get(&key), Some(rec.copy()));
                weights = weights.wrapping_add(weight(&key, &rec));
                table.least_above(Some(key))
            }
            None => rt.abort(),
        };
    }
    assert_that(rt, next.is_none());
    assert_same(rt, weights, table.weight());
}

// A pass: so many writes, from key to key, and the table is empty again.
fn pass(rt: &impl Abort, alloc: Global, table: &mut Table, draws: &mut Draws)
    requires { table.old.reserved ≡ RESERVED }
    ensures { table.new.reserved ≡ RESERVED }
{
    let mut written = Written {
        writes: Vec::new(alloc),
        keys: Vec::new(alloc),
    };
    'writes: for _ in 0..1_000 {
        one_more(rt, table, &mut written, draws);
    }
    walk(rt, table, &written.keys);
    table.clear();
    is_empty(rt, table);
}

#[test]
fn two_thousand_writes_beside_their_list(rt: HostRuntime) {
    let mut table = reserved(&rt, rt.alloc());
    let mut draws = Draws(7);
    pass(&rt, rt.alloc(), &mut table, &mut draws);
    pass(&rt, rt.alloc(), &mut table, &mut draws);
}

// Folds a record of the key of these letters.
fn fold_of(rt: &impl Abort, table: &mut Table, name: &[u8], rec: Rec)
    requires { table.old.reserved ≡ RESERVED }
    ensures { table.new.reserved ≡ RESERVED }
{
    fold_in(rt, table, &key(rt, name), &rec);
}

/// The record of a key, by a search whose comparisons are counted.
pub fn searched<L: Ledger>(table: &Table, key: &Key, blank: Blank) -> Option<Rec>
    requires name { blank.name ≡ L.name }
    requires parts { blank.parts ≡ L.parts }
    requires some { 0 < blank.parts }
{
    let mut steps = Steps::<L>::none(blank);
    table.get_in(key, &mut steps)
}

// The key of these letters has this record, whichever way it is looked up.
fn has(rt: &impl Abort, table: &Table, name: &[u8], rec: Option<Rec>) {
    let key = key(rt, name);
    let found = searched::<Brand>(table, &key, Blank::new(1));
    assert_same(rt, &found, &table.get(&key));
    assert_same(rt, found, rec);
}

// It came as this one in the order of the keys, from 0 on.
fn stands_at(rt: &impl Abort, table: &Table, name: &[u8], place: Option<u32>) {
    assert_same(rt, table.place_of(&key(rt, name)), place);
}

// Behind the key of these letters, or from the first key on, the next one is this.
fn goes_on(rt: &impl Abort, table: &Table, name: Option<&[u8]>, next: &[u8], rec: Rec) {
    let from = match name {
        Some(name) => Some(key(rt, name)),
        None => None,
    };
    assert_same(rt, table.least_above(from), Some((key(rt, next), rec)));
}

fn is_empty(rt: &impl Abort, table: &Table) {
    assert_that(rt, table.least_above(None).is_none());
    assert_same(rt, table.weight(), 0);
    has(rt, table, b"a", None);
}

#[test]
fn three_keys_in_order(rt: HostRuntime) {
    let mut table = reserved(&rt, rt.alloc());
    is_empty(&rt, &table);
    fold_of(&rt, &mut table, b"b", base(&rt, 5, b"hi"));
    fold_of(&rt, &mut table, b"aa", Rec::Tomb);
    fold_of(&rt, &mut table, b"a", Rec::added(7));
    fold_of(&rt, &mut table, b"b", Rec::added(u64::MAX));
    assert_same(&rt, table.weight(), 14 + 15 + 16);
    has(&rt, &table, b"b", Some(base(&rt, 4, b"hi")));
    goes_on(&rt, &table, None, b"a", Rec::added(7));
    goes_on(&rt, &table, Some(b"a"), b"aa", Rec::Tomb);
    goes_on(&rt, &table, Some(b"ab"), b"b", base(&rt, 4, b"hi"));
    assert_that(&rt, table.least_above(Some(key(&rt, b"b"))).is_none());
    table.clear();
    is_empty(&rt, &table);
    fold_of(&rt, &mut table, b"b", Rec::added(1));
    has(&rt, &table, b"b", Some(Rec::added(1)));
}

// A key keeps the place in which it came, until the table is cleared.
#[test]
fn keys_keep_their_places(rt: HostRuntime) {
    let mut table = reserved(&rt, rt.alloc());
    fold_of(&rt, &mut table, b"b", Rec::added(1));
    fold_of(&rt, &mut table, b"aa", Rec::Tomb);
    fold_of(&rt, &mut table, b"a", Rec::added(7));
    fold_of(&rt, &mut table, b"b", Rec::Tomb);
    stands_at(&rt, &table, b"b", Some(0));
    stands_at(&rt, &table, b"aa", Some(1));
    stands_at(&rt, &table, b"a", Some(2));
    stands_at(&rt, &table, b"ab", None);
    table.clear();
    stands_at(&rt, &table, b"b", None);
    fold_of(&rt, &mut table, b"a", Rec::Tomb);
    stands_at(&rt, &table, b"a", Some(0));
}

fn head_of<S: Stream>(run: &S) -> Option<(Key, Rec)>
    ensures { result ≡ S.at run.now }
{
    run.head()
}

#[test]
fn a_table_from_a_key_on(rt: HostRuntime) {
    let mut table = reserved(&rt, rt.alloc());
    fold_of(&rt, &mut table, b"b", Rec::Tomb);
    fold_of(&rt, &mut table, b"a", Rec::added(7));
    let all = Above {
        table: &table,
        key: None,
    };
    assert_same(&rt, head_of(&all), Some((key(&rt, b"a"), Rec::added(7))));
    let behind = Above {
        table: &table,
        key: Some(key(&rt, b"a")),
    };
    assert_same(&rt, head_of(&behind), Some((key(&rt, b"b"), Rec::Tomb)));
    let none = Above {
        table: &table,
        key: Some(key(&rt, b"b")),
    };
    assert_that(&rt, head_of(&none).is_none());
}
