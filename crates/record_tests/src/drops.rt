// The memory table, dropped up to one key and another, beside a sorted list.
ghost use Rattle.std.specs.Prelude.{◌≡◌};

use crate::asserts::{assert_same, assert_that};
use crate::samples::{fits, key};
use crate::tables::{Draws, RESERVED, any_write, fold_within, is_free, reserved, searched};
use blsm_model::Key;
use mem_table::Table;
use record_delta::{Rec, fold, weight};
use std::alloc::Global;
use std::marker::Brand;
use std::process::Abort;
use std::sync::ledger::Blank;

// Entries in key order, all keys as they came, and how much was dropped.
#[derive(Drop)]
struct Listed {
    entries: Vec<(Key, Rec)>,
    arrived: Vec<Key>,
    dropped: u64,
}

impl Listed {
    fn none(alloc: Global) -> Listed {
        Listed {
            entries: Vec::new(alloc),
            arrived: Vec::new(alloc),
            dropped: 0,
        }
    }

    fn record(&self, key: &Key) -> Option<Rec> {
        for entry in self.entries.iter() {
            if entry.0 == *key {
                return Some(entry.1.copy());
            }
        }
        None
    }

    // How many keys are below this one.
    fn place(&self, key: &Key) -> usize {
        let mut place = 0usize;
        for entry in self.entries.iter() {
            if entry.0 < *key {
                place = place.saturating_add(1);
            }
        }
        place
    }

    fn fold_in(&mut self, rt: &impl Abort, key: &Key, rec: &Rec) {
        let place = self.place(key);
        match self.record(key) {
            Some(older) => match self.entries.get_mut(place) {
                Some(entry) => entry.1 = fold(rec.copy(), older),
                None => rt.abort(),
            },
            None => {
                assert!(rt; place <= self.entries.len());
                assert_that(
                    rt,
                    self.entries.insert(place, (key.copy(), rec.copy())).is_ok(),
                );
                assert_that(rt, self.arrived.push(key.copy()).is_ok());
            }
        }
    }

    fn drop_to(&mut self, rt: &impl Abort, alloc: Global, key: &Key) {
        let mut kept = Vec::new(alloc);
        for entry in self.entries.iter() {
            if entry.0 > *key {
                assert_that(rt, kept.push((entry.0.copy(), entry.1.copy())).is_ok());
            } else {
                self.dropped = self.dropped.wrapping_add(weight(&entry.0, &entry.1));
            }
        }
        self.entries = kept;
    }
}

// The table has the entries of the list, from key to key, and no others.
fn goes_on_alike(rt: &impl Abort, table: &Table, listed: &Listed) {
    let mut weights = 0u64;
    let mut next = table.least_above(None);
    for entry in listed.entries.iter() {
        assert_same(rt, next, Some((entry.0.copy(), entry.1.copy())));
        weights = weights.wrapping_add(weight(&entry.0, &entry.1));
        next = table.least_above(Some(entry.0.copy()));
    }
    assert_that(rt, next.is_none());
    assert_same(rt, table.weight(), weights);
    assert_same(rt, table.dropped(), listed.dropped);
}

// Each key has the record of the list, whichever way it is looked up, and the place in which it came where it wasn't dropped.
fn finds_alike(rt: &impl Abort, table: &Table, listed: &Listed) {
    let mut place = 0u32;
    for key in listed.arrived.iter() {
        let record = listed.record(key);
        let stands = if record.is_some() { Some(place) } else { None };
        assert_same(rt, table.place_of(key), stands);
        assert_same(rt, &searched::<Brand>(table, key, Blank::new(1)), &record);
        assert_same(rt, table.get(key), record);
        place = place.wrapping_add(1);
    }
}

// Drops both up to a key.
fn drop_both(rt: &impl Abort, alloc: Global, table: &mut Table, listed: &mut Listed, key: &Key)
    requires { table.old.reserved ≡ RESERVED }
    ensures { table.new.reserved ≡ RESERVED }
{
    table.drop_to(key);
    listed.drop_to(rt, alloc, key);
    goes_on_alike(rt, table, listed);
    finds_alike(rt, table, listed);
    assert_that(rt, !is_free(table, key));
}

// Forty writes, of which those come that are above the floor.
fn grow_both(rt: &impl Abort, table: &mut Table, listed: &mut Listed, draws: &mut Draws)
    requires { table.old.reserved ≡ RESERVED }
    ensures { table.new.reserved ≡ RESERVED }
{
    'writes: for _ in 0..40 {
        let write = any_write(rt, draws);
        assert!(rt; fits(&write));
        let rec = Rec::of_write(&write);
        if is_free(table, write.key()) {
            fold_within(rt, table, RESERVED, write.key(), &rec);
            listed.fold_in(rt, write.key(), &rec);
        }
    }
    goes_on_alike(rt, table, listed);
    finds_alike(rt, table, listed);
}

// The key in the middle of those that are left.
fn middle(rt: &impl Abort, listed: &Listed) -> Key {
    let place = listed.entries.len() / 2;
    listed.entries.get(place).expect(rt, "a key").0.copy()
}

// One table from its first write to the last drop: up to a key below all, the first one, one that isn't there, one in the middle, twice, a lesser
// one, one in the middle of what came since, and one above all.
fn one_life(rt: &impl Abort, alloc: Global, table: &mut Table, draws: &mut Draws)
    requires { table.old.reserved ≡ RESERVED }
    ensures { table.new.reserved ≡ RESERVED }
{
    let mut listed = Listed::none(alloc);
    grow_both(rt, table, &mut listed, draws);
    drop_both(rt, alloc, table, &mut listed, &key(rt, b"A"));
    let first = listed.entries.get(0).expect(rt, "a key").0.copy();
    drop_both(rt, alloc, table, &mut listed, &first);
    drop_both(rt, alloc, table, &mut listed, &key(rt, b"aaz"));
    grow_both(rt, table, &mut listed, draws);
    let among = middle(rt, &listed);
    drop_both(rt, alloc, table, &mut listed, &among);
    drop_both(rt, alloc, table, &mut listed, &among);
    drop_both(rt, alloc, table, &mut listed, &key(rt, b"aa"));
    assert_that(rt, !is_free(table, &among));
    grow_both(rt, table, &mut listed, draws);
    let later = middle(rt, &listed);
    drop_both(rt, alloc, table, &mut listed, &later);
    grow_both(rt, table, &mut listed, draws);
    drop_both(rt, alloc, table, &mut listed, &key(rt, b"zz"));
    table.clear();
    goes_on_alike(rt, table, &Listed::none(alloc));
}

#[test]
fn dropped_beside_a_sorted_list(rt: HostRuntime) {
    let mut table = reserved(&rt, rt.alloc());
    let mut draws = Draws(11);
    'lives: for _ in 0..8 {
        one_life(&rt, rt.alloc(), &mut table, &mut draws);
    }
}

// Fifty of the lightest entries.
const FIFTY: u64 = 700;

// As many of the lightest entries as there are places.
fn fill(rt: &impl Abort, table: &mut Table)
    requires { table.old.reserved ≡ FIFTY }
    ensures { table.new.reserved ≡ FIFTY }
{
    'bytes: for byte in 0..50u8 {
        let key = key(rt, &[byte]);
        fold_within(rt, table, FIFTY, &key, &Rec::Tomb);
        assert_same(rt, table.place_of(&key), Some(byte as u32));
    }
    assert_same(rt, table.weight(), FIFTY);
}

// What was dropped keeps its places and its weight until the table is cleared.
#[test]
fn places_are_free_when_the_table_is_cleared(rt: HostRuntime) {
    let mut table = match Table::reserve(rt.alloc(), FIFTY) {
        Ok(table) => table,
        Err(_) => rt.abort(),
    };
    fill(&rt, &mut table);
    table.drop_to(&key(&rt, &[24]));
    assert_same(&rt, table.weight(), FIFTY / 2);
    assert_same(&rt, table.dropped(), FIFTY / 2);
    assert_same(&rt, table.place_of(&key(&rt, &[24])), None);
    assert_same(&rt, table.place_of(&key(&rt, &[49])), Some(49));
    table.drop_to(&key(&rt, &[255]));
    assert_same(&rt, table.weight(), 0);
    assert_same(&rt, table.dropped(), FIFTY);
    table.clear();
    assert_that(&rt, table.floor().is_none());
    fill(&rt, &mut table);
}
