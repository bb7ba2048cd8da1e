//! A balanced tree of keys and records.
ghost use Rattle.std.specs.Prelude.{◌≡◌, ◌≢◌, ◌+◌, ◌-◌, ◌*◌, ◌^◌, ◌≤◌, ◌<◌, ◌↔◌, ◌++◌, List, Some, None, IfOk, IfSome, IsNone, IsSome, IsTrue, false, length, if◌then◌else◌};
ghost use Rattle.std.specs.List.{HoldsAt};
ghost use Rattle.blsm_model.specs.declared.key.Key.{Key};
ghost use Rattle.blsm_model.specs.declared.op.Write.{Write};
ghost use Rattle.record_delta.specs.declared.record.Rec.{Rec};
ghost use Rattle.record_delta.specs.Records.{writes_of_record, IsRecord, weight as weight_with};
ghost use Rattle.record_delta.specs.Folding.{over};
ghost use Rattle.record_delta.specs.Entries.{AreSorted, entries_weight, record_of_key, with_record, is_above as is_above_key, above, first_of};
ghost use Rattle.mem_table.specs.Entries.{StandFor};
ghost use Rattle.mem_table.specs.Tables.{IsFoldedIn, empty_table, place_in, arrived_with, dropped_to, begins_by};

use crate::lent::LentEntry;
use crate::nodes::{NONE, Node};
use crate::steps::Steps;
use crate::ways::{add_under, find, find_above, find_in, take_least};
use blsm_model::Key;
use entry_store::{LEAST_WEIGHT, Store, places_for};
use record_delta::{Rec, fold, weight};
use refusal::NoMemory;
use std::alloc::Global;
use std::marker::Model;
use std::mem::size_of;
use std::sync::ledger::Ledger;

/// The memory table. Contracts see its entries, sorted by key, how much they may weigh, the keys in the order in which they came, and the key
/// up to which it was dropped, with the weight of what was.
#[derive(Debug, Drop)]
pub struct Table {
    store: Store,
    nodes: Vec<Node>,
    root: u32,
    weight: u64,
    floor: Option<Key>,
    dropped: u64,
}

impl Model for Table {
    ghost use Rattle.std.specs.Vec.{vec_capacity};
    ghost use Rattle.mem_table.specs.Tables.{Contents, IsArena, keys_of};
    ghost use Rattle.mem_table.specs.Ways.{tree_entries};

    ghost Value = { Contents };

    ghost view = { λ t. record {
      entries = tree_entries t.nodes.items t.store.slots t.root;
      reserved = t.store.reserved;
      arrived = keys_of t.store.slots;
      floor = t.floor;
      dropped = t.dropped;
    } };

    ghost invariant = { λ t. IsArena t.nodes.items t.store.slots t.root t.floor t.weight t.dropped t.store.reserved (vec_capacity t.nodes) };
}

// At most four bytes of memory for each byte of weight.
const _: () = prove!(Table::PLACE_BYTES as u64 <= 4 * LEAST_WEIGHT);

// Whether a key is above a floor.
fn is_above(floor: &Option<Key>, key: &Key) -> bool
    ensures { result ≡ is_above_key floor.now key.now }
{
    match floor {
        Some(floor) => floor.cmp(key).is_lt(),
        None => true,
    }
}

impl Table {
    /// How many bytes of memory a place takes: a node, and what the store has for it.
    pub const PLACE_BYTES: usize = size_of::<Node>() + Store::PLACE_BYTES;

    /// An empty table with room for entries of this weight in all, in bytes. It takes memory for as many of the lightest
    /// entries at once, which is 48 bytes for 14, and none later; where that is refused, or they are 2^32 - 1 or more, there
    /// is no table.
    pub fn reserve(alloc: Global, weight: u64) -> Result<Table, NoMemory>
        ensures { IfOk result (λ table. table ≡ empty_table weight) }
    {
        let places = places_for(weight);
        if places >= NONE as u64 {
            return Err(NoMemory);
        }
        Ok(Table {
            store: Store::reserve(alloc, weight)?,
            nodes: Vec::with_capacity(alloc, places as usize)?,
            root: NONE,
            weight: 0,
            floor: None,
            dropped: 0,
        })
    }

    /// Removes all entries, and forgets what was dropped. The room stays reserved, and all places are free.
    pub fn clear(&mut self)
        ensures { self.new ≡ empty_table self.old.reserved }
    {
        self.store.clear();
        self.nodes.clear();
        self.root = NONE;
        self.weight = 0;
        self.floor = None;
        self.dropped = 0;
    }

    /// The weight of all entries, in bytes.
    pub fn weight(&self) -> u64
        ensures weight { result ≡ entries_weight self.now.entries }
        ensures fits { result + self.now.dropped ≤ self.now.reserved }
        ensures sorted { AreSorted self.now.entries }
        // To fold a record in adds at most its weight.
        ensures more { (key : Key) (rec : Rec) → entries_weight (with_record key rec self.now.entries) ≤ result + weight_with key rec }
    {
        self.weight
    }

    /// How much the entries weighed that were dropped since the table was empty, in bytes.
    pub fn dropped(&self) -> u64
        ensures { result ≡ self.now.dropped }
    {
        self.dropped
    }

    /// The key up to which the table was dropped, if it was.
    pub fn floor(&self) -> &Option<Key>
        ensures floor { result.now ≡ self.now.floor }
        ensures above { above self.now.floor self.now.entries ≡ self.now.entries }
    {
        &self.floor
    }

    /// The record of a key, if it has one.
    pub fn get(&self, key: &Key) -> Option<Rec>
        ensures { result ≡ record_of_key key.now self.now.entries }
    {
        match self.place_of(key) {
            Some(place) => Some(self.store.record_at(place)),
            None => None,
        }
    }

    /// The record of a key, if it has one, as `get` answers it. Each comparison of two keys is a step.
    pub fn get_in<L: Ledger>(&self, key: &Key, steps: &mut Steps<L>) -> Option<Rec>
        ensures record { result ≡ record_of_key key.now self.now.entries }
        ensures more { steps.old ≤ steps.new }
        ensures few { 1 ≤ length self.now.entries → 2 ^ (steps.new - steps.old) ≤ 4 * length self.now.entries * length self.now.entries }
        ensures none { length self.now.entries ≡ 0 → steps.new ≡ steps.old }
    {
        match find_in(&self.nodes, &self.store, self.root, key, steps) {
            Some(place) => Some(self.store.record_at(place)),
            None => None,
        }
    }

    /// The place of a key: `None` exactly where it has no record. A place is one key's until the key is dropped, and nobody's then until the
    /// table is cleared.
    pub fn place_of(&self, key: &Key) -> Option<u32>
        ensures place { result ≡ place_in key.now self.now.arrived }
        ensures holder { IfSome result (HoldsAt (λ k. k ≡ key.now) self.now.arrived) }
        ensures none { IsNone result ↔ (record_of_key key.now self.now.entries ≡ None) }
    {
        find(&self.nodes, &self.store, self.root, key)
    }

    /// Folds a record over the one of its key, or adds it where the key is new. All other keys keep their records. The key is above the one up
    /// to which the table was dropped, which any key is where nothing was. The table, with what was dropped, may then weigh at most what was
    /// reserved. It takes no memory.
    /// A clause each for the entries as a list, by key, by weight, and as they stand in their places, and for what stays.
    pub fn fold_in(&mut self, key: &Key, rec: &Rec)
        requires above { IsTrue (is_above_key self.old.floor key.now) }
        requires fits { entries_weight (with_record key.now rec.now self.old.entries) + self.old.dropped ≤ self.old.reserved }
        ensures entries { self.new.entries ≡ with_record key.now rec.now self.old.entries }
        ensures this { record_of_key key.now self.new.entries ≡ Some (over rec.now (record_of_key key.now self.old.entries)) }
        ensures others { (other : Key) → other ≢ key.now → record_of_key other self.new.entries ≡ record_of_key other self.old.entries }
        ensures reserved { self.new.reserved ≡ self.old.reserved }
        ensures kept { (self.new.floor ≡ self.old.floor) × (self.new.dropped ≡ self.old.dropped) }
        ensures weight { entries_weight self.new.entries ≤ entries_weight self.old.entries + weight_with key.now rec.now }
        // Where the entries stood for writes, they stand for those and this record's.
        ensures stands { (writes : List Write) → StandFor self.old.entries writes → StandFor self.new.entries (writes ++ writes_of_record key.now rec.now) }
        // A key that was there keeps its place, and a new one comes last.
        ensures arrived { self.new.arrived ≡ arrived_with key.now self.old.arrived }
        ensures places { (other : Key) → IsSome (place_in other self.old.arrived) → place_in other self.new.arrived ≡ place_in other self.old.arrived }
    {
        match self.place_of(key) {
            Some(place) => self.fold_at(place, key, rec),
            None => self.add(key, rec),
        }
    }

    // Folds a record over the one at a place.
    fn fold_at(&mut self, place: u32, key: &Key, rec: &Rec)
        requires place { place_in key.now self.old.arrived ≡ Some place }
        requires above { IsTrue (is_above_key self.old.floor key.now) }
        requires fits { entries_weight (with_record key.now rec.now self.old.entries) + self.old.dropped ≤ self.old.reserved }
        ensures folded { IsFoldedIn key.now rec.now self.old self.new }
        ensures in_range { IsRecord rec.now }
        ensures sorted { AreSorted self.old.entries }
    {
        let older = self.store.record_at(place);
        let before = weight(key, &older);
        let folded = fold(rec.copy(), older);
        self.weight = self.weight - before + weight(key, &folded);
        self.store.set(place, key, &folded);
    }

    // Adds an entry for a new key.
    fn add(&mut self, key: &Key, rec: &Rec)
        requires absent { record_of_key key.now self.old.entries ≡ None }
        requires place { place_in key.now self.old.arrived ≡ None }
        requires above { IsTrue (is_above_key self.old.floor key.now) }
        requires fits { entries_weight (with_record key.now rec.now self.old.entries) + self.old.dropped ≤ self.old.reserved }
        ensures folded { IsFoldedIn key.now rec.now self.old self.new }
        ensures in_range { IsRecord rec.now }
        ensures sorted { AreSorted self.old.entries }
    {
        self.weight += weight(key, rec);
        let place = self.nodes.len() as u32;
        self.store.push(key, rec);
        match self.nodes.push(Node::alone()) {
            Ok(()) => {}
            Err(_) => unreachable!(),
        }
        self.root = add_under(&mut self.nodes, &self.store, self.root, key, place);
    }

    /// Removes all keys up to this one, with their records. All others keep their records and their places. The bytes of what is removed are
    /// free at once, its places when the table is cleared, and until then its weight counts in what is reserved. It takes no memory.
    pub fn drop_to(&mut self, key: &Key)
        ensures dropped { self.new ≡ dropped_to key.now self.old }
        ensures records { (other : Key) → record_of_key other self.new.entries
            ≡ (if is_above_key (Some key.now) other then record_of_key other self.old.entries else None) }
        ensures places { (other : Key) → IsTrue (is_above_key (Some key.now) other)
            → place_in other self.new.arrived ≡ place_in other self.old.arrived }
    {
        'least: while self.begins_by(key) {
            self.drop_least();
        }
        self.raise_floor(key);
    }

    // Whether the least key, if there is one, isn't above this one.
    fn begins_by(&self, key: &Key) -> bool
        ensures { result ≡ begins_by key.now self.now.entries }
    {
        match self.first_above(&None) {
            Some(first) => first.compare(key).is_ge(),
            None => false,
        }
    }

    // Takes the least key out of the tree, and vacates its place.
    fn drop_least(&mut self)
        requires { 1 ≤ length self.old.entries }
        ensures dropped { IfSome (first_of self.old.entries) (λ e. self.new ≡ dropped_to e.0 self.old) }
        ensures fewer { length self.new.entries < length self.old.entries }
    {
        let (least, top) = take_least(&mut self.nodes, self.root);
        let (key, rec) = self.store.entry(least);
        let weight = weight(&key, &rec);
        self.store.vacate(least);
        self.root = top;
        self.weight -= weight;
        self.dropped += weight;
        self.floor = Some(key);
    }

    // The floor is this key, where it was lower, and no key is up to it.
    fn raise_floor(&mut self, key: &Key)
        requires { begins_by key.now self.old.entries ≡ false }
        ensures { self.new ≡ dropped_to key.now self.old }
    {
        if is_above(&self.floor, key) {
            self.floor = Some(key.copy());
        }
    }

    /// The entry of the least key above this one, or of the least key where this is `None`.
    pub fn least_above(&self, key: Option<Key>) -> Option<(Key, Rec)>
        ensures { result ≡ first_of (above key self.now.entries) }
    {
        match self.first_above(&key) {
            Some(first) => Some(first.copy()),
            None => None,
        }
    }

    /// The same entry, where it lies.
    pub fn first_above(&self, key: &Option<Key>) -> Option<LentEntry<'_>>
        ensures { result ≡ first_of (above key.now self.now.entries) }
    {
        match find_above(&self.nodes, &self.store, self.root, key, None) {
            Some(place) => Some(LentEntry::at(&self.store, place)),
            None => None,
        }
    }
}
