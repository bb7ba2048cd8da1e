// Plain maps: what a history leads to, and what a disk holds.
ghost use Rattle.std.specs.Prelude.{◌≡◌};

use crate::asserts::{assert_same, assert_same_at, assert_that, assert_that_at};
use crate::samples::number_of;
use crate::stores::File;
use blsm_model::{Annals, CALLERS, Component, Geometry, Key, Op, Row, ShortReply, Text, Value};
use catalog_swap::{Catalog, newest};
use gated_log::Replay;
use page_file::no_component;
use record_delta::{Rec, Stream, fold, settle};
use run_cursor::Cursor;
use std::alloc::Global;
use std::process::Abort;

/// The values, or none, of the keys of the numbers from 0 on.
pub type Map = Vec<Option<Value>>;

// A value, or none, with a tail behind its text.
fn with_tail(value: Option<&Value>, tail: &Text) -> Value {
    match value {
        Some(value) => Value {
            count: value.count,
            text: value.text.with_tail(tail),
        },
        None => Value {
            count: 0,
            text: tail.copy(),
        },
    }
}

/// What a write makes of the map.
pub fn apply(map: &mut [Option<Value>], op: &Op) {
    let (Op::Put(key, _)
    | Op::Add(key, _)
    | Op::Tail(key, _)
    | Op::Del(key)
    | Op::New(key, _)
    | Op::Swap(key, _, _)) = op
    else {
        return;
    };
    let Some(place) = map.get_mut(number_of(key)) else {
        return;
    };
    *place = match (op, place.as_ref()) {
        (Op::Put(_, value) | Op::New(_, value) | Op::Swap(_, _, value), _) => Some(value.copy()),
        (Op::Add(_, more), Some(value)) => Some(Value {
            count: value.count.wrapping_add(*more),
            text: value.text.copy(),
        }),
        (Op::Add(_, more), None) => Some(Value {
            count: *more,
            text: Text::empty(),
        }),
        (Op::Tail(_, tail), older) => Some(with_tail(older, tail)),
        _ => None,
    };
}

fn value_of<'a>(map: &'a [Option<Value>], key: &Key) -> Option<&'a Value> {
    match map.get(number_of(key)) {
        Some(Some(value)) => Some(value),
        _ => None,
    }
}

/// What a history leads to: the map of the writes that are done, and the write that is unsure.
#[derive(Drop)]
pub struct History {
    pub map: Map,
    pub unsure: Option<Op>,
}

// So many times nothing.
fn nothing<T>(rt: &impl Abort, alloc: Global, keys: usize) -> Vec<Option<T>> {
    let mut map = Vec::new(alloc);
    for _ in 0..keys {
        map.push(None).expect(rt, "memory");
    }
    map
}

// A get tells what the map has.
fn check_get(rt: &impl Abort, map: &[Option<Value>], key: &Key, reply: &ShortReply, place: u32) {
    match reply {
        ShortReply::Is(value) => {
            assert_that_at(rt, value_of(map, key) == Some(value), place);
        }
        ShortReply::Absent => assert_that_at(rt, value_of(map, key).is_none(), place),
        _ => {}
    }
}

// A write that looks first is kept out by what the map has, and is done, refused for its size, lost or unsure only where its condition holds.
fn check_condition(
    rt: &impl Abort,
    map: &[Option<Value>],
    op: &Op,
    reply: &ShortReply,
    place: u32,
) {
    let (Op::New(key, _) | Op::Swap(key, _, _)) = op else {
        return;
    };
    let value = map.get(number_of(key)).expect(rt, "a key of the map");
    match reply {
        ShortReply::Kept(found) => {
            assert_that_at(rt, found == value && !op.is_met(value), place);
        }
        ShortReply::Done | ShortReply::Full(_) | ShortReply::FaultLost | ShortReply::FaultUnsure =>
            assert_that_at(rt, op.is_met(value), place),
        _ => {}
    }
}

// A caller's hold: the map of its moment, and the numbers of the keys that are still to come.
#[derive(Drop)]
struct Snapshot {
    map: Map,
    next: usize,
    end: usize,
}

// The hold of each caller.
type Snapshots = Vec<Option<Snapshot>>;

fn copy_of(rt: &impl Abort, alloc: Global, map: &[Option<Value>]) -> Map {
    let mut copies = Vec::new(alloc);
    for value in map {
        let copy = match value {
            Some(value) => Some(value.copy()),
            None => None,
        };
        copies.push(copy).expect(rt, "memory");
    }
    copies
}

// A caller's hold is this one, or none.
fn set_hold(held: &mut [Option<Snapshot>], seat: u32, hold: Option<Snapshot>) {
    if let Some(place) = held.get_mut(seat as usize) {
        *place = hold;
    }
}

// The rows are the next ones of the hold, so many or as many as there are.
fn check_rows(rt: &impl Abort, hold: &mut Snapshot, rows: &[Row], n: u32, place: u32) {
    let mut given = 0;
    for number in hold.next..hold.end {
        if given < n as usize {
            if let Some(Some(value)) = hold.map.get(number) {
                let row = rows.get(given).expect(rt, "a row");
                assert_same_at(rt, number_of(&row.key), number, place);
                assert_that_at(rt, row.value == *value, place);
                given = given.saturating_add(1);
            }
            hold.next = number.saturating_add(1);
        }
    }
    assert_same_at(rt, given, rows.len(), place);
}

// A next tells the next rows of the caller's hold.
fn check_next(
    rt: &impl Abort,
    held: &mut [Option<Snapshot>],
    seat: u32,
    rows: &[Row],
    n: u32,
    place: u32,
) {
    match held.get_mut(seat as usize) {
        Some(Some(hold)) => check_rows(rt, hold, rows, n, place),
        _ => rt.abort(),
    }
}

// What an entry whose reply has no rows makes of the map and the holds.
fn follow_short(
    rt: &impl Abort,
    alloc: Global,
    history: &mut History,
    held: &mut Snapshots,
    annals: &Annals,
    reply: &ShortReply,
    place: u32,
) {
    if annals.len() <= place as usize {
        return;
    }
    let seat = annals.seat(place);
    check_condition(rt, &history.map, annals.op(place), reply, place);
    match (annals.op(place), reply) {
        (Op::Get(key), reply) => check_get(rt, &history.map, key, reply, place),
        (Op::Hold(low, high), ShortReply::Held) => {
            let hold = Snapshot {
                map: copy_of(rt, alloc, &history.map),
                next: number_of(low),
                end: number_of(high),
            };
            set_hold(held, seat, Some(hold));
        }
        (Op::Release, ShortReply::Done) => set_hold(held, seat, None),
        (op, ShortReply::Done) => apply(&mut history.map, op),
        (op, ShortReply::FaultUnsure) => history.unsure = Some(op.copy()),
        _ => {}
    }
}

/// Goes over a history of so many keys, and asserts that each get tells what the map has then, each next what it had at the hold's moment, and
/// each new and each swap by its condition what the map has.
pub fn follow(rt: &impl Abort, alloc: Global, keys: usize, annals: &Annals) -> History {
    let mut history = History {
        map: nothing(rt, alloc, keys),
        unsure: None,
    };
    let mut held: Snapshots = nothing(rt, alloc, CALLERS as usize);
    for place in 0..annals.len() as u32 {
        match (annals.op(place), annals.short_reply(place)) {
            (_, Some(reply)) => follow_short(
                rt,
                alloc,
                &mut history,
                &mut held,
                annals,
                reply,
                place,
            ),
            (Op::Next(n), None) => {
                check_next(
                    rt,
                    &mut held,
                    annals.seat(place),
                    annals.rows(place),
                    *n,
                    place,
                );
            }
            _ => rt.abort(),
        }
    }
    history
}

/// A lane of a store that is read.
#[derive(Drop)]
struct LaneReading {
    file: File,
    replay: Replay,
    ghost same: { replay.sizes ≡ file.geo },
}

impl LaneReading {
    // The next entry, if there is one.
    fn next(&mut self, rt: &impl Abort) -> Option<(Key, Rec)> {
        match self.replay.next(&mut self.file.disk) {
            Ok(entry) => entry,
            Err(_) => rt.abort(),
        }
    }
}

// Folds an entry over the record of its key.
fn fold_in(records: &mut [Option<Rec>], key: &Key, newer: Rec) {
    if let Some(place) = records.get_mut(number_of(key)) {
        *place = Some(match place.take() {
            Some(older) => fold(newer, older),
            None => newer,
        });
    }
}

// A record of each key.
type Records = Vec<Option<Rec>>;

// Folds entries over the records of their keys.
fn fold_all(records: &mut [Option<Rec>], entries: Vec<(Key, Rec)>) {
    for (key, rec) in entries {
        fold_in(records, &key, rec);
    }
}

// What the records settle to.
fn settled(rt: &impl Abort, alloc: Global, records: Records) -> Map {
    let mut map = Vec::new(alloc);
    for rec in records {
        let value = match rec {
            Some(rec) => settle(rec),
            None => None,
        };
        map.push(value).expect(rt, "memory");
    }
    map
}

impl File {
    /// The newest catalogue.
    pub fn newest(&mut self, rt: &impl Abort) -> Catalog {
        let geo = self.geo;
        newest(&mut self.disk, &geo).expect(rt, "a catalogue")
    }

    /// The next entry of a component, if there is one.
    pub fn next(&mut self, rt: &impl Abort, cursor: &mut Cursor) -> Option<(Key, Rec)> {
        assert_same(rt, cursor.advance(&mut self.disk, &self.geo), Ok(()));
        cursor.head()
    }

    /// All entries of a component.
    pub fn entries(
        &mut self,
        rt: &impl Abort,
        alloc: Global,
        component: &Component,
    ) -> Vec<(Key, Rec)> {
        assert_that(rt, component.pages != 0 || *component == no_component());
        let mut entries = Vec::new(alloc);
        let mut cursor = Cursor::start(component);
        for _ in 0..component.entries {
            let entry = self.next(rt, &mut cursor).expect(rt, "an entry");
            entries.push(entry).expect(rt, "memory");
        }
        assert_that(rt, self.next(rt, &mut cursor).is_none());
        entries
    }

    // The entries of a lane.
    fn lane(self, rt: &impl Abort, alloc: Global, lane: u8) -> (File, Vec<(Key, Rec)>) {
        assert!(rt; lane < 3);
        let mut entries = Vec::new(alloc);
        let replay = Replay::new(&self.geo, lane);
        let mut reading = LaneReading { file: self, replay };
        for _ in 0..10_000 {
            match reading.next(rt) {
                Some(entry) => entries.push(entry).expect(rt, "memory"),
                None => return (reading.file, entries),
            }
        }
        rt.abort()
    }

    // Folds the entries of a component over the records.
    fn fold_component(
        &mut self,
        rt: &impl Abort,
        alloc: Global,
        records: &mut Records,
        component: &Component,
    ) {
        let entries = self.entries(rt, alloc, component);
        fold_all(records, entries);
    }

    // Folds the entries of a lane over the records.
    fn fold_lane(self, rt: &impl Abort, alloc: Global, records: &mut Records, lane: u8) -> File {
        let (file, entries) = self.lane(rt, alloc, lane);
        fold_all(records, entries);
        file
    }

    /// The map of the store, read as an opening reads it: the newest catalogue, its components, and the lanes A and B over them.
    pub fn map(self, rt: &impl Abort, alloc: Global, keys: usize) -> Map {
        let mut file = self;
        let catalogue = file.newest(rt);
        let mut records: Records = nothing(rt, alloc, keys);
        file.fold_component(rt, alloc, &mut records, &catalogue.c2);
        file.fold_component(rt, alloc, &mut records, &catalogue.c1x);
        file.fold_component(rt, alloc, &mut records, &catalogue.c1);
        let [a, b, _] = catalogue.lanes;
        let file = file.fold_lane(rt, alloc, &mut records, a);
        let _ = file.fold_lane(rt, alloc, &mut records, b);
        settled(rt, alloc, records)
    }
}
