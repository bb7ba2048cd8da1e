// Plain maps: what a history leads to, and what a core looks up.
use crate::asserts::{assert_same, assert_that};
use crate::samples::{key_of, number_of};
use crate::stores::make;
use blsm_model::{Annals, Op, ShortReply, Text, Value};
use disk_mem::MemDisk;
use std::alloc::Global;
use std::process::Abort;
use tree_core::Core;
use tree_machine::Kind;

/// The values, or none, of the keys of the numbers from 0 on.
pub type Map = Vec<Option<Value>>;

/// The map of so many keys that has none.
pub fn empty(rt: &impl Abort, alloc: Global, keys: usize) -> Map {
    let mut map = Vec::new(alloc);
    for _ in 0..keys {
        map.push(None).expect(rt, "memory");
    }
    map
}

// A value, or none, with a tail behind its text.
fn with_tail(value: Option<&Value>, tail: &Text) -> Value {
    match value {
        Some(value) => Value {
            count: value.count,
            text: value.text.with_tail(tail),
        },
        None => Value {
            count: 0,
            text: tail.copy(),
        },
    }
}

// What a write makes of the map.
fn apply(map: &mut [Option<Value>], op: &Op) {
    let (Op::Put(key, _)
    | Op::Add(key, _)
    | Op::Tail(key, _)
    | Op::Del(key)
    | Op::New(key, _)
    | Op::Swap(key, _, _)) = op
    else {
        return;
    };
    let Some(place) = map.get_mut(number_of(key)) else {
        return;
    };
    *place = match (op, place.as_ref()) {
        (Op::Put(_, value) | Op::New(_, value) | Op::Swap(_, _, value), _) => Some(value.copy()),
        (Op::Add(_, more), Some(value)) => Some(Value {
            count: value.count.wrapping_add(*more),
            text: value.text.copy(),
        }),
        (Op::Add(_, more), None) => Some(Value {
            count: *more,
            text: Text::empty(),
        }),
        (Op::Tail(_, tail), older) => Some(with_tail(older, tail)),
        _ => None,
    };
}

// A write that looks first is kept out by what the map has, and is done only where its condition holds.
fn check_condition(rt: &impl Abort, map: &[Option<Value>], op: &Op, reply: &ShortReply) {
    let (Op::New(key, _) | Op::Swap(key, _, _)) = op else {
        return;
    };
    let value = map.get(number_of(key)).expect(rt, "a key of the map");
    match reply {
        ShortReply::Kept(found) => assert_that(rt, found == value && !op.is_met(value)),
        ShortReply::Done => assert_that(rt, op.is_met(value)),
        _ => rt.abort(),
    }
}

// What an entry makes of the map.
fn follow_one(rt: &impl Abort, map: &mut [Option<Value>], op: &Op, reply: &ShortReply) {
    check_condition(rt, map, op, reply);
    if *reply == ShortReply::Done {
        apply(map, op);
    }
}

/// What a history of so many keys leads to, in which nothing failed, no write was too big, and each new and each swap went by its condition.
pub fn follow(rt: &impl Abort, alloc: Global, keys: usize, annals: &Annals) -> Map {
    let mut map = empty(rt, alloc, keys);
    for place in 0..annals.len() as u32 {
        if let Some(reply) = annals.short_reply(place) {
            follow_one(rt, &mut map, annals.op(place), reply);
        }
    }
    map
}

/// The value that the entry at a place tells: of a get, or of a write that was kept out.
pub fn told_at(rt: &impl Abort, annals: &Annals, place: u32) -> Option<Value> {
    assert!(rt; (place as usize) < annals.len());
    match annals.short_reply(place) {
        Some(ShortReply::Is(value) | ShortReply::Kept(Some(value))) => Some(value.copy()),
        Some(ShortReply::Absent | ShortReply::Kept(None)) => None,
        _ => rt.abort(),
    }
}

// Looks up the keys of the numbers below this.
fn look_up(rt: &impl Abort, alloc: Global, core: &mut Core<MemDisk>, keys: usize) {
    for number in 0..keys {
        make(alloc, core, 0, Kind::Look(Op::Get(key_of(rt, number))));
    }
}

/// What a core that was just opened looks up, of so many keys, and its disk. Its history was empty before.
pub fn map_of(rt: &impl Abort, alloc: Global, core: Core<MemDisk>, keys: usize) -> (Map, MemDisk) {
    let mut core = core;
    look_up(rt, alloc, &mut core, keys);
    let (disk, annals, _) = core.end();
    assert_same(rt, annals.len(), keys);
    let mut map = Vec::new(alloc);
    for place in 0..annals.len() as u32 {
        map.push(told_at(rt, &annals, place)).expect(rt, "memory");
    }
    (map, disk)
}
