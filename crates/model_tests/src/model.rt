// The words of all: keys, values, writes and histories, and the plain store that answers by a list of writes.
ghost use Rattle.std.specs.Prelude.{◌≡◌, ◌≤◌};
ghost use Rattle.std.specs.Ordering.{is_lt};
ghost use Rattle.blsm_model.specs.Keys.{key_cmp};

use crate::asserts::{assert_same, assert_same_at, assert_that};
use crate::samples::{key, value};
use crate::scripts::note;
use blsm_model::{
    Annals, Entry, Gate, Key, Line, NoGate, Op, Plain, Point, Reply, Room, Row, RowList,
    ShortReply, Stands, Text, Write, run,
};
use std::alloc::Global;
use std::process::Abort;

// The order that the definitions name is the type's own.
fn is_below(low: &Key, high: &Key) -> bool
    ensures { result ≡ is_lt (key_cmp low.now high.now) }
{
    low < high
}

#[test]
fn keys_are_ordered_bytewise(rt: HostRuntime) {
    let rising: [&[u8]; 6] = [b"a", b"aa", b"ab", b"b", b"b\x00", b"\xff"];
    for low in 0..rising.len() {
        for high in 0..rising.len() {
            assert_same_at(
                &rt,
                is_below(&key(&rt, rising[low]), &key(&rt, rising[high])),
                low < high,
                (low, high),
            );
        }
    }
}

#[test]
fn keys_and_texts_have_their_lengths(rt: HostRuntime) {
    let bytes = [b'x'; 436];
    for (len, is_key) in [(0, false), (1, true), (64, true), (65, false)] {
        assert_same_at(&rt, Key::from_bytes(&bytes[..len]).is_some(), is_key, len);
    }
    for (len, is_text) in [(0, true), (435, true), (436, false)] {
        assert_same_at(&rt, Text::from_bytes(&bytes[..len]).is_some(), is_text, len);
    }
}

// It is a write, and weighs so many bytes.
fn weighs(rt: &impl Abort, op: &Op, weight: u64) {
    assert!(rt; op.is_write());
    assert_same(rt, op.weight(), weight);
}

#[test]
fn writes_weigh_their_entry(rt: HostRuntime) {
    let bytes = [b'x'; 435];
    let heaviest = Op::Put(key(&rt, &bytes[..64]), value(&rt, 9, &bytes));
    weighs(&rt, &heaviest, Op::MAX_WEIGHT);
    weighs(&rt, &Op::Put(key(&rt, b"a"), value(&rt, 5, b"hi")), 16);
    weighs(&rt, &Op::Add(key(&rt, b"a"), 7), 14);
    weighs(&rt, &Op::Del(key(&rt, b"a")), 14);
    weighs(&rt, &new_a(&rt, 5, b"hi"), 16);
    weighs(&rt, &swap_a(&rt, 7, 5, b"hi"), 16);
}

fn new_a(rt: &impl Abort, count: u64, text: &[u8]) -> Op {
    Op::New(key(rt, b"a"), value(rt, count, text))
}

fn swap_a(rt: &impl Abort, from: u64, count: u64, text: &[u8]) -> Op {
    Op::Swap(key(rt, b"a"), from, value(rt, count, text))
}

// Whether it looks first, and whether its condition holds where there is no value, one of count 5 and one of count 7.
fn has_condition(rt: &impl Abort, op: &Op, looks: bool, met: [bool; 3]) {
    assert_same(rt, op.looks_first(), looks);
    assert_same(rt, op.is_met(&None), met[0]);
    assert_same(rt, op.is_met(&Some(value(rt, 5, b"x"))), met[1]);
    assert_same(rt, op.is_met(&Some(value(rt, 7, b""))), met[2]);
}

#[test]
fn a_condition_goes_by_the_value(rt: HostRuntime) {
    has_condition(&rt, &new_a(&rt, 5, b""), true, [true, false, false]);
    has_condition(&rt, &swap_a(&rt, 5, 7, b""), true, [false, true, false]);
    has_condition(&rt, &swap_a(&rt, 0, 7, b""), true, [false, false, false]);
    has_condition(&rt, &Op::Get(key(&rt, b"a")), false, [true, true, true]);
}

fn row(rt: &impl Abort, count: u64, text: &[u8]) -> Row {
    Row {
        key: key(rt, b"a"),
        value: value(rt, count, text),
    }
}

// An entry whose reply has a row.
fn entry_of(row: Row) -> Entry {
    let mut rows = RowList::new();
    rows.push(row.copy());
    Entry {
        seat: 15,
        op: Op::Put(row.key, row.value),
        reply: Reply::Rows(rows),
    }
}

#[test]
fn a_write_is_copied(rt: HostRuntime) {
    let row = row(&rt, 5, b"hi");
    let put = Write::Put(row.key.copy(), row.value.copy());
    assert_that(&rt, put.copy() == put);
}

#[test]
fn copies_are_the_same(rt: HostRuntime) {
    let entry = entry_of(row(&rt, 5, b"hi"));
    let copy = entry.copy();
    assert_that(&rt, copy == entry);
    let line = Line {
        seat: 15,
        op: copy.op,
    };
    assert_that(&rt, line.copy() == line);
    assert_that(&rt, line.op == entry.op);
}

// Annals with room for so many entries and rows of seat 3.
fn annals_of(rt: &impl Abort, alloc: Global, entries: u8, rows: u8) -> Annals {
    let mut room = Room {
        entries: [0; 16],
        rows: [0; 16],
    };
    room.entries[3] = u32::from(entries);
    room.rows[3] = u32::from(rows);
    Annals::reserve(alloc, room).expect(rt, "memory")
}

fn two_rows(rt: &impl Abort) -> RowList {
    let mut rows = RowList::new();
    rows.push(row(rt, 7, b""));
    rows.push(row(rt, 7, b""));
    rows
}

fn note_release(rt: &impl Abort, annals: &mut Annals) {
    let room = annals.room();
    assert!(rt; room.entries[3] > 0);
    annals.note_short(3, Op::Release, ShortReply::Done);
}

// Counts so many quanta for an entry that has few.
fn count(rt: &impl Abort, annals: &mut Annals, place: u32, quanta: u8) {
    assert!(rt; (place as usize) < annals.len());
    assert!(rt; annals.quanta(place) < 100);
    annals.count(place, u64::from(quanta));
}

// An entry of seat 3, with its quanta.
fn has_entry(rt: &impl Abort, annals: &Annals, place: u32, quanta: u64, op: &Op) {
    assert!(rt; (place as usize) < annals.len());
    assert_same(rt, (annals.seat(place), annals.quanta(place)), (3, quanta));
    assert_that(rt, annals.op(place) == op);
}

// The first reply has rows.
fn replies_rows(rt: &impl Abort, annals: &Annals, rows: RowList) {
    assert!(rt; 0 < annals.len());
    assert_that(rt, annals.short_reply(0).is_none());
    assert_same(rt, annals.rows(0).len(), 2);
    assert_that(rt, annals.reply(0) == Reply::Rows(rows));
}

// The second reply has none.
fn replies_done(rt: &impl Abort, annals: &Annals) {
    assert!(rt; 1 < annals.len());
    assert_that(rt, annals.short_reply(1) == Some(&ShortReply::Done));
    assert_that(rt, annals.rows(1).is_empty());
    assert_that(rt, annals.reply(1) == Reply::Done);
}

// What is left of the room of two seats.
fn has_left(rt: &impl Abort, annals: &Annals) {
    let left = annals.room();
    assert_same(rt, (left.entries[3], left.rows[3]), (0, 3));
    assert_same(rt, (left.entries[4], left.rows[4]), (0, 0));
}

#[test]
fn annals_tell_what_was_noted(rt: HostRuntime) {
    let mut annals = annals_of(&rt, rt.alloc(), 2, 5);
    assert_that(&rt, annals.is_empty());
    note(&rt, &mut annals, 3, Op::Next(2), Reply::Rows(two_rows(&rt)));
    note_release(&rt, &mut annals);
    count(&rt, &mut annals, 1, 7);
    count(&rt, &mut annals, 1, 2);
    assert_same(&rt, annals.len(), 2);
    assert_that(&rt, !annals.is_empty());
    has_entry(&rt, &annals, 0, 0, &Op::Next(2));
    has_entry(&rt, &annals, 1, 9, &Op::Release);
    replies_rows(&rt, &annals, two_rows(&rt));
    replies_done(&rt, &annals);
    has_left(&rt, &annals);
}

// A history of writes that all weigh as much, and how many there may be.
#[derive(Drop)]
struct Tally {
    annals: Annals,
    peak: u64,
    most: u64,
}

impl Stands for Tally {
    ghost use Rattle.std.specs.Prelude.{◌≤◌, None, false, sum};
    ghost use mathlib.Core.List.{IsPrefix};

    ghost facts = { λ t. record {
      history = t.annals.entries;
      part = λ seat. record { debt1 = 0; debt2 = 0; turns = 0; worked = false; quanta = 0; room = (0, 0); left = false };
      quanta = sum t.annals.quanta;
      peak = t.peak;
      closed = false;
      stopped = false;
    } };

    ghost stands = { λ start value. IsPrefix start.annals.entries value.annals.entries × (value.peak ≤ start.most) };

    ghost one = { λ seat old value. IsPrefix old.annals.entries value.annals.entries };

    ghost most = { λ start. start.most };

    ghost within = { λ start value stands. stands.1 };

    fn entries(&self) -> u64 {
        self.annals.len() as u64
    }

    fn peak(&self) -> u64 {
        self.peak
    }
}

// Through the trait alone: what is told lies within what the start gives.
fn told<V: Stands>(value: &V) -> (u64, u64)
    ensures { (start : V) → V.stands start value.now → result.1 ≤ V.most start }
{
    (value.entries(), value.peak())
}

#[test]
fn a_value_tells_its_entries_and_its_peak(rt: HostRuntime) {
    let mut annals = annals_of(&rt, rt.alloc(), 1, 0);
    note_release(&rt, &mut annals);
    let tally = Tally {
        annals,
        peak: 14,
        most: 28,
    };
    assert_same(&rt, told(&tally), (1, 14));
}

fn pass<G: Gate>(gate: &G) {
    for point in [Point::Admitted, Point::Paid, Point::Answered, Point::Turned] {
        gate.at(15, point);
    }
}

#[test]
fn the_shipped_gate_lets_through(_rt: HostRuntime) {
    pass(&NoGate);
}

fn is_answered(rt: &impl Abort, plain: &mut Plain, op: Op, reply: Reply) {
    assert!(rt; Plain::can_answer(&op));
    let answer = plain.answer(&op).expect(rt, "memory");
    assert_that(rt, answer == reply);
}

fn is_got(rt: &impl Abort, plain: &mut Plain, name: &[u8], reply: Reply) {
    is_answered(rt, plain, Op::Get(key(rt, name)), reply);
}

fn is_added(rt: &impl Abort, plain: &mut Plain, count: u64) {
    is_answered(rt, plain, Op::Add(key(rt, b"n"), count), Reply::Done);
}

fn is_deleted(rt: &impl Abort, plain: &mut Plain, name: &[u8], reply: Reply) {
    is_answered(rt, plain, Op::Del(key(rt, name)), reply);
}

// A put, and a del of its key.
fn put_and_del(rt: &impl Abort, plain: &mut Plain) {
    let put = Op::Put(key(rt, b"a"), value(rt, 5, b"hi"));
    is_answered(rt, plain, put, Reply::Done);
    is_got(rt, plain, b"a", Reply::Is(value(rt, 5, b"hi")));
    is_deleted(rt, plain, b"a", Reply::Done);
    is_got(rt, plain, b"a", Reply::Absent);
}

#[test]
fn the_plain_store_answers_the_worked_examples(rt: HostRuntime) {
    let mut plain = Plain::new(rt.alloc(), 71);
    put_and_del(&rt, &mut plain);
    is_added(&rt, &mut plain, u64::MAX);
    is_added(&rt, &mut plain, 2);
    is_got(&rt, &mut plain, b"n", Reply::Is(value(&rt, 1, b"")));
    is_deleted(&rt, &mut plain, b"n", Reply::Full(58));
    is_got(&rt, &mut plain, b"n", Reply::Is(value(&rt, 1, b"")));
}

// A new of a key that is there, and swaps of the right count and of another.
fn new_and_swaps(rt: &impl Abort, plain: &mut Plain) {
    is_answered(rt, plain, new_a(rt, 1, b"x"), Reply::Done);
    let kept = Reply::Kept(Some(value(rt, 1, b"x")));
    is_answered(rt, plain, new_a(rt, 2, b"y"), kept);
    is_answered(rt, plain, swap_a(rt, 1, 7, b"z"), Reply::Done);
    let kept = Reply::Kept(Some(value(rt, 7, b"z")));
    is_answered(rt, plain, swap_a(rt, 1, 9, b"z"), kept);
    is_got(rt, plain, b"a", Reply::Is(value(rt, 7, b"z")));
}

#[test]
fn the_plain_store_looks_first(rt: HostRuntime) {
    let mut plain = Plain::new(rt.alloc(), 44);
    new_and_swaps(&rt, &mut plain);
    is_deleted(&rt, &mut plain, b"a", Reply::Done);
    is_answered(&rt, &mut plain, swap_a(&rt, 7, 1, b""), Reply::Kept(None));
    is_answered(&rt, &mut plain, new_a(&rt, 3, b""), Reply::Full(44));
    is_got(&rt, &mut plain, b"a", Reply::Absent);
}

// The entry of this place is that of this seat, with this reply.
fn has_reply(rt: &impl Abort, history: &[Entry], place: usize, seat: u32, reply: Reply) {
    let entry = history.get(place).expect(rt, "so many");
    assert_that(rt, entry.seat == seat);
    assert_that(rt, entry.reply == reply);
}

fn line(seat: u32, op: Op) -> Line {
    Line { seat, op }
}

#[test]
fn a_script_runs_line_by_line(rt: HostRuntime) {
    let script = [
        line(0, Op::Add(key(&rt, b"n"), 7)),
        line(15, Op::Get(key(&rt, b"n"))),
    ];
    assert!(rt; Plain::can_run(&script));
    let history = run(rt.alloc(), &script, 14).expect(&rt, "memory");
    assert_same(&rt, history.len(), 2);
    has_reply(&rt, &history, 1, 15, Reply::Is(value(&rt, 7, b"")));
}
