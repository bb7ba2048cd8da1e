// The book of the seats.
ghost use Rattle.std.specs.Prelude.{◌≡◌, [], replicate};
ghost use Rattle.blsm_model.specs.Format.{callers};
ghost use Rattle.seat_book.specs.State.{opened_in};

use crate::asserts::{assert_same, assert_same_at, assert_that};
use blsm_model::{Annals, Key, Op, Room, Row, RowList, ShortReply, Text, Totals, Value, Why};
use seat_book::{SeatBook, Turned};
use std::alloc::Global;
use std::process::Abort;

fn key(rt: &impl Abort) -> Key {
    Key::from_bytes(b"a").expect(rt, "a key")
}

// A fresh book: each caller may note four entries and four rows.
fn fresh(rt: &impl Abort, alloc: Global) -> SeatBook
    ensures { result ≡ opened_in (record { entries = []; quanta = []; room = record { entries = replicate callers 4; rows = replicate callers 4 } }) 1000 3 }
{
    let room = Room {
        entries: [4; 16],
        rows: [4; 16],
    };
    let annals = Annals::reserve(alloc, room).expect(rt, "memory");
    SeatBook::open(annals, 1_000, 3)
}

// A turn of a caller's work, which it may do.
fn turn(rt: &impl Abort, book: &mut SeatBook, seat: u32, ended: Turned, quanta: u32) {
    assert_that(rt, book.may_turn(seat));
    book.turn(seat, ended, quanta.min(1));
}

// The end of a caller's work, which is finished, with its reply.
fn ends(rt: &impl Abort, book: &mut SeatBook, seat: u32, n: u32, reply: ShortReply) {
    assert_that(rt, book.may_end(seat, n));
    assert_that(rt, book.end_work(seat, n) == reply);
}

#[test]
fn a_fresh_book_is_empty(rt: HostRuntime) {
    let book = fresh(&rt, rt.alloc());
    assert_same(&rt, book.entries(), 0);
    assert_same(&rt, book.peak(), 0);
    assert_same(&rt, book.charge_at_opening(), 1_000);
    assert_same(&rt, book.faults_at_opening(), 3);
    assert!(rt; std::mem::size_of::<SeatBook>() <= 1_240);
}

#[test]
fn a_fresh_book_runs(rt: HostRuntime) {
    let book = fresh(&rt, rt.alloc());
    assert_that(&rt, book.stopped().is_none());
    assert_that(&rt, book.stopped_reply().is_none());
    assert_that(&rt, !book.is_closed());
}

// Fifteen is the last caller's seat; a reply of five rows has no room.
#[test]
fn callers_may_note_and_turn(rt: HostRuntime) {
    let book = fresh(&rt, rt.alloc());
    assert_that(&rt, book.may_note(15, 4));
    assert_that(&rt, !book.may_note(15, 5));
    assert_that(&rt, !book.may_note(16, 0));
    assert_that(&rt, book.may_turn(15));
    assert_that(&rt, !book.may_turn(16));
    assert_that(&rt, !book.may_end(15, 1));
}

#[test]
fn the_peak_is_the_greatest(rt: HostRuntime) {
    let mut book = fresh(&rt, rt.alloc());
    book.raise_peak(500);
    book.raise_peak(400);
    assert_same(&rt, book.peak(), 500);
}

#[test]
fn a_book_is_closed_once_all_left(rt: HostRuntime) {
    let mut book = fresh(&rt, rt.alloc());
    for seat in 0..16 {
        assert_that(&rt, !book.is_closed());
        book.leave(seat);
    }
    assert_that(&rt, book.is_closed());
}

// An entry has so many quanta.
fn has_quanta(rt: &impl Abort, book: &SeatBook, place: u32, quanta: u64) {
    let annals = book.annals();
    assert!(rt; (place as usize) < annals.len());
    assert_same(rt, annals.quanta(place), quanta);
}

#[test]
fn a_quantum_counts_to_the_last_write_that_was_done(rt: HostRuntime) {
    let mut book = fresh(&rt, rt.alloc());
    book.note(3, Op::Add(key(&rt), 5), ShortReply::Done);
    book.note(5, Op::Del(key(&rt)), ShortReply::Done);
    book.note(3, Op::Del(key(&rt)), ShortReply::Full(7));
    book.note(3, Op::Get(key(&rt)), ShortReply::Absent);
    book.count_quantum(3);
    book.count_for_write(3);
    book.count_for_write(5);
    book.count_for_write(5);
    assert_same(&rt, book.entries(), 4);
    for (place, quanta) in [(0, 1), (1, 2), (2, 0), (3, 0)] {
        has_quanta(&rt, &book, place, quanta);
    }
}

const TOTALS: Totals = Totals {
    peak: 60,
    high: 65_536,
    callers: 1,
    workers: 2,
    passes: 2,
    deeps: 1,
    charge: 1_060,
    stopped: None,
};

#[test]
fn a_run_has_its_totals(rt: HostRuntime) {
    let mut book = fresh(&rt, rt.alloc());
    book.count_quantum(15);
    book.count_quantum(16);
    book.count_quantum(23);
    book.count_pass();
    book.count_pass();
    book.count_deep();
    book.raise_peak(60);
    assert_same(&rt, book.totals(65_536, 1_060), TOTALS);
}

#[test]
fn workers_turns_are_counted(rt: HostRuntime) {
    let mut book = fresh(&rt, rt.alloc());
    book.worker_turn(23);
    book.worker_turn(23);
    assert_same(&rt, (book.worker_turns(16), book.worker_turns(23)), (0, 2));
}

// A reply with one row.
fn one_row(rt: &impl Abort) -> RowList {
    let mut rows = RowList::new();
    rows.push(Row {
        key: key(rt),
        value: Value {
            count: 7,
            text: Text::empty(),
        },
    });
    rows
}

// Notes it, for which there is room.
fn note_row(rt: &impl Abort, book: &mut SeatBook) {
    let rows = one_row(rt);
    assert_that(rt, rows.as_slice().len() == 1);
    assert_that(rt, book.may_note(2, 1));
    book.note_rows(2, Op::Next(1), rows.as_slice());
}

#[test]
fn rows_take_their_room(rt: HostRuntime) {
    let mut book = fresh(&rt, rt.alloc());
    note_row(&rt, &mut book);
    assert_that(&rt, book.may_note(2, 3));
    assert_that(&rt, !book.may_note(2, 4));
    assert_same(&rt, book.into_annals().len(), 1);
}

// Whether a work of so many turns is finished.
fn may_end(rt: &impl Abort, book: &SeatBook, n: u32, may: bool) {
    assert_same_at(rt, book.may_end(3, n), may, n);
}

// A work of three turns, of which the last one was idle and the first one had a quantum.
fn work_three(rt: &impl Abort, book: &mut SeatBook) {
    turn(rt, book, 3, Turned::Worked, 1);
    turn(rt, book, 3, Turned::Worked, 0);
    turn(rt, book, 3, Turned::Idle, 0);
    assert_same(rt, book.turns(3), 3);
}

// The entry that a work left.
fn has_work(rt: &impl Abort, book: &SeatBook) {
    let annals = book.annals();
    assert_eq!(rt; annals.len(), 1);
    assert_that(rt, annals.op(0) == &Op::Work(9));
    assert_same(rt, (annals.seat(0), annals.quanta(0)), (3, 1));
}

// Its last turn was idle: a work of three turns or more is finished, and nothing else is noted before.
#[test]
fn a_work_ends_with_its_turns(rt: HostRuntime) {
    let mut book = fresh(&rt, rt.alloc());
    work_three(&rt, &mut book);
    assert_that(&rt, !book.may_note(3, 0));
    for (n, may) in [(3, true), (9, true), (2, false)] {
        may_end(&rt, &book, n, may);
    }
    ends(&rt, &mut book, 3, 9, ShortReply::Did(2));
    assert_same(&rt, book.turns(3), 0);
    assert_that(&rt, book.may_note(3, 0));
    has_work(&rt, &book);
}

// A work whose own turn failed tells it, also after the stop; any other tells the stop.
#[test]
fn a_stop_is_told(rt: HostRuntime) {
    let mut book = fresh(&rt, rt.alloc());
    let why = Why::Faulted(4);
    turn(&rt, &mut book, 4, Turned::Worked, 1);
    turn(&rt, &mut book, 5, Turned::Failed, 0);
    book.stop(why);
    assert_that(&rt, book.stopped() == Some(why));
    assert_that(&rt, book.stopped_reply() == Some(ShortReply::Stopped(why)));
    ends(&rt, &mut book, 4, 1, ShortReply::Stopped(why));
    ends(&rt, &mut book, 5, 1, ShortReply::Fault);
}

// The reply of a work of one turn that ended so, in a tree that runs.
fn replies_after(rt: &impl Abort, alloc: Global, ended: Turned, reply: ShortReply) {
    let mut book = fresh(rt, alloc);
    turn(rt, &mut book, 6, ended, 0);
    ends(rt, &mut book, 6, 1, reply);
}

#[test]
fn a_work_replies_as_its_last_turn_ended(rt: HostRuntime) {
    let table = [
        (Turned::Worked, ShortReply::Did(1)),
        (Turned::Idle, ShortReply::Did(0)),
        (Turned::BadPage(12), ShortReply::Damaged(12)),
        (Turned::Failed, ShortReply::Fault),
    ];
    for (ended, reply) in table {
        replies_after(&rt, rt.alloc(), ended, reply);
    }
}
