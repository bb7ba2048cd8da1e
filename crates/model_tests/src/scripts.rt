// Scripts that are read, and histories that are printed.
ghost use Rattle.std.specs.Prelude.{◌≡◌, length};
ghost use Rattle.blsm_model.specs.Book.{noted, rows_given};

use crate::asserts::{assert_same, assert_that};
use crate::samples::{key, sink, value};
use blsm_model::{Annals, Entry, Line, Op, Reply, Room, Row, RowList, Totals, Value, Why};
use refusal::Failed;
use script_text::{
    LONGEST_LINE, MOST_LINES, MOST_ROWS_ASKED, Piece, Script, ScriptFault, print_charge, print_end,
    print_entry, print_history, read_line, read_script,
};
use std::alloc::Global;
use std::process::Abort;
use text_io::MemSink;

const SCRIPT: &[u8] = b"1 put a 5 hi
16 add n 18446744073709551615
1 del a
2 put - 0 -
1 get a
3 work 1000
3 hold b a
3 next 32
1 next 5
3 next 1
16 drop";

fn script_of(rt: &impl Abort, alloc: Global, text: &[u8]) -> Script {
    read_script(alloc, text).expect(rt, "a script")
}

// The line of this place is this one.
fn is_line(rt: &impl Abort, script: &Script, place: usize, seat: u32, op: Op) {
    let line = script.lines().get(place).expect(rt, "so many");
    assert_that(rt, *line == Line { seat, op });
}

fn is_put(rt: &impl Abort, script: &Script, place: usize, seat: u32, name: &[u8], value: Value) {
    is_line(rt, script, place, seat, Op::Put(key(rt, name), value));
}

#[test]
fn writes_and_gets_are_read(rt: HostRuntime) {
    let script = script_of(&rt, rt.alloc(), SCRIPT);
    is_put(&rt, &script, 0, 0, b"a", value(&rt, 5, b"hi"));
    let add = Op::Add(key(&rt, b"n"), 18446744073709551615);
    is_line(&rt, &script, 1, 15, add);
    is_line(&rt, &script, 2, 0, Op::Del(key(&rt, b"a")));
    is_put(&rt, &script, 3, 1, b"-", value(&rt, 0, b""));
    is_line(&rt, &script, 4, 0, Op::Get(key(&rt, b"a")));
}

#[test]
fn writes_that_look_first_are_read(rt: HostRuntime) {
    const TEXT: &[u8] = b"16 new a 5 hi\n1 swap a 5 18446744073709551615 -";
    let script = script_of(&rt, rt.alloc(), TEXT);
    let new = Op::New(key(&rt, b"a"), value(&rt, 5, b"hi"));
    is_line(&rt, &script, 0, 15, new);
    let swap = Op::Swap(key(&rt, b"a"), 5, value(&rt, 18446744073709551615, b""));
    is_line(&rt, &script, 1, 0, swap);
}

#[test]
fn works_and_holds_are_read(rt: HostRuntime) {
    let script = script_of(&rt, rt.alloc(), SCRIPT);
    is_line(&rt, &script, 5, 2, Op::Work(1000));
    let hold = Op::Hold(key(&rt, b"b"), key(&rt, b"a"));
    is_line(&rt, &script, 6, 2, hold);
    is_line(&rt, &script, 7, 2, Op::Next(32));
    is_line(&rt, &script, 8, 0, Op::Next(5));
    is_line(&rt, &script, 9, 2, Op::Next(1));
    is_line(&rt, &script, 10, 15, Op::Release);
}

#[test]
fn a_script_has_room_for_its_entries_and_rows(rt: HostRuntime) {
    let script = script_of(&rt, rt.alloc(), SCRIPT);
    assert_same(&rt, script.lines().len(), 11);
    let room = script.room();
    assert_same(
        &rt,
        room.entries,
        [4, 1, 4, 0, 0, 0, 0, 0, 0, 0, 0, 0, 0, 0, 0, 2],
    );
    assert_same(
        &rt,
        room.rows,
        [5, 0, 33, 0, 0, 0, 0, 0, 0, 0, 0, 0, 0, 0, 0, 0],
    );
}

// How many lines the text has, or which is bad.
fn count_lines(alloc: Global, text: &[u8]) -> Result<usize, ScriptFault> {
    read_script(alloc, text).map(|script| script.lines().len())
}

#[test]
fn the_first_bad_line_is_named(rt: HostRuntime) {
    const CASES: [(&[u8], Result<usize, ScriptFault>); 44] = [
        (b"", Ok(0)),
        (b"1 get a", Ok(1)),
        (b"1 get a\n", Ok(1)),
        (b"1 get a\n2 get b", Ok(2)),
        (b"1 put a 0 -", Ok(1)),
        (b"1 put a 0 --", Ok(1)),
        (b"1 get !~", Ok(1)),
        (b"1 work 1", Ok(1)),
        (b"16 work 100000\n", Ok(1)),
        (b"\n", Err(ScriptFault::Bad(1))),
        (b"\n1 get a", Err(ScriptFault::Bad(1))),
        (b"1 get a\n\n", Err(ScriptFault::Bad(2))),
        (b"1 get a\n\n1 get a", Err(ScriptFault::Bad(2))),
        (b"1 get a\n1 frob a\n1 frob a\n", Err(ScriptFault::Bad(2))),
        (b"1  get a", Err(ScriptFault::Bad(1))),
        (b"1 get  a", Err(ScriptFault::Bad(1))),
        (b" 1 get a", Err(ScriptFault::Bad(1))),
        (b"1 get a ", Err(ScriptFault::Bad(1))),
        (b"1 get a b", Err(ScriptFault::Bad(1))),
        (b"1 get", Err(ScriptFault::Bad(1))),
        (b"1 get ", Err(ScriptFault::Bad(1))),
        (b"1", Err(ScriptFault::Bad(1))),
        (b"get a", Err(ScriptFault::Bad(1))),
        (b"1\tget a", Err(ScriptFault::Bad(1))),
        (b"1 get a\r\n", Err(ScriptFault::Bad(1))),
        (b"1 get a\x7f", Err(ScriptFault::Bad(1))),
        (b"1 get \xc3\xa4", Err(ScriptFault::Bad(1))),
        (b"1 GET a", Err(ScriptFault::Bad(1))),
        (b"0 get a", Err(ScriptFault::Bad(1))),
        (b"17 get a", Err(ScriptFault::Bad(1))),
        (b"01 get a", Err(ScriptFault::Bad(1))),
        (b"+1 get a", Err(ScriptFault::Bad(1))),
        (b"1 add a 00", Err(ScriptFault::Bad(1))),
        (b"1 add a -1", Err(ScriptFault::Bad(1))),
        (b"1 add a 18446744073709551616", Err(ScriptFault::Bad(1))),
        (b"1 add a", Err(ScriptFault::Bad(1))),
        (b"1 put a 1", Err(ScriptFault::Bad(1))),
        (b"1 put a 1 ", Err(ScriptFault::Bad(1))),
        (b"1 work 0", Err(ScriptFault::Bad(1))),
        (b"1 work 100001", Err(ScriptFault::Bad(1))),
        (b"1 work 01", Err(ScriptFault::Bad(1))),
        (b"1 work +1", Err(ScriptFault::Bad(1))),
        (b"1 work", Err(ScriptFault::Bad(1))),
        (b"1 work 1 1", Err(ScriptFault::Bad(1))),
    ];
    for &(text, wanted) in &CASES {
        assert_same(&rt, count_lines(rt.alloc(), text), wanted);
    }
}

#[test]
fn a_line_is_read_without_its_end(rt: HostRuntime) {
    let get = Line {
        seat: 15,
        op: Op::Get(key(&rt, b"a")),
    };
    assert_that(&rt, read_line(b"16 get a") == Some(get));
    for bytes in [b"16 get a\n".as_slice(), b"17 get a", b"0 get a", b""] {
        assert_that(&rt, read_line(bytes).is_none());
    }
}

/// A line, by its words before the key, the key's length, its words behind it, and the text's length.
pub fn line_of(
    rt: &impl Abort,
    alloc: Global,
    before: &[u8],
    key: u32,
    behind: &[u8],
    text: u32,
) -> Vec<u8> {
    let mut line = repeated(rt, alloc, before, 1);
    add_text(rt, &mut line, &repeated(rt, alloc, b"k", key));
    add_text(rt, &mut line, behind);
    add_text(rt, &mut line, &repeated(rt, alloc, b"t", text));
    line
}

// A swap by caller 16 of a key of 64 bytes, of two counts of 20 digits and a text of so many.
fn longest_swap(rt: &impl Abort, alloc: Global, text: u32) -> Vec<u8> {
    const COUNTS: &[u8] = b" 18446744073709551615 18446744073709551615 ";
    line_of(rt, alloc, b"16 swap ", 64, COUNTS, text)
}

#[test]
fn the_longest_line_has_its_length(rt: HostRuntime) {
    let longest = longest_swap(&rt, rt.alloc(), 435);
    assert_same(&rt, longest.len(), LONGEST_LINE);
    assert_that(&rt, read_line(longest.as_slice()).is_some());
    let longer = longest_swap(&rt, rt.alloc(), 436);
    assert_that(&rt, read_line(longer.as_slice()).is_none());
}

#[test]
fn a_line_of_a_write_that_looks_first_has_its_words(rt: HostRuntime) {
    const CASES: [(&[u8], Result<usize, ScriptFault>); 24] = [
        (b"1 new a 1 -", Ok(1)),
        (b"16 new a 18446744073709551615 x\n", Ok(1)),
        (b"1 swap a 0 1 -", Ok(1)),
        (b"1 swap - 18446744073709551615 0 --", Ok(1)),
        (b"1 new", Err(ScriptFault::Bad(1))),
        (b"1 new a", Err(ScriptFault::Bad(1))),
        (b"1 new a 1", Err(ScriptFault::Bad(1))),
        (b"1 new a 1 ", Err(ScriptFault::Bad(1))),
        (b"1 new a 1 x y", Err(ScriptFault::Bad(1))),
        (b"1 new a -1 x", Err(ScriptFault::Bad(1))),
        (b"1 new a 01 x", Err(ScriptFault::Bad(1))),
        (b"1 new a 18446744073709551616 x", Err(ScriptFault::Bad(1))),
        (b"1 news a 1 x", Err(ScriptFault::Bad(1))),
        (b"1 swap", Err(ScriptFault::Bad(1))),
        (b"1 swap a 1", Err(ScriptFault::Bad(1))),
        (b"1 swap a 1 2", Err(ScriptFault::Bad(1))),
        (b"1 swap a 1 2 ", Err(ScriptFault::Bad(1))),
        (b"1 swap a 1 2 x y", Err(ScriptFault::Bad(1))),
        (b"1 swap a -1 2 x", Err(ScriptFault::Bad(1))),
        (b"1 swap a 01 2 x", Err(ScriptFault::Bad(1))),
        (b"1 swap a 1 -2 x", Err(ScriptFault::Bad(1))),
        (
            b"1 swap a 1 18446744073709551616 x",
            Err(ScriptFault::Bad(1)),
        ),
        (
            b"1 swap a 18446744073709551616 1 x",
            Err(ScriptFault::Bad(1)),
        ),
        (b"1 new a 1 x\n1 swap a 1 2\n", Err(ScriptFault::Bad(2))),
    ];
    for &(text, wanted) in &CASES {
        assert_same(&rt, count_lines(rt.alloc(), text), wanted);
    }
}

#[test]
fn a_line_of_a_hold_has_its_words(rt: HostRuntime) {
    const CASES: [(&[u8], Result<usize, ScriptFault>); 27] = [
        (b"1 hold a b", Ok(1)),
        (b"16 hold b a\n", Ok(1)),
        (b"1 hold - -\n1 hold a a", Ok(2)),
        (b"1 next 1", Ok(1)),
        (b"16 next 32\n", Ok(1)),
        (b"1 drop", Ok(1)),
        (b"1 drop\n16 drop\n", Ok(2)),
        (b"1 hold a", Err(ScriptFault::Bad(1))),
        (b"1 hold a ", Err(ScriptFault::Bad(1))),
        (b"1 hold  b", Err(ScriptFault::Bad(1))),
        (b"1 hold a b ", Err(ScriptFault::Bad(1))),
        (b"1 hold a b c", Err(ScriptFault::Bad(1))),
        (b"1 hold", Err(ScriptFault::Bad(1))),
        (b"1 next 0", Err(ScriptFault::Bad(1))),
        (b"1 next 33", Err(ScriptFault::Bad(1))),
        (b"1 next 01", Err(ScriptFault::Bad(1))),
        (b"1 next +1", Err(ScriptFault::Bad(1))),
        (b"1 next 1 1", Err(ScriptFault::Bad(1))),
        (b"1 next a", Err(ScriptFault::Bad(1))),
        (b"1 next", Err(ScriptFault::Bad(1))),
        (b"1 drop a", Err(ScriptFault::Bad(1))),
        (b"1 drop ", Err(ScriptFault::Bad(1))),
        (b"1  drop", Err(ScriptFault::Bad(1))),
        (b"1 drops", Err(ScriptFault::Bad(1))),
        (b"1 release", Err(ScriptFault::Bad(1))),
        (b"drop", Err(ScriptFault::Bad(1))),
        (b"1 drop\n1 drop a\n1 next 0", Err(ScriptFault::Bad(2))),
    ];
    for &(text, wanted) in &CASES {
        assert_same(&rt, count_lines(rt.alloc(), text), wanted);
    }
}

/// Adds to a text.
pub fn add_text(rt: &impl Abort, text: &mut Vec<u8>, more: &[u8]) {
    assert_that(rt, text.extend_from_slice(more).is_ok());
}

/// A line, so many times.
pub fn repeated(rt: &impl Abort, alloc: Global, line: &[u8], times: u32) -> Vec<u8> {
    let mut text = Vec::new(alloc);
    for _ in 0..times {
        add_text(rt, &mut text, line);
    }
    text
}

// Lines that ask for as many rows as a script may, and behind them the lines of each case.
#[test]
fn a_script_asks_for_so_many_rows(rt: HostRuntime) {
    const CASES: [(&[u8], Result<usize, ScriptFault>); 5] = [
        (b"", Ok(4096)),
        (b"2 hold a b\n2 drop", Ok(4098)),
        (b"1 next 1", Err(ScriptFault::Bad(4097))),
        (b"2 next 1\n", Err(ScriptFault::Bad(4097))),
        (b"1 get a\n1 next 32\n1 frob", Err(ScriptFault::Bad(4098))),
    ];
    for &(more, wanted) in &CASES {
        let mut text = repeated(&rt, rt.alloc(), b"1 next 32\n", MOST_ROWS_ASKED / 32);
        add_text(&rt, &mut text, more);
        assert_same(&rt, count_lines(rt.alloc(), &text), wanted);
    }
}

// The limits of the key and the text of a write, by its words before and behind the key.
fn has_limits(rt: &impl Abort, alloc: Global, before: &[u8], behind: &[u8]) {
    for &(key_len, text_len, wanted) in &[
        (64, 435, Ok(1)),
        (65, 435, Err(ScriptFault::Bad(1))),
        (64, 436, Err(ScriptFault::Bad(1))),
    ] {
        let line = line_of(rt, alloc, before, key_len, behind, text_len);
        assert_same(rt, count_lines(alloc, &line), wanted);
    }
}

#[test]
fn keys_and_texts_have_their_limits(rt: HostRuntime) {
    has_limits(&rt, rt.alloc(), b"1 put ", b" 9 ");
    has_limits(&rt, rt.alloc(), b"1 new ", b" 9 ");
    has_limits(&rt, rt.alloc(), b"1 swap ", b" 9 10 ");
}

#[test]
fn scripts_have_their_limit(rt: HostRuntime) {
    let mut text = repeated(&rt, rt.alloc(), b"1 get a\n", MOST_LINES);
    assert_same(&rt, count_lines(rt.alloc(), &text), Ok(65536));
    add_text(&rt, &mut text, b"1 get a");
    assert_same(
        &rt,
        count_lines(rt.alloc(), &text),
        Err(ScriptFault::Bad(65537)),
    );
}

fn count_rows(reply: &Reply) -> u32
    ensures { result ≡ length (rows_given reply.now) }
{
    match reply {
        Reply::Rows(rows) => rows.as_slice().len() as u32,
        _ => 0,
    }
}

/// Notes an entry, for which there is room.
pub fn note(rt: &impl Abort, annals: &mut Annals, seat: u32, op: Op, reply: Reply)
    ensures { annals.new ≡ noted annals.old (record { seat = seat; op = op; reply = reply }) }
{
    let room = annals.room();
    assert!(rt; seat < 16);
    assert!(rt; room.entries[seat as usize] > 0);
    assert!(rt; count_rows(&reply) <= room.rows[seat as usize]);
    annals.note(Entry { seat, op, reply });
}

fn row(rt: &impl Abort, name: &[u8], count: u64, text: &[u8]) -> Row {
    Row {
        key: key(rt, name),
        value: value(rt, count, text),
    }
}

fn two_rows(rt: &impl Abort) -> RowList {
    let mut rows = RowList::new();
    rows.push(row(rt, b"a", 1, b""));
    rows.push(row(rt, b"b", 2, b"t"));
    rows
}

// Annals with room for 40 entries and 32 rows of one caller.
fn roomy(rt: &impl Abort, alloc: Global, seat: u32) -> Annals {
    let mut room = Room {
        entries: [0; 16],
        rows: [0; 16],
    };
    if seat < 16 {
        room.entries = [0; 16];
        room.entries[seat as usize] = 40;
        room.rows[seat as usize] = 32;
    }
    Annals::reserve(alloc, room).expect(rt, "memory")
}

fn totals(peak: u64) -> Totals {
    Totals {
        peak,
        high: 65536,
        callers: 0,
        workers: 0,
        passes: 0,
        deeps: 0,
        charge: 0,
        stopped: None,
    }
}

// The history is printed whole.
fn is_printed(
    rt: &impl Abort,
    alloc: Global,
    charge: u64,
    annals: &Annals,
    totals: &Totals,
    text: &[u8],
) {
    let mut sink = sink(rt, alloc, 2000, &[]);
    let answer = print_history(&mut sink, charge, annals, totals);
    assert_same(rt, answer, Ok(()));
    assert_same(rt, sink.bytes(), text);
}

#[test]
fn an_empty_history_is_two_lines(rt: HostRuntime) {
    let annals = roomy(&rt, rt.alloc(), 0);
    let wanted = b"open charge 14\nend c0 0 of 65536 callers 0 workers 0 swaps 0 0\n";
    is_printed(&rt, rt.alloc(), 14, &annals, &totals(0), wanted);
}

fn note_get(rt: &impl Abort, annals: &mut Annals, reply: Reply) {
    note(rt, annals, 0, Op::Get(key(rt, b"a")), reply);
}

fn four_entries(rt: &impl Abort, alloc: Global) -> Annals {
    let mut annals = roomy(rt, alloc, 0);
    let put = Op::Put(key(rt, b"a"), value(rt, 5, b"hi"));
    note(rt, &mut annals, 0, put, Reply::Done);
    note_get(rt, &mut annals, Reply::Is(value(rt, 5, b"hi")));
    note(rt, &mut annals, 0, Op::Del(key(rt, b"a")), Reply::Done);
    note_get(rt, &mut annals, Reply::Absent);
    annals
}

// What a sink holds that fails at this call, and how many calls failed.
fn is_printed_to(
    rt: &impl Abort,
    alloc: Global,
    annals: &Annals,
    call: u64,
    answer: Result<(), Failed>,
    text: &[u8],
) {
    let mut sink = sink(rt, alloc, 1000, &[call]);
    let faults = if answer.is_ok() { 0 } else { 1 };
    assert_same(rt, print_history(&mut sink, 0, annals, &totals(16)), answer);
    assert_same(rt, sink.bytes(), text);
    assert_same(rt, sink.faults(), faults);
}

// The history is printed in calls of these parts: a sink that fails at a call holds the parts before it, and there is no
// call after the last.
fn is_printed_in(rt: &impl Abort, alloc: Global, annals: &Annals, parts: &[&[u8]]) {
    let mut before = Vec::new(alloc);
    let mut call = 1u64;
    for part in parts {
        is_printed_to(rt, alloc, annals, call, Err(Failed), before.as_slice());
        add_text(rt, &mut before, part);
        call = call.wrapping_add(1);
    }
    is_printed_to(rt, alloc, annals, call, Ok(()), before.as_slice());
}

#[test]
fn a_line_is_one_call_of_the_sink(rt: HostRuntime) {
    let annals = four_entries(&rt, rt.alloc());
    let lines: [&[u8]; 6] = [
        b"open charge 0\n",
        b"1 1 put a 5 hi => ok q0\n",
        b"2 1 get a => is 5 hi q0\n",
        b"3 1 del a => ok q0\n",
        b"4 1 get a => none q0\n",
        b"end c0 16 of 65536 callers 0 workers 0 swaps 0 0\n",
    ];
    is_printed_in(&rt, rt.alloc(), &annals, &lines);
}

// Printed line by line, the first four entries are the whole text.
fn print_lines(rt: &impl Abort, sink: &mut MemSink, annals: &Annals) {
    assert_same(rt, print_charge(sink, 0), Ok(()));
    let mut piece = Piece::new();
    for place in 0..4u32 {
        assert!(rt; (place as usize) < annals.len());
        assert_same(rt, print_entry(sink, &mut piece, annals, place), Ok(()));
    }
    assert_same(rt, print_end(sink, &totals(16)), Ok(()));
}

#[test]
fn a_history_is_its_lines(rt: HostRuntime) {
    let annals = four_entries(&rt, rt.alloc());
    let mut sink = sink(&rt, rt.alloc(), 1000, &[]);
    print_lines(&rt, &mut sink, &annals);
    is_printed(&rt, rt.alloc(), 0, &annals, &totals(16), sink.bytes());
}

#[test]
fn a_row_is_one_call_of_the_sink(rt: HostRuntime) {
    let mut annals = roomy(&rt, rt.alloc(), 0);
    let rows = Reply::Rows(two_rows(&rt));
    note(&rt, &mut annals, 0, Op::Next(32), rows);
    let parts: [&[u8]; 6] = [
        b"open charge 0\n",
        b"1 1 next 32 => rows 2",
        b" a 1 -",
        b" b 2 t",
        b" q0\n",
        b"end c0 16 of 65536 callers 0 workers 0 swaps 0 0\n",
    ];
    is_printed_in(&rt, rt.alloc(), &annals, &parts);
}

#[test]
fn a_sink_with_too_little_room_holds_a_front(rt: HostRuntime) {
    let annals = four_entries(&rt, rt.alloc());
    let mut sink = sink(&rt, rt.alloc(), 40, &[]);
    let answer = print_history(&mut sink, 0, &annals, &totals(16));
    assert_same(&rt, answer, Err(Failed));
    assert_same(
        &rt,
        sink.bytes(),
        b"open charge 0\n1 1 put a 5 hi => ok q0\n".as_slice(),
    );
}

// Notes an entry of seat 15.
fn note_last(rt: &impl Abort, annals: &mut Annals, op: Op, reply: Reply) {
    note(rt, annals, 15, op, reply);
}

fn note_writes(rt: &impl Abort, annals: &mut Annals) {
    let add = Op::Add(key(rt, b"a"), 7);
    note_last(rt, annals, add, Reply::Full(121856));
    let add = Op::Add(key(rt, b"a"), 18446744073709551615);
    note_last(rt, annals, add, Reply::FaultLost);
    let put = Op::Put(key(rt, b"a"), value(rt, 0, b""));
    note_last(rt, annals, put, Reply::FaultUnsure);
}

fn note_holds(rt: &impl Abort, annals: &mut Annals) {
    let hold = Op::Hold(key(rt, b"a"), key(rt, b"c"));
    note_last(rt, annals, hold, Reply::Held);
    let hold = Op::Hold(key(rt, b"a"), key(rt, b"a"));
    note_last(rt, annals, hold, Reply::NoMemory);
}

fn note_nexts(rt: &impl Abort, annals: &mut Annals) {
    note_last(rt, annals, Op::Next(32), Reply::Rows(two_rows(rt)));
    note_last(rt, annals, Op::Next(1), Reply::Rows(RowList::new()));
    note_last(rt, annals, Op::Next(1), Reply::NoHold);
    note_last(rt, annals, Op::Release, Reply::Done);
}

// A work of twelve quanta.
fn note_work(rt: &impl Abort, annals: &mut Annals) {
    note_last(rt, annals, Op::Work(1000), Reply::Did(6));
    assert!(rt; 9 < annals.len());
    assert_that(rt, annals.quanta(9) == 0);
    annals.count(9, 12);
}

fn note_gets(rt: &impl Abort, annals: &mut Annals) {
    for reply in [
        Reply::Fault,
        Reply::Damaged(9),
        Reply::Stopped(Why::Faulted(1)),
        Reply::Stopped(Why::BadPage(4294967295)),
    ] {
        note_last(rt, annals, Op::Get(key(rt, b"a")), reply);
    }
}

fn note_conditions(rt: &impl Abort, annals: &mut Annals) {
    let new = Op::New(key(rt, b"a"), value(rt, 5, b"hi"));
    note_last(rt, annals, new, Reply::Kept(Some(value(rt, 7, b""))));
    for reply in [Reply::Kept(None), Reply::Damaged(9)] {
        let swap = Op::Swap(key(rt, b"a"), 5, value(rt, 7, b""));
        note_last(rt, annals, swap, reply);
    }
}

const EACH: &[u8] = b"open charge 18446744073709551615
1 16 add a 7 => full 121856 q0
2 16 add a 18446744073709551615 => fault lost q0
3 16 put a 0 - => fault unsure q0
4 16 hold a c => held q0
5 16 hold a a => no memory q0
6 16 next 32 => rows 2 a 1 - b 2 t q0
7 16 next 1 => rows 0 q0
8 16 next 1 => nohold q0
9 16 drop => ok q0
10 16 work 1000 => did 6 q12
11 16 get a => fault q0
12 16 get a => damaged page 9 q0
13 16 get a => stopped fault 1 q0
14 16 get a => stopped page 4294967295 q0
15 16 new a 5 hi => kept 7 - q0
16 16 swap a 5 7 - => kept none q0
17 16 swap a 5 7 - => damaged page 9 q0
end c0 1 of 34816 callers 2 workers 3 swaps 4 5
";

const ALL: Totals = Totals {
    peak: 1,
    high: 34816,
    callers: 2,
    workers: 3,
    passes: 4,
    deeps: 5,
    charge: 6,
    stopped: None,
};

#[test]
fn each_command_and_reply_has_its_words(rt: HostRuntime) {
    let mut annals = roomy(&rt, rt.alloc(), 15);
    note_writes(&rt, &mut annals);
    note_holds(&rt, &mut annals);
    note_nexts(&rt, &mut annals);
    note_work(&rt, &mut annals);
    note_gets(&rt, &mut annals);
    note_conditions(&rt, &mut annals);
    is_printed(&rt, rt.alloc(), 18446744073709551615, &annals, &ALL, EACH);
}
