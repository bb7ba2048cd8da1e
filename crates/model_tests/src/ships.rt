// Ships that are read, and that what is printed is read as itself.
use crate::asserts::{assert_same, assert_that};
use crate::samples::{key, sink, value};
use crate::scripts::{add_text, line_of, repeated};
use blsm_model::{Op, Text};
use script_text::Piece;
use ship_text::{MAX_NUMBER, MOST_SHIPS, Ship, ShipFault, Ships, print_ship, read_ships};
use std::alloc::Global;
use std::process::Abort;

const TEXT: &[u8] = b"ship 2 put a 5 hi
ship 1 add n 18446744073709551615
ship 2 tail a xy
ship 18446744073709551614 del a";

fn ships_of(rt: &impl Abort, alloc: Global, text: &[u8]) -> Ships {
    read_ships(alloc, text).expect(rt, "ships")
}

// The ship of this line is this one.
fn is_ship(rt: &impl Abort, ships: &Ships, place: usize, n: u64, op: Op) {
    let ship = ships.lines().get(place).expect(rt, "so many");
    assert_that(rt, *ship == Ship { n, op });
}

#[test]
fn the_writes_of_ships_are_read(rt: HostRuntime) {
    let ships = ships_of(&rt, rt.alloc(), TEXT);
    let put = Op::Put(key(&rt, b"a"), value(&rt, 5, b"hi"));
    is_ship(&rt, &ships, 0, 2, put);
    let add = Op::Add(key(&rt, b"n"), 18446744073709551615);
    is_ship(&rt, &ships, 1, 1, add);
    let tail = Op::Tail(
        key(&rt, b"a"),
        Text::from_bytes(b"xy").expect(&rt, "a tail"),
    );
    is_ship(&rt, &ships, 2, 2, tail);
    is_ship(&rt, &ships, 3, MAX_NUMBER, Op::Del(key(&rt, b"a")));
}

#[test]
fn ships_have_room_for_one_caller(rt: HostRuntime) {
    let room = ships_of(&rt, rt.alloc(), TEXT).room();
    assert_same(
        &rt,
        room.entries,
        [5, 0, 0, 0, 0, 0, 0, 0, 0, 0, 0, 0, 0, 0, 0, 0],
    );
    assert_same(&rt, room.rows, [0; 16]);
}

// How many ships the text has, or which line is bad.
fn count_ships(alloc: Global, text: &[u8]) -> Result<usize, ShipFault> {
    read_ships(alloc, text).map(|ships| ships.lines().len())
}

#[test]
fn the_first_line_that_is_no_ship_is_named(rt: HostRuntime) {
    const CASES: [(&[u8], Result<usize, ShipFault>); 36] = [
        (b"", Ok(0)),
        (b"ship 1 del a", Ok(1)),
        (b"ship 1 del a\n", Ok(1)),
        (b"ship 1 del a\nship 1 del a\n", Ok(2)),
        (b"ship 18446744073709551614 put - 0 -", Ok(1)),
        (b"ship 0 del a", Err(ShipFault::Bad(1))),
        (b"ship 18446744073709551615 del a", Err(ShipFault::Bad(1))),
        (b"ship 18446744073709551616 del a", Err(ShipFault::Bad(1))),
        (b"ship 01 del a", Err(ShipFault::Bad(1))),
        (b"ship +1 del a", Err(ShipFault::Bad(1))),
        (b"ship -1 del a", Err(ShipFault::Bad(1))),
        (b"ship 1 get a", Err(ShipFault::Bad(1))),
        (b"ship 1 new a 1 x", Err(ShipFault::Bad(1))),
        (b"ship 1 swap a 1 2 x", Err(ShipFault::Bad(1))),
        (b"ship 1 hold a b", Err(ShipFault::Bad(1))),
        (b"ship 1 next 1", Err(ShipFault::Bad(1))),
        (b"ship 1 drop", Err(ShipFault::Bad(1))),
        (b"ship 1 work 1", Err(ShipFault::Bad(1))),
        (b"ship 1 1 put a 1 -", Err(ShipFault::Bad(1))),
        (b"1 put a 1 -", Err(ShipFault::Bad(1))),
        (b"ship put a 1 -", Err(ShipFault::Bad(1))),
        (b"ship 1", Err(ShipFault::Bad(1))),
        (b"ship 1 ", Err(ShipFault::Bad(1))),
        (b"ship", Err(ShipFault::Bad(1))),
        (b"ships 1 del a", Err(ShipFault::Bad(1))),
        (b"Ship 1 del a", Err(ShipFault::Bad(1))),
        (b" ship 1 del a", Err(ShipFault::Bad(1))),
        (b"ship  1 del a", Err(ShipFault::Bad(1))),
        (b"ship 1  del a", Err(ShipFault::Bad(1))),
        (b"ship 1 del a ", Err(ShipFault::Bad(1))),
        (b"ship 1 del a\r\n", Err(ShipFault::Bad(1))),
        (b"ship 1 tail a -", Err(ShipFault::Bad(1))),
        (b"\n", Err(ShipFault::Bad(1))),
        (b"ship 1 del a\n\n", Err(ShipFault::Bad(2))),
        (b"ship 1 del a\n\nship 2 del a", Err(ShipFault::Bad(2))),
        (
            b"ship 1 del a\nship 2 del a\nship 0 del a\nship 0 del a",
            Err(ShipFault::Bad(3)),
        ),
    ];
    for &(text, wanted) in &CASES {
        assert_same(&rt, count_ships(rt.alloc(), text), wanted);
    }
}

#[test]
fn keys_and_texts_of_ships_have_their_limits(rt: HostRuntime) {
    for &(key_len, text_len, wanted) in &[
        (64, 435, Ok(1)),
        (65, 435, Err(ShipFault::Bad(1))),
        (64, 436, Err(ShipFault::Bad(1))),
    ] {
        let line = line_of(&rt, rt.alloc(), b"ship 1 put ", key_len, b" 9 ", text_len);
        assert_same(&rt, count_ships(rt.alloc(), &line), wanted);
    }
}

#[test]
fn ships_have_their_limit(rt: HostRuntime) {
    let mut text = repeated(&rt, rt.alloc(), b"ship 7 del a\n", MOST_SHIPS);
    assert_same(&rt, count_ships(rt.alloc(), &text), Ok(65536));
    add_text(&rt, &mut text, b"ship 7 del a");
    assert_same(
        &rt,
        count_ships(rt.alloc(), &text),
        Err(ShipFault::Bad(65537)),
    );
}

// The ship of the first command is read as the second.
fn is_told_as(rt: &impl Abort, alloc: Global, told: Op, read: Op) {
    let mut sink = sink(rt, alloc, 1000, &[]);
    let mut piece = Piece::new();
    assert_same(rt, print_ship(&mut sink, &mut piece, 7, &told), Ok(()));
    let ships = ships_of(rt, alloc, sink.bytes());
    is_ship(rt, &ships, 0, 7, read);
}

#[test]
fn a_printed_ship_is_read_as_itself(rt: HostRuntime) {
    let put = Op::Put(key(&rt, b"a"), value(&rt, 5, b""));
    is_told_as(&rt, rt.alloc(), put.copy(), put.copy());
    let new = Op::New(key(&rt, b"a"), value(&rt, 5, b""));
    is_told_as(&rt, rt.alloc(), new, put.copy());
    let swap = Op::Swap(key(&rt, b"a"), 3, value(&rt, 5, b""));
    is_told_as(&rt, rt.alloc(), swap, put);
}
