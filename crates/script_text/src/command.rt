// A command as a script spells it.
ghost use Rattle.std.specs.Prelude.{◌+◌, ◌≤◌, ◌++◌, codes, length};
ghost use Rattle.blsm_model.specs.Printed.{and_number, and_value, and_word, command_text};
ghost use Rattle.script_text.specs.Pieces.{AddsToPiece};

use crate::piece::{AND_KEY, COMMAND, LONGEST, Piece};
use blsm_model::{Key, Op, Text, Value};

fn add_named_key(piece: &mut Piece, name: &[u8], key: &Key)
    requires { length piece.old + length name.now + AND_KEY ≤ LONGEST }
    ensures { AddsToPiece piece.old (name.now ++ and_word key.now) (length name.now + AND_KEY) piece.new }
{
    piece.add(name);
    piece.add_and_key(key);
}

fn add_put(piece: &mut Piece, key: &Key, value: &Value)
    requires { length piece.old + COMMAND ≤ LONGEST }
    ensures { AddsToPiece piece.old (codes "put" ++ and_word key.now ++ and_value value.now) COMMAND piece.new }
{
    add_named_key(piece, b"put", key);
    piece.add_and_value(value);
}

fn add_add(piece: &mut Piece, key: &Key, count: u64)
    requires { length piece.old + COMMAND ≤ LONGEST }
    ensures { AddsToPiece piece.old (codes "add" ++ and_word key.now ++ and_number count) COMMAND piece.new }
{
    add_named_key(piece, b"add", key);
    piece.add_and_number(count);
}

fn add_tail(piece: &mut Piece, key: &Key, tail: &Text)
    requires { length piece.old + COMMAND ≤ LONGEST }
    ensures { AddsToPiece piece.old (codes "tail" ++ and_word key.now ++ and_word tail.now) COMMAND piece.new }
{
    add_named_key(piece, b"tail", key);
    piece.add_and_tail(tail);
}

fn add_new(piece: &mut Piece, key: &Key, value: &Value)
    requires { length piece.old + COMMAND ≤ LONGEST }
    ensures { AddsToPiece piece.old (codes "new" ++ and_word key.now ++ and_value value.now) COMMAND piece.new }
{
    add_named_key(piece, b"new", key);
    piece.add_and_value(value);
}

fn add_swap(piece: &mut Piece, key: &Key, count: u64, value: &Value)
    requires { length piece.old + COMMAND ≤ LONGEST }
    ensures { AddsToPiece piece.old (codes "swap" ++ and_word key.now ++ and_number count ++ and_value value.now) COMMAND piece.new }
{
    add_named_key(piece, b"swap", key);
    piece.add_and_number(count);
    piece.add_and_value(value);
}

fn add_hold(piece: &mut Piece, low: &Key, high: &Key)
    requires { length piece.old + COMMAND ≤ LONGEST }
    ensures { AddsToPiece piece.old (codes "hold" ++ and_word low.now ++ and_word high.now) COMMAND piece.new }
{
    add_named_key(piece, b"hold", low);
    piece.add_and_key(high);
}

/// Adds a command.
pub fn add_command(piece: &mut Piece, op: &Op)
    requires { length piece.old + COMMAND ≤ LONGEST }
    ensures { AddsToPiece piece.old (command_text op.now) COMMAND piece.new }
{
    match op {
        Op::Put(key, value) => add_put(piece, key, value),
        Op::Add(key, count) => add_add(piece, key, *count),
        Op::Tail(key, tail) => add_tail(piece, key, tail),
        Op::Del(key) => add_named_key(piece, b"del", key),
        Op::New(key, value) => add_new(piece, key, value),
        Op::Swap(key, count, value) => add_swap(piece, key, *count, value),
        Op::Get(key) => add_named_key(piece, b"get", key),
        Op::Hold(low, high) => add_hold(piece, low, high),
        Op::Next(n) => piece.add_named_number(b"next", u64::from(*n)),
        Op::Release => piece.add(b"drop"),
        Op::Work(n) => piece.add_named_number(b"work", u64::from(*n)),
    }
}
