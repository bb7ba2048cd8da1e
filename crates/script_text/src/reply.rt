// A reply in words.
ghost use Rattle.std.specs.Prelude.{◌≡◌, ◌+◌, ◌≤◌, ◌++◌, codes, length};
ghost use Rattle.blsm_model.specs.Printed.{and_found, and_row, and_value, and_word, reply_text, why_text};
ghost use Rattle.blsm_model.specs.Stored.{as_reply};
ghost use Rattle.script_text.specs.Pieces.{AddsToPiece};

use crate::piece::{AND_KEY, AND_NUMBER, AND_VALUE, LONGEST, Piece, REPLY};
use blsm_model::{Row, ShortReply, Value, Why};

// The longest cause of a stop, and the longest row.
const WHY: usize = 5 + AND_NUMBER;

const ROW: usize = AND_KEY + AND_VALUE;

fn add_is(piece: &mut Piece, value: &Value)
    requires { length piece.old + REPLY ≤ LONGEST }
    ensures { AddsToPiece piece.old (codes "is" ++ and_value value.now) REPLY piece.new }
{
    piece.add(b"is");
    piece.add_and_value(value);
}

fn add_kept(piece: &mut Piece, found: &Option<Value>)
    requires { length piece.old + REPLY ≤ LONGEST }
    ensures { AddsToPiece piece.old (codes "kept" ++ and_found found.now) REPLY piece.new }
{
    piece.add(b"kept");
    match found {
        Some(value) => piece.add_and_value(value),
        None => piece.add(b" none"),
    }
}

fn add_why(piece: &mut Piece, why: &Why)
    requires { length piece.old + WHY ≤ LONGEST }
    ensures { AddsToPiece piece.old (why_text why.now) WHY piece.new }
{
    match why {
        Why::Faulted(faults) => piece.add_named_number(b"fault", *faults),
        Why::BadPage(page) => piece.add_named_number(b"page", u64::from(*page)),
    }
}

fn add_stopped(piece: &mut Piece, why: &Why)
    requires { length piece.old + REPLY ≤ LONGEST }
    ensures { AddsToPiece piece.old (codes "stopped" ++ and_word (why_text why.now)) REPLY piece.new }
{
    piece.add(b"stopped ");
    add_why(piece, why);
}

/// Adds a reply that gives no rows.
pub fn add_reply(piece: &mut Piece, reply: &ShortReply)
    requires { length piece.old + REPLY ≤ LONGEST }
    ensures { AddsToPiece piece.old (reply_text (as_reply reply.now)) REPLY piece.new }
{
    match reply {
        ShortReply::Done => piece.add(b"ok"),
        ShortReply::Is(value) => add_is(piece, value),
        ShortReply::Absent => piece.add(b"none"),
        ShortReply::Kept(found) => add_kept(piece, found),
        ShortReply::Held => piece.add(b"held"),
        ShortReply::NoHold => piece.add(b"nohold"),
        ShortReply::Did(turns) => piece.add_named_number(b"did", u64::from(*turns)),
        ShortReply::Full(charge) => piece.add_named_number(b"full", *charge),
        ShortReply::NoMemory => piece.add(b"no memory"),
        ShortReply::FaultLost => piece.add(b"fault lost"),
        ShortReply::FaultUnsure => piece.add(b"fault unsure"),
        ShortReply::Fault => piece.add(b"fault"),
        ShortReply::Damaged(page) => piece.add_named_number(b"damaged page", u64::from(*page)),
        ShortReply::Stopped(why) => add_stopped(piece, why),
    }
}

/// Adds a row.
pub fn add_and_row(piece: &mut Piece, row: &Row)
    requires { length piece.old + ROW ≤ LONGEST }
    ensures { piece.new ≡ piece.old ++ and_row row.now }
{
    piece.add_and_key(&row.key);
    piece.add_and_value(&row.value);
}
