// The ships of a history. Each is one call of the sink.
ghost use Rattle.std.specs.Prelude.{◌≡◌, ◌+◌, ◌<◌, ◌≤◌, ◌^◌, IfOk, length};
ghost use Rattle.text_io.specs.Text.{Writes};
ghost use Rattle.blsm_model.specs.Book.{entry_at};
ghost use Rattle.blsm_model.specs.Printed.{command_text};
ghost use Rattle.script_text.specs.Pieces.{AddsToPiece};
ghost use Rattle.ship_text.specs.Ships.{is_shipped, most_first, printed_ships, ship_text, ships_in, ships_of, ships_text, shipped};

use blsm_model::{Annals, Op, ShortReply};
use refusal::Failed;
use script_text::{COMMAND, LONGEST, Piece, add_command};
use text_io::{Sink, write_all};

/// The greatest number that the first ship of a history may have.
pub const MAX_FIRST: u64 = 9_223_372_036_854_775_808;

// A write as a ship tells it: a new or a swap that was done is its put.
fn add_write(piece: &mut Piece, op: &Op)
    requires { length piece.old + COMMAND ≤ LONGEST }
    ensures { AddsToPiece piece.old (command_text (shipped op.now)) COMMAND piece.new }
{
    match op {
        Op::New(key, value) | Op::Swap(key, _, value) => {
            piece.add(b"put");
            piece.add_and_key(key);
            piece.add_and_value(value);
        }
        _ => add_command(piece, op),
    }
}

/// Prints the ship of a write, with its number. What the piece had is gone.
/// Where the sink fails, a front of the line was written, and not the whole. It takes no memory.
pub fn print_ship<K: Sink>(
    sink: &mut K,
    piece: &mut Piece,
    number: u64,
    op: &Op,
) -> Result<(), Failed>
    ensures { Writes (ship_text number op.now) result (K.state sink.old) (K.state sink.new) }
{
    piece.clear();
    piece.add_named_number(b"ship", number);
    piece.add(b" ");
    add_write(piece, op);
    piece.add(b"\n");
    write_all(sink, piece.as_slice())
}

// Whether the entry at a place has a ship: it is a write that was done.
fn is_shipped(annals: &Annals, place: u32) -> bool
    requires { place < length annals.now.entries }
    ensures { result ≡ is_shipped (entry_at annals.now place) }
{
    annals.op(place).is_write() && matches!(annals.short_reply(place), Some(ShortReply::Done))
}

/// Prints the ship of the entry at a place, if it has one, with this number, and answers the number of the next one. What the piece had is gone where
/// there is one. Where the sink fails, a front of the line was written, and not the whole. It takes no memory.
pub fn print_ship_of<K: Sink>(
    sink: &mut K,
    piece: &mut Piece,
    annals: &Annals,
    place: u32,
    number: u64,
) -> Result<u64, Failed>
    requires place { place < length annals.now.entries }
    requires next { number + 1 < 2 ^ 64 }
    ensures text { Writes (ships_of number (entry_at annals.now place)) result (K.state sink.old) (K.state sink.new) }
    ensures next { IfOk result (λ next. next ≡ number + ships_in (entry_at annals.now place)) }
{
    if !is_shipped(annals, place) {
        return Ok(number);
    }
    print_ship(sink, piece, number, annals.op(place))?;
    Ok(number + 1)
}

// The ships of a history, the first of which has this number.
fn print_all<K: Sink>(sink: &mut K, first: u64, annals: &Annals) -> Result<(), Failed>
    requires { first ≤ most_first }
    ensures { Writes (ships_text first annals.now.entries) result (K.state sink.old) (K.state sink.new) }
{
    let count = annals.len() as u32;
    let mut piece = Piece::new();
    let mut number = first;
    for place in 0..count {
        number = print_ship_of(sink, &mut piece, annals, place, number)?;
    }
    Ok(())
}

/// Prints the ships of a history, the first of which has this number, at most `MAX_FIRST`: one for each entry that is a write and was answered that
/// it is done, in the order of the entries. With 0 it prints none.
/// Where the sink fails, a front of the text was written, and not the whole. It takes no memory.
pub fn print_ships<K: Sink>(sink: &mut K, first: u64, annals: &Annals) -> Result<(), Failed>
    requires { first ≤ most_first }
    ensures { Writes (printed_ships first annals.now.entries) result (K.state sink.old) (K.state sink.new) }
{
    if first == 0 {
        return write_all(sink, b"");
    }
    print_all(sink, first, annals)
}
