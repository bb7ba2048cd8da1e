// The text of a whole history. Each line is one call of the sink; one that gives rows is a call for each row, one for what
// stands before them and one for what stands behind.
ghost use Rattle.std.specs.Prelude.{◌+◌, ◌<◌, ◌≤◌, ◌++◌, ◌∷◌, [], codes, decimal, flat_map, length, slice_index};
ghost use Rattle.text_io.specs.Text.{Writes};
ghost use Rattle.blsm_model.specs.Book.{entry_at};
ghost use Rattle.blsm_model.specs.Printed.{and_number, and_row, and_word, command_text, end_text, entries_text, entry_text, history_text, reply_text};
ghost use Rattle.blsm_model.specs.Stored.{as_reply};
ghost use Rattle.script_text.specs.Pieces.{AddsToPiece};

use crate::command::add_command;
use crate::piece::{AND_NUMBER, LINE_END, LINE_START, LONGEST, Piece, REPLY};
use crate::reply::{add_and_row, add_reply};
use blsm_model::{Annals, Op, Row, ShortReply, Totals};
use refusal::Failed;
use text_io::{Sink, write_all};

// Which caller gave which command at which place of the history, both counted from 1, in place of what the piece had.
fn start_line(piece: &mut Piece, place: u64, caller: u64, op: &Op)
    ensures { AddsToPiece [] (decimal place ++ and_number caller ++ and_word (command_text op.now) ++ codes " => ") LINE_START piece.new }
{
    piece.clear();
    piece.add_number(place);
    piece.add_and_number(caller);
    piece.add(b" ");
    add_command(piece, op);
    piece.add(b" => ");
}

// The end of a line, and what stands before it.
fn print_end_of_line<K: Sink>(sink: &mut K, piece: &mut Piece, quanta: u64) -> Result<(), Failed>
    requires { length piece.old + LINE_END ≤ LONGEST }
    ensures { Writes (piece.old ++ codes " q" ++ decimal quanta ++ 10 ∷ []) result (K.state sink.old) (K.state sink.new) }
{
    piece.add(b" q");
    piece.add_number(quanta);
    piece.add(b"\n");
    write_all(sink, piece.as_slice())
}

fn print_short_line<K: Sink>(
    sink: &mut K,
    piece: &mut Piece,
    reply: &ShortReply,
    quanta: u64,
) -> Result<(), Failed>
    requires { length piece.old + REPLY + LINE_END ≤ LONGEST }
    ensures { Writes (piece.old ++ reply_text (as_reply reply.now) ++ codes " q" ++ decimal quanta ++ 10 ∷ []) result (K.state sink.old) (K.state sink.new) }
{
    add_reply(piece, reply);
    print_end_of_line(sink, piece, quanta)
}

fn print_row<K: Sink>(sink: &mut K, piece: &mut Piece, row: &Row) -> Result<(), Failed>
    ensures { Writes (and_row row.now) result (K.state sink.old) (K.state sink.new) }
{
    piece.clear();
    add_and_row(piece, row);
    write_all(sink, piece.as_slice())
}

fn print_each_row<K: Sink>(sink: &mut K, piece: &mut Piece, rows: &[Row]) -> Result<(), Failed>
    ensures { Writes (flat_map and_row rows.now) result (K.state sink.old) (K.state sink.new) }
{
    for row in rows {
        print_row(sink, piece, row)?;
    }
    Ok(())
}

// What stands before the rows: the line so far, and how many there are.
fn print_before_rows<K: Sink>(sink: &mut K, piece: &mut Piece, count: u64) -> Result<(), Failed>
    requires { length piece.old + 4 + AND_NUMBER ≤ LONGEST }
    ensures { Writes (piece.old ++ (codes "rows" ++ and_number count)) result (K.state sink.old) (K.state sink.new) }
{
    piece.add_named_number(b"rows", count);
    write_all(sink, piece.as_slice())
}

fn print_rows_line<K: Sink>(
    sink: &mut K,
    piece: &mut Piece,
    rows: &[Row],
    quanta: u64,
) -> Result<(), Failed>
    requires { length piece.old + 4 + AND_NUMBER ≤ LONGEST }
    ensures { Writes (piece.old ++ (codes "rows" ++ and_number (length rows.now) ++ flat_map and_row rows.now) ++ codes " q" ++ decimal quanta ++ 10 ∷ []) result (K.state sink.old) (K.state sink.new) }
{
    print_before_rows(sink, piece, rows.len() as u64)?;
    print_each_row(sink, piece, rows)?;
    piece.clear();
    print_end_of_line(sink, piece, quanta)
}

/// Prints the entry at a place, which is counted from 0, as one line of a history. What the piece had is gone.
/// Where the sink fails, a front of the line was written, and not the whole. It takes no memory.
pub fn print_entry<K: Sink>(
    sink: &mut K,
    piece: &mut Piece,
    annals: &Annals,
    place: u32,
) -> Result<(), Failed>
    requires { place < length annals.now.entries }
    ensures { Writes (entry_text (place + 1) (entry_at annals.now place) (slice_index annals.now.quanta place)) result (K.state sink.old) (K.state sink.new) }
{
    let caller = u64::from(annals.seat(place)) + 1;
    start_line(piece, u64::from(place) + 1, caller, annals.op(place));
    let quanta = annals.quanta(place);
    match annals.short_reply(place) {
        Some(reply) => print_short_line(sink, piece, reply, quanta),
        None => print_rows_line(sink, piece, annals.rows(place), quanta),
    }
}

fn print_entries<K: Sink>(sink: &mut K, annals: &Annals) -> Result<(), Failed>
    ensures { Writes (entries_text 1 annals.now.entries annals.now.quanta) result (K.state sink.old) (K.state sink.new) }
{
    let count = annals.len() as u32;
    let mut piece = Piece::new();
    for place in 0..count {
        print_entry(sink, &mut piece, annals, place)?;
    }
    Ok(())
}

/// Prints the last line of a history: the totals.
/// Where the sink fails, a front of the line was written, and not the whole.
pub fn print_end<K: Sink>(sink: &mut K, totals: &Totals) -> Result<(), Failed>
    ensures { Writes (end_text totals.now) result (K.state sink.old) (K.state sink.new) }
{
    let mut piece = Piece::new();
    piece.add_named_number(b"end c0", totals.peak);
    piece.add_named_number(b" of", totals.high);
    piece.add_named_number(b" callers", totals.callers);
    piece.add_named_number(b" workers", totals.workers);
    piece.add_named_number(b" swaps", totals.passes);
    piece.add_and_number(totals.deeps);
    piece.add(b"\n");
    write_all(sink, piece.as_slice())
}

/// Prints the first line of a history: the charge at the opening, in bytes.
/// Where the sink fails, a front of the line was written, and not the whole.
pub fn print_charge<K: Sink>(sink: &mut K, charge: u64) -> Result<(), Failed>
    ensures { Writes (codes "open charge" ++ and_number charge ++ 10 ∷ []) result (K.state sink.old) (K.state sink.new) }
{
    let mut piece = Piece::new();
    piece.add_named_number(b"open charge", charge);
    piece.add(b"\n");
    write_all(sink, piece.as_slice())
}

/// Prints the history of a run: the charge at the opening, in bytes, each entry with its quanta, and the totals.
/// Where the sink fails, a front of the text was written, and not the whole. It takes no memory.
pub fn print_history<K: Sink>(
    sink: &mut K,
    charge: u64,
    annals: &Annals,
    totals: &Totals,
) -> Result<(), Failed>
    ensures { Writes (history_text charge annals.now.entries annals.now.quanta totals.now) result (K.state sink.old) (K.state sink.new) }
{
    print_charge(sink, charge)?;
    print_entries(sink, annals)?;
    print_end(sink, totals)
}
