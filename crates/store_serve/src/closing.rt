//! Why a session ends.
ghost use Rattle.std.specs.Prelude.{◌≤◌, ◌++◌, ◌∷◌, [], length};
ghost use Rattle.blsm_model.specs.Printed.{and_number};
ghost use Rattle.store_serve.specs.Told.{closing_text};
ghost use Rattle.text_io.specs.Text.{Writes};

use refusal::Failed;
use script_text::Piece;
use text_io::{Sink, write_all};

/// Why a session ended. Lines are counted from 1, so that one more than the lines that were done is the one that wasn't.
#[derive(Clone, Copy, PartialEq, Eq, Debug)]
pub enum Closing {
    /// The source ended behind a whole line.
    Ended,
    /// The line with this number is none of a script's, or the source ended before its end.
    BadLine(u64),
    /// The caller of the line with this number has no room for its entry, or for the rows that it asks.
    NoRoom(u64),
    /// A call of the source failed.
    SourceFault,
    /// A call of the sink failed.
    SinkFault,
}

// A line with a number at its end.
fn print_numbered<K: Sink>(sink: &mut K, name: &[u8], number: u64) -> Result<(), Failed>
    requires { length name.now ≤ 20 }
    ensures { Writes (name.now ++ and_number number ++ 10 ∷ []) result (K.state sink.old) (K.state sink.new) }
{
    let mut piece = Piece::new();
    piece.add_named_number(name, number);
    piece.add(b"\n");
    write_all(sink, piece.as_slice())
}

/// Prints why a session ended, behind the end of its history: one line, or nothing where the source ended. Where the sink fails, a front of the line
/// was written, and not the whole.
pub fn print_closing<K: Sink>(sink: &mut K, closing: Closing) -> Result<(), Failed>
    ensures { Writes (closing_text closing) result (K.state sink.old) (K.state sink.new) }
{
    match closing {
        Closing::Ended | Closing::SinkFault => write_all(sink, b""),
        Closing::BadLine(number) => print_numbered(sink, b"bad line", number),
        Closing::NoRoom(number) => print_numbered(sink, b"no room", number),
        Closing::SourceFault => write_all(sink, b"source fault\n"),
    }
}
