//! The next line of a session.
ghost use Rattle.std.specs.Prelude.{◌≡◌, ◌≤◌, ◌+◌, length};
ghost use Rattle.script_text.specs.Grammar.{longest_line};
ghost use Rattle.store_serve.specs.Taken.{ComesTo, IsLineFor};

use crate::closing::Closing;
use crate::room::has_room;
use blsm_model::{Annals, Line};
use script_text::read_line;
use text_io::{LineFault, Lines, Source};

// The line that these bytes spell, if its caller has room for it. It has this number.
fn with_room(bytes: &[u8], annals: &Annals, number: u64) -> Result<Line, Closing>
    ensures { IsLineFor bytes.now annals.now.room number result }
{
    let Some(line) = read_line(bytes) else {
        return Err(Closing::BadLine(number));
    };
    if has_room(&annals.room(), &line) {
        Ok(line)
    } else {
        Err(Closing::NoRoom(number))
    }
}

/// The next line of the source, whose caller has room for it, or why the session ends.
pub(crate) fn next_line<S: Source>(
    lines: &mut Lines,
    source: &mut S,
    annals: &Annals,
) -> Result<Line, Closing>
    requires { lines.old.longest ≡ longest_line }
    ensures comes { ComesTo result annals.now lines.old lines.new (S.state source.old) (S.state source.new) }
    ensures longest { lines.new.longest ≡ longest_line }
{
    let number = annals.len() as u64 + 1;
    match lines.next(source) {
        Ok(true) => with_room(lines.line(), annals, number),
        Ok(false) => Err(Closing::Ended),
        Err(LineFault::Failed) => Err(Closing::SourceFault),
        Err(LineFault::TooLong) => Err(Closing::BadLine(number)),
        Err(LineFault::CutOff) => Err(Closing::BadLine(number)),
    }
}
