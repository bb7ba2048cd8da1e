//! The lines of a session, one by one.
ghost use Rattle.std.specs.Prelude.{◌≡◌, ◌+◌, ◌<◌, ◌≤◌, ◌^◌, IfOk, [], length, slice_index};
ghost use Rattle.blsm_model.specs.Book.{entry_at};
ghost use Rattle.script_text.specs.Grammar.{longest_line};
ghost use Rattle.ship_text.specs.Ships.{most_first};
ghost use Rattle.store_serve.specs.Session.{DidLine, DidLines};
ghost use Rattle.store_serve.specs.Told.{ship_behind, told_entry};
ghost use Rattle.text_io.specs.Text.{Writes};
ghost use Rattle.tree_session.specs.Lines.{Rests};

use crate::closing::Closing;
use crate::next::next_line;
use blsm_model::Annals;
use disk_trait::Disk;
use refusal::Failed;
use script_text::{LONGEST_LINE, Piece, print_charge, print_entry};
use ship_text::print_ship_of;
use std::alloc::Global;
use text_io::{Lines, Sink, Source};
use tree_core::Core;
use tree_session::perform;

// Tells the entry at a place, and right behind it its ship, if it has one, with this number. It answers the number of the next ship. With 0 there are
// none.
fn tell<K: Sink>(
    sink: &mut K,
    piece: &mut Piece,
    annals: &Annals,
    place: u32,
    ship: u64,
) -> Result<u64, Failed>
    requires place { place < length annals.now.entries }
    requires next { ship + 1 < 2 ^ 64 }
    ensures text { Writes (told_entry ship (place + 1) (entry_at annals.now place) (slice_index annals.now.quanta place)) result (K.state sink.old)
        (K.state sink.new) }
    ensures next { IfOk result (λ next. next ≡ ship_behind ship (entry_at annals.now place)) }
{
    print_entry(sink, piece, annals, place)?;
    if ship == 0 {
        return Ok(0);
    }
    print_ship_of(sink, piece, annals, place, ship)
}

// Does the next line of the source and tells it, and its ship of this number, and answers the number of the next ship, or says why the session ends.
// Nothing is done where there is no line that may be done; where the sink fails the line is done.
fn do_line<D: Disk + Drop, S: Source, K: Sink>(
    alloc: Global,
    core: &mut Core<D>,
    lines: &mut Lines,
    source: &mut S,
    sink: &mut K,
    piece: &mut Piece,
    ship: u64,
) -> Result<u64, Closing>
    requires rests { Rests core.old.held }
    requires longest { lines.old.longest ≡ longest_line }
    requires number { ship ≤ most_first + length core.old.held.book.book.entries }
    ensures did { DidLine D.state ship result core.old core.new lines.old lines.new (S.state source.old) (S.state source.new) (K.state sink.old)
        (K.state sink.new) }
    ensures longest { lines.new.longest ≡ longest_line }
    ensures rests { Rests core.new.held }
{
    let line = match next_line(lines, source, core.annals()) {
        Ok(line) => line,
        Err(closing) => return Err(closing),
    };
    let place = core.annals().len() as u32;
    perform(alloc, core, &line);
    match tell(sink, piece, core.annals(), place, ship) {
        Ok(next) => Ok(next),
        Err(_failed) => Err(Closing::SinkFault),
    }
}

/// Tells the charge, does the lines of the source as they come, each told before the source is asked for more, and answers why it does no more. Right
/// behind an entry its ship is told, if it has one, the first with this number, at most 2^63. With 0 there are none.
pub(crate) fn do_lines<D: Disk + Drop, S: Source, K: Sink>(
    alloc: Global,
    core: &mut Core<D>,
    ships: u64,
    source: &mut S,
    sink: &mut K,
) -> Closing
    requires none { core.old.held.book.book.entries ≡ [] }
    requires uncounted { core.old.held.book.book.quanta ≡ [] }
    requires rests { Rests core.old.held }
    requires number { ships ≤ most_first }
    ensures { DidLines D.state ships result core.old core.new (S.state source.old) (S.state source.new) (K.state sink.old) (K.state sink.new) }
{
    let Ok(()) = print_charge(sink, core.charge()) else {
        return Closing::SinkFault;
    };
    let mut lines = Lines::new(LONGEST_LINE);
    let mut piece = Piece::new();
    let mut ship = ships;
    loop {
        match do_line(alloc, core, &mut lines, source, sink, &mut piece, ship) {
            Ok(next) => ship = next,
            Err(closing) => return closing,
        }
    }
}
