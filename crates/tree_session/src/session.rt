//! Commands, and scripts of them.
ghost use Rattle.std.specs.Prelude.{◌<◌, ◌≤◌, IsTrue, slice_index};
ghost use Rattle.blsm_model.specs.declared.op.Op.TheVariants.{Get};
ghost use Rattle.seat_book.specs.State.{may_note_in};
ghost use Rattle.tree_session.specs.Lines.{AreRunnable, HasRoomFor, IsRunnable, Rests};
ghost use Rattle.tree_session.specs.Session.{Performs, Runs};
ghost use Rattle.blsm_model.specs.Scripts.{rows_of};

use crate::holds::{hold, let_go, read_on};
use crate::works::work;
use crate::writes::write;
use blsm_model::{Key, Line, Op};
use disk_trait::Disk;
use std::alloc::Global;
use tree_core::Core;

// Looks a key up.
fn look_up<D: Disk + Drop>(core: &mut Core<D>, seat: u32, key: &Key)
    requires note { IsTrue (may_note_in seat 0 core.old.held.book) }
    requires rests { Rests core.old.held }
    ensures { Performs D.state seat (Get key.now) core.old core.new }
{
    core.kept();
    let _found = core.get(seat, key);
}

/// Does the command of a line to its end. A write is admitted and paid for, a work ends at its first turn that finds nothing to do.
///
/// The line is a put, an add, a tail of 1 to 64 bytes, a del, a new, a swap, a get, a hold, a next of 1 to 32 rows, a drop of a hold, or a work of
/// one turn to a hundred thousand. Its caller must have room for the entry and for the rows, no work may be open, and nobody may owe, unless the
/// store is stopped. A hold for which `alloc` has no memory is answered so in its entry.
pub fn perform<D: Disk + Drop>(alloc: Global, core: &mut Core<D>, line: &Line)
    requires runnable { IsRunnable line.now }
    requires room { 0 < slice_index core.old.held.book.book.room.entries line.now.seat }
    requires rows { rows_of line.now.op ≤ slice_index core.old.held.book.book.room.rows line.now.seat }
    requires rests { Rests core.old.held }
    ensures { Performs D.state line.now.seat line.now.op core.old core.new }
{
    match &line.op {
        Op::Put(..) | Op::Add(..) | Op::Tail(..) | Op::Del(_) | Op::New(..) | Op::Swap(..) => {
            write(core, line.seat, &line.op)
        }
        Op::Get(key) => look_up(core, line.seat, key),
        Op::Hold(low, high) => hold(alloc, core, line.seat, low, high),
        Op::Next(n) => read_on(core, line.seat, *n),
        Op::Release => let_go(core, line.seat),
        Op::Work(n) => work(core, line.seat, *n),
    }
}

/// Does the commands of these lines, one after another. Each caller must have room for its lines, and for the rows that they may give; the rest
/// is as for `perform`.
pub fn run_lines<D: Disk + Drop>(alloc: Global, core: &mut Core<D>, lines: &[Line])
    requires runnable { AreRunnable lines.now }
    requires room { HasRoomFor core.old.held.book.book.room lines.now }
    requires rests { Rests core.old.held }
    ensures { Runs D.state lines.now core.old core.new }
{
    core.kept();
    for line in lines {
        perform(alloc, core, line);
    }
}
