//! Works, turn by turn.
ghost use Rattle.std.specs.Prelude.{◌<◌, ◌≤◌, IsTrue};
ghost use Rattle.blsm_model.specs.declared.op.Op.TheVariants.{Work};
ghost use Rattle.seat_book.specs.State.{may_note_in};
ghost use Rattle.blsm_model.specs.Format.{most_turns};
ghost use Rattle.tree_session.specs.Lines.{Rests};
ghost use Rattle.tree_session.specs.Session.{Performs, Turns};

use disk_trait::Disk;
use seat_book::Turned;
use tree_core::Core;

// Makes n turns of a caller's work, or fewer where one of them doesn't work.
fn turn<D: Disk + Drop>(core: &mut Core<D>, seat: u32, n: u32)
    requires some { 0 < n }
    requires few { n ≤ most_turns }
    requires note { IsTrue (may_note_in seat 0 core.old.held.book) }
    requires rests { Rests core.old.held }
    ensures { Turns D.state seat n core.old core.new }
{
    core.kept();
    for _turn in 0..n {
        match core.work_turn(seat) {
            Turned::Worked => {}
            _ => return,
        }
    }
}

// Does a caller's work of n turns, and notes its end.
pub(crate) fn work<D: Disk + Drop>(core: &mut Core<D>, seat: u32, n: u32)
    requires some { 0 < n }
    requires few { n ≤ most_turns }
    requires note { IsTrue (may_note_in seat 0 core.old.held.book) }
    requires rests { Rests core.old.held }
    ensures { Performs D.state seat (Work n) core.old core.new }
{
    turn(core, seat, n);
    core.kept();
    let _reply = core.work_end(seat, n);
}
