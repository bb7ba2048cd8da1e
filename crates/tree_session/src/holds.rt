//! Holds of ranges, which are made, read and dropped.
ghost use Rattle.std.specs.Prelude.{◌<◌, ◌≤◌, IsTrue};
ghost use Rattle.blsm_model.specs.Format.{most_rows};
ghost use Rattle.blsm_model.specs.declared.op.Op.TheVariants as op;
ghost use Rattle.seat_book.specs.State.{may_note_in};
ghost use Rattle.tree_session.specs.Lines.{Rests};
ghost use Rattle.tree_session.specs.Session.{Performs};

use blsm_model::Key;
use disk_trait::Disk;
use std::alloc::Global;
use tree_core::Core;

// Holds a range for a caller, or tells that memory was refused.
pub(crate) fn hold<D: Disk + Drop>(
    alloc: Global,
    core: &mut Core<D>,
    seat: u32,
    low: &Key,
    high: &Key,
)
    requires note { IsTrue (may_note_in seat 0 core.old.held.book) }
    requires rests { Rests core.old.held }
    ensures { Performs D.state seat (op.Hold low.now high.now) core.old core.new }
{
    core.kept();
    let _holding = core.hold(alloc, seat, low, high);
}

// Reads on in a caller's hold.
pub(crate) fn read_on<D: Disk + Drop>(core: &mut Core<D>, seat: u32, n: u32)
    requires some { 0 < n }
    requires few { n ≤ most_rows }
    requires note { IsTrue (may_note_in seat n core.old.held.book) }
    requires rests { Rests core.old.held }
    ensures { Performs D.state seat (op.Next n) core.old core.new }
{
    core.kept();
    let _scan = core.next_rows(seat, n);
}

// Drops a caller's hold.
pub(crate) fn let_go<D: Disk + Drop>(core: &mut Core<D>, seat: u32)
    requires note { IsTrue (may_note_in seat 0 core.old.held.book) }
    requires rests { Rests core.old.held }
    ensures { Performs D.state seat op.Release core.old core.new }
{
    core.kept();
    let _release = core.drop_hold(seat);
}
