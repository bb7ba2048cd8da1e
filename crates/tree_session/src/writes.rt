//! Writes, which are admitted and paid for.
ghost use Rattle.std.specs.Prelude.{◌<◌, IsTrue};
ghost use Rattle.blsm_model.specs.Format.{callers};
ghost use Rattle.blsm_model.specs.Legal.{is_write, TailsFit};
ghost use Rattle.seat_book.specs.Places.{HasWrite};
ghost use Rattle.seat_book.specs.State.{may_note_in};
ghost use Rattle.tree_session.specs.Lines.{Rests};
ghost use Rattle.tree_session.specs.Session.{PaysOff, Performs};

use blsm_model::Op;
use disk_trait::Disk;
use tree_core::{Admission, Core, Payment};

// Pays until nothing is owed any more, or the store is stopped. The caller's last write that was done is what it pays for.
fn pay_off<D: Disk + Drop>(core: &mut Core<D>, seat: u32)
    requires seat { seat < callers }
    requires written { HasWrite seat core.old.held.book.book }
    ensures { PaysOff D.state seat core.old core.new }
{
    core.kept();
    while let Payment::Paid = core.pay(seat) {}
}

// Admits a write, and pays for it where it was admitted. A write that isn't leaves no debt.
pub(crate) fn write<D: Disk + Drop>(core: &mut Core<D>, seat: u32, op: &Op)
    requires write { IsTrue (is_write op.now) }
    requires tails { TailsFit op.now }
    requires note { IsTrue (may_note_in seat 0 core.old.held.book) }
    requires rests { Rests core.old.held }
    ensures { Performs D.state seat op.now core.old core.new }
{
    core.kept();
    let Admission::Admitted = core.admit(seat, op) else {
        return;
    };
    pay_off(core, seat);
    core.kept();
}
