//! A caller's work ends, and callers leave: calls that only write in the book.
ghost use Rattle.std.specs.Prelude.{◌<◌, IsTrue};
ghost use Rattle.blsm_model.specs.Format.{callers};
ghost use Rattle.blsm_model.specs.Stored.{as_reply};
ghost use Rattle.seat_book.specs.State.{may_end_in};
ghost use Rattle.tree_core.specs.Calls.{EndsWork, Leaves};

use crate::Core;
use blsm_model::ShortReply;
use disk_trait::Disk;

impl<D: Disk + Drop> Core<D> {
    /// Notes the end of a caller's work of `n` turns, and gives its reply. The entry has the quanta of its turns.
    #[inline(never)]
    pub fn work_end(&mut self, seat: u32, n: u32) -> ShortReply
        requires { IsTrue (may_end_in seat n self.old.held.book) }
        ensures { EndsWork D.state seat n (as_reply result) self.old self.new }
    {
        // Each caller has its place.
        let _entries = self.held.book.entries();
        self.held.book.end_work(seat, n)
    }

    /// A caller leaves. Once all sixteen have, the store is closed to workers.
    #[inline(never)]
    pub fn leave(&mut self, seat: u32)
        requires { seat < callers }
        ensures { Leaves D.state seat self.old self.new }
    {
        // Each caller has its place.
        let _entries = self.held.book.entries();
        self.held.book.leave(seat);
    }
}
