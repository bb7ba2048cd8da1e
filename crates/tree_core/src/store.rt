//! The store as one value.
ghost use Rattle.std.specs.Prelude.{◌≡◌, ◌+◌, ◌≤◌};
ghost use Rattle.blsm_model.specs.Geometry.{high_mark};
ghost use Rattle.seat_book.specs.State.{totals_in};
ghost use Rattle.page_file.specs.Page.{most_used};
ghost use Rattle.record_delta.specs.Entries.{above, entries_weight};
ghost use Rattle.tree_log.specs.Log.{resident_in};
ghost use Rattle.tree_runs.specs.Holding.{cursor_of_pass};
ghost use Rattle.core_moves.specs.Held.{charge_in};
ghost use Rattle.tree_core.specs.Core.{IsCore};
ghost use Rattle.tree_core.specs.Holds.{AreFew};
ghost use Rattle.tree_core.specs.Steps.{StandsSince};

use blsm_model::{Annals, Geometry, Totals};
use core_moves::{Held, Settled};
use disk_trait::Disk;
use scan_view::{Holds, RowRoom};
use std::marker::Model;

/// The whole store: the disk, what it has in memory, and the callers' holds. Seats are numbered from 0: callers below 16, and then eight workers.
///
/// A step whose call of the disk fails, or that finds a damaged page, stops the store, but for a next and a lookup, also one that comes before
/// a write; each later call answers the cause and changes nothing but the book.
#[derive(Drop)]
pub struct Core<D: Disk + Drop> {
    pub(crate) disk: D,
    pub(crate) held: Held,
    pub(crate) holds: Holds,
    // The rows of the last `next`, before they were noted.
    pub(crate) rows: RowRoom,
}

impl<D: Disk + Drop> Model for Core<D> {
    ghost use Rattle.tree_core.specs.Core.{CoreState, IsCore};
    ghost use Rattle.tree_core.specs.Holds.{AreFew};

    ghost Value = { CoreState D };

    ghost view = { λ c. record { disk = c.disk; held = c.held; holds = c.holds } };

    ghost invariant = { λ c. IsCore c.held (D.state c.disk) × AreFew c.held.runs.sizes c.holds };
}

impl<D: Disk + Drop> Core<D> {
    /// The geometry of the store.
    pub fn geometry(&self) -> Geometry
        ensures { result ≡ self.now.held.runs.sizes }
    {
        self.held.runs.geometry()
    }

    /// The charge, in bytes: what the components weigh, and what the memory table counts.
    pub fn charge(&self) -> u64
        ensures { result ≡ charge_in self.now.held }
    {
        self.held.charge()
    }

    /// What is held of the memory table, in bytes of weight: table B, and what table A has above the key up to which it was dropped. Of what the pass
    /// took that is a page's weight at most, whatever the disk does.
    pub fn resident(&self) -> u64
        ensures held { result ≡ resident_in self.now.held.log }
        ensures light { result ≤ entries_weight self.now.held.log.b.entries
            + (entries_weight (above (cursor_of_pass self.now.held.runs.pass) self.now.held.log.a.entries) + most_used) }
    {
        self.held.log.resident()
    }

    /// What settling took when the store was opened: the version of the newest catalogue behind it, the quanta, and how many they may be at most.
    pub fn settle_counts(&self) -> Settled
        ensures { result ≡ self.now.held.settled }
    {
        self.held.settled
    }

    /// The history so far, the quanta of each entry, and the room that is left.
    pub fn annals(&self) -> &Annals
        ensures { result.now ≡ self.now.held.book.book }
    {
        self.held.book.annals()
    }

    /// Does nothing. Its clauses are what the store keeps at each call, whatever the disk did.
    pub fn kept(&self)
        ensures core { IsCore self.now.held (D.state self.now.disk) }
        ensures few { AreFew self.now.held.runs.sizes self.now.holds }
        ensures begins { StandsSince D.state self.now self.now }
    {
        // What the type keeps is known where a field is used.
        let _ = &self.disk;
    }

    /// The disk, the history, and the numbers of the run, when it is over.
    pub fn end(self) -> (D, Annals, Totals)
        ensures disk { result.0 ≡ self.disk }
        ensures annals { result.1 ≡ self.held.book.book }
        ensures totals { result.2 ≡ totals_in (high_mark self.held.runs.sizes) (charge_in self.held) self.held.book }
    {
        let totals = self
            .held
            .book
            .totals(self.geometry().high_mark(), self.charge());
        (self.disk, self.held.book.into_annals(), totals)
    }
}
