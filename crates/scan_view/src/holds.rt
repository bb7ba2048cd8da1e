//! The holds of all callers.
ghost use Rattle.std.specs.Prelude.{◌≡◌, ◌≢◌, ◌+◌, ◌<◌, ◌≤◌, ℕ, List, Option, Some, None, Ok, Err, IsTrue, IsErr, IfOk, OnOk, is_some, length, replicate, slice_index_or, slice_set, take, drop};
ghost use Rattle.blsm_model.specs.declared.row.Row.{Row};
ghost use Rattle.blsm_model.specs.Format.{callers, most_rows};
ghost use Rattle.blsm_model.specs.Geometry.{file_length};
ghost use Rattle.page_space.specs.PageSet.{Members};
ghost use Rattle.page_file.specs.File.{Reads};
ghost use Rattle.scan_view.specs.Holds.{hold_of, pages_behind, AreGivenBy, AreToldBehind, IsDamageBehind};
ghost use Rattle.scan_view.specs.Pins.{HasHeld};

use crate::{Hold, RowRoom};
use blsm_model::{CALLERS, Geometry};
use disk_trait::Disk;
use page_file::Broken;
use refusal::NoMemory;
use std::alloc::Global;
use std::marker::Model;

/// One hold a caller at most. Contracts see for each caller its hold, if it has one.
#[derive(Debug, Drop)]
pub struct Holds {
    places: Vec<Option<Hold>>,
}

impl Model for Holds {
    ghost use Rattle.std.specs.Prelude.{◌≡◌, List, Option, length};
    ghost use Rattle.scan_view.specs.Hold.{HoldState};
    ghost use Rattle.blsm_model.specs.Format.{callers};

    ghost Value = { List (Option HoldState) };

    ghost view = { λ h. h.places.items };

    ghost invariant = { λ h. length h.places.items ≡ callers };
}

impl Holds {
    /// Room for the holds of sixteen callers, who have none yet. Where memory is refused there is none.
    pub fn reserve(alloc: Global) -> Result<Holds, NoMemory>
        ensures { IfOk result (λ holds. holds ≡ replicate callers None) }
    {
        let mut places = Vec::with_capacity(alloc, CALLERS as usize)?;
        for _ in 0..CALLERS {
            places.push(None)?;
        }
        Ok(Holds { places })
    }

    /// Whether the caller has a hold.
    pub fn has(&self, seat: u32) -> bool
        requires { seat < callers }
        ensures has { result ≡ is_some (hold_of seat self.now) }
        ensures places { length self.now ≡ callers }
    {
        self.places[seat as usize].is_some()
    }

    /// The caller's hold is this one, in place of any that it had.
    pub fn set(&mut self, seat: u32, hold: Hold)
        requires { seat < callers }
        ensures { self.new ≡ slice_set self.old seat (Some hold) }
    {
        self.places[seat as usize] = Some(hold);
    }

    /// The caller has no hold.
    pub fn clear(&mut self, seat: u32)
        requires { seat < callers }
        ensures { self.new ≡ slice_set self.old seat None }
    {
        self.places[seat as usize] = None;
    }

    /// Fills the room with the next rows of the caller's hold, as `Hold::next_rows` does.
    /// A clause each for what that call says, and for what the other callers' holds and the pages keep.
    pub fn next_rows<D: Disk>(
        &mut self,
        seat: u32,
        disk: &mut D,
        geo: &Geometry,
        n: u32,
        room: &mut RowRoom,
    ) -> Result<(), Broken>
        requires seat { seat < callers }
        requires held { IsTrue (is_some (hold_of seat self.old)) }
        requires few { n ≤ most_rows }
        requires length { IsTrue (D.state disk.old).tells_bytes → length (D.state disk.old).bytes ≡ file_length geo.now }
        // Of the rows that it has to give it gives the first n, and has the others left, from pinned pages still.
        ensures rows { (pins : List Members) (rows : List Row) → IsTrue (D.state disk.old).is_honest → HasHeld geo.now pins seat (hold_of seat self.old) (Some rows) (D.state disk.old).bytes
            → result ≢ Err Broken.Fault → (result ≡ Ok tt) × (room.new ≡ take n rows) × HasHeld geo.now pins seat (hold_of seat self.new) (Some (drop n rows)) (D.state disk.new).bytes }
        ensures given { OnOk result (AreGivenBy n (hold_of seat self.old) (hold_of seat self.new) room.new) }
        ensures told { IsTrue (D.state disk.old).is_honest → OnOk result (AreToldBehind geo.now n (hold_of seat self.old) (hold_of seat self.new) room.new (D.state disk.old).bytes) }
        ensures damaged { (k : ℕ) → result ≡ Err (Broken.Damaged k) → IsTrue (D.state disk.old).is_honest → IsDamageBehind geo.now n (hold_of seat self.old) k (D.state disk.old).bytes }
        ensures others { (other : ℕ) → other ≢ seat → hold_of other self.new ≡ hold_of other self.old }
        ensures still { IsTrue (is_some (hold_of seat self.new)) }
        ensures ahead { pages_behind (hold_of seat self.new) ≤ pages_behind (hold_of seat self.old) }
        ensures passes { OnOk result ((D.state disk.new).clock + pages_behind (hold_of seat self.new) ≤ (D.state disk.old).clock + pages_behind (hold_of seat self.old) + 3) }
        ensures kept { IsErr result → self.new ≡ self.old }
        ensures reads { Reads (file_length geo.now) (pages_behind (hold_of seat self.old)) result (D.state disk.old) (D.state disk.new) }
    {
        let Some(hold) = &mut self.places[seat as usize] else {
            unreachable!();
        };
        hold.next_rows(disk, geo, n, room)
    }
}
