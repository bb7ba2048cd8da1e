//! A snapshot of a range of keys.
ghost use Rattle.std.specs.List.{Contains};
ghost use Rattle.std.specs.Prelude.{◌≡◌, ◌≢◌, ◌+◌, ◌++◌, ◌≤◌, ℕ, List, Some, true, Ok, Err, length, take, drop, IsTrue, IsErr, IfOk, OnOk};
ghost use Rattle.blsm_model.specs.declared.row.Row.{Row};
ghost use Rattle.blsm_model.specs.Format.{most_rows};
ghost use Rattle.blsm_model.specs.Geometry.{file_length};
ghost use Rattle.blsm_model.specs.Sizes.{Sizes};
ghost use Rattle.record_delta.specs.Entries.{AreSorted, Entries};
ghost use Rattle.page_file.specs.Component.{HasList, numbers_of};
ghost use Rattle.page_file.specs.File.{Reads};
ghost use Rattle.tree_machine.specs.Lists.{rows_in};
ghost use Rattle.run_cursor.specs.Given.{HasListOf};
ghost use Rattle.scan_view.specs.Hold.{held_from, splice, IsEmptyOrPaged, HasRows, IsReadAs, IsRestFrom, AreGiven, pages_held};
ghost use Rattle.scan_view.specs.Holds.{pages_behind};
ghost use Rattle.scan_view.specs.Told.{AreTold, ArePartsOf, Contents, IsNeeded};

use crate::RowRoom;
use crate::copy::{copy_of, copy_range};
use crate::gather::gather;
use crate::scan::Scan;
use blsm_model::{Component, Geometry, Key};
use disk_trait::Disk;
use mem_table::Table;
use page_file::Broken;
use record_delta::Rec;
use refusal::NoMemory;
use std::alloc::Global;
use std::marker::Model;

/// A snapshot of the rows of a range, and how far they were given. Contracts see the range, the memory table's records of it, the
/// place: rows up to this key were given; and of a front and of each of the three components the part that is still ahead, as a component of its
/// own. The front is the finished pages of a run that is written over the first component: it has all up to the released key.
#[derive(Debug, Drop)]
pub struct Hold {
    low: Key,
    high: Key,
    memory: Vec<(Key, Rec)>,
    front: Component,
    released: Option<Key>,
    c1: Component,
    c1x: Component,
    c2: Component,
    place: Option<Key>,
}

impl Model for Hold {
    ghost use Rattle.scan_view.specs.Hold.{HoldState, IsHold};

    ghost Value = { HoldState };

    ghost view = { λ h. record {
      low = h.low;
      high = h.high;
      memory = h.memory.items;
      front = h.front;
      released = h.released;
      c1 = h.c1;
      c1x = h.c1x;
      c2 = h.c2;
      place = h.place;
    } };

    ghost invariant = { λ h. IsHold (record {
      low = h.low;
      high = h.high;
      memory = h.memory.items;
      front = h.front;
      released = h.released;
      c1 = h.c1;
      c1x = h.c1x;
      c2 = h.c2;
      place = h.place;
    }) };
}

impl Hold {
    /// A hold of the rows from low on, without high, of table B over table A over the three components, or over the parts of these that can have
    /// keys from low on: no page before them is ever read. Where a key is released, the front, or such a part of it, is read up to there in place
    /// of C1, of which what is above that key is. It copies the tables' records of the range; who makes it pins the pages. Where memory is refused
    /// there is no hold.
    pub fn build(
        alloc: Global,
        low: &Key,
        high: &Key,
        a: &Table,
        b: &Table,
        front: &Component,
        released: &Option<Key>,
        c1: &Component,
        c1x: &Component,
        c2: &Component,
    ) -> Result<Hold, NoMemory>
        requires front { IsEmptyOrPaged front.now }
        requires c1 { IsEmptyOrPaged c1.now }
        requires c1x { IsEmptyOrPaged c1x.now }
        requires c2 { IsEmptyOrPaged c2.now }
        ensures hold { IfOk result (λ hold. hold ≡ held_from low.now high.now b.now.entries a.now.entries front.now released.now c1.now c1x.now c2.now) }
        // In a file in which front and components read as lists, it has all rows of the tree's lists to give, from their pages: where table A, whose
        // keys rise, over what is read of the front and of C1 has what A's and C1's lists have in the range. C1' and C2 may be parts of the
        // tree's, before which all entries are below the range.
        ensures rows { (sizes : Sizes) (lists : Contents) (of_a of_c1 of_c1x of_c2 : Entries) (file : List ℕ)
            → (zero : HasListOf true sizes front.now lists.front file) → (one : HasList sizes c1.now lists.c1 file)
            → (two : HasList sizes c1x.now lists.c1x file) → (three : HasList sizes c2.now lists.c2 file)
            → (AreSorted a.now.entries → IsReadAs low.now high.now a.now.entries (splice lists.front released.now lists.c1) of_a of_c1)
            → IsRestFrom low.now of_c1x lists.c1x → IsRestFrom low.now of_c2 lists.c2
            → IfOk result (λ hold. (has : HasRows sizes hold
            (rows_in (record { b = b.now.entries; a = of_a; c1 = of_c1; c1x = of_c1x; c2 = of_c2 }) low.now high.now) file)
            × (pages_held has ≡ numbers_of zero.1.pages ++ numbers_of one.pages ++ numbers_of two.pages ++ numbers_of three.pages)) }
    {
        let _weights = (a.weight(), b.weight());
        let memory = copy_range(alloc, low, high, a, b)?;
        Ok(Hold {
            low: low.copy(),
            high: high.copy(),
            memory,
            front: *front,
            released: copy_of(released),
            c1: *c1,
            c1x: *c1x,
            c2: *c2,
            place: None,
        })
    }

    /// Fills the room with the next n rows, or with as many as are left, from where the last call ended. It goes on through the components from
    /// the pages on at which that call ended, with one call of the disk for each page at most, which reads, and takes no memory; once a key was
    /// passed that isn't below the range's end it reads none. After an `Err` the place stays, and what is ahead, so that the next call reads the
    /// same pages again; the room may have any rows.
    ///
    /// `Damaged` names a page of a component that isn't valid or doesn't go on, and without which the next row can't be told; it never comes
    /// where the components read as lists. `Fault` comes only where the disk's count of faults rose.
    /// A clause each for the rows of an honest disk, for what any pages tell, for the place, for what is ahead, and for the calls.
    pub fn next_rows<D: Disk>(
        &mut self,
        disk: &mut D,
        geo: &Geometry,
        n: u32,
        room: &mut RowRoom,
    ) -> Result<(), Broken>
        requires few { n ≤ most_rows }
        requires length { IsTrue (D.state disk.old).tells_bytes → length (D.state disk.old).bytes ≡ file_length geo.now }
        // Of the rows that it has to give it gives the first n, and has the others left.
        ensures rows { (rows : List Row) → IsTrue (D.state disk.old).is_honest → (before : HasRows geo.now self.old rows (D.state disk.old).bytes)
            → result ≢ Err Broken.Fault
            → (result ≡ Ok tt) × (room.new ≡ take n rows) × (now : HasRows geo.now self.new (drop n rows) (D.state disk.new).bytes)
            × ((page : ℕ) → Contains (pages_held now) page → Contains (pages_held before) page) }
        ensures given { OnOk result (AreGiven n self.old.low self.old.high self.old.place self.new.place room.new) }
        // Whatever the components read as, so it is by what was read of them; and a page is named as damaged only where the next row can't be told
        // without it.
        ensures told { IsTrue (D.state disk.old).is_honest → OnOk result (AreTold geo.now n self.old self.new.place room.new (D.state disk.old).bytes
            × ArePartsOf geo.now self.old self.new (D.state disk.old).bytes) }
        ensures damaged { (k : ℕ) → result ≡ Err (Broken.Damaged k) → IsTrue (D.state disk.old).is_honest
            → IsNeeded geo.now n self.old k (D.state disk.old).bytes }
        ensures moves { self.new ≡ record self.old {
          front = self.new.front;
          c1 = self.new.c1;
          c1x = self.new.c1x;
          c2 = self.new.c2;
          place = self.new.place;
        } }
        ensures kept { IsErr result → self.new ≡ self.old }
        // On any disk it has no more pages ahead than before, and its calls are at most those that it passed, and three.
        ensures ahead { pages_behind (Some self.new) ≤ pages_behind (Some self.old) }
        ensures passes { OnOk result ((D.state disk.new).clock + pages_behind (Some self.new) ≤ (D.state disk.old).clock + pages_behind (Some self.old) + 3) }
        ensures reads { Reads (file_length geo.now) (pages_behind (Some self.old)) result (D.state disk.old) (D.state disk.new) }
    {
        let mut scan = Scan::start(
            &self.front,
            &self.released,
            &self.c1,
            &self.c1x,
            &self.c2,
            copy_of(&self.place),
        );
        gather(
            &mut scan,
            &self.memory,
            &self.low,
            &self.high,
            disk,
            geo,
            n,
            room,
        )?;
        (self.front, self.c1) = scan.c1.parts();
        self.c1x = scan.c1x.here;
        self.c2 = scan.c2.here;
        self.place = scan.at;
        Ok(())
    }
}
