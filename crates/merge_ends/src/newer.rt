//! The newer input of a merge.
ghost use Rattle.std.specs.Prelude.{◌≡◌, ◌≢◌, ◌+◌, ◌*◌, ◌≤◌, ◌<◌, ◌^◌, ℕ, List, [], Option, Some, None, Ok, Err, length, IsTrue, IsErr, IfSome, OnOk};
ghost use Rattle.blsm_model.specs.Format.{least_weight, most_weight};
ghost use Rattle.blsm_model.specs.Geometry.{file_length};
ghost use Rattle.record_delta.specs.declared.record.Rec.{Rec};
ghost use Rattle.record_delta.specs.Records.{weight as weight_with};
ghost use Rattle.record_delta.specs.Entries.{Entries, AreSorted, above, first_of};
ghost use Rattle.merge_step.specs.Group.{group_of, group_at};
ghost use Rattle.page_space.specs.Space.{SpaceState};
ghost use Rattle.page_file.specs.File.{Reads};
ghost use Rattle.run_cursor.specs.Cursor.{CursorState};
ghost use Rattle.merge_ends.specs.Newer.{at_hand, component_left, newer_calls, newer_left, newer_pages, IsNewer, IsNewerBehind, IsNewerDamage, IsNewerReady};

use crate::input::{go_above, left_above};
use blsm_model::{Geometry, Key};
use disk_trait::Disk;
use merge_step::{Taken, least_of_lent};
use page_file::Broken;
use record_delta::Rec;
use run_cursor::Cursor;

/// The newer input of a merge: a memory table, which may grow ahead of the merge from call to call, or a component.
pub trait Newer {
    /// The cursor over a component; none of a table.
    ghost run: { Self → Option CursorState };

    /// What a table has; of a component nothing.
    ghost table: { Self → Entries };

    /// Goes on to its first entry above the greatest key that was taken, or to the end. It makes one call of the disk at most, which reads, and none
    /// for a table. What is left stays. After an `Err` it is where it was.
    fn go_above<D: Disk>(
        &mut self,
        disk: &mut D,
        geo: &Geometry,
        at: &Option<Key>,
    ) -> Result<(), Broken>
        requires behind { IsNewerBehind at.now (run self.old) }
        requires length { IsTrue (D.state disk.old).tells_bytes → length (D.state disk.old).bytes ≡ file_length geo.now }
        ensures input { (space : SpaceState) (role : ℕ) (pages : List ℕ) (entries : Entries) → IsTrue (D.state disk.old).is_honest
            → IsNewer geo.now (D.state disk.old).bytes space role at.now (run self.old) (table self.old) pages entries → result ≢ Err Broken.Fault
            → (result ≡ Ok tt) × IsNewer geo.now (D.state disk.new).bytes space role at.now (run self.new) (table self.new) pages entries }
        ensures ready { OnOk result (IsNewerReady at.now (run self.new) × (newer_left at.now (run self.new) (table self.new) ≡ newer_left at.now (run self.old) (table self.old))) }
        ensures kept { IsErr result → run self.new ≡ run self.old }
        ensures same_table { table self.new ≡ table self.old }
        ensures same_kind { newer_calls (run self.new) ≡ newer_calls (run self.old) }
        ensures damaged { (n : ℕ) → result ≡ Err (Broken.Damaged n) → IsTrue (D.state disk.old).tells_bytes
            → IsNewerDamage geo.now (run self.new) n (D.state disk.new).bytes }
        ensures one_a_page { OnOk result ((D.state disk.new).clock + newer_pages (run self.new) ≤ (D.state disk.old).clock + newer_pages (run self.old)) }
        ensures reads { Reads (file_length geo.now) (newer_calls (run self.old)) result (D.state disk.old) (D.state disk.new) };

    /// Where the least group of that entry and of the one at which the older input stands is, and the weight of the records that this takes, in bytes:
    /// that of the lesser key, or what the newer one makes of the older. `None` where nothing is left of both. An older entry that is taken alone stays
    /// where it lies; else the group goes into the room.
    fn group_with(
        &self,
        at: &Option<Key>,
        older: &Cursor,
        room: &mut Option<(Key, Rec)>,
    ) -> Option<Taken>
        requires ready { IsNewerReady at.now (run self.now) }
        ensures group { group_at result older.now.head room.new ≡ group_of (first_of (above at.now (at_hand (run self.now) (table self.now)))) older.now.head }
        ensures some { IfSome (group_at result older.now.head room.new) (λ g. least_weight ≤ g.2) }
        ensures light { IfSome (group_at result older.now.head room.new) (λ g. (g.2 ≤ 2 * most_weight) × (weight_with g.0 g.1 ≤ g.2)) }
        ensures grows { IfSome (group_at result older.now.head room.new)
            (λ g. (rec : Rec) → first_of (above at.now (at_hand (run self.now) (table self.now))) ≡ Some (g.0, rec) → weight_with g.0 rec ≤ weight_with g.0 g.1) }
        ensures sorted { AreSorted (table self.now) };

    /// How much of a component is left above a key, in bytes; of a table nothing is counted.
    fn left_above(&self, at: &Option<Key>) -> u64
        requires small { component_left at.now (run self.now) < 2 ^ 64 }
        ensures { result ≡ component_left at.now (run self.now) };
}

impl Newer for Cursor {
    ghost run = { λ cursor. Some cursor };

    ghost table = { λ _. [] };

    fn go_above<D: Disk>(
        &mut self,
        disk: &mut D,
        geo: &Geometry,
        at: &Option<Key>,
    ) -> Result<(), Broken> {
        go_above(self, disk, geo, at)
    }

    fn group_with(
        &self,
        _at: &Option<Key>,
        older: &Cursor,
        room: &mut Option<(Key, Rec)>,
    ) -> Option<Taken> {
        least_of_lent(self.peek(), older.peek(), room)
    }

    fn left_above(&self, at: &Option<Key>) -> u64 {
        left_above(self, at)
    }
}
