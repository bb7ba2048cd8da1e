//! C1' and C2, of which an output comes.
ghost use Rattle.std.specs.Prelude.{
  ◌≡◌,
  ◌≢◌,
  ◌↔◌,
  ◌+◌,
  ◌^◌,
  ◌<◌,
  ◌≤◌,
  ℕ,
  List,
  Option,
  Some,
  None,
  Ok,
  Err,
  length,
  IsTrue,
  IfOk,
  IfSome,
  IfNone,
  OnOk,
};
ghost use Rattle.blsm_model.specs.Components.{empty_component};
ghost use Rattle.blsm_model.specs.Format.{least_weight};
ghost use Rattle.blsm_model.specs.Geometry.{file_length};
ghost use Rattle.blsm_model.specs.Sizes.{Sizes};
ghost use Rattle.merge_step.specs.Group.{group_of};
ghost use Rattle.merge_step.specs.Merged.{IsTaken};
ghost use Rattle.page_file.specs.Component.{HasList, numbers_of};
ghost use Rattle.page_file.specs.File.{Reads};
ghost use Rattle.record_delta.specs.declared.record.Rec.{Rec};
ghost use Rattle.record_delta.specs.Entries.{Entries};
ghost use Rattle.record_delta.specs.Records.{weight as weight_with};
ghost use Rattle.run_cursor.specs.Cursor.{started};
ghost use Rattle.merge_ends.specs.Output.{IsUpTo};
ghost use Rattle.output_reading.specs.Noted.{GoesOnWith};
ghost use Rattle.tree_file.specs.Output.{settled_fold, settled_up_to};
ghost use Rattle.output_reading.specs.Walk.{AreBehind, AreInputs, AreReady, IsGroup, left_of, pages_ahead};

use blsm_model::{Component, Geometry, Key};
use disk_trait::Disk;
use merge_ends::{Finished, go_above, left_above};
use merge_step::least_group;
use page_file::Broken;
use record_delta::{Rec, settle};
use run_cursor::Cursor;
use tree_runs::{Cursors, Resumable};

/// Cursors over C1' and C2, and the greatest key that was taken of them.
#[derive(Debug, Drop)]
pub struct Inputs {
    pub newer: Cursor,
    pub older: Cursor,
    pub at: Option<Key>,
}

impl Inputs {
    /// Of both all is ahead. It calls no device.
    pub fn start(c1x: &Component, c2: &Component) -> Inputs
        requires newer { c1x.now.pages ≡ 0 → c1x.now ≡ empty_component }
        requires older { c2.now.pages ≡ 0 → c2.now ≡ empty_component }
        ensures started { result ≡ record { newer = started c1x.now; older = started c2.now; at = None } }
        ensures inputs { (sizes : Sizes) (newer older : Entries) (file : List ℕ) → (list : HasList sizes c1x.now newer file)
            → (below : HasList sizes c2.now older file)
            → AreInputs sizes result (numbers_of list.pages) (numbers_of below.pages) newer older file }
    {
        Inputs {
            newer: Cursor::start(c1x),
            older: Cursor::start(c2),
            at: None,
        }
    }

    /// The least group above the key, if there is one, and its weight, in bytes. It stays ahead until it is taken. It makes one call of the disk at
    /// most for a page that it comes to, and one more where that fails.
    pub fn next_group<D: Disk>(
        &mut self,
        disk: &mut D,
        geo: &Geometry,
    ) -> Result<Option<(Key, Rec, u64)>, Broken>
        requires behind { AreBehind self.old }
        requires length { IsTrue (D.state disk.old).tells_bytes → length (D.state disk.old).bytes ≡ file_length geo.now }
        ensures inputs { (newer_pages older_pages : List ℕ) (newer older : Entries) → IsTrue (D.state disk.old).is_honest
            → AreInputs geo.now self.old newer_pages older_pages newer older (D.state disk.old).bytes → result ≢ Err Broken.Fault
            → OnOk result (AreInputs geo.now self.new newer_pages older_pages newer older (D.state disk.old).bytes)
            × ((n : ℕ) → result ≢ Err (Broken.Damaged n)) }
        ensures group { IfOk result (λ g. g ≡ group_of self.new.newer.head self.new.older.head) }
        ensures ready { OnOk result (AreReady self.new × (left_of self.new ≡ left_of self.old)) }
        ensures at { self.new.at ≡ self.old.at }
        ensures light { IfOk result IsGroup }
        ensures once { OnOk result ((D.state disk.new).clock + pages_ahead self.new ≤ (D.state disk.old).clock + pages_ahead self.old) }
        ensures calls { (D.state disk.new).clock + pages_ahead self.new ≤ (D.state disk.old).clock + pages_ahead self.old + 1 }
        ensures reads { Reads (file_length geo.now) 2 result (D.state disk.old) (D.state disk.new) }
    {
        go_above(&mut self.newer, disk, geo, &self.at)?;
        go_above(&mut self.older, disk, geo, &self.at)?;
        Ok(least_group(&self.newer, &self.older))
    }

    /// Takes that group, which has this key.
    pub fn take(&mut self, key: Key)
        requires ready { AreReady self.old }
        requires group { (rec : Rec) × (taken : ℕ) × (group_of self.old.newer.head self.old.older.head ≡ Some (key, rec, taken)) }
        ensures taken { self.new ≡ record self.old { at = Some key } }
        ensures behind { AreBehind self.new }
        ensures onward { IsUpTo self.old.at self.new.at }
        ensures left { (rec : Rec) (taken : ℕ) → group_of self.old.newer.head self.old.older.head ≡ Some (key, rec, taken)
            → left_of self.new + taken ≡ left_of self.old }
        ensures inputs { (sizes : Sizes) (newer_pages older_pages : List ℕ) (newer older : Entries) (file : List ℕ) (rec : Rec) (taken : ℕ)
            → AreInputs sizes self.old newer_pages older_pages newer older file
            → group_of self.old.newer.head self.old.older.head ≡ Some (key, rec, taken)
            → AreInputs sizes self.new newer_pages older_pages newer older file × IsTaken self.old.at newer older key rec taken }
    {
        self.at = Some(key);
    }

    /// Whether what both have above the key settles to an entry, or more. It makes one call of the disk at most for a page that it comes to, and one
    /// more where that fails.
    pub fn goes_on<D: Disk>(&mut self, disk: &mut D, geo: &Geometry) -> Result<bool, Broken>
        requires behind { AreBehind self.old }
        requires length { IsTrue (D.state disk.old).tells_bytes → length (D.state disk.old).bytes ≡ file_length geo.now }
        ensures tells { (newer_pages older_pages : List ℕ) (newer older : Entries) → IsTrue (D.state disk.old).is_honest
            → AreInputs geo.now self.old newer_pages older_pages newer older (D.state disk.old).bytes → result ≢ Err Broken.Fault
            → IfOk result (λ more. IsTrue more ↔ (settled_up_to self.old.at newer older ≡ settled_fold newer older → ⊥))
            × ((n : ℕ) → result ≢ Err (Broken.Damaged n)) }
        // What settles to nothing was taken meanwhile.
        ensures inputs { (newer_pages older_pages : List ℕ) (newer older : Entries) → IsTrue (D.state disk.old).is_honest
            → AreInputs geo.now self.old newer_pages older_pages newer older (D.state disk.old).bytes
            → OnOk result (AreInputs geo.now self.new newer_pages older_pages newer older (D.state disk.old).bytes
            × (settled_up_to self.new.at newer older ≡ settled_up_to self.old.at newer older)) }
        ensures ready { OnOk result (AreReady self.new) }
        ensures light { OnOk result (left_of self.new ≤ left_of self.old) }
        ensures onward { OnOk result (IsUpTo self.old.at self.new.at) }
        ensures once { OnOk result ((D.state disk.new).clock + pages_ahead self.new ≤ (D.state disk.old).clock + pages_ahead self.old) }
        ensures calls { (D.state disk.new).clock + pages_ahead self.new ≤ (D.state disk.old).clock + pages_ahead self.old + 1 }
        ensures reads { Reads (file_length geo.now) (pages_ahead self.old + 1) result (D.state disk.old) (D.state disk.new) }
    {
        loop {
            let Some((key, rec, _)) = self.next_group(disk, geo)? else {
                return Ok(false);
            };
            if settle(rec).is_some() {
                return Ok(true);
            }
            self.take(key);
        }
    }

    // How much both have above the key, in bytes.
    fn left(&self) -> u64
        requires { left_of self.now < 2 ^ 64 }
        ensures { result ≡ left_of self.now }
    {
        left_above(&self.newer, &self.at) + left_above(&self.older, &self.at)
    }

    /// With them, which move into this room, a merge goes on behind its finished pages, of which the last one names this next page; where nothing
    /// was taken it has none.
    pub fn resume(self, room: Box<Cursors>, output: Component, next: u32) -> Option<Resumable>
        requires { left_of self < 2 ^ 64 }
        ensures some { IfSome result (GoesOnWith self output next) }
        ensures none { IfNone result (self.at ≡ None) }
    {
        let left = self.left();
        let Inputs { newer, older, at } = self;
        let key = at?;
        let mut room = room;
        let here = &mut *room;
        here.c1x = newer;
        here.c2 = older;
        Some(Resumable {
            done: Finished {
                output,
                next,
                key,
                left,
            },
            inputs: room,
        })
    }
}
