//! Lookups in the components.
ghost use Rattle.std.specs.Prelude.{◌≡◌, ◌≢◌, ◌+◌, ◌*◌, ◌≤◌, ◌↔◌, ℕ, Option, Some, Ok, Err, length, IsTrue, IfOk, IfSome};
ghost use Rattle.blsm_model.specs.Format.{least_full};
ghost use Rattle.blsm_model.specs.Geometry.{file_length};
ghost use Rattle.record_delta.specs.Entries.{is_above as is_above_key, over_any, record_of_key};
ghost use Rattle.page_space.specs.Space.{role_count};
ghost use Rattle.page_file.specs.Component.{entries_of};
ghost use Rattle.page_file.specs.File.{Reads};
ghost use Rattle.record_delta.specs.declared.record.Rec.{Rec};
ghost use Rattle.run_cursor.specs.Lookup.{IsDamaged};
ghost use Rattle.tree_file.specs.Tree.{Tree, HoldsTree};
ghost use Rattle.tree_runs.specs.Runs.{AreRuns, fences_of_tag, filter_of, finished_by_pass, front_of, guide_at, released_by};
ghost use Rattle.tree_runs.specs.Holding.{AreGuided};
ghost use Rattle.tree_runs.specs.Lookups.{AreAsked, AreToldBy, CountsYes, HasRecord, HidesOlder, IsDamageBelow, IsFloorOf, IsToldBy, found_by};
ghost use Rattle.tree_runs.specs.Lookups.{first_record, first_run, first_tag, from_newest};

use crate::runs::Runs;
use blsm_model::{Component, Key};
use disk_trait::Disk;
use merge_ends::Finished;
use page_file::{Broken, no_component};
use page_space::Role;
use record_delta::{Rec, fold_over};
use run_cursor::find;

// What was found so far over an older record.
#[inline(never)]
fn put_under(found: &mut Option<Rec>, older: Rec)
    ensures { found.new ≡ over_any found.old (Some older) }
{
    match found {
        Some(newer) => fold_over(newer, &older),
        None => *found = Some(older),
    }
}

// Whether it is a base or a tombstone, over which all that is older is hidden.
fn hides_older(found: &Option<Rec>) -> bool
    ensures { IsTrue result ↔ HidesOlder found.now }
{
    matches!(found, Some(Rec::Base(_) | Rec::Tomb))
}

// Whether a key is above a floor.
pub(crate) fn is_above(floor: &Option<Key>, key: &Key) -> bool
    ensures { result ≡ is_above_key floor.now key.now }
{
    match floor {
        Some(floor) => floor.cmp(key).is_lt(),
        None => true,
    }
}

impl Runs {
    /// Puts the record of a key over what the components have of it: what was found so far, which stands above them all, is folded over the
    /// records of C1, C1' and C2. Of each component it reads one page at most, and none where the component's filter says no; it ends at the
    /// first base or tombstone. It moves no cursor.
    ///
    /// The floor is table A's. Where the key isn't above it the table's record may have been dropped: then the pass's finished pages, which have it
    /// folded over C1's, are asked in place of C1.
    ///
    /// `Damaged` names the page that was asked and isn't valid; it never comes where the file holds a tree that filters and fences are of, nor of
    /// the pass where it runs over its lists. `Fault` comes just where the disk's count of faults rose.
    /// A clause each for the record on an honest disk, for what any pages tell, for where it ends, and for the calls.
    pub fn find<D: Disk>(
        &self,
        disk: &mut D,
        key: &Key,
        floor: &Option<Key>,
        found: &mut Option<Rec>,
    ) -> Result<(), Broken>
        requires runs { AreRuns self.now }
        requires length { IsTrue (D.state disk.old).tells_bytes → length (D.state disk.old).bytes ≡ file_length self.now.sizes }
        ensures lists { (tree : Tree) → IsTrue (D.state disk.old).is_honest → HoldsTree self.now.sizes tree (D.state disk.old).bytes
            → tree.catalogue ≡ self.now.catalogue → AreGuided self.now.guides self.now.tags tree
            → IsFloorOf floor.now self.now tree (D.state disk.old).bytes → result ≢ Err Broken.Fault
            → found_by result found.new ≡ Ok (over_any found.old (over_any (first_record floor.now key.now tree)
            (over_any (record_of_key key.now (entries_of tree.c1x)) (record_of_key key.now (entries_of tree.c2))))) }

        // Whatever the components read as, the answer is what the pages that are asked say of the key, and the first of them that is damaged is
        // named.
        ensures told { IfOk (found_by result found.new) (λ rec. IsTrue (D.state disk.old).is_honest
            → AreToldBy self.now.sizes key.now (D.state disk.old).bytes (from_newest floor.now key.now self.now) found.old rec) }
        ensures damaged { (n : ℕ) → result ≡ Err (Broken.Damaged n) → IsTrue (D.state disk.old).is_honest
            → IsDamageBelow self.now.sizes key.now (D.state disk.old).bytes (from_newest floor.now key.now self.now) found.old n }

        // It makes as many calls at most as filters say yes, and none below a base or a tombstone.
        ensures asks { (c1 c1x c2 : ℕ) → CountsYes (filter_of self.now (first_tag floor.now key.now self.now)) key.now c1
            → CountsYes (filter_of self.now self.now.tags.c1x) key.now c1x → CountsYes (filter_of self.now self.now.tags.c2) key.now c2
            → Reads (file_length self.now.sizes) (c1 + c1x + c2) result (D.state disk.old) (D.state disk.new) }
        // Where it reads the tree, it asks no component below the first base or tombstone.
        ensures ends { (tree : Tree) (c1 c1x c2 : ℕ) → IsTrue (D.state disk.old).is_honest
            → HoldsTree self.now.sizes tree (D.state disk.old).bytes → tree.catalogue ≡ self.now.catalogue
            → AreGuided self.now.guides self.now.tags tree → IsFloorOf floor.now self.now tree (D.state disk.old).bytes
            → AreAsked found.old floor.now key.now self.now tree c1 c1x c2
            → Reads (file_length self.now.sizes) (c1 + c1x + c2) result (D.state disk.old) (D.state disk.new) }
        ensures reads { Reads (file_length self.now.sizes) 3 result (D.state disk.old) (D.state disk.new) }
        ensures none { HidesOlder found.old → disk.new ≡ disk.old }
    {
        let (first, role) = self.first_asked(floor, key);
        self.find_below(disk, &first, role, key, found)?;
        self.find_below(disk, &self.catalogue.c1x, self.c1x, key, found)?;
        self.find_below(disk, &self.catalogue.c2, self.c2, key, found)
    }

    // What is asked first, and the tag of its pages: C1, or where the key isn't above the floor what the pass has finished.
    fn first_asked(&self, floor: &Option<Key>, key: &Key) -> (Component, Role)
        ensures run { result.0 ≡ first_run floor.now key.now self.now }
        ensures role { result.1 ≡ first_tag floor.now key.now self.now }
    {
        if is_above(floor, key) {
            (self.catalogue.c1, self.c1)
        } else {
            (self.front(), self.pass)
        }
    }

    // The pages that the pass has finished. It stays a call, as a function zeroes all its locals at entry, and most keys are above the floor.
    #[inline(never)]
    pub(crate) fn front(&self) -> Component
        ensures front { result ≡ front_of (finished_by_pass self.now.pass) }
        ensures full { least_full * result.pages ≤ result.weight }
    {
        match self.finished() {
            Some(done) => done.output,
            None => no_component(),
        }
    }

    /// The key up to which all that the pass took is on pages that it has finished. `None` where no page is, or no pass runs.
    pub fn released(&self) -> Option<Key>
        ensures { result ≡ released_by self.now.pass }
    {
        match self.finished() {
            Some(done) => Some(done.key),
            None => None,
        }
    }

    // What the pass has finished of its run, where a page of it is closed.
    fn finished(&self) -> Option<Finished>
        ensures finished { result ≡ finished_by_pass self.now.pass }
        ensures full { IfSome result (λ done. least_full * done.output.pages ≤ done.output.weight) }
    {
        match &self.merges.pass {
            Some(snow) => snow.finished(),
            None => None,
        }
    }

    // The record so far over the one that a run has of the key, whose pages have this tag. Nothing is read where it is a base or a
    // tombstone, over which all is hidden.
    fn find_below<D: Disk>(
        &self,
        disk: &mut D,
        run: &Component,
        role: Role,
        key: &Key,
        found: &mut Option<Rec>,
    ) -> Result<(), Broken>
        requires five { length self.now.guides ≡ role_count }
        requires length { IsTrue (D.state disk.old).tells_bytes → length (D.state disk.old).bytes ≡ file_length self.now.sizes }
        ensures list { (rec : Option Rec) → IsTrue (D.state disk.old).is_honest
            → HasRecord self.now.sizes run.now (guide_at self.now.guides role) key.now (D.state disk.old).bytes rec → result ≢ Err Broken.Fault
            → found_by result found.new ≡ Ok (over_any found.old rec) }
        ensures told { IfOk (found_by result found.new) (λ rec. IsTrue (D.state disk.old).is_honest
            → IsToldBy self.now.sizes key.now (D.state disk.old).bytes (run.now, guide_at self.now.guides role) found.old rec) }
        ensures damaged { (n : ℕ) → result ≡ Err (Broken.Damaged n) → IsTrue (D.state disk.old).is_honest
            → (HidesOlder found.old → ⊥) × IsDamaged self.now.sizes run.now (filter_of self.now role) (fences_of_tag self.now role) key.now n (D.state disk.old).bytes }
        ensures reads { (n : ℕ) → CountsYes (filter_of self.now role) key.now n
            → Reads (file_length self.now.sizes) n result (D.state disk.old) (D.state disk.new) }
        ensures none { HidesOlder found.old → (disk.new ≡ disk.old) × (found_by result found.new ≡ Ok found.old) }
    {
        if hides_older(found) {
            return Ok(());
        }
        let guide = &self.guides[role.number() as usize];
        match find(disk, &self.geometry, run, &guide.filter, &guide.fences, key) {
            Ok(Some(older)) => {
                put_under(found, older);
                Ok(())
            }
            Ok(None) => Ok(()),
            Err(broken) => Err(broken),
        }
    }
}
