//! A scan of the records in memory, of a front and of three components, folded, in key order.
ghost use Rattle.std.specs.Prelude.{◌≡◌, ◌≢◌, ◌+◌, ◌<◌, ◌≤◌, ◌++◌, [], ℕ, List, Option, true, Ok, Err, length, IsTrue, OnOk, IfOk, IfSome};
ghost use Rattle.blsm_model.specs.declared.key.Key.{Key};
ghost use Rattle.blsm_model.specs.Geometry.{file_length};
ghost use Rattle.blsm_model.specs.Sizes.{Sizes};
ghost use Rattle.record_delta.specs.Entries.{AreSorted, above, first_of};
ghost use Rattle.page_file.specs.Component.{HasList, numbers_of};
ghost use Rattle.page_file.specs.File.{Reads};
ghost use Rattle.run_cursor.specs.Given.{HasListOf};
ghost use Rattle.scan_view.specs.Hold.{IsEmptyOrPaged};
ghost use Rattle.scan_view.specs.Left.{IsFile, IsAheadOf, key_or};
ghost use Rattle.scan_view.specs.Scan.{IsScan, IsAtHeads, AreAhead, AreSortedLists, HaveRead, HaveReadOn, AreWalks, AreFurther};
ghost use Rattle.scan_view.specs.Scan.{pages_left, pages_ahead, components_left, all_left};
ghost use Rattle.scan_view.specs.Told.{Contents, Sources, AreFronts, IsDamageOf, view_by};

use crate::least::least;
use crate::records::first_above;
use crate::seek::seek;
use crate::splice::Splice;
use blsm_model::{Component, Geometry, Key};
use disk_trait::Disk;
use page_file::Broken;
use record_delta::{Rec, Stream};
use run_cursor::Walk;

/// Walks over the front with the first component, and over the two others, and the key that was passed last.
#[derive(Drop)]
pub struct Scan {
    pub c1: Splice,
    pub c1x: Walk,
    pub c2: Walk,
    pub at: Option<Key>,
}

impl Scan {
    /// A scan of what is above a key. It calls no device.
    pub fn start(
        front: &Component,
        released: &Option<Key>,
        c1: &Component,
        c1x: &Component,
        c2: &Component,
        at: Option<Key>,
    ) -> Scan
        requires front { IsEmptyOrPaged front.now }
        requires c1 { IsEmptyOrPaged c1.now }
        requires c1x { IsEmptyOrPaged c1x.now }
        requires c2 { IsEmptyOrPaged c2.now }
        ensures at { result.at ≡ at }
        ensures list { (sizes : Sizes) (lists : Contents) (file : List ℕ) → (front_list : HasListOf true sizes front.now lists.front file)
            → (one : HasList sizes c1.now lists.c1 file) → (two : HasList sizes c1x.now lists.c1x file) → (three : HasList sizes c2.now lists.c2 file)
            → IsScan sizes result released.now lists
            (numbers_of front_list.1.pages ++ numbers_of one.pages ++ numbers_of two.pages ++ numbers_of three.pages) file }
        ensures read { (sizes : Sizes) (file : List ℕ) → HaveRead sizes
            (record { front = front.now; released = released.now; c1 = c1.now; c1x = c1x.now; c2 = c2.now }) result
            (record { front = []; c1 = []; c1x = []; c2 = [] }) file }
        ensures pages { pages_left result ≡ front.now.pages + c1.now.pages + c1x.now.pages + c2.now.pages }
        ensures parts { pages_ahead result ≡ front.now.pages + c1.now.pages + c1x.now.pages + c2.now.pages }
        ensures walks { AreWalks result }
    {
        Scan {
            c1: Splice::start(front, released, c1),
            c1x: Walk::start(c1x),
            c2: Walk::start(c2),
            at,
        }
    }

    // Brings each walk to the first entry above the key, or to the end.
    fn seek_all<D: Disk>(&mut self, disk: &mut D, geo: &Geometry) -> Result<(), Broken>
        requires { IsTrue (D.state disk.old).tells_bytes → length (D.state disk.old).bytes ≡ file_length geo.now }
        ensures list { (file : List ℕ) (released : Option Key) (lists : Contents) (pages : List ℕ) → IsFile file (D.state disk.old)
            → IsScan geo.now self.old released lists pages file → result ≢ Err Broken.Fault
            → (result ≡ Ok tt) × IsScan geo.now self.new released lists pages file × IsAtHeads self.new released lists }
        ensures read { (file : List ℕ) (of : Sources) (read : Contents) → IsFile file (D.state disk.old) → HaveRead geo.now of self.old read file
            → OnOk result ((on : HaveReadOn geo.now of self.new read file)
            × ((all : Contents) → AreFronts of on.now all → IsAtHeads self.new of.released all)) }
        ensures damaged { (k : ℕ) (file : List ℕ) (of : Sources) (read : Contents) → result ≡ Err (Broken.Damaged k) → IsFile file (D.state disk.old)
            → HaveRead geo.now of self.old read file → IsDamageOf geo.now of self.old.at k file }
        ensures at { self.new.at ≡ self.old.at }
        ensures ahead { OnOk result (AreAhead self.new) }
        ensures falls { OnOk result (components_left self.new.at self.new ≤ components_left self.old.at self.old) }
        ensures walks { AreWalks self.old → OnOk result (AreFurther self.old self.new) }
        ensures one_a_page { OnOk result ((D.state disk.new).clock + pages_left self.new ≤ (D.state disk.old).clock + pages_left self.old) }
        ensures reads { Reads (file_length geo.now) (pages_left self.old) result (D.state disk.old) (D.state disk.new) }
    {
        self.c1.seek(disk, geo, &self.at)?;
        seek(&mut self.c1x, disk, geo, &self.at)?;
        seek(&mut self.c2, disk, geo, &self.at)
    }

    // The first entry above the key, folded.
    fn first(&self, memory: &[(Key, Rec)]) -> Option<(Key, Rec)>
        requires sorted { AreSorted memory.now }
        requires ahead { AreAhead self.now }
        ensures first { (released : Option Key) (lists : Contents) → AreSortedLists lists → IsAtHeads self.now released lists
            → result ≡ first_of (above self.now.at (view_by memory.now released lists)) }
        ensures ahead { IsAheadOf self.now.at result }
        ensures falls { IfSome result (λ e. all_left memory.now (record self.now { at = Some e.0 }) < all_left memory.now self.now) }
    {
        let older = least(self.c1x.cursor.head(), self.c2.cursor.head());
        let older = least(self.c1.walk.cursor.head(), older);
        least(first_above(memory, &self.at), older)
    }

    /// Passes the next key, and gives it with its record; `None` where there is none. It reads each page once at most, and takes no memory.
    /// A clause each for the lists of an honest disk, for what any pages tell, for how far the places are, and for the calls.
    pub fn next<D: Disk>(
        &mut self,
        memory: &[(Key, Rec)],
        disk: &mut D,
        geo: &Geometry,
    ) -> Result<Option<(Key, Rec)>, Broken>
        requires sorted { AreSorted memory.now }
        requires length { IsTrue (D.state disk.old).tells_bytes → length (D.state disk.old).bytes ≡ file_length geo.now }
        ensures list { (file : List ℕ) (released : Option Key) (lists : Contents) (pages : List ℕ) → IsFile file (D.state disk.old)
            → IsScan geo.now self.old released lists pages file → result ≢ Err Broken.Fault
            → (result ≡ Ok (first_of (above self.old.at (view_by memory.now released lists)))) × IsScan geo.now self.new released lists pages file }
        ensures read { (file : List ℕ) (of : Sources) (read : Contents) → IsFile file (D.state disk.old) → HaveRead geo.now of self.old read file
            → IfOk result (λ found. (on : HaveReadOn geo.now of self.new read file)
            × ((all : Contents) → AreFronts of on.now all → found ≡ first_of (above self.old.at (view_by memory.now of.released all)))) }
        ensures damaged { (k : ℕ) (file : List ℕ) (of : Sources) (read : Contents) → result ≡ Err (Broken.Damaged k) → IsFile file (D.state disk.old)
            → HaveRead geo.now of self.old read file → IsDamageOf geo.now of self.old.at k file }
        ensures passed { IfOk result (λ found. self.new.at ≡ key_or found self.old.at) }
        ensures ahead { IfOk result (IsAheadOf self.old.at) }
        ensures falls { IfOk result (λ found. IfSome found (λ _. all_left memory.now self.new < all_left memory.now self.old)) }
        ensures walks { AreWalks self.old → OnOk result (AreFurther self.old self.new) }
        ensures one_a_page { OnOk result ((D.state disk.new).clock + pages_left self.new ≤ (D.state disk.old).clock + pages_left self.old) }
        ensures reads { Reads (file_length geo.now) (pages_left self.old) result (D.state disk.old) (D.state disk.new) }
    {
        self.seek_all(disk, geo)?;
        let Some((key, rec)) = self.first(memory) else {
            return Ok(None);
        };
        self.at = Some(key.copy());
        Ok(Some((key, rec)))
    }
}
