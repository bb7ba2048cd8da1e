//! Walks that go on to a key.
ghost use Rattle.std.specs.Prelude.{◌≡◌, ◌≢◌, ◌⊎◌, ◌+◌, ◌≤◌, [], ℕ, Bool, true, List, Option, None, Ok, Err, length, IsTrue, OnOk};
ghost use Rattle.blsm_model.specs.declared.component.Component.{Component};
ghost use Rattle.blsm_model.specs.declared.key.Key.{Key};
ghost use Rattle.blsm_model.specs.Sizes.{Sizes};
ghost use Rattle.blsm_model.specs.Geometry.{file_length};
ghost use Rattle.record_delta.specs.Entries.{Entries, above, first_of};
ghost use Rattle.page_file.specs.Component.{HasList};
ghost use Rattle.page_file.specs.File.{Reads};
ghost use Rattle.run_cursor.specs.Cursor.{AreAmong};
ghost use Rattle.run_cursor.specs.Given.{HasListOf};
ghost use Rattle.run_cursor.specs.Walk.{IsWalk};
ghost use Rattle.merge_ends.specs.Input.{head_above};
ghost use Rattle.scan_view.specs.Left.{IsFile, IsAheadOf, HasLeft, HasRead, HasReadOn, count_left};
ghost use Rattle.scan_view.specs.Hold.{IsEmptyOrPaged, later as later_of, splice};
ghost use Rattle.scan_view.specs.Splice.{ArePartsBy, HasSplice, HasReadSplice, HasReadSpliceOn, splice_ahead, splice_count, splice_pages};
ghost use Rattle.scan_view.specs.Told.{IsFront, IsDamageBehindFront, IsDamageIn, Sources};

use crate::copy::copy_of;
use crate::splice::Splice;
use blsm_model::{Component, Geometry, Key};
use disk_trait::Disk;
use page_file::{Broken, no_component};
use run_cursor::{Cursor, Walk};

// Whether a cursor is at an entry above a key.
fn is_above(cursor: &Cursor, at: &Option<Key>) -> bool
    ensures { result ≡ head_above at.now cursor.now.head }
{
    match (cursor.peek(), at) {
        (None, _) => false,
        (Some(_), None) => true,
        (Some((key, _)), Some(low)) => *low < *key,
    }
}

/// Goes on to the first entry above a key, or to the end where there is none. It reads each page once at most, and takes no memory. The walk
/// stands in the part from the page of that entry on, or at the end in the empty one.
pub fn seek<D: Disk>(
    walk: &mut Walk,
    disk: &mut D,
    geo: &Geometry,
    at: &Option<Key>,
) -> Result<(), Broken>
    requires { IsTrue (D.state disk.old).tells_bytes → length (D.state disk.old).bytes ≡ file_length geo.now }
    // Where the walk has left what a list has above the key, it comes to the first of that.
    ensures list { (is_front : Bool) (file : List ℕ) (entries : Entries) (pages : List ℕ) → IsFile file (D.state disk.old)
        → HasLeft is_front geo.now at.now walk.old entries pages file → result ≢ Err Broken.Fault
        → (result ≡ Ok tt) × HasLeft is_front geo.now at.now walk.new entries pages file
        × (walk.new.cursor.head ≡ first_of (above at.now entries)) }
    // Whatever its component, or its front, reads as, it comes to the first entry above the key of each list that may come of what was read. At the
    // end all was.
    ensures read { (is_front : Bool) (file : List ℕ) (run : Component) (given : Entries) → IsFile file (D.state disk.old)
        → HasRead is_front geo.now run at.now walk.old given file
        → OnOk result ((on : HasReadOn is_front geo.now run at.now walk.new given file)
        × ((all : Entries) → IsFront run on.now all → walk.new.cursor.head ≡ first_of (above at.now all))
        × (walk.new.cursor.head ≡ None → HasListOf is_front geo.now run on.now file)) }
    ensures damaged { (is_front : Bool) (k : ℕ) (file : List ℕ) (run : Component) (given : Entries) → result ≡ Err (Broken.Damaged k)
        → IsFile file (D.state disk.old) → HasRead is_front geo.now run at.now walk.old given file → IsDamageIn is_front geo.now run at.now k file }
    ensures ahead { OnOk result (IsAheadOf at.now walk.new.cursor.head) }
    ensures falls { OnOk result (count_left at.now walk.new.cursor ≤ count_left at.now walk.old.cursor) }
    ensures walks { IsWalk walk.old → OnOk result (IsWalk walk.new × (walk.new.here.pages ≤ walk.old.here.pages)) }
    ensures one_a_page { OnOk result ((D.state disk.new).clock + walk.new.cursor.pages ≤ (D.state disk.old).clock + walk.old.cursor.pages) }
    ensures reads { Reads (file_length geo.now) walk.old.cursor.pages result (D.state disk.old) (D.state disk.new) }
{
    while !is_above(&walk.cursor, at) {
        let part = walk.next_part(geo);
        walk.cursor.advance(disk, geo)?;
        if walk.cursor.peek().is_none() {
            walk.here = no_component();
            return Ok(());
        }
        walk.here = part;
    }
    Ok(())
}

// The greater of two keys, where none is below all.
fn later<'a>(at: &'a Option<Key>, key: &'a Option<Key>) -> &'a Option<Key>
    ensures { result.now ≡ later_of at.now key.now }
{
    match (at, key) {
        (_, None) => at,
        (None, Some(_)) => key,
        (Some(low), Some(high)) => { if *low < *high { key } else { at } }
    }
}

impl Splice {
    /// Before the first entry of both. It calls no device.
    pub fn start(front: &Component, released: &Option<Key>, c1: &Component) -> Splice
        requires front { IsEmptyOrPaged front.now }
        requires c1 { IsEmptyOrPaged c1.now }
        ensures released { result.released ≡ released.now }
        // Where front and component read as lists, it has all of both left.
        ensures list { (sizes : Sizes) (at : Option Key) (of_front of_c1 : Entries) (pages : List ℕ) (file : List ℕ)
            → (front_list : HasListOf true sizes front.now of_front file) → (c1_list : HasList sizes c1.now of_c1 file)
            → AreAmong front_list.1.pages pages → AreAmong c1_list.pages pages → HasSplice sizes at result of_front of_c1 pages file }
        ensures read { (sizes : Sizes) (at : Option Key) (file : List ℕ) → HasReadSplice sizes front.now c1.now at result [] [] file }
        ensures pages { splice_pages result ≡ front.now.pages + c1.now.pages }
        ensures ahead { splice_ahead result ≡ front.now.pages + c1.now.pages }
        ensures walk { IsWalk result.walk }
    {
        Splice {
            walk: Walk::start_front(front),
            rest: Some(*c1),
            released: copy_of(released),
        }
    }

    /// What is ahead of the front, and of the component: where the walk stands, the part of that one.
    pub fn parts(&self) -> (Component, Component)
        ensures { ArePartsBy self.now result }
    {
        match self.rest {
            Some(rest) => (self.walk.here, rest),
            None => (no_component(), self.walk.here),
        }
    }

    /// Goes on to the first entry above a key, or to the end of both where there is none. It reads each page once at most, and takes no memory.
    pub fn seek<D: Disk>(
        &mut self,
        disk: &mut D,
        geo: &Geometry,
        at: &Option<Key>,
    ) -> Result<(), Broken>
        requires { IsTrue (D.state disk.old).tells_bytes → length (D.state disk.old).bytes ≡ file_length geo.now }
        // Where it has left what the lists have above the key, it comes to the first of that.
        ensures list { (file : List ℕ) (front rest : Entries) (pages : List ℕ) → IsFile file (D.state disk.old)
            → HasSplice geo.now at.now self.old front rest pages file → result ≢ Err Broken.Fault
            → (result ≡ Ok tt) × HasSplice geo.now at.now self.new front rest pages file
            × (self.new.walk.cursor.head ≡ first_of (above at.now (splice front self.old.released rest))) }
        // Whatever front and component read as, it comes to the first entry above the key of all lists that may come of what was read.
        ensures read { (file : List ℕ) (of_front of_c1 : Component) (front rest : Entries) → IsFile file (D.state disk.old)
            → HasReadSplice geo.now of_front of_c1 at.now self.old front rest file
            → OnOk result ((on : HasReadSpliceOn geo.now of_front of_c1 at.now self.new front rest file)
            × ((all_front all_rest : Entries) → IsFront of_front on.now_front all_front → IsFront of_c1 on.now_rest all_rest
            → self.new.walk.cursor.head ≡ first_of (above at.now (splice all_front self.old.released all_rest)))) }
        ensures damaged { (k : ℕ) (file : List ℕ) (of : Sources) (front rest : Entries) → result ≡ Err (Broken.Damaged k)
            → IsFile file (D.state disk.old) → self.old.released ≡ of.released
            → HasReadSplice geo.now of.front of.c1 at.now self.old front rest file
            → IsDamageIn true geo.now of.front at.now k file ⊎ IsDamageBehindFront geo.now of at.now k file }
        ensures released { self.new.released ≡ self.old.released }
        ensures ahead { OnOk result (IsAheadOf at.now self.new.walk.cursor.head) }
        ensures falls { OnOk result (splice_count at.now self.new ≤ splice_count at.now self.old) }
        ensures walks { IsWalk self.old.walk → OnOk result (IsWalk self.new.walk × (splice_ahead self.new ≤ splice_ahead self.old)) }
        ensures one_a_page { OnOk result ((D.state disk.new).clock + splice_pages self.new ≤ (D.state disk.old).clock + splice_pages self.old) }
        ensures reads { Reads (file_length geo.now) (splice_pages self.old) result (D.state disk.old) (D.state disk.new) }
    {
        let Some(rest) = self.rest else {
            return seek(&mut self.walk, disk, geo, later(at, &self.released));
        };
        seek(&mut self.walk, disk, geo, at)?;
        if self.walk.cursor.peek().is_some() {
            return Ok(());
        }
        self.walk.restart(&rest);
        self.rest = None;
        seek(&mut self.walk, disk, geo, later(at, &self.released))
    }
}
