//! Lookups.
ghost use Rattle.std.specs.Prelude.{◌≡◌, ◌≢◌, ◌<◌, ◌^◌, ℕ, None, IsTrue};
ghost use Rattle.blsm_model.specs.Geometry.{file_length};
ghost use Rattle.blsm_model.specs.Histories.{answer_to_get};
ghost use Rattle.blsm_model.specs.Stored.{as_reply};
ghost use Rattle.disk_trait.specs.Reads.{OnlyReads};
ghost use Rattle.record_delta.specs.Records.{settle as settle_of, settled};
ghost use Rattle.seat_book.specs.State.{may_note_in};
ghost use Rattle.tree_file.specs.Tree.{Tree, HoldsTree};
ghost use Rattle.tree_runs.specs.Holding.{AreGuided};
ghost use Rattle.tree_runs.specs.Lookups.{HidesOlder};
ghost use Rattle.core_moves.specs.Needs.{IsOn};
ghost use Rattle.tree_core.specs.Answers.{HasDropped, found_in, newest_in, reply_to_get};
ghost use Rattle.tree_core.specs.Calls.{Gets};
ghost use Rattle.tree_core.specs.Causes.{CountsFilters, FindsBecause, IsFound, LooksNone};
ghost use Rattle.tree_core.specs.declared.answers.Lookup.TheVariants as lookup;

use crate::{Core, Lookup};
use blsm_model::{Key, Op, ShortReply};
use core_moves::Held;
use disk_trait::Disk;
use page_file::Broken;
use record_delta::{Rec, settle};

// What a record answers. It stays a call, as a function zeroes all its locals at entry, and most records are bases.
#[inline(never)]
fn settled(rec: Rec) -> Lookup
    ensures is_found { IsFound result }
    ensures reply { reply_to_get result ≡ answer_to_get (settle_of rec) }
{
    match settle(rec) {
        Some(value) => Lookup::Is(value),
        None => Lookup::Absent,
    }
}

// What a record answers, which was found or not. A base's value is moved once.
fn answer(rec: Option<Rec>) -> Lookup
    ensures is_found { IsFound result }
    ensures reply { reply_to_get result ≡ answer_to_get (settled rec) }
{
    match rec {
        Some(Rec::Base(value)) => Lookup::Is(value),
        Some(rec) => settled(rec),
        None => Lookup::Absent,
    }
}

// The reply that the history keeps.
fn reply_of(lookup: &Lookup) -> ShortReply
    ensures { as_reply result ≡ reply_to_get lookup.now }
{
    match lookup {
        Lookup::Is(value) => ShortReply::Is(value.copy()),
        Lookup::Absent => ShortReply::Absent,
        Lookup::Fault => ShortReply::Fault,
        Lookup::Damaged(page) => ShortReply::Damaged(*page),
        Lookup::Stopped(why) => ShortReply::Stopped(*why),
    }
}

// What the tables and the components have of the key: one page of each component is read at most, none where its filter says no, and none below
// a base or a tombstone. Where table A may have been dropped up to the key, the pass's finished pages are asked in place of C1.
pub(crate) fn look_up<D: Disk>(held: &Held, disk: &mut D, key: &Key) -> Lookup
    requires on { held.now.book.stopped ≡ None → IsOn held.now (D.state disk.old) }
    ensures cause { FindsBecause result key.now held.now (D.state disk.old) (D.state disk.new) }
    ensures value { (tree : Tree) → IsTrue (D.state disk.old).is_honest → HoldsTree held.now.runs.sizes tree (D.state disk.old).bytes → tree.catalogue ≡ held.now.runs.catalogue
        → AreGuided held.now.runs.guides held.now.runs.tags tree → HasDropped held.now tree (D.state disk.old).bytes → held.now.book.stopped ≡ None
        → result ≢ lookup.Fault → reply_to_get result ≡ answer_to_get (found_in key.now held.now tree) }
    ensures counted { result ≡ lookup.Fault → (D.state disk.new).faults < 2 ^ 64 }
    ensures reads { (n : ℕ) → CountsFilters key.now held.now n → OnlyReads (file_length held.now.runs.sizes) n (D.state disk.old) (D.state disk.new) }
    ensures hidden { HidesOlder (newest_in key.now held.now) → disk.new ≡ disk.old }
    ensures untouched { LooksNone result → disk.new ≡ disk.old }
{
    if let Some(why) = held.book.stopped() {
        return Lookup::Stopped(why);
    }
    let mut found = held.log.get(key);
    let floor = held.log.a().floor();
    match held.runs.find(disk, key, floor, &mut found) {
        Ok(()) => answer(found),
        Err(Broken::Fault) => {
            // The disk's count is a number of 64 bits.
            let _faults = disk.faults();
            Lookup::Fault
        }
        Err(Broken::Damaged(page)) => Lookup::Damaged(page),
    }
}

impl<D: Disk + Drop> Core<D> {
    /// Looks a key up. It reads one page at most of each component whose filter may have the key, so three, and none where the memory table
    /// has a base or a tombstone of the key. Where that may have dropped the key's record, the pass's finished pages are asked in place of C1. It
    /// notes one entry; a lookup that fails doesn't stop the store. `Damaged` names the first page that it asks and that isn't valid.
    #[inline(never)]
    pub fn get(&mut self, seat: u32, key: &Key) -> Lookup
        requires { IsTrue (may_note_in seat 0 self.old.held.book) }
        ensures { Gets D.state seat key.now result self.old self.new }
    {
        let found = look_up(&self.held, &mut self.disk, key);
        self.held
            .book
            .note(seat, Op::Get(key.copy()), reply_of(&found));
        found
    }
}
