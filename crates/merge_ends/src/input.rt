//! A component as an input of a merge.
ghost use Rattle.std.specs.Prelude.{◌≡◌, ◌≢◌, ◌↔◌, ◌+◌, ◌≤◌, ◌<◌, ◌^◌, ℕ, List, Ok, Err, length, IsTrue, IsErr, OnOk};
ghost use Rattle.blsm_model.specs.Sizes.{Sizes};
ghost use Rattle.blsm_model.specs.Geometry.{file_length};
ghost use Rattle.record_delta.specs.Entries.{Entries};
ghost use Rattle.page_space.specs.Space.{SpaceState};
ghost use Rattle.page_file.specs.File.{Reads};
ghost use Rattle.run_cursor.specs.Cursor.{IsDamageAt, started};
ghost use Rattle.merge_ends.specs.Input.{head_above, left_in, IsReady, IsBehind, FillsPages, IsInPart, IsInput};

use blsm_model::{Geometry, Key};
use disk_trait::Disk;
use page_file::Broken;
use record_delta::weight;
use run_cursor::{Cursor, Walk};

// Whether a cursor is at an entry above a key.
fn is_above(cursor: &Cursor, at: &Option<Key>) -> bool
    ensures { result ≡ head_above at.now cursor.now.head }
{
    match (cursor.peek(), at) {
        (None, _) => false,
        (Some(_), None) => true,
        (Some((key, _)), Some(low)) => *low < *key,
    }
}

/// Whether nothing of an input is left above a key.
pub fn is_through(cursor: &Cursor, at: &Option<Key>) -> bool
    ensures { IsTrue result ↔ (left_in at.now cursor.now ≡ 0) }
{
    cursor.weight_left() == 0 && !is_above(cursor, at)
}

/// How much of an input is left above a key, in bytes.
pub fn left_above(cursor: &Cursor, at: &Option<Key>) -> u64
    requires { left_in at.now cursor.now < 2 ^ 64 }
    ensures { result ≡ left_in at.now cursor.now }
{
    let behind = cursor.weight_left();
    match cursor.peek() {
        Some((key, rec)) if is_above(cursor, at) => weight(key, rec) + behind,
        _ => behind,
    }
}

/// Goes on to the first entry above the greatest key that was taken, or to the end. It makes one call of the disk at most, which
/// reads. What is left of the input stays. After an `Err` the cursor is where it was; a page that is `Damaged` comes next there, and its bytes
/// show it.
pub fn go_above<D: Disk>(
    cursor: &mut Cursor,
    disk: &mut D,
    geo: &Geometry,
    at: &Option<Key>,
) -> Result<(), Broken>
    requires behind { IsBehind at.now cursor.old }
    requires length { IsTrue (D.state disk.old).tells_bytes → length (D.state disk.old).bytes ≡ file_length geo.now }
    ensures input { (space : SpaceState) (role : ℕ) (pages : List ℕ) (entries : Entries) → IsTrue (D.state disk.old).is_honest
        → IsInput geo.now (D.state disk.old).bytes space role at.now cursor.old pages entries → result ≢ Err Broken.Fault
        → (result ≡ Ok tt) × IsInput geo.now (D.state disk.new).bytes space role at.now cursor.new pages entries }
    ensures ready { OnOk result (IsReady at.now cursor.new × (left_in at.now cursor.new ≡ left_in at.now cursor.old)) }
    ensures kept { IsErr result → cursor.new ≡ cursor.old }
    ensures damaged { (n : ℕ) → result ≡ Err (Broken.Damaged n) → IsTrue (D.state disk.old).tells_bytes
        → IsDamageAt geo.now cursor.new n (D.state disk.new).bytes }
    ensures one_a_page { OnOk result ((D.state disk.new).clock + cursor.new.pages ≤ (D.state disk.old).clock + cursor.old.pages) }
    ensures reads { Reads (file_length geo.now) 1 result (D.state disk.old) (D.state disk.new) }
{
    if is_above(cursor, at) {
        return Ok(());
    }
    cursor.advance(disk, geo)
}

/// The same of a walk over an input, which comes to the part from the page of that entry on: where the part in which it stands has all that the
/// input has above the key, so has that one.
pub(crate) fn walk_above<D: Disk>(
    walk: &mut Walk,
    disk: &mut D,
    geo: &Geometry,
    at: &Option<Key>,
) -> Result<(), Broken>
    requires behind { IsBehind at.now walk.old.cursor }
    requires length { IsTrue (D.state disk.old).tells_bytes → length (D.state disk.old).bytes ≡ file_length geo.now }
    ensures input { (space : SpaceState) (role : ℕ) (pages : List ℕ) (entries : Entries) → IsTrue (D.state disk.old).is_honest
        → IsInput geo.now (D.state disk.old).bytes space role at.now walk.old.cursor pages entries → result ≢ Err Broken.Fault
        → (result ≡ Ok tt) × IsInput geo.now (D.state disk.new).bytes space role at.now walk.new.cursor pages entries }
    ensures part { (space : SpaceState) (role : ℕ) (pages : List ℕ) (entries : Entries) → IsTrue (D.state disk.old).is_honest
        → IsInput geo.now (D.state disk.old).bytes space role at.now walk.old.cursor pages entries
        → IsInput geo.now (D.state disk.old).bytes space role at.now (started walk.old.here) pages entries
        → OnOk result (IsInput geo.now (D.state disk.new).bytes space role at.now (started walk.new.here) pages entries) }
    ensures in_part { IsInPart walk.old.cursor walk.old.here → OnOk result (IsInPart walk.new.cursor walk.new.here × FillsPages walk.new.here) }
    ensures ready { OnOk result (IsReady at.now walk.new.cursor × (left_in at.now walk.new.cursor ≡ left_in at.now walk.old.cursor)) }
    ensures kept { IsErr result → walk.new ≡ walk.old }
    ensures damaged { (n : ℕ) → result ≡ Err (Broken.Damaged n) → IsTrue (D.state disk.old).tells_bytes
        → IsDamageAt geo.now walk.new.cursor n (D.state disk.new).bytes }
    ensures one_a_page { OnOk result ((D.state disk.new).clock + walk.new.cursor.pages ≤ (D.state disk.old).clock + walk.old.cursor.pages) }
    ensures reads { Reads (file_length geo.now) 1 result (D.state disk.old) (D.state disk.new) }
{
    if is_above(&walk.cursor, at) {
        return Ok(());
    }
    let part = walk.next_part(geo);
    walk.cursor.advance(disk, geo)?;
    walk.here = part;
    Ok(())
}
