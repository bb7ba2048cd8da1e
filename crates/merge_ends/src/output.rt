//! The run that a merge writes.
ghost use Rattle.std.specs.Prelude.{◌≡◌, ◌≢◌, ◌⊎◌, ◌+◌, ◌≤◌, ◌∷◌, ◌++◌, [], ℕ, false, length, if◌then◌else◌, option_map, IsTrue, IfSome, OnOk, OnErr};
ghost use Rattle.disk_trait.specs.Region.{IsWithin};
ghost use Rattle.blsm_model.specs.Geometry.{page_count, file_length};
ghost use Rattle.bloom_bits.specs.Guides.{KeepReserves};
ghost use Rattle.record_delta.specs.Entries.{Entries};
ghost use Rattle.blsm_model.specs.declared.key.Key.{Key};
ghost use Rattle.record_delta.specs.declared.record.Rec.{Rec};
ghost use Rattle.record_delta.specs.declared.record.Rec.TheVariants.{Base};
ghost use Rattle.record_delta.specs.Records.{settle as settle_of, weight as weight_with};
ghost use Rattle.page_space.specs.Space.{role_size};
ghost use Rattle.page_file.specs.Entry.{AreRising};
ghost use Rattle.page_file.specs.File.{Writes};
ghost use Rattle.run_writer.specs.Writer.{closed_entries, open_region, role_region, loose_region, HasEntries, HasPushed};
ghost use Rattle.merge_ends.specs.Output.{TakesPages, HasFences, HasRoom, has_turned, kept, entry_of, left_at};

use bloom_bits::{Fences, Filter};
use blsm_model::{Geometry, Key};
use disk_trait::Disk;
use page_space::Space;
use record_delta::{Rec, settle, weight};
use refusal::Failed;
use run_writer::Writer;

// Where it lies what a merge writes of a record: it is the record itself, or a base in the room that was lent for it.
#[derive(Clone, Copy, Drop)]
enum Left {
    Record,
    Base,
}

// What a merge writes of a record, if it writes anything: the record, or, where it settles, a base.
fn left_of(settles: bool, rec: &Rec, room: &mut Option<Rec>) -> Option<Left>
    ensures kept { (key : Key) → kept settles ((key, rec.now) ∷ []) ≡ entry_of key (left_at result rec.now room.new) }
    ensures light { (key : Key) → IfSome (left_at result rec.now room.new) (λ left. weight_with key left ≤ weight_with key rec.now) }
{
    if !settles {
        return Some(Left::Record);
    }
    match rec {
        Rec::Base(_) => Some(Left::Record),
        Rec::Delta(_) => settled(rec, room),
        Rec::Tomb => None,
    }
}

// The base that a record leaves where nothing is older, in the room. It stays a call, so that no push zeroes a record's bytes for it.
#[inline(never)]
fn settled(rec: &Rec, room: &mut Option<Rec>) -> Option<Left>
    ensures { left_at result rec.now room.new ≡ option_map Base (settle_of rec.now) }
{
    let value = settle(rec.copy())?;
    *room = Some(Rec::Base(value));
    Some(Left::Base)
}

// What is left, lent.
fn lying<'a>(left: Option<Left>, rec: &'a Rec, room: &'a Option<Rec>) -> Option<&'a Rec>
    ensures { option_map (λ r. r.now) result ≡ left_at left rec.now room.now }
{
    match (left, room) {
        (Some(Left::Record), _) => Some(rec),
        (Some(Left::Base), Some(base)) => Some(base),
        _ => None,
    }
}

/// Pushes an entry, or what is left of it where nothing is older, into a run that has room for it, and whose fences have; its filter and fences have it then.
/// A base that is made of a delta goes into `base` first.
/// It makes one call of the disk at most, and takes a page where it does. After an
/// `Err` the writer is as it was; the page that was taken keeps its tag. A clause for each thing that it is lent: the run, its room, its fences, the
/// map of pages, the disk.
pub fn put<D: Disk>(
    writer: &mut Writer,
    disk: &mut D,
    geo: &Geometry,
    space: &mut Space,
    filter: &mut Filter,
    fences: &mut Fences,
    settles: bool,
    key: &Key,
    rec: &Rec,
    base: &mut Option<Rec>,
) -> Result<(), Failed>
    requires pages { space.old.pages ≡ page_count geo.now }
    requires length { IsTrue (D.state disk.old).tells_bytes → length (D.state disk.old).bytes ≡ file_length geo.now }
    requires room { HasRoom space.old writer.old (weight_with key.now rec.now) }
    requires fences { HasFences fences.old writer.old (weight_with key.now rec.now) }
    requires run { (out : Entries) × HasPushed geo.now (D.state disk.old).is_honest (D.state disk.old).bytes space.old writer.old filter.old fences.old out
        × ((any : Rec) → AreRising (out ++ (key.now, any) ∷ [])) }
    ensures pushed { (out : Entries) → ((any : Rec) → AreRising (out ++ (key.now, any) ∷ []))
        → HasPushed geo.now (D.state disk.old).is_honest (D.state disk.old).bytes space.old writer.old filter.old fences.old out
        → OnOk result (HasPushed geo.now (D.state disk.new).is_honest (D.state disk.new).bytes space.new writer.new filter.new fences.new (out ++ kept settles ((key.now, rec.now) ∷ []))) }
    // The closed pages stay as they are, or have all that was pushed before, where a page was taken.
    ensures closed { (out : Entries) → HasPushed geo.now (D.state disk.old).is_honest (D.state disk.old).bytes space.old writer.old filter.old fences.old out
        → OnOk result (closed_entries writer.new (out ++ kept settles ((key.now, rec.now) ∷ [])) ≡ (if has_turned writer.old writer.new then out else closed_entries writer.old out)) }
    ensures here { settles ≡ false
        → OnOk result (length writer.new.buffer.text ≡ (if has_turned writer.old writer.new then 0 else length writer.old.buffer.text) + weight_with key.now rec.now) }
    // An open page that has an entry has one still, and one to which something came has one.
    ensures begun { HasEntries writer.old ⊎ (kept settles ((key.now, rec.now) ∷ []) ≢ []) → OnOk result (HasEntries writer.new) }
    ensures room { (left : ℕ) → HasRoom space.old writer.old (weight_with key.now rec.now + left) → OnOk result (HasRoom space.new writer.new left) }
    ensures light { OnOk result (writer.new.component.weight ≤ writer.old.component.weight + weight_with key.now rec.now) }
    ensures size { OnOk result (role_size space.new writer.old.role + writer.old.component.pages ≡ role_size space.old writer.old.role + writer.new.component.pages) }
    ensures kept { OnErr result (writer.new ≡ writer.old) }
    ensures one_a_page { OnOk result ((D.state disk.new).clock + writer.old.component.pages ≤ (D.state disk.old).clock + writer.new.component.pages) }
    ensures reserves { KeepReserves filter.old filter.new fences.old fences.new }
    ensures role { writer.new.role ≡ writer.old.role }
    ensures takes { TakesPages writer.old.role space.old space.new }
    ensures writes { Writes (open_region geo.now writer.old) (file_length geo.now) result (D.state disk.old) (D.state disk.new) }
    // The page that it writes has the run's tag; the one that is open then is the same or was free.
    ensures tagged { IsWithin (open_region geo.now writer.old) (role_region geo.now space.old writer.old.role) }
    ensures opens { IsWithin (open_region geo.now writer.new) (loose_region geo.now space.old writer.old) }
{
    let left = left_of(settles, rec, base);
    let Some(rec) = lying(left, rec, base) else {
        return Ok(());
    };
    let _pages = space.pages();
    let _weight = weight(key, rec);
    writer.push(disk, geo, space, filter, fences, key, rec)
}
