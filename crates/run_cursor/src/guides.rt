//! A sorted run's filter and fences, made anew from its pages.
ghost use Rattle.std.specs.Prelude.{◌≡◌, ◌≢◌, ◌+◌, ◌^◌, ◌<◌, ◌≤◌, ◌++◌, ℕ, List, Option, Ok, Err, length, IsTrue, IfOk, IfSome, IfNone};
ghost use Rattle.blsm_model.specs.declared.key.Key.{Key};
ghost use Rattle.blsm_model.specs.Components.{no_page};
ghost use Rattle.blsm_model.specs.Geometry.{page_count, file_length};
ghost use Rattle.bloom_bits.specs.Filter.{rounded, HasKeys};
ghost use Rattle.bloom_bits.specs.Guides.{fence_of, Guide, KeepReserves, KeepSized};
ghost use Rattle.entry_codec.specs.Spelling.{BeginsWith};
ghost use Rattle.page_file.specs.Component.{RunPage, ReadsOn};
ghost use Rattle.page_file.specs.Entry.{entries_bytes, keys_of, AreEntries, HasFirstEntry};
ghost use Rattle.page_file.specs.File.{page_at, Reads};
ghost use Rattle.page_file.specs.Page.{IsPageOf};
ghost use Rattle.record_delta.specs.declared.record.Rec.{Rec};
ghost use Rattle.record_delta.specs.Entries.{Entries};
ghost use Rattle.run_cursor.specs.Lookup.{IsFirstAbove};
ghost use Rattle.run_cursor.specs.Rebuild.{place_behind};

use bloom_bits::{Fence, Fences, Filter};
use blsm_model::{Component, Geometry, Key};
use disk_trait::Disk;
use entry_codec::decode;
use page_file::{Broken, PAGE_HEAD_LEN, PAGE_LEN, PageHead, number_of, read_page};

// A place among a run's pages: the number of the page that comes next, and how many entries, of which weight in bytes, stand before it.
#[derive(Clone, Copy)]
struct Place {
    page: u32,
    entries: u64,
    weight: u64,
}

// The key of the entry at the front of the bytes, and the bytes behind that entry, if one is there.
fn first_entry<'a>(bytes: &'a [u8]) -> Option<(Key, &'a [u8])>
    ensures found { IfSome result (λ p. HasFirstEntry bytes.now p.0 p.1.now) }
    ensures none { IfNone result ((key : Key) (rec : Rec) → BeginsWith bytes.now key rec → ⊥) }
{
    let (key, _, len) = decode(bytes)?;
    let (_, behind) = bytes.split_at(len);
    Some((key, behind))
}

// Adds the keys of the entries in these bytes.
fn add_keys(filter: &mut Filter, bytes: &[u8])
    ensures keys { (keys : List Key) (entries : Entries) → HasKeys filter.old keys → AreEntries entries → bytes.now ≡ entries_bytes entries → HasKeys filter.new (keys ++ keys_of entries) }
    ensures reserved { filter.new.reserved ≡ filter.old.reserved }
    ensures bits { length filter.new.bits ≡ length filter.old.bits }
{
    let mut rest = bytes;
    while let Some((key, behind)) = first_entry(rest) {
        filter.add(&key);
        rest = behind;
    }
}

// Adds the keys of a page's entries, which are in these bytes, and its fence, if there is room for it and its key is above the others'.
fn add_entries(filter: &mut Filter, fences: &mut Fences, bytes: &[u8], at: Place) -> bool
    ensures added { (entries : Entries) → AreEntries entries → bytes.now ≡ entries_bytes entries → length fences.old.list < fences.old.reserved → IsFirstAbove entries fences.old.list
        → IsTrue result × (fences.new.list ≡ fences.old.list ++ fence_of at.entries at.weight at.page entries) × ((keys : List Key) → HasKeys filter.old keys → HasKeys filter.new (keys ++ keys_of entries)) }
    ensures reserves { KeepReserves filter.old filter.new fences.old fences.new }
{
    let Some((first, _)) = first_entry(bytes) else {
        return false;
    };
    if !fences.takes(&first) {
        return false;
    }
    fences.push(Fence {
        first,
        page: at.page,
        entries: at.entries,
        weight: at.weight,
    });
    add_keys(filter, bytes);
    true
}

// Reads a page, adds its keys and its fence, and gives the place behind it.
fn add_page<D: Disk>(
    disk: &mut D,
    geo: &Geometry,
    at: Place,
    filter: &mut Filter,
    fences: &mut Fences,
) -> Result<Place, Broken>
    requires length { IsTrue (D.state disk.old).tells_bytes → length (D.state disk.old).bytes ≡ file_length geo.now }
    requires few { at.entries + 2 ^ 16 < 2 ^ 64 }
    requires light { at.weight + 2 ^ 16 < 2 ^ 64 }
    ensures page { (next : Option ℕ) (entries : Entries) → IsTrue (D.state disk.old).is_honest → at.page < page_count geo.now
        → IsPageOf (page_count geo.now) next entries (page_at geo.now at.page (D.state disk.old).bytes) → length fences.old.list < fences.old.reserved
        → IsFirstAbove entries fences.old.list → result ≢ Err Broken.Fault
        → (result ≡ Ok (place_behind at next entries)) × (fences.new.list ≡ fences.old.list ++ fence_of at.entries at.weight at.page entries)
        × ((keys : List Key) → HasKeys filter.old keys → HasKeys filter.new (keys ++ keys_of entries)) }
    ensures sums { IfOk result (λ now. (now.entries ≤ at.entries + 2 ^ 16) × (now.weight ≤ at.weight + 2 ^ 16)) }
    ensures reserves { KeepReserves filter.old filter.new fences.old fences.new }
    ensures reads { Reads (file_length geo.now) 1 result (D.state disk.old) (D.state disk.new) }
{
    if u64::from(at.page) >= geo.pages() {
        return Err(Broken::Damaged(at.page));
    }
    let mut page = [0; PAGE_LEN];
    read_page(disk, geo, at.page, &mut page)?;
    let head = PageHead::read(&page);
    let entries = &page[PAGE_HEAD_LEN..PAGE_HEAD_LEN + head.used as usize];
    if add_entries(filter, fences, entries, at) {
        Ok(Place {
            page: number_of(head.next),
            entries: at.entries + u64::from(head.count),
            weight: at.weight + u64::from(head.used),
        })
    } else {
        Err(Broken::Damaged(at.page))
    }
}

/// Fills the filter and the fences of a component, or of the pages of a run that goes on, which may have had others, by a walk over the pages: one call of
/// the disk for each. The filter gets so many bits; as many as the run weighs bytes make it tell keys apart. It takes no memory.
///
/// `Damaged` never comes where the run reads as a list. `Fault` comes only where the disk's count of faults rose. After an `Err`
/// nothing is known of filter and fences.
pub fn rebuild<D: Disk>(
    disk: &mut D,
    geo: &Geometry,
    run: &Component,
    bits: u64,
    filter: &mut Filter,
    fences: &mut Fences,
) -> Result<(), Broken>
    requires bits { rounded bits ≤ filter.old.reserved }
    requires room { run.now.pages ≤ fences.old.reserved }
    requires length { IsTrue (D.state disk.old).tells_bytes → length (D.state disk.old).bytes ≡ file_length geo.now }
    ensures guide { (pages : List RunPage) (next : Option ℕ) → IsTrue (D.state disk.old).is_honest → ReadsOn geo.now run.now pages next (D.state disk.old).bytes
        → result ≢ Err Broken.Fault → (result ≡ Ok tt) × Guide filter.new fences.new pages }
    ensures reserves { KeepSized (rounded bits) filter.old filter.new fences.old fences.new }
    ensures reads { Reads (file_length geo.now) run.now.pages result (D.state disk.old) (D.state disk.new) }
{
    filter.reset(bits);
    fences.clear();
    let mut at = Place {
        page: run.first,
        entries: 0,
        weight: 0,
    };
    for _ in 0..run.pages {
        at = add_page(disk, geo, at, filter, fences)?;
    }
    Ok(())
}
