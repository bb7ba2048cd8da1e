//! The record of a key among a component's entries.
ghost use Rattle.std.specs.Prelude.{◌≡◌, ◌≢◌, ◌<◌, ◌≤◌, ◌-◌, ◌++◌, ℕ, List, Option, Ok, Err, length, IsTrue, IfOk, OnOk};
ghost use Rattle.std.specs.FinMap.{find as find_in};
ghost use Rattle.blsm_model.specs.declared.key.Key.{Key};
ghost use Rattle.blsm_model.specs.Components.{no_page};
ghost use Rattle.blsm_model.specs.Keys.{key_cmp};
ghost use Rattle.blsm_model.specs.Geometry.{page_count, file_length};
ghost use Rattle.bloom_bits.specs.Filter.{MayHave};
ghost use Rattle.bloom_bits.specs.Fences.{IsBelowAll};
ghost use Rattle.bloom_bits.specs.Guides.{fences_of};
ghost use Rattle.page_file.specs.Component.{RunPage, ReadsAs, ReadsOn, entries_of};
ghost use Rattle.record_delta.specs.Entries.{Entries};
ghost use Rattle.page_file.specs.File.{page_at, Reads};
ghost use Rattle.page_file.specs.Page.{IsPageOf};
ghost use Rattle.run_cursor.specs.Lookup.{IsGuided, IsOnPage, IsFoundBy, IsDamaged};

use crate::below::record_among;
use bloom_bits::{Fences, Filter};
use blsm_model::{Component, Geometry, Key};
use disk_trait::Disk;
use page_file::{Broken, PAGE_HEAD_LEN, PAGE_LEN, PageHead, read_page};
use record_delta::Rec;

/// The record of a key in a component, or in the pages of a run that goes on, if they have one. The filter is asked first, then the fences, and then the one page that they
/// name is read: it makes one call of the disk at most, and none where the filter says no. It takes no memory.
///
/// `Damaged` names that page, where it isn't a valid one; it never comes where the run reads as a list whose keys the filter has and
/// whose pages the fences name. `Fault` comes only where the disk's count of faults rose.
pub fn find<D: Disk>(
    disk: &mut D,
    geo: &Geometry,
    run: &Component,
    filter: &Filter,
    fences: &Fences,
    key: &Key,
) -> Result<Option<Rec>, Broken>
    requires length { IsTrue (D.state disk.old).tells_bytes → length (D.state disk.old).bytes ≡ file_length geo.now }

    // Where filter and fences are those of the pages that the component reads as, or it has none, the answer is that of their list.
    ensures list { (pages : List RunPage) → IsTrue (D.state disk.old).is_honest → ReadsAs geo.now run.now pages (D.state disk.old).bytes
        → IsGuided filter.now fences.now pages → result ≢ Err Broken.Fault → result ≡ Ok (find_in key_cmp key.now (entries_of pages)) }
    // So it is where the run goes on behind these pages, whose filter and fences may be those of the pages behind them too, for a key that is below
    // the first ones of those.
    ensures front { (pages behind : List RunPage) (next : Option ℕ) → IsTrue (D.state disk.old).is_honest → ReadsOn geo.now run.now pages next (D.state disk.old).bytes
        → IsGuided filter.now fences.now (pages ++ behind) → IsBelowAll key.now (fences_of behind) → result ≢ Err Broken.Fault
        → result ≡ Ok (find_in key_cmp key.now (entries_of pages)) }
    // Whatever they are, the answer is what the page says that the fences name, or, with no call, that there is none where no page is asked;
    // and where that page is damaged, its bytes show it.
    ensures told { IfOk result (λ found. IsTrue (D.state disk.old).is_honest
        → IsFoundBy geo.now run.now filter.now fences.now key.now found ((D.state disk.new).clock - (D.state disk.old).clock) (D.state disk.old).bytes) }
    ensures damaged { (n : ℕ) → result ≡ Err (Broken.Damaged n) → IsTrue (D.state disk.old).is_honest
        → IsDamaged geo.now run.now filter.now fences.now key.now n (D.state disk.old).bytes }

    // It only reads, once at most, and not where the filter says no.
    ensures no_call { (MayHave filter.now key.now → ⊥) → disk.new ≡ disk.old }
    ensures reads { Reads (file_length geo.now) 1 result (D.state disk.old) (D.state disk.new) }
{
    if run.pages == 0 || !filter.may(key) {
        return Ok(None);
    }
    match fences.page_of(key) {
        Some(page) => find_on(disk, geo, page, key),
        None => Ok(None),
    }
}

// The record of a key on a page, if it has one. A page that the store doesn't have is a damaged one.
fn find_on<D: Disk>(disk: &mut D, geo: &Geometry, n: u32, key: &Key) -> Result<Option<Rec>, Broken>
    requires length { IsTrue (D.state disk.old).tells_bytes → length (D.state disk.old).bytes ≡ file_length geo.now }
    ensures few { page_count geo.now ≤ no_page }
    ensures page { IfOk result (λ found. IsTrue (D.state disk.old).is_honest → IsOnPage geo.now n key.now found (D.state disk.old).bytes) }
    ensures damaged { (m : ℕ) → result ≡ Err (Broken.Damaged m) → IsTrue (D.state disk.old).is_honest
        → (m ≡ n) × ((next : Option ℕ) (entries : Entries) → n < page_count geo.now → IsPageOf (page_count geo.now) next entries (page_at geo.now n (D.state disk.old).bytes) → ⊥) }
    ensures reads { Reads (file_length geo.now) 1 result (D.state disk.old) (D.state disk.new) }
{
    if u64::from(n) >= geo.pages() {
        return Err(Broken::Damaged(n));
    }
    let mut page = [0; PAGE_LEN];
    read_page(disk, geo, n, &mut page)?;
    let used = PageHead::read(&page).used as usize;
    Ok(record_among(&page[PAGE_HEAD_LEN..PAGE_HEAD_LEN + used], key))
}
