//! Rows that are gathered from a scan.
ghost use Rattle.std.specs.Prelude.{◌≡◌, ◌≢◌, ◌+◌, ◌<◌, ◌≤◌, ◌++◌, ◌∷◌, [], ℕ, List, Option, Ok, Err, length, take, drop, IsTrue, OnOk};
ghost use Rattle.blsm_model.specs.declared.key.Key.{Key};
ghost use Rattle.blsm_model.specs.Format.{most_rows};
ghost use Rattle.blsm_model.specs.Geometry.{file_length};
ghost use Rattle.blsm_model.specs.Keys.{in_range as in_range_of};
ghost use Rattle.record_delta.specs.Entries.{AreSorted, above};
ghost use Rattle.page_file.specs.File.{Reads};
ghost use Rattle.scan_view.specs.Hold.{AreGiven, rows_of};
ghost use Rattle.scan_view.specs.Left.{IsFile};
ghost use Rattle.scan_view.specs.Scan.{IsScan, HaveRead, AreWalks, AreFurther, pages_left};
ghost use Rattle.scan_view.specs.Told.{Contents, Sources, AreTold, IsNeeded, hold_over, view_by, is_before as is_before_end};

use crate::RowRoom;
use crate::scan::Scan;
use blsm_model::{Geometry, Key, Row};
use disk_trait::Disk;
use page_file::Broken;
use record_delta::{Rec, settle};

// Whether a key is in the range, which has low and hasn't high.
pub fn is_in_range(low: &Key, high: &Key, key: &Key) -> bool
    ensures { result ≡ in_range_of low.now high.now key.now }
{
    !(key < low) && key < high
}

// Whether a key that comes after this one can be below the range's end.
fn is_before(at: &Option<Key>, high: &Key) -> bool
    ensures { result ≡ is_before_end high.now at.now }
{
    match at {
        None => true,
        Some(key) => key < high,
    }
}

// Puts an entry's row behind the others, where its key is in the range and has a value.
fn put_row(rows: &mut RowRoom, low: &Key, high: &Key, key: Key, rec: Rec)
    requires { length rows.old < most_rows }
    ensures { rows.new ≡ rows.old ++ rows_of low.now high.now ((key, rec) ∷ []) }
{
    if !is_in_range(low, high, &key) {
        return;
    }
    if let Some(value) = settle(rec) {
        rows.push(Row { key, value });
    }
}

/// Fills the room with the next n rows of the range, or with as many as there are. The scan ends at the last key that it passed.
/// It stays a call, so that its locals aren't added to a frame that has the scan's three pages.
#[inline(never)]
pub fn gather<D: Disk>(
    scan: &mut Scan,
    memory: &[(Key, Rec)],
    low: &Key,
    high: &Key,
    disk: &mut D,
    geo: &Geometry,
    n: u32,
    rows: &mut RowRoom,
) -> Result<(), Broken>
    requires few { n ≤ most_rows }
    requires sorted { AreSorted memory.now }
    requires length { IsTrue (D.state disk.old).tells_bytes → length (D.state disk.old).bytes ≡ file_length geo.now }
    ensures rows { (file : List ℕ) (released : Option Key) (lists : Contents) (pages : List ℕ) → IsFile file (D.state disk.old)
        → IsScan geo.now scan.old released lists pages file → result ≢ Err Broken.Fault
        → (result ≡ Ok tt) × (rows.new ≡ take n (rows_of low.now high.now (above scan.old.at (view_by memory.now released lists))))
        × (rows_of low.now high.now (above scan.new.at (view_by memory.now released lists))
        ≡ drop n (rows_of low.now high.now (above scan.old.at (view_by memory.now released lists))))
        × IsScan geo.now scan.new released lists pages file }
    ensures given { OnOk result (AreGiven n low.now high.now scan.old.at scan.new.at rows.new) }
    // Whatever front and components read as, so it is by what was read of them; and a page is named as damaged only where the next row can't be told
    // without it.
    ensures told { (file : List ℕ) (of : Sources) (read : Contents) → IsFile file (D.state disk.old) → HaveRead geo.now of scan.old read file
        → OnOk result (AreTold geo.now n (hold_over low.now high.now memory.now of scan.old.at) scan.new.at rows.new file
        × (now : Contents) × HaveRead geo.now of scan.new now file) }
    ensures damaged { (k : ℕ) (file : List ℕ) (of : Sources) (read : Contents) → result ≡ Err (Broken.Damaged k) → IsFile file (D.state disk.old)
        → HaveRead geo.now of scan.old read file → IsNeeded geo.now n (hold_over low.now high.now memory.now of scan.old.at) k file }
    ensures walks { AreWalks scan.old → OnOk result (AreFurther scan.old scan.new) }
    ensures one_a_page { OnOk result ((D.state disk.new).clock + pages_left scan.new ≤ (D.state disk.old).clock + pages_left scan.old) }
    ensures reads { Reads (file_length geo.now) (pages_left scan.old) result (D.state disk.old) (D.state disk.new) }
{
    rows.clear();
    while rows.len() < n && is_before(&scan.at, high) {
        let Some((key, rec)) = scan.next(memory, disk, geo)? else {
            return Ok(());
        };
        put_row(rows, low, high, key, rec);
    }
    Ok(())
}
