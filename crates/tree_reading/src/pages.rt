//! The pages of a component, walked from the first.
ghost use Rattle.std.specs.Prelude.{◌≡◌, ◌↔◌, ℕ, ◌+◌, ◌*◌, ◌^◌, ◌<◌, ◌≤◌, List, [], ◌∷◌, length, IsTrue, IsErr, IfErr, OnOk};
ghost use Rattle.blsm_model.specs.Components.{empty_component, no_page};
ghost use Rattle.blsm_model.specs.Geometry.{page_count, file_length};
ghost use Rattle.page_file.specs.Component.{RunPage, ReadsAs};
ghost use Rattle.page_file.specs.File.{Reads};
ghost use Rattle.page_space.specs.Space.{HasRole, IsSpace};
ghost use Rattle.tree_runs.specs.Laws.{TakesFree};
ghost use Rattle.tree_runs.specs.Noting.{KeepsRooms};
ghost use Rattle.tree_runs.specs.Runs.{IsFilled, IsReserved, guide_at};
ghost use Rattle.tree_reading.specs.Pages.{AreAllowed};
ghost use Rattle.output_reading.specs.Walk.{TakesUp};
ghost use Rattle.tree_reading.specs.Walk.{ChangesOnly, Enters, IsClear, IsGuideAt, IsStoppedAt, StartsAt, TellsBroken, TellsPages};
ghost use Rattle.tree_reading.specs.Walk.{TellsStop};

use blsm_model::{Component, Geometry, Key};
use disk_trait::Disk;
use page_file::Broken;
use page_space::{Role, Space};
use record_delta::{Rec, Stream};
use run_cursor::Cursor;
use tree_runs::{GuideRoom, PageStart};

// Gives a tag to the page that a cursor reads next, if it reads one then, and answers which page it is at afterwards. A page that isn't free
// is damaged, and so is one that names a page past the last.
fn enter(cursor: &Cursor, page: u32, role: Role, space: &mut Space) -> Result<u32, Broken>
    ensures { Enters cursor.now page role space.old space.new result }
{
    let Some(next) = cursor.next_page() else {
        return Ok(page);
    };
    if next >= space.pages() {
        return Err(Broken::Damaged(page));
    }
    if !space.is_free(next) {
        return Err(Broken::Damaged(next));
    }
    space.claim(role, next);
    Ok(next)
}

// Where the page begins that a cursor over a component reads next, if it reads one then.
fn start_of(run: &Component, cursor: &Cursor) -> Option<PageStart>
    ensures { StartsAt run.now cursor.now result }
{
    let page = cursor.next_page()?;
    Some(PageStart {
        page,
        entries: run.entries.saturating_sub(cursor.left()),
        weight: run.weight.saturating_sub(cursor.weight_left()),
    })
}

// Whether a component may have an entry.
fn is_allowed(entry: &(Key, Rec), bases_only: bool) -> bool
    ensures { IsTrue result ↔ AreAllowed bases_only (entry.now ∷ []) }
{
    !bases_only || matches!(entry.1, Rec::Base(_))
}

// Walks the pages of a component from the first and gives each a tag, with one call of the disk for each. What it meets it notes for the
// filter and the fences of that tag, if there are any.
//
// `Damaged` names the first page that isn't free, isn't a valid page, or doesn't go on as the component's order and numbers say; so it may be
// a page before the last one, with which entries or weight come to more than the component has, or which leaves too little weight to fill the
// pages behind it.
fn walk_within<D: Disk>(
    disk: &mut D,
    geo: &Geometry,
    run: &Component,
    bases_only: bool,
    role: Role,
    space: &mut Space,
    guides: &mut GuideRoom,
) -> Result<(), Broken>
    requires empty { run.now.pages ≡ 0 → run.now ≡ empty_component }
    requires pages { space.old.pages ≡ page_count geo.now }
    requires shape { IsSpace space.old }
    requires length { IsTrue (D.state disk.old).tells_bytes → length (D.state disk.old).bytes ≡ file_length geo.now }
    ensures few { page_count geo.now ≤ no_page }
    ensures changed { ChangesOnly role space.old space.new }
    ensures taken { OnOk result (TakesFree role run.now.pages space.old space.new) }
    ensures filled { OnOk result (IsFilled run.now) }
    ensures tells { (earlier : List ℕ) → IsTrue (D.state disk.old).is_honest → TakesUp earlier space.old
        → TellsStop geo.now run.now bases_only earlier role space.old space.new (D.state disk.old).bytes result }
    ensures rooms { KeepsRooms role guides.old guides.new }
    ensures guided { (pages : List RunPage) → IsTrue (D.state disk.old).is_honest → IsClear run.now role guides.old
        → ReadsAs geo.now run.now pages (D.state disk.old).bytes → OnOk result (IsGuideAt role guides.new pages) }
    ensures reads { Reads (file_length geo.now) run.now.pages result (D.state disk.old) (D.state disk.new) }
{
    // A store has fewer pages than there are numbers, so that the one behind the last is told apart.
    let _pages = geo.pages();
    let mut cursor = Cursor::start(run);
    let mut page = run.first;
    loop {
        let start = start_of(run, &cursor);
        page = enter(&cursor, page, role, space)?;
        cursor.advance(disk, geo)?;
        let Some(entry) = cursor.head() else {
            return Ok(());
        };
        if !is_allowed(&entry, bases_only) {
            return Err(Broken::Damaged(page));
        }
        guides.note(role, &entry.0, start);
    }
}

// A component with more entries and weight than its pages can hold.
fn unbounded_of(first: u32, pages: u32) -> Component
    ensures component { result ≡ record { first = first; pages = pages; entries = 2 ^ 63; weight = 2 ^ 63 } }
    ensures few { pages < 2 ^ 32 }
{
    Component {
        first,
        pages,
        entries: 1 << 63,
        weight: 1 << 63,
    }
}

// Walks once more over a component that didn't read: as if it had more than its pages can hold, so that no page before the last one stops
// the walk by entries or weight. If it doesn't stop at all, the page is damaged that was named before.
fn walk_again<D: Disk>(
    disk: &mut D,
    geo: &Geometry,
    run: &Component,
    bases_only: bool,
    role: Role,
    space: &mut Space,
    guides: &mut GuideRoom,
    named: u32,
) -> Result<(), Broken>
    requires some { 0 < run.now.pages }
    requires pages { space.old.pages ≡ page_count geo.now }
    requires shape { IsSpace space.old }
    requires length { IsTrue (D.state disk.old).tells_bytes → length (D.state disk.old).bytes ≡ file_length geo.now }
    ensures refused { IsErr result }
    ensures tells { (earlier : List ℕ) → IsTrue (D.state disk.old).is_honest → TakesUp earlier space.old
        → IsStoppedAt geo.now run.now bases_only earlier named (D.state disk.old).bytes
        → IfErr result (λ broken. TellsBroken geo.now run.now bases_only earlier (D.state disk.old).bytes broken) }
    ensures rooms { KeepsRooms role guides.old guides.new }
    ensures reads { Reads (file_length geo.now) run.now.pages result (D.state disk.old) (D.state disk.new) }
{
    let unbounded = unbounded_of(run.first, run.pages);
    match walk_within(disk, geo, &unbounded, bases_only, role, space, guides) {
        Ok(()) => Err(Broken::Damaged(named)),
        Err(broken) => Err(broken),
    }
}

/// Walks the pages of a component from the first and gives each a tag, with one call of the disk for each, or two where it doesn't read; it
/// takes no memory. The filter and the fences of that tag, if there are any, are then those of its pages.
///
/// `Damaged` names the first page that isn't free, isn't a valid page, has a next page though it is the last one by the component's number or
/// none though it isn't, or has keys that don't rise; where only bases may stand, also the first with another record. Where no page is such a
/// one, but their entries or weight aren't the component's, it names the last page. `Fault` comes only where the disk's count of faults rose.
pub(crate) fn walk<D: Disk>(
    disk: &mut D,
    geo: &Geometry,
    run: &Component,
    bases_only: bool,
    role: Role,
    space: &mut Space,
    guides: &mut GuideRoom,
) -> Result<(), Broken>
    requires empty { run.now.pages ≡ 0 → run.now ≡ empty_component }
    requires rooms { role < length guides.old → IsReserved run.now.weight (guide_at guides.old role) }
    requires pages { space.old.pages ≡ page_count geo.now }
    requires shape { IsSpace space.old }
    requires none { (page : ℕ) → HasRole space.old role page → ⊥ }
    requires length { IsTrue (D.state disk.old).tells_bytes → length (D.state disk.old).bytes ≡ file_length geo.now }
    ensures taken { OnOk result (TakesFree role run.now.pages space.old space.new) }
    ensures filled { OnOk result (IsFilled run.now) }
    ensures tells { (earlier : List ℕ) → IsTrue (D.state disk.old).is_honest → TakesUp earlier space.old
        → TellsPages geo.now run.now bases_only earlier role space.old space.new (D.state disk.old).bytes result }
    ensures rooms { KeepsRooms role guides.old guides.new }
    ensures guided { (pages : List RunPage) → IsTrue (D.state disk.old).is_honest → role < length guides.old
        → ReadsAs geo.now run.now pages (D.state disk.old).bytes → OnOk result (IsGuideAt role guides.new pages) }
    ensures reads { Reads (file_length geo.now) (2 * run.now.pages) result (D.state disk.old) (D.state disk.new) }
    ensures once { OnOk result ((D.state disk.new).clock ≤ (D.state disk.old).clock + run.now.pages) }
{
    guides.begin(role, run.weight);
    let Err(broken) = walk_within(disk, geo, run, bases_only, role, space, guides) else {
        return Ok(());
    };
    let Broken::Damaged(named) = broken else {
        return Err(broken);
    };
    if run.pages == 0 {
        return Err(broken);
    }
    space.release(role);
    walk_again(disk, geo, run, bases_only, role, space, guides, named)
}
