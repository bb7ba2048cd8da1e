//! The finished pages of a run, as they are met entry by entry.
ghost use Rattle.std.specs.Prelude.{
  ◌≡◌,
  ◌≢◌,
  ◌↔◌,
  ◌+◌,
  ◌^◌,
  ◌<◌,
  ◌≤◌,
  ◌∷◌,
  ◌++◌,
  [],
  ℕ,
  Bool,
  true,
  List,
  Option,
  Some,
  Ok,
  Err,
  length,
  IsTrue,
  IfErr,
  IfSome,
  OnOk,
  nat_lt,
  if◌then◌else◌,
};
ghost use Rattle.blsm_model.specs.Components.{no_page};
ghost use Rattle.blsm_model.specs.declared.component.Component.{Component};
ghost use Rattle.blsm_model.specs.declared.key.Key.{Key};
ghost use Rattle.blsm_model.specs.Geometry.{file_length, page_count};
ghost use Rattle.blsm_model.specs.Sizes.{Sizes};
ghost use Rattle.page_file.specs.Entry.{AreRising};
ghost use Rattle.page_file.specs.File.{Reads};
ghost use Rattle.page_space.specs.Space.{IsSpace, SpaceState};
ghost use Rattle.record_delta.specs.declared.record.Rec.{Rec};
ghost use Rattle.record_delta.specs.Entries.{Entries, entries_weight, is_above, settled_entries};
ghost use Rattle.record_delta.specs.Records.{weight as weight_with};
ghost use Rattle.run_cursor.specs.Cursor.{AreFull, started};
ghost use Rattle.run_cursor.specs.Given.{HasGiven, HasGivenMore};
ghost use Rattle.tree_runs.specs.Noting.{KeepsRooms};
ghost use Rattle.tree_runs.specs.Runs.{guide_at};
ghost use Rattle.output_reading.specs.Noted.{HasFence, HasNoted, IsOnward, StartsAt};
ghost use Rattle.output_reading.specs.Output.{IsFront};
ghost use Rattle.output_reading.specs.Walk.{Ends, Enters, HasClaimed, HasFallen, HasMet, HasPassed, IsWhole, TakesUp, TellsStop, unbounded};

use blsm_model::{Component, Geometry, Key};
use catalog_swap::Progress;
use disk_trait::Disk;
use page_file::{Broken, MOST_USED};
use page_space::{Role, Space};
use record_delta::{Rec, settle};
use run_cursor::Cursor;
use tree_runs::{GuideRoom, PageStart};

// More entries, and more bytes of them, than the pages of any run have.
const UNBOUNDED: u64 = 1 << 63;

/// A cursor over finished pages, which go on, and the page that it is on; before the first entry that is the first one.
#[derive(Debug, Drop)]
pub struct Output {
    pub cursor: Cursor,
    pub page: u32,
}

impl Output {
    /// Before the first entry. The cursor takes the run for one that has a page more, the one that comes next, and sums that no run has: how
    /// many entries there are, of which weight, is seen in the end. It calls no device.
    pub fn start(run: &Component) -> Output
        requires some { 0 < run.now.pages }
        requires few { run.now.pages + 1 < 2 ^ 32 }
        ensures started { result ≡ record { cursor = started (unbounded run.now); page = run.now.first } }
        ensures met { (sizes : Sizes) (earlier : List ℕ) (role : ℕ) (space : SpaceState) (file : List ℕ) → TakesUp earlier space
            → HasMet sizes run.now earlier role space result space [] file }
        ensures given { (sizes : Sizes) (file : List ℕ) → HasGiven sizes (unbounded run.now) result.cursor [] file }
        ensures full { AreFull (unbounded run.now) result.cursor }
    {
        Output {
            cursor: Cursor::start(&Component {
                first: run.first,
                pages: run.pages + 1,
                entries: UNBOUNDED,
                weight: UNBOUNDED,
            }),
            page: run.first,
        }
    }

    // The page that departs where the run doesn't go on with this next one: that page, or where there is none of that number, the one that names it.
    fn departed(&self, next: u32, space: &Space) -> u32
        ensures { result ≡ (if nat_lt next space.now.pages then next else self.now.page) }
    {
        if next < space.pages() {
            next
        } else {
            self.page
        }
    }

    // Gives the tag to the page that the cursor reads next, if it reads one then. It refuses the page behind the last one, and one that isn't free.
    fn enter(&mut self, role: Role, space: &mut Space) -> Result<(), Broken>
        ensures { Enters self.old self.new role space.old space.new result }
    {
        let Some(part) = self.cursor.from_here() else {
            return Ok(());
        };
        if part.pages == 1 {
            return Err(Broken::Damaged(self.page));
        }
        if part.first >= space.pages() || !space.is_free(part.first) {
            return Err(Broken::Damaged(self.departed(part.first, space)));
        }
        space.claim(role, part.first);
        self.page = part.first;
        Ok(())
    }

    // Where the page begins that the cursor reads next, if it reads one then.
    fn next_start(&self) -> Option<PageStart>
        ensures { StartsAt self.now.cursor result }
    {
        let page = self.cursor.next_page()?;
        Some(PageStart {
            page,
            entries: UNBOUNDED.saturating_sub(self.cursor.left()),
            weight: UNBOUNDED.saturating_sub(self.cursor.weight_left()),
        })
    }

    // Goes on to the next entry.
    fn advance<D: Disk>(
        &mut self,
        disk: &mut D,
        geo: &Geometry,
        role: Role,
        space: &mut Space,
    ) -> Result<(), Broken>
        requires left { 0 < self.old.cursor.pages }
        requires pages { space.old.pages ≡ page_count geo.now }
        requires length { IsTrue (D.state disk.old).tells_bytes → length (D.state disk.old).bytes ≡ file_length geo.now }
        ensures met { (run : Component) (earlier : List ℕ) (first : SpaceState) (met : Entries) → IsTrue (D.state disk.old).is_honest
            → HasMet geo.now run earlier role first self.old space.old met (D.state disk.old).bytes
            → OnOk result (IfSome self.new.cursor.head (λ e. HasMet geo.now run earlier role first self.new space.new (met ++ e ∷ [])
            (D.state disk.old).bytes)) }
        ensures stops { (run : Component) (earlier : List ℕ) (first : SpaceState) (met entries : Entries) → IsTrue (D.state disk.old).is_honest
            → 0 < run.pages → run.pages < 2 ^ 32
            → AreRising entries
            → HasMet geo.now run earlier role first self.old space.old met (D.state disk.old).bytes → IsFront met entries → (met ≡ entries → ⊥)
            → IfErr result (λ broken. TellsStop geo.now run entries earlier (D.state disk.old).bytes broken) }
        ensures given { (run : Component) (given : Entries) → IsTrue (D.state disk.old).is_honest
            → HasGiven geo.now (unbounded run) self.old.cursor given (D.state disk.old).bytes
            → OnOk result (HasGivenMore geo.now (unbounded run) self.new.cursor self.new.cursor.head given (D.state disk.old).bytes) }
        ensures onward { OnOk result (IsOnward self.old self.new role space.old space.new) }
        ensures falls { OnOk result ((entry : Key × Rec) × (self.new.cursor.head ≡ Some entry) × HasFallen self.old.cursor self.new.cursor entry) }
        ensures claims { (all : ℕ) (first : SpaceState) → HasClaimed role all self.old.cursor.pages first space.old
            → OnOk result (HasClaimed role all self.new.cursor.pages first space.new) }
        ensures same_pages { space.new.pages ≡ space.old.pages }
        ensures left { 0 < self.new.cursor.pages }
        ensures full { (run : Component) → AreFull run self.old.cursor → OnOk result (AreFull run self.new.cursor) }
        ensures few { page_count geo.now ≤ no_page }
        ensures once { OnOk result ((D.state disk.new).clock + self.new.cursor.pages ≤ (D.state disk.old).clock + self.old.cursor.pages) }
        ensures calls { (D.state disk.new).clock + self.new.cursor.pages ≤ (D.state disk.old).clock + self.old.cursor.pages + 1 }
        ensures reads { Reads (file_length geo.now) 1 result (D.state disk.old) (D.state disk.new) }
    {
        let _pages = geo.pages();
        self.enter(role, space)?;
        self.cursor.advance(disk, geo)?;
        Ok(())
    }

    // Whether the cursor is at this entry.
    fn is_at(&self, key: &Key, rec: &Rec) -> bool
        ensures { IsTrue result ↔ (self.now.cursor.head ≡ Some (key.now, rec.now)) }
    {
        match self.cursor.peek() {
            Some((here, found)) => *here == *key && *found == *rec,
            None => false,
        }
    }

    /// Goes on to the next entry, where this record settles to one, and that must be it. Its page gets the tag, and it is noted for the filter and
    /// the fences of that tag, if there are any. It makes one call of the disk at most, for a page that it comes to.
    ///
    /// `Damaged` names the first page that departs: that of another entry, or the one that would be read next; where no page is left, the last one.
    pub fn meet<D: Disk>(
        &mut self,
        disk: &mut D,
        geo: &Geometry,
        key: &Key,
        rec: Rec,
        role: Role,
        space: &mut Space,
        guides: &mut GuideRoom,
    ) -> Result<(), Broken>
        requires left { 0 < self.old.cursor.pages }
        requires pages { space.old.pages ≡ page_count geo.now }
        requires length { IsTrue (D.state disk.old).tells_bytes → length (D.state disk.old).bytes ≡ file_length geo.now }
        ensures met { (run : Component) (earlier : List ℕ) (first : SpaceState) (met : Entries) → IsTrue (D.state disk.old).is_honest
            → HasMet geo.now run earlier role first self.old space.old met (D.state disk.old).bytes
            → OnOk result (HasMet geo.now run earlier role first self.new space.new (met ++ settled_entries ((key.now, rec) ∷ []))
            (D.state disk.old).bytes) }
        ensures stops { (run : Component) (earlier : List ℕ) (first : SpaceState) (met entries : Entries) → IsTrue (D.state disk.old).is_honest
            → 0 < run.pages → run.pages < 2 ^ 32
            → AreRising entries
            → HasMet geo.now run earlier role first self.old space.old met (D.state disk.old).bytes
            → IsFront (met ++ settled_entries ((key.now, rec) ∷ [])) entries
            → IfErr result (λ broken. TellsStop geo.now run entries earlier (D.state disk.old).bytes broken) }
        ensures noted { (run : Component) (at : Option Key) (honest : Bool) (file : List ℕ) → role < length guides.old
            → (IsTrue honest → IsTrue (D.state disk.old).is_honest × ((D.state disk.old).bytes ≡ file)) → is_above at key.now ≡ true
            → HasNoted geo.now honest file run role self.old space.old (guide_at guides.old role) at
            → HasFence self.old.cursor (guide_at guides.old role)
            → OnOk result (HasNoted geo.now honest file run role self.new space.new (guide_at guides.new role) (Some key.now)) }
        ensures rooms { KeepsRooms role guides.old guides.new }
        ensures size { role < length guides.old
            → OnOk result (length (guide_at guides.new role).filter.bits ≡ length (guide_at guides.old role).filter.bits) }
        ensures passed { OnOk result (HasPassed self.old.cursor self.new.cursor (weight_with key.now rec)) }
        ensures claims { (all : ℕ) (first : SpaceState) → HasClaimed role all self.old.cursor.pages first space.old
            → OnOk result (HasClaimed role all self.new.cursor.pages first space.new) }
        ensures same_pages { space.new.pages ≡ space.old.pages }
        ensures left { 0 < self.new.cursor.pages }
        ensures full { (run : Component) → AreFull run self.old.cursor → OnOk result (AreFull run self.new.cursor) }
        ensures once { OnOk result ((D.state disk.new).clock + self.new.cursor.pages ≤ (D.state disk.old).clock + self.old.cursor.pages) }
        ensures calls { (D.state disk.new).clock + self.new.cursor.pages ≤ (D.state disk.old).clock + self.old.cursor.pages + 1 }
        ensures reads { Reads (file_length geo.now) 1 result (D.state disk.old) (D.state disk.new) }
    {
        let Some(value) = settle(rec) else {
            return Ok(());
        };
        let start = self.next_start();
        self.advance(disk, geo, role, space)?;
        if self.is_at(key, &Rec::Base(value)) {
            guides.note(role, key, start);
            Ok(())
        } else {
            Err(Broken::Damaged(self.page))
        }
    }

    // Whether the numbers of the run, whose last page is through, are those of the progress, and the page that comes next is free.
    fn is_whole(&self, next: &Component, progress: &Progress, z: u64, space: &Space) -> bool
        requires few { next.now.entries ≤ 2 ^ 63 }
        requires light { next.now.weight ≤ 2 ^ 63 }
        ensures { IsTrue result ↔ IsWhole next.now progress.now z space.now }
    {
        let run = &progress.output;
        next.first == progress.next
            && UNBOUNDED - next.entries == run.entries
            && UNBOUNDED - next.weight == run.weight
            && run.weight <= u64::from(MOST_USED) * u64::from(run.pages)
            && z == progress.z
            && next.first < space.pages()
            && space.is_free(next.first)
    }

    /// Whether that was all: no entry is left on the page, no page but the one behind the run, which is free, and the numbers are those of the
    /// progress, of whose inputs so much was taken. It calls no device.
    ///
    /// `Damaged` names the page that has an entry left, or the one that comes; where only the numbers are others, the last one.
    pub fn end(&self, progress: &Progress, z: u64, space: &Space) -> Result<(), Broken>
        requires few { self.now.cursor.entries ≤ 2 ^ 63 }
        requires light { self.now.cursor.weight ≤ 2 ^ 63 }
        ensures { Ends self.now progress.now z space.now result }
    {
        let Some(part) = self.cursor.from_here() else {
            return Err(Broken::Damaged(self.page));
        };
        if part.pages > 1 {
            return Err(Broken::Damaged(self.departed(part.first, space)));
        }
        if self.is_whole(&part, progress, z, space) {
            Ok(())
        } else {
            Err(Broken::Damaged(self.page))
        }
    }
}
