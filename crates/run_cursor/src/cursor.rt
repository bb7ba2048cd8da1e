//! A cursor over a component.
ghost use Rattle.std.specs.Prelude.{◌≡◌, ◌≢◌, ◌↔◌, ◌+◌, ◌-◌, ◌*◌, ◌<◌, ◌≤◌, ◌++◌, [], ℕ, Bool, true, List, Option, Ok, Err, length, IsTrue, IsErr, OnOk, Some, IfSome, IfNone, option_map};
ghost use Rattle.blsm_model.specs.declared.component.Component.{Component};
ghost use Rattle.blsm_model.specs.declared.key.Key.{Key};
ghost use Rattle.blsm_model.specs.Sizes.{Sizes};
ghost use Rattle.blsm_model.specs.Geometry.{page_count, file_length};
ghost use Rattle.record_delta.specs.declared.record.Rec.{Rec};
ghost use Rattle.record_delta.specs.Entries.{Entries};
ghost use Rattle.record_delta.specs.Records.{weight as weight_with};
ghost use Rattle.entry_codec.specs.Spelling.{BeginsWith};
ghost use Rattle.page_file.specs.Entry.{entries_bytes, AreEntries, AreRising};
ghost use Rattle.blsm_model.specs.Components.{no_page};
ghost use Rattle.blsm_model.specs.Format.{page_length, least_full};
ghost use Rattle.std.specs.List.{between};
ghost use Rattle.page_file.specs.Page.{IsPageOf, most_used};
ghost use Rattle.blsm_model.specs.Components.{empty_component};
ghost use Rattle.page_file.specs.File.{Reads};
ghost use Rattle.page_file.specs.Component.{numbers_of, HasList};
ghost use Rattle.run_cursor.specs.Cursor.{begun, started, started_front, from_head, HasAhead, HasAheadTo, HasFront, IsAdvancedTo, AreInNumber};
ghost use Rattle.run_cursor.specs.Cursor.{PageGoesOn, GoesOnAt, IsStepped, IsDamageAt, Rises, AreFull, PartGoesOn, turned};
ghost use Rattle.run_cursor.specs.Given.{HasGiven, HasGivenOf, HasGivenMoreOf};
ghost use Rattle.run_cursor.specs.Part.{BeginsNext};

use blsm_model::{Component, Geometry, Key};
use disk_trait::Disk;
use entry_codec::{decode, peek_key, read_over};
use page_file::{Broken, LEAST_FULL, PAGE_HEAD_LEN, PAGE_LEN, PageHead, number_of, read_page};
use record_delta::{Rec, Stream};
use std::marker::Model;

/// A place among the entries of a component: at one of them, its head, before the first one, or at the end. It keeps the page
/// that has the head.
#[derive(Debug, Drop)]
pub struct Cursor {
    head: Option<(Key, Rec)>,
    page: [u8; PAGE_LEN],
    // Where in the page the entries that come after the head begin, and where they end.
    at: usize,
    end: usize,
    // The page that comes behind it.
    next: u32,
    // How many pages aren't read yet, and how many entries, of which weight, come after the head, by the component's numbers.
    pages: u32,
    entries: u64,
    weight: u64,
    // Whether the last of the pages names one more.
    is_front: bool,
}

impl Model for Cursor {
    ghost use Rattle.run_cursor.specs.Cursor.{CursorState, seen, IsKept};

    ghost Value = { CursorState };

    ghost view = { λ c. seen c.head c.page c.at c.end c.next c.pages c.entries c.weight c.is_front };

    ghost invariant = { λ c. IsKept c.head c.page c.at c.end c.next c.pages c.entries c.weight c.is_front };
}

// Makes a head of the entry that begins at a place of a page, and gives its length. Where there was a head, its room is taken.
fn read_head(head: &mut Option<(Key, Rec)>, page: &[u8; PAGE_LEN], at: usize, end: usize) -> usize
    requires inside { (at ≤ end) × (end ≤ page_length) }
    requires entry { (key : Key) × (rec : Rec) × BeginsWith (between at end page.now) key rec }
    ensures { (entry : Key × Rec) × (head.new ≡ Some entry) × BeginsWith (between at end page.now) entry.0 entry.1 × (result ≡ weight_with entry.0 entry.1) }
{
    let bytes = &page[at..end];
    if let Some((key, rec)) = head {
        return read_over(bytes, key, rec);
    }
    first_head(head, bytes)
}

// The same where there was none.
fn first_head(head: &mut Option<(Key, Rec)>, bytes: &[u8]) -> usize
    requires { (key : Key) × (rec : Rec) × BeginsWith bytes.now key rec }
    ensures { (entry : Key × Rec) × (head.new ≡ Some entry) × BeginsWith bytes.now entry.0 entry.1 × (result ≡ weight_with entry.0 entry.1) }
{
    match decode(bytes) {
        Some((key, rec, length)) => {
            *head = Some((key, rec));
            length
        }
        None => unreachable!(),
    }
}

impl Cursor {
    /// A cursor before the first entry of a component. It calls no device.
    pub fn start(run: &Component) -> Cursor
        requires { run.now.pages ≡ 0 → run.now ≡ empty_component }
        ensures start { result ≡ started run.now }
        ensures list { (sizes : Sizes) (entries : Entries) (file : List ℕ) → (list : HasList sizes run.now entries file)
            → (ahead : HasAhead sizes result entries file) × (ahead.coming ≡ list.pages) }
        ensures given { (sizes : Sizes) (file : List ℕ) → HasGiven sizes run.now result [] file }
        ensures full { AreFull run.now result }
    {
        Cursor::begin(run, false)
    }

    /// A cursor before the first entry of a front: the finished pages of a run that is still written, of which the last one names a page more. It
    /// ends behind that last one, and calls no device here.
    pub fn start_front(front: &Component) -> Cursor
        requires { front.now.pages ≡ 0 → front.now ≡ empty_component }
        ensures start { result ≡ started_front front.now }
        ensures list { (sizes : Sizes) (end : ℕ) (entries : Entries) (file : List ℕ) → (list : HasFront sizes front.now end entries file)
            → (ahead : HasAheadTo (Some end) sizes result entries file) × (ahead.coming ≡ list.pages) }
        ensures given { (sizes : Sizes) (file : List ℕ) → HasGivenOf true sizes front.now result [] file }
        ensures full { AreFull front.now result }
    {
        Cursor::begin(front, true)
    }

    // A cursor before the first entry.
    fn begin(run: &Component, is_front: bool) -> Cursor
        requires { run.now.pages ≡ 0 → run.now ≡ empty_component }
        ensures { result ≡ begun is_front run.now }
    {
        Cursor {
            head: None,
            page: [0; PAGE_LEN],
            at: 0,
            end: 0,
            next: run.first,
            pages: run.pages,
            entries: run.entries,
            weight: run.weight,
            is_front,
        }
    }

    /// Goes before the first entry of a component, whatever it was over. It calls no device, and moves no page.
    pub fn restart(&mut self, run: &Component)
        requires { run.now.pages ≡ 0 → run.now ≡ empty_component }
        ensures start { self.new ≡ started run.now }
        ensures list { (sizes : Sizes) (entries : Entries) (file : List ℕ) → (list : HasList sizes run.now entries file)
            → (ahead : HasAhead sizes self.new entries file) × (ahead.coming ≡ list.pages) }
        ensures given { (sizes : Sizes) (file : List ℕ) → HasGiven sizes run.now self.new [] file }
        ensures full { AreFull run.now self.new }
    {
        self.head = None;
        self.at = 0;
        self.end = 0;
        self.next = run.first;
        self.pages = run.pages;
        self.entries = run.entries;
        self.weight = run.weight;
        self.is_front = false;
    }

    /// How many entries come after the head, by the component's number; before the first `advance` all of them.
    pub fn left(&self) -> u64
        ensures { result ≡ self.now.entries }
    {
        self.entries
    }

    /// The weight of the entries that come after the head, in bytes, by the component's number; before the first `advance` of all of
    /// them.
    pub fn weight_left(&self) -> u64
        ensures { result ≡ self.now.weight }
    {
        self.weight
    }

    /// The entry that the cursor is at, where it lies; `None` before the first `advance`, and at the end.
    pub fn peek(&self) -> Option<(&Key, &Rec)>
        ensures { option_map (λ e. (e.0.now, e.1.now)) result ≡ self.now.head }
    {
        match &self.head {
            Some((key, rec)) => Some((key, rec)),
            None => None,
        }
    }

    /// The number of the page that `advance` reads next, where it reads one then.
    pub fn next_page(&self) -> Option<u32>
        ensures due { IfSome result (λ n. (self.now.behind ≡ []) × (0 < self.now.pages) × (n ≡ self.now.next)) }
        ensures none { IfNone result (self.now.behind ≡ [] → self.now.pages ≡ 0) }
    {
        let behind = &self.page[self.at..self.end];
        if behind.is_empty() && self.pages > 0 {
            Some(self.next)
        } else {
            None
        }
    }

    /// The component from the page on that `advance` reads next, as a component of its own, where it reads one then. A cursor that is
    /// started over it, as over a front where it is one's, stands where this one stands: it has the same entries ahead, on the same pages. It calls
    /// no device.
    pub fn from_here(&self) -> Option<Component>
        ensures part { IfSome result (BeginsNext self.now) }
        ensures none { IfNone result (self.now.behind ≡ [] → self.now.pages ≡ 0) }
        // Where the cursor has entries ahead, the part reads as these.
        ensures list { (sizes : Sizes) (rest : Entries) (file : List ℕ) → page_count sizes ≤ no_page → (ahead : HasAhead sizes self.now rest file)
            → IfSome result (λ part. (list : HasList sizes part rest file) × (list.pages ≡ ahead.coming)) }
        ensures front { (sizes : Sizes) (end : ℕ) (rest : Entries) (file : List ℕ) → page_count sizes ≤ no_page
            → (ahead : HasAheadTo (Some end) sizes self.now rest file)
            → IfSome result (λ part. (list : HasFront sizes part end rest file) × (list.pages ≡ ahead.coming)) }
    {
        let first = self.next_page()?;
        Some(Component {
            first,
            pages: self.pages,
            entries: self.entries,
            weight: self.weight,
        })
    }

    // Goes on to the entry behind the head on its page.
    fn step(&mut self)
        requires { 0 < length self.old.behind }
        ensures stepped { (head : Key × Rec) × IsStepped self.old self.new head }
        ensures rises { Rises self.old.head self.new.head }
    {
        let length = read_head(&mut self.head, &self.page, self.at, self.end);
        self.at += length;
        self.entries -= 1;
        self.weight -= length as u64;
    }

    // Whether the first key of a valid page is above the head's.
    fn rises_to(&self, page: &[u8; PAGE_LEN]) -> bool
        ensures { (pages : ℕ) (next : Option ℕ) (entries : Entries) → IsPageOf pages next entries page.now
            → (IsTrue result ↔ AreRising (from_head self.now.head entries)) }
    {
        let Some((last, _)) = &self.head else {
            return true;
        };
        match peek_key(&page[PAGE_HEAD_LEN..]) {
            Some((first, _)) => last.as_bytes().cmp(&first).is_lt(),
            None => true,
        }
    }

    // Whether what is left behind a page fills all pages that are left but the last.
    fn leaves_enough(&self, used: u16) -> bool
        requires { 1 < self.now.pages }
        ensures { IsTrue result ↔ (used + least_full * (self.now.pages - 2) ≤ self.now.weight) }
    {
        u64::from(used) + u64::from(LEAST_FULL) * u64::from(self.pages - 2) <= self.weight
    }

    // Whether a page has all that is left.
    fn is_all(&self, page: &PageHead) -> bool
        ensures { IsTrue result ↔ ((page.now.count ≡ self.now.entries) × (page.now.used ≡ self.now.weight)) }
    {
        u64::from(page.count) == self.entries && u64::from(page.used) == self.weight
    }

    // Whether the numbers of a page are those of the next one.
    fn is_in_number(&self, page: PageHead) -> bool
        requires { 0 < self.now.pages }
        ensures { IsTrue result ↔ AreInNumber self.now page.next page.count page.used }
    {
        if self.pages == 1 {
            return page.next.is_some() == self.is_front && self.is_all(&page);
        }
        page.next.is_some()
            && u64::from(page.count) <= self.entries
            && self.leaves_enough(page.used)
    }

    // Whether a valid page goes on behind the head.
    fn goes_on(&self, page: &[u8; PAGE_LEN]) -> bool
        requires { 0 < self.now.pages }
        ensures { (pages : ℕ) (next : Option ℕ) (entries : Entries) → pages ≤ no_page → IsPageOf pages next entries page.now
            → (IsTrue result ↔ PageGoesOn self.now next entries) }
    {
        self.is_in_number(PageHead::read(page)) && self.rises_to(page)
    }

    // Reads the next page where the last one was, of which nothing is left, and goes to the front of its entries.
    fn turn<D: Disk>(&mut self, disk: &mut D, geo: &Geometry) -> Result<(), Broken>
        requires none_left { self.old.behind ≡ [] }
        requires more_pages { 0 < self.old.pages }
        requires length { IsTrue (D.state disk.old).tells_bytes → length (D.state disk.old).bytes ≡ file_length geo.now }
        ensures kept { IsErr result → self.new ≡ self.old }
        ensures few { page_count geo.now ≤ no_page }
        ensures turned { OnOk result ((next : Option ℕ) × (entries : Entries) × PageGoesOn self.old next entries
            × (0 < length (entries_bytes entries))
            × (self.new ≡ turned next entries self.old)
            × (IsTrue (D.state disk.old).tells_bytes → GoesOnAt geo.now self.old next entries (D.state disk.new).bytes)) }
        ensures damaged { (n : ℕ) → result ≡ Err (Broken.Damaged n) → IsTrue (D.state disk.old).tells_bytes
            → IsDamageAt geo.now self.old n (D.state disk.new).bytes }
        ensures full { OnOk result (0 < self.new.pages → least_full ≤ length self.new.behind) }
        ensures fits { OnOk result (length self.new.behind ≤ most_used) }
        ensures reads { Reads (file_length geo.now) 1 result (D.state disk.old) (D.state disk.new) }
    {
        let n = self.next;
        if u64::from(n) >= geo.pages() {
            return Err(Broken::Damaged(n));
        }
        read_page(disk, geo, n, &mut self.page)?;
        if !self.goes_on(&self.page) {
            return Err(Broken::Damaged(n));
        }
        let head = PageHead::read(&self.page);
        self.at = PAGE_HEAD_LEN;
        self.end = PAGE_HEAD_LEN + head.used as usize;
        self.next = number_of(head.next);
        self.pages -= 1;
        Ok(())
    }

    /// Goes on to the next entry, or to the end where there is none, and stays there. Where the entries of a page are through, it
    /// reads the next one, with one call of the disk; it takes no memory. After an `Err` the cursor is where it was.
    ///
    /// `Damaged` names the page that was to be read next: it is answered exactly where that isn't a valid page of the store, has a next
    /// page though it is the last one by the component's number or none though it isn't (of a front each page has one), has a first key that isn't above the
    /// head's, or has more entries or weight than are left by the component's numbers, or, as the last page, fewer, or leaves too
    /// little weight to fill the pages behind it but the last. A page that is met again is such a one, since its keys don't rise.
    /// `Fault` comes only where the disk's count of faults rose.
    ///
    /// A clause says what it tells of a list, one what of any pages, and the others are numbers by which callers count: entries, weight, pages and calls.
    pub fn advance<D: Disk>(&mut self, disk: &mut D, geo: &Geometry) -> Result<(), Broken>
        requires { IsTrue (D.state disk.old).tells_bytes → length (D.state disk.old).bytes ≡ file_length geo.now }

        // Where these entries come after the head, the cursor goes on to the first of them, and has the others ahead, on pages among those
        // that it had ahead.
        ensures list { (end : Option ℕ) (rest : Entries) → IsTrue (D.state disk.old).tells_bytes
            → (before : HasAheadTo end geo.now self.old rest (D.state disk.new).bytes)
            → result ≢ Err Broken.Fault → (result ≡ Ok tt) × IsAdvancedTo end geo.now self.new (numbers_of before.coming) rest (D.state disk.new).bytes }

        // Where the component, or the front, begins with the entries that were given so far, it begins with one more; at the end it reads as them.
        ensures given { (is_front : Bool) (run : Component) (given : Entries) → IsTrue (D.state disk.old).tells_bytes
            → HasGivenOf is_front geo.now run self.old given (D.state disk.new).bytes
            → OnOk result (HasGivenMoreOf is_front geo.now run self.new self.new.head given (D.state disk.new).bytes) }

        // What is damaged, the page's bytes show.
        ensures damaged { (n : ℕ) → result ≡ Err (Broken.Damaged n) → IsTrue (D.state disk.old).tells_bytes
            → IsDamageAt geo.now self.old n (D.state disk.new).bytes }
        ensures kept { IsErr result → self.new ≡ self.old }

        // On any disk the keys rise, and what is left falls by each entry; at the end nothing was left.
        ensures rises { OnOk result (Rises self.old.head self.new.head) }
        ensures falls { OnOk result (IfSome self.new.head (λ e. (self.old.entries ≡ self.new.entries + 1) × (self.old.weight ≡ weight_with e.0 e.1 + self.new.weight))) }
        ensures ended { OnOk result (IfNone self.new.head ((self.old.weight ≡ 0) × (self.new.entries ≡ 0) × (self.new.weight ≡ 0) × (self.new.pages ≡ 0))) }

        ensures full { (run : Component) → AreFull run self.old → OnOk result (AreFull run self.new) }

        ensures part { OnOk result (PartGoesOn self.old self.new) }

        // A page less is left where one was due, and as many as before where none was.
        ensures turns { OnOk result (self.old.behind ≡ [] → 0 < self.old.pages → self.old.pages ≡ self.new.pages + 1) }
        ensures stays { OnOk result (self.old.behind ≢ [] → self.new.pages ≡ self.old.pages) }

        // One call of the disk at most, which reads, and one for each page: none after the last one.
        ensures reads { Reads (file_length geo.now) 1 result (D.state disk.old) (D.state disk.new) }
        ensures no_call { self.old.pages ≡ 0 → (D.state disk.new).clock ≡ (D.state disk.old).clock }
        ensures one_a_page { OnOk result ((D.state disk.new).clock + self.new.pages ≤ (D.state disk.old).clock + self.old.pages) }
    {
        if self.at < self.end {
            self.step();
            return Ok(());
        }
        if self.pages == 0 {
            // A store has fewer pages than there are numbers, so its last page's next one is told apart from each page.
            let _pages = geo.pages();
            self.head = None;
            return Ok(());
        }
        self.turn(disk, geo)?;
        self.step();
        Ok(())
    }
}

impl Stream for Cursor {
    ghost at = { λ cursor. cursor.head };

    /// The entry that the cursor is at; `None` before the first `advance`, and at the end.
    fn head(&self) -> Option<(Key, Rec)> {
        match &self.head {
            Some((key, rec)) => Some((key.copy(), rec.copy())),
            None => None,
        }
    }
}
