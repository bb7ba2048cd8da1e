//! The writer of a run.
ghost use Rattle.std.specs.Prelude.{◌≡◌, ◌+◌, ◌-◌, ◌^◌, ◌<◌, ◌≤◌, ◌∷◌, ◌++◌, nat_eq, if◌then◌else◌, ℕ, Bool, List, [], length, false, Some, None, Ok, IsTrue, IfOk, OnOk, OnErr};
ghost use Rattle.std.specs.List.{Contains};
ghost use Rattle.blsm_model.specs.Format.{least_full};
ghost use Rattle.blsm_model.specs.Sizes.{Sizes};
ghost use Rattle.blsm_model.specs.Geometry.{page_count, file_length};
ghost use Rattle.bloom_bits.specs.BitSet.{BitState};
ghost use Rattle.bloom_bits.specs.Fences.{FencesState, IsAboveAll};
ghost use Rattle.bloom_bits.specs.Guides.{Guide, KeepReserves};
ghost use Rattle.record_delta.specs.Entries.{Entries};
ghost use Rattle.record_delta.specs.Records.{weight};
ghost use Rattle.entry_codec.specs.Spelling.{IsEntry};
ghost use Rattle.page_space.specs.Space.{SpaceState, HasFree, HasRole, IsLeastFree, Claims};
ghost use Rattle.page_file.specs.Entry.{AreRising};
ghost use Rattle.page_file.specs.File.{page_at, Writes};
ghost use Rattle.page_file.specs.Component.{RunPage, numbers_of, entries_of, HasList};
ghost use Rattle.run_writer.specs.Buffer.{sealed};
ghost use Rattle.run_writer.specs.Writer.{started, resumed, closed_of, begins_page, has_place, next_fence, fenced, open_region, HasEntries, IsInside, IsCounted, IsResumed, put_in, turned, HasPushed};

use crate::buffer::PageBuffer;
use bloom_bits::{Fence, Fences, Filter};
use blsm_model::{Component, Geometry, Key, Op};
use disk_trait::Disk;
use page_file::{MOST_USED, no_component};
use page_space::{Role, Space};
use record_delta::{Rec, weight};
use refusal::Failed;
use std::marker::Model;

/// A run that is being written. Between two calls its closed pages are written, each with the number of the next one, and the
/// entries of the open page, whose number is taken, are in the writer's buffer.
///
/// Contracts see the component that the run is so far, the number of the open page, and the buffer. Which entries these are the
/// clauses say for the list that was pushed so far (`HasPushed`), since the closed pages are on the disk alone.
#[derive(Debug, Drop)]
pub struct Writer {
    role: Role,
    component: Component,
    number: u32,
    buffer: PageBuffer,
}

impl Model for Writer {
    ghost use Rattle.run_writer.specs.Writer.{WriterState, IsCounted};

    ghost Value = { WriterState };

    ghost view = { λ w. record { role = w.role; component = w.component; number = w.number; buffer = w.buffer } };

    ghost invariant = { λ w. IsCounted (record { role = w.role; component = w.component; number = w.number; buffer = w.buffer }) };
}

// The first page of a run that goes on with this page.
fn first_page(component: &Component, page: u32) -> u32
    ensures { result ≡ (if nat_eq component.now.pages 0 then page else component.now.first) }
{
    if component.pages == 0 {
        page
    } else {
        component.first
    }
}

impl Writer {
    /// The writer of the empty run. The pages that it takes get this tag.
    pub fn start(role: Role) -> Writer
        ensures started { result ≡ started role }
        ensures pushed { (sizes : Sizes) (honest : Bool) (file : List ℕ) (space : SpaceState) (filter : BitState) (fences : FencesState) → Guide filter fences [] → HasPushed sizes honest file space result filter fences [] }
    {
        let component = no_component();
        // A role is one of five.
        let _number = role.number();
        Writer {
            role,
            component,
            number: component.first,
            buffer: PageBuffer::new(),
        }
    }

    /// The writer of a run whose closed pages are these, as a component, and which goes on with this page: the last of them names it, and it has
    /// the role's tag already. No entry is on it yet; the next one that is pushed begins it.
    pub fn resume(role: Role, closed: &Component, page: u32) -> Writer
        requires counted { IsCounted (resumed role closed.now page) }
        requires few { closed.now.pages + 1 < 2 ^ 32 }
        ensures resumed { result ≡ resumed role closed.now page }
        ensures pushed { (sizes : Sizes) (honest : Bool) (file : List ℕ) (space : SpaceState) (filter : BitState) (fences : FencesState) (pages : List RunPage)
            → IsResumed sizes honest file space role closed.now page pages → Guide filter fences pages → length fences.list ≡ closed.now.pages
            → HasPushed sizes honest file space result filter fences (entries_of pages) }
    {
        Writer {
            role,
            component: Component {
                pages: closed.pages + 1,
                ..*closed
            },
            number: page,
            buffer: PageBuffer::new(),
        }
    }

    /// The component that the run is so far: what `end` would give.
    pub fn component(&self) -> Component
        ensures component { result ≡ self.now.component }
        ensures counted { IsCounted self.now }
    {
        self.component
    }

    /// The closed pages as a run of their own, which goes on with the page of `next`.
    pub fn closed(&self) -> Component
        ensures { result ≡ closed_of self.now }
    {
        let run = self.component;
        Component {
            first: if run.pages > 1 {
                run.first
            } else {
                self.number
            },
            pages: run.pages.saturating_sub(1),
            entries: run.entries - u64::from(self.buffer.count()),
            weight: run.weight - u64::from(self.buffer.used()),
        }
    }

    /// The number of the open page, which the last closed page names; no page's, where the run has none.
    pub fn next(&self) -> u32
        ensures { result ≡ self.now.number }
    {
        self.number
    }

    // Whether there is an open page, and this entry fits into it.
    fn has_place(&self, key: &Key, rec: &Rec) -> bool
        ensures place { result ≡ has_place self.now (weight key.now rec.now) }
        ensures light { weight key.now rec.now ≤ Op.MAX_WEIGHT }
    {
        let used = u64::from(self.buffer.used()) + weight(key, rec);
        0 < self.component.pages && used <= u64::from(MOST_USED)
    }

    // Writes the open page, if there is one, with the number of the next one.
    fn write_open<D: Disk>(
        &mut self,
        disk: &mut D,
        geo: &Geometry,
        next: Option<u32>,
    ) -> Result<(), Failed>
        requires inside { IsInside (page_count geo.now) self.old }
        requires length { IsTrue (D.state disk.old).tells_bytes → length (D.state disk.old).bytes ≡ file_length geo.now }
        ensures reads { OnOk result (IsTrue (D.state disk.old).is_honest → 0 < self.old.component.pages
            → page_at geo.now self.old.number (D.state disk.new).bytes ≡ sealed next self.old.buffer) }
        ensures same { self.new ≡ self.old }
        ensures none { self.old.component.pages ≡ 0 → disk.new ≡ disk.old }
        ensures writes { Writes (open_region geo.now self.old) (file_length geo.now) result (D.state disk.old) (D.state disk.new) }
    {
        if self.component.pages == 0 {
            return Ok(());
        }
        self.buffer.write(disk, geo, self.number, next)
    }

    // Opens this page, without entries.
    fn open(&mut self, page: u32)
        requires few { self.old.component.pages < 2 ^ 32 - 1 }
        requires full { 0 < self.old.component.pages → least_full ≤ length self.old.buffer.text }
        ensures { self.new ≡ turned page self.old }
    {
        self.component.first = first_page(&self.component, page);
        self.component.pages += 1;
        self.number = page;
        self.buffer.clear();
    }

    // Takes the next page, writes the open one, if there is one, with its number, and opens it.
    fn turn<D: Disk>(
        &mut self,
        disk: &mut D,
        geo: &Geometry,
        space: &mut Space,
    ) -> Result<(), Failed>
        requires pages { space.old.pages ≡ page_count geo.now }
        requires free { HasFree space.old }
        requires room { self.old.component.pages < page_count geo.now }
        requires full { 0 < self.old.component.pages → least_full ≤ length self.old.buffer.text }
        requires inside { IsInside (page_count geo.now) self.old }
        requires length { IsTrue (D.state disk.old).tells_bytes → length (D.state disk.old).bytes ≡ file_length geo.now }
        ensures turned { (page : ℕ) × IsLeastFree space.old page × Claims self.old.role page space.old space.new
            × OnOk result ((self.new ≡ turned page self.old)
            × (IsTrue (D.state disk.old).is_honest → 0 < self.old.component.pages → page_at geo.now self.old.number (D.state disk.new).bytes ≡ sealed (Some page) self.old.buffer)) }
        ensures kept { OnErr result (self.new ≡ self.old) }
        ensures none { self.old.component.pages ≡ 0 → disk.new ≡ disk.old }
        ensures writes { Writes (open_region geo.now self.old) (file_length geo.now) result (D.state disk.old) (D.state disk.new) }
    {
        let next = space.take();
        space.claim(self.role, next);
        // There are fewer than 2^32 pages, so the run's count of them can rise.
        let _pages = space.pages();
        self.write_open(disk, geo, Some(next))?;
        self.open(next);
        Ok(())
    }

    // The fence of the open page, which this key is to begin: all entries so far stand before it.
    fn fence(&self, first: &Key) -> Fence
        ensures { result ≡ next_fence first.now self.now }
    {
        Fence {
            first: first.copy(),
            page: self.number,
            entries: self.component.entries,
            weight: self.component.weight,
        }
    }

    // Pushes the fence of the open page, where that has no entry and this key begins it: it was taken before the run was taken up.
    fn mark(&self, fences: &mut Fences, first: &Key)
        requires { length self.now.buffer.text ≡ 0 → (length fences.old.list < fences.old.reserved) × IsAboveAll first.now fences.old.list }
        ensures { fences.new ≡ fenced first.now self.now fences.old }
    {
        if self.buffer.used() == 0 {
            fences.push(self.fence(first));
        }
    }

    // Puts one entry into the open page.
    fn put(&mut self, key: &Key, rec: &Rec)
        requires { IsTrue (has_place self.old (weight key.now rec.now)) }
        ensures put { self.new ≡ put_in key.now rec.now self.old }
        ensures entry { IsEntry key.now rec.now }
        ensures counted { IsCounted self.new }
    {
        self.buffer.put(key, rec);
        self.component.entries += 1;
        self.component.weight += weight(key, rec);
    }

    /// Pushes one entry more: its key goes into the filter, and, where it is a page's first one, into the fences. Where it doesn't fit into the 4,088 bytes of the open page, or there is none, the least free page is
    /// taken and gets the role's tag, the open page is written with its number, and that page is the open one.
    ///
    /// A page must be free then. Where the entry is its page's first one there must be room for the fence. While the run's pages keep their tag the run
    /// doesn't have all pages (`a_run_has_room`), and has a fence for each of them that has an entry (`a_run_has_fences`).
    ///
    /// After an `Err`, whose cause is a fault of the disk, the writer, the filter and the fences are as they were; the page that was taken keeps its tag, and
    /// nobody knows what the open page's place on the disk has. A clause for each thing that it is lent, with and without an `Err`.
    pub fn push<D: Disk>(
        &mut self,
        disk: &mut D,
        geo: &Geometry,
        space: &mut Space,
        filter: &mut Filter,
        fences: &mut Fences,
        key: &Key,
        rec: &Rec,
    ) -> Result<(), Failed>
        requires pages { space.old.pages ≡ page_count geo.now }
        requires free { has_place self.old (weight key.now rec.now) ≡ false → HasFree space.old }
        requires room { has_place self.old (weight key.now rec.now) ≡ false → self.old.component.pages < page_count geo.now }
        requires fence { IsTrue (begins_page self.old (weight key.now rec.now)) → (length fences.old.list < fences.old.reserved) × IsAboveAll key.now fences.old.list }
        requires inside { IsInside (page_count geo.now) self.old }
        requires length { IsTrue (D.state disk.old).tells_bytes → length (D.state disk.old).bytes ≡ file_length geo.now }

        // The list that was pushed so far has one entry more. After an `Err` it is the list as before.
        ensures pushed { (entries : Entries) → AreRising ((entries ++ (key.now, rec.now) ∷ []))
            → HasPushed geo.now (D.state disk.old).is_honest (D.state disk.old).bytes space.old self.old filter.old fences.old entries
            → OnOk result (HasPushed geo.now (D.state disk.new).is_honest (D.state disk.new).bytes space.new self.new filter.new fences.new (entries ++ (key.now, rec.now) ∷ [])) }
        ensures unpushed { (entries : Entries) → HasPushed geo.now (D.state disk.old).is_honest (D.state disk.old).bytes space.old self.old filter.old fences.old entries
            → OnErr result (HasPushed geo.now (D.state disk.new).is_honest (D.state disk.new).bytes space.new self.new filter.new fences.new entries) }

        // An entry that fits goes into the open page, with no call of the disk. For one that doesn't the least free page is claimed.
        ensures here { IsTrue (has_place self.old (weight key.now rec.now))
            → (disk.new ≡ disk.old) × (space.new ≡ space.old) × (result ≡ Ok tt) × (self.new ≡ put_in key.now rec.now self.old) }
        ensures claimed { has_place self.old (weight key.now rec.now) ≡ false
            → (page : ℕ) × IsLeastFree space.old page × Claims self.old.role page space.old space.new
            × OnOk result (self.new ≡ put_in key.now rec.now (turned page self.old)) }
        ensures inside { IsInside (page_count geo.now) self.new }
        ensures kept { OnErr result (self.new ≡ self.old) }
        ensures reserves { KeepReserves filter.old filter.new fences.old fences.new }

        // One call of the disk at most, and none where no page was open. No byte outside that page changes, in no image of any moment.
        ensures none { self.old.component.pages ≡ 0 → disk.new ≡ disk.old }
        ensures writes { Writes (open_region geo.now self.old) (file_length geo.now) result (D.state disk.old) (D.state disk.new) }
    {
        if self.has_place(key, rec) {
            self.mark(fences, key);
            self.put(key, rec);
            filter.add(key);
            return Ok(());
        }
        self.turn(disk, geo, space)?;
        fences.push(self.fence(key));
        self.put(key, rec);
        filter.add(key);
        Ok(())
    }

    /// Writes the open page, if there is one, as the last one, and gives the component that reads as the entries that were pushed, on
    /// pages that have the role's tag. It must have an entry: a run that was taken up has none until one is pushed.
    ///
    /// The writer stays as it was. After an `Err`, whose cause is a fault of the disk, nobody knows what the open page's place on
    /// the disk has.
    pub fn end<D: Disk>(&mut self, disk: &mut D, geo: &Geometry) -> Result<Component, Failed>
        requires inside { IsInside (page_count geo.now) self.old }
        requires length { IsTrue (D.state disk.old).tells_bytes → length (D.state disk.old).bytes ≡ file_length geo.now }

        ensures component { IfOk result (λ c. c ≡ self.old.component) }
        ensures list { (space : SpaceState) (filter : BitState) (fences : FencesState) (entries : Entries) → IsTrue (D.state disk.old).is_honest
            → HasEntries self.old → HasPushed geo.now (D.state disk.old).is_honest (D.state disk.old).bytes space self.old filter fences entries
            → IfOk result (λ c. (list : HasList geo.now c entries (D.state disk.new).bytes)
            × ((n : ℕ) → Contains (numbers_of list.pages) n → HasRole space self.old.role n) × Guide filter fences list.pages) }
        ensures same { self.new ≡ self.old }

        // One call of the disk at most, and none where no page was open. No byte outside that page changes, in no image of any moment.
        ensures none { self.old.component.pages ≡ 0 → disk.new ≡ disk.old }
        ensures writes { Writes (open_region geo.now self.old) (file_length geo.now) result (D.state disk.old) (D.state disk.new) }
    {
        self.write_open(disk, geo, None)?;
        Ok(self.component)
    }
}
