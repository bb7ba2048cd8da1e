//! A merge of two inputs, a quantum at a time.
ghost use Rattle.std.specs.Prelude.{◌≡◌, ◌≢◌, ◌↔◌, ◌⊎◌, ◌+◌, ◌*◌, ◌/◌, ◌≤◌, ◌<◌, ◌^◌, [], ◌∷◌, ℕ, Bool, true, List, Option, None, Some, Ok, Err, length, if◌then◌else◌, IsTrue, IsErr, IfOk, IfSome, OnOk};
ghost use Rattle.std.specs.List.{Contains, AllByRecursion};
ghost use Rattle.blsm_model.specs.Components.{empty_component};
ghost use Rattle.blsm_model.specs.Format.{least_full};
ghost use Rattle.blsm_model.specs.Sizes.{Sizes};
ghost use Rattle.blsm_model.specs.Geometry.{page_count, file_length};
ghost use Rattle.bloom_bits.specs.BitSet.{BitState, cleared};
ghost use Rattle.bloom_bits.specs.Fences.{FencesState};
ghost use Rattle.bloom_bits.specs.Filter.{rounded};
ghost use Rattle.bloom_bits.specs.Guides.{Guide, KeepSized};
ghost use Rattle.record_delta.specs.Entries.{Entries, AreSorted, folded_over};
ghost use Rattle.page_space.specs.Space.{SpaceState, HasRole, IsFree};
ghost use Rattle.page_file.specs.Component.{RunPage, entries_of, numbers_of, HasList};
ghost use Rattle.page_file.specs.File.{Writes};
ghost use Rattle.run_cursor.specs.Cursor.{CursorState};
ghost use Rattle.run_writer.specs.Writer.{IsCounted, IsInside, open_region, resumed as writer_resumed, HasPushed};
ghost use Rattle.merge_ends.specs.Input.{left_in, IsInput};
ghost use Rattle.merge_ends.specs.Newer.{component_left, newer_calls, IsNewer};
ghost use Rattle.merge_ends.specs.Output.{HasRun, IsUpTo, kept};
ghost use Rattle.merge_ends.specs.Quantum.{IsNext, NoneAbove, IsQuantum};
ghost use Rattle.merge_ends.specs.Progress.{MayGoOn, MergesOn, TakesGroup, TakesQuantum, left_to_take, stage};
ghost use Rattle.merge_ends.specs.Merge.{finished_of, resumed, HasFinished, IsFront};
ghost use Rattle.merge_ends.specs.Merge.{started, progress, group_calls, quantum_calls, Covers, IsMerging};

use crate::finished::Finished;
use crate::input::{is_through, left_above, walk_above};
use crate::newer::Newer;
use crate::output::put;
use bloom_bits::{Fences, Filter};
use blsm_model::{Component, Geometry, Key};
use disk_trait::Disk;
use merge_step::lying;
use page_file::{Broken, no_component};
use page_space::{Role, Space};
use record_delta::Rec;
use refusal::Failed;
use run_cursor::{Cursor, Walk};
use run_writer::Writer;
use std::marker::Model;

/// A merge of a newer input, which is lent at each call, into a component. Contracts see the run that it writes, its cursor over the component, the
/// greatest key that it took, the one up to which all is on closed pages of the run, and where the component goes on behind these.
#[derive(Debug, Drop)]
pub struct Merge {
    writer: Writer,
    older: Walk,
    at: Option<Key>,
    closed: Option<Key>,
    left: u64,
    behind: Component,
    // Where a group goes that isn't an entry of the older input as it lies, and the base of a delta. They last, so that no step makes them anew.
    room: Option<(Key, Rec)>,
    base: Option<Rec>,
}

impl Model for Merge {
    ghost use Rattle.merge_ends.specs.Merge.{MergeState};

    ghost Value = { MergeState };

    ghost view = { λ m. record { writer = m.writer; older = m.older.cursor; at = m.at; closed = m.closed; left = m.left; rest = record { here = m.older.here; behind = m.behind } } };
}

fn copy_of(key: &Option<Key>) -> Option<Key>
    ensures { result ≡ key.now }
{
    match key {
        Some(key) => Some(key.copy()),
        None => None,
    }
}

// Tells up to which key all is on closed pages, once a group was pushed behind this key: up to it where a page was taken for the group, and up to the
// key of before where none was.
fn tell_closed(closed: &mut Option<Key>, turned: bool, at: &Option<Key>)
    ensures { closed.new ≡ (if turned then at.now else closed.old) }
{
    if turned {
        *closed = copy_of(at);
    }
}

// How much was left of the components above the key that is told of the closed pages.
fn left_behind<N: Newer>(
    turned: bool,
    newer: &N,
    older: &Cursor,
    at: &Option<Key>,
    left: u64,
) -> u64
    requires { component_left at.now (N.run newer.now) + left_in at.now older.now < 2 ^ 64 }
    ensures { result ≡ (if turned then component_left at.now (N.run newer.now) + left_in at.now older.now else left) }
{
    if turned {
        newer.left_above(at) + left_above(older, at)
    } else {
        left
    }
}

// In which part the older input goes on behind the key that is told of the closed pages.
fn part_behind(turned: bool, here: Component, behind: Component) -> Component
    ensures { result ≡ (if turned then here else behind) }
{
    if turned { here } else { behind }
}

impl Merge {
    /// A merge that has taken nothing. Its run's filter gets so many bits, and filter and fences are empty. It calls no device.
    pub fn begin(
        older: &Component,
        role: Role,
        bits: u64,
        filter: &mut Filter,
        fences: &mut Fences,
    ) -> Merge
        requires empty { older.now.pages ≡ 0 → older.now ≡ empty_component }
        requires bits { rounded bits ≤ filter.old.reserved }
        ensures started { result ≡ started role older.now }
        ensures run { (sizes : Sizes) (honest : Bool) (file : List ℕ) (space : SpaceState) → HasPushed sizes honest file space result.writer filter.new fences.new [] }
        // No page of it has the run's tag, and none is free.
        ensures merging { (settles : Bool) (sizes : Sizes) (file : List ℕ) (space : SpaceState) (input : Option CursorState) (table : Entries) (pages : List ℕ) (newer entries : Entries)
            → IsNewer sizes file space role None input table pages newer → (list : HasList sizes older.now entries file)
            → ((n : ℕ) → Contains (numbers_of list.pages) n → (HasRole space role n → ⊥) × (IsFree space n → ⊥))
            → IsMerging settles sizes file space result input table filter.new fences.new pages (numbers_of list.pages) newer entries }
        ensures reserves { KeepSized (rounded bits) filter.old filter.new fences.old fences.new }
        ensures filter { filter.new ≡ cleared filter.old.reserved (rounded bits) }
        ensures fences { fences.new ≡ record { reserved = fences.old.reserved; list = [] } }
    {
        filter.reset(bits);
        fences.clear();
        Merge {
            writer: Writer::start(role),
            older: Walk::start(older),
            at: None,
            closed: None,
            left: 0,
            behind: *older,
            room: None,
            base: None,
        }
    }

    /// The merge that is taken up behind what was finished of it: its cursor over the older input stands above the key, and its run goes on behind
    /// the finished pages with the next one, which has the role's tag already. Filter and fences are those of the finished pages. It calls no device.
    pub fn resume(older: Cursor, role: Role, done: &Finished) -> Merge
        requires counted { IsCounted (writer_resumed role done.now.output done.now.next) }
        requires few { done.now.output.pages + 1 < 2 ^ 32 }
        ensures resumed { result ≡ resumed role done.now older }
        ensures run { (sizes : Sizes) (honest : Bool) (file : List ℕ) (space : SpaceState) (filter : BitState) (fences : FencesState)
            (pages : List RunPage) → HasFinished sizes honest file space role filter fences done.now pages
            → HasRun sizes honest file space result.writer filter fences result.at }
        // What comes of both lists up to the key is on the pages, and less than comes of them in all: the next page gets an entry.
        ensures merging { (settles : Bool) (sizes : Sizes) (file : List ℕ) (space : SpaceState) (input : Option CursorState) (table : Entries)
            (filter : BitState) (fences : FencesState) (over_pages under_pages : List ℕ) (over under : Entries) (pages : List RunPage)
            → IsNewer sizes file space role (Some done.now.key) input table over_pages over
            → IsInput sizes file space role (Some done.now.key) older under_pages under
            → HasFinished sizes true file space role filter fences done.now pages
            → IsFront settles (Some done.now.key) input over under (entries_of pages) done.now.left
            → IsMerging settles sizes file space result input table filter fences over_pages under_pages over under }
    {
        Merge {
            writer: Writer::resume(role, &done.output, done.next),
            older: Walk {
                cursor: older,
                here: no_component(),
            },
            at: Some(done.key.copy()),
            closed: Some(done.key.copy()),
            left: done.left,
            behind: no_component(),
            room: None,
            base: None,
        }
    }

    /// The greatest key that was taken; `None` where none was.
    pub fn cursor(&self) -> Option<Key>
        ensures { result ≡ self.now.at }
    {
        copy_of(&self.at)
    }

    /// The greatest key up to which all that was taken is on closed pages of the run, which stay as they are; `None` where none is closed.
    pub fn closed(&self) -> Option<Key>
        ensures { result ≡ self.now.closed }
    {
        copy_of(&self.closed)
    }

    /// How much of the components was left above that key when it was told, in bytes; of a table nothing is counted. 0 where no page is closed.
    pub fn left(&self) -> u64
        ensures { result ≡ self.now.left }
    {
        self.left
    }

    /// The part of the older input from the page on that had the head of its cursor when that key was told: what it has above the key is there. Where
    /// no page is closed it is all of the input; of a merge that was taken up nothing is told before the next page is closed.
    pub fn behind(&self) -> Component
        ensures { result ≡ self.now.rest.behind }
    {
        self.behind
    }

    /// What is on closed pages of the run; `None` where no page is closed. On any disk each of these pages is nearly full.
    pub fn finished(&self) -> Option<Finished>
        ensures finished { result ≡ finished_of self.now }
        ensures full { IfSome result (λ done. least_full * done.output.pages ≤ done.output.weight) }
    {
        if self.writer.component().pages <= 1 {
            return None;
        }
        let key = self.closed()?;
        Some(Finished {
            output: self.writer.closed(),
            next: self.writer.next(),
            key,
            left: self.left,
        })
    }

    /// Whether a component is wholly taken, of which this is the cursor.
    pub fn has_taken(&self, newer: &Cursor) -> bool
        ensures { IsTrue result ↔ (left_in self.now.at newer.now ≡ 0) }
    {
        is_through(newer, &self.at)
    }

    /// Whether the older input is wholly taken.
    pub fn has_taken_older(&self) -> bool
        ensures { IsTrue result ↔ (left_in self.now.at self.now.older ≡ 0) }
    {
        is_through(&self.older.cursor, &self.at)
    }

    // Takes the next key group, and gives the weight of its records; 0 where nothing is left.
    fn step<D: Disk, N: Newer>(
        &mut self,
        disk: &mut D,
        geo: &Geometry,
        newer: &mut N,
        settles: bool,
        space: &mut Space,
        filter: &mut Filter,
        fences: &mut Fences,
    ) -> Result<u64, Broken>
        requires pages { space.old.pages ≡ page_count geo.now }
        requires length { IsTrue (D.state disk.old).tells_bytes → length (D.state disk.old).bytes ≡ file_length geo.now }
        requires runs { MayGoOn geo.now (stage (progress self.old (N.run newer.old) (N.table newer.old)) space.old filter.old fences.old (D.state disk.old)) }
        ensures lists { (over_pages under_pages : List ℕ) (over under : Entries) → IsTrue (D.state disk.old).is_honest
            → IsMerging settles geo.now (D.state disk.old).bytes space.old self.old (N.run newer.old) (N.table newer.old) filter.old fences.old over_pages under_pages over under
            → result ≢ Err Broken.Fault
            → (n : ℕ) × (result ≡ Ok n) × IsMerging settles geo.now (D.state disk.new).bytes space.new self.new (N.run newer.new) (N.table newer.new) filter.new fences.new over_pages under_pages over under
            × AreSorted over × (IsNext self.old.at self.new.at over under n ⊎ (NoneAbove self.old.at over under × (self.new.at ≡ self.old.at) × (n ≡ 0))) }
        ensures numbers { MergesOn geo.now (group_calls (N.run newer.old)) TakesGroup (stage (progress self.old (N.run newer.old) (N.table newer.old)) space.old filter.old fences.old (D.state disk.old)) (stage (progress self.new (N.run newer.new) (N.table newer.new)) space.new filter.new fences.new (D.state disk.new)) result }
        ensures covers { (total : ℕ) → Covers settles total self.old (N.run newer.old) (N.table newer.old)
            → OnOk result (Covers settles total self.new (N.run newer.new) (N.table newer.new) × IsUpTo self.old.closed self.new.closed) }
        ensures same_table { N.table newer.new ≡ N.table newer.old }
        ensures same_kind { newer_calls (N.run newer.new) ≡ newer_calls (N.run newer.old) }
    {
        newer.go_above(disk, geo, &self.at)?;
        walk_above(&mut self.older, disk, geo, &self.at)?;
        let taken = newer.group_with(&self.at, &self.older.cursor, &mut self.room);
        let Some((key, rec, weight)) = lying(taken, self.older.cursor.peek(), &self.room) else {
            return Ok(0);
        };
        let _pages = geo.pages();
        let pages = self.writer.component().pages;
        put(
            &mut self.writer,
            disk,
            geo,
            space,
            filter,
            fences,
            settles,
            key,
            rec,
            &mut self.base,
        )?;
        let turned = self.writer.component().pages > pages;
        self.left = left_behind(turned, newer, &self.older.cursor, &self.at, self.left);
        self.behind = part_behind(turned, self.older.here, self.behind);
        tell_closed(&mut self.closed, turned, &self.at);
        self.at = Some(key.copy());
        Ok(weight)
    }

    /// Takes whole key groups, the least key first, until they weigh a quantum or nothing is left. Gives the weight that it took. Each group is
    /// written as it was folded, or, where the merge settles, what is left of it where nothing is older.
    ///
    /// `Damaged` names a page of an input that isn't valid or doesn't go on; it never comes where the merge stands over lists. `Fault` comes
    /// just where the disk's count of faults rose. After an `Err` the quantum isn't counted: the cursor is told as before, and the merge is not to be
    /// gone on with.
    ///
    /// One clause is on the lists of an honest disk; the others hold on every disk.
    pub fn quantum<D: Disk, N: Newer>(
        &mut self,
        disk: &mut D,
        geo: &Geometry,
        newer: &mut N,
        settles: bool,
        space: &mut Space,
        filter: &mut Filter,
        fences: &mut Fences,
    ) -> Result<u64, Broken>
        requires pages { space.old.pages ≡ page_count geo.now }
        requires length { IsTrue (D.state disk.old).tells_bytes → length (D.state disk.old).bytes ≡ file_length geo.now }
        requires runs { MayGoOn geo.now (stage (progress self.old (N.run newer.old) (N.table newer.old)) space.old filter.old fences.old (D.state disk.old)) }

        // On an honest disk the merge stands as before, further on by one quantum.
        ensures lists { (over_pages under_pages : List ℕ) (over under : Entries) → IsTrue (D.state disk.old).is_honest
            → IsMerging settles geo.now (D.state disk.old).bytes space.old self.old (N.run newer.old) (N.table newer.old) filter.old fences.old over_pages under_pages over under
            → result ≢ Err Broken.Fault
            → (n : ℕ) × (result ≡ Ok n) × IsMerging settles geo.now (D.state disk.new).bytes space.new self.new (N.run newer.new) (N.table newer.new) filter.new fences.new over_pages under_pages over under
            × IsQuantum geo.now.quantum self.old.at self.new.at over under n }

        // On any disk what was taken and what is left add up, and it is a quantum or all that was left, and less than one group more.
        ensures numbers { MergesOn geo.now (quantum_calls (N.run newer.old) geo.now.quantum) (TakesQuantum geo.now.quantum) (stage (progress self.old (N.run newer.old) (N.table newer.old)) space.old filter.old fences.old (D.state disk.old)) (stage (progress self.new (N.run newer.new) (N.table newer.new)) space.new filter.new fences.new (D.state disk.new)) result }
        // What isn't on closed pages yet stays light, and the key up to which all is on them never falls.
        ensures covers { (total : ℕ) → Covers settles total self.old (N.run newer.old) (N.table newer.old)
            → OnOk result (Covers settles total self.new (N.run newer.new) (N.table newer.new) × IsUpTo self.old.closed self.new.closed) }
        ensures kept { IsErr result → (self.new.at ≡ self.old.at) × (self.new.closed ≡ self.old.closed) × (self.new.left ≡ self.old.left)
            × (self.new.rest.behind ≡ self.old.rest.behind) }
        ensures same_table { N.table newer.new ≡ N.table newer.old }
    {
        let at = self.cursor();
        let closed = self.closed();
        let left = self.left();
        let behind = self.behind;
        let quantum = geo.quantum();
        let mut taken = 0;
        while taken < quantum {
            let weight = match self.step(disk, geo, newer, settles, space, filter, fences) {
                Ok(weight) => weight,
                Err(broken) => {
                    self.at = at;
                    self.closed = closed;
                    self.left = left;
                    self.behind = behind;
                    return Err(broken);
                }
            };
            if weight == 0 {
                return Ok(taken);
            }
            taken += weight;
        }
        Ok(taken)
    }

    /// Writes the run's last page, and gives its component. The merge stays as it was. After an `Err`, whose cause is a fault of the disk, nobody knows
    /// what that page has.
    pub fn finish<D: Disk>(&mut self, disk: &mut D, geo: &Geometry) -> Result<Component, Failed>
        requires inside { IsInside (page_count geo.now) self.old.writer }
        requires length { IsTrue (D.state disk.old).tells_bytes → length (D.state disk.old).bytes ≡ file_length geo.now }
        ensures component { IfOk result (λ c. c ≡ self.old.writer.component) }
        // Where all of both lists was taken it reads as the newer folded over the older, on pages that have the run's tag.
        ensures list { (settles : Bool) (space : SpaceState) (input : Option CursorState) (table : Entries) (filter : BitState) (fences : FencesState) (over_pages under_pages : List ℕ) (over under : Entries)
            → IsTrue (D.state disk.old).is_honest → left_to_take (progress self.old input table) ≡ 0
            → IsMerging settles geo.now (D.state disk.old).bytes space self.old input table filter fences over_pages under_pages over under
            → IfOk result (λ c. (list : HasList geo.now c (kept settles (folded_over over under)) (D.state disk.new).bytes)
            × ((n : ℕ) → Contains (numbers_of list.pages) n → HasRole space self.old.writer.role n) × Guide filter fences list.pages) }
        ensures same { self.new ≡ self.old }
        // One call of the disk at most. No byte outside the open page changes, in no image of any moment.
        ensures writes { Writes (open_region geo.now self.old.writer) (file_length geo.now) result (D.state disk.old) (D.state disk.new) }
    {
        self.writer.end(disk, geo)
    }
}
