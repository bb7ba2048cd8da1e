//! Holds: snapshots of a range, whose pages stay.
ghost use Rattle.std.specs.Prelude.{◌≡◌, ◌<◌, ◌≤◌, ◌*◌, ℕ, Bool, List, None, Some, length, IfOk, OnOk, OnErr};
ghost use Rattle.blsm_model.specs.Format.{callers, least_full};
ghost use Rattle.page_file.specs.Component.{entries_of};
ghost use Rattle.page_space.specs.PageSet.{none_of};
ghost use Rattle.page_space.specs.Space.{pins_of, role_count};
ghost use Rattle.record_delta.specs.Entries.{above, replayed};
ghost use Rattle.bloom_bits.specs.Parts.{IsPartFrom};
ghost use Rattle.scan_view.specs.Holds.{pages_behind};
ghost use Rattle.scan_view.specs.Pins.{HasHeld};
ghost use Rattle.tree_file.specs.Tree.{Tree};
ghost use Rattle.tree_machine.specs.Lists.{rows_in};
ghost use Rattle.tree_runs.specs.Runs.{AreRuns, AreRunning, fences_of_tag, finished_by_pass, front_of, hold_share};
ghost use Rattle.tree_runs.specs.Holding.{AreOf, HoldFits, IsFrontFrom, IsHeldFrom, IsOlderFrom, PinsFor, PinsNamed, PinsParts, Repins};
ghost use Rattle.tree_runs.specs.Holding as holding;
ghost use Rattle.tree_runs.specs.Lookups.{IsFloorOf};

use crate::lookup::is_above;
use crate::runs::Runs;
use bloom_bits::Fence;
use blsm_model::{Component, Key};
use mem_table::Table;
use page_file::no_component;
use page_space::{Role, Space};
use refusal::NoMemory;
use scan_view::Hold;
use std::alloc::Global;

// Of two parts that both end where their component does, the one that begins later.
fn later_part(part: Component, behind: Component) -> Component
    ensures { result ≡ holding.later_part part (Some behind) }
{
    if behind.pages >= part.pages {
        return part;
    }
    if behind.pages == 0 {
        return no_component();
    }
    behind
}

// Pins for a seat the pages that these fences name; but on a disk that lies they may name any, so none without the tag.
fn pin_named(space: &mut Space, seat: u32, tag: Role, fences: &[Fence])
    requires { seat < callers }
    ensures { PinsNamed seat tag fences.now space.old space.new }
{
    // A map keeps its shape.
    let _pages = space.pages();
    for fence in fences {
        if space.has(tag, fence.page) {
            space.pin_page(seat, fence.page);
        }
    }
}

impl Runs {
    /// A hold for a caller's seat: the rows of the range from `low` on, without `high`, of table B over table A over the components, as they are
    /// now. Of each component it has the part from the page on that may have `low`, and never reads one before it. The components' pages are pinned for the
    /// seat, and none that it pinned before. It calls no device.
    ///
    /// Where table A was dropped up to its floor, what the pass has finished is read up to there in place of C1. Of that, and of C1, only the pages that
    /// the hold reads are pinned.
    ///
    /// Where memory is refused there is no hold, and the seat's pins stay as they were.
    /// A clause each for the rows of an honest disk and of any, for what the seat pins, and for what the merges keep.
    pub fn hold(
        &mut self,
        alloc: Global,
        seat: u32,
        low: &Key,
        high: &Key,
        a: &Table,
        b: &Table,
    ) -> Result<Hold, NoMemory>
        requires seat { seat < callers }
        requires runs { AreRuns self.old }
        requires fits { HoldFits self.old a.now.entries }
        ensures hold { IfOk result (IsHeldFrom self.old a.now.floor low.now high.now b.now.entries a.now.entries) }
        // In a file that holds a tree it has the rows of its lists to give, from pages that the seat pins: where table A is what its floor leaves of the
        // tree's list.
        ensures rows { (tree : Tree) (file : List ℕ) → AreOf self.old tree file → IsFloorOf a.now.floor self.old tree file
            → a.now.entries ≡ above a.now.floor (replayed tree.lane_a.entries)
            → IfOk result (λ hold. HasHeld self.old.sizes self.new.space.pins seat (Some hold)
            (Some (rows_in (record { b = b.now.entries; a = replayed tree.lane_a.entries; c1 = entries_of tree.c1; c1x = entries_of tree.c1x; c2 = entries_of tree.c2 }) low.now high.now)) file) }
        // It has no more pages than a hold may pin.
        ensures few { IfOk result (λ hold. pages_behind (Some hold) ≤ hold_share self.old.sizes) }
        ensures pins { OnOk result (Repins seat self.old self.new) }
        ensures exact { IfOk result (λ hold. PinsFor a.now.floor seat hold.front hold.c1 self.old self.new.space) }
        ensures kept { OnErr result (self.new ≡ self.old) }
        ensures running { (honest : Bool) (file : List ℕ) → AreRunning honest file self.old → AreRunning honest file self.new }
        ensures lists { (tree : Tree) (file : List ℕ) → AreOf self.old tree file → AreOf self.new tree file }
    {
        let floor = a.floor();
        let front = self.front_from(floor, low);
        let c1 = self.older_from(floor, low);
        let c1x = self.part_from(&self.catalogue.c1x, self.c1x, low);
        let c2 = self.part_from(&self.catalogue.c2, self.c2, low);
        let hold = Hold::build(alloc, low, high, a, b, &front, floor, &c1, &c1x, &c2)?;
        self.pin_for(seat, floor, &front, &c1);
        Ok(hold)
    }

    // The part of a component, whose pages have this tag, that can have keys from this one on.
    fn part_from(&self, run: &Component, role: Role, low: &Key) -> Component
        requires { length self.now.guides ≡ role_count }
        ensures { IsPartFrom low.now (fences_of_tag self.now role).list run.now result }
    {
        let guide = &self.guides[role.number() as usize];
        guide.fences.part_from(low, run)
    }

    // Of what the pass has finished, the part that can have keys from this one on, where the table was dropped up to one that isn't below it.
    fn front_from(&self, floor: &Option<Key>, low: &Key) -> Component
        requires { length self.now.guides ≡ role_count }
        ensures from { IsFrontFrom self.now floor.now low.now result }
        // On any disk its pages are nearly full.
        ensures full { least_full * result.pages ≤ (front_of (finished_by_pass self.now.pass)).weight }
    {
        if is_above(floor, low) {
            return no_component();
        }
        self.part_from(&self.front(), self.pass, low)
    }

    // Of C1 the part that can have keys from this one on, which the pages that the pass has finished don't have.
    fn older_from(&self, floor: &Option<Key>, low: &Key) -> Component
        requires { length self.now.guides ≡ role_count }
        ensures { IsOlderFrom self.now floor.now low.now result }
    {
        let part = self.part_from(&self.catalogue.c1, self.c1, low);
        if floor.is_none() {
            return part;
        }
        match &self.merges.pass {
            Some(snow) => later_part(part, snow.behind()),
            None => part,
        }
    }

    // Pins the pages of the components for a seat; or, where the table was dropped, those that its hold reads.
    fn pin_for(&mut self, seat: u32, floor: &Option<Key>, front: &Component, c1: &Component)
        requires seat { seat < callers }
        requires guides { length self.old.guides ≡ role_count }
        ensures rest { self.new ≡ record self.old { space = self.new.space } }
        ensures pins { PinsFor floor.now seat front.now c1.now self.old self.new.space }
    {
        match floor {
            Some(_) => self.pin_parts(seat, front, c1),
            None => self.space.pin(seat, self.c1, self.c1x, self.c2),
        }
    }

    // Pins the pages of C1' and C2 for a seat, and those of a part of the finished pages and of a part of C1, which the fences name.
    fn pin_parts(&mut self, seat: u32, front: &Component, c1: &Component)
        requires seat { seat < callers }
        requires guides { length self.old.guides ≡ role_count }
        ensures rest { self.new ≡ record self.old { space = self.new.space } }
        ensures pins { PinsParts seat front.now c1.now self.old self.new.space }
    {
        let finished = self.front();
        self.space.pin_two(seat, self.c1x, self.c2);
        let guide = &self.guides[self.pass.number() as usize];
        pin_named(
            &mut self.space,
            seat,
            self.pass,
            guide.fences.last_of(&finished, front),
        );
        let guide = &self.guides[self.c1.number() as usize];
        pin_named(
            &mut self.space,
            seat,
            self.c1,
            guide.fences.last_of(&self.catalogue.c1, c1),
        );
    }

    /// Drops the pins of a caller's seat. Its pages that are no component's and no run's, and that no other seat pins, are free then.
    pub fn unpin(&mut self, seat: u32)
        requires seat { seat < callers }
        requires runs { AreRuns self.old }
        ensures pins { Repins seat self.old self.new }
        ensures none { pins_of self.new.space seat ≡ none_of self.old.space.pages }
        ensures running { (honest : Bool) (file : List ℕ) → AreRunning honest file self.old → AreRunning honest file self.new }
        ensures lists { (tree : Tree) (file : List ℕ) → AreOf self.old tree file → AreOf self.new tree file }
    {
        self.space.unpin(seat);
    }
}
