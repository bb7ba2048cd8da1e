//! Swaps: a merge that is done becomes a component, by one commit of the catalogue.
ghost use Rattle.std.specs.Prelude.{◌≡◌, ◌+◌, ◌<◌, ◌^◌, ℕ, Bool, true, false, List, [], None, length, is_ok, is_some, IsTrue, OnOk, OnErr, IfOk};
ghost use Rattle.disk_trait.specs.Disk.{TellsFaults};
ghost use Rattle.disk_trait.specs.Effects.{Affects};
ghost use Rattle.blsm_model.specs.Geometry.{file_length};
ghost use Rattle.blsm_model.specs.Lanes.{AreRoles};
ghost use Rattle.bloom_bits.specs.Guides.{Guide};
ghost use Rattle.catalog_swap.specs.Text.{HasKey};
ghost use Rattle.record_delta.specs.Entries.{Entries, above, folded_over, replayed, settled_entries};
ghost use Rattle.page_file.specs.Component.{RunPage, HasList, entries_of};
ghost use Rattle.page_file.specs.File.{Writes};
ghost use Rattle.run_writer.specs.Writer.{role_region};
ghost use Rattle.scan_view.specs.Pins.{beside_pins};
ghost use Rattle.tree_file.specs.Tree.{Tree, HoldsTree};
ghost use Rattle.tree_file.specs.Places.{StandsOn, Becomes, ReadsNext, with_components, with_pass};
ghost use Rattle.tree_runs.specs.Runs.{AreRuns, AreRunning, PassRuns, DeepRuns, fences_of_tag, filter_of, guide_at, left_for_pass, left_for_deep, made_by_pass, made_by_deep};
ghost use Rattle.tree_runs.specs.Holding.{AreOf, AreTagged, IsGuidedBy, IsPassOver, IsDeepOver, StandOver, LeavesSwapped, SwapsDeep, SwapsPass, Rotates, IsDeepSwapped, IsPassSwapped, IsRotated, is_full, commit_region, with_deep_run, with_pass_run, with_rotation};
ghost use Rattle.tree_runs.specs.Holding.{AreFinished, HasAllAhead, cursor_of_pass, progress_of};
ghost use Rattle.tree_runs.specs.Swaps.{MayFollow};
ghost use Rattle.tree_runs.specs.Writing.{open_of_deep, open_of_pass};

use crate::guides::begin_deep;
use crate::runs::Runs;
use blsm_model::{Component, Geometry};
use catalog_swap::{Catalog, Progress, commit, prepare};
use disk_trait::Disk;
use mem_table::Table;
use page_file::no_component;
use refusal::Failed;

// Commits the catalogue after the newest one: closes what must be closed before, and writes it.
fn commit_next<D: Disk>(
    disk: &mut D,
    geo: &Geometry,
    now: &Catalog,
    next: &Catalog,
) -> Result<(), Failed>
    requires length { IsTrue (D.state disk.old).tells_bytes → length (D.state disk.old).bytes ≡ file_length geo.now }
    requires roles { AreRoles now.now.lanes }
    requires version { next.now.version ≡ now.now.version + 1 }
    ensures becomes { (tree after : Tree) → IsTrue (D.state disk.old).is_honest → tree.catalogue ≡ now.now → after.catalogue ≡ next.now
        → (HasKey next.now.progress → MayFollow geo.now tree after) → StandsOn geo.now tree (D.state disk.old)
        → ReadsNext geo.now after (D.state disk.old).bytes
        → Becomes geo.now tree after (is_ok result) (D.state disk.old) (D.state disk.new) }
    ensures effect { Affects (commit_region geo.now now.now) (file_length geo.now) 8 (D.state disk.old) (D.state disk.new) }
    ensures faults { TellsFaults result (D.state disk.old) (D.state disk.new) }
{
    prepare(disk, geo, now)?;
    commit(disk, geo, next)
}

impl Runs {
    /// Swaps the deep merge in, which is done: its run is C2, and C1' is empty. The pages of the old ones are free then.
    ///
    /// After an `Err`, whose cause is a fault of the disk, each image holds the tree as it was or as it would be, and all else is as
    /// before. No merge is to be gone on with.
    /// A clause each for the lists of an honest disk, for what is in memory, for the merges, an `Err`, the calls and the faults.
    pub fn swap_deep<D: Disk>(&mut self, disk: &mut D) -> Result<(), Failed>
        requires done { IsTrue (is_some self.old.deep) × (left_for_deep self.old.deep ≡ 0) }
        requires length { IsTrue (D.state disk.old).tells_bytes → length (D.state disk.old).bytes ≡ file_length self.old.sizes }
        requires running { AreRunning (D.state disk.old).is_honest (D.state disk.old).bytes self.old }
        requires version { self.old.catalogue.version + 1 < 2 ^ 64 }
        requires roles { AreRoles self.old.catalogue.lanes }

        ensures lists { (tree : Tree) → IsTrue (D.state disk.old).is_honest → StandOver self.old tree (D.state disk.old)
            → (next : Tree) × IsDeepSwapped tree next × LeavesSwapped self.old self.new tree next (is_ok result) (D.state disk.old)
            (D.state disk.new) }
        ensures swaps { OnOk result (SwapsDeep self.old self.new) }
        ensures running { OnOk result (AreRunning (D.state disk.new).is_honest (D.state disk.new).bytes self.new) }
        ensures kept { OnErr result (self.new ≡ self.old) }
        ensures effect { Affects (beside_pins self.old.sizes self.old.space.pins) (file_length self.old.sizes) 9 (D.state disk.old) (D.state disk.new) }
        ensures faults { TellsFaults result (D.state disk.old) (D.state disk.new) }
    {
        let made = self.finish_deep(disk)?;
        let next = self.after_deep(made);
        commit_next(disk, &self.geometry, &self.catalogue, &next)?;
        self.install_deep(next);
        Ok(())
    }

    /// Swaps the pass in, which is done: its run is C1, or C1' where it is as heavy as C1's mark; then a deep merge begins. The lanes turn
    /// in the same commit. The pages of the old C1 are free then. Where a deep merge runs, the commit names what of its run is finished, so that an
    /// opening may take it up behind that; no other commit names anything. Tells whether C1 was rotated.
    ///
    /// No deep merge may run where the new C1 is as heavy as its mark. An `Err` leaves what one of `swap_deep` leaves.
    /// A clause each for the lists of an honest disk, for what is in memory, for the merges, an `Err`, the calls and the faults.
    pub fn swap_pass<D: Disk>(&mut self, disk: &mut D, a: &Table) -> Result<bool, Failed>
        requires done { IsTrue (is_some self.old.pass) × (left_for_pass self.old.pass a.now.entries ≡ 0) }
        requires way { IsTrue (is_full self.old.sizes (made_by_pass self.old.pass)) → self.old.deep ≡ None }
        requires length { IsTrue (D.state disk.old).tells_bytes → length (D.state disk.old).bytes ≡ file_length self.old.sizes }
        requires running { AreRunning (D.state disk.old).is_honest (D.state disk.old).bytes self.old }
        requires version { self.old.catalogue.version + 1 < 2 ^ 64 }
        requires roles { AreRoles self.old.catalogue.lanes }

        ensures lists { (tree : Tree) → IsTrue (D.state disk.old).is_honest → StandOver self.old tree (D.state disk.old)
            → HasAllAhead self.old.pass a.now.entries tree
            → (next : Tree) × IsPassSwapped (is_full self.old.sizes (made_by_pass self.old.pass)) tree next
            × LeavesSwapped self.old self.new tree next (is_ok result) (D.state disk.old) (D.state disk.new) }
        ensures rotated { IfOk result (λ rotated. rotated ≡ is_full self.old.sizes (made_by_pass self.old.pass)) }
        ensures swaps { OnOk result (SwapsPass self.old self.new) }
        ensures running { OnOk result (AreRunning (D.state disk.new).is_honest (D.state disk.new).bytes self.new) }
        ensures kept { OnErr result (self.new ≡ self.old) }
        ensures effect { Affects (beside_pins self.old.sizes self.old.space.pins) (file_length self.old.sizes) 9 (D.state disk.old) (D.state disk.new) }
        ensures faults { TellsFaults result (D.state disk.old) (D.state disk.new) }
    {
        let made = self.finish_pass(disk, a)?;
        let rotates = self.geometry.c1_mark() <= made.weight;
        let next = self.after_pass(made, rotates);
        commit_next(disk, &self.geometry, &self.catalogue, &next)?;
        if rotates {
            self.install_rotated_pass(next);
        } else {
            self.install_pass(next);
        }
        Ok(rotates)
    }

    // The next catalogue where the deep merge's run becomes C2.
    fn after_deep(&self, made: Component) -> Catalog
        requires version { self.now.catalogue.version + 1 < 2 ^ 64 }
        ensures next { result ≡ with_deep_run made self.now.catalogue }
    {
        Catalog {
            version: self.catalogue.version + 1,
            lanes: self.catalogue.lanes,
            c1: self.catalogue.c1,
            c1x: no_component(),
            c2: made,
            progress: None,
        }
    }

    // How far the deep merge has come, if a page of its run is finished.
    fn progress(&self) -> Option<Progress>
        ensures { result ≡ progress_of self.now.catalogue self.now.deep }
    {
        let Some(deep) = &self.merges.deep else {
            return None;
        };
        let Catalog { c1x, c2, .. } = &self.catalogue;
        if c1x.pages == 0 {
            return None;
        }
        let done = deep.finished()?;
        let both = c1x.weight.saturating_add(c2.weight);
        Some(Progress {
            output: done.output,
            next: done.next,
            z: both.saturating_sub(done.left),
            key: done.key,
        })
    }

    // The next catalogue where the pass's run becomes C1, or C1'.
    fn after_pass(&self, made: Component, rotates: bool) -> Catalog
        requires version { self.now.catalogue.version + 1 < 2 ^ 64 }
        requires way { rotates ≡ is_full self.now.sizes made }
        ensures next { result ≡ with_pass_run self.now.sizes made (progress_of self.now.catalogue self.now.deep) self.now.catalogue }
    {
        let [a, b, spare] = self.catalogue.lanes;
        Catalog {
            version: self.catalogue.version + 1,
            lanes: [b, spare, a],
            c1: if rotates { no_component() } else { made },
            c1x: if rotates { made } else { self.catalogue.c1x },
            c2: self.catalogue.c2,
            progress: self.progress(),
        }
    }

    // The next catalogue where C1 becomes C1'.
    fn after_rotation(&self) -> Catalog
        requires version { self.now.catalogue.version + 1 < 2 ^ 64 }
        ensures next { result ≡ with_rotation self.now.catalogue }
    {
        Catalog {
            version: self.catalogue.version + 1,
            lanes: self.catalogue.lanes,
            c1: no_component(),
            c1x: self.catalogue.c1,
            c2: self.catalogue.c2,
            progress: None,
        }
    }

    /// C1 becomes C1', by a commit of its own, and a deep merge begins. No merge may run. An `Err` leaves what one of `swap_deep` leaves.
    /// It has the clauses of `swap_deep`.
    pub fn rotate<D: Disk>(&mut self, disk: &mut D) -> Result<(), Failed>
        requires rests { (self.old.pass ≡ None) × (self.old.deep ≡ None) }
        requires length { IsTrue (D.state disk.old).tells_bytes → length (D.state disk.old).bytes ≡ file_length self.old.sizes }
        requires running { AreRunning (D.state disk.old).is_honest (D.state disk.old).bytes self.old }
        requires version { self.old.catalogue.version + 1 < 2 ^ 64 }
        requires roles { AreRoles self.old.catalogue.lanes }

        ensures lists { (tree : Tree) → IsTrue (D.state disk.old).is_honest → StandOver self.old tree (D.state disk.old)
            → (next : Tree) × IsRotated tree next × LeavesSwapped self.old self.new tree next (is_ok result) (D.state disk.old) (D.state disk.new) }
        ensures rotates { OnOk result (Rotates self.old self.new) }
        ensures running { OnOk result (AreRunning (D.state disk.new).is_honest (D.state disk.new).bytes self.new) }
        ensures kept { OnErr result (self.new ≡ self.old) }
        ensures effect { Affects (beside_pins self.old.sizes self.old.space.pins) (file_length self.old.sizes) 8 (D.state disk.old) (D.state disk.new) }
        ensures faults { TellsFaults result (D.state disk.old) (D.state disk.new) }
    {
        let next = self.after_rotation();
        commit_next(disk, &self.geometry, &self.catalogue, &next)?;
        self.install_rotation(next);
        Ok(())
    }

    // The deep merge's run is C2: it gets C2's tag, and the pages of what it was made of are free.
    fn install_deep(&mut self, next: Catalog)
        requires runs { AreRuns self.old }
        requires next { next ≡ with_deep_run (made_by_deep self.old.deep) self.old.catalogue }
        ensures swaps { SwapsDeep self.old self.new }
        ensures runs { AreRuns self.new }
        ensures goes_on { (honest : Bool) (file : List ℕ) → PassRuns self.old.sizes honest file self.old.space (guide_at self.old.guides self.old.tags.pass) self.old.pass
            → PassRuns self.old.sizes honest file self.new.space (guide_at self.new.guides self.new.tags.pass) self.new.pass }
        ensures lists { (tree : Tree) (run : List RunPage) (file : List ℕ) → HoldsTree self.old.sizes (with_components next tree.c1 [] run tree) file
            → AreTagged self.old.space self.old.tags.c1 tree.c1 → AreTagged self.old.space self.old.tags.deep run
            → IsGuidedBy (guide_at self.old.guides self.old.tags.c1) tree.c1 → IsGuidedBy (guide_at self.old.guides self.old.tags.deep) run
            → IsPassOver self.old.sizes file self.old.space (guide_at self.old.guides self.old.tags.pass) self.old.pass (replayed tree.lane_a.entries) tree.c1
            → AreOf self.new (with_components next tree.c1 [] run tree) file }
    {
        self.catalogue = next;
        self.space.release(self.c1x);
        self.space.release(self.c2);
        (self.c2, self.deep) = (self.deep, self.c2);
        let merges = &mut *self.merges;
        merges.deep = None;
    }

    // The pass's run is C1: it gets C1's tag, and the pages of the old C1 are free.
    fn install_pass(&mut self, next: Catalog)
        requires runs { AreRuns self.old }
        requires light { is_full self.old.sizes (made_by_pass self.old.pass) ≡ false }
        requires next { next ≡ with_pass_run self.old.sizes (made_by_pass self.old.pass) (progress_of self.old.catalogue self.old.deep) self.old.catalogue }
        ensures swaps { SwapsPass self.old self.new }
        ensures runs { AreRuns self.new }
        ensures goes_on { (honest : Bool) (file : List ℕ) → DeepRuns self.old.sizes honest file self.old.space (guide_at self.old.guides self.old.tags.deep) self.old.deep
            → DeepRuns self.old.sizes honest file self.new.space (guide_at self.new.guides self.new.tags.deep) self.new.deep }
        ensures lists { (tree : Tree) (run output : List RunPage) (file : List ℕ)
            → HoldsTree self.old.sizes (with_pass next run tree.c1x tree.c2 output tree) file
            → AreTagged self.old.space self.old.tags.c1x tree.c1x → AreTagged self.old.space self.old.tags.c2 tree.c2 → AreTagged self.old.space self.old.tags.pass run
            → IsGuidedBy (guide_at self.old.guides self.old.tags.pass) run → IsGuidedBy (guide_at self.old.guides self.old.tags.c1x) tree.c1x → IsGuidedBy (guide_at self.old.guides self.old.tags.c2) tree.c2
            → IsDeepOver self.old.sizes file self.old.space (guide_at self.old.guides self.old.tags.deep) self.old.deep tree.c1x tree.c2
            → AreFinished self.old.space self.old.deep output → AreOf self.new (with_pass next run tree.c1x tree.c2 output tree) file }
    {
        self.catalogue = next;
        self.space.release(self.c1);
        (self.c1, self.pass) = (self.pass, self.c1);
        let merges = &mut *self.merges;
        merges.pass = None;
    }

    // The pass's run is C1', whose tag was on no page, and a deep merge begins. The pages of the old C1 are free.
    fn install_rotated_pass(&mut self, next: Catalog)
        requires runs { AreRuns self.old }
        requires heavy { is_full self.old.sizes (made_by_pass self.old.pass) ≡ true }
        requires rests { self.old.deep ≡ None }
        requires next { next ≡ with_pass_run self.old.sizes (made_by_pass self.old.pass) (progress_of self.old.catalogue self.old.deep) self.old.catalogue }
        ensures swaps { SwapsPass self.old self.new }
        ensures runs { AreRuns self.new }
        ensures goes_on { (honest : Bool) (file : List ℕ) → DeepRuns self.old.sizes honest file self.new.space (guide_at self.new.guides self.new.tags.deep) self.new.deep }
        ensures lists { (tree : Tree) (run : List RunPage) (file : List ℕ) → HoldsTree self.old.sizes (with_pass next [] run tree.c2 [] tree) file
            → AreTagged self.old.space self.old.tags.c2 tree.c2 → AreTagged self.old.space self.old.tags.pass run
            → IsGuidedBy (guide_at self.old.guides self.old.tags.c2) tree.c2 → IsGuidedBy (guide_at self.old.guides self.old.tags.pass) run
            → AreOf self.new (with_pass next [] run tree.c2 [] tree) file }
    {
        self.catalogue = next;
        self.space.release(self.c1);
        (self.c1, self.c1x, self.pass) = (self.c1x, self.pass, self.c1);
        let merges = &mut *self.merges;
        merges.pass = None;
        merges.deep = Some(begin_deep(
            &self.geometry,
            &self.catalogue.c1x,
            &self.catalogue.c2,
            self.deep,
            &mut self.guides,
        ));
    }

    // C1 is C1', whose tag was on no page, and a deep merge begins.
    fn install_rotation(&mut self, next: Catalog)
        requires runs { AreRuns self.old }
        requires rests { (self.old.pass ≡ None) × (self.old.deep ≡ None) }
        requires next { next ≡ with_rotation self.old.catalogue }
        ensures rotates { Rotates self.old self.new }
        ensures runs { AreRuns self.new }
        ensures goes_on { (honest : Bool) (file : List ℕ) → DeepRuns self.old.sizes honest file self.new.space (guide_at self.new.guides self.new.tags.deep) self.new.deep }
        ensures lists { (tree : Tree) (file : List ℕ) → HoldsTree self.old.sizes (with_components next [] tree.c1 tree.c2 tree) file
            → AreTagged self.old.space self.old.tags.c1 tree.c1 → AreTagged self.old.space self.old.tags.c2 tree.c2
            → IsGuidedBy (guide_at self.old.guides self.old.tags.c1) tree.c1 → IsGuidedBy (guide_at self.old.guides self.old.tags.c2) tree.c2
            → AreOf self.new (with_components next [] tree.c1 tree.c2 tree) file }
    {
        self.catalogue = next;
        (self.c1, self.c1x) = (self.c1x, self.c1);
        let merges = &mut *self.merges;
        merges.deep = Some(begin_deep(
            &self.geometry,
            &self.catalogue.c1x,
            &self.catalogue.c2,
            self.deep,
            &mut self.guides,
        ));
    }

    // Writes the last page of the deep merge's run.
    fn finish_deep<D: Disk>(&mut self, disk: &mut D) -> Result<Component, Failed>
        requires done { IsTrue (is_some self.old.deep) × (left_for_deep self.old.deep ≡ 0) }
        requires length { IsTrue (D.state disk.old).tells_bytes → length (D.state disk.old).bytes ≡ file_length self.old.sizes }
        requires running { AreRunning (D.state disk.old).is_honest (D.state disk.old).bytes self.old }
        ensures component { IfOk result (λ c. c ≡ made_by_deep self.old.deep) }
        ensures list { (c1x c2 : List RunPage) → IsTrue (D.state disk.old).is_honest → IsDeepOver self.old.sizes (D.state disk.old).bytes self.old.space (guide_at self.old.guides self.old.tags.deep) self.old.deep c1x c2
            → IfOk result (λ c. (list : HasList self.old.sizes c (settled_entries (folded_over (entries_of c1x) (entries_of c2))) (D.state disk.new).bytes) × AreTagged self.old.space self.old.tags.deep list.pages × Guide (filter_of self.old self.old.tags.deep) (fences_of_tag self.old self.old.tags.deep) list.pages) }
        ensures same { self.new ≡ self.old }
        ensures writes { Writes (role_region self.old.sizes self.old.space self.old.tags.deep) (file_length self.old.sizes) result (D.state disk.old) (D.state disk.new) }
        ensures opens { Affects (open_of_deep self.old.sizes self.old.deep) (file_length self.old.sizes) 1 (D.state disk.old) (D.state disk.new) }
    {
        let merges = &mut *self.merges;
        match &mut merges.deep {
            Some(deep) => { deep.finish(disk, &self.geometry) }
            None => unreachable!(),
        }
    }

    // Writes the last page of the pass's run.
    fn finish_pass<D: Disk>(&mut self, disk: &mut D, a: &Table) -> Result<Component, Failed>
        requires done { IsTrue (is_some self.old.pass) × (left_for_pass self.old.pass a.now.entries ≡ 0) }
        requires length { IsTrue (D.state disk.old).tells_bytes → length (D.state disk.old).bytes ≡ file_length self.old.sizes }
        requires running { AreRunning (D.state disk.old).is_honest (D.state disk.old).bytes self.old }
        ensures component { IfOk result (λ c. c ≡ made_by_pass self.old.pass) }
        ensures list { (all : Entries) (c1 : List RunPage) → IsTrue (D.state disk.old).is_honest
            → above (cursor_of_pass self.old.pass) all ≡ above (cursor_of_pass self.old.pass) a.now.entries
            → IsPassOver self.old.sizes (D.state disk.old).bytes self.old.space (guide_at self.old.guides self.old.tags.pass) self.old.pass all c1
            → IfOk result (λ c. (list : HasList self.old.sizes c (folded_over all (entries_of c1)) (D.state disk.new).bytes)
            × AreTagged self.old.space self.old.tags.pass list.pages
            × Guide (filter_of self.old self.old.tags.pass) (fences_of_tag self.old self.old.tags.pass) list.pages) }
        ensures same { self.new ≡ self.old }
        ensures writes { Writes (role_region self.old.sizes self.old.space self.old.tags.pass) (file_length self.old.sizes) result (D.state disk.old) (D.state disk.new) }
        ensures opens { Affects (open_of_pass self.old.sizes self.old.pass) (file_length self.old.sizes) 1 (D.state disk.old) (D.state disk.new) }
    {
        let merges = &mut *self.merges;
        match &mut merges.pass {
            Some(snow) => { snow.finish(disk, &self.geometry, a) }
            None => unreachable!(),
        }
    }
}
