//! The components, their pages, and the merges that run.
ghost use Rattle.std.specs.Prelude.{◌≡◌, ◌↔◌, ◌<◌, ◌+◌, ◌∷◌, [], ℕ, Bool, List, Some, None, IsTrue, is_some};
ghost use Rattle.blsm_model.specs.Components.{empty_component};
ghost use Rattle.blsm_model.specs.Sizes.{Sizes};
ghost use Rattle.page_space.specs.Space.{SpaceState};
ghost use Rattle.page_file.specs.Component.{RunPage, ReadsAs};
ghost use Rattle.tree_file.specs.Tree.{Tree, HoldsTree};
ghost use Rattle.catalog_swap.specs.declared.catalog.Progress.{Progress};
ghost use Rattle.deep_merge.specs.Merge.{taken_up};
ghost use Rattle.tree_runs.specs.Ahead.{IsAhead, IsAheadOn, IsAheadOver, MayResume};
ghost use Rattle.tree_runs.specs.Runs.{opened_from, due_deep, due_from, due_guides, guides_from, first_tags, guide_at, pass_begun, AreGuides, AreRead, AreRuns, AreRunning, DeepRuns, GuideState, left_for_pass, left_for_deep};
ghost use Rattle.tree_runs.specs.Holding.{AreElsewhere, AreGuided, AreOf, AreTagged, IsDeepOver, KeepsOtherGuides, cursor_of_pass};

use crate::guides::{Guide, GuideRoom, begin_deep, begin_snow};
use crate::resumable::{Cursors, Resumable};
use blsm_model::{Geometry, Key};
use catalog_swap::Catalog;
use deep_merge::Deep;
use mem_table::Table;
use page_space::{Role, Space};
use refusal::NoMemory;
use snow_merge::Snow;
use std::alloc::Global;
use std::marker::Model;

// The merges that run. With the pages that they hold these are some 25 KB.
#[derive(Debug, Drop)]
pub(crate) struct Merges {
    pub(crate) pass: Option<Snow>,
    pub(crate) deep: Option<Deep>,
}

/// Memory for the two merges. The value that moves from turn to turn holds none of their pages.
#[derive(Debug, Drop)]
pub struct MergeRoom {
    merges: Box<Merges>,
}

impl MergeRoom {
    /// Takes the memory, or tells that it was refused.
    ///
    /// It stays a call, so that the merges aren't added to the frame of who reserves them.
    #[inline(never)]
    pub fn reserve(alloc: Global) -> Result<MergeRoom, NoMemory> {
        Ok(MergeRoom {
            merges: Box::new(
                alloc,
                Merges {
                    pass: None,
                    deep: None,
                },
            )?,
        })
    }
}

/// The components of a tree as its catalogue has them, which pages of the file they have, the merges that run, and the filters and fences of them
/// all. Contracts see the merges' runs and cursors. What the pages hold the clauses say of the file of an honest disk (`AreOf`).
#[derive(Debug, Drop)]
pub struct Runs {
    pub(crate) geometry: Geometry,
    pub(crate) catalogue: Catalog,
    pub(crate) space: Space,
    pub(crate) c1: Role,
    pub(crate) c1x: Role,
    pub(crate) c2: Role,
    pub(crate) pass: Role,
    pub(crate) deep: Role,
    pub(crate) merges: Box<Merges>,
    // For each tag, those of the pages that have it.
    pub(crate) guides: Vec<Guide>,
    // How many quanta went well since the opening.
    pub(crate) quanta: u64,
}

impl Model for Runs {
    ghost use Rattle.tree_runs.specs.Runs.{RunsState};

    ghost Value = { RunsState };

    ghost view = { λ r. record {
      sizes = r.geometry;
      catalogue = r.catalogue;
      space = r.space;
      tags = record { c1 = r.c1; c1x = r.c1x; c2 = r.c2; pass = r.pass; deep = r.deep };
      pass = r.merges.value.pass;
      deep = r.merges.value.deep;
      guides = r.guides.items;
      quanta = r.quanta;
    } };
}

impl Runs {
    /// The components of a tree that was read from its file, whose map gives the pages of C1, C1' and C2 the tags 0, 1 and 2, and those of a deep
    /// merge that is taken up the tag 4; under these tags are their filters and fences. Where C1' has pages, as a crash may leave them, its deep
    /// merge begins, or is taken up behind what was finished of it. It calls no device.
    pub fn open(
        geometry: &Geometry,
        catalogue: Catalog,
        space: Space,
        room: MergeRoom,
        guides: GuideRoom,
        ahead: Option<Resumable>,
    ) -> Runs
        requires read { AreRead geometry.now catalogue space }
        requires guides { AreGuides geometry.now first_tags guides }
        requires ahead { IsAhead first_tags.deep catalogue.progress (catalogue.c1x.weight + catalogue.c2.weight) ahead }
        ensures opened { result ≡ opened_from geometry.now catalogue space guides ahead }
        ensures running { (honest : Bool) (file : List ℕ) → IsAheadOn geometry.now honest file space first_tags.deep (guide_at guides first_tags.deep) ahead
            → AreRunning honest file result }
        ensures lists { (tree : Tree) (file : List ℕ) → HoldsTree geometry.now tree file → tree.catalogue ≡ catalogue
            → AreTagged space first_tags.c1 tree.c1 → AreTagged space first_tags.c1x tree.c1x → AreTagged space first_tags.c2 tree.c2
            → AreGuided guides first_tags tree
            → IsAheadOver geometry.now file space first_tags.deep (guide_at guides first_tags.deep) tree.c1x tree.c2 ahead → AreOf result tree file }
    {
        let deep = Role::new(4);
        let mut guides = guides.guides;
        let mut merges = room.merges;
        let here = &mut *merges;
        here.pass = None;
        go_on(
            &mut here.deep,
            geometry,
            &catalogue,
            deep,
            &mut guides,
            ahead,
        );
        Runs {
            geometry: *geometry,
            catalogue,
            space,
            c1: Role::new(0),
            c1x: Role::new(1),
            c2: Role::new(2),
            pass: Role::new(3),
            deep,
            merges,
            guides,
            quanta: 0,
        }
    }

    /// A pass over C1 begins, beside a memory table that weighs so many bytes: its run's filter gets as many bits as both weigh with one half
    /// more, and never more than there is room for. It calls no device.
    pub fn begin_pass(&mut self, memory: u64)
        requires rests { self.old.pass ≡ None }
        requires runs { AreRuns self.old }
        ensures begun { self.new ≡ pass_begun memory self.old }
        ensures running { (honest : Bool) (file : List ℕ) → AreRunning honest file self.old → AreRunning honest file self.new }
        ensures lists { (tree : Tree) (file : List ℕ) → AreOf self.old tree file → AreOf self.new tree file }
    {
        let merges = &mut *self.merges;
        merges.pass = Some(begin_snow(
            &self.geometry,
            &self.catalogue.c1,
            memory,
            self.pass,
            &mut self.guides,
        ));
    }

    /// Whether a pass runs.
    pub fn in_pass(&self) -> bool
        ensures { result ≡ is_some self.now.pass }
    {
        self.merges.pass.is_some()
    }

    /// Whether a deep merge runs.
    pub fn in_deep(&self) -> bool
        ensures { result ≡ is_some self.now.deep }
    {
        self.merges.deep.is_some()
    }

    /// Whether a pass runs and has taken all of table A, as it is now, and of C1.
    pub fn is_pass_done(&self, a: &Table) -> bool
        ensures { IsTrue result ↔ (IsTrue (is_some self.now.pass) × (left_for_pass self.now.pass a.now.entries ≡ 0)) }
    {
        match &self.merges.pass {
            Some(snow) => snow.is_done(a),
            None => false,
        }
    }

    /// Whether a deep merge runs and has taken all of C1' and of C2.
    pub fn is_deep_done(&self) -> bool
        ensures { IsTrue result ↔ (IsTrue (is_some self.now.deep) × (left_for_deep self.now.deep ≡ 0)) }
    {
        match &self.merges.deep {
            Some(deep) => deep.is_done(),
            None => false,
        }
    }

    /// The greatest key that the pass took; `None` where it took none, or none runs.
    pub fn cursor(&self) -> Option<Key>
        ensures { result ≡ cursor_of_pass self.now.pass }
    {
        match &self.merges.pass {
            Some(snow) => snow.cursor(),
            None => None,
        }
    }

    /// The geometry of the store.
    pub fn geometry(&self) -> Geometry
        ensures { result ≡ self.now.sizes }
    {
        self.geometry
    }

    /// The catalogue as it was last committed.
    pub fn catalogue(&self) -> &Catalog
        ensures { result.now ≡ self.now.catalogue }
    {
        &self.catalogue
    }
}

// Puts the deep merge that a catalogue asks for where it is to lie: the one that is taken up, if there is one, whose run's filter and fences are
// filled.
fn go_on(
    slot: &mut Option<Deep>,
    geo: &Geometry,
    catalogue: &Catalog,
    role: Role,
    guides: &mut Vec<Guide>,
    ahead: Option<Resumable>,
)
    requires guides { AreGuides geo.now first_tags guides.old.items }
    requires role { role ≡ first_tags.deep }
    requires older { catalogue.now.c2.pages ≡ 0 → catalogue.now.c2 ≡ empty_component }
    requires ahead { IsAhead role catalogue.now.progress (catalogue.now.c1x.weight + catalogue.now.c2.weight) ahead }
    ensures begun { slot.new ≡ due_from role catalogue.now ahead }
    ensures guides { guides.new.items ≡ guides_from geo.now catalogue.now ahead guides.old.items }
    ensures reserved { AreGuides geo.now first_tags guides.new.items }
    ensures others { KeepsOtherGuides role guides.old.items guides.new.items }
    ensures running { (sizes : Sizes) (honest : Bool) (file : List ℕ) (space : SpaceState)
        → IsAheadOn sizes honest file space role (guide_at guides.old.items role) ahead
        → DeepRuns sizes honest file space (guide_at guides.new.items role) slot.new }
    ensures merge { (sizes : Sizes) (file : List ℕ) (space : SpaceState) (c1x c2 : List RunPage)
        → ReadsAs sizes catalogue.now.c1x c1x file → AreElsewhere space role c1x → ReadsAs sizes catalogue.now.c2 c2 file → AreElsewhere space role c2
        → IsAheadOver sizes file space role (guide_at guides.old.items role) c1x c2 ahead
        → IsDeepOver sizes file space (guide_at guides.new.items role) slot.new c1x c2 }
{
    match ahead {
        Some(ahead) => take_up(slot, role, ahead),
        None => begin_due(slot, geo, catalogue, role, guides),
    }
}

// Puts the deep merge that is taken up where it is to lie. It stays a call, so that the merge and its cursors aren't added to the frame of an
// opening.
#[inline(never)]
fn take_up(slot: &mut Option<Deep>, role: Role, ahead: Resumable)
    requires { (progress : Progress) × (both : ℕ) × MayResume role progress both ahead }
    ensures taken { slot.new ≡ Some (taken_up role ahead.done ahead.inputs.value.c1x ahead.inputs.value.c2) }
    ensures running { (sizes : Sizes) (honest : Bool) (file : List ℕ) (space : SpaceState) (guide : GuideState)
        → IsAheadOn sizes honest file space role guide (Some ahead) → DeepRuns sizes honest file space guide slot.new }
    ensures merge { (sizes : Sizes) (file : List ℕ) (space : SpaceState) (guide : GuideState) (c1x c2 : List RunPage)
        → IsAheadOver sizes file space role guide c1x c2 (Some ahead) → IsDeepOver sizes file space guide slot.new c1x c2 }
{
    let Resumable { done, inputs } = ahead;
    let Cursors { c1x, c2 } = Box::into_inner(inputs);
    *slot = Some(Deep::resume(c1x, c2, role, &done));
}

// Puts the deep merge that a catalogue asks for where it is to lie, since it takes some 14 KB: one that has taken nothing, where C1' has pages. Its
// run's filter and fences are empty then.
fn begin_due(
    slot: &mut Option<Deep>,
    geo: &Geometry,
    catalogue: &Catalog,
    role: Role,
    guides: &mut Vec<Guide>,
)
    requires guides { AreGuides geo.now first_tags guides.old.items }
    requires role { role ≡ first_tags.deep }
    requires older { catalogue.now.c2.pages ≡ 0 → catalogue.now.c2 ≡ empty_component }
    ensures begun { slot.new ≡ due_deep role catalogue.now }
    ensures guides { guides.new.items ≡ due_guides geo.now catalogue.now guides.old.items }
    ensures reserved { AreGuides geo.now first_tags guides.new.items }
    ensures others { KeepsOtherGuides role guides.old.items guides.new.items }
    ensures running { (sizes : Sizes) (honest : Bool) (file : List ℕ) (space : SpaceState) → DeepRuns sizes honest file space (guide_at guides.new.items role) slot.new }
    ensures merge { (sizes : Sizes) (file : List ℕ) (space : SpaceState) (c1x c2 : List RunPage)
        → ReadsAs sizes catalogue.now.c1x c1x file → AreElsewhere space role c1x → ReadsAs sizes catalogue.now.c2 c2 file → AreElsewhere space role c2
        → IsDeepOver sizes file space (guide_at guides.new.items role) slot.new c1x c2 }
{
    if catalogue.c1x.pages == 0 {
        *slot = None;
    } else {
        *slot = Some(begin_deep(geo, &catalogue.c1x, &catalogue.c2, role, guides));
    }
}
