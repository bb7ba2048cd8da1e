//! Filters and fences, one pair for the pages of each tag. A run's pair is filled while it is written, and stays under its tag: a swap
//! exchanges tags, and no pair.
ghost use Rattle.std.specs.Prelude.{◌≡◌, ◌<◌, ◌≤◌, ◌^◌, [], ℕ, Bool, List, Some, length, IfOk};
ghost use Rattle.blsm_model.specs.Components.{empty_component};
ghost use Rattle.blsm_model.specs.Geometry.{capacity};
ghost use Rattle.blsm_model.specs.Sizes.{Sizes};
ghost use Rattle.bloom_bits.specs.Filter.{rounded, HasKeys};
ghost use Rattle.record_delta.specs.Entries.{AreSorted, Entries};
ghost use Rattle.page_space.specs.Space.{SpaceState, role_count};
ghost use Rattle.page_file.specs.Component.{RunPage, ReadsAs};
ghost use Rattle.snow_merge.specs.Pass.{started};
ghost use Rattle.deep_merge.specs.Merge.{started as deep_started};
ghost use Rattle.tree_runs.specs.Runs.{AreGuides, IsReserved, PassRuns, DeepRuns, fresh_guide, fresh_guides, first_tags, deep_bits, empty_guide, emptied, guide_at, pass_bits, run_most};
ghost use Rattle.tree_runs.specs.Holding.{AreElsewhere, IsDeepOver, IsPassOver, KeepsOtherGuides};
ghost use Rattle.tree_runs.specs.Noting.{KeepsRooms, Notes};

use bloom_bits::{Fence, Fences, Filter};
use blsm_model::{Component, Geometry, Key};
use deep_merge::Deep;
use page_file::LEAST_FULL;
use page_space::Role;
use refusal::NoMemory;
use snow_merge::Snow;
use std::alloc::Global;
use std::marker::Model;

/// Where a page of a run begins: its number, and how many entries, of which weight in bytes, stand on the run's pages before it.
#[derive(Clone, Copy, PartialEq, Eq, Debug)]
pub struct PageStart {
    pub page: u32,
    pub entries: u64,
    pub weight: u64,
}

/// The filter and the fences of the pages that have one tag.
#[derive(Debug, Drop)]
pub struct Guide {
    pub(crate) filter: Filter,
    pub(crate) fences: Fences,
}

impl Model for Guide {
    ghost use Rattle.tree_runs.specs.Runs.{GuideState};

    ghost Value = { GuideState };

    ghost view = { λ g. record { filter = g.filter; fences = g.fences } };
}

impl Guide {
    // Room for the bits and the fences of a run of this weight, in bytes.
    fn reserve(alloc: Global, weight: u64) -> Result<Guide, NoMemory>
        requires { weight ≤ 2 ^ 33 }
        ensures { IfOk result (λ guide. guide ≡ fresh_guide weight) }
    {
        let pages = weight / u64::from(LEAST_FULL) + 1;
        Ok(Guide {
            filter: Filter::with_bits(alloc, weight)?,
            fences: Fences::reserve(alloc, pages as u32)?,
        })
    }

    // Takes all keys and fences out. The filter has so many bits then.
    fn begin(&mut self, bits: u64)
        requires { rounded bits ≤ self.old.filter.reserved }
        ensures begun { self.new ≡ empty_guide bits self.old }
        ensures none { HasKeys self.new.filter [] }
    {
        self.filter.reset(bits);
        self.fences.clear();
    }

    // Adds a key, and where a page begins with it that page's fence.
    fn note(&mut self, key: &Key, start: Option<PageStart>)
        ensures { Notes key.now start self.old self.new }
    {
        self.filter.add(key);
        let Some(start) = start else {
            return;
        };
        if self.fences.takes(key) {
            self.fences.push(Fence {
                first: key.copy(),
                page: start.page,
                entries: start.entries,
                weight: start.weight,
            });
        }
    }
}

// How much a pass's run weighs at most.
fn run_most(geo: &Geometry) -> u64
    ensures most { result ≡ run_most geo.now }
    ensures bound { result ≤ 2 ^ 33 }
{
    geo.c1_mark() + 3 * geo.half()
}

// Five pairs, one for each tag.
fn reserve_all(alloc: Global, geo: &Geometry, c1x: u64) -> Result<Vec<Guide>, NoMemory>
    requires { c1x ≤ capacity geo.now }
    ensures { IfOk result (λ guides. guides.items ≡ fresh_guides geo.now c1x) }
{
    let run = run_most(geo);
    let all = geo.capacity();
    let mut guides = Vec::with_capacity(alloc, Role::COUNT as usize)?;
    for weight in [run, run.max(c1x), all, run, all] {
        guides.push(Guide::reserve(alloc, weight)?)?;
    }
    Ok(guides)
}

/// The filters and the fences of a store that is being opened: those of C1, C1' and C2 have the tags 0, 1 and 2. They are reserved once its
/// geometry is known, and filled before the components begin with them.
#[derive(Debug, Drop)]
pub struct GuideRoom {
    pub(crate) guides: Vec<Guide>,
}

impl Model for GuideRoom {
    ghost use Rattle.std.specs.Prelude.{List};
    ghost use Rattle.tree_runs.specs.Runs.{GuideState};

    ghost Value = { List GuideState };

    ghost view = { λ r. r.guides.items };
}

impl GuideRoom {
    /// Takes the memory for all that a store may come to whose C1' weighs so many bytes, or tells that it was refused: for each of five tags a
    /// filter with as many bits as the heaviest run that may have the tag weighs bytes, and the fences of as many pages as so much may fill. For C2
    /// and the deep merge's run that is as much as the components may weigh, for C1, C1' and the pass's run C1's mark and three half springs. A C1'
    /// that was read may be heavier than these, and has the room that it needs.
    pub fn reserve(alloc: Global, geo: &Geometry, c1x: u64) -> Result<GuideRoom, NoMemory>
        requires { c1x ≤ capacity geo.now }
        ensures guides { IfOk result (AreGuides geo.now first_tags) }
        ensures c1x { IfOk result (λ guides. IsReserved c1x (guide_at guides first_tags.c1x)) }
    {
        Ok(GuideRoom {
            guides: reserve_all(alloc, geo, c1x)?,
        })
    }

    /// None, for a reading that wants none: what is noted there is kept nowhere.
    pub fn none(alloc: Global) -> GuideRoom
        ensures { result ≡ [] }
    {
        GuideRoom {
            guides: Vec::new(alloc),
        }
    }

    /// Takes all keys and fences out of what a tag has, before the pages of a run are read that has it. Its filter has so many bits then; as many
    /// as the run weighs bytes make it tell keys apart.
    pub fn begin(&mut self, role: Role, bits: u64)
        requires { role < length self.old → rounded bits ≤ (guide_at self.old role).filter.reserved }
        ensures begun { role < length self.old → (guide_at self.new role ≡ empty_guide bits (guide_at self.old role)) × HasKeys
            (guide_at self.new role).filter [] }
        ensures rooms { KeepsRooms role self.old self.new }
    {
        let place = role.number() as usize;
        if place < self.guides.len() {
            self.guides[place].begin(bits);
        }
    }

    /// Notes the key that comes next on the pages of a tag, and where a page begins with it that page. There is a fence for it where there is room
    /// for one more and its key is above those of the pages before: so no fence is kept that a damaged component has too many of. It takes no memory.
    pub fn note(&mut self, role: Role, key: &Key, start: Option<PageStart>)
        ensures notes { role < length self.old → Notes key.now start (guide_at self.old role) (guide_at self.new role) }
        ensures rooms { KeepsRooms role self.old self.new }
    {
        let place = role.number() as usize;
        if place < self.guides.len() {
            self.guides[place].note(key, start);
        }
    }
}

// A pass over C1 that has taken nothing, and whose run's filter and fences are empty.
pub(crate) fn begin_snow(
    geo: &Geometry,
    c1: &Component,
    memory: u64,
    role: Role,
    guides: &mut Vec<Guide>,
) -> Snow
    requires five { length guides.old.items ≡ role_count }
    requires room { IsReserved (run_most geo.now) (guide_at guides.old.items role) }
    requires empty { c1.now.pages ≡ 0 → c1.now ≡ empty_component }
    ensures started { result ≡ started role c1.now }
    ensures guides { guides.new.items ≡ emptied role (pass_bits geo.now c1.now memory) guides.old.items }
    ensures others { KeepsOtherGuides role guides.old.items guides.new.items }
    ensures running { (sizes : Sizes) (honest : Bool) (file : List ℕ) (space : SpaceState) → PassRuns sizes honest file space (guide_at guides.new.items role) (Some result) }
    ensures pass { (sizes : Sizes) (file : List ℕ) (space : SpaceState) (a : Entries) (pages : List RunPage) → AreSorted a
        → ReadsAs sizes c1.now pages file → AreElsewhere space role pages
        → IsPassOver sizes file space (guide_at guides.new.items role) (Some result) a pages }
{
    let weight = c1.weight.saturating_add(memory).saturating_add(geo.half());
    let bits = weight.min(run_most(geo));
    let guide = &mut guides[role.number() as usize];
    Snow::begin(c1, role, bits, &mut guide.filter, &mut guide.fences)
}

// A deep merge of C1' and C2 that has taken nothing, and whose run's filter and fences are empty.
pub(crate) fn begin_deep(
    geo: &Geometry,
    c1x: &Component,
    c2: &Component,
    role: Role,
    guides: &mut Vec<Guide>,
) -> Deep
    requires five { length guides.old.items ≡ role_count }
    requires room { IsReserved (capacity geo.now) (guide_at guides.old.items role) }
    requires newer { c1x.now.pages ≡ 0 → c1x.now ≡ empty_component }
    requires older { c2.now.pages ≡ 0 → c2.now ≡ empty_component }
    ensures started { result ≡ deep_started role c1x.now c2.now }
    ensures guides { guides.new.items ≡ emptied role (deep_bits geo.now c1x.now c2.now) guides.old.items }
    ensures others { KeepsOtherGuides role guides.old.items guides.new.items }
    ensures running { (sizes : Sizes) (honest : Bool) (file : List ℕ) (space : SpaceState) → DeepRuns sizes honest file space (guide_at guides.new.items role) (Some result) }
    ensures merge { (sizes : Sizes) (file : List ℕ) (space : SpaceState) (newer older : List RunPage)
        → ReadsAs sizes c1x.now newer file → AreElsewhere space role newer → ReadsAs sizes c2.now older file → AreElsewhere space role older
        → IsDeepOver sizes file space (guide_at guides.new.items role) (Some result) newer older }
{
    let bits = c1x.weight.saturating_add(c2.weight).min(geo.capacity());
    let guide = &mut guides[role.number() as usize];
    Deep::begin(c1x, c2, role, bits, &mut guide.filter, &mut guide.fences)
}
