//! The fences of a sorted run.
ghost use Rattle.std.specs.Prelude.{◌≡◌, ◌<◌, ◌≤◌, ◌↔◌, ◌++◌, ◌∷◌, [], ℕ, List, Option, length, map, IsNone, IsTrue, IfSome, IfOk};
ghost use Rattle.blsm_model.specs.Sizes.{Sizes};
ghost use Rattle.page_file.specs.Component.{RunPage, ReadsOn, numbers_of};
ghost use Rattle.bloom_bits.specs.Fences.{IsAboveAll, IsBelowAll, IsPlaceOf};
ghost use Rattle.bloom_bits.specs.Guides.{fences_of};
ghost use Rattle.bloom_bits.specs.Parts.{IsPartFrom, AreFencesOf, ReadsFrom, last_fences};

use blsm_model::{Component, Key};
use refusal::NoMemory;
use std::alloc::Global;
use std::marker::Model;

/// What is known of one page of a sorted run without a look at it.
#[derive(PartialEq, Eq, Debug, Drop)]
pub struct Fence {
    /// The first key on the page.
    pub first: Key,
    /// The page's number.
    pub page: u32,
    /// How many entries stand on the run's pages before it.
    pub entries: u64,
    /// The weight of these together, in bytes.
    pub weight: u64,
}

/// The fences of a sorted run, one a page. Contracts see the list of them, and how many there may be.
#[derive(Debug, Drop)]
pub struct Fences {
    fences: Vec<Fence>,
    reserved: u32,
}

impl Model for Fences {
    ghost use Rattle.std.specs.Vec.{vec_capacity};
    ghost use Rattle.bloom_bits.specs.Fences.{FencesState, AreFences};

    ghost Value = { FencesState };

    ghost view = { λ f. record { reserved = f.reserved; list = f.fences.items } };

    ghost invariant = { λ f. AreFences f.fences.items f.reserved (vec_capacity f.fences) };
}

impl Fences {
    /// Room for the fences of so many pages, and none of them. `NoMemory` where memory is refused.
    pub fn reserve(alloc: Global, pages: u32) -> Result<Fences, NoMemory>
        ensures { IfOk result (λ fences. fences ≡ record { reserved = pages; list = [] }) }
    {
        Ok(Fences {
            fences: Vec::with_capacity(alloc, pages as usize)?,
            reserved: pages,
        })
    }

    /// Removes all fences.
    pub fn clear(&mut self)
        ensures { self.new ≡ record { reserved = self.old.reserved; list = [] } }
    {
        self.fences.clear();
    }

    /// Whether a fence with this first key may be pushed: there is room for one more, and the key is above those of the pages before.
    pub fn takes(&self, first: &Key) -> bool
        ensures { IsTrue result ↔ ((length self.now.list < self.now.reserved) × IsAboveAll first.now self.now.list) }
    {
        let count = self.fences.len();
        if count >= self.reserved as usize {
            return false;
        }
        if count == 0 {
            return true;
        }
        self.fences[count - 1].first.cmp(first).is_lt()
    }

    /// The fence of one page more, whose first key is above those of the pages before. There must be room for it.
    pub fn push(&mut self, fence: Fence)
        requires room { length self.old.list < self.old.reserved }
        requires above { IsAboveAll fence.first self.old.list }
        ensures { self.new ≡ record { reserved = self.old.reserved; list = self.old.list ++ fence ∷ [] } }
    {
        self.fences.push_reserved(fence);
    }

    // The fence of the only page that can have this key, and how many stand before it.
    fn place_of(&self, key: &Key) -> Option<(usize, &Fence)>
        ensures some { IfSome result (λ p. (place : IsPlaceOf key.now p.1.now.page self.now.list) × (place.fence ≡ p.1.now) × (length place.before ≡ p.0)) }
        ensures none { IsNone result ↔ IsBelowAll key.now self.now.list }
    {
        let behind = self
            .fences
            .partition_point(|fence| fence.first.cmp(key).is_le());
        if behind == 0 {
            return None;
        }
        Some((behind - 1, &self.fences[behind - 1]))
    }

    /// The number of the only page that can have this key: the last one whose first key isn't above it. `None` exactly where the key
    /// is below every first key.
    pub fn page_of(&self, key: &Key) -> Option<u32>
        ensures some { IfSome result (λ page. IsPlaceOf key.now page self.now.list) }
        ensures none { IsNone result ↔ IsBelowAll key.now self.now.list }
    {
        match self.place_of(key) {
            Some((_, fence)) => Some(fence.page),
            None => None,
        }
    }

    /// The part of a run from the only page on that can have this key, as a run of its own; all of it where the key is below every
    /// first key.
    pub fn part_from(&self, key: &Key, run: &Component) -> Component
        ensures part { IsPartFrom key.now self.now.list run.now result }
        // Where the fences are those of the pages that the run reads as, the part reads as these from that page on, and no entry before it
        // has the key or a greater one.
        ensures reads { (sizes : Sizes) (pages : List RunPage) (next : Option ℕ) (file : List ℕ) → AreFencesOf self.now.list pages
            → ReadsOn sizes run.now pages next file → ReadsFrom sizes key.now result pages next file }
        ensures few { result.pages ≤ run.now.pages }
        ensures none { result.pages ≡ 0 → result ≡ run.now }
    {
        let Some((before, fence)) = self.place_of(key) else {
            return *run;
        };
        if before >= run.pages as usize {
            return *run;
        }
        Component {
            first: fence.page,
            pages: run.pages - before as u32,
            entries: run.entries.saturating_sub(fence.entries),
            weight: run.weight.saturating_sub(fence.weight),
        }
    }

    /// The fences of a part's pages, which are the last ones of a run; of a part that is longer than the run, those of the first so many. There may
    /// be fewer, where the fences aren't the run's.
    pub fn last_of(&self, run: &Component, part: &Component) -> &[Fence]
        ensures fences { result.now ≡ last_fences run.now part.now self.now.list }
        // Where the fences are those of the pages that the run reads as, and of others behind them, they have the numbers of the part's pages.
        ensures numbers { (sizes : Sizes) (before ahead behind : List RunPage) (next : Option ℕ) (file : List ℕ)
            → self.now.list ≡ fences_of ((before ++ ahead) ++ behind) → ReadsOn sizes run.now (before ++ ahead) next file
            → length ahead ≡ part.now.pages → map (λ f. f.page) result.now ≡ numbers_of ahead }
    {
        let from = self
            .fences
            .len()
            .min(run.pages.saturating_sub(part.pages) as usize);
        let behind = &self.fences[from..];
        &behind[..behind.len().min(part.pages as usize)]
    }
}
