//! Which pages have which tag, which are pinned, and which are free.
ghost use Rattle.std.specs.Prelude.{◌≡◌, ◌<◌, ◌≤◌, ◌+◌, ◌↔◌, ◌⊎◌, ℕ, length, replicate, All, IsTrue, IfOk, IfSome, IfNone};
ghost use Rattle.page_space.specs.PageSet.{IsInSome, none_of, union};
ghost use Rattle.page_space.specs.Space.{pages_with, pins_of, HasRole, IsPinnedBy, IsFree, HasFree, IsLeastFree, IsSpace, unused, role_size};
ghost use Rattle.page_space.specs.Space.{pin_size, Claims, KeepsOtherRoles, KeepsOtherPins, PinsMore};

use crate::Role;
use bit_set::BitSet;
use blsm_model::CALLERS;
use refusal::NoMemory;
use std::alloc::Global;
use std::marker::Model;

/// The pages of a store: the tags that each has, and the seats that pin each. A page may have several tags and be pinned by
/// several seats; it is free where it has none and none pins it. Nothing but `reserve` takes memory.
#[derive(Debug, Drop)]
pub struct Space {
    pages: u32,
    // For each role, the pages that have its tag.
    roles: Vec<BitSet>,
    // For each seat, the pages that it pins.
    pins: Vec<BitSet>,
    // No page below this one is free.
    in_use_below: u32,
}

impl Model for Space {
    ghost use Rattle.page_space.specs.Space.{SpaceState, IsSearchedBelow};

    ghost Value = { SpaceState };

    ghost view = { λ s. record { pages = s.pages; roles = s.roles.items; pins = s.pins.items } };

    ghost invariant = { λ s. IsSearchedBelow (record { pages = s.pages; roles = s.roles.items; pins = s.pins.items }) s.in_use_below };
}

impl Space {
    /// A map of so many pages, all of them free. It takes 21 bits of memory for each at once; where that is refused there is
    /// no map.
    pub fn reserve(alloc: Global, pages: u32) -> Result<Space, NoMemory>
        ensures unused { IfOk result (λ space. space ≡ unused pages) }
        ensures shape { IfOk result IsSpace }
    {
        Ok(Space {
            pages,
            roles: reserve_sets(alloc, Role::COUNT as usize, pages)?,
            pins: reserve_sets(alloc, CALLERS as usize, pages)?,
            in_use_below: 0,
        })
    }

    /// How many pages there are, in use or free.
    pub fn pages(&self) -> u32
        ensures pages { result ≡ self.now.pages }
        ensures shape { IsSpace self.now }
    {
        self.pages
    }

    /// The least free page. The map stays as it is: until it is claimed the page stays free, and would be given again.
    pub fn take(&mut self) -> u32
        requires { HasFree self.old }
        ensures least { IsLeastFree self.old result }
        ensures same { self.new ≡ self.old }
    {
        match self.first_free() {
            Some(page) => {
                self.in_use_below = page;
                page
            }
            None => unreachable!(),
        }
    }

    /// Whether there is a free page. It looks for one; where there is room, there is one (`room_is_free`).
    pub fn has_free(&self) -> bool
        ensures { IsTrue result ↔ HasFree self.now }
    {
        self.first_free().is_some()
    }

    /// Gives a page a role's tag. It keeps the tags that it has.
    pub fn claim(&mut self, role: Role, page: u32)
        requires { page < self.old.pages }
        ensures { Claims role page self.old self.new }
    {
        let set = &mut self.roles[role.number() as usize];
        set.insert(u64::from(page));
    }

    /// Takes a role's tag from all its pages. Those that have no other tag and that no seat pins are free then.
    pub fn release(&mut self, role: Role)
        ensures this { pages_with self.new role ≡ none_of self.old.pages }
        ensures others { KeepsOtherRoles role self.old self.new }
        ensures pins { self.new.pins ≡ self.old.pins }
        ensures pages { self.new.pages ≡ self.old.pages }
        ensures shape { IsSpace self.new }
        // It frees none but the role's pages.
        ensures freed { (page : ℕ) → IsFree self.new page → (IsFree self.old page ⊎ HasRole self.old role page) }
        ensures size { role_size self.new role ≡ 0 }
    {
        let set = &mut self.roles[role.number() as usize];
        set.clear();
        self.in_use_below = 0;
    }

    /// Pins for a seat just the pages that have one of three tags now. What the seat pinned before it doesn't any more.
    /// A clause each for what the seats pin and for what the roles keep.
    pub fn pin(&mut self, seat: u32, c1: Role, c1x: Role, c2: Role)
        requires { seat < CALLERS }
        ensures this { pins_of self.new seat ≡ union (pages_with self.old c1) (union (pages_with self.old c1x) (pages_with self.old c2)) }
        ensures others { KeepsOtherPins seat self.old self.new }
        ensures roles { self.new.roles ≡ self.old.roles }
        ensures pages { self.new.pages ≡ self.old.pages }
        ensures shape { IsSpace self.new }
        ensures pinned { (page : ℕ) → IsPinnedBy self.new seat page ↔ (HasRole self.old c1 page ⊎ (HasRole self.old c1x page ⊎ HasRole self.old c2 page)) }
        // It frees none but pages that the seat had pinned.
        ensures freed { (page : ℕ) → IsFree self.new page → (IsFree self.old page ⊎ IsPinnedBy self.old seat page) }
        ensures size { pin_size self.new seat ≤ role_size self.old c1 + role_size self.old c1x + role_size self.old c2 }
    {
        let pins = &mut self.pins[seat as usize];
        pins.set_to_union(
            &self.roles[c1.number() as usize],
            &self.roles[c1x.number() as usize],
            &self.roles[c2.number() as usize],
        );
        self.in_use_below = 0;
    }

    /// Pins for a seat just the pages that have one of two tags now, as `pin` does of three.
    pub fn pin_two(&mut self, seat: u32, one: Role, other: Role)
        requires { seat < CALLERS }
        ensures this { pins_of self.new seat ≡ union (pages_with self.old one) (pages_with self.old other) }
        ensures others { KeepsOtherPins seat self.old self.new }
        ensures roles { self.new.roles ≡ self.old.roles }
        ensures pages { self.new.pages ≡ self.old.pages }
        ensures shape { IsSpace self.new }
        ensures pinned { (page : ℕ) → IsPinnedBy self.new seat page ↔ (HasRole self.old one page ⊎ HasRole self.old other page) }
        ensures freed { (page : ℕ) → IsFree self.new page → (IsFree self.old page ⊎ IsPinnedBy self.old seat page) }
        ensures size { pin_size self.new seat ≤ role_size self.old one + role_size self.old other }
    {
        self.pin(seat, one, one, other);
    }

    /// Pins one page more for a seat, whatever tags the page has.
    pub fn pin_page(&mut self, seat: u32, page: u32)
        requires seat { seat < CALLERS }
        requires page { page < self.old.pages }
        ensures { PinsMore seat page self.old self.new }
    {
        let pins = &mut self.pins[seat as usize];
        pins.insert(u64::from(page));
    }

    /// Whether a page has a role's tag; none has that isn't one of the map's.
    pub fn has(&self, role: Role, page: u32) -> bool
        ensures has { IsTrue result ↔ HasRole self.now role page }
        ensures inside { IsTrue result → page < self.now.pages }
    {
        if page >= self.pages {
            return false;
        }
        self.roles[role.number() as usize].has(u64::from(page))
    }

    /// Drops all pins of a seat.
    pub fn unpin(&mut self, seat: u32)
        requires { seat < CALLERS }
        ensures this { pins_of self.new seat ≡ none_of self.old.pages }
        ensures others { KeepsOtherPins seat self.old self.new }
        ensures roles { self.new.roles ≡ self.old.roles }
        ensures pages { self.new.pages ≡ self.old.pages }
        ensures shape { IsSpace self.new }
        // It frees none but pages that the seat had pinned.
        ensures freed { (page : ℕ) → IsFree self.new page → (IsFree self.old page ⊎ IsPinnedBy self.old seat page) }
        ensures size { pin_size self.new seat ≡ 0 }
    {
        let pins = &mut self.pins[seat as usize];
        pins.clear();
        self.in_use_below = 0;
    }

    // The least free page, if there is one.
    fn first_free(&self) -> Option<u32>
        ensures least { IfSome result (IsLeastFree self.now) }
        ensures none { IfNone result (¬ HasFree self.now) }
        ensures shape { IsSpace self.now }
    {
        for page in self.in_use_below..self.pages {
            if self.is_free(page) {
                return Some(page);
            }
        }
        None
    }

    /// Whether a page is free.
    pub fn is_free(&self, page: u32) -> bool
        requires { page < self.now.pages }
        ensures { IsTrue result ↔ IsFree self.now page }
    {
        !is_in_any(&self.roles, page) && !is_in_any(&self.pins, page)
    }
}

// So many empty sets.
fn reserve_sets(alloc: Global, count: usize, pages: u32) -> Result<Vec<BitSet>, NoMemory>
    ensures { IfOk result (λ sets. sets.items ≡ replicate count (none_of pages)) }
{
    let mut sets = Vec::with_capacity(alloc, count)?;
    for _ in 0..count {
        sets.push(BitSet::reserve(alloc, u64::from(pages))?)?;
    }
    Ok(sets)
}

fn is_in_any(sets: &[BitSet], page: u32) -> bool
    requires { All (λ set. page < length set) sets.now }
    ensures { IsTrue result ↔ IsInSome sets.now page }
{
    for set in sets {
        if set.has(u64::from(page)) {
            return true;
        }
    }
    false
}
