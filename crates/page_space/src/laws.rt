//! What holds of maps. The function does nothing: it stands for the law that its clause names.
ghost use Rattle.std.specs.Prelude.{◌+◌, ◌*◌, ◌<◌, ℕ};
ghost use Rattle.page_space.specs.Space.{SpaceState, HasFree, IsSpace, IsWithin, seat_count};

/// Where the roles' pages, and each seat's share of pins, don't fill the map, a page is free. So nobody has to look for one.
pub fn room_is_free()
    ensures { (space : SpaceState) (live share : ℕ) → IsSpace space → IsWithin live share space → live + seat_count * share < space.pages
        → HasFree space }
{}
