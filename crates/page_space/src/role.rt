//! The tags that pages have.
ghost use Rattle.std.specs.Prelude.{◌≡◌, ◌<◌};
ghost use Rattle.page_space.specs.Space.{role_count};

use std::marker::Model;

/// One of five tags. Which of them stands for which component or run, the map's owner decides. Contracts see the tag's number,
/// 0 to 4.
#[derive(Clone, Copy, PartialEq, Eq, Debug)]
pub struct Role(u8);

impl Model for Role {
    ghost use Rattle.std.specs.Prelude.{ℕ, ◌<◌};
    ghost use Rattle.page_space.specs.Space.{role_count};

    ghost Value = { ℕ };

    ghost view = { λ r. r.0 };

    ghost invariant = { λ r. r.0 < role_count };

    ghost inverse = { λ n. record { 0 = n } };
}

impl Role {
    /// How many tags there are.
    pub const COUNT: u8 = 5;

    /// The tag of a number.
    pub fn new(number: u8) -> Role
        requires { number < Role.COUNT }
        ensures { result ≡ number }
    {
        Role(number)
    }

    /// The tag's number.
    pub fn number(self) -> u8
        ensures number { result ≡ self }
        ensures in_range { result < Role.COUNT }
    {
        self.0
    }
}
