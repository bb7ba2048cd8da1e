//! How a turn of work ended.
ghost use Rattle.std.specs.Prelude.{◌≡◌};
ghost use Rattle.tree_machine.specs.Machine.{is_worked as is_worked_of};
ghost use Rattle.tree_machine.specs.Steps.{is_idle as is_idle_of};
ghost use Rattle.seat_book.specs.Turns.{turned_of};

use blsm_model::Why;

/// How a turn ended.
#[derive(Clone, Copy, PartialEq, Eq, Debug)]
pub enum Turned {
    /// It did something.
    Worked,
    /// There was nothing to do.
    Idle,
    /// All callers left.
    Closed,
    /// A call of the disk failed, which stopped the tree.
    Failed,
    /// This page was found damaged, which stopped the tree.
    BadPage(u32),
    /// The tree was stopped before, for this cause.
    Halted(Why),
}

impl Turned {
    /// Whether it did something.
    pub fn is_worked(&self) -> bool
        ensures { result ≡ is_worked_of (turned_of self.now) }
    {
        matches!(self, Turned::Worked)
    }

    /// Whether there was nothing to do.
    pub fn is_idle(&self) -> bool
        ensures { result ≡ is_idle_of (turned_of self.now) }
    {
        matches!(self, Turned::Idle)
    }
}
