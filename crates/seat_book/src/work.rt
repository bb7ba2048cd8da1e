//! A caller's work since its last entry.
ghost use Rattle.std.specs.Prelude.{◌≡◌, ◌<◌, ◌≤◌};
ghost use Rattle.blsm_model.specs.Format.{most_turns};
ghost use Rattle.blsm_model.specs.Stored.{as_reply};
ghost use Rattle.tree_machine.specs.Machine.{no_work};
ghost use Rattle.tree_machine.specs.Steps.{work_reply};
ghost use Rattle.tree_machine.specs.Plays.{is_finished};
ghost use Rattle.seat_book.specs.Turns.{turned_of};
ghost use Rattle.seat_book.specs.State.{with_ended};

use crate::Turned;
use blsm_model::{ShortReply, Why};
use std::marker::Model;

// The turns that a caller's open work had, how many of them weren't idle, the quanta that they took, and how the last one ended.
#[derive(Clone, Copy)]
pub struct Work {
    turns: u32,
    worked: u32,
    quanta: u32,
    last: Turned,
}

impl Model for Work {
    ghost use Rattle.std.specs.Prelude.{◌≤◌};
    ghost use Rattle.tree_machine.specs.Machine.{WorkSoFar};
    ghost use Rattle.blsm_model.specs.Format.{most_turns};
    ghost use Rattle.seat_book.specs.Turns.{turned_of, code_of, code_of-turned_of};

    ghost Value = { WorkSoFar };

    ghost view = { λ w. record { turns = w.turns; worked = w.worked; quanta = w.quanta; last = turned_of w.last } };

    ghost invariant = { λ w. (w.worked ≤ w.turns) × (w.quanta ≤ w.turns) × (w.turns ≤ most_turns) };

    ghost inverse = { λ v. record { turns = v.turns; worked = v.worked; quanta = v.quanta; last = code_of v.last } };

    ghost inverse_ok = { λ w _ i. record { turns = w.turns; worked = w.worked; quanta = w.quanta; last = code_of-turned_of w.last i } };
}

impl Work {
    // How many turns a work has at most.
    pub const MOST_TURNS: u32 = 100_000;

    // No turn was done.
    pub fn none() -> Work
        ensures { result ≡ no_work }
    {
        Work {
            turns: 0,
            worked: 0,
            quanta: 0,
            last: Turned::Idle,
        }
    }

    // With a turn more, which ended so and took so many quanta.
    pub fn with_ended(&self, ended: Turned, quanta: u32) -> Work
        requires turns { self.now.turns < most_turns }
        requires quanta { quanta ≤ 1 }
        ensures { result ≡ with_ended self.now (turned_of ended) quanta }
    {
        let more = if ended.is_idle() { 0 } else { 1 };
        Work {
            turns: self.turns + 1,
            worked: self.worked + more,
            quanta: self.quanta + quanta,
            last: ended,
        }
    }

    pub fn turns(&self) -> u32
        ensures { result ≡ self.now.turns }
    {
        self.turns
    }

    pub fn quanta(&self) -> u32
        ensures { result ≡ self.now.quanta }
    {
        self.quanta
    }

    // Whether a work of n turns is finished: all were made, or the last one did nothing.
    pub fn is_finished(&self, n: u32) -> bool
        ensures { result ≡ is_finished n self.now }
    {
        self.turns == n || (0 < self.turns && self.turns < n && !self.last.is_worked())
    }

    // What its entry replies: how many turns weren't idle, that its own last turn failed, or that the tree was stopped.
    pub fn reply(&self, stopped: Option<Why>) -> ShortReply
        ensures { as_reply result ≡ work_reply self.now stopped }
    {
        match (self.last, stopped) {
            (Turned::Failed, _) => ShortReply::Fault,
            (Turned::BadPage(page), _) => ShortReply::Damaged(page),
            (_, Some(why)) => ShortReply::Stopped(why),
            (_, None) => ShortReply::Did(self.worked),
        }
    }
}
