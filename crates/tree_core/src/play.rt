//! Lists of steps.
ghost use Rattle.std.specs.Prelude.{◌≡◌, ◌<◌, ◌∷◌, [], ℕ, List, IsTrue};
ghost use Rattle.blsm_model.specs.declared.key.Key.{Key};
ghost use Rattle.blsm_model.specs.declared.row.Value.{Value};
ghost use Rattle.blsm_model.specs.Format.{callers};
ghost use Rattle.disk_trait.specs.Disk.{GoesOn};
ghost use Rattle.tree_machine.specs.Machine.{Machine};
ghost use Rattle.tree_machine.specs.declared.step.Kind.TheVariants as kind;
ghost use Rattle.tree_core.specs.Calls.{IsCall};
ghost use Rattle.tree_core.specs.Core.{CoreState};
ghost use Rattle.tree_core.specs.Holds.{StandsWhole};
ghost use Rattle.tree_core.specs.Steps.{IsPlayed, StandsSince, admits_fit, is_even_in, may_in, those_that_fit};

use crate::Core;
use blsm_model::{CALLERS, Op, RowList};
use disk_trait::Disk;
use std::alloc::Global;
use tree_machine::{Kind, Step};

// Callers, and eight workers.
const SEATS: u32 = CALLERS + 8;

// Whether a tail that the step admits has 1 to 64 bytes.
fn fits(step: &Step) -> bool
    ensures { result ≡ admits_fit step.now.kind }
{
    match &step.kind {
        Kind::Admit(op) => op.fits(),
        _ => true,
    }
}

impl<D: Disk + Drop> Core<D> {
    // Whether the seat owes nothing, or the store is stopped.
    fn is_even(&self, seat: u32) -> bool
        requires { seat < callers }
        ensures { result ≡ is_even_in seat self.now.held }
    {
        !self.held.gears.owes(seat) || self.held.book.stopped().is_some()
    }

    // Whether the step's condition holds.
    fn may(&self, step: &Step) -> bool
        ensures { result ≡ may_in self.now.held step.now.seat step.now.kind }
    {
        let seat = step.seat;
        match &step.kind {
            Kind::Admit(op) => {
                op.is_write() && self.held.book.may_note(seat, 0) && self.is_even(seat)
            }
            Kind::Pay | Kind::Leave => seat < CALLERS,
            Kind::Look(op) => op.is_look() && self.held.book.may_note(seat, 0),
            Kind::Hold(..) | Kind::Release => self.held.book.may_note(seat, 0),
            Kind::Next(n) => self.held.book.may_note(seat, *n)
                && 0 < *n
                && *n as usize <= RowList::MAX_LEN,
            Kind::WorkTurn => self.held.book.may_turn(seat) && self.is_even(seat),
            Kind::WorkEnd(n) => self.held.book.may_end(seat, *n),
            Kind::WorkerTurn => CALLERS <= seat && seat < SEATS,
        }
    }

    // Answers a command that only looks.
    fn look(&mut self, seat: u32, op: &Op)
        requires may { IsTrue (may_in self.old.held seat (kind.Look op.now)) }
        ensures { IsCall D.state seat (kind.Look op.now) self.old self.new }
    {
        if let Op::Get(key) = op {
            let _ = self.get(seat, key);
        }
    }

    // Makes a step whose condition holds.
    fn step(&mut self, alloc: Global, step: &Step)
        requires may { IsTrue (may_in self.old.held step.now.seat step.now.kind) }
        requires fits { IsTrue (admits_fit step.now.kind) }
        ensures played { (opening : List (Key × Value)) (m : Machine) → IsTrue (D.state self.old.disk).is_honest
            → StandsWhole D.state opening self.old m → IsPlayed D.state opening (step.now ∷ []) self.old self.new m }
        ensures goes_on { GoesOn (D.state self.old.disk) (D.state self.new.disk) }
        ensures lasts { (start : CoreState D) → StandsSince D.state start self.old → StandsSince D.state start self.new }
    {
        let seat = step.seat;
        match &step.kind {
            Kind::Admit(op) => {
                let _ = self.admit(seat, op);
            }
            Kind::Pay => {
                let _ = self.pay(seat);
            }
            Kind::Look(op) => self.look(seat, op),
            Kind::Hold(low, high) => {
                let _ = self.hold(alloc, seat, low, high);
            }
            Kind::Next(n) => {
                let _ = self.next_rows(seat, *n);
            }
            Kind::Release => {
                let _ = self.drop_hold(seat);
            }
            Kind::WorkTurn => {
                let _ = self.work_turn(seat);
            }
            Kind::WorkEnd(n) => {
                let _ = self.work_end(seat, *n);
            }
            Kind::WorkerTurn => {
                let _ = self.worker_turn(seat);
            }
            Kind::Leave => self.leave(seat),
        }
    }

    // Makes a step where its condition holds.
    fn try_step(&mut self, alloc: Global, step: &Step)
        ensures played { (opening : List (Key × Value)) (m : Machine) → IsTrue (D.state self.old.disk).is_honest
            → StandsWhole D.state opening self.old m → IsPlayed D.state opening (those_that_fit (step.now ∷ [])) self.old self.new m }
        ensures goes_on { GoesOn (D.state self.old.disk) (D.state self.new.disk) }
        ensures lasts { (start : CoreState D) → StandsSince D.state start self.old → StandsSince D.state start self.new }
    {
        if !fits(step) {
            return;
        }
        if self.may(step) {
            self.step(alloc, step);
        }
    }

    /// Makes each of these steps whose condition holds, one after another, and passes over the others, and over tails that don't have 1 to 64 bytes. A hold
    /// takes its memory of `alloc`.
    pub fn play(&mut self, alloc: Global, steps: &[Step])
        ensures played { (opening : List (Key × Value)) (m : Machine) → IsTrue (D.state self.old.disk).is_honest
            → StandsWhole D.state opening self.old m → IsPlayed D.state opening (those_that_fit steps.now) self.old self.new m }
        ensures goes_on { GoesOn (D.state self.old.disk) (D.state self.new.disk) }
        ensures lasts { (start : CoreState D) → StandsSince D.state start self.old → StandsSince D.state start self.new }
    {
        for step in steps {
            self.try_step(alloc, step);
        }
    }
}
