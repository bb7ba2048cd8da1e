//! Merges begin, and are swapped in.
ghost use Rattle.std.specs.Prelude.{◌≡◌, ◌+◌, ◌<◌, ◌^◌, ℕ, Bool, List, None, is_ok, if◌then◌else◌, IsTrue, OnOk, OnErr};
ghost use Rattle.disk_trait.specs.Disk.{TellsFaults};
ghost use Rattle.disk_trait.specs.Effects.{Affects};
ghost use Rattle.blsm_model.specs.Geometry.{file_length};
ghost use Rattle.gear_sched.specs.Gears.{pass_ended, rotated as gears_rotated};
ghost use Rattle.tree_file.specs.Tree.{Tree};
ghost use Rattle.tree_runs.specs.Runs.{AreRuns, AreRunning};
ghost use Rattle.scan_view.specs.Pins.{beside_pins};
ghost use Rattle.tree_runs.specs.Holding.{AreOf, HasAllAhead, StandOver, LeavesSwapped, IsDeepSwapped, IsPassSwapped, IsRotated};
ghost use Rattle.core_moves.specs.Held.{IsPassDone, IsDeepDone, is_run_full};
ghost use Rattle.core_moves.specs.Needs.{IsOn, IsReady};
ghost use Rattle.core_moves.specs.Moves.{SwapsDeepIn, SwapsPassIn, RotatesIn, TurnsLog, with_pass_begun, begun_in};

use crate::Held;
use disk_trait::Disk;
use gear_sched::Gears;
use refusal::Failed;
use spring_mark::must_begin;

// The gears once a pass was swapped in: where C1 was rotated with it a deep merge begins, over so many bytes of C1' and C2.
fn end_pass(gears: &mut Gears, rotated: bool, c1x: u64, c2: u64)
    requires { IsTrue rotated → c1x + c2 < 2 ^ 64 }
    ensures { gears.new ≡ (if rotated then gears_rotated (pass_ended gears.old) (c1x + c2) else pass_ended gears.old) }
{
    gears.end_pass();
    if rotated {
        gears.rotate(c1x + c2);
    }
}

impl Held {
    /// Swaps the deep merge in, which is done.
    ///
    /// After an `Err`, whose cause is a fault of the disk, all is as before in memory, and each image holds the tree as it was or as it
    /// would be. No merge is to be gone on with.
    pub fn swap_deep<D: Disk>(&mut self, disk: &mut D) -> Result<(), Failed>
        requires done { IsDeepDone self.old }
        requires ready { IsReady self.old (D.state disk.old) }
        ensures lists { (tree : Tree) → IsTrue (D.state disk.old).is_honest → StandOver self.old.runs tree (D.state disk.old)
            → (next : Tree) × IsDeepSwapped tree next
            × LeavesSwapped self.old.runs self.new.runs tree next (is_ok result) (D.state disk.old) (D.state disk.new) }
        ensures swaps { OnOk result (SwapsDeepIn self.old self.new) }
        ensures on { OnOk result (IsOn self.new (D.state disk.new)) }
        ensures kept { OnErr result (self.new ≡ self.old) }
        ensures effect { Affects (beside_pins self.old.runs.sizes self.old.runs.space.pins) (file_length self.old.runs.sizes) 9 (D.state disk.old) (D.state disk.new) }
        ensures faults { TellsFaults result (D.state disk.old) (D.state disk.new) }
    {
        self.runs.swap_deep(disk)?;
        self.gears.end_deep();
        self.book.count_deep();
        Ok(())
    }

    /// Swaps the pass in, which is done: table B is table A then. Where the new C1 is as heavy as its mark it is rotated, and a deep merge
    /// begins. An `Err` leaves what one of `swap_deep` leaves.
    /// A clause each for the lists of an honest disk, for what is in memory, for the merges, an `Err`, the calls and the faults.
    pub fn swap_pass<D: Disk>(&mut self, disk: &mut D) -> Result<(), Failed>
        requires done { IsPassDone self.old }
        requires way { IsTrue (is_run_full self.old) → self.old.runs.deep ≡ None }
        requires ready { IsReady self.old (D.state disk.old) }
        ensures lists { (tree : Tree) → IsTrue (D.state disk.old).is_honest → StandOver self.old.runs tree (D.state disk.old)
            → HasAllAhead self.old.runs.pass self.old.log.a.entries tree
            → (next : Tree) × IsPassSwapped (is_run_full self.old) tree next
            × LeavesSwapped self.old.runs self.new.runs tree next (is_ok result) (D.state disk.old) (D.state disk.new) }
        ensures swaps { OnOk result (SwapsPassIn self.old self.new) }
        ensures turns { OnOk result (TurnsLog self.old.log self.new.log) }
        ensures on { OnOk result (IsOn self.new (D.state disk.new)) }
        ensures kept { OnErr result (self.new ≡ self.old) }
        ensures effect { Affects (beside_pins self.old.runs.sizes self.old.runs.space.pins) (file_length self.old.runs.sizes) 9 (D.state disk.old) (D.state disk.new) }
        ensures faults { TellsFaults result (D.state disk.old) (D.state disk.new) }
    {
        let rotated = self.runs.swap_pass(disk, self.log.a())?;
        self.spring = self.log.b().weight();
        self.log.turn();
        let now = self.runs.catalogue();
        end_pass(&mut self.gears, rotated, now.c1x.weight, now.c2.weight);
        self.book.count_pass();
        Ok(())
    }

    /// Rotates C1 by itself, where no merge runs: it is C1' then, and a deep merge begins. An `Err` leaves what one of `swap_deep` leaves.
    pub fn rotate<D: Disk>(&mut self, disk: &mut D) -> Result<(), Failed>
        requires rests { (self.old.runs.pass ≡ None) × (self.old.runs.deep ≡ None) }
        requires ready { IsReady self.old (D.state disk.old) }
        ensures lists { (tree : Tree) → IsTrue (D.state disk.old).is_honest → StandOver self.old.runs tree (D.state disk.old)
            → (next : Tree) × IsRotated tree next
            × LeavesSwapped self.old.runs self.new.runs tree next (is_ok result) (D.state disk.old) (D.state disk.new) }
        ensures rotates { OnOk result (RotatesIn self.old self.new) }
        ensures on { OnOk result (IsOn self.new (D.state disk.new)) }
        ensures kept { OnErr result (self.new ≡ self.old) }
        ensures effect { Affects (beside_pins self.old.runs.sizes self.old.runs.space.pins) (file_length self.old.runs.sizes) 8 (D.state disk.old) (D.state disk.new) }
        ensures faults { TellsFaults result (D.state disk.old) (D.state disk.new) }
    {
        self.runs.rotate(disk)?;
        let now = self.runs.catalogue();
        self.gears.rotate(now.c1x.weight + now.c2.weight);
        Ok(())
    }

    /// A pass begins. It calls no device.
    pub fn begin_pass(&mut self)
        requires rests { self.old.runs.pass ≡ None }
        requires runs { AreRuns self.old.runs }
        ensures begun { self.new ≡ with_pass_begun self.old }
        ensures running { (honest : Bool) (file : List ℕ) → AreRunning honest file self.old.runs → AreRunning honest file self.new.runs }
        ensures lists { (tree : Tree) (file : List ℕ) → AreOf self.old.runs tree file → AreOf self.new.runs tree file }
    {
        let now = self.runs.catalogue();
        let memory = self.log.weight();
        self.gears.new_pass(now.c1.weight, memory);
        self.runs.begin_pass(memory);
    }

    /// A pass begins where none runs, and a write of this weight, in bytes, would bring the spring past its low mark.
    pub fn begin_for(&mut self, weight: u64)
        requires runs { AreRuns self.old.runs }
        ensures begun { self.new ≡ begun_in weight self.old }
        ensures running { (honest : Bool) (file : List ℕ) → AreRunning honest file self.old.runs → AreRunning honest file self.new.runs }
        ensures lists { (tree : Tree) (file : List ℕ) → AreOf self.old.runs tree file → AreOf self.new.runs tree file }
    {
        if !self.runs.in_pass() && must_begin(self.spring, weight, self.runs.geometry().low()) {
            self.begin_pass();
        }
    }
}
