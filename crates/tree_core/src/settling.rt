//! What is due before a write: the merges that are done are swapped in.
ghost use Rattle.std.specs.Prelude.{◌≡◌, ◌*◌, is_ok, IsTrue, IsErr, OnOk, OnErr};
ghost use Rattle.blsm_model.specs.Geometry.{file_length};
ghost use Rattle.disk_trait.specs.Disk.{TellsFaults};
ghost use Rattle.disk_trait.specs.Effects.{Affects};
ghost use Rattle.scan_view.specs.Pins.{beside_pins};
ghost use Rattle.tree_file.specs.Tree.{Tree};
ghost use Rattle.tree_runs.specs.Holding.{HasAllAhead, StandOver, LeavesSwapped};
ghost use Rattle.core_moves.specs.Held.{IsPassDone, IsDeepDone, is_run_full};
ghost use Rattle.core_moves.specs.Needs.{IsOn, IsReady};
ghost use Rattle.core_moves.specs.Moves.{SettlesDeep, SettlesPass, TurnsLog};
ghost use Rattle.core_lists.specs.Admissions.{DeepSettlesTree};
ghost use Rattle.tree_core.specs.Causes.{is_deep_due, is_pass_due, one_where};
ghost use Rattle.tree_core.specs.Taking.{PassMakesTree};

use core_moves::Held;
use disk_trait::Disk;
use refusal::Failed;

// Swaps the deep merge in where it is done.
pub(crate) fn settle_deep<D: Disk>(held: &mut Held, disk: &mut D) -> Result<(), Failed>
    requires ready { IsReady held.old (D.state disk.old) }
    ensures settles { OnOk result (SettlesDeep held.old held.new) }
    ensures due { IsErr result → IsDeepDone held.old }
    ensures lists { (tree : Tree) → IsTrue (D.state disk.old).is_honest → StandOver held.old.runs tree (D.state disk.old)
        → (next : Tree) × DeepSettlesTree held.old tree next
        × LeavesSwapped held.old.runs held.new.runs tree next (is_ok result) (D.state disk.old) (D.state disk.new) }
    ensures on { OnOk result (IsOn held.new (D.state disk.new)) }
    ensures kept { OnErr result (held.new ≡ held.old) }
    ensures effect { Affects (beside_pins held.old.runs.sizes held.old.runs.space.pins) (file_length held.old.runs.sizes) (9 * one_where (is_deep_due held.old)) (D.state disk.old) (D.state disk.new) }
    ensures faults { TellsFaults result (D.state disk.old) (D.state disk.new) }
{
    if held.runs.is_deep_done() {
        held.swap_deep(disk)
    } else {
        Ok(())
    }
}

// Swaps the pass in where it is done.
pub(crate) fn settle_pass<D: Disk>(held: &mut Held, disk: &mut D) -> Result<(), Failed>
    requires way { IsPassDone held.old → IsTrue (is_run_full held.old) → held.old.runs.deep ≡ None }
    requires ready { IsReady held.old (D.state disk.old) }
    ensures settles { OnOk result (SettlesPass held.old held.new) }
    ensures turns { OnOk result (IsPassDone held.old → TurnsLog held.old.log held.new.log) }
    ensures due { IsErr result → IsPassDone held.old }
    ensures lists { (tree : Tree) → IsTrue (D.state disk.old).is_honest → StandOver held.old.runs tree (D.state disk.old)
        → HasAllAhead held.old.runs.pass held.old.log.a.entries tree
        → (next : Tree) × PassMakesTree held.old tree next
        × LeavesSwapped held.old.runs held.new.runs tree next (is_ok result) (D.state disk.old) (D.state disk.new) }
    ensures on { OnOk result (IsOn held.new (D.state disk.new)) }
    ensures kept { OnErr result (held.new ≡ held.old) }
    ensures effect { Affects (beside_pins held.old.runs.sizes held.old.runs.space.pins) (file_length held.old.runs.sizes) (9 * one_where (is_pass_due held.old)) (D.state disk.old) (D.state disk.new) }
    ensures faults { TellsFaults result (D.state disk.old) (D.state disk.new) }
{
    if held.runs.is_pass_done(held.log.a()) {
        held.swap_pass(disk)
    } else {
        Ok(())
    }
}
