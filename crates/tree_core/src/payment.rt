//! Callers pay for their writes.
ghost use Rattle.std.specs.Prelude.{◌≡◌, ◌<◌, ◌+◌, ◌/◌, ℕ, Err, IsErr, IfOk, OnOk, IsTrue};
ghost use Rattle.blsm_model.specs.Format.{callers};
ghost use Rattle.blsm_model.specs.Geometry.{file_length};
ghost use Rattle.disk_trait.specs.Disk.{TellsFaultsBy};
ghost use Rattle.disk_trait.specs.Effects.{Affects};
ghost use Rattle.scan_view.specs.Pins.{beside_pins};
ghost use Rattle.tree_file.specs.Tree.{Tree};
ghost use Rattle.tree_runs.specs.Holding.{HasAllAhead, StandOver};
ghost use Rattle.core_moves.specs.Needs.{IsOn, IsReady};
ghost use Rattle.core_moves.specs.Moves.{KeepsAllButMerges};
ghost use Rattle.core_pace.specs.Events.{TakesByPlan};
ghost use Rattle.tree_core.specs.Calls.{Pays};
ghost use Rattle.tree_core.specs.Causes.{IsDamageAhead};
ghost use Rattle.tree_core.specs.Quanta.{MayTake, LeavesTaken};

use crate::{Core, Payment};
use blsm_model::Why;
use core_moves::Held;
use disk_trait::Disk;
use gear_sched::Plan;
use page_file::Broken;

// The caller's quantum of the merge that is planned.
fn take<D: Disk>(held: &mut Held, disk: &mut D, seat: u32, plan: Plan) -> Result<u64, Broken>
    requires seat { seat < callers }
    requires runs { MayTake plan held.old }
    requires ready { IsReady held.old (D.state disk.old) }
    ensures lists { (tree : Tree) → IsTrue (D.state disk.old).is_honest → StandOver held.old.runs tree (D.state disk.old)
        → HasAllAhead held.old.runs.pass held.old.log.a.entries tree → LeavesTaken plan result held.old held.new tree (D.state disk.old)
        (D.state disk.new) }
    ensures takes { IfOk result (λ n. TakesByPlan plan seat n held.old held.new) }
    ensures damaged { (n : ℕ) → result ≡ Err (Broken.Damaged n) → IsTrue (D.state disk.old).tells_bytes → IsDamageAhead plan held.new.runs n (D.state disk.new).bytes }
    ensures on { OnOk result (IsOn held.new (D.state disk.new)) }
    ensures kept { KeepsAllButMerges (IsErr result) held.old held.new }
    ensures effect { Affects (beside_pins held.old.runs.sizes held.old.runs.space.pins) (file_length held.old.runs.sizes) (held.old.runs.sizes.quantum / 4 + 3) (D.state disk.old) (D.state disk.new) }
    ensures faults { TellsFaultsBy (Err Broken.Fault) result (D.state disk.old) (D.state disk.new) }
{
    match plan {
        Plan::Snow => held.pass_quantum(disk, seat),
        Plan::Deep => held.deep_quantum(disk, seat),
        Plan::Nothing => unreachable!(),
    }
}

impl<D: Disk + Drop> Core<D> {
    /// Does at most one merge quantum for what the caller owes, once what may be forgiven of it is forgiven. The quantum counts for the
    /// entry of the caller's last write.
    #[inline(never)]
    pub fn pay(&mut self, seat: u32) -> Payment
        requires { seat < callers }
        ensures { Pays D.state seat result self.old self.new }
    {
        if let Some(why) = self.held.book.stopped() {
            return Payment::Stopped(why);
        }
        let plan = self.held.plan(seat);
        if let Plan::Nothing = plan {
            return Payment::Settled;
        }
        match take(&mut self.held, &mut self.disk, seat, plan) {
            Ok(_) => {
                self.held.book.count_for_write(seat);
                Payment::Paid
            }
            Err(Broken::Fault) => {
                self.held.book.stop(Why::Faulted(self.disk.faults()));
                Payment::Fault
            }
            Err(Broken::Damaged(page)) => {
                self.held.book.stop(Why::BadPage(page));
                Payment::Damaged(page)
            }
        }
    }
}
