//! Quanta of the merges, and which merge a seat pays.
ghost use Rattle.std.specs.Prelude.{◌≡◌, ⊤, ◌+◌, ◌/◌, ◌<◌, IsErr, IsSome, IfOk, OnOk};
ghost use Rattle.disk_trait.specs.Effects.{Affects};
ghost use Rattle.blsm_model.specs.Format.{callers};
ghost use Rattle.blsm_model.specs.Geometry.{file_length};
ghost use Rattle.gear_sched.specs.Gears.{first_debt, second_debt, plan_for};
ghost use Rattle.record_delta.specs.Entries.{replayed};
ghost use Rattle.page_file.specs.Component.{entries_of};
ghost use Rattle.tree_machine.specs.Machine.{seats};
ghost use Rattle.tree_runs.specs.Damage.{PassMeetsDamage, DeepMeetsDamage};
ghost use Rattle.tree_log.specs.Log.{dropped_by};
ghost use Rattle.tree_runs.specs.Runs.{released_by};
ghost use Rattle.tree_runs.specs.Writing.{region_of_pass, region_of_deep};
ghost use Rattle.tree_runs.specs.Holding.{HasAllAhead, PassTook, DeepTook, TellsQuantum};
ghost use Rattle.core_moves.specs.Needs.{IsOn, IsReady};
ghost use Rattle.core_moves.specs.Moves.{TakesOfPass, TakesOfDeep, KeepsAllButMerges, with_debts_forgiven};

use crate::Held;
use disk_trait::Disk;
use gear_sched::Plan;
use page_file::Broken;
use tree_log::LoggedTables;
use tree_runs::Runs;

// Drops table A up to the key up to which all that the pass took is on pages that it has finished: lookups and holds read these in its place.
fn drop_released(runs: &Runs, log: &mut LoggedTables)
    ensures { log.new ≡ dropped_by (released_by runs.now.pass) log.old }
{
    if let Some(key) = runs.released() {
        log.drop_to(&key);
    }
}

impl Held {
    /// The seat, a caller's or a worker's, does a quantum of the pass. Gives the weight that it took, in bytes.
    ///
    /// `Damaged` names a page that isn't valid or doesn't go on; it never comes where the disk stands on a tree. `Fault` comes just where the
    /// disk's count of faults rose. After an `Err` the quantum isn't counted, and no merge is to be gone on with.
    pub fn pass_quantum<D: Disk>(&mut self, disk: &mut D, seat: u32) -> Result<u64, Broken>
        requires seat { seat < seats }
        requires runs { IsSome self.old.runs.pass }
        requires ready { IsReady self.old (D.state disk.old) }
        ensures told { TellsQuantum (HasAllAhead self.old.runs.pass self.old.log.a.entries) (self.old.runs.sizes.quantum / 7 + 2)
            (λ tree n. PassTook self.old.runs.sizes.quantum self.old.runs.pass self.new.runs.pass (replayed tree.lane_a.entries) (entries_of tree.c1) n)
            (PassMeetsDamage self.new.runs.sizes self.new.runs.pass) self.old.runs self.new.runs result (D.state disk.old) (D.state disk.new) }
        ensures writes { Affects (region_of_pass self.old.runs.sizes self.old.runs.space self.new.runs.space self.old.runs.pass)
            (file_length self.old.runs.sizes) (self.old.runs.sizes.quantum / 7 + 2) (D.state disk.old) (D.state disk.new) }
        ensures takes { IfOk result (λ n. TakesOfPass seat n self.old self.new) }
        ensures on { OnOk result (IsOn self.new (D.state disk.new)) }
        ensures kept { KeepsAllButMerges (IsErr result) self.old self.new }
    {
        match self.runs.pass_quantum(disk, self.log.a()) {
            Ok(taken) => {
                drop_released(&self.runs, &mut self.log);
                self.gears.took1(seat, taken);
                self.book.count_quantum(seat);
                Ok(taken)
            }
            Err(broken) => Err(broken),
        }
    }

    /// The seat does a quantum of the deep merge. It answers as `pass_quantum` does.
    pub fn deep_quantum<D: Disk>(&mut self, disk: &mut D, seat: u32) -> Result<u64, Broken>
        requires seat { seat < seats }
        requires runs { IsSome self.old.runs.deep }
        requires ready { IsReady self.old (D.state disk.old) }
        ensures told { TellsQuantum (λ tree. ⊤) (self.old.runs.sizes.quantum / 4 + 3)
            (λ tree n. DeepTook self.old.runs.sizes.quantum self.old.runs.deep self.new.runs.deep (entries_of tree.c1x) (entries_of tree.c2) n)
            (DeepMeetsDamage self.new.runs.sizes self.new.runs.deep) self.old.runs self.new.runs result (D.state disk.old) (D.state disk.new) }
        ensures writes { Affects (region_of_deep self.old.runs.sizes self.old.runs.space self.new.runs.space self.old.runs.deep)
            (file_length self.old.runs.sizes) (self.old.runs.sizes.quantum / 4 + 3) (D.state disk.old) (D.state disk.new) }
        ensures takes { IfOk result (λ n. TakesOfDeep seat n self.old self.new) }
        ensures on { OnOk result (IsOn self.new (D.state disk.new)) }
        ensures kept { KeepsAllButMerges (IsErr result) self.old self.new }
    {
        match self.runs.deep_quantum(disk, self.log.a()) {
            Ok(taken) => {
                self.gears.took2(seat, taken);
                self.book.count_quantum(seat);
                Ok(taken)
            }
            Err(broken) => Err(broken),
        }
    }

    /// Which merge the caller's next quantum goes to, once what may be forgiven of its debts is forgiven.
    pub fn plan(&mut self, seat: u32) -> Plan
        requires { seat < callers }
        ensures forgiven { self.new ≡ with_debts_forgiven seat self.old }
        ensures plan { result ≡ plan_for (first_debt self.new.gears seat) (second_debt self.new.gears seat) }
    {
        let pass_is_over = !self.runs.in_pass() || self.runs.is_pass_done(self.log.a());
        let deep_is_over = !self.runs.in_deep() || self.runs.is_deep_done();
        self.gears.plan(seat, pass_is_over, deep_is_over)
    }
}
