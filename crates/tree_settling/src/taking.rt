//! A merge that is gone on with until it has taken all.
ghost use Rattle.std.specs.Prelude.{◌≡◌, length, is_some, IsTrue, IsSome, IfOk, OnOk};
ghost use Rattle.blsm_model.specs.Geometry.{file_length};
ghost use Rattle.tree_settling.specs.Counting.{TakeQuanta};
ghost use Rattle.tree_settling.specs.Settling.{TakesAll};
ghost use Rattle.tree_runs.specs.Holding.{CountsMore};
ghost use Rattle.tree_runs.specs.Runs.{AreRunning, Fits, left_for_deep, left_for_pass};

use disk_trait::Disk;
use mem_table::Table;
use page_file::Broken;
use tree_runs::Runs;

/// The deep merge goes on until it has taken all of C1' and C2. Gives how many quanta that were; else it answers as a quantum does.
pub(crate) fn take_deep<D: Disk>(disk: &mut D, runs: &mut Runs, a: &Table) -> Result<u64, Broken>
    requires runs { IsSome runs.old.deep }
    requires length { IsTrue (D.state disk.old).tells_bytes → length (D.state disk.old).bytes ≡ file_length runs.old.sizes }
    requires running { AreRunning (D.state disk.old).is_honest (D.state disk.old).bytes runs.old }
    requires fits { Fits runs.old a.now.entries }
    ensures takes { TakesAll a.now.entries (left_for_deep runs.old.deep) runs.old runs.new result (D.state disk.old) (D.state disk.new) }
    ensures counts { IfOk result (λ quanta. TakeQuanta runs.old.sizes 1 quanta (left_for_deep runs.old.deep)) }
    ensures counted { IfOk result (λ quanta. CountsMore quanta runs.old runs.new) }
    ensures done { OnOk result (IsTrue (is_some runs.new.deep) × (left_for_deep runs.new.deep ≡ 0)) }
    ensures pass { OnOk result (runs.new.pass ≡ runs.old.pass) }
{
    let mut quanta = 0;
    while !runs.is_deep_done() {
        runs.deep_quantum(disk, a)?;
        quanta += 1;
    }
    Ok(quanta)
}

/// The pass goes on until it has taken all of table A and C1. Gives how many quanta that were; else it answers as a quantum does.
pub(crate) fn take_pass<D: Disk>(disk: &mut D, runs: &mut Runs, a: &Table) -> Result<u64, Broken>
    requires runs { IsSome runs.old.pass }
    requires length { IsTrue (D.state disk.old).tells_bytes → length (D.state disk.old).bytes ≡ file_length runs.old.sizes }
    requires running { AreRunning (D.state disk.old).is_honest (D.state disk.old).bytes runs.old }
    requires fits { Fits runs.old a.now.entries }
    ensures takes { TakesAll a.now.entries (left_for_pass runs.old.pass a.now.entries) runs.old runs.new result (D.state disk.old) (D.state disk.new) }
    ensures counts { IfOk result (λ quanta. TakeQuanta runs.old.sizes 1 quanta (left_for_pass runs.old.pass a.now.entries)) }
    ensures counted { IfOk result (λ quanta. CountsMore quanta runs.old runs.new) }
    ensures done { OnOk result (IsTrue (is_some runs.new.pass) × (left_for_pass runs.new.pass a.now.entries ≡ 0)) }
    ensures deep { OnOk result (runs.new.deep ≡ runs.old.deep) }
{
    let mut quanta = 0;
    while !runs.is_pass_done(a) {
        runs.pass_quantum(disk, a)?;
        quanta += 1;
    }
    Ok(quanta)
}
