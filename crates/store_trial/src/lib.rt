//! A trial: a script that is made from a seed is run over an empty store in memory, whose disk can't fail.
#![tactic(auto)]

ghost use Rattle.std.specs.Prelude.{◌≤◌, IfOk};
ghost use Rattle.blsm_model.specs.Format.{most_lines};
ghost use Rattle.store_run.specs.Run.{run_of};
ghost use Rattle.store_trial.specs.Trial.{IsFreshStore, IsTrialOf};

use blsm_model::Geometry;
use disk_mem::FaultlessDisk;
use recover_open::{Unreadable, make_store};
use refusal::NoMemory;
use script_text::generate;
use std::alloc::Global;
use store_run::{Finished, run_in_order};

// The disk of an empty store of the default geometry. It has room for the store's file and no more, and no call within it fails.
fn made(alloc: Global) -> Result<FaultlessDisk, NoMemory>
    ensures { IfOk result (λ disk. IsFreshStore disk) }
{
    let geometry = Geometry::default();
    let mut disk = FaultlessDisk::new(alloc, geometry.length())?;
    match make_store(&mut disk, &geometry) {
        Ok(()) => Ok(disk),
        Err(_) => unreachable!(),
    }
}

/// Makes the script of so many commands from this seed and runs it over a new store, whose disk it gives back. Only want of memory keeps it from that.
#[inline(never)]
pub fn try_seed(alloc: Global, seed: u64, count: u32) -> Result<(FaultlessDisk, Finished), NoMemory>
    requires { count ≤ most_lines }
    ensures { IfOk result (λ tried. IsTrialOf seed count (run_of tried.1) tried.0) }
{
    let script = generate(alloc, seed, count)?;
    let disk = made(alloc)?;
    let (disk, outcome) = run_in_order(alloc, disk, script.lines(), script.room());
    match outcome {
        Ok(finished) => Ok((disk, finished)),
        Err(Unreadable::NoMemory) => Err(NoMemory),
        Err(_) => unreachable!(),
    }
}
