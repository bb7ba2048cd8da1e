//! The store on a disk, opened and closed again.
ghost use Rattle.std.specs.Prelude.{◌≡◌, ◌≤◌, ◌+◌, ℕ, List, Err, max, length, IsTrue, IfOk, IfErr, OnOk};
ghost use Rattle.disk_trait.specs.Disk.{TellsFaultsBy};
ghost use Rattle.disk_trait.specs.Moments.{LeavesOnly};
ghost use Rattle.blsm_model.specs.Sizes.{Sizes};
ghost use Rattle.blsm_model.specs.declared.key.Key.{Key};
ghost use Rattle.blsm_model.specs.declared.row.Value.{Value};
ghost use Rattle.store_file.specs.Layout.{superblock_length};
ghost use Rattle.tree_file.specs.Tree.{ReadsAsMap};
ghost use Rattle.tree_reading.specs.First.{IsOfFile};
ghost use Rattle.tree_reading.specs.Reading.{IsWhy};
ghost use Rattle.recover_open.specs.Opening.{KeepsMapOf, ReadsAsNone};
ghost use Rattle.recover_open.specs.Settled.{ToldSettling};
ghost use Rattle.tree_session.specs.Faults.{Reaches};

use blsm_model::{CALLERS, Room};
use core_moves::Settled;
use disk_trait::Disk;
use recover_open::{Unreadable, open_store};
use std::alloc::Global;

/// Opens the store on a disk, which settles it, and closes it again, with room for no entry. Gives what settling took. The disk comes back whatever
/// happens. The refusals are those of `open_store`.
///
/// A clause for each thing that `run_over` says of a store that isn't opened, but here of each, and two of what was opened.
pub fn settle_over<D: Disk + Drop>(alloc: Global, disk: D) -> (D, Result<Settled, Unreadable>)
    ensures counts { IfOk result.1 (λ settled. ToldSettling settled (D.state disk) (D.state result.0)) }
    ensures reads { IsTrue (D.state disk).is_honest
        → OnOk result.1 ((sizes : Sizes) × (pairs : List (Key × Value)) × ReadsAsMap sizes pairs (D.state disk).bytes) }
    ensures refused { IsTrue (D.state disk).is_honest → IfErr result.1 (λ why. IsWhy why (D.state disk).bytes) }
    ensures reaches { (end : ℕ) × (calls : ℕ) × (IsTrue (D.state disk).tells_bytes → end ≤ max superblock_length (length (D.state disk).bytes))
        × Reaches end calls (D.state disk) (D.state result.0) }
    ensures faults { TellsFaultsBy (Err Unreadable.Fault) result.1 (D.state disk) (D.state result.0) }
    ensures one_fault { (D.state result.0).faults ≤ (D.state disk).faults + 1 }
    ensures spares { IsTrue (D.state disk).is_honest
        → IfErr result.1 (λ why. IsOfFile why → LeavesOnly (D.state disk) (D.state result.0) (D.state disk).images) }
    ensures keeps { (sizes : Sizes) (pairs : List (Key × Value)) → IsTrue (D.state disk).is_honest → ReadsAsMap sizes pairs (D.state disk).bytes
        → KeepsMapOf sizes pairs (D.state disk) (D.state result.0) }
    ensures untouched { IsTrue (D.state disk).is_honest → ReadsAsNone (D.state disk).bytes
        → LeavesOnly (D.state disk) (D.state result.0) (D.state disk).images }
{
    let none = Room {
        entries: [0; CALLERS as usize],
        rows: [0; CALLERS as usize],
    };
    match open_store(alloc, disk, none) {
        Ok(core) => {
            let settled = core.settle_counts();
            let (disk, _annals, _totals) = core.end();
            (disk, Ok(settled))
        }
        Err(refused) => (refused.disk, Err(refused.why)),
    }
}
