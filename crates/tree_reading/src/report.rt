//! What checking a store tells.
ghost use Rattle.std.specs.Prelude.{Err, IsTrue, IfOk, IfErr};
ghost use Rattle.disk_trait.specs.Disk.{TellsFaultsBy};
ghost use Rattle.tree_reading.specs.Reading.{HasLooked, IsWhy, reading_calls};
ghost use Rattle.tree_reading.specs.Report.{IsReportOf};

use crate::found::Unreadable;
use crate::reading::{Purpose, read_tree};
use blsm_model::Component;
use disk_trait::Disk;
use std::alloc::Global;

/// The numbers of a store that reads.
#[derive(Clone, Copy, PartialEq, Eq, Debug)]
pub struct Report {
    /// The newest catalogue's version.
    pub version: u64,
    /// C1, C1' and C2 as that catalogue has them.
    pub c1: Component,
    pub c1x: Component,
    pub c2: Component,
    /// How many entries lanes A and B have.
    pub lane_a: u64,
    pub lane_b: u64,
}

/// Reads the store on a disk and tells its numbers, with no filters and fences. It refuses as `read_tree` does, and writes nothing and calls no sync.
pub fn check_store<D: Disk>(alloc: Global, disk: &mut D) -> Result<Report, Unreadable>
    ensures tells { IsTrue (D.state disk.old).is_honest → IfOk result (λ report. IsReportOf report (D.state disk.old).bytes) }
    ensures refused { IsTrue (D.state disk.old).is_honest → IfErr result (λ why. IsWhy why (D.state disk.old).bytes) }
    ensures faults { TellsFaultsBy (Err Unreadable.Fault) result (D.state disk.old) (D.state disk.new) }
    ensures looked { HasLooked reading_calls (D.state disk.old) (D.state disk.new) }
{
    let found = read_tree(alloc, disk, Purpose::Check)?;
    Ok(Report {
        version: found.catalogue.version,
        c1: found.catalogue.c1,
        c1x: found.catalogue.c1x,
        c2: found.catalogue.c2,
        lane_a: found.records_a,
        lane_b: found.records_b,
    })
}
