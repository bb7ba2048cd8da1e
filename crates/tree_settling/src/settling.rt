//! The merges of an opening, in their order.
ghost use Rattle.std.specs.Prelude.{◌≡◌, ◌+◌, ◌<◌, ◌≤◌, ◌^◌, [], None, is_some, IsSome, IfOk, OnOk};
ghost use Rattle.blsm_model.specs.Sizes.{IsGeometry};
ghost use Rattle.record_delta.specs.Entries.{entries_weight};
ghost use Rattle.tree_log.specs.Log.{listed_in_a};
ghost use Rattle.tree_runs.specs.Runs.{left_for_deep};
ghost use Rattle.tree_settling.specs.Counting.{
  CountsPass,
  CountsQuanta,
  HasPassed,
  most_merges,
  pass_due,
  quanta_bound,
  settling_due,
  settling_least,
  untaken,
  where_so,
  where_some,
};
ghost use Rattle.tree_settling.specs.Settling.{HasBegun, IsSettled, MaySettle, Settles, taken_before};

use crate::taking::{take_deep, take_pass};
use blsm_model::Geometry;
use catalog_swap::Catalog;
use disk_trait::Disk;
use page_file::Broken;
use tree_log::LoggedTables;
use tree_runs::Runs;

// The deep merge that runs is gone on with to its end and swapped in.
fn finish_deep<D: Disk>(disk: &mut D, runs: &mut Runs, log: &LoggedTables) -> Result<u64, Broken>
    requires runs { IsSome runs.old.deep }
    requires may { MaySettle runs.old log.now (D.state disk.old) }
    requires version { runs.old.catalogue.version + 1 < 2 ^ 64 }
    ensures step { Settles 1 runs.old runs.new log.now log.now result (D.state disk.old) (D.state disk.new) }
    ensures counts { IfOk result (CountsQuanta 1 (left_for_deep runs.old.deep) (untaken runs.old.catalogue) runs.old runs.new) }
    ensures c1 { OnOk result (runs.new.catalogue.c1 ≡ runs.old.catalogue.c1) }
    ensures done { OnOk result (runs.new.deep ≡ None) }
{
    let quanta = take_deep(disk, runs, log.a())?;
    runs.swap_deep(disk)?;
    Ok(quanta)
}

// And so where one runs.
fn due_deep<D: Disk>(disk: &mut D, runs: &mut Runs, log: &LoggedTables) -> Result<u64, Broken>
    requires may { MaySettle runs.old log.now (D.state disk.old) }
    requires version { runs.old.catalogue.version + 1 < 2 ^ 64 }
    ensures step { Settles 1 runs.old runs.new log.now log.now result (D.state disk.old) (D.state disk.new) }
    ensures counts { IfOk result (CountsQuanta 1 (left_for_deep runs.old.deep)
        (where_so (is_some runs.old.deep) (untaken runs.old.catalogue)) runs.old runs.new) }
    ensures c1 { OnOk result (runs.new.catalogue.c1 ≡ runs.old.catalogue.c1) }
    ensures done { OnOk result (runs.new.deep ≡ None) }
{
    if runs.in_deep() {
        finish_deep(disk, runs, log)
    } else {
        Ok(0)
    }
}

// A pass takes table A and C1 and is swapped in. Table B is table A afterwards, and B is empty.
fn finish_pass<D: Disk>(
    disk: &mut D,
    runs: &mut Runs,
    log: &mut LoggedTables,
) -> Result<u64, Broken>
    requires rests { runs.old.deep ≡ None }
    requires may { MaySettle runs.old log.old (D.state disk.old) }
    requires version { runs.old.catalogue.version + 1 < 2 ^ 64 }
    ensures step { Settles 1 runs.old runs.new log.old log.new result (D.state disk.old) (D.state disk.new) }
    ensures counts { IfOk result (CountsQuanta 1 (runs.old.catalogue.c1.weight + listed_in_a log.old)
        (runs.old.catalogue.c1.weight + listed_in_a log.old) runs.old runs.new) }
    ensures passed { OnOk result (HasPassed (runs.old.catalogue.c1.weight + listed_in_a log.old) runs.old.sizes runs.new) }
    ensures a { OnOk result (log.new.a.entries ≡ log.old.b.entries) }
    ensures b { OnOk result (log.new.b.entries ≡ []) }
{
    runs.begin_pass(log.weight_of_a());
    let a = log.a();
    let quanta = take_pass(disk, runs, a)?;
    runs.swap_pass(disk, a)?;
    log.turn();
    Ok(quanta)
}

// Where either table has an entry a pass is swapped in, and where it is C1' then the deep merge that follows, too.
fn due_pass<D: Disk>(disk: &mut D, runs: &mut Runs, log: &mut LoggedTables) -> Result<u64, Broken>
    requires rests { runs.old.deep ≡ None }
    requires may { MaySettle runs.old log.old (D.state disk.old) }
    requires version { runs.old.catalogue.version + 2 < 2 ^ 64 }
    ensures step { Settles 2 runs.old runs.new log.old log.new result (D.state disk.old) (D.state disk.new) }
    ensures counts { IfOk result (CountsPass runs.old log.old runs.new) }
    ensures c1 { OnOk result (runs.new.catalogue.c1.weight ≤ runs.old.catalogue.c1.weight + listed_in_a log.old) }
    ensures done { OnOk result (runs.new.deep ≡ None) }
    ensures a { OnOk result (log.new.a.entries ≡ log.old.b.entries) }
    ensures b { OnOk result (log.new.b.entries ≡ []) }
{
    if log.is_empty() {
        return Ok(0);
    }
    let pass = finish_pass(disk, runs, log)?;
    let deep = due_deep(disk, runs, log)?;
    let quanta = pass + deep;
    Ok(quanta)
}

/// Settles a tree: a deep merge where C1' isn't empty; a pass for lane A where either lane has a record; and one for the lane that was B where it
/// has one; after each pass that is as heavy as C1's mark a deep merge. Nothing is paced. Gives how many quanta that took.
///
/// `Fault` comes just where the disk's count of faults rose, and `Damaged` never where the disk stands on a tree. After an `Err` each image shows
/// the map still, and the tree is to be read again.
pub fn settle<D: Disk>(disk: &mut D, runs: &mut Runs, log: &mut LoggedTables) -> Result<u64, Broken>
    requires may { MaySettle runs.old log.old (D.state disk.old) }
    requires version { runs.old.catalogue.version + 5 < 2 ^ 64 }

    // On an honest disk that shows a map each image of each moment reads as it, whatever is answered; and it is shown still once all is settled.
    ensures step { Settles 5 runs.old runs.new log.old log.new result (D.state disk.old) (D.state disk.new) }

    // On any disk:
    ensures counts { IfOk result (CountsQuanta (1 + most_merges (listed_in_a log.old) (entries_weight log.old.b.entries))
        (settling_least runs.old log.old) (settling_due runs.old log.old) runs.old runs.new) }
    // Components that had counted none count as many now.
    ensures counted { IfOk result (λ quanta. runs.old.quanta ≡ 0 → runs.new.quanta ≡ quanta) }
    ensures settled { OnOk result (IsSettled runs.new log.new) }
{
    let deep = due_deep(disk, runs, log)?;
    let first = due_pass(disk, runs, log)?;
    let second = due_pass(disk, runs, log)?;
    let passes = first + second;
    let quanta = deep + passes;
    Ok(quanta)
}

/// The most quanta that settling takes, by what the components and both tables weigh, in bytes: as many as all that its merges may take has whole
/// quanta, and one more for each of five merges. The deep merge that runs takes what is left of C1' and C2 behind what the catalogue says that it had
/// taken; a pass C1 and table A where either table has an entry, and another one C1 and both tables where table B has one; and each pass that may be
/// as heavy as C1's mark all that there is, once more.
pub fn most_quanta(runs: &Runs, log: &LoggedTables) -> u64
    requires begun { HasBegun runs.now log.now }
    requires geometry { IsGeometry runs.now.sizes }
    ensures { result ≡ quanta_bound runs.now.sizes (settling_due runs.now log.now) }
{
    let sizes = runs.geometry();
    let now = runs.catalogue();
    let (a, b) = (log.weight_of_a(), log.b().weight());
    let all = now.c1.weight + now.c1x.weight + now.c2.weight + (a + b);
    let passes = due_by_pass(&sizes, a + b, now.c1.weight + a, all)
        + due_by_pass(&sizes, b, now.c1.weight + a + b, all);
    (due_by_deep(runs, now) + passes) / sizes.quantum() + 5
}

// How much the deep merge takes that runs, if one does.
fn due_by_deep(runs: &Runs, now: &Catalog) -> u64
    requires small { now.now.c1x.weight + now.now.c2.weight < 2 ^ 64 }
    requires within { taken_before now.now.progress ≤ now.now.c1x.weight + now.now.c2.weight }
    ensures { result ≡ where_so (is_some runs.now.deep) (untaken now.now) }
{
    if runs.in_deep() {
        let both = now.c1x.weight + now.c2.weight;
        match &now.progress {
            None => both,
            Some(progress) => both - progress.z,
        }
    } else {
        0
    }
}

// How much a pass takes that has so many bytes before it, where the tables that it is for weigh something, and the deep merge that follows where its
// run may be as heavy as C1's mark.
fn due_by_pass(sizes: &Geometry, tables: u64, before: u64, all: u64) -> u64
    requires small { before + all < 2 ^ 64 }
    ensures { result ≡ where_some tables (pass_due sizes.now before all) }
{
    if tables == 0 {
        0
    } else if sizes.c1_mark() <= before {
        before + all
    } else {
        before
    }
}
