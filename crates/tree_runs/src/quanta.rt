//! Quanta of the merges.
ghost use Rattle.std.specs.Prelude.{◌≡◌, ⊤, ◌+◌, ◌/◌, ℕ, length, IsTrue, IsErr, IsSome, IfOk, OnOk};
ghost use Rattle.disk_trait.specs.Effects.{Affects};
ghost use Rattle.blsm_model.specs.Geometry.{file_length};
ghost use Rattle.record_delta.specs.Entries.{replayed};
ghost use Rattle.page_file.specs.Component.{entries_of};
ghost use Rattle.merge_ends.specs.Output.{IsUpTo};
ghost use Rattle.tree_runs.specs.Runs.{AreRunning, Fits, PassCovers, released_by};
ghost use Rattle.tree_runs.specs.Damage.{PassMeetsDamage, DeepMeetsDamage};
ghost use Rattle.tree_runs.specs.Writing.{region_of_pass, region_of_deep};
ghost use Rattle.tree_runs.specs.Holding.{CountsMore, HasAllAhead, KeepsAllButPass, KeepsAllButDeep, PassTakes, PassTook, DeepTakes, DeepTook};
ghost use Rattle.tree_runs.specs.Holding.{TellsQuantum, cursor_of_pass, cursor_of_deep};

use crate::runs::Runs;
use disk_trait::Disk;
use mem_table::Table;
use page_file::Broken;

impl Runs {
    /// The pass takes a quantum of table A and C1, and gives the weight that it took.
    ///
    /// `Damaged` names a page of C1 that isn't valid or doesn't go on; it never comes where the disk stands on a tree. `Fault` comes just
    /// where the disk's count of faults rose. After an `Err` the quantum isn't counted, and no merge is to be gone on with.
    ///
    /// One clause is on the disk and the lists; the others are on numbers, and on what stays.
    pub fn pass_quantum<D: Disk>(&mut self, disk: &mut D, a: &Table) -> Result<u64, Broken>
        requires runs { IsSome self.old.pass }
        requires length { IsTrue (D.state disk.old).tells_bytes → length (D.state disk.old).bytes ≡ file_length self.old.sizes }
        requires running { AreRunning (D.state disk.old).is_honest (D.state disk.old).bytes self.old }
        requires fits { Fits self.old a.now.entries }
        ensures told { TellsQuantum (HasAllAhead self.old.pass a.now.entries) (self.old.sizes.quantum / 7 + 2)
            (λ tree n. PassTook self.old.sizes.quantum self.old.pass self.new.pass (replayed tree.lane_a.entries) (entries_of tree.c1) n)
            (PassMeetsDamage self.new.sizes self.new.pass) self.old self.new result (D.state disk.old) (D.state disk.new) }
        // It writes the page that was open, and pages that the run takes: none that was closed.
        ensures writes { Affects (region_of_pass self.old.sizes self.old.space self.new.space self.old.pass) (file_length self.old.sizes)
            (self.old.sizes.quantum / 7 + 2) (D.state disk.old) (D.state disk.new) }
        // On any disk what was taken and what is left add up, and it is a quantum or all that was left.
        ensures takes { IfOk result (PassTakes self.old.sizes.quantum self.old.pass self.new.pass a.now.entries) }
        // What was taken and isn't on finished pages stays light, and the key up to which all is on them never falls.
        ensures covers { (total : ℕ) → PassCovers total self.old.pass a.now.entries
            → OnOk result (PassCovers total self.new.pass a.now.entries × IsUpTo (released_by self.old.pass) (released_by self.new.pass)) }
        ensures kept { IsErr result → cursor_of_pass self.new.pass ≡ cursor_of_pass self.old.pass }
        ensures runs { IsSome self.new.pass }
        ensures others { KeepsAllButPass self.old self.new }
        ensures counted { OnOk result (CountsMore 1 self.old self.new) }
    {
        let merges = &mut *self.merges;
        match &mut merges.pass {
            Some(snow) => {
                let guide = &mut self.guides[self.pass.number() as usize];
                let taken = snow.quantum(
                    disk,
                    &self.geometry,
                    a,
                    &mut self.space,
                    &mut guide.filter,
                    &mut guide.fences,
                );
                // A map keeps its shape.
                let _pages = self.space.pages();
                self.quanta = self.quanta.saturating_add(u64::from(taken.is_ok()));
                taken
            }
            None => unreachable!(),
        }
    }

    /// The deep merge takes a quantum of C1' and C2, and gives the weight that it took. It answers as `pass_quantum` does.
    /// It has the clauses of `pass_quantum`.
    pub fn deep_quantum<D: Disk>(&mut self, disk: &mut D, a: &Table) -> Result<u64, Broken>
        requires runs { IsSome self.old.deep }
        requires length { IsTrue (D.state disk.old).tells_bytes → length (D.state disk.old).bytes ≡ file_length self.old.sizes }
        requires running { AreRunning (D.state disk.old).is_honest (D.state disk.old).bytes self.old }
        requires fits { Fits self.old a.now.entries }
        ensures told { TellsQuantum (λ tree. ⊤) (self.old.sizes.quantum / 4 + 3)
            (λ tree n. DeepTook self.old.sizes.quantum self.old.deep self.new.deep (entries_of tree.c1x) (entries_of tree.c2) n)
            (DeepMeetsDamage self.new.sizes self.new.deep) self.old self.new result (D.state disk.old) (D.state disk.new) }
        // It writes the page that was open, and pages that the run takes: none that was closed.
        ensures writes { Affects (region_of_deep self.old.sizes self.old.space self.new.space self.old.deep) (file_length self.old.sizes)
            (self.old.sizes.quantum / 4 + 3) (D.state disk.old) (D.state disk.new) }
        ensures takes { IfOk result (DeepTakes self.old.sizes.quantum self.old.deep self.new.deep) }
        ensures kept { IsErr result → cursor_of_deep self.new.deep ≡ cursor_of_deep self.old.deep }
        ensures runs { IsSome self.new.deep }
        ensures others { KeepsAllButDeep self.old self.new }
        ensures counted { OnOk result (CountsMore 1 self.old self.new) }
    {
        let merges = &mut *self.merges;
        match &mut merges.deep {
            Some(deep) => {
                let guide = &mut self.guides[self.deep.number() as usize];
                let taken = deep.quantum(
                    disk,
                    &self.geometry,
                    &mut self.space,
                    &mut guide.filter,
                    &mut guide.fences,
                );
                let _pages = self.space.pages();
                self.quanta = self.quanta.saturating_add(u64::from(taken.is_ok()));
                taken
            }
            None => unreachable!(),
        }
    }
}
