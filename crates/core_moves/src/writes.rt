//! Writes, and what they weigh.
ghost use Rattle.std.specs.Prelude.{◌≡◌, ◌+◌, ◌<◌, ◌^◌, ◌&&◌, ◌||◌, ◌∷◌, [], false, not, is_ok, is_some, if◌then◌else◌, IsTrue, OnOk, OnErr};
ghost use Rattle.disk_trait.specs.Disk.{TellsFaults};
ghost use Rattle.disk_trait.specs.Effects.{Affects};
ghost use Rattle.blsm_model.specs.Format.{callers};
ghost use Rattle.blsm_model.specs.Geometry.{file_length};
ghost use Rattle.record_delta.specs.Entries.{is_above, record_of_key};
ghost use Rattle.gear_sched.specs.Gears.{first_debt, second_debt};
ghost use Rattle.gated_write.specs.Ends.{EndsSynced};
ghost use Rattle.tree_file.specs.Tree.{Tree};
ghost use Rattle.tree_file.specs.Places.{Becomes};
ghost use Rattle.tree_log.specs.Log.{IsLogOf, appended};
ghost use Rattle.scan_view.specs.Pins.{beside_pins};
ghost use Rattle.tree_runs.specs.Holding.{StandOver, cursor_of_pass};
ghost use Rattle.core_moves.specs.Held.{IsOne, goes_ahead, charge_in};
ghost use Rattle.core_moves.specs.Needs.{IsOn, WriteFits};
ghost use Rattle.core_moves.specs.Moves.{WritesIn};

use crate::Held;
use blsm_model::Key;
use disk_trait::Disk;
use record_delta::{Rec, weight};
use refusal::Failed;

// Whether the key is above this one, or there is none.
fn is_above(low: &Option<Key>, key: &Key) -> bool
    ensures { result ≡ is_above low.now key.now }
{
    match low {
        Some(low) => low < key,
        None => true,
    }
}

// The spring after a write of this weight: while a pass runs, the pass counts it.
fn spring_after(spring: u64, in_pass: bool, weight: u64) -> u64
    requires { in_pass ≡ false → spring + weight < 2 ^ 64 }
    ensures { result ≡ (if in_pass then spring else spring + weight) }
{
    if in_pass { spring } else { spring + weight }
}

impl Held {
    // Whether a write of this key goes to table A: no pass runs; or it hasn't come to the key, and table B hasn't the key.
    fn goes_ahead(&self, key: &Key) -> bool
        ensures { result ≡ (not (is_some self.now.runs.pass)
            || (is_above (cursor_of_pass self.now.runs.pass) key.now && not (is_some (record_of_key key.now self.now.log.b.entries)))) }
    {
        !self.runs.in_pass()
            || (is_above(&self.runs.cursor(), key) && self.log.b().place_of(key).is_none())
    }

    /// Appends the caller's write to the log, and takes it: it is in its table, the caller owes for it, and the peak counts it.
    ///
    /// After an `Err`, whose cause is a fault of the disk, all is as before in memory, and nobody knows whether the log has the write.
    /// A clause each for what is in memory, for the lists of an honest disk, for an `Err`, the calls and the faults.
    pub fn write<D: Disk>(
        &mut self,
        disk: &mut D,
        seat: u32,
        key: &Key,
        rec: &Rec,
    ) -> Result<(), Failed>
        requires seat { seat < callers }
        requires settled { first_debt self.old.gears seat + second_debt self.old.gears seat ≡ 0 }
        requires fits { WriteFits ((key.now, rec.now) ∷ []) self.old }
        requires one { IsOne self.old }
        requires on { IsOn self.old (D.state disk.old) }

        ensures writes { OnOk result (WritesIn seat ((key.now, rec.now) ∷ []) self.old self.new) }
        ensures is_of { OnOk result ((tree : Tree) → IsLogOf tree self.old.log → IsLogOf (appended (goes_ahead ((key.now, rec.now) ∷ []) self.old) ((key.now, rec.now) ∷ []) tree) self.new.log) }
        ensures becomes { (tree : Tree) → IsTrue (D.state disk.old).is_honest → IsLogOf tree self.old.log
            → StandOver self.old.runs tree (D.state disk.old)
            → Becomes self.old.runs.sizes tree (appended (goes_ahead ((key.now, rec.now) ∷ []) self.old) ((key.now, rec.now) ∷ []) tree) (is_ok result) (D.state disk.old) (D.state disk.new)
            × OnOk result (StandOver self.new.runs (appended (goes_ahead ((key.now, rec.now) ∷ []) self.old) ((key.now, rec.now) ∷ []) tree) (D.state disk.new)) }
        ensures on { OnOk result (IsOn self.new (D.state disk.new)) }
        ensures kept { OnErr result (self.new ≡ self.old) }
        ensures ends { OnOk result (EndsSynced 4 (D.state disk.old) (D.state disk.new)) }
        ensures effect { Affects (beside_pins self.old.runs.sizes self.old.runs.space.pins) (file_length self.old.runs.sizes) 4 (D.state disk.old) (D.state disk.new) }
        ensures faults { TellsFaults result (D.state disk.old) (D.state disk.new) }
    {
        let ahead = self.goes_ahead(key);
        self.log.append(disk, ahead, key, rec)?;
        let weight = weight(key, rec);
        self.gears.enter(seat, weight);
        self.spring = spring_after(self.spring, self.runs.in_pass(), weight);
        self.book.raise_peak(self.log.weight());
        Ok(())
    }

    /// The charge, in bytes: what the components weigh, and what the memory table counts.
    pub fn charge(&self) -> u64
        requires { charge_in self.now < 2 ^ 64 }
        ensures { result ≡ charge_in self.now }
    {
        let now = self.runs.catalogue();
        let memory = if self.runs.in_pass() {
            self.gears.held_by_pass() as u64
        } else {
            self.log.weight()
        };
        now.c1.weight + now.c1x.weight + now.c2.weight + memory
    }
}
