//! Two tables and the lanes that they replay from.
ghost use Rattle.std.specs.Prelude.{◌≡◌, ◌↔◌, ◌≤◌, ◌<◌, ◌+◌, ◌^◌, ◌∷◌, [], length, is_ok, if◌then◌else◌, IsTrue, OnOk};
ghost use Rattle.disk_trait.specs.Disk.{TellsFaults};
ghost use Rattle.disk_trait.specs.Effects.{Affects};
ghost use Rattle.blsm_model.specs.Geometry.{file_length};
ghost use Rattle.blsm_model.specs.Lanes.{region_length};
ghost use Rattle.record_delta.specs.Records.{weight};
ghost use Rattle.record_delta.specs.Entries.{entries_weight, is_above, over_any, record_of_key, with_record};
ghost use Rattle.mem_table.specs.Tables.{IsWhole};
ghost use Rattle.gated_write.specs.Ends.{EndsSynced};
ghost use Rattle.gated_log.specs.Lane.{lane_region, no_lane, Appends};
ghost use Rattle.gated_log.specs.Lanes.{end_of, moved};
ghost use Rattle.gated_log.specs.Records.{cost};
ghost use Rattle.tree_file.specs.Tree.{Tree};
ghost use Rattle.tree_file.specs.Places.{StandsOn, Becomes, TurnsRoles};
ghost use Rattle.tree_log.specs.Log.{IsAboveFloor, IsLogOf, Grows, Turns, appended, folded_into, lane_for, listed_for, listed_in_a};
ghost use Rattle.tree_log.specs.Log.{dropped_log, resident_in, table_for, turned_log, weight_of_tables, with_entries};

use blsm_model::Key;
use disk_trait::Disk;
use gated_log::Lanes;
use mem_table::Table;
use record_delta::{Rec, fold};
use refusal::Failed;
use std::marker::Model;

/// The two tables and the lanes of the log. Contracts see the entries of both, how much each may weigh in bytes, and the lanes.
#[derive(Debug, Drop)]
pub struct LoggedTables {
    a: Table,
    b: Table,
    lanes: Lanes,
}

impl Model for LoggedTables {
    ghost use Rattle.tree_log.specs.Log.{LogState, IsLog};

    ghost Value = { LogState };

    ghost view = { λ l. record { a = l.a; b = l.b; lanes = l.lanes } };

    ghost invariant = { λ l. IsLog (record { a = l.a; b = l.b; lanes = l.lanes }) };
}

// Appends an entry to a lane, and once that is acknowledged folds it into the lane's table.
fn append_to<D: Disk>(
    disk: &mut D,
    lanes: &mut Lanes,
    lane: u8,
    table: &mut Table,
    key: &Key,
    rec: &Rec,
) -> Result<(), Failed>
    requires lane { lane < 3 }
    requires fits { end_of lanes.old lane + 1 + weight key.now rec.now + 1 ≤ region_length lanes.old.sizes }
    requires above { IsTrue (is_above table.old.floor key.now) }
    requires room { entries_weight (with_record key.now rec.now table.old.entries) + table.old.dropped ≤ table.old.reserved }
    requires length { IsTrue (D.state disk.old).tells_bytes → length (D.state disk.old).bytes ≡ file_length lanes.old.sizes }
    ensures lanes { lanes.new ≡ (if is_ok result then moved lanes.old lane (cost ((key.now, rec.now) ∷ [])) else lanes.old) }
    ensures ended { OnOk result (end_of lanes.new lane ≡ end_of lanes.old lane + cost ((key.now, rec.now) ∷ [])) }
    ensures table { table.new ≡ (if is_ok result then folded_into ((key.now, rec.now) ∷ []) table.old else table.old) }
    ensures appends { Appends lanes.old.sizes lane (end_of lanes.old lane) ((key.now, rec.now) ∷ []) (is_ok result) (D.state disk.old)
        (D.state disk.new) }
    ensures ends { OnOk result (EndsSynced 4 (D.state disk.old) (D.state disk.new)) }
    ensures effect { Affects (lane_region lanes.old.sizes lane) (file_length lanes.old.sizes) 4 (D.state disk.old) (D.state disk.new) }
    ensures faults { TellsFaults result (D.state disk.old) (D.state disk.new) }
{
    lanes.append(disk, lane, key, rec)?;
    table.fold_in(key, rec);
    Ok(())
}

// A record over an older one, if there are both.
fn over(newer: Option<Rec>, older: Option<Rec>) -> Option<Rec>
    ensures { result ≡ over_any newer older }
{
    match (newer, older) {
        (Some(newer), Some(older)) => Some(fold(newer, older)),
        (newer, None) => newer,
        (None, older) => older,
    }
}

impl LoggedTables {
    /// The memory table of two tables that were replayed from these lanes, A and B; of B nothing was dropped. What both may weigh together
    /// is a 64-bit number.
    pub fn open(a: Table, b: Table, lanes: Lanes) -> LoggedTables
        requires small { a.reserved + b.reserved < 2 ^ 64 }
        requires whole { IsWhole b }
        ensures { result ≡ record { a = a; b = b; lanes = lanes } }
    {
        // The lanes have their roles.
        let _a = lanes.a();
        LoggedTables { a, b, lanes }
    }

    /// Table A, which the pass takes from.
    pub fn a(&self) -> &Table
        ensures { result.now ≡ self.now.a }
    {
        &self.a
    }

    /// Table B, of the next pass.
    pub fn b(&self) -> &Table
        ensures { result.now ≡ self.now.b }
    {
        &self.b
    }

    /// The lanes: their roles, and where each ends.
    pub fn lanes(&self) -> &Lanes
        ensures { result.now ≡ self.now.lanes }
    {
        &self.lanes
    }

    /// The weight of both tables, in bytes, with what was dropped of A.
    pub fn weight(&self) -> u64
        ensures weight { result ≡ weight_of_tables self.now }
        ensures fits { result ≤ self.now.a.reserved + self.now.b.reserved }
    {
        self.weight_of_a() + self.b.weight()
    }

    /// The weight of table A, in bytes, with what was dropped of it.
    pub fn weight_of_a(&self) -> u64
        ensures weight { result ≡ listed_in_a self.now }
        ensures fits { result ≤ self.now.a.reserved }
    {
        self.a.weight() + self.a.dropped()
    }

    /// How much of both tables is held in memory, in bytes of weight.
    pub fn resident(&self) -> u64
        ensures { result ≡ resident_in self.now }
    {
        self.a.weight() + self.b.weight()
    }

    /// Whether neither table has an entry, and nothing was dropped of A.
    pub fn is_empty(&self) -> bool
        ensures { IsTrue result ↔ (weight_of_tables self.now ≡ 0) }
    {
        self.weight() == 0
    }

    /// The record of a key, if it has one: table B's over table A's. What was dropped of A isn't looked at.
    pub fn get(&self, key: &Key) -> Option<Rec>
        ensures { result ≡ over_any (record_of_key key.now self.now.b.entries) (record_of_key key.now self.now.a.entries) }
    {
        if self.b.place_of(key).is_none() {
            return self.a.get(key);
        }
        self.get_over(key)
    }

    // The same where table B has one. It stays a call, as a function zeroes all its locals at entry, and table B seldom has the key.
    #[inline(never)]
    fn get_over(&self, key: &Key) -> Option<Rec>
        ensures { result ≡ over_any (record_of_key key.now self.now.b.entries) (record_of_key key.now self.now.a.entries) }
    {
        over(self.b.get(key), self.a.get(key))
    }

    /// Takes a write: ahead of the pass to lane A and then to table A, else to lane B and then to table B. What goes to table A is above what
    /// was dropped of it.
    ///
    /// After an `Err`, whose cause is a fault of the disk, the tables are as they were, and nobody knows whether the lane has the entry: the
    /// disk is to be opened again.
    /// A clause each for what is in memory, for the lists of an honest disk, for the calls and the faults.
    pub fn append<D: Disk>(
        &mut self,
        disk: &mut D,
        ahead: bool,
        key: &Key,
        rec: &Rec,
    ) -> Result<(), Failed>
        requires fits { end_of self.old.lanes (lane_for ahead self.old) + 1 + weight key.now rec.now + 1 ≤ region_length self.old.lanes.sizes }
        requires above { IsAboveFloor ahead key.now self.old }
        requires room { listed_for ahead (with_entries ahead ((key.now, rec.now) ∷ []) self.old) ≤ (table_for ahead self.old).reserved }
        requires length { IsTrue (D.state disk.old).tells_bytes → length (D.state disk.old).bytes ≡ file_length self.old.lanes.sizes }

        ensures log { self.new ≡ (if is_ok result then with_entries ahead ((key.now, rec.now) ∷ []) self.old else self.old) }
        ensures grows { OnOk result (Grows ahead ((key.now, rec.now) ∷ []) self.old self.new) }
        ensures is_of { OnOk result ((tree : Tree) → IsLogOf tree self.old → IsLogOf (appended ahead ((key.now, rec.now) ∷ []) tree) self.new) }

        // On an honest disk that stands on the tree whose log this is, each image of each moment has the tree, with the entry or without.
        // Once it is done the disk stands on the tree with the entry.
        ensures becomes { (tree : Tree) → IsTrue (D.state disk.old).is_honest → IsLogOf tree self.old → StandsOn self.old.lanes.sizes tree (D.state disk.old)
            → Becomes self.old.lanes.sizes tree (appended ahead ((key.now, rec.now) ∷ []) tree) (is_ok result) (D.state disk.old) (D.state disk.new) }

        // Whatever the disk tells, it is four calls, which write in the lane's region alone and end with a sync, or fewer where one fails.
        ensures ends { OnOk result (EndsSynced 4 (D.state disk.old) (D.state disk.new)) }
        ensures effect { Affects (lane_region self.old.lanes.sizes (lane_for ahead self.old)) (file_length self.old.lanes.sizes) 4 (D.state disk.old) (D.state disk.new) }
        ensures faults { TellsFaults result (D.state disk.old) (D.state disk.new) }
    {
        if ahead {
            let lane = self.lanes.a();
            append_to(disk, &mut self.lanes, lane, &mut self.a, key, rec)
        } else {
            let lane = self.lanes.b();
            append_to(disk, &mut self.lanes, lane, &mut self.b, key, rec)
        }
    }

    /// Drops table A up to a key, which is on a finished page of the pass's run. The lane keeps all. It calls no device and takes no memory.
    pub fn drop_to(&mut self, key: &Key)
        ensures log { self.new ≡ dropped_log key.now self.old }
        ensures is_of { (tree : Tree) → IsLogOf tree self.old → IsLogOf tree self.new }
    {
        self.a.drop_to(key);
    }

    /// The pass was swapped in: table A is cleared, B becomes A, and B is empty. The lanes (A, B, spare) turn into (B, spare, A); the spare
    /// region's first gate must be closed on the disk. It calls no device and takes no memory.
    pub fn turn(&mut self)
        ensures log { self.new ≡ turned_log self.old }
        ensures turns { Turns self.old self.new }
        ensures is_of { (tree next : Tree) → TurnsRoles tree.catalogue next.catalogue → next.lane_a ≡ tree.lane_b → next.lane_b ≡ no_lane
            → IsLogOf tree self.old → IsLogOf next self.new }
    {
        self.a.clear();
        std::mem::swap(&mut self.a, &mut self.b);
        self.lanes.turn();
    }
}
