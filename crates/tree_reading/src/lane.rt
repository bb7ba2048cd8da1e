//! A lane of the log, replayed to its table.
ghost use Rattle.std.specs.Prelude.{◌≡◌, ◌≤◌, ◌<◌, ◌+◌, [], Err, length, IsTrue, IfOk, OnOk, OnErr};
ghost use Rattle.disk_trait.specs.Disk.{TellsFaultsBy};
ghost use Rattle.disk_trait.specs.Reads.{OnlyReads};
ghost use Rattle.blsm_model.specs.Format.{most_weight};
ghost use Rattle.blsm_model.specs.Geometry.{file_length};
ghost use Rattle.record_delta.specs.Entries.{entries_weight, with_record};
ghost use Rattle.mem_table.specs.Tables.{IsWhole};
ghost use Rattle.tree_reading.specs.Lane.{TellsReplay, lane_calls};

use blsm_model::{Geometry, Key};
use disk_trait::Disk;
use gated_log::{LaneBroken, Replay};
use mem_table::Table;
use record_delta::{Rec, weight};

/// The end of a lane that was replayed.
#[derive(Clone, Copy, PartialEq, Eq, Debug)]
pub struct LaneEnd {
    /// Where the closed gate stands, in bytes from its region's start.
    pub place: u64,
    /// How many entries the lane has.
    pub records: u64,
}

// Folds an entry of a lane into its table, which may then weigh so much.
fn take(table: &mut Table, room: u64, lane: u8, key: &Key, rec: &Rec) -> Result<(), LaneBroken>
    requires held { entries_weight table.old.entries ≤ room }
    requires reserved { room + most_weight ≤ table.old.reserved }
    requires whole { IsWhole table.old }
    ensures folded { table.new.entries ≡ with_record key.now rec.now table.old.entries }
    ensures reserved { table.new.reserved ≡ table.old.reserved }
    ensures whole { IsWhole table.new }
    ensures within { OnOk result (entries_weight table.new.entries ≤ room) }
    ensures heavy { OnErr result (room < entries_weight table.new.entries) }
    ensures lane { OnErr result (result ≡ Err (LaneBroken.Damaged lane)) }
{
    let weight = weight(key, rec);
    let held = table.weight();
    prove!(held <= room);
    table.fold_in(key, rec);
    if table.weight() <= room {
        Ok(())
    } else {
        Err(LaneBroken::Damaged(lane))
    }
}

/// Replays a lane, which is named by its region's number, 0 to 2, to its table. It reads one record with each call of the disk, and takes no
/// memory.
///
/// `Damaged` comes exactly where the lane is damaged, or one of its entries makes a table that weighs more than `room`, in bytes. `Fault`
/// comes only where the disk's count of faults rose. The table has what was replayed then.
pub(crate) fn replay_lane<D: Disk>(
    disk: &mut D,
    geo: &Geometry,
    lane: u8,
    room: u64,
    table: &mut Table,
) -> Result<LaneEnd, LaneBroken>
    requires lane { lane < 3 }
    requires empty { table.old.entries ≡ [] }
    requires reserved { room + most_weight ≤ table.old.reserved }
    requires whole { IsWhole table.old }
    requires length { IsTrue (D.state disk.old).tells_bytes → length (D.state disk.old).bytes ≡ file_length geo.now }
    ensures tells { TellsReplay geo.now lane room table.new.entries (D.state disk.old).is_honest (D.state disk.old).bytes result }
    ensures reserved { table.new.reserved ≡ table.old.reserved }
    ensures whole { IsWhole table.new }
    ensures faults { TellsFaultsBy (Err LaneBroken.Fault) result (D.state disk.old) (D.state disk.new) }
    ensures effect { OnlyReads (file_length geo.now) (lane_calls geo.now) (D.state disk.old) (D.state disk.new) }
    ensures calls { IfOk result (λ end. (D.state disk.new).clock ≤ (D.state disk.old).clock + (end.records + 1)) }
{
    // No region is so long that its entries couldn't be counted.
    let _half = geo.half();
    let mut replay = Replay::new(geo, lane);
    let mut records = 0;
    while let Some((key, rec)) = replay.next(disk)? {
        take(table, room, lane, &key, &rec)?;
        records += 1;
    }
    Ok(LaneEnd {
        place: replay.end(),
        records,
    })
}
