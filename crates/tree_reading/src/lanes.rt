//! The two lanes of the log, replayed to the tables of a memory table.
ghost use Rattle.std.specs.Prelude.{◌≡◌, ◌≤◌, ◌+◌, ◌*◌, [], ℕ, List, length, Err, IsTrue, IfOk, IfErr};
ghost use Rattle.disk_trait.specs.Disk.{TellsFaultsBy};
ghost use Rattle.disk_trait.specs.Reads.{OnlyReads};
ghost use Rattle.blsm_model.specs.Format.{most_weight};
ghost use Rattle.blsm_model.specs.Geometry.{file_length, high_mark};
ghost use Rattle.mem_table.specs.Tables.{IsWhole};
ghost use Rattle.page_file.specs.Component.{RunPage};
ghost use Rattle.tree_reading.specs.Damage.{HasCatalogue, HasComponents, HasOutput, IsDamagedLog, catalogue_weight, room_for_a};
ghost use Rattle.tree_reading.specs.Lane.{lane_calls};
ghost use Rattle.tree_reading.specs.Reading.{AreReplayed, IsHead, IsWhy};

use crate::found::{Place, Unreadable};
use crate::head::Head;
use crate::lane::{LaneEnd, replay_lane};
use disk_trait::Disk;
use gated_log::LaneBroken;
use mem_table::Table;

/// The ends of lanes A and B.
#[derive(Clone, Copy, PartialEq, Eq, Debug)]
pub struct Ends {
    /// The end of lane A.
    pub a: LaneEnd,
    /// The end of lane B.
    pub b: LaneEnd,
}

// How much both tables may weigh, in bytes.
fn room_for(head: &Head) -> u64
    requires right { IsHead head.now.geometry head.now.catalogue }
    ensures room { result ≡ room_for_a head.now.geometry (catalogue_weight head.now.catalogue) }
    ensures high { result ≤ high_mark head.now.geometry }
{
    let capacity = head.geometry.capacity();
    let catalogue = &head.catalogue;
    let components = catalogue.c1.weight + catalogue.c1x.weight + catalogue.c2.weight;
    head.geometry.high_mark().min(capacity - components)
}

// Replays lane A, and then lane B over it.
fn replay_both<D: Disk>(
    disk: &mut D,
    head: &Head,
    a: &mut Table,
    b: &mut Table,
) -> Result<Ends, LaneBroken>
    requires right { IsHead head.now.geometry head.now.catalogue }
    requires empty_a { a.old.entries ≡ [] }
    requires empty_b { b.old.entries ≡ [] }
    requires reserved_a { high_mark head.now.geometry + most_weight ≤ a.old.reserved }
    requires reserved_b { high_mark head.now.geometry + most_weight ≤ b.old.reserved }
    requires whole { IsWhole a.old × IsWhole b.old }
    requires length { IsTrue (D.state disk.old).tells_bytes → length (D.state disk.old).bytes ≡ file_length head.now.geometry }
    ensures replayed { IfOk result (λ ends. AreReplayed head.now.geometry head.now.catalogue a.new.entries b.new.entries ends.a ends.b
        (D.state disk.old).is_honest (D.state disk.old).bytes) }
    ensures damaged { IsTrue (D.state disk.old).is_honest → (n : ℕ) → result ≡ Err (LaneBroken.Damaged n)
        → IsDamagedLog head.now.geometry head.now.catalogue n (D.state disk.old).bytes }
    ensures reserved_a { a.new.reserved ≡ a.old.reserved }
    ensures reserved_b { b.new.reserved ≡ b.old.reserved }
    ensures whole { IsWhole a.new × IsWhole b.new }
    ensures faults { TellsFaultsBy (Err LaneBroken.Fault) result (D.state disk.old) (D.state disk.new) }
    ensures effect { OnlyReads (file_length head.now.geometry) (lane_calls head.now.geometry + lane_calls head.now.geometry)
        (D.state disk.old) (D.state disk.new) }
    ensures calls { IfOk result (λ ends. (D.state disk.new).clock ≤ (D.state disk.old).clock + ((ends.a.records + 1) + (ends.b.records + 1))) }
{
    let room = room_for(head);
    let lanes = &head.catalogue.lanes;
    let end_a = replay_lane(disk, &head.geometry, lanes[0], room, a)?;
    let end_b = replay_lane(disk, &head.geometry, lanes[1], room - a.weight(), b)?;
    Ok(Ends { a: end_a, b: end_b })
}

/// Reads lanes A and B to their tables, which are empty before. It takes no memory.
pub(crate) fn read_lanes<D: Disk>(
    disk: &mut D,
    head: &Head,
    a: &mut Table,
    b: &mut Table,
) -> Result<Ends, Unreadable>
    requires right { IsHead head.now.geometry head.now.catalogue }
    requires empty_a { a.old.entries ≡ [] }
    requires empty_b { b.old.entries ≡ [] }
    requires reserved_a { high_mark head.now.geometry + most_weight ≤ a.old.reserved }
    requires reserved_b { high_mark head.now.geometry + most_weight ≤ b.old.reserved }
    requires whole { IsWhole a.old × IsWhole b.old }
    requires length { IsTrue (D.state disk.old).tells_bytes → length (D.state disk.old).bytes ≡ file_length head.now.geometry }
    ensures replayed { IfOk result (λ ends. AreReplayed head.now.geometry head.now.catalogue a.new.entries b.new.entries ends.a ends.b
        (D.state disk.old).is_honest (D.state disk.old).bytes) }
    ensures refused { (c1 c1x c2 output : List RunPage) → IsTrue (D.state disk.old).is_honest
        → HasCatalogue head.now.geometry head.now.catalogue (D.state disk.old).bytes
        → HasComponents head.now.geometry head.now.catalogue c1 c1x c2 (D.state disk.old).bytes
        → HasOutput head.now.geometry head.now.catalogue.progress c1 c1x c2 output (D.state disk.old).bytes
        → IfErr result (λ why. IsWhy why (D.state disk.old).bytes) }
    ensures reserved_a { a.new.reserved ≡ a.old.reserved }
    ensures reserved_b { b.new.reserved ≡ b.old.reserved }
    ensures whole { IsWhole a.new × IsWhole b.new }
    ensures faults { TellsFaultsBy (Err Unreadable.Fault) result (D.state disk.old) (D.state disk.new) }
    ensures effect { OnlyReads (file_length head.now.geometry) (2 * lane_calls head.now.geometry) (D.state disk.old) (D.state disk.new) }
    ensures calls { IfOk result (λ ends. (D.state disk.new).clock ≤ (D.state disk.old).clock + ((ends.a.records + 1) + (ends.b.records + 1))) }
{
    match replay_both(disk, head, a, b) {
        Ok(ends) => Ok(ends),
        Err(LaneBroken::Damaged(lane)) => Err(Unreadable::Damaged(Place::Lane(lane))),
        Err(LaneBroken::Fault) => Err(Unreadable::Fault),
    }
}
