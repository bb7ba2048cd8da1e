//! The order in which a store's file is read.
ghost use Rattle.std.specs.Prelude.{◌≡◌, ◌≤◌, ◌<◌, ◌+◌, ◌*◌, [], length, Err, IsTrue, IfOk, IfErr, IsErr, OnOk};
ghost use Rattle.disk_trait.specs.Disk.{TellsFaultsBy};
ghost use Rattle.disk_trait.specs.Reads.{OnlyReads};
ghost use Rattle.blsm_model.specs.Format.{most_weight};
ghost use Rattle.blsm_model.specs.Geometry.{file_length, high_mark, page_count};
ghost use Rattle.blsm_model.specs.Lanes.{a_of, b_of, region_length};
ghost use Rattle.page_space.specs.Space.{IsSpace, unused};
ghost use Rattle.mem_table.specs.Tables.{IsWhole, empty_table};
ghost use Rattle.gated_log.specs.Lanes.{end_of};
ghost use Rattle.tree_runs.specs.Ahead.{IsAhead, IsAheadOn};
ghost use Rattle.tree_runs.specs.Noting.{AreRooms, HasSameRoom};
ghost use Rattle.tree_runs.specs.Runs.{AreGuides, AreRead, first_tags, guide_at};
ghost use Rattle.tree_reading.specs.Damage.{HasCatalogue};
ghost use Rattle.tree_reading.specs.Lane.{lane_calls};
ghost use Rattle.tree_reading.specs.Reading.{AreReplayed, GuidesTree, HasLooked, HoldsFound, IsFound, IsHead, IsReadAs, IsWhy};
ghost use Rattle.tree_reading.specs.Reading.{calls_of_reading, reading_calls};

use crate::components::read_components;
use crate::found::{Found, Unreadable};
use crate::head::{Head, read_head};
use crate::lanes::{Ends, read_lanes};
use blsm_model::{Geometry, Op};
use disk_trait::Disk;
use gated_log::Lanes;
use mem_table::Table;
use page_space::Space;
use refusal::NoMemory;
use std::alloc::Global;
use tree_runs::{Cursors, GuideRoom, Resumable};

/// What a store is read for.
#[derive(Clone, Copy, PartialEq, Eq, Debug)]
pub enum Purpose {
    /// To open it, with filters and fences.
    Opening,
    /// To check it, with none.
    Check,
}

/// The memory that a reading fills.
#[derive(Drop)]
pub struct Room {
    /// The free-page map.
    pub space: Space,
    /// Table A.
    pub a: Table,
    /// Table B.
    pub b: Table,
    /// Filters and fences, if it is to be opened.
    pub guides: GuideRoom,
}

// Filters and fences for a store with this head that is to be opened, or none.
fn reserve_guides(alloc: Global, head: &Head, purpose: Purpose) -> Result<GuideRoom, NoMemory>
    requires right { IsHead head.now.geometry head.now.catalogue }
    ensures rooms { IfOk result (AreRooms head.now.catalogue) }
    ensures guides { purpose ≡ Purpose.Opening → IfOk result (AreGuides head.now.geometry first_tags) }
{
    match purpose {
        Purpose::Opening => GuideRoom::reserve(alloc, &head.geometry, head.catalogue.c1x.weight),
        Purpose::Check => Ok(GuideRoom::none(alloc)),
    }
}

// Memory for what a store with this head has, with nothing in it, and for the cursors of a deep merge that is taken up. The record that passes
// the high mark is folded in before it is seen to.
fn reserve(alloc: Global, head: &Head, purpose: Purpose) -> Result<(Room, Box<Cursors>), NoMemory>
    requires right { IsHead head.now.geometry head.now.catalogue }
    ensures space { IfOk result (λ all. all.0.space ≡ unused (page_count head.now.geometry)) }
    ensures shape { IfOk result (λ all. IsSpace all.0.space) }
    ensures a { IfOk result (λ all. all.0.a ≡ empty_table (high_mark head.now.geometry + most_weight)) }
    ensures b { IfOk result (λ all. all.0.b ≡ empty_table (high_mark head.now.geometry + most_weight)) }
    ensures rooms { IfOk result (λ all. AreRooms head.now.catalogue all.0.guides) }
    ensures guides { purpose ≡ Purpose.Opening → IfOk result (λ all. AreGuides head.now.geometry first_tags all.0.guides) }
{
    let most = head.geometry.high_mark() + Op::MAX_WEIGHT;
    let room = Room {
        space: Space::reserve(alloc, head.geometry.pages() as u32)?,
        a: Table::reserve(alloc, most)?,
        b: Table::reserve(alloc, most)?,
        guides: reserve_guides(alloc, head, purpose)?,
    };
    Ok((room, Cursors::reserve(alloc)?))
}

// What stands behind the head: the ends of the lanes, and with what a deep merge goes on that is named.
#[derive(Debug, Drop)]
struct Parts {
    ends: Ends,
    ahead: Option<Resumable>,
}

// Reads what stands behind the head: the components, what is named of a deep merge, and then the lanes.
fn read_parts<D: Disk>(
    disk: &mut D,
    head: &Head,
    room: &mut Room,
    inputs: Box<Cursors>,
) -> Result<Parts, Unreadable>
    requires right { IsHead head.now.geometry head.now.catalogue }
    requires unused { room.old.space ≡ unused (page_count head.now.geometry) }
    requires shape { IsSpace room.old.space }
    requires rooms { AreRooms head.now.catalogue room.old.guides }
    requires empty_a { room.old.a ≡ empty_table (high_mark head.now.geometry + most_weight) }
    requires empty_b { room.old.b ≡ empty_table (high_mark head.now.geometry + most_weight) }
    requires length { IsTrue (D.state disk.old).tells_bytes → length (D.state disk.old).bytes ≡ file_length head.now.geometry }
    ensures tags { OnOk result (AreRead head.now.geometry head.now.catalogue room.new.space) }
    ensures ahead { IfOk result (λ parts. IsAhead first_tags.deep head.now.catalogue.progress
        (head.now.catalogue.c1x.weight + head.now.catalogue.c2.weight) parts.ahead) }
    ensures stands { first_tags.deep < length room.old.guides → IfOk result (λ parts. IsAheadOn head.now.geometry (D.state disk.old).is_honest
        (D.state disk.old).bytes room.new.space first_tags.deep (guide_at room.new.guides first_tags.deep) parts.ahead) }
    ensures read { IsTrue (D.state disk.old).is_honest
        → IfOk result (λ parts. IsReadAs head.now.geometry head.now.catalogue room.new.space room.new.guides parts.ahead (D.state disk.old).bytes) }
    ensures replayed { IfOk result (λ parts. AreReplayed head.now.geometry head.now.catalogue room.new.a.entries room.new.b.entries parts.ends.a
        parts.ends.b (D.state disk.old).is_honest (D.state disk.old).bytes) }
    ensures whole { IsWhole room.new.a × IsWhole room.new.b }
    ensures reserved { OnOk result ((room.new.a.reserved ≡ room.old.a.reserved) × (room.new.b.reserved ≡ room.old.b.reserved)) }
    ensures guides { OnOk result (HasSameRoom room.old.guides room.new.guides) }
    ensures guided { IsTrue (D.state disk.old).is_honest
        → OnOk result (GuidesTree head.now.geometry head.now.catalogue room.new.guides (D.state disk.old).bytes) }
    ensures calls { IfOk result (λ parts. (D.state disk.new).clock + 4
        ≤ (D.state disk.old).clock + calls_of_reading head.now.catalogue parts.ends.a.records parts.ends.b.records) }
    ensures refused { IsTrue (D.state disk.old).is_honest → HasCatalogue head.now.geometry head.now.catalogue (D.state disk.old).bytes
        → IfErr result (λ why. IsWhy why (D.state disk.old).bytes) }
    ensures faults { TellsFaultsBy (Err Unreadable.Fault) result (D.state disk.old) (D.state disk.new) }
    ensures effect { OnlyReads (file_length head.now.geometry) (9 * page_count head.now.geometry + 2 * lane_calls head.now.geometry)
        (D.state disk.old) (D.state disk.new) }
{
    let ahead = read_components(disk, head, &mut room.space, &mut room.guides, inputs)?;
    let ends = read_lanes(disk, head, &mut room.a, &mut room.b)?;
    Ok(Parts { ends, ahead })
}

// The lanes that end at these places; nothing is known of the spare one, which is used from its start.
fn lanes_of(head: &Head, a: u64, b: u64) -> Lanes
    requires right { IsHead head.now.geometry head.now.catalogue }
    requires inside_a { a < region_length head.now.geometry }
    requires inside_b { b < region_length head.now.geometry }
    ensures sizes { result.sizes ≡ head.now.geometry }
    ensures roles { result.roles ≡ head.now.catalogue.lanes }
    ensures end_a { end_of result (a_of head.now.catalogue.lanes) ≡ a }
    ensures end_b { end_of result (b_of head.now.catalogue.lanes) ≡ b }
{
    let roles = head.catalogue.lanes;
    let mut ends = [0; 3];
    ends[roles[0] as usize] = a;
    ends[roles[1] as usize] = b;
    Lanes::resume(&head.geometry, roles, ends)
}

/// Reads the store on a disk: superblock and length, slots, version, pages of C1, C1' and C2, the finished pages that are named of a deep merge,
/// lane A, lane B, in this order. It writes nothing and calls no sync. To open the store it fills filters and fences of C1, C1' and C2 as it reads
/// their pages, and of the deep merge's run, which it hands on with what it goes on.
///
/// `NotAStore`, `Damaged` and `Worn` come exactly where the file is no store, isn't of the written form, or has a version above 2^62;
/// `Damaged` names the first such place. `Fault` comes only where the disk's count of faults rose.
///
/// It stays a call, so that what it reads by isn't added to the frame of who settles what was read.
#[inline(never)]
pub fn read_tree<D: Disk>(
    alloc: Global,
    disk: &mut D,
    purpose: Purpose,
) -> Result<Found, Unreadable>
    ensures found { IfOk result (λ found. IsFound found (D.state disk.new).is_honest (D.state disk.new).bytes) }
    ensures holds { IsTrue (D.state disk.old).is_honest → IfOk result (λ found. HoldsFound found (D.state disk.old).bytes) }
    ensures refused { IsTrue (D.state disk.old).is_honest → IfErr result (λ why. IsWhy why (D.state disk.old).bytes) }
    ensures length { IfOk result (λ found. IsTrue (D.state disk.old).tells_bytes → length (D.state disk.old).bytes ≡ file_length found.geometry) }
    ensures faults { TellsFaultsBy (Err Unreadable.Fault) result (D.state disk.old) (D.state disk.new) }
    ensures effect { IfOk result (λ found. OnlyReads (file_length found.geometry) (reading_calls found.geometry) (D.state disk.old) (D.state disk.new)) }
    ensures looked { IsErr result → HasLooked reading_calls (D.state disk.old) (D.state disk.new) }
    ensures guides { purpose ≡ Purpose.Opening → IfOk result (λ found. AreGuides found.geometry first_tags found.guides) }
    ensures calls { IfOk result (λ found. (D.state disk.new).clock
        ≤ (D.state disk.old).clock + calls_of_reading found.catalogue found.records_a found.records_b) }
{
    let head = read_head(disk)?;
    let Ok((mut room, inputs)) = reserve(alloc, &head, purpose) else {
        return Err(Unreadable::NoMemory);
    };
    let parts = read_parts(disk, &head, &mut room, inputs)?;
    let Parts { ends, ahead } = parts;
    let lanes = lanes_of(&head, ends.a.place, ends.b.place);
    Ok(Found {
        geometry: head.geometry,
        catalogue: head.catalogue,
        space: room.space,
        a: room.a,
        b: room.b,
        lanes,
        records_a: ends.a.records,
        records_b: ends.b.records,
        guides: room.guides,
        ahead,
    })
}
