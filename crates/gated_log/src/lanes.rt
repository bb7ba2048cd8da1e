//! The lanes that are written, and where each ends.
ghost use Rattle.std.specs.Prelude.{◌≡◌, ◌≤◌, ◌<◌, ◌+◌, ◌∷◌, ◌++◌, [], ℕ, length, IsTrue, OnOk, is_ok, if◌then◌else◌, slice_index, take};
ghost use Rattle.disk_trait.specs.Disk.{Only, TellsFaults};
ghost use Rattle.disk_trait.specs.Effects.{Affects};
ghost use Rattle.std.specs.List.{AllByRecursion};
ghost use Rattle.blsm_model.specs.Format.{most_weight};
ghost use Rattle.blsm_model.specs.Geometry.{file_length};
ghost use Rattle.blsm_model.specs.Lanes.{region_length, a_of, b_of, spare_of, AreRoles};
ghost use Rattle.blsm_model.specs.Legal.{total_weight};
ghost use Rattle.blsm_model.specs.Tails.{TailFits};
ghost use Rattle.record_delta.specs.Records.{weight};
ghost use Rattle.entry_codec.specs.Spelling.{spelling, IsEntry};
ghost use Rattle.gated_write.specs.Ends.{EndsSynced};
ghost use Rattle.gated_log.specs.Lane.{lane_region, Appends};
ghost use Rattle.record_delta.specs.Several.{entries_of};
ghost use Rattle.gated_log.specs.Records.{cost};
ghost use Rattle.gated_log.specs.Lanes.{LanesState, end_of, moved, turned};

use crate::records::{ROOM, put_pack};
use crate::region::place_in_file;
use blsm_model::{Geometry, Key, Op, Pack};
use disk_trait::Disk;
use entry_codec::encode;
use gated_write::{CLOSED, write_gated};
use record_delta::{Rec, weight};
use refusal::Failed;
use std::marker::Model;

// How many lanes there are.
const LANES: usize = 3;

// The longest entry, with the gate behind it, in bytes.
const LONGEST: usize = Op::MAX_WEIGHT as usize + 1;

/// Three lanes, each with the place of its closed gate, in bytes from its region's start, and which of them are A, B and
/// spare. A lane is named by its region's number, 0 to 2.
#[derive(Debug, Drop)]
pub struct Lanes {
    geometry: Geometry,
    roles: [u8; LANES],
    ends: [u64; LANES],
}

impl Model for Lanes {
    ghost Value = { LanesState };

    ghost view = { λ l. record { sizes = l.geometry; roles = l.roles; ends = l.ends } };

    ghost invariant = { λ l. AreRoles l.roles × ((lane : ℕ) → lane < 3 → slice_index l.ends lane < region_length l.geometry) };
}

// Puts the entry and the next gate, closed, at the front of the buffer, and answers their length in bytes.
fn put_entry(key: &Key, rec: &Rec, buffer: &mut [u8; LONGEST]) -> usize
    ensures text { take result buffer.new ≡ spelling key.now rec.now ++ 0 ∷ [] }
    ensures len { result ≡ weight key.now rec.now + 1 }
    ensures entry { IsEntry key.now rec.now }
{
    let length = weight(key, rec) as usize;
    encode(key, rec, buffer);
    buffer[length] = CLOSED;
    length + 1
}

impl Lanes {
    /// The lanes of a store of this geometry. `roles` are the numbers of the regions that are A, B and spare; `ends` are the
    /// places of the regions' closed gates, in bytes from each region's start, by the region's number.
    pub fn resume(geometry: &Geometry, roles: [u8; LANES], ends: [u64; LANES]) -> Lanes
        requires roles { AreRoles roles }
        requires inside { (lane : ℕ) → lane < 3 → slice_index ends lane < region_length geometry.now }
        ensures { result ≡ record { sizes = geometry.now; roles = roles; ends = ends } }
    {
        Lanes {
            geometry: *geometry,
            roles,
            ends,
        }
    }

    /// The number of the region that is lane A, the lane of the table that the pass takes from.
    pub fn a(&self) -> u8
        ensures number { result ≡ a_of self.now.roles }
        ensures roles { AreRoles self.now.roles }
    {
        self.roles[0]
    }

    /// The number of the region that is lane B, the lane of the next pass's table.
    pub fn b(&self) -> u8
        ensures number { result ≡ b_of self.now.roles }
        ensures roles { AreRoles self.now.roles }
    {
        self.roles[1]
    }

    /// The number of the region that is spare.
    pub fn spare(&self) -> u8
        ensures number { result ≡ spare_of self.now.roles }
        ensures roles { AreRoles self.now.roles }
    {
        self.roles[2]
    }

    /// Turns the lanes (A, B, spare) into (B, spare, A). The spare region's first gate must be closed on the disk: the new
    /// lane B ends there.
    pub fn turn(&mut self)
        ensures { self.new ≡ turned self.old }
    {
        let [a, b, spare] = self.roles;
        self.roles = [b, spare, a];
        self.ends[spare as usize] = 0;
    }

    /// Where the closed gate of a lane stands, in bytes from its region's start.
    pub fn end(&self, lane: u8) -> u64
        requires { lane < 3 }
        ensures place { result ≡ end_of self.now lane }
        ensures inside { result < region_length self.now.sizes }
    {
        self.ends[lane as usize]
    }

    /// Writes an entry at the end of a lane: the entry and the next gate, closed, a sync, the own gate, open, and a sync.
    ///
    /// Once it is acknowledged each crash leaves the entry; a crash at any moment of the call leaves the lane with it or without.
    /// After an `Err`, whose cause is a fault of the disk, nobody knows which, and the disk is to be opened again.
    /// A clause each for the lane's places, for what each crash leaves, for the calls and the faults.
    pub fn append<D: Disk>(
        &mut self,
        disk: &mut D,
        lane: u8,
        key: &Key,
        rec: &Rec,
    ) -> Result<(), Failed>
        requires lane { lane < 3 }
        requires fits { end_of self.old lane + 1 + weight key.now rec.now + 1 ≤ region_length self.old.sizes }
        requires length { IsTrue (D.state disk.old).tells_bytes → length (D.state disk.old).bytes ≡ file_length self.old.sizes }

        ensures moved { self.new ≡ (if is_ok result then moved self.old lane (weight key.now rec.now + 1) else self.old) }
        ensures ended { OnOk result (end_of self.new lane ≡ end_of self.old lane + (weight key.now rec.now + 1)) }

        ensures appends { Appends self.old.sizes lane (end_of self.old lane) ((key.now, rec.now) ∷ []) (is_ok result) (D.state disk.old)
            (D.state disk.new) }
        ensures durable { OnOk result (IsTrue (D.state disk.old).is_honest → Only (D.state disk.new).bytes (D.state disk.new).images) }

        // Four calls of the disk, or fewer where one fails; the last is a sync. Whatever the images have, no byte outside the region changes, in none of any moment.
        ensures ends { OnOk result (EndsSynced 4 (D.state disk.old) (D.state disk.new)) }
        ensures effect { Affects (lane_region self.old.sizes lane) (file_length self.old.sizes) 4 (D.state disk.old) (D.state disk.new) }
        ensures faults { TellsFaults result (D.state disk.old) (D.state disk.new) }
    {
        let mut buffer = [0; LONGEST];
        let length = put_entry(key, rec, &mut buffer);
        let at = place_in_file(&self.geometry, lane, self.ends[lane as usize]);
        write_gated(disk, at, &buffer[..length])?;
        self.ends[lane as usize] += weight(key, rec) + 1;
        Ok(())
    }

    /// Writes the writes of a pack at the end of a lane, as one record: each of its calls is `append`'s.
    ///
    /// Once it is acknowledged each crash leaves all of them; a crash at any moment of the call leaves the lane with all of them or with none.
    /// After an `Err`, whose cause is a fault of the disk, nobody knows which, and the disk is to be opened again.
    /// A clause each for the lane's places, for what each crash leaves, for the calls and the faults.
    pub fn append_pack<D: Disk>(
        &mut self,
        disk: &mut D,
        lane: u8,
        pack: &Pack,
    ) -> Result<(), Failed>
        requires lane { lane < 3 }
        requires tails { AllByRecursion TailFits pack.now }
        requires light { total_weight pack.now ≤ most_weight }
        requires fits { end_of self.old lane + (total_weight pack.now + 5) + 1 ≤ region_length self.old.sizes }
        requires length { IsTrue (D.state disk.old).tells_bytes → length (D.state disk.old).bytes ≡ file_length self.old.sizes }

        ensures moved { self.new ≡ (if is_ok result then moved self.old lane (cost (entries_of pack.now)) else self.old) }
        ensures ended { OnOk result (end_of self.new lane ≡ end_of self.old lane + cost (entries_of pack.now)) }

        ensures appends { Appends self.old.sizes lane (end_of self.old lane) (entries_of pack.now) (is_ok result) (D.state disk.old)
            (D.state disk.new) }
        ensures durable { OnOk result (IsTrue (D.state disk.old).is_honest → Only (D.state disk.new).bytes (D.state disk.new).images) }

        ensures ends { OnOk result (EndsSynced 4 (D.state disk.old) (D.state disk.new)) }
        ensures effect { Affects (lane_region self.old.sizes lane) (file_length self.old.sizes) 4 (D.state disk.old) (D.state disk.new) }
        ensures faults { TellsFaults result (D.state disk.old) (D.state disk.new) }
    {
        let mut text = [0; ROOM];
        let length = put_pack(pack, &mut text);
        let at = place_in_file(&self.geometry, lane, self.ends[lane as usize]);
        write_gated(disk, at, &text[..length])?;
        self.ends[lane as usize] += length as u64;
        Ok(())
    }
}
