//! Reading a lane: its entries one by one, and then its end.
ghost use Rattle.std.specs.Prelude.{◌≡◌, ◌<◌, ◌≤◌, ◌+◌, ℕ, List, [], length, take, Err, IfOk, IsTrue};
ghost use Rattle.disk_trait.specs.Disk.{part, TellsFaults, TellsFaultsBy};
ghost use Rattle.disk_trait.specs.Reads.{OnlyReads};
ghost use Rattle.blsm_model.specs.declared.key.Key.{Key};
ghost use Rattle.blsm_model.specs.Geometry.{file_length};
ghost use Rattle.blsm_model.specs.Lanes.{region_length};
ghost use Rattle.record_delta.specs.declared.record.Rec.{Rec};
ghost use Rattle.record_delta.specs.Entries.{Entries};
ghost use Rattle.gated_log.specs.Replay.{ReplayState, HasGiven, IsKept, IsReadFrom, IsStep, TellsBlock, TellsLane, step_calls};

use crate::records::{LONGEST, entries_at};
use crate::region::{length_of, place_in_file};
use blsm_model::{Geometry, Key};
use disk_trait::Disk;
use entry_codec::decode;
use gated_write::OPEN;
use record_delta::Rec;
use refusal::Failed;
use std::marker::Model;
use thiserror::Error;

/// Why a lane can't be read on.
#[derive(Clone, Copy, PartialEq, Eq, Debug, Error)]
pub enum LaneBroken {
    /// The disk failed to read.
    #[error("a read of the log failed")]
    Fault,
    /// In the region of this number an open gate isn't followed by a record with its next gate inside the region.
    #[error("lane {0} is damaged")]
    Damaged(u8),
}

impl From<Failed> for LaneBroken {
    ghost use Rattle.gated_log.specs.declared.replay.LaneBroken.TheVariants.{Fault};

    ghost from_gives = { λ _ broken. broken ≡ Fault };

    fn from(_failed: Failed) -> LaneBroken {
        LaneBroken::Fault
    }
}

// A gate and the longest record behind it, in bytes.
const BLOCK_LEN: usize = LONGEST + 1;

// A block whose first so many bytes are those of the file from this place on.
fn read_block<D: Disk>(disk: &mut D, at: u64, count: usize) -> Result<[u8; BLOCK_LEN], Failed>
    requires count { count ≤ BLOCK_LEN }
    requires inside { IsTrue (D.state disk.old).tells_bytes → at + count ≤ length (D.state disk.old).bytes }
    ensures front { IfOk result (λ bytes. IsTrue (D.state disk.old).tells_bytes → take count bytes ≡ part (D.state disk.new).bytes at count) }
    ensures effect { OnlyReads (at + count) 1 (D.state disk.old) (D.state disk.new) }
    ensures faults { TellsFaults result (D.state disk.old) (D.state disk.new) }
{
    let mut bytes = [0; BLOCK_LEN];
    disk.read(at, &mut bytes[..count])?;
    Ok(bytes)
}

// A block that was read, and where the bytes of its entries stand that weren't given.
#[derive(Debug, Drop)]
struct Block {
    bytes: [u8; BLOCK_LEN],
    from: usize,
    to: usize,
}

/// A replay of a lane: the place of the next gate, in bytes from its region's start, and the entries before it that are still to be given.
#[derive(Debug, Drop)]
pub struct Replay {
    geometry: Geometry,
    lane: u8,
    end: u64,
    kept: Block,
}

impl Model for Replay {
    ghost use Rattle.std.specs.Prelude.{◌<◌, ◌≤◌};
    ghost use Rattle.std.specs.List.{between};
    ghost use Rattle.blsm_model.specs.Lanes.{region_length};
    ghost use Rattle.gated_log.specs.Records.{AreKept};
    ghost use Rattle.gated_log.specs.Replay.{ReplayState};

    ghost Value = { ReplayState };

    ghost view = { λ r. record { sizes = r.geometry; lane = r.lane; end = r.end; behind = between r.kept.from r.kept.to r.kept.bytes } };

    ghost invariant = { λ r. (r.lane < 3) × (r.end < region_length r.geometry) × (r.kept.from ≤ r.kept.to) × (r.kept.to ≤ 517)
        × AreKept (between r.kept.from r.kept.to r.kept.bytes) };
}

impl Replay {
    /// A replay that begins at the start of a lane, which is named by its region's number, 0 to 2.
    pub fn new(geometry: &Geometry, lane: u8) -> Replay
        requires { lane < 3 }
        ensures start { result ≡ record { sizes = geometry.now; lane = lane; end = 0; behind = [] } }
        ensures nothing { (file : List ℕ) → HasGiven result [] file }
    {
        // A region isn't empty, so its first gate lies inside it.
        let _region_length = length_of(geometry);
        Replay {
            geometry: *geometry,
            lane,
            end: 0,
            kept: Block {
                bytes: [0; BLOCK_LEN],
                from: 0,
                to: 0,
            },
        }
    }

    /// Where the next gate stands, in bytes from the region's start. Once `next` gave `None` it is the lane's closed gate.
    pub fn end(&self) -> u64
        ensures place { result ≡ self.now.end }
        ensures inside { result < region_length self.now.sizes }
    {
        self.end
    }

    // Reads the next gate and the record behind it.
    fn look<D: Disk>(&self, disk: &mut D) -> Result<Option<Block>, LaneBroken>
        requires { IsTrue (D.state disk.old).tells_bytes → length (D.state disk.old).bytes ≡ file_length self.now.sizes }
        ensures block { TellsBlock self.now (IsTrue (D.state disk.old).tells_bytes) (D.state disk.new).bytes result }
        ensures effect { OnlyReads (file_length self.now.sizes) 1 (D.state disk.old) (D.state disk.new) }
        ensures faults { TellsFaultsBy (Err LaneBroken.Fault) result (D.state disk.old) (D.state disk.new) }
    {
        // So many bytes as a record may have whose own next gate lies inside the region.
        let room = length_of(&self.geometry).saturating_sub(self.end + 2);
        let length = 1 + room.min(LONGEST as u64) as usize;
        let at = place_in_file(&self.geometry, self.lane, self.end);
        let Ok(bytes) = read_block(disk, at, length) else {
            return Err(LaneBroken::Fault);
        };
        let block = &bytes[..length];
        if block[0] != OPEN {
            return Ok(None);
        }
        match entries_at(&block[1..]) {
            Some((from, to)) => Ok(Some(Block {
                bytes,
                from: 1 + from,
                to: 1 + to,
            })),
            None => Err(LaneBroken::Damaged(self.lane)),
        }
    }

    // Gives the first of the entries that were kept.
    fn take_first(&mut self) -> (Key, Rec)
        requires { 0 < length self.old.behind }
        ensures { IsKept self.old result self.new }
    {
        match decode(&self.kept.bytes[self.kept.from..self.kept.to]) {
            Some((key, rec, length)) => {
                self.kept.from += length;
                (key, rec)
            }
            None => unreachable!(),
        }
    }

    /// The lane's next entry: the record and its key, or `None` at the lane's closed gate, now and from then on.
    ///
    /// It reads a record whole, in one call of the disk, tests it whole, and gives its entries one by one from the bytes that it read. So each call
    /// reads the disk once at most, and not at all while entries are kept; it takes no memory. A record moves the next gate by the weight of its
    /// entries and one, or five where they are several. `Damaged` comes exactly where the next gate is open and no record follows with its own next
    /// gate inside the region; `Fault` only where the disk's count of faults rose. After an `Err` the replay stands where it stood.
    pub fn next<D: Disk>(&mut self, disk: &mut D) -> Result<Option<(Key, Rec)>, LaneBroken>
        requires { IsTrue (D.state disk.old).tells_bytes → length (D.state disk.old).bytes ≡ file_length self.old.sizes }
        ensures step { IsStep self.old result self.new }
        ensures same { (self.new.sizes ≡ self.old.sizes) × (self.new.lane ≡ self.old.lane) }

        // What an answer says of the bytes at the place, whatever stands before it; and of a lane that begins with the entries given
        // so far. The bytes are those that a read gives after the call; on an honest disk they are those from before it.
        ensures read { IsTrue (D.state disk.old).tells_bytes → IsReadFrom self.old (D.state disk.new).bytes result self.new }
        ensures told { (entries : Entries) → IsTrue (D.state disk.old).tells_bytes → HasGiven self.old entries (D.state disk.new).bytes
            → TellsLane self.old entries (D.state disk.new).bytes result self.new }
        ensures effect { OnlyReads (file_length self.old.sizes) (step_calls self.old.behind) (D.state disk.old) (D.state disk.new) }
        ensures faults { TellsFaultsBy (Err LaneBroken.Fault) result (D.state disk.old) (D.state disk.new) }
    {
        if self.kept.from < self.kept.to {
            return Ok(Some(self.take_first()));
        }
        match self.look(disk)? {
            Some(block) => {
                self.end += block.to as u64;
                self.kept = block;
                Ok(Some(self.take_first()))
            }
            None => Ok(None),
        }
    }
}
