// A disk in memory that keeps a record of its calls, by which it tells what a crash at each moment may leave.
ghost use Rattle.std.specs.Prelude.{◌≡◌, ◌<◌, ◌+◌, false, IsTrue, IsErr, OnOk, OnErr, IfOk, refl, [], ◌∷◌, ◌++◌, length, is_ok};
ghost use Rattle.disk_trait.specs.Calls.{TellsLength, ReadsPart, WritesPart, Settles};
ghost use Rattle.disk_mem.specs.Recorded.{is_untouched, new_disk, told, look, sync_call, write_call, Fails, Outcome};
ghost use Rattle.disk_mem.specs.Images.{IsPicked};
ghost use Rattle.disk_mem.specs.Start.{StartsAs};
ghost use Rattle.disk_mem.specs.Laws.{told_timed, told_as_read};

use crate::recorder::Recorder;
use disk_trait::Disk;
use refusal::{Failed, NoMemory};
use std::alloc::Global;
use std::marker::Model;

/// A disk in memory. All numbers are bytes, and calls are counted from 1 since it was made.
///
/// It keeps a record of its calls, of a size that is chosen when it is made: a call takes 16 bytes, a write also the bytes that
/// it was to write. By it the disk tells what a crash at each moment might have left. A call fails past its record, where it is
/// listed, after the stop, past the end of the bytes, and where a write ends past the limit; else it ends well. Once a call came
/// past the record, each later one does.
#[derive(Drop)]
pub struct MemDisk {
    recorder: Recorder,
}

impl Model for MemDisk {
    ghost use Rattle.disk_mem.specs.Recorded.{Recorded};
    ghost use Rattle.disk_mem.specs.Recorder.{recorded};

    ghost Value = { Recorded };

    ghost view = { λ d. recorded d.recorder };
}

impl MemDisk {
    /// An empty disk with room for `limit` bytes and a record of `kept` bytes.
    pub fn new(alloc: Global, limit: u64, kept: u64) -> Result<MemDisk, NoMemory>
        ensures made { IfOk result (λ d. d ≡ new_disk [] limit kept) }
        ensures starts { IfOk result (λ d. StartsAs [] (told d)) }
    {
        Ok(MemDisk {
            recorder: Recorder::new(alloc, &[], limit, kept)?,
        })
    }

    /// Lists one call more that is to fail, by its number. One that was answered already changes nothing.
    pub fn fail(&mut self, call: u64) -> Result<(), NoMemory>
        ensures ok { OnOk result (self.new ≡ record self.old { fails = self.old.fails ++ call ∷ [] }) }
        ensures err { OnErr result (self.new ≡ self.old) }
    {
        self.recorder.fail(call)
    }

    /// Every call after this number fails.
    pub fn stop_after(&mut self, call: u64)
        ensures { self.new ≡ record self.old { stop = call } }
    {
        self.recorder.stop_after(call);
    }

    /// Before this call the bytes at an offset change, by no call of the disk, which is no longer honest. What lies past the end
    /// is left out.
    pub fn poke(&mut self, call: u64, at: u64, bytes: &[u8]) -> Result<(), NoMemory>
        ensures ok { OnOk result (self.new ≡ record self.old {
          changes = self.old.changes
              ++ record { call = call; at = at; bytes = bytes.now } ∷ [];
        }) }
        ensures dishonest { OnOk result ((told self.new).is_honest ≡ false) }
        ensures err { OnErr result (self.new ≡ self.old) }
    {
        self.recorder.poke(call, at, bytes)
    }

    /// A disk of the same limit and record size that holds one of the images which a crash now may leave, with no call answered
    /// yet and none that is to fail. What pokes changed before a call of the record stands in it from that call on.
    ///
    /// The number picks the image: it says how each write stands that came since the last sync that ended well, failed writes
    /// too. They are counted from 0, the oldest first.
    ///
    /// Two digits tear a write of n bytes. The lower one, below n + 1, says how many of its bytes, from its beginning, stand in
    /// the image. The other is 0 or 1: where it is 1, one byte follows them that is neither the old nor the new one, or, where
    /// all bytes would stand, there are zeros in their place. Where the image ends before the write begins, nothing of it stands.
    ///
    /// A number below 10^18 has two digits for each write, the first write's lowest. So it reaches any two digits of each of the
    /// first few writes, whatever those of the others are, as long as such a number is below 10^18.
    ///
    /// From 10^18 on a number has four decimal parts, as `K_DDD_DDD_DDD_DDD_TTT_PPP`. By its kind K those writes stand in whole
    /// that come before write P (1), all but write P (2), or write P alone (3 and more), and of the others nothing stands. Write
    /// T alone is torn as the lowest two digits of D say; where there is no write T, none is. So `1_000_000_000_000_999_000` is
    /// the image without any of up to 999 writes, and `2_000_000_000_000_999_999` the one with all of them.
    ///
    /// An image may be longer than the limit, where a write past it had failed.
    pub fn image(&self, pick: u64) -> Result<MemDisk, NoMemory>
        ensures made { IfOk result (λ d. d ≡ new_disk d.bytes self.now.limit self.now.kept) }
        ensures image { IfOk result (λ d. IsTrue (is_untouched self.now.changes) → (told self.now).images d.bytes) }
        ensures picked { IfOk result (λ d. IsPicked pick self.now d.bytes) }
        ensures starts { IfOk result (λ d. StartsAs d.bytes (told d)) }
    {
        Ok(MemDisk {
            recorder: self.recorder.image(pick)?,
        })
    }
}

impl MemDisk {
    /// The same disk with its count of faults at 0.
    pub(crate) fn without_faults(self) -> MemDisk
        ensures { result ≡ record self { faults = 0 } }
    {
        MemDisk {
            recorder: self.recorder.without_faults(),
        }
    }
}

impl Disk for MemDisk {
    ghost state = { told };

    ghost timed = { told_timed };

    ghost as_read = { λ d honest tells. told_as_read d honest };

    ghost honest_tells = { λ d honest. refl };

    ghost images_tell = { λ d tells. refl };

    fn len(&mut self) -> Result<u64, Failed>
        ensures call { TellsLength result (told self.old) (told self.new) }
        // It fails exactly where it is listed, after the stop, and past the record.
        ensures cause { IsErr result → Fails (look 0) self.old }
        ensures fails { Fails (look 0) self.old → IsErr result }
        ensures outcome { Outcome (look 0) self.old self.new (is_ok result) }
    {
        self.recorder.len()
    }

    fn read(&mut self, at: u64, into: &mut [u8]) -> Result<(), Failed>
        ensures call { ReadsPart result at into.old into.new (told self.old) (told self.new) }
        // It fails exactly where it is listed, after the stop, past the record, and where the range ends past the bytes.
        ensures cause { IsErr result → Fails (look (at + length into.old)) self.old }
        ensures fails { Fails (look (at + length into.old)) self.old → IsErr result }
        ensures outcome { Outcome (look (at + length into.old)) self.old self.new (is_ok result) }
    {
        self.recorder.read(at, into)
    }

    fn write(&mut self, at: u64, from: &[u8]) -> Result<(), Failed>
        ensures call { WritesPart result at from.now (told self.old) (told self.new) }
        // It fails exactly where it is listed, after the stop, past the record, where it begins past the bytes, and where it ends past the limit.
        ensures cause { IsErr result → Fails (write_call at from.now) self.old }
        ensures fails { Fails (write_call at from.now) self.old → IsErr result }
        ensures outcome { Outcome (write_call at from.now) self.old self.new (is_ok result) }
    {
        self.recorder.write(at, from)
    }

    fn sync(&mut self) -> Result<(), Failed>
        ensures call { Settles result (told self.old) (told self.new) }
        // It fails exactly where it is listed, after the stop, and past the record.
        ensures cause { IsErr result → Fails sync_call self.old }
        ensures fails { Fails sync_call self.old → IsErr result }
        ensures outcome { Outcome sync_call self.old self.new (is_ok result) }
    {
        self.recorder.sync()
    }

    fn faults(&self) -> u64 {
        self.recorder.faults()
    }
}
