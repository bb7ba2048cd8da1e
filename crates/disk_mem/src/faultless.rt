// A disk in memory that fails only where a write ends past its limit.
ghost use Rattle.std.specs.Prelude.{◌≡◌, ◌<◌, ◌≤◌, ◌+◌, ◌-◌, IsErr, IsOk, OnOk, OnErr, IfOk, refl, [], length, vec_capacity};
ghost use Rattle.refusal.specs.Count.{next_count};
ghost use Rattle.disk_trait.specs.Calls.{TellsLength, ReadsPart, WritesPart, Settles};
ghost use Rattle.disk_trait.specs.Disk.{overwritten};
ghost use Rattle.disk_mem.specs.Faultless.{faultless_state, faultless_timed, faultless_as_read, called, FailsToWrite};

use crate::bytes::overwrite;
use disk_trait::Disk;
use refusal::{Failed, NoMemory, raise};
use std::alloc::Global;
use std::marker::Model;

/// A disk in memory that keeps no record and tells no images. All numbers are bytes.
///
/// A call fails where its range lies past the end of the bytes, and a write where it ends past the limit; only the last raises the count.
#[derive(Drop)]
pub struct FaultlessDisk {
    bytes: Vec<u8>,
    calls: u64,
    faults: u64,
    limit: u64,
}

impl Model for FaultlessDisk {
    ghost use Rattle.std.specs.Prelude.{◌≤◌, length, vec_capacity};
    ghost use Rattle.disk_mem.specs.Faultless.{Faultless};

    ghost Value = { Faultless };

    ghost view = { λ d. record { bytes = d.bytes.items; calls = d.calls; faults = d.faults; limit = d.limit } };

    ghost invariant = { λ d. (length d.bytes.items ≤ d.limit) × (d.limit ≤ vec_capacity d.bytes) };
}

impl FaultlessDisk {
    /// An empty disk with room for `limit` bytes.
    pub fn new(alloc: Global, limit: u64) -> Result<FaultlessDisk, NoMemory>
        ensures { IfOk result (λ d. d ≡ record { bytes = []; calls = 0; faults = 0; limit = limit }) }
    {
        Ok(FaultlessDisk {
            bytes: Vec::with_capacity(alloc, limit as usize)?,
            calls: 0,
            faults: 0,
            limit,
        })
    }
}

impl Disk for FaultlessDisk {
    ghost state = { faultless_state };

    ghost timed = { faultless_timed };

    ghost as_read = { faultless_as_read };

    ghost honest_tells = { λ d honest. refl };

    ghost images_tell = { λ d tells. refl };

    fn len(&mut self) -> Result<u64, Failed>
        ensures call { TellsLength result (faultless_state self.old) (faultless_state self.new) }
        // It never fails.
        ensures ends_well { IsOk result }
        ensures called { self.new ≡ called self.old }
    {
        self.calls = self.calls.saturating_add(1);
        Ok(self.bytes.len() as u64)
    }

    fn read(&mut self, at: u64, into: &mut [u8]) -> Result<(), Failed>
        ensures call { ReadsPart result at into.old into.new (faultless_state self.old) (faultless_state self.new) }
        // It fails only where the range ends past the bytes.
        ensures cause { IsErr result → length self.old.bytes < at + length into.old }
        ensures called { self.new ≡ called self.old }
    {
        self.calls = self.calls.saturating_add(1);
        let place = at as usize;
        if place > self.bytes.len() || into.len() > self.bytes.len() - place {
            return Err(Failed);
        }
        into.copy_from_slice(&self.bytes[place..place + into.len()]);
        Ok(())
    }

    fn write(&mut self, at: u64, from: &[u8]) -> Result<(), Failed>
        ensures call { WritesPart result at from.now (faultless_state self.old) (faultless_state self.new) }
        // It fails exactly where it begins past the bytes or ends past the limit, and writes nothing then.
        ensures cause { IsErr result → FailsToWrite at (length from.now) self.old }
        ensures fails { FailsToWrite at (length from.now) self.old → IsErr result }
        ensures written { OnOk result (self.new ≡ record (called self.old) { bytes = overwritten self.old.bytes at from.now }) }
        ensures beyond { length self.old.bytes < at → self.new ≡ called self.old }
        ensures past_limit { at ≤ length self.old.bytes → OnErr result (self.new ≡ record (called self.old) { faults = next_count self.old.faults }) }
    {
        self.calls = self.calls.saturating_add(1);
        let place = at as usize;
        if place > self.bytes.len() {
            return Err(Failed);
        }
        if self.limit - at < from.len() as u64 || overwrite(&mut self.bytes, place, from).is_err() {
            raise(&mut self.faults);
            return Err(Failed);
        }
        Ok(())
    }

    fn sync(&mut self) -> Result<(), Failed>
        ensures call { Settles result (faultless_state self.old) (faultless_state self.new) }
        // It never fails.
        ensures ends_well { IsOk result }
        ensures called { self.new ≡ called self.old }
    {
        self.calls = self.calls.saturating_add(1);
        Ok(())
    }

    fn faults(&self) -> u64 {
        self.faults
    }
}
