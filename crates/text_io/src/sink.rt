// Where bytes go.
ghost use Rattle.std.specs.Prelude.{◌≡◌, ◌<◌, ◌⊎◌, ◌+◌, ◌↔◌, Some, [], Contains, length, IfOk, IsErr, is_ok, if◌then◌else◌};
ghost use Rattle.refusal.specs.Count.{next_count};
ghost use Rattle.text_io.specs.Text.{SinkState, WritesSome};

use refusal::{Failed, NoMemory, raise};
use std::alloc::Global;
use std::marker::Model;

/// Where bytes go.
pub trait Sink {
    /// What stands behind it.
    ghost state: { Self → SinkState };

    /// Takes bytes from the front of the piece, and answers how many: one at least, where there is one.
    /// `Failed` takes none.
    fn write(&mut self, from: &[u8]) -> Result<usize, Failed>
        ensures { WritesSome result from.now (state self.old) (state self.new) };
}

/// Bytes in memory, of which it has room for `limit`. The listed calls fail, and a write past the limit, and no others.
/// The first call is number 1. A call that doesn't fail takes its whole piece.
#[derive(Debug, Drop)]
pub struct MemSink {
    bytes: Vec<u8>,
    limit: u64,
    fails: Vec<u64>,
    calls: u64,
    faults: u64,
}

impl Model for MemSink {
    ghost use Rattle.std.specs.Prelude.{◌≤◌, vec_capacity, vec_len};
    ghost use Rattle.text_io.specs.Memory.{ListedSink};

    ghost Value = { ListedSink };

    ghost view = { λ s. record {
      held = s.bytes.items;
      limit = s.limit;
      fails = s.fails.items;
      calls = s.calls;
      faults = s.faults;
    } };

    ghost invariant = { λ s. (vec_len s.bytes ≤ s.limit) × (s.limit ≤ vec_capacity s.bytes) };
}

impl MemSink {
    /// An empty sink with room for `limit` bytes, whose calls with these numbers fail.
    pub fn new(alloc: Global, limit: u64, fails: &[u64]) -> Result<MemSink, NoMemory>
        ensures { IfOk result (λ s. s ≡ record { held = []; limit = limit; fails = fails.now; calls = 0; faults = 0 }) }
    {
        Ok(MemSink {
            bytes: Vec::with_capacity(alloc, limit as usize)?,
            limit,
            fails: fails.to_vec(alloc)?,
            calls: 0,
            faults: 0,
        })
    }

    /// The bytes that it holds.
    pub fn bytes(&self) -> &[u8]
        ensures { result.now ≡ self.now.held }
    {
        &self.bytes
    }

    /// How often it has failed.
    pub fn faults(&self) -> u64
        ensures { result ≡ self.now.faults }
    {
        self.faults
    }
}

impl Sink for MemSink {
    ghost state = { λ s. record { held = Some s.held; faults = s.faults } };

    fn write(&mut self, from: &[u8]) -> Result<usize, Failed>
        ensures call { WritesSome result from.now (record { held = Some self.old.held; faults = self.old.faults }) (record { held = Some self.new.held; faults = self.new.faults }) }
        ensures whole { IfOk result (λ n. n ≡ length from.now) }
        ensures listed_or_past_limit { IsErr result ↔ (Contains self.old.fails (next_count self.old.calls) ⊎ (self.old.limit < length self.old.held + length from.now)) }
        ensures faults { self.new.faults ≡ (if is_ok result then self.old.faults else next_count self.old.faults) }
        ensures calls { self.new.calls ≡ next_count self.old.calls }
        ensures limit { self.new.limit ≡ self.old.limit }
        ensures fails { self.new.fails ≡ self.old.fails }
    {
        raise(&mut self.calls);
        if self.fails.contains(&self.calls)
            || self.limit as usize - self.bytes.len() < from.len()
            || self.bytes.extend_from_slice(from).is_err()
        {
            raise(&mut self.faults);
            return Err(Failed);
        }
        Ok(from.len())
    }
}

/// Bytes in memory, of which it has room for `limit`. Only a write past the limit fails.
#[derive(Debug, Drop)]
pub struct FaultlessSink {
    bytes: Vec<u8>,
    limit: u64,
    faults: u64,
}

impl Model for FaultlessSink {
    ghost use Rattle.std.specs.Prelude.{◌≤◌, vec_capacity, vec_len};
    ghost use Rattle.text_io.specs.Memory.{RoomySink};

    ghost Value = { RoomySink };

    ghost view = { λ s. record { held = s.bytes.items; limit = s.limit; faults = s.faults } };

    ghost invariant = { λ s. (vec_len s.bytes ≤ s.limit) × (s.limit ≤ vec_capacity s.bytes) };
}

impl FaultlessSink {
    /// An empty sink with room for `limit` bytes.
    pub fn new(alloc: Global, limit: u64) -> Result<FaultlessSink, NoMemory>
        ensures { IfOk result (λ s. s ≡ record { held = []; limit = limit; faults = 0 }) }
    {
        Ok(FaultlessSink {
            bytes: Vec::with_capacity(alloc, limit as usize)?,
            limit,
            faults: 0,
        })
    }

    /// The bytes that it holds.
    pub fn bytes(&self) -> &[u8]
        ensures { result.now ≡ self.now.held }
    {
        &self.bytes
    }
}

impl Sink for FaultlessSink {
    ghost state = { λ s. record { held = Some s.held; faults = s.faults } };

    fn write(&mut self, from: &[u8]) -> Result<usize, Failed>
        ensures call { WritesSome result from.now (record { held = Some self.old.held; faults = self.old.faults }) (record { held = Some self.new.held; faults = self.new.faults }) }
        ensures whole { IfOk result (λ n. n ≡ length from.now) }
        ensures past_limit { IsErr result ↔ (self.old.limit < length self.old.held + length from.now) }
        ensures faults { self.new.faults ≡ (if is_ok result then self.old.faults else next_count self.old.faults) }
        ensures limit { self.new.limit ≡ self.old.limit }
    {
        if self.limit as usize - self.bytes.len() < from.len()
            || self.bytes.extend_from_slice(from).is_err()
        {
            raise(&mut self.faults);
            return Err(Failed);
        }
        Ok(from.len())
    }
}
