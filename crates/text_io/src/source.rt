// Bytes that are read to their end.
ghost use Rattle.std.specs.Prelude.{◌≡◌, ◌<◌, ◌≤◌, ◌↔◌, Some, Contains, length, drop, min, IfOk, IsErr, IsOk, is_ok, if◌then◌else◌};
ghost use Rattle.refusal.specs.Count.{next_count};
ghost use Rattle.text_io.specs.Text.{Gives, ReadsSome, SourceState};

use refusal::{Failed, NoMemory, raise};
use std::alloc::Global;
use std::marker::Model;

/// Where bytes come from.
pub trait Source {
    /// What stands behind it.
    ghost state: { Self → SourceState };

    /// Puts bytes at the front of the slice, and answers how many.
    /// None, for a slice with room, is the end. `Failed` takes none of the bytes.
    fn read(&mut self, into: &mut [u8]) -> Result<usize, Failed>
        ensures { ReadsSome result (length into.old) into.new (state self.old) (state self.new) };
}

// Moves bytes from a place of a text to the front of the slice, as many as both allow, and no more than so many.
fn give(bytes: &[u8], at: &mut usize, most: usize, into: &mut [u8]) -> usize
    requires place { at.old ≤ length bytes.now }
    requires some { 0 < most }
    ensures place { at.new ≤ length bytes.now }
    ensures gives { Gives (Some (drop at.old bytes.now)) (Some (drop at.new bytes.now)) (length into.old) into.new result }
    ensures most { result ≡ min (min (length into.old) most) (length (drop at.old bytes.now)) }
{
    let n = into.len().min(most).min(bytes.len() - *at);
    into[..n].copy_from_slice(&bytes[*at..*at + n]);
    *at += n;
    n
}

/// A text in memory, whose listed calls fail and no others. The first call is number 1. A call gives at most so many bytes, as
/// one of a pipe gives what is there.
#[derive(Debug, Drop)]
pub struct MemSource {
    bytes: Vec<u8>,
    at: usize,
    most: usize,
    fails: Vec<u64>,
    calls: u64,
    faults: u64,
}

impl Model for MemSource {
    ghost use Rattle.std.specs.Prelude.{◌<◌, ◌≤◌, drop, length};
    ghost use Rattle.text_io.specs.Memory.{ListedSource};

    ghost Value = { ListedSource };

    ghost view = { λ s. record {
      left = drop s.at s.bytes.items;
      most = s.most;
      fails = s.fails.items;
      calls = s.calls;
      faults = s.faults;
    } };

    ghost invariant = { λ s. (s.at ≤ length s.bytes.items) × (0 < s.most) };
}

impl MemSource {
    /// A source with these bytes, whose calls with these numbers fail.
    pub fn new(alloc: Global, bytes: &[u8], fails: &[u64]) -> Result<MemSource, NoMemory>
        ensures { IfOk result (λ s. s ≡ record { left = bytes.now; most = usize.MAX; fails = fails.now; calls = 0; faults = 0 }) }
    {
        MemSource::in_pieces(alloc, bytes, usize::MAX, fails)
    }

    /// A source with these bytes, of which a call gives at most so many, and whose calls with these numbers fail.
    pub fn in_pieces(
        alloc: Global,
        bytes: &[u8],
        most: usize,
        fails: &[u64],
    ) -> Result<MemSource, NoMemory>
        requires { 0 < most }
        ensures { IfOk result (λ s. s ≡ record { left = bytes.now; most = most; fails = fails.now; calls = 0; faults = 0 }) }
    {
        Ok(MemSource {
            bytes: bytes.to_vec(alloc)?,
            at: 0,
            most,
            fails: fails.to_vec(alloc)?,
            calls: 0,
            faults: 0,
        })
    }
}

impl Source for MemSource {
    ghost state = { λ s. record { left = Some s.left; faults = s.faults } };

    fn read(&mut self, into: &mut [u8]) -> Result<usize, Failed>
        ensures call { ReadsSome result (length into.old) into.new (record { left = Some self.old.left; faults = self.old.faults }) (record { left = Some self.new.left; faults = self.new.faults }) }
        ensures most { IfOk result (λ n. n ≡ min (min (length into.old) self.old.most) (length self.old.left)) }
        ensures listed { IsErr result ↔ Contains self.old.fails (next_count self.old.calls) }
        ensures faults { self.new.faults ≡ (if is_ok result then self.old.faults else next_count self.old.faults) }
        ensures calls { self.new.calls ≡ next_count self.old.calls }
        ensures fails { self.new.fails ≡ self.old.fails }
        ensures pieces { self.new.most ≡ self.old.most }
    {
        raise(&mut self.calls);
        if self.fails.contains(&self.calls) {
            raise(&mut self.faults);
            return Err(Failed);
        }
        Ok(give(&self.bytes, &mut self.at, self.most, into))
    }
}

/// A text in memory, which never fails.
#[derive(Debug, Drop)]
pub struct FaultlessSource {
    bytes: Vec<u8>,
    at: usize,
}

impl Model for FaultlessSource {
    ghost use Rattle.std.specs.Prelude.{◌≤◌, ℕ, List, drop, length};

    ghost Value = { List ℕ };

    ghost view = { λ s. drop s.at s.bytes.items };

    ghost invariant = { λ s. s.at ≤ length s.bytes.items };
}

impl FaultlessSource {
    /// A source with these bytes.
    pub fn new(alloc: Global, bytes: &[u8]) -> Result<FaultlessSource, NoMemory>
        ensures { IfOk result (λ s. s ≡ bytes.now) }
    {
        Ok(FaultlessSource {
            bytes: bytes.to_vec(alloc)?,
            at: 0,
        })
    }
}

impl Source for FaultlessSource {
    ghost state = { λ s. record { left = Some s; faults = 0 } };

    fn read(&mut self, into: &mut [u8]) -> Result<usize, Failed>
        ensures gives { IfOk result (Gives (Some self.old) (Some self.new) (length into.old) into.new) }
        ensures most { IfOk result (λ n. n ≡ min (length into.old) (length self.old)) }
        ensures ok { IsOk result }
    {
        Ok(give(&self.bytes, &mut self.at, usize::MAX, into))
    }
}
