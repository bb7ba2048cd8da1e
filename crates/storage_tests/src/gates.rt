// A disk that tells nothing, as a real file, and the text that is written over it.
ghost use Rattle.std.specs.Prelude.{◌≡◌, ◌≤◌, ◌<◌, ◌+◌, ◌-◌, ◌^◌, IsErr, OnOk};
ghost use Rattle.refusal.specs.Count.{HasRisen};
ghost use Rattle.disk_trait.specs.Untold.{untold_state, untold_timed, untold_as_read};

use crate::asserts::assert_same_at;
use crate::samples::put;
use disk_trait::Disk;
use gated_write::{OPEN, write_gated};
use refusal::Failed;
use std::process::Abort;

const SIZE: usize = 8;

// Eight bytes, of which nothing is told. One call fails, by its number.
#[derive(Drop)]
struct Slate {
    bytes: [u8; SIZE],
    calls: u64,
    failing: u64,
    faults: u64,
}

impl Slate {
    fn new(failing: u64) -> Slate {
        Slate {
            bytes: [0; SIZE],
            calls: 0,
            failing,
            faults: 0,
        }
    }

    // Counts a call, and fails where it is the one that is to fail or its range doesn't fit.
    fn count(&mut self, fits: bool) -> Result<(), Failed>
        ensures later { self.old.calls ≤ self.new.calls }
        ensures at_most_one { self.new.calls ≤ self.old.calls + 1 }
        ensures one { self.old.calls < 2 ^ 64 - 1 → self.new.calls ≡ self.old.calls + 1 }
        ensures no_fall { self.old.faults ≤ self.new.faults }
        ensures stands { OnOk result (self.new.faults ≡ self.old.faults) }
        ensures failed { IsErr result → HasRisen self.old.faults self.new.faults }
        ensures one_fault { self.new.faults ≤ self.old.faults + 1 }
    {
        self.calls = self.calls.saturating_add(1);
        if self.calls == self.failing || !fits {
            self.faults = self.faults.saturating_add(1);
            return Err(Failed);
        }
        Ok(())
    }
}

// Where the range begins, if it fits.
fn place_of(at: u64, len: usize) -> Option<usize> {
    let place = at as usize;
    if place <= SIZE && len <= SIZE - place {
        Some(place)
    } else {
        None
    }
}

impl Disk for Slate {
    ghost state = { λ d. untold_state d.calls d.faults };

    ghost timed = { λ d. untold_timed d.calls d.faults };

    ghost as_read = { λ d. untold_as_read d.calls d.faults };

    ghost honest_tells = { λ d honest. honest };

    ghost images_tell = { λ d tells. tells };

    fn len(&mut self) -> Result<u64, Failed> {
        self.count(true)?;
        Ok(SIZE as u64)
    }

    fn read(&mut self, at: u64, into: &mut [u8]) -> Result<(), Failed> {
        let place = place_of(at, into.len());
        self.count(place.is_some())?;
        if let Some(place) = place {
            for (i, byte) in into.iter_mut().enumerate() {
                *byte = self
                    .bytes
                    .get(place.saturating_add(i))
                    .copied()
                    .unwrap_or(0);
            }
        }
        Ok(())
    }

    fn write(&mut self, at: u64, from: &[u8]) -> Result<(), Failed> {
        let place = place_of(at, from.len());
        self.count(place.is_some())?;
        if let Some(place) = place {
            put(&mut self.bytes, place, from);
        }
        Ok(())
    }

    fn sync(&mut self) -> Result<(), Failed> {
        self.count(true)
    }

    fn faults(&self) -> u64 {
        self.faults
    }
}

// What is written where this call fails, or none.
fn written(rt: &impl Abort, failing: u64, ends_well: bool, bytes: [u8; SIZE], calls: u64) {
    let mut slate = Slate::new(failing);
    let outcome = write_gated(&mut slate, 2, &[5, 6]);
    let faults = if ends_well { 0 } else { 1 };
    assert_same_at(rt, outcome.is_ok(), ends_well, failing);
    assert_same_at(rt, slate.bytes, bytes, failing);
    assert_same_at(rt, slate.calls, calls, failing);
    assert_same_at(rt, slate.faults(), faults, failing);
}

// The gate opens with the third call, once the text was written and synced; a call that fails ends it there.
#[test]
fn the_gate_opens_once_the_text_stands(rt: HostRuntime) {
    let rows = [
        (0, true, [0, 0, OPEN, 5, 6, 0, 0, 0], 4),
        (1, false, [0; SIZE], 1),
        (2, false, [0, 0, 0, 5, 6, 0, 0, 0], 2),
        (3, false, [0, 0, 0, 5, 6, 0, 0, 0], 3),
        (4, false, [0, 0, OPEN, 5, 6, 0, 0, 0], 4),
    ];
    for &(failing, ends_well, bytes, calls) in &rows {
        written(&rt, failing, ends_well, bytes, calls);
    }
}
