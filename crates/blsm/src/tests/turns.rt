// Scripts of several callers, whose lines are done in the order in which they stand.
use super::asserts::{assert_same, assert_that};
use super::{NAME, owned, text_in};
use blsm_model::{Gate, Point};
use blsm_run::blsm_run;
use disk_mem::MemShelf;
use std::alloc::Global;
use std::process::Abort;
use std::sync::Wait;
use std::sync::atomic::{AtomicBool, AtomicU64, Ordering};
use std::thread::{Threads, yield_now};
use text_io::{FaultlessSink, FaultlessSource};

// How often a caller looks whether it is its turn. Callers who do their lines one after the other look so often in vain.
const MOST_LOOKS: u64 = 20_000_000;

// How many bytes a text may have.
const TEXT_LIMIT: u64 = 1 << 20;

// Each caller waits behind each of its lines until all lines are done that stand before its next one. No gate stands before the first line of a caller, so
// the first lines, one of each caller, are done in any order.
#[derive(Drop)]
pub struct InTurn {
    // The caller of each line, from 0.
    seats: Vec<u32>,
    // How many lines come first, in any order.
    free: u64,
    answered: AtomicU64,
    gave_up: AtomicBool,
}

impl InTurn {
    // Whether each caller's turn came in time.
    pub fn kept(&self) -> bool {
        !self.gave_up.load(Ordering::SeqCst)
    }

    // The place of the first line from this one on that the caller has, or 0.
    fn next_of(&self, seat: u32, from: u64) -> u64 {
        let mut place: u64 = 0;
        for other in self.seats.iter() {
            if from <= place && *other == seat {
                return place;
            }
            place = place.saturating_add(1);
        }
        0
    }

    fn wait_until(&self, answered: u64) {
        for _ in 0..MOST_LOOKS {
            if answered <= self.answered.load(Ordering::SeqCst) {
                return;
            }
            yield_now();
        }
        self.gave_up.store(true, Ordering::SeqCst);
    }
}

impl Gate for InTurn {
    fn at(&self, seat: u32, point: Point) {
        if let Point::Answered = point {
            let answered = self
                .answered
                .fetch_add(1, Ordering::SeqCst)
                .saturating_add(1);
            let next = self.next_of(seat, answered.max(self.free));
            self.wait_until(next);
        }
    }
}

// The caller of a line, from 0.
fn seat_of(rt: &impl Abort, line: &str) -> u32 {
    let Some(word) = line.split(' ').next() else {
        rt.abort()
    };
    match word.parse::<u32>() {
        Ok(caller) => caller.saturating_sub(1),
        Err(_) => rt.abort(),
    }
}

// The gate of a script, of whose lines so many come first.
pub fn in_turn(rt: &impl Abort, alloc: Global, script: &str, free: u64) -> InTurn {
    let mut seats = Vec::new(alloc);
    for line in script.lines() {
        if seats.push(seat_of(rt, line)).is_err() {
            rt.abort()
        }
    }
    InTurn {
        seats,
        free,
        answered: AtomicU64::new(0),
        gave_up: AtomicBool::new(false),
    }
}

// Runs a script with so many workers beside this gate, and answers its status and its text.
pub fn outcome_gated<R: Abort + Threads + Wait + Sync, G: Gate + Sync>(
    rt: &R,
    alloc: Global,
    shelf: &mut MemShelf,
    workers: &str,
    script: &str,
    gate: &G,
) -> (u8, String) {
    let words = owned(rt, alloc, &["blsm", "run", NAME, "--workers", workers]);
    let Ok(mut source) = FaultlessSource::new(alloc, script.as_bytes()) else {
        rt.abort()
    };
    let Ok(mut sink) = FaultlessSink::new(alloc, TEXT_LIMIT) else {
        rt.abort()
    };
    let status = blsm_run(rt, alloc, &words, &mut source, &mut sink, shelf, gate);
    (status.code(), text_in(rt, alloc, sink.bytes()))
}

// Runs a script with so many workers beside this gate, and answers its text. All is done well.
pub fn run_gated<R: Abort + Threads + Wait + Sync, G: Gate + Sync>(
    rt: &R,
    alloc: Global,
    shelf: &mut MemShelf,
    workers: &str,
    script: &str,
    gate: &G,
) -> String {
    let (status, text) = outcome_gated(rt, alloc, shelf, workers, script, gate);
    assert_same(rt, status, 0);
    text
}

// Runs a script whose lines are done in the order in which they stand, but for the first so many, and answers its text.
pub fn run_in_turn<R: Abort + Threads + Wait + Sync>(
    rt: &R,
    alloc: Global,
    shelf: &mut MemShelf,
    script: &str,
    free: u64,
) -> String {
    let gate = in_turn(rt, alloc, script, free);
    let text = run_gated(rt, alloc, shelf, "0", script, &gate);
    assert_that(rt, gate.kept());
    text
}

// The lines of a text behind its first so many.
pub fn check_behind(rt: &impl Abort, text: &str, first: usize, wanted: &[&str]) {
    let mut lines = text.lines().skip(first);
    for want in wanted {
        let Some(line) = lines.next() else { rt.abort() };
        assert_same(rt, line, *want);
    }
    assert_that(rt, lines.next().is_none());
}
