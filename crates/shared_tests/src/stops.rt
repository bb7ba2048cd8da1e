// Runs of drawn scripts whose disk stops, and what each image holds that a crash may leave then.
use crate::asserts::{assert_same, assert_that_at};
use crate::judge::Judge;
use crate::random::{Draws, any_script, lookups};
use crate::stores::{run, stopping};
use crate::threads::{LOW, run_judged};
use disk_mem::MemDisk;
use script_text::Script;
use std::alloc::Global;
use std::process::Abort;
use std::sync::Wait;
use std::thread::Threads;

// How many lines a script has, of sixteen callers, and how many workers help them.
const LINES: u32 = 60;

const WORKERS: u32 = 4;

// Which of the writes that wait for a sync an image names: an append has one, and so have most moments; a merge has some.
const WRITES: u64 = 3;

// The digits that tear a page: how many of its bytes stand, and whether a strange byte follows them.
const DIGITS: u64 = 8_194;

// A disk that was stopped, the judge of the history, and lookups of all keys.
#[derive(Drop)]
struct Left {
    disk: MemDisk,
    judge: Judge,
    lookups: Script,
}

// The number of an image: by its kind and a place those writes stand whole that come before the place, all but the one there, or it alone; one write
// more is torn, as these digits say.
fn pick_of(kind: u64, place: u64, torn: u64, digits: u64) -> u64 {
    let parts = digits.saturating_mul(1_000).saturating_add(torn);
    kind.saturating_mul(1_000_000_000_000_000_000)
        .saturating_add(parts.saturating_mul(1_000))
        .saturating_add(place)
}

// The store that an image of the disk holds opens, and has what the history left.
fn check_image<R: Abort + Threads + Wait + Sync>(rt: &R, alloc: Global, left: &Left, pick: u64) {
    let image = left.disk.image(pick).expect(rt, "memory");
    let ran = run(rt, alloc, image, &left.lookups, 0);
    assert_that_at(rt, left.judge.allows(&ran.annals), pick);
}

// An image of a kind, in which a write is torn, or none where there is no such write.
fn check_kind<R: Abort + Threads + Wait + Sync>(
    rt: &R,
    alloc: Global,
    left: &Left,
    kind: u64,
    draws: &mut Draws,
) {
    let place = draws.below(WRITES);
    let pick = pick_of(kind, place, draws.below(WRITES), draws.below(DIGITS));
    check_image(rt, alloc, left, pick);
}

// The store stops where its disk does, and each image has what the history left.
fn check_stop<R: Abort + Threads + Wait + Sync>(
    rt: &R,
    alloc: Global,
    low: u64,
    seed: u64,
    calls: u64,
) {
    let script = any_script(rt, alloc, seed, LINES);
    let disk = stopping(rt, alloc, low, calls);
    let (ran, judge) = run_judged(rt, alloc, disk, &script, WORKERS);
    assert_same(rt, ran.totals.stopped.is_some(), calls < ANY);
    let left = Left {
        disk: ran.disk,
        judge,
        lookups: lookups(rt, alloc),
    };
    let mut draws = Draws(seed);
    check_image(rt, alloc, &left, NONE);
    for kind in 1..4 {
        check_kind(rt, alloc, &left, kind, &mut draws);
    }
}

// The number of an image with no write that isn't durable.
const NONE: u64 = 1_000_000_000_000_999_000;

// No run makes so many calls of its disk.
const ANY: u64 = 1_000_000;

// Stores that begin a pass at once, or never in so short a script; seeds, and how many calls the disk answers. The opening takes fewer, and the writes
// of each script that ask nothing first alone take more: two of five of its lines are such, of four calls each.
const CASES: [(u64, u64, u64); 6] = [
    (LOW, 1, ANY),
    (LOW, 2, 40),
    (LOW, 3, 65),
    (0, 5, 51),
    (0, 6, 70),
    (0, 8, 90),
];

#[test]
fn images_have_what_a_history_left(rt: HostRuntime) {
    for &(low, seed, calls) in &CASES {
        check_stop(&rt, rt.alloc(), low, seed, calls);
    }
}
