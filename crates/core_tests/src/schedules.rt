// Random schedules of all seats. Beside them run a plain map, a plain store and sums of weights; and what they leave is what is stored of
// them, which a tree of whole lists without a disk left too.
ghost use Rattle.std.specs.Prelude.{◌<◌};

use crate::asserts::{assert_that, assert_that_at};
use crate::lines::line_of;
use crate::maps::follow;
use crate::plays::check_plays;
use crate::samples::{Draws, draw_any_write, draw_write, key_of};
use crate::stores::{File, fresh, make, smallest, steepest};
use crate::told::{DEFAULT, SMALLEST, STEEPEST};
use crate::weights::check_weights;
use blsm_model::{Annals, CALLERS, Geometry, Key, Op, ShortReply, Totals};
use disk_mem::MemDisk;
use std::alloc::Global;
use std::process::Abort;
use tree_core::Core;
use tree_machine::{Kind, Step};

// How many keys there are.
const KEYS: u64 = 120;

// A drawn step of a drawn seat.
fn play_drawn(
    rt: &impl Abort,
    alloc: Global,
    core: &mut Core<MemDisk>,
    draws: &mut Draws,
    all_kinds: bool,
) {
    let seat = draws.below(24) as u32;
    let kind = draw_kind(rt, draws, seat, all_kinds);
    make(alloc, core, seat, kind);
}

// Each caller leaves, and a worker finds the store closed.
fn close(alloc: Global, core: &mut Core<MemDisk>) {
    for seat in 0..CALLERS {
        make(alloc, core, seat, Kind::Leave);
    }
    make(alloc, core, CALLERS, Kind::WorkerTurn);
}

fn draw_key(rt: &impl Abort, draws: &mut Draws) -> Key {
    key_of(rt, draws.below(KEYS) as usize)
}

// A write, which is a tail, a new or a swap only where all kinds are wanted.
fn draw_admitted(rt: &impl Abort, draws: &mut Draws, all_kinds: bool) -> Op {
    if all_kinds {
        draw_any_write(rt, draws, KEYS)
    } else {
        draw_write(rt, draws, KEYS)
    }
}

// A step of a caller, or of a worker.
fn draw_kind(rt: &impl Abort, draws: &mut Draws, seat: u32, all_kinds: bool) -> Kind {
    if seat >= CALLERS {
        return Kind::WorkerTurn;
    }
    match draws.below(24) {
        0..=6 => Kind::Admit(draw_admitted(rt, draws, all_kinds)),
        7..=13 => Kind::Pay,
        14..=15 => Kind::Look(Op::Get(draw_key(rt, draws))),
        16..=17 => Kind::WorkTurn,
        18..=19 => Kind::WorkEnd(draws.below(4) as u32),
        20 => Kind::Hold(draw_key(rt, draws), draw_key(rt, draws)),
        21..=22 => Kind::Next(draws.below(34) as u32),
        _ => Kind::Release,
    }
}

// The run had merges of all kinds, and a memory table below its mark.
fn check_totals(rt: &impl Abort, totals: &Totals) {
    assert!(rt; 0 < totals.passes);
    assert!(rt; 0 < totals.deeps);
    assert!(rt; 0 < totals.workers);
    assert!(rt; totals.peak <= totals.high);
}

// Each get and each next told what a plain map of the history had, and the disk holds that map in the end.
fn check_map(rt: &impl Abort, alloc: Global, file: File, annals: &Annals) {
    let history = follow(rt, alloc, KEYS as usize, annals);
    let map = file.map(rt, alloc, KEYS as usize);
    assert_that(rt, map == history.map);
}

// So many drawn steps, and then the end.
fn schedule(
    rt: &impl Abort,
    alloc: Global,
    geo: Geometry,
    seed: u64,
    steps: u32,
    all_kinds: bool,
) -> Core<MemDisk> {
    let mut draws = Draws(seed);
    let mut core = fresh(rt, alloc, geo);
    for _ in 0..steps {
        play_drawn(rt, alloc, &mut core, &mut draws, all_kinds);
    }
    close(alloc, &mut core);
    core
}

// A schedule left what the plain map, the plain store and the sums of weights ask for.
fn check_left(rt: &impl Abort, alloc: Global, file: File, annals: &Annals, totals: &Totals) {
    let mut file = file;
    check_totals(rt, totals);
    check_plays(rt, alloc, annals);
    check_weights(rt, alloc, &mut file, annals, totals);
    check_map(rt, alloc, file, annals);
}

// A schedule leaves what its line tells, too.
fn check(rt: &impl Abort, alloc: Global, geo: Geometry, seed: u64, steps: u32, told: &str) {
    let core = schedule(rt, alloc, geo, seed, steps, false);
    let (disk, annals, totals) = core.end();
    let mut file = File::over(rt, geo, disk);
    let line = line_of(rt, alloc, &mut file, &annals, &totals);
    assert_that_at(rt, line.as_str() == told, (seed, line));
    check_left(rt, alloc, file, &annals, &totals);
}

// Whether the entry at a place is a swap, or else a new, that was kept out, or else done.
fn is_conditional(annals: &Annals, place: u32, is_swap: bool, is_kept: bool) -> bool {
    if annals.len() <= place as usize || is_swap != matches!(annals.op(place), Op::Swap(..)) {
        return false;
    }
    match annals.short_reply(place) {
        Some(ShortReply::Kept(_)) => is_kept,
        Some(ShortReply::Done) => !is_kept && annals.op(place).looks_first(),
        _ => false,
    }
}

// How many entries are such ones.
fn count_conditional(annals: &Annals, is_swap: bool, is_kept: bool) -> u32 {
    let mut count = 0u32;
    for place in 0..annals.len() as u32 {
        if is_conditional(annals, place, is_swap, is_kept) {
            count = count.saturating_add(1);
        }
    }
    count
}

// How many news were done and how many kept out, and how many swaps.
fn counts_of(annals: &Annals) -> [u32; 4] {
    [
        count_conditional(annals, false, false),
        count_conditional(annals, false, true),
        count_conditional(annals, true, false),
        count_conditional(annals, true, true),
    ]
}

// A schedule of all kinds of writes. Answers what it had of those with conditions.
fn check_all_kinds(rt: &impl Abort, alloc: Global, geo: Geometry, seed: u64) -> [u32; 4] {
    let core = schedule(rt, alloc, geo, seed, 2_400, true);
    let (disk, annals, totals) = core.end();
    let file = File::over(rt, geo, disk);
    check_left(rt, alloc, file, &annals, &totals);
    counts_of(&annals)
}

// A schedule of so many steps for each line.
fn check_all(rt: &impl Abort, alloc: Global, geo: Geometry, steps: u32, lines: &[&str]) {
    let mut seed = 0;
    for told in lines {
        check(rt, alloc, geo, seed, steps, told);
        seed = u64::wrapping_add(seed, 1);
    }
}

// Adds what one schedule had to what those before it had.
fn add_counts(sums: &mut [u32; 4], counts: [u32; 4]) {
    for at in 0..4usize {
        sums[at] = sums[at].saturating_add(counts[at]);
    }
}

#[test]
fn schedules_of_all_kinds_of_writes(rt: HostRuntime) {
    let alloc = rt.alloc();
    let mut sums = [0; 4];
    for seed in 0..16 {
        for geo in [Geometry::default(), smallest(&rt), steepest(&rt)] {
            add_counts(&mut sums, check_all_kinds(&rt, alloc, geo, seed));
        }
    }
    for sum in sums {
        assert!(rt; 50 < sum, "{sums:?}");
    }
}

#[test]
fn a_schedule_of_the_default_geometry(rt: HostRuntime) {
    check_all(&rt, rt.alloc(), Geometry::default(), 1_800, &DEFAULT);
}

#[test]
fn a_schedule_of_the_smallest_geometry(rt: HostRuntime) {
    check_all(&rt, rt.alloc(), smallest(&rt), 2_400, &SMALLEST);
}

#[test]
fn a_schedule_of_the_steepest_geometry(rt: HostRuntime) {
    check_all(&rt, rt.alloc(), steepest(&rt), 1_800, &STEEPEST);
}
