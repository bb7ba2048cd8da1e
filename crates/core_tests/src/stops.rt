// Stops at each call of the disk, what each call answers then, and what each image holds.
ghost use Rattle.std.specs.Prelude.{◌≡◌};

use crate::asserts::{assert_same, assert_same_at, assert_that, assert_that_at};
use crate::maps::{Map, apply, follow};
use crate::samples::{Draws, add, del, key_of, put, tail};
use crate::stores::{File, check_reply, geometry, make, work, write};
use blsm_model::{Annals, CALLERS, Geometry, Op, ShortReply, Totals, Why};
use disk_mem::MemDisk;
use disk_trait::Disk;
use seat_book::Turned;
use std::alloc::Global;
use std::process::Abort;
use tree_core::Core;
use tree_machine::Kind;

// How many keys there are.
const KEYS: usize = 4;

// How many writes of a disk wait for a sync at most.
const WRITES: u64 = 2;

// How many images tear a write beside a set of others.
const TEARS: u64 = 4;

// How many images tear each write.
const ALL_TORN: u64 = 16;

// The digits that tear a page: how many of its bytes stand, and whether a strange byte follows them.
const DIGITS: u64 = 8_194;

// How many entries are noted once the run is over.
const MORE: u32 = 4;

// The number of an image with each write whole.
const ALL: u64 = 2_000_000_000_000_999_999;

fn put_at(rt: &impl Abort, number: usize, count: u64, text: &[u8]) -> Op {
    put(rt, key_of(rt, number).as_bytes(), count, text)
}

fn get_at(rt: &impl Abort, alloc: Global, core: &mut Core<MemDisk>, seat: u32, number: usize) {
    make(alloc, core, seat, Kind::Look(Op::Get(key_of(rt, number))));
}

// Writes, a lookup, and the first turns of work.
fn run_first(rt: &impl Abort, alloc: Global, core: &mut Core<MemDisk>) {
    write(alloc, core, 0, put_at(rt, 1, 7, &[b'x'; 435]));
    write(alloc, core, 1, put_at(rt, 2, 1, b"two"));
    get_at(rt, alloc, core, 2, 1);
    work(alloc, core, 4);
}

// Writes over what was merged, and further turns.
fn run_second(rt: &impl Abort, alloc: Global, core: &mut Core<MemDisk>) {
    write(alloc, core, 0, del(rt, key_of(rt, 1).as_bytes()));
    write(alloc, core, 1, add(rt, key_of(rt, 3).as_bytes(), 4));
    write(alloc, core, 3, tail(rt, key_of(rt, 2).as_bytes(), b"more"));
    make(alloc, core, CALLERS, Kind::WorkerTurn);
    get_at(rt, alloc, core, 2, 2);
    work(alloc, core, 4);
}

// Two passes, a rotation and a deep merge, with writes before the first pass and while the deep merge runs.
fn run(rt: &impl Abort, alloc: Global, core: &mut Core<MemDisk>) {
    run_first(rt, alloc, core);
    run_second(rt, alloc, core);
}

// Calls that come after the run.
fn go_on(rt: &impl Abort, alloc: Global, core: &mut Core<MemDisk>) {
    write(alloc, core, 0, put(rt, b"more", 1, b""));
    write(alloc, core, 2, put(rt, b"more", 1, b""));
    get_at(rt, alloc, core, 3, 1);
    work(alloc, core, 3);
    make(alloc, core, CALLERS, Kind::WorkerTurn);
}

// What a run left.
#[derive(Drop)]
struct Left {
    disk: MemDisk,
    annals: Annals,
    totals: Totals,
}

fn left_of(core: Core<MemDisk>) -> Left {
    let (disk, annals, totals) = core.end();
    Left {
        disk,
        annals,
        totals,
    }
}

// A store that was just made, whose disk has no record of its making. One call of it was answered.
fn remade(rt: &impl Abort, made: &File) -> File {
    File::image(rt, made.geo, &made.disk, ALL)
}

// The run over a store that was just made. Each call of its disk behind so many fails. Once the run is over its charge stays.
fn run_until(rt: &impl Abort, alloc: Global, made: &File, calls: u64) -> Left {
    let mut file = remade(rt, made);
    file.disk.stop_after(calls.saturating_add(1));
    let mut core = file.start(rt, alloc);
    run(rt, alloc, &mut core);
    let charge = core.charge();
    go_on(rt, alloc, &mut core);
    let left = left_of(core);
    assert_same(rt, left.totals.charge, charge);
    left
}

// Whether the entry at a place is a lookup that failed.
fn is_failed_get(annals: &Annals, place: u32) -> bool {
    if (place as usize) >= annals.len() {
        return false;
    }
    annals.short_reply(place) == Some(&ShortReply::Fault) && matches!(annals.op(place), Op::Get(_))
}

// How many lookups failed.
fn failed_gets(annals: &Annals) -> u64 {
    let mut count = 0u64;
    for place in 0..annals.len() as u32 {
        if is_failed_get(annals, place) {
            count = count.saturating_add(1);
        }
    }
    count
}

// The entry at a place tells the stop, and its command did no merge work.
fn check_stopped_at(rt: &impl Abort, annals: &Annals, place: u32, why: Why) {
    assert!(rt; (place as usize) < annals.len());
    let reply = annals.short_reply(place);
    assert_that_at(rt, reply == Some(&ShortReply::Stopped(why)), place);
    assert_same_at(rt, annals.quanta(place), 0, place);
}

// After a stop each call answers it with the disk's count, and the disk has no further call.
fn check_stopped(rt: &impl Abort, left: &Left) {
    let faults = left.disk.faults();
    assert_same(rt, faults, failed_gets(&left.annals).saturating_add(1));
    let why = Why::Faulted(faults);
    assert_same(rt, left.totals.stopped, Some(why));
    let entries = left.annals.len() as u32;
    for place in entries.saturating_sub(MORE)..entries {
        check_stopped_at(rt, &left.annals, place, why);
    }
}

// The number of an image: by its kind and a place those writes stand whole that come before the place, all but the one there, or it alone;
// one write more is torn, as these digits say.
fn pick_of(kind: u64, place: u64, torn: u64, digits: u64) -> u64 {
    let parts = digits.saturating_mul(1_000).saturating_add(torn);
    kind.saturating_mul(1_000_000_000_000_000_000)
        .saturating_add(parts.saturating_mul(1_000))
        .saturating_add(place)
}

// The map that a history leads to, without its unsure write and with it.
#[derive(Drop)]
struct Maps {
    without: Map,
    with: Map,
}

fn maps_of(rt: &impl Abort, alloc: Global, annals: &Annals) -> Maps {
    let without = follow(rt, alloc, KEYS, annals);
    let mut with = follow(rt, alloc, KEYS, annals);
    if let Some(op) = &with.unsure {
        apply(&mut with.map, op);
    }
    Maps {
        without: without.map,
        with: with.map,
    }
}

// An image of a stop, by its number.
fn check_image(
    rt: &impl Abort,
    alloc: Global,
    geo: Geometry,
    disk: &MemDisk,
    maps: &Maps,
    pick: u64,
) {
    let map = File::image(rt, geo, disk, pick).map(rt, alloc, KEYS);
    assert_that_at(rt, map == maps.without || map == maps.with, pick);
}

// Whether two disks have the same bytes on a page of the file, or on its last one.
fn is_same_at(rt: &impl Abort, one: &mut MemDisk, two: &mut MemDisk, at: u64) -> bool {
    let mut here = [0u8; 4_096];
    let mut there = [0u8; 4_096];
    assert_that(rt, one.read(at, &mut here).is_ok());
    assert_that(rt, two.read(at, &mut there).is_ok());
    here == there
}

// No more writes wait for a sync than this: the image with so many of them is the one with all.
fn check_few(rt: &impl Abort, geo: &Geometry, disk: &MemDisk) {
    let mut some = disk.image(pick_of(1, WRITES, 999, 0)).expect(rt, "memory");
    let mut all = disk.image(ALL).expect(rt, "memory");
    let last = geo.length().saturating_sub(4_096);
    for page in 0..geo.length() / 4_096 + 1 {
        let at = page.saturating_mul(4_096).min(last);
        assert_that_at(rt, is_same_at(rt, &mut some, &mut all, at), at);
    }
}

// Images with those writes whole that a kind and a place name, and one write more torn by drawn digits.
fn check_torn(
    rt: &impl Abort,
    alloc: Global,
    geo: Geometry,
    disk: &MemDisk,
    maps: &Maps,
    which: [u64; 3],
    draws: &mut Draws,
) {
    let [kind, place, torn] = which;
    for _ in 0..TEARS {
        let pick = pick_of(kind, place, torn, draws.below(DIGITS));
        check_image(rt, alloc, geo, disk, maps, pick);
    }
}

// Images with those writes whole that a kind and a place name: the one with no other write, and for each write some in which it is torn.
fn check_kind(
    rt: &impl Abort,
    alloc: Global,
    geo: Geometry,
    disk: &MemDisk,
    maps: &Maps,
    which: [u64; 2],
    draws: &mut Draws,
) {
    let [kind, place] = which;
    check_image(rt, alloc, geo, disk, maps, pick_of(kind, place, 999, 0));
    for torn in 0..WRITES {
        check_torn(rt, alloc, geo, disk, maps, [kind, place, torn], draws);
    }
}

// Images in which each write is torn as drawn digits say.
fn check_all_torn(
    rt: &impl Abort,
    alloc: Global,
    geo: Geometry,
    disk: &MemDisk,
    maps: &Maps,
    draws: &mut Draws,
) {
    for _ in 0..ALL_TORN {
        let high = draws.below(1_000_000_000).saturating_mul(1_000_000_000);
        let pick = high.saturating_add(draws.below(1_000_000_000));
        check_image(rt, alloc, geo, disk, maps, pick);
    }
}

// Images hold the history's map, without its unsure write or with it. For each set of the writes that aren't durable the image is read in
// which just these stand whole, and for each write some in which it is torn beside them; and some are read in which each write is torn. Of
// two writes each set is a front, or the second alone.
fn check_images(rt: &impl Abort, alloc: Global, geo: Geometry, left: &Left, draws: &mut Draws) {
    let maps = maps_of(rt, alloc, &left.annals);
    check_few(rt, &geo, &left.disk);
    for which in [[1, 0], [1, 1], [1, 2], [3, 1]] {
        check_kind(rt, alloc, geo, &left.disk, &maps, which, draws);
    }
    check_all_torn(rt, alloc, geo, &left.disk, &maps, draws);
}

/// How many calls of a disk have come, none of which was past its record: all calls behind a number of calls fail, and with each failure
/// that number rises by two.
pub fn calls_of(disk: MemDisk) -> u64 {
    let mut disk = disk;
    for calls in 0..100_000u64 {
        disk.stop_after(calls.saturating_mul(2));
        if disk.len().is_ok() {
            return calls.saturating_sub(1);
        }
    }
    0
}

// How many calls the run takes. It ends well, and its images hold the history's map.
fn calls_of_run(rt: &impl Abort, alloc: Global, made: &File) -> u64 {
    let mut core = remade(rt, made).start(rt, alloc);
    run(rt, alloc, &mut core);
    let left = left_of(core);
    assert_same(rt, (left.totals.passes, left.totals.deeps), (2, 1));
    assert_same(rt, left.totals.stopped, None);
    check_images(rt, alloc, made.geo, &left, &mut Draws(0));
    let all = calls_of(left.disk).saturating_sub(1);
    assert!(rt; 50 < all && all < 100, "{all} calls");
    all
}

// Stops behind so many calls of the run.
fn check_stop(rt: &impl Abort, alloc: Global, made: &File, calls: u64, draws: &mut Draws) {
    let left = run_until(rt, alloc, made, calls);
    check_images(rt, alloc, made.geo, &left, draws);
    check_stopped(rt, &left);
}

// A write that is done, a payment of a worker, which none makes, a write whose append fails, and a release.
fn write_and_fail(rt: &impl Abort, alloc: Global, core: &mut Core<MemDisk>) {
    make(alloc, core, 0, Kind::Admit(put(rt, b"a", 1, b"")));
    make(alloc, core, CALLERS, Kind::Pay);
    make(alloc, core, 0, Kind::Admit(put(rt, b"b", 2, b"")));
    make(alloc, core, 0, Kind::Release);
}

// A store whose disk fails at the first call of the second append: an append is four calls.
fn second_append_fails(rt: &impl Abort, alloc: Global) -> Core<MemDisk> {
    let made = File::make(rt, alloc, Geometry::default());
    let mut file = remade(rt, &made);
    file.disk.stop_after(5);
    file.start(rt, alloc)
}

// What the commands were told: one write is unsure, and the command after it is told the stop.
fn check_unsure(rt: &impl Abort, left: &Left, why: Why) {
    assert_same(rt, left.annals.len(), 3);
    check_reply(rt, &left.annals, 0, &ShortReply::Done);
    check_reply(rt, &left.annals, 1, &ShortReply::FaultUnsure);
    check_reply(rt, &left.annals, 2, &ShortReply::Stopped(why));
    assert_same(rt, left.totals.stopped, Some(why));
    assert_same(rt, (left.totals.peak, left.totals.callers), (14, 0));
    assert_same(rt, (left.totals.passes, left.totals.deeps), (0, 0));
}

// A write whose append fails is unsure, and the store is stopped, for workers too. A step that may not be made notes nothing.
#[test]
fn a_failed_append_stops_the_store(rt: HostRuntime) {
    let mut core = second_append_fails(&rt, rt.alloc());
    write_and_fail(&rt, rt.alloc(), &mut core);
    let why = Why::Faulted(1);
    assert_that(&rt, core.worker_turn(CALLERS) == Turned::Halted(why));
    check_unsure(&rt, &left_of(core), why);
}

// Stops behind each number of calls of a part of the run, of five.
fn stop_in_part(rt: &impl Abort, alloc: Global, part: u64) {
    let made = File::make(
        rt,
        alloc,
        geometry(rt, Geometry::MIN_HALF, Geometry::MIN_RATIO, 16_384, 1_024),
    );
    let all = calls_of_run(rt, alloc, &made);
    let mut draws = Draws(part);
    let first = all.saturating_mul(part) / 5;
    let last = all.saturating_mul(part.saturating_add(1)) / 5;
    for calls in first..last {
        check_stop(rt, alloc, &made, calls, &mut draws);
    }
}

#[test]
fn stops_at_the_first_writes(rt: HostRuntime) {
    stop_in_part(&rt, rt.alloc(), 0);
}

#[test]
fn stops_in_the_first_pass(rt: HostRuntime) {
    stop_in_part(&rt, rt.alloc(), 1);
}

#[test]
fn stops_at_writes_over_a_deep_merge(rt: HostRuntime) {
    stop_in_part(&rt, rt.alloc(), 2);
}

#[test]
fn stops_in_the_deep_merge(rt: HostRuntime) {
    stop_in_part(&rt, rt.alloc(), 3);
}

#[test]
fn stops_in_the_second_pass(rt: HostRuntime) {
    stop_in_part(&rt, rt.alloc(), 4);
}
