// Writes, what their callers pay, and the edges of a small store.
ghost use Rattle.std.specs.Prelude.{◌≡◌};

use crate::asserts::{assert_same, assert_same_at};
use crate::samples::{add, del, most_quanta, put, put_of, tail};
use crate::stores::{check_reply, fresh, geometry, has_reply, smallest, steepest, write};
use blsm_model::{Annals, CALLERS, Geometry, ShortReply, Totals};
use disk_mem::MemDisk;
use std::alloc::Global;
use std::process::Abort;
use tree_core::Core;

// The quanta of all entries.
fn quanta_of(annals: &Annals) -> u64 {
    let mut sum = 0u64;
    for place in 0..annals.len() as u32 {
        sum = sum.saturating_add(annals.quanta(place));
    }
    sum
}

// Asserts that there are so many entries, that each has its write's work bound at most, and that so many are done from the first on.
fn check_bounds(rt: &impl Abort, geo: &Geometry, annals: &Annals, entries: usize, done: u32) {
    assert_same(rt, annals.len(), entries);
    for place in 0..annals.len() as u32 {
        let most = most_quanta(geo, annals.op(place));
        assert!(rt; annals.quanta(place) <= most, "at {place}");
        assert!(rt;
            done <= place || has_reply(annals, place, &ShortReply::Done),
            "at {place}"
        );
    }
}

// A hundred equal writes.
fn write_hundred(rt: &impl Abort, alloc: Global, core: &mut Core<MemDisk>) {
    let op = put(rt, &[b'k'; 64], 9, &[b'x'; 435]);
    for _ in 0..100 {
        write(alloc, core, 0, op.copy());
    }
}

// Each thirty-third of a hundred writes paid a quantum.
fn check_thirds(rt: &impl Abort, annals: &Annals) {
    assert_same(rt, annals.len(), 100);
    for place in 0..annals.len() as u32 {
        let pays = place == 32 || place == 65 || place == 98;
        assert_same_at(rt, annals.quanta(place), u64::from(pays), place);
    }
}

// A hundred writes of one key, 512 bytes each: each thirty-third pays a quantum.
#[test]
fn each_thirty_third_write_pays(rt: HostRuntime) {
    let mut core = fresh(&rt, rt.alloc(), Geometry::default());
    write_hundred(&rt, rt.alloc(), &mut core);
    let (_, annals, totals) = core.end();
    check_thirds(&rt, &annals);
    assert_same(&rt, (totals.peak, totals.callers), (512, 3));
    assert_same(&rt, (totals.passes, totals.deeps), (3, 0));
}

// So many writes of 512 bytes, of as many keys, by so many callers in turn.
fn write_many(rt: &impl Abort, alloc: Global, core: &mut Core<MemDisk>, writes: u32, callers: u32) {
    assert!(rt; 0 < callers);
    for number in 0..writes {
        write(alloc, core, number % callers, put_of(rt, number as usize));
    }
}

// A hundred writes of 512 bytes were paid by their callers alone.
fn check_payers(rt: &impl Abort, annals: &Annals, totals: &Totals) {
    assert_same(rt, quanta_of(annals), totals.callers);
    assert_same(rt, (totals.workers, totals.charge), (0, 51_200));
    assert!(rt; 0 < totals.passes);
    assert!(rt; totals.peak <= totals.high);
}

// A hundred writes of as many keys, 512 bytes each, by all callers in turn.
fn check_hundred(rt: &impl Abort, alloc: Global, mut core: Core<MemDisk>, geo: &Geometry) {
    write_many(rt, alloc, &mut core, 100, CALLERS);
    let (_, annals, totals) = core.end();
    check_bounds(rt, geo, &annals, 100, 100);
    check_payers(rt, &annals, &totals);
}

#[test]
fn writes_cost_no_more_than_their_bound(rt: HostRuntime) {
    let alloc = rt.alloc();
    let geo = Geometry::default();
    check_hundred(&rt, alloc, fresh(&rt, alloc, geo), &geo);
    let geo = smallest(&rt);
    check_hundred(&rt, alloc, fresh(&rt, alloc, geo), &geo);
    let geo = steepest(&rt);
    check_hundred(&rt, alloc, fresh(&rt, alloc, geo), &geo);
}

// Three writes that find no room, a del that does, and two that find none behind it.
fn write_at_the_edge(rt: &impl Abort, alloc: Global, core: &mut Core<MemDisk>) {
    write(alloc, core, 0, put(rt, b"a", 1, b""));
    write(alloc, core, 0, add(rt, b"a", 1));
    write(alloc, core, 0, tail(rt, b"a", b"t"));
    write(alloc, core, 0, del(rt, b"a"));
    write(alloc, core, 0, put(rt, b"a", 1, b""));
    write(alloc, core, 0, tail(rt, b"a", b"t"));
}

fn check_edge(rt: &impl Abort, annals: &Annals) {
    check_reply(rt, annals, 238, &ShortReply::Full(121_856));
    check_reply(rt, annals, 239, &ShortReply::Full(121_856));
    check_reply(rt, annals, 240, &ShortReply::Full(121_856));
    check_reply(rt, annals, 241, &ShortReply::Done);
    check_reply(rt, annals, 242, &ShortReply::Full(121_870));
    check_reply(rt, annals, 243, &ShortReply::Full(121_870));
}

// A put, an add or a tail leaves half a spring of the capacity free, and a del may fill it.
#[test]
fn a_small_store_is_full_at_its_edge(rt: HostRuntime) {
    let geo = geometry(&rt, 17_408, 2, 16_384, 4_096);
    let mut core = fresh(&rt, rt.alloc(), geo);
    write_many(&rt, rt.alloc(), &mut core, 238, 1);
    write_at_the_edge(&rt, rt.alloc(), &mut core);
    let (_, annals, totals) = core.end();
    check_bounds(&rt, &geo, &annals, 244, 238);
    check_edge(&rt, &annals);
    assert_same(&rt, geo.bound(512), 3);
    assert_same(&rt, quanta_of(&annals), totals.callers);
    assert!(rt; totals.peak <= totals.high);
    assert!(rt; 0 < totals.deeps);
}
