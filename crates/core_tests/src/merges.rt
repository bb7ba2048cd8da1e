// Passes and deep merges of a few keys, by what they hold.
use crate::asserts::{assert_same, assert_same_at, assert_that};
use crate::samples::{add, del, key, put, put_of, value};
use crate::stores::{File, check_reply, fresh, geometry, make, smallest, work, write};
use blsm_model::{Annals, CALLERS, Component, Geometry, Key, Op, ShortReply};
use catalog_swap::Catalog;
use disk_mem::MemDisk;
use page_file::no_component;
use record_delta::Rec;
use std::alloc::Global;
use std::process::Abort;
use tree_core::Core;
use tree_machine::Kind;

fn get(rt: &impl Abort, alloc: Global, core: &mut Core<MemDisk>, name: &[u8]) {
    make(alloc, core, 0, Kind::Look(Op::Get(key(rt, name))));
}

// Asserts that an entry has this value as its reply.
fn check_is(rt: &impl Abort, annals: &Annals, place: u32, count: u64, text: &[u8]) {
    let reply = ShortReply::Is(value(rt, count, text));
    check_reply(rt, annals, place, &reply);
}

// A long put of each of b to f.
fn put_five(rt: &impl Abort, alloc: Global, core: &mut Core<MemDisk>) {
    for name in [b"b", b"c", b"d", b"e", b"f"] {
        write(alloc, core, 0, put(rt, name, 0, &[b'x'; 435]));
    }
}

// Looks c, g and b up.
fn get_three(rt: &impl Abort, alloc: Global, core: &mut Core<MemDisk>) {
    get(rt, alloc, core, b"c");
    get(rt, alloc, core, b"g");
    get(rt, alloc, core, b"b");
}

// A pass over b to f with writes behind its cursor and ahead of it, which are looked up before its swap and after it.
fn run_pass(rt: &impl Abort, alloc: Global, core: &mut Core<MemDisk>) {
    put_five(rt, alloc, core);
    work(alloc, core, 2);
    write(alloc, core, 0, put(rt, b"c", 1, b""));
    write(alloc, core, 0, put(rt, b"g", 2, b""));
    get_three(rt, alloc, core);
    work(alloc, core, 3);
    get_three(rt, alloc, core);
    get(rt, alloc, core, b"a");
}

// Asserts that c, g and b are found by the entries from this place on.
fn check_three(rt: &impl Abort, annals: &Annals, first: u32) {
    check_is(rt, annals, first, 1, b"");
    check_is(rt, annals, first.saturating_add(1), 2, b"");
    check_is(rt, annals, first.saturating_add(2), 0, &[b'x'; 435]);
}

// Asserts what each command of the run was told.
fn check_told(rt: &impl Abort, annals: &Annals) {
    check_reply(rt, annals, 5, &ShortReply::Did(2));
    check_reply(rt, annals, 6, &ShortReply::Done);
    check_reply(rt, annals, 7, &ShortReply::Done);
    check_three(rt, annals, 8);
    check_reply(rt, annals, 11, &ShortReply::Did(3));
    check_three(rt, annals, 12);
    check_reply(rt, annals, 15, &ShortReply::Absent);
}

// Asserts that the two works did one quantum each, and no other command any.
fn check_two_quanta(rt: &impl Abort, annals: &Annals) {
    assert_same(rt, annals.len(), 16);
    for place in 0..annals.len() as u32 {
        let worked = place == 5 || place == 11;
        assert_same_at(rt, annals.quanta(place), u64::from(worked), place);
    }
}

// A quantum takes b, c and d, 1,347 bytes, and forgives the debts of two writes: of c, behind the cursor, and of g, ahead of it. Both are
// found before the pass's swap and after it.
#[test]
fn writes_join_a_pass_or_wait(rt: HostRuntime) {
    let mut core = fresh(&rt, rt.alloc(), geometry(&rt, 32_768, 4, 16_384, 1_024));
    run_pass(&rt, rt.alloc(), &mut core);
    let (_, annals, totals) = core.end();
    check_told(&rt, &annals);
    check_two_quanta(&rt, &annals);
    assert_same(&rt, (totals.peak, totals.callers), (2_273, 2));
    assert_same(&rt, (totals.passes, totals.deeps), (1, 0));
}

// A put that is merged down, a del, an add and a lookup.
fn merge_down(rt: &impl Abort, alloc: Global, core: &mut Core<MemDisk>) {
    write(alloc, core, 0, put(rt, b"x", 100, b"old"));
    work(alloc, core, 100);
    write(alloc, core, 0, del(rt, b"x"));
    write(alloc, core, 0, add(rt, b"x", 7));
    get(rt, alloc, core, b"x");
}

// Asserts what each command was told.
fn check_down(rt: &impl Abort, annals: &Annals) {
    for place in [0, 2, 3] {
        check_reply(rt, annals, place, &ShortReply::Done);
    }
    check_reply(rt, annals, 1, &ShortReply::Did(6));
    check_is(rt, annals, 4, 7, b"");
}

// Asserts that the work did two quanta, and no other command any.
fn check_one_work(rt: &impl Abort, annals: &Annals) {
    assert_same(rt, annals.len(), 5);
    for place in 0..annals.len() as u32 {
        let quanta = if place == 1 { 2 } else { 0 };
        assert_same_at(rt, annals.quanta(place), quanta, place);
    }
}

// A work brings a put down to the deepest component: begin, quantum, swap, rotation, quantum, swap.
#[test]
fn a_work_merges_down(rt: HostRuntime) {
    let mut core = fresh(&rt, rt.alloc(), Geometry::default());
    merge_down(&rt, rt.alloc(), &mut core);
    let (_, annals, totals) = core.end();
    check_down(&rt, &annals);
    check_one_work(&rt, &annals);
    assert_same(&rt, (totals.peak, totals.high), (17, 65_536));
    assert_same(&rt, (totals.callers, totals.workers), (2, 0));
    assert_same(&rt, (totals.passes, totals.deeps), (1, 1));
    assert_same(&rt, totals.charge, 17 + 14);
}

// A C2 in which x has 100 and z has 1.
fn merge_two(rt: &impl Abort, alloc: Global, core: &mut Core<MemDisk>) {
    write(alloc, core, 0, put(rt, b"x", 100, b"old"));
    write(alloc, core, 0, put(rt, b"z", 1, b""));
    work(alloc, core, 6);
}

// So many turns of a work with a tombstone of x and 4 more for y, and each key looked up.
fn merge_over(rt: &impl Abort, alloc: Global, core: &mut Core<MemDisk>, turns: u32) {
    write(alloc, core, 0, del(rt, b"x"));
    write(alloc, core, 0, add(rt, b"y", 4));
    work(alloc, core, turns);
    get(rt, alloc, core, b"x");
    get(rt, alloc, core, b"y");
    get(rt, alloc, core, b"z");
}

// Asserts what each command was told: that y has 4, z has 1 and x nothing.
fn check_merged(rt: &impl Abort, annals: &Annals, did: u32) {
    for place in [0, 1, 3, 4] {
        check_reply(rt, annals, place, &ShortReply::Done);
    }
    check_reply(rt, annals, 2, &ShortReply::Did(6));
    check_reply(rt, annals, 5, &ShortReply::Did(did));
    check_reply(rt, annals, 6, &ShortReply::Absent);
    check_is(rt, annals, 7, 4, b"");
    check_is(rt, annals, 8, 1, b"");
}

// The disk of a store with both merges, the second after so many turns.
fn merged(rt: &impl Abort, alloc: Global, turns: u32) -> File {
    let geo = Geometry::default();
    let mut core = fresh(rt, alloc, geo);
    merge_two(rt, alloc, &mut core);
    merge_over(rt, alloc, &mut core, turns);
    let (disk, annals, _) = core.end();
    assert_same(rt, annals.len(), 9);
    check_merged(rt, &annals, turns);
    File::over(rt, geo, disk)
}

fn base(rt: &impl Abort, name: &[u8], count: u64, text: &[u8]) -> (Key, Rec) {
    (key(rt, name), Rec::Base(value(rt, count, text)))
}

// Asserts that a component has just these two entries.
fn check_two(
    rt: &impl Abort,
    alloc: Global,
    file: &mut File,
    component: &Component,
    two: [(Key, Rec); 2],
) {
    let entries = file.entries(rt, alloc, component);
    assert_that(rt, entries.as_slice() == two.as_slice());
}

// Before the deep merge's swap C1' has the tombstone and the delta, and C2 the bases.
#[test]
fn a_tombstone_and_a_delta_wait(rt: HostRuntime) {
    let alloc = rt.alloc();
    let mut file = merged(&rt, alloc, 4);
    let catalogue = file.newest(&rt);
    assert_same(&rt, catalogue.version, 6);
    assert_same(&rt, catalogue.c1, no_component());
    let x = (key(&rt, b"x"), Rec::Tomb);
    let y = (key(&rt, b"y"), Rec::added(4));
    check_two(&rt, alloc, &mut file, &catalogue.c1x, [x, y]);
    let x = base(&rt, b"x", 100, b"old");
    let z = base(&rt, b"z", 1, b"");
    check_two(&rt, alloc, &mut file, &catalogue.c2, [x, z]);
}

// A tombstone of x and 4 more for y, over x and z: y and z are left, as bases.
#[test]
fn a_tombstone_and_a_delta_over_two_bases(rt: HostRuntime) {
    let alloc = rt.alloc();
    let mut file = merged(&rt, alloc, 6);
    let catalogue = file.newest(&rt);
    assert_same(&rt, catalogue.version, 7);
    assert_same(
        &rt,
        (catalogue.c1, catalogue.c1x),
        (no_component(), no_component()),
    );
    let c2 = catalogue.c2;
    assert_same(&rt, (c2.pages, c2.entries, c2.weight), (1, 2, 28));
    let y = base(&rt, b"y", 4, b"");
    let z = base(&rt, b"z", 1, b"");
    check_two(&rt, alloc, &mut file, &c2, [y, z]);
}

// The least store behind so many puts of rising keys, each of which weighs 512 bytes and pays for itself.
fn after_puts(rt: &impl Abort, alloc: Global, puts: usize) -> Core<MemDisk> {
    let mut core = fresh(rt, alloc, smallest(rt));
    for number in 0..puts {
        write(alloc, &mut core, 0, put_of(rt, number));
    }
    core
}

// The newest catalogue that it leaves.
fn left_by(rt: &impl Abort, core: Core<MemDisk>) -> Catalog {
    let (disk, _, _) = core.end();
    File::over(rt, smallest(rt), disk).newest(rt)
}

// How many pages and entries a catalogue names, of which weight, and z.
fn named(now: &Catalog) -> Option<(u32, u64, u64, u64)> {
    match &now.progress {
        Some(progress) => {
            let output = &progress.output;
            Some((output.pages, output.entries, output.weight, progress.z))
        }
        None => None,
    }
}

// C1 rotates in the fifth version. The pass's swap behind that names what the deep merge has finished, and the deep merge's own swap nothing.
#[test]
fn a_pass_names_what_the_deep_merge_has_finished(rt: HostRuntime) {
    let alloc = rt.alloc();
    let finished = Some((20, 140, 71_680, 71_680));
    for &(puts, version, wanted) in &[(185, 5, None), (200, 6, finished), (215, 7, None)] {
        let now = left_by(&rt, after_puts(&rt, alloc, puts));
        assert_same_at(&rt, now.version, version, puts);
        assert_same_at(&rt, named(&now), wanted, puts);
    }
}

// A turn of a seat: of a caller's work, or of a worker.
fn turn_of(seat: u32) -> Kind {
    if seat < CALLERS {
        Kind::WorkTurn
    } else {
        Kind::WorkerTurn
    }
}

// The third turn swaps the pass.
#[test]
fn a_turn_names_what_the_deep_merge_has_finished(rt: HostRuntime) {
    let alloc = rt.alloc();
    let finished = Some((19, 133, 68_096, 68_096));
    for seat in [0, CALLERS] {
        let mut core = after_puts(&rt, alloc, 196);
        for _ in 0..3 {
            make(alloc, &mut core, seat, turn_of(seat));
        }
        let now = left_by(&rt, core);
        assert_same_at(&rt, now.version, 6, seat);
        assert_same_at(&rt, named(&now), finished, seat);
    }
}
