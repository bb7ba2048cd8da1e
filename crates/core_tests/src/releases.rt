// What a pass has on finished pages leaves the memory table: lookups and holds read those pages in its place, at each move of a pass.
use crate::asserts::{assert_same, assert_same_at, assert_that_at};
use crate::maps::follow;
use crate::samples::{add, del, key_of, put, put_of, tail};
use crate::stops::calls_of;
use crate::stores::{File, fresh, geometry, make, work, write};
use blsm_model::{Annals, CALLERS, Geometry, Key, Op, ShortReply, Totals};
use disk_mem::MemDisk;
use std::alloc::Global;
use std::process::Abort;
use tree_core::Core;
use tree_machine::Kind;

// How many puts of 512 bytes C1 has: seven stand on a page, so it has twelve pages.
const OLDER: usize = 84;

// Each number of a key is below this.
const KEYS: usize = 1_000;

// How many moves a pass over C1 makes: it begins, takes 1,024 bytes each time, and is swapped in.
const MOVES: usize = 44;

// The key of the put of a number, and one that stands before it.
fn older_key(rt: &impl Abort, number: usize) -> Key {
    key_of(rt, number.saturating_mul(5).saturating_add(4))
}

fn other_key(rt: &impl Abort, number: usize) -> Key {
    key_of(rt, number.saturating_mul(5).saturating_add(2))
}

// No write begins a pass, and a quantum takes this weight.
fn wide(rt: &impl Abort, quantum: u64) -> Geometry {
    geometry(rt, 65_536, 2, 65_536, quantum)
}

// So many puts of 512 bytes, by caller 0.
fn put_many(rt: &impl Abort, alloc: Global, core: &mut Core<MemDisk>, puts: usize) {
    for number in 0..puts {
        write(alloc, core, 0, put_of(rt, number));
    }
}

// A store with a C1 of twelve pages, and nothing in memory and below. So many turns merge it.
fn with_c1(rt: &impl Abort, alloc: Global, quantum: u64, turns: u32) -> Core<MemDisk> {
    let mut core = fresh(rt, alloc, wide(rt, quantum));
    put_many(rt, alloc, &mut core, OLDER);
    work(alloc, &mut core, turns);
    core
}

// A write over C1. Of four keys one is added to, one gets a tail and one is deleted; beside the fourth one is put that C1 doesn't have.
fn newer(rt: &impl Abort, number: usize) -> Op {
    let older = older_key(rt, number);
    match number % 4 {
        0 => add(rt, older.as_bytes(), 7),
        1 => tail(rt, older.as_bytes(), b"tail"),
        2 => del(rt, older.as_bytes()),
        _ => put(rt, other_key(rt, number).as_bytes(), 3, &[b'y'; 300]),
    }
}

// Such writes, where each key has the one that is so many keys further on.
fn write_newer(rt: &impl Abort, alloc: Global, core: &mut Core<MemDisk>, shift: usize) {
    for number in 0..OLDER {
        let op = newer(rt, number.saturating_add(shift) % OLDER);
        write(alloc, core, 0, op);
    }
}

// All keys of C1 but each seventh are deleted.
fn delete_most(rt: &impl Abort, alloc: Global, core: &mut Core<MemDisk>) {
    for number in 0..OLDER {
        if number % 7 != 3 {
            write(alloc, core, 0, del(rt, older_key(rt, number).as_bytes()));
        }
    }
}

// A caller other than 0, each in its turn.
fn other_seat(turn: usize) -> u32 {
    u32::try_from(turn % 15).unwrap_or(0).saturating_add(1)
}

// Each key is looked up, and others that were never written.
fn get_all(rt: &impl Abort, alloc: Global, core: &mut Core<MemDisk>) {
    for number in 0..OLDER {
        let seat = other_seat(number);
        make(
            alloc,
            core,
            seat,
            Kind::Look(Op::Get(older_key(rt, number))),
        );
        make(
            alloc,
            core,
            seat,
            Kind::Look(Op::Get(other_key(rt, number))),
        );
    }
}

// A caller holds all keys from the one of this number on.
fn hold_from(rt: &impl Abort, alloc: Global, core: &mut Core<MemDisk>, seat: u32, low: usize) {
    let kind = Kind::Hold(key_of(rt, low), key_of(rt, KEYS));
    make(alloc, core, seat, kind);
}

// A caller reads its hold, 32 rows a time.
fn read_on(alloc: Global, core: &mut Core<MemDisk>, seat: u32, times: u32) {
    for _ in 0..times {
        make(alloc, core, seat, Kind::Next(32));
    }
}

// Whether the command of an entry was done.
fn is_done(annals: &Annals, place: u32) -> bool {
    if annals.len() <= place as usize {
        return false;
    }
    !matches!(
        annals.short_reply(place),
        Some(
            ShortReply::Full(_)
                | ShortReply::NoHold
                | ShortReply::NoMemory
                | ShortReply::FaultLost
                | ShortReply::FaultUnsure
                | ShortReply::Fault
                | ShortReply::Damaged(_)
                | ShortReply::Stopped(_)
        )
    )
}

// There are so many entries, and each command was done; lookups and rows are a plain map's.
fn check_told(rt: &impl Abort, alloc: Global, annals: &Annals, entries: usize) {
    assert_same(rt, annals.len(), entries);
    for place in 0..annals.len() as u32 {
        assert_that_at(rt, is_done(annals, place), place);
    }
    follow(rt, alloc, KEYS, annals);
}

// How many swaps of passes and of deep merges there were.
fn swaps_of(totals: &Totals) -> (u64, u64) {
    (totals.passes, totals.deeps)
}

// A pass over C1. Each key is looked up behind each of its moves, or never.
fn pass_with_gets(rt: &impl Abort, alloc: Global, looks: bool) -> Core<MemDisk> {
    let mut core = with_c1(rt, alloc, 1_024, 44);
    write_newer(rt, alloc, &mut core, 0);
    for _ in 0..MOVES {
        make(alloc, &mut core, 0, Kind::WorkTurn);
        if looks {
            get_all(rt, alloc, &mut core);
        }
    }
    core
}

// How many calls the disk has had once a core ends, and what it was told.
fn ended(core: Core<MemDisk>) -> (u64, Annals, (u64, u64)) {
    let (disk, annals, totals) = core.end();
    (calls_of(disk), annals, swaps_of(&totals))
}

// Where nothing is below C1 a lookup reads one page at most, of C1 or of the run that grows.
#[test]
fn gets_at_each_move_of_a_pass(rt: HostRuntime) {
    let alloc = rt.alloc();
    let (before, _, _) = ended(pass_with_gets(&rt, alloc, false));
    let (behind, annals, swaps) = ended(pass_with_gets(&rt, alloc, true));
    check_told(&rt, alloc, &annals, 169 + 44 * 168);
    assert_same(&rt, swaps, (2, 0));
    let reads = behind.saturating_sub(before);
    assert!(rt; 0 < reads && reads <= 44 * 168, "{reads} reads");
}

// A pass over C1 in which most keys are deleted: its run has no full page while it reads the first ten of C1. Behind each move each key is looked up,
// and a caller holds some and reads them.
fn pass_over_tombstones(rt: &impl Abort, alloc: Global) -> Core<MemDisk> {
    let mut core = with_c1(rt, alloc, 1_024, 44);
    delete_most(rt, alloc, &mut core);
    for turn in 0..MOVES {
        make(alloc, &mut core, 0, Kind::WorkTurn);
        get_all(rt, alloc, &mut core);
        let seat = other_seat(turn);
        hold_from(rt, alloc, &mut core, seat, turn.saturating_mul(9));
        read_on(alloc, &mut core, seat, 1);
    }
    core
}

#[test]
fn a_pass_over_tombstones(rt: HostRuntime) {
    let alloc = rt.alloc();
    let (_, annals, swaps) = ended(pass_over_tombstones(&rt, alloc));
    check_told(&rt, alloc, &annals, 157 + 44 * 170);
    assert_same(&rt, swaps, (2, 0));
}

// Each caller but one holds all rows behind a move of a pass.
fn hold_each_move(rt: &impl Abort, alloc: Global) -> Core<MemDisk> {
    let mut core = with_c1(rt, alloc, 4_096, 13);
    write_newer(rt, alloc, &mut core, 0);
    for seat in 1..CALLERS {
        make(alloc, &mut core, 0, Kind::WorkTurn);
        hold_from(rt, alloc, &mut core, seat, 0);
    }
    make(alloc, &mut core, 0, Kind::WorkEnd(15));
    core
}

// Twice writes are merged down to C2, and then each hold is read to its end.
fn merge_and_read(rt: &impl Abort, alloc: Global, core: &mut Core<MemDisk>) {
    for shift in [1, 2] {
        write_newer(rt, alloc, core, shift);
        work(alloc, core, 200);
    }
    for seat in 1..CALLERS {
        read_on(alloc, core, seat, 4);
    }
}

// The rows of a hold are those of its moment after two more passes and the deep merges behind them.
#[test]
fn holds_of_each_move_of_a_pass(rt: HostRuntime) {
    let alloc = rt.alloc();
    let mut core = hold_each_move(&rt, alloc);
    merge_and_read(&rt, alloc, &mut core);
    let (_, annals, swaps) = ended(core);
    check_told(&rt, alloc, &annals, 169 + 16 + 170 + 60);
    assert_same(&rt, swaps, (4, 2));
}

// The least store, of which each write begins a pass where none runs.
fn least(rt: &impl Abort) -> Geometry {
    geometry(rt, Geometry::MIN_HALF, Geometry::MIN_RATIO, 0, 4_096)
}

// Two hundred keys are put, and then there are writes over them.
fn write_one(rt: &impl Abort, alloc: Global, core: &mut Core<MemDisk>, seat: u32, number: usize) {
    let place = number.saturating_mul(77) % 200;
    let op = if number < 200 {
        put_of(rt, place)
    } else {
        newer(rt, place)
    };
    write(alloc, core, seat, op);
}

// Of 182 writes the last sixteen are by sixteen callers, each of which holds all rows before. Behind each of these each key is looked up, or never.
fn sixteen_holds(rt: &impl Abort, alloc: Global, looks: bool) -> Core<MemDisk> {
    let mut core = fresh(rt, alloc, least(rt));
    for number in 0..166 {
        write_one(rt, alloc, &mut core, 0, number);
    }
    for seat in 0..CALLERS {
        let number = (seat as usize).saturating_add(166);
        hold_from(rt, alloc, &mut core, seat, 0);
        write_one(rt, alloc, &mut core, seat, number);
        if looks {
            get_all(rt, alloc, &mut core);
        }
    }
    core
}

// C1 has pages, and a deep merge runs.
fn check_components(rt: &impl Abort, core: Core<MemDisk>) {
    let (disk, _, totals) = core.end();
    assert_same(rt, totals.deeps, 0);
    let now = File::over(rt, least(rt), disk).newest(rt);
    assert!(rt; 0 < now.c1.pages && 0 < now.c1x.pages);
}

// Fifty writes come, and then each of the sixteen reads its hold, or none.
fn go_on(rt: &impl Abort, alloc: Global, mut core: Core<MemDisk>, reads: bool) -> Core<MemDisk> {
    for number in 182..232 {
        write_one(rt, alloc, &mut core, 0, number);
    }
    for seat in 0..CALLERS {
        if reads {
            read_on(alloc, &mut core, seat, 7);
        }
    }
    core
}

// A lookup reads three pages at most; a hold no more than it may pin, and in each further next the three at which the last one ended.
#[test]
fn sixteen_holds_while_both_merges_run(rt: HostRuntime) {
    let alloc = rt.alloc();
    check_components(&rt, sixteen_holds(&rt, alloc, false));
    let (before, _, _) = ended(go_on(&rt, alloc, sixteen_holds(&rt, alloc, false), false));
    let (looked, annals, _) = ended(go_on(&rt, alloc, sixteen_holds(&rt, alloc, true), false));
    check_told(&rt, alloc, &annals, 232 + 16 * 169);
    let (read, annals, swaps) = ended(go_on(&rt, alloc, sixteen_holds(&rt, alloc, false), true));
    check_told(&rt, alloc, &annals, 232 + 16 + 16 * 7);
    assert_same(&rt, swaps.1, 1);
    let reads = looked.saturating_sub(before);
    assert!(rt; 0 < reads && reads <= 3 * 16 * 168, "{reads} reads");
    let reads = read.saturating_sub(before);
    assert!(rt; 0 < reads && reads <= 16 * (43 + 3 * 6), "{reads} reads");
}

// What is held of forty puts of 512 bytes, of which seven stand on a page: behind a quantum two more are in the run, and its last page is open. What
// of them isn't on a finished page weighs at most what a page may have.
fn check_resident(rt: &impl Abort, core: &Core<MemDisk>, quanta: u64, in_b: u64) {
    let taken = quanta.saturating_mul(2);
    let pages = taken.saturating_sub(1) / 7;
    let held = 40u64
        .saturating_sub(pages.saturating_mul(7))
        .saturating_mul(512);
    assert_same_at(rt, core.resident(), held.saturating_add(in_b), quanta);
    let ahead = 40u64.saturating_sub(taken).saturating_mul(512);
    assert_that_at(rt, held <= ahead.saturating_add(4_088), quanta);
}

// Quanta of a pass, of 1,024 bytes each, from one up to another.
fn take_quanta(
    rt: &impl Abort,
    alloc: Global,
    core: &mut Core<MemDisk>,
    from: u64,
    to: u64,
    in_b: u64,
) {
    for quanta in from..to {
        make(alloc, core, 0, Kind::WorkTurn);
        check_resident(rt, core, quanta, in_b);
    }
}

#[test]
fn what_is_held_behind_each_quantum(rt: HostRuntime) {
    let alloc = rt.alloc();
    let mut core = fresh(&rt, alloc, wide(&rt, 1_024));
    put_many(&rt, alloc, &mut core, 40);
    take_quanta(&rt, alloc, &mut core, 0, 11, 0);
    make(alloc, &mut core, 1, Kind::Admit(put_of(&rt, 0)));
    make(alloc, &mut core, 2, Kind::Admit(put_of(&rt, 39)));
    take_quanta(&rt, alloc, &mut core, 11, 21, 512);
    make(alloc, &mut core, 0, Kind::WorkTurn);
    assert_same(&rt, core.resident(), 512);
}
