// Deep merges of lists, beside plain merges of them.
use crate::asserts::{assert_same, assert_that};
use crate::helpers::{File, Memory, Merged, Store};
use crate::plain::{Draws, Plain, Records, draw_list, push, settled, weight_of};
use blsm_model::{Component, Key};
use disk_trait::Disk;
use page_space::Role;
use record_delta::Rec;
use std::alloc::Global;
use std::process::Abort;

// The tags of C1', of C2 and of the new C2.
const NEWER: u8 = 1;

const OLDER: u8 = 2;

const NEW: u8 = 4;

// A store that has two runs, of these lists.
#[derive(Drop)]
struct Inputs {
    store: Store,
    c1x: Component,
    c2: Component,
}

// A store with one run more, of a list.
fn add_run(
    rt: &impl Abort,
    alloc: Global,
    store: Store,
    role: u8,
    list: &[Option<Rec>],
) -> (Store, Component) {
    let mut memory = Memory::of_list(rt, alloc, list);
    assert!(rt; role < Role::COUNT);
    store.pass_alone(rt, alloc, Role::new(role), &mut memory)
}

// Two passes make them, and a sync makes them durable.
fn make_inputs(
    rt: &impl Abort,
    alloc: Global,
    quantum: u64,
    newer: &[Option<Rec>],
    older: &[Option<Rec>],
) -> Inputs {
    let store = Store::blank(rt, alloc, quantum);
    let (store, c2) = add_run(rt, alloc, store, OLDER, older);
    let (mut store, c1x) = add_run(rt, alloc, store, NEWER, newer);
    sync(rt, &mut store);
    Inputs { store, c1x, c2 }
}

fn sync(rt: &impl Abort, store: &mut Store) {
    let file = &mut store.file;
    file.sync(rt);
}

// Compares a quantum with a plain merge's. It is a quantum or all that is left, and less than one group more.
fn check_quantum(
    rt: &impl Abort,
    plain: &mut Plain,
    (taken, cursor): &(u64, Option<Key>),
    (newer, older): (&[Option<Rec>], &[Option<Rec>]),
    quantum: u64,
    left: u64,
) {
    assert_same(rt, plain.quantum(rt, newer, older, quantum), *taken);
    assert_that(rt, plain.cursor(rt) == *cursor);
    assert!(rt; *taken <= left && *taken < quantum.saturating_add(2 * 512));
    assert!(rt; *taken >= quantum || *taken == left);
}

// Compares a merge's quanta, those until the disk failed, with a plain merge's. Where it came to its end, all was taken. Gives what the
// plain one made.
fn check_quanta(
    rt: &impl Abort,
    alloc: Global,
    quantum: u64,
    merged: &Merged,
    newer: &[Option<Rec>],
    older: &[Option<Rec>],
) -> Records {
    let mut plain = Plain::begin(rt, alloc, newer.len());
    let mut left = weight_of(rt, newer).saturating_add(weight_of(rt, older));
    for one in merged.quanta.as_slice() {
        check_quantum(rt, &mut plain, one, (newer, older), quantum, left);
        left = left.saturating_sub(one.0);
    }
    assert_that(rt, merged.run.is_none() || left == 0);
    settled(rt, alloc, plain.out.as_slice())
}

// Compares what came of a merge with a plain one of the same lists.
fn check_merged(
    rt: &impl Abort,
    alloc: Global,
    file: &mut File,
    merged: &Merged,
    newer: &[Option<Rec>],
    older: &[Option<Rec>],
) {
    let out = check_quanta(rt, alloc, file.geo.quantum(), merged, newer, older);
    let run = merged.run.expect(rt, "no fault");
    file.check(rt, &run, out.as_slice());
}

// A deep merge of both inputs beside a plain one.
fn merge_beside(
    rt: &impl Abort,
    alloc: Global,
    inputs: Inputs,
    newer: &[Option<Rec>],
    older: &[Option<Rec>],
) {
    let Inputs { store, c1x, c2 } = inputs;
    let (mut store, merged) = store.deep(rt, alloc, &c1x, &c2, Role::new(NEW));
    check_merged(rt, alloc, &mut store.file, &merged, newer, older);
}

// How many keys in a hundred have a record in the newer list and in the older one.
const SHARES: [(u64, u64); 8] = [
    (60, 60),
    (95, 95),
    (10, 90),
    (90, 10),
    (0, 70),
    (70, 0),
    (30, 30),
    (0, 0),
];

// One round: two lists that are drawn, merged by small quanta and by a great one.
fn round_of(
    rt: &impl Abort,
    alloc: Global,
    draws: &mut Draws,
    keys: usize,
    (newer, older): (u64, u64),
) {
    let longer = 1 + draws.below(435);
    let newer = draw_list(rt, alloc, draws, keys, newer, longer);
    let older = draw_list(rt, alloc, draws, keys, older, longer);
    for quantum in [1_024, 65_536] {
        let inputs = make_inputs(rt, alloc, quantum, newer.as_slice(), older.as_slice());
        merge_beside(rt, alloc, inputs, newer.as_slice(), older.as_slice());
    }
}

#[test]
fn lists_beside_a_plain_merge(rt: HostRuntime) {
    let mut draws = Draws(11);
    for round in 0..6usize {
        for shares in SHARES {
            round_of(&rt, rt.alloc(), &mut draws, 20 + 60 * round, shares);
        }
    }
}

// A page's bytes.
const PAGE: u64 = 4_096;

// How a page that was written stands in an image, in two digits: how many of its bytes do, and whether one byte more differs from the old
// one and the new one, or, of a whole page, all are zeros.
const TORN: [u64; 6] = [
    0,
    PAGE,
    1,
    PAGE / 2 + (PAGE + 1),
    PAGE - 1 + (PAGE + 1),
    PAGE + (PAGE + 1),
];

const WRITES: u64 = 3;

// The numbers of the images in which each of the first three writes stands in one of these ways.
fn add_ways(rt: &impl Abort, picks: &mut Vec<u64>) {
    let ways = 2 * (PAGE + 1);
    for first in TORN {
        for second in TORN {
            for third in TORN {
                push(rt, picks, (third * ways + second) * ways + first);
            }
        }
    }
}

// The numbers of those of each kind in which one of them is torn.
fn add_kinds(rt: &impl Abort, picks: &mut Vec<u64>) {
    for kind in 1..4u64 {
        for place in 0..WRITES + 1 {
            for torn in 0..WRITES + 1 {
                for way in [1, PAGE / 2 + (PAGE + 1), PAGE + (PAGE + 1)] {
                    let first = kind * 1_000_000_000_000 + way;
                    push(rt, picks, (first * 1_000 + torn) * 1_000 + place);
                }
            }
        }
    }
}

// In an image of a disk the inputs read as they were made.
fn check_image(
    rt: &impl Abort,
    file: &File,
    pick: u64,
    (c1x, c2): (&Component, &Component),
    newer: &[Option<Rec>],
    older: &[Option<Rec>],
) {
    let mut image = file.image(rt, pick);
    image.check(rt, c1x, newer);
    image.check(rt, c2, older);
}

// Lists, and the images that are read at each stop.
#[derive(Drop)]
struct Stops {
    newer: Records,
    older: Records,
    picks: Vec<u64>,
}

fn draw_stops(rt: &impl Abort, alloc: Global) -> Stops {
    let mut draws = Draws(5);
    let newer = draw_list(rt, alloc, &mut draws, 70, 80, 435);
    let older = draw_list(rt, alloc, &mut draws, 70, 90, 435);
    let mut picks = Vec::new(alloc);
    add_ways(rt, &mut picks);
    add_kinds(rt, &mut picks);
    Stops {
        newer,
        older,
        picks,
    }
}

impl Stops {
    // In each of these images of a disk the inputs read as they were made.
    fn check_images(&self, rt: &impl Abort, file: &File, c1x: &Component, c2: &Component) {
        let (newer, older) = (self.newer.as_slice(), self.older.as_slice());
        for pick in self.picks.as_slice() {
            check_image(rt, file, *pick, (c1x, c2), newer, older);
        }
    }

    // The store of both runs, over a disk of which this call fails.
    fn failing(&self, rt: &impl Abort, alloc: Global, call: u64) -> Inputs {
        let (newer, older) = (self.newer.as_slice(), self.older.as_slice());
        let Inputs { store, c1x, c2 } = make_inputs(rt, alloc, 1_024, newer, older);
        let mut store = store.over_image(rt, 0);
        fail(rt, &mut store, call);
        Inputs { store, c1x, c2 }
    }

    // A merge in which this call fails, if it makes it. Begun anew, where the disk works again, it gives the same. Gives whether the
    // call was made.
    fn fails_at(&self, rt: &impl Abort, alloc: Global, call: u64) -> bool {
        let Inputs { store, c1x, c2 } = self.failing(rt, alloc, call);
        let (store, merged) = store.deep(rt, alloc, &c1x, &c2, Role::new(NEW));
        self.check_images(rt, &store.file, &c1x, &c2);
        if let Some(run) = merged.run {
            // Each call has failed: those that read the inputs' pages, and those that write the new run's.
            assert_same(rt, faults_of(&store), 0);
            assert_same(rt, (c1x.pages, c2.pages, run.pages), (2, 2, 3));
            assert_same(rt, call, 2 + 2 + 2 + 3);
            return false;
        }
        assert_same(rt, faults_of(&store), 1);
        self.begin_anew(rt, alloc, Inputs { store, c1x, c2 }, &merged);
        true
    }

    // What the merge that failed took, and the merge anew.
    fn begin_anew(&self, rt: &impl Abort, alloc: Global, inputs: Inputs, failed: &Merged) {
        let (newer, older) = (self.newer.as_slice(), self.older.as_slice());
        let _settled = check_quanta(rt, alloc, 1_024, failed, newer, older);
        merge_beside(rt, alloc, inputs, newer, older);
    }
}

fn fail(rt: &impl Abort, store: &mut Store, call: u64) {
    let file = &mut store.file;
    file.fail(rt, call);
}

fn faults_of(store: &Store) -> u64 {
    store.file.disk.faults()
}

// A merge of runs of two pages, over a disk of which one call fails, each call in turn. In each image of that moment the inputs read as
// before. Begun anew, where the disk works again, the merge gives the same. Call 1 was made before it.
#[test]
fn a_fault_at_each_call_and_each_image(rt: HostRuntime) {
    let stops = draw_stops(&rt, rt.alloc());
    'calls: for call in 2..40u64 {
        if !stops.fails_at(&rt, rt.alloc(), call) {
            return;
        }
    }
    assert!(rt; false, "a call more than 40");
}
