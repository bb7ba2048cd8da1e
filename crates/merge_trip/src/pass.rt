// Passes of tables over runs, beside plain merges of them.
ghost use Rattle.std.specs.Prelude.{◌≤◌};

use crate::asserts::{assert_same, assert_that};
use crate::helpers::{Behind, Coming, File, Memory, Merged, Store, is_ahead};
use crate::plain::{Draws, Plain, Records, base, draw_list, draw_record, fold_into, key_of, push};
use blsm_model::{Component, Key};
use disk_trait::Disk;
use page_file::no_component;
use page_space::Role;
use record_delta::Rec;
use std::alloc::Global;
use std::process::Abort;

// The tags of C1 and of the new C1.
const OLD: u8 = 3;

const NEW: u8 = 4;

fn letter(rt: &impl Abort, letter: u8) -> Key {
    Key::from_bytes(&[letter]).expect(rt, "a key")
}

// A table of five records of 449 bytes, b to f.
fn five(rt: &impl Abort, alloc: Global) -> Memory {
    let mut own = Memory::reserve(rt, alloc);
    for name in b'b'..b'g' {
        own.fold_in(rt, &letter(rt, name), &base(rt, 0, 435));
    }
    own
}

// Behind the first quantum come records of c and g.
fn two_come(rt: &impl Abort, alloc: Global) -> Coming {
    let mut coming = Coming::nothing(rt, alloc);
    let mut round = Vec::new(alloc);
    push(rt, &mut round, (letter(rt, b'c'), base(rt, 1, 0)));
    push(rt, &mut round, (letter(rt, b'g'), base(rt, 2, 0)));
    push(rt, &mut coming.rounds, round);
    coming
}

// A pass over no C1.
fn pass_over_nothing(
    rt: &impl Abort,
    alloc: Global,
    own: &mut Memory,
    coming: &mut Coming,
) -> Merged {
    let store = Store::blank(rt, alloc, 1_024);
    let (_, merged) = store.pass(rt, alloc, &no_component(), Role::new(NEW), own, coming);
    merged
}

// The record of c in a table.
fn has_c(rt: &impl Abort, memory: &Memory, count: u64, length: usize) {
    assert_same(
        rt,
        memory.table.get(&letter(rt, b'c')),
        Some(base(rt, count, length)),
    );
}

// What is ahead of the cursor joins the pass, what is behind it waits.
#[test]
fn a_table_that_grows_ahead_of_the_cursor(rt: HostRuntime) {
    let mut own = five(&rt, rt.alloc());
    let mut coming = two_come(&rt, rt.alloc());
    let merged = pass_over_nothing(&rt, rt.alloc(), &mut own, &mut coming);
    // Three records of 449 bytes, then the other two and the one of 14 bytes that joined.
    assert_eq!(rt; merged.quanta.len(), 2);
    assert_that(&rt, merged.quanta[0] == (1_347, Some(letter(&rt, b'd'))));
    assert_that(&rt, merged.quanta[1] == (912, Some(letter(&rt, b'g'))));
    let run = merged.run.expect(&rt, "no fault");
    assert_same(&rt, (run.entries, run.weight), (6, 2_259));
    has_c(&rt, &own, 0, 435);
    has_c(&rt, &coming.next, 1, 0);
}

// A store that has a run of a list.
fn make_store(
    rt: &impl Abort,
    alloc: Global,
    quantum: u64,
    list: &[Option<Rec>],
) -> (Store, Component) {
    let store = Store::blank(rt, alloc, quantum);
    let mut memory = Memory::of_list(rt, alloc, list);
    store.pass_alone(rt, alloc, Role::new(OLD), &mut memory)
}

// A table has just the records of a list, whose keys are all of those that may be.
fn check_table(rt: &impl Abort, memory: &Memory, list: &[Option<Rec>]) {
    for (number, rec) in list.iter().enumerate() {
        assert_that(rt, memory.table.get(&key_of(rt, number)) == copied(rec));
    }
}

fn copied(rec: &Option<Rec>) -> Option<Rec> {
    match rec {
        Some(rec) => Some(rec.copy()),
        None => None,
    }
}

// Lists that a plain pass works on: the tables, and the run.
#[derive(Drop)]
struct Lists {
    own: Records,
    next: Records,
    c1: Records,
}

impl Lists {
    // What came in behind a quantum, where the cursor was at this key.
    fn come_in(&mut self, coming: &Coming, round: usize, at: &Option<Key>) {
        let Some(entries) = coming.rounds.get(round) else {
            return;
        };
        for (key, rec) in entries {
            if coming.behind == Behind::Own || is_ahead(at, key) {
                fold_into(self.own.as_mut_slice(), key, rec);
            } else {
                fold_into(self.next.as_mut_slice(), key, rec);
            }
        }
    }

    // What a plain pass takes by one quantum.
    fn quantum(&self, rt: &impl Abort, plain: &mut Plain, quantum: u64) -> u64 {
        plain.quantum(rt, self.own.as_slice(), self.c1.as_slice(), quantum)
    }
}

// Compares a pass's quanta, those until the disk failed, with a plain one's. Where it came to its end, nothing is left. Gives what the
// plain one made.
fn check_quanta(
    rt: &impl Abort,
    alloc: Global,
    quantum: u64,
    merged: &Merged,
    lists: &mut Lists,
    coming: &Coming,
) -> Records {
    let mut plain = Plain::begin(rt, alloc, lists.c1.len());
    for (round, (taken, cursor)) in merged.quanta.as_slice().iter().enumerate() {
        assert_same(rt, lists.quantum(rt, &mut plain, quantum), *taken);
        assert_that(rt, plain.cursor(rt) == *cursor);
        assert!(rt; *taken < quantum.saturating_add(2 * 512));
        lists.come_in(coming, round, cursor);
    }
    if merged.run.is_some() {
        assert_same(rt, lists.quantum(rt, &mut plain, quantum), 0);
    }
    plain.out
}

// Compares what came of a pass with a plain one of the same lists.
fn check_merged(
    rt: &impl Abort,
    alloc: Global,
    file: &mut File,
    merged: &Merged,
    lists: &mut Lists,
    coming: &Coming,
) {
    let out = check_quanta(rt, alloc, file.geo.quantum(), merged, lists, coming);
    let run = merged.run.expect(rt, "no fault");
    file.check(rt, &run, out.as_slice());
}

// A pass over a store's C1 beside a plain one. Gives the pages of its run.
fn pass_beside(
    rt: &impl Abort,
    alloc: Global,
    (store, c1): (Store, Component),
    own: &mut Memory,
    lists: &mut Lists,
    coming: &mut Coming,
) -> u32 {
    let (mut store, merged) = store.pass(rt, alloc, &c1, Role::new(NEW), own, coming);
    check_merged(rt, alloc, &mut store.file, &merged, lists, coming);
    merged.run.expect(rt, "no fault").pages
}

// Lists of 250 keys: so many in a hundred have a record in the table, and so many in the run.
fn draw_lists(rt: &impl Abort, alloc: Global, draws: &mut Draws, own: u64, c1: u64) -> Lists {
    Lists {
        own: draw_list(rt, alloc, draws, 250, own, 400),
        next: Vec::new(alloc),
        c1: draw_list(rt, alloc, draws, 250, c1, 400),
    }
}

// A pass of lists that are drawn, while nothing comes in.
fn pass_of_lists(rt: &impl Abort, alloc: Global, draws: &mut Draws, quantum: u64, share: u64)
    requires { share ≤ 90 }
{
    let mut lists = draw_lists(rt, alloc, draws, 90 - share, share);
    let made = make_store(rt, alloc, quantum, lists.c1.as_slice());
    let mut own = Memory::of_list(rt, alloc, lists.own.as_slice());
    let mut coming = Coming::nothing(rt, alloc);
    let _pages = pass_beside(rt, alloc, made, &mut own, &mut lists, &mut coming);
}

#[test]
fn lists_beside_a_plain_pass(rt: HostRuntime) {
    let mut draws = Draws(7);
    for quantum in [1_024, 65_536] {
        for share in [0, 30, 90] {
            pass_of_lists(&rt, rt.alloc(), &mut draws, quantum, share);
        }
    }
}

// Three records, of any keys.
fn draw_round(rt: &impl Abort, alloc: Global, draws: &mut Draws) -> Vec<(Key, Rec)> {
    let mut round = Vec::new(alloc);
    for _ in 0..3 {
        let key = key_of(rt, draws.below(250) as usize);
        let rec = draw_record(rt, draws, 400);
        push(rt, &mut round, (key, rec));
    }
    round
}

// They come in behind each of 30 quanta.
fn draw_rounds(rt: &impl Abort, alloc: Global, draws: &mut Draws) -> Vec<Vec<(Key, Rec)>> {
    let mut rounds = Vec::new(alloc);
    for _ in 0..30 {
        let round = draw_round(rt, alloc, draws);
        push(rt, &mut rounds, round);
    }
    rounds
}

// Lists of the table, of the next one, where no key has a record yet, and of the run.
fn draw_growing(rt: &impl Abort, alloc: Global, draws: &mut Draws) -> Lists {
    Lists {
        own: draw_list(rt, alloc, draws, 250, 40, 400),
        next: draw_list(rt, alloc, draws, 250, 0, 400),
        c1: draw_list(rt, alloc, draws, 250, 60, 400),
    }
}

// A pass over a C1 of several pages, while records come in.
fn pass_while_growing(
    rt: &impl Abort,
    alloc: Global,
    draws: &mut Draws,
    behind: Behind,
    quantum: u64,
) {
    let mut lists = draw_growing(rt, alloc, draws);
    let (store, c1) = make_store(rt, alloc, quantum, lists.c1.as_slice());
    assert!(rt; c1.pages > 4);
    let mut own = Memory::of_list(rt, alloc, lists.own.as_slice());
    let mut coming = Coming {
        rounds: draw_rounds(rt, alloc, draws),
        behind,
        next: Memory::reserve(rt, alloc),
    };
    let pages = pass_beside(rt, alloc, (store, c1), &mut own, &mut lists, &mut coming);
    assert!(rt; pages > c1.pages);
    check_table(rt, &own, lists.own.as_slice());
    check_table(rt, &coming.next, lists.next.as_slice());
}

// Records come in ahead of the cursor and behind it, over runs and a table of several pages. What is ahead joins the pass. What is behind
// goes into the next table; or into the pass's own, and isn't taken.
#[test]
fn a_table_that_grows_on_both_sides(rt: HostRuntime) {
    let mut draws = Draws(3);
    for behind in [Behind::Next, Behind::Own] {
        for quantum in [1_024, 4_096] {
            pass_while_growing(&rt, rt.alloc(), &mut draws, behind, quantum);
        }
    }
}

// A store of a run, durable, over a disk of which this call fails.
fn failing(rt: &impl Abort, alloc: Global, list: &[Option<Rec>], call: u64) -> (Store, Component) {
    let (mut store, c1) = make_store(rt, alloc, 1_024, list);
    let file = &mut store.file;
    file.sync(rt);
    let mut store = store.over_image(rt, 0);
    let file = &mut store.file;
    file.fail(rt, call);
    (store, c1)
}

// A pass in which this call fails, if it makes it. Begun anew, where the disk works again, it gives what a plain one does. Gives whether
// the call was made.
fn fails_at(rt: &impl Abort, alloc: Global, lists: &mut Lists, call: u64) -> bool {
    let (store, c1) = failing(rt, alloc, lists.c1.as_slice(), call);
    let mut own = Memory::of_list(rt, alloc, lists.own.as_slice());
    let mut coming = Coming::nothing(rt, alloc);
    let (store, merged) = store.pass(rt, alloc, &c1, Role::new(NEW), &mut own, &mut coming);
    if let Some(run) = merged.run {
        // Each call has failed: those that read C1's pages, and those that write the new run's.
        assert_same(rt, faults_of(&store), 0);
        assert_same(rt, (c1.pages, run.pages), (2, 3));
        assert_same(rt, call, 2 + 2 + 3);
        return false;
    }
    assert_same(rt, faults_of(&store), 1);
    let _out = check_quanta(rt, alloc, 1_024, &merged, lists, &coming);
    let _pages = pass_beside(rt, alloc, (store, c1), &mut own, lists, &mut coming);
    true
}

fn faults_of(store: &Store) -> u64 {
    store.file.disk.faults()
}

// Each call of a pass in turn fails, up to the first that it doesn't make; call 1 was made before it.
#[test]
fn a_fault_at_each_call(rt: HostRuntime) {
    let mut draws = Draws(9);
    let mut lists = Lists {
        own: draw_list(&rt, rt.alloc(), &mut draws, 100, 60, 400),
        next: Vec::new(rt.alloc()),
        c1: draw_list(&rt, rt.alloc(), &mut draws, 100, 60, 400),
    };
    'calls: for call in 2..100u64 {
        if !fails_at(&rt, rt.alloc(), &mut lists, call) {
            return;
        }
    }
    assert!(rt; false, "a call more than 100");
}
