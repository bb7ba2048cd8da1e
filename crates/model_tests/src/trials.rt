// Scripts that are made from a seed, and the summary of a run of one.
ghost use Rattle.std.specs.Prelude.{◌≤◌};
ghost use Rattle.std.specs.List.{All};
ghost use Rattle.blsm_model.specs.Format.{most_lines};
ghost use Rattle.script_text.specs.Generated.{HasMadeKeys};

use crate::asserts::{assert_same, assert_that};
use crate::samples::{key, sink, value};
use crate::scripts::note;
use blsm_model::{Annals, Entry, Line, Op, Plain, Totals, run};
use refusal::Failed;
use script_text::{MOST_LINES, Script, generate, made_histories, print_summary};
use std::alloc::Global;
use std::process::Abort;

fn is_put(rt: &impl Abort, script: &Script, place: usize, name: &[u8], count: u64, text: &[u8]) {
    is_line(
        rt,
        script,
        place,
        Op::Put(key(rt, name), value(rt, count, text)),
    );
}

// The line of this place is this one, of seat 0.
fn is_line(rt: &impl Abort, script: &Script, place: usize, op: Op) {
    let line = script.lines().get(place).expect(rt, "so many");
    assert_that(rt, *line == Line { seat: 0, op });
}

fn of_seed(rt: &impl Abort, alloc: Global, seed: u64, count: u32) -> Script
    requires { count ≤ most_lines }
{
    let script = generate(alloc, seed, count).expect(rt, "memory");
    assert_same(rt, script.lines().len(), count as usize);
    script
}

#[test]
fn seed_0_makes_one_script(rt: HostRuntime) {
    let script = of_seed(&rt, rt.alloc(), 0, 5);
    is_put(&rt, &script, 0, b"k00924", 937, &[b'o'; 196]);
    is_put(&rt, &script, 1, b"k01391", 184, &[b'n'; 175]);
    is_line(&rt, &script, 2, Op::Add(key(&rt, b"k00639"), 503));
    is_line(&rt, &script, 3, Op::Get(key(&rt, b"k00145")));
    is_put(&rt, &script, 4, b"k00978", 931, &[b'q'; 163]);
}

#[test]
fn seed_7_makes_one_script(rt: HostRuntime) {
    let script = of_seed(&rt, rt.alloc(), 7, 3);
    is_line(&rt, &script, 0, Op::Del(key(&rt, b"k00731")));
    is_put(&rt, &script, 1, b"k00719", 864, &[b'r'; 164]);
    is_put(&rt, &script, 2, b"k01186", 195, &[b'q'; 195]);
}

#[test]
fn a_script_that_is_made_has_so_many_lines(rt: HostRuntime) {
    for count in [0, 1, MOST_LINES] {
        let _script = of_seed(&rt, rt.alloc(), 18446744073709551615, count);
    }
}

fn note_made(rt: &impl Abort, annals: &mut Annals, entry: Entry)
    requires old { All (λ e. HasMadeKeys e.op) annals.old.entries }
    requires entry { HasMadeKeys entry.op }
    ensures { All (λ e. HasMadeKeys e.op) annals.new.entries }
{
    note(rt, annals, entry.seat, entry.op, entry.reply);
}

fn note_all(rt: &impl Abort, annals: &mut Annals, history: &[Entry])
    requires old { All (λ e. HasMadeKeys e.op) annals.old.entries }
    requires history { All (λ e. HasMadeKeys e.op) history.now }
    ensures { All (λ e. HasMadeKeys e.op) annals.new.entries }
{
    for entry in history {
        note_made(rt, annals, entry.copy());
    }
}

// What a plain store that takes so many bytes answers to the script of a seed.
fn play(rt: &impl Abort, alloc: Global, seed: u64, count: u32, limit: u64) -> Annals
    requires { count ≤ most_lines }
    ensures { All (λ e. HasMadeKeys e.op) result.entries }
{
    let script = generate(alloc, seed, count).expect(rt, "memory");
    let lines = script.lines();
    assert!(rt; Plain::can_run(lines));
    let history = run(alloc, lines, limit).expect(rt, "memory");
    made_histories();
    let mut annals = Annals::reserve(alloc, script.room()).expect(rt, "memory");
    note_all(rt, &mut annals, &history);
    annals
}

// Gives an entry its quanta, where there is such an entry without any.
fn pay(annals: &mut Annals, place: u32, quanta: u64)
    requires { All (λ e. HasMadeKeys e.op) annals.old.entries }
    ensures { All (λ e. HasMadeKeys e.op) annals.new.entries }
{
    if (place as usize) < annals.len() && annals.quanta(place) == 0 {
        annals.count(place, quanta);
    }
}

const TOTALS: Totals = Totals {
    peak: 60001,
    high: 65536,
    callers: 18446744073709551615,
    workers: 2,
    passes: 3,
    deeps: 1,
    charge: 99982,
    stopped: None,
};

// The summary is this text.
fn is_summed_up(rt: &impl Abort, alloc: Global, seed: u64, count: u32, annals: &Annals, text: &[u8])
    requires { All (λ e. HasMadeKeys e.op) annals.now.entries }
{
    let mut sink = sink(rt, alloc, 1000, &[]);
    let answer = print_summary(&mut sink, seed, count, annals, &TOTALS);
    assert_same(rt, answer, Ok(()));
    assert_same(rt, sink.bytes(), text);
}

const OF_SEED_7: &[u8] = b"trial seed 7 count 1000
puts 609 adds 166 dels 31 gets 194
full 158
c0 60001 of 65536
largest q 2 of 3
quanta 18446744073709551617 swaps 3 1
keys 509 charge 99982
";

// The numbers of commands, refusals and keys are those of another program, by the same rules.
#[test]
fn a_summary_is_seven_lines(rt: HostRuntime) {
    let mut annals = play(&rt, rt.alloc(), 7, 1000, 100000);
    // A get's quanta are no write's.
    pay(&mut annals, 1, 1);
    pay(&mut annals, 7, 9);
    pay(&mut annals, 8, 2);
    pay(&mut annals, 9, 1);
    is_summed_up(&rt, rt.alloc(), 7, 1000, &annals, OF_SEED_7);
}

const OF_NOTHING: &[u8] = b"trial seed 0 count 0
puts 0 adds 0 dels 0 gets 0
full 0
c0 60001 of 65536
largest q 0 of 3
quanta 18446744073709551617 swaps 3 1
keys 0 charge 99982
";

#[test]
fn an_empty_history_has_a_summary(rt: HostRuntime) {
    let annals = play(&rt, rt.alloc(), 0, 0, 0);
    is_summed_up(&rt, rt.alloc(), 0, 0, &annals, OF_NOTHING);
}

#[test]
fn a_summary_over_a_sink_that_fails(rt: HostRuntime) {
    let annals = play(&rt, rt.alloc(), 0, 0, 0);
    let mut failing = sink(&rt, rt.alloc(), 1000, &[1]);
    let answer = print_summary(&mut failing, 0, 0, &annals, &TOTALS);
    assert_same(&rt, answer, Err(Failed));
    assert_same(&rt, failing.bytes(), b"".as_slice());
}
