// Scripts of sixteen callers, drawn at random and done in the order of their lines, beside a plain map and plain copies of it.
ghost use Rattle.std.specs.Prelude.{◌<◌};

use super::asserts::assert_that;
use super::turns::run_in_turn;
use super::{add, shelf_with_default};
use std::alloc::Global;
use std::process::Abort;

// How many scripts there are, and how many commands each has.
const SCRIPTS: u64 = 3;

const COMMANDS: u64 = 400;

const KEYS: u64 = 20;

const CALLERS: u64 = 16;

// Knuth's linear congruential generator.
#[derive(Drop)]
struct Draws(u64);

impl Draws {
    fn below(&mut self, limit: u64) -> u64
        requires { 0 < limit }
        ensures { result < limit }
    {
        self.0 = self
            .0
            .wrapping_mul(6_364_136_223_846_793_005)
            .wrapping_add(1_442_695_040_888_963_407);
        (self.0 >> 33) % limit
    }
}

// The count of each key, if it has one.
type Counts = Vec<Option<u64>>;

// What a caller holds: the counts of the moment, and the keys that are still to come.
#[derive(Drop)]
struct Held {
    counts: Counts,
    next: u64,
    end: u64,
}

#[derive(Drop)]
struct Plain {
    counts: Counts,
    held: Vec<Option<Held>>,
}

fn taken<E: Drop>(rt: &impl Abort, made: Result<String, E>) -> String {
    match made {
        Ok(text) => text,
        Err(_) => rt.abort(),
    }
}

// So many times nothing.
fn nothing<T: Drop>(rt: &impl Abort, alloc: Global, count: u64) -> Vec<Option<T>> {
    let mut list = Vec::new(alloc);
    for _ in 0..count {
        if list.push(None).is_err() {
            rt.abort()
        }
    }
    list
}

fn copy_of(rt: &impl Abort, alloc: Global, counts: &[Option<u64>]) -> Counts {
    let mut copies = Vec::new(alloc);
    for count in counts {
        if copies.push(*count).is_err() {
            rt.abort()
        }
    }
    copies
}

// The name of a key: names are in the order of their numbers.
fn name(rt: &impl Abort, alloc: Global, number: u64) -> String {
    let place = number.saturating_add(10);
    taken(rt, format!(in alloc; "k{place}"))
}

fn set(counts: &mut [Option<u64>], number: u64, count: Option<u64>) {
    if let Some(place) = counts.get_mut(number as usize) {
        *place = count;
    }
}

fn count_at(counts: &[Option<u64>], number: u64) -> Option<u64> {
    match counts.get(number as usize) {
        Some(Some(count)) => Some(*count),
        _ => None,
    }
}

// Puts a row behind others.
fn add_row(rt: &impl Abort, alloc: Global, rows: &mut String, number: u64, count: u64) {
    let key = name(rt, alloc, number);
    let row = taken(rt, format!(in alloc; " {key} {count} -"));
    if rows.push_str(&row).is_err() {
        rt.abort()
    }
}

// What a next of so many rows tells of a hold.
fn rows_of(rt: &impl Abort, alloc: Global, held: &mut Held, n: u64) -> String {
    let mut rows = String::new(alloc);
    let mut given: u64 = 0;
    for number in held.next..held.end {
        if given < n {
            if let Some(count) = count_at(&held.counts, number) {
                add_row(rt, alloc, &mut rows, number, count);
                given = given.saturating_add(1);
            }
            held.next = number.saturating_add(1);
        }
    }
    taken(rt, format!(in alloc; "rows {given}{rows}"))
}

// A write of a key, and its reply.
fn draw_write(
    rt: &impl Abort,
    alloc: Global,
    draws: &mut Draws,
    plain: &mut Plain,
) -> (String, String) {
    let number = draws.below(KEYS);
    let key = name(rt, alloc, number);
    let drawn = draws.below(1_000);
    let command = match draws.below(4) {
        0 | 1 => {
            set(&mut plain.counts, number, Some(drawn));
            taken(rt, format!(in alloc; "put {key} {drawn} -"))
        }
        2 => {
            let was = count_at(&plain.counts, number).unwrap_or(0);
            set(&mut plain.counts, number, Some(was.wrapping_add(drawn)));
            taken(rt, format!(in alloc; "add {key} {drawn}"))
        }
        _ => {
            set(&mut plain.counts, number, None);
            taken(rt, format!(in alloc; "del {key}"))
        }
    };
    (command, taken(rt, format!(in alloc; "ok q")))
}

fn draw_get(
    rt: &impl Abort,
    alloc: Global,
    draws: &mut Draws,
    plain: &mut Plain,
) -> (String, String) {
    let number = draws.below(KEYS);
    let key = name(rt, alloc, number);
    let reply = match count_at(&plain.counts, number) {
        Some(count) => taken(rt, format!(in alloc; "is {count} - q")),
        None => taken(rt, format!(in alloc; "none q")),
    };
    (taken(rt, format!(in alloc; "get {key}")), reply)
}

// A hold of a caller.
fn draw_hold(
    rt: &impl Abort,
    alloc: Global,
    draws: &mut Draws,
    plain: &mut Plain,
    caller: u64,
) -> (String, String) {
    let next = draws.below(KEYS);
    let end = draws.below(KEYS);
    let (low, high) = (name(rt, alloc, next), name(rt, alloc, end));
    let counts = copy_of(rt, alloc, &plain.counts);
    if let Some(place) = plain.held.get_mut(caller as usize) {
        *place = Some(Held { counts, next, end });
    }
    let command = taken(rt, format!(in alloc; "hold {low} {high}"));
    (command, taken(rt, format!(in alloc; "held q")))
}

fn draw_next(
    rt: &impl Abort,
    alloc: Global,
    draws: &mut Draws,
    plain: &mut Plain,
    caller: u64,
) -> (String, String) {
    let n = draws.below(8).saturating_add(1);
    let reply = match plain.held.get_mut(caller as usize) {
        Some(Some(held)) => {
            let rows = rows_of(rt, alloc, held, n);
            taken(rt, format!(in alloc; "{rows} q"))
        }
        _ => taken(rt, format!(in alloc; "nohold q")),
    };
    (taken(rt, format!(in alloc; "next {n}")), reply)
}

fn draw_drop(rt: &impl Abort, alloc: Global, plain: &mut Plain, caller: u64) -> (String, String) {
    let reply = match plain.held.get_mut(caller as usize) {
        Some(place) => match place.take() {
            Some(_) => "ok q",
            None => "nohold q",
        },
        None => rt.abort(),
    };
    (
        taken(rt, format!(in alloc; "drop")),
        taken(rt, format!(in alloc; "{reply}")),
    )
}

// A command of a caller, and how its reply begins.
fn draw(
    rt: &impl Abort,
    alloc: Global,
    draws: &mut Draws,
    plain: &mut Plain,
    caller: u64,
) -> (String, String) {
    match draws.below(20) {
        0..=8 => draw_write(rt, alloc, draws, plain),
        9..=11 => draw_get(rt, alloc, draws, plain),
        12..=13 => draw_hold(rt, alloc, draws, plain, caller),
        14..=17 => draw_next(rt, alloc, draws, plain, caller),
        18 => draw_drop(rt, alloc, plain, caller),
        _ => (
            taken(rt, format!(in alloc; "work 50")),
            taken(rt, format!(in alloc; "did ")),
        ),
    }
}

// A script, and how each line of its history begins.
fn draw_script(rt: &impl Abort, alloc: Global, seed: u64) -> (String, String) {
    let mut draws = Draws(seed);
    let mut plain = Plain {
        counts: nothing(rt, alloc, KEYS),
        held: nothing(rt, alloc, CALLERS),
    };
    let mut script = String::new(alloc);
    let mut wanted = String::new(alloc);
    // One get of each caller comes first, in any order.
    for seat in 1..=CALLERS {
        add(
            rt,
            &mut script,
            &taken(rt, format!(in alloc; "{seat} get none")),
        );
    }
    for number in 1..=COMMANDS {
        let place = number.saturating_add(CALLERS);
        let caller = draws.below(CALLERS);
        let (command, reply) = draw(rt, alloc, &mut draws, &mut plain, caller);
        let seat = caller.saturating_add(1);
        add(
            rt,
            &mut script,
            &taken(rt, format!(in alloc; "{seat} {command}")),
        );
        let line = taken(rt, format!(in alloc; "{place} {seat} {command} => {reply}"));
        add(rt, &mut wanted, &line);
    }
    (script, wanted)
}

// Each line of the history begins as is wanted.
fn check_lines(rt: &impl Abort, text: &str, wanted: &str) {
    let mut lines = text.lines();
    assert_that(rt, lines.next() == Some("open charge 0"));
    for _ in 0..CALLERS {
        let Some(line) = lines.next() else { rt.abort() };
        assert_that(rt, line.ends_with(" get none => none q0"));
    }
    for want in wanted.lines() {
        let Some(line) = lines.next() else { rt.abort() };
        assert_that(rt, line.starts_with(want));
    }
    let Some(end) = lines.next() else { rt.abort() };
    assert_that(rt, end.starts_with("end c0 "));
    assert_that(rt, lines.next().is_none());
}

#[test]
fn drawn_scripts_with_holds(rt: HostRuntime) {
    let alloc = rt.alloc();
    for seed in 0..SCRIPTS {
        let (script, wanted) = draw_script(&rt, alloc, seed);
        let mut shelf = shelf_with_default(&rt, alloc);
        let text = run_in_turn(&rt, alloc, &mut shelf, &script, CALLERS);
        check_lines(&rt, &text, &wanted);
    }
}
