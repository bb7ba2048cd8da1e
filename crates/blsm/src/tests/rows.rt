// Scripts with their printed texts, over a store that was just made, and what a check tells of it then.
use super::asserts::{assert_same, assert_that};
use super::turns::{check_behind, run_in_turn};
use super::{CHECK, RUN, add, check, letters, shelf_with_default, shelf_with_smallest};
use std::alloc::Global;
use std::process::Abort;

#[test]
fn two_callers(rt: HostRuntime) {
    let alloc = rt.alloc();
    let mut shelf = shelf_with_default(&rt, alloc);
    // The two puts come first, in any order.
    let script =
        "1 put apple 3 red\n2 put pear 5 green\n1 add apple 4\n2 add plum 7\n2 get apple\n1 get plum\n1 del pear\n2 get pear\n1 put apple 1 -\n2 get apple\n";
    let text = run_in_turn(&rt, alloc, &mut shelf, script, 2);
    let wanted = [
        "3 1 add apple 4 => ok q0",
        "4 2 add plum 7 => ok q0",
        "5 2 get apple => is 7 red q0",
        "6 1 get plum => is 7 - q0",
        "7 1 del pear => ok q0",
        "8 2 get pear => none q0",
        "9 1 put apple 1 - => ok q0",
        "10 2 get apple => is 1 - q0",
        "end c0 60 of 65536 callers 0 workers 0 swaps 0 0",
    ];
    check_behind(&rt, &text, 3, &wanted);
    let report = "ok version 1 c1 0 0 c1x 0 0 c2 0 0 lanes 6 0\n";
    check(&rt, alloc, &mut shelf, &CHECK, b"", (0, report));
}

// Puts a command behind a script, and its line behind a text.
fn add_command(
    rt: &impl Abort,
    alloc: Global,
    script: &mut String,
    text: &mut String,
    place: usize,
    command: (&str, &str),
) {
    add(rt, script, command.0);
    match format!(in alloc; "{place} {} => {}", command.0, command.1) {
        Ok(line) => add(rt, text, &line),
        Err(_) => rt.abort(),
    }
}

fn heavy_put(rt: &impl Abort, alloc: Global, key: &str, count: u32) -> String {
    let letters = letters(rt, alloc, b'x', 435);
    match format!(in alloc; "1 put {key} {count} {letters}") {
        Ok(line) => line,
        Err(_) => rt.abort(),
    }
}

#[test]
fn a_hundred_equal_writes(rt: HostRuntime) {
    let alloc = rt.alloc();
    let key = letters(&rt, alloc, b'k', 64);
    let put = heavy_put(&rt, alloc, &key, 9);
    let mut script = String::new(alloc);
    let mut text = String::new(alloc);
    add(&rt, &mut text, "open charge 0");
    for place in 1..101 {
        let reply = if place % 33 == 0 { "ok q1" } else { "ok q0" };
        add_command(&rt, alloc, &mut script, &mut text, place, (&put, reply));
    }
    add(
        &rt,
        &mut text,
        "end c0 512 of 65536 callers 3 workers 0 swaps 3 0",
    );
    let mut shelf = shelf_with_default(&rt, alloc);
    check(&rt, alloc, &mut shelf, &RUN, script.as_bytes(), (0, &text));
    let report = "ok version 4 c1 1 512 c1x 0 0 c2 0 0 lanes 1 0\n";
    check(&rt, alloc, &mut shelf, &CHECK, b"", (0, report));
}

fn numbered_put(rt: &impl Abort, alloc: Global, number: u32) -> String {
    let letters = letters(rt, alloc, b't', 435);
    match format!(in alloc; "1 put k{number:063} 1 {letters}") {
        Ok(line) => line,
        Err(_) => rt.abort(),
    }
}

// The line's end says how many quanta there were, 3 at most.
fn is_paid(line: &str) -> bool {
    line.ends_with("=> ok q0")
        || line.ends_with("=> ok q1")
        || line.ends_with("=> ok q2")
        || line.ends_with("=> ok q3")
}

// The lines that a run printed, but for the last one: 238 writes that were done with few quanta, and the lines that are wanted behind them.
fn check_lines(rt: &impl Abort, text: &str, rest: &[&str]) {
    let mut place: usize = 0;
    for line in text.lines().skip(1) {
        if place < 238 {
            assert_that(rt, is_paid(line));
        } else if place - 238 < rest.len() {
            assert_same(rt, line, rest[place - 238]);
        }
        place = place.saturating_add(1);
    }
    assert_same(rt, place, 239 + rest.len());
}

#[test]
fn a_full_store_is_full_exactly_by_charge(rt: HostRuntime) {
    let alloc = rt.alloc();
    let mut script = String::new(alloc);
    for number in 0..238 {
        add(&rt, &mut script, &numbered_put(&rt, alloc, number));
    }
    for line in ["1 put a 1 -", "1 del a", "1 put a 1 -"] {
        add(&rt, &mut script, line);
    }
    let mut shelf = shelf_with_smallest(&rt, alloc);
    let text = super::run_text(&rt, alloc, &mut shelf, &RUN, script.as_bytes());
    let rest = [
        "239 1 put a 1 - => full 121856 q0",
        "240 1 del a => ok q0",
        "241 1 put a 1 - => full 121870 q0",
    ];
    check_lines(&rt, &text, &rest);
}
