// Holds of ranges, which give the rows of their moment.
use super::asserts::assert_same;
use super::turns::run_in_turn;
use super::{add, letters, shelf_with_smallest};
use std::alloc::Global;
use std::process::Abort;

// Writes of thirty keys, and what merges them into C2.
fn add_round(rt: &impl Abort, alloc: Global, script: &mut String, count: u32, letters: &str) {
    for number in 10..40 {
        match format!(in alloc; "1 put k{number} {count} {letters}") {
            Ok(line) => add(rt, script, &line),
            Err(_) => rt.abort(),
        }
    }
    add(rt, script, "1 work 1000");
}

// A line of each caller.
fn add_lines(rt: &impl Abort, alloc: Global, script: &mut String, command: &str) {
    for caller in 1..17 {
        match format!(in alloc; "{caller} {command}") {
            Ok(line) => add(rt, script, &line),
            Err(_) => rt.abort(),
        }
    }
}

// The reply with all rows of the first round.
fn first_rows(rt: &impl Abort, alloc: Global, letters: &str) -> String {
    let Ok(mut reply) = String::from_str(alloc, " => rows 30") else {
        rt.abort()
    };
    for number in 10..40 {
        match format!(in alloc; " k{number} 1 {letters}") {
            Ok(row) => {
                if reply.push_str(&row).is_err() {
                    rt.abort()
                }
            }
            Err(_) => rt.abort(),
        }
    }
    if reply.push_str(" q0").is_err() {
        rt.abort()
    }
    reply
}

// How many lines end so.
fn count_ends(text: &str, end: &str) -> u32 {
    let mut count: u32 = 0;
    for line in text.lines() {
        if line.ends_with(end) {
            count = count.saturating_add(1);
        }
    }
    count
}

// Each caller holds the first round while two more take its place in C2.
#[test]
fn sixteen_holds_while_c2_is_written_twice(rt: HostRuntime) {
    let alloc = rt.alloc();
    let letters = letters(&rt, alloc, b't', 435);
    let mut script = String::new(alloc);
    // The gets come first, in any order.
    add_lines(&rt, alloc, &mut script, "get none");
    add_round(&rt, alloc, &mut script, 1, &letters);
    add_lines(&rt, alloc, &mut script, "hold k1 k4");
    add_round(&rt, alloc, &mut script, 2, &letters);
    add_round(&rt, alloc, &mut script, 3, &letters);
    add_lines(&rt, alloc, &mut script, "next 32");
    add_lines(&rt, alloc, &mut script, "next 32");
    add_lines(&rt, alloc, &mut script, "drop");
    add_lines(&rt, alloc, &mut script, "get k10");
    let mut shelf = shelf_with_smallest(&rt, alloc);
    let text = run_in_turn(&rt, alloc, &mut shelf, &script, 16);
    let rows = first_rows(&rt, alloc, &letters);
    assert_same(&rt, count_ends(&text, &rows), 16);
    assert_same(&rt, count_ends(&text, "next 32 => rows 0 q0"), 16);
    assert_same(&rt, count_ends(&text, "drop => ok q0"), 16);
    match format!(in alloc; "get k10 => is 3 {letters} q0") {
        Ok(now) => assert_same(&rt, count_ends(&text, &now), 16),
        Err(_) => rt.abort(),
    }
}
