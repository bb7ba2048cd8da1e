// A script that is too big, and streams that fail: the line and the exit code.
use super::asserts::{assert_same, assert_that};
use super::order::{check_over, told_over};
use super::{CHECK, RUN, add_part, check, letters, shelf_with_smallest};
use std::alloc::Global;
use std::process::{Abort, ExitCode};
use std::sync::Wait;
use std::thread::Threads;
use text_io::Sink;

#[test]
fn a_script_that_is_too_big(rt: HostRuntime) {
    let alloc = rt.alloc();
    let mut shelf = shelf_with_smallest(&rt, alloc);
    let big = letters(&rt, alloc, b'x', 8_388_609);
    let wanted = (3, "too big\n");
    check(&rt, alloc, &mut shelf, &RUN, big.as_bytes(), wanted);
}

// A script with a line that is told by three calls of the sink, as it gives a row.
const SCRIPT: &[u8] = b"1 put a 1 -\n1 hold a b\n1 next 2\n";

// This call of the source fails, and no line is done.
fn check_source<R: Abort + Threads + Wait + Sync>(rt: &R, alloc: Global, call: u64) {
    let wanted: (u8, &[u8]) = (8, b"source fault\n");
    let mut shelf = check_over(rt, alloc, &RUN, SCRIPT, &[call], wanted);
    let report = "ok version 1 c1 0 0 c1x 0 0 c2 0 0 lanes 0 0\n";
    check(rt, alloc, &mut shelf, &CHECK, b"", (0, report));
}

// The first call gives the whole script, and the second one its end.
#[test]
fn a_source_that_fails(rt: HostRuntime) {
    check_source(&rt, rt.alloc(), 1);
    check_source(&rt, rt.alloc(), 2);
}

// What each call of the sink takes.
const PIECES: [&str; 7] = [
    "open charge 0\n",
    "1 1 put a 1 - => ok q0\n",
    "2 1 hold a b => held q0\n",
    "3 1 next 2 => rows 1",
    " a 1 -",
    " q0\n",
    "end c0 14 of 34816 callers 0 workers 0 swaps 0 0\n",
];

// A run over a sink of which this call would fail has this text.
fn check_front<R: Abort + Threads + Wait + Sync>(
    rt: &R,
    alloc: Global,
    call: u64,
    told: &str,
    wanted: u8,
) {
    let (sink, code) = told_over(rt, alloc, &RUN, SCRIPT, &[call]);
    assert_that(rt, sink.bytes() == told.as_bytes());
    assert_same(rt, sink.faults(), u64::from(wanted / 9));
    assert_same(rt, code, ExitCode::from(wanted));
}

// Each call of the sink fails in turn: what came before it was written. Behind the last one there is none.
#[test]
fn a_sink_that_fails(rt: HostRuntime) {
    let alloc = rt.alloc();
    let mut told = String::new(alloc);
    let mut call: u64 = 1;
    for piece in &PIECES {
        check_front(&rt, alloc, call, &told, 9);
        add_part(&rt, &mut told, piece);
        call = call.saturating_add(1);
    }
    check_front(&rt, alloc, call, &told, 0);
}
