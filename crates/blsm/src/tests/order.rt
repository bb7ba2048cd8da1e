// Which of two causes is told: the words come first, then the source, the script, and the disk; a sink that fails replaces any.
use super::asserts::{assert_same, assert_that};
use super::{NAME, letters, owned, shelf_with_smallest};
use crate::call;
use disk_mem::MemShelf;
use std::alloc::Global;
use std::process::{Abort, ExitCode};
use std::sync::Wait;
use std::thread::Threads;
use text_io::{FaultlessSink, MemSink, MemSource, Sink};

// A disk that isn't there.
const MISSING: [&str; 3] = ["blsm", "run", "other"];

// Makes the call over a source of which these calls fail, compares its text and its exit code, and answers the shelf.
pub fn check_over<R: Abort + Threads + Wait + Sync>(
    rt: &R,
    alloc: Global,
    words: &[&str],
    script: &[u8],
    fails: &[u64],
    wanted: (u8, &[u8]),
) -> MemShelf {
    let words = owned(rt, alloc, words);
    let mut shelf = shelf_with_smallest(rt, alloc);
    let Ok(mut source) = MemSource::new(alloc, script, fails) else {
        rt.abort()
    };
    let Ok(mut sink) = FaultlessSink::new(alloc, 100) else {
        rt.abort()
    };
    let code = call(rt, alloc, &words, &mut source, &mut sink, &mut shelf);
    assert_that(rt, sink.bytes() == wanted.1);
    assert_same(rt, code, ExitCode::from(wanted.0));
    shelf
}

#[test]
fn the_words_before_the_source(rt: HostRuntime) {
    let words = ["blsm", "run"];
    let _shelf = check_over(&rt, rt.alloc(), &words, b"1 frob\n", &[1], (1, b"usage\n"));
}

#[test]
fn the_source_before_the_script_and_the_disk(rt: HostRuntime) {
    let wanted: (u8, &[u8]) = (8, b"source fault\n");
    let _shelf = check_over(&rt, rt.alloc(), &MISSING, b"1 frob\n", &[1], wanted);
}

#[test]
fn the_size_before_the_script_and_the_disk(rt: HostRuntime) {
    let alloc = rt.alloc();
    let big = letters(&rt, alloc, b'x', 8_388_609);
    let wanted: (u8, &[u8]) = (3, b"too big\n");
    let _shelf = check_over(&rt, alloc, &MISSING, big.as_bytes(), &[], wanted);
}

#[test]
fn the_script_before_the_disk(rt: HostRuntime) {
    let wanted: (u8, &[u8]) = (2, b"bad line 1\n");
    let _shelf = check_over(&rt, rt.alloc(), &MISSING, b"1 frob\n", &[], wanted);
}

// Makes the call over a sink of which these calls fail.
pub fn told_over<R: Abort + Threads + Wait + Sync>(
    rt: &R,
    alloc: Global,
    words: &[&str],
    script: &[u8],
    fails: &[u64],
) -> (MemSink, ExitCode) {
    let words = owned(rt, alloc, words);
    let mut shelf = shelf_with_smallest(rt, alloc);
    let Ok(mut source) = MemSource::new(alloc, script, &[]) else {
        rt.abort()
    };
    let Ok(mut sink) = MemSink::new(alloc, 200, fails) else {
        rt.abort()
    };
    let code = call(rt, alloc, &words, &mut source, &mut sink, &mut shelf);
    (sink, code)
}

// The first call of the sink fails.
fn check_sink<R: Abort + Threads + Wait + Sync>(rt: &R, alloc: Global, words: &[&str]) {
    let (sink, code) = told_over(rt, alloc, words, b"1 frob\n", &[1]);
    assert_that(rt, sink.bytes().is_empty());
    assert_same(rt, sink.faults(), 1);
    assert_same(rt, code, ExitCode::from(9));
}

// The second call would fail, and there is none.
fn check_line<R: Abort + Threads + Wait + Sync>(rt: &R, alloc: Global, words: &[&str], wanted: u8) {
    let (sink, code) = told_over(rt, alloc, words, b"1 frob\n", &[2]);
    assert_that(rt, sink.bytes().ends_with(b"\n"));
    assert_same(rt, sink.faults(), 0);
    assert_same(rt, code, ExitCode::from(wanted));
}

#[test]
fn a_sink_that_fails_before_all(rt: HostRuntime) {
    let alloc = rt.alloc();
    check_sink(&rt, alloc, &["blsm", "run"]);
    check_sink(&rt, alloc, &["blsm", "run", NAME]);
    check_sink(&rt, alloc, &MISSING);
    check_sink(&rt, alloc, &["blsm", "check", NAME]);
}

#[test]
fn a_line_is_one_call_of_the_sink(rt: HostRuntime) {
    let alloc = rt.alloc();
    check_line(&rt, alloc, &["blsm", "run"], 1);
    check_line(&rt, alloc, &["blsm", "run", NAME], 2);
    check_line(&rt, alloc, &MISSING, 2);
    check_line(&rt, alloc, &["blsm", "check", NAME], 0);
}
