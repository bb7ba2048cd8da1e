// Sources and sinks in memory.
use crate::asserts::assert_same;
use crate::samples::sink;
use refusal::Failed;
use std::alloc::Global;
use std::process::Abort;
use text_io::{
    FaultlessSink, FaultlessSource, LineFault, Lines, MemSource, ReadFault, Sink, Source, read_all,
    write_all,
};

fn source(rt: &impl Abort, alloc: Global, bytes: &[u8], fails: &[u64]) -> MemSource {
    MemSource::new(alloc, bytes, fails).expect(rt, "memory")
}

fn faultless(rt: &impl Abort, alloc: Global, bytes: &[u8]) -> FaultlessSource {
    FaultlessSource::new(alloc, bytes).expect(rt, "memory")
}

// A read into three bytes gives these.
fn gives<S: Source>(rt: &impl Abort, source: &mut S, bytes: &[u8]) {
    let mut piece = [0u8; 3];
    let answer = source.read(&mut piece);
    assert_same(rt, answer, Ok(bytes.len()));
    assert!(rt; bytes.len() <= 3);
    assert_same(rt, &piece[..bytes.len()], bytes);
}

fn read_fails<S: Source>(rt: &impl Abort, source: &mut S) {
    let mut piece = [0u8; 3];
    assert_same(rt, source.read(&mut piece), Err(Failed));
}

#[test]
fn a_source_gives_its_bytes_but_for_listed_calls(rt: HostRuntime) {
    let mut source = source(&rt, rt.alloc(), b"abcde", &[2, 5]);
    gives(&rt, &mut source, b"abc");
    read_fails(&rt, &mut source);
    gives(&rt, &mut source, b"de");
    gives(&rt, &mut source, b"");
    read_fails(&rt, &mut source);
    gives(&rt, &mut source, b"");
}

#[test]
fn a_faultless_source_gives_its_bytes(rt: HostRuntime) {
    let mut source = faultless(&rt, rt.alloc(), b"xy");
    let no_room = source.read(&mut []);
    assert_same(&rt, no_room, Ok(0));
    gives(&rt, &mut source, b"xy");
    gives(&rt, &mut source, b"");
}

#[test]
fn a_sink_takes_bytes_but_for_listed_calls_and_its_limit(rt: HostRuntime) {
    let mut sink = sink(&rt, rt.alloc(), 5, &[2]);
    for (bytes, answer) in [
        (b"abc".as_slice(), Ok(3)),
        (b"d", Err(Failed)),
        (b"de", Ok(2)),
        (b"f", Err(Failed)),
        (b"", Ok(0)),
    ] {
        assert_same(&rt, sink.write(bytes), answer);
    }
    assert_same(&rt, sink.bytes(), b"abcde".as_slice());
    assert_same(&rt, sink.faults(), 2);
}

#[test]
fn a_faultless_sink_fails_past_its_limit_alone(rt: HostRuntime) {
    let mut sink = FaultlessSink::new(rt.alloc(), 3).expect(&rt, "memory");
    for (bytes, answer) in [
        (b"ab".as_slice(), Ok(2)),
        (b"cd", Err(Failed)),
        (b"c", Ok(1)),
    ] {
        assert_same(&rt, sink.write(bytes), answer);
    }
    assert_same(&rt, sink.bytes(), b"abc".as_slice());
}

#[test]
fn a_whole_text_is_written_or_a_front_of_it(rt: HostRuntime) {
    let mut sink = sink(&rt, rt.alloc(), 8, &[2]);
    for (text, answer) in [
        (b"one ".as_slice(), Ok(())),
        (b"two ", Err(Failed)),
        (b"four", Ok(())),
        (b"", Ok(())),
    ] {
        assert_same(&rt, write_all(&mut sink, text), answer);
    }
    assert_same(&rt, sink.bytes(), b"one four".as_slice());
}

#[test]
fn a_source_is_read_to_its_end_up_to_a_limit(rt: HostRuntime) {
    for (fails, limit, wanted) in [
        ([9, 9], 5, Ok(5)),
        ([9, 9], 6, Ok(5)),
        ([9, 9], 4, Err(ReadFault::TooLong)),
        ([1, 9], 5, Err(ReadFault::Failed)),
        ([2, 9], 5, Err(ReadFault::Failed)),
        ([3, 9], 5, Ok(5)),
    ] {
        let mut source = source(&rt, rt.alloc(), b"abcde", &fails);
        let got = read_all(rt.alloc(), &mut source, limit).map(|bytes| bytes.len());
        assert_same(&rt, got, wanted);
    }
}

// A source of these bytes gives them all.
fn is_read_whole(rt: &impl Abort, alloc: Global, text: &[u8]) {
    let mut source = faultless(rt, alloc, text);
    let bytes = read_all(alloc, &mut source, text.len()).expect(rt, "all");
    assert_same(rt, bytes.as_slice(), text);
}

#[test]
fn a_source_is_read_in_one_piece_or_several(rt: HostRuntime) {
    is_read_whole(&rt, rt.alloc(), b"abcde");
    let long = vec![in rt.alloc(); 7u8; 10000].expect(&rt, "memory");
    is_read_whole(&rt, rt.alloc(), long.as_slice());
}

// A source that gives at most so many bytes a call.
fn pieces(rt: &impl Abort, alloc: Global, bytes: &[u8], most: usize, fails: &[u64]) -> MemSource {
    assert!(rt; 0 < most);
    MemSource::in_pieces(alloc, bytes, most, fails).expect(rt, "memory")
}

#[test]
fn a_call_gives_a_piece_at_most(rt: HostRuntime) {
    let mut source = pieces(&rt, rt.alloc(), b"abc", 2, &[2]);
    gives(&rt, &mut source, b"ab");
    read_fails(&rt, &mut source);
    gives(&rt, &mut source, b"c");
    gives(&rt, &mut source, b"");
}

// The next line is this one.
fn goes_to(rt: &impl Abort, lines: &mut Lines, source: &mut MemSource, line: &[u8]) {
    assert_same(rt, lines.next(source), Ok(true));
    assert_same(rt, lines.line(), line);
}

fn no_line(
    rt: &impl Abort,
    lines: &mut Lines,
    source: &mut MemSource,
    why: Result<bool, LineFault>,
) {
    assert_same(rt, lines.next(source), why);
}

#[test]
fn lines_come_whole_in_pieces_of_any_length(rt: HostRuntime) {
    for most in 1..18usize {
        let mut source = pieces(&rt, rt.alloc(), b"one\n\nthree\n", most, &[]);
        let mut lines = Lines::new(5);
        goes_to(&rt, &mut lines, &mut source, b"one");
        goes_to(&rt, &mut lines, &mut source, b"");
        goes_to(&rt, &mut lines, &mut source, b"three");
        no_line(&rt, &mut lines, &mut source, Ok(false));
    }
}

#[test]
fn a_line_without_its_end_is_none(rt: HostRuntime) {
    for most in 1..18usize {
        let mut source = pieces(&rt, rt.alloc(), b"one\ntwo", most, &[]);
        let mut lines = Lines::new(3);
        goes_to(&rt, &mut lines, &mut source, b"one");
        no_line(&rt, &mut lines, &mut source, Err(LineFault::CutOff));
    }
}

#[test]
fn a_line_that_is_too_long_is_none(rt: HostRuntime) {
    for most in 1..18usize {
        let mut source = pieces(&rt, rt.alloc(), b"one\nfour\n", most, &[]);
        let mut lines = Lines::new(3);
        goes_to(&rt, &mut lines, &mut source, b"one");
        no_line(&rt, &mut lines, &mut source, Err(LineFault::TooLong));
    }
}

#[test]
fn a_line_that_waits_asks_no_source(rt: HostRuntime) {
    let mut source = pieces(&rt, rt.alloc(), b"a\nb\nc\n", 5, &[2]);
    let mut lines = Lines::new(3);
    goes_to(&rt, &mut lines, &mut source, b"a");
    goes_to(&rt, &mut lines, &mut source, b"b");
    no_line(&rt, &mut lines, &mut source, Err(LineFault::Failed));
    goes_to(&rt, &mut lines, &mut source, b"c");
}

// As many lines as fill more than two pieces of the reader.
#[test]
fn lines_come_whole_over_the_ends_of_pieces(rt: HostRuntime) {
    let mut text = Vec::new(rt.alloc());
    for _ in 0..1500 {
        text.extend_from_slice(b"abcdef\n").expect(&rt, "memory");
    }
    let mut source = source(&rt, rt.alloc(), text.as_slice(), &[]);
    let mut lines = Lines::new(528);
    for _ in 0..1500 {
        goes_to(&rt, &mut lines, &mut source, b"abcdef");
    }
    no_line(&rt, &mut lines, &mut source, Ok(false));
}
