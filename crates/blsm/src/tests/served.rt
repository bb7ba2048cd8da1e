// Sessions: what is told of lines as they come, and how a session ends.
use super::asserts::{assert_same, assert_that};
use super::{
    CHECK, NAME, RUN, add, add_part, check, letters, owned, run_text, shelf_of, shelf_with_default,
    shelf_with_smallest,
};
use crate::call;
use disk_mem::MemShelf;
use disk_trait::Shelf;
use std::alloc::Global;
use std::process::{Abort, ExitCode};
use std::sync::Wait;
use std::thread::Threads;
use text_io::{FaultlessSink, FaultlessSource, MemSink, MemSource};

const SERVE: [&str; 3] = ["blsm", "serve", NAME];

// A session with room for one caller alone.
const SERVE_ONE: [&str; 5] = ["blsm", "serve", NAME, "--callers", "1"];

const SCRIPT: &[u8] = b"1 put a 5 hi\n1 get a\n1 del a\n1 get a\n";

const TEXT: &str = "open charge 0
1 1 put a 5 hi => ok q0
2 1 get a => is 5 hi q0
3 1 del a => ok q0
4 1 get a => none q0
end c0 16 of 65536 callers 0 workers 0 swaps 0 0
";

// One put, and what ended the session then.
const ENDED_BY_SECOND: &str = "open charge 0
1 1 put a 5 hi => ok q0
end c0 16 of 65536 callers 0 workers 0 swaps 0 0
bad line 2
";

// What a run finds behind that put.
const FOUND: &str = "open charge 16
1 1 get a => is 5 hi q0
end c0 0 of 65536 callers 0 workers 0 swaps 0 0
";

const NOTHING_DONE: &str =
    "open charge 0\nend c0 0 of 65536 callers 0 workers 0 swaps 0 0\nbad line 1\n";

// A session over a store of the default geometry that was just made.
fn serves<R: Abort + Threads + Wait + Sync>(
    rt: &R,
    alloc: Global,
    words: &[&str],
    script: &[u8],
    wanted: (u8, &str),
) {
    let mut shelf = shelf_with_default(rt, alloc);
    check(rt, alloc, &mut shelf, words, script, wanted);
}

#[test]
fn a_session_of_four_lines(rt: HostRuntime) {
    serves(&rt, rt.alloc(), &SERVE, SCRIPT, (0, TEXT));
}

#[test]
fn ships_right_behind_their_entries(rt: HostRuntime) {
    let words = ["blsm", "serve", NAME, "--ships", "7"];
    let text = "open charge 0
1 1 put a 5 hi => ok q0
ship 7 put a 5 hi
2 1 get a => is 5 hi q0
3 1 del a => ok q0
ship 8 del a
4 1 get a => none q0
end c0 16 of 65536 callers 0 workers 0 swaps 0 0
";
    serves(&rt, rt.alloc(), &words, SCRIPT, (0, text));
}

#[test]
fn a_session_of_no_line(rt: HostRuntime) {
    let text = "open charge 0\nend c0 0 of 65536 callers 0 workers 0 swaps 0 0\n";
    serves(&rt, rt.alloc(), &SERVE, b"", (0, text));
}

// The second line isn't done, and the first stays.
fn ended_by_second<R: Abort + Threads + Wait + Sync>(rt: &R, alloc: Global, script: &[u8]) {
    let mut shelf = shelf_with_default(rt, alloc);
    check(rt, alloc, &mut shelf, &SERVE, script, (2, ENDED_BY_SECOND));
    let report = "ok version 1 c1 0 0 c1x 0 0 c2 0 0 lanes 1 0\n";
    check(rt, alloc, &mut shelf, &CHECK, b"", (0, report));
    check(rt, alloc, &mut shelf, &RUN, b"1 get a\n", (0, FOUND));
}

#[test]
fn a_line_that_is_none_or_cut_off_ends_a_session(rt: HostRuntime) {
    ended_by_second(&rt, rt.alloc(), b"1 put a 5 hi\n1 frob a\n1 get a\n");
    ended_by_second(&rt, rt.alloc(), b"1 put a 5 hi\n1 put a 6 h");
}

// A session whose one line is none.
fn does_nothing<R: Abort + Threads + Wait + Sync>(rt: &R, alloc: Global, script: &[u8]) {
    serves(rt, alloc, &SERVE, script, (2, NOTHING_DONE));
}

#[test]
fn lines_that_are_none(rt: HostRuntime) {
    let alloc = rt.alloc();
    does_nothing(&rt, alloc, b"\n");
    does_nothing(&rt, alloc, b"1 get a\r\n");
    does_nothing(&rt, alloc, b"1 get \0\n");
    does_nothing(&rt, alloc, b"17 get a\n");
}

// A session whose one line is so many letters, with an end or without.
fn too_long<R: Abort + Threads + Wait + Sync>(rt: &R, alloc: Global, count: usize, end: &str) {
    let mut script = letters(rt, alloc, b'x', count);
    add_part(rt, &mut script, end);
    does_nothing(rt, alloc, script.as_bytes());
}

#[test]
fn lines_that_are_too_long(rt: HostRuntime) {
    let alloc = rt.alloc();
    too_long(&rt, alloc, 529, "\n");
    too_long(&rt, alloc, 4096, "");
    too_long(&rt, alloc, 5000, "\n");
}

#[test]
fn a_caller_without_room_ends_a_session(rt: HostRuntime) {
    let text = "open charge 0\nend c0 0 of 65536 callers 0 workers 0 swaps 0 0\nno room 1\n";
    serves(&rt, rt.alloc(), &SERVE_ONE, b"2 get a\n", (11, text));
}

// A session over a store of the smallest geometry that was just made: its exit code, and whether its text ends so.
fn ends_with<R: Abort + Threads + Wait + Sync>(
    rt: &R,
    alloc: Global,
    script: &str,
    end: &str,
) -> (ExitCode, bool) {
    let mut shelf = shelf_with_smallest(rt, alloc);
    let words = owned(rt, alloc, &SERVE);
    let Ok(mut source) = FaultlessSource::new(alloc, script.as_bytes()) else {
        rt.abort()
    };
    let Ok(mut sink) = FaultlessSink::new(alloc, 1 << 22) else {
        rt.abort()
    };
    let code = call(rt, alloc, &words, &mut source, &mut sink, &mut shelf);
    (code, sink.bytes().ends_with(end.as_bytes()))
}

// So many times two lines.
fn add_pairs(rt: &impl Abort, text: &mut String, count: u32, first: &str, second: &str) {
    for _ in 0..count {
        add(rt, text, first);
        add(rt, text, second);
    }
}

#[test]
fn a_caller_has_its_share_of_the_lines(rt: HostRuntime) {
    let alloc = rt.alloc();
    let mut script = String::new(alloc);
    add_pairs(&rt, &mut script, 2048, "1 get a", "1 get b");
    let mut other = String::new(alloc);
    add_part(&rt, &mut other, &script);
    add(&rt, &mut script, "1 get a");
    add(&rt, &mut other, "2 get a");
    let full = ends_with(&rt, alloc, &script, "0\nno room 4097\n");
    assert_same(&rt, full, (ExitCode::from(11), true));
    let well = ends_with(
        &rt,
        alloc,
        &other,
        "\n4097 2 get a => none q0\nend c0 0 of 34816 callers 0 workers 0 swaps 0 0\n",
    );
    assert_same(&rt, well, (ExitCode::from(0), true));
}

// Puts of 32 keys from `a` up.
fn add_puts(rt: &impl Abort, text: &mut String) {
    for key in [
        "a", "b", "c", "d", "e", "f", "g", "h", "i", "j", "k", "l", "m", "n", "o", "p", "q", "r",
        "s", "t", "u", "v", "w", "x", "y", "z", "za", "zb", "zc", "zd", "ze", "zf",
    ] {
        add_part(rt, text, "1 put ");
        add_part(rt, text, key);
        add(rt, text, " 1 -");
    }
}

// Rows count as they are given: 256 times 32 of them are all that one caller of sixteen may be given.
#[test]
fn a_caller_has_its_share_of_the_rows(rt: HostRuntime) {
    let alloc = rt.alloc();
    let mut script = String::new(alloc);
    add_puts(&rt, &mut script);
    add_pairs(&rt, &mut script, 256, "1 hold a zz", "1 next 32");
    add_pairs(&rt, &mut script, 1, "1 hold a zz", "1 next 1");
    let full = ends_with(&rt, alloc, &script, "\nno room 546\n");
    assert_same(&rt, full, (ExitCode::from(11), true));
}

// A session whose source gives so many bytes a call is told as a run is.
fn told_as<R: Abort + Threads + Wait + Sync>(rt: &R, alloc: Global, most: usize, text: &str) {
    let mut shelf = shelf_with_smallest(rt, alloc);
    let words = owned(rt, alloc, &SERVE);
    assert!(rt; 0 < most);
    let Ok(mut source) = MemSource::in_pieces(alloc, SCRIPT, most, &[]) else {
        rt.abort()
    };
    let Ok(mut sink) = FaultlessSink::new(alloc, 1000) else {
        rt.abort()
    };
    let code = call(rt, alloc, &words, &mut source, &mut sink, &mut shelf);
    assert_that(rt, sink.bytes() == text.as_bytes());
    assert_same(rt, code, ExitCode::from(0));
}

#[test]
fn pieces_of_any_length_are_told_alike(rt: HostRuntime) {
    let mut shelf = shelf_with_smallest(&rt, rt.alloc());
    let text = run_text(&rt, rt.alloc(), &mut shelf, &RUN, SCRIPT);
    for most in [
        1, 2, 3, 4, 5, 6, 7, 8, 9, 10, 11, 12, 13, 14, 15, 16, 17, 4096,
    ] {
        told_as(&rt, rt.alloc(), most, &text);
    }
}

// Numbers of the image with no write that isn't durable, and of the one with all.
const IMAGES: [u64; 2] = [1_000_000_000_000_999_000, 2_000_000_000_000_999_999];

// What a get finds in the images of the disk of a name.
fn images_have<R: Abort + Threads + Wait + Sync>(
    rt: &R,
    alloc: Global,
    shelf: &mut MemShelf,
    found: &str,
) {
    let Ok(disk) = shelf.fetch(NAME, false) else {
        rt.abort()
    };
    for pick in IMAGES {
        let Ok(image) = disk.image(pick) else {
            rt.abort()
        };
        let mut crashed = shelf_of(rt, alloc, image);
        let text = run_text(rt, alloc, &mut crashed, &RUN, b"1 get a\n");
        assert_that(rt, text.contains(found));
    }
}

// The sink fails at this call: the lines before it were told, and this is what a get finds in each image then.
fn sink_fails_at<R: Abort + Threads + Wait + Sync>(
    rt: &R,
    alloc: Global,
    call_number: u64,
    told: &str,
    found: &str,
) {
    let mut shelf = shelf_with_smallest(rt, alloc);
    let words = owned(rt, alloc, &SERVE);
    let Ok(mut source) = FaultlessSource::new(alloc, SCRIPT) else {
        rt.abort()
    };
    let Ok(mut sink) = MemSink::new(alloc, 1000, &[call_number]) else {
        rt.abort()
    };
    let code = call(rt, alloc, &words, &mut source, &mut sink, &mut shelf);
    assert_that(rt, sink.bytes() == told.as_bytes());
    assert_same(rt, code, ExitCode::from(9));
    images_have(rt, alloc, &mut shelf, found);
}

#[test]
fn a_sink_that_fails_ends_a_session(rt: HostRuntime) {
    let alloc = rt.alloc();
    sink_fails_at(&rt, alloc, 1, "", "=> none");
    sink_fails_at(&rt, alloc, 2, "open charge 0\n", "=> is 5 hi");
    let one = "open charge 0\n1 1 put a 5 hi => ok q0\n";
    sink_fails_at(&rt, alloc, 3, one, "=> is 5 hi");
    let two = "open charge 0\n1 1 put a 5 hi => ok q0\n2 1 get a => is 5 hi q0\n";
    sink_fails_at(&rt, alloc, 4, two, "=> none");
    let three =
        "open charge 0\n1 1 put a 5 hi => ok q0\n2 1 get a => is 5 hi q0\n3 1 del a => ok q0\n";
    sink_fails_at(&rt, alloc, 5, three, "=> none");
    let four =
        "open charge 0\n1 1 put a 5 hi => ok q0\n2 1 get a => is 5 hi q0\n3 1 del a => ok q0\n4 1 get a => none q0\n";
    sink_fails_at(&rt, alloc, 6, four, "=> none");
}

// A source that gives a line a call, or both, and fails at this one.
fn source_fails_at<R: Abort + Threads + Wait + Sync>(
    rt: &R,
    alloc: Global,
    most: usize,
    call_number: u64,
    wanted: &str,
) {
    let mut shelf = shelf_with_smallest(rt, alloc);
    let words = owned(rt, alloc, &SERVE);
    assert!(rt; 0 < most);
    let Ok(mut source) = MemSource::in_pieces(alloc, b"1 get a\n1 get b\n", most, &[call_number])
    else {
        rt.abort()
    };
    let Ok(mut sink) = FaultlessSink::new(alloc, 1000) else {
        rt.abort()
    };
    let code = call(rt, alloc, &words, &mut source, &mut sink, &mut shelf);
    assert_that(rt, sink.bytes() == wanted.as_bytes());
    assert_same(rt, code, ExitCode::from(8));
}

#[test]
fn a_source_that_fails_ends_a_session(rt: HostRuntime) {
    let alloc = rt.alloc();
    let none = "open charge 0\nend c0 0 of 34816 callers 0 workers 0 swaps 0 0\nsource fault\n";
    source_fails_at(&rt, alloc, 8, 1, none);
    let one =
        "open charge 0\n1 1 get a => none q0\nend c0 0 of 34816 callers 0 workers 0 swaps 0 0\nsource fault\n";
    source_fails_at(&rt, alloc, 8, 2, one);
    let both =
        "open charge 0\n1 1 get a => none q0\n2 1 get b => none q0\nend c0 0 of 34816 callers 0 workers 0 swaps 0 0\nsource fault\n";
    source_fails_at(&rt, alloc, 8, 3, both);
    source_fails_at(&rt, alloc, 4096, 2, both);
}
