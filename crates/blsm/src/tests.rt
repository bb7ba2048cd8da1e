//! The program's call, run over a source, a sink and a shelf of disks in memory.

mod asserts;
mod drawn;
mod gates;
mod holds;
mod order;
mod rows;
mod served;
mod statuses;
mod threads;
mod turns;

use crate::call;
use asserts::assert_same;
use disk_mem::{MemDisk, MemShelf};
use std::alloc::Global;
use std::process::{Abort, ExitCode};
use std::sync::Wait;
use std::thread::Threads;
use text_io::{FaultlessSink, FaultlessSource};

// The name of the disk.
const NAME: &str = "store";

const MAKE: [&str; 3] = ["blsm", "make", NAME];

// A run without workers, so that the text of one caller's script is known.
const RUN: [&str; 5] = ["blsm", "run", NAME, "--workers", "0"];

const CHECK: [&str; 3] = ["blsm", "check", NAME];

// A store of the smallest geometry, whose file has 3,481,600 bytes.
const MAKE_SMALLEST: [&str; 7] = ["blsm", "make", NAME, "--half", "17408", "--ratio", "2"];

// What a disk has room for, in bytes, and of how many it keeps a record: the file of a store of the default geometry has 23,511,040.
const DISK_LIMIT: u64 = 1 << 25;

const DISK_RECORD: u64 = 1 << 26;

// How many bytes a text may have.
const TEXT_LIMIT: u64 = 1 << 20;

// How many fetches a shelf notes.
const FETCHES: u32 = 1 << 10;

fn owned(rt: &impl Abort, alloc: Global, words: &[&str]) -> Vec<String> {
    let mut list = Vec::new(alloc);
    for word in words {
        let Ok(word) = String::from_str(alloc, word) else {
            rt.abort()
        };
        if list.push(word).is_err() {
            rt.abort()
        }
    }
    list
}

fn empty_disk(rt: &impl Abort, alloc: Global) -> MemDisk {
    match MemDisk::new(alloc, DISK_LIMIT, DISK_RECORD) {
        Ok(disk) => disk,
        Err(_) => rt.abort(),
    }
}

// A shelf with this one disk.
fn shelf_of(rt: &impl Abort, alloc: Global, disk: MemDisk) -> MemShelf {
    let Ok(mut shelf) = MemShelf::new(alloc, FETCHES) else {
        rt.abort()
    };
    if shelf.put(alloc, NAME, disk).is_err() {
        rt.abort()
    }
    shelf
}

// A copy of bytes that are a text.
fn text_in(rt: &impl Abort, alloc: Global, bytes: &[u8]) -> String {
    let Ok(text) = str::from_utf8(bytes) else {
        rt.abort()
    };
    match String::from_str(alloc, text) {
        Ok(text) => text,
        Err(_) => rt.abort(),
    }
}

// Makes the call over streams that can't fail, and answers its exit code and its text.
fn outcome<R: Abort + Threads + Wait + Sync>(
    rt: &R,
    alloc: Global,
    shelf: &mut MemShelf,
    words: &[&str],
    script: &[u8],
) -> (ExitCode, String) {
    let words = owned(rt, alloc, words);
    let Ok(mut source) = FaultlessSource::new(alloc, script) else {
        rt.abort()
    };
    let Ok(mut sink) = FaultlessSink::new(alloc, TEXT_LIMIT) else {
        rt.abort()
    };
    let code = call(rt, alloc, &words, &mut source, &mut sink, shelf);
    (code, text_in(rt, alloc, sink.bytes()))
}

// Makes the call, and compares its exit code and its text.
fn check<R: Abort + Threads + Wait + Sync>(
    rt: &R,
    alloc: Global,
    shelf: &mut MemShelf,
    words: &[&str],
    script: &[u8],
    wanted: (u8, &str),
) {
    let (code, text) = outcome(rt, alloc, shelf, words, script);
    assert_same(rt, text.as_str(), wanted.1);
    assert_same(rt, code, ExitCode::from(wanted.0));
}

// Makes the call, which ends well, and answers its text.
fn run_text<R: Abort + Threads + Wait + Sync>(
    rt: &R,
    alloc: Global,
    shelf: &mut MemShelf,
    words: &[&str],
    script: &[u8],
) -> String {
    let (code, text) = outcome(rt, alloc, shelf, words, script);
    assert_same(rt, code, ExitCode::from(0));
    text
}

// A shelf with a store that was just made by these words, of this length in bytes.
fn shelf_with_store<R: Abort + Threads + Wait + Sync>(
    rt: &R,
    alloc: Global,
    words: &[&str],
    made: &str,
) -> MemShelf {
    let mut shelf = shelf_of(rt, alloc, empty_disk(rt, alloc));
    check(rt, alloc, &mut shelf, words, b"", (0, made));
    shelf
}

// A shelf with a store of the default geometry.
fn shelf_with_default<R: Abort + Threads + Wait + Sync>(rt: &R, alloc: Global) -> MemShelf {
    shelf_with_store(rt, alloc, &MAKE, "made 23511040\n")
}

// A shelf with one of the smallest geometry.
fn shelf_with_smallest<R: Abort + Threads + Wait + Sync>(rt: &R, alloc: Global) -> MemShelf {
    shelf_with_store(rt, alloc, &MAKE_SMALLEST, "made 3481600\n")
}

// Puts more behind a text.
fn add_part(rt: &impl Abort, text: &mut String, part: &str) {
    if text.push_str(part).is_err() {
        rt.abort()
    }
}

// Puts a line behind a text.
fn add(rt: &impl Abort, text: &mut String, line: &str) {
    add_part(rt, text, line);
    add_part(rt, text, "\n");
}

// So many times one letter.
fn letters(rt: &impl Abort, alloc: Global, letter: u8, count: usize) -> String {
    let Ok(bytes) = vec![in alloc; letter; count] else {
        rt.abort()
    };
    match String::from_utf8(bytes) {
        Ok(text) => text,
        Err(_) => rt.abort(),
    }
}

// The longest text.
fn heavy_text(rt: &impl Abort, alloc: Global) -> String {
    letters(rt, alloc, b't', 435)
}
