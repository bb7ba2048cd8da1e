//! Damage of a store's file, and what an opening and a check answer.
use crate::bench::{Answer, Bench};
use crate::departure::Departure;
use crate::disk::PageDisk;
use crate::runs::{calls_of_opening, check_told, read_head};
use crate::scripts::Scripts;
use crate::words::{cut, number};
use disk_trait::Disk;
use std::alloc::Global;
use std::sync::Wait;
use std::thread::Threads;

// Where the lanes of a store of the smallest geometry begin, how long one is, and where the pages begin.
const LANES: u64 = 4_096;

const LANE: u64 = 4 * 17_408;

const PAGES: u64 = LANES + 3 * LANE;

const PAGE: u64 = 4_096;

// Where in the file a part of it begins: the superblock, a slot of the catalogue, a lane, a page.
fn place_of(part: &str) -> Option<u64> {
    match part {
        "head" => Some(0),
        "odd" => Some(512),
        "even" => Some(1_024),
        _ => match part.strip_prefix("lane") {
            Some(lane) => Some(LANES.saturating_add(number(lane)?.saturating_mul(LANE))),
            None => {
                let page = number(part.strip_prefix("page")?)?;
                Some(PAGES.saturating_add(page.saturating_mul(PAGE)))
            }
        },
    }
}

// A byte of two hexadecimal digits.
fn byte_of(digits: &[u8]) -> Option<u8> {
    u8::from_str_radix(str::from_utf8(digits).ok()?, 16).ok()
}

// Bytes of two hexadecimal digits each.
fn bytes_of(alloc: Global, digits: &str) -> Result<Vec<u8>, Departure> {
    let mut bytes = Vec::new(alloc);
    for pair in digits.as_bytes().chunks(2) {
        match byte_of(pair) {
            Some(byte) => bytes.push(byte)?,
            None => return Err(Departure::NotACase),
        }
    }
    Ok(bytes)
}

// The place that a change names, as a part of the file and a number of bytes behind its beginning, and the bytes.
fn read_change(alloc: Global, change: &str) -> Result<(u64, Vec<u8>), Departure> {
    let Some((place, digits)) = change.split_once("=") else {
        return Err(Departure::NotACase);
    };
    let Some((part, offset)) = place.split_once("+") else {
        return Err(Departure::NotACase);
    };
    match (place_of(part), number(offset)) {
        (Some(at), Some(offset)) => Ok((at.saturating_add(offset), bytes_of(alloc, digits)?)),
        _ => Err(Departure::NotACase),
    }
}

fn write(alloc: Global, disk: &mut PageDisk, at: u64, bytes: &[u8]) -> Result<(), Departure> {
    match disk.write(at, bytes) {
        Ok(()) => Ok(()),
        Err(_) => Err(Departure::found(alloc, "write", at, "")),
    }
}

/// Makes a change of a disk: bytes at a place, a byte more at its end, or one less.
pub fn change(alloc: Global, disk: &mut PageDisk, change: &str) -> Result<(), Departure> {
    if change == "cut" {
        disk.cut();
        return Ok(());
    }
    if change == "grow" {
        let length = disk.len().unwrap_or(0);
        return write(alloc, disk, length, &[0]);
    }
    let (at, bytes) = read_change(alloc, change)?;
    write(alloc, disk, at, &bytes)
}

// Each command answers the same, with the status and the line of it.
fn check_answer(alloc: Global, answer: &Answer, wanted: &str) -> Result<(), Departure> {
    let status = answer.status.code();
    let found = format!(in alloc; "{status} {}", answer.text)?;
    match found.strip_prefix(wanted) {
        Some("\n") => Ok(()),
        _ => Err(Departure::found(alloc, "answer", 0, &found)),
    }
}

// A script's name, changes, and what is answered.
fn read_case(rest: &str) -> Option<(&str, &str, &str)> {
    let (name, rest) = cut(rest)?;
    let (changes, wanted) = cut(rest)?;
    Some((name, changes, wanted))
}

/// Checks a case: a script, changes of the file of a store once the script was run over it, and the status and the line that `check`, `settle`
/// and `run` answer then.
pub fn check<R: Threads + Wait + Sync>(
    rt: &R,
    alloc: Global,
    bench: &Bench,
    scripts: &Scripts,
    rest: &str,
) -> Result<(), Departure> {
    let Some((name, changes, wanted)) = read_case(rest) else {
        return Err(Departure::NotACase);
    };
    let mut disk = bench.after(rt, alloc, scripts.get(name)?)?;
    for word in changes.split(", ") {
        change(alloc, &mut disk, word)?;
    }
    let answer = bench.check(rt, alloc, disk)?;
    check_answer(alloc, &answer, wanted)?;
    let answer = bench.settle(rt, alloc, answer.disk)?;
    check_answer(alloc, &answer, wanted)?;
    let answer = bench.run(rt, alloc, answer.disk, "1 get x\n")?;
    check_answer(alloc, &answer, wanted)
}

// What comes before a call of the disk: bytes change, or that call fails.
fn prepare(alloc: Global, disk: &mut PageDisk, opening: u64, word: &str) -> Result<(), Departure> {
    let Some((call, change)) = read_head(word) else {
        return Err(Departure::NotACase);
    };
    let call = call.saturating_add(opening);
    if change == "fail" {
        disk.fail(call);
        return Ok(());
    }
    let (at, bytes) = read_change(alloc, change)?;
    disk.change(call, at, bytes)?;
    Ok(())
}

/// Checks a case: a script, changes of a new store while it runs, the status, and the replies. A change is the call of the disk before which it comes,
/// counted from 1 behind the opening, and a place and its bytes, or that this call fails.
pub fn check_later<R: Threads + Wait + Sync>(
    rt: &R,
    alloc: Global,
    bench: &Bench,
    scripts: &Scripts,
    rest: &str,
) -> Result<(), Departure> {
    let Some((name, changes, wanted)) = read_case(rest) else {
        return Err(Departure::NotACase);
    };
    let opening = calls_of_opening(rt, alloc, bench)?;
    let mut disk = bench.fresh()?;
    for word in changes.split(", ") {
        prepare(alloc, &mut disk, opening, word)?;
    }
    let answer = bench.run(rt, alloc, disk, scripts.get(name)?)?;
    check_told(alloc, &answer, wanted)
}
