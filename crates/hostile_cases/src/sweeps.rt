//! A run of which each call of the disk fails in turn: its history is right, and each image shows the writes that were done.
use crate::bench::{Answer, Bench};
use crate::departure::Departure;
use crate::disk::PageDisk;
use crate::judge::{Judge, keys_of};
use crate::lookups::{Map, check_image, check_images};
use crate::runs::{Failing, disk_that_fails};
use crate::scripts::Scripts;
use blsm_model::{Key, Line, Write};
use blsm_run::Status;
use disk_trait::Disk;
use script_text::{Script, read_script};
use std::alloc::Global;
use std::sync::Wait;
use std::thread::Threads;

// No run makes more calls of the disk.
const MOST_CALLS: u64 = 1_000;

// A script as a text, as its lines, and the keys of its writes.
#[derive(Drop)]
struct Tried<'a> {
    text: &'a str,
    script: Script,
    keys: Vec<Key>,
}

fn writes_of(alloc: Global, lines: &[Line]) -> Result<Vec<Write>, Departure> {
    let mut writes = Vec::new(alloc);
    for line in lines {
        if line.op.is_write() {
            writes.push(line.op.write())?;
        }
    }
    Ok(writes)
}

fn read(alloc: Global, text: &str) -> Result<Tried<'_>, Departure> {
    let Ok(script) = read_script(alloc, text.as_bytes()) else {
        return Err(Departure::NotACase);
    };
    let writes = writes_of(alloc, script.lines())?;
    let keys = keys_of(alloc, &writes)?;
    Ok(Tried { text, script, keys })
}

// The reply of a line of a history that tells of this place and this line of a script.
fn reply_in<'a>(
    alloc: Global,
    told: &'a str,
    place: u64,
    line: &str,
) -> Result<Option<&'a str>, Departure> {
    let start = format!(in alloc; "{place} {line} => ")?;
    let Some(reply) = told.strip_prefix(start.as_str()) else {
        return Ok(None);
    };
    match reply.split_once(" q") {
        Some((reply, _)) => Ok(Some(reply)),
        None => Ok(None),
    }
}

// Judges a history of a script, line by line.
fn judge(alloc: Global, tried: &Tried<'_>, text: &str) -> Result<Judge, Departure> {
    let mut judge = Judge::new(alloc);
    let mut told = text.lines();
    let mut spelled = tried.text.lines();
    if told.next() != Some("open charge 0") {
        return Err(Departure::found(alloc, "first line", 0, text));
    }
    let mut place = 0u64;
    for line in tried.script.lines() {
        place = place.saturating_add(1);
        let (Some(entry), Some(command)) = (told.next(), spelled.next()) else {
            return Err(Departure::found(alloc, "too few lines", place, text));
        };
        let Some(reply) = reply_in(alloc, entry, place, command)? else {
            return Err(Departure::found(alloc, "line", place, text));
        };
        if !judge.judge(&line.op, reply)? {
            return Err(Departure::found(alloc, "reply", place, text));
        }
    }
    Ok(judge)
}

// What may be found: the writes that were done, and the one that may be there or not.
fn maps_of(alloc: Global, tried: &Tried<'_>, judge: Judge) -> Result<Vec<Map>, Departure> {
    let (mut writes, unsure) = judge.into_writes();
    let mut maps = Vec::new(alloc);
    maps.push(Map::after(alloc, &tried.keys, &writes)?)?;
    if let Some(write) = unsure {
        writes.push(write)?;
        maps.push(Map::after(alloc, &tried.keys, &writes)?)?;
    }
    Ok(maps)
}

// The run whose call of this number failed: its status, its history, and what may be found.
fn check_failed<R: Threads + Wait + Sync>(
    rt: &R,
    alloc: Global,
    bench: &Bench,
    tried: &Tried<'_>,
    call: u64,
    answer: &Answer,
) -> Result<(), Departure> {
    if answer.status != Status::DiskFault {
        return Err(Departure::found(alloc, "status at call", call, &answer.text));
    }
    let judged = if answer.text.as_str() == "disk fault\n" {
        Judge::new(alloc)
    } else {
        judge(alloc, tried, &answer.text)?
    };
    let maps = maps_of(alloc, tried, judged)?;
    check_images(rt, alloc, bench, &answer.disk, &maps)
}

// The run whose disk met no failure: it ended well, and no reply tells of one.
fn check_well(alloc: Global, tried: &Tried<'_>, answer: &Answer) -> Result<(), Departure> {
    if answer.status != Status::Done {
        return Err(Departure::found(alloc, "no failure", 0, &answer.text));
    }
    let judge = judge(alloc, tried, &answer.text)?;
    if judge.faults() > 0 {
        return Err(Departure::found(alloc, "faults", judge.faults(), &answer.text));
    }
    Ok(())
}

/// Has a script done over a new store as often as there are calls of the disk that can fail, until a disk met no failure.
pub fn check<R: Threads + Wait + Sync>(
    rt: &R,
    alloc: Global,
    bench: &Bench,
    scripts: &Scripts,
    which: Failing,
    rest: &str,
) -> Result<(), Departure> {
    let (by, script) = scripts.asked(rest)?;
    let tried = read(alloc, script)?;
    for call in 1..MOST_CALLS {
        let disk = disk_that_fails(bench, which, call)?;
        let answer = bench.ask(rt, alloc, by, disk, script)?;
        if answer.disk.faults() == 0 {
            return check_well(alloc, &tried, &answer);
        }
        check_failed(rt, alloc, bench, &tried, call, &answer)?;
    }
    Err(Departure::found(alloc, "calls", MOST_CALLS, ""))
}

// The writes of a script, as what is found of their keys.
fn map_behind(alloc: Global, script: &str) -> Result<Map, Departure> {
    let tried = read(alloc, script)?;
    let writes = writes_of(alloc, tried.script.lines())?;
    Map::after(alloc, &tried.keys, &writes)
}

// Opens the store on a disk, with a stop at a call. Answers whether it came so far, and a disk with what this one reads as then.
fn stopped_opening<R: Threads + Wait + Sync>(
    rt: &R,
    alloc: Global,
    bench: &Bench,
    disk: &PageDisk,
    call: u64,
) -> Result<(bool, PageDisk), Departure> {
    let mut disk = disk.copied()?;
    disk.stop(call);
    let answer = bench.run(rt, alloc, disk, "")?;
    let has_stopped = answer.disk.faults() > 0;
    Ok((has_stopped, answer.disk.copied()?))
}

// Opens the store on a disk three times, the first two with a stop at a call. Answers whether the first one came so far.
fn check_opening<R: Threads + Wait + Sync>(
    rt: &R,
    alloc: Global,
    bench: &Bench,
    disk: &PageDisk,
    maps: &[Map],
    call: u64,
) -> Result<bool, Departure> {
    let (has_stopped, once) = stopped_opening(rt, alloc, bench, disk, call)?;
    if has_stopped {
        let (_, twice) = stopped_opening(rt, alloc, bench, &once, call)?;
        check_image(rt, alloc, bench, twice, call, maps)?;
    }
    Ok(has_stopped)
}

/// Opens the store that a script leaves, with a stop at each call of the disk in turn, then what the disk reads as, with a stop at the same call, and
/// that once more: the writes of the script are found.
pub fn check_openings<R: Threads + Wait + Sync>(
    rt: &R,
    alloc: Global,
    bench: &Bench,
    script: &str,
) -> Result<(), Departure> {
    let maps = [map_behind(alloc, script)?];
    let disk = bench.after(rt, alloc, script)?;
    for call in 1..MOST_CALLS {
        if !check_opening(rt, alloc, bench, &disk, &maps, call)? {
            return Ok(());
        }
    }
    Err(Departure::found(alloc, "calls", MOST_CALLS, ""))
}
