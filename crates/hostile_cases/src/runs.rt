//! A run of which one call of the disk fails, what each line is answered then, and what is found when it is opened again.
use crate::bench::{Answer, Bench};
use crate::departure::Departure;
use crate::disk::PageDisk;
use crate::lookups::{Map, check_images};
use crate::scripts::{Scripts, lines_of};
use crate::words::{cut, number};
use std::alloc::Global;
use std::sync::Wait;
use std::thread::Threads;

/// Which calls of a disk fail.
#[derive(Clone, Copy, PartialEq, Eq, Debug)]
pub enum Failing {
    /// One call alone.
    Alone,
    /// One call and all that come after it.
    AndAfter,
}

// What a run must tell, its status and its replies, and what may be found then.
#[derive(Drop)]
struct Wanted<'a> {
    told: &'a str,
    maps: &'a str,
}

/// The disk of a new store of which this call fails, counted from 1.
pub fn disk_that_fails(bench: &Bench, failing: Failing, call: u64) -> Result<PageDisk, Departure> {
    let mut disk = bench.fresh()?;
    match failing {
        Failing::Alone => disk.fail(call),
        Failing::AndAfter => disk.stop(call),
    }
    Ok(disk)
}

/// How many calls the opening of a new store makes.
pub fn calls_of_opening<R: Threads + Wait + Sync>(
    rt: &R,
    alloc: Global,
    bench: &Bench,
) -> Result<u64, Departure> {
    let answer = bench.run(rt, alloc, bench.fresh()?, "")?;
    Ok(answer.disk.calls())
}

// The text of the reply that a line of a history tells: behind the arrow, without the quanta.
fn reply_of(line: &str) -> Option<&str> {
    let (_, reply) = line.split_once(" => ")?;
    let (reply, _) = reply.split_once(" q")?;
    Some(reply)
}

// The lines of a history have these replies, and no other line has one.
fn check_replies(alloc: Global, text: &str, replies: &str) -> Result<(), Departure> {
    let replies = lines_of(alloc, replies)?;
    let mut wanted = replies.lines();
    for line in text.lines() {
        if let Some(reply) = reply_of(line) {
            if wanted.next() != Some(reply) {
                return Err(Departure::found(alloc, "replies", 0, text));
            }
        }
    }
    if wanted.next().is_some() {
        return Err(Departure::found(alloc, "too few replies", 0, text));
    }
    Ok(())
}

// What may be found of a key, by the words of a case: the key and the reply.
fn map_of(alloc: Global, words: &str) -> Result<Map, Departure> {
    match words.split_once(" ") {
        Some((key, reply)) => Map::one(alloc, key, reply),
        None => Err(Departure::NotACase),
    }
}

fn maps_of(alloc: Global, words: &str) -> Result<Vec<Map>, Departure> {
    let mut maps = Vec::new(alloc);
    for word in words.split(" / ") {
        maps.push(map_of(alloc, word)?)?;
    }
    Ok(maps)
}

// The whole text of a run.
fn check_text(alloc: Global, text: &str, lines: &str) -> Result<(), Departure> {
    if text != lines_of(alloc, lines)?.as_str() {
        return Err(Departure::found(alloc, "text", 0, text));
    }
    Ok(())
}

/// A run ended with this status, and its history has these replies, which stand behind it; or its text is these lines, where the first tells the
/// charge.
pub fn check_told(alloc: Global, answer: &Answer, wanted: &str) -> Result<(), Departure> {
    let Some((wanted, replies)) = cut(wanted) else {
        return Err(Departure::NotACase);
    };
    let status = answer.status.code();
    if number(wanted) != Some(u64::from(status)) {
        return Err(Departure::found(alloc, "status", u64::from(status), &answer.text));
    }
    if replies.starts_with("open charge ") {
        return check_text(alloc, &answer.text, replies);
    }
    check_replies(alloc, &answer.text, replies)
}

// The status, the replies, and what is found in each image.
fn check_answer<R: Threads + Wait + Sync>(
    rt: &R,
    alloc: Global,
    bench: &Bench,
    answer: &Answer,
    wanted: &Wanted<'_>,
) -> Result<(), Departure> {
    check_told(alloc, answer, wanted.told)?;
    let maps = maps_of(alloc, wanted.maps)?;
    check_images(rt, alloc, bench, &answer.disk, &maps)
}

/// A call of the disk, and what stands behind it.
pub fn read_head(head: &str) -> Option<(u64, &str)> {
    let (call, name) = head.split_once(" ")?;
    Some((number(call)?, name))
}

// What stands behind the last bar is what may be found.
fn read_wanted(words: &str) -> Option<Wanted<'_>> {
    let (told, maps) = words.rsplit_once(" | ")?;
    Some(Wanted { told, maps })
}

/// Checks a case: a call of the disk, counted from 1 behind the opening of a new store, a script and who does it, the status, the replies or all lines, and what may
/// be found of a key.
pub fn check<R: Threads + Wait + Sync>(
    rt: &R,
    alloc: Global,
    bench: &Bench,
    scripts: &Scripts,
    which: Failing,
    rest: &str,
) -> Result<(), Departure> {
    let Some((head, rest)) = cut(rest) else {
        return Err(Departure::NotACase);
    };
    let (Some((call, name)), Some(wanted)) = (read_head(head), read_wanted(rest)) else {
        return Err(Departure::NotACase);
    };
    let calls = calls_of_opening(rt, alloc, bench)?;
    let disk = disk_that_fails(bench, which, calls.saturating_add(call))?;
    let (by, script) = scripts.asked(name)?;
    let answer = bench.ask(rt, alloc, by, disk, script)?;
    check_answer(rt, alloc, bench, &answer, &wanted)
}
