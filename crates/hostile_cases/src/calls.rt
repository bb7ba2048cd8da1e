//! Calls of the program, one after the other over one disk, and what each answers.
use crate::bench::call;
use crate::damage::change;
use crate::departure::Departure;
use crate::disk::PageDisk;
use crate::runs::read_head;
use crate::scripts::{Scripts, lines_of};
use crate::words::{number, words_of};
use disk_trait::Disk;
use std::alloc::Global;
use std::sync::Wait;
use std::thread::Threads;

// The words of a call, and the script that it reads. Behind `<-` it lacks the end of its last line.
fn read_call<'a>(line: &'a str, scripts: &'a Scripts) -> Result<(&'a str, &'a str), Departure> {
    if let Some((words, name)) = line.split_once(" <- ") {
        let script = scripts.get(name)?;
        return Ok((words, script.strip_suffix("\n").unwrap_or(script)));
    }
    match line.split_once(" < ") {
        Some((words, name)) => Ok((words, scripts.get(name)?)),
        None => Ok((line, "")),
    }
}

// Whether a status and a text are those that are wanted. Dots stand for the first lines, or for all.
fn is_wanted(alloc: Global, found: &str, wanted: &str) -> Result<bool, Departure> {
    let Some((status, last)) = wanted.split_once(" ..") else {
        return Ok(found == lines_of(alloc, wanted)?.as_str());
    };
    let first = format!(in alloc; "{status} open charge ")?;
    if !found.starts_with(first.as_str()) {
        return Ok(false);
    }
    match last.strip_prefix("; ") {
        Some(last) => Ok(found.ends_with(lines_of(alloc, last)?.as_str())),
        None => Ok(true),
    }
}

// Makes a call, which must answer this status and these lines.
fn check_call<R: Threads + Wait + Sync>(
    rt: &R,
    alloc: Global,
    scripts: &Scripts,
    disk: PageDisk,
    line: &str,
    wanted: &str,
) -> Result<PageDisk, Departure> {
    let (words, script) = read_call(line, scripts)?;
    let answer = call(rt, alloc, &words_of(alloc, words)?, disk, script)?;
    let status = answer.status.code();
    let found = format!(in alloc; "{status} {}", answer.text)?;
    if !is_wanted(alloc, found.as_str(), wanted)? {
        return Err(Departure::found(alloc, "answer", u64::from(status), &found));
    }
    Ok(answer.disk)
}

// Writes so many zeros.
fn write_zeros(alloc: Global, disk: &mut PageDisk, count: &str) -> Result<(), Departure> {
    let Some(count) = number(count) else {
        return Err(Departure::NotACase);
    };
    for at in 0..count {
        if disk.write(at, &[0]).is_err() {
            return Err(Departure::found(alloc, "write", at, ""));
        }
    }
    Ok(())
}

// A call and what it must answer.
fn check_line<R: Threads + Wait + Sync>(
    rt: &R,
    alloc: Global,
    scripts: &Scripts,
    disk: PageDisk,
    line: &str,
) -> Result<PageDisk, Departure> {
    match line.split_once(" => ") {
        Some((line, wanted)) => check_call(rt, alloc, scripts, disk, line, wanted),
        None => Err(Departure::NotACase),
    }
}

// A call over a disk that stops at a call of it, counted from 1. The next one has the disk as it reads then.
fn check_stopped<R: Threads + Wait + Sync>(
    rt: &R,
    alloc: Global,
    scripts: &Scripts,
    disk: PageDisk,
    step: &str,
) -> Result<PageDisk, Departure> {
    let Some((call, line)) = read_head(step) else {
        return Err(Departure::NotACase);
    };
    let mut disk = disk;
    let call = disk.calls().saturating_add(call);
    disk.stop(call);
    Ok(check_line(rt, alloc, scripts, disk, line)?.copied()?)
}

// A call, a change of the disk, or zeros that are written.
fn check_step<R: Threads + Wait + Sync>(
    rt: &R,
    alloc: Global,
    scripts: &Scripts,
    disk: PageDisk,
    step: &str,
) -> Result<PageDisk, Departure> {
    let mut disk = disk;
    if let Some(count) = step.strip_prefix("zeros ") {
        write_zeros(alloc, &mut disk, count)?;
        return Ok(disk);
    }
    if let Some(word) = step.strip_prefix("change ") {
        change(alloc, &mut disk, word)?;
        return Ok(disk);
    }
    match step.strip_prefix("stop ") {
        Some(step) => check_stopped(rt, alloc, scripts, disk, step),
        None => check_line(rt, alloc, scripts, disk, step),
    }
}

/// Checks a case: steps over a disk without a byte, parted by bars. A step is the words of a call, and behind a `<` the script that it reads, and
/// then its status and its lines, of which two dots leave out the first ones, or all; or bytes that change, or a number of zeros that are written.
/// Before the words a call of the disk may stand at which it stops.
pub fn check<R: Threads + Wait + Sync>(
    rt: &R,
    alloc: Global,
    scripts: &Scripts,
    rest: &str,
) -> Result<(), Departure> {
    let mut disk = PageDisk::new(alloc);
    for step in rest.split(" | ") {
        disk = check_step(rt, alloc, scripts, disk, step)?;
    }
    Ok(())
}
