//! Sessions of which a call of the source, of the sink and of the disk fails, each in turn. What is told of one, and what it does to the disk, is
//! what a run of as many lines tells and does over a disk of which the same call fails.
use crate::bench::{Answer, Bench, TEXT_LIMIT, text_of};
use crate::departure::Departure;
use crate::runs::{Failing, disk_that_fails};
use blsm_run::Status;
use disk_trait::Disk;
use std::alloc::Global;
use std::sync::Wait;
use std::thread::Threads;
use text_io::{MemSink, MemSource};

// No run makes more calls of the disk.
const MOST_CALLS: u64 = 1_000;

// Which call of each end fails, counted from 1. The source gives a line a call.
#[derive(Clone, Copy, PartialEq, Eq, Debug)]
struct Calls {
    source: u64,
    sink: u64,
    disk: u64,
}

// Lines of one length, so that a source gives one a call.
#[derive(Clone, Copy, PartialEq, Eq, Debug)]
struct Lines<'a> {
    text: &'a str,
    // how many bytes a line has, with its end
    length: usize,
    count: u64,
}

fn read(script: &str) -> Result<Lines<'_>, Departure> {
    let Some((first, _)) = script.split_once("\n") else {
        return Err(Departure::NotACase);
    };
    let length = first.len().saturating_add(1);
    for line in script.lines() {
        if line.len() != first.len() {
            return Err(Departure::NotACase);
        }
    }
    Ok(Lines {
        text: script,
        length,
        count: script.lines().count() as u64,
    })
}

// The first lines of a text, so many at most.
fn first_lines(alloc: Global, text: &str, count: u64) -> Result<String, Departure> {
    let mut first = String::new(alloc);
    let mut left = count;
    for line in text.lines() {
        if left == 0 {
            break;
        }
        left -= 1;
        first.push_str(line)?;
        first.push('\n')?;
    }
    Ok(first)
}

// How many lines are done: the source gave those before its call that fails, and the sink took a line for each but the last.
fn count_done(lines: &Lines<'_>, calls: Calls) -> u64 {
    let given = calls.source.saturating_sub(1);
    let told = calls.sink.saturating_sub(1);
    lines.count.min(given).min(told)
}

// The run of the lines that are done, over a disk of which the same call fails.
fn run_of_done<R: Threads + Wait + Sync>(
    rt: &R,
    alloc: Global,
    bench: &Bench,
    lines: &Lines<'_>,
    calls: Calls,
) -> Result<Answer, Departure> {
    let done = first_lines(alloc, lines.text, count_done(lines, calls))?;
    let disk = disk_that_fails(bench, Failing::Alone, calls.disk)?;
    bench.run(rt, alloc, disk, &done)
}

// What a session tells, and its status: the sink's failure first, then the disk's, then the source's.
fn wanted_of(
    alloc: Global,
    lines: &Lines<'_>,
    calls: Calls,
    run: &Answer,
) -> Result<(Status, String), Departure> {
    let cut_off = run.text.starts_with("open charge ")
        && calls.source <= lines.count.saturating_add(1);
    let mut text = String::from_str(alloc, &run.text)?;
    if cut_off {
        text.push_str("source fault\n")?;
    }
    if calls.sink <= text.lines().count() as u64 {
        let told = first_lines(alloc, &text, calls.sink.saturating_sub(1))?;
        return Ok((Status::SinkFault, told));
    }
    if cut_off && run.status == Status::Done {
        return Ok((Status::SourceFault, text));
    }
    Ok((run.status, text))
}

// One session, which must tell and do what the run does.
fn check_one<R: Threads + Wait + Sync>(
    rt: &R,
    alloc: Global,
    bench: &Bench,
    lines: &Lines<'_>,
    calls: Calls,
) -> Result<(), Departure> {
    let run = run_of_done(rt, alloc, bench, lines, calls)?;
    let (status, text) = wanted_of(alloc, lines, calls, &run)?;
    let bytes = lines.text.as_bytes();
    let mut source = MemSource::in_pieces(alloc, bytes, lines.length.max(1), &[calls.source])?;
    let mut sink = MemSink::new(alloc, TEXT_LIMIT, &[calls.sink])?;
    let disk = disk_that_fails(bench, Failing::Alone, calls.disk)?;
    let (found, disk) = bench.serve(rt, alloc, disk, &mut source, &mut sink)?;
    let told = text_of(alloc, sink.bytes())?;
    if found != status || told != text {
        return Err(Departure::found(alloc, "session", calls.disk, &told));
    }
    if disk.calls() != run.disk.calls() {
        return Err(Departure::found(alloc, "calls", disk.calls(), &told));
    }
    Ok(())
}

// Sessions over a disk of which one call fails, each with another call of source and sink that fails, or with none.
fn check_disk<R: Threads + Wait + Sync>(
    rt: &R,
    alloc: Global,
    bench: &Bench,
    lines: &Lines<'_>,
    disk: u64,
) -> Result<(), Departure> {
    for source in 1..lines.count.saturating_add(3) {
        for sink in 1..lines.count.saturating_add(5) {
            let calls = Calls { source, sink, disk };
            check_one(rt, alloc, bench, lines, calls)?;
        }
    }
    Ok(())
}

/// Serves a script over a new store as often as there are calls that can fail.
pub fn check<R: Threads + Wait + Sync>(
    rt: &R,
    alloc: Global,
    bench: &Bench,
    script: &str,
) -> Result<(), Departure> {
    let lines = read(script)?;
    for disk in 1..MOST_CALLS {
        check_disk(rt, alloc, bench, &lines, disk)?;
        let answer = bench.run(
            rt,
            alloc,
            disk_that_fails(bench, Failing::Alone, disk)?,
            script,
        )?;
        if answer.disk.faults() == 0 {
            return Ok(());
        }
    }
    Err(Departure::found(alloc, "calls without end", 0, script))
}
