//! The store that the cases begin with, and calls of the program over disks in memory.
use crate::departure::Departure;
use crate::disk::{OneShelf, PageDisk};
use crate::words::words_of;
use blsm_model::NoGate;
use blsm_run::{Status, blsm_run};
use std::alloc::Global;
use std::sync::Wait;
use std::thread::Threads;
use text_io::{FaultlessSink, FaultlessSource, Sink, Source};

// A store of the smallest geometry.
const MAKE: &str = "blsm make store --half 17408 --ratio 2";

const RUN: &str = "blsm run store --workers 0";

const SERVE: &str = "blsm serve store";

const CHECK: &str = "blsm check store";

const SETTLE: &str = "blsm settle store";

/// How many bytes a text may have.
pub const TEXT_LIMIT: u64 = 1 << 18;

/// Who does a script: a run without workers, or a session.
#[derive(Clone, Copy, PartialEq, Eq, Debug)]
pub enum By {
    Run,
    Session,
}

/// What a call printed, its status, and the disk as it is then.
#[derive(Drop)]
pub struct Answer {
    pub status: Status,
    pub text: String,
    pub disk: PageDisk,
}

/// What a sink holds, as a text.
pub fn text_of(alloc: Global, bytes: &[u8]) -> Result<String, Departure> {
    match str::from_utf8(bytes) {
        Ok(text) => Ok(String::from_str(alloc, text)?),
        Err(_) => Err(Departure::found(alloc, "text of bytes", 0, "")),
    }
}

// The disk of a shelf.
fn disk_of(alloc: Global, shelf: OneShelf) -> Result<PageDisk, Departure> {
    match shelf.into_disk() {
        Some(disk) => Ok(disk),
        None => Err(Departure::found(alloc, "disk that is out", 0, "")),
    }
}

// Makes the call that words ask for, over a disk and these streams.
fn call_over<R: Threads + Wait + Sync, S: Source, K: Sink>(
    rt: &R,
    alloc: Global,
    words: &[String],
    disk: PageDisk,
    source: &mut S,
    sink: &mut K,
) -> Result<(Status, PageDisk), Departure> {
    let mut shelf = OneShelf::new(disk);
    let status = blsm_run(rt, alloc, words, source, sink, &mut shelf, &NoGate);
    let disk = disk_of(alloc, shelf)?;
    Ok((status, disk))
}

/// Makes the call that words ask for, over a disk.
pub fn call<R: Threads + Wait + Sync>(
    rt: &R,
    alloc: Global,
    words: &[String],
    disk: PageDisk,
    script: &str,
) -> Result<Answer, Departure> {
    let mut source = FaultlessSource::new(alloc, script.as_bytes())?;
    let mut sink = FaultlessSink::new(alloc, TEXT_LIMIT)?;
    let (status, disk) = call_over(rt, alloc, words, disk, &mut source, &mut sink)?;
    let text = text_of(alloc, sink.bytes())?;
    Ok(Answer { status, text, disk })
}

/// The words of the calls, and the disk of the store that the cases begin with.
#[derive(Drop)]
pub struct Bench {
    run: Vec<String>,
    serve: Vec<String>,
    check: Vec<String>,
    settle: Vec<String>,
    made: PageDisk,
}

// The disk of a store that the words of a call just made.
fn make<R: Threads + Wait + Sync>(
    rt: &R,
    alloc: Global,
    line: &str,
) -> Result<PageDisk, Departure> {
    let words = words_of(alloc, line)?;
    let answer = call(rt, alloc, &words, PageDisk::new(alloc), "")?;
    if answer.text.as_str() != "made 3481600\n" {
        return Err(Departure::found(alloc, "making", 0, &answer.text));
    }
    Ok(answer.disk)
}

impl Bench {
    pub fn new<R: Threads + Wait + Sync>(rt: &R, alloc: Global) -> Result<Bench, Departure> {
        Ok(Bench {
            run: words_of(alloc, RUN)?,
            serve: words_of(alloc, SERVE)?,
            check: words_of(alloc, CHECK)?,
            settle: words_of(alloc, SETTLE)?,
            made: make(rt, alloc, MAKE)?,
        })
    }

    /// Makes another store for the cases to come, with these options beside its own.
    pub fn remake<R: Threads + Wait + Sync>(
        &mut self,
        rt: &R,
        alloc: Global,
        options: &str,
    ) -> Result<(), Departure> {
        self.made = make(rt, alloc, format!(in alloc; "{MAKE} {options}")?.as_str())?;
        Ok(())
    }

    /// Has the cases to come begin with the store as a script leaves it.
    pub fn fill<R: Threads + Wait + Sync>(
        &mut self,
        rt: &R,
        alloc: Global,
        script: &str,
    ) -> Result<(), Departure> {
        self.made = self.after(rt, alloc, script)?;
        Ok(())
    }

    /// The disk of the store, on which no call was answered.
    pub fn fresh(&self) -> Result<PageDisk, Departure> {
        Ok(self.made.copied()?)
    }

    /// Runs a script over the store on a disk, without workers.
    pub fn run<R: Threads + Wait + Sync>(
        &self,
        rt: &R,
        alloc: Global,
        disk: PageDisk,
        script: &str,
    ) -> Result<Answer, Departure> {
        call(rt, alloc, &self.run, disk, script)
    }

    /// Has a script done over the store on a disk.
    pub fn ask<R: Threads + Wait + Sync>(
        &self,
        rt: &R,
        alloc: Global,
        by: By,
        disk: PageDisk,
        script: &str,
    ) -> Result<Answer, Departure> {
        match by {
            By::Run => call(rt, alloc, &self.run, disk, script),
            By::Session => call(rt, alloc, &self.serve, disk, script),
        }
    }

    /// Serves a session over the store on a disk, and answers its status and the disk.
    pub fn serve<R: Threads + Wait + Sync, S: Source, K: Sink>(
        &self,
        rt: &R,
        alloc: Global,
        disk: PageDisk,
        source: &mut S,
        sink: &mut K,
    ) -> Result<(Status, PageDisk), Departure> {
        call_over(rt, alloc, &self.serve, disk, source, sink)
    }

    /// Checks the store on a disk.
    pub fn check<R: Threads + Wait + Sync>(
        &self,
        rt: &R,
        alloc: Global,
        disk: PageDisk,
    ) -> Result<Answer, Departure> {
        call(rt, alloc, &self.check, disk, "")
    }

    /// Settles the store on a disk.
    pub fn settle<R: Threads + Wait + Sync>(
        &self,
        rt: &R,
        alloc: Global,
        disk: PageDisk,
    ) -> Result<Answer, Departure> {
        call(rt, alloc, &self.settle, disk, "")
    }

    /// The store once a script was run over it, which must end well; without a script, as it is, since an opening settles it.
    pub fn after<R: Threads + Wait + Sync>(
        &self,
        rt: &R,
        alloc: Global,
        script: &str,
    ) -> Result<PageDisk, Departure> {
        if script.is_empty() {
            return self.fresh();
        }
        let answer = self.run(rt, alloc, self.fresh()?, script)?;
        if answer.status != Status::Done {
            return Err(Departure::found(alloc, "first run", 0, &answer.text));
        }
        Ok(answer.disk.copied()?)
    }
}
