//! A script of one caller, which a session tells as a run without workers does.
use crate::bench::{Bench, By};
use crate::departure::Departure;
use std::alloc::Global;
use std::sync::Wait;
use std::thread::Threads;

/// Checks a case: a script that a run and a session do over a new store each, with the same text and the same status.
pub fn check<R: Threads + Wait + Sync>(
    rt: &R,
    alloc: Global,
    bench: &Bench,
    script: &str,
) -> Result<(), Departure> {
    let run = bench.ask(rt, alloc, By::Run, bench.fresh()?, script)?;
    let told = bench.ask(rt, alloc, By::Session, bench.fresh()?, script)?;
    if told.status != run.status || told.text != run.text {
        let status = u64::from(told.status.code());
        return Err(Departure::found(alloc, "session", status, &told.text));
    }
    Ok(())
}
