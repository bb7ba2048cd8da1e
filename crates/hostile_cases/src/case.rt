//! A line of the input.
use crate::bench::Bench;
use crate::departure::Departure;
use crate::runs::Failing;
use crate::scripts::Scripts;
use crate::{alike, calls, damage, runs, sessions, sweeps};
use std::alloc::Global;
use std::sync::Wait;
use std::thread::Threads;

/// Does what a line says: names a script, makes another store for the cases to come, fills it, or checks a case.
pub fn check<R: Threads + Wait + Sync>(
    rt: &R,
    alloc: Global,
    bench: &mut Bench,
    scripts: &mut Scripts,
    line: &str,
) -> Result<(), Departure> {
    let Some((word, rest)) = line.split_once(" ") else {
        return Err(Departure::NotACase);
    };
    match word {
        "script" => scripts.add(rest),
        "store" => bench.remake(rt, alloc, rest),
        "fill" => bench.fill(rt, alloc, scripts.get(rest)?),
        "fail" => runs::check(rt, alloc, bench, scripts, Failing::Alone, rest),
        "stop" => runs::check(rt, alloc, bench, scripts, Failing::AndAfter, rest),
        "fails" => sweeps::check(rt, alloc, bench, scripts, Failing::Alone, rest),
        "stops" => sweeps::check(rt, alloc, bench, scripts, Failing::AndAfter, rest),
        "openings" => sweeps::check_openings(rt, alloc, bench, scripts.get(rest)?),
        "alike" => alike::check(rt, alloc, bench, scripts.get(rest)?),
        "sessions" => sessions::check(rt, alloc, bench, scripts.get(rest)?),
        "calls" => calls::check(rt, alloc, scripts, rest),
        "change" => damage::check_later(rt, alloc, bench, scripts, rest),
        "damage" => damage::check(rt, alloc, bench, scripts, rest),
        _ => Err(Departure::NotACase),
    }
}
