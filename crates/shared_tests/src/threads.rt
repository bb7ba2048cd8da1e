// Runs of callers and workers in threads, whose histories are judged however the threads interleave.
ghost use Rattle.std.specs.Prelude.{◌≤◌};

use crate::judge::{Judge, asks_the_lines};
use crate::random::any_script;
use crate::stores::{Ran, fresh, run, script};
use disk_mem::MemDisk;
use script_text::Script;
use std::alloc::Global;
use std::process::Abort;
use std::sync::Wait;
use std::thread::Threads;

/// A run over the store on a disk: each caller's lines stand in its history, each reply is right, and each call of the disk that failed was told.
pub fn run_judged<R: Abort + Threads + Wait + Sync>(
    rt: &R,
    alloc: Global,
    disk: MemDisk,
    script: &Script,
    workers: u32,
) -> (Ran, Judge)
    requires { workers ≤ 8 }
{
    let ran = run(rt, alloc, disk, script, workers);
    asks_the_lines(rt, script.lines(), &ran.annals);
    let mut judge = Judge::new(rt, alloc, ran.totals.stopped);
    judge.judge_all(rt, alloc, &ran.annals);
    judge.check_faults(rt, &ran.disk);
    (ran, judge)
}

/// The least weight of the memory table past which a worker begins a pass.
pub const LOW: u64 = 16_384;

// Caller 2 reads what it wrote, or what caller 1 wrote since, in whatever order they come.
#[test]
fn two_callers_and_two_workers(rt: HostRuntime) {
    let alloc = rt.alloc();
    let script = script(&rt, alloc, b"1 put a 1 -\n2 put a 2 -\n2 get a\n");
    for _ in 0..8 {
        let _ran = run_judged(&rt, alloc, fresh(&rt, alloc, LOW), &script, 2);
    }
}

// Runs a script of this seed over a new store, with four workers.
fn run_seed<R: Abort + Threads + Wait + Sync>(rt: &R, alloc: Global, low: u64, seed: u64) {
    let script = any_script(rt, alloc, seed, 200);
    let _ran = run_judged(rt, alloc, fresh(rt, alloc, low), &script, 4);
}

#[test]
fn histories_of_random_scripts_are_legal(rt: HostRuntime) {
    for seed in 1..4 {
        run_seed(&rt, rt.alloc(), 0, seed);
        run_seed(&rt, rt.alloc(), LOW, seed);
    }
}
