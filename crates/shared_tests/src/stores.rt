// Stores on disks in memory, and runs of scripts over them.
ghost use Rattle.std.specs.Prelude.{◌≤◌};

use crate::asserts::assert_same;
use blsm_model::{Annals, Gate, Geometry, Point, Totals};
use disk_mem::MemDisk;
use recover_open::{make_store, open_store};
use script_text::{Script, read_script};
use std::alloc::Global;
use std::process::Abort;
use std::sync::Wait;
use std::sync::atomic::{AtomicU64, Ordering};
use std::thread::{Threads, yield_now};
use tree_shared::{an_opened_core_is_fresh, run_all};

// How many bytes of record a disk has beside those of its making.
const RECORD: u64 = 16_000_000;

// How many bytes a merge quantum writes.
const QUANTUM: u64 = 4_096;

// How many turns a worker takes at most.
const TURNS: u32 = 1_000;

/// The disk of a new store of the least size, whose workers begin a pass past this weight of the memory table.
pub fn fresh(rt: &impl Abort, alloc: Global, low: u64) -> MemDisk {
    let geometry = Geometry::new(Geometry::MIN_HALF, Geometry::MIN_RATIO, low, QUANTUM).expect(
        rt,
        "a geometry",
    );
    let length = geometry.length();
    let kept = length.saturating_mul(2).saturating_add(RECORD);
    let Ok(mut disk) = MemDisk::new(alloc, length, kept) else {
        rt.abort()
    };
    assert_same(rt, make_store(&mut disk, &geometry), Ok(()));
    disk
}

// The number of an image with all writes.
const ALL: u64 = 2_000_000_000_000_999_999;

/// The disk of such a store, which answers so many calls of whom opens it, and no more.
pub fn stopping(rt: &impl Abort, alloc: Global, low: u64, calls: u64) -> MemDisk {
    let mut disk = fresh(rt, alloc, low).image(ALL).expect(rt, "memory");
    disk.stop_after(calls);
    disk
}

/// The script of a text.
pub fn script(rt: &impl Abort, alloc: Global, text: &[u8]) -> Script {
    match read_script(alloc, text) {
        Ok(script) => script,
        Err(_) => rt.abort(),
    }
}

// A gate at which who comes gives way, up to seven times by a draw, so that callers and workers come between one another.
#[derive(Drop)]
struct Restless {
    came: AtomicU64,
}

impl Gate for Restless {
    fn at(&self, _seat: u32, _point: Point) {
        let came = self.came.fetch_add(1, Ordering::SeqCst);
        let times = came.wrapping_mul(6_364_136_223_846_793_005) >> 61;
        for _ in 0..times {
            yield_now();
        }
    }
}

/// What a run leaves.
#[derive(Drop)]
pub struct Ran {
    pub disk: MemDisk,
    pub annals: Annals,
    pub totals: Totals,
}

/// Runs a script over the store on a disk, each caller and each worker in a thread of its own.
pub fn run<R: Abort + Threads + Wait + Sync>(
    rt: &R,
    alloc: Global,
    disk: MemDisk,
    script: &Script,
    workers: u32,
) -> Ran
    requires { workers ≤ 8 }
{
    an_opened_core_is_fresh::<MemDisk>();
    let Ok(core) = open_store(alloc, disk, script.room()) else {
        rt.abort()
    };
    let gate = Restless {
        came: AtomicU64::new(0),
    };
    let Ok(core) = run_all(rt, alloc, core, script.lines(), workers, TURNS, &gate) else {
        rt.abort()
    };
    let (disk, annals, totals) = core.end();
    Ran {
        disk,
        annals,
        totals,
    }
}
