// Stores over disks in memory, and cores that are opened over them.
ghost use Rattle.std.specs.Prelude.{◌≡◌, length, replicate};
ghost use Rattle.blsm_model.specs.Geometry.{file_length};
ghost use Rattle.catalog_swap.specs.Text.{first_catalog};
ghost use Rattle.disk_mem.specs.Recorded.{told};

use crate::asserts::{assert_same, assert_that, assert_that_at};
use crate::samples::most_quanta;
use blsm_model::{Annals, CALLERS, Geometry, Op, Room, ShortReply};
use catalog_swap::Catalog;
use core_moves::Settled;
use disk_mem::MemDisk;
use disk_trait::Disk;
use gated_log::Lanes;
use mem_table::Table;
use page_file::no_component;
use page_space::Space;
use refusal::NoMemory;
use scan_view::{Holds, RowRoom};
use std::alloc::Global;
use std::process::Abort;
use store_file::make_store;
use tree_core::{Core, Parts};
use tree_log::LoggedTables;
use tree_machine::{Kind, Step};
use tree_runs::{GuideRoom, MergeRoom, Runs};

/// How many entries each caller may note.
pub const ENTRIES: u32 = 1_000;

/// How many rows each caller's nexts may give.
pub const ROWS: u32 = 1_000;

/// How many bytes of record a disk has beside those of its making.
const RECORD: u64 = 16_000_000;

/// A geometry with these numbers.
pub fn geometry(rt: &impl Abort, half: u64, ratio: u64, low: u64, quantum: u64) -> Geometry {
    Geometry::new(half, ratio, low, quantum).expect(rt, "a geometry")
}

/// The geometry of the least store.
pub fn smallest(rt: &impl Abort) -> Geometry {
    geometry(rt, Geometry::MIN_HALF, Geometry::MIN_RATIO, 16_384, 4_096)
}

/// The geometry of the greatest ratio over the least half spring.
pub fn steepest(rt: &impl Abort) -> Geometry {
    geometry(rt, Geometry::MIN_HALF, Geometry::MAX_RATIO, 1_024, 1_024)
}

/// A disk of the length of a store.
#[derive(Drop)]
pub struct File {
    pub geo: Geometry,
    pub disk: MemDisk,
    ghost long: { length (told disk).bytes ≡ file_length geo },
}

impl File {
    /// A store that was just made.
    pub fn make(rt: &impl Abort, alloc: Global, geo: Geometry) -> File {
        let length = geo.length();
        let kept = length.saturating_mul(2).saturating_add(RECORD);
        let Ok(mut disk) = MemDisk::new(alloc, length, kept) else {
            rt.abort()
        };
        match make_store(&mut disk, &geo) {
            Ok(()) => File { geo, disk },
            Err(_) => rt.abort(),
        }
    }

    /// One of the images that a crash may leave of a disk, by its number. One call of it was answered.
    pub fn image(rt: &impl Abort, geo: Geometry, disk: &MemDisk, pick: u64) -> File {
        File::over(rt, geo, disk.image(pick).expect(rt, "memory"))
    }

    /// A disk whose length is a store's. One call of it was answered.
    pub fn over(rt: &impl Abort, geo: Geometry, disk: MemDisk) -> File {
        let mut disk = disk;
        let Ok(length) = disk.len() else { rt.abort() };
        assert_eq!(rt; length, geo.length());
        File { geo, disk }
    }

    /// A core over this store, which was just made.
    pub fn start(self, rt: &impl Abort, alloc: Global) -> Core<MemDisk> {
        self.open(alloc).expect(rt, "memory")
    }

    // The same where memory serves.
    fn open(self, alloc: Global) -> Result<Core<MemDisk>, NoMemory> {
        let File { geo, disk } = self;
        let _half = geo.half();
        let space = Space::reserve(alloc, geo.pages() as u32)?;
        let merges = MergeRoom::reserve(alloc)?;
        let guides = GuideRoom::reserve(alloc, &geo, 0)?;
        let runs = Runs::open(&geo, first_catalogue(), space, merges, guides, None);
        let log = LoggedTables::open(
            Table::reserve(alloc, geo.high_mark())?,
            Table::reserve(alloc, geo.high_mark())?,
            Lanes::resume(&geo, [0, 1, 2], [0, 0, 0]),
        );
        let annals = Annals::reserve(alloc, room())?;
        let holds = Holds::reserve(alloc)?;
        let rows = RowRoom::reserve(alloc)?;
        Ok(Core::assemble(Parts {
            disk,
            runs,
            log,
            annals,
            holds,
            rows,
            settled: Settled {
                version: 1,
                quanta: 0,
                bound: 5,
            },
        }))
    }
}

/// The room of each seat.
pub fn room() -> Room
    ensures { result ≡ record { entries = replicate 16 ENTRIES; rows = replicate 16 ROWS } }
{
    Room {
        entries: [ENTRIES; CALLERS as usize],
        rows: [ROWS; CALLERS as usize],
    }
}

// The catalogue of a store that was just made.
fn first_catalogue() -> Catalog
    ensures { result ≡ first_catalog }
{
    Catalog {
        version: 1,
        lanes: [0, 1, 2],
        c1: no_component(),
        c1x: no_component(),
        c2: no_component(),
        progress: None,
    }
}

/// A core over a fresh store of this geometry.
pub fn fresh(rt: &impl Abort, alloc: Global, geo: Geometry) -> Core<MemDisk> {
    File::make(rt, alloc, geo).start(rt, alloc)
}

/// A seat makes a step.
pub fn make(alloc: Global, core: &mut Core<MemDisk>, seat: u32, kind: Kind) {
    core.play(alloc, &[Step { seat, kind }]);
}

/// A seat admits a write, and pays as often as its weight may ask for at most.
pub fn write(alloc: Global, core: &mut Core<MemDisk>, seat: u32, op: Op) {
    let most = most_quanta(&core.geometry(), &op);
    make(alloc, core, seat, Kind::Admit(op));
    for _ in 0..most {
        make(alloc, core, seat, Kind::Pay);
    }
}

/// Caller 0 does so many turns and ends its work.
pub fn work(alloc: Global, core: &mut Core<MemDisk>, turns: u32) {
    for _ in 0..turns {
        make(alloc, core, 0, Kind::WorkTurn);
    }
    make(alloc, core, 0, Kind::WorkEnd(turns));
}

// A core over a fresh store has no history, and its numbers are 0.
fn check_start(rt: &impl Abort, core: Core<MemDisk>, geo: &Geometry) {
    let (_, annals, totals) = core.end();
    assert_that(rt, annals.is_empty());
    assert_same(rt, totals.high, geo.high_mark());
    assert_same(rt, (totals.peak, totals.charge), (0, 0));
    assert_that(rt, totals.stopped.is_none());
}

// A store that was just made has its first catalogue.
fn check_fresh(rt: &impl Abort, alloc: Global, geo: Geometry) {
    let mut file = File::make(rt, alloc, geo);
    let now = file.newest(rt);
    assert_that(rt, now == first_catalogue());
    check_start(rt, file.start(rt, alloc), &geo);
}

#[test]
fn a_fresh_store_has_its_first_catalogue(rt: HostRuntime) {
    let alloc = rt.alloc();
    check_fresh(&rt, alloc, Geometry::default());
    check_fresh(&rt, alloc, smallest(&rt));
    check_fresh(&rt, alloc, steepest(&rt));
}

/// Whether there is an entry at this place, with this reply.
pub fn has_reply(annals: &Annals, place: u32, reply: &ShortReply) -> bool {
    (place as usize) < annals.len() && annals.short_reply(place) == Some(reply)
}

/// Asserts that an entry has this reply.
pub fn check_reply(rt: &impl Abort, annals: &Annals, place: u32, reply: &ShortReply) {
    assert_that_at(rt, has_reply(annals, place, reply), place);
}
