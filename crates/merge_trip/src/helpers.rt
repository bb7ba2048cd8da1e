// Stores over disks in memory, and merges over them from their begin to their end.
ghost use Rattle.std.specs.Prelude.{◌≡◌, ◌+◌, ◌<◌, ◌≤◌, ℕ, length, IfOk, IfSome};
ghost use Rattle.blsm_model.specs.Geometry.{page_count, file_length};
ghost use Rattle.bloom_bits.specs.Filter.{rounded};
ghost use Rattle.disk_mem.specs.Recorded.{told};
ghost use Rattle.page_space.specs.Space.{SpaceState, IsWithin, role_size, pin_size, seat_count};
ghost use Rattle.merge_ends.specs.Output.{TakesPages};

use crate::asserts::{assert_same, assert_that};
use crate::plain::{key_of, push};
use bloom_bits::{Fences, Filter};
use blsm_model::{Component, Geometry, Key};
use deep_merge::Deep;
use disk_mem::MemDisk;
use disk_trait::Disk;
use mem_table::Table;
use page_file::{Broken, no_component};
use page_space::{Role, Space};
use record_delta::{Rec, Stream, weight};
use run_cursor::Cursor;
use snow_merge::Snow;
use std::alloc::Global;
use std::process::Abort;

/// How much a table may weigh, in bytes.
pub const RESERVED: u64 = 65_536;

// The bits of a run's filter.
const FILTER_BITS: u64 = 4_096;

/// A disk of the length of a store.
#[derive(Drop)]
pub struct File {
    pub geo: Geometry,
    pub disk: MemDisk,
    ghost long: { length (told disk).bytes ≡ file_length geo },
}

// A disk of so many zeros, durable, by two calls, with room for two megabytes of record.
fn blank_disk(rt: &impl Abort, alloc: Global, geo: &Geometry) -> MemDisk
    ensures { length (told result).bytes ≡ file_length geo.now }
{
    let length = geo.length();
    let zeros = vec![in alloc; 0; length as usize].expect(rt, "memory");
    let mut disk = MemDisk::new(alloc, length, length.saturating_add(2_000_000)).expect(
        rt, "memory",
    );
    assert_that(rt, disk.write(0, &zeros).is_ok());
    assert_that(rt, disk.sync().is_ok());
    disk
}

impl File {
    /// The smallest store's length of zeros, durable, by two calls, with this quantum and room for two megabytes of record.
    pub fn blank(rt: &impl Abort, alloc: Global, quantum: u64) -> File {
        let geo = Geometry::new(17_408, 2, 16_384, quantum).expect(rt, "a geometry");
        let disk = blank_disk(rt, alloc, &geo);
        File { geo, disk }
    }

    /// One of the images that a crash may leave. One call of it was answered.
    pub fn image(&self, rt: &impl Abort, pick: u64) -> File {
        let geo = self.geo;
        let mut disk = self.disk.image(pick).expect(rt, "memory");
        assert_eq!(rt; disk.len(), Ok(geo.length()));
        File { geo, disk }
    }

    /// Makes all that was written durable, by one call.
    pub fn sync(&mut self, rt: &impl Abort)
        ensures { self.new.geo ≡ self.old.geo }
    {
        assert_that(rt, self.disk.sync().is_ok());
    }

    /// This call of the disk is to fail.
    pub fn fail(&mut self, rt: &impl Abort, call: u64)
        ensures { self.new.geo ≡ self.old.geo }
    {
        assert_that(rt, self.disk.fail(call).is_ok());
    }

    /// Asserts that a run has just the records of a list.
    pub fn check(&mut self, rt: &impl Abort, run: &Component, list: &[Option<Rec>]) {
        assert_that(rt, run.pages != 0 || *run == no_component());
        let mut cursor = Cursor::start(run);
        for (number, rec) in list.iter().enumerate() {
            if let Some(rec) = rec {
                self.goes_on(rt, &mut cursor, key_of(rt, number), rec.copy());
            }
        }
        self.is_at_end(rt, &mut cursor);
    }

    /// Asserts that this is the next entry of a run.
    pub fn goes_on(&mut self, rt: &impl Abort, cursor: &mut Cursor, key: Key, rec: Rec) {
        assert_same(rt, self.next(rt, cursor), Some((key, rec)));
    }

    /// Asserts that a run has no next entry.
    pub fn is_at_end(&mut self, rt: &impl Abort, cursor: &mut Cursor) {
        assert_that(rt, self.next(rt, cursor).is_none());
    }

    // The next entry of a run, if there is one.
    fn next(&mut self, rt: &impl Abort, cursor: &mut Cursor) -> Option<(Key, Rec)> {
        assert_same(rt, cursor.advance(&mut self.disk, &self.geo), Ok(()));
        cursor.head()
    }
}

// A map of the store's pages, all of them free.
fn free_map(rt: &impl Abort, alloc: Global, geo: &Geometry) -> Space
    ensures pages { result.pages ≡ page_count geo.now }
    ensures within { IsWithin 0 0 result }
{
    match Space::reserve(alloc, geo.pages() as u32) {
        Ok(space) => {
            assert_that(rt, u64::from(space.pages()) == geo.pages());
            space
        }
        Err(_) => rt.abort(),
    }
}

// A run's filter, without keys.
fn empty_filter(rt: &impl Abort, alloc: Global) -> Filter
    ensures { result.reserved ≡ rounded 4096 }
{
    Filter::with_bits(alloc, FILTER_BITS).expect(rt, "memory")
}

// A run's fences, of which there are none; there may be one for each page of the store.
fn empty_fences(rt: &impl Abort, alloc: Global, geo: &Geometry) -> Fences
    ensures { result.reserved ≡ page_count geo.now }
{
    Fences::reserve(alloc, geo.pages() as u32).expect(rt, "memory")
}

/// A table with room for so much.
#[derive(Drop)]
pub struct Memory {
    pub table: Table,
    ghost reserved: { table.reserved ≡ 65_536 },
}

impl Memory {
    pub fn reserve(rt: &impl Abort, alloc: Global) -> Memory {
        Memory {
            table: Table::reserve(alloc, RESERVED).expect(rt, "memory"),
        }
    }

    /// A table of the records of a list.
    pub fn of_list(rt: &impl Abort, alloc: Global, list: &[Option<Rec>]) -> Memory {
        let mut memory = Memory::reserve(rt, alloc);
        for (number, rec) in list.iter().enumerate() {
            if let Some(rec) = rec {
                memory.fold_in(rt, &key_of(rt, number), rec);
            }
        }
        memory
    }

    pub fn fold_in(&mut self, rt: &impl Abort, key: &Key, rec: &Rec) {
        assert!(rt; self.table.floor().is_none() && self.table.dropped() == 0);
        assert!(rt; self.table.weight() + weight(key, rec) <= RESERVED);
        self.table.fold_in(key, rec);
    }
}

/// Into which table that goes which comes in at or behind the cursor of a pass: into the next one, as a store has it, or into the pass's
/// own, where the pass doesn't take it.
#[derive(Clone, Copy, PartialEq, Eq, Debug)]
pub enum Behind {
    Next,
    Own,
}

/// What comes in while a pass runs, behind each quantum, and the table that takes what the pass's own doesn't.
#[derive(Drop)]
pub struct Coming {
    pub rounds: Vec<Vec<(Key, Rec)>>,
    pub behind: Behind,
    pub next: Memory,
}

impl Coming {
    /// Nothing comes in.
    pub fn nothing(rt: &impl Abort, alloc: Global) -> Coming {
        Coming {
            rounds: Vec::new(alloc),
            behind: Behind::Next,
            next: Memory::reserve(rt, alloc),
        }
    }

    // What comes in behind the quantum of this number, where the cursor is at this key.
    fn come_in(&mut self, rt: &impl Abort, round: usize, at: &Option<Key>, own: &mut Memory) {
        let Some(entries) = self.rounds.get(round) else {
            return;
        };
        for (key, rec) in entries {
            if self.behind == Behind::Own || is_ahead(at, key) {
                own.fold_in(rt, key, rec);
            } else {
                self.next.fold_in(rt, key, rec);
            }
        }
    }
}

/// Whether a key is ahead of a cursor.
pub fn is_ahead(at: &Option<Key>, key: &Key) -> bool {
    match at {
        None => true,
        Some(at) => *at < *key,
    }
}

/// What came of a merge: the new run, or none where the disk failed, and what each quantum took, with the cursor behind it.
#[derive(Drop)]
pub struct Merged {
    pub run: Option<Component>,
    pub quanta: Vec<(u64, Option<Key>)>,
}

/// A store: its file, the map of its pages, and how many of these have a tag at most.
#[derive(Drop)]
pub struct Store {
    pub file: File,
    pub space: Space,
    pub live: u64,
    ghost pages: { space.pages ≡ page_count file.geo },
    ghost roles: { role_size space 0 + role_size space 1 + role_size space 2 + role_size space 3 + role_size space 4 ≤ live },
    ghost seats: { (seat : ℕ) → seat < seat_count → pin_size space seat ≤ 0 },
}

// Their sum, where none is a million or more.
fn sum_of(rt: &impl Abort, a: u64, b: u64, c: u64) -> u64
    ensures { result ≡ a + b + c }
{
    assert!(rt; a < 1_000_000);
    assert!(rt; b < 1_000_000);
    assert!(rt; c < 1_000_000);
    a + b + c
}

impl Store {
    /// The smallest store, with this quantum and no run.
    pub fn blank(rt: &impl Abort, alloc: Global, quantum: u64) -> Store {
        let file = File::blank(rt, alloc, quantum);
        let space = free_map(rt, alloc, &file.geo);
        Store {
            file,
            space,
            live: 0,
        }
    }

    /// The same store over an image of its disk.
    pub fn over_image(self, rt: &impl Abort, pick: u64) -> Store {
        let Store { file, space, live } = self;
        let file = file.image(rt, pick);
        assert_that(rt, u64::from(space.pages()) == file.geo.pages());
        Store { file, space, live }
    }

    /// A pass of a table over C1, from its begin to its end. It runs on while something is to come in.
    pub fn pass(
        self,
        rt: &impl Abort,
        alloc: Global,
        c1: &Component,
        role: Role,
        own: &mut Memory,
        coming: &mut Coming,
    ) -> (Store, Merged) {
        let Store {
            file,
            mut space,
            live,
        } = self;
        let File { geo, mut disk } = file;
        assert_that(rt, c1.pages != 0 || *c1 == no_component());
        let _role = role.number();
        let mut filter = empty_filter(rt, alloc);
        let mut fences = empty_fences(rt, alloc, &geo);
        let mut snow = Snow::begin(c1, role, FILTER_BITS, &mut filter, &mut fences);
        let mut quanta = Vec::new(alloc);
        let mut total = 0u64;
        'quanta: for round in 0..1_000usize {
            assert!(rt; live < 1_000_000 && c1.weight < 1_000_000 && total < 1_000_000);
            let _pages = space.pages();
            if snow.is_done(&own.table) && round >= coming.rounds.len() {
                let run = snow.finish(&mut disk, &geo, &own.table).ok();
                return ended(File { geo, disk }, space, live, role, run, quanta);
            }
            let most = total + own.table.weight() + c1.weight;
            assert!(rt; live + most / 3_577 + 1 <= geo.pages());
            let at = snow.cursor();
            let taken = match snow.quantum(
                &mut disk,
                &geo,
                &own.table,
                &mut space,
                &mut filter,
                &mut fences,
            ) {
                Ok(taken) => taken,
                Err(broken) => {
                    assert_same(rt, broken, Broken::Fault);
                    assert_same(rt, snow.cursor(), at);
                    return ended(File { geo, disk }, space, live, role, None, quanta);
                }
            };
            assert!(rt; taken < 1_000_000);
            total += taken;
            push(rt, &mut quanta, (taken, snow.cursor()));
            coming.come_in(rt, round, &snow.cursor(), own);
        }
        rt.abort()
    }

    /// A pass of a table over no C1, while nothing comes in. Gives the run that it made.
    pub fn pass_alone(
        self,
        rt: &impl Abort,
        alloc: Global,
        role: Role,
        own: &mut Memory,
    ) -> (Store, Component) {
        let mut coming = Coming::nothing(rt, alloc);
        let (store, merged) = self.pass(rt, alloc, &no_component(), role, own, &mut coming);
        (store, merged.run.expect(rt, "no fault"))
    }

    /// A deep merge, from its begin to its end.
    pub fn deep(
        self,
        rt: &impl Abort,
        alloc: Global,
        c1x: &Component,
        c2: &Component,
        role: Role,
    ) -> (Store, Merged) {
        let Store {
            file,
            mut space,
            live,
        } = self;
        let File { geo, mut disk } = file;
        assert_that(rt, c1x.pages != 0 || *c1x == no_component());
        assert_that(rt, c2.pages != 0 || *c2 == no_component());
        let _role = role.number();
        let mut filter = empty_filter(rt, alloc);
        let mut fences = empty_fences(rt, alloc, &geo);
        let mut deep = Deep::begin(c1x, c2, role, FILTER_BITS, &mut filter, &mut fences);
        let mut quanta = Vec::new(alloc);
        let mut total = 0u64;
        'quanta: for _ in 0..1_000usize {
            assert!(rt; live < 1_000_000 && total < 1_000_000);
            let _pages = space.pages();
            if deep.is_done() {
                let run = deep.finish(&mut disk, &geo).ok();
                return ended(File { geo, disk }, space, live, role, run, quanta);
            }
            let most = sum_of(rt, total, c1x.weight, c2.weight);
            assert!(rt; live + most / 3_577 + 1 <= geo.pages());
            let at = deep.cursor();
            let taken = match deep.quantum(&mut disk, &geo, &mut space, &mut filter, &mut fences) {
                Ok(taken) => taken,
                Err(broken) => {
                    assert_same(rt, broken, Broken::Fault);
                    assert_same(rt, deep.cursor(), at);
                    return ended(File { geo, disk }, space, live, role, None, quanta);
                }
            };
            assert!(rt; taken < 1_000_000);
            total += taken;
            push(rt, &mut quanta, (taken, deep.cursor()));
        }
        rt.abort()
    }
}

// The end of a merge. The pages that its run took are in use, or, where the disk failed, free again.
fn ended(
    file: File,
    mut space: Space,
    live: u64,
    role: Role,
    run: Option<Component>,
    quanta: Vec<(u64, Option<Key>)>,
) -> (Store, Merged)
    requires pages { space.pages ≡ page_count file.geo }
    requires few { live < 1_000_000 }
    requires taken { (old : SpaceState) × IsWithin live 0 old × TakesPages role old space
        × IfSome run (λ c. role_size space role ≡ role_size old role + c.pages) }
{
    let live = match &run {
        Some(run) => live + u64::from(run.pages),
        None => {
            space.release(role);
            live
        }
    };
    (Store { file, space, live }, Merged { run, quanta })
}
