// The smallest store, disks in memory of its length, and runs on them.
ghost use Rattle.std.specs.Prelude.{◌≡◌, length};
ghost use Rattle.blsm_model.specs.Geometry.{page_count, file_length};
ghost use Rattle.disk_mem.specs.Recorded.{told};
ghost use Rattle.run_writer.specs.Writer.{IsInside};

use crate::asserts::{assert_same, assert_that};
use bloom_bits::{Fences, Filter};
use blsm_model::{Component, Geometry, Key};
use disk_mem::MemDisk;
use disk_trait::Disk;
use page_file::Broken;
use page_space::Space;
use record_delta::Rec;
use refusal::Failed;
use run_cursor::rebuild;
use run_writer::Writer;
use std::alloc::Global;
use std::process::Abort;

/// How many pages the smallest store has.
pub const PAGES: u32 = 798;

/// Where the first page of the smallest store begins.
pub const FIRST_PAGE: u64 = 212_992;

/// The number that stands for no page.
pub const NO_PAGE: u32 = u32::MAX;

pub fn smallest(rt: &impl Abort) -> Geometry {
    Geometry::new(17_408, 2, 16_384, 4_096).expect(rt, "a geometry")
}

/// So many zeros as a store's file is long.
pub fn zeros(rt: &impl Abort, alloc: Global, geo: &Geometry) -> Vec<u8>
    ensures { length result.items ≡ file_length geo.now }
{
    vec![in alloc; 0; geo.length() as usize].expect(rt, "memory")
}

/// A disk of a store's length, of zeros, by two calls, with room for so many bytes of record more.
pub fn blank(rt: &impl Abort, alloc: Global, geo: &Geometry, record: u32) -> MemDisk
    ensures { length (told result).bytes ≡ file_length geo.now }
{
    let length = geo.length();
    let kept = length.saturating_add(u64::from(record));
    let zeros = zeros(rt, alloc, geo);
    let mut disk = MemDisk::new(alloc, length, kept).expect(rt, "memory");
    assert_that(rt, disk.write(0, zeros.as_slice()).is_ok());
    assert_that(rt, disk.sync().is_ok());
    disk
}

/// A map of a store's pages, all of them free.
pub fn free_map(rt: &impl Abort, alloc: Global, geo: &Geometry) -> Space
    ensures { result.pages ≡ page_count geo.now }
{
    let space = Space::reserve(alloc, geo.pages() as u32).expect(rt, "memory");
    assert_that(rt, u64::from(space.pages()) == geo.pages());
    space
}

/// This call of a disk is to fail.
pub fn fail(rt: &impl Abort, disk: &mut MemDisk, call: u64)
    ensures { (told disk.new).bytes ≡ (told disk.old).bytes }
{
    assert_that(rt, disk.fail(call).is_ok());
}

/// What a page is that is valid, or isn't.
pub fn validity(is_valid: bool, page: u32) -> Result<(), Broken> {
    if is_valid {
        Ok(())
    } else {
        Err(Broken::Damaged(page))
    }
}

/// A run's filter and its fences.
#[derive(Drop)]
pub struct Guide {
    pub filter: Filter,
    pub fences: Fences,
}

/// A filter of 4,096 bits without keys, and no fence, with room for those of all pages.
pub fn empty_guide(rt: &impl Abort, alloc: Global) -> Guide {
    let mut filter = Filter::with_bits(alloc, 4_096).expect(rt, "memory");
    filter.reset(4_096);
    Guide {
        filter,
        fences: Fences::reserve(alloc, PAGES).expect(rt, "memory"),
    }
}

/// The filter and the fences of a component, or of the pages of a run that goes on, by one call of the disk for each of its pages.
pub fn guide_of(
    rt: &impl Abort,
    alloc: Global,
    disk: &mut MemDisk,
    geo: &Geometry,
    run: &Component,
) -> Guide
    requires { length (told disk.old).bytes ≡ file_length geo.now }
    ensures { length (told disk.new).bytes ≡ file_length geo.now }
{
    let mut filter = Filter::with_bits(alloc, run.weight).expect(rt, "memory");
    let mut fences = Fences::reserve(alloc, run.pages).expect(rt, "memory");
    assert_same(
        rt,
        rebuild(disk, geo, run, run.weight, &mut filter, &mut fences),
        Ok(()),
    );
    Guide { filter, fences }
}

/// Pushes an entry onto a run, where a page is free and its fences have room.
pub fn push_entry(
    rt: &impl Abort,
    writer: &mut Writer,
    disk: &mut MemDisk,
    geo: &Geometry,
    space: &mut Space,
    guide: &mut Guide,
    key: &Key,
    rec: &Rec,
) -> Result<(), Failed>
    requires inside { IsInside (page_count geo.now) writer.old }
    requires length { length (told disk.old).bytes ≡ file_length geo.now }
    ensures inside { IsInside (page_count geo.now) writer.new }
    ensures length { length (told disk.new).bytes ≡ file_length geo.now }
{
    assert_that(rt, u64::from(space.pages()) == geo.pages());
    assert!(rt; u64::from(writer.component().pages) < geo.pages());
    assert!(rt; space.has_free());
    assert!(rt; guide.fences.takes(key));
    writer.push(
        disk,
        geo,
        space,
        &mut guide.filter,
        &mut guide.fences,
        key,
        rec,
    )
}
