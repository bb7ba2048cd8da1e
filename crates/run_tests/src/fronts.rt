// The closed pages of a run that is being written, read as a run of their own, on the disk and in images of it.
ghost use Rattle.std.specs.Prelude.{◌≡◌, length};
ghost use Rattle.blsm_model.specs.Geometry.{page_count, file_length};
ghost use Rattle.disk_mem.specs.Recorded.{told};
ghost use Rattle.run_writer.specs.Writer.{IsInside};

use crate::asserts::{assert_same, assert_that};
use crate::samples::{Guide, blank, empty_guide, free_map, guide_of, push_entry, smallest};
use crate::trips::{entry, finds};
use bloom_bits::{Fences, Filter};
use blsm_model::{Component, Geometry};
use disk_mem::MemDisk;
use disk_trait::Disk;
use page_space::{Role, Space};
use run_cursor::rebuild;
use run_writer::Writer;
use std::alloc::Global;
use std::process::Abort;

// The images in which nothing of one write stands, half of it and a byte that is neither the old nor the new one, or zeros.
const PICKS: [u64; 3] = [0, 6_097, 8_193];

// The number by which an entry was made: the even ones were pushed.
fn number_of(rt: &impl Abort, entry: u64) -> u32 {
    u32::try_from(entry)
        .expect(rt, "a number")
        .saturating_mul(2)
}

// A front of the entries of even numbers has those from this one on that it counts, and not the one that would come behind them.
fn has_entries(
    rt: &impl Abort,
    disk: &mut MemDisk,
    geo: &Geometry,
    front: &Component,
    guide: &Guide,
    from: u64,
)
    requires { length (told disk.old).bytes ≡ file_length geo.now }
    ensures { length (told disk.new).bytes ≡ file_length geo.now }
{
    'keys: for n in from..front.entries {
        finds(rt, disk, geo, front, guide, number_of(rt, n), true);
    }
    let behind = number_of(rt, front.entries).saturating_sub(1);
    finds(rt, disk, geo, front, guide, behind, false);
}

// And so in the image of this number.
fn image_has(
    rt: &impl Abort,
    disk: &MemDisk,
    geo: &Geometry,
    front: &Component,
    guide: &Guide,
    pick: u64,
) {
    let mut image = disk.image(pick).expect(rt, "memory");
    assert_eq!(rt; image.len(), Ok(geo.length()));
    has_entries(
        rt,
        &mut image,
        geo,
        front,
        guide,
        front.entries.saturating_sub(4),
    );
}

// A page more was closed: in each image the front of before is what it was, by a filter and fences that are made of it.
fn stays_in_images(
    rt: &impl Abort,
    alloc: Global,
    disk: &mut MemDisk,
    geo: &Geometry,
    before: &Component,
)
    requires { length (told disk.old).bytes ≡ file_length geo.now }
    ensures { length (told disk.new).bytes ≡ file_length geo.now }
{
    let guide = guide_of(rt, alloc, disk, geo, before);
    'images: for pick in PICKS {
        image_has(rt, disk, geo, before, &guide, pick);
    }
    assert_that(rt, disk.sync().is_ok());
}

// And the new one is there: by those of the run, and by its own, which know nothing of the page behind it.
fn is_there(
    rt: &impl Abort,
    alloc: Global,
    disk: &mut MemDisk,
    geo: &Geometry,
    front: &Component,
    guide: &Guide,
    from: u64,
)
    requires { length (told disk.old).bytes ≡ file_length geo.now }
    ensures { length (told disk.new).bytes ≡ file_length geo.now }
{
    has_entries(rt, disk, geo, front, guide, from);
    let own = guide_of(rt, alloc, disk, geo, front);
    has_entries(rt, disk, geo, front, &own, from);
    let behind = number_of(rt, front.entries);
    finds(rt, disk, geo, front, &own, behind, false);
}

// Pushes the entry of a number; where a page is closed then, the front has all that was pushed before.
fn push_one(
    rt: &impl Abort,
    alloc: Global,
    writer: &mut Writer,
    disk: &mut MemDisk,
    geo: &Geometry,
    space: &mut Space,
    guide: &mut Guide,
    n: u32,
)
    requires inside { IsInside (page_count geo.now) writer.old }
    requires length { length (told disk.old).bytes ≡ file_length geo.now }
    ensures inside { IsInside (page_count geo.now) writer.new }
    ensures length { length (told disk.new).bytes ≡ file_length geo.now }
{
    let before = writer.closed();
    let (key, rec) = entry(rt, n.saturating_mul(2));
    assert_that(
        rt,
        push_entry(rt, writer, disk, geo, space, guide, &key, &rec).is_ok(),
    );
    let front = writer.closed();
    if front.pages == before.pages {
        assert_same(rt, front.entries, before.entries);
    } else {
        assert_same(rt, front.entries, u64::from(n));
        assert_same(rt, front.pages, before.pages.saturating_add(1));
        stays_in_images(rt, alloc, disk, geo, &before);
        is_there(rt, alloc, disk, geo, &front, guide, before.entries);
    }
}

#[test]
fn the_closed_pages_of_a_run_of_a_hundred(rt: HostRuntime) {
    let geo = smallest(&rt);
    let mut disk = blank(&rt, rt.alloc(), &geo, 2_000_000);
    let mut space = free_map(&rt, rt.alloc(), &geo);
    let mut guide = empty_guide(&rt, rt.alloc());
    let mut writer = Writer::start(Role::new(1));
    'entries: for n in 0..1_300u32 {
        push_one(
            &rt,
            rt.alloc(),
            &mut writer,
            &mut disk,
            &geo,
            &mut space,
            &mut guide,
            n,
        );
    }
    assert_that(&rt, writer.closed().pages >= 100);
}

// The filter and the fences of a front, with room for some pages more.
fn roomy_guide(
    rt: &impl Abort,
    alloc: Global,
    disk: &mut MemDisk,
    geo: &Geometry,
    front: &Component,
) -> Guide
    requires { length (told disk.old).bytes ≡ file_length geo.now }
    ensures { length (told disk.new).bytes ≡ file_length geo.now }
{
    let mut filter = Filter::with_bits(alloc, front.weight).expect(rt, "memory");
    let mut fences = Fences::reserve(alloc, front.pages.saturating_add(9)).expect(rt, "memory");
    let made = rebuild(disk, geo, front, front.weight, &mut filter, &mut fences);
    assert_same(rt, made, Ok(()));
    Guide { filter, fences }
}

// The writer of a run that goes on behind this front with this page.
fn resume(rt: &impl Abort, geo: &Geometry, front: &Component, page: u32) -> Writer
    ensures { IsInside (page_count geo.now) result }
{
    let pages = u64::from(front.pages);
    assert!(rt; u64::from(page) < geo.pages());
    assert!(rt; pages < 1_000);
    assert!(rt; front.entries <= front.weight);
    assert!(rt; 3_577 * pages <= front.weight);
    assert!(rt; front.weight <= 4_088 * pages);
    Writer::resume(Role::new(1), front, page)
}

// A run of so many entries is left. Behind its closed pages it is taken up, and becomes what it was; its fences have the page that was begun anew.
fn is_taken_up(rt: &impl Abort, alloc: Global, count: u32) {
    let geo = smallest(rt);
    let mut disk = blank(rt, alloc, &geo, 2_000_000);
    let mut space = free_map(rt, alloc, &geo);
    let mut guide = empty_guide(rt, alloc);
    let mut left = Writer::start(Role::new(1));
    'entries: for n in 0..count {
        push_one(
            rt, alloc, &mut left, &mut disk, &geo, &mut space, &mut guide, n,
        );
    }
    let front = left.closed();
    let mut guide = roomy_guide(rt, alloc, &mut disk, &geo, &front);
    let mut writer = resume(rt, &geo, &front, left.next());
    assert_same(rt, writer.closed(), front);
    'again: for n in number_of(rt, front.entries) / 2..count {
        push_one(
            rt,
            alloc,
            &mut writer,
            &mut disk,
            &geo,
            &mut space,
            &mut guide,
            n,
        );
    }
    let run = left.component();
    assert_same(rt, writer.component(), run);
    assert_same(rt, writer.next(), left.next());
    assert_same(rt, writer.end(&mut disk, &geo), Ok(run));
    'keys: for n in 0..count.saturating_mul(2) {
        finds(rt, &mut disk, &geo, &run, &guide, n, n % 2 == 0);
    }
}

// With one entry on the open page, with more, and behind many pages.
#[test]
fn a_run_is_taken_up_behind_its_closed_pages(rt: HostRuntime) {
    for &count in &[12, 40, 200] {
        is_taken_up(&rt, rt.alloc(), count);
    }
}
