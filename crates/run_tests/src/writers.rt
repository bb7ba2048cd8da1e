// Runs of the smallest store, over disks in memory, read back page by page.
ghost use Rattle.page_file.specs.Component.{HasList};
ghost use Rattle.std.specs.Prelude.{◌≡◌, ◌≤◌, ◌<◌, length, IfOk, IsTrue};
ghost use Rattle.record_delta.specs.declared.record.Rec.{Rec};
ghost use Rattle.blsm_model.specs.declared.key.Key.{Key};
ghost use Rattle.blsm_model.specs.Geometry.{page_count, file_length};
ghost use Rattle.bloom_bits.specs.Filter.{rounded};
ghost use Rattle.bloom_bits.specs.Guides.{Guide as RunGuide};
ghost use Rattle.disk_mem.specs.Recorded.{told};
ghost use Rattle.page_file.specs.Entry.{AreRising};
ghost use Rattle.run_writer.specs.Writer.{IsInside};

use crate::asserts::{assert_same, assert_same_at, assert_that, assert_that_at};
use crate::samples::{Guide, NO_PAGE, blank, empty_guide, fail, free_map, push_entry, smallest};
use bloom_bits::{Fences, Filter};
use blsm_model::{Component, Geometry, Key, Text, Value};
use disk_mem::MemDisk;
use disk_trait::Disk;
use entry_codec::encode;
use page_file::{Broken, PAGE_HEAD_LEN, PAGE_LEN, PageHead, read_page};
use page_space::{Role, Space};
use record_delta::{Rec, weight};
use refusal::Failed;
use run_writer::Writer;
use std::alloc::Global;
use std::process::Abort;

// The lengths of an entry's key, at least 4, and of its text, at most 435.
#[derive(Clone, Copy)]
struct Lengths {
    key: u8,
    text: u16,
}

// The key of a number, of so many bytes.
fn key(rt: &impl Abort, n: u32, len: u8) -> Key {
    let mut bytes = [b'k'; Key::MAX_LEN];
    let len = len as usize;
    assert!(rt; 4 <= len && len <= bytes.len());
    bytes[len - 4..len].copy_from_slice(&n.to_be_bytes());
    let Some(key) = Key::from_bytes(&bytes[..len]) else {
        rt.abort()
    };
    key
}

// The base of a number, whose text has so many bytes.
fn base(rt: &impl Abort, n: u32, len: u16) -> Rec {
    let bytes = [b't'; Text::MAX_LEN];
    let len = len as usize;
    assert!(rt; len <= bytes.len());
    let Some(text) = Text::from_bytes(&bytes[..len]) else {
        rt.abort()
    };
    Rec::Base(Value {
        count: u64::from(n),
        text,
    })
}

// Pushes the entry of a number.
fn push(
    rt: &impl Abort,
    writer: &mut Writer,
    disk: &mut MemDisk,
    geo: &Geometry,
    space: &mut Space,
    guide: &mut Guide,
    n: u32,
    lengths: Lengths,
) -> Result<(), Failed>
    requires inside { IsInside (page_count geo.now) writer.old }
    requires length { length (told disk.old).bytes ≡ file_length geo.now }
    ensures inside { IsInside (page_count geo.now) writer.new }
    ensures length { length (told disk.new).bytes ≡ file_length geo.now }
{
    let key = key(rt, n, lengths.key);
    let rec = base(rt, n, lengths.text);
    push_entry(rt, writer, disk, geo, space, guide, &key, &rec)
}

// Pushes the entry of a number, which doesn't fail.
fn push_one(
    rt: &impl Abort,
    writer: &mut Writer,
    disk: &mut MemDisk,
    geo: &Geometry,
    space: &mut Space,
    guide: &mut Guide,
    n: u32,
    lengths: Lengths,
)
    requires inside { IsInside (page_count geo.now) writer.old }
    requires length { length (told disk.old).bytes ≡ file_length geo.now }
    ensures inside { IsInside (page_count geo.now) writer.new }
    ensures length { length (told disk.new).bytes ≡ file_length geo.now }
{
    assert_that(
        rt,
        push(rt, writer, disk, geo, space, guide, n, lengths).is_ok(),
    );
}

// Pushes the entries of the first numbers.
fn push_all(
    rt: &impl Abort,
    writer: &mut Writer,
    disk: &mut MemDisk,
    geo: &Geometry,
    space: &mut Space,
    guide: &mut Guide,
    count: u32,
    lengths: Lengths,
)
    requires inside { IsInside (page_count geo.now) writer.old }
    requires length { length (told disk.old).bytes ≡ file_length geo.now }
    ensures inside { IsInside (page_count geo.now) writer.new }
    ensures length { length (told disk.new).bytes ≡ file_length geo.now }
{
    for n in 0..count {
        push_one(rt, writer, disk, geo, space, guide, n, lengths);
    }
}

// Writes a list as a run: what the clauses say of one push, and of the end, makes the component that reads as the list, with its filter and its
// fences. It gives up where no page is free, or no room is for a fence.
fn write_all<D: Disk>(
    disk: &mut D,
    geo: &Geometry,
    space: &mut Space,
    role: Role,
    filter: &mut Filter,
    fences: &mut Fences,
    entries: &[(Key, Rec)],
) -> Result<Component, Failed>
    requires pages { space.old.pages ≡ page_count geo.now }
    requires rise { AreRising entries.now }
    requires bits { rounded 0 ≤ filter.old.reserved }
    requires length { IsTrue (D.state disk.old).tells_bytes → length (D.state disk.old).bytes ≡ file_length geo.now }
    ensures list { IfOk result (λ c. IsTrue (D.state disk.old).is_honest → (list : HasList geo.now c entries.now (D.state disk.new).bytes) × RunGuide filter.new fences.new list.pages) }
{
    filter.reset(0);
    fences.clear();
    let mut writer = Writer::start(role);
    for entry in entries {
        let _pages = space.pages();
        if !space.has_free() || !fences.takes(&entry.0) {
            return Err(Failed);
        }
        writer.push(disk, geo, space, filter, fences, &entry.0, &entry.1)?;
    }
    writer.end(disk, geo)
}

// Whether page n is the page of the entries of these numbers, with this next page.
fn is_page_of(
    rt: &impl Abort,
    disk: &mut MemDisk,
    geo: &Geometry,
    n: u32,
    from: u32,
    to: u32,
    lengths: Lengths,
    next: Option<u32>,
) -> bool
    requires { length (told disk.old).bytes ≡ file_length geo.now }
    ensures { length (told disk.new).bytes ≡ file_length geo.now }
{
    assert!(rt; u64::from(n) < geo.pages());
    let mut page = [0xee; PAGE_LEN];
    if read_page(disk, geo, n, &mut page) != Ok(()) {
        return false;
    }
    let (used, same) = has_entries(rt, &page, from, to, lengths);
    assert!(rt; from <= to && to - from <= 1_000);
    let count = (to - from) as u16;
    same && PageHead::read(&page) == PageHead { count, used, next }
}

// How many bytes the entries of these numbers have, and whether the page has them.
fn has_entries(
    rt: &impl Abort,
    page: &[u8; PAGE_LEN],
    from: u32,
    to: u32,
    lengths: Lengths,
) -> (u16, bool) {
    let mut at = PAGE_HEAD_LEN;
    let mut same = true;
    for n in from..to {
        let mut entry = [0; 512];
        let len = encode(
            &key(rt, n, lengths.key),
            &base(rt, n, lengths.text),
            &mut entry,
        );
        assert!(rt; at <= PAGE_LEN && len <= PAGE_LEN - at);
        assert!(rt; len <= entry.len());
        same &= page[at..at + len] == entry[..len];
        at += len;
    }
    assert!(rt; PAGE_HEAD_LEN <= at && at <= PAGE_LEN);
    ((at - PAGE_HEAD_LEN) as u16, same)
}

// Writes a run of entries, by their lengths.
fn write_run(
    rt: &impl Abort,
    alloc: Global,
    disk: &mut MemDisk,
    geo: &Geometry,
    lengths: Lengths,
    count: u32,
) -> Component
    requires { length (told disk.old).bytes ≡ file_length geo.now }
    ensures { length (told disk.new).bytes ≡ file_length geo.now }
{
    let mut space = free_map(rt, alloc, geo);
    let mut writer = Writer::start(Role::new(3));
    let mut guide = empty_guide(rt, alloc);
    push_all(
        rt,
        &mut writer,
        disk,
        geo,
        &mut space,
        &mut guide,
        count,
        lengths,
    );
    writer.end(disk, geo).expect(rt, "a run")
}

// A run of entries, by their lengths, in pages of so many entries each, from page 0 on.
fn check_run(
    rt: &impl Abort,
    alloc: Global,
    lengths: Lengths,
    count: u32,
    per_page: u32,
) -> Component {
    let geo = smallest(rt);
    let mut disk = blank(rt, alloc, &geo, 2_000_000);
    let component = write_run(rt, alloc, &mut disk, &geo, lengths, count);
    let mut from = 0;
    for n in 0..component.pages {
        let is_last = n + 1 == component.pages;
        let to = count.min(u32::saturating_add(from, per_page));
        let next = if is_last { None } else { Some(n + 1) };
        assert_that_at(
            rt,
            is_page_of(rt, &mut disk, &geo, n, from, to, lengths, next),
            n,
        );
        from = to;
    }
    assert_same(rt, from, count);
    component
}

#[test]
fn a_run_of_2000_entries(rt: HostRuntime) {
    let lengths = Lengths { key: 4, text: 432 };
    let component = check_run(&rt, rt.alloc(), lengths, 2_000, 9);
    // 222 pages of 9 entries, and one of 2.
    assert_same(
        &rt,
        component,
        Component {
            first: 0,
            pages: 223,
            entries: 2_000,
            weight: 898_000,
        },
    );
}

// A page is closed where the next entry doesn't fit into 4,088 bytes: 8 entries of 511 bytes fill it.
#[test]
fn a_page_is_closed_where_the_next_entry_does_not_fit(rt: HostRuntime) {
    const ROWS: [(u8, u16, u32, u32, u32); 6] = [
        (64, 434, 8, 8, 1),
        (64, 434, 9, 8, 2),
        (64, 435, 7, 7, 1),
        (64, 435, 8, 7, 2),
        (4, 0, 240, 240, 1),
        (4, 0, 241, 240, 2),
    ];
    for &(key, text, count, per_page, pages) in &ROWS {
        let component = check_run(&rt, rt.alloc(), Lengths { key, text }, count, per_page);
        assert_same_at(&rt, component.pages, pages, (count, text));
    }
}

// The run of no entry takes no page.
fn end_none(rt: &impl Abort, writer: &mut Writer, disk: &mut MemDisk, geo: &Geometry)
    requires inside { IsInside (page_count geo.now) writer.old }
    requires length { length (told disk.old).bytes ≡ file_length geo.now }
    ensures inside { IsInside (page_count geo.now) writer.new }
    ensures length { length (told disk.new).bytes ≡ file_length geo.now }
{
    let none = Component {
        first: NO_PAGE,
        pages: 0,
        entries: 0,
        weight: 0,
    };
    assert_same(rt, writer.component(), none);
    assert_same(rt, writer.end(disk, geo), Ok(none));
}

fn is_no_page(rt: &impl Abort, disk: &mut MemDisk, geo: &Geometry, space: &mut Space)
    requires { length (told disk.old).bytes ≡ file_length geo.now }
    ensures { length (told disk.new).bytes ≡ file_length geo.now }
{
    let mut page = [0; PAGE_LEN];
    assert!(rt; 0 < geo.pages());
    assert_same(
        rt,
        read_page(disk, geo, 0, &mut page),
        Err(Broken::Damaged(0)),
    );
    least_is(rt, space, 0);
}

// The least free page.
fn least_is(rt: &impl Abort, space: &mut Space, page: u32) {
    assert!(rt; space.has_free());
    assert_same(rt, space.take(), page);
}

// The run of one entry of 25 bytes ends.
fn end_one(rt: &impl Abort, writer: &mut Writer, disk: &mut MemDisk, geo: &Geometry)
    requires inside { IsInside (page_count geo.now) writer.old }
    requires length { length (told disk.old).bytes ≡ file_length geo.now }
    ensures length { length (told disk.new).bytes ≡ file_length geo.now }
{
    let one = Component {
        first: 0,
        pages: 1,
        entries: 1,
        weight: 25,
    };
    assert_same(rt, weight(&key(rt, 1, 5), &base(rt, 1, 7)), 25);
    assert_same(rt, writer.end(disk, geo), Ok(one));
}

#[test]
fn runs_of_no_entry_and_of_one(rt: HostRuntime) {
    let geo = smallest(&rt);
    let mut disk = blank(&rt, rt.alloc(), &geo, 20_000);
    let mut space = free_map(&rt, rt.alloc(), &geo);
    let mut writer = Writer::start(Role::new(0));
    end_none(&rt, &mut writer, &mut disk, &geo);
    is_no_page(&rt, &mut disk, &geo, &mut space);
    let lengths = Lengths { key: 5, text: 7 };
    let mut guide = empty_guide(&rt, rt.alloc());
    push_one(
        &rt,
        &mut writer,
        &mut disk,
        &geo,
        &mut space,
        &mut guide,
        1,
        lengths,
    );
    // It is on the disk only once the run has ended.
    assert_that(
        &rt,
        !is_page_of(&rt, &mut disk, &geo, 0, 1, 2, lengths, None),
    );
    end_one(&rt, &mut writer, &mut disk, &geo);
    assert_that(
        &rt,
        is_page_of(&rt, &mut disk, &geo, 0, 1, 2, lengths, None),
    );
}

// A map of which another role has pages 0 and 2.
fn map_of_two(rt: &impl Abort, alloc: Global, geo: &Geometry) -> Space {
    let mut space = free_map(rt, alloc, geo);
    assert!(rt; 2 < space.pages());
    space.claim(Role::new(0), 0);
    assert!(rt; 2 < space.pages());
    space.claim(Role::new(0), 2);
    space
}

// Pages 0 and 2 are another role's.
#[test]
fn the_least_free_pages_are_taken(rt: HostRuntime) {
    let geo = smallest(&rt);
    let mut disk = blank(&rt, rt.alloc(), &geo, 100_000);
    let mut space = map_of_two(&rt, rt.alloc(), &geo);
    let lengths = Lengths { key: 4, text: 432 };
    let mut writer = Writer::start(Role::new(4));
    let mut guide = empty_guide(&rt, rt.alloc());
    push_all(
        &rt,
        &mut writer,
        &mut disk,
        &geo,
        &mut space,
        &mut guide,
        20,
        lengths,
    );
    assert_that(&rt, writer.end(&mut disk, &geo).is_ok());
    assert_that(
        &rt,
        is_page_of(&rt, &mut disk, &geo, 1, 0, 9, lengths, Some(3)),
    );
    assert_that(
        &rt,
        is_page_of(&rt, &mut disk, &geo, 3, 9, 18, lengths, Some(4)),
    );
    assert_that(
        &rt,
        is_page_of(&rt, &mut disk, &geo, 4, 18, 20, lengths, None),
    );
    assert_that(
        &rt,
        !is_page_of(&rt, &mut disk, &geo, 2, 9, 18, lengths, Some(3)),
    );
    // They are its role's.
    space.release(Role::new(4));
    least_is(&rt, &mut space, 1);
}

// Two calls of a disk are to fail.
fn failing(rt: &impl Abort, alloc: Global, geo: &Geometry) -> MemDisk
    ensures { length (told result).bytes ≡ file_length geo.now }
{
    let mut disk = blank(rt, alloc, geo, 100_000);
    fail(rt, &mut disk, 3);
    fail(rt, &mut disk, 5);
    disk
}

// A push whose page's write fails leaves the component as it was.
fn push_fails(
    rt: &impl Abort,
    writer: &mut Writer,
    disk: &mut MemDisk,
    geo: &Geometry,
    space: &mut Space,
    guide: &mut Guide,
    lengths: Lengths,
)
    requires inside { IsInside (page_count geo.now) writer.old }
    requires length { length (told disk.old).bytes ≡ file_length geo.now }
    ensures inside { IsInside (page_count geo.now) writer.new }
    ensures length { length (told disk.new).bytes ≡ file_length geo.now }
{
    let before = writer.component();
    let outcome = push(rt, writer, disk, geo, space, guide, 9, lengths);
    assert_same(rt, outcome, Err(Failed));
    assert_same(rt, writer.component(), before);
    assert_same(rt, disk.faults(), 1);
}

// An end whose page's write fails may be tried again.
fn end_twice(rt: &impl Abort, writer: &mut Writer, disk: &mut MemDisk, geo: &Geometry)
    requires inside { IsInside (page_count geo.now) writer.old }
    requires length { length (told disk.old).bytes ≡ file_length geo.now }
    ensures length { length (told disk.new).bytes ≡ file_length geo.now }
{
    assert_same(rt, writer.end(disk, geo), Err(Failed));
    assert_same(rt, disk.faults(), 2);
    assert_that(rt, writer.end(disk, geo).is_ok());
}

// The third call, the first page's write, and the fifth, the last one's, fail.
#[test]
fn a_write_that_fails_is_told(rt: HostRuntime) {
    let geo = smallest(&rt);
    let mut disk = failing(&rt, rt.alloc(), &geo);
    let mut space = free_map(&rt, rt.alloc(), &geo);
    let lengths = Lengths { key: 4, text: 432 };
    let mut writer = Writer::start(Role::new(1));
    let mut guide = empty_guide(&rt, rt.alloc());
    push_all(
        &rt,
        &mut writer,
        &mut disk,
        &geo,
        &mut space,
        &mut guide,
        9,
        lengths,
    );
    push_fails(
        &rt,
        &mut writer,
        &mut disk,
        &geo,
        &mut space,
        &mut guide,
        lengths,
    );
    // The page that was taken stays claimed, so the next one is page 2.
    push_one(
        &rt,
        &mut writer,
        &mut disk,
        &geo,
        &mut space,
        &mut guide,
        9,
        lengths,
    );
    end_twice(&rt, &mut writer, &mut disk, &geo);
    assert_that(
        &rt,
        is_page_of(&rt, &mut disk, &geo, 0, 0, 9, lengths, Some(2)),
    );
    assert_that(
        &rt,
        is_page_of(&rt, &mut disk, &geo, 2, 9, 10, lengths, None),
    );
}

#[test]
fn a_list_of_one_entry(rt: HostRuntime) {
    let geo = smallest(&rt);
    let mut disk = blank(&rt, rt.alloc(), &geo, 20_000);
    let mut space = free_map(&rt, rt.alloc(), &geo);
    let entries = [(key(&rt, 1, 4), base(&rt, 1, 400))];
    let one = Component {
        first: 0,
        pages: 1,
        entries: 1,
        weight: 417,
    };
    let mut filter = Filter::with_bits(rt.alloc(), 64).expect(&rt, "memory");
    let mut fences = Fences::reserve(rt.alloc(), 1).expect(&rt, "memory");
    assert_same(
        &rt,
        write_all(
            &mut disk,
            &geo,
            &mut space,
            Role::new(2),
            &mut filter,
            &mut fences,
            &entries,
        ),
        Ok(one),
    );
    assert_that(&rt, filter.may(&entries[0].0));
    assert_same(&rt, fences.page_of(&entries[0].0), Some(0));
}
