// Pages of the smallest store, over disks in memory.
ghost use Rattle.std.specs.Prelude.{◌≡◌, ◌<◌, ◌+◌, length};
ghost use Rattle.blsm_model.specs.Geometry.{file_length};
ghost use Rattle.disk_mem.specs.Recorded.{told};

use crate::asserts::{assert_same, assert_same_at, assert_that};
use crate::drafts::Draft;
use crate::samples::{FIRST_PAGE, NO_PAGE, PAGES, blank, fail, smallest, validity, zeros};
use blsm_model::{Component, Geometry};
use disk_mem::{FaultlessDisk, MemDisk};
use disk_trait::Disk;
use page_file::{
    Broken, PAGE_LEN, PageHead, chains, no_component, one_component, one_order, one_page,
    pages_are_apart, read_page, what_stays, where_entries_stand, write_page,
};
use refusal::Failed;
use std::alloc::Global;
use std::process::Abort;

// A disk of the store's length, of zeros.
fn faultless(rt: &impl Abort, alloc: Global, geo: &Geometry) -> FaultlessDisk
    ensures { length result.bytes ≡ file_length geo.now }
{
    let zeros = zeros(rt, alloc, geo);
    let mut disk = FaultlessDisk::new(alloc, geo.length()).expect(rt, "memory");
    assert_that(rt, disk.write(0, zeros.as_slice()).is_ok());
    disk
}

// A page is read as these bytes. What is read of it.
fn found(
    rt: &impl Abort,
    disk: &mut FaultlessDisk,
    geo: &Geometry,
    n: u32,
    page: &[u8; PAGE_LEN],
) -> Result<(), Broken>
    requires { length disk.old.bytes ≡ file_length geo.now }
    ensures { length disk.new.bytes ≡ file_length geo.now }
{
    assert!(rt; u64::from(n) < geo.pages());
    let mut found = [0xee; PAGE_LEN];
    let outcome = read_page(disk, geo, n, &mut found);
    assert_that(rt, found == *page);
    outcome
}

// These bytes stand at a page's place in the file.
fn stands(rt: &impl Abort, disk: &mut FaultlessDisk, n: u32, page: &[u8; PAGE_LEN])
    ensures { length disk.new.bytes ≡ length disk.old.bytes }
{
    let mut found = [0xee; PAGE_LEN];
    let at = FIRST_PAGE + u64::from(n) * 4_096;
    assert_that(rt, disk.read(at, &mut found).is_ok());
    assert_that(rt, found == *page);
}

// Writes a page and reads it again: what is read of it, and that the same bytes are read, and at its place in the file.
fn written(
    rt: &impl Abort,
    disk: &mut FaultlessDisk,
    geo: &Geometry,
    n: u32,
    page: &[u8; PAGE_LEN],
) -> Result<(), Broken>
    requires { length disk.old.bytes ≡ file_length geo.now }
    ensures { length disk.new.bytes ≡ file_length geo.now }
{
    assert!(rt; u64::from(n) < geo.pages());
    assert_that(rt, write_page(disk, geo, n, page).is_ok());
    stands(rt, disk, n, page);
    found(rt, disk, geo, n, page)
}

// Two entries: a, a base of count 5 and text "hi", and b, a tombstone.
fn two_entries(rt: &impl Abort) -> [u8; PAGE_LEN] {
    let mut draft = Draft::new();
    draft.entry(rt, 1, b"a", b"hi", 5);
    draft.entry(rt, 3, b"b", b"", 0);
    draft.page(rt, NO_PAGE)
}

// Bytes that are changed, and whether the page is valid then.
#[derive(Drop)]
struct Change {
    bytes: &'static [(u16, u8)],
    is_valid: bool,
}

fn changes() -> [Change; 33] {
    let valid = |bytes| Change {
        bytes,
        is_valid: true,
    };
    let damaged = |bytes| Change {
        bytes,
        is_valid: false,
    };
    [
        valid(&[]),
        // The count: none, one less, one more, 256 more.
        damaged(&[(1, 0)]),
        damaged(&[(1, 1)]),
        damaged(&[(1, 3)]),
        damaged(&[(0, 1)]),
        // The bytes used: one less, one more, 4,088, 4,089, 65,535.
        damaged(&[(3, 29)]),
        damaged(&[(3, 31)]),
        damaged(&[(2, 0x0f), (3, 0xf8)]),
        damaged(&[(2, 0x0f), (3, 0xf9)]),
        damaged(&[(2, 0xff), (3, 0xff)]),
        // A next page, where this one isn't full.
        damaged(&[(4, 0), (5, 0), (6, 0), (7, 0)]),
        damaged(&[(7, 0xfe)]),
        // The first entry's kind: 0, 5; a delta with its tail, without one, a tombstone with a text.
        damaged(&[(8, 0)]),
        damaged(&[(8, 5)]),
        valid(&[(8, 4)]),
        damaged(&[(8, 2)]),
        damaged(&[(8, 3)]),
        // Its key's length: 0, and then another text; 65.
        damaged(&[(10, 0)]),
        damaged(&[(10, 0), (12, 3)]),
        damaged(&[(10, 65)]),
        // A text that takes the next entry in, and one of 436 bytes.
        damaged(&[(1, 1), (12, 17)]),
        valid(&[(1, 1), (12, 16)]),
        damaged(&[(11, 1), (12, 0xb4)]),
        // Other counts, and other bytes in the key and the text.
        valid(&[(13, 0xff), (20, 0)]),
        valid(&[(21, 0), (22, 0xff), (23, 0)]),
        // The second entry as a base and as a delta; with a count.
        valid(&[(24, 1), (29, 1)]),
        valid(&[(24, 2), (36, 1)]),
        damaged(&[(36, 1)]),
        damaged(&[(29, 1)]),
        // Its key below the first one, the same, above.
        damaged(&[(37, b'`')]),
        damaged(&[(37, b'a')]),
        // A byte behind the entries, and the last byte of the page.
        damaged(&[(38, 1)]),
        damaged(&[(4_095, 1)]),
    ]
}

// The page of two entries, with these bytes in place of its own.
fn changed(rt: &impl Abort, bytes: &[(u16, u8)]) -> [u8; PAGE_LEN] {
    let mut page = two_entries(rt);
    for (at, byte) in bytes {
        assert!(rt; (*at as usize) < PAGE_LEN);
        page[*at as usize] = *byte;
    }
    page
}

#[test]
fn each_byte_of_a_page_counts(rt: HostRuntime) {
    let geo = smallest(&rt);
    let mut disk = faultless(&rt, rt.alloc(), &geo);
    for change in &changes() {
        let page = changed(&rt, change.bytes);
        assert_same_at(
            &rt,
            written(&rt, &mut disk, &geo, 7, &page),
            validity(change.is_valid, 7),
            change.bytes,
        );
    }
}

// A page of one entry, by its kind and the lengths of its key, at most 65, and of its text, at most 436.
fn page_of(rt: &impl Abort, kind: u8, key_len: usize, text_len: usize) -> [u8; PAGE_LEN] {
    let mut draft = Draft::new();
    let key = [b'k'; 65];
    let text = [b't'; 436];
    assert!(rt; key_len <= 65);
    assert!(rt; text_len <= 436);
    draft.entry(rt, kind, &key[..key_len], &text[..text_len], 0);
    draft.page(rt, NO_PAGE)
}

// One entry, by the lengths of its key and of its text.
#[test]
fn an_entry_has_its_lengths(rt: HostRuntime) {
    let geo = smallest(&rt);
    let mut disk = faultless(&rt, rt.alloc(), &geo);
    const ROWS: [(u8, usize, usize, bool); 14] = [
        (1, 0, 0, false),
        (1, 1, 0, true),
        (1, 64, 0, true),
        (1, 65, 0, false),
        (1, 1, 435, true),
        (1, 1, 436, false),
        (1, 64, 435, true),
        (2, 64, 0, true),
        (2, 64, 1, false),
        (3, 64, 1, false),
        (4, 1, 0, false),
        (4, 1, 1, true),
        (4, 64, 64, true),
        (4, 1, 65, false),
    ];
    for &(kind, key_len, text_len, is_valid) in &ROWS {
        let page = page_of(&rt, kind, key_len, text_len);
        assert_same_at(
            &rt,
            written(&rt, &mut disk, &geo, 0, &page),
            validity(is_valid, 0),
            (kind, key_len, text_len),
        );
    }
}

// So many bytes of entries, 512 each and what is left in the last one, and a next page.
fn filled(rt: &impl Abort, used: u16, next: u32) -> [u8; PAGE_LEN] {
    let whole = used / 512;
    let mut draft = Draft::new();
    for i in 0..whole {
        draft.entry(rt, 1, &last_byte(i as u8), &[b't'; 435], u64::MAX);
    }
    let left = used % 512;
    assert!(rt; left >= 77);
    let text = [b't'; 435];
    draft.entry(rt, 1, &last_byte(u8::MAX), &text[..left as usize - 77], 0);
    draft.page(rt, next)
}

// A key of 64 bytes, with this last one.
fn last_byte(byte: u8) -> [u8; 64] {
    let mut key = [b'k'; 64];
    key[63] = byte;
    key
}

// A page's head says so.
fn has_head(rt: &impl Abort, page: &[u8; PAGE_LEN], count: u16, used: u16, next: u32) {
    let next = if next == NO_PAGE { None } else { Some(next) };
    assert_same(rt, PageHead::read(page), PageHead { count, used, next });
}

#[test]
fn a_page_with_a_next_one_is_full(rt: HostRuntime) {
    let geo = smallest(&rt);
    let mut disk = faultless(&rt, rt.alloc(), &geo);
    const ROWS: [(u16, u16, u32, bool); 9] = [
        (3_576, 7, NO_PAGE, true),
        (3_576, 7, 0, false),
        (3_577, 7, 0, true),
        (3_577, 7, NO_PAGE, true),
        (3_577, 7, PAGES - 1, true),
        (3_577, 7, PAGES, false),
        (3_577, 7, NO_PAGE - 1, false),
        (4_088, 8, 5, true),
        (4_088, 8, NO_PAGE, true),
    ];
    for &(used, count, next, is_valid) in &ROWS {
        let page = filled(&rt, used, next);
        assert_same_at(
            &rt,
            written(&rt, &mut disk, &geo, 5, &page),
            validity(is_valid, 5),
            (used, next),
        );
        has_head(&rt, &page, count, used, next);
    }
}

// Whether a page reads as zeros, which aren't a page.
fn is_blank(rt: &impl Abort, disk: &mut FaultlessDisk, geo: &Geometry, n: u32) -> bool
    requires { length disk.old.bytes ≡ file_length geo.now }
    ensures { length disk.new.bytes ≡ file_length geo.now }
{
    assert!(rt; u64::from(n) < geo.pages());
    let mut found = [0xee; PAGE_LEN];
    let outcome = read_page(disk, geo, n, &mut found);
    outcome == Err(Broken::Damaged(n)) && found == [0; PAGE_LEN]
}

// The first page, another and the last one. The pages beside them stay as they were.
#[test]
fn a_page_is_written_at_its_place(rt: HostRuntime) {
    let geo = smallest(&rt);
    assert_same(&rt, geo.pages(), u64::from(PAGES));
    let mut disk = faultless(&rt, rt.alloc(), &geo);
    let page = two_entries(&rt);
    assert_same(&rt, written(&rt, &mut disk, &geo, 0, &page), Ok(()));
    assert_same(&rt, written(&rt, &mut disk, &geo, 2, &page), Ok(()));
    assert_same(&rt, written(&rt, &mut disk, &geo, PAGES - 1, &page), Ok(()));
    assert_that(&rt, is_blank(&rt, &mut disk, &geo, 1));
    assert_that(&rt, is_blank(&rt, &mut disk, &geo, 3));
    assert_that(&rt, is_blank(&rt, &mut disk, &geo, PAGES - 2));
}

#[test]
fn laws_of_pages_are_called(rt: HostRuntime) {
    one_page();
    where_entries_stand();
    pages_are_apart();
    what_stays();
    one_order();
    one_component();
    chains();
    assert_same(
        &rt,
        no_component(),
        Component {
            first: NO_PAGE,
            pages: 0,
            entries: 0,
            weight: 0,
        },
    );
}

// Writes the page of two entries at page 1, and reads it. What came of both.
fn write_one(rt: &impl Abort, disk: &mut MemDisk, geo: &Geometry) -> Result<(), Failed>
    requires { length (told disk.old).bytes ≡ file_length geo.now }
    ensures { length (told disk.new).bytes ≡ file_length geo.now }
{
    assert!(rt; 1 < geo.pages());
    write_page(disk, geo, 1, &two_entries(rt))
}

fn read_one(rt: &impl Abort, disk: &mut MemDisk, geo: &Geometry) -> Result<(), Broken>
    requires { length (told disk.old).bytes ≡ file_length geo.now }
    ensures { length (told disk.new).bytes ≡ file_length geo.now }
{
    assert!(rt; 1 < geo.pages());
    let mut found = [0xee; PAGE_LEN];
    let outcome = read_page(disk, geo, 1, &mut found);
    assert_that(rt, outcome.is_err() || found == two_entries(rt));
    outcome
}

// The third call, a write, and the fifth, a read, fail. The fourth and the sixth don't.
#[test]
fn a_call_that_fails_is_told(rt: HostRuntime) {
    let geo = smallest(&rt);
    let mut disk = blank(&rt, rt.alloc(), &geo, 10_000);
    fail(&rt, &mut disk, 3);
    fail(&rt, &mut disk, 5);
    assert_same(&rt, write_one(&rt, &mut disk, &geo), Err(Failed));
    assert_same(&rt, disk.faults(), 1);
    assert_same(&rt, write_one(&rt, &mut disk, &geo), Ok(()));
    assert_same(&rt, read_one(&rt, &mut disk, &geo), Err(Broken::Fault));
    assert_same(&rt, disk.faults(), 2);
    assert_same(&rt, read_one(&rt, &mut disk, &geo), Ok(()));
    assert_same(&rt, disk.faults(), 2);
}

// What is read of page 0, and its 39th byte.
fn read_first(
    rt: &impl Abort,
    disk: &mut MemDisk,
    geo: &Geometry,
    expected: Result<(), Broken>,
    byte: u8,
)
    requires { length (told disk.old).bytes ≡ file_length geo.now }
    ensures { length (told disk.new).bytes ≡ file_length geo.now }
{
    let mut found = [0xee; PAGE_LEN];
    assert!(rt; 0 < geo.pages());
    assert_same(rt, read_page(disk, geo, 0, &mut found), expected);
    assert_same(rt, found[38], byte);
}

// A byte of the page changes by no call of the disk.
#[test]
fn a_page_that_changed_by_itself_is_damaged(rt: HostRuntime) {
    let geo = smallest(&rt);
    let mut disk = blank(&rt, rt.alloc(), &geo, 10_000);
    assert_that(
        &rt,
        disk.poke(5, FIRST_PAGE.saturating_add(38), b"\x01").is_ok(),
    );
    assert!(rt; 0 < geo.pages());
    assert_same(
        &rt,
        write_page(&mut disk, &geo, 0, &two_entries(&rt)),
        Ok(()),
    );
    read_first(&rt, &mut disk, &geo, Ok(()), 0);
    read_first(&rt, &mut disk, &geo, Err(Broken::Damaged(0)), 1);
}

// Whether a page reads so.
fn reads(rt: &impl Abort, disk: &mut MemDisk, geo: &Geometry, n: u32, page: &[u8; PAGE_LEN]) -> bool
    requires { length (told disk.old).bytes ≡ file_length geo.now }
    ensures { length (told disk.new).bytes ≡ file_length geo.now }
{
    assert!(rt; u64::from(n) < geo.pages());
    let mut found = [0xee; PAGE_LEN];
    read_page(disk, geo, n, &mut found) == Ok(()) && found == *page
}

// Pages 0 and 2 are written and durable, and page 1 is written.
fn write_pages(rt: &impl Abort, alloc: Global, geo: &Geometry, page: &[u8; PAGE_LEN]) -> MemDisk {
    let mut disk = blank(rt, alloc, geo, 20_000);
    assert!(rt; 2 < geo.pages());
    assert_same(rt, write_page(&mut disk, geo, 0, page), Ok(()));
    assert_same(rt, write_page(&mut disk, geo, 2, page), Ok(()));
    assert_that(rt, disk.sync().is_ok());
    assert_same(rt, write_page(&mut disk, geo, 1, page), Ok(()));
    disk
}

// An image has pages 0 and 2, and page 1 or not.
fn has_pages(
    rt: &impl Abort,
    disk: &MemDisk,
    geo: &Geometry,
    page: &[u8; PAGE_LEN],
    pick: u64,
    is_written: bool,
) {
    let mut image = disk.image(pick).expect(rt, "memory");
    assert_eq!(rt; image.len(), Ok(geo.length()));
    assert_that(rt, reads(rt, &mut image, geo, 0, page));
    assert_that(rt, reads(rt, &mut image, geo, 2, page));
    assert_same(rt, reads(rt, &mut image, geo, 1, page), is_written);
}

// A crash after page 1 was written leaves the pages beside it, and of page 1 nothing, its first 37 or 38 bytes, all, or zeros.
#[test]
fn a_crash_leaves_the_other_pages(rt: HostRuntime) {
    let geo = smallest(&rt);
    let page = two_entries(&rt);
    let disk = write_pages(&rt, rt.alloc(), &geo, &page);
    for (pick, is_written) in [
        (0, false),
        (37, false),
        (38, true),
        (4_096, true),
        (8_193, false),
    ] {
        has_pages(&rt, &disk, &geo, &page, pick, is_written);
    }
}
