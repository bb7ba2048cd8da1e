// Components of the smallest store, whose pages are written byte by byte on a disk in memory.
ghost use Rattle.std.specs.Prelude.{◌≡◌, length};
ghost use Rattle.blsm_model.specs.Components.{empty_component};
ghost use Rattle.blsm_model.specs.Geometry.{file_length};
ghost use Rattle.disk_mem.specs.Recorded.{told};

use crate::asserts::{assert_same, assert_same_at, assert_that};
use crate::drafts::Draft;
use crate::samples::{FIRST_PAGE, Guide, NO_PAGE, blank, fail, guide_of, smallest};
use blsm_model::{Component, Geometry, Key, Text, Value};
use disk_mem::MemDisk;
use disk_trait::Disk;
use page_file::{Broken, PAGE_LEN, no_component, write_page};
use record_delta::{Rec, Stream};
use run_cursor::{Cursor, find, what_is_ahead};
use std::alloc::Global;
use std::process::Abort;

// A key of 64 bytes, all k but the last two, which are the number's.
fn key_bytes(number: u16) -> [u8; 64] {
    let mut key = [b'k'; 64];
    key[62..].copy_from_slice(&number.to_be_bytes());
    key
}

fn key(rt: &impl Abort, bytes: &[u8]) -> Key {
    Key::from_bytes(bytes).expect(rt, "a key")
}

// A base of 512 bytes with its key.
fn base(rt: &impl Abort, count: u64) -> Rec {
    Rec::Base(Value {
        count,
        text: Text::from_bytes(&[b't'; 435]).expect(rt, "a text"),
    })
}

// Seven bases of 512 bytes each, with the keys of twice their numbers, from this one on: enough for a next page.
fn seven(rt: &impl Abort, first: u16) -> Draft {
    let mut draft = Draft::new();
    for i in 0..7u16 {
        draft.entry(
            rt,
            1,
            &key_bytes(first.saturating_add(i).saturating_mul(2)),
            &[b't'; 435],
            u64::from(i),
        );
    }
    draft
}

fn write(rt: &impl Abort, disk: &mut MemDisk, geo: &Geometry, n: u32, page: &[u8; PAGE_LEN])
    requires { length (told disk.old).bytes ≡ file_length geo.now }
    ensures { length (told disk.new).bytes ≡ file_length geo.now }
{
    assert!(rt; u64::from(n) < geo.pages());
    assert_that(rt, write_page(disk, geo, n, page).is_ok());
}

// The component of three pages, 5, 2 and 9, with 15 entries: seven, seven and one.
const THREE: Component = Component {
    first: 5,
    pages: 3,
    entries: 15,
    weight: 7_182,
};

fn last_page(rt: &impl Abort) -> Draft {
    let mut draft = Draft::new();
    draft.entry(rt, 3, b"l", b"", 0);
    draft
}

fn write_three(rt: &impl Abort, disk: &mut MemDisk, geo: &Geometry)
    requires { length (told disk.old).bytes ≡ file_length geo.now }
    ensures { length (told disk.new).bytes ≡ file_length geo.now }
{
    write(rt, disk, geo, 5, &seven(rt, 0).page(rt, 2));
    write(rt, disk, geo, 2, &seven(rt, 7).page(rt, 9));
    write(rt, disk, geo, 9, &last_page(rt).page(rt, NO_PAGE));
}

// A disk with the three pages.
fn disk_of_three(rt: &impl Abort, alloc: Global, geo: &Geometry) -> MemDisk
    ensures { length (told result).bytes ≡ file_length geo.now }
{
    let mut disk = blank(rt, alloc, geo, 200_000);
    write_three(rt, &mut disk, geo);
    disk
}

// The entry of this place in the three pages.
fn entry_of(rt: &impl Abort, place: u16) -> (Key, Rec) {
    if place == 14 {
        return (key(rt, b"l"), Rec::Tomb);
    }
    let bytes = key_bytes(place.saturating_mul(2));
    (key(rt, &bytes), base(rt, u64::from(place % 7)))
}

// The cursor goes on to this, with so many entries left.
fn goes_on(
    rt: &impl Abort,
    disk: &mut MemDisk,
    geo: &Geometry,
    cursor: &mut Cursor,
    head: Option<(Key, Rec)>,
    left: u64,
)
    requires { length (told disk.old).bytes ≡ file_length geo.now }
    ensures { length (told disk.new).bytes ≡ file_length geo.now }
{
    assert_same(rt, cursor.advance(disk, geo), Ok(()));
    assert_same(rt, cursor.head(), head);
    assert_same(rt, cursor.left(), left);
}

#[test]
fn a_cursor_gives_the_entries_in_order(rt: HostRuntime) {
    let geo = smallest(&rt);
    let mut disk = disk_of_three(&rt, rt.alloc(), &geo);
    let mut cursor = Cursor::start(&THREE);
    assert_same(&rt, cursor.head(), None);
    assert_same(&rt, cursor.left(), 15);
    for place in 0..15u16 {
        let entry = entry_of(&rt, place);
        goes_on(
            &rt,
            &mut disk,
            &geo,
            &mut cursor,
            Some(entry),
            14 - u64::from(place),
        );
    }
    // At the end it stays, and reads nothing more.
    for _ in 0..2u8 {
        goes_on(&rt, &mut disk, &geo, &mut cursor, None, 0);
    }
}

// A lookup finds this of a key.
fn finds(
    rt: &impl Abort,
    disk: &mut MemDisk,
    geo: &Geometry,
    run: &Component,
    guide: &Guide,
    key: &Key,
    rec: Option<Rec>,
)
    requires length { length (told disk.old).bytes ≡ file_length geo.now }
    ensures { length (told disk.new).bytes ≡ file_length geo.now }
{
    assert_same(
        rt,
        find(disk, geo, run, &guide.filter, &guide.fences, key),
        Ok(rec),
    );
}

#[test]
fn an_empty_component(rt: HostRuntime) {
    let geo = smallest(&rt);
    let mut disk = blank(&rt, rt.alloc(), &geo, 200_000);
    let run = no_component();
    let mut cursor = Cursor::start(&run);
    assert_same(&rt, cursor.left(), 0);
    goes_on(&rt, &mut disk, &geo, &mut cursor, None, 0);
    let guide = guide_of(&rt, rt.alloc(), &mut disk, &geo, &run);
    finds(
        &rt,
        &mut disk,
        &geo,
        &run,
        &guide,
        &key(&rt, &key_bytes(0)),
        None,
    );
    part_is(&rt, &guide, &run, b"k", run);
    what_is_ahead();
}

#[test]
fn a_key_is_found_or_not(rt: HostRuntime) {
    let geo = smallest(&rt);
    let mut disk = disk_of_three(&rt, rt.alloc(), &geo);
    let guide = guide_of(&rt, rt.alloc(), &mut disk, &geo, &THREE);
    for place in 0..15u16 {
        let (key, rec) = entry_of(&rt, place);
        finds(&rt, &mut disk, &geo, &THREE, &guide, &key, Some(rec));
    }
    for place in 0..14u16 {
        let between = key_bytes(place.saturating_mul(2).saturating_add(1));
        finds(
            &rt,
            &mut disk,
            &geo,
            &THREE,
            &guide,
            &key(&rt, &between),
            None,
        );
    }
    for absent in [b"a".as_slice(), b"kz", b"ll", b"m"] {
        finds(
            &rt,
            &mut disk,
            &geo,
            &THREE,
            &guide,
            &key(&rt, absent),
            None,
        );
    }
}

// A component of one page.
#[test]
fn one_page(rt: HostRuntime) {
    let geo = smallest(&rt);
    let mut disk = blank(&rt, rt.alloc(), &geo, 200_000);
    let page = last_page(&rt).page(&rt, NO_PAGE);
    write(&rt, &mut disk, &geo, 797, &page);
    let run = Component {
        first: 797,
        pages: 1,
        entries: 1,
        weight: 14,
    };
    let (last, tomb) = entry_of(&rt, 14);
    let guide = guide_of(&rt, rt.alloc(), &mut disk, &geo, &run);
    finds(&rt, &mut disk, &geo, &run, &guide, &last, Some(tomb));
    finds(
        &rt,
        &mut disk,
        &geo,
        &run,
        &guide,
        &key(&rt, &key_bytes(0)),
        None,
    );
    part_is(&rt, &guide, &run, b"k", run);
    part_is(&rt, &guide, &run, b"m", run);
}

// The part of a component that may have a key.
fn part_is(rt: &impl Abort, guide: &Guide, run: &Component, name: &[u8], part: Component) {
    assert_same(rt, guide.fences.part_from(&key(rt, name), run), part);
}

// The part that may have the key of this number.
fn part_at(rt: &impl Abort, guide: &Guide, number: u16, part: Component) {
    part_is(rt, guide, &THREE, &key_bytes(number), part);
}

// The fences of a part's pages: so many, from this page on.
fn named_from(rt: &impl Abort, guide: &Guide, part: &Component, count: usize, first: u32) {
    let fences = guide.fences.last_of(&THREE, part);
    assert_same(rt, fences.len(), count);
    match fences.first() {
        Some(fence) => assert_same(rt, fence.page, first),
        None => assert_same(rt, count, 0),
    }
}

// The three pages from the second one on, and the last one.
const TWO: Component = Component {
    first: 2,
    pages: 2,
    entries: 8,
    weight: 3_598,
};

const LAST: Component = Component {
    first: 9,
    pages: 1,
    entries: 1,
    weight: 14,
};

// Below the first key and at it, on the first page and between two, at a page's first key, and from the last one on. A component
// without pages has no part, whatever the fences are.
#[test]
fn the_part_that_may_have_a_key(rt: HostRuntime) {
    let geo = smallest(&rt);
    let mut disk = disk_of_three(&rt, rt.alloc(), &geo);
    let guide = guide_of(&rt, rt.alloc(), &mut disk, &geo, &THREE);
    part_is(&rt, &guide, &THREE, b"a", THREE);
    part_at(&rt, &guide, 0, THREE);
    part_at(&rt, &guide, 13, THREE);
    part_at(&rt, &guide, 14, TWO);
    part_at(&rt, &guide, 27, TWO);
    part_is(&rt, &guide, &THREE, b"l", LAST);
    part_is(&rt, &guide, &THREE, b"m", LAST);
    part_is(&rt, &guide, &no_component(), b"m", no_component());
    named_from(&rt, &guide, &THREE, 3, THREE.first);
    named_from(&rt, &guide, &TWO, 2, 2);
    named_from(&rt, &guide, &LAST, 1, 9);
    named_from(&rt, &guide, &no_component(), 0, 0);
    assert_same(&rt, walk(&rt, &mut disk, &geo, &TWO), (8, Ok(())));
    assert_same(&rt, walk(&rt, &mut disk, &geo, &LAST), (1, Ok(())));
}

// Bytes of a page that are changed, numbers of the component, which page is damaged then, and how many entries come before.
#[derive(Drop)]
struct Damage {
    page: u32,
    bytes: &'static [(u16, u8)],
    run: Component,
    damaged: u32,
    given: u64,
}

fn damages() -> [Damage; 20] {
    let bytes = |page, bytes, damaged, given| Damage {
        page,
        bytes,
        run: THREE,
        damaged,
        given,
    };
    let numbers = |run, damaged, given| Damage {
        page: 0,
        bytes: &[],
        run,
        damaged,
        given,
    };
    [
        // No entries, 4,089 bytes of them.
        bytes(2, &[(1, 0)], 2, 7),
        bytes(9, &[(2, 0x0f), (3, 0xf9)], 9, 14),
        // The next page: itself, the first one, one behind the last of the store, none.
        bytes(2, &[(7, 2)], 2, 14),
        bytes(2, &[(7, 5)], 5, 14),
        bytes(5, &[(6, 3), (7, 0x1e)], 5, 0),
        bytes(5, &[(4, 0xff), (5, 0xff), (6, 0xff), (7, 0xff)], 5, 0),
        // A byte behind the entries; an entry of kind 0.
        bytes(9, &[(22, 1)], 9, 14),
        bytes(5, &[(8, 0)], 5, 0),
        // Keys that fall, on a page and over its end; the same key on both sides.
        bytes(2, &[(596, 13)], 2, 7),
        bytes(9, &[(21, b'a')], 9, 14),
        bytes(2, &[(84, 12)], 2, 7),
        // A weight of one more and of one less; an entry more and one less.
        numbers(
            Component {
                weight: 7_183,
                ..THREE
            },
            9,
            14,
        ),
        numbers(
            Component {
                weight: 7_181,
                ..THREE
            },
            9,
            14,
        ),
        numbers(
            Component {
                entries: 16,
                ..THREE
            },
            9,
            14,
        ),
        numbers(
            Component {
                entries: 14,
                ..THREE
            },
            9,
            14,
        ),
        // Fewer than are on the first page, and a page less and one more.
        numbers(
            Component {
                entries: 6,
                ..THREE
            },
            5,
            0,
        ),
        numbers(Component { pages: 2, ..THREE }, 2, 7),
        numbers(Component { pages: 4, ..THREE }, 5, 0),
        // A first page that the store doesn't have, and one that is zeros.
        numbers(
            Component {
                first: 798,
                ..THREE
            },
            798,
            0,
        ),
        numbers(
            Component {
                first: 797,
                ..THREE
            },
            797,
            0,
        ),
    ]
}

// How many entries a cursor gives before it tells of damage, and what it tells. It stays where it was.
fn walk(
    rt: &impl Abort,
    disk: &mut MemDisk,
    geo: &Geometry,
    run: &Component,
) -> (u64, Result<(), Broken>)
    requires { length (told disk.old).bytes ≡ file_length geo.now }
    ensures { length (told disk.new).bytes ≡ file_length geo.now }
{
    assert!(rt; run.pages > 0);
    let mut cursor = Cursor::start(run);
    for given in 0..20u64 {
        let head = cursor.head();
        let left = cursor.left();
        let outcome = cursor.advance(disk, geo);
        if outcome.is_err() {
            assert_same(rt, cursor.head(), head);
            assert_same(rt, cursor.left(), left);
            return (given, outcome);
        }
        if cursor.head().is_none() {
            return (given, outcome);
        }
    }
    (20, Ok(()))
}

// Changes bytes of a page.
fn change(rt: &impl Abort, disk: &mut MemDisk, geo: &Geometry, n: u32, bytes: &[(u16, u8)])
    requires { length (told disk.old).bytes ≡ file_length geo.now }
    ensures { length (told disk.new).bytes ≡ file_length geo.now }
{
    let mut page = [0; PAGE_LEN];
    assert!(rt; u64::from(n) < geo.pages());
    let at = FIRST_PAGE + 4_096 * u64::from(n);
    assert_same(rt, disk.read(at, &mut page), Ok(()));
    for (at, byte) in bytes {
        assert!(rt; (*at as usize) < PAGE_LEN);
        page[*at as usize] = *byte;
    }
    write(rt, disk, geo, n, &page);
}

// What a lookup of this key answers.
fn answers(
    rt: &impl Abort,
    disk: &mut MemDisk,
    geo: &Geometry,
    guide: &Guide,
    name: &Key,
    expected: Result<Option<Rec>, Broken>,
)
    requires { length (told disk.old).bytes ≡ file_length geo.now }
    ensures { length (told disk.new).bytes ≡ file_length geo.now }
{
    assert_same(
        rt,
        find(disk, geo, &THREE, &guide.filter, &guide.fences, name),
        expected,
    );
}

// The cursor stops at the damage.
fn is_damaged(rt: &impl Abort, disk: &mut MemDisk, geo: &Geometry, damage: &Damage)
    requires { length (told disk.old).bytes ≡ file_length geo.now }
{
    let broken = Broken::Damaged(damage.damaged);
    assert_same_at(
        rt,
        walk(rt, disk, geo, &damage.run),
        (damage.given, Err(broken)),
        (damage.page, damage.bytes, damage.run),
    );
}

#[test]
fn damage_names_the_page(rt: HostRuntime) {
    let geo = smallest(&rt);
    for damage in &damages() {
        let mut disk = disk_of_three(&rt, rt.alloc(), &geo);
        change(&rt, &mut disk, &geo, damage.page, damage.bytes);
        is_damaged(&rt, &mut disk, &geo, damage);
    }
}

// Changes each of the three pages: the first one's next page is itself, the second has no entries, and behind the last
// one's is a byte.
fn change_each(rt: &impl Abort, disk: &mut MemDisk, geo: &Geometry)
    requires { length (told disk.old).bytes ≡ file_length geo.now }
    ensures { length (told disk.new).bytes ≡ file_length geo.now }
{
    change(rt, disk, geo, 5, &[(7, 5)]);
    change(rt, disk, geo, 2, &[(1, 0)]);
    change(rt, disk, geo, 9, &[(22, 1)]);
}

// What a lookup of the key of this place answers, whose page is a valid one, or isn't.
fn answers_at(
    rt: &impl Abort,
    disk: &mut MemDisk,
    geo: &Geometry,
    guide: &Guide,
    place: u16,
    damaged: Option<u32>,
)
    requires { length (told disk.old).bytes ≡ file_length geo.now }
    ensures { length (told disk.new).bytes ≡ file_length geo.now }
{
    let (name, rec) = entry_of(rt, place);
    let expected = match damaged {
        Some(page) => Err(Broken::Damaged(page)),
        None => Ok(Some(rec)),
    };
    answers(rt, disk, geo, guide, &name, expected);
}

// A lookup names the page of its fence, where that isn't a valid one. It doesn't mind another page, nor one that doesn't go on.
#[test]
fn a_lookup_names_its_page(rt: HostRuntime) {
    let geo = smallest(&rt);
    let mut disk = disk_of_three(&rt, rt.alloc(), &geo);
    let guide = guide_of(&rt, rt.alloc(), &mut disk, &geo, &THREE);
    change_each(&rt, &mut disk, &geo);
    answers_at(&rt, &mut disk, &geo, &guide, 0, None);
    answers_at(&rt, &mut disk, &geo, &guide, 6, None);
    answers_at(&rt, &mut disk, &geo, &guide, 7, Some(2));
    answers_at(&rt, &mut disk, &geo, &guide, 13, Some(2));
    answers_at(&rt, &mut disk, &geo, &guide, 14, Some(9));
}

// The second read of a page fails. The cursor stays at the seventh entry, and goes on from there.
#[test]
fn a_fault_leaves_the_cursor(rt: HostRuntime) {
    let geo = smallest(&rt);
    let mut disk = disk_of_three(&rt, rt.alloc(), &geo);
    let guide = guide_of(&rt, rt.alloc(), &mut disk, &geo, &THREE);
    fail(&rt, &mut disk, 10);
    fail(&rt, &mut disk, 14);
    assert_same(
        &rt,
        walk(&rt, &mut disk, &geo, &THREE),
        (7, Err(Broken::Fault)),
    );
    assert_same(&rt, disk.faults(), 1);
    assert_same(&rt, walk(&rt, &mut disk, &geo, &THREE), (15, Ok(())));
    answers(
        &rt,
        &mut disk,
        &geo,
        &guide,
        &key(&rt, b"l"),
        Err(Broken::Fault),
    );
    assert_same(&rt, disk.faults(), 2);
}
