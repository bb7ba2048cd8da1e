// Damage of the pages of components.
use crate::asserts::{assert_same, assert_that};
use crate::damage::{
    C1_AT, C1X_AT, C2_AT, check_damaged, check_opens, peek, poke, poke_component, slot_of,
};
use crate::rich::make_rich;
use crate::samples::long;
use crate::stores::{copy, made, open, report, smallest, work, write};
use blsm_model::{Component, Geometry};
use disk_mem::MemDisk;
use disk_trait::Disk;
use page_file::{PAGE_LEN, no_component};
use recover_open::Place;
use std::alloc::Global;
use std::process::Abort;
use tree_core::Core;

// Where in a page the number of its entries stands, that of their bytes, that of the next page, and the first entry.
const COUNT_AT: u64 = 0;

const USED_AT: u64 = 2;

const NEXT_AT: u64 = 4;

const ENTRIES_AT: u64 = 8;

// Where a page stands in the file.
fn page_at(geo: &Geometry, page: u32) -> u64 {
    let first = geo.half().saturating_mul(12).saturating_add(4_096);
    first.saturating_add(u64::from(page).saturating_mul(PAGE_LEN as u64))
}

// Writes bytes at a place of a page.
fn poke_page(
    rt: &impl Abort,
    disk: &mut MemDisk,
    geo: &Geometry,
    page: u32,
    at: u64,
    bytes: &[u8],
) {
    poke(rt, disk, page_at(geo, page).saturating_add(at), bytes);
}

/// Damages a page: it says that it has no entries.
pub fn spoil_page(rt: &impl Abort, disk: &mut MemDisk, geo: &Geometry, page: u32) {
    poke_page(rt, disk, geo, page, COUNT_AT, &[0, 0]);
}

// A store with these bytes at a place of a page is damaged there.
fn check_page(rt: &impl Abort, alloc: Global, disk: &MemDisk, page: u32, at: u64, bytes: &[u8]) {
    let mut damaged = copy(rt, disk);
    poke_page(rt, &mut damaged, &smallest(rt), page, at, bytes);
    check_damaged(rt, alloc, &damaged, Place::Page(page));
}

// How many bytes of entries a page has.
fn used_of(rt: &impl Abort, disk: &mut MemDisk, page: u32) -> u64 {
    let at = page_at(&smallest(rt), page).saturating_add(USED_AT);
    let high = u64::from(peek(rt, disk, at));
    let low = u64::from(peek(rt, disk, at.saturating_add(1)));
    high.saturating_mul(256).saturating_add(low)
}

// A page without entries, with too many bytes of them, with itself as the next one, one past the last as such, another byte behind the entries,
// or an entry of no kind.
fn check_page_rows(rt: &impl Abort, alloc: Global, disk: &MemDisk, page: u32) {
    let used = used_of(rt, &mut copy(rt, disk), page);
    check_page(rt, alloc, disk, page, COUNT_AT, &[0, 0]);
    check_page(rt, alloc, disk, page, USED_AT, &4_089u16.to_be_bytes());
    check_page(rt, alloc, disk, page, NEXT_AT, &page.to_be_bytes());
    check_page(
        rt,
        alloc,
        disk,
        page,
        NEXT_AT,
        &(u32::MAX - 1).to_be_bytes(),
    );
    check_page(rt, alloc, disk, page, ENTRIES_AT.saturating_add(used), &[1]);
    check_page(rt, alloc, disk, page, ENTRIES_AT, &[4]);
}

#[test]
fn a_page_of_another_form_is_damaged(rt: HostRuntime) {
    let alloc = rt.alloc();
    let mut disk = make_rich(&rt, alloc).disk;
    let found = report(&rt, alloc, &mut disk);
    for run in [found.c1, found.c1x, found.c2] {
        check_page_rows(&rt, alloc, &disk, run.first);
    }
}

// The least key of C2 has an empty text: the entry's kind alone tells it from a delta.
#[test]
fn a_delta_in_c2_is_damaged(rt: HostRuntime) {
    let alloc = rt.alloc();
    let mut disk = make_rich(&rt, alloc).disk;
    let found = report(&rt, alloc, &mut disk);
    check_page(&rt, alloc, &disk, found.c2.first, ENTRIES_AT, &[2]);
}

// C2 in the place of C1' too.
#[test]
fn a_page_of_two_components_is_damaged(rt: HostRuntime) {
    let alloc = rt.alloc();
    let mut disk = make_rich(&rt, alloc).disk;
    let found = report(&rt, alloc, &mut disk);
    let slot = slot_of(&rt, alloc, &disk);
    poke_component(&rt, &mut disk, slot.saturating_add(C1X_AT), &found.c2);
    check_damaged(&rt, alloc, &disk, Place::Page(found.c2.first));
}

// So many long puts, merged to C2.
fn fill(rt: &impl Abort, alloc: Global, core: &mut Core<MemDisk>, puts: usize) {
    for number in 0..puts {
        write(alloc, core, 0, long(rt, number, 1));
    }
    work(alloc, core, 40);
}

// A store with a C2 of three pages, and nothing else.
#[derive(Drop)]
struct Chain {
    disk: MemDisk,
    run: Component,
}

fn make_chain(rt: &impl Abort, alloc: Global) -> Chain {
    let mut core = open(rt, alloc, made(rt, alloc, &smallest(rt)));
    fill(rt, alloc, &mut core, 25);
    let (disk, _, _) = core.end();
    let mut disk = copy(rt, &disk);
    let found = report(rt, alloc, &mut disk);
    assert_same(rt, (found.c1, found.c1x), (no_component(), no_component()));
    assert_same(rt, (found.c2.pages, found.c2.entries), (3, 25));
    Chain {
        disk: copy(rt, &disk),
        run: found.c2,
    }
}

// The page that a page names as the next one.
fn next_of(rt: &impl Abort, disk: &mut MemDisk, page: u32) -> u32 {
    let mut bytes = [0; 4];
    let at = page_at(&smallest(rt), page).saturating_add(NEXT_AT);
    assert_that(rt, disk.read(at, &mut bytes).is_ok());
    u32::from_be_bytes(bytes)
}

// The three pages of a chain.
fn pages_of(rt: &impl Abort, chain: &Chain) -> [u32; 3] {
    let mut disk = copy(rt, &chain.disk);
    let first = chain.run.first;
    let second = next_of(rt, &mut disk, first);
    let third = next_of(rt, &mut disk, second);
    assert_same(rt, next_of(rt, &mut disk, third), u32::MAX);
    [first, second, third]
}

// A chain in the place of a component.
fn placed(rt: &impl Abort, alloc: Global, chain: &Chain, at: u64) -> MemDisk {
    let mut disk = copy(rt, &chain.disk);
    let slot = slot_of(rt, alloc, &disk);
    poke_component(rt, &mut disk, slot.saturating_add(C2_AT), &no_component());
    poke_component(rt, &mut disk, slot.saturating_add(at), &chain.run);
    disk
}

// A component that states these numbers in place of its own is damaged at this page.
fn check_stated(rt: &impl Abort, alloc: Global, chain: &Chain, at: u64, run: Component, page: u32) {
    let mut disk = placed(rt, alloc, chain, at);
    let slot = slot_of(rt, alloc, &disk);
    poke_component(rt, &mut disk, slot.saturating_add(at), &run);
    check_damaged(rt, alloc, &disk, Place::Page(page));
}

fn with_weight(run: Component, weight: u64) -> Component {
    Component { weight, ..run }
}

fn with_entries(run: Component, entries: u64) -> Component {
    Component { entries, ..run }
}

fn with_pages(run: Component, pages: u32) -> Component {
    Component { pages, ..run }
}

// Sums that differ are told at the last page, whichever page they are passed at.
fn check_sums(rt: &impl Abort, alloc: Global, chain: &Chain, at: u64, last: u32) {
    let run = chain.run;
    check_stated(
        rt,
        alloc,
        chain,
        at,
        with_weight(run, run.weight.saturating_add(1)),
        last,
    );
    check_stated(
        rt,
        alloc,
        chain,
        at,
        with_weight(run, run.weight.saturating_sub(1)),
        last,
    );
    check_stated(rt, alloc, chain, at, with_weight(run, 14), last);
    check_stated(rt, alloc, chain, at, with_entries(run, 26), last);
    check_stated(rt, alloc, chain, at, with_entries(run, 24), last);
    check_stated(rt, alloc, chain, at, with_entries(run, 1), last);
}

// A component of one page more ends too early, and one of fewer pages goes on where it should end.
fn check_counts(rt: &impl Abort, alloc: Global, chain: &Chain, at: u64, pages: [u32; 3]) {
    let [first, second, third] = pages;
    check_stated(rt, alloc, chain, at, with_pages(chain.run, 4), third);
    check_stated(rt, alloc, chain, at, with_pages(chain.run, 2), second);
    check_stated(rt, alloc, chain, at, with_pages(chain.run, 1), first);
}

#[test]
fn a_c1_of_other_sums_is_damaged(rt: HostRuntime) {
    let alloc = rt.alloc();
    let chain = make_chain(&rt, alloc);
    let pages = pages_of(&rt, &chain);
    check_opens(&rt, alloc, &placed(&rt, alloc, &chain, C1_AT));
    check_sums(&rt, alloc, &chain, C1_AT, pages[2]);
    check_counts(&rt, alloc, &chain, C1_AT, pages);
}

#[test]
fn a_c1x_of_other_sums_is_damaged(rt: HostRuntime) {
    let alloc = rt.alloc();
    let chain = make_chain(&rt, alloc);
    let pages = pages_of(&rt, &chain);
    check_opens(&rt, alloc, &placed(&rt, alloc, &chain, C1X_AT));
    check_sums(&rt, alloc, &chain, C1X_AT, pages[2]);
    check_counts(&rt, alloc, &chain, C1X_AT, pages);
}

#[test]
fn a_c2_of_other_sums_is_damaged(rt: HostRuntime) {
    let alloc = rt.alloc();
    let chain = make_chain(&rt, alloc);
    let pages = pages_of(&rt, &chain);
    check_opens(&rt, alloc, &chain.disk);
    check_sums(&rt, alloc, &chain, C2_AT, pages[2]);
    check_counts(&rt, alloc, &chain, C2_AT, pages);
}

// Names the next page of a page.
fn link(rt: &impl Abort, disk: &mut MemDisk, page: u32, next: u32) {
    poke_page(rt, disk, &smallest(rt), page, NEXT_AT, &next.to_be_bytes());
}

// A store whose page names this next one is damaged at a page.
fn check_link(rt: &impl Abort, alloc: Global, chain: &Chain, page: u32, next: u32, damaged: u32) {
    let mut disk = copy(rt, &chain.disk);
    link(rt, &mut disk, page, next);
    check_damaged(rt, alloc, &disk, Place::Page(damaged));
}

// A page that names itself, the one before it, none, or one past the store's.
#[test]
fn a_chain_that_turns_back_is_damaged(rt: HostRuntime) {
    let alloc = rt.alloc();
    let chain = make_chain(&rt, alloc);
    let [first, second, third] = pages_of(&rt, &chain);
    let pages = smallest(&rt).pages() as u32;
    check_link(&rt, alloc, &chain, first, first, first);
    check_link(&rt, alloc, &chain, second, first, first);
    check_link(&rt, alloc, &chain, second, u32::MAX, second);
    check_link(&rt, alloc, &chain, second, pages, second);
    check_link(&rt, alloc, &chain, third, first, third);
}

// The second page comes before the first: the keys fall there.
#[test]
fn keys_that_fall_are_damaged(rt: HostRuntime) {
    let alloc = rt.alloc();
    let mut chain = make_chain(&rt, alloc);
    let [first, second, third] = pages_of(&rt, &chain);
    let slot = slot_of(&rt, alloc, &chain.disk);
    let at = slot.saturating_add(C2_AT);
    poke(&rt, &mut chain.disk, at, &second.to_be_bytes());
    link(&rt, &mut chain.disk, second, first);
    link(&rt, &mut chain.disk, first, third);
    check_damaged(&rt, alloc, &chain.disk, Place::Page(first));
}
