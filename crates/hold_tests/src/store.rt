// The smallest store on a disk in memory, with components whose pages are written byte by byte, and two tables.
ghost use Rattle.std.specs.Prelude.{◌≡◌, length};
ghost use Rattle.blsm_model.specs.Geometry.{file_length};
ghost use Rattle.disk_mem.specs.Recorded.{told};

use crate::asserts::assert_that;
use blsm_model::{Component, Geometry, Key, Text, Value};
use disk_mem::MemDisk;
use disk_trait::Disk;
use entry_codec::encode;
use mem_table::Table;
use page_file::{Broken, PAGE_LEN, no_component, write_page};
use record_delta::{Rec, weight};
use scan_view::{Hold, RowRoom};
use std::alloc::Global;
use std::process::Abort;

pub fn key(rt: &impl Abort, text: &[u8]) -> Key {
    Key::from_bytes(text).expect(rt, "a key")
}

pub fn base(rt: &impl Abort, count: u64, text: &[u8]) -> Rec {
    Rec::Base(Value {
        count,
        text: Text::from_bytes(text).expect(rt, "a text"),
    })
}

/// An entry of a list that is written down.
pub type Entry = (Key, Rec);

/// A disk of the length of a store, and room for the rows that a hold gives.
#[derive(Drop)]
pub struct Store {
    pub geo: Geometry,
    pub disk: MemDisk,
    pub room: RowRoom,
    ghost long: { length (told disk).bytes ≡ file_length geo },
}

// A disk of so many zeros, by one call.
fn blank_disk(rt: &impl Abort, alloc: Global, geo: &Geometry) -> MemDisk
    ensures { length (told result).bytes ≡ file_length geo.now }
{
    let length = geo.length();
    let zeros = vec![in alloc; 0; length as usize].expect(rt, "memory");
    let mut disk = MemDisk::new(alloc, length, length.saturating_add(100_000)).expect(rt, "memory");
    assert_that(rt, disk.write(0, &zeros).is_ok());
    disk
}

impl Store {
    /// The smallest store's length of zeros, by one call.
    pub fn blank(rt: &impl Abort, alloc: Global) -> Store {
        let geo = Geometry::new(17_408, 2, 16_384, 4_096).expect(rt, "a geometry");
        let disk = blank_disk(rt, alloc, &geo);
        let room = RowRoom::reserve(alloc).expect(rt, "memory");
        Store { geo, disk, room }
    }

    fn write_page(&mut self, rt: &impl Abort, number: u32, page: &[u8; PAGE_LEN]) {
        assert!(rt; u64::from(number) < self.geo.pages());
        assert_that(
            rt,
            write_page(&mut self.disk, &self.geo, number, page).is_ok(),
        );
    }

    /// Writes a component whose pages have these numbers and entries.
    pub fn write(&mut self, rt: &impl Abort, pages: &[(u32, &[Entry])]) -> Component {
        let mut run = no_component();
        let mut next = u32::MAX;
        for at in 0..pages.len() {
            let (number, entries) = &pages[pages.len() - 1 - at];
            let page = page_of(rt, entries, next, &mut run);
            self.write_page(rt, *number, &page);
            next = *number;
        }
        assert!(rt; pages.len() < 1_000);
        run.first = next;
        run.pages = pages.len() as u32;
        run
    }

    /// The next rows of a hold, in the room.
    pub fn next(&mut self, rt: &impl Abort, hold: &mut Hold, n: u32) -> Result<(), Broken> {
        assert!(rt; n <= 32);
        hold.next_rows(&mut self.disk, &self.geo, n, &mut self.room)
    }
}

// The page of these entries, which are counted to a component.
fn page_of(rt: &impl Abort, entries: &[Entry], next: u32, run: &mut Component) -> [u8; PAGE_LEN] {
    let mut page = [0; PAGE_LEN];
    let mut at = 8usize;
    for (key, rec) in entries {
        let mut bytes = [0; 512];
        let len = encode(key, rec, &mut bytes);
        assert!(rt; at <= 4_096 && len <= 512 && len <= 4_096 - at);
        page[at..at + len].copy_from_slice(&bytes[..len]);
        at += len;
    }
    assert!(rt;
        entries.len() < 1_000
            && at >= 8
            && at <= 4_096
            && run.entries < 1_000_000
            && run.weight < 1_000_000
    );
    page[..2].copy_from_slice(&(entries.len() as u16).to_be_bytes());
    page[2..4].copy_from_slice(&((at - 8) as u16).to_be_bytes());
    page[4..8].copy_from_slice(&next.to_be_bytes());
    run.entries += entries.len() as u64;
    run.weight += (at - 8) as u64;
    page
}

/// A table of these records, in any order.
pub fn table_of(rt: &impl Abort, alloc: Global, entries: &[Entry]) -> Table
    ensures { result.reserved ≡ 65536 }
{
    let mut table = reserved(rt, alloc);
    for (key, rec) in entries {
        put(rt, &mut table, key, rec);
    }
    table
}

fn reserved(rt: &impl Abort, alloc: Global) -> Table
    ensures { result.reserved ≡ 65536 }
{
    match Table::reserve(alloc, 65_536) {
        Ok(table) => table,
        Err(_) => rt.abort(),
    }
}

/// Folds a record into a table.
pub fn put(rt: &impl Abort, table: &mut Table, key: &Key, rec: &Rec)
    requires { table.old.reserved ≡ 65536 }
    ensures { table.new.reserved ≡ 65536 }
{
    assert!(rt; table.floor().is_none() && table.dropped() == 0);
    assert!(rt; table.weight() + weight(key, rec) <= 65_536);
    table.fold_in(key, rec);
}
