//! The page that takes entries.
ghost use Rattle.std.specs.Prelude.{◌≡◌, ◌+◌, ◌-◌, ◌<◌, ◌≤◌, ◌++◌, List, ℕ, length, take, drop, replicate, IsTrue, OnOk};
ghost use Rattle.blsm_model.specs.Geometry.{page_count, file_length};
ghost use Rattle.record_delta.specs.Records.{weight};
ghost use Rattle.entry_codec.specs.Spelling.{spelling, IsEntry};
ghost use Rattle.page_file.specs.File.{page_at, page_region, Writes};
ghost use Rattle.page_file.specs.Page.{most_used, page_head};
ghost use Rattle.run_writer.specs.Buffer.{empty_buffer, with_entry, sealed};

use blsm_model::{Geometry, Key, Op};
use disk_trait::Disk;
use entry_codec::encode;
use page_file::{PAGE_HEAD_LEN, PAGE_LEN, number_of, write_page};
use record_delta::Rec;
use refusal::Failed;
use std::marker::Model;

/// The entries of a page that isn't closed yet, at most 4,088 bytes of them. Contracts see their count and their bytes.
#[derive(Debug, Drop)]
pub struct PageBuffer {
    // They stand where the page has them, behind the room of its head, so that it is made in its place.
    page: [u8; PAGE_LEN],
    used: u16,
    count: u16,
}

impl Model for PageBuffer {
    ghost use Rattle.std.specs.Prelude.{take, drop};
    ghost use Rattle.run_writer.specs.Buffer.{BufferState, IsSmall};

    ghost Value = { BufferState };

    ghost view = { λ b. record { count = b.count; text = take b.used (drop 8 b.page) } };

    ghost invariant = { λ b. IsSmall b.count b.used };
}

// Writes bytes at a place. What stands behind them stays.
fn put(out: &mut [u8], at: usize, bytes: &[u8])
    requires { at + length bytes.now ≤ length out.old }
    ensures written { (front behind : List ℕ) → length front ≡ at → out.old ≡ front ++ behind
        → out.new ≡ (front ++ bytes.now) ++ drop (length bytes.now) behind }
{
    out[at..at + bytes.len()].copy_from_slice(bytes);
}

// Makes zeros of what stands from a place on.
fn blank(out: &mut [u8], at: usize)
    requires { at ≤ length out.old }
    ensures { out.new ≡ take at out.old ++ replicate (length out.old - at) 0 }
{
    out[at..].fill(0);
}

// Makes of a page that has these bytes of entries the one that names this next page.
fn seal(page: &mut [u8; PAGE_LEN], count: u16, used: u16, next: Option<u32>)
    requires { used ≤ most_used }
    ensures page { page.new ≡ page_head count used next ++ take used (drop 8 page.old) ++ replicate (most_used - used) 0 }
    ensures kept { take used (drop 8 page.new) ≡ take used (drop 8 page.old) }
{
    put(page, 0, &count.to_be_bytes());
    put(page, 2, &used.to_be_bytes());
    put(page, 4, &number_of(next).to_be_bytes());
    blank(page, PAGE_HEAD_LEN + used as usize);
}

// Spells an entry at a place, and gives its length in bytes. What stands before it stays.
fn spell(out: &mut [u8], at: usize, key: &Key, rec: &Rec) -> usize
    requires { at + weight key.now rec.now ≤ length out.old }
    ensures written { (front behind : List ℕ) → length front ≡ at → out.old ≡ front ++ behind
        → out.new ≡ front ++ (spelling key.now rec.now ++ drop (weight key.now rec.now) behind) }
    ensures len { result ≡ length (spelling key.now rec.now) }
    ensures weight { result ≡ weight key.now rec.now }
    ensures entry { IsEntry key.now rec.now }
{
    if out.len() - at < Op::MAX_WEIGHT as usize {
        return spell_apart(out, at, key, rec);
    }
    encode(key, rec, &mut out[at..])
}

// The same where the longest entry has no room.
#[inline(never)]
fn spell_apart(out: &mut [u8], at: usize, key: &Key, rec: &Rec) -> usize
    requires { at + weight key.now rec.now ≤ length out.old }
    ensures written { (front behind : List ℕ) → length front ≡ at → out.old ≡ front ++ behind
        → out.new ≡ front ++ (spelling key.now rec.now ++ drop (weight key.now rec.now) behind) }
    ensures len { result ≡ length (spelling key.now rec.now) }
    ensures weight { result ≡ weight key.now rec.now }
    ensures entry { IsEntry key.now rec.now }
{
    let mut entry = [0; Op::MAX_WEIGHT as usize];
    let length = encode(key, rec, &mut entry);
    put(out, at, &entry[..length]);
    length
}

impl PageBuffer {
    /// A buffer without entries.
    pub fn new() -> PageBuffer
        ensures { result ≡ empty_buffer }
    {
        PageBuffer {
            page: [0; PAGE_LEN],
            used: 0,
            count: 0,
        }
    }

    /// How many bytes the entries have.
    pub fn used(&self) -> u16
        ensures used { result ≡ length self.now.text }
        ensures fits { result ≤ most_used }
    {
        self.used
    }

    /// How many entries there are.
    pub fn count(&self) -> u16
        ensures { result ≡ self.now.count }
    {
        self.count
    }

    /// Takes one entry more, which must fit.
    pub fn put(&mut self, key: &Key, rec: &Rec)
        requires { length self.old.text + weight key.now rec.now ≤ most_used }
        ensures put { self.new ≡ with_entry key.now rec.now self.old }
        ensures entry { IsEntry key.now rec.now }
    {
        let at = PAGE_HEAD_LEN + self.used as usize;
        let length = spell(&mut self.page, at, key, rec);
        self.used += length as u16;
        self.count += 1;
    }

    /// Writes the page of these entries that names this next page. The disk is written once at most, and no memory is taken. It keeps its entries.
    pub fn write<D: Disk>(
        &mut self,
        disk: &mut D,
        geo: &Geometry,
        number: u32,
        next: Option<u32>,
    ) -> Result<(), Failed>
        requires page { number < page_count geo.now }
        requires length { IsTrue (D.state disk.old).tells_bytes → length (D.state disk.old).bytes ≡ file_length geo.now }
        ensures same { self.new ≡ self.old }
        ensures reads { OnOk result (IsTrue (D.state disk.old).is_honest → page_at geo.now number (D.state disk.new).bytes ≡ sealed next self.old) }
        ensures writes { Writes (page_region geo.now number) (file_length geo.now) result (D.state disk.old) (D.state disk.new) }
    {
        seal(&mut self.page, self.count, self.used, next);
        write_page(disk, geo, number, &self.page)
    }

    /// Drops its entries.
    pub fn clear(&mut self)
        ensures { self.new ≡ empty_buffer }
    {
        self.used = 0;
        self.count = 0;
    }
}
