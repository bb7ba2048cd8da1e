//! Keys and records at numbered places.
ghost use Rattle.std.specs.Prelude.{◌≡◌, ◌+◌, ◌-◌, ◌*◌, ◌/◌, ◌<◌, ◌≤◌, ◌++◌, ◌∷◌, [], length, take, drop, set, slice_index_or, IfOk};
ghost use Rattle.blsm_model.specs.declared.key.Key.{Key};
ghost use Rattle.blsm_model.specs.Format.{least_weight, most_text};
ghost use Rattle.blsm_model.specs.Keys.{key_cmp};
ghost use Rattle.record_delta.specs.declared.record.Rec.{Rec};
ghost use Rattle.record_delta.specs.Records.{text_of as text_in, IsRecord};
ghost use Rattle.record_delta.specs.Entries.{entries_weight};
ghost use Rattle.entry_store.specs.Chains.{chunks_for};
ghost use Rattle.entry_store.specs.Stores.{IsHead, IsHeadOf, HasText, HasEntry, rec_with, vacant};

use crate::chunks::{CHUNK, Chunk, MOST, compare, fill, give_back, link_all, read};
use arrayvec::ArrayVec;
use blsm_model::{Key, Op, Text, Value};
use record_delta::{AddPart, Both, Rec, TailPart};
use refusal::NoMemory;
use std::alloc::Global;
use std::cmp::Ordering;
use std::marker::Model;
use std::mem::size_of;

/// No entry weighs less, in bytes: a key of one byte, and no text.
pub const LEAST_WEIGHT: u64 = Op::OVERHEAD + 1;

/// How many of the lightest entries weigh this much, in bytes.
pub fn places_for(weight: u64) -> u64
    ensures { result ≡ weight / least_weight }
{
    weight / LEAST_WEIGHT
}

/// What kind of record it is.
#[derive(Clone, Copy, Debug, Drop)]
pub(crate) enum Kind {
    Base,
    Delta,
    Tomb,
}

/// Where the bytes of a key and its text are, and what else the record has.
#[derive(Clone, Copy, Debug, Drop)]
pub(crate) struct Head {
    pub(crate) count: u64,
    pub(crate) first: u32,
    pub(crate) text_len: u16,
    pub(crate) key_len: u8,
    pub(crate) kind: Kind,
}

impl Head {
    // The head of a place that has no entry.
    const EMPTY: Head = Head {
        count: 0,
        first: 0,
        text_len: 0,
        key_len: 0,
        kind: Kind::Tomb,
    };

    fn len(&self) -> usize
        ensures { result ≡ self.now.key_len + self.now.text_len }
    {
        self.key_len as usize + self.text_len as usize
    }

    fn chunks(&self) -> u32
        ensures { result ≡ chunks_for (self.now.key_len + self.now.text_len) }
    {
        ((self.len() + 15) / CHUNK) as u32
    }
}

/// Keys and records, each at its place. Contracts see them as a list, and how much they may weigh. A place whose entry was removed has an
/// empty key and a tombstone there.
#[derive(Debug, Drop)]
pub struct Store {
    heads: Vec<Head>,
    chunks: Vec<Chunk>,
    free: u32,
    reserved: u64,
}

impl Model for Store {
    ghost use Rattle.std.specs.Vec.{vec_capacity};
    ghost use Rattle.entry_store.specs.Stores.{Stored, IsStore, entries_in};

    ghost Value = { Stored };

    ghost view = { λ s. record { slots = entries_in s.chunks.items s.heads.items; reserved = s.reserved } };

    ghost invariant = { λ s. IsStore s.chunks.items s.heads.items s.free s.reserved (vec_capacity s.heads) };
}

// What kind of record it is, its count, and how many bytes its text has.
fn sort_of(rec: &Rec) -> (Kind, u64, usize)
    ensures sort { rec_with result.0 result.1 (text_in rec.now) ≡ rec.now }
    ensures text_len { result.2 ≡ length (text_in rec.now) }
    ensures has_text { HasText result.0 result.2 }
    ensures in_range { IsRecord rec.now }
{
    match rec {
        Rec::Base(Value { count, text }) => (Kind::Base, *count, text.as_bytes().len()),
        Rec::Delta(change) => (
            Kind::Delta,
            change.count.amount(),
            change.text.text().as_bytes().len(),
        ),
        Rec::Tomb => (Kind::Tomb, 0, 0),
    }
}

// The bytes of a base's text, or of a delta's tail.
fn bytes_of_text(rec: &Rec) -> &[u8]
    ensures text { result.now ≡ text_in rec.now }
    ensures fits { length result.now ≤ most_text }
{
    match rec {
        Rec::Base(value) => value.text.as_bytes(),
        Rec::Delta(change) => change.text.text().as_bytes(),
        Rec::Tomb => &[],
    }
}

// Puts the bytes of a key and its text into an empty list, behind one another, and gives the head of the record, whose bytes begin at a chunk.
fn pack(key: &Key, rec: &Rec, first: u32, bytes: &mut ArrayVec<u8, MOST>) -> Head
    requires { bytes.old.items ≡ [] }
    ensures head { IsHeadOf result key.now rec.now first }
    ensures bytes { bytes.new.items ≡ key.now ++ text_in rec.now }
    ensures in_range { IsRecord rec.now }
{
    let (kind, count, text_len) = sort_of(rec);
    let key_bytes = key.as_bytes();
    let _ = bytes.try_extend_from_slice(key_bytes);
    let _ = bytes.try_extend_from_slice(bytes_of_text(rec));
    Head {
        count,
        first,
        text_len: text_len as u16,
        key_len: key_bytes.len() as u8,
        kind,
    }
}

// The record of a head and its bytes.
fn record_of(head: Head, bytes: &[u8]) -> Rec
    requires head { IsHead head }
    requires len { length bytes.now ≡ head.key_len + head.text_len }
    ensures { result ≡ rec_with head.kind head.count (drop head.key_len bytes.now) }
{
    let (_, text_bytes) = bytes.split_at(head.key_len as usize);
    match head.kind {
        Kind::Base => {
            let Some(text) = Text::from_bytes(text_bytes) else {
                unreachable!()
            };
            Rec::Base(Value {
                count: head.count,
                text,
            })
        }
        Kind::Delta => {
            let Some(text) = Text::from_bytes(text_bytes) else {
                unreachable!()
            };
            let Some(tail) = TailPart::new(text) else {
                unreachable!()
            };
            Rec::Delta(Both {
                count: AddPart::new(head.count),
                text: tail,
            })
        }
        Kind::Tomb => Rec::Tomb,
    }
}

// The key and the record of a head and its bytes.
fn parts(head: Head, bytes: &[u8]) -> (Key, Rec)
    requires head { IsHead head }
    requires key { 1 ≤ head.key_len }
    requires len { length bytes.now ≡ head.key_len + head.text_len }
    ensures { result ≡ (take head.key_len bytes.now, rec_with head.kind head.count (drop head.key_len bytes.now)) }
{
    let (key_bytes, _) = bytes.split_at(head.key_len as usize);
    let Some(key) = Key::from_bytes(key_bytes) else {
        unreachable!()
    };
    (key, record_of(head, bytes))
}

// Makes a record the one of a head and its text. A base or a delta that it was has its text written over.
fn record_over(head: Head, text: &[u8], rec: &mut Rec)
    requires head { IsHead head }
    requires len { length text.now ≡ head.text_len }
    ensures { rec.new ≡ rec_with head.kind head.count text.now }
{
    match head.kind {
        Kind::Base => rec.set_base(head.count, text),
        Kind::Delta => rec.set_delta(head.count, text),
        Kind::Tomb => *rec = Rec::Tomb,
    }
}

// Makes a key and a record those of a head and its bytes.
fn parts_over(head: Head, bytes: &[u8], key: &mut Key, rec: &mut Rec)
    requires head { IsHead head }
    requires key { 1 ≤ head.key_len }
    requires len { length bytes.now ≡ head.key_len + head.text_len }
    ensures key { key.new ≡ take head.key_len bytes.now }
    ensures rec { rec.new ≡ rec_with head.kind head.count (drop head.key_len bytes.now) }
{
    let (key_bytes, text_bytes) = bytes.split_at(head.key_len as usize);
    key.set(key_bytes);
    record_over(head, text_bytes, rec);
}

impl Store {
    /// How many bytes of memory a place takes: a head, and one chunk. That is enough: the chunks of an entry are never more
    /// than the lightest entries that weigh what it does.
    pub const PLACE_BYTES: usize = size_of::<Head>() + size_of::<Chunk>();

    /// An empty store for entries of this weight in all, in bytes. It takes memory for as many of the lightest at once, which
    /// is a place for each; where that is refused, or they are 2^32 - 1 or more, there is no store.
    pub fn reserve(alloc: Global, weight: u64) -> Result<Store, NoMemory>
        ensures { IfOk result (λ store. store ≡ record { slots = []; reserved = weight }) }
    {
        let places = places_for(weight);
        if places >= u32::MAX as u64 {
            return Err(NoMemory);
        }
        let mut chunks = Vec::with_capacity(alloc, places as usize)?;
        'chunks: for number in 0..places as u32 {
            chunks.push(Chunk {
                bytes: [0; 16],
                next: number + 1,
            })?;
        }
        Ok(Store {
            heads: Vec::with_capacity(alloc, places as usize)?,
            chunks,
            free: 0,
            reserved: weight,
        })
    }

    /// Adds an entry at the next place. All may then weigh at most what was reserved, and so may as many of the lightest as there are places
    /// then: that says more only where entries were removed, whose places aren't used again. It takes no memory.
    pub fn push(&mut self, key: &Key, rec: &Rec)
        requires fits { entries_weight (self.old.slots ++ (key.now, rec.now) ∷ []) ≤ self.old.reserved }
        requires place { least_weight * (length self.old.slots + 1) ≤ self.old.reserved }
        ensures added { self.new ≡ record { slots = self.old.slots ++ (key.now, rec.now) ∷ []; reserved = self.old.reserved } }
        ensures in_range { IsRecord rec.now }
    {
        let mut bytes = ArrayVec::new();
        let head = pack(key, rec, self.free, &mut bytes);
        self.free = fill(&mut self.chunks, self.free, bytes.as_slice());
        match self.heads.push(head) {
            Ok(()) => {}
            Err(_) => unreachable!(),
        }
    }

    /// The entry at a place that has one.
    pub fn entry(&self, place: u32) -> (Key, Rec)
        requires { HasEntry self.now.slots place }
        ensures { result ≡ slice_index_or self.now.slots place result }
    {
        let head = self.heads[place as usize];
        let mut bytes = ArrayVec::new();
        read(&self.chunks, head.first, head.chunks(), &mut bytes);
        parts(head, &bytes.as_slice()[..head.len()])
    }

    /// Reads the entry at a place that has one over another one. Where both are records of one kind, the bytes of the key and of the text are copied, and
    /// nothing is blanked for them before.
    pub fn read_over(&self, place: u32, key: &mut Key, rec: &mut Rec)
        requires { HasEntry self.now.slots place }
        ensures { (entry : Key × Rec) → (key.new, rec.new) ≡ slice_index_or self.now.slots place entry }
    {
        let head = self.heads[place as usize];
        let mut bytes = ArrayVec::new();
        read(&self.chunks, head.first, head.chunks(), &mut bytes);
        parts_over(head, &bytes.as_slice()[..head.len()], key, rec);
    }

    // A record takes some 450 bytes, and a call would copy it once more.
    /// The record at a place.
    #[inline(always)]
    pub fn record_at(&self, place: u32) -> Rec
        requires { place < length self.now.slots }
        ensures { (entry : Key × Rec) → result ≡ (slice_index_or self.now.slots place entry).1 }
    {
        let head = self.heads[place as usize];
        let mut bytes = ArrayVec::new();
        read(&self.chunks, head.first, head.chunks(), &mut bytes);
        record_of(head, &bytes.as_slice()[..head.len()])
    }

    /// How a key stands to the one at a place. It takes no memory, and no bytes are moved.
    pub fn compare(&self, key: &Key, place: u32) -> Ordering
        requires { place < length self.now.slots }
        ensures { (entry : Key × Rec) → result ≡ key_cmp key.now (slice_index_or self.now.slots place entry).0 }
    {
        let head = self.heads[place as usize];
        compare(
            key.as_bytes(),
            &self.chunks,
            head.first,
            head.key_len as usize,
        )
    }

    /// Another record for the key at a place that has one. All may then weigh at most what was reserved. It takes no memory.
    pub fn set(&mut self, place: u32, key: &Key, rec: &Rec)
        requires place { HasEntry self.old.slots place }
        requires fits { entries_weight (set self.old.slots place (key.now, rec.now)) ≤ self.old.reserved }
        ensures { self.new ≡ record { slots = set self.old.slots place (key.now, rec.now); reserved = self.old.reserved } }
    {
        let older = self.heads[place as usize];
        give_back(&mut self.chunks, older.first, older.chunks(), self.free);
        let mut bytes = ArrayVec::new();
        let head = pack(key, rec, older.first, &mut bytes);
        self.free = fill(&mut self.chunks, older.first, bytes.as_slice());
        self.heads[place as usize] = head;
    }

    /// Removes the entry at a place that has one. Its bytes are free at once; the place itself isn't used again until the store is cleared.
    pub fn vacate(&mut self, place: u32)
        requires { HasEntry self.old.slots place }
        ensures { self.new ≡ record { slots = set self.old.slots place vacant; reserved = self.old.reserved } }
    {
        let older = self.heads[place as usize];
        give_back(&mut self.chunks, older.first, older.chunks(), self.free);
        self.free = older.first;
        self.heads[place as usize] = Head::EMPTY;
    }

    /// Removes all entries. The room stays reserved, and all places are free.
    pub fn clear(&mut self)
        ensures { self.new ≡ record { slots = []; reserved = self.old.reserved } }
    {
        self.heads.clear();
        link_all(&mut self.chunks);
        self.free = 0;
    }
}
