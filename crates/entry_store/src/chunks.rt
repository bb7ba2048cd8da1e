//! Strings of bytes in chunks of sixteen, linked by numbers.
ghost use Rattle.std.specs.Prelude.{◌≡◌, ℕ, ◌+◌, ◌-◌, ◌*◌, ◌^◌, ◌<◌, ◌≤◌, ◌++◌, length, get_or, take};
ghost use Rattle.std.specs.Int.{w64, from_be_bytes};
ghost use Rattle.std.specs.Ordering.{nat_cmp};
ghost use Rattle.std.specs.Cmp.Lexicographic.{slice_cmp};
ghost use Rattle.entry_store.specs.Chains.{AreLinked, chunks_for, chunk_at, next_of, chain, walk, text_of, times, linked};

use arrayvec::ArrayVec;
use std::cmp::Ordering;

/// How many bytes a chunk has.
pub(crate) const CHUNK: usize = 16;

/// The most bytes of a key with its text.
pub(crate) const MOST: usize = 499;

/// How many bytes the chunks of so many have.
pub(crate) const ROOM: usize = 512;

/// Some bytes, and the chunk that comes next.
#[derive(Clone, Copy, Debug, Drop)]
pub(crate) struct Chunk {
    pub(crate) bytes: [u8; 16],
    pub(crate) next: u32,
}

// The bytes, with zeros behind them.
fn piece(bytes: &[u8]) -> [u8; 16]
    requires { length bytes.now ≤ 16 }
    ensures bytes { take (length bytes.now) result ≡ bytes.now }
    ensures len { length result ≡ 16 }
{
    // Most chunks are whole ones, whose bytes are moved at once and without a call.
    if let Some(whole) = bytes.first_chunk::<16>() {
        return *whole;
    }
    let mut piece = [0; 16];
    piece[..bytes.len()].copy_from_slice(bytes);
    piece
}

// Writes a string into chunks that are linked already, and gives the chunk behind them.
pub(crate) fn fill(chunks: &mut [Chunk], at: u32, bytes: &[u8]) -> u32
    requires inside { (q : ℕ) → 1 ≤ times q (chain (chunks_for (length bytes.now)) chunks.old at) → q < length chunks.old }
    requires apart { (q : ℕ) → times q (chain (chunks_for (length bytes.now)) chunks.old at) ≤ 1 }
    requires full { (q : ℕ) → q < length chunks.old → length (chunk_at chunks.old q).bytes ≡ 16 }
    ensures links { (q : ℕ) → next_of chunks.new q ≡ next_of chunks.old q }
    ensures others { (q : ℕ) → times q (chain (chunks_for (length bytes.now)) chunks.old at) ≡ 0 → chunk_at chunks.new q ≡ chunk_at chunks.old q }
    ensures text { text_of (chunks_for (length bytes.now)) chunks.new at (length bytes.now) ≡ bytes.now }
    ensures next { result ≡ walk (chunks_for (length bytes.now)) chunks.old at }
    ensures full { (q : ℕ) → q < length chunks.old → length (chunk_at chunks.new q).bytes ≡ 16 }
{
    if bytes.is_empty() {
        return at;
    }
    let many = bytes.len().min(CHUNK);
    let next = chunks[at as usize].next;
    chunks[at as usize] = Chunk {
        bytes: piece(&bytes[..many]),
        next,
    };
    fill(chunks, next, &bytes[many..])
}

// Reads so many chunks, whole ones.
pub(crate) fn read(chunks: &[Chunk], at: u32, many: u32, into: &mut ArrayVec<u8, ROOM>)
    requires inside { (q : ℕ) → 1 ≤ times q (chain many chunks.now at) → q < length chunks.now }
    requires full { (q : ℕ) → q < length chunks.now → length (chunk_at chunks.now q).bytes ≡ 16 }
    requires room { length into.old.items + 16 * many ≤ 512 }
    ensures { into.new.items ≡ into.old.items ++ text_of many chunks.now at (16 * many) }
{
    if many == 0 {
        return;
    }
    let chunk = &chunks[at as usize];
    match into.try_extend_from_slice(&chunk.bytes) {
        Ok(()) => {}
        Err(_) => unreachable!(),
    }
    read(chunks, chunk.next, many - 1, into);
}

// The number that the first eight bytes spell, the first weighing most: such numbers are ordered as the bytes are.
fn front(bytes: &[u8]) -> u64
    requires { 8 ≤ length bytes.now }
    ensures number { result ≡ from_be_bytes w64 (take 8 bytes.now) }
    ensures in_range { (i : ℕ) → get_or bytes.now i 0 < 256 }
{
    let Some(front) = bytes.first_chunk::<8>() else {
        unreachable!()
    };
    u64::from_be_bytes(*front)
}

// How two strings stand to one another, by eight bytes at once while both have so many.
fn compare_bytes(left: &[u8], right: &[u8]) -> Ordering
    ensures { result ≡ slice_cmp nat_cmp left.now right.now }
{
    if left.len() < 8 || right.len() < 8 {
        return left.cmp(right);
    }
    match front(left).cmp(&front(right)) {
        Ordering::Equal => compare_bytes(&left[8..], &right[8..]),
        decided => decided,
    }
}

// How bytes stand to the string of this length that begins at a chunk. Mostly the first eight tell, so that is the short way.
pub(crate) fn compare(bytes: &[u8], chunks: &[Chunk], at: u32, len: usize) -> Ordering
    requires inside { (q : ℕ) → 1 ≤ times q (chain (chunks_for len) chunks.now at) → q < length chunks.now }
    requires full { (q : ℕ) → q < length chunks.now → length (chunk_at chunks.now q).bytes ≡ 16 }
    ensures { result ≡ slice_cmp nat_cmp bytes.now (text_of (chunks_for len) chunks.now at len) }
{
    if bytes.len() < 8 || len < 8 {
        return compare_all(bytes, chunks, at, len);
    }
    let (mine, other) = (front(bytes), front(&chunks[at as usize].bytes));
    if mine < other {
        return Ordering::Less;
    }
    if mine > other {
        return Ordering::Greater;
    }
    compare_all(bytes, chunks, at, len)
}

// The same, from the first byte to the last. It stays a call, so that registers are left to who compares.
#[inline(never)]
fn compare_all(bytes: &[u8], chunks: &[Chunk], at: u32, len: usize) -> Ordering
    requires inside { (q : ℕ) → 1 ≤ times q (chain (chunks_for len) chunks.now at) → q < length chunks.now }
    requires full { (q : ℕ) → q < length chunks.now → length (chunk_at chunks.now q).bytes ≡ 16 }
    ensures { result ≡ slice_cmp nat_cmp bytes.now (text_of (chunks_for len) chunks.now at len) }
{
    if len == 0 {
        return if bytes.is_empty() {
            Ordering::Equal
        } else {
            Ordering::Greater
        };
    }
    let chunk = &chunks[at as usize];
    let front = bytes.len().min(CHUNK);
    let many = len.min(CHUNK);
    match compare_bytes(&bytes[..front], &chunk.bytes[..many]) {
        Ordering::Equal => compare_all(&bytes[front..], chunks, chunk.next, len - many),
        decided => decided,
    }
}

// Links each chunk to the one behind it, whatever it was linked to.
pub(crate) fn link_all(chunks: &mut [Chunk])
    requires numbered { length chunks.old < 2 ^ 32 }
    requires full { (q : ℕ) → q < length chunks.old → length (chunk_at chunks.old q).bytes ≡ 16 }
    ensures { AreLinked chunks.new }
{
    'chunks: for number in 0..chunks.len() as u32 {
        chunks[number as usize].next = number + 1;
    }
}

// The last of so many linked chunks.
fn last_of(chunks: &[Chunk], first: u32, many: u32) -> u32
    requires some { 1 ≤ many }
    requires inside { (q : ℕ) → 1 ≤ times q (chain many chunks.now first) → q < length chunks.now }
    ensures { result ≡ walk (many - 1) chunks.now first }
{
    if many == 1 {
        return first;
    }
    last_of(chunks, chunks[first as usize].next, many - 1)
}

// Links so many chunks in front of the free ones.
pub(crate) fn give_back(chunks: &mut [Chunk], first: u32, many: u32, free: u32)
    requires some { 1 ≤ many }
    requires inside { (q : ℕ) → 1 ≤ times q (chain many chunks.old first) → q < length chunks.old }
    ensures { chunks.new ≡ linked chunks.old (walk (many - 1) chunks.old first) free }
{
    let last = last_of(chunks, first, many);
    chunks[last as usize].next = free;
}
