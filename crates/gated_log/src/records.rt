//! A record of a lane, which stands behind its open gate. Numbers are big-endian. It is an entry, or two to 32 entries that stand or fall
//! together:
//!
//! | At | Field |
//! |---|---|
//! | 0 | kind u8: 5, which no entry has |
//! | 1 | how many entries u8: 2 to 32 |
//! | 2 | how many bytes they have u16: 512 at most |
//! | 4 | the entries |
ghost use Rattle.std.specs.Prelude.{◌≡◌, ◌+◌, ◌≤◌, ◌++◌, ◌∷◌, [], length, take, IfSome, IfNone, IsTrue};
ghost use Rattle.std.specs.List.{AllByRecursion};
ghost use Rattle.blsm_model.specs.Format.{most_weight};
ghost use Rattle.blsm_model.specs.Legal.{total_weight};
ghost use Rattle.blsm_model.specs.Tails.{TailFits};
ghost use Rattle.record_delta.specs.Entries.{Entries, entries_weight};
ghost use Rattle.record_delta.specs.Several.{entries_of};
ghost use Rattle.gated_log.specs.Records.{cost, head_len, pack_head, pack_text, spellings};
ghost use Rattle.gated_log.specs.Records.{AreFilled, AreSpelled, BeginsWithPack, BeginsWithRecord, IsPackRecord};

use blsm_model::{Op, Pack, Write};
use entry_codec::{decode, encode, peek_key};
use gated_write::CLOSED;
use record_delta::Rec;

// The kind of a record of several entries.
const PACK: u8 = 5;

// Kind, count and length.
const HEAD_LEN: usize = 4;

/// The longest record, in bytes.
pub const LONGEST: usize = HEAD_LEN + Op::MAX_WEIGHT as usize;

/// The longest record with the gate behind it, and the room that the last entry's encoder asks for, in bytes.
pub const ROOM: usize = LONGEST + Op::MAX_WEIGHT as usize + 1;

// What stands before several entries.
fn head_bytes(count: u8, weight: u16) -> [u8; HEAD_LEN]
    ensures { result ≡ pack_head count weight }
{
    let [high, low] = weight.to_be_bytes();
    [PACK, count, high, low]
}

// Puts the entry of a write at a place, and says where it ends.
fn put_write(write: &Write, at: usize, buffer: &mut [u8; ROOM]) -> usize
    requires room { at + 512 ≤ ROOM }
    requires tail { TailFits write.now }
    ensures front { take result buffer.new ≡ take at buffer.old ++ spellings (entries_of (write.now ∷ [])) }
    ensures end { result ≡ at + entries_weight (entries_of (write.now ∷ [])) }
    ensures entry { AreSpelled (entries_of (write.now ∷ [])) }
{
    let rec = Rec::of_write(write);
    at + encode(write.key(), &rec, &mut buffer[at..])
}

/// Puts the record of a pack and the next gate, closed, at the front of the buffer, and answers their length in bytes.
pub fn put_pack(pack: &Pack, buffer: &mut [u8; ROOM]) -> usize
    requires tails { AllByRecursion TailFits pack.now }
    requires light { total_weight pack.now ≤ most_weight }
    ensures text { take result buffer.new ≡ pack_text (entries_of pack.now) ++ 0 ∷ [] }
    ensures len { result ≡ cost (entries_of pack.now) }
    ensures weight { result ≡ total_weight pack.now + 5 }
    ensures is { IsPackRecord (entries_of pack.now) }
{
    let head = head_bytes(pack.len() as u8, pack.weight() as u16);
    buffer[..HEAD_LEN].copy_from_slice(&head);
    let mut at = HEAD_LEN;
    'places: for place in 0..pack.len() {
        at = put_write(&pack.write(place), at, buffer);
    }
    buffer[at] = CLOSED;
    at + 1
}

// Whether the bytes are so many entries, and nothing else.
fn are_filled(bytes: &[u8], count: usize) -> bool
    ensures some { IsTrue result → (es : Entries) × AreFilled count bytes.now es }
    ensures only { (es : Entries) → AreFilled count bytes.now es → IsTrue result }
{
    if count == 0 {
        return bytes.is_empty();
    }
    match decode(bytes) {
        Some((_, _, length)) => {
            let (_, behind) = bytes.split_at(length);
            are_filled(behind, count - 1)
        }
        None => false,
    }
}

// How many bytes of entries the pack at the front of any bytes has. `None` exactly where no front of the bytes is one.
fn pack_at(bytes: &[u8]) -> Option<usize>
    ensures some { IfSome result (λ n. (es : Entries) × BeginsWithPack bytes.now es × (n ≡ entries_weight es)) }
    ensures none { IfNone result ((es : Entries) → BeginsWithPack bytes.now es → ⊥) }
{
    if bytes.len() < HEAD_LEN || bytes[0] != PACK {
        return None;
    }
    let count = bytes[1] as usize;
    let length = u16::from_be_bytes([bytes[2], bytes[3]]) as usize;
    if count < 2
        || Pack::MOST < count
        || Op::MAX_WEIGHT < length as u64
        || bytes.len() < HEAD_LEN + length
    {
        return None;
    }
    if are_filled(&bytes[HEAD_LEN..HEAD_LEN + length], count) {
        Some(length)
    } else {
        None
    }
}

/// Where the entries of the record at the front of any bytes begin and end, in bytes. `None` exactly where no front of the bytes is a record.
/// Bytes may follow.
pub fn entries_at(bytes: &[u8]) -> Option<(usize, usize)>
    ensures some { IfSome result
        (λ p. (es : Entries) × BeginsWithRecord bytes.now es × (p.0 ≡ head_len es) × (p.1 ≡ head_len es + entries_weight es)) }
    ensures none { IfNone result ((es : Entries) → BeginsWithRecord bytes.now es → ⊥) }
{
    if let Some(length) = pack_at(bytes) {
        return Some((HEAD_LEN, HEAD_LEN + length));
    }
    match peek_key(bytes) {
        Some((_, length)) => Some((0, length)),
        None => None,
    }
}
