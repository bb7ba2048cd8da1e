//! Reading an entry, from any bytes.
ghost use Rattle.std.specs.Prelude.{◌≡◌, ◌+◌, ◌≤◌, ◌<◌, ◌++◌, ◌^◌, List, ℕ, Some, IfSome, IfNone, IsTrue, length, take, drop};
ghost use Rattle.blsm_model.specs.declared.key.Key.{Key};
ghost use Rattle.blsm_model.specs.Format.{most_text};
ghost use Rattle.record_delta.specs.declared.record.Rec.{Rec};
ghost use Rattle.record_delta.specs.Records.{weight};
ghost use Rattle.entry_codec.specs.Spelling.{head, tail_kind, BeginsWith};
ghost use Rattle.entry_codec.specs.Reading.{InRange, AreAt, IsOf, HasParts};

use crate::format::{BASE, DELTA, HEAD_LEN, TAIL, TOMB};
use blsm_model::{Key, Text, Value};
use record_delta::{AddPart, Both, Rec, TailPart};

// What stands before the key.
#[derive(Clone, Copy)]
struct Head {
    kind: u8,
    key_len: u16,
    text_len: u16,
    count: u64,
}

impl Head {
    // Whether there is a record of this kind that has this count and a text of this length.
    fn has_record(self) -> bool
        ensures some { IsTrue result → (text : List ℕ) → length text ≡ self.text_len → length text ≤ most_text → (rec : Rec) × IsOf self.kind self.count text rec }
        ensures only { (text : List ℕ) (rec : Rec) → length text ≡ self.text_len → IsOf self.kind self.count text rec → IsTrue result }
    {
        let is_bare = self.text_len == 0;
        match self.kind {
            BASE => true,
            DELTA => is_bare,
            TAIL => !is_bare && self.text_len as usize <= Text::MAX_TAIL,
            TOMB => is_bare && self.count == 0,
            _ => false,
        }
    }

    // Whether any bytes behind this head are an entry's key and text, if they are as many as it says.
    fn is_right(self) -> bool
        ensures some { IsTrue result → (bytes : List ℕ) → self.key_len + self.text_len ≤ length bytes
            → (rec : Rec) × HasParts self bytes (take self.key_len bytes) rec }
        ensures only { (bytes : List ℕ) (key : Key) (rec : Rec) → HasParts self bytes key rec → IsTrue result }
    {
        let key_len = self.key_len as usize;
        let text_len = self.text_len as usize;
        1 <= key_len && key_len <= Key::MAX_LEN && text_len <= Text::MAX_LEN && self.has_record()
    }
}

fn head_at(bytes: &[u8]) -> Head
    requires { HEAD_LEN ≤ length bytes.now }
    ensures in_range { InRange result }
    ensures parts { bytes.now ≡ head result.kind result.key_len result.text_len result.count ++ drop HEAD_LEN bytes.now }
{
    Head {
        kind: bytes[0],
        key_len: u16::from_be_bytes([bytes[1], bytes[2]]),
        text_len: u16::from_be_bytes([bytes[3], bytes[4]]),
        count: u64::from_be_bytes([
            bytes[5], bytes[6], bytes[7], bytes[8], bytes[9], bytes[10], bytes[11], bytes[12],
        ]),
    }
}

// The key and the text of these lengths at the front, if they are a key and a text.
fn key_and_text(bytes: &[u8], key_len: usize, text_len: usize) -> Option<(Key, Text)>
    requires key { key_len < 2 ^ 16 }
    requires text { text_len < 2 ^ 16 }
    ensures found { IfSome result (λ p. AreAt bytes.now key_len text_len p.0 p.1) }
    ensures only { (key text : List ℕ) → AreAt bytes.now key_len text_len key text → result ≡ Some (key, text) }
{
    if bytes.len() < key_len + text_len {
        return None;
    }
    let (key, rest) = bytes.split_at(key_len);
    let key = Key::from_bytes(key)?;
    let text = Text::from_bytes(&rest[..text_len])?;
    Some((key, text))
}

// The record of this kind, with this count and text, if there is one.
fn record(kind: u8, count: u64, text: Text) -> Option<Rec>
    ensures found { IfSome result (λ rec. IsOf kind count text rec) }
    ensures only { (rec : Rec) → IsOf kind count text rec → result ≡ Some rec }
{
    let is_bare = text.as_bytes().is_empty();
    match kind {
        BASE => Some(Rec::Base(Value { count, text })),
        DELTA if is_bare => Some(Rec::added(count)),
        TAIL if !is_bare => with_tail(count, text),
        TOMB if is_bare && count == 0 => Some(Rec::Tomb),
        _ => None,
    }
}

// The delta of this amount and tail, if that isn't too long for one.
fn with_tail(count: u64, text: Text) -> Option<Rec>
    requires { 0 < length text }
    ensures found { IfSome result (λ rec. IsOf tail_kind count text rec) }
    ensures only { (rec : Rec) → IsOf tail_kind count text rec → result ≡ Some rec }
{
    match TailPart::new(text) {
        Some(tail) => Some(Rec::Delta(Both {
            count: AddPart::new(count),
            text: tail,
        })),
        None => None,
    }
}

// The entry with this head whose key and text stand at the front of these bytes, if there is one, and its length.
fn entry(head: &Head, bytes: &[u8]) -> Option<(Key, Rec, usize)>
    ensures found { IfSome result (λ e. HasParts head.now bytes.now e.0 e.1 × (e.2 ≡ weight e.0 e.1)) }
    ensures only { (key : Key) (rec : Rec) → HasParts head.now bytes.now key rec → result ≡ Some (key, rec, weight key rec) }
{
    let key_len = head.key_len as usize;
    let text_len = head.text_len as usize;
    let (key, text) = key_and_text(bytes, key_len, text_len)?;
    let rec = record(head.kind, head.count, text)?;
    Some((key, rec, HEAD_LEN + key_len + text_len))
}

/// Reads the entry at the front of any bytes: the key, the record, and the entry's length in bytes. `None` exactly where
/// no front of the bytes is the spelling of an entry. Bytes may follow.
pub fn decode(bytes: &[u8]) -> Option<(Key, Rec, usize)>
    ensures found { IfSome result (λ e. BeginsWith bytes.now e.0 e.1 × (e.2 ≡ weight e.0 e.1)) }
    ensures none { IfNone result ((key : Key) (rec : Rec) → BeginsWith bytes.now key rec → ⊥) }
    // No other entry is at the front.
    ensures only { (key : Key) (rec : Rec) → BeginsWith bytes.now key rec → result ≡ Some (key, rec, weight key rec) }
{
    if bytes.len() < HEAD_LEN {
        return None;
    }
    let head = head_at(bytes);
    entry(&head, &bytes[HEAD_LEN..])
}

// Makes a record that of this kind, with this count and text.
fn read_record(kind: u8, count: u64, text: &[u8], rec: &mut Rec)
    requires { (other : Rec) × IsOf kind count text.now other }
    ensures { (other : Rec) → IsOf kind count text.now other → rec.new ≡ other }
{
    match kind {
        BASE => rec.set_base(count, text),
        TOMB => *rec = Rec::Tomb,
        _ => rec.set_delta(count, text),
    }
}

// Reads the key and the record of this head, which stand at the front of these bytes, over others, and gives the entry's length.
fn read_parts(head: &Head, bytes: &[u8], key: &mut Key, rec: &mut Rec) -> usize
    requires { (front : Key) × (other : Rec) × HasParts head.now bytes.now front other }
    ensures entry { (front : Key) (other : Rec) → HasParts head.now bytes.now front other → (key.new ≡ front) × (rec.new ≡ other) }
    ensures length { result ≡ weight key.new rec.new }
{
    let key_len = head.key_len as usize;
    let text_len = head.text_len as usize;
    let (spelled, rest) = bytes.split_at(key_len);
    let (text, _) = rest.split_at(text_len);
    key.set(spelled);
    read_record(head.kind, head.count, text, rec);
    HEAD_LEN + key_len + text_len
}

/// Reads the entry that is at the front of bytes over another one, and gives its length in bytes. Bytes may follow. Where both are records
/// of one kind, it copies the bytes of the key and of the text, and no more.
pub fn read_over(bytes: &[u8], key: &mut Key, rec: &mut Rec) -> usize
    requires { (front : Key) × (other : Rec) × BeginsWith bytes.now front other }
    ensures entry { (front : Key) (other : Rec) → BeginsWith bytes.now front other → (key.new ≡ front) × (rec.new ≡ other) }
    ensures length { result ≡ weight key.new rec.new }
{
    let head = head_at(bytes);
    let (_, behind) = bytes.split_at(HEAD_LEN);
    read_parts(&head, behind, key, rec)
}

/// Reads the key of the entry at the front of any bytes where it stands, and the entry's length in bytes. `None` exactly where
/// no front of the bytes is the spelling of an entry. Bytes may follow. It copies neither the key nor the record.
pub fn peek_key(bytes: &[u8]) -> Option<(&[u8], usize)>
    ensures found { IfSome result (λ p. (rec : Rec) × BeginsWith bytes.now p.0.now rec × (p.1 ≡ weight p.0.now rec)) }
    ensures none { IfNone result ((key : Key) (rec : Rec) → BeginsWith bytes.now key rec → ⊥) }
{
    if bytes.len() < HEAD_LEN {
        return None;
    }
    let head = head_at(bytes);
    if !head.is_right() {
        return None;
    }
    let behind = &bytes[HEAD_LEN..];
    let key_len = head.key_len as usize;
    let len = key_len + head.text_len as usize;
    if behind.len() < len {
        return None;
    }
    Some((&behind[..key_len], HEAD_LEN + len))
}
