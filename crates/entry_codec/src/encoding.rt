//! Writing an entry.
ghost use Rattle.std.specs.Prelude.{◌≡◌, ◌+◌, ◌≤◌, ◌++◌, List, ℕ, length, drop};
ghost use Rattle.blsm_model.specs.Format.{most_text, most_weight};
ghost use Rattle.record_delta.specs.Records.{weight, count_of, text_limit, text_of};
ghost use Rattle.entry_codec.specs.Spelling.{kind_of, head, spelling, over_front, IsEntry};

use crate::format::{BASE, DELTA, HEAD_LEN, TAIL, TOMB};
use blsm_model::Key;
use record_delta::Rec;

fn kind(rec: &Rec) -> u8
    ensures { result ≡ kind_of rec.now }
{
    match rec {
        Rec::Base(_) => BASE,
        Rec::Delta(change) if change.text.text().as_bytes().is_empty() => DELTA,
        Rec::Delta(_) => TAIL,
        Rec::Tomb => TOMB,
    }
}

fn count(rec: &Rec) -> u64
    ensures { result ≡ count_of rec.now }
{
    match rec {
        Rec::Base(value) => value.count,
        Rec::Delta(change) => change.count.amount(),
        Rec::Tomb => 0,
    }
}

fn text(rec: &Rec) -> &[u8]
    ensures text { result.now ≡ text_of rec.now }
    ensures limit { length result.now ≤ text_limit rec.now }
    ensures fits { length result.now ≤ most_text }
{
    match rec {
        Rec::Base(value) => value.text.as_bytes(),
        Rec::Delta(change) => change.text.text().as_bytes(),
        Rec::Tomb => &[],
    }
}

// What stands before the key.
#[tactic(auto, unfolding(crate::specs::Spelling::head))]
fn head_bytes(kind: u8, key_len: u16, text_len: u16, count: u64) -> [u8; HEAD_LEN]
    ensures { result ≡ head kind key_len text_len count }
{
    let [k1, k0] = key_len.to_be_bytes();
    let [t1, t0] = text_len.to_be_bytes();
    let [c7, c6, c5, c4, c3, c2, c1, c0] = count.to_be_bytes();
    [kind, k1, k0, t1, t0, c7, c6, c5, c4, c3, c2, c1, c0]
}

// Writes bytes at a place, and says where they end. Where what stands before the place was written over what was there
// originally, so are the bytes.
fn put(out: &mut [u8], at: usize, bytes: &[u8]) -> usize
    requires { at + length bytes.now ≤ length out.old }
    ensures end { result ≡ at + length bytes.now }
    ensures written { (front original : List ℕ) → length front ≡ at → out.old ≡ over_front front original
        → out.new ≡ over_front (front ++ bytes.now) original }
{
    let end = at + bytes.len();
    out[at..end].copy_from_slice(bytes);
    end
}

/// Writes an entry at the front of `out`, which has room for the longest, 512 bytes. The answer is the entry's length in
/// bytes, its weight. The bytes behind the entry stay as they were.
pub fn encode(key: &Key, rec: &Rec, out: &mut [u8]) -> usize
    requires { most_weight ≤ length out.old }
    ensures spelled { out.new ≡ spelling key.now rec.now ++ drop (weight key.now rec.now) out.old }
    ensures entry { IsEntry key.now rec.now }
    ensures weight { result ≡ weight key.now rec.now }
    ensures len { result ≡ length (spelling key.now rec.now) }
{
    let key = key.as_bytes();
    let text = text(rec);
    let head = head_bytes(kind(rec), key.len() as u16, text.len() as u16, count(rec));
    let key_at = put(out, 0, &head);
    let text_at = put(out, key_at, key);
    put(out, text_at, text)
}
