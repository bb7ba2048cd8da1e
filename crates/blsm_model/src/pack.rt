//! Batches: two to 32 writes that are taken as one.
ghost use Rattle.std.specs.Prelude.{◌≡◌, ◌+◌, ◌*◌, ◌≤◌, ◌<◌, ◌↔◌, ◌++◌, ◌∷◌, [], length, take, drop, sum_by, slice_index_or, IsNone, IsTrue, IfSome};
ghost use Rattle.std.specs.List.{All, AllByRecursion, list_all};
ghost use Rattle.blsm_model.specs.declared.op.Write.{Write};
ghost use Rattle.blsm_model.specs.Format.{most_pack, most_text, most_writes, overhead};
ghost use Rattle.blsm_model.specs.Legal.{total_weight};
ghost use Rattle.blsm_model.specs.Tails.{TailFits};
ghost use Rattle.blsm_model.specs.Values.{is_removal, key_of, text_written, weight_of};
ghost use Rattle.blsm_model.specs.Packs.{is_del_head, AreHeads, FitsTail, IsHead, IsHeadOf, IsPack, MayPack, len_of, write_in, writes_in};

use crate::{Key, Op, Text, Value, Write};
use arrayvec::ArrayVec;
use std::marker::Model;

// What kind of write it is.
#[derive(Clone, Copy, Debug, Default, Drop)]
pub(crate) enum Kind {
    #[default]
    Put,
    Add,
    Tail,
    Del,
}

// A write without the bytes of its key and its text.
#[derive(Clone, Copy, Debug, Default, Drop)]
pub(crate) struct Head {
    pub(crate) count: u64,
    pub(crate) text_len: u16,
    pub(crate) key_len: u8,
    pub(crate) kind: Kind,
}

impl Head {
    fn is_del(&self) -> bool
        ensures { result ≡ is_del_head self.now }
    {
        matches!(self.kind, Kind::Del)
    }

    // Whether it is no tail's, or one of 1 to 64 bytes.
    fn fits(&self) -> bool
        ensures { IsTrue result ↔ FitsTail self.now.kind self.now.text_len }
    {
        match self.kind {
            Kind::Tail => (1..=Text::MAX_TAIL).contains(&(self.text_len as usize)),
            _ => true,
        }
    }
}

fn are_dels(heads: &[Head]) -> bool
    ensures { IsTrue result ↔ All (λ h. IsTrue (is_del_head h)) heads.now }
{
    heads.iter().all(|head| head.is_del())
}

fn have_tails(heads: &[Head]) -> bool
    ensures { IsTrue result ↔ All (λ h. FitsTail h.kind h.text_len) heads.now }
{
    heads.iter().all(|head| head.fits())
}

// How many bytes of keys and texts two writes have at most that weigh no more than a batch may.
const BYTES: usize = Pack::MOST_WEIGHT as usize - 2 * Op::OVERHEAD as usize;

/// Two to 32 writes, of 1,024 bytes of weight at most. Contracts see it as the list of its writes.
#[derive(Debug, Drop)]
pub struct Pack {
    heads: ArrayVec<Head, { Pack::MOST }>,
    bytes: ArrayVec<u8, BYTES>,
}

impl Model for Pack {
    ghost use Rattle.std.specs.Prelude.{List};
    ghost use Rattle.blsm_model.specs.declared.op.Write.{Write};
    ghost use Rattle.blsm_model.specs.Packs.{IsPack, writes_in};

    ghost Value = { List Write };

    ghost view = { λ p. writes_in p.heads.items p.bytes.items };

    ghost invariant = { λ p. IsPack p.heads.items p.bytes.items };
}

// The bytes of a write's text, if it has one.
fn text_of(write: &Write) -> &[u8]
    ensures text { result.now ≡ text_written write.now }
    ensures fits { length result.now ≤ most_text }
{
    match write {
        Write::Put(_, value) => value.text.as_bytes(),
        Write::Tail(_, tail) => tail.as_bytes(),
        Write::Add(_, _) | Write::Del(_) => &[],
    }
}

fn head_of(write: &Write) -> Head
    ensures { IsHeadOf result write.now }
{
    let key_len = write.key().as_bytes().len() as u8;
    let text_len = text_of(write).len() as u16;
    match write {
        Write::Put(_, value) => Head {
            count: value.count,
            text_len,
            key_len,
            kind: Kind::Put,
        },
        Write::Add(_, count) => Head {
            count: *count,
            text_len,
            key_len,
            kind: Kind::Add,
        },
        Write::Tail(_, _) => Head {
            count: 0,
            text_len,
            key_len,
            kind: Kind::Tail,
        },
        Write::Del(_) => Head {
            count: 0,
            text_len,
            key_len,
            kind: Kind::Del,
        },
    }
}

// The weight of a write, in bytes.
fn weight_of(write: &Write) -> u64
    ensures weight { result ≡ weight_of write.now }
    ensures small { result ≤ 512 }
{
    Op::OVERHEAD + write.key().as_bytes().len() as u64 + text_of(write).len() as u64
}

// The weight of so many writes together.
fn total_of(writes: &[Write]) -> u64
    requires { length writes.now ≤ most_writes }
    ensures { result ≡ total_weight writes.now }
{
    let mut total = 0;
    for write in writes {
        total += weight_of(write);
    }
    total
}

// Puts a write behind the others.
fn put_in(
    heads: &mut ArrayVec<Head, { Pack::MOST }>,
    bytes: &mut ArrayVec<u8, BYTES>,
    write: &Write,
)
    requires heads { length heads.old.items < most_writes }
    requires bytes { length bytes.old.items + length (key_of write.now) + length (text_written write.now) ≤ BYTES }
    requires are { AreHeads heads.old.items bytes.old.items }
    ensures are { AreHeads heads.new.items bytes.new.items }
    ensures writes { writes_in heads.new.items bytes.new.items ≡ writes_in heads.old.items bytes.old.items ++ write.now ∷ [] }
    ensures one { length heads.new.items ≡ length heads.old.items + 1 }
    ensures long { length bytes.new.items ≡ length bytes.old.items + length (key_of write.now) + length (text_written write.now) }
{
    heads.push(head_of(write));
    push_all(bytes, write.key().as_bytes());
    push_all(bytes, text_of(write));
}

// Puts bytes at the end, where there is room for them.
fn push_all(bytes: &mut ArrayVec<u8, BYTES>, more: &[u8])
    requires { length bytes.old.items + length more.now ≤ BYTES }
    ensures { bytes.new.items ≡ bytes.old.items ++ more.now }
{
    match bytes.try_extend_from_slice(more) {
        Ok(()) => {}
        Err(_) => unreachable!(),
    }
}

// How many bytes the heads before a place have.
fn bytes_before(heads: &[Head], place: usize) -> usize
    requires inside { place ≤ length heads.now }
    requires small { sum_by len_of heads.now ≤ most_pack }
    ensures { result ≡ sum_by len_of (take place heads.now) }
{
    let mut at = 0;
    'places: for before in 0..place {
        at += heads[before].key_len as usize + heads[before].text_len as usize;
    }
    at
}

// The write of a head whose bytes these begin with.
fn write_of(head: &Head, bytes: &[u8]) -> Write
    requires head { IsHead head.now }
    requires long { len_of head.now ≤ length bytes.now }
    ensures { result ≡ write_in head.now bytes.now }
{
    let (key, rest) = bytes.split_at(head.key_len as usize);
    let text = &rest[..head.text_len as usize];
    let (Some(key), Some(text)) = (Key::from_bytes(key), Text::from_bytes(text)) else {
        unreachable!()
    };
    match head.kind {
        Kind::Put => Write::Put(
            key,
            Value {
                count: head.count,
                text,
            },
        ),
        Kind::Add => Write::Add(key, head.count),
        Kind::Tail => Write::Tail(key, text),
        Kind::Del => Write::Del(key),
    }
}

impl Pack {
    /// How many writes a batch has at most.
    pub const MOST: usize = 32;

    /// How much they weigh together at most, in bytes.
    pub const MOST_WEIGHT: u64 = 1_024;

    /// The batch of these writes; `None` for fewer than two or more than 32, or more than 1,024 bytes of weight. It takes no memory.
    pub fn of(writes: &[Write]) -> Option<Pack>
        ensures none { IsNone result ↔ (MayPack writes.now → ⊥) }
        ensures some { IfSome result (λ pack. pack ≡ writes.now) }
    {
        if writes.len() < 2 || Pack::MOST < writes.len() {
            return None;
        }
        if Pack::MOST_WEIGHT < total_of(writes) {
            return None;
        }
        let mut heads = ArrayVec::new();
        let mut bytes = ArrayVec::new();
        for write in writes {
            put_in(&mut heads, &mut bytes, write);
        }
        Some(Pack { heads, bytes })
    }

    /// The same batch once more. It takes no memory.
    pub fn copy(&self) -> Pack
        ensures { result ≡ self.now }
    {
        match self.heads.clone() {
            Ok(heads) => match self.bytes.clone() {
                Ok(bytes) => Pack { heads, bytes },
                Err(_) => unreachable!(),
            },
            Err(_) => unreachable!(),
        }
    }

    /// Whether all its writes are dels.
    pub fn are_dels(&self) -> bool
        ensures { result ≡ list_all is_removal self.now }
    {
        are_dels(self.heads.as_slice())
    }

    /// Whether each of its tails has 1 to 64 bytes.
    pub fn fits(&self) -> bool
        ensures { IsTrue result ↔ AllByRecursion TailFits self.now }
    {
        have_tails(self.heads.as_slice())
    }

    /// How many writes it has: two to 32.
    pub fn len(&self) -> usize
        ensures len { result ≡ length self.now }
        ensures some { 2 ≤ result }
        ensures few { result ≤ most_writes }
    {
        self.heads.len()
    }

    /// The weight of its writes together, in bytes.
    pub fn weight(&self) -> u64
        ensures weight { result ≡ total_weight self.now }
        ensures light { result ≤ most_pack }
    {
        Op::OVERHEAD * self.heads.len() as u64 + self.bytes.len() as u64
    }

    /// A copy of its write at a place, counted from 0.
    pub fn write(&self, place: usize) -> Write
        requires { place < length self.now }
        ensures { result ≡ slice_index_or self.now place result }
    {
        let at = bytes_before(self.heads.as_slice(), place);
        write_of(&self.heads.as_slice()[place], &self.bytes.as_slice()[at..])
    }
}
