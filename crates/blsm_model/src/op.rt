//! Writes and commands.
ghost use Rattle.std.specs.Prelude.{◌≡◌, ◌↔◌, ◌∷◌, ◌<◌, ◌≤◌, ◌^◌, [], IsTrue, length};
ghost use Rattle.blsm_model.specs.declared.op.Op.TheVariants as op;
ghost use Rattle.blsm_model.specs.Format.{least_weight, most_key, most_text, most_weight};
ghost use Rattle.blsm_model.specs.Histories.{is_met_by, looks_first, writes_of};
ghost use Rattle.blsm_model.specs.Tails.{TailFits};
ghost use Rattle.blsm_model.specs.Legal.{is_look, is_write, total_weight, TailsFit};
ghost use Rattle.blsm_model.specs.Values.{added_count, key_of, text_written};

use crate::{Key, Text, Value};

/// A write of one key.
#[derive(PartialEq, Eq, Debug, Drop)]
pub enum Write {
    /// Sets both parts of the value.
    Put(Key, Value),
    /// Adds to the count, modulo 2^64. An absent key gets this count and the empty text.
    Add(Key, u64),
    /// Puts a tail behind the text, of which the last 64 bytes stay. An absent key gets the count 0 and this text.
    Tail(Key, Text),
    /// Removes the key.
    Del(Key),
}

impl Write {
    /// The same write once more. It takes no memory.
    pub fn copy(&self) -> Write
        ensures { result ≡ self.now }
    {
        match self {
            Write::Put(key, value) => Write::Put(key.copy(), value.copy()),
            Write::Add(key, count) => Write::Add(key.copy(), *count),
            Write::Tail(key, tail) => Write::Tail(key.copy(), tail.copy()),
            Write::Del(key) => Write::Del(key.copy()),
        }
    }

    /// The key that is written.
    pub fn key(&self) -> &Key
        ensures { result.now ≡ key_of self.now }
    {
        match self {
            Write::Put(key, _) | Write::Add(key, _) | Write::Tail(key, _) | Write::Del(key) => key,
        }
    }
}

// What copies a tail, a new or a swap stays a call: a function zeroes all its locals at entry, and their texts would be such of each copy.
#[inline(never)]
fn tail_of(key: &Key, tail: &Text) -> Op
    ensures { result ≡ op.Tail key.now tail.now }
{
    Op::Tail(key.copy(), tail.copy())
}

#[inline(never)]
fn new_of(key: &Key, value: &Value) -> Op
    ensures { result ≡ op.New key.now value.now }
{
    Op::New(key.copy(), value.copy())
}

#[inline(never)]
fn swap_of(key: &Key, count: u64, value: &Value) -> Op
    ensures { result ≡ op.Swap key.now count value.now }
{
    Op::Swap(key.copy(), count, value.copy())
}

/// A command of a caller.
#[derive(PartialEq, Eq, Debug, Drop)]
pub enum Op {
    /// Sets both parts of the key's value.
    Put(Key, Value),
    /// Adds to the key's count, modulo 2^64.
    Add(Key, u64),
    /// Puts a tail of 1 to 64 bytes behind the key's text, of which the last 64 bytes stay.
    Tail(Key, Text),
    /// Removes the key.
    Del(Key),
    /// Puts where the key is absent.
    New(Key, Value),
    /// Puts where the key is present with this count.
    Swap(Key, u64, Value),
    /// Looks a key up.
    Get(Key),
    /// Holds the rows from the first key on, without the second: a snapshot, which replaces the caller's last one.
    Hold(Key, Key),
    /// Takes so many of the rows that the caller holds, from the first on.
    Next(u32),
    /// Drops the rows that the caller holds.
    Release,
    /// Does at most so many turns of merging.
    Work(u32),
}

impl Op {
    /// How many bytes a write weighs beside its key and its text.
    pub const OVERHEAD: u64 = 13;

    /// How many bytes a write weighs at most: the overhead, a key of 64 bytes and a text of 435.
    pub const MAX_WEIGHT: u64 = 512;

    /// The same command once more. It takes no memory.
    pub fn copy(&self) -> Op
        ensures { result ≡ self.now }
    {
        match self {
            Op::Put(key, value) => Op::Put(key.copy(), value.copy()),
            Op::Add(key, count) => Op::Add(key.copy(), *count),
            Op::Tail(key, tail) => tail_of(key, tail),
            Op::Del(key) => Op::Del(key.copy()),
            Op::New(key, value) => new_of(key, value),
            Op::Swap(key, count, value) => swap_of(key, *count, value),
            Op::Get(key) => Op::Get(key.copy()),
            Op::Hold(low, high) => Op::Hold(low.copy(), high.copy()),
            Op::Next(n) => Op::Next(*n),
            Op::Release => Op::Release,
            Op::Work(n) => Op::Work(*n),
        }
    }

    /// Whether a tail that it writes has 1 to 64 bytes.
    pub fn fits(&self) -> bool
        ensures { IsTrue result ↔ TailsFit self.now }
    {
        match self {
            Op::Tail(_, tail) => (1..=Text::MAX_TAIL).contains(&tail.as_bytes().len()),
            _ => true,
        }
    }

    /// Whether it is a put, an add, a tail, a del, a new or a swap.
    pub fn is_write(&self) -> bool
        ensures { result ≡ is_write self.now }
    {
        matches!(
            self,
            Op::Put(..) | Op::Add(..) | Op::Tail(..) | Op::Del(_) | Op::New(..) | Op::Swap(..)
        )
    }

    /// Whether it is a write that first looks at its key: a new or a swap.
    pub fn looks_first(&self) -> bool
        ensures { result ≡ looks_first self.now }
    {
        matches!(self, Op::New(..) | Op::Swap(..))
    }

    /// Whether its condition holds where this is the value of its key: a new asks that there is none, a swap that there is one with its count,
    /// and the others ask nothing.
    pub fn is_met(&self, value: &Option<Value>) -> bool
        ensures { result ≡ is_met_by self.now value.now }
    {
        match self {
            Op::New(..) => value.is_none(),
            Op::Swap(_, count, _) => match value {
                Some(value) => value.count == *count,
                None => false,
            },
            _ => true,
        }
    }

    /// Whether it only looks, as a get does.
    pub fn is_look(&self) -> bool
        ensures { result ≡ is_look self.now }
    {
        matches!(self, Op::Get(_))
    }

    /// The weight of a write, in bytes: 14 to 512.
    pub fn weight(&self) -> u64
        requires { IsTrue (is_write self.now) }
        ensures weight { result ≡ total_weight (writes_of self.now) }
        ensures least { least_weight ≤ result }
        ensures bound { result ≤ most_weight }
    {
        match self {
            Op::Put(key, value) => {
                Op::OVERHEAD + key.as_bytes().len() as u64 + value.text.as_bytes().len() as u64
            }
            Op::Add(key, _) => Op::OVERHEAD + key.as_bytes().len() as u64,
            Op::Tail(key, tail) => {
                Op::OVERHEAD + key.as_bytes().len() as u64 + tail.as_bytes().len() as u64
            }
            Op::Del(key) => Op::OVERHEAD + key.as_bytes().len() as u64,
            Op::New(key, value) | Op::Swap(key, _, value) => {
                Op::OVERHEAD + key.as_bytes().len() as u64 + value.text.as_bytes().len() as u64
            }
            _ => unreachable!(),
        }
    }

    /// The write that the command asks for, where it is done. Its count is a number of 64 bits, and its lengths are within the format's.
    pub fn write(&self) -> Write
        requires { IsTrue (is_write self.now) }
        ensures tail { TailsFit self.now → TailFits result }
        ensures write { writes_of self.now ≡ result ∷ [] }
        ensures count { added_count result < 2 ^ 64 }
        ensures key { (1 ≤ length (key_of result)) × (length (key_of result) ≤ most_key) }
        ensures text { length (text_written result) ≤ most_text }
    {
        match self {
            Op::Put(key, value) => Write::Put(key.copy(), value.copy()),
            Op::Add(key, count) => Write::Add(key.copy(), *count),
            Op::Tail(key, tail) => Write::Tail(key.copy(), tail.copy()),
            Op::Del(key) => Write::Del(key.copy()),
            Op::New(key, value) | Op::Swap(key, _, value) => Write::Put(key.copy(), value.copy()),
            _ => unreachable!(),
        }
    }
}
