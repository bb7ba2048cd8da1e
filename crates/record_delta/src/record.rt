//! Records and their weight.
ghost use Rattle.std.specs.Prelude.{◌≡◌, ◌≤◌, ⊤, [], ◌∷◌, length};
ghost use Rattle.blsm_model.specs.Format.{least_weight, most_tail, most_text, most_weight};
ghost use Rattle.blsm_model.specs.Values.{key_of, weight_of};
ghost use Rattle.blsm_model.specs.Tails.{TailFits};
ghost use Rattle.record_delta.specs.declared.record.Rec.TheVariants as rec;
ghost use Rattle.record_delta.specs.Records.{record_of, writes_of_record, text_limit, text_of, IsRecord, IsWithin, weight as weight_with};
ghost use Rattle.record_delta.specs.Folding.{StandsForMore};

use crate::kinds::{AddPart, Both, TailPart};
use blsm_model::{Key, Op, Text, Value, Write};
use std::alloc::AllocError;

/// What a table keeps of the writes of a key.
#[derive(PartialEq, Eq, Debug, Drop)]
pub enum Rec {
    /// The key has this value, whatever is older.
    Base(Value),
    /// What is older is changed so: an amount is added to its count, and a tail is put behind its text.
    Delta(Both<AddPart, TailPart>),
    /// The key is absent, whatever is older.
    Tomb,
}

impl Clone for Rec {
    ghost is_clone = { λ rec copy. copy ≡ rec };

    ghost is_infallible = { λ _. ⊤ };

    fn clone(&self) -> Result<Rec, AllocError> {
        Ok(self.copy())
    }
}

impl Rec {
    /// The same record once more. It takes no memory.
    pub fn copy(&self) -> Rec
        ensures same { result ≡ self.now }
        ensures in_range { IsRecord self.now }
    {
        match self {
            Rec::Base(value) => Rec::Base(value.copy()),
            Rec::Delta(change) => Rec::Delta(Both {
                count: change.count.copy(),
                text: change.text.copy(),
            }),
            Rec::Tomb => Rec::Tomb,
        }
    }

    /// Becomes the same as another one. Where both are bases, or both deltas, it copies the bytes of the text and no more.
    pub fn set(&mut self, other: &Rec)
        ensures { self.new ≡ other.now }
    {
        match other {
            Rec::Base(value) => self.set_base(value.count, value.text.as_bytes()),
            Rec::Delta(change) => {
                self.set_delta(change.count.amount(), change.text.text().as_bytes())
            }
            Rec::Tomb => *self = Rec::Tomb,
        }
    }

    /// Becomes a base of this count and text, of at most 435 bytes. Where it was one, it copies these bytes and no more.
    pub fn set_base(&mut self, count: u64, text: &[u8])
        requires { length text.now ≤ most_text }
        ensures { self.new ≡ rec.Base (record { count = count; text = text.now }) }
    {
        if let Rec::Base(value) = self {
            value.count = count;
            value.text.set(text);
            return;
        }
        *self = Rec::Base(Value {
            count,
            text: Text::empty(),
        });
        match self {
            Rec::Base(value) => value.text.set(text),
            _ => unreachable!(),
        }
    }

    /// Becomes a delta of this amount and tail, of at most 64 bytes. Where it was one, it copies these bytes and no more.
    pub fn set_delta(&mut self, amount: u64, tail: &[u8])
        requires { length tail.now ≤ most_tail }
        ensures { self.new ≡ rec.Delta (record { count = amount; text = tail.now }) }
    {
        if let Rec::Delta(change) = self {
            change.count = AddPart::new(amount);
            change.text.set(tail);
            return;
        }
        *self = Rec::added(amount);
        match self {
            Rec::Delta(change) => change.text.set(tail),
            _ => unreachable!(),
        }
    }

    /// The delta that adds this amount.
    pub fn added(amount: u64) -> Rec
        ensures { result ≡ rec.Delta (record { count = amount; text = [] }) }
    {
        Rec::Delta(Both {
            count: AddPart::new(amount),
            text: TailPart::empty(),
        })
    }

    /// The delta that puts this tail behind.
    pub fn tailed(tail: TailPart) -> Rec
        ensures { result ≡ rec.Delta (record { count = 0; text = tail }) }
    {
        Rec::Delta(Both {
            count: AddPart::new(0),
            text: tail,
        })
    }

    /// The record of a write: a put's is a base, an add's and a tail's a delta, a del's a tombstone. With the write's key it weighs
    /// what the write does.
    #[tactic(auto, using(crate::proofs::FoldingLemmas::stands_more))]
    pub fn of_write(write: &Write) -> Rec
        requires { TailFits write.now }
        ensures record { result ≡ record_of write.now }
        ensures write { writes_of_record (key_of write.now) result ≡ write.now ∷ [] }
        ensures weight { weight_with (key_of write.now) result ≡ weight_of write.now }
        ensures stands { StandsForMore write.now result }
    {
        match write {
            Write::Put(_, value) => Rec::Base(value.copy()),
            Write::Add(_, count) => Rec::added(*count),
            Write::Tail(_, tail) => match TailPart::new(tail.copy()) {
                Some(tail) => Rec::tailed(tail),
                None => unreachable!(),
            },
            Write::Del(_) => Rec::Tomb,
        }
    }
}

/// The weight of a record with its key, in bytes: 13, the key, which has one byte at least, and the text of a base or the tail of a delta.
pub fn weight(key: &Key, rec: &Rec) -> u64
    ensures weight { result ≡ weight_with key.now rec.now }
    ensures not_empty { 1 ≤ length key.now }
    ensures least { least_weight ≤ result }
    ensures within { IsWithin key.now rec.now }
    ensures most { result ≤ most_weight }
{
    Op::OVERHEAD + key.as_bytes().len() as u64 + text_length(rec)
}

// How many bytes the text of a base or the tail of a delta has.
fn text_length(rec: &Rec) -> u64
    ensures length { result ≡ length (text_of rec.now) }
    ensures fits { result ≤ text_limit rec.now }
    ensures most { result ≤ most_text }
{
    match rec {
        Rec::Base(value) => value.text.as_bytes().len() as u64,
        Rec::Delta(change) => change.text.text().as_bytes().len() as u64,
        Rec::Tomb => 0,
    }
}
