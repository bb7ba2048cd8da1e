//! Folding a newer record over an older one, and settling what is left.
ghost use Rattle.std.specs.Prelude.{◌≡◌, ◌+◌, ◌<◌, ◌≤◌, ◌^◌, [], ◌∷◌, ◌++◌, List, length};
ghost use Rattle.blsm_model.specs.declared.key.Key.{Key};
ghost use Rattle.blsm_model.specs.declared.op.Write.{Write};
ghost use Rattle.blsm_model.specs.Format.{overhead};
ghost use Rattle.blsm_model.specs.Values.{value_at};
ghost use Rattle.record_delta.specs.declared.record.Rec.{Rec};
ghost use Rattle.record_delta.specs.Records.{alone as alone_of, record_of, writes_of_record, weight as weight_with, settle as settle_of, settled, IsRecord, IsWithin};
ghost use Rattle.blsm_model.specs.Tails.{TailFits};
ghost use Rattle.std.specs.List.{All};
ghost use Rattle.record_delta.specs.Folding.{fold as fold_of, record_at, kept_after, StandsFor};

use crate::Rec;
use crate::kinds::{AddPart, Both, Fold, TailPart};
use blsm_model::{Key, Value, Write};
use std::mem::replace;

/// One record that stands for both: what the newer one makes of the older one.
pub fn fold(newer: Rec, older: Rec) -> Rec
    ensures record { result ≡ fold_of newer older }
    // Which two of three are folded first makes no difference.
    ensures associative { (oldest : Rec) → fold_of result oldest ≡ fold_of newer (fold_of older oldest) }
    // It weighs what both do at most, less one key and what an entry has besides, and what the newer one does at least.
    ensures lighter { (key : Key) → weight_with key result + (overhead + length key) ≤ weight_with key newer + weight_with key older }
    ensures grows { (key : Key) → weight_with key newer ≤ weight_with key result }
    ensures within { (key : Key) → IsWithin key newer → IsWithin key older → IsWithin key result }
    // Where the older one stood for writes, the folded one stands for those and the newer one's.
    ensures stands { (key : Key) (writes : List Write) → StandsFor (Some older) writes key → StandsFor (Some result) (writes ++ writes_of_record key newer) key }
{
    combined(newer, &older)
}

// What the newer record makes of the older one, pair by pair.
fn combined(newer: Rec, older: &Rec) -> Rec
    ensures record { result ≡ fold_of newer older.now }
    ensures in_range { IsRecord newer }
{
    match (newer, older) {
        (Rec::Base(value), _) => Rec::Base(value),
        (Rec::Delta(change), Rec::Base(value)) => Rec::Base(change.onto(value)),
        (Rec::Delta(newer), Rec::Delta(older)) => Rec::Delta(newer.over(older)),
        (Rec::Delta(change), Rec::Tomb) => Rec::Base(alone(&change)),
        (Rec::Tomb, _) => Rec::Tomb,
    }
}

/// Folds a record over an older one, where it lies. A base and a tombstone stay, and nothing is copied for them.
pub fn fold_over(newer: &mut Rec, older: &Rec)
    ensures folded { newer.new ≡ fold_of newer.old older.now }
    ensures lighter { (key : Key) → weight_with key newer.new + (overhead + length key) ≤ weight_with key newer.old + weight_with key older.now }
    ensures grows { (key : Key) → weight_with key newer.old ≤ weight_with key newer.new }
{
    match newer {
        Rec::Base(_) => {}
        Rec::Delta(_) => fold_delta(newer, older),
        Rec::Tomb => {}
    }
}

// The same of a delta, which is made anew. It stays a call, as a function zeroes all its locals at entry.
#[inline(never)]
#[tactic(auto, using(crate::proofs::FoldingLemmas::fold_grows))]
fn fold_delta(newer: &mut Rec, older: &Rec)
    ensures folded { newer.new ≡ fold_of newer.old older.now }
    ensures lighter { (key : Key) → weight_with key newer.new + (overhead + length key) ≤ weight_with key newer.old + weight_with key older.now }
    ensures grows { (key : Key) → weight_with key newer.old ≤ weight_with key newer.new }
{
    *newer = combined(replace(newer, Rec::Tomb), older);
}

// The value of a key that had nothing before it was changed so.
fn alone(change: &Both<AddPart, TailPart>) -> Value
    ensures { result ≡ alone_of change.now }
{
    Value {
        count: change.count.amount(),
        text: change.text.text().copy(),
    }
}

/// The value that a record leaves where nothing is older, if it leaves one.
pub fn settle(rec: Rec) -> Option<Value>
    ensures { result ≡ settle_of rec }
{
    match rec {
        Rec::Base(value) => Some(value),
        Rec::Delta(change) => Some(alone(&change)),
        Rec::Tomb => None,
    }
}

// What is kept at a key after one more write.
fn after_write(kept: Option<Rec>, write: &Write, key: &Key) -> Option<Rec>
    requires { TailFits write.now }
    ensures record { result ≡ kept_after write.now (record_of write.now) key.now kept }
    ensures stands { (writes : List Write) → StandsFor kept writes key.now → StandsFor result (writes ++ write.now ∷ []) key.now }
{
    if write.key() != key {
        return kept;
    }
    let newer = Rec::of_write(write);
    match kept {
        Some(older) => Some(fold(newer, older)),
        None => Some(newer),
    }
}

/// The record that a list of writes, the oldest first, leaves at a key. Settled, it is the value that they leave.
pub fn fold_writes(writes: &[Write], key: &Key) -> Option<Rec>
    requires { All TailFits writes.now }
    ensures record { result ≡ record_at writes.now key.now }
    ensures value { settled result ≡ value_at writes.now key.now }
{
    let mut kept = None;
    for write in writes {
        kept = after_write(kept, write, key);
    }
    kept
}
