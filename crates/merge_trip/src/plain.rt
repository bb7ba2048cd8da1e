// What merges do, plainly, over lists that have a record, or none, for each of the keys of the numbers from 0 on.
ghost use Rattle.std.specs.Prelude.{◌<◌};

use crate::asserts::assert_that;
use blsm_model::{Key, Text, Value};
use record_delta::{AddPart, Both, Fold, Rec, TailPart, weight};
use std::alloc::Global;
use std::process::Abort;

/// A record, or none, for each of the keys of the numbers from 0 on.
pub type Records = Vec<Option<Rec>>;

/// Knuth's linear congruential generator.
#[derive(Drop)]
pub struct Draws(pub u64);

impl Draws {
    pub fn below(&mut self, limit: u64) -> u64
        requires { 0 < limit }
        ensures { result < limit }
    {
        self.0 = self
            .0
            .wrapping_mul(6_364_136_223_846_793_005)
            .wrapping_add(1_442_695_040_888_963_407);
        (self.0 >> 33) % limit
    }
}

/// The key of a number: its two bytes, and up to two more. Keys are in the order of their numbers.
pub fn key_of(rt: &impl Abort, number: usize) -> Key {
    assert!(rt; number <= 65_535);
    let [high, low] = (number as u16).to_be_bytes();
    let bytes = [high, low, b'k', b'k'];
    Key::from_bytes(&bytes[..2 + number % 3]).expect(rt, "a key")
}

/// The number of a key that has one.
pub fn number_of(key: &Key) -> usize {
    match key.as_bytes() {
        [high, low, ..] => usize::from(u16::from_be_bytes([*high, *low])),
        _ => 0,
    }
}

/// A base whose text has so many letters.
pub fn base(rt: &impl Abort, count: u64, length: usize) -> Rec {
    let letters = [b'x'; Text::MAX_LEN];
    let letters = letters.get(..length).expect(rt, "so many letters");
    Rec::Base(Value {
        count,
        text: Text::from_bytes(letters).expect(rt, "a text"),
    })
}

/// Of six records three are bases, two deltas and one is a tombstone. A text has fewer letters than this. Sums of counts often wrap.
pub fn draw_record(rt: &impl Abort, draws: &mut Draws, longer: u64) -> Rec
    requires { 0 < longer }
{
    let count = draws
        .below(3)
        .wrapping_mul(u64::MAX / 3)
        .wrapping_add(draws.below(100));
    match draws.below(6) {
        0..=2 => base(rt, count, draws.below(longer) as usize),
        3..=4 => Rec::added(count),
        _ => Rec::Tomb,
    }
}

/// Puts one more at the end of a list.
pub fn push<T: Drop>(rt: &impl Abort, list: &mut Vec<T>, item: T) {
    assert_that(rt, list.push(item).is_ok());
}

// The record of one more key, where it has one.
fn draw_place(rt: &impl Abort, draws: &mut Draws, share: u64, longer: u64) -> Option<Rec>
    requires { 0 < longer }
{
    if draws.below(100) < share {
        Some(draw_record(rt, draws, longer))
    } else {
        None
    }
}

/// A list of so many keys, of which so many in a hundred have a record.
pub fn draw_list(
    rt: &impl Abort,
    alloc: Global,
    draws: &mut Draws,
    keys: usize,
    share: u64,
    longer: u64,
) -> Records
    requires { 0 < longer }
{
    let mut list = Vec::new(alloc);
    for _ in 0..keys {
        push(rt, &mut list, draw_place(rt, draws, share, longer));
    }
    list
}

/// The weight of a list's records.
pub fn weight_of(rt: &impl Abort, list: &[Option<Rec>]) -> u64 {
    let mut sum = 0u64;
    for number in 0..list.len() {
        sum = sum.saturating_add(weight_at(rt, list, number));
    }
    sum
}

fn weight_at(rt: &impl Abort, list: &[Option<Rec>], number: usize) -> u64 {
    match list.get(number) {
        Some(Some(rec)) => weight(&key_of(rt, number), rec),
        _ => 0,
    }
}

// The value that a change alone leaves.
fn alone(change: &Both<AddPart, TailPart>) -> Value {
    Value {
        count: change.count.amount(),
        text: change.text.text().copy(),
    }
}

// The newer record of a key over the older one.
fn folded(newer: Option<&Rec>, older: Option<&Rec>) -> Option<Rec> {
    match (newer, older) {
        (Some(Rec::Delta(more)), Some(Rec::Base(value))) => Some(Rec::Base(Value {
            count: value.count.wrapping_add(more.count.amount()),
            text: value.text.with_tail(more.text.text()),
        })),
        (Some(Rec::Delta(more)), Some(Rec::Delta(older))) => Some(Rec::Delta(more.over(older))),
        (Some(Rec::Delta(more)), Some(Rec::Tomb)) => Some(Rec::Base(alone(more))),
        (Some(rec), _) | (None, Some(rec)) => Some(rec.copy()),
        (None, None) => None,
    }
}

// What is left of a record where nothing is older: a base stays, a delta becomes a base with an empty text, and of a tombstone nothing is
// left.
fn settled_one(rec: &Option<Rec>) -> Option<Rec> {
    match rec {
        Some(Rec::Base(value)) => Some(Rec::Base(value.copy())),
        Some(Rec::Delta(change)) => Some(Rec::Base(alone(change))),
        Some(Rec::Tomb) | None => None,
    }
}

/// What is left of each record where nothing is older.
pub fn settled(rt: &impl Abort, alloc: Global, list: &[Option<Rec>]) -> Records {
    let mut out = Vec::new(alloc);
    for rec in list {
        push(rt, &mut out, settled_one(rec));
    }
    out
}

/// A merge of two lists, as far as it has come: what it made of those keys that it took, and the number behind them.
#[derive(Drop)]
pub struct Plain {
    pub out: Records,
    pub next: usize,
}

impl Plain {
    pub fn begin(rt: &impl Abort, alloc: Global, keys: usize) -> Plain {
        let mut out = Vec::new(alloc);
        for _ in 0..keys {
            push(rt, &mut out, None);
        }
        Plain { out, next: 0 }
    }

    /// The greatest key that was taken.
    pub fn cursor(&self, rt: &impl Abort) -> Option<Key> {
        match self.next.checked_sub(1) {
            Some(number) => Some(key_of(rt, number)),
            None => None,
        }
    }

    /// Takes keys in their order, with the records of both lists, until these weigh a quantum or nothing is left. Gives what they weigh.
    pub fn quantum(
        &mut self,
        rt: &impl Abort,
        newer: &[Option<Rec>],
        older: &[Option<Rec>],
        quantum: u64,
    ) -> u64 {
        let mut taken = 0u64;
        for number in self.next..self.out.len() {
            if taken >= quantum {
                return taken;
            }
            let group = weight_at(rt, newer, number).saturating_add(weight_at(rt, older, number));
            if group > 0 {
                taken = taken.saturating_add(group);
                self.take(newer, older, number);
            }
        }
        taken
    }

    fn take(&mut self, newer: &[Option<Rec>], older: &[Option<Rec>], number: usize) {
        if let Some(place) = self.out.get_mut(number) {
            *place = folded(record_at(newer, number), record_at(older, number));
        }
        self.next = number.saturating_add(1);
    }
}

fn record_at(list: &[Option<Rec>], number: usize) -> Option<&Rec> {
    match list.get(number) {
        Some(Some(rec)) => Some(rec),
        _ => None,
    }
}

/// Folds a record over the one of its key in a list.
pub fn fold_into(list: &mut [Option<Rec>], key: &Key, rec: &Rec) {
    if let Some(place) = list.get_mut(number_of(key)) {
        *place = folded(Some(rec), place.as_ref());
    }
}
