// Keys, writes and drawn numbers.
ghost use Rattle.std.specs.Prelude.{◌<◌};

use blsm_model::{Key, Op, Text, Value};
use std::process::Abort;

/// Knuth's linear congruential generator.
#[derive(Drop)]
pub struct Draws(pub u64);

impl Draws {
    pub fn below(&mut self, limit: u64) -> u64
        requires { 0 < limit }
        ensures { result < limit }
    {
        self.0 = self
            .0
            .wrapping_mul(6_364_136_223_846_793_005)
            .wrapping_add(1_442_695_040_888_963_407);
        (self.0 >> 33) % limit
    }
}

/// The key of a number below 256. Keys are in the order of their numbers.
pub fn key_of(rt: &impl Abort, number: usize) -> Key {
    let byte = u8::try_from(number).expect(rt, "a number");
    Key::from_bytes(&[b'k', byte]).expect(rt, "a key")
}

/// The number of a key that has one.
pub fn number_of(key: &Key) -> usize {
    match key.as_bytes() {
        [_, byte] => usize::from(*byte),
        _ => 0,
    }
}

/// A value with a text of so many bytes.
pub fn value(rt: &impl Abort, count: u64, length: usize) -> Value {
    let bytes = [b'x'; Text::MAX_LEN];
    let text = bytes.get(..length).expect(rt, "a text");
    Value {
        count,
        text: Text::from_bytes(text).expect(rt, "a text"),
    }
}

pub fn put(rt: &impl Abort, number: usize, count: u64, length: usize) -> Op {
    Op::Put(key_of(rt, number), value(rt, count, length))
}

/// A put with the longest text.
pub fn long(rt: &impl Abort, number: usize, count: u64) -> Op {
    put(rt, number, count, Text::MAX_LEN)
}

pub fn add(rt: &impl Abort, number: usize, count: u64) -> Op {
    Op::Add(key_of(rt, number), count)
}

pub fn tail(rt: &impl Abort, number: usize, text: &[u8]) -> Op {
    let text = Text::from_bytes(text).expect(rt, "a text");
    Op::Tail(key_of(rt, number), text)
}

// A tail of so many times one letter.
fn draw_tail(rt: &impl Abort, draws: &mut Draws, number: usize) -> Op {
    let letter = b'a'.wrapping_add(draws.below(26) as u8);
    let length = 1 + draws.below(Text::MAX_TAIL as u64) as usize;
    let text = [letter; Text::MAX_TAIL];
    tail(rt, number, text.get(..length).expect(rt, "a text"))
}

pub fn del(rt: &impl Abort, number: usize) -> Op {
    Op::Del(key_of(rt, number))
}

pub fn new(rt: &impl Abort, number: usize, count: u64, length: usize) -> Op {
    Op::New(key_of(rt, number), value(rt, count, length))
}

/// A swap from a count to another one.
pub fn swap(rt: &impl Abort, number: usize, from: u64, count: u64, length: usize) -> Op {
    Op::Swap(key_of(rt, number), from, value(rt, count, length))
}

// A write of few keys and few counts, so that conditions often hold: of six two are news, two swaps, one adds and one deletes.
fn draw_contended(rt: &impl Abort, draws: &mut Draws, length: usize) -> Op {
    let number = draws.below(6) as usize;
    let count = draws.below(3);
    match draws.below(6) {
        0..=1 => new(rt, number, count, length),
        2..=3 => swap(rt, number, draws.below(3), count, length),
        4 => add(rt, number, count),
        _ => del(rt, number),
    }
}

/// Of sixteen writes five put, three add, two put a tail and two delete; the key's number is below this. Sums of counts often wrap. The other
/// four are of few keys that are contended for.
pub fn draw_write(rt: &impl Abort, draws: &mut Draws, keys: u64) -> Op
    requires { 0 < keys }
{
    let number = draws.below(keys) as usize;
    let count = draws
        .below(3)
        .wrapping_mul(u64::MAX / 3)
        .wrapping_add(draws.below(100));
    let length = draws.below(Text::MAX_LEN as u64 + 1) as usize;
    match draws.below(16) {
        0..=4 => put(rt, number, count, length),
        5..=7 => add(rt, number, count),
        8..=9 => draw_tail(rt, draws, number),
        10..=11 => del(rt, number),
        _ => draw_contended(rt, draws, length),
    }
}
