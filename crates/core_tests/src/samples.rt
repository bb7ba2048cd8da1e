// Commands, keys and numbers.
ghost use Rattle.std.specs.Prelude.{◌<◌};

use blsm_model::{Geometry, Key, Op, Text, Value};
use std::process::Abort;

/// Knuth's linear congruential generator.
#[derive(Drop)]
pub struct Draws(pub u64);

impl Draws {
    pub fn below(&mut self, limit: u64) -> u64
        requires { 0 < limit }
        ensures { result < limit }
    {
        self.0 = self
            .0
            .wrapping_mul(6_364_136_223_846_793_005)
            .wrapping_add(1_442_695_040_888_963_407);
        (self.0 >> 33) % limit
    }
}

pub fn key(rt: &impl Abort, name: &[u8]) -> Key {
    Key::from_bytes(name).expect(rt, "a key")
}

pub fn value(rt: &impl Abort, count: u64, text: &[u8]) -> Value {
    Value {
        count,
        text: Text::from_bytes(text).expect(rt, "a text"),
    }
}

pub fn put(rt: &impl Abort, name: &[u8], count: u64, text: &[u8]) -> Op {
    Op::Put(key(rt, name), value(rt, count, text))
}

pub fn add(rt: &impl Abort, name: &[u8], count: u64) -> Op {
    Op::Add(key(rt, name), count)
}

pub fn tail(rt: &impl Abort, name: &[u8], text: &[u8]) -> Op {
    Op::Tail(key(rt, name), Text::from_bytes(text).expect(rt, "a text"))
}

pub fn del(rt: &impl Abort, name: &[u8]) -> Op {
    Op::Del(key(rt, name))
}

pub fn new(rt: &impl Abort, name: &[u8], count: u64, text: &[u8]) -> Op {
    Op::New(key(rt, name), value(rt, count, text))
}

pub fn swap(rt: &impl Abort, name: &[u8], from: u64, count: u64, text: &[u8]) -> Op {
    Op::Swap(key(rt, name), from, value(rt, count, text))
}

/// A put of the greatest key that a number has, with the text that makes it weigh 512 bytes.
pub fn put_of(rt: &impl Abort, number: usize) -> Op {
    let key = key_of(rt, number.saturating_mul(5).saturating_add(4));
    put(rt, key.as_bytes(), 0, &[b'x'; 435])
}

/// The key of a number below 4,096: its two bytes, and up to two more, or for each fifth one as many as a key may have. Keys are in the
/// order of their numbers.
pub fn key_of(rt: &impl Abort, number: usize) -> Key {
    let [high, low] = u16::try_from(number).expect(rt, "a number").to_be_bytes();
    let mut bytes = [b'k'; Key::MAX_LEN];
    bytes[0] = high;
    bytes[1] = low;
    let length = if number % 5 == 4 {
        Key::MAX_LEN
    } else {
        2 + number % 3
    };
    key(rt, bytes.get(..length).expect(rt, "a key"))
}

/// The number of a key that has one.
pub fn number_of(key: &Key) -> usize {
    match key.as_bytes() {
        [high, low, ..] => usize::from(u16::from_be_bytes([*high, *low])),
        _ => 0,
    }
}

// A value with a text of any length.
fn draw_value(rt: &impl Abort, draws: &mut Draws, count: u64) -> Value {
    let text = [b'x'; Text::MAX_LEN];
    let length = draws.below(Text::MAX_LEN as u64 + 1) as usize;
    value(rt, count, text.get(..length).expect(rt, "a text"))
}

/// Of ten writes five put, three add and two delete; the key's number is below this. Sums of counts often wrap.
pub fn draw_write(rt: &impl Abort, draws: &mut Draws, keys: u64) -> Op
    requires { 0 < keys }
{
    let name = key_of(rt, draws.below(keys) as usize);
    let count = draws
        .below(3)
        .wrapping_mul(u64::MAX / 3)
        .wrapping_add(draws.below(100));
    match draws.below(10) {
        0..=4 => Op::Put(name, draw_value(rt, draws, count)),
        5..=7 => Op::Add(name, count),
        _ => Op::Del(name),
    }
}

// A tail of 1 to 64 times one letter.
fn draw_tail(rt: &impl Abort, draws: &mut Draws, name: &[u8]) -> Op {
    let letter = b'a'.wrapping_add(draws.below(26) as u8);
    let length = 1 + draws.below(Text::MAX_TAIL as u64) as usize;
    let text = [letter; Text::MAX_TAIL];
    tail(rt, name, text.get(..length).expect(rt, "a text"))
}

// A write of few keys and few counts, so that conditions often hold: of six two are news, two swaps, one adds and one deletes.
fn draw_contended(rt: &impl Abort, draws: &mut Draws) -> Op {
    let name = key_of(rt, draws.below(8) as usize);
    let count = draws.below(3);
    match draws.below(6) {
        0..=1 => Op::New(name, draw_value(rt, draws, count)),
        2..=3 => {
            let from = draws.below(3);
            Op::Swap(name, from, draw_value(rt, draws, count))
        }
        4 => Op::Add(name, count),
        _ => Op::Del(name),
    }
}

/// One write of four is a tail and one is of few keys that are contended for, the others are as `draw_write` draws them.
pub fn draw_any_write(rt: &impl Abort, draws: &mut Draws, keys: u64) -> Op
    requires { 0 < keys }
{
    match draws.below(4) {
        0 => {
            let name = key_of(rt, draws.below(keys) as usize);
            draw_tail(rt, draws, name.as_bytes())
        }
        1 => draw_contended(rt, draws),
        _ => draw_write(rt, draws, keys),
    }
}

/// The most quanta that a write may cost; a command that is none costs none.
pub fn most_quanta(geo: &Geometry, op: &Op) -> u64 {
    if op.is_write() {
        geo.bound(op.weight())
    } else {
        0
    }
}
