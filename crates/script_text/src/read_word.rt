// The words of a line. A reader answers what its word spells, and nothing exactly where that is nothing.
ghost use Rattle.std.specs.Prelude.{◌↔◌, ◌+◌, ◌^◌, ◌<◌, ◌≤◌, IsTrue, decimal};
ghost use Rattle.std.specs.List.{All};
ghost use Rattle.blsm_model.specs.Format.{callers};
ghost use Rattle.blsm_model.specs.Printed.{spelled};
ghost use Rattle.script_text.specs.Grammar.{IsKey, IsTail, IsText, IsVisible};
ghost use Rattle.script_text.specs.Reading.{BeginsAsNumber, Reads, Spells};

use blsm_model::{CALLERS, Key, Text};
use std::str;

// Whether each byte may stand in a word.
fn is_visible(word: &[u8]) -> bool
    ensures { IsTrue result ↔ All IsVisible word.now }
{
    word.iter().all(|byte| byte.is_ascii_graphic())
}

// Whether the first byte is right for a number: no sign, and no zero but in the number 0.
fn begins_as_number(word: &[u8]) -> bool
    ensures { IsTrue result ↔ BeginsAsNumber word.now }
{
    match word {
        [b'0'] => true,
        [first, ..] => matches!(*first, b'1'..=b'9'),
        [] => false,
    }
}

/// The number that a word spells in decimal, if it spells one: no sign, no zero before a digit, and less than 2^64.
pub fn read_number(word: &[u8]) -> Option<u64>
    ensures { Reads (Spells decimal (λ n. n < 2 ^ 64)) word.now result }
{
    if !begins_as_number(word) {
        return None;
    }
    match str::from_utf8(word) {
        Ok(digits) => digits.parse::<u64>().ok(),
        Err(_) => None,
    }
}

// A caller is counted from 1, a seat from 0.
pub fn read_seat(word: &[u8]) -> Option<u32>
    ensures { Reads (Spells (λ seat. decimal (seat + 1)) (λ seat. seat < callers)) word.now result }
{
    let caller = read_number(word)?;
    if caller == 0 || u64::from(CALLERS) < caller {
        return None;
    }
    Some((caller - 1) as u32)
}

// How many a command asks for: one at least, and so many at most.
pub fn read_count(word: &[u8], most: u32) -> Option<u32>
    ensures { Reads (Spells decimal (λ n. (1 ≤ n) × (n ≤ most))) word.now result }
{
    let count = read_number(word)?;
    if count == 0 || u64::from(most) < count {
        return None;
    }
    Some(count as u32)
}

pub fn read_key(word: &[u8]) -> Option<Key>
    ensures { Reads (Spells (λ key. key) IsKey) word.now result }
{
    if is_visible(word) {
        Key::from_bytes(word)
    } else {
        None
    }
}

// A dash alone is no tail.
pub fn read_tail(word: &[u8]) -> Option<Text>
    ensures { Reads (Spells (λ tail. tail) IsTail) word.now result }
{
    match word {
        b"-" | [] => None,
        _ if word.len() <= Text::MAX_TAIL && is_visible(word) => Text::from_bytes(word),
        _ => None,
    }
}

// A dash alone is the empty text.
pub fn read_text(word: &[u8]) -> Option<Text>
    ensures { Reads (Spells spelled IsText) word.now result }
{
    match word {
        b"-" => Some(Text::empty()),
        [] => None,
        _ if is_visible(word) => Text::from_bytes(word),
        _ => None,
    }
}
