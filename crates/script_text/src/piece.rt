// A piece of text that is gathered before it is written, so that a line is one call of the sink.
ghost use Rattle.std.specs.Prelude.{◌≡◌, ◌+◌, ◌≤◌, ◌++◌, [], decimal, length};
ghost use Rattle.blsm_model.specs.Format.{most_text};
ghost use Rattle.blsm_model.specs.Printed.{and_number, and_value, and_word, spelled};
ghost use Rattle.script_text.specs.Pieces.{AddsToPiece};

use arrayvec::ArrayVec;
use blsm_model::{Key, Text, Value};
use itoa::Buffer;
use std::marker::Model;

// How many bytes the parts of a line have at most. Each but the first begins with a space or a word.
pub const NUMBER: usize = 20;

pub const AND_NUMBER: usize = 1 + NUMBER;

// A sum of two numbers is printed as one of 128 bits.
pub const AND_SUM: usize = 1 + 40;

pub const AND_KEY: usize = 1 + Key::MAX_LEN;

pub const AND_TEXT: usize = 1 + Text::MAX_LEN;

pub const AND_VALUE: usize = AND_NUMBER + AND_TEXT;

/// The longest command: a swap.
pub const COMMAND: usize = 4 + AND_KEY + AND_NUMBER + AND_VALUE;

/// The longest reply that gives no rows: the value by which a new or a swap is kept.
pub const REPLY: usize = 4 + AND_VALUE;

/// What stands before the reply: the place, the caller, the command and an arrow.
pub const LINE_START: usize = NUMBER + AND_NUMBER + 1 + COMMAND + 4;

/// What stands behind the reply: the quanta, and the end of the line.
pub const LINE_END: usize = 2 + NUMBER + 1;

/// The longest line that gives no rows, in bytes.
pub const LONGEST: usize = LINE_START + REPLY + LINE_END;

/// The text of a line while it is gathered, of at most `LONGEST` bytes. Contracts see it as the list of its bytes.
///
/// It takes some 1,080 bytes, so one serves for all lines, and each function takes it by reference.
#[derive(Debug, Drop)]
pub struct Piece {
    bytes: ArrayVec<u8, LONGEST>,
}

impl Model for Piece {
    ghost use Rattle.std.specs.Prelude.{List, ℕ};

    ghost Value = { List ℕ };

    ghost view = { λ p. p.bytes.items };
}

impl Piece {
    /// No text yet.
    pub fn new() -> Piece
        ensures { result ≡ [] }
    {
        Piece {
            bytes: ArrayVec::new(),
        }
    }

    /// Empties it, for the next line.
    pub fn clear(&mut self)
        ensures { self.new ≡ [] }
    {
        self.bytes.clear();
    }

    /// Its bytes.
    pub fn as_slice(&self) -> &[u8]
        ensures { result.now ≡ self.now }
    {
        self.bytes.as_slice()
    }

    /// Adds these bytes.
    pub fn add(&mut self, more: &[u8])
        requires { length self.old + length more.now ≤ LONGEST }
        ensures { self.new ≡ self.old ++ more.now }
    {
        match self.bytes.try_extend_from_slice(more) {
            Ok(()) => (),
            Err(_) => unreachable!(),
        }
    }

    /// Adds a number in decimal, of 20 bytes at most.
    pub fn add_number(&mut self, n: u64)
        requires { length self.old + NUMBER ≤ LONGEST }
        ensures { AddsToPiece self.old (decimal n) NUMBER self.new }
    {
        let mut buffer = Buffer::new();
        let digits = buffer.format(n);
        self.add(digits.as_bytes());
    }

    // A word with a space before it.
    fn add_and_word(&mut self, word: &[u8])
        requires { length self.old + length word.now + 1 ≤ LONGEST }
        ensures { self.new ≡ self.old ++ and_word word.now }
    {
        self.add(b" ");
        self.add(word);
    }

    /// Adds a number with a space before it.
    pub fn add_and_number(&mut self, n: u64)
        requires { length self.old + AND_NUMBER ≤ LONGEST }
        ensures { AddsToPiece self.old (and_number n) AND_NUMBER self.new }
    {
        self.add(b" ");
        self.add_number(n);
    }

    /// Adds a word, and a number behind a space.
    pub fn add_named_number(&mut self, name: &[u8], n: u64)
        requires { length self.old + length name.now + AND_NUMBER ≤ LONGEST }
        ensures { AddsToPiece self.old (name.now ++ and_number n) (length name.now + AND_NUMBER) self.new }
    {
        self.add(name);
        self.add_and_number(n);
    }

    /// Adds a word, and the sum of two numbers behind a space.
    pub fn add_named_sum(&mut self, name: &[u8], first: u64, second: u64)
        requires { length self.old + length name.now + AND_SUM ≤ LONGEST }
        ensures { AddsToPiece self.old (name.now ++ and_number (first + second)) (length name.now + AND_SUM) self.new }
    {
        self.add(name);
        self.add(b" ");
        let mut buffer = Buffer::new();
        let digits = buffer.format(u128::from(first) + u128::from(second));
        self.add(digits.as_bytes());
    }

    /// Adds a key with a space before it.
    pub fn add_and_key(&mut self, key: &Key)
        requires { length self.old + AND_KEY ≤ LONGEST }
        ensures { AddsToPiece self.old (and_word key.now) AND_KEY self.new }
    {
        self.add_and_word(key.as_bytes());
    }

    // A text with a space before it. A dash stands for the empty one.
    fn add_and_text(&mut self, text: &Text)
        requires { length self.old + AND_TEXT ≤ LONGEST }
        ensures { AddsToPiece self.old (and_word (spelled text.now)) AND_TEXT self.new }
    {
        self.add_and_word(spelling(text));
    }

    /// Adds a tail with a space before it.
    pub fn add_and_tail(&mut self, tail: &Text)
        requires { length self.old + AND_TEXT ≤ LONGEST }
        ensures { AddsToPiece self.old (and_word tail.now) AND_TEXT self.new }
    {
        self.add_and_word(tail.as_bytes());
    }

    /// Adds a value's count and text, with a space before each.
    pub fn add_and_value(&mut self, value: &Value)
        requires { length self.old + AND_VALUE ≤ LONGEST }
        ensures { AddsToPiece self.old (and_value value.now) AND_VALUE self.new }
    {
        self.add_and_number(value.count);
        self.add_and_text(&value.text);
    }
}

// The bytes of a text, or a dash for none.
fn spelling(text: &Text) -> &[u8]
    ensures bytes { result.now ≡ spelled text.now }
    ensures fits { length result.now ≤ most_text }
{
    let bytes = text.as_bytes();
    if bytes.is_empty() { b"-" } else { bytes }
}
