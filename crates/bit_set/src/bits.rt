//! A set of numbers below a bound: a bit for each of them.
ghost use Rattle.std.specs.Prelude.{◌≡◌, ◌<◌, ◌≤◌, ◌%◌, ◌↔◌, ◌++◌, length, drop, replicate, IsTrue, IfOk};
ghost use Rattle.bit_set.specs.Bits.{IsIn, none_of, with_place, union};

use refusal::NoMemory;
use std::alloc::Global;
use std::marker::Model;

// The bits of a word.
const WORD_BITS: u64 = u64::BITS as u64;

/// A set of the places below a number. Contracts see a list that says of each place whether it is in the set.
#[derive(Debug, Drop)]
pub struct BitSet {
    places: u64,
    words: Vec<u64>,
}

impl Model for BitSet {
    ghost use Rattle.bit_set.specs.Bits.{Members, members, AreFor};

    ghost Value = { Members };

    ghost view = { λ s. members s.places s.words.items };

    ghost invariant = { λ s. AreFor s.places s.words.items };
}

// Makes zeros of the first words.
fn blank(words: &mut [u64], count: usize)
    requires { count ≤ length words.old }
    ensures { words.new ≡ replicate count 0 ++ drop count words.old }
{
    words[..count].fill(0);
}

impl BitSet {
    /// The empty set, with room for the places below a number, in whole words of 64. `NoMemory` where memory is refused.
    pub fn reserve(alloc: Global, places: u64) -> Result<BitSet, NoMemory>
        ensures { IfOk result (λ set. set ≡ none_of places) }
    {
        let words = vec![in alloc; 0; places.div_ceil(WORD_BITS) as usize]?;
        Ok(BitSet { places, words })
    }

    /// Whether a place is in the set.
    pub fn has(&self, place: u64) -> bool
        requires { place < length self.now }
        ensures { IsTrue result ↔ IsIn self.now place }
    {
        self.words[(place / WORD_BITS) as usize] >> (place % WORD_BITS) & 1 == 1
    }

    /// Puts a place into the set.
    pub fn insert(&mut self, place: u64)
        requires { place < length self.old }
        ensures { self.new ≡ with_place place self.old }
    {
        self.words[(place / WORD_BITS) as usize] |= 1 << (place % WORD_BITS);
    }

    /// Takes all places out of the set.
    pub fn clear(&mut self)
        ensures { self.new ≡ none_of (length self.old) }
    {
        self.words.fill(0);
    }

    /// Takes the places below a number out of the set. The number is one of whole words of 64, and those alone are written.
    pub fn clear_below(&mut self, places: u64)
        requires words { places % 64 ≡ 0 }
        requires inside { places ≤ length self.old }
        ensures { self.new ≡ none_of places ++ drop places self.old }
    {
        blank(&mut self.words, (places / WORD_BITS) as usize);
    }

    /// Makes the set the union of three others.
    pub fn set_to_union(&mut self, a: &BitSet, b: &BitSet, c: &BitSet)
        requires a { length a.now ≡ length self.old }
        requires b { length b.now ≡ length self.old }
        requires c { length c.now ≡ length self.old }
        ensures { self.new ≡ union a.now (union b.now c.now) }
    {
        for i in 0..self.words.len() {
            self.words[i] = a.words[i] | b.words[i] | c.words[i];
        }
    }
}
