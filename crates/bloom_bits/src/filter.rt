//! A Bloom filter over the keys of a sorted run.
ghost use Rattle.std.specs.Prelude.{◌≡◌, ◌*◌, ◌+◌, ◌%◌, ◌<◌, ◌≤◌, ◌^◌, ◌↔◌, ◌++◌, ◌∷◌, [], List, length, IsTrue, IfOk};
ghost use Rattle.std.specs.List.{All, Contains};
ghost use Rattle.blsm_model.specs.declared.key.Key.{Key};
ghost use Rattle.bloom_bits.specs.BitSet.{cleared};
ghost use Rattle.bloom_bits.specs.Filter.{rounded, bit_positions, HasKeys, AreCovered, MayHave};

use crate::hash::{fnv1a, hash_on};
use bit_set::BitSet;
use blsm_model::Key;
use refusal::NoMemory;
use std::alloc::Global;
use std::marker::Model;

// The bits of a filter come in words of so many.
const WORD_BITS: u64 = u64::BITS as u64;

// The byte behind a key, for its second hash.
const END: u8 = 255;

/// A Bloom filter. Contracts see its bits, and how many it may have.
#[derive(Debug, Drop)]
pub struct Filter {
    // As many bits as it may have.
    bits: BitSet,
    // How many it has.
    size: u64,
}

impl Model for Filter {
    ghost use Rattle.bloom_bits.specs.BitSet.{BitState, front_of};
    ghost use Rattle.bloom_bits.specs.Filter.{IsSized};

    ghost Value = { BitState };

    ghost view = { λ f. front_of f.size f.bits };

    ghost invariant = { λ f. IsSized f.size f.bits };
}

// How many words of 64 bits a filter of so many bits has.
fn words_for(bits: u64) -> u64
    ensures words { 64 * result ≡ rounded bits }
    ensures some { 0 < result }
{
    bits.div_ceil(WORD_BITS).max(1)
}

// One of a key's places, which is so many steps of its second hash behind its first one.
fn position(hash: u64, step: u64, steps: u64, bits: u64) -> u64
    requires { 0 < bits }
    ensures position { result ≡ ((hash + steps * step) % 2 ^ 64) % bits }
    ensures inside { result < bits }
{
    hash.wrapping_add(steps.wrapping_mul(step)) % bits
}

// The places of a key's four bits.
fn positions(key: &Key, bits: u64) -> [u64; 4]
    requires { 0 < bits }
    ensures positions { result ≡ bit_positions bits key.now }
    ensures inside { All (λ place. place < bits) result }
{
    let hash = fnv1a(key.as_bytes());
    let step = hash_on(hash, &[END]);
    [
        position(hash, step, 0, bits),
        position(hash, step, 1, bits),
        position(hash, step, 2, bits),
        position(hash, step, 3, bits),
    ]
}

impl Filter {
    /// A filter that may have so many bits, rounded up to a multiple of 64 and at least 64; it has the least number. It takes its memory
    /// at once; where that is refused there is no filter, and it is refused for so many bits that their number doesn't fit.
    pub fn with_bits(alloc: Global, bits: u64) -> Result<Filter, NoMemory>
        ensures cleared { IfOk result (λ filter. filter ≡ cleared (rounded bits) (rounded 0)) }
        ensures none { IfOk result (λ filter. HasKeys filter []) }
    {
        let words = words_for(bits);
        if words > u64::MAX / WORD_BITS {
            return Err(NoMemory);
        }
        Ok(Filter {
            bits: BitSet::reserve(alloc, WORD_BITS * words)?,
            size: WORD_BITS,
        })
    }

    /// Takes all keys out. It has so many bits then, rounded up to a multiple of 64 and at least 64.
    pub fn reset(&mut self, bits: u64)
        requires { rounded bits ≤ self.old.reserved }
        ensures cleared { self.new ≡ cleared self.old.reserved (rounded bits) }
        ensures none { HasKeys self.new [] }
        ensures bits { length self.new.bits ≡ rounded bits }
    {
        let set = &mut self.bits;
        let size = WORD_BITS * words_for(bits);
        set.clear_below(size);
        self.size = size;
    }

    /// Adds a key.
    pub fn add(&mut self, key: &Key)
        ensures keys { (keys : List Key) → HasKeys self.old keys → HasKeys self.new (keys ++ key.now ∷ []) }
        ensures reserved { self.new.reserved ≡ self.old.reserved }
        ensures bits { length self.new.bits ≡ length self.old.bits }
    {
        for place in positions(key, self.size) {
            self.bits.insert(place);
        }
    }

    /// Whether the key may be among those that were added: just where its four bits are set, which is where those of the added keys cover
    /// them. It is so for each of these.
    pub fn may(&self, key: &Key) -> bool
        ensures exactly { IsTrue result ↔ MayHave self.now key.now }
        ensures covered { (keys : List Key) → HasKeys self.now keys → (IsTrue result ↔ AreCovered (length self.now.bits) keys key.now) }
        ensures added { (keys : List Key) → HasKeys self.now keys → Contains keys key.now → IsTrue result }
    {
        for place in positions(key, self.size) {
            if !self.bits.has(place) {
                return false;
            }
        }
        true
    }
}
