//! FNV-1a, the hash of Fowler, Noll and Vo, with 64 bits.
ghost use Rattle.std.specs.Prelude.{◌≡◌, fold};
ghost use Rattle.bloom_bits.specs.Hash.{hash_of, with_byte};

// Where the hash starts, and what it is multiplied by for each byte.
const OFFSET_BASIS: u64 = 14_695_981_039_346_656_037;

const PRIME: u64 = 1_099_511_628_211;

/// The hash of these bytes.
pub fn fnv1a(bytes: &[u8]) -> u64
    ensures { result ≡ hash_of bytes.now }
{
    hash_on(OFFSET_BASIS, bytes)
}

/// The hash of some bytes and these behind them, from that of the former.
pub(crate) fn hash_on(hash: u64, bytes: &[u8]) -> u64
    ensures { result ≡ fold with_byte hash bytes.now }
{
    bytes.iter().fold(hash, |hash, byte| {
        (hash ^ u64::from(*byte)).wrapping_mul(PRIME)
    })
}
