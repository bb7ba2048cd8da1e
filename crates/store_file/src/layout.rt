//! Where the parts of a store's file stand, in bytes, and what they say. Numbers are big-endian.
//!
//! | At | Length | What |
//! |---|---|---|
//! | 0 | 27 | superblock |
//! | 512 | 187 | catalogue slot of the odd versions |
//! | 1,024 | 187 | catalogue slot of the even versions |
//! | 4,096 | 3 times 4 halves | the lanes of the log |
//! | behind them | 4,096 each | the pages |
//!
//! The superblock is a gate u8 (1 is open), 8 bytes of magic, the format u16, and the half, the ratio, the low mark and the
//! quantum of the geometry, each u32.
ghost use Rattle.std.specs.Prelude.{◌≡◌};
ghost use Rattle.store_file.specs.Layout.{superblock_text, superblock};

use blsm_model::Geometry;
use catalog_swap::PLAIN_LEN;
use gated_log::HEAD_LEN;

/// How many bytes a block has: what stands before the lanes, and each page.
pub const BLOCK: u64 = HEAD_LEN;

/// The length of the superblock behind its gate, in bytes.
pub const TEXT_LEN: usize = 26;

/// The length of the superblock, in bytes.
pub const SUPERBLOCK_LEN: usize = TEXT_LEN + 1;

/// Where in the superblock the numbers of the geometry stand.
pub const HALF_AT: usize = 11;

pub const RATIO_AT: usize = 15;

pub const LOW_AT: usize = 19;

pub const QUANTUM_AT: usize = 23;

const FORMAT: u16 = 1;

/// The catalogue of a store that was just made: its gate open, version 1, lanes 0, 1 and 2, three components without pages, and
/// the flag 0.
pub const FIRST_CATALOGUE: [u8; PLAIN_LEN] = [
    1, 0, 0, 0, 0, 0, 0, 0, 1, 0, 1, 2, 0xff, 0xff, 0xff, 0xff, 0, 0, 0, 0, 0, 0, 0, 0, 0, 0, 0, 0,
    0, 0, 0, 0, 0, 0, 0, 0, 0xff, 0xff, 0xff, 0xff, 0, 0, 0, 0, 0, 0, 0, 0, 0, 0, 0, 0, 0, 0, 0, 0,
    0, 0, 0, 0, 0xff, 0xff, 0xff, 0xff, 0, 0, 0, 0, 0, 0, 0, 0, 0, 0, 0, 0, 0, 0, 0, 0, 0, 0, 0, 0,
    0,
];

/// What the superblock of a store of this geometry says behind its gate.
#[tactic(auto, unfolding(crate::specs::Layout::superblock_text))]
pub fn superblock_text(geometry: &Geometry) -> [u8; TEXT_LEN]
    ensures { result ≡ superblock_text geometry.now }
{
    let [f1, f0] = FORMAT.to_be_bytes();
    let [h3, h2, h1, h0] = (geometry.half() as u32).to_be_bytes();
    let [r3, r2, r1, r0] = (geometry.ratio() as u32).to_be_bytes();
    let [l3, l2, l1, l0] = (geometry.low() as u32).to_be_bytes();
    let [q3, q2, q1, q0] = (geometry.quantum() as u32).to_be_bytes();
    [
        b'B', b'L', b'S', b'M', b'0', b'0', b'0', b'1', f1, f0, h3, h2, h1, h0, r3, r2, r1, r0, l3,
        l2, l1, l0, q3, q2, q1, q0,
    ]
}

/// The superblock of a store of this geometry, with this gate.
pub fn superblock(gate: u8, geometry: &Geometry) -> [u8; SUPERBLOCK_LEN]
    ensures { result ≡ superblock gate geometry.now }
{
    let mut block = [gate; SUPERBLOCK_LEN];
    block[1..].copy_from_slice(&superblock_text(geometry));
    block
}
