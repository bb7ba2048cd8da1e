//! Where the fields of an entry stand. Numbers are big-endian.
//!
//! | At | Field |
//! |---|---|
//! | 0 | kind u8: 1 base, 2 delta without a tail, 3 tombstone, 4 delta with a tail |
//! | 1 | length of the key u16, 1 to 64 |
//! | 3 | length of the text u16: 0 to 435 of a base, 1 to 64 of a delta with a tail, else 0 |
//! | 5 | count u64; 0 for a tombstone |
//! | 13 | the key, then the text |

use blsm_model::Op;

/// How many bytes stand before the key.
pub const HEAD_LEN: usize = Op::OVERHEAD as usize;

/// The kind of a base.
pub const BASE: u8 = 1;

/// The kind of a delta without a tail.
pub const DELTA: u8 = 2;

/// The kind of a tombstone.
pub const TOMB: u8 = 3;

/// The kind of a delta with a tail.
pub const TAIL: u8 = 4;
