//! Entries: a key and its record as bytes, in a log and in a page. Each has one spelling, whose length is its weight, and
//! no spelling begins another. The log and the sorted runs use it.
#![tactic(auto)]

mod decoding;
mod encoding;
mod format;
mod laws;

pub use decoding::{decode, peek_key, read_over};
pub use encoding::encode;
pub use laws::{one_spelling, whatever_follows};
