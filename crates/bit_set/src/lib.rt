//! A set of the numbers below a bound, as a bit in memory for each. It takes its memory as it is reserved, and none later. The map
//! of free pages has one for each tag and for each pin, a filter has one for its bits.
#![tactic(auto)]

mod bits;

pub use bits::BitSet;
