//! Settles a tree that was read from its file: merges it until C1' and both tables are empty, so that a core can begin with it. What the
//! tree shows stays the same map throughout.
#![tactic(auto)]

mod laws;
mod settling;
mod taking;

pub use laws::an_opening_begins_light;
pub use settling::{most_quanta, settle};
