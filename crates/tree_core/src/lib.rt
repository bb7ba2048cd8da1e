//! The core of a tree: the whole store as one value over any disk. Each of its calls is one atomic step of one seat, and what it promises is a
//! record of `specs/Calls`.
#![tactic(auto)]

mod admission;
mod answers;
mod assembly;
mod ending;
mod holds;
mod lock;
mod lookup;
mod payment;
mod play;
mod settling;
mod store;
mod turns;

pub use answers::{Admission, Holding, Lookup, Payment, Release, Scan};
pub use assembly::Parts;
pub use store::Core;
