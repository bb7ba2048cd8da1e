//! A ticket lock round one value that stands for a history (`Stands` of `blsm_model`), and callers who take turns.
//!
//! The lock has four shared words: the next ticket, the ticket that is served, and the published length and peak. A caller draws
//! a ticket, waits until it is served, takes the value out, and gives back one that follows from it. What each caller saw, and
//! what it knows of its own number's part, is kept beside its seat and holds of the value however the callers' threads
//! interleave. It knows the value by its trait alone. The layer of callers over the tree uses it.
#![tactic(auto)]

mod bells;
mod lock;
mod rule;
mod shared;
mod tally;
mod view;

pub use lock::{Caller, TurnLock};
pub use shared::{do_one, run_all};
pub use tally::Tally;
pub use view::{Stage, View};

#[cfg(test)]
mod tests;
