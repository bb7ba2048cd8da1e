//! The book of the tree: what the seats did, the history with the quanta of each entry, the counts of the run, and why it stopped.
//!
//! Contracts see it as four parts of the machine over lists (`tree_machine`), and each call does the machine's own word to them. It knows
//! no disk and no list, so what is proved of it holds on every disk. The core of the tree keeps one and calls it; nothing else
//! does. No call takes memory or goes over the entries.
#![tactic(auto)]

mod book;
mod laws;
mod turned;
mod work;

pub use book::SeatBook;
pub use laws::{entries_have_places, other_seats_stay};
pub use turned::Turned;
