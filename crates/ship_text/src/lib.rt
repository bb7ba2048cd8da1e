//! Ships: the writes of a history that were done, as lines of text, each with its number, for a second store to take. They are printed of a
//! history, and read as a list.
#![tactic(auto)]

mod print;
mod reading;

pub use print::{MAX_FIRST, print_ship, print_ship_of, print_ships};
pub use reading::{MAX_NUMBER, MOST_SHIPS, Ship, ShipFault, Ships, printed_is_read, read_ships};
