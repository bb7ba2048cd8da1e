//! Sorted runs that are read: a cursor gives a component's entries in order, and a key's record is found among them.
#![tactic(auto)]

mod below;
mod cursor;
mod guides;
mod laws;
mod lookup;
mod walk;

pub use cursor::Cursor;
pub use guides::rebuild;
pub use laws::what_is_ahead;
pub use lookup::find;
pub use walk::Walk;
