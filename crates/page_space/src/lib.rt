//! The free-page map: which pages are in use, and the least one that isn't. A page is in use while it has the tag of one of five
//! roles, or while one of sixteen seats pins it. Contracts see, for each role and for each seat, the set of its pages. The
//! writers of runs take their pages from it.
#![tactic(auto)]

mod laws;
mod role;
mod space;

pub use laws::room_is_free;
pub use role::Role;
pub use space::Space;
