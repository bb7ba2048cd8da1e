//! Writes a sorted run of entries on pages: a component that grows entry by entry.
//!
//! The entries that don't fill a page yet are in a buffer of the writer; each full page is written with the number of the
//! next one, which is taken just before it. The run's filter gets each key, and its fences each page's first key. A run can be taken
//! up behind its closed pages. No call takes memory.
#![tactic(auto)]

mod buffer;
mod laws;
mod writer;

pub use laws::{a_run_has_fences, a_run_has_room, what_is_closed, where_a_run_writes};
pub use writer::Writer;
