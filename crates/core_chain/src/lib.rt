//! What the calls of a core tell together, one after another, by whichever callers and workers they were made. Whoever runs callers over a core
//! that they share cites these laws.
#![tactic(auto)]

mod laws;

pub use laws::{
    calls_are_steps, calls_help, calls_meet_damage, calls_note, calls_take_few, calls_tell,
    calls_tell_holds, nexts_read_once, release_shows_nothing, rows_stay,
};
