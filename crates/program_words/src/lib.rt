//! The words of the command line, as `clap` reads them: six commands, with a file or with numbers.
//!
//! What words ask for is clap's reading of one table of commands, which stands in `specs/Words.antt`. The program's
//! `main` hands in the words that it was started with.
#![tactic(auto)]

mod laws;
mod numbers;
mod program;
mod request;
mod words;

pub use laws::asked_in_range;
pub use request::{Options, Request, Unread};
pub use words::read_words;
