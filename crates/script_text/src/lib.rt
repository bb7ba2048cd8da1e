//! The script that a run reads and the history that it prints: a script is the list of its lines, a history its text.
//! The top call and whoever else shows a run to a person may use it.
#![tactic(auto)]

mod command;
mod generator;
mod line;
mod piece;
mod print;
mod read_word;
mod reply;
mod script;
mod summary;

pub use command::add_command;
pub use generator::{MADE_KEYS, generate, made_histories, made_writes};
pub use line::{LONGEST_LINE, cut, read_command, read_line};
pub use piece::{COMMAND, LONGEST, Piece};
pub use print::{print_charge, print_end, print_entry, print_history};
pub use read_word::read_number;
pub use script::{
    MOST_LINES, MOST_ROWS_ASKED, Script, ScriptFault, count_rows, read_script, remainder,
};
pub use summary::print_summary;
