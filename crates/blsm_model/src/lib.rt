//! The values of the store, its commands and replies, its geometry, and what a right history of them is.
//!
//! The definitions in `specs/` say what is meant, over lists and numbers: the value of a key after a list of writes,
//! the rows of a range, the map after a history, which histories are legal, which follow a script, and their printed
//! text. They know no component, table, log, debt or lock. Every crate of the store may use this one; of the store's
//! crates it uses `refusal` alone.
#![tactic(auto)]

mod annals;
mod component;
mod format;
mod gate;
mod geometry;
mod history;
mod key;
mod laws;
mod op;
mod pack;
mod plain;
mod room;
mod row;
mod stands;
mod text;

pub use annals::Annals;
pub use component::Component;
pub use format::format_numbers;
pub use gate::{Gate, NoGate, Point};
pub use geometry::{Geometry, GeometryFault};
pub use history::{Entry, Line, Reply, ShortReply, Totals, Why};
pub use key::Key;
pub use laws::{legal_histories, one_map, sequential_map};
pub use op::{Op, Write};
pub use pack::Pack;
pub use plain::{Plain, run, value_of};
pub use room::{CALLERS, Room};
pub use row::{Row, RowList, Value};
pub use stands::Stands;
pub use text::Text;
