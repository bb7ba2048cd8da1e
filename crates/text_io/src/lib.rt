//! Where text comes from and where it goes: a source is the bytes that it has left, a sink the bytes that it holds.
//! Each counts its faults. Forms in memory tell their bytes; a real stream need not.
//! The crates that read a script, print a history or run a program may use it.
#![tactic(auto)]

mod lines;
mod sink;
mod source;
mod whole;

pub use lines::{LineFault, Lines};
pub use sink::{FaultlessSink, MemSink, Sink};
pub use source::{FaultlessSource, MemSource, Source};
pub use whole::{ReadFault, read_all, write_all};
