//! Why a case departs.
use refusal::NoMemory;
use std::alloc::{AllocError, AllocFailed, Global};
use std::fmt;

/// Why a case departs from what it wants.
#[derive(Drop)]
pub enum Departure {
    /// Memory was refused.
    NoMemory,
    /// The line is no case.
    NotACase,
    /// Where it departs, by a number, and what was found there.
    Found(&'static str, u64, String),
}

impl Departure {
    /// A departure at a number, where this was found.
    pub fn found(alloc: Global, what: &'static str, at: u64, found: &str) -> Departure {
        match String::from_str(alloc, found) {
            Ok(found) => Departure::Found(what, at, found),
            Err(_) => Departure::NoMemory,
        }
    }
}

impl fmt::Display for Departure {
    fn fmt<W: fmt::Write>(&self, f: &mut fmt::Formatter<W>) -> fmt::Result {
        match self {
            Departure::NoMemory => write!(f, "no memory"),
            Departure::NotACase => write!(f, "not a case"),
            Departure::Found(what, at, found) => write!(f, "{what} {at}: {found}"),
        }
    }
}

impl From<NoMemory> for Departure {
    fn from(_refused: NoMemory) -> Departure {
        Departure::NoMemory
    }
}

impl From<AllocError> for Departure {
    fn from(_refused: AllocError) -> Departure {
        Departure::NoMemory
    }
}

impl<T: Drop> From<AllocFailed<T>> for Departure {
    fn from(_refused: AllocFailed<T>) -> Departure {
        Departure::NoMemory
    }
}
