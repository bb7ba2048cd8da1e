//! What words ask for, and why they ask for nothing.
use blsm_model::Geometry;
use thiserror::Error;

/// How a script is run, and what is printed of it.
#[derive(Clone, Copy, PartialEq, Eq, Debug)]
pub struct Options {
    /// How many merge workers are beside the callers, from 0 to 8.
    pub workers: u32,
    /// How many turns each of them takes at most, from 0 to 1,000,000.
    pub turns: u32,
    /// The number of the first ship that is printed behind the history, at most 2^63. With 0 none is printed.
    pub ships: u64,
    /// Whether what is held of the memory table in the end is printed behind the history.
    pub resident: bool,
}

/// What the words of the command line ask for.
#[derive(Clone, Copy, PartialEq, Eq, Debug)]
pub enum Request<'a> {
    /// A new store of this geometry in the file of this name.
    Make {
        name: &'a str,
        geometry: Geometry,
    },
    /// A script to be run over the store in the file of this name.
    Run {
        name: &'a str,
        options: Options,
    },
    /// A look at the store in the file of this name.
    Check {
        name: &'a str,
    },
    /// The settling of the store in the file of this name.
    Settle {
        name: &'a str,
    },
    /// A trial of so many steps, from 1 to 65,536, drawn from this seed.
    Trial {
        seed: u64,
        count: u32,
    },
    /// A session over the store in the file of this name, with room for the callers from 1 to this one, 16 at most. The first ship that is told has
    /// the number `ships`, at most 2^63; with 0 none is told.
    Serve {
        name: &'a str,
        callers: u32,
        ships: u64,
    },
}

/// Why words were not read.
#[derive(Clone, Copy, PartialEq, Eq, Debug, Drop, Error)]
pub enum Unread {
    /// They are not accepted.
    #[error("the words of the command line are not accepted")]
    Refused,
    #[error("there is no memory to read the words of the command line")]
    NoMemory,
}
