//! The two ways in which a call gives up for a cause outside the program, and what a count of faults tells of the first.
//! Any crate may use it.
#![tactic(auto)]

ghost use Rattle.std.specs.Prelude.{◌≡◌};
ghost use Rattle.refusal.specs.Count.{next_count};

use std::alloc::{AllocError, AllocFailed};
use thiserror::Error;

/// A call to a disk, a shelf, a source or a sink failed. Whoever answers it has raised its count of faults by one in that call,
/// but for a disk that refuses a range outside its bytes.
#[derive(Clone, Copy, PartialEq, Eq, Debug, Error)]
#[error("a call to the outside failed")]
pub struct Failed;

/// Memory was refused.
#[derive(Clone, Copy, PartialEq, Eq, Debug, Error)]
#[error("no memory")]
pub struct NoMemory;

impl From<AllocError> for NoMemory {
    fn from(_refused: AllocError) -> NoMemory {
        NoMemory
    }
}

impl<T: Drop> From<AllocFailed<T>> for NoMemory {
    fn from(_refused: AllocFailed<T>) -> NoMemory {
        NoMemory
    }
}

/// Raises a count of faults by one. At 2^64 - 1 it stands.
pub fn raise(count: &mut u64)
    ensures { count.new ≡ next_count count.old }
{
    *count = count.saturating_add(1);
}
