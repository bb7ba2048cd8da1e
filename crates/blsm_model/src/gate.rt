//! A gate between two holds of the lock, where a test may make threads wait for one another.

/// Where a caller or a worker stands between two holds of the lock.
#[derive(Clone, Copy, PartialEq, Eq, Debug)]
pub enum Point {
    /// After a write was admitted.
    Admitted,
    /// After a quantum was paid.
    Paid,
    /// After a command was answered.
    Answered,
    /// After a worker's turn.
    Turned,
}

/// Is called between holds of the lock. It can't fail, and changes nothing that the store knows of.
pub trait Gate {
    /// The caller or the worker at this seat, from 0, stands at this point.
    fn at(&self, seat: u32, point: Point);
}

/// The gate that does nothing.
#[derive(Clone, Copy, PartialEq, Eq, Debug)]
pub struct NoGate;

impl Gate for NoGate {
    fn at(&self, _seat: u32, _point: Point) {}
}
