//! What a value behind the lock stands for.
ghost use Rattle.std.specs.Prelude.{◌≡◌, ◌≤◌, ℕ, length};
ghost use Rattle.blsm_model.specs.Facts.{Facts};

/// A value that stands for a history, from a start on. Callers share one behind a lock, which knows it by this trait alone.
///
/// The start is the value as it was when the lock took it. What lasts, lasts from there: a value that stands for its history
/// has a peak within what the start gives.
pub trait Stands {
    /// Its history, the part of each seat, its quanta and peak, and whether it is closed or stopped.
    ghost facts: { Self → Facts };

    /// That the second is what the first, the value as it was at the start, may have come to.
    ghost stands: { Self → Self → Type 0 };

    /// That the second is what one hold of the lock, by the caller of this number, may make of the first.
    ghost one: { ℕ → Self → Self → Type 0 };

    /// The greatest peak, in bytes, that what began as this value may come to.
    ghost most: { Self → ℕ };

    /// How many entries the history has.
    fn entries(&self) -> u64
        ensures { result ≡ length (facts self.now).history };

    /// The greatest weight of its memory table so far, in bytes.
    fn peak(&self) -> u64
        ensures { result ≡ (facts self.now).peak };

    /// What stands from a start has a peak within what that start gives.
    ghost within: { (start value : Self) → stands start value → (facts value).peak ≤ most start };
}
