//! How far the merges have come, and how far the component above them has filled, as fractions that are compared exactly.
//! The scheduler uses it.
#![tactic(auto)]

ghost use Rattle.std.specs.Prelude.{◌≡◌, ◌+◌, ◌<◌, ◌^◌, ◌↔◌, IsTrue};
ghost use Rattle.progress_est.specs.Progress.{IsBefore, in_progress_1, in_progress_2, out_progress_1};

use blsm_model::Geometry;

/// A fraction of weights, in bytes.
#[derive(Clone, Copy, PartialEq, Eq, Debug)]
pub struct Fraction {
    /// What is above the line.
    pub over: u64,
    /// What is below it.
    pub under: u64,
}

/// Whether the first fraction is less than the second. Neither is rounded.
pub fn before(a: Fraction, b: Fraction) -> bool
    ensures { IsTrue result ↔ IsBefore a b }
{
    u128::from(a.over) * u128::from(b.under) < u128::from(b.over) * u128::from(a.under)
}

/// How far a pass has come that has taken so many bytes, began with so many of C1 and of the memory table, and may take half a
/// spring more.
pub fn inprogress1(geo: &Geometry, taken: u64, c1: u64, memory: u64) -> Fraction
    requires { c1 + memory + geo.now.half < 2 ^ 64 }
    ensures { result ≡ in_progress_1 geo.now taken c1 memory }
{
    Fraction {
        over: taken,
        under: c1 + memory + geo.half(),
    }
}

/// How far a deep merge has come that has taken so many of its inputs' bytes.
pub fn inprogress2(taken: u64, input: u64) -> Fraction
    ensures { result ≡ in_progress_2 taken input }
{
    Fraction {
        over: taken,
        under: input,
    }
}

/// How far C1 has come on its way to its mark, where so many bytes were admitted since the rotation.
pub fn outprogress1(geo: &Geometry, admitted: u64) -> Fraction
    ensures { result ≡ out_progress_1 geo.now admitted }
{
    Fraction {
        over: admitted,
        under: geo.c1_way(),
    }
}
