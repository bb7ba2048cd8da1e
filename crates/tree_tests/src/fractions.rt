// Fractions of merges that are under way.
use crate::asserts::{assert_same, assert_that};
use blsm_model::Geometry;
use progress_est::{Fraction, before, inprogress1, inprogress2, outprogress1};

#[test]
fn fractions_are_compared_exactly(rt: HostRuntime) {
    let third = Fraction { over: 1, under: 3 };
    let more = Fraction {
        over: 6_148_914_691_236_517_206,
        under: u64::MAX,
    };
    assert_that(&rt, before(third, more));
    assert_that(&rt, !before(more, third));
    assert_that(&rt, !before(third, third));
}

#[test]
fn merges_have_their_fractions(rt: HostRuntime) {
    let geo = Geometry::new(32_768, 4, 16_384, 4_096).expect(&rt, "a geometry");
    let rows = [
        (inprogress1(&geo, 5, 7, 11), 32_786),
        (inprogress2(5, 7), 7),
        (outprogress1(&geo, 5), 229_376),
    ];
    for (found, under) in rows {
        assert_same(&rt, found, Fraction { over: 5, under });
    }
}
