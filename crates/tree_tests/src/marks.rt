// The marks of the memory table.
use crate::asserts::{assert_same, assert_same_at};
use spring_mark::{may_begin, must_begin};

#[test]
fn a_pass_begins_past_the_low_mark(rt: HostRuntime) {
    let cases = [
        (0, 14, 14, false),
        (0, 15, 14, true),
        (16_384, 1, 16_384, true),
        (16_370, 14, 16_384, false),
        (u64::MAX, u64::MAX, u64::MAX, true),
    ];
    for (s, w, low, must) in cases {
        assert_same_at(&rt, must_begin(s, w, low), must, (s, w, low));
    }
    assert_same(&rt, (may_begin(14, 14), may_begin(15, 14)), (false, true));
}
