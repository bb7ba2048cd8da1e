// What a write owes, and which merge is paid.
use crate::asserts::{assert_same, assert_that};
use blsm_model::Geometry;
use gear_sched::{Gears, Plan};
use std::process::Abort;

fn geometry(rt: &impl Abort) -> Geometry {
    Geometry::new(32_768, 4, 16_384, 1_024).expect(rt, "a geometry")
}

// A pass that is ahead forgives two writes of 14 bytes, and not a third of 512; a quantum lowers that debt.
#[test]
fn a_debt_is_forgiven_while_the_pass_is_ahead(rt: HostRuntime) {
    let mut gears = Gears::new(&geometry(&rt));
    gears.new_pass(0, 2_245);
    gears.took1(0, 1_347);
    gears.enter(0, 14);
    assert_that(&rt, gears.owes(0));
    assert_same(&rt, gears.plan(0, false, true), Plan::Nothing);
    gears.enter(1, 14);
    assert_same(&rt, gears.plan(1, false, true), Plan::Nothing);
    assert_same(&rt, gears.held_by_pass(), 2_273);
    gears.enter(3, 512);
    assert_same(&rt, gears.plan(3, false, true), Plan::Snow);
    gears.took1(3, 926);
    assert_that(&rt, gears.owes(3));
    assert_same(&rt, gears.plan(3, true, true), Plan::Nothing);
    gears.end_pass();
    assert_that(&rt, !gears.owes(3));
}

#[test]
fn a_deep_merge_is_paid_after_the_pass(rt: HostRuntime) {
    let mut gears = Gears::new(&geometry(&rt));
    gears.rotate(300_000);
    gears.new_pass(100, 200);
    gears.enter(15, 100);
    assert_that(&rt, gears.deep_is_behind());
    assert_same(&rt, gears.plan(15, false, false), Plan::Snow);
    gears.took1(15, 2_000);
    assert_same(&rt, gears.plan(15, false, false), Plan::Deep);
    gears.took2(23, 150_000);
    assert_that(&rt, !gears.deep_is_behind());
    assert_same(&rt, gears.plan(15, false, false), Plan::Nothing);
    gears.end_deep();
    gears.end_pass();
    assert_that(&rt, !gears.owes(15));
}
