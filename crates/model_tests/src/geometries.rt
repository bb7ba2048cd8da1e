// The numbers of a store's geometry.
use crate::asserts::{assert_same, assert_same_at, assert_that};
use blsm_model::{Geometry, GeometryFault};
use std::process::Abort;

#[derive(Drop)]
struct Case {
    numbers: (u64, u64, u64, u64),
    marks: (u64, u64, u64),
    limit: u64,
    way: u64,
    gears: (u64, u64),
    bounds: (u64, u64),
    disk: (u64, u64),
}

// The default geometry, the smallest one and the one with the steepest gears at the default half spring.
fn cases() -> [Case; 3] {
    [
        Case {
            numbers: (32_768, 4, 16_384, 4_096),
            marks: (65_536, 262_144, 1_048_576),
            limit: 1_015_808,
            way: 229_376,
            gears: (20, 6),
            bounds: (2, 4),
            disk: (5_643, 23_511_040),
        },
        Case {
            numbers: (17_408, 2, 16_384, 4_096),
            marks: (34_816, 69_632, 139_264),
            limit: 121_856,
            way: 52_224,
            gears: (12, 4),
            bounds: (2, 3),
            disk: (798, 3_481_600),
        },
        Case {
            numbers: (32_768, 8, 16_384, 1_024),
            marks: (65_536, 524_288, 4_194_304),
            limit: 4_161_536,
            way: 491_520,
            gears: (36, 10),
            bounds: (2, 23),
            disk: (22_344, 91_918_336),
        },
    ]
}

fn geometry(rt: &impl Abort, (half, ratio, low, quantum): (u64, u64, u64, u64)) -> Geometry {
    Geometry::new(half, ratio, low, quantum).expect(rt, "a geometry")
}

fn has_numbers(rt: &impl Abort, case: &Case) {
    let geometry = geometry(rt, case.numbers);
    let (half, ratio, low, quantum) = case.numbers;
    assert_same(rt, (geometry.half(), geometry.ratio()), (half, ratio));
    assert_same(rt, (geometry.low(), geometry.quantum()), (low, quantum));
}

fn has_marks(rt: &impl Abort, case: &Case) {
    let geometry = geometry(rt, case.numbers);
    let (high, c1, capacity) = case.marks;
    assert_same(rt, geometry.high_mark(), high);
    assert_same(rt, geometry.c1_mark(), c1);
    assert_same(rt, geometry.capacity(), capacity);
    assert_same(rt, geometry.c1_way(), case.way);
}

fn has_bounds(rt: &impl Abort, case: &Case) {
    let geometry = geometry(rt, case.numbers);
    assert_same(
        rt,
        (geometry.first_gear(), geometry.second_gear()),
        case.gears,
    );
    assert_same(rt, (geometry.bound(14), geometry.bound(512)), case.bounds);
    assert_same(rt, (geometry.pages(), geometry.length()), case.disk);
}

// A write of 14 bytes is taken up to 14 below this limit, and not past it.
fn has_limit(rt: &impl Abort, geometry: &Geometry, is_del: bool, limit: u64) {
    assert_that(rt, geometry.admits(is_del, limit.saturating_sub(14), 14));
    assert_that(rt, !geometry.admits(is_del, limit.saturating_sub(13), 14));
}

fn has_limits(rt: &impl Abort, case: &Case) {
    let geometry = geometry(rt, case.numbers);
    let (_, _, capacity) = case.marks;
    has_limit(rt, &geometry, false, case.limit);
    has_limit(rt, &geometry, true, capacity);
}

#[test]
fn three_geometries_have_their_numbers(rt: HostRuntime) {
    for case in &cases() {
        has_numbers(&rt, case);
        has_marks(&rt, case);
        has_bounds(&rt, case);
        has_limits(&rt, case);
    }
}

#[test]
fn the_smallest_store_is_full_at_its_edges(rt: HostRuntime) {
    let geometry = geometry(&rt, (17_408, 2, 16_384, 4_096));
    let cases = [
        (true, 139_250, true),
        (true, 139_251, false),
        (false, 121_842, true),
        (false, 121_843, false),
        (false, u64::MAX, false),
    ];
    for (is_del, charge, taken) in cases {
        assert_same_at(&rt, geometry.admits(is_del, charge, 14), taken, charge);
    }
}

#[test]
fn the_first_number_out_of_range_is_named(rt: HostRuntime) {
    let cases = [
        ((17_407, 1, 70_000, 1), Err(GeometryFault::Half)),
        ((67_108_865, 2, 0, 1_024), Err(GeometryFault::Half)),
        ((17_408, 1, 70_000, 1), Err(GeometryFault::Ratio)),
        ((17_408, 9, 70_000, 1), Err(GeometryFault::Ratio)),
        ((17_408, 2, 17_409, 1), Err(GeometryFault::Low)),
        ((17_408, 2, 17_408, 1_023), Err(GeometryFault::Quantum)),
        ((17_408, 2, 17_408, 65_537), Err(GeometryFault::Quantum)),
        ((17_408, 2, 0, 1_024), Ok(())),
        ((67_108_864, 8, 67_108_864, 65_536), Ok(())),
        ((32_768, 4, 16_384, 4_096), Ok(())),
    ];
    for ((half, ratio, low, quantum), outcome) in cases {
        let made = Geometry::new(half, ratio, low, quantum).map(|_| ());
        assert_same_at(&rt, made, outcome, (half, ratio, low, quantum));
    }
    assert_same(
        &rt,
        Geometry::new(32_768, 4, 16_384, 4_096),
        Ok(Geometry::default()),
    );
}
