// Sums of weights: of the writes of a history, and of what is on the disk.
use crate::asserts::{assert_same, assert_that_at};
use crate::stores::File;
use blsm_model::{Annals, Component, Geometry, Op, ShortReply, Totals};
use record_delta::weight;
use std::alloc::Global;
use std::process::Abort;

// A write that was refused for its size would have brought the charge past what the geometry admits.
fn check_refused(rt: &impl Abort, geo: &Geometry, op: &Op, charge: u64, place: u32) {
    let is_del = matches!(op, Op::Del(_));
    assert_that_at(rt, op.is_write(), place);
    assert_that_at(rt, !geo.admits(is_del, charge, op.weight()), place);
}

// What the entry at a place adds to the weights: that of its write, where it is done.
fn weight_at(rt: &impl Abort, geo: &Geometry, annals: &Annals, place: u32) -> u64 {
    if annals.len() <= place as usize {
        return 0;
    }
    let op = annals.op(place);
    match annals.short_reply(place) {
        Some(ShortReply::Done) if op.is_write() => op.weight(),
        Some(ShortReply::Full(charge)) => {
            check_refused(rt, geo, op, *charge, place);
            0
        }
        _ => 0,
    }
}

// What all writes weigh that are done. Each that isn't was refused for its size.
fn weight_written(rt: &impl Abort, geo: &Geometry, annals: &Annals) -> u64 {
    let mut sum = 0u64;
    for place in 0..annals.len() as u32 {
        sum = sum.saturating_add(weight_at(rt, geo, annals, place));
    }
    sum
}

// What a component's entries weigh, which is what the catalogue says.
fn weight_of(rt: &impl Abort, alloc: Global, file: &mut File, component: &Component) -> u64 {
    let mut sum = 0u64;
    for (key, rec) in &file.entries(rt, alloc, component) {
        sum = sum.saturating_add(weight(key, rec));
    }
    assert_same(rt, sum, component.weight);
    sum
}

// What the three components weigh together.
fn weight_merged(rt: &impl Abort, alloc: Global, file: &mut File) -> u64 {
    let catalogue = file.newest(rt);
    let c1 = weight_of(rt, alloc, file, &catalogue.c1);
    let c1x = weight_of(rt, alloc, file, &catalogue.c1x);
    let c2 = weight_of(rt, alloc, file, &catalogue.c2);
    c1.saturating_add(c1x).saturating_add(c2)
}

/// Asserts that the charge is no less than what the components weigh and no more than what was written, and that a refused write wouldn't
/// have fitted.
pub fn check_weights(
    rt: &impl Abort,
    alloc: Global,
    file: &mut File,
    annals: &Annals,
    totals: &Totals,
) {
    let geo = file.geo;
    assert!(rt; weight_merged(rt, alloc, file) <= totals.charge);
    assert!(rt; totals.charge <= weight_written(rt, &geo, annals));
}
