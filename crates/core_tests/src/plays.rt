// The plain store of the model beside a history: it scans all writes, and knows no merge and no disk.
use crate::asserts::assert_that_at;
use blsm_model::{Annals, Plain, ShortReply};
use std::alloc::Global;
use std::process::Abort;

// Whether the entry at a place is a write that was refused for its size, which the plain store would take.
fn is_full(annals: &Annals, place: u32) -> bool {
    if annals.len() <= place as usize {
        return false;
    }
    matches!(annals.short_reply(place), Some(ShortReply::Full(_)))
}

// The plain store replies as the entry at a place, which isn't one that it doesn't know.
fn check_play(rt: &impl Abort, plain: &mut Plain, annals: &Annals, place: u32) {
    if annals.len() <= place as usize {
        return;
    }
    let op = annals.op(place);
    if Plain::can_answer(op) {
        let reply = plain.answer(op).expect(rt, "memory");
        assert_that_at(rt, annals.reply(place) == reply, place);
    }
}

/// Asserts that a plain store tells each get what it was told here, and takes each write that was taken.
pub fn check_plays(rt: &impl Abort, alloc: Global, annals: &Annals) {
    let mut plain = Plain::new(alloc, u64::MAX);
    for place in 0..annals.len() as u32 {
        if !is_full(annals, place) {
            check_play(rt, &mut plain, annals, place);
        }
    }
}
