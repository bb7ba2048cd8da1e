// One step of a merge.
use crate::asserts::assert_same;
use blsm_model::Key;
use merge_step::least_group;
use record_delta::{Rec, Stream};
use std::process::Abort;

#[derive(Drop)]
struct Standing {
    entry: Option<(Key, Rec)>,
}

impl Stream for Standing {
    ghost at = { λ o. o.entry };

    fn head(&self) -> Option<(Key, Rec)> {
        match &self.entry {
            Some((key, rec)) => Some((key.copy(), rec.copy())),
            None => None,
        }
    }
}

fn key(rt: &impl Abort, bytes: &[u8]) -> Key {
    Key::from_bytes(bytes).expect(rt, "a key")
}

// A run that stands at this entry.
fn run_at(rt: &impl Abort, name: &[u8], rec: Rec) -> Standing {
    Standing {
        entry: Some((key(rt, name), rec)),
    }
}

// Of these two runs this is the least group, with its weight.
fn least_is(rt: &impl Abort, newer: Standing, older: Standing, rec: Rec, weight: u64) {
    let group = least_group(&newer, &older);
    assert_same(rt, group, Some((key(rt, b"x"), rec, weight)));
}

#[test]
fn the_lesser_key_and_both_of_one(rt: HostRuntime) {
    let x = run_at(&rt, b"x", Rec::added(4));
    let y = run_at(&rt, b"y", Rec::Tomb);
    least_is(&rt, x, y, Rec::added(4), 14);
    let newer = run_at(&rt, b"x", Rec::added(4));
    let older = run_at(&rt, b"x", Rec::added(3));
    least_is(&rt, newer, older, Rec::added(7), 28);
}
