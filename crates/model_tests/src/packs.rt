// Batches: which writes may be one, and what it tells of them.
use crate::asserts::{assert_same, assert_same_at, assert_that};
use crate::samples::{key, value};
use blsm_model::{Pack, Text, Write};
use std::array;
use std::process::Abort;

fn del(rt: &impl Abort) -> Write {
    Write::Del(key(rt, b"a"))
}

fn put(rt: &impl Abort, text: &[u8]) -> Write {
    Write::Put(key(rt, b"a"), value(rt, 5, text))
}

fn tail(rt: &impl Abort, tail: &[u8]) -> Write {
    Write::Tail(key(rt, b"a"), Text::from_bytes(tail).expect(rt, "a text"))
}

#[test]
fn a_batch_has_2_to_32_writes(rt: HostRuntime) {
    let dels: [Write; 33] = array::from_fn(|_| del(&rt));
    for (count, is_batch) in [(0, false), (1, false), (2, true), (32, true), (33, false)] {
        assert_same_at(&rt, Pack::of(&dels[..count]).is_some(), is_batch, count);
    }
}

#[test]
fn a_batch_weighs_1024_bytes_at_most(rt: HostRuntime) {
    let bytes = [b'x'; 435];
    for (len, is_batch) in [(112, true), (113, false)] {
        let writes = [put(&rt, &bytes), put(&rt, &bytes), put(&rt, &bytes[..len])];
        assert_same_at(&rt, Pack::of(&writes).is_some(), is_batch, len);
    }
}

fn batch(rt: &impl Abort, writes: &[Write]) -> Pack {
    Pack::of(writes).expect(rt, "a batch")
}

// It gives these writes, in order.
fn gives(rt: &impl Abort, batch: &Pack, writes: &[Write]) {
    assert_same(rt, batch.len(), writes.len());
    for place in 0..writes.len() {
        assert!(rt; place < batch.len());
        assert_that(rt, batch.write(place) == writes[place]);
    }
}

#[test]
fn a_batch_gives_its_writes_and_their_weight(rt: HostRuntime) {
    let writes = [
        put(&rt, b"hi"),
        tail(&rt, b"yo"),
        Write::Add(key(&rt, b"b"), 4),
        Write::Del(key(&rt, b"ccc")),
    ];
    let batch = batch(&rt, &writes);
    gives(&rt, &batch, &writes);
    gives(&rt, &batch.copy(), &writes);
    assert_same(&rt, batch.weight(), 62);
}

#[test]
fn a_batch_tells_whether_it_has_dels_alone(rt: HostRuntime) {
    let dels = batch(&rt, &[del(&rt), del(&rt)]);
    assert_that(&rt, dels.are_dels());
    let put_last = batch(&rt, &[del(&rt), put(&rt, b"")]);
    assert_that(&rt, !put_last.are_dels());
}

#[test]
fn a_batch_fits_where_its_tails_do(rt: HostRuntime) {
    let bytes = [b'x'; 65];
    for (len, fits) in [(0, false), (1, true), (64, true), (65, false)] {
        let batch = batch(&rt, &[put(&rt, &bytes), tail(&rt, &bytes[..len])]);
        assert_same_at(&rt, batch.fits(), fits, len);
    }
}
