// The filters of a run: the one that its writer fills, and the one that is made anew from its pages.
use crate::asserts::{assert_same, assert_that, assert_that_at};
use crate::samples::{blank, empty_guide, free_map, guide_of, smallest};
use crate::trips::{entry, write};
use bloom_bits::{Filter, fnv1a};
use std::process::Abort;

// How many keys there are.
const KEYS: u32 = 500;

// A filter says yes to each key of the run. They have the even numbers.
fn check_present(rt: &impl Abort, filter: &Filter) {
    for n in 0..KEYS {
        let (key, _) = entry(rt, n.saturating_mul(2));
        assert_that_at(rt, filter.may(&key), n);
    }
}

// To how many of as many keys between them a filter says yes.
fn count_wrong(rt: &impl Abort, filter: &Filter) -> u32 {
    let mut wrong = 0u32;
    for n in 0..KEYS {
        let (key, _) = entry(rt, n.saturating_mul(2).saturating_add(1));
        if filter.may(&key) {
            wrong = wrong.saturating_add(1);
        }
    }
    wrong
}

// 2,000 places of 4,096 bits set 39 bits in a hundred, so four of them are set for 2 keys in a hundred that aren't there. The filter that is
// made anew has as many bits as the run weighs bytes, of which the keys set one in a hundred.
#[test]
fn a_filter_says_yes_to_each_key_of_a_run_of_500(rt: HostRuntime) {
    let geo = smallest(&rt);
    let mut disk = blank(&rt, rt.alloc(), &geo, 2_000_000);
    let mut space = free_map(&rt, rt.alloc(), &geo);
    let mut guide = empty_guide(&rt, rt.alloc());
    let run = write(&rt, &mut disk, &geo, &mut space, &mut guide, KEYS);
    assert_that(&rt, run.pages != 0);
    let anew = guide_of(&rt, rt.alloc(), &mut disk, &geo, &run);
    check_present(&rt, &guide.filter);
    check_present(&rt, &anew.filter);
    assert!(rt; count_wrong(&rt, &guide.filter) < 25);
    assert!(rt; count_wrong(&rt, &anew.filter) < 2);
}

// Published numbers of the hash.
#[test]
fn the_hash_has_its_published_numbers(rt: HostRuntime) {
    assert_same(&rt, fnv1a(b""), 0xcbf2_9ce4_8422_2325);
    assert_same(&rt, fnv1a(b"a"), 0xaf63_dc4c_8601_ec8c);
    assert_same(&rt, fnv1a(b"foobar"), 0x8594_4171_f739_67e8);
}
