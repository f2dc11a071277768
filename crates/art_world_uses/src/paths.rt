//! Packed bytes beside keys, prefixes and bounds.
ghost use Rattle.std.specs.Prelude.{◌≤◌, length};

use crate::keys::key_of;
use art_key::Bound;
use art_path::{Compared, Parts, after, common, compare_prefix, join, split};
use std::process::Abort;
use std::test::*;

/// A text of bytes.
const KEY: [u8; 10] = [7, 1, 2, 5, 9, 0, 0, 0, 0, 3];

/// A shorter one.
const SHORT: [u8; 5] = [7, 1, 2, 5, 9];

/// So many bytes of a word compare so with those of the key from a place on.
fn check_compared(
    rt: &impl Abort,
    bytes: [u8; 8],
    count: usize,
    key: &[u8],
    from: usize,
    wanted: Compared,
)
    requires few { count ≤ 8 }
    requires from { from ≤ length key.now }
{
    let word = u64::from_be_bytes(bytes);
    assert_eq!(rt; compare_prefix(word, count, key, from), wanted);
}

#[test]
fn a_word_is_compared_with_a_key(rt: HostRuntime) {
    let same = [1, 2, 5, 0, 0, 0, 0, 0];
    check_compared(&rt, same, 3, &KEY, 1, Compared::Same);
    let below = [1, 2, 4, 255, 255, 255, 255, 255];
    check_compared(&rt, below, 4, &KEY, 1, Compared::Below(2));
    let above = [1, 2, 6, 0, 0, 0, 0, 0];
    check_compared(&rt, above, 8, &KEY, 1, Compared::Above(2));
    let last = [1, 2, 5, 9, 0, 0, 0, 1];
    check_compared(&rt, last, 8, &KEY, 1, Compared::Above(7));
    check_compared(&rt, [255; 8], 0, &KEY, 1, Compared::Same);
}

#[test]
fn a_key_that_ends_is_below(rt: HostRuntime) {
    let longer = [1, 2, 5, 9, 3, 0, 0, 0];
    check_compared(&rt, longer, 5, &SHORT, 1, Compared::Above(4));
    check_compared(&rt, longer, 4, &SHORT, 1, Compared::Same);
    let below = [1, 1, 255, 255, 255, 255, 255, 255];
    check_compared(&rt, below, 8, &SHORT, 1, Compared::Below(1));
    check_compared(&rt, [0; 8], 1, &SHORT, 5, Compared::Above(0));
    let (below, above) = (Compared::Below(2), Compared::Above(0));
    let behind = (below.behind(8), above.behind(64));
    assert_eq!(rt; behind, (Compared::Below(10), Compared::Above(64)));
}

#[test]
fn prefixes_are_split_and_joined(rt: HostRuntime) {
    assert_eq!(rt; common(&[1, 2, 3], &[1, 2, 4, 5]), 2);
    let parts = Parts {
        front: key_of([1]),
        byte: 2,
        rest: key_of([3, 4]),
    };
    assert_eq!(rt; split(&[1, 2, 3, 4], 1), parts);
    assert_eq!(rt; join(&[1], 2, &[3, 4]), key_of([1, 2, 3, 4]));
}

/// This is the bound just above the path.
fn check_after(rt: &impl Abort, path: &[u8], wanted: Bound)
    requires { length path.now ≤ 64 }
{
    assert_eq!(rt; after(path), wanted);
}

#[test]
fn the_bound_above_a_path_raises_its_last_byte_below_255(rt: HostRuntime) {
    check_after(&rt, &[1, 2], Bound::At(key_of([1, 3])));
    check_after(&rt, &[1, 255, 255], Bound::At(key_of([2])));
    check_after(&rt, &[255], Bound::End);
    check_after(&rt, &[], Bound::End);
}
