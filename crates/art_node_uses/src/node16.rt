//! Worked words of a Node16.
ghost use Rattle.art_cell.specs.declared.cells.Layout.TheVariants as layouts;
ghost use Rattle.art_cell.specs.Reads.{IsBodyOf};

use crate::kinds::{change, check_at_least, check_probe, check_words, empty, give};
use art_cell::{Body, Entry, Layout, NextProbe, Probe};
use art_node16::Node16;
use std::process::Abort;
use std::test::*;

/// The node of the prefix 01 with these bytes.
fn with_bytes(rt: &impl Abort, bytes: &[u8]) -> Body
    ensures { IsBodyOf layouts.Node16 result }
{
    let mut body = empty::<Node16>(Layout::Node16);
    for byte in bytes {
        assert!(rt; give::<Node16>(rt, &mut body, *byte, 1000 + u64::from(*byte)));
    }
    body
}

/// A node of nine children, so that the last one's byte stands in the second word.
fn example(rt: &impl Abort) -> Body
    ensures { IsBodyOf layouts.Node16 result }
{
    with_bytes(rt, &[90, 10, 20, 80, 70, 30, 40, 60, 50])
}

#[test]
fn the_words_of_nine_children_are_as_drawn(rt: HostRuntime) {
    let mut body = example(&rt);
    change::<Node16>(&rt, &mut body, 90, 5);
    let keys = [0x0a14_1e28_323c_4650, 0x5a00_0000_0000_0000];
    let children = [1010, 1020, 1030, 1040, 1050, 1060, 1070, 1080, 5];
    check_words(&rt, &body.words, 0, &[0, 521, 0x0100_0000_0000_0000]);
    check_words(&rt, &body.words, 10, &keys);
    check_words(&rt, &body.words, 12, &children);
    check_words(&rt, &body.words, 21, &[0; 7]);
}

#[test]
fn a_probe_asks_for_the_second_word_of_keys_only_where_it_must(rt: HostRuntime) {
    let words = example(&rt).words;
    check_probe::<Node16>(&rt, &words, 10, &[1, 10, 12], Probe::Child(1010));
    check_probe::<Node16>(&rt, &words, 80, &[1, 10, 19], Probe::Child(1080));
    check_probe::<Node16>(&rt, &words, 75, &[1, 10], Probe::None);
    check_probe::<Node16>(&rt, &words, 90, &[1, 10, 11, 20], Probe::Child(1090));
    check_probe::<Node16>(&rt, &words, 85, &[1, 10, 11], Probe::None);
    check_probe::<Node16>(&rt, &words, 91, &[1, 10, 11], Probe::None);
    let eight = with_bytes(&rt, &[1, 2, 3, 4, 5, 6, 7, 8]).words;
    check_probe::<Node16>(&rt, &eight, 9, &[1, 10], Probe::None);
}

/// The entry of a byte of the example.
fn entry(byte: u8) -> NextProbe {
    let child = 1000 + u64::from(byte);
    NextProbe::Entry(Entry { byte, child })
}

#[test]
fn the_least_entry_is_found(rt: HostRuntime) {
    let words = example(&rt).words;
    check_at_least::<Node16>(&rt, &words, 71, &[1, 10, 19], entry(80));
    check_at_least::<Node16>(&rt, &words, 80, &[1, 10, 19], entry(80));
    check_at_least::<Node16>(&rt, &words, 81, &[1, 10, 11, 20], entry(90));
    check_at_least::<Node16>(&rt, &words, 91, &[1, 10, 11], NextProbe::None);
}

#[test]
fn words_of_no_node_are_answered(rt: HostRuntime) {
    let mut words = [0; 266];
    words[1] = 511;
    check_probe::<Node16>(&rt, &words, 5, &[1, 10, 11], Probe::None);
    check_probe::<Node16>(&rt, &words, 0, &[1, 10, 12], Probe::None);
    words[10] = 0x0908_0706_0504_0302;
    check_probe::<Node16>(&rt, &words, 9, &[1, 10, 12], Probe::None);
    check_probe::<Node16>(&rt, &words, 10, &[1, 10, 11], Probe::None);
    let least = NextProbe::Entry(Entry { byte: 9, child: 0 });
    check_at_least::<Node16>(&rt, &words, 2, &[1, 10, 12], least);
}
