//! Worked words of a Node4.
ghost use Rattle.art_cell.specs.declared.cells.Layout.TheVariants as layouts;
ghost use Rattle.art_cell.specs.Reads.{IsBodyOf};

use crate::kinds::{change, check_at_least, check_probe, check_words, empty, give};
use art_cell::{Body, Entry, Layout, NextProbe, Probe};
use art_node4::Node4;
use std::process::Abort;
use std::test::*;

/// The node of the prefix 01 with the bytes 01 and 02, and the child words 1 and 9.
fn example(rt: &impl Abort) -> Body
    ensures { IsBodyOf layouts.Node4 result }
{
    let mut body = empty::<Node4>(Layout::Node4);
    assert!(rt; give::<Node4>(rt, &mut body, 2, 7));
    assert!(rt; give::<Node4>(rt, &mut body, 1, 1));
    change::<Node4>(rt, &mut body, 2, 9);
    body
}

#[test]
fn the_words_of_two_children_are_as_drawn(rt: HostRuntime) {
    let words = example(&rt).words;
    check_words(&rt, &words, 0, &[0, 514, 0x0100_0000_0000_0000]);
    check_words(&rt, &words, 3, &[0; 7]);
    check_words(&rt, &words, 10, &[0x0102_0000_0000_0000, 1, 9, 0, 0]);
}

#[test]
fn a_probe_asks_for_the_header_the_keys_and_the_child(rt: HostRuntime) {
    let words = example(&rt).words;
    check_probe::<Node4>(&rt, &words, 1, &[1, 10, 11], Probe::Child(1));
    check_probe::<Node4>(&rt, &words, 2, &[1, 10, 12], Probe::Child(9));
    check_probe::<Node4>(&rt, &words, 0, &[1, 10], Probe::None);
    check_probe::<Node4>(&rt, &words, 3, &[1, 10], Probe::None);
    let none = empty::<Node4>(Layout::Node4).words;
    check_probe::<Node4>(&rt, &none, 3, &[1], Probe::None);
}

#[test]
fn the_least_entry_is_found(rt: HostRuntime) {
    let words = example(&rt).words;
    let first = NextProbe::Entry(Entry { byte: 1, child: 1 });
    let second = NextProbe::Entry(Entry { byte: 2, child: 9 });
    check_at_least::<Node4>(&rt, &words, 0, &[1, 10, 11], first);
    check_at_least::<Node4>(&rt, &words, 1, &[1, 10, 11], first);
    check_at_least::<Node4>(&rt, &words, 2, &[1, 10, 12], second);
    check_at_least::<Node4>(&rt, &words, 3, &[1, 10], NextProbe::None);
}

#[test]
fn words_of_no_node_are_answered(rt: HostRuntime) {
    let mut words = [0; 266];
    words[1] = 511;
    check_probe::<Node4>(&rt, &words, 5, &[1, 10], Probe::None);
    check_probe::<Node4>(&rt, &words, 0, &[1, 10, 11], Probe::None);
    words[10] = 0x0908_0706_0504_0302;
    check_probe::<Node4>(&rt, &words, 9, &[1, 10, 11], Probe::None);
    check_probe::<Node4>(&rt, &words, 10, &[1, 10], Probe::None);
    let least = NextProbe::Entry(Entry { byte: 9, child: 0 });
    check_at_least::<Node4>(&rt, &words, 2, &[1, 10, 11], least);
}
