//! Worked words of a Node256.
ghost use Rattle.art_cell.specs.declared.cells.Layout.TheVariants as layouts;
ghost use Rattle.art_cell.specs.Reads.{IsBodyOf};

use crate::kinds::{
    change, check_asked, check_at_least, check_children, check_probe, check_words, empty, give,
    remove,
};
use art_cell::{Body, Entry, Layout, NextProbe, Probe};
use art_node256::Node256;
use std::process::Abort;
use std::test::*;

/// A node of the bytes 0, 100 and 255.
fn example(rt: &impl Abort) -> Body
    ensures { IsBodyOf layouts.Node256 result }
{
    let mut body = empty::<Node256>(Layout::Node256);
    assert!(rt; give::<Node256>(rt, &mut body, 0, 4));
    assert!(rt; give::<Node256>(rt, &mut body, 100, 6));
    assert!(rt; give::<Node256>(rt, &mut body, 255, 7));
    change::<Node256>(rt, &mut body, 0, 5);
    body
}

#[test]
fn the_words_of_three_children_are_as_drawn(rt: HostRuntime) {
    let body = example(&rt);
    let mut children = [0; 256];
    children[0] = 5;
    children[100] = 6;
    children[255] = 7;
    check_children::<Node256>(&rt, &body, &children);
    check_words(&rt, &body.words, 10, &children);
}

#[test]
fn a_probe_asks_for_the_child(rt: HostRuntime) {
    let words = example(&rt).words;
    check_probe::<Node256>(&rt, &words, 100, &[110], Probe::Child(6));
    check_probe::<Node256>(&rt, &words, 99, &[109], Probe::None);
}

/// The entry of a byte.
fn found(byte: u8, child: u64) -> NextProbe {
    NextProbe::Entry(Entry { byte, child })
}

#[test]
fn the_least_entry_is_found(rt: HostRuntime) {
    let mut body = example(&rt);
    check_at_least::<Node256>(&rt, &body.words, 0, &[10], found(0, 5));
    check_at_least::<Node256>(&rt, &body.words, 98, &[108, 109, 110], found(100, 6));
    check_asked::<Node256>(&rt, &body.words, 1, 100, found(100, 6));
    check_asked::<Node256>(&rt, &body.words, 101, 155, found(255, 7));
    remove::<Node256>(&rt, &mut body, 255);
    check_asked::<Node256>(&rt, &body.words, 101, 155, NextProbe::None);
}

#[test]
fn words_of_no_node_are_answered(rt: HostRuntime) {
    let mut words = [u64::MAX; 266];
    words[12] = 0;
    check_probe::<Node256>(&rt, &words, 2, &[12], Probe::None);
    check_probe::<Node256>(&rt, &words, 255, &[265], Probe::Child(u64::MAX));
    check_at_least::<Node256>(&rt, &words, 2, &[12, 13], found(3, u64::MAX));
}
