//! Worked words of a Node48.
ghost use Rattle.art_cell.specs.declared.cells.Layout.TheVariants as layouts;
ghost use Rattle.art_cell.specs.Reads.{IsBodyOf};

use crate::kinds::{
    bare, change, check_asked, check_at_least, check_probe, check_words, give, remove,
};
use art_cell::{Body, Entry, Layout, NextProbe, Probe};
use art_node48::Node48;
use std::process::Abort;
use std::test::*;

/// A node of the bytes 0 to 16, in ascending order.
fn seventeen(rt: &impl Abort) -> Body
    ensures { IsBodyOf layouts.Node48 result }
{
    let mut body = bare::<Node48>(Layout::Node48);
    for byte in 0..17u8 {
        assert!(rt; give::<Node48>(rt, &mut body, byte, 100 + u64::from(byte)));
    }
    body
}

#[test]
fn the_words_of_seventeen_children_are_as_drawn(rt: HostRuntime) {
    let words = seventeen(&rt).words;
    let index = [0x0102_0304_0506_0708, 0x090a_0b0c_0d0e_0f10, 17 << 56, 0];
    check_words(&rt, &words, 0, &[0, 8_589_869_073, 0]);
    check_words(&rt, &words, 10, &index);
    check_words(&rt, &words, 57, &[115, 116, 0]);
}

#[test]
fn a_place_that_was_freed_is_taken_again(rt: HostRuntime) {
    let mut body = seventeen(&rt);
    remove::<Node48>(&rt, &mut body, 3);
    assert!(rt; [body.words[1], body.words[45]] == [8_589_344_784, 0]);
    assert!(rt; give::<Node48>(&rt, &mut body, 255, 355));
    assert!(rt; [body.words[1], body.words[41], body.words[45]] == [8_589_869_073, 4, 355]);
    change::<Node48>(&rt, &mut body, 255, 7);
    assert!(rt; [body.words[1], body.words[45]] == [8_589_869_073, 7]);
}

/// A node of the bytes 20 and 90.
fn example(rt: &impl Abort) -> Body
    ensures { IsBodyOf layouts.Node48 result }
{
    let mut body = bare::<Node48>(Layout::Node48);
    assert!(rt; give::<Node48>(rt, &mut body, 20, 200));
    assert!(rt; give::<Node48>(rt, &mut body, 90, 900));
    body
}

#[test]
fn a_probe_asks_for_the_entry_and_the_child(rt: HostRuntime) {
    let words = example(&rt).words;
    check_probe::<Node48>(&rt, &words, 90, &[21, 43], Probe::Child(900));
    check_probe::<Node48>(&rt, &words, 91, &[21], Probe::None);
    check_probe::<Node48>(&rt, &words, 20, &[12, 42], Probe::Child(200));
    check_probe::<Node48>(&rt, &words, 21, &[12], Probe::None);
}

#[test]
fn the_least_entry_is_found(rt: HostRuntime) {
    let words = example(&rt).words;
    let low = NextProbe::Entry(Entry {
        byte: 20,
        child: 200,
    });
    let high = NextProbe::Entry(Entry {
        byte: 90,
        child: 900,
    });
    check_at_least::<Node48>(&rt, &words, 0, &[10, 11, 12, 42], low);
    check_at_least::<Node48>(&rt, &words, 90, &[21, 43], high);
    check_asked::<Node48>(&rt, &words, 21, 11, high);
    check_asked::<Node48>(&rt, &words, 91, 21, NextProbe::None);
}

#[test]
fn words_of_no_node_are_answered(rt: HostRuntime) {
    let words = [u64::MAX; 266];
    check_probe::<Node48>(&rt, &words, 0, &[10], Probe::None);
    check_probe::<Node48>(&rt, &words, 255, &[41], Probe::None);
    check_asked::<Node48>(&rt, &words, 0, 32, NextProbe::None);
}
