//! Plans of a Node256, by the words that they write, and nodes with a prefix.
ghost use Rattle.std.specs.Prelude.{◌<◌};
ghost use Rattle.art_cell.specs.declared.cells.Layout.TheVariants as layouts;
ghost use Rattle.art_cell.specs.Reads.{IsBodyOf};

use crate::kinds::{check_words, child, empty, give};
use art_cell::{Body, Layout, Write, Writes};
use art_node::{fork, plan_add, plan_drop, plan_prefix, plan_set};
use art_node256::Node256;
use std::process::Abort;
use std::test::*;

/// The words to write for a child more.
fn check_add(rt: &impl Abort, body: &Body, byte: u8, word: u64, wanted: &[Write])
    requires body { IsBodyOf layouts.Node256 body.now }
    requires child { 0 < word }
{
    if let Some(_) = child::<Node256>(rt, body, byte) {
        panic!(rt; "a byte has a child already");
    }
    let mut writes = Writes::new();
    assert!(rt; plan_add(body, byte, word, &mut writes));
    assert_eq!(rt; writes.as_slice(), wanted);
}

/// The words to write for another child.
fn check_set(rt: &impl Abort, body: &Body, byte: u8, word: u64, wanted: &[Write])
    requires body { IsBodyOf layouts.Node256 body.now }
    requires child { 0 < word }
{
    let Some(_) = child::<Node256>(rt, body, byte) else {
        panic!(rt; "a byte has no child");
    };
    let mut writes = Writes::new();
    plan_set(body, byte, word, &mut writes);
    assert_eq!(rt; writes.as_slice(), wanted);
}

/// The words to write for a child less.
fn check_drop(rt: &impl Abort, body: &Body, byte: u8, wanted: &[Write])
    requires { IsBodyOf layouts.Node256 body.now }
{
    let Some(_) = child::<Node256>(rt, body, byte) else {
        panic!(rt; "a byte has no child");
    };
    let mut writes = Writes::new();
    plan_drop(body, byte, &mut writes);
    assert_eq!(rt; writes.as_slice(), wanted);
}

/// A word to write.
fn word(place: usize, value: u64) -> Write {
    Write { place, value }
}

#[test]
fn plans_write_the_words_that_differ(rt: HostRuntime) {
    let mut body = empty::<Node256>(Layout::Node256);
    check_add(&rt, &body, 3, 9, &[word(1, 513), word(13, 9)]);
    assert!(rt; give::<Node256>(&rt, &mut body, 3, 9));
    check_set(&rt, &body, 3, 8, &[word(13, 8)]);
    check_set(&rt, &body, 3, 9, &[]);
    check_drop(&rt, &body, 3, &[word(1, 512), word(13, 0)]);
}

#[test]
fn a_fork_has_its_prefix_and_two_children(rt: HostRuntime) {
    let mut forked = empty::<Node256>(Layout::Node256);
    fork(&mut forked, b"abcdefghi".as_slice(), 7, 9, 3, 17);
    check_words(
        &rt,
        &forked.words,
        0,
        &[0, 4_610, 0x6162_6364_6566_6768, 0x6900_0000_0000_0000, 0],
    );
    check_words(
        &rt,
        &forked.words,
        10,
        &[0x0307_0000_0000_0000, 17, 9, 0, 0],
    );
    let mut writes = Writes::new();
    plan_prefix(&forked, b"abcdefgh".as_slice(), &mut writes);
    assert_eq!(rt; writes.as_slice(), [word(1, 4_098), word(3, 0)].as_slice());
    plan_prefix(&forked, b"".as_slice(), &mut writes);
    assert_eq!(rt;
        writes.as_slice(),
        [word(1, 2), word(2, 0), word(3, 0)].as_slice()
    );
}
