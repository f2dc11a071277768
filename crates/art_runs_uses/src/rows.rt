//! Rows that are inserted are found, those that stand keep their values, and a refusal has its cause.
ghost use Rattle.art_runs_uses.specs.Writes.{WritesFirst};

use crate::cells::check_free_word;
use crate::clients::{Client, check_find, check_put, check_take, opened};
use art_cell::{Cell, Pool};
use art_change::WriteOutcome;
use art_key::{Key, Schema, encode};
use art_look::Outcome as Got;
use art_model::{Tuple, Value};
use art_step::Sizes;
use art_world::World;
use std::process::Abort;

const SIZES: Sizes = Sizes {
    leaves: 256,
    n4: 4,
    n16: 4,
    n48: 4,
    n256: 4,
    passes: 8,
};

/// The key of a number, as the schema of one column spells it that the text says.
pub(crate) fn key_of(rt: &impl Abort, schema: &str, number: u16) -> Key {
    let schema = Schema::parse(schema).expect(rt, "a schema");
    let mut tuple = Tuple::new();
    tuple.push(Value::Int(i128::from(number)));
    encode(&schema, &tuple).expect(rt, "a number of the column")
}

/// This is the word of the anchor.
fn check_anchor(rt: &impl Abort, world: &World, wanted: u64) {
    assert_eq!(rt; world.word(Cell::Anchor, 1), wanted);
}

/// What the anchor names is of this kind: 1 is a leaf, 2 a Node4, 3 a Node16, 4 a Node48, 5 a Node256.
fn check_root(rt: &impl Abort, world: &World, kind: u64) {
    assert_eq!(rt; world.word(Cell::Anchor, 1) % 8, kind);
}

/// Nothing waits in the limbo of the pass.
fn check_limbo(rt: &impl Abort, client: &Client) {
    assert_eq!(rt; client.caller.limbo().room(), 64);
}

/// At most three numbers wait in the limbo of the pass.
fn check_few_wait(rt: &impl Abort, client: &Client) {
    assert!(rt; client.caller.limbo().room() > 60);
}

#[test]
fn rows_that_are_inserted_are_found(rt: HostRuntime) {
    let mut client = opened(&rt, rt.alloc(), &SIZES, 0);
    let one = key_of(&rt, "u8", 1);
    let five = key_of(&rt, "u8", 5);
    let stands = WriteOutcome::Present(10);
    check_find(&rt, &mut client, &one, Got::Absent);
    check_put(&rt, &mut client, &one, 10, WriteOutcome::New);
    check_put(&rt, &mut client, &five, 50, WriteOutcome::New);
    check_put(&rt, &mut client, &one, 11, stands);
    check_find(&rt, &mut client, &one, Got::Found(10));
    check_find(&rt, &mut client, &five, Got::Found(50));
    check_anchor(&rt, &client.world, 2);
    check_limbo(&rt, &client);
}

/// Rows with the numbers from `first` on before `end` are inserted: each is new, and found.
pub(crate) fn fills(rt: &impl Abort, client: &mut Client, schema: &str, first: u16, end: u16)
    requires { WritesFirst client.old.world client.old.caller }
    ensures { WritesFirst client.new.world client.new.caller }
{
    for number in first..end {
        let key = key_of(rt, schema, number);
        let value = u64::from(number);
        check_put(rt, client, &key, value, WriteOutcome::New);
        check_find(rt, client, &key, Got::Found(value));
    }
}

/// Rows with the numbers from `first` on before `end` are removed: each had its value, and is absent then.
pub(crate) fn empties(rt: &impl Abort, client: &mut Client, schema: &str, first: u16, end: u16)
    requires { WritesFirst client.old.world client.old.caller }
    ensures { WritesFirst client.new.world client.new.caller }
{
    for number in first..end {
        let key = key_of(rt, schema, number);
        let value = u64::from(number);
        check_take(rt, client, &key, WriteOutcome::Gone(value));
        check_find(rt, client, &key, Got::Absent);
        check_take(rt, client, &key, WriteOutcome::Absent);
    }
}

#[test]
fn nodes_shrink_at_thirty_six_twelve_three_and_one(rt: HostRuntime) {
    let mut client = opened(&rt, rt.alloc(), &SIZES, 0);
    fills(&rt, &mut client, "u8", 0, 60);
    for (first, end, kind) in [
        (0, 23, 5),
        (23, 24, 4),
        (24, 47, 4),
        (47, 48, 3),
        (48, 56, 3),
        (56, 57, 2),
        (57, 59, 1),
    ] {
        empties(&rt, &mut client, "u8", first, end);
        check_root(&rt, &client.world, kind);
    }
    empties(&rt, &mut client, "u8", 59, 60);
    check_anchor(&rt, &client.world, 0);
    check_few_wait(&rt, &client);
}

#[test]
fn nodes_grow_at_five_seventeen_and_forty_nine(rt: HostRuntime) {
    let mut client = opened(&rt, rt.alloc(), &SIZES, 0);
    for (first, end, kind) in [
        (0, 4, 2),
        (4, 5, 3),
        (5, 16, 3),
        (16, 17, 4),
        (17, 48, 4),
        (48, 200, 5),
    ] {
        fills(&rt, &mut client, "u8", first, end);
        check_root(&rt, &client.world, kind);
    }
    let last_word = 0xffff_ffff_ffff_ff00;
    check_free_word(&rt, &client.world, Pool::Leaves, 3, last_word);
    check_limbo(&rt, &client);
}

const NO_NODE16: Sizes = Sizes {
    leaves: 8,
    n4: 1,
    n16: 0,
    n48: 1,
    n256: 1,
    passes: 1,
};

const FEW: Sizes = Sizes {
    leaves: 2,
    ..NO_NODE16
};

#[test]
fn a_third_row_finds_two_leaves_full(rt: HostRuntime) {
    let mut client = opened(&rt, rt.alloc(), &FEW, 0);
    fills(&rt, &mut client, "u8", 0, 2);
    let third = key_of(&rt, "u8", 2);
    let full = WriteOutcome::Full(Pool::Leaves);
    check_put(&rt, &mut client, &third, 2, full);
    check_find(&rt, &mut client, &third, Got::Absent);
    check_limbo(&rt, &client);
}

#[test]
fn a_full_node4_finds_no_node16(rt: HostRuntime) {
    let mut client = opened(&rt, rt.alloc(), &NO_NODE16, 0);
    fills(&rt, &mut client, "u8", 0, 4);
    let fifth = key_of(&rt, "u8", 4);
    let full = WriteOutcome::Full(Pool::N16);
    check_put(&rt, &mut client, &fifth, 4, full);
    check_free_word(&rt, &client.world, Pool::Leaves, 0, 0xf0);
    check_limbo(&rt, &client);
}

/// The end of a counter.
const LAST: u64 = (1 << 62) - 8;

#[test]
fn the_anchor_at_the_end_of_its_counter_is_exhausted(rt: HostRuntime) {
    let mut client = opened(&rt, rt.alloc(), &SIZES, LAST);
    let one = key_of(&rt, "u8", 1);
    let exhausted = WriteOutcome::Exhausted(Cell::Anchor);
    check_put(&rt, &mut client, &one, 1, exhausted);
    check_find(&rt, &mut client, &one, Got::Absent);
    check_free_word(&rt, &client.world, Pool::Leaves, 0, u64::MAX);
    check_limbo(&rt, &client);
}

/// A node begins its counter anew, so it is changed below an anchor whose counter is at its end.
#[test]
fn a_node_below_an_anchor_at_its_end_is_changed(rt: HostRuntime) {
    let mut client = opened(&rt, rt.alloc(), &SIZES, LAST - 2);
    fills(&rt, &mut client, "u8", 0, 4);
    let fifth = key_of(&rt, "u8", 4);
    let exhausted = WriteOutcome::Exhausted(Cell::Anchor);
    check_put(&rt, &mut client, &fifth, 4, exhausted);
    let third = key_of(&rt, "u8", 2);
    check_take(&rt, &mut client, &third, WriteOutcome::Gone(2));
    check_find(&rt, &mut client, &third, Got::Absent);
    check_few_wait(&rt, &client);
}
