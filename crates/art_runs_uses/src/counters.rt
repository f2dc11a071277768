//! The version words of a node, in two lives of its number.
ghost use Rattle.art_runs_uses.specs.Benches.{IsBench};

use crate::benches::{Bench, PASSES, opened};
use crate::events::Notes;
use crate::wishes::{Wish, schema_of_rows};
use art_cell::{Cell, Layout, Node};
use art_key::Schema;
use art_step::Sizes;
use art_world::World;
use std::alloc::Global;
use std::process::Abort;

const SIZES: Sizes = Sizes {
    leaves: 8,
    n4: 2,
    n16: 1,
    n48: 1,
    n256: 1,
    passes: PASSES,
};

/// More turns than one op takes.
const TURNS: u32 = 1_000;

/// The version word of the first node of 4 children.
fn first_word(rt: &impl Abort, world: &World) -> u64 {
    assert!(rt; world.sizes().n4 > 0);
    let node = Node {
        layout: Layout::Node4,
        number: 0,
    };
    world.version(Cell::Node(node)).word
}

/// The first pass makes its op, step by step, and each word that the node comes to meanwhile is noted.
fn note_words(
    rt: &impl Abort,
    schema: &Schema,
    bench: &mut Bench,
    notes: &mut Notes,
    words: &mut Vec<u64>,
)
    requires { IsBench bench.old.world bench.old.ops.items }
    ensures { IsBench bench.new.world bench.new.ops.items }
{
    for _ in 0..TURNS {
        let has_ended = bench.turn(rt, schema, notes, 0);
        let word = first_word(rt, &bench.world);
        if words.last() != Some(&word) {
            words.push(word).expect(rt, "memory");
        }
        if has_ended {
            return;
        }
    }
    panic!(rt; "the op goes on");
}

/// Two rows, one, and two again: the node is claimed, released, upgraded, released as obsolete, claimed and released.
fn check_two_lives(rt: &impl Abort, alloc: Global) {
    let schema = schema_of_rows(rt);
    let first = Wish::Insert(1, 1);
    let mut bench = opened(rt, alloc, &schema, &SIZES, 0, first);
    let mut notes = Notes::new(rt, alloc, PASSES as usize, first);
    let mut words = Vec::new(alloc);
    note_words(rt, &schema, &mut bench, &mut notes, &mut words);
    for wish in [Wish::Insert(2, 2), Wish::Remove(2), Wish::Insert(2, 2)] {
        notes.begins(rt, 0, wish);
        bench.begins(rt, &schema, 0, wish);
        note_words(rt, &schema, &mut bench, &mut notes, &mut words);
    }
    let Bench { world, ops } = bench;
    assert_eq!(rt; world.version(Cell::Anchor).word, 16);
    assert_eq!(rt; ops.len(), PASSES as usize);
    assert_eq!(rt; words.as_slice(), [1, 2, 4, 6, 9, 2, 4].as_slice());
}

#[test]
fn a_node_begins_its_counter_anew_with_each_life(rt: HostRuntime) {
    check_two_lives(&rt, rt.alloc());
}
