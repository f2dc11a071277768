//! Four passes over one world, by drawn turns: one legal history, which leaves the rows of the tree.
ghost use Rattle.std.specs.Prelude.{◌≡◌, ◌≤◌};
ghost use Rattle.art_runs_uses.specs.Benches.{IsBench};
ghost use Rattle.art_step.specs.Views.{last_counter};

use crate::benches::{Bench, PASSES, callers_of, opened};
use crate::cells::{account, is_out, rows_of_tree};
use crate::events::{Notes, Tally, check_history, check_kinds};
use crate::wishes::{Wish, draw, schema_of_rows};
use art_cell::Pool;
use art_key::Schema;
use art_runs::art_change::Outcome;
use art_runs::{Op, run};
use art_step::Sizes;
use art_world::World;
use rand_pcg::Pcg32;
use rand_pcg::rand_core::{Rng, SeedableRng};
use std::alloc::Global;
use std::process::Abort;

/// Four words of free numbers in each pool: a call that loses a number to another looks in the next word.
const LARGE: Sizes = Sizes {
    leaves: 256,
    n4: 256,
    n16: 256,
    n48: 256,
    n256: 256,
    passes: PASSES,
};

/// The end of a counter.
const LAST: u64 = (1 << 62) - 8;

/// All ops end, and what stands is checked: the history is legal, leaves the rows of the tree, and has events of each kind; each number
/// is free, named in the tree, or waiting.
fn closes(rt: &impl Abort, alloc: Global, schema: &Schema, bench: Bench, notes: Notes) -> Tally {
    let Bench { world, ops } = bench;
    let (events, tally) = notes.all(rt, alloc);
    let rows = rows_of_tree(rt, alloc, &world, schema);
    check_history(rt, alloc, schema, events.as_slice(), &rows);
    check_kinds(rt, events.as_slice());
    assert!(rt; !rows.rows().is_empty());
    let callers = callers_of(rt, alloc, ops);
    account(rt, alloc, &world, callers.as_slice());
    tally
}

/// 10,000 turns, drawn with the seed. A pass whose op has ended begins a drawn one: in the first 2,000 turns mostly an insert, in the
/// next ones mostly a removal, and so on.
fn turns(rt: &impl Abort, schema: &Schema, bench: &mut Bench, notes: &mut Notes, seed: u64)
    requires { IsBench bench.old.world bench.old.ops.items }
    ensures { IsBench bench.new.world bench.new.ops.items }
{
    let mut numbers = Pcg32::seed_from_u64(seed);
    for turn in 0..10_000_u32 {
        let which = numbers.next_u32() % PASSES;
        if bench.turn(rt, schema, notes, which) {
            notes.sees_node16(is_out(&bench.world, Pool::N16));
            let wish = draw(&mut numbers, turn / 2_000 % 2 == 0);
            notes.begins(rt, which, wish);
            bench.begins(rt, schema, which, wish);
        }
    }
}

/// Four passes over a world, by turns drawn with the seed. What they did is checked; how many ops were refused and began anew is told.
fn have_one_history(
    rt: &impl Abort,
    alloc: Global,
    sizes: &Sizes,
    counter_start: u64,
    seed: u64,
) -> Tally
    requires counter { counter_start ≤ last_counter }
    requires passes { sizes.now.passes ≡ PASSES }
{
    let schema = schema_of_rows(rt);
    let first = Wish::Get(0);
    let mut bench = opened(rt, alloc, &schema, sizes, counter_start, first);
    let mut notes = Notes::new(rt, alloc, PASSES as usize, first);
    turns(rt, &schema, &mut bench, &mut notes, seed);
    bench.runs_out(rt, &schema, &mut notes);
    closes(rt, alloc, &schema, bench, notes)
}

/// No op was refused, though some began anew.
fn check_all_answered(rt: &impl Abort, tally: Tally) {
    assert_eq!(rt; tally.full, 0);
    assert_eq!(rt; tally.exhausted, 0);
    assert_eq!(rt; tally.hindered, 0);
    assert!(rt; tally.restarts > 0);
}

/// Node16s were taken, and came back.
fn check_changes(rt: &impl Abort, tally: Tally) {
    assert!(rt; tally.node16_changes > 1);
}

/// Some ops were refused as full, and none as exhausted.
fn check_full(rt: &impl Abort, tally: Tally) {
    assert!(rt; tally.full > 0);
    assert_eq!(rt; tally.exhausted, 0);
}

/// Some ops were refused as exhausted, and none as full.
fn check_exhausted(rt: &impl Abort, tally: Tally) {
    assert!(rt; tally.exhausted > 0);
    assert_eq!(rt; tally.full, 0);
}

/// What four passes did by drawn turns, in the order in which it was made, is a legal history, which leaves the rows of the tree; none was
/// refused, and nodes grew and shrank.
#[test]
fn four_passes_by_drawn_turns_have_one_history(rt: HostRuntime) {
    let tally = have_one_history(&rt, rt.alloc(), &LARGE, 0, 1);
    check_all_answered(&rt, tally);
    check_changes(&rt, tally);
}

/// The same with ten other seeds.
#[test]
fn ten_other_seeds_have_one_history_each(rt: HostRuntime) {
    for seed in 2..12 {
        let tally = have_one_history(&rt, rt.alloc(), &LARGE, 0, seed);
        check_all_answered(&rt, tally);
    }
}

/// Ten leaves, for twenty rows.
const SMALL: Sizes = Sizes {
    leaves: 10,
    n4: 4,
    n16: 1,
    n48: 1,
    n256: 1,
    passes: PASSES,
};

/// The same where pools are full at times: what was refused has no event, and each number stays in one place.
#[test]
fn small_pools_are_full_and_the_history_stays_legal(rt: HostRuntime) {
    let tally = have_one_history(&rt, rt.alloc(), &SMALL, 0, 1);
    check_full(&rt, tally);
}

/// The same where the anchor can be locked twice: for the first row, and for the node above the first two. Then no change of that node
/// which wants the anchor is made any more.
#[test]
fn a_counter_near_its_end_is_exhausted_and_the_history_stays_legal(rt: HostRuntime) {
    let tally = have_one_history(&rt, rt.alloc(), &LARGE, LAST - 2, 1);
    check_exhausted(&rt, tally);
}

/// So many of the four ended so.
fn check_ended(rt: &impl Abort, ops: &[Op], outcome: &Outcome, wanted: usize) {
    let ended = ops
        .iter()
        .filter(|op| op.outcome().as_ref() == Some(outcome))
        .count();
    assert_eq!(rt; ended, wanted);
}

/// The tree has so many rows.
fn check_count(rt: &impl Abort, alloc: Global, world: &World, schema: &Schema, wanted: usize) {
    let rows = rows_of_tree(rt, alloc, world, schema);
    assert_eq!(rt; rows.rows().len(), wanted);
}

/// Four passes insert one row, by lists of turns, of which one names no op: one is new, and the others find its value.
#[test]
fn of_four_inserts_of_one_row_one_is_new(rt: HostRuntime) {
    let schema = schema_of_rows(&rt);
    let wish = Wish::Insert(1, 10);
    let mut bench = opened(&rt, rt.alloc(), &schema, &LARGE, 0, wish);
    for _ in 0..500 {
        run(&mut bench.world, bench.ops.as_mut_slice(), &[3, 2, 4, 1, 0]);
    }
    let Bench { world, ops } = bench;
    check_ended(&rt, ops.as_slice(), &Outcome::New, 1);
    check_ended(&rt, ops.as_slice(), &Outcome::Present(10), 3);
    check_count(&rt, rt.alloc(), &world, &schema, 1);
}
