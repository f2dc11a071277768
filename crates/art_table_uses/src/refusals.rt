//! Worked rows of small pools, and of counters at their end.
ghost use Rattle.art_table.specs.Tables.{IsPassOf};

use crate::tables::{
    SIZES, TWO_PASSES, alone, by_two, check_count, check_find, check_put, check_take, closed_alone,
    fills, row_of,
};
use art_cell::{Cell, Pool};
use art_table::{Closed, Config, Fault, Inserted, Pass, Table};
use std::alloc::Global;
use std::process::Abort;

#[test]
fn a_third_row_finds_no_leaf_of_two(rt: HostRuntime) {
    let config = Config { leaves: 2, ..SIZES };
    let (table, mut pass) = alone(&rt, rt.alloc(), "u8", config);
    fills(&rt, &table, &mut pass, 1, 3);
    let full = Err(Fault::Full(Pool::Leaves));
    check_put(&rt, &table, &mut pass, 3, 3, full);
    check_put(&rt, &table, &mut pass, 1, 9, Ok(Inserted::Present(1)));
    check_find(&rt, &table, &mut pass, 1, Ok(Some(1)));
    check_find(&rt, &table, &mut pass, 2, Ok(Some(2)));
    check_find(&rt, &table, &mut pass, 3, Ok(None));
}

#[test]
fn two_passes_share_two_leaves(rt: HostRuntime) {
    let config = Config {
        leaves: 2,
        ..TWO_PASSES
    };
    let (table, mut zero, mut one) = by_two(&rt, rt.alloc(), "u8", config);
    fills(&rt, &table, &mut zero, 1, 3);
    let full = Err(Fault::Full(Pool::Leaves));
    check_put(&rt, &table, &mut one, 3, 3, full);
    check_find(&rt, &table, &mut one, 2, Ok(Some(2)));
}

#[test]
fn an_anchor_at_the_end_of_its_counter_is_not_locked(rt: HostRuntime) {
    let config = Config {
        counter_start: (1 << 62) - 8,
        ..SIZES
    };
    let (table, mut pass) = alone(&rt, rt.alloc(), "u8", config);
    let exhausted = Err(Fault::Exhausted(Cell::Anchor));
    check_put(&rt, &table, &mut pass, 1, 1, exhausted);
    check_find(&rt, &table, &mut pass, 1, Ok(None));
}

#[test]
fn an_anchor_is_locked_once_before_its_counter_ends(rt: HostRuntime) {
    let config = Config {
        counter_start: (1 << 62) - 9,
        ..SIZES
    };
    let (table, mut pass) = alone(&rt, rt.alloc(), "u8", config);
    check_put(&rt, &table, &mut pass, 1, 1, Ok(Inserted::New));
    let exhausted = Fault::Exhausted(Cell::Anchor);
    check_put(&rt, &table, &mut pass, 2, 2, Err(exhausted));
    check_put(&rt, &table, &mut pass, 1, 5, Ok(Inserted::Present(1)));
    check_take(&rt, &table, &mut pass, 1, Err(exhausted));
    check_find(&rt, &table, &mut pass, 1, Ok(Some(1)));
}

/// A table of rows of two bytes whose anchor may be locked so often, with four rows that share their first byte.
fn four_rows(rt: &impl Abort, alloc: Global, locks: u64) -> (Table, Pass)
    ensures { IsPassOf result.0 result.1 }
{
    let config = Config {
        counter_start: ((1 << 62) - 8_u64).saturating_sub(locks),
        ..SIZES
    };
    let (table, mut pass) = alone(rt, alloc, "u16", config);
    fills(rt, &table, &mut pass, 257, 261);
    (table, pass)
}

/// The last row at the close was that of a number, with this value.
fn check_last(rt: &impl Abort, end: &Closed, number: u64, value: u64) {
    assert_eq!(rt; end.rows.last(), Some(&row_of(number, value)));
}

/// A node begins its counter anew: four rows stand below an anchor that was locked twice, and is at its end. The fifth wants it, since it
/// splits the prefix of the node.
#[test]
fn a_node_below_an_anchor_at_its_end_is_changed(rt: HostRuntime) {
    let (table, mut pass) = four_rows(&rt, rt.alloc(), 2);
    let exhausted = Err(Fault::Exhausted(Cell::Anchor));
    check_put(&rt, &table, &mut pass, 515, 1, exhausted);
    check_find(&rt, &table, &mut pass, 260, Ok(Some(260)));
    let end = closed_alone(&rt, rt.alloc(), table, pass);
    check_count(&rt, &end, 4);
    check_last(&rt, &end, 260, 260);
}

/// With one lock more the fifth row goes in.
#[test]
fn an_anchor_is_locked_three_times_before_its_counter_ends(rt: HostRuntime) {
    let (table, mut pass) = four_rows(&rt, rt.alloc(), 3);
    check_put(&rt, &table, &mut pass, 515, 1, Ok(Inserted::New));
    check_find(&rt, &table, &mut pass, 515, Ok(Some(1)));
}
