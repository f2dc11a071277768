//! Worked rows on nodes and their prefixes, and what of them is left at the close.
ghost use Rattle.art_table.specs.Tables.{IsPassOf};

use crate::tables::{
    SIZES, alone, check_count, check_find, check_put, check_take, check_whole, closed_alone,
    empties, fills,
};
use art_cell::Pool;
use art_table::{Closed, Config, Fault, Inserted};
use std::alloc::Global;
use std::process::Abort;

/// So many nodes of each kind are linked: Node4, Node16, Node48, Node256.
fn check_nodes(rt: &impl Abort, end: &Closed, wanted: [u32; 4]) {
    let nodes = [
        end.n4.linked,
        end.n16.linked,
        end.n48.linked,
        end.n256.linked,
    ];
    assert_eq!(rt; nodes, wanted);
}

/// So many leaves are linked, and all numbers of each pool accounted for.
fn check_numbers(rt: &impl Abort, end: &Closed, leaves: u64) {
    assert_eq!(rt; u64::from(end.leaves.linked), leaves);
    check_whole(rt, end, SIZES);
}

/// Where so many rows were inserted, and the first `gone` of them removed again, these nodes are left.
fn check_left(rt: &impl Abort, alloc: Global, rows: u64, gone: u64, nodes: [u32; 4]) {
    let (table, mut pass) = alone(rt, alloc, "u8", SIZES);
    fills(rt, &table, &mut pass, 0, rows);
    empties(rt, &table, &mut pass, 0, gone);
    let end = closed_alone(rt, alloc, table, pass);
    check_numbers(rt, &end, rows.wrapping_sub(gone));
    check_nodes(rt, &end, nodes);
}

#[test]
fn nodes_grow_at_five_seventeen_and_forty_nine(rt: HostRuntime) {
    for (rows, nodes) in [
        (1, [0, 0, 0, 0]),
        (4, [1, 0, 0, 0]),
        (5, [0, 1, 0, 0]),
        (16, [0, 1, 0, 0]),
        (17, [0, 0, 1, 0]),
        (48, [0, 0, 1, 0]),
        (49, [0, 0, 0, 1]),
    ] {
        check_left(&rt, rt.alloc(), rows, 0, nodes);
    }
}

#[test]
fn nodes_shrink_at_thirty_six_twelve_three_and_one(rt: HostRuntime) {
    for (gone, nodes) in [
        (219, [0, 0, 0, 1]),
        (220, [0, 0, 1, 0]),
        (243, [0, 0, 1, 0]),
        (244, [0, 1, 0, 0]),
        (252, [0, 1, 0, 0]),
        (253, [1, 0, 0, 0]),
        (254, [1, 0, 0, 0]),
        (255, [0, 0, 0, 0]),
        (256, [0, 0, 0, 0]),
    ] {
        check_left(&rt, rt.alloc(), 256, gone, nodes);
    }
}

/// Two keys begin with one byte, and a third with another: a node comes above, and goes again with the third.
#[test]
fn a_prefix_is_split_and_a_node_merged(rt: HostRuntime) {
    let (table, mut pass) = alone(&rt, rt.alloc(), "u16", SIZES);
    for (number, value) in [(257, 1), (258, 2), (515, 3)] {
        check_put(&rt, &table, &mut pass, number, value, Ok(Inserted::New));
    }
    for (number, value) in [(257, 1), (258, 2), (515, 3)] {
        check_find(&rt, &table, &mut pass, number, Ok(Some(value)));
    }
    check_take(&rt, &table, &mut pass, 515, Ok(Some(3)));
    check_find(&rt, &table, &mut pass, 257, Ok(Some(1)));
    check_find(&rt, &table, &mut pass, 258, Ok(Some(2)));
    let end = closed_alone(&rt, rt.alloc(), table, pass);
    check_nodes(&rt, &end, [1, 0, 0, 0]);
    check_count(&rt, &end, 2);
}

/// A Node16 stays with three children and with two, since no Node4 is free, and is merged away with one.
#[test]
fn a_node_shrinks_only_where_a_smaller_one_is_free(rt: HostRuntime) {
    let config = Config {
        n4: 1,
        n16: 1,
        ..SIZES
    };
    let (table, mut pass) = alone(&rt, rt.alloc(), "u16", config);
    fills(&rt, &table, &mut pass, 1, 6);
    check_put(&rt, &table, &mut pass, 257, 6, Ok(Inserted::New));
    let full = Err(Fault::Full(Pool::N4));
    check_put(&rt, &table, &mut pass, 258, 7, full);
    for number in [5, 4, 3, 2] {
        check_take(&rt, &table, &mut pass, number, Ok(Some(number)));
    }
    check_find(&rt, &table, &mut pass, 1, Ok(Some(1)));
    check_find(&rt, &table, &mut pass, 257, Ok(Some(6)));
    let end = closed_alone(&rt, rt.alloc(), table, pass);
    check_nodes(&rt, &end, [1, 0, 0, 0]);
}
