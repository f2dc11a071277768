//! What a scan owes while the map changes.
use crate::tuples::tuple_of;
use arrayvec::ArrayVec;
use art_model::{Command, NoMemory, Order, Reply, Row, SortedRows, scan_ok};
use std::alloc::Global;
use std::process::Abort;
use std::test::Fail;

fn map_of(alloc: Global, rows: &[(i128, u64)]) -> Result<SortedRows, NoMemory> {
    let mut map = SortedRows::new(alloc, &Order::new());
    for (number, value) in rows {
        map.apply(&Command::Insert(tuple_of(*number), *value))?;
    }
    Ok(map)
}

fn rows_of(rt: &impl Abort, rows: &[(i128, u64)]) -> ArrayVec<Row, 8> {
    let mut listed = ArrayVec::new();
    for (number, value) in rows {
        assert!(rt; !listed.is_full());
        listed.push(Row {
            tuple: tuple_of(*number),
            value: *value,
        });
    }
    listed
}

/// Whether the rows listed are what a scan from 0 to 9 owes over the states.
fn is_scan_of(
    rt: &impl Abort,
    alloc: Global,
    states: &[&[(i128, u64)]],
    limit: u64,
    listed: &[(i128, u64)],
) -> Result<bool, NoMemory> {
    let mut maps = Vec::new(alloc);
    for rows in states {
        maps.push(map_of(alloc, rows)?)?;
    }
    assert!(rt; !maps.is_empty());
    let (lo, hi) = (tuple_of(0), tuple_of(9));
    let listed = rows_of(rt, listed);
    Ok(scan_ok(&Order::new(), &maps, &lo, &hi, limit, listed.as_slice()))
}

/// These rows are what a scan from 0 to 9 with this limit owes over the states, or are not.
fn check_scan(
    rt: &impl Abort,
    alloc: Global,
    states: &[&[(i128, u64)]],
    limit: u64,
    listed: &[(i128, u64)],
    wanted: bool,
) {
    let found = is_scan_of(rt, alloc, states, limit, listed).expect(rt, "room for the states");
    assert_eq!(rt; found, wanted);
}

#[test]
fn a_row_that_always_stood_is_owed(rt: HostRuntime) {
    let one: &[(i128, u64)] = &[(1, 1)];
    check_scan(&rt, rt.alloc(), &[one], 100, &[], false);
    check_scan(&rt, rt.alloc(), &[one], 100, one, true);
    check_scan(&rt, rt.alloc(), &[&[], one], 100, &[], true);
}

#[test]
fn a_listed_row_stood_in_one_of_the_states(rt: HostRuntime) {
    for (row, wanted) in [((1, 1), true), ((1, 2), false), ((2, 1), false)] {
        check_scan(&rt, rt.alloc(), &[&[], &[(1, 1)]], 100, &[row], wanted);
    }
}

#[test]
fn a_row_whose_value_changed_is_owed_with_either(rt: HostRuntime) {
    for (value, wanted) in [(1, true), (2, true), (3, false)] {
        let listed = [(1, value)];
        check_scan(
            &rt,
            rt.alloc(),
            &[&[(1, 1)], &[(1, 2)]],
            100,
            &listed,
            wanted,
        );
    }
    check_scan(&rt, rt.alloc(), &[&[(1, 1)], &[(1, 2)]], 100, &[], false);
}

#[test]
fn rows_after_the_last_are_not_owed_at_the_limit(rt: HostRuntime) {
    let three: &[(i128, u64)] = &[(1, 1), (2, 2), (3, 3)];
    let none: &[(i128, u64)] = &[];
    for (limit, listed, wanted) in [
        (0, none, true),
        (2, &[(1, 1), (2, 2)], true),
        (2, &[(1, 1), (3, 3)], false),
        (2, &[(1, 1)], false),
        (2, three, false),
        (3, three, true),
    ] {
        check_scan(&rt, rt.alloc(), &[three], limit, listed, wanted);
    }
}

#[test]
fn rows_are_listed_once_and_in_order(rt: HostRuntime) {
    let two: &[(i128, u64)] = &[(1, 1), (2, 2)];
    for (listed, wanted) in [
        (two, true),
        (&[(2, 2), (1, 1)], false),
        (&[(1, 1), (1, 1), (2, 2)], false),
    ] {
        check_scan(&rt, rt.alloc(), &[two], 100, listed, wanted);
    }
}

#[test]
fn both_ends_of_the_range_belong_to_it(rt: HostRuntime) {
    let four: &[(i128, u64)] = &[(-1, 0), (0, 0), (9, 0), (10, 0)];
    let both: &[(i128, u64)] = &[(0, 0), (9, 0)];
    for (listed, wanted) in [
        (both, true),
        (&[(0, 0)], false),
        (&[(9, 0)], false),
        (&[(-1, 0), (0, 0), (9, 0)], false),
        (&[(0, 0), (9, 0), (10, 0)], false),
    ] {
        check_scan(&rt, rt.alloc(), &[four], 100, listed, wanted);
    }
}

#[test]
fn what_one_map_answers_is_owed(rt: HostRuntime) -> Result<(), Fail> {
    let mut states = [map_of(rt.alloc(), &[(3, 7), (1, 7), (2, 7)])?];
    for limit in [0, 1, 2, 3, 4, 100] {
        let scan = Command::Scan(tuple_of(2), tuple_of(9), limit);
        let Reply::Rows(rows, _) = states[0].apply(&scan)? else {
            panic!(rt; "a scan lists rows");
        };
        let listed = rows.as_slice();
        let (lo, hi) = (tuple_of(2), tuple_of(9));
        assert!(rt; scan_ok(&Order::new(), &states, &lo, &hi, limit, listed));
    }
    Ok(())
}

#[test]
fn a_scan_of_a_column_that_descends_is_owed_from_the_greatest(rt: HostRuntime) {
    let mut order = Order::new();
    order.push(true);
    let state = map_of(rt.alloc(), &[(3, 7), (1, 7), (2, 7)]).expect(&rt, "room for the rows");
    let states = [state];
    let (lo, hi) = (tuple_of(9), tuple_of(2));
    let falling = rows_of(&rt, &[(3, 7), (2, 7)]);
    assert!(rt; scan_ok(&order, &states, &lo, &hi, 100, falling.as_slice()));
    let rising = rows_of(&rt, &[(2, 7), (3, 7)]);
    assert!(rt; !scan_ok(&order, &states, &lo, &hi, 100, rising.as_slice()));
    assert!(rt; !scan_ok(&order, &states, &hi, &lo, 100, rising.as_slice()));
    assert!(rt; scan_ok(&order, &states, &hi, &lo, 100, &[]));
}
