//! Scans, on one thread.
ghost use Rattle.art_table.specs.Tables.{IsPassOf};

use crate::tables::{SIZES, TURNS, alone, fills, row_of, tuple_of};
use arrayvec::ArrayVec;
use art_key::ValueFault;
use art_model::{Row, Tuple};
use art_scan::{More, ScanFault, scan};
use art_table::{Config, Pass, Table};
use std::process::Abort;

/// The rows of the numbers from the one on before the other are listed, whose values these are.
fn check_listed(rt: &impl Abort, listed: &[Row], rows: (u64, u64)) {
    let mut number = rows.0;
    for row in listed {
        assert_eq!(rt; *row, row_of(number, number));
        number = number.wrapping_add(1);
    }
    assert_eq!(rt; number, rows.1);
}

/// A scan lists the rows of the numbers from the one on before the other, whose values these are, and ends so.
fn check_list(
    rt: &impl Abort,
    table: &Table,
    pass: &mut Pass,
    range: (u64, u64),
    limit: u64,
    rows: (u64, u64),
    more: More,
)
    requires { IsPassOf table.now pass.old }
    ensures { IsPassOf table.now pass.new }
{
    let (lo, hi) = (tuple_of(range.0), tuple_of(range.1));
    let mut out = ArrayVec::new();
    out.push(row_of(0, 0));
    let told = scan(table, pass, &lo, &hi, limit, 100 * TURNS, &mut out);
    assert_eq!(rt; told, Ok(more));
    check_listed(rt, out.as_slice(), rows);
}

/// A scan is refused so, and lists nothing.
fn check_refused(
    rt: &impl Abort,
    table: &Table,
    pass: &mut Pass,
    range: (&Tuple, &Tuple),
    limit: u64,
    turns: u32,
    fault: ScanFault,
)
    requires { IsPassOf table.now pass.old }
    ensures { IsPassOf table.now pass.new }
{
    let mut out = ArrayVec::new();
    out.push(row_of(0, 0));
    let told = scan(table, pass, range.0, range.1, limit, turns, &mut out);
    assert_eq!(rt; (told, out.len()), (Err(fault), 0));
}

#[test]
fn a_scan_lists_the_rows_of_its_range(rt: HostRuntime) {
    let (table, mut pass) = alone(&rt, rt.alloc(), "u8", SIZES);
    fills(&rt, &table, &mut pass, 1, 4);
    for (range, limit, rows, more) in [
        ((0, 9), 2, (1, 3), More::Limit),
        ((0, 9), 3, (1, 4), More::Limit),
        ((0, 9), 100, (1, 4), More::End),
        ((1, 2), 2, (1, 3), More::Limit),
        ((2, 2), 9, (2, 3), More::End),
        ((4, 255), 100, (4, 4), More::End),
    ] {
        check_list(&rt, &table, &mut pass, range, limit, rows, more);
    }
}

#[test]
fn a_scan_lists_at_most_a_hundred_rows(rt: HostRuntime) {
    let (table, mut pass) = alone(&rt, rt.alloc(), "u8", SIZES);
    fills(&rt, &table, &mut pass, 0, 250);
    for (range, rows, more) in [
        ((0, 255), (0, 100), More::Limit),
        ((100, 255), (100, 200), More::Limit),
        ((200, 255), (200, 250), More::End),
    ] {
        check_list(&rt, &table, &mut pass, range, 100, rows, more);
    }
}

#[test]
fn faults_of_a_scan_come_in_order(rt: HostRuntime) {
    let (table, mut pass) = alone(&rt, rt.alloc(), "u8", SIZES);
    let (none, wide) = (Tuple::new(), tuple_of(256));
    let (low, high) = (tuple_of(0), tuple_of(9));
    let columns = ScanFault::Value(ValueFault::WrongColumns);
    let range = ScanFault::Value(ValueFault::OutOfRange(0));
    for (range, limit, fault) in [
        ((&wide, &none), 0, range),
        ((&none, &wide), 0, columns),
        ((&high, &wide), 0, range),
        ((&high, &low), 0, ScanFault::BadRange),
        ((&low, &high), 0, ScanFault::BadLimit),
        ((&low, &high), 101, ScanFault::BadLimit),
        ((&low, &high), 100, ScanFault::Busy),
    ] {
        check_refused(&rt, &table, &mut pass, range, limit, 0, fault);
    }
}

/// A scan for one row, with so many turns, ends so, with this as the first row that it lists.
fn check_scan(
    rt: &impl Abort,
    table: &Table,
    pass: &mut Pass,
    range: (&Tuple, &Tuple),
    turns: u32,
    wanted: (More, Option<&Row>),
)
    requires { IsPassOf table.now pass.old }
    ensures { IsPassOf table.now pass.new }
{
    let mut out = ArrayVec::new();
    let told = scan(table, pass, range.0, range.1, 1, turns, &mut out);
    assert_eq!(rt; (told, out.first()), (Ok(wanted.0), wanted.1));
}

/// A look of an empty table takes three turns, and one that finds a leaf at the anchor takes seven.
#[test]
fn turns_of_a_scan_add_up_over_its_looks(rt: HostRuntime) {
    let config = Config { leaves: 4, ..SIZES };
    let (table, mut pass) = alone(&rt, rt.alloc(), "u8", config);
    let (low, high) = (tuple_of(0), tuple_of(9));
    let range = (&low, &high);
    check_refused(&rt, &table, &mut pass, range, 1, 2, ScanFault::Busy);
    check_scan(&rt, &table, &mut pass, range, 3, (More::End, None));
    fills(&rt, &table, &mut pass, 5, 6);
    check_refused(&rt, &table, &mut pass, range, 1, 6, ScanFault::Busy);
    let five = row_of(5, 5);
    check_scan(&rt, &table, &mut pass, range, 7, (More::Limit, Some(&five)));
}
