//! Worked rows of single calls, looks and the close.
ghost use Rattle.art_table.specs.Tables.{AreOf, IsPassOf};

use crate::tables::{
    SIZES, TWO_PASSES, alone, at, by_two, check_count, check_find, check_put, check_take, closed,
    closed_alone, row_of, schema_of, sees, tuple_of, with_last,
};
use art_key::ValueFault;
use art_model::{Row, Tuple, Value};
use art_table::{
    CloseFault, CloseRefusal, Closed, Config, Fault, Inserted, OpenFault, Pass, Seen, Table, close,
    get, insert, open,
};
use std::alloc::Global;
use std::process::Abort;

/// A get of the tuple with so many turns is answered so.
fn check_get(
    rt: &impl Abort,
    table: &Table,
    pass: &mut Pass,
    tuple: &Tuple,
    turns: u32,
    wanted: Result<Option<u64>, Fault>,
)
    requires { IsPassOf table.now pass.old }
    ensures { IsPassOf table.now pass.new }
{
    assert_eq!(rt; get(table, pass, tuple, turns), wanted);
}

/// The first row at the close was that of 5, with 9.
fn check_first(rt: &impl Abort, end: &Closed) {
    assert_eq!(rt; end.rows.first(), Some(&row_of(5, 9)));
}

#[test]
fn a_get_takes_three_steps_of_an_empty_table_and_seven_to_a_leaf(rt: HostRuntime) {
    let (table, mut pass) = alone(&rt, rt.alloc(), "u64", SIZES);
    let five = tuple_of(5);
    check_get(&rt, &table, &mut pass, &five, 0, Err(Fault::Busy));
    check_get(&rt, &table, &mut pass, &five, 2, Err(Fault::Busy));
    check_get(&rt, &table, &mut pass, &five, 3, Ok(None));
    check_put(&rt, &table, &mut pass, 5, 9, Ok(Inserted::New));
    check_get(&rt, &table, &mut pass, &five, 6, Err(Fault::Busy));
    check_get(&rt, &table, &mut pass, &five, 7, Ok(Some(9)));
    let end = closed_alone(&rt, rt.alloc(), table, pass);
    check_first(&rt, &end);
    check_count(&rt, &end, 1);
}

#[test]
fn a_row_that_stands_keeps_its_value(rt: HostRuntime) {
    let (table, mut pass) = alone(&rt, rt.alloc(), "u8", SIZES);
    check_put(&rt, &table, &mut pass, 5, u64::MAX, Ok(Inserted::New));
    check_put(
        &rt,
        &table,
        &mut pass,
        5,
        10,
        Ok(Inserted::Present(u64::MAX)),
    );
    check_find(&rt, &table, &mut pass, 5, Ok(Some(u64::MAX)));
    check_take(&rt, &table, &mut pass, 5, Ok(Some(u64::MAX)));
    check_take(&rt, &table, &mut pass, 5, Ok(None));
    check_put(&rt, &table, &mut pass, 5, 10, Ok(Inserted::New));
}

/// An insert of the tuple with no turn is refused so.
fn check_fault(rt: &impl Abort, table: &Table, pass: &mut Pass, tuple: &Tuple, wanted: Fault)
    requires { IsPassOf table.now pass.old }
    ensures { IsPassOf table.now pass.new }
{
    assert_eq!(rt; insert(table, pass, tuple, 1, 0), Err(wanted));
}

/// The tuple of one truth value.
fn tuple_of_truth() -> Tuple {
    let mut tuple = Tuple::new();
    tuple.push(Value::Bool(true));
    tuple
}

/// No step is made, so no turn is wanted.
#[test]
fn what_is_wrong_with_a_tuple_comes_first(rt: HostRuntime) {
    let (table, mut pass) = alone(&rt, rt.alloc(), "u8", SIZES);
    let wide = Fault::Value(ValueFault::OutOfRange(0));
    check_get(&rt, &table, &mut pass, &tuple_of(256), 0, Err(wide));
    check_fault(&rt, &table, &mut pass, &tuple_of(256), wide);
    let none = Fault::Value(ValueFault::WrongColumns);
    check_get(&rt, &table, &mut pass, &Tuple::new(), 0, Err(none));
    let other = Fault::Value(ValueFault::WrongType(0));
    check_get(&rt, &table, &mut pass, &tuple_of_truth(), 0, Err(other));
    check_get(&rt, &table, &mut pass, &tuple_of(255), 0, Err(Fault::Busy));
}

/// A table of these sizes does not open.
fn check_bad_config(rt: &impl Abort, alloc: Global, config: Config) {
    let fault = open(alloc, schema_of(rt, "u8"), config).err();
    assert_eq!(rt; fault, Some(OpenFault::BadConfig));
}

#[test]
fn a_size_out_of_its_range_is_refused(rt: HostRuntime) {
    for config in [
        Config { leaves: 0, ..SIZES },
        Config {
            n256: 4097,
            ..SIZES
        },
        Config {
            passes: 33,
            ..SIZES
        },
        Config {
            counter_start: 1 << 62,
            ..SIZES
        },
    ] {
        check_bad_config(&rt, rt.alloc(), config);
    }
}

/// A look from the one number on, before 10, sees the range from there to the key of `end`, with this row.
fn check_look(
    rt: &impl Abort,
    table: &Table,
    pass: &mut Pass,
    from: u64,
    end: u64,
    row: Option<Row>,
)
    requires { IsPassOf table.now pass.old }
    ensures { IsPassOf table.now pass.new }
{
    let (lo, hi) = (at(rt, table, from), at(rt, table, end));
    let wanted = Seen { lo, hi, row };
    let ten = at(rt, table, 10);
    assert_eq!(rt; sees(rt, table, pass, from, &ten), Ok(wanted));
}

#[test]
fn three_looks_tile_a_range(rt: HostRuntime) {
    let (table, mut pass) = alone(&rt, rt.alloc(), "u8", SIZES);
    check_put(&rt, &table, &mut pass, 1, 1, Ok(Inserted::New));
    check_put(&rt, &table, &mut pass, 5, 5, Ok(Inserted::New));
    check_look(&rt, &table, &mut pass, 0, 2, Some(row_of(1, 1)));
    check_look(&rt, &table, &mut pass, 2, 6, Some(row_of(5, 5)));
    check_look(&rt, &table, &mut pass, 6, 10, None);
}

/// A close was refused since a pass was missing.
fn check_missing(rt: &impl Abort, why: CloseRefusal) {
    assert_eq!(rt; why, CloseRefusal::PassesMissing);
}

/// A close with the one pass alone: all comes back.
fn refused(
    rt: &impl Abort,
    alloc: Global,
    table: Table,
    one: Pass,
    other: Pass,
) -> (Table, Vec<Pass>)
    requires one { IsPassOf table one }
    requires other { IsPassOf table other }
    ensures { AreOf result.0 result.1.items }
{
    let passes = with_last(rt, &table, Vec::new(alloc), one);
    let fault = close(alloc, table, passes)
        .err()
        .expect(rt, "a pass is missing");
    let CloseFault { table, passes, why } = fault;
    check_missing(rt, why);
    let passes = with_last(rt, &table, passes, other);
    (table, passes)
}

/// These are the numbers of the passes.
fn check_numbers(rt: &impl Abort, one: &Pass, other: &Pass, wanted: (u32, u32)) {
    assert_eq!(rt; (one.number(), other.number()), wanted);
}

/// So many leaves were linked at the close, and all others free.
fn check_leaves(rt: &impl Abort, end: &Closed, linked: u32) {
    let free = SIZES.leaves.wrapping_sub(linked);
    assert_eq!(rt; (end.leaves.linked, end.leaves.free), (linked, free));
}

#[test]
fn a_close_wants_all_passes(rt: HostRuntime) {
    let (table, mut one, other) = by_two(&rt, rt.alloc(), "u64", TWO_PASSES);
    check_numbers(&rt, &one, &other, (0, 1));
    check_put(&rt, &table, &mut one, 5, 9, Ok(Inserted::New));
    let (table, passes) = refused(&rt, rt.alloc(), table, one, other);
    let end = closed(&rt, rt.alloc(), table, passes);
    check_first(&rt, &end);
    check_leaves(&rt, &end, 1);
}
