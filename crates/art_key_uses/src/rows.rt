//! The map answers worked examples.
use crate::tuples::tuple_of;
use arrayvec::ArrayVec;
use art_model::{Command, NoMemory, Order, Reply, Row, SortedRows, Text, Value};
use std::process::Abort;
use std::test::Fail;

fn scan(
    rt: &impl Abort,
    rows: &mut SortedRows,
    lo: i128,
    hi: i128,
    limit: u64,
) -> Result<Reply, NoMemory> {
    assert!(rt; limit <= 100);
    rows.apply(&Command::Scan(tuple_of(lo), tuple_of(hi), limit))
}

fn listed(rt: &impl Abort, numbers: &[i128], more: bool) -> Reply {
    let mut rows = ArrayVec::new();
    for number in numbers {
        assert!(rt; !rows.is_full());
        rows.push(Row {
            tuple: tuple_of(*number),
            value: 7,
        });
    }
    Reply::Rows(rows, more)
}

fn check_insert(rt: &impl Abort, rows: &mut SortedRows, number: i128, value: u64, wanted: &Reply) {
    let command = Command::Insert(tuple_of(number), value);
    let reply = rows.apply(&command).expect(rt, "room for a row");
    assert!(rt; reply == *wanted);
}

fn check_remove(rt: &impl Abort, rows: &mut SortedRows, number: i128, wanted: &Reply) {
    let command = Command::Remove(tuple_of(number));
    let reply = rows.apply(&command).expect(rt, "room for a row");
    assert!(rt; reply == *wanted);
}

fn check_get(rt: &impl Abort, rows: &mut SortedRows, number: i128, wanted: &Reply) {
    let command = Command::Get(tuple_of(number));
    let reply = rows.apply(&command).expect(rt, "room for a row");
    assert!(rt; reply == *wanted);
}

#[test]
fn an_inserted_row_is_found(rt: HostRuntime) {
    let mut rows = SortedRows::new(rt.alloc(), &Order::new());
    check_insert(&rt, &mut rows, 5, 9, &Reply::Inserted);
    check_get(&rt, &mut rows, 5, &Reply::Found(9));
    assert_eq!(rt; rows.rows().len(), 1);
}

#[test]
fn a_row_that_stands_keeps_its_value(rt: HostRuntime) {
    let mut rows = SortedRows::new(rt.alloc(), &Order::new());
    check_insert(&rt, &mut rows, 5, 9, &Reply::Inserted);
    check_insert(&rt, &mut rows, 5, 10, &Reply::Present(9));
    check_get(&rt, &mut rows, 5, &Reply::Found(9));
}

#[test]
fn a_removed_row_is_absent(rt: HostRuntime) {
    let mut rows = SortedRows::new(rt.alloc(), &Order::new());
    check_insert(&rt, &mut rows, 5, 9, &Reply::Inserted);
    check_remove(&rt, &mut rows, 5, &Reply::Removed(9));
    check_remove(&rt, &mut rows, 5, &Reply::Absent);
    check_get(&rt, &mut rows, 5, &Reply::Absent);
}

#[test]
fn a_scan_lists_the_first_rows_of_its_range(rt: HostRuntime) -> Result<(), Fail> {
    let mut rows = SortedRows::new(rt.alloc(), &Order::new());
    for number in [3, 1, 2] {
        check_insert(&rt, &mut rows, number, 7, &Reply::Inserted);
    }
    let two = scan(&rt, &mut rows, 0, 9, 2)?;
    assert_eq!(rt; two, listed(&rt, &[1, 2], true));
    let both_ends = scan(&rt, &mut rows, 2, 3, 100)?;
    assert_eq!(rt; both_ends, listed(&rt, &[2, 3], false));
    let none = scan(&rt, &mut rows, 4, 9, 5)?;
    assert_eq!(rt; none, listed(&rt, &[], false));
    Ok(())
}

#[test]
fn rows_of_a_column_that_descends_are_listed_from_the_greatest(
    rt: HostRuntime,
) -> Result<(), Fail> {
    let mut order = Order::new();
    order.push(true);
    let mut rows = SortedRows::new(rt.alloc(), &order);
    for number in [3, 1, 2] {
        check_insert(&rt, &mut rows, number, 7, &Reply::Inserted);
    }
    let two = scan(&rt, &mut rows, 9, 0, 2)?;
    assert_eq!(rt; two, listed(&rt, &[3, 2], true));
    let none = scan(&rt, &mut rows, 0, 9, 2)?;
    assert_eq!(rt; none, listed(&rt, &[], false));
    check_get(&rt, &mut rows, 2, &Reply::Found(7));
    check_remove(&rt, &mut rows, 2, &Reply::Removed(7));
    let others = scan(&rt, &mut rows, 3, 1, 100)?;
    assert_eq!(rt; others, listed(&rt, &[3, 1], false));
    Ok(())
}

#[test]
fn values_stand_in_order(rt: HostRuntime) {
    let texts = [
        Text::new(""),
        Text::new("a"),
        Text::new("b"),
        Text::new("\u{e9}"),
    ];
    let mut values: ArrayVec<Value, 8> = ArrayVec::new();
    values.push(Value::Bool(false));
    values.push(Value::Bool(true));
    values.push(Value::Int(-1));
    values.push(Value::Int(0));
    for text in texts {
        let text = text.expect(&rt, "a short text");
        assert!(rt; !values.is_full());
        values.push(Value::Text(text));
    }
    for (earlier, later) in values
        .as_slice()
        .iter()
        .zip(values.as_slice().iter().skip(1))
    {
        assert!(rt; earlier < later);
    }
}

#[test]
fn a_text_has_at_most_twenty_four_bytes(rt: HostRuntime) {
    let longest = Text::new("123456789012345678901234");
    assert_eq!(rt;
        longest.expect(&rt, "24 bytes").as_str(),
        "123456789012345678901234"
    );
    assert_eq!(rt; Text::new("1234567890123456789012345"), None);
}
