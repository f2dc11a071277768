//! The exports, called from Rattle.
use crate::columns::Column;
use crate::opaque::OpaquePass;
use crate::opening::Sizes;
use crate::rows::Row;
use crate::{
    art_index_close, art_index_get, art_index_insert, art_index_open, art_index_remove,
    art_index_scan,
};
use std::alloc::Global;
use std::process::Abort;
use std::test::*;

const SMALL: Sizes = Sizes {
    leaves: 16,
    n4: 16,
    n16: 4,
    n48: 2,
    n256: 1,
    counter_start: 0,
};

/// What stands in a word before a call.
const BEFORE: u64 = 99;

fn number(number: u64) -> Column {
    Column {
        kind: 1,
        number,
        ..Column::default()
    }
}

fn below_zero(number: i64) -> Column {
    Column {
        kind: 2,
        number: number.cast_unsigned(),
        ..Column::default()
    }
}

fn text(length: u32, first: u8) -> Column {
    let mut column = Column {
        kind: 3,
        length,
        ..Column::default()
    };
    column.text[0] = first;
    column
}

fn check_open(rt: &impl Abort, alloc: Global, schema: &[u8], passes: &mut [OpaquePass], want: u32) {
    assert_eq!(rt; art_index_open(alloc, schema, &SMALL, passes), want);
}

fn check_insert(
    rt: &impl Abort,
    alloc: Global,
    pass: &mut OpaquePass,
    tuple: &[Column],
    want: (u32, u64),
) {
    let mut word = BEFORE;
    assert_eq!(rt; art_index_insert(alloc, pass, tuple, 7, &mut word), want.0);
    assert_eq!(rt; word, want.1);
}

fn check_remove(
    rt: &impl Abort,
    alloc: Global,
    pass: &mut OpaquePass,
    tuple: &[Column],
    want: (u32, u64),
) {
    let mut word = BEFORE;
    assert_eq!(rt; art_index_remove(alloc, pass, tuple, &mut word), want.0);
    assert_eq!(rt; word, want.1);
}

fn check_get(
    rt: &impl Abort,
    alloc: Global,
    pass: &mut OpaquePass,
    tuple: &[Column],
    want: (u32, u64),
) {
    let mut word = BEFORE;
    assert_eq!(rt; art_index_get(alloc, pass, tuple, &mut word), want.0);
    assert_eq!(rt; word, want.1);
}

/// A scan from one column to another, with room for two rows.
fn check_scan(
    rt: &impl Abort,
    alloc: Global,
    pass: &mut OpaquePass,
    range: (Column, Column),
    want: (u32, usize, [Row; 2]),
) {
    let mut rows = [Row::default(); 2];
    let mut listed = 9;
    let status = art_index_scan(alloc, pass, &[range.0], &[range.1], &mut rows, &mut listed);
    assert_eq!(rt; status, want.0);
    assert_eq!(rt; listed, want.1);
    assert_eq!(rt; rows, want.2);
}

/// The row of one column that has the value 7.
fn seven(column: Column) -> Row {
    let mut row = Row {
        count: 1,
        value: 7,
        ..Row::default()
    };
    row.columns[0] = column;
    row
}

fn share_rows(rt: &impl Abort, alloc: Global) {
    let mut passes = [OpaquePass::none(alloc), OpaquePass::none(alloc)];
    check_open(rt, alloc, b"i8", &mut passes, 0);
    check_insert(rt, alloc, &mut passes[0], &[number(5)], (0, BEFORE));
    check_insert(rt, alloc, &mut passes[1], &[number(5)], (1, 7));
    check_insert(rt, alloc, &mut passes[1], &[below_zero(-2)], (0, BEFORE));
    check_get(rt, alloc, &mut passes[0], &[below_zero(-2)], (0, 7));
    let both = [seven(below_zero(-2)), seven(number(5))];
    let range = (below_zero(-9), number(9));
    check_scan(rt, alloc, &mut passes[0], range, (1, 2, both));
    let one = [seven(number(5)), Row::default()];
    check_scan(
        rt,
        alloc,
        &mut passes[0],
        (number(0), number(9)),
        (0, 1, one),
    );
    check_remove(rt, alloc, &mut passes[1], &[number(5)], (0, 7));
    check_get(rt, alloc, &mut passes[0], &[number(5)], (2, BEFORE));
    art_index_close(alloc, &mut passes[0]);
    art_index_close(alloc, &mut passes[1]);
    check_get(rt, alloc, &mut passes[1], &[number(5)], (3, BEFORE));
}

/// Two passes see the rows of each other, and a pass that was closed is none.
#[test]
fn two_passes_share_rows(rt: HostRuntime) {
    share_rows(&rt, rt.alloc());
}

fn refuse_columns(rt: &impl Abort, alloc: Global) {
    let mut passes = [OpaquePass::none(alloc)];
    check_open(rt, alloc, b"text4", &mut passes, 0);
    check_get(rt, alloc, &mut passes[0], &[], (4, BEFORE));
    check_get(rt, alloc, &mut passes[0], &[text(0, 0); 9], (4, BEFORE));
    check_get(rt, alloc, &mut passes[0], &[number(5)], (5, BEFORE));
    check_get(
        rt,
        alloc,
        &mut passes[0],
        &[Column {
            kind: 4,
            ..text(0, 0)
        }],
        (5, BEFORE),
    );
    check_get(rt, alloc, &mut passes[0], &[text(1, 255)], (5, BEFORE));
    check_get(rt, alloc, &mut passes[0], &[text(5, b'a')], (7, BEFORE));
    check_get(rt, alloc, &mut passes[0], &[text(25, b'a')], (7, BEFORE));
    check_get(rt, alloc, &mut passes[0], &[text(4, b'a')], (2, BEFORE));
    let none = [Row::default(); 2];
    let range = (text(1, b'b'), text(1, b'a'));
    check_scan(rt, alloc, &mut passes[0], range, (8, 9, none));
}

/// Columns that are no tuple of the schema are refused, and no word is written.
#[test]
fn columns_are_refused(rt: HostRuntime) {
    refuse_columns(&rt, rt.alloc());
}

fn refuse_tables(rt: &impl Abort, alloc: Global) {
    let mut passes = [OpaquePass::none(alloc)];
    check_open(rt, alloc, b"", &mut passes, 20);
    check_open(rt, alloc, b"u8,u8,u8,u8,u8,u8,u8,u8,u8", &mut passes, 21);
    check_open(rt, alloc, b"text24,text24,text24", &mut passes, 22);
    check_open(rt, alloc, b"u24", &mut passes, 23);
    check_open(rt, alloc, &[255], &mut passes, 23);
    check_open(rt, alloc, b"u8", &mut [], 24);
    check_get(rt, alloc, &mut passes[0], &[number(5)], (3, BEFORE));
}

/// A table that is not opened leaves its passes empty.
#[test]
fn tables_are_refused(rt: HostRuntime) {
    refuse_tables(&rt, rt.alloc());
}
