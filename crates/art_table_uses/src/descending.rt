//! Drawn calls and scans under schemas with columns that descend answer as a map of rows does.
ghost use Rattle.art_table.specs.Tables.{IsPassOf};

use crate::replies::{check_reply, gets, inserts, removes};
use crate::tables::{SIZES, TURNS, alone, closed_alone};
use arrayvec::ArrayVec;
use art_key::{Kind, Schema};
use art_model::{Command, Order, Reply, Row, SortedRows, Text, Tuple, Value, scan_ok};
use art_scan::{More, ScanFault, scan};
use art_table::{Config, Pass, Table};
use rand_pcg::Pcg32;
use rand_pcg::rand_core::{Rng, SeedableRng};
use std::alloc::Global;
use std::process::Abort;

/// Room for every tuple that is drawn.
const ROOMY: Config = Config {
    leaves: 1024,
    n4: 512,
    n16: 128,
    ..SIZES
};

const WORDS: [&str; 8] = ["", "a", "b", "aa", "ab", "\0", "a\0", "\0\0"];

/// A drawn value of the kind, of few.
fn draw_value(rt: &impl Abort, kind: Kind, numbers: &mut Pcg32) -> Value {
    match kind {
        Kind::Bool => Value::Bool(numbers.next_u32() % 2 == 1),
        Kind::Text(_) => {
            let place = numbers.next_u32() % 8;
            let word = WORDS[place as usize];
            Value::Text(Text::new(word).expect(rt, "a short word"))
        }
        Kind::I8 | Kind::I16 | Kind::I32 | Kind::I64 => {
            Value::Int(i128::from(numbers.next_u32() % 16) - 8)
        }
        Kind::U8 | Kind::U16 | Kind::U32 | Kind::U64 => {
            Value::Int(i128::from(numbers.next_u32() % 6))
        }
    }
}

/// A drawn tuple of the schema.
fn draw_tuple(rt: &impl Abort, schema: &Schema, numbers: &mut Pcg32) -> Tuple {
    let mut tuple = Tuple::new();
    for column in schema.columns() {
        assert!(rt; !tuple.is_full());
        tuple.push(draw_value(rt, column.kind, numbers));
    }
    tuple
}

/// What a scan listed is what the map answers, and is what it owes over that one state.
fn check_listed(
    rt: &impl Abort,
    order: &Order,
    states: &mut [SortedRows; 1],
    range: (Tuple, Tuple),
    limit: u64,
    told: Result<More, ScanFault>,
    listed: ArrayVec<Row, 100>,
) {
    let (lo, hi) = range;
    let full = match told {
        Ok(more) => more == More::Limit,
        Err(fault) => {
            assert_eq!(rt; fault, ScanFault::BadRange);
            assert!(rt; listed.is_empty());
            false
        }
    };
    assert!(rt; scan_ok(order, &*states, &lo, &hi, limit, listed.as_slice()));
    let command = Command::Scan(lo, hi, limit);
    check_reply(rt, &mut states[0], &command, Reply::Rows(listed, full));
}

/// A scan lists what the map does, from the first tuple to the second.
fn scans(
    rt: &impl Abort,
    table: &Table,
    pass: &mut Pass,
    states: &mut [SortedRows; 1],
    range: (Tuple, Tuple),
    limit: u64,
)
    requires { IsPassOf table.now pass.old }
    ensures { IsPassOf table.now pass.new }
{
    let mut listed = ArrayVec::new();
    let told = scan(
        table,
        pass,
        &range.0,
        &range.1,
        limit,
        100 * TURNS,
        &mut listed,
    );
    let order = table.schema().order();
    check_listed(rt, &order, states, range, limit, told, listed);
}

/// A drawn call answers as the map does.
fn calls(
    rt: &impl Abort,
    table: &Table,
    pass: &mut Pass,
    states: &mut [SortedRows; 1],
    tuple: Tuple,
    numbers: &mut Pcg32,
)
    requires { IsPassOf table.now pass.old }
    ensures { IsPassOf table.now pass.new }
{
    let value = numbers.next_u64();
    match value % 4 {
        0 => {
            let refused = inserts(rt, table, pass, &mut states[0], tuple, value);
            assert!(rt; !refused);
        }
        1 => removes(rt, table, pass, &mut states[0], tuple),
        2 => gets(rt, table, pass, &mut states[0], tuple),
        _ => {
            let other = draw_tuple(rt, table.schema(), numbers);
            scans(rt, table, pass, states, (tuple, other), value / 4 % 20 + 1);
        }
    }
}

/// So many drawn calls answer as a map does; the rows at the close are those of the map, in its order.
fn check_drawn(rt: &impl Abort, alloc: Global, columns: &str, count: u32) {
    let (table, mut pass) = alone(rt, alloc, columns, ROOMY);
    let mut states = [SortedRows::new(alloc, &table.schema().order())];
    let mut numbers = Pcg32::seed_from_u64(1);
    for _ in 0..count {
        let tuple = draw_tuple(rt, table.schema(), &mut numbers);
        calls(rt, &table, &mut pass, &mut states, tuple, &mut numbers);
    }
    let end = closed_alone(rt, alloc, table, pass);
    assert!(rt; end.rows.as_slice() == states[0].rows());
}

#[test]
fn drawn_calls_of_a_number_that_descends(rt: HostRuntime) {
    check_drawn(&rt, rt.alloc(), "u16-", 10_000);
}

#[test]
fn drawn_calls_of_a_text_that_descends(rt: HostRuntime) {
    check_drawn(&rt, rt.alloc(), "text3-", 10_000);
}

#[test]
fn drawn_calls_of_a_truth_that_descends_before_a_number(rt: HostRuntime) {
    check_drawn(&rt, rt.alloc(), "bool-,i8", 10_000);
}

#[test]
fn drawn_calls_of_two_columns_that_descend_behind_a_number(rt: HostRuntime) {
    check_drawn(&rt, rt.alloc(), "u8,text2-,i16-", 10_000);
}
