//! Drawn calls of one pass over small pools answer as a map of rows does.
ghost use Rattle.art_table.specs.Tables.{IsPassOf};

use crate::replies::{gets, inserts, removes};
use crate::tables::{TURNS, alone, closed_alone, key_of};
use art_key::{Bound, Schema};
use art_model::{Row, SortedRows, Text, Tuple, Value};
use art_table::{Config, Pass, Table, look};
use rand_pcg::Pcg32;
use rand_pcg::rand_core::{Rng, SeedableRng};
use std::alloc::Global;
use std::process::Abort;

/// So few numbers that inserts are refused for want of leaves and of nodes.
const SMALL: Config = Config {
    leaves: 200,
    n4: 32,
    n16: 6,
    n48: 2,
    n256: 1,
    passes: 1,
    counter_start: 0,
};

const WORDS: [&str; 8] = ["", "a", "b", "aa", "ab", "abc", "ba", "abcdefgh"];

/// What the columns of a table are.
#[derive(Clone, Copy)]
enum Columns {
    /// `u16`.
    Number,
    /// `u8,u16,u8`, of which the first has few values.
    Numbers,
    /// `text8,i16`.
    Words,
}

impl Columns {
    /// The text of their schema.
    fn text(self) -> &'static str {
        match self {
            Columns::Number => "u16",
            Columns::Numbers => "u8,u16,u8",
            Columns::Words => "text8,i16",
        }
    }

    /// A drawn tuple.
    fn draw(self, rt: &impl Abort, numbers: &mut Pcg32) -> Tuple {
        let mut tuple = Tuple::new();
        match self {
            Columns::Number => {
                tuple.push(Value::Int(i128::from(numbers.next_u32() % 900)));
            }
            Columns::Numbers => {
                tuple.push(Value::Int(i128::from(numbers.next_u32() % 3)));
                tuple.push(Value::Int(i128::from(numbers.next_u32() % 150)));
                tuple.push(Value::Int(i128::from(numbers.next_u32() % 2)));
            }
            Columns::Words => {
                let place = numbers.next_u32() % 8;
                let word = WORDS[place as usize];
                tuple.push(Value::Text(Text::new(word).expect(rt, "a short word")));
                tuple.push(Value::Int(i128::from(numbers.next_u32() % 60) - 30));
            }
        }
        tuple
    }
}

/// The rows from the one bound on, before the other, are this one, or none.
fn check_only_row(
    rt: &impl Abort,
    schema: &Schema,
    rows: &[Row],
    lo: &Bound,
    hi: &Bound,
    only: Option<&Row>,
) {
    let mut left = only;
    for row in rows {
        let at = Bound::At(key_of(rt, schema, &row.tuple));
        if !at.before(lo) && at.before(hi) {
            assert_eq!(rt; left, Some(row));
            left = None;
        }
    }
    assert_eq!(rt; left, None);
}

/// A look from the tuple on sees the only row of its range, or none.
fn looks(rt: &impl Abort, table: &Table, pass: &mut Pass, rows: &mut SortedRows, tuple: Tuple)
    requires { IsPassOf table.now pass.old }
    ensures { IsPassOf table.now pass.new }
{
    let lo = Bound::At(key_of(rt, table.schema(), &tuple));
    let mut from = Bound::At(key_of(rt, table.schema(), &tuple));
    let mut row = Row::default();
    let found = look(table, pass, &mut from, &Bound::End, TURNS, &mut row).expect(rt, "an answer");
    let only = if found { Some(&row) } else { None };
    check_only_row(rt, table.schema(), rows.rows(), &lo, &from, only);
}

/// A drawn call, an insert half of the time: whether it was refused.
fn calls(
    rt: &impl Abort,
    table: &Table,
    pass: &mut Pass,
    rows: &mut SortedRows,
    tuple: Tuple,
    numbers: &mut Pcg32,
) -> bool
    requires { IsPassOf table.now pass.old }
    ensures { IsPassOf table.now pass.new }
{
    match numbers.next_u32() % 8 {
        0 | 1 | 2 | 3 => return inserts(rt, table, pass, rows, tuple, numbers.next_u64()),
        4 | 5 => removes(rt, table, pass, rows, tuple),
        6 => gets(rt, table, pass, rows, tuple),
        _ => looks(rt, table, pass, rows, tuple),
    }
    false
}

/// So many drawn calls, of which some are refused, answer as a map does; the rows at the close are those of the map.
fn check_drawn(rt: &impl Abort, alloc: Global, columns: Columns, count: u32) {
    let (table, mut pass) = alone(rt, alloc, columns.text(), SMALL);
    let mut rows = SortedRows::new(alloc, &table.schema().order());
    let mut numbers = Pcg32::seed_from_u64(1);
    let mut refused = 0u32;
    for _ in 0..count {
        let tuple = columns.draw(rt, &mut numbers);
        if calls(rt, &table, &mut pass, &mut rows, tuple, &mut numbers) {
            refused = refused.saturating_add(1);
        }
    }
    assert!(rt; refused > 0 && refused < count / 2);
    let end = closed_alone(rt, alloc, table, pass);
    assert!(rt; end.rows.as_slice() == rows.rows());
}

#[test]
fn drawn_calls_of_one_number_answer_as_a_map(rt: HostRuntime) {
    check_drawn(&rt, rt.alloc(), Columns::Number, 20_000);
}

#[test]
fn drawn_calls_of_three_numbers_answer_as_a_map(rt: HostRuntime) {
    check_drawn(&rt, rt.alloc(), Columns::Numbers, 20_000);
}

#[test]
fn drawn_calls_of_words_answer_as_a_map(rt: HostRuntime) {
    check_drawn(&rt, rt.alloc(), Columns::Words, 20_000);
}
