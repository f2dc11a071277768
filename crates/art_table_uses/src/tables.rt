//! Tables for tests, and calls of their passes.
ghost use Rattle.art_table.specs.Tables.{AreOf, IsPassOf};

use art_closed::PoolCount;
use art_key::{Bound, Key, Schema, encode};
use art_model::{Row, Tuple, Value};
use art_table::{
    Closed, Config, Fault, Inserted, Pass, Seen, Table, close, get, insert, look, open, remove,
};
use std::alloc::Global;
use std::process::Abort;

/// Turns enough for a call that nobody disturbs.
pub(crate) const TURNS: u32 = 1_000;

/// Sizes enough for most tests, with one pass.
pub(crate) const SIZES: Config = Config {
    leaves: 512,
    n4: 64,
    n16: 16,
    n48: 8,
    n256: 4,
    passes: 1,
    counter_start: 0,
};

/// The same, with two passes.
pub(crate) const TWO_PASSES: Config = Config { passes: 2, ..SIZES };

/// Sizes for two passes that go on side by side, with four words of free numbers in each pool: a call that loses a number to another
/// looks in the next word, and is refused where there is none.
pub(crate) const SIDE_BY_SIDE: Config = Config {
    leaves: 256,
    n4: 256,
    n16: 256,
    n48: 256,
    n256: 256,
    passes: 2,
    counter_start: 0,
};

/// The tuple of one number.
pub(crate) fn tuple_of(number: u64) -> Tuple {
    let mut tuple = Tuple::new();
    tuple.push(Value::Int(i128::from(number)));
    tuple
}

/// The row of one number.
pub(crate) fn row_of(number: u64, value: u64) -> Row {
    let tuple = tuple_of(number);
    Row { tuple, value }
}

/// The schema that the text says.
pub(crate) fn schema_of(rt: &impl Abort, text: &str) -> Schema {
    Schema::parse(text).expect(rt, "a schema")
}

/// The key of a tuple of the schema.
pub(crate) fn key_of(rt: &impl Abort, schema: &Schema, tuple: &Tuple) -> Key {
    encode(schema, tuple).expect(rt, "a tuple of the schema")
}

/// The bound at the key of a number.
pub(crate) fn at(rt: &impl Abort, table: &Table, number: u64) -> Bound {
    Bound::At(key_of(rt, table.schema(), &tuple_of(number)))
}

/// A table of these sizes under the schema that the text says, and its passes.
pub(crate) fn opened(
    rt: &impl Abort,
    alloc: Global,
    text: &str,
    config: Config,
) -> (Table, Vec<Pass>)
    ensures { AreOf result.0 result.1.items }
{
    open(alloc, schema_of(rt, text), config).expect(rt, "room for a table")
}

/// The last of these passes.
pub(crate) fn last_of(rt: &impl Abort, table: &Table, passes: &mut Vec<Pass>) -> Pass
    requires { AreOf table.now passes.old.items }
    ensures last { IsPassOf table.now result }
    ensures left { AreOf table.now passes.new.items }
{
    let _ = table.schema();
    passes.pop().expect(rt, "a pass")
}

/// A table of these sizes, and the last of its passes.
pub(crate) fn alone(rt: &impl Abort, alloc: Global, text: &str, config: Config) -> (Table, Pass)
    ensures { IsPassOf result.0 result.1 }
{
    let (table, mut passes) = opened(rt, alloc, text, config);
    let pass = last_of(rt, &table, &mut passes);
    (table, pass)
}

/// A table of these sizes, of two passes: the first and the last.
pub(crate) fn by_two(
    rt: &impl Abort,
    alloc: Global,
    text: &str,
    config: Config,
) -> (Table, Pass, Pass)
    ensures zero { IsPassOf result.0 result.1 }
    ensures one { IsPassOf result.0 result.2 }
{
    let (table, mut passes) = opened(rt, alloc, text, config);
    let one = last_of(rt, &table, &mut passes);
    let zero = last_of(rt, &table, &mut passes);
    (table, zero, one)
}

/// These passes and one more.
pub(crate) fn with_last(
    rt: &impl Abort,
    table: &Table,
    mut passes: Vec<Pass>,
    last: Pass,
) -> Vec<Pass>
    requires passes { AreOf table.now passes.items }
    requires last { IsPassOf table.now last }
    ensures { AreOf table.now result.items }
{
    let _ = table.schema();
    passes.push(last).expect(rt, "room for a pass");
    passes
}

/// What the table held, for whoever has all of its passes.
pub(crate) fn closed(rt: &impl Abort, alloc: Global, table: Table, passes: Vec<Pass>) -> Closed
    requires { AreOf table passes.items }
{
    close(alloc, table, passes)
        .ok()
        .expect(rt, "all passes, and room for the rows")
}

/// What the table of one pass held.
pub(crate) fn closed_alone(rt: &impl Abort, alloc: Global, table: Table, pass: Pass) -> Closed
    requires { IsPassOf table pass }
{
    let passes = with_last(rt, &table, Vec::new(alloc), pass);
    closed(rt, alloc, table, passes)
}

/// What the table of two passes held.
pub(crate) fn closed_by_two(
    rt: &impl Abort,
    alloc: Global,
    table: Table,
    zero: Pass,
    one: Pass,
) -> Closed
    requires zero { IsPassOf table zero }
    requires one { IsPassOf table one }
{
    let passes = with_last(rt, &table, Vec::new(alloc), zero);
    let passes = with_last(rt, &table, passes, one);
    closed(rt, alloc, table, passes)
}

/// So many rows stood at the close.
pub(crate) fn check_count(rt: &impl Abort, end: &Closed, wanted: usize) {
    assert_eq!(rt; end.rows.len(), wanted);
}

/// Whether each number of the pool, of so many, is linked, free or in limbo.
fn is_whole(count: &PoolCount, size: u32) -> bool {
    let held = count.linked.wrapping_add(count.in_limbo);
    held.wrapping_add(count.free) == size
}

/// All numbers of each pool, of these sizes, were accounted for at the close.
pub(crate) fn check_whole(rt: &impl Abort, end: &Closed, sizes: Config) {
    assert!(rt; is_whole(&end.leaves, sizes.leaves) && is_whole(&end.n4, sizes.n4));
    assert!(rt; is_whole(&end.n16, sizes.n16) && is_whole(&end.n48, sizes.n48));
    assert!(rt; is_whole(&end.n256, sizes.n256));
}

/// An insert of the row of a number.
pub(crate) fn puts(
    table: &Table,
    pass: &mut Pass,
    number: u64,
    value: u64,
) -> Result<Inserted, Fault>
    requires { IsPassOf table.now pass.old }
    ensures { IsPassOf table.now pass.new }
{
    insert(table, pass, &tuple_of(number), value, TURNS)
}

/// A removal of the row of a number.
pub(crate) fn takes(table: &Table, pass: &mut Pass, number: u64) -> Result<Option<u64>, Fault>
    requires { IsPassOf table.now pass.old }
    ensures { IsPassOf table.now pass.new }
{
    remove(table, pass, &tuple_of(number), TURNS)
}

/// A get of the row of a number.
pub(crate) fn finds(table: &Table, pass: &mut Pass, number: u64) -> Result<Option<u64>, Fault>
    requires { IsPassOf table.now pass.old }
    ensures { IsPassOf table.now pass.new }
{
    get(table, pass, &tuple_of(number), TURNS)
}

/// What a look from the one bound on has seen that was answered so, at the other.
fn seen_by(told: Result<bool, Fault>, lo: Bound, hi: Bound, row: Row) -> Result<Seen, Fault> {
    let row = if told? { Some(row) } else { None };
    Ok(Seen { lo, hi, row })
}

/// A look from the key of a number on, before `end`: what it has seen.
pub(crate) fn sees(
    rt: &impl Abort,
    table: &Table,
    pass: &mut Pass,
    number: u64,
    end: &Bound,
) -> Result<Seen, Fault>
    requires { IsPassOf table.now pass.old }
    ensures { IsPassOf table.now pass.new }
{
    let mut from = at(rt, table, number);
    assert!(rt; from.before(end));
    let mut row = Row::default();
    let told = look(table, pass, &mut from, end, TURNS, &mut row);
    seen_by(told, at(rt, table, number), from, row)
}

/// An insert of the row of a number is answered so.
pub(crate) fn check_put(
    rt: &impl Abort,
    table: &Table,
    pass: &mut Pass,
    number: u64,
    value: u64,
    wanted: Result<Inserted, Fault>,
)
    requires { IsPassOf table.now pass.old }
    ensures { IsPassOf table.now pass.new }
{
    assert_eq!(rt; puts(table, pass, number, value), wanted);
}

/// A removal of the row of a number is answered so.
pub(crate) fn check_take(
    rt: &impl Abort,
    table: &Table,
    pass: &mut Pass,
    number: u64,
    wanted: Result<Option<u64>, Fault>,
)
    requires { IsPassOf table.now pass.old }
    ensures { IsPassOf table.now pass.new }
{
    assert_eq!(rt; takes(table, pass, number), wanted);
}

/// A get of the row of a number is answered so.
pub(crate) fn check_find(
    rt: &impl Abort,
    table: &Table,
    pass: &mut Pass,
    number: u64,
    wanted: Result<Option<u64>, Fault>,
)
    requires { IsPassOf table.now pass.old }
    ensures { IsPassOf table.now pass.new }
{
    assert_eq!(rt; finds(table, pass, number), wanted);
}

/// The rows of the numbers from `first` on before `end` are inserted, with these as values: each is new, and found.
pub(crate) fn fills(rt: &impl Abort, table: &Table, pass: &mut Pass, first: u64, end: u64)
    requires { IsPassOf table.now pass.old }
    ensures { IsPassOf table.now pass.new }
{
    for number in first..end {
        check_put(rt, table, pass, number, number, Ok(Inserted::New));
        check_find(rt, table, pass, number, Ok(Some(number)));
    }
}

/// The rows of the numbers from `first` on before `end` are removed: each had its value, and is absent then.
pub(crate) fn empties(rt: &impl Abort, table: &Table, pass: &mut Pass, first: u64, end: u64)
    requires { IsPassOf table.now pass.old }
    ensures { IsPassOf table.now pass.new }
{
    for number in first..end {
        check_take(rt, table, pass, number, Ok(Some(number)));
        check_find(rt, table, pass, number, Ok(None));
    }
}
