//! The sorted map as a plain list of rows.
ghost use Rattle.std.specs.Prelude.{◌≡◌, ◌≤◌, [], IfOk, MatchResult, OnOk, OnErr, take};
ghost use Rattle.art_model.specs.Rows.{column_cmp, values_cmp, tuple_cmp, IsSortedRows, rows_between};
ghost use Rattle.art_model.specs.Answers.{answer, HasRoomFor};
ghost use Rattle.art_model.specs.Places.{IsPlaceOf, IsGapFor};

use crate::{Command, NoMemory, Order, Reply, Row, Tuple, Value};
use arrayvec::ArrayVec;
use std::alloc::Global;
use std::cmp::Ordering;
use std::marker::Model;

/// The rows of the map, sorted by their tuples in the order of its columns.
///
/// A plain program over one list, as slow as it is simple: it answers what the definitions say and is
/// what the index is compared with.
#[derive(Debug, Drop)]
pub struct SortedRows {
    order: Order,
    rows: Vec<Row>,
}

impl Model for SortedRows {
    ghost use Rattle.art_model.specs.Rows.{IsSortedRows, Sorted};

    ghost Value = { Sorted };

    ghost view = { λ s. record { order = s.order; rows = s.rows.items } };

    ghost invariant = { λ s. IsSortedRows s.order s.rows.items };
}

impl SortedRows {
    /// No row, of columns that ascend or descend as the order says.
    pub fn new(alloc: Global, order: &Order) -> Self
        ensures order { result.order ≡ order.now }
        ensures rows { result.rows ≡ [] }
    {
        SortedRows {
            order: copy_of_order(order),
            rows: Vec::new(alloc),
        }
    }

    /// The rows, in order.
    pub fn rows(&self) -> &[Row]
        ensures all { result.now ≡ self.now.rows }
        ensures sorted { IsSortedRows self.now.order self.now.rows }
    {
        self.rows.as_slice()
    }

    /// Answers a command. Where memory is wanted and refused, the rows stay as they were.
    pub fn apply(&mut self, command: &Command) -> Result<Reply, NoMemory>
        requires { HasRoomFor command.now }
        ensures reply { IfOk result (λ reply. reply ≡ (answer self.old.order command.now self.old.rows).0) }
        ensures rows { OnOk result (self.new.rows ≡ (answer self.old.order command.now self.old.rows).1) }
        ensures err { OnErr result (self.new.rows ≡ self.old.rows) }
        ensures order { self.new.order ≡ self.old.order }
    {
        match command {
            Command::Insert(tuple, value) => self.insert(tuple, *value),
            Command::Remove(tuple) => Ok(self.remove(tuple)),
            Command::Get(tuple) => Ok(self.get(tuple)),
            Command::Scan(lo, hi, limit) => self.scan(lo, hi, *limit),
        }
    }

    fn insert(&mut self, tuple: &Tuple, value: u64) -> Result<Reply, NoMemory>
        ensures reply { IfOk result (λ reply. reply ≡ (answer self.old.order (Command.Insert tuple.now value) self.old.rows).0) }
        ensures rows { OnOk result (self.new.rows ≡ (answer self.old.order (Command.Insert tuple.now value) self.old.rows).1) }
        ensures err { OnErr result (self.new.rows ≡ self.old.rows) }
        ensures order { self.new.order ≡ self.old.order }
    {
        match place(&self.order, &self.rows, tuple) {
            Ok(at) => Ok(Reply::Present(self.rows[at].value)),
            Err(at) => {
                let tuple = copy_of_tuple(tuple)?;
                self.rows.insert(at, Row { tuple, value })?;
                Ok(Reply::Inserted)
            }
        }
    }

    fn remove(&mut self, tuple: &Tuple) -> Reply
        ensures reply { result ≡ (answer self.old.order (Command.Remove tuple.now) self.old.rows).0 }
        ensures rows { self.new.rows ≡ (answer self.old.order (Command.Remove tuple.now) self.old.rows).1 }
        ensures order { self.new.order ≡ self.old.order }
    {
        match place(&self.order, &self.rows, tuple) {
            Ok(at) => Reply::Removed(self.rows.remove(at).value),
            Err(_) => Reply::Absent,
        }
    }

    fn get(&self, tuple: &Tuple) -> Reply
        ensures { result ≡ (answer self.now.order (Command.Get tuple.now) self.now.rows).0 }
    {
        match place(&self.order, &self.rows, tuple) {
            Ok(at) => Reply::Found(self.rows[at].value),
            Err(_) => Reply::Absent,
        }
    }

    fn scan(&self, lo: &Tuple, hi: &Tuple, limit: u64) -> Result<Reply, NoMemory>
        requires { limit ≤ 100 }
        ensures { IfOk result (λ reply. reply ≡ (answer self.now.order (Command.Scan lo.now hi.now limit) self.now.rows).0) }
    {
        let listed = first_between(&self.order, &self.rows, lo, hi, limit as usize)?;
        let more = listed.len() as u64 == limit;
        Ok(Reply::Rows(listed, more))
    }
}

/// Where the row with the tuple stands, or where it would.
fn place(order: &Order, rows: &[Row], tuple: &Tuple) -> Result<usize, usize>
    requires { IsSortedRows order.now rows.now }
    ensures { MatchResult result (IsPlaceOf order.now rows.now tuple.now) (IsGapFor order.now rows.now tuple.now) }
{
    rows.binary_search_by(
        |row: &Row| -> Ordering
            ensures { result ≡ tuple_cmp order.entry.now row.now.tuple tuple.entry.now }
        { compare(order, &row.tuple, tuple) },
    )
}

/// Copies of the first rows from `lo` to `hi`, at most `limit`.
fn first_between(
    order: &Order,
    rows: &[Row],
    lo: &Tuple,
    hi: &Tuple,
    limit: usize,
) -> Result<ArrayVec<Row, 100>, NoMemory>
    requires { limit ≤ 100 }
    ensures { IfOk result (λ listed. listed.items ≡ take limit (rows_between order.now rows.now lo.now hi.now)) }
{
    let mut listed = ArrayVec::new();
    for row in rows {
        let is_within = compare(order, lo, &row.tuple).is_le()
            && compare(order, &row.tuple, hi).is_le();
        if is_within && listed.len() < limit {
            listed.push(copy_of_row(row)?);
        }
    }
    Ok(listed)
}

/// The order of tuples: column by column, each in its own order, the first difference decides.
pub(crate) fn compare(order: &Order, a: &Tuple, b: &Tuple) -> Ordering
    ensures { result ≡ tuple_cmp order.now a.now b.now }
{
    compare_values(order.as_slice(), a.as_slice(), b.as_slice())
}

/// The order of values, one for each column.
#[tactic(auto, using(crate::proofs::Order::no_order, crate::proofs::Order::no_left, crate::proofs::Order::no_right))]
fn compare_values(descends: &[bool], a: &[Value], b: &[Value]) -> Ordering
    ensures { result ≡ values_cmp descends.now a.now b.now }
{
    match (descends, a, b) {
        ([here, rest @ ..], [v, a @ ..], [w, b @ ..]) => match compare_in(*here, v, w) {
            Ordering::Equal => compare_values(rest, a, b),
            decided => decided,
        },
        _ => a.cmp(b),
    }
}

/// The order of two values of one column.
fn compare_in(descends: bool, v: &Value, w: &Value) -> Ordering
    ensures { result ≡ column_cmp descends v.now w.now }
{
    if descends { w.cmp(v) } else { v.cmp(w) }
}

fn copy_of_order(order: &Order) -> Order
    ensures { result ≡ order.now }
{
    let columns = order.as_slice();
    let mut copy = Order::new();
    for descends in columns {
        copy.push(*descends);
    }
    copy
}

fn copy_of_tuple(tuple: &Tuple) -> Result<Tuple, NoMemory>
    ensures { IfOk result (λ copy. copy ≡ tuple.now) }
{
    Ok(tuple.clone()?)
}

fn copy_of_row(row: &Row) -> Result<Row, NoMemory>
    ensures { IfOk result (λ copy. copy ≡ row.now) }
{
    Ok(row.clone()?)
}
