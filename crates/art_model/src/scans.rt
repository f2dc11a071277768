//! What a scan owes while the map changes under it, as a test of the rows that it listed.
ghost use Rattle.std.specs.Prelude.{◌≡◌, ◌<◌, ◌↔◌, length, All, Any, IsTrue, IsSome, Some};
ghost use Rattle.std.specs.List.{AllPass};
ghost use Rattle.std.specs.Ordering.{is_le};
ghost use Rattle.art_model.specs.Rows.{Tuple, tuple_cmp, is_same, IsSortedRows, rows_of_each, value_at};
ghost use Rattle.art_model.specs.Scans.{is_between, IsOwed, IsScanOf};

use crate::sorted_rows::compare;
use crate::{Order, Row, SortedRows, Tuple};

/// Whether the rows listed are what a scan of the range owes, over the states of the map that it ran through.
///
/// There are at most `limit` of them, sorted in the order, each from `lo` to `hi`, both included, and with its value in one of
/// the states. Each tuple of the range that has a row in every state has one in the list; but where as many rows are listed
/// as the limit, the range ends at the last of them.
pub fn scan_ok(
    order: &Order,
    states: &[SortedRows],
    lo: &Tuple,
    hi: &Tuple,
    limit: u64,
    listed: &[Row],
) -> bool
    requires { 0 < length states.now }
    ensures { IsTrue result ↔ IsScanOf order.now (rows_of_each states.now) lo.now hi.now limit listed.now }
{
    listed.len() as u64 <= limit
        && are_sorted(order, listed)
        && are_between(order, lo, hi, listed)
        && have_stood(states, listed)
        && are_complete(order, states, lo, hi, limit, listed)
}

/// Whether each row stands before the next.
fn are_sorted(order: &Order, rows: &[Row]) -> bool
    ensures { IsTrue result ↔ IsSortedRows order.now rows.now }
{
    rows.is_sorted_by(|a, b| compare(order, &a.tuple, &b.tuple).is_lt())
}

/// Whether each row stands from `lo` to `hi`, both included.
fn are_between(order: &Order, lo: &Tuple, hi: &Tuple, rows: &[Row]) -> bool
    ensures { IsTrue result ↔ AllPass (λ row. is_between order.now lo.now hi.now row.tuple) rows.now }
{
    rows.iter().all(|row| is_between(order, lo, hi, &row.tuple))
}

/// Whether each row stood, with its value, in one of the states.
fn have_stood(states: &[SortedRows], rows: &[Row]) -> bool
    ensures { IsTrue result ↔ All (λ row. Any (λ rows. value_at rows row.tuple ≡ Some row.value) (rows_of_each states.now)) rows.now }
{
    rows.iter().all(|row| has_stood(states, row))
}

/// Whether the row stood, with its value, in one of the states.
fn has_stood(states: &[SortedRows], row: &Row) -> bool
    ensures { IsTrue result ↔ Any (λ m. value_at m.rows row.now.tuple ≡ Some row.now.value) states.now }
{
    states.iter().any(|state| value_at(state.rows(), &row.tuple) == Some(row.value))
}

/// Whether the list has each row that is owed. The first state has a row with each such tuple.
fn are_complete(
    order: &Order,
    states: &[SortedRows],
    lo: &Tuple,
    hi: &Tuple,
    limit: u64,
    listed: &[Row],
) -> bool
    requires { 0 < length states.now }
    ensures { IsTrue result
        ↔ ((t : Tuple) → IsOwed order.now (rows_of_each states.now) lo.now hi.now limit listed.now t → IsSome (value_at listed.now t)) }
{
    let first = &states[0];
    first.rows().iter().all(|row| is_settled(order, states, lo, hi, limit, listed, &row.tuple))
}

/// Whether no row with the tuple is owed, or the list has one.
fn is_settled(
    order: &Order,
    states: &[SortedRows],
    lo: &Tuple,
    hi: &Tuple,
    limit: u64,
    listed: &[Row],
    tuple: &Tuple,
) -> bool
    ensures { IsTrue result
        ↔ (IsOwed order.now (rows_of_each states.now) lo.now hi.now limit listed.now tuple.now → IsSome (value_at listed.now tuple.now)) }
{
    !is_owed(order, states, lo, hi, limit, listed, tuple) || value_at(listed, tuple).is_some()
}

/// Whether a row with the tuple is owed.
fn is_owed(
    order: &Order,
    states: &[SortedRows],
    lo: &Tuple,
    hi: &Tuple,
    limit: u64,
    listed: &[Row],
    tuple: &Tuple,
) -> bool
    ensures { IsTrue result ↔ IsOwed order.now (rows_of_each states.now) lo.now hi.now limit listed.now tuple.now }
{
    is_between(order, lo, hi, tuple)
        && (listed.len() as u64 != limit || reaches(order, listed, tuple))
        && has_stayed(states, tuple)
}

/// Whether a row stands at the tuple or after it.
fn reaches(order: &Order, rows: &[Row], tuple: &Tuple) -> bool
    ensures { IsTrue result ↔ Any (λ row. IsTrue (is_le (tuple_cmp order.now tuple.now row.tuple))) rows.now }
{
    rows.iter()
        .any(|row| compare(order, tuple, &row.tuple).is_le())
}

/// Whether a row with the tuple stands in every state.
fn has_stayed(states: &[SortedRows], tuple: &Tuple) -> bool
    ensures { IsTrue result ↔ All (λ rows. IsSome (value_at rows tuple.now)) (rows_of_each states.now) }
{
    states
        .iter()
        .all(|state| value_at(state.rows(), tuple).is_some())
}

/// Whether the tuple stands from `lo` to `hi`, both included.
fn is_between(order: &Order, lo: &Tuple, hi: &Tuple, tuple: &Tuple) -> bool
    ensures { result ≡ is_between order.now lo.now hi.now tuple.now }
{
    compare(order, lo, tuple).is_le() && compare(order, tuple, hi).is_le()
}

/// The value of the row with the tuple, if one stands.
fn value_at(rows: &[Row], tuple: &Tuple) -> Option<u64>
    ensures { result ≡ value_at rows.now tuple.now }
{
    for row in rows {
        if is_same(&row.tuple, tuple) {
            return Some(row.value);
        }
    }
    None
}

/// Whether the two have the same values, whatever the order.
fn is_same(a: &Tuple, b: &Tuple) -> bool
    ensures { result ≡ is_same a.now b.now }
{
    a.as_slice().cmp(b.as_slice()).is_eq()
}
