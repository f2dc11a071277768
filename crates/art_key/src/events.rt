//! What the passes of a table did, in order, and whether sorted rows answer so.
ghost use Rattle.std.specs.Prelude.{◌≡◌, ◌↔◌, Any, IsTrue, IfOk, OnErr};
ghost use Rattle.std.specs.Option.{option_copied};
ghost use Rattle.art_key.specs.Columns.{order_of};
ghost use Rattle.art_key.specs.Histories.{StandsIn, AllStandIn, IsAdmitted, IsAnswered, IsCommand, IsLegal, OnlyRow, becomes, is_in_range};

use crate::{Bound, Schema, encode};
use art_model::{Command, NoMemory, Reply, Row, SortedRows, Tuple};
use std::alloc::Global;

/// What a pass did at a table.
#[derive(Debug, PartialEq, Eq, Drop)]
pub enum Deed {
    /// A command, with its reply.
    Done(Command, Reply),
    /// A look of the range of keys from the first bound on, before the second, with the one row that it found, or none.
    Look(Bound, Bound, Option<Row>),
}

/// What a pass, by its number, did.
#[derive(Debug, PartialEq, Eq, Drop)]
pub struct Event {
    pub pass: u32,
    pub what: Deed,
}

/// Whether the events, in this order, are a legal history of typed rows under the schema: each reply is what the sorted map of
/// rows answers after the events before it, from the empty map on, and each look found exactly the rows of its range. Looks
/// take no memory.
pub fn legal(alloc: Global, schema: &Schema, events: &[Event]) -> Result<bool, NoMemory>
    ensures decides { IfOk result (λ b. IsTrue b ↔ IsLegal schema.now events.now) }
    ensures err { OnErr result (Any (λ e. IsCommand e.what) events.now) }
{
    let mut rows = SortedRows::new(alloc, &schema.order());
    for event in events {
        if !is_answered(schema, &mut rows, &event.what)? {
            return Ok(false);
        }
    }
    Ok(true)
}

/// Whether the rows answer what the pass did. Where they do, they are then the rows after it; else they may be any.
fn is_answered(schema: &Schema, rows: &mut SortedRows, what: &Deed) -> Result<bool, NoMemory>
    requires order { rows.old.order ≡ order_of schema.now }
    requires stand { AllStandIn schema.now rows.old.rows }
    ensures decides { IfOk result (λ b. IsTrue b ↔ IsAnswered schema.now rows.old.rows what.now) }
    ensures rows { IfOk result (λ b. IsTrue b → rows.new.rows ≡ becomes schema.now rows.old.rows what.now) }
    ensures order { rows.new.order ≡ rows.old.order }
    ensures err { OnErr result (IsCommand what.now) }
{
    match what {
        Deed::Done(command, reply) => {
            if !is_admitted(schema, command) {
                return Ok(false);
            }
            Ok(rows.apply(command)? == *reply)
        }
        Deed::Look(lo, hi, found) => Ok(is_only_row(schema, rows.rows(), lo, hi, found.as_ref())),
    }
}

/// Whether the command is no scan, and its tuple stands in the schema.
fn is_admitted(schema: &Schema, command: &Command) -> bool
    ensures { IsTrue result ↔ IsAdmitted schema.now command.now }
{
    match command {
        Command::Insert(tuple, _) | Command::Remove(tuple) | Command::Get(tuple) => {
            encode(schema, tuple).is_ok()
        }
        Command::Scan(_, _, _) => false,
    }
}

/// Whether the rows in the range are this one, or none.
fn is_only_row(schema: &Schema, rows: &[Row], lo: &Bound, hi: &Bound, found: Option<&Row>) -> bool
    requires { AllStandIn schema.now rows.now }
    ensures { IsTrue result ↔ OnlyRow schema.now rows.now lo.now hi.now (option_copied found.entry) }
{
    let mut left = found;
    for row in rows {
        if is_in_range(schema, lo, hi, &row.tuple) {
            if left != Some(row) {
                return false;
            }
            left = None;
        }
    }
    left.is_none()
}

/// Whether the tuple is not before `lo`, and before `hi`.
fn is_in_range(schema: &Schema, lo: &Bound, hi: &Bound, tuple: &Tuple) -> bool
    requires { StandsIn schema.now tuple.now }
    ensures { result ≡ is_in_range schema.now lo.now hi.now tuple.now }
{
    let at = Bound::At(encode(schema, tuple).unwrap());
    !at.before(lo) && at.before(hi)
}
