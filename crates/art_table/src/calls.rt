//! The calls on a table.
ghost use Rattle.std.specs.Prelude.{◌≡◌, ◌≢◌, ℕ, List, None, Err, IfErr, IfOk, true, false};
ghost use Rattle.std.specs.Option.{option_map};
ghost use Rattle.arrayvec.specs.ArrayVec.{ArrayVec as KeyOf};
ghost use Rattle.art_change.specs.Calls.{Insert as insert_wish, Remove as remove_wish, may_end};
ghost use Rattle.art_change.specs.Outcomes.{of_seek, of_write};
ghost use Rattle.art_key.specs.Bounds.{is_before};
ghost use Rattle.art_key.specs.declared.columns.Column.{Column};
ghost use Rattle.art_table.specs.Calls.{Ends};
ghost use Rattle.art_table.specs.Jobs.{of_got, of_inserted, of_removed, result_of, with_result};
ghost use Rattle.art_table.specs.Looks.{Advances, IsRefused, found_row};
ghost use Rattle.art_step.specs.Deeds.{key_of};
ghost use Rattle.art_table.specs.Tables.{IsPassOf};
ghost use Rattle.art_table.specs.declared.jobs.Job.TheVariants as jobs;
ghost use Rattle.art_typed.specs.Typed.{row_of};

use crate::{Fault, Pass, Table};
use art_change::WriteOutcome;
use art_key::{Bound, Schema, decode_into, encode};
use art_look::Outcome as SeekOutcome;
use art_model::{Row, Tuple};

/// What an insert did.
#[derive(Clone, Copy, Debug, PartialEq, Eq)]
pub enum Inserted {
    /// The row was added.
    New,
    /// A row with the tuple stood, with this value, and stays.
    Present(u64),
}

/// Adds a row, unless one with the tuple stands, which keeps its value.
pub fn insert(
    table: &Table,
    pass: &mut Pass,
    tuple: &Tuple,
    value: u64,
    turns: u32,
) -> Result<Inserted, Fault>
    requires { IsPassOf table.now pass.old }
    ensures pass { IsPassOf table.now pass.new }
    ensures ends { Ends table.now (jobs.Insert tuple.now value) turns pass.old (with_result of_inserted result) pass.new }
{
    let key = encode(table.schema(), tuple)?;
    let mut stepper = table.shared.at(&mut pass.seat);
    inserted_of(pass.caller.insert(&mut stepper, &key, value, turns))
}

/// Takes the row with the tuple out, if one stands, and answers its value.
pub fn remove(
    table: &Table,
    pass: &mut Pass,
    tuple: &Tuple,
    turns: u32,
) -> Result<Option<u64>, Fault>
    requires { IsPassOf table.now pass.old }
    ensures pass { IsPassOf table.now pass.new }
    ensures ends { Ends table.now (jobs.Remove tuple.now) turns pass.old (with_result of_removed result) pass.new }
{
    let key = encode(table.schema(), tuple)?;
    let mut stepper = table.shared.at(&mut pass.seat);
    removed_of(pass.caller.remove(&mut stepper, &key, turns))
}

/// The value of the row with the tuple, if one stands.
pub fn get(table: &Table, pass: &mut Pass, tuple: &Tuple, turns: u32) -> Result<Option<u64>, Fault>
    requires { IsPassOf table.now pass.old }
    ensures pass { IsPassOf table.now pass.new }
    ensures ends { Ends table.now (jobs.Get tuple.now) turns pass.old (with_result of_got result) pass.new }
{
    let key = encode(table.schema(), tuple)?;
    let mut stepper = table.shared.at(&mut pass.seat);
    got_of(pass.caller.get(&mut stepper, &key, turns))
}

/// Looks on from `from`, before `end`, as far as one look sees, and answers whether it found a row: that is written over `row` then, and
/// `from` is where it came to. After a refusal both are as they were.
pub fn look(
    table: &Table,
    pass: &mut Pass,
    from: &mut Bound,
    end: &Bound,
    turns: u32,
    row: &mut Row,
) -> Result<bool, Fault>
    requires pass { IsPassOf table.now pass.old }
    requires range { is_before from.old end.now ≡ true }
    ensures pass { IsPassOf table.now pass.new }
    ensures answered { IfOk result (λ found. Advances table.now from.old end.now turns pass.old row.old pass.new from.new found row.new) }
    ensures refused { IfErr result (λ f. IsRefused table.now from.old end.now turns pass.old row.old f pass.new from.new row.new) }
{
    let Bound::At(key) = &*from else {
        unreachable!()
    };
    let mut stepper = table.shared.at(&mut pass.seat);
    let Some(reached) = pass.caller.look(&mut stepper, key, end, turns) else {
        return Err(Fault::Busy);
    };
    let seen = pass.caller.row_seen(reached, key, end);
    let found = read_row(table.schema(), seen, row);
    *from = pass.caller.end_seen(reached, end);
    Ok(found)
}

/// Reads the row of a key and its value, if there is one, over the row that stands, and answers whether there was. Each key of a table
/// spells a tuple, which is read in its place there: it has room for eight columns, and is dear to make and to move.
#[inline(always)]
fn read_row(schema: &Schema, found: Option<(&[u8], u64)>, row: &mut Row) -> bool
    ensures found { found_row result row.new ≡ option_map (λ r. row_of schema.now (key_of r.0.now, r.1)) found.entry }
    ensures kept { result ≡ false → row.new ≡ row.old }
{
    let Some((key, value)) = found else {
        return false;
    };
    let _ = decode_into(schema, key, &mut row.tuple);
    row.value = value;
    true
}

/// What an insert answers that ended so, or why it is refused.
fn inserted_of(outcome: WriteOutcome) -> Result<Inserted, Fault>
    requires may { (k : KeyOf ℕ) × (value : ℕ) × (may_end (insert_wish k value) (of_write outcome) ≡ true) }
    requires apart { outcome ≢ WriteOutcome.Overlaps }
    ensures { (schema : List Column) → with_result of_inserted result ≡ result_of schema (of_write outcome) }
{
    match outcome {
        WriteOutcome::New => Ok(Inserted::New),
        WriteOutcome::Present(stands) => Ok(Inserted::Present(stands)),
        WriteOutcome::Full(pool) => Err(Fault::Full(pool)),
        WriteOutcome::Exhausted(cell) => Err(Fault::Exhausted(cell)),
        WriteOutcome::Crowded(blocker) => Err(Fault::Crowded(blocker)),
        WriteOutcome::Busy => Err(Fault::Busy),
        WriteOutcome::Gone(_) | WriteOutcome::Absent | WriteOutcome::Overlaps => unreachable!(),
    }
}

/// What a removal answers that ended so, or why it is refused.
fn removed_of(outcome: WriteOutcome) -> Result<Option<u64>, Fault>
    requires may { (k : KeyOf ℕ) × (may_end (remove_wish k) (of_write outcome) ≡ true) }
    ensures { (schema : List Column) → with_result of_removed result ≡ result_of schema (of_write outcome) }
{
    match outcome {
        WriteOutcome::Gone(had) => Ok(Some(had)),
        WriteOutcome::Absent => Ok(None),
        WriteOutcome::Exhausted(cell) => Err(Fault::Exhausted(cell)),
        WriteOutcome::Crowded(blocker) => Err(Fault::Crowded(blocker)),
        WriteOutcome::Busy => Err(Fault::Busy),
        WriteOutcome::New
        | WriteOutcome::Present(_)
        | WriteOutcome::Full(_)
        | WriteOutcome::Overlaps => unreachable!(),
    }
}

/// What a get answers that ended so, or why it is refused.
fn got_of(outcome: SeekOutcome) -> Result<Option<u64>, Fault>
    ensures { (schema : List Column) → with_result of_got result ≡ result_of schema (of_seek outcome None) }
{
    match outcome {
        SeekOutcome::Found(value) => Ok(Some(value)),
        SeekOutcome::Absent => Ok(None),
        SeekOutcome::Seen | SeekOutcome::Busy => Err(Fault::Busy),
    }
}
