//! What a call is asked for, and what it answers.
ghost use Rattle.std.specs.Prelude.{◌≡◌, ◌≢◌};
ghost use Rattle.art_change.specs.declared.outcomes.Outcome.TheVariants.{Overlaps as overlaps};
ghost use Rattle.art_table.specs.Jobs.{result_of, seen_of};
ghost use Rattle.art_typed.specs.Typed.{row_of};
ghost use Rattle.std.specs.Option.{option_map};

use crate::Fault;
use art_key::{Bound, Key, Schema, decode};
use art_look::Seen as KeySeen;
use art_model::{Row, Tuple};

/// What a call is asked for.
#[derive(Clone, Debug, PartialEq, Eq, Drop)]
pub enum Job {
    /// A row comes, unless one with the tuple stands.
    Insert { tuple: Tuple, value: u64 },
    /// The row with the tuple goes.
    Remove(Tuple),
    /// The value of the row with the tuple is looked for.
    Get(Tuple),
    /// The first row from a bound on, before another, is looked for.
    Look { lo: Bound, hi: Bound },
}

/// What a look has seen: at one moment the rows from `lo` on, before `hi`, were exactly this one, or none.
#[derive(Clone, Debug, PartialEq, Eq, Drop)]
pub struct Seen {
    pub lo: Bound,
    pub hi: Bound,
    pub row: Option<Row>,
}

/// What a call answers.
#[derive(Clone, Debug, PartialEq, Eq, Drop)]
pub enum Outcome {
    /// The row was added.
    New,
    /// A row with the tuple stands, with this value, and stays.
    Present(u64),
    /// The row went; it had this value.
    Removed(u64),
    /// No row has the tuple.
    Absent,
    /// The row with the tuple has this value.
    Found(u64),
    /// What a look has seen.
    Seen(Seen),
}

/// What a call answers that ended so, or why it is refused.
pub(crate) fn result_of(schema: &Schema, outcome: art_change::Outcome) -> Result<Outcome, Fault>
    requires { outcome ≢ overlaps }
    ensures { result ≡ result_of schema.now outcome }
{
    match outcome {
        art_change::Outcome::New => Ok(Outcome::New),
        art_change::Outcome::Present(value) => Ok(Outcome::Present(value)),
        art_change::Outcome::Gone(value) => Ok(Outcome::Removed(value)),
        art_change::Outcome::Absent => Ok(Outcome::Absent),
        art_change::Outcome::Found(value) => Ok(Outcome::Found(value)),
        art_change::Outcome::Seen(seen) => Ok(Outcome::Seen(seen_of(schema, seen))),
        art_change::Outcome::Busy => Err(Fault::Busy),
        art_change::Outcome::Full(pool) => Err(Fault::Full(pool)),
        art_change::Outcome::Crowded(blocker) => Err(Fault::Crowded(blocker)),
        art_change::Outcome::Exhausted(cell) => Err(Fault::Exhausted(cell)),
        art_change::Outcome::Overlaps => unreachable!(),
    }
}

/// What a look has seen, as typed rows. Each key of a table spells a tuple.
fn seen_of(schema: &Schema, seen: KeySeen) -> Seen
    ensures { result ≡ seen_of schema.now seen }
{
    Seen {
        lo: Bound::At(seen.lo),
        hi: seen.hi,
        row: row_of(schema, seen.row),
    }
}

/// The row of a key and its value.
fn row_of(schema: &Schema, row: Option<(Key, u64)>) -> Option<Row>
    ensures { result ≡ option_map (row_of schema.now) row }
{
    let (key, value) = row?;
    Some(Row {
        tuple: decode(schema, key.as_slice()).unwrap_or_default(),
        value,
    })
}
