//! How a call ends.
ghost use Rattle.std.specs.Prelude.{◌≡◌, ℕ, IfSome, Option};
ghost use Rattle.art_change.specs.Outcomes.{of_seek, of_write};

use crate::WriteOutcome;
use art_cell::{Cell, Pool};
use art_epoch::Blocker;
use art_look::Seen;

/// How a call ended.
#[derive(Debug, PartialEq, Eq, Drop)]
pub enum Outcome {
    /// The row is in the tree.
    New,
    /// The key is there, and keeps this value.
    Present(u64),
    /// The row is out of the tree; it had this value.
    Gone(u64),
    /// No row has the key.
    Absent,
    /// The key has this value.
    Found(u64),
    /// What a look has seen.
    Seen(Seen),
    /// All turns were used.
    Busy,
    /// No number of the pool was found.
    Full(Pool),
    /// Limbo had fewer than four places.
    Crowded(Blocker),
    /// The counter of a cell that was to be locked is at its end.
    Exhausted(Cell),
    /// A key begins the other.
    Overlaps,
}

/// How a call ends by how its write did.
pub(crate) fn of_write(outcome: WriteOutcome) -> Outcome
    ensures { result ≡ of_write outcome }
{
    match outcome {
        WriteOutcome::New => Outcome::New,
        WriteOutcome::Present(value) => Outcome::Present(value),
        WriteOutcome::Gone(value) => Outcome::Gone(value),
        WriteOutcome::Absent => Outcome::Absent,
        WriteOutcome::Full(pool) => Outcome::Full(pool),
        WriteOutcome::Exhausted(cell) => Outcome::Exhausted(cell),
        WriteOutcome::Overlaps => Outcome::Overlaps,
        WriteOutcome::Busy => Outcome::Busy,
        WriteOutcome::Crowded(blocker) => Outcome::Crowded(blocker),
    }
}

/// How a call ends by how its seek did, and what that has seen.
pub(crate) fn of_seek(outcome: art_look::Outcome, seen: Option<Seen>) -> Outcome
    ensures { result ≡ of_seek outcome seen }
{
    match (outcome, seen) {
        (art_look::Outcome::Found(value), _) => Outcome::Found(value),
        (art_look::Outcome::Absent, _) => Outcome::Absent,
        (art_look::Outcome::Seen, Some(seen)) => Outcome::Seen(seen),
        _ => Outcome::Busy,
    }
}
