//! What a caller asks of the map, and what it answers.
use crate::{Row, Tuple};
use arrayvec::ArrayVec;

/// What a caller asks.
#[derive(Clone, Debug, PartialEq, Eq, Drop)]
pub enum Command {
    /// Adds a row, unless one with the tuple stands.
    Insert(Tuple, u64),
    /// Takes the row with the tuple out.
    Remove(Tuple),
    /// Looks for the row with the tuple.
    Get(Tuple),
    /// Lists the first rows from one tuple to another, both included, at most so many.
    Scan(Tuple, Tuple, u64),
}

/// What is answered to all but a scan.
#[derive(Clone, Copy, Debug, PartialEq, Eq)]
pub enum Answer {
    /// The row was added.
    Inserted,
    /// A row with the tuple stood, with this value, and stays.
    Present(u64),
    /// The row was taken out; this was its value.
    Removed(u64),
    /// No row has the tuple.
    Absent,
    /// The row has this value.
    Found(u64),
}

/// What is answered.
#[derive(Debug, PartialEq, Eq, Drop)]
pub enum Reply {
    /// The row was added.
    Inserted,
    /// A row with the tuple stood, with this value, and stays.
    Present(u64),
    /// The row was taken out; this was its value.
    Removed(u64),
    /// No row has the tuple.
    Absent,
    /// The row has this value.
    Found(u64),
    /// The rows, and whether as many as the limit were listed.
    Rows(ArrayVec<Row, 100>, bool),
}
