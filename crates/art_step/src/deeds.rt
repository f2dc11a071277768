//! What a pass says that it does at a step: an event, on byte keys.
use art_key::{Bound, Key};
use art_model::Answer;

/// A command, on byte keys.
#[derive(Debug, Drop, PartialEq, Eq)]
pub enum Act {
    Insert(Key, u64),
    Remove(Key),
    Get(Key),
}

/// A command with its answer, or a look of the range from a key on, before a bound, with the one row that it found, or none.
#[derive(Debug, Drop, PartialEq, Eq)]
pub enum Deed {
    Done(Act, Answer),
    Look(Key, Bound, Option<(Key, u64)>),
}
