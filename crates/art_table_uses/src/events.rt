//! What passes did, as events of a history.
use crate::replies::reply;
use art_key::{Deed, Event, Schema, legal};
use art_model::{Command, Reply, Row, SortedRows};
use art_table::{Job, Outcome, Seen};
use std::alloc::Global;
use std::process::Abort;

/// What a look saw, as a deed.
pub(crate) fn deed_of_look(seen: Seen) -> Deed {
    let Seen { lo, hi, row } = seen;
    Deed::Look(lo, hi, row)
}

/// What an outcome other than a look's is to the map.
fn reply_of(outcome: &Outcome) -> Option<Reply> {
    match outcome {
        Outcome::New => Some(Reply::Inserted),
        Outcome::Present(value) => Some(Reply::Present(*value)),
        Outcome::Removed(value) => Some(Reply::Removed(*value)),
        Outcome::Absent => Some(Reply::Absent),
        Outcome::Found(value) => Some(Reply::Found(*value)),
        Outcome::Seen(_) => None,
    }
}

/// What an attempt of the job did that ended so.
pub(crate) fn deed_of(rt: &impl Abort, job: Job, outcome: Outcome) -> Deed {
    if let Outcome::Seen(seen) = outcome {
        return deed_of_look(seen);
    }
    let reply = reply_of(&outcome).expect(rt, "a reply");
    match job {
        Job::Insert { tuple, value } => Deed::Done(Command::Insert(tuple, value), reply),
        Job::Remove(tuple) => Deed::Done(Command::Remove(tuple), reply),
        Job::Get(tuple) => Deed::Done(Command::Get(tuple), reply),
        Job::Look { lo, hi } => Deed::Look(lo, hi, None),
    }
}

/// The rows that the events leave.
fn rows_after(rt: &impl Abort, alloc: Global, schema: &Schema, events: &[Event]) -> SortedRows {
    let mut rows = SortedRows::new(alloc, &schema.order());
    for event in events {
        if let Deed::Done(command, _) = &event.what {
            let _ = reply(rt, &mut rows, command);
        }
    }
    rows
}

/// The events, in this order, are a legal history, which leaves these rows.
pub(crate) fn check_history(
    rt: &impl Abort,
    alloc: Global,
    schema: &Schema,
    events: &[Event],
    rows: &[Row],
) {
    assert!(rt; legal(alloc, schema, events).expect(rt, "memory"));
    assert!(rt; rows_after(rt, alloc, schema, events).rows() == rows);
}
