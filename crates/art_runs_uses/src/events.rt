//! What passes did, as events of a history.
use crate::wishes::{Wish, tuple_of};
use art_key::{Bound, Deed, Event, Schema, decode, legal};
use art_look::Seen;
use art_model::{Command, Reply, Row, SortedRows};
use art_runs::art_change::{Made, Outcome};
use std::alloc::Global;
use std::process::Abort;

/// What the ops of the passes are for, where their events stand, and all events in the order in which they were made: one comes to its
/// place when its op is answered.
#[derive(Drop)]
pub(crate) struct Notes {
    wishes: Vec<Wish>,
    places: Vec<Option<usize>>,
    log: Vec<Option<Event>>,
    tally: Tally,
}

/// How many ops were refused, how often one began anew, and whether nodes grew and shrank.
#[derive(Clone, Copy, Debug, Default)]
pub(crate) struct Tally {
    pub(crate) full: u32,
    pub(crate) exhausted: u32,
    /// Busy or crowded.
    pub(crate) hindered: u32,
    pub(crate) restarts: u64,
    /// Not all Node16s are free.
    pub(crate) node16_is_out: bool,
    /// How often that changed.
    pub(crate) node16_changes: u32,
}

impl Notes {
    /// Of so many passes, each of which is to do the same.
    pub(crate) fn new(rt: &impl Abort, alloc: Global, passes: usize, wish: Wish) -> Notes {
        let mut wishes = Vec::new(alloc);
        let mut places = Vec::new(alloc);
        for _ in 0..passes {
            wishes.push(wish).expect(rt, "memory");
            places.push(None).expect(rt, "memory");
        }
        Notes {
            wishes,
            places,
            log: Vec::new(alloc),
            tally: Tally::default(),
        }
    }

    /// The pass begins another op.
    pub(crate) fn begins(&mut self, rt: &impl Abort, which: u32, wish: Wish) {
        *self.wishes.get_mut(which as usize).expect(rt, "its wish") = wish;
        *self.places.get_mut(which as usize).expect(rt, "its place") = None;
    }

    /// The op of the pass made this step, or none: its event is the next one.
    pub(crate) fn makes(&mut self, rt: &impl Abort, which: u32, last: Option<Made>) {
        let Some(made) = last else { return };
        if made.event {
            let place = self.places.get_mut(which as usize).expect(rt, "its place");
            assert!(rt; place.is_none());
            *place = Some(self.log.len());
            self.log.push(None).expect(rt, "memory");
        }
    }

    /// The op of the pass ended so, after so many restarts: its event comes to its place, and one that was refused has none.
    pub(crate) fn ends(
        &mut self,
        rt: &impl Abort,
        schema: &Schema,
        which: u32,
        outcome: Outcome,
        restarts: u64,
    ) {
        self.tally.restarts = self.tally.restarts.saturating_add(restarts);
        let wish = *self.wishes.get(which as usize).expect(rt, "its wish");
        let place = *self.places.get(which as usize).expect(rt, "its place");
        match deed_of(rt, schema, wish, outcome) {
            Ok(what) => {
                let place = place.expect(rt, "an event");
                let slot = self.log.get_mut(place).expect(rt, "its place");
                *slot = Some(Event { pass: which, what });
            }
            Err(refusal) => {
                assert!(rt; place.is_none());
                self.tally.count(rt, &refusal);
            }
        }
    }

    /// Whether a Node16 is not free, between two ops.
    pub(crate) fn sees_node16(&mut self, is_out: bool) {
        if self.tally.node16_is_out != is_out {
            self.tally.node16_is_out = is_out;
            self.tally.node16_changes = self.tally.node16_changes.saturating_add(1);
        }
    }

    /// The events, of which each has come to its place, and the tally.
    pub(crate) fn all(self, rt: &impl Abort, alloc: Global) -> (Vec<Event>, Tally) {
        let Notes { log, tally, .. } = self;
        let mut events = Vec::new(alloc);
        for slot in log {
            let event = slot.expect(rt, "an event at each place");
            events.push(event).expect(rt, "memory");
        }
        (events, tally)
    }
}

impl Tally {
    /// An op more was refused.
    fn count(&mut self, rt: &impl Abort, refusal: &Outcome) {
        match refusal {
            Outcome::Full(_) => self.full = self.full.saturating_add(1),
            Outcome::Exhausted(_) => self.exhausted = self.exhausted.saturating_add(1),
            Outcome::Busy | Outcome::Crowded(_) => self.hindered = self.hindered.saturating_add(1),
            _ => panic!(rt; "{refusal:?} refuses nothing here"),
        }
    }
}

/// What an op of the wish did that ended so, or the refusal.
fn deed_of(
    rt: &impl Abort,
    schema: &Schema,
    wish: Wish,
    outcome: Outcome,
) -> Result<Deed, Outcome> {
    match (wish, outcome) {
        (Wish::Insert(number, value), Outcome::New) => {
            let command = Command::Insert(tuple_of(rt, number), value);
            Ok(Deed::Done(command, Reply::Inserted))
        }
        (Wish::Insert(number, value), Outcome::Present(stands)) => {
            let command = Command::Insert(tuple_of(rt, number), value);
            Ok(Deed::Done(command, Reply::Present(stands)))
        }
        (Wish::Remove(number), Outcome::Gone(had)) => {
            let command = Command::Remove(tuple_of(rt, number));
            Ok(Deed::Done(command, Reply::Removed(had)))
        }
        (Wish::Remove(number), Outcome::Absent) => {
            let command = Command::Remove(tuple_of(rt, number));
            Ok(Deed::Done(command, Reply::Absent))
        }
        (Wish::Get(number), Outcome::Found(value)) => {
            let command = Command::Get(tuple_of(rt, number));
            Ok(Deed::Done(command, Reply::Found(value)))
        }
        (Wish::Get(number), Outcome::Absent) => {
            let command = Command::Get(tuple_of(rt, number));
            Ok(Deed::Done(command, Reply::Absent))
        }
        (Wish::Look(_, _), Outcome::Seen(seen)) => Ok(deed_of_look(rt, schema, seen)),
        (_, refusal) => Err(refusal),
    }
}

/// What a look saw, as a deed.
fn deed_of_look(rt: &impl Abort, schema: &Schema, seen: Seen) -> Deed {
    let Seen { lo, hi, row } = seen;
    match row {
        Some((key, value)) => {
            let tuple = decode(schema, key.as_slice()).expect(rt, "a row of the schema");
            Deed::Look(Bound::At(lo), hi, Some(Row { tuple, value }))
        }
        None => Deed::Look(Bound::At(lo), hi, None),
    }
}

/// The rows that the events leave.
fn rows_after(rt: &impl Abort, alloc: Global, schema: &Schema, events: &[Event]) -> SortedRows {
    let mut rows = SortedRows::new(alloc, &schema.order());
    for event in events {
        if let Deed::Done(command, _) = &event.what {
            if let Command::Scan(_, _, limit) = command {
                assert!(rt; *limit <= 100);
            }
            rows.apply(command).expect(rt, "memory");
        }
    }
    rows
}

/// The events, in this order, are a legal history, which leaves these rows.
pub(crate) fn check_history(
    rt: &impl Abort,
    alloc: Global,
    schema: &Schema,
    events: &[Event],
    rows: &SortedRows,
) {
    assert!(rt; legal(alloc, schema, events).expect(rt, "memory"));
    let left = rows_after(rt, alloc, schema, events);
    assert_eq!(rt; left.rows(), rows.rows());
}

/// Which kinds of event came.
#[derive(Clone, Copy, Debug, Default, PartialEq, Eq)]
struct Kinds {
    inserted: bool,
    present: bool,
    removed: bool,
    not_removed: bool,
    found: bool,
    not_found: bool,
    seen: bool,
    none_seen: bool,
}

impl Kinds {
    /// And this one.
    fn count(&mut self, what: &Deed) {
        match what {
            Deed::Done(Command::Insert(_, _), Reply::Inserted) => self.inserted = true,
            Deed::Done(Command::Insert(_, _), Reply::Present(_)) => self.present = true,
            Deed::Done(Command::Remove(_), Reply::Removed(_)) => self.removed = true,
            Deed::Done(Command::Remove(_), Reply::Absent) => self.not_removed = true,
            Deed::Done(Command::Get(_), Reply::Found(_)) => self.found = true,
            Deed::Done(Command::Get(_), Reply::Absent) => self.not_found = true,
            Deed::Look(_, _, Some(_)) => self.seen = true,
            Deed::Look(_, _, None) => self.none_seen = true,
            Deed::Done(_, _) => {}
        }
    }
}

/// Each kind of event came: of an insert, a removal, a get and a look both answers.
pub(crate) fn check_kinds(rt: &impl Abort, events: &[Event]) {
    let mut kinds = Kinds::default();
    for event in events {
        kinds.count(&event.what);
    }
    let all = Kinds {
        inserted: true,
        present: true,
        removed: true,
        not_removed: true,
        found: true,
        not_found: true,
        seen: true,
        none_seen: true,
    };
    assert_eq!(rt; kinds, all);
}
