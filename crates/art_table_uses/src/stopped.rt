//! A call that stops in the midst holds up another pass only where it holds a cell on its way; and it may be given up where it holds
//! none and has made no event.
ghost use Rattle.art_table.specs.Jobs.{IsRange};
ghost use Rattle.art_table.specs.Tables.{IsPassOf};
ghost use Rattle.art_table_uses.specs.Clients.{IsGoing};

use crate::attempts::{begun, finished, given_up, look_from, stepped};
use crate::events::{check_history, deed_of, deed_of_look};
use crate::replies::{reply_of_get, reply_of_insert, reply_of_remove};
use crate::tables::{
    SIDE_BY_SIDE, by_two, check_count, check_find, check_whole, closed_by_two, empties, fills,
    finds, puts, schema_of, sees, takes, tuple_of,
};
use art_key::{Bound, Deed, Event};
use art_model::{Command, Reply};
use art_step::StepKind;
use art_table::{Attempt, Fault, Job, Pass, Progress, Table};
use std::alloc::Global;
use std::process::Abort;

/// More calls than an attempt makes steps.
const MOST: u32 = 300;

/// What is stopped.
#[derive(Clone, Copy, PartialEq, Eq)]
enum Stopped {
    /// An insert that grows a node.
    Insert,
    /// A removal that shrinks a node.
    Remove,
    Get,
    Look,
}

/// Its job.
fn job_of(rt: &impl Abort, table: &Table, stopped: Stopped) -> Job
    ensures { IsRange result }
{
    match stopped {
        Stopped::Insert => Job::Insert {
            tuple: tuple_of(9),
            value: 90,
        },
        Stopped::Remove => Job::Remove(tuple_of(4)),
        Stopped::Get => Job::Get(tuple_of(2)),
        Stopped::Look => look_from(rt, table, 0),
    }
}

fn done(pass: u32, command: Command, reply: Reply) -> Event {
    let what = Deed::Done(command, reply);
    Event { pass, what }
}

/// Four rows, in a full Node4 before an insert, and else in a Node16 that shrinks next. Another row, in a node above, comes and goes, so
/// that numbers wait in the limbo of the pass.
fn prepares(
    rt: &impl Abort,
    alloc: Global,
    table: &Table,
    pass: &mut Pass,
    stopped: Stopped,
) -> Vec<Event>
    requires { IsPassOf table.now pass.old }
    ensures { IsPassOf table.now pass.new }
{
    let end = if stopped == Stopped::Insert { 5 } else { 7 };
    fills(rt, table, pass, 1, end);
    empties(rt, table, pass, 5, end);
    fills(rt, table, pass, 256, 257);
    empties(rt, table, pass, 256, 257);
    let mut log = Vec::new(alloc);
    for number in 1..5 {
        let command = Command::Insert(tuple_of(number), number);
        let event = done(0, command, Reply::Inserted);
        log.push(event).expect(rt, "memory");
    }
    log
}

/// How far an attempt went.
#[derive(Clone, Copy)]
struct Stop {
    /// The kind of its last step.
    kind: Option<StepKind>,
    /// How many cells it holds.
    held: u32,
    /// It has made its event.
    told: bool,
    /// It has ended.
    ended: bool,
}

impl Stop {
    /// It made a step of this kind, with an event or not.
    fn note(&mut self, kind: StepKind, told: bool) {
        self.kind = Some(kind);
        self.told = self.told || told;
        match kind {
            StepKind::Upgrade | StepKind::Claim => self.held = self.held.saturating_add(1),
            StepKind::Commit | StepKind::Release => self.held = self.held.saturating_sub(1),
            _ => {}
        }
    }
}

/// So many steps of the attempt, or as many as it has.
fn steps(table: &Table, attempt: &mut Attempt, count: u32) -> Stop
    requires { IsGoing table.now attempt.old }
    ensures { IsGoing table.now attempt.new }
{
    let mut stop = Stop {
        kind: None,
        held: 0,
        told: false,
        ended: false,
    };
    for _ in 0..count {
        match stepped(table, attempt) {
            Progress::Made { kind, event: told } => stop.note(kind, told),
            Progress::Ended => stop.ended = true,
        }
    }
    stop
}

/// A call is answered, or it is busy where the attempt that stopped holds a cell.
fn notes<A>(rt: &impl Abort, told: Result<A, Fault>, held: u32) -> Option<A> {
    match told {
        Ok(answer) => Some(answer),
        Err(fault) => {
            assert!(rt; fault == Fault::Busy && held > 0);
            None
        }
    }
}

/// Each of the four calls, while another pass holds so many cells: what they did.
fn all_calls(rt: &impl Abort, table: &Table, pass: &mut Pass, log: &mut Vec<Event>, held: u32)
    requires { IsPassOf table.now pass.old }
    ensures { IsPassOf table.now pass.new }
{
    if let Some(told) = notes(rt, puts(table, pass, 6, 60), held) {
        let command = Command::Insert(tuple_of(6), 60);
        let event = done(1, command, reply_of_insert(told));
        log.push(event).expect(rt, "memory");
    }
    if let Some(told) = notes(rt, takes(table, pass, 2), held) {
        let event = done(1, Command::Remove(tuple_of(2)), reply_of_remove(told));
        log.push(event).expect(rt, "memory");
    }
    if let Some(told) = notes(rt, finds(table, pass, 4), held) {
        let event = done(1, Command::Get(tuple_of(4)), reply_of_get(told));
        log.push(event).expect(rt, "memory");
    }
    if let Some(seen) = notes(rt, sees(rt, table, pass, 3, &Bound::End), held) {
        let what = deed_of_look(seen);
        log.push(Event { pass: 1, what }).expect(rt, "memory");
    }
}

/// An attempt that stops after so many steps, the calls of another pass, and then the rest of it: what they did is a legal history,
/// which leaves the rows that stand at the close.
fn stops(rt: &impl Abort, alloc: Global, stopped: Stopped, count: u32) -> Stop {
    let (table, mut zero, mut one) = by_two(rt, alloc, "u16", SIDE_BY_SIDE);
    let mut log = prepares(rt, alloc, &table, &mut zero, stopped);
    let mut attempt = begun(&table, zero, job_of(rt, &table, stopped));
    let stop = steps(&table, &mut attempt, count);
    let early = log.len();
    all_calls(rt, &table, &mut one, &mut log, stop.held);
    let place = if stop.told { early } else { log.len() };
    assert!(rt; place <= log.len());
    let (zero, told) = finished(&table, attempt);
    let outcome = told.expect(rt, "an answer");
    let what = deed_of(rt, job_of(rt, &table, stopped), outcome);
    let event = Event { pass: 0, what };
    log.insert(place, event).expect(rt, "memory");
    let end = closed_by_two(rt, alloc, table, zero, one);
    let schema = schema_of(rt, "u16");
    check_history(rt, alloc, &schema, log.as_slice(), end.rows.as_slice());
    stop
}

/// The attempt is stopped after each of its steps: the kinds of these.
fn all_stops(rt: &impl Abort, alloc: Global, stopped: Stopped) -> Vec<StepKind> {
    let mut kinds = Vec::new(alloc);
    for count in 1..MOST {
        let stop = stops(rt, alloc, stopped, count);
        if stop.ended {
            break;
        }
        let kind = stop.kind.expect(rt, "a step");
        kinds.push(kind).expect(rt, "memory");
    }
    kinds
}

/// The attempt is stopped after steps of each of these kinds.
fn check_stops(rt: &impl Abort, alloc: Global, stopped: Stopped, wanted: &[StepKind]) {
    let kinds = all_stops(rt, alloc, stopped);
    for kind in wanted {
        assert_eq!(rt; (*kind, kinds.contains(kind)), (*kind, true));
    }
}

#[test]
fn a_write_is_stopped_after_each_kind_of_step(rt: HostRuntime) {
    let kinds = [
        StepKind::Begin,
        StepKind::Read,
        StepKind::Check,
        StepKind::Upgrade,
        StepKind::Write,
        StepKind::Commit,
        StepKind::Release,
        StepKind::Claim,
        StepKind::Take,
        StepKind::Give,
        StepKind::Epoch,
        StepKind::Pin,
        StepKind::Advance,
        StepKind::Watch,
    ];
    check_stops(&rt, rt.alloc(), Stopped::Insert, &kinds);
    check_stops(&rt, rt.alloc(), Stopped::Remove, &kinds);
}

#[test]
fn a_read_is_stopped_after_each_kind_of_step(rt: HostRuntime) {
    let kinds = [
        StepKind::Epoch,
        StepKind::Pin,
        StepKind::Begin,
        StepKind::Read,
        StepKind::Check,
    ];
    check_stops(&rt, rt.alloc(), Stopped::Get, &kinds);
    check_stops(&rt, rt.alloc(), Stopped::Look, &kinds);
}

/// The attempt is given up: it comes back exactly where it holds a cell or has made its event, and goes on to its end then. How many
/// rows are left.
fn gives_up(
    rt: &impl Abort,
    table: &Table,
    attempt: Attempt,
    stop: Stop,
    stopped: Stopped,
) -> (Pass, usize)
    requires { IsGoing table.now attempt }
    ensures { IsPassOf table.now result.0 }
{
    match given_up(table, attempt) {
        Ok(pass) => {
            assert!(rt; stop.held == 0 && !stop.told);
            (pass, 4)
        }
        Err(attempt) => {
            assert!(rt; stop.held > 0 || stop.told);
            let (pass, _) = finished(table, attempt);
            match stopped {
                Stopped::Insert => (pass, 5),
                Stopped::Remove => (pass, 3),
                Stopped::Get | Stopped::Look => (pass, 4),
            }
        }
    }
}

/// An attempt that is given up after so many steps leaves the rows as before it, and all numbers accounted for; its pass goes on. It has
/// ended before.
fn abandons(rt: &impl Abort, alloc: Global, stopped: Stopped, count: u32) -> bool {
    let (table, mut zero, one) = by_two(rt, alloc, "u16", SIDE_BY_SIDE);
    let _ = prepares(rt, alloc, &table, &mut zero, stopped);
    let mut attempt = begun(&table, zero, job_of(rt, &table, stopped));
    let stop = steps(&table, &mut attempt, count);
    let (mut zero, left) = gives_up(rt, &table, attempt, stop, stopped);
    check_find(rt, &table, &mut zero, 1, Ok(Some(1)));
    let end = closed_by_two(rt, alloc, table, zero, one);
    check_count(rt, &end, left);
    check_whole(rt, &end, SIDE_BY_SIDE);
    stop.ended
}

/// The attempt is given up after each of its steps.
fn check_given_up(rt: &impl Abort, alloc: Global, stopped: Stopped) {
    for count in 0..MOST {
        if abandons(rt, alloc, stopped, count) {
            break;
        }
    }
}

#[test]
fn an_attempt_is_given_up_where_it_holds_and_told_nothing(rt: HostRuntime) {
    for stopped in [
        Stopped::Insert,
        Stopped::Remove,
        Stopped::Get,
        Stopped::Look,
    ] {
        check_given_up(&rt, rt.alloc(), stopped);
    }
}
