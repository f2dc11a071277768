//! Four attempts go on by drawn turns: what they did, in the order in which it was made, is a legal history.
ghost use Rattle.art_table.specs.Jobs.{IsRange};
ghost use Rattle.art_table.specs.Tables.{AreOf, IsPassOf};
ghost use Rattle.art_table_uses.specs.Clients.{IsGoing};
ghost use Rattle.art_table_uses.specs.Turns.{AreGoing};

use crate::attempts::{begun, finished, look_from, stepped};
use crate::events::{check_history, deed_of};
use crate::tables::{SIDE_BY_SIDE, closed, last_of, opened, schema_of, tuple_of, with_last};
use art_key::Event;
use art_table::{Attempt, Closed, Config, Job, Pass, Progress, Table};
use rand_pcg::Pcg32;
use rand_pcg::rand_core::{Rng, SeedableRng};
use std::alloc::Global;
use std::process::Abort;

const FOUR_PASSES: Config = Config {
    passes: 4,
    ..SIDE_BY_SIDE
};

/// More steps than an attempt makes.
const MOST: u32 = 3_000;

/// What was done, in the order in which it was made: an event comes to its place when its call is answered.
type Log = Vec<Option<Event>>;

/// What a pass is to do, over few keys.
#[derive(Clone, Copy)]
enum Wish {
    Insert(u8, u64),
    Remove(u8),
    Get(u8),
    /// From the row of a number on.
    Look(u8),
}

/// An attempt, what it is to do, and where its event stands, once it was made.
struct Actor {
    attempt: Attempt,
    wish: Wish,
    place: Option<usize>,
}

/// A drawn wish: an insert half of the time.
fn draw(numbers: &mut Pcg32) -> Wish {
    let number = (numbers.next_u32() % 40) as u8;
    match numbers.next_u32() % 8 {
        0 | 1 | 2 | 3 => Wish::Insert(number, numbers.next_u64()),
        4 | 5 => Wish::Remove(number),
        6 => Wish::Get(number),
        _ => Wish::Look(number),
    }
}

/// The job of a wish.
fn job_of(rt: &impl Abort, table: &Table, wish: Wish) -> Job
    ensures { IsRange result }
{
    match wish {
        Wish::Insert(number, value) => Job::Insert {
            tuple: tuple_of(u64::from(number)),
            value,
        },
        Wish::Remove(number) => Job::Remove(tuple_of(u64::from(number))),
        Wish::Get(number) => Job::Get(tuple_of(u64::from(number))),
        Wish::Look(number) => look_from(rt, table, u64::from(number)),
    }
}

/// An attempt, of which no step is made yet.
fn begins(rt: &impl Abort, table: &Table, pass: Pass, wish: Wish) -> Actor
    requires { IsPassOf table.now pass }
    ensures { IsGoing table.now result.attempt }
{
    let attempt = begun(table, pass, job_of(rt, table, wish));
    Actor {
        attempt,
        wish,
        place: None,
    }
}

/// A step of the attempt: whether it has ended.
fn steps(rt: &impl Abort, table: &Table, actor: &mut Actor, log: &mut Log) -> bool
    requires { IsGoing table.now actor.old.attempt }
    ensures { IsGoing table.now actor.new.attempt }
{
    match stepped(table, &mut actor.attempt) {
        Progress::Made { event: told, .. } => {
            if told {
                assert!(rt; actor.place.is_none());
                actor.place = Some(log.len());
                log.push(None).expect(rt, "memory");
            }
            false
        }
        Progress::Ended => true,
    }
}

/// All steps that are left.
fn runs_out(rt: &impl Abort, table: &Table, actor: &mut Actor, log: &mut Log)
    requires { IsGoing table.now actor.old.attempt }
    ensures { IsGoing table.now actor.new.attempt }
{
    for _ in 0..MOST {
        if steps(rt, table, actor, log) {
            return;
        }
    }
}

/// The attempt is answered, and its event comes to its place.
fn ends(rt: &impl Abort, table: &Table, actor: Actor, log: &mut Log) -> Pass
    requires { IsGoing table.now actor.attempt }
    ensures { IsPassOf table.now result }
{
    let Actor {
        attempt,
        wish,
        place,
    } = actor;
    let (pass, told) = finished(table, attempt);
    let outcome = told.expect(rt, "an answer");
    let place = place.expect(rt, "an event");
    let what = deed_of(rt, job_of(rt, table, wish), outcome);
    let event = Event {
        pass: pass.number(),
        what,
    };
    *log.get_mut(place).expect(rt, "its place") = Some(event);
    pass
}

/// A step of the attempt; where it has ended, the pass begins another.
fn turn(rt: &impl Abort, table: &Table, mut actor: Actor, next: Wish, log: &mut Log) -> Actor
    requires { IsGoing table.now actor.attempt }
    ensures { IsGoing table.now result.attempt }
{
    if !steps(rt, table, &mut actor, log) {
        return actor;
    }
    let pass = ends(rt, table, actor, log);
    begins(rt, table, pass, next)
}

/// Four passes, each with an attempt.
struct Four {
    zero: Actor,
    one: Actor,
    two: Actor,
    three: Actor,
}

/// Four attempts, of which no step is made yet.
fn all_begin(rt: &impl Abort, table: &Table, passes: Vec<Pass>) -> Four
    requires { AreOf table.now passes.items }
    ensures { AreGoing table.now result.zero.attempt result.one.attempt result.two.attempt result.three.attempt }
{
    let mut passes = passes;
    let first = Wish::Get(0);
    let three = begins(rt, table, last_of(rt, table, &mut passes), first);
    let two = begins(rt, table, last_of(rt, table, &mut passes), first);
    let one = begins(rt, table, last_of(rt, table, &mut passes), first);
    let zero = begins(rt, table, last_of(rt, table, &mut passes), first);
    Four {
        zero,
        one,
        two,
        three,
    }
}

/// A turn of one of the four.
fn turn_of(
    rt: &impl Abort,
    table: &Table,
    four: Four,
    which: u32,
    next: Wish,
    log: &mut Log,
) -> Four
    requires { AreGoing table.now four.zero.attempt four.one.attempt four.two.attempt four.three.attempt }
    ensures { AreGoing table.now result.zero.attempt result.one.attempt result.two.attempt result.three.attempt }
{
    let Four {
        zero,
        one,
        two,
        three,
    } = four;
    match which {
        0 => Four {
            zero: turn(rt, table, zero, next, log),
            one,
            two,
            three,
        },
        1 => Four {
            zero,
            one: turn(rt, table, one, next, log),
            two,
            three,
        },
        2 => Four {
            zero,
            one,
            two: turn(rt, table, two, next, log),
            three,
        },
        _ => Four {
            zero,
            one,
            two,
            three: turn(rt, table, three, next, log),
        },
    }
}

/// So many drawn turns.
fn all_turn(rt: &impl Abort, table: &Table, four: Four, count: u32, log: &mut Log) -> Four
    requires { AreGoing table.now four.zero.attempt four.one.attempt four.two.attempt four.three.attempt }
    ensures { AreGoing table.now result.zero.attempt result.one.attempt result.two.attempt result.three.attempt }
{
    let mut numbers = Pcg32::seed_from_u64(1);
    let mut four = four;
    for _ in 0..count {
        let next = draw(&mut numbers);
        let which = numbers.next_u32() % 4;
        four = turn_of(rt, table, four, which, next, log);
    }
    four
}

/// All that is left of an attempt.
fn rest_of(rt: &impl Abort, table: &Table, actor: Actor, log: &mut Log) -> Pass
    requires { IsGoing table.now actor.attempt }
    ensures { IsPassOf table.now result }
{
    let mut actor = actor;
    runs_out(rt, table, &mut actor, log);
    ends(rt, table, actor, log)
}

/// All that is left of the four.
fn all_end(rt: &impl Abort, alloc: Global, table: &Table, four: Four, log: &mut Log) -> Vec<Pass>
    requires { AreGoing table.now four.zero.attempt four.one.attempt four.two.attempt four.three.attempt }
    ensures { AreOf table.now result.items }
{
    let Four {
        zero,
        one,
        two,
        three,
    } = four;
    let passes = Vec::new(alloc);
    let passes = with_last(rt, table, passes, rest_of(rt, table, zero, log));
    let passes = with_last(rt, table, passes, rest_of(rt, table, one, log));
    let passes = with_last(rt, table, passes, rest_of(rt, table, two, log));
    with_last(rt, table, passes, rest_of(rt, table, three, log))
}

/// The events, of which each has come to its place.
fn events_of(rt: &impl Abort, alloc: Global, log: Log) -> Vec<Event> {
    let mut events = Vec::new(alloc);
    for slot in log {
        let event = slot.expect(rt, "an event at each place");
        events.push(event).expect(rt, "memory");
    }
    events
}

/// What was done is a legal history, and leaves the rows at the close.
fn check_log(rt: &impl Abort, alloc: Global, log: Log, end: &Closed) {
    let events = events_of(rt, alloc, log);
    assert!(rt; events.len() > 50);
    let schema = schema_of(rt, "u8");
    check_history(rt, alloc, &schema, &events, end.rows.as_slice());
}

#[test]
fn four_attempts_by_drawn_turns_are_legal(rt: HostRuntime) {
    let (table, passes) = opened(&rt, rt.alloc(), "u8", FOUR_PASSES);
    let mut log: Log = Vec::new(rt.alloc());
    let four = all_begin(&rt, &table, passes);
    let four = all_turn(&rt, &table, four, 10_000, &mut log);
    let passes = all_end(&rt, rt.alloc(), &table, four, &mut log);
    let end = closed(&rt, rt.alloc(), table, passes);
    check_log(&rt, rt.alloc(), log, &end);
}
