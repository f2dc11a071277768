//! Commands that are made step by step: scans whose looks stand apart, and calls.
ghost use Rattle.std.specs.Prelude.{IfErr, IfOk};
ghost use Rattle.art_table.specs.Tables.{IsPassOf};
ghost use Rattle.art_table_uses.specs.Clients.{IsUnderWay};

use crate::tables::{
    SIDE_BY_SIDE, TURNS, alone, by_two, check_count, check_put, check_take, closed_by_two, fills,
    last_of, opened, row_of, tuple_of, with_last,
};
use arrayvec::ArrayVec;
use art_key::ValueFault;
use art_model::{Command, Row};
use art_scan::{Ending, More, Running, ScanFault, start_command};
use art_step::StepKind;
use art_table::{Fault, Inserted, Outcome, Pass, Progress, Table};
use std::process::Abort;

/// More steps than a command here makes.
const MOST: u32 = 300;

/// The command is begun.
fn begun(table: &Table, pass: Pass, command: Command, rows: &mut ArrayVec<Row, 100>) -> Running
    requires { IsPassOf table.now pass }
    ensures { IsUnderWay table.now result rows.new.items }
{
    start_command(table, pass, command, TURNS, rows)
}

/// Its next step.
fn stepped(table: &Table, running: &mut Running, rows: &mut ArrayVec<Row, 100>) -> Progress
    requires { IsUnderWay table.now running.old rows.old.items }
    ensures { IsUnderWay table.now running.new rows.new.items }
{
    running.step(table, rows)
}

/// All steps that are left.
fn finished(table: &Table, running: Running, rows: &mut ArrayVec<Row, 100>) -> (Pass, Ending)
    requires { IsUnderWay table.now running rows.old.items }
    ensures { IsPassOf table.now result.0 }
{
    running.finish(table, rows)
}

/// It is given up; or it comes back, and all steps that are left are made: then how it ended.
fn given_up(
    table: &Table,
    running: Running,
    rows: &mut ArrayVec<Row, 100>,
) -> (Pass, Option<Ending>)
    requires { IsUnderWay table.now running rows.old.items }
    ensures { IsPassOf table.now result.0 }
{
    match abandoned(table, running, rows) {
        Ok(pass) => (pass, None),
        Err(running) => {
            let (pass, ending) = finished(table, running, rows);
            (pass, Some(ending))
        }
    }
}

/// It is given up, or comes back.
fn abandoned(
    table: &Table,
    running: Running,
    rows: &mut ArrayVec<Row, 100>,
) -> Result<Pass, Running>
    requires { IsUnderWay table.now running rows.old.items }
    ensures pass { IfOk result (λ q. IsPassOf table.now q) }
    ensures back { IfErr result (λ r. IsUnderWay table.now r rows.new.items) }
{
    running.abandon(table, rows)
}

/// Steps until so many events were made, or none is left: how many steps.
fn until_events(
    table: &Table,
    running: &mut Running,
    rows: &mut ArrayVec<Row, 100>,
    count: u32,
) -> u32
    requires { IsUnderWay table.now running.old rows.old.items }
    ensures { IsUnderWay table.now running.new rows.new.items }
{
    let mut events = 0_u32;
    for made in 0..MOST {
        if events == count {
            return made;
        }
        match stepped(table, running, rows) {
            Progress::Made { event: true, .. } => events = events.saturating_add(1),
            Progress::Made { event: false, .. } => {}
            Progress::Ended => return made,
        }
    }
    MOST
}

/// Its next step is answered so.
fn check_step(
    rt: &impl Abort,
    table: &Table,
    running: &mut Running,
    rows: &mut ArrayVec<Row, 100>,
    wanted: Progress,
)
    requires { IsUnderWay table.now running.old rows.old.items }
    ensures { IsUnderWay table.now running.new rows.new.items }
{
    assert_eq!(rt; stepped(table, running, rows), wanted);
}

/// Its first event is made at this step.
fn check_first_event(
    rt: &impl Abort,
    table: &Table,
    running: &mut Running,
    rows: &mut ArrayVec<Row, 100>,
    wanted: u32,
)
    requires { IsUnderWay table.now running.old rows.old.items }
    ensures { IsUnderWay table.now running.new rows.new.items }
{
    assert_eq!(rt; until_events(table, running, rows, 1), wanted);
}

/// Its steps come to an end.
fn check_steps(rt: &impl Abort, table: &Table, running: &mut Running, rows: &mut ArrayVec<Row, 100>)
    requires { IsUnderWay table.now running.old rows.old.items }
    ensures { IsUnderWay table.now running.new rows.new.items }
{
    let made = until_events(table, running, rows, MOST);
    assert!(rt; made < MOST);
}

/// All steps that are left, after which it ends so.
fn ends(
    rt: &impl Abort,
    table: &Table,
    running: Running,
    rows: &mut ArrayVec<Row, 100>,
    wanted: Ending,
) -> Pass
    requires { IsUnderWay table.now running rows.old.items }
    ensures { IsPassOf table.now result }
{
    let (pass, ending) = finished(table, running, rows);
    assert_eq!(rt; ending, wanted);
    pass
}

/// It is given up, with no ending; or it comes back, and ends so.
fn gives_up(
    rt: &impl Abort,
    table: &Table,
    running: Running,
    rows: &mut ArrayVec<Row, 100>,
    wanted: Option<Ending>,
) -> Pass
    requires { IsUnderWay table.now running rows.old.items }
    ensures { IsPassOf table.now result }
{
    let (pass, ending) = given_up(table, running, rows);
    assert_eq!(rt; ending, wanted);
    pass
}

/// The command is begun, and ends so.
fn makes(
    rt: &impl Abort,
    table: &Table,
    pass: Pass,
    command: Command,
    rows: &mut ArrayVec<Row, 100>,
    wanted: Ending,
) -> Pass
    requires { IsPassOf table.now pass }
    ensures { IsPassOf table.now result }
{
    let running = begun(table, pass, command, rows);
    ends(rt, table, running, rows, wanted)
}

/// The command is begun, its first step is answered so, and then it ends so.
fn steps_and_ends(
    rt: &impl Abort,
    table: &Table,
    pass: Pass,
    command: Command,
    rows: &mut ArrayVec<Row, 100>,
    wanted: (Progress, Ending),
) -> Pass
    requires { IsPassOf table.now pass }
    ensures { IsPassOf table.now result }
{
    let mut running = begun(table, pass, command, rows);
    check_step(rt, table, &mut running, rows, wanted.0);
    ends(rt, table, running, rows, wanted.1)
}

/// A scan of the rows of the numbers 0 to 9.
fn scan_of_ten(limit: u64) -> Command {
    Command::Scan(tuple_of(0), tuple_of(9), limit)
}

/// The list has the rows of just these numbers, which are their values.
fn check_rows(rt: &impl Abort, rows: &ArrayVec<Row, 100>, numbers: &[u64]) {
    assert_eq!(rt; rows.len(), numbers.len());
    for (row, number) in rows.as_slice().iter().zip(numbers.iter()) {
        assert_eq!(rt; *row, row_of(*number, *number));
    }
}

/// The command never began anew.
fn check_restarts(rt: &impl Abort, running: &Running) {
    assert_eq!(rt; running.restarts(), 0);
}

/// There are so many passes.
fn check_passes(rt: &impl Abort, passes: &[Pass], wanted: usize) {
    assert_eq!(rt; passes.len(), wanted);
}

/// The pass has this number.
fn check_number(rt: &impl Abort, pass: &Pass, wanted: u32) {
    assert_eq!(rt; pass.number(), wanted);
}

/// Between two looks of a scan one row goes, and another comes: three rows are listed that stood together at no moment.
#[test]
fn a_scan_sees_what_comes_between_its_looks(rt: HostRuntime) {
    let (table, zero, mut one) = by_two(&rt, rt.alloc(), "u8", SIDE_BY_SIDE);
    check_put(&rt, &table, &mut one, 1, 1, Ok(Inserted::New));
    check_put(&rt, &table, &mut one, 5, 5, Ok(Inserted::New));
    let mut rows = ArrayVec::new();
    let mut running = begun(&table, zero, scan_of_ten(100), &mut rows);
    check_first_event(&rt, &table, &mut running, &mut rows, 15);
    check_take(&rt, &table, &mut one, 1, Ok(Some(1)));
    check_put(&rt, &table, &mut one, 2, 2, Ok(Inserted::New));
    check_restarts(&rt, &running);
    let end = Ending::Scan(Ok(More::End));
    let zero = ends(&rt, &table, running, &mut rows, end);
    check_rows(&rt, &rows, &[1, 2, 5]);
    let end = closed_by_two(&rt, rt.alloc(), table, zero, one);
    check_count(&rt, &end, 2);
}

/// Step by step to its end, a scan lists what it lists at once, and has no step left then.
#[test]
fn a_scan_by_single_steps_ends_as_at_once(rt: HostRuntime) {
    let (table, mut passes) = opened(&rt, rt.alloc(), "u8", SIDE_BY_SIDE);
    let mut one = last_of(&rt, &table, &mut passes);
    fills(&rt, &table, &mut one, 1, 6);
    let mut rows = ArrayVec::new();
    let mut running = begun(&table, one, scan_of_ten(3), &mut rows);
    check_steps(&rt, &table, &mut running, &mut rows);
    check_step(&rt, &table, &mut running, &mut rows, Progress::Ended);
    let limit = Ending::Scan(Ok(More::Limit));
    let one = ends(&rt, &table, running, &mut rows, limit);
    check_rows(&rt, &rows, &[1, 2, 3]);
    let passes = with_last(&rt, &table, passes, one);
    check_passes(&rt, &passes, 2);
}

/// A scan of the pass that is given up after so many of its events ends so, with these rows in its list.
fn gives_up_after(
    rt: &impl Abort,
    table: &Table,
    pass: Pass,
    events: u32,
    wanted: Option<Ending>,
    numbers: &[u64],
) -> Pass
    requires { IsPassOf table.now pass }
    ensures { IsPassOf table.now result }
{
    let mut rows = ArrayVec::new();
    let mut running = begun(table, pass, scan_of_ten(100), &mut rows);
    let _ = until_events(table, &mut running, &mut rows, events);
    let pass = gives_up(rt, table, running, &mut rows, wanted);
    check_rows(rt, &rows, numbers);
    pass
}

/// A scan of three rows, so of four looks, is given up after each of its steps: until its last look is decided.
#[test]
fn a_scan_is_given_up_until_its_last_look_is_decided(rt: HostRuntime) {
    let (table, mut one) = alone(&rt, rt.alloc(), "u8", SIDE_BY_SIDE);
    fills(&rt, &table, &mut one, 1, 4);
    for events in 0..4 {
        one = gives_up_after(&rt, &table, one, events, None, &[]);
    }
    let end = Ending::Scan(Ok(More::End));
    let _ = gives_up_after(&rt, &table, one, 4, Some(end), &[1, 2, 3]);
}

/// What is wrong with a command is its outcome, and no step is made.
#[test]
fn commands_that_are_refused_make_no_step(rt: HostRuntime) {
    let (table, one) = alone(&rt, rt.alloc(), "u8", SIDE_BY_SIDE);
    let mut rows = ArrayVec::new();
    let limit = Ending::Scan(Err(ScanFault::BadLimit));
    let told = (Progress::Ended, limit);
    let one = steps_and_ends(&rt, &table, one, scan_of_ten(101), &mut rows, told);
    let range = Command::Scan(tuple_of(9), tuple_of(0), 9);
    let told = Ending::Scan(Err(ScanFault::BadRange));
    let one = makes(&rt, &table, one, range, &mut rows, told);
    let wide = Command::Get(tuple_of(256));
    let fault = Fault::Value(ValueFault::OutOfRange(0));
    let told = (Progress::Ended, Ending::Call(Err(fault)));
    let one = steps_and_ends(&rt, &table, one, wide, &mut rows, told);
    let running = begun(&table, one, scan_of_ten(0), &mut rows);
    let one = gives_up(&rt, &table, running, &mut rows, None);
    check_number(&rt, &one, 1);
}

/// Each kind of call, as a command: it ends as the call does.
#[test]
fn calls_are_commands(rt: HostRuntime) {
    let (table, one) = alone(&rt, rt.alloc(), "u8", SIDE_BY_SIDE);
    let mut rows = ArrayVec::new();
    let insert = Command::Insert(tuple_of(5), 9);
    let first = Progress::Made {
        kind: StepKind::Epoch,
        event: false,
    };
    let told = (first, Ending::Call(Ok(Outcome::New)));
    let one = steps_and_ends(&rt, &table, one, insert, &mut rows, told);
    let found = Ending::Call(Ok(Outcome::Found(9)));
    let get = Command::Get(tuple_of(5));
    let one = makes(&rt, &table, one, get, &mut rows, found);
    let removed = Ending::Call(Ok(Outcome::Removed(9)));
    let remove = Command::Remove(tuple_of(5));
    let one = makes(&rt, &table, one, remove, &mut rows, removed);
    check_number(&rt, &one, 1);
}
