//! A pass that stays pinned holds up what others want back.
ghost use Rattle.art_table.specs.Tables.{IsPassOf};
ghost use Rattle.art_table_uses.specs.Clients.{IsGoing};

use crate::attempts::{begun, finished, stepped};
use crate::tables::{
    SIDE_BY_SIDE, by_two, check_count, check_put, check_take, closed_by_two, tuple_of,
};
use art_epoch::Blocker;
use art_step::StepKind;
use art_table::{Attempt, Fault, Inserted, Job, Outcome, Pass, Progress, Table};
use std::process::Abort;

/// The next step of the attempt is of this kind, and makes no event.
fn check_step(rt: &impl Abort, table: &Table, attempt: &mut Attempt, kind: StepKind)
    requires { IsGoing table.now attempt.old }
    ensures { IsGoing table.now attempt.new }
{
    let wanted = Progress::Made { kind, event: false };
    assert_eq!(rt; stepped(table, attempt), wanted);
}

/// A get of the row of a number, after its pin.
fn pinned(rt: &impl Abort, table: &Table, pass: Pass, number: u64) -> Attempt
    requires { IsPassOf table.now pass }
    ensures { IsGoing table.now result }
{
    let mut attempt = begun(table, pass, Job::Get(tuple_of(number)));
    check_step(rt, table, &mut attempt, StepKind::Epoch);
    check_step(rt, table, &mut attempt, StepKind::Pin);
    attempt
}

/// The attempt never began anew.
fn check_restarts(rt: &impl Abort, attempt: &Attempt) {
    assert_eq!(rt; attempt.restarts(), 0);
}

/// All steps that are left of the attempt, which is answered so.
fn ends(rt: &impl Abort, table: &Table, attempt: Attempt, wanted: Result<Outcome, Fault>) -> Pass
    requires { IsGoing table.now attempt }
    ensures { IsPassOf table.now result }
{
    let (pass, told) = finished(table, attempt);
    assert_eq!(rt; told, wanted);
    pass
}

/// So many times the row of a number is inserted and removed again.
fn comes_and_goes(rt: &impl Abort, table: &Table, pass: &mut Pass, number: u64, times: u32)
    requires { IsPassOf table.now pass.old }
    ensures { IsPassOf table.now pass.new }
{
    for _ in 0..times {
        check_put(rt, table, pass, number, 1, Ok(Inserted::New));
        check_take(rt, table, pass, number, Ok(Some(1)));
    }
}

/// A get is held after its pin: 61 numbers in limbo leave three places of 64, and four are needed.
#[test]
fn a_pass_that_stays_pinned_crowds_another(rt: HostRuntime) {
    let (table, zero, mut one) = by_two(&rt, rt.alloc(), "u8", SIDE_BY_SIDE);
    let attempt = pinned(&rt, &table, zero, 1);
    comes_and_goes(&rt, &table, &mut one, 1, 61);
    let blocker = Blocker { pass: 0, epoch: 1 };
    let crowded = Err(Fault::Crowded(blocker));
    check_put(&rt, &table, &mut one, 1, 1, crowded);
    check_restarts(&rt, &attempt);
    let zero = ends(&rt, &table, attempt, Ok(Outcome::Absent));
    check_put(&rt, &table, &mut one, 1, 1, Ok(Inserted::New));
    let end = closed_by_two(&rt, rt.alloc(), table, zero, one);
    check_count(&rt, &end, 1);
}
