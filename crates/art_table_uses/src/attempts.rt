//! Attempts of a table, whatever they were asked for.
ghost use Rattle.std.specs.Prelude.{IfErr, IfOk};
ghost use Rattle.art_table.specs.Jobs.{IsRange};
ghost use Rattle.art_table.specs.Tables.{IsPassOf};
ghost use Rattle.art_table_uses.specs.Clients.{IsGoing};

use crate::tables::{TURNS, key_of, tuple_of};
use art_key::Bound;
use art_table::{Attempt, Fault, Job, Outcome, Pass, Progress, Table, start};
use std::process::Abort;

/// The job of a look from the key of a number on, to the end.
pub(crate) fn look_from(rt: &impl Abort, table: &Table, number: u64) -> Job
    ensures { IsRange result }
{
    let key = key_of(rt, table.schema(), &tuple_of(number));
    Job::Look {
        lo: Bound::At(key),
        hi: Bound::End,
    }
}

/// An attempt of the job, of which no step is made yet.
pub(crate) fn begun(table: &Table, pass: Pass, job: Job) -> Attempt
    requires pass { IsPassOf table.now pass }
    requires range { IsRange job }
    ensures { IsGoing table.now result }
{
    start(table, pass, job, TURNS)
}

/// Its next step.
pub(crate) fn stepped(table: &Table, attempt: &mut Attempt) -> Progress
    requires { IsGoing table.now attempt.old }
    ensures { IsGoing table.now attempt.new }
{
    attempt.step(table)
}

/// All steps that are left.
pub(crate) fn finished(table: &Table, attempt: Attempt) -> (Pass, Result<Outcome, Fault>)
    requires { IsGoing table.now attempt }
    ensures { IsPassOf table.now result.0 }
{
    attempt.finish(table)
}

/// It is given up, or comes back.
pub(crate) fn given_up(table: &Table, attempt: Attempt) -> Result<Pass, Attempt>
    requires { IsGoing table.now attempt }
    ensures pass { IfOk result (λ q. IsPassOf table.now q) }
    ensures back { IfErr result (λ a. IsGoing table.now a) }
{
    attempt.abandon(table)
}
