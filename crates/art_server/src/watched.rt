//! A command of a session: at once where nobody watches, and else step by step.
ghost use Rattle.std.specs.Prelude.{◌≡◌, ℕ, Ok, Err};
ghost use Rattle.art_lines.specs.Readers.{lower_in, upper_in};
ghost use Rattle.art_lines.specs.Verbs.{command_of};
ghost use Rattle.art_scan.specs.Endings.{CommandEnds};
ghost use Rattle.art_server.specs.Replies.{IsPrintable, reply_of, reply_with};
ghost use Rattle.art_server.specs.Sessions.{AnswersCommand, AnswersJob, AnswersScan, most_turns};
ghost use Rattle.art_scan.specs.ArtTable.Tables.{IsPassOf};
ghost use Rattle.art_scan.specs.ArtTable.declared.jobs.Job.TheVariants as jobs;

use crate::endings::head_of;
use crate::replies::ReplyHead;
use crate::{Gate, Refusal};
use arrayvec::ArrayVec;
use art_lines::{LineReader, Verb};
use art_model::{Answer, Command, Row, Tuple};
use art_scan::art_table::{Inserted, Pass, Progress, Table, get, insert, remove};
use art_scan::{Ending, More, scan, start_command};

/// The most turns of one command.
const TURNS: u32 = 1_000_000;

/// Does the command that was read, whose tuples stand in the reader. The rows of a scan are left beside the reply.
pub(crate) fn do_command<G: Gate>(
    table: &Table,
    pass: Pass,
    verb: Verb,
    reader: &mut LineReader,
    rows: &mut ArrayVec<Row, 100>,
    gate: &G,
) -> (Pass, Result<ReplyHead, Refusal>)
    requires { IsPassOf table.now pass }
    ensures pass { IsPassOf table.now result.0 }
    ensures answers { AnswersCommand table.now (command_of verb (lower_in reader.old) (upper_in reader.old)) pass
        (reply_with rows.new.items result.1) result.0 }
    ensures printable { IsPrintable (reply_with rows.new.items result.1) }
{
    if !gate.watches() {
        let mut pass = pass;
        let head = run_command(table, &mut pass, verb, reader, rows);
        return (pass, head);
    }
    let (pass, ending) = watch_command(table, pass, reader.take(verb), rows, gate);
    (pass, head_of(&ending))
}

/// Makes the steps of the command one by one, and tells the gate of each.
fn watch_command<G: Gate>(
    table: &Table,
    pass: Pass,
    command: Command,
    rows: &mut ArrayVec<Row, 100>,
    gate: &G,
) -> (Pass, Ending)
    requires { IsPassOf table.now pass }
    ensures pass { IsPassOf table.now result.0 }
    ensures ends { CommandEnds table.now command most_turns pass rows.new.items result.1 result.0 }
{
    let number = pass.number();
    let mut running = start_command(table, pass, command, TURNS, rows);
    'steps: for _ in 0..u64::MAX {
        match running.step(table, rows) {
            Progress::Made { kind, .. } => gate.after(number, kind),
            Progress::Ended => break,
        }
    }
    running.finish(table, rows)
}

/// Does the command by a call of the pass, or a scan of it.
fn run_command(
    table: &Table,
    pass: &mut Pass,
    verb: Verb,
    reader: &LineReader,
    rows: &mut ArrayVec<Row, 100>,
) -> Result<ReplyHead, Refusal>
    requires { IsPassOf table.now pass.old }
    ensures pass { IsPassOf table.now pass.new }
    ensures answers { AnswersCommand table.now (command_of verb (lower_in reader.now) (upper_in reader.now)) pass.old
        (reply_with rows.new.items result) pass.new }
    ensures printable { IsPrintable (reply_with rows.new.items result) }
{
    let tuple = reader.lower();
    match verb {
        Verb::Insert(value) => Ok(ReplyHead::Answer(run_insert(table, pass, tuple, value)?)),
        Verb::Remove => Ok(ReplyHead::Answer(run_remove(table, pass, tuple)?)),
        Verb::Get => Ok(ReplyHead::Answer(run_get(table, pass, tuple)?)),
        Verb::Scan(limit) => run_scan(table, pass, tuple, reader.upper(), limit, rows),
    }
}

fn run_insert(table: &Table, pass: &mut Pass, tuple: &Tuple, value: u64) -> Result<Answer, Refusal>
    requires { IsPassOf table.now pass.old }
    ensures pass { IsPassOf table.now pass.new }
    ensures answers { AnswersJob table.now (jobs.Insert tuple.now value) pass.old (reply_of result) pass.new }
{
    match insert(table, pass, tuple, value, TURNS) {
        Ok(Inserted::New) => Ok(Answer::Inserted),
        Ok(Inserted::Present(stored)) => Ok(Answer::Present(stored)),
        Err(fault) => Err(fault.refusal()),
    }
}

fn run_remove(table: &Table, pass: &mut Pass, tuple: &Tuple) -> Result<Answer, Refusal>
    requires { IsPassOf table.now pass.old }
    ensures pass { IsPassOf table.now pass.new }
    ensures answers { AnswersJob table.now (jobs.Remove tuple.now) pass.old (reply_of result) pass.new }
{
    match remove(table, pass, tuple, TURNS) {
        Ok(Some(value)) => Ok(Answer::Removed(value)),
        Ok(None) => Ok(Answer::Absent),
        Err(fault) => Err(fault.refusal()),
    }
}

fn run_get(table: &Table, pass: &mut Pass, tuple: &Tuple) -> Result<Answer, Refusal>
    requires { IsPassOf table.now pass.old }
    ensures pass { IsPassOf table.now pass.new }
    ensures answers { AnswersJob table.now (jobs.Get tuple.now) pass.old (reply_of result) pass.new }
{
    match get(table, pass, tuple, TURNS) {
        Ok(Some(value)) => Ok(Answer::Found(value)),
        Ok(None) => Ok(Answer::Absent),
        Err(fault) => Err(fault.refusal()),
    }
}

fn run_scan(
    table: &Table,
    pass: &mut Pass,
    lo: &Tuple,
    hi: &Tuple,
    limit: u64,
    rows: &mut ArrayVec<Row, 100>,
) -> Result<ReplyHead, Refusal>
    requires { IsPassOf table.now pass.old }
    ensures pass { IsPassOf table.now pass.new }
    ensures answers { AnswersScan table.now lo.now hi.now limit pass.old (reply_with rows.new.items result) pass.new }
    ensures printable { IsPrintable (reply_with rows.new.items result) }
{
    match scan(table, pass, lo, hi, limit, TURNS, rows) {
        Ok(More::Limit) => Ok(ReplyHead::Rows(true)),
        Ok(More::End) => Ok(ReplyHead::Rows(false)),
        Err(fault) => Err(Refusal::from(fault)),
    }
}
