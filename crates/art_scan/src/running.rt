//! Commands that are made step by step.
ghost use Rattle.std.specs.Prelude.{◌≡◌, ℕ, IfErr, IfOk, OnOk, []};
ghost use Rattle.art_model.specs.declared.commands.Command.{Command as CommandOf};
ghost use Rattle.art_key.specs.Bounds.{is_before};
ghost use Rattle.art_scan.specs.Endings.{CommandEnds};
ghost use Rattle.art_scan.specs.Running.{HasDecided, HasNoStep, IsFree, IsGivenUp, IsRunning, restarts_in, view_in};
ghost use Rattle.art_table.specs.Attempts.{Progresses};
ghost use Rattle.art_table.specs.Calls.{IsAttempt};
ghost use Rattle.art_table.specs.Tables.{IsPassOf, sizes_in, view_of};
ghost use Rattle.art_table.specs.declared.jobs.Job.TheVariants.{Look as look_job};
ghost use Rattle.art_table.specs.declared.passes.Pass.{Pass as PassOf};

use crate::looking::Looking;
use crate::tilings::Tiling;
use crate::{More, ScanFault};
use arrayvec::ArrayVec;
use art_model::{Command, Row};
use art_table::{Attempt, Fault, Job, Outcome, Pass, Progress, Table, start};

/// How a command ended. The rows of a scan stand in the list that was lent to it.
#[derive(Debug, PartialEq, Eq, Drop)]
pub enum Ending {
    /// An insert, a removal or a get: its answer, or why it was refused.
    Call(Result<Outcome, Fault>),
    /// A scan: whether it stopped at its limit, or why it was refused.
    Scan(Result<More, ScanFault>),
}

/// A command that is under way, with the pass that makes it. It must be finished or abandoned.
pub struct Running {
    pub(crate) stage: Stage,
}

/// How far a command has come.
pub(crate) enum Stage {
    /// An insert, a removal or a get goes on, or has ended.
    Call(Attempt),
    /// A scan goes on, by a look, or has ended with that look.
    Look(Looking),
    /// A scan has ended, after so many restarts, and its pass is idle.
    Over(Pass, Result<More, ScanFault>, u64),
}

/// Begins the command by the pass, in so many turns. It makes no step. The rows of a scan go into the list, which is emptied first; it
/// must be lent again to each step.
pub fn start_command(
    table: &Table,
    pass: Pass,
    command: Command,
    turns: u32,
    rows: &mut ArrayVec<Row, 100>,
) -> Running
    requires { IsPassOf table.now pass }
    ensures running { IsRunning table.now command turns pass result rows.new.items }
    ensures still { view_in result ≡ view_of pass }
{
    rows.clear();
    let stage = match command {
        Command::Insert(tuple, value) => {
            Stage::Call(start(table, pass, Job::Insert { tuple, value }, turns))
        }
        Command::Remove(tuple) => Stage::Call(start(table, pass, Job::Remove(tuple), turns)),
        Command::Get(tuple) => Stage::Call(start(table, pass, Job::Get(tuple), turns)),
        Command::Scan(lo, hi, limit) => match Tiling::new(table.schema(), &lo, &hi, limit, turns) {
            Ok(tiling) => Stage::Look(Looking::first(table, pass, tiling)),
            Err(fault) => Stage::Over(pass, Err(fault), 0),
        },
    };
    Running { stage }
}

impl Running {
    /// Makes the next step, or none where the command has ended. Where a look of a scan has ended and another is wanted, what it found
    /// is listed, and the step is the first of the next one.
    pub fn step(&mut self, table: &Table, rows: &mut ArrayVec<Row, 100>) -> Progress
        requires { (c : CommandOf) × (turns : ℕ) × (p : PassOf) × IsRunning table.now c turns p self.old rows.old.items }
        ensures made { Progresses (sizes_in table.now) (view_in self.old) (view_in self.new) result }
        ensures ended { result ≡ Progress.Ended → HasNoStep table.now self.new rows.new.items }
        ensures goes_on { (c : CommandOf) (turns : ℕ) (p : PassOf) → IsRunning table.now c turns p self.old rows.old.items →
            IsRunning table.now c turns p self.new rows.new.items }
    {
        match &mut self.stage {
            Stage::Call(attempt) => attempt.step(table),
            Stage::Look(looking) => looking.step(table, rows),
            Stage::Over(_, _, _) => Progress::Ended,
        }
    }

    /// Makes all steps that are left: the pass comes back, with how the command ended. The list has the rows of a scan then, or none
    /// where it was refused.
    pub fn finish(self, table: &Table, rows: &mut ArrayVec<Row, 100>) -> (Pass, Ending)
        requires { (c : CommandOf) × (turns : ℕ) × (p : PassOf) × IsRunning table.now c turns p self rows.old.items }
        ensures pass { IsPassOf table.now result.0 }
        ensures ends { (c : CommandOf) (turns : ℕ) (p : PassOf) → IsRunning table.now c turns p self rows.old.items →
            CommandEnds table.now c turns p rows.new.items result.1 result.0 }
    {
        let Running { stage } = self;
        match stage {
            Stage::Call(attempt) => {
                let (pass, result) = attempt.finish(table);
                (pass, Ending::Call(result))
            }
            Stage::Look(looking) => {
                let (pass, result) = looking.finish(table, rows);
                (pass, Ending::Scan(result))
            }
            Stage::Over(pass, result, _) => (pass, Ending::Scan(result)),
        }
    }

    /// Gives up, as if the turns that were used had been all: the pass comes back, with nothing told but looks of a scan. Where a cell is
    /// held, or the command is decided, it comes back, and makes no step more but those that close the last look of a scan.
    pub fn abandon(self, table: &Table, rows: &mut ArrayVec<Row, 100>) -> Result<Pass, Running>
        requires { (c : CommandOf) × (turns : ℕ) × (p : PassOf) × IsRunning table.now c turns p self rows.old.items }
        ensures given { IfOk result (λ q. (c : CommandOf) (turns : ℕ) (p : PassOf) → IsRunning table.now c turns p self rows.old.items →
            IsGivenUp table.now c turns p q) }
        ensures cleared { OnOk result (rows.new.items ≡ []) }
        ensures free { OnOk result ((c : CommandOf) (turns : ℕ) (p : PassOf) → IsRunning table.now c turns p self rows.old.items →
            IsFree p self) }
        ensures goes_on { IfErr result (λ r. (c : CommandOf) (turns : ℕ) (p : PassOf) →
            IsRunning table.now c turns p self rows.old.items → IsRunning table.now c turns p r rows.new.items) }
        ensures why { IfErr result (λ r. (c : CommandOf) (turns : ℕ) (p : PassOf) → IsRunning table.now c turns p self rows.old.items →
            HasDecided p r) }
        ensures restarts { IfErr result (λ r. restarts_in r ≡ restarts_in self) }
    {
        let Running { stage } = self;
        match stage {
            Stage::Call(attempt) => match attempt.abandon(table) {
                Ok(pass) => {
                    rows.clear();
                    Ok(pass)
                }
                Err(attempt) => Err(Running {
                    stage: Stage::Call(attempt),
                }),
            },
            Stage::Look(looking) => looking.abandon(table, rows),
            Stage::Over(pass, result, restarts) => match result {
                Ok(more) => Err(Running {
                    stage: Stage::Over(pass, Ok(more), restarts),
                }),
                Err(_) => {
                    rows.clear();
                    Ok(pass)
                }
            },
        }
    }

    /// How often it restarted, all looks of a scan together.
    pub fn restarts(&self) -> u64
        ensures { result ≡ restarts_in self.now }
    {
        match &self.stage {
            Stage::Call(attempt) => attempt.restarts(),
            Stage::Look(looking) => looking.restarts(),
            Stage::Over(_, _, restarts) => *restarts,
        }
    }
}
