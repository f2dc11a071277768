//! Calls that are made step by step.
ghost use Rattle.std.specs.Prelude.{◌≡◌, ◌⊎◌, ℕ, ◌≤◌, IfErr, IfOk, IfSome, OnOk, OnSome, Option, None, Some, true};
ghost use Rattle.art_change.specs.Calls.{HoldsOrTold};
ghost use Rattle.art_change.specs.Made.{MakesStep};
ghost use Rattle.art_key.specs.Bounds.{is_before};
ghost use Rattle.art_table.specs.Attempts.{HasStopped, IsGivenUp, Progresses, answer_of, restarts_of};
ghost use Rattle.art_table.specs.Calls.{Ends, IsAttempt};
ghost use Rattle.art_table.specs.Jobs.{IsRange};
ghost use Rattle.art_table.specs.Tables.{IsPassOf, sizes_in, turns_left_by, view_of};
ghost use Rattle.art_table.specs.declared.jobs.Job.{Job as JobOf};
ghost use Rattle.art_table.specs.declared.jobs.Job.TheVariants.{Look as look_job};
ghost use Rattle.art_table.specs.declared.passes.Pass.{Pass as PassOf};

use crate::{Fault, Job, Outcome, Pass, Table};
use art_change::Made;
use art_key::{Bound, ValueFault};
use art_step::StepKind;

/// A call that is under way, with the pass that makes it. It must be finished or abandoned.
pub struct Attempt {
    pub(crate) pass: Pass,
    /// The fault of its tuple: then no step is made.
    pub(crate) refused: Option<ValueFault>,
}

/// What became of an attempt that was to make a step.
#[derive(Clone, Copy, Debug, PartialEq, Eq)]
pub enum Progress {
    /// It made one of this kind, and with it its event, or not.
    Made { kind: StepKind, event: bool },
    /// It has ended, and made none.
    Ended,
}

/// Begins a call of the job by the pass, in so many turns. It makes no step.
pub fn start(table: &Table, pass: Pass, job: Job, turns: u32) -> Attempt
    requires pass { IsPassOf table.now pass }
    requires range { IsRange job }
    ensures attempt { IsAttempt table.now job turns pass result }
    ensures still { view_of result.pass ≡ view_of pass }
{
    let mut pass = pass;
    let refused = pass.begin(table, &job, turns).err();
    Attempt { pass, refused }
}

/// Begins a look of the range from `lo` on, before `hi`, by the pass, in so many turns. It makes no step.
pub fn start_look(table: &Table, pass: Pass, lo: &Bound, hi: &Bound, turns: u32) -> Attempt
    requires pass { IsPassOf table.now pass }
    requires range { is_before lo.now hi.now ≡ true }
    ensures attempt { IsAttempt table.now (look_job lo.now hi.now) turns pass result }
    ensures still { view_of result.pass ≡ view_of pass }
{
    let mut pass = pass;
    pass.begin_look(table, lo, hi, turns);
    Attempt {
        pass,
        refused: None,
    }
}

impl Attempt {
    /// Makes the next step, or none where it has ended.
    pub fn step(&mut self, table: &Table) -> Progress
        requires { (j : JobOf) × (turns : ℕ) × (p : PassOf) × IsAttempt table.now j turns p self.old }
        ensures made { Progresses (sizes_in table.now) (view_of self.old.pass) (view_of self.new.pass) result }
        ensures ended { result ≡ Progress.Ended → HasStopped self.new }
        ensures goes_on { (j : JobOf) (turns : ℕ) (p : PassOf) → IsAttempt table.now j turns p self.old →
            IsAttempt table.now j turns p self.new }
    {
        if self.refused.is_some() {
            return Progress::Ended;
        }
        match self.pass.step(table) {
            Some(Made { kind, event }) => Progress::Made { kind, event },
            None => Progress::Ended,
        }
    }

    /// How it ended, if no step is left.
    pub fn answer(&self, table: &Table) -> Option<Result<Outcome, Fault>>
        requires { (j : JobOf) × (turns : ℕ) × (p : PassOf) × IsAttempt table.now j turns p self.now }
        ensures at { result ≡ answer_of table.now self.now }
        ensures pass { OnSome result (IsPassOf table.now self.now.pass) }
        ensures ends { IfSome result (λ r. (j : JobOf) (turns : ℕ) (p : PassOf) → IsAttempt table.now j turns p self.now →
            Ends table.now j turns p r self.now.pass) }
    {
        match self.refused {
            Some(fault) => Some(Err(Fault::Value(fault))),
            None => self.pass.ended(table),
        }
    }

    /// Its pass, which may call again, begins a look of the range from `lo` on, before `hi`, in so many turns. It makes no step.
    pub fn look_on(&mut self, table: &Table, lo: &Bound, hi: &Bound, turns: u32)
        requires pass { IsPassOf table.now self.old.pass }
        requires range { is_before lo.now hi.now ≡ true }
        ensures attempt { IsAttempt table.now (look_job lo.now hi.now) turns self.old.pass self.new }
        ensures still { view_of self.new.pass ≡ view_of self.old.pass }
    {
        self.refused = None;
        self.pass.begin_look(table, lo, hi, turns);
    }

    /// Makes all steps that are left: the pass comes back, with the answer.
    pub fn finish(self, table: &Table) -> (Pass, Result<Outcome, Fault>)
        requires { (j : JobOf) × (turns : ℕ) × (p : PassOf) × IsAttempt table.now j turns p self }
        ensures pass { IsPassOf table.now result.0 }
        ensures ends { (j : JobOf) (turns : ℕ) (p : PassOf) → IsAttempt table.now j turns p self →
            Ends table.now j turns p result.1 result.0 }
    {
        let Attempt { mut pass, refused } = self;
        if let Some(fault) = refused {
            return (pass, Err(Fault::Value(fault)));
        }
        let result = pass.run(table);
        (pass, result)
    }

    /// Gives up, as if the turns that were used had been all: the pass comes back, and nothing was told. Where a cell is held or the
    /// event was made, the attempt comes back as it was.
    pub fn abandon(self, table: &Table) -> Result<Pass, Attempt>
        requires { (j : JobOf) × (turns : ℕ) × (p : PassOf) × IsAttempt table.now j turns p self }
        ensures given { IfOk result (λ q. (j : JobOf) (turns : ℕ) (p : PassOf) → IsAttempt table.now j turns p self →
            IsGivenUp table.now turns p q) }
        ensures back { IfErr result (λ a. a ≡ self) }
        ensures why { IfErr result (λ a. (j : JobOf) (turns : ℕ) (p : PassOf) → IsAttempt table.now j turns p self →
            HoldsOrTold (view_of p) (view_of a.pass)) }
        ensures free { OnOk result ((j : JobOf) (turns : ℕ) (p : PassOf) → IsAttempt table.now j turns p self →
            ¬ (HoldsOrTold (view_of p) (view_of self.pass))) }
    {
        let Attempt { mut pass, refused } = self;
        if refused.is_some() {
            return Ok(pass);
        }
        if !pass.caller.give_up() {
            return Err(Attempt { pass, refused });
        }
        let _ = pass.run(table);
        Ok(pass)
    }

    /// How many turns are left, where it is a get or a look.
    pub fn turns_left(&self) -> u32
        ensures { result ≡ turns_left_by self.now.pass }
    {
        self.pass.turns_left()
    }

    /// How often it began anew: never, where its tuple was refused.
    pub fn restarts(&self) -> u64
        ensures { result ≡ restarts_of self.now }
    {
        match self.refused {
            Some(_) => 0,
            None => self.pass.caller.restarts(),
        }
    }
}
