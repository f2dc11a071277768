//! A pass: who may call a table.
ghost use Rattle.std.specs.Prelude.{◌≡◌, ℕ, IfErr, IfNone, IfSome, IsErr, OnErr, OnOk, Some, true};
ghost use Rattle.std.specs.Option.{option_map};
ghost use Rattle.art_change.specs.Calls.{Refuses, outcome_at};
ghost use Rattle.art_change.specs.Made.{MakesStep};
ghost use Rattle.art_change.specs.declared.outcomes.Outcome.{Outcome as CallOutcome};
ghost use Rattle.art_table.specs.Calls.{HasEnded, IsUnderWay};
ghost use Rattle.art_key.specs.Bounds.{is_before};
ghost use Rattle.art_table.specs.Jobs.{IsRange, job_fault, result_of};
ghost use Rattle.art_table.specs.Tables.{IsPassOf, caller_of, number_of, schema_in, sizes_in, turns_left_by, view_of};
ghost use Rattle.art_table.specs.declared.jobs.Job.{Job as JobOf};
ghost use Rattle.art_table.specs.declared.jobs.Job.TheVariants.{Look as look_job};
ghost use Rattle.art_table.specs.declared.passes.Pass.{Pass as PassOf};

use crate::jobs::result_of;
use crate::{Fault, Job, Outcome, Table};
use art_change::{Caller, Made};
use art_key::{Bound, ValueFault, encode};

/// The right to call a table, one call at a time, and what its calls need.
#[derive(Drop)]
pub struct Pass {
    pub(crate) seat: art_shared::Pass,
    pub(crate) caller: Box<Caller>,
}

impl Pass {
    /// Passes of a table are numbered from 0.
    pub fn number(&self) -> u32
        ensures { result ≡ number_of self.now }
    {
        self.seat.number()
    }

    /// How many turns were left of the last look that it made, or of the last get that it made step by step.
    pub fn turns_left(&self) -> u32
        ensures { result ≡ turns_left_by self.now }
    {
        self.caller.turns_left()
    }

    /// Begins a call of the job, unless its tuple does not stand in the schema.
    pub(crate) fn begin(&mut self, table: &Table, job: &Job, turns: u32) -> Result<(), ValueFault>
        requires pass { IsPassOf table.now self.old }
        requires range { IsRange job.now }
        ensures begun { OnOk result (IsUnderWay table.now job.now turns turns self.old self.new) }
        ensures fault { IfErr result (λ f. job_fault (schema_in table.now) job.now ≡ Some f) }
        ensures kept { OnErr result (self.new ≡ self.old) }
        ensures still { view_of self.new ≡ view_of self.old }
    {
        let schema = table.schema();
        match job {
            Job::Insert { tuple, value } => {
                let key = encode(schema, tuple)?;
                self.caller.begin_insert(&key, *value, turns);
            }
            Job::Remove(tuple) => {
                let key = encode(schema, tuple)?;
                self.caller.begin_remove(&key, turns);
            }
            Job::Get(tuple) => {
                let key = encode(schema, tuple)?;
                self.caller.begin_get(&key, turns);
            }
            Job::Look {
                lo: Bound::At(key),
                hi,
            } => self.caller.begin_look(key, hi, turns),
            Job::Look { lo: Bound::End, .. } => unreachable!(),
        }
        Ok(())
    }

    /// Begins a look of the range from `lo` on, before `hi`.
    pub(crate) fn begin_look(&mut self, table: &Table, lo: &Bound, hi: &Bound, turns: u32)
        requires pass { IsPassOf table.now self.old }
        requires range { is_before lo.now hi.now ≡ true }
        ensures begun { IsUnderWay table.now (look_job lo.now hi.now) turns turns self.old self.new }
        ensures still { view_of self.new ≡ view_of self.old }
    {
        let _ = table.schema();
        let Bound::At(key) = lo else { unreachable!() };
        self.caller.begin_look(key, hi, turns);
    }

    /// How the call ended, if it has.
    pub(crate) fn ended(&self, table: &Table) -> Option<Result<Outcome, Fault>>
        requires { (j : JobOf) × (given : ℕ) × (turns : ℕ) × (p : PassOf) × IsUnderWay table.now j given turns p self.now }
        ensures at { result ≡ option_map (result_of (schema_in table.now)) (outcome_at (caller_of self.now)) }
        ensures ended { IfSome result (λ r. (j : JobOf) (given turns : ℕ) (p : PassOf) → IsUnderWay table.now j given turns p self.now →
            HasEnded table.now j given turns p r self.now) }
    {
        let outcome = self.caller.outcome()?;
        Some(result_of(table.schema(), outcome))
    }

    /// Makes the next step of the call, or none where it has ended.
    pub(crate) fn step(&mut self, table: &Table) -> Option<Made>
        requires { (j : JobOf) × (given : ℕ) × (turns : ℕ) × (p : PassOf) × IsUnderWay table.now j given turns p self.old }
        ensures some { IfSome result (MakesStep (sizes_in table.now) (view_of self.old) (view_of self.new)) }
        ensures none { IfNone result ((view_of self.new ≡ view_of self.old) × ((o : CallOutcome) ×
            (outcome_at (caller_of self.new) ≡ Some o))) }
        ensures goes_on { (j : JobOf) (given turns : ℕ) (p : PassOf) → IsUnderWay table.now j given turns p self.old →
            IsUnderWay table.now j given turns p self.new }
    {
        let mut stepper = table.shared.at(&mut self.seat);
        self.caller.step(&mut stepper)
    }

    /// Makes all steps that are left of the call, and says how it ended.
    pub(crate) fn run(&mut self, table: &Table) -> Result<Outcome, Fault>
        requires { (j : JobOf) × (given : ℕ) × (turns : ℕ) × (p : PassOf) × IsUnderWay table.now j given turns p self.old }
        ensures ended { (j : JobOf) (given turns : ℕ) (p : PassOf) → IsUnderWay table.now j given turns p self.old →
            HasEnded table.now j given turns p result self.new }
        ensures refused { Refuses (caller_of self.old) → IsErr result }
    {
        let mut stepper = table.shared.at(&mut self.seat);
        let outcome = self.caller.run(&mut stepper);
        result_of(table.schema(), outcome)
    }
}
