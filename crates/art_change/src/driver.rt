//! Makes the steps of a call.
ghost use Rattle.std.specs.Prelude.{◌≡◌, ◌≢◌, ℕ, ◌+◌, ◌≤◌, IfSome, IfNone, List, Option, Some, true};
ghost use Rattle.art_change.specs.AsAsked.{GoesAsAsked, WriteGoes};
ghost use Rattle.art_change.specs.Calls.{HasCalled, IsAdmitted, IsCalling, NoneOverlaps, Refuses, StaysApart, Wish, is_refusal, outcome_at, restarts_in, steps_left};
ghost use Rattle.art_change.specs.Made.{MakesStep, is_told, tells};
ghost use Rattle.art_change.specs.declared.outcomes.Outcome.{Outcome as OutcomeOf};
ghost use Rattle.art_change.specs.declared.outcomes.Outcome.TheVariants.{Overlaps as overlaps};
ghost use Rattle.art_change.specs.Writes as writes;
ghost use Rattle.art_change.specs.Writes.{IsApart, SameRow};
ghost use Rattle.art_change.specs.declared.writes.WriteOutcome.{WriteOutcome};
ghost use Rattle.art_epoch.specs.Limbo.{places_of};
ghost use Rattle.art_epoch.specs.declared.limbo.Place.{Place};
ghost use Rattle.art_step.specs.Acting.{Answers, IsAllowed, telling};
ghost use Rattle.art_step.specs.declared.actions.Answer.{Answer as AnswerOf};
ghost use Rattle.art_step.specs.declared.actions.Effects.{Effects as EffectsOf};
ghost use Rattle.art_look.specs.declared.path_buffers.PathBuffer.{PathBuffer as PathBufferOf};
ghost use Rattle.art_look.specs.Asking.{MaySeek, stepped_by};
ghost use Rattle.art_look.specs.Walks.{Settles};
ghost use Rattle.art_look.specs.declared.walks.Walk.{Walk as WalkOf};
ghost use Rattle.art_step.specs.Histories.{AreApart};
ghost use Rattle.art_step.specs.declared.deeds.Deed.{Deed};
ghost use Rattle.art_step.specs.declared.views.Sizes.{Sizes};
ghost use Rattle.art_step.specs.declared.views.View.{View};

use crate::callers::Call;
use crate::writes::{finish as finish_write, step as step_write};
use crate::{Caller, Outcome, Stepped, Write};
use art_attempt::Room;
use art_epoch::Limbo;
use art_look::{Stepped as Sought, finish as finish_seek, step as step_seek};
use art_step::{Action, Answer, EpochSteps, StepKind};

/// A step that was made: of which kind it was, and whether it made the event of its call.
#[derive(Clone, Copy)]
pub struct Made {
    pub kind: StepKind,
    pub event: bool,
}

/// Whether such a step made the event.
fn tells(action: Action, answer: Answer) -> bool
    ensures { result ≡ tells action answer }
{
    matches!(
        (action, answer),
        (Action::Settle { .. }, Answer::Checked { result: Ok(()) }) | (Action::Commit { .. }, _)
    )
}

/// The step that a write made, if it made one.
fn made_by_write(stepped: Stepped) -> Option<Made>
    ensures some { IfSome result (λ made. (z : Sizes) (e : Option EffectsOf) (v w : View) → IsAllowed z e v stepped.action →
        Answers z e stepped.action stepped.answer v w → MakesStep z v w made) }
    ensures none { IfNone result ((z : Sizes) (e : Option EffectsOf) (v w : View) →
        Answers z e stepped.action stepped.answer v w → w ≡ v) }
{
    if stepped.answer.steps() == 0 {
        return None;
    }
    Some(Made {
        kind: stepped.action.kind(),
        event: tells(stepped.action, stepped.answer),
    })
}

/// Whether such a step of a seek made the event.
fn is_told(stepped: Sought) -> bool
    ensures { result ≡ is_told stepped }
{
    matches!(stepped, Sought::Told)
}

/// The step that a seek made.
fn made_by_seek(made: art_look::Made) -> Made
    ensures { (z : Sizes) (d : Deed) (walk : WalkOf) (k : List ℕ) (t : PathBufferOf) (answer : AnswerOf) (v w : View) →
        made.stepped ≡ stepped_by made.action answer → MaySeek z (Settles walk k t) v made.action →
        Answers z (telling d) made.action answer v w → w.steps ≡ v.steps + 1 → MakesStep z v w result }
{
    Made {
        kind: made.action.kind(),
        event: is_told(made.stepped),
    }
}

/// Makes the next step of a write, or none where it has ended.
fn step_of_write<S: EpochSteps>(
    steps: &mut S,
    write: &mut Write,
    room: &mut Room,
    limbo: &mut Limbo,
) -> Option<Made>
    requires admitted { S.admits steps.old room.old.row.key.items }
    requires fits { (u : View) × (ps : List Place) ×
        writes.Fits (S.sizes steps.old) u ps write.old room.old (places_of limbo.old) (S.view steps.old) }
    ensures only { S.only steps.old steps.new }
    ensures some { IfSome result (MakesStep (S.sizes steps.old) (S.view steps.old) (S.view steps.new)) }
    ensures asked { IfSome result (λ made. WriteGoes (S.sizes steps.old) (S.view steps.old) write.old room.old (places_of limbo.old)
        (S.view steps.new) write.new room.new (places_of limbo.new)) }
    ensures none { IfNone result ((S.view steps.new ≡ S.view steps.old) × ((o : WriteOutcome) × (writes.ended_at write.new ≡ Some o))) }
    ensures job { write.new.job ≡ write.old.job }
    ensures turns { write.new.turns ≡ write.old.turns }
    ensures key { SameRow room.old room.new }
    ensures refuses { writes.WillRefuse write.old → writes.WillRefuse write.new }
    ensures apart { writes.NoneOverlaps (S.admits steps.old) (S.sizes steps.old) room.old.row.key.items
        (S.view steps.old) (S.view steps.new) → IsApart write.old → IsApart write.new }
    ensures left { (S.view steps.new).steps + writes.steps_left write.new room.new (places_of limbo.new) ≤
        (S.view steps.old).steps + writes.steps_left write.old room.old (places_of limbo.old) }
    ensures fits { (u : View) (ps : List Place) →
        writes.Fits (S.sizes steps.old) u ps write.old room.old (places_of limbo.old) (S.view steps.old) →
        writes.Fits (S.sizes steps.old) u ps write.new room.new (places_of limbo.new) (S.view steps.new) }
{
    loop {
        if write.ended().is_some() {
            return None;
        }
        let stepped = step_write(steps, write, room, limbo);
        if let Some(made) = made_by_write(stepped) {
            return Some(made);
        }
    }
}

impl Caller {
    /// Makes the next step, or none where the call has ended.
    pub fn step<S: EpochSteps>(&mut self, steps: &mut S) -> Option<Made>
        requires { (w : Wish) × (given : ℕ) × (turns : ℕ) × (u : View) ×
            IsCalling (S.sizes steps.old) w given turns u self.old (S.view steps.old) × IsAdmitted (S.admits steps.old) w }
        ensures only { S.only steps.old steps.new }
        ensures some { IfSome result (MakesStep (S.sizes steps.old) (S.view steps.old) (S.view steps.new)) }
        ensures asked { IfSome result (λ made. GoesAsAsked (S.sizes steps.old) (S.view steps.old) self.old (S.view steps.new) self.new) }
        ensures none { IfNone result ((S.view steps.new ≡ S.view steps.old) × ((o : OutcomeOf) × (outcome_at self.new ≡ Some o))) }
        ensures refuses { Refuses self.old → Refuses self.new }
        ensures apart { NoneOverlaps (S.admits steps.old) (S.sizes steps.old) self.old (S.view steps.old) (S.view steps.new) →
            StaysApart self.old → StaysApart self.new }
        ensures left { (S.view steps.new).steps + steps_left self.new ≤ (S.view steps.old).steps + steps_left self.old }
        ensures calling { (w : Wish) (given turns : ℕ) (u : View) →
            IsCalling (S.sizes steps.old) w given turns u self.old (S.view steps.old) →
            IsCalling (S.sizes steps.old) w given turns u self.new (S.view steps.new) }
    {
        let Caller {
            room,
            limbo,
            key,
            hi,
            path_buffer,
            call,
            ..
        } = self;
        match call {
            Call::Write(write) => step_of_write(steps, write, room, limbo),
            Call::Seek(seek) => {
                if seek.ended().is_some() {
                    return None;
                }
                let made = step_seek(steps, seek, key.as_slice(), hi, path_buffer);
                Some(made_by_seek(made))
            }
        }
    }

    /// Makes all steps that are left, and says how the call ended.
    pub fn run<S: EpochSteps>(&mut self, steps: &mut S) -> Outcome
        requires { (w : Wish) × (given : ℕ) × (turns : ℕ) × (u : View) ×
            IsCalling (S.sizes steps.old) w given turns u self.old (S.view steps.old) × IsAdmitted (S.admits steps.old) w }
        ensures only { S.only steps.old steps.new }
        ensures called { (w : Wish) (given turns : ℕ) (u : View) →
            IsCalling (S.sizes steps.old) w given turns u self.old (S.view steps.old) →
            HasCalled (S.sizes steps.old) w given turns (restarts_in self.new) u self.new result (S.view steps.new) }
        ensures refused { Refuses self.old → is_refusal result ≡ true }
        ensures apart { AreApart (S.admits steps.old) → StaysApart self.old → result ≢ overlaps }
    {
        self.finish(steps);
        self.outcome().unwrap()
    }

    /// Makes all steps that are left: each machine has its own way to its end.
    fn finish<S: EpochSteps>(&mut self, steps: &mut S)
        requires { (w : Wish) × (given : ℕ) × (turns : ℕ) × (u : View) ×
            IsCalling (S.sizes steps.old) w given turns u self.old (S.view steps.old) × IsAdmitted (S.admits steps.old) w }
        ensures only { S.only steps.old steps.new }
        ensures ended { (o : OutcomeOf) × (outcome_at self.new ≡ Some o) }
        ensures refuses { Refuses self.old → Refuses self.new }
        ensures apart { AreApart (S.admits steps.old) → StaysApart self.old → StaysApart self.new }
        ensures calling { (w : Wish) (given turns : ℕ) (u : View) →
            IsCalling (S.sizes steps.old) w given turns u self.old (S.view steps.old) →
            IsCalling (S.sizes steps.old) w given turns u self.new (S.view steps.new) }
    {
        let Caller {
            room,
            limbo,
            key,
            hi,
            path_buffer,
            call,
            ..
        } = self;
        match call {
            Call::Write(write) => finish_write(steps, write, room, limbo),
            Call::Seek(seek) => finish_seek(steps, seek, key.as_slice(), hi, path_buffer),
        }
    }
}
