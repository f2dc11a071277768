//! The straight way of a seek.
//!
//! It makes the steps of a seek in their order: those of its pin, then those of its walk as far as nothing stops them, the check that
//! settles the answer, and the close. The last turn is left to the machine.
ghost use Rattle.std.specs.Prelude.{◌≡◌, ◌≢◌, ◌<◌, ◌≤◌, ℕ, List, length, None, Some, true, false};
ghost use Rattle.art_key.specs.declared.bounds.Bound.{Bound as KeyBound};
ghost use Rattle.art_look.specs.declared.path_buffers.PathBuffer.{PathBuffer as PathBufferOf};
ghost use Rattle.art_look.specs.Seeks.{GoesTo, IsUnderWay, ended_at, steps_left};
ghost use Rattle.art_look.specs.Settlings.{StandsAt};
ghost use Rattle.art_look.specs.Walks.{aim_of};
ghost use Rattle.art_look.specs.declared.seeks.SeekStage.TheVariants as stages;
ghost use Rattle.art_look.specs.declared.walks.Aim.TheVariants as aims;
ghost use Rattle.art_look.specs.declared.walks.Outcome.{Outcome as OutcomeOf};

use crate::driver::make;
use crate::walks::Settling;
use crate::{PathBuffer, Seek, SeekStage};
use art_epoch::{Pinning, unpin};
use art_find::Tally;
use art_key::Bound;
use art_step::{Action, Answer, EpochSteps, Steps};

impl Seek {
    /// Makes the steps of the pin, those of the walk as far as nothing stops it, and that of the close. Whether one of its walk is next: else it
    /// has ended.
    #[inline(always)]
    pub(crate) fn hurry<S: EpochSteps>(
        &mut self,
        steps: &mut S,
        key: &[u8],
        path_buffer: &mut PathBuffer,
    ) -> bool
        requires short { length key.now ≤ 64 }
        requires fits { (hi : KeyBound) × IsUnderWay (S.sizes steps.old) key.now hi self.old path_buffer.old (S.view steps.old) }
        ensures only { S.only steps.old steps.new }
        ensures walks { result ≡ true → self.new.stage ≡ stages.Walking }
        ensures ended { result ≡ false → (o : OutcomeOf) × (ended_at self.new ≡ Some o) }
        ensures goes { (hi : KeyBound) →
            GoesTo (S.sizes steps.old) key.now hi self.old path_buffer.old (S.view steps.old) self.new path_buffer.new (S.view steps.new) }
    {
        self.pin(steps);
        match self.stage {
            SeekStage::Walking => {
                self.walk_on(steps, key, path_buffer);
                true
            }
            SeekStage::Closing => {
                self.go_idle(steps);
                false
            }
            SeekStage::Ended => false,
            SeekStage::Pinning => unreachable!(),
        }
    }

    /// Makes the steps that are left of the pin.
    #[inline(always)]
    fn pin<S: EpochSteps>(&mut self, steps: &mut S)
        requires fits { (k : List ℕ) × (hi : KeyBound) × (t : PathBufferOf) ×
            IsUnderWay (S.sizes steps.old) k hi self.old t (S.view steps.old) }
        ensures only { S.only steps.old steps.new }
        ensures pinned { self.new.stage ≢ stages.Pinning }
        ensures goes { (k : List ℕ) (hi : KeyBound) (t : PathBufferOf) →
            GoesTo (S.sizes steps.old) k hi self.old t (S.view steps.old) self.new t (S.view steps.new) }
    {
        while matches!(self.stage, SeekStage::Pinning) {
            self.pin_on(steps);
        }
    }

    /// Makes the next step of the pin.
    #[inline(always)]
    fn pin_on<S: EpochSteps>(&mut self, steps: &mut S)
        requires stage { self.old.stage ≡ stages.Pinning }
        requires fits { (k : List ℕ) × (hi : KeyBound) × (t : PathBufferOf) ×
            IsUnderWay (S.sizes steps.old) k hi self.old t (S.view steps.old) }
        ensures only { S.only steps.old steps.new }
        ensures less { steps_left self.new < steps_left self.old }
        ensures goes { (k : List ℕ) (hi : KeyBound) (t : PathBufferOf) →
            GoesTo (S.sizes steps.old) k hi self.old t (S.view steps.old) self.new t (S.view steps.new) }
    {
        match self.pinning {
            Pinning::Noting => {
                let found = steps.epoch();
                self.pin_told(Answer::Word { found });
            }
            Pinning::Storing(epoch) => {
                steps.pass_store(epoch);
                self.pin_told(Answer::Done);
            }
            Pinning::Ended => unreachable!(),
        }
    }

    /// Makes the steps of its walk one after another, as far as nothing stops it.
    #[inline(always)]
    fn walk_on<S: Steps>(&mut self, steps: &mut S, key: &[u8], path_buffer: &mut PathBuffer)
        requires short { length key.now ≤ 64 }
        requires stage { self.old.stage ≡ stages.Walking }
        requires fits { (hi : KeyBound) × IsUnderWay (S.sizes steps.old) key.now hi self.old path_buffer.old (S.view steps.old) }
        ensures only { S.only steps.old steps.new }
        ensures walks { self.new.stage ≡ stages.Walking }
        ensures goes { (hi : KeyBound) →
            GoesTo (S.sizes steps.old) key.now hi self.old path_buffer.old (S.view steps.old) self.new path_buffer.new (S.view steps.new) }
    {
        let mut tally = Tally {
            left: self.left,
            restarts: self.restarts as u32,
        };
        self.walk.hurry(steps, &mut tally, key, path_buffer);
        self.left = tally.left;
        self.restarts = u64::from(tally.restarts);
    }

    /// Makes the next step of its walk.
    #[inline(always)]
    pub(crate) fn walk_by<S: EpochSteps>(
        &mut self,
        steps: &mut S,
        key: &[u8],
        hi: &Bound,
        path_buffer: &mut PathBuffer,
    )
        requires short { length key.now ≤ 64 }
        requires admitted { aim_of self.old.walk ≡ aims.Key → S.admits steps.old key.now }
        requires stage { self.old.stage ≡ stages.Walking }
        requires fits { IsUnderWay (S.sizes steps.old) key.now hi.now self.old path_buffer.old (S.view steps.old) }
        ensures only { S.only steps.old steps.new }
        ensures less { steps_left self.new < steps_left self.old }
        ensures goes { GoesTo (S.sizes steps.old) key.now hi.now self.old path_buffer.old (S.view steps.old) self.new path_buffer.new (S.view steps.new) }
    {
        match self.walk.settling() {
            Some(settling) => self.settle(steps, key, hi, path_buffer, settling),
            None => self.walk_once(steps, key, hi, path_buffer),
        }
    }

    /// Makes the step that its walk asks for. It is seldom made so, and apart: put in place, it had each call save what it needs.
    #[inline(never)]
    fn walk_once<S: EpochSteps>(
        &mut self,
        steps: &mut S,
        key: &[u8],
        hi: &Bound,
        path_buffer: &mut PathBuffer,
    )
        requires short { length key.now ≤ 64 }
        requires admitted { aim_of self.old.walk ≡ aims.Key → S.admits steps.old key.now }
        requires stage { self.old.stage ≡ stages.Walking }
        requires fits { IsUnderWay (S.sizes steps.old) key.now hi.now self.old path_buffer.old (S.view steps.old) }
        ensures only { S.only steps.old steps.new }
        ensures less { steps_left self.new < steps_left self.old }
        ensures goes { GoesTo (S.sizes steps.old) key.now hi.now self.old path_buffer.old (S.view steps.old) self.new path_buffer.new (S.view steps.new) }
    {
        let Some(action) = self.walk.next() else {
            unreachable!()
        };
        let answer = make(steps, action, &self.walk, key, hi, path_buffer);
        self.walk_told(key, path_buffer, answer);
    }

    /// Makes the check that settles the answer. What the walk stands at was taken out of it before: behind the check memory is read anew.
    #[inline(always)]
    fn settle<S: EpochSteps>(
        &mut self,
        steps: &mut S,
        key: &[u8],
        hi: &Bound,
        path_buffer: &PathBuffer,
        settling: Settling,
    )
        requires short { length key.now ≤ 64 }
        requires admitted { aim_of self.old.walk ≡ aims.Key → S.admits steps.old key.now }
        requires stage { self.old.stage ≡ stages.Walking }
        requires stands { StandsAt settling self.old.walk }
        requires fits { IsUnderWay (S.sizes steps.old) key.now hi.now self.old path_buffer.now (S.view steps.old) }
        ensures only { S.only steps.old steps.new }
        ensures less { steps_left self.new < steps_left self.old }
        ensures goes { GoesTo (S.sizes steps.old) key.now hi.now self.old path_buffer.now (S.view steps.old)
            self.new path_buffer.now (S.view steps.new) }
    {
        let action = Action::Settle {
            stamp: settling.stamp(),
        };
        let Answer::Checked { result } = make(steps, action, &self.walk, key, hi, path_buffer)
        else {
            unreachable!()
        };
        let on = self.walk.settle_told(settling, result);
        self.walk_heard(on);
    }

    /// The pass goes idle.
    #[inline(always)]
    fn go_idle<S: EpochSteps>(&mut self, steps: &mut S)
        requires stage { self.old.stage ≡ stages.Closing }
        requires fits { (k : List ℕ) × (hi : KeyBound) × (t : PathBufferOf) ×
            IsUnderWay (S.sizes steps.old) k hi self.old t (S.view steps.old) }
        ensures only { S.only steps.old steps.new }
        ensures ended { (o : OutcomeOf) × (ended_at self.new ≡ Some o) }
        ensures goes { (k : List ℕ) (hi : KeyBound) (t : PathBufferOf) →
            GoesTo (S.sizes steps.old) k hi self.old t (S.view steps.old) self.new t (S.view steps.new) }
    {
        unpin(steps);
        self.stage = SeekStage::Ended;
    }
}
