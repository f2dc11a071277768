//! A seek, step by step: its pin, its walk, its close.
ghost use Rattle.std.specs.Prelude.{◌≡◌, ℕ, ◌+◌, ◌-◌, ◌<◌, ◌≤◌, List, length, Option, Some, None, true, false};
ghost use Rattle.art_epoch.specs.Pins as pins;
ghost use Rattle.art_epoch.specs.Pins.{MayPin};
ghost use Rattle.art_step.specs.Acting.{Answers, goes_on, telling};
ghost use Rattle.art_find.specs.Driven.{restarts_after};
ghost use Rattle.art_step.specs.declared.actions.Action.{Action as ActionOf};
ghost use Rattle.art_key.specs.declared.bounds.Bound.{Bound as KeyBound};
ghost use Rattle.art_look.specs.Driven.{IsSeen};
ghost use Rattle.art_look.specs.declared.path_buffers.PathBuffer.{PathBuffer as PathBufferOf};
ghost use Rattle.art_look.specs.Asking.{restarts_told};
ghost use Rattle.art_look.specs.Seeks.{Fits, HasSought, IsPinning, IsWalking, WillBeBusy, asks, ended_at, heard, left_at, reached_by, seen_at, steps_left, turns_used};
ghost use Rattle.art_look.specs.Walks as walks;
ghost use Rattle.art_look.specs.Walks.{IsEnd, Settles, aim_of, deed_at};
ghost use Rattle.art_look.specs.declared.seeks.SeekStage.TheVariants as stages;
ghost use Rattle.art_look.specs.declared.walks.Outcome.TheVariants.{Busy as busy};
ghost use Rattle.art_step.specs.Events.{MakesEvent};
ghost use Rattle.art_step.specs.declared.deeds.Deed.{Deed as DeedOf};
ghost use Rattle.art_step.specs.declared.views.Sizes.{Sizes};
ghost use Rattle.art_step.specs.declared.views.View.{View};

use crate::walks::Walk;
use crate::{Aim, Outcome, PathBuffer, Reached, Seen};
use art_epoch::Pinning;
use art_key::Bound;
use art_step::{Action, Answer};

/// Where a seek stands between two of its steps.
#[derive(Clone, Copy)]
pub enum SeekStage {
    /// The pass is being pinned.
    Pinning,
    /// The tree is walked.
    Walking,
    /// The pass goes idle.
    Closing,
    Ended,
}

/// A get of a key, or a look of a range. What it looks for and the path buffer of a look stand beside it.
#[derive(Clone, Copy)]
pub struct Seek {
    pub(crate) stage: SeekStage,
    pub(crate) pinning: Pinning,
    pub(crate) walk: Walk,
    outcome: Outcome,
    turns: u32,
    /// How many turns are left: steps that the walk may still make.
    pub(crate) left: u32,
    pub(crate) restarts: u64,
}

impl Seek {
    ghost use Rattle.art_look.specs.Asking.{MaySeek};
    ghost use Rattle.std.specs.Prelude.{IfSome};

    /// Of this, in so many turns.
    pub fn new(aim: Aim, turns: u32) -> Seek
        ensures aim { aim_of result.walk ≡ aim }
        ensures turns { (result.turns ≡ turns) × (result.restarts ≡ 0) }
        ensures going { ended_at result ≡ None }
        ensures left { steps_left result ≡ turns + 3 }
        ensures fits { (z : Sizes) (k : List ℕ) (hi : KeyBound) (t : PathBufferOf) (u : View) → MayPin u → Fits z k hi u result t u }
    {
        Seek {
            stage: SeekStage::Pinning,
            pinning: Pinning::new(),
            walk: Walk::new(aim),
            outcome: Outcome::Busy,
            turns,
            left: turns,
            restarts: 0,
        }
    }

    /// The next step, or none where it has ended.
    pub fn next(&self) -> Option<Action>
        ensures asks { result ≡ asks self.now }
        ensures allowed { (z : Sizes) (k : List ℕ) (hi : KeyBound) (u v : View) (t : PathBufferOf) → Fits z k hi u self.now t v →
            IfSome result (MaySeek z (Settles self.now.walk k t) v) }
        ensures going { (z : Sizes) (k : List ℕ) (hi : KeyBound) (u v : View) (t : PathBufferOf) → Fits z k hi u self.now t v →
            ended_at self.now ≡ None → (a : ActionOf) × (result ≡ Some a) }
    {
        match self.stage {
            SeekStage::Pinning => self.pinning.next(),
            SeekStage::Walking => self.walk.next(),
            SeekStage::Closing => Some(Action::StorePin { word: 0 }),
            SeekStage::Ended => None,
        }
    }

    /// The step that it asked for was made, with this answer. The key is the one that is looked for, or the lower end of the range.
    pub fn told(&mut self, key: &[u8], path_buffer: &mut PathBuffer, answer: Answer)
        requires short { length key.now ≤ 64 }
        requires told { (z : Sizes) × (hi : KeyBound) × (u : View) × (v : View) × (w : View) × (asked : ActionOf) ×
            Fits z key.now hi u self.old path_buffer.old v × (asks self.old ≡ Some asked) ×
            Answers z (telling (deed_at self.old.walk key.now hi path_buffer.old)) asked answer v w }
        ensures aim { aim_of self.new.walk ≡ aim_of self.old.walk }
        ensures turns { self.new.turns ≡ self.old.turns }
        ensures restarts { self.new.restarts ≡ restarts_told answer self.old.restarts }
        ensures refuses { WillBeBusy self.old → WillBeBusy self.new }
        ensures left { steps_left self.new < steps_left self.old }
        ensures fits { (z : Sizes) (hi : KeyBound) (u v w : View) (asked : ActionOf) →
            Fits z key.now hi u self.old path_buffer.old v → asks self.old ≡ Some asked →
            Answers z (telling (deed_at self.old.walk key.now hi path_buffer.old)) asked answer v w →
            Fits z key.now hi u self.new path_buffer.new w }
    {
        match self.stage {
            SeekStage::Pinning => self.pin_told(answer),
            SeekStage::Walking => self.walk_told(key, path_buffer, answer),
            SeekStage::Closing => self.stage = SeekStage::Ended,
            SeekStage::Ended => {}
        }
    }

    /// How it ended, if it has.
    pub fn ended(&self) -> Option<Outcome>
        ensures at { result ≡ ended_at self.now }
        ensures sought { IfSome result (λ o. (z : Sizes) (k : List ℕ) (hi : KeyBound) (u v : View) (t : PathBufferOf) →
            length k ≤ 64 → Fits z k hi u self.now t v → HasSought k hi u self.now t o v) }
        ensures refused { IfSome result (λ o. WillBeBusy self.now → o ≡ busy) }
    {
        match self.stage {
            SeekStage::Ended => Some(self.outcome),
            _ => None,
        }
    }

    /// How often it restarted.
    pub fn restarts(&self) -> u64
        ensures { result ≡ self.now.restarts }
    {
        self.restarts
    }

    /// How many of its turns are left.
    pub fn turns_left(&self) -> u32
        ensures { result ≡ self.now.left }
    {
        self.left
    }

    /// Ends as soon as it may, as if the turns that were used had been all. False, with nothing changed, where the event was made.
    pub fn give_up(&mut self) -> bool
        ensures walk { self.new.walk ≡ self.old.walk }
        ensures restarts { self.new.restarts ≡ self.old.restarts }
        ensures turns { result ≡ true → self.new.turns ≡ turns_used self.old }
        ensures left { result ≡ true → steps_left self.new ≤ steps_left self.old }
        ensures refuses { result ≡ true → WillBeBusy self.new }
        ensures fits { (z : Sizes) (k : List ℕ) (hi : KeyBound) (u v : View) (t : PathBufferOf) → Fits z k hi u self.old t v →
            Fits z k hi u self.new t v }
        ensures kept { result ≡ false → self.new ≡ self.old }
        ensures why { result ≡ false → (z : Sizes) (k : List ℕ) (hi : KeyBound) (u v : View) (t : PathBufferOf) → length k ≤ 64 →
            Fits z k hi u self.old t v → (what : DeedOf) × MakesEvent u v what }
    {
        match self.stage {
            SeekStage::Pinning => {
                self.turns = 0;
                self.left = 0;
                true
            }
            SeekStage::Walking => {
                self.turns = self.turns.saturating_sub(self.left);
                self.left = 0;
                self.close(Outcome::Busy);
                true
            }
            SeekStage::Closing | SeekStage::Ended => matches!(self.outcome, Outcome::Busy),
        }
    }

    /// What a look has seen, once it has ended as `Seen`.
    pub fn seen(&self, lo: &[u8], hi: &Bound, path_buffer: &PathBuffer) -> Option<Seen>
        requires { length lo.now ≤ 64 }
        ensures at { result ≡ seen_at self.now lo.now hi.now path_buffer.now }
        ensures stood { IfSome result (λ seen. (z : Sizes) (u v : View) → Fits z lo.now hi.now u self.now path_buffer.now v →
            IsSeen z lo.now hi.now seen) }
    {
        let reached = self.reached()?;
        Some(reached.seen(lo, hi, path_buffer))
    }

    /// How far a look has seen, once it has ended as `Seen`.
    #[inline(always)]
    pub fn reached(&self) -> Option<Reached>
        ensures { result ≡ reached_by (ended_at self.now) self.now.walk }
    {
        match self.ended() {
            Some(Outcome::Seen) => self.walk.reached(),
            _ => None,
        }
    }

    /// Its walk.
    pub(crate) fn walk(&self) -> &Walk
        ensures { result.now ≡ self.now.walk }
    {
        &self.walk
    }

    /// A step of the pin was made.
    #[inline(always)]
    pub(crate) fn pin_told(&mut self, answer: Answer)
        requires stage { self.old.stage ≡ stages.Pinning }
        requires told { (z : Sizes) × (u : View) × (v : View) × (w : View) × (a : ActionOf) × pins.Fits z u self.old.pinning v ×
            (pins.asks self.old.pinning ≡ Some a) × Answers z None a answer v w }
        ensures walk { self.new.walk ≡ self.old.walk }
        ensures turns { self.new.turns ≡ self.old.turns }
        ensures restarts { self.new.restarts ≡ self.old.restarts }
        ensures refuses { self.old.left ≡ 0 → WillBeBusy self.new }
        ensures left { steps_left self.new < left_at stages.Pinning self.old }
        ensures fits { (z : Sizes) (k : List ℕ) (hi : KeyBound) (u v w : View) (t : PathBufferOf) (asked : ActionOf) →
            IsPinning z k hi u self.old t v → pins.asks self.old.pinning ≡ Some asked → Answers z None asked answer v w →
            Fits z k hi u self.new t w }
    {
        self.pinning.told(answer);
        match self.pinning.next() {
            Some(_) => {}
            None => self.turn(),
        }
    }

    /// The walk goes on, where turns are left.
    #[inline(always)]
    fn turn(&mut self)
        ensures walk { self.new.walk ≡ self.old.walk }
        ensures turns { self.new.turns ≡ self.old.turns }
        ensures restarts { self.new.restarts ≡ self.old.restarts }
        ensures refuses { self.old.left ≡ 0 → WillBeBusy self.new }
        ensures left { steps_left self.new ≤ self.old.left + 1 }
        ensures fits { (z : Sizes) (k : List ℕ) (hi : KeyBound) (u v : View) (t : PathBufferOf) → IsWalking z k hi u self.old t v →
            walks.ended_at self.old.walk ≡ None → Fits z k hi u self.new t v }
    {
        if self.left == 0 {
            self.close(Outcome::Busy);
            return;
        }
        self.stage = SeekStage::Walking;
    }

    /// It ends so, once the pass is idle.
    #[inline(always)]
    fn close(&mut self, outcome: Outcome)
        ensures refuses { outcome ≡ busy → WillBeBusy self.new }
        ensures walk { self.new.walk ≡ self.old.walk }
        ensures turns { self.new.turns ≡ self.old.turns }
        ensures restarts { self.new.restarts ≡ self.old.restarts }
        ensures left { steps_left self.new ≡ 1 }
        ensures fits { (z : Sizes) (k : List ℕ) (hi : KeyBound) (u v : View) (t : PathBufferOf) → IsWalking z k hi u self.old t v →
            IsEnd self.old.walk self.old.left outcome → Fits z k hi u self.new t v }
    {
        self.outcome = outcome;
        self.stage = SeekStage::Closing;
    }

    /// A step of the walk was made: it is counted, and so is a restart.
    #[inline(always)]
    pub(crate) fn walk_told(&mut self, key: &[u8], path_buffer: &mut PathBuffer, answer: Answer)
        requires short { length key.now ≤ 64 }
        requires turn { 0 < self.old.left }
        requires few { self.old.restarts + self.old.left ≤ 4294967295 }
        requires told { (z : Sizes) × (hi : KeyBound) × (u : View) × (v : View) × (w : View) × (asked : ActionOf) ×
            IsWalking z key.now hi u self.old path_buffer.old v × (walks.asks self.old.walk ≡ Some asked) ×
            Answers z (telling (deed_at self.old.walk key.now hi path_buffer.old)) asked answer v w }
        ensures aim { aim_of self.new.walk ≡ aim_of self.old.walk }
        ensures turns { self.new.turns ≡ self.old.turns }
        ensures restarts { self.new.restarts ≡ restarts_after self.old.restarts (goes_on answer) }
        ensures left { steps_left self.new < left_at stages.Walking self.old }
        ensures fits { (z : Sizes) (hi : KeyBound) (u v w : View) (asked : ActionOf) →
            IsWalking z key.now hi u self.old path_buffer.old v → walks.asks self.old.walk ≡ Some asked →
            Answers z (telling (deed_at self.old.walk key.now hi path_buffer.old)) asked answer v w →
            Fits z key.now hi u self.new path_buffer.new w }
    {
        let on = self.walk.told(key, path_buffer, answer);
        self.walk_heard(on);
    }

    /// Its walk heard a step, and goes on or restarts: that is counted, and the seek goes on, where turns are left, or is over.
    #[inline(always)]
    pub(crate) fn walk_heard(&mut self, on: bool)
        requires turn { 0 < self.old.left }
        requires few { self.old.restarts + self.old.left ≤ 4294967295 }
        ensures walk { self.new.walk ≡ self.old.walk }
        ensures turns { self.new.turns ≡ self.old.turns }
        ensures restarts { self.new.restarts ≡ restarts_after self.old.restarts on }
        ensures left { steps_left self.new < left_at stages.Walking self.old }
        ensures fits { (z : Sizes) (k : List ℕ) (hi : KeyBound) (u w : View) (t : PathBufferOf) →
            IsWalking z k hi u (heard on self.old) t w → Fits z k hi u self.new t w }
    {
        self.left -= 1;
        if !on {
            self.restarts += 1;
        }
        match self.walk.ended() {
            Some(outcome) => self.close(outcome),
            None => self.turn(),
        }
    }
}
