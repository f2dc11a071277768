//! A write, step by step: its opening, its attempts, its close.
ghost use Rattle.std.specs.Prelude.{◌≡◌, ◌≢◌, ◌⊎◌, ℕ, ◌+◌, ◌-◌, ◌<◌, ◌≤◌, List, [], length, Some, None, true, false};
ghost use Rattle.art_attempt.specs.Attempts.{EndFits, HasHand, IsRoom, ended_left, tries_left};
ghost use Rattle.art_attempt.specs.declared.attempts.Attempt.{Attempt as AttemptOf};
ghost use Rattle.art_attempt.specs.declared.attempts.Ending.TheVariants.{Restart as anew, Overlaps as attempt_overlaps};
ghost use Rattle.art_attempt.specs.declared.attempts.Room.{Room as RoomOf};
ghost use Rattle.art_change.specs.Writes.{Answers, Fits, HasAnswered, HasBegun, HasCounted, HasGround, IsAllowed, IsApart, IsReady};
ghost use Rattle.art_change.specs.Writes.{HasEntered, HasNoFrame, IsSameWrite, IsTrying, IsUntried, MayWrite, OutcomeBy, OverlapsBy, RestartsBy, SameRow, WasOpened};
ghost use Rattle.art_change.specs.Writes.{HoldsOrTold, WillRefuse, freed_by, given, is_refusal, turns_used, asks, ended_at, gone_by};
ghost use Rattle.art_change.specs.Writes.{most_steps, or_busy, outcome_in, outcome_of, steps_left, NoneOverlaps};
ghost use Rattle.art_change.specs.declared.writes.WriteOutcome.{WriteOutcome as OutcomeOf};
ghost use Rattle.art_change.specs.declared.writes.WriteOutcome.TheVariants.{Overlaps as overlaps};
ghost use Rattle.art_change.specs.declared.writes.Stage.TheVariants as stages;
ghost use Rattle.art_epoch.specs.Enter.{HasEnded};
ghost use Rattle.art_epoch.specs.Limbo.{places_of};
ghost use Rattle.art_epoch.specs.declared.limbo.Place.{Place};
ghost use Rattle.art_epoch.specs.declared.enter.Enter.{Enter as EnterOf};
ghost use Rattle.art_epoch.specs.declared.exit.Exit.{Exit as ExitOf};
ghost use Rattle.art_epoch.specs.declared.stocks.Stock.{Stock as StockOf};
ghost use Rattle.art_step.specs.Acting.{PassesAmong};
ghost use Rattle.art_step.specs.declared.actions.Action.{Action as ActionOf};
ghost use Rattle.art_step.specs.declared.views.Sizes.{Sizes};
ghost use Rattle.art_step.specs.declared.views.View.{View};
ghost use Rattle.art_step.specs.Histories.{AreApart};

use art_attempt::{Attempt, Ending, Job, Room, make};
use art_cell::{Cell, Pool};
use art_epoch::{Blocker, Enter, Entered, Exit, Limbo};
use art_plan::Change;
use art_step::{Action, Answer, EpochSteps, perform};

/// How a write ended.
#[derive(Clone, Copy, Debug, PartialEq, Eq)]
pub enum WriteOutcome {
    /// The row is in the tree.
    New,
    /// The key is there, and keeps this value.
    Present(u64),
    /// The row is out of the tree; it had this value.
    Gone(u64),
    /// No row has the key.
    Absent,
    /// No number of the pool was found.
    Full(Pool),
    /// The counter of a cell that was to be locked is at its end.
    Exhausted(Cell),
    /// A key begins the other. It never comes where no admitted key begins another.
    Overlaps,
    /// All turns were used.
    Busy,
    /// Limbo had fewer than four places.
    Crowded(Blocker),
}

/// Where a write stands between two of its steps.
#[derive(Clone, Copy)]
pub enum Stage {
    /// What waits goes back, and the pass is pinned.
    Enter(Enter),
    /// An attempt is made.
    Trying(Attempt),
    /// What was unlinked gets its label, what is in hand goes back, the pass goes idle; it will have ended so.
    Exit { exit: Exit, outcome: WriteOutcome },
    Ended(WriteOutcome),
}

/// An insert of the row of a room, or a removal of the row with its key. The room and the limbo of the pass stand beside it.
#[derive(Clone, Copy)]
pub struct Write {
    job: Job,
    stage: Stage,
    turns: u32,
    /// How many turns are left: steps that its attempts may still make while nothing is held.
    left: u32,
    restarts: u64,
}

impl Write {
    ghost use Rattle.std.specs.Prelude.{IfSome};

    /// By the pass `own`, in so many turns.
    pub fn new(job: Job, own: u32, turns: u32, room: &Room, limbo: &Limbo) -> Write
        ensures job { result.job ≡ job }
        ensures turns { (result.turns ≡ turns) × (result.restarts ≡ 0) }
        ensures apart { IsApart result }
        ensures left { (z : Sizes) (u : View) → MayWrite z u own (places_of limbo.now) room.now →
            steps_left result room.now (places_of limbo.now) ≤ most_steps turns z.passes (places_of limbo.now) }
        ensures fits { (z : Sizes) (u : View) → MayWrite z u own (places_of limbo.now) room.now →
            Fits z u (places_of limbo.now) result room.now (places_of limbo.now) u }
    {
        Write {
            job,
            stage: Stage::Enter(Enter::new(own, room.sizes.passes, limbo)),
            turns,
            left: turns,
            restarts: 0,
        }
    }

    /// The next step, or none where it has ended.
    pub fn next(&self, room: &Room, limbo: &Limbo) -> Option<Action>
        requires { (z : Sizes) × (u : View) × (v : View) × (ps : List Place) × Fits z u ps self.now room.now (places_of limbo.now) v }
        ensures asks { result ≡ asks self.now room.now (places_of limbo.now) }
        ensures allowed { (z : Sizes) (u v : View) (ps : List Place) → Fits z u ps self.now room.now (places_of limbo.now) v →
            IfSome result (IsAllowed z self.now room.now v) }
        ensures going { (z : Sizes) (u v : View) (ps : List Place) → Fits z u ps self.now room.now (places_of limbo.now) v →
            ended_at self.now ≡ None → (a : ActionOf) × (result ≡ Some a) }
    {
        match &self.stage {
            Stage::Enter(enter) => enter.next(limbo),
            Stage::Trying(attempt) => attempt.next(room),
            Stage::Exit { exit, .. } => exit.next(&room.stock),
            Stage::Ended(_) => None,
        }
    }

    /// The step that it asked for was made, with this answer.
    pub fn told(&mut self, room: &mut Room, limbo: &mut Limbo, answer: Answer)
        requires { (z : Sizes) × (u : View) × (v : View) × (w : View) × (ps : List Place) × (asked : ActionOf) ×
            Fits z u ps self.old room.old (places_of limbo.old) v × (asks self.old room.old (places_of limbo.old) ≡ Some asked) ×
            Answers z self.old room.old asked answer v w }
        ensures job { self.new.job ≡ self.old.job }
        ensures turns { self.new.turns ≡ self.old.turns }
        ensures restarts { RestartsBy self.old self.new answer }
        ensures refuses { WillRefuse self.old → WillRefuse self.new }
        ensures overlaps { OverlapsBy self.old self.new answer }
        ensures key { SameRow room.old room.new }
        ensures fits { (z : Sizes) (u v w : View) (ps : List Place) (asked : ActionOf) →
            Fits z u ps self.old room.old (places_of limbo.old) v → asks self.old room.old (places_of limbo.old) ≡ Some asked →
            Answers z self.old room.old asked answer v w → Fits z u ps self.new room.new (places_of limbo.new) w }
        ensures left { steps_left self.new room.new (places_of limbo.new) < steps_left self.old room.old (places_of limbo.old) }
    {
        match &self.stage {
            Stage::Enter(enter) => match enter.next(limbo) {
                Some(asked) => self.enter_on(room, limbo, asked, answer),
                None => unreachable!(),
            },
            Stage::Trying(_) => self.try_told(room, answer),
            Stage::Exit { .. } => self.exit_told(room, limbo, answer),
            Stage::Ended(_) => {}
        }
    }

    /// How it ended, if it has.
    pub fn ended(&self) -> Option<WriteOutcome>
        ensures at { result ≡ ended_at self.now }
        ensures answered { IfSome result (λ o. (z : Sizes) (u v : View) (ps qs : List Place) (r : RoomOf) →
            Fits z u ps self.now r qs v → HasAnswered z u self.now.job o r.row.key r.row.value qs v) }
        ensures counted { IfSome result (λ o. (z : Sizes) (u v : View) (ps qs : List Place) (r : RoomOf) →
            Fits z u ps self.now r qs v → HasCounted z u self.now.turns self.now.restarts o v) }
        ensures grounds { IfSome result (λ o. (z : Sizes) (u v : View) (ps qs : List Place) (r : RoomOf) →
            Fits z u ps self.now r qs v → HasGround z u self.now.job ps self.now.turns self.now.restarts o r qs v) }
        ensures ready { IfSome result (λ o. (z : Sizes) (u v : View) (own : ℕ) (ps qs : List Place) (s : StockOf) (r : RoomOf) →
            IsReady z u own ps s → Fits z u ps self.now r qs v → IsReady z v own qs r.stock) }
        ensures refused { IfSome result (λ o. WillRefuse self.now → is_refusal o ≡ true) }
    {
        match self.stage {
            Stage::Ended(outcome) => Some(outcome),
            _ => None,
        }
    }

    /// Ends as soon as it may, as if the turns that were used had been all. False, with nothing changed, where it cannot: a cell is
    /// held, or the event was made.
    pub fn give_up(&mut self, room: &Room) -> bool
        ensures job { self.new.job ≡ self.old.job }
        ensures restarts { self.new.restarts ≡ self.old.restarts }
        ensures turns { result ≡ true → self.new.turns ≡ turns_used self.old }
        ensures left { result ≡ true → (qs : List Place) → steps_left self.new room.now qs ≤ steps_left self.old room.now qs }
        ensures refuses { result ≡ true → WillRefuse self.new }
        ensures apart { IsApart self.old → IsApart self.new }
        ensures fits { (z : Sizes) (u v : View) (ps qs : List Place) → Fits z u ps self.old room.now qs v →
            Fits z u ps self.new room.now qs v }
        ensures kept { result ≡ false → self.new ≡ self.old }
        ensures why { result ≡ false → (z : Sizes) (u v : View) (ps qs : List Place) → Fits z u ps self.old room.now qs v →
            HoldsOrTold u v }
    {
        match self.stage {
            Stage::Enter(_) => {
                self.turns = 0;
                self.left = 0;
                true
            }
            Stage::Trying(_) => self.stop(room),
            Stage::Exit { outcome, .. } | Stage::Ended(outcome) => is_refusal(outcome),
        }
    }

    /// The attempt ends here, if nothing is held.
    fn stop(&mut self, room: &Room) -> bool
        requires stage { (t : AttemptOf) × (self.old.stage ≡ stages.Trying t) }
        ensures job { self.new.job ≡ self.old.job }
        ensures restarts { self.new.restarts ≡ self.old.restarts }
        ensures turns { result ≡ true → self.new.turns ≡ self.old.turns - self.old.left }
        ensures left { result ≡ true → (qs : List Place) → steps_left self.new room.now qs ≤ 7 }
        ensures refuses { result ≡ true → WillRefuse self.new }
        ensures apart { IsApart self.new }
        ensures fits { (z : Sizes) (u v : View) (ps qs : List Place) → Fits z u ps self.old room.now qs v →
            Fits z u ps self.new room.now qs v }
        ensures kept { result ≡ false → self.new ≡ self.old }
        ensures why { result ≡ false → (z : Sizes) (u v : View) (ps qs : List Place) → Fits z u ps self.old room.now qs v →
            HoldsOrTold u v }
    {
        let Stage::Trying(attempt) = &self.stage else {
            unreachable!()
        };
        if !attempt.is_free() {
            return false;
        }
        self.turns = self.turns.saturating_sub(self.left);
        self.left = 0;
        self.begin_exit(room, WriteOutcome::Busy);
        true
    }

    /// How often it tried anew.
    pub fn restarts(&self) -> u64
        ensures { result ≡ self.now.restarts }
    {
        self.restarts
    }

    /// Makes the step that it asks for, of its attempt or of its frame.
    pub(crate) fn make_step<S: EpochSteps>(
        &self,
        steps: &mut S,
        action: Action,
        room: &Room,
    ) -> Answer
        requires admitted { S.admits steps.old room.now.row.key.items }
        requires fits { (u : View) × (ps : List Place) × (qs : List Place) ×
            Fits (S.sizes steps.old) u ps self.now room.now qs (S.view steps.old) × (asks self.now room.now qs ≡ Some action) }
        requires allowed { IsAllowed (S.sizes steps.old) self.now room.now (S.view steps.old) action }
        ensures only { S.only steps.old steps.new }
        ensures row { Answers (S.sizes steps.old) self.now room.now action result (S.view steps.old) (S.view steps.new) }
        ensures keys { PassesAmong (S.admits steps.old) (S.sizes steps.old) (S.view steps.old) action result }
    {
        match &self.stage {
            Stage::Trying(attempt) => make(steps, action, attempt, room),
            Stage::Enter(_) | Stage::Exit { .. } | Stage::Ended(_) => perform(steps, action, None),
        }
    }

    /// The step that the opening asked for was made. Where a number went back by it, the next search of its pool begins there.
    #[inline(always)]
    fn enter_on(&mut self, room: &mut Room, limbo: &mut Limbo, asked: Action, answer: Answer)
        requires stage { (e : EnterOf) × (self.old.stage ≡ stages.Enter e) }
        requires asks { asks self.old room.old (places_of limbo.old) ≡ Some asked }
        requires told { (z : Sizes) × (u : View) × (v : View) × (w : View) × (ps : List Place) ×
            Fits z u ps self.old room.old (places_of limbo.old) v × Answers z self.old room.old asked answer v w }
        ensures same { IsSameWrite self.old room.old self.new room.new }
        ensures restarts { self.new.restarts ≡ self.old.restarts }
        ensures apart { IsApart self.new }
        ensures hints { room.new ≡ given (freed_by asked) room.old }
        ensures left { steps_left self.new room.new (places_of limbo.new) < steps_left self.old room.old (places_of limbo.old) }
        ensures fits { (z : Sizes) (u v w : View) (ps : List Place) → Fits z u ps self.old room.old (places_of limbo.old) v →
            Answers z self.old room.old asked answer v w → Fits z u ps self.new room.new (places_of limbo.new) w }
    {
        note_given(room, asked);
        self.enter_told(room, limbo, answer);
    }

    /// A step of the opening was made.
    fn enter_told(&mut self, room: &Room, limbo: &mut Limbo, answer: Answer)
        requires stage { (e : EnterOf) × (self.old.stage ≡ stages.Enter e) }
        requires told { (z : Sizes) × (u : View) × (v : View) × (w : View) × (ps : List Place) × (asked : ActionOf) ×
            Fits z u ps self.old room.now (places_of limbo.old) v × (asks self.old room.now (places_of limbo.old) ≡ Some asked) ×
            Answers z self.old room.now asked answer v w }
        ensures same { IsSameWrite self.old room.now self.new room.now }
        ensures restarts { self.new.restarts ≡ self.old.restarts }
        ensures apart { IsApart self.new }
        ensures left { steps_left self.new room.now (places_of limbo.new) < steps_left self.old room.now (places_of limbo.old) }
        ensures fits { (z : Sizes) (u v w : View) (ps : List Place) (asked : ActionOf) →
            Fits z u ps self.old room.now (places_of limbo.old) v → asks self.old room.now (places_of limbo.old) ≡ Some asked →
            Answers z self.old room.now asked answer v w → Fits z u ps self.new room.now (places_of limbo.new) w }
    {
        let Stage::Enter(enter) = &mut self.stage else {
            unreachable!()
        };
        enter.told(limbo, answer);
        match enter.ended() {
            None => {}
            Some(entered) => self.entered(room, entered),
        }
    }

    /// The opening has ended so: the first attempt is made, or limbo was crowded.
    #[inline(always)]
    fn entered(&mut self, room: &Room, entered: Entered)
        ensures kept { (self.new.job ≡ self.old.job) × (self.new.turns ≡ self.old.turns) × (self.new.restarts ≡ self.old.restarts) }
        ensures refuses { self.old.left ≡ 0 → WillRefuse self.new }
        ensures apart { IsApart self.new }
        ensures entered { HasEntered self.new.stage }
        ensures left { (qs : List Place) → steps_left self.new room.now qs ≤ tries_left self.old.left + 7 }
        ensures fits { (z : Sizes) (u v : View) (ps qs : List Place) → IsRoom z room.now → IsUntried z u self.old room.now v →
            HasEnded z u v ps qs entered → Fits z u ps self.new room.now qs v }
    {
        match entered {
            Entered::Pinned => self.go_on(room),
            Entered::Crowded(blocker) => self.stage = Stage::Ended(WriteOutcome::Crowded(blocker)),
        }
    }

    /// An attempt is made, where turns are left: the first, or another.
    fn go_on(&mut self, room: &Room)
        ensures going { (ended_at self.new ≡ None) × HasEntered self.new.stage }
        ensures job { self.new.job ≡ self.old.job }
        ensures turns { self.new.turns ≡ self.old.turns }
        ensures restarts { self.new.restarts ≡ self.old.restarts }
        ensures refuses { self.old.left ≡ 0 → WillRefuse self.new }
        ensures apart { IsApart self.new }
        ensures left { (qs : List Place) → steps_left self.new room.now qs ≤ tries_left self.old.left + 7 }
        ensures fits { (z : Sizes) (u opened v : View) (ps qs : List Place) → IsRoom z room.now → WasOpened z u opened ps qs →
            HasBegun z opened self.old.restarts v → HasHand z v room.now →
            opened.steps + self.old.turns ≤ v.steps + self.old.left → Fits z u ps self.new room.now qs v }
    {
        if self.left == 0 {
            self.begin_exit(room, WriteOutcome::Busy);
            return;
        }
        self.stage = Stage::Trying(Attempt::new(self.job));
    }

    /// The last attempt has ended so: the frame is closed.
    fn begin_exit(&mut self, room: &Room, outcome: WriteOutcome)
        ensures going { (ended_at self.new ≡ None) × HasEntered self.new.stage }
        ensures refuses { is_refusal outcome ≡ true → WillRefuse self.new }
        ensures job { self.new.job ≡ self.old.job }
        ensures turns { self.new.turns ≡ self.old.turns }
        ensures restarts { self.new.restarts ≡ self.old.restarts }
        ensures outcome { outcome_in self.new.stage ≡ Some outcome }
        ensures left { (qs : List Place) → steps_left self.new room.now qs ≤ 7 }
        ensures fits { (z : Sizes) (u opened began v : View) (ps qs : List Place) → IsRoom z room.now →
            WasOpened z u opened ps qs → HasBegun z opened self.old.restarts began →
            OutcomeBy z began self.old.job room.now outcome self.old.left v →
            opened.steps + self.old.turns ≤ v.steps + self.old.left → Fits z u ps self.new room.now qs v }
    {
        let exit = Exit::new(gone_by(outcome, &room.change));
        self.stage = Stage::Exit { exit, outcome };
    }

    /// Makes its steps, as far as nothing stops it: those of the opening, of an attempt, and of the close. What comes next is no step of its
    /// opening or of its close.
    #[inline(never)]
    pub(crate) fn hurry<S: EpochSteps>(&mut self, steps: &mut S, room: &mut Room, limbo: &mut Limbo)
        requires admitted { S.admits steps.old room.old.row.key.items }
        requires fits { (u : View) × (ps : List Place) ×
            Fits (S.sizes steps.old) u ps self.old room.old (places_of limbo.old) (S.view steps.old) }
        ensures only { S.only steps.old steps.new }
        ensures same { IsSameWrite self.old room.old self.new room.new }
        ensures framed { HasNoFrame self.new.stage }
        ensures later { (S.view steps.old).steps ≤ (S.view steps.new).steps }
        ensures left { (S.view steps.new).steps + steps_left self.new room.new (places_of limbo.new) ≤
            (S.view steps.old).steps + steps_left self.old room.old (places_of limbo.old) }
        ensures fits { (u : View) (ps : List Place) →
            Fits (S.sizes steps.old) u ps self.old room.old (places_of limbo.old) (S.view steps.old) →
            Fits (S.sizes steps.old) u ps self.new room.new (places_of limbo.new) (S.view steps.new) }
    {
        // each goes on where the one before it ended, with no step of the machine in between
        self.enter_all(steps, room, limbo);
        self.attempt_on(steps, room);
        self.exit_all(steps, room, limbo);
    }

    /// Makes the steps of its opening, one after another, if it stands there. Where a number goes back, the next search of its pool begins
    /// at its word.
    #[inline(always)]
    fn enter_all<S: EpochSteps>(&mut self, steps: &mut S, room: &mut Room, limbo: &mut Limbo)
        requires fits { (u : View) × (ps : List Place) ×
            Fits (S.sizes steps.old) u ps self.old room.old (places_of limbo.old) (S.view steps.old) }
        ensures only { S.only steps.old steps.new }
        ensures same { IsSameWrite self.old room.old self.new room.new }
        ensures entered { HasEntered self.new.stage }
        ensures later { (S.view steps.old).steps ≤ (S.view steps.new).steps }
        ensures left { (S.view steps.new).steps + steps_left self.new room.new (places_of limbo.new) ≤
            (S.view steps.old).steps + steps_left self.old room.old (places_of limbo.old) }
        ensures fits { (u : View) (ps : List Place) →
            Fits (S.sizes steps.old) u ps self.old room.old (places_of limbo.old) (S.view steps.old) →
            Fits (S.sizes steps.old) u ps self.new room.new (places_of limbo.new) (S.view steps.new) }
    {
        let Stage::Enter(enter) = self.stage else {
            return;
        };
        // a copy of its own stays in registers while it runs
        let mut running = enter;
        while let Some(asked) = running.next(limbo) {
            let answer = perform(steps, asked, None);
            running.told(limbo, answer);
            note_given(room, asked);
        }
        match running.ended() {
            None => unreachable!(),
            Some(entered) => self.entered(room, entered),
        }
    }

    /// Makes the steps of its attempt, if it stands in one.
    #[inline(always)]
    fn attempt_on<S: EpochSteps>(&mut self, steps: &mut S, room: &mut Room)
        requires admitted { S.admits steps.old room.old.row.key.items }
        requires fits { (u : View) × (ps : List Place) × (qs : List Place) ×
            Fits (S.sizes steps.old) u ps self.old room.old qs (S.view steps.old) }
        ensures only { S.only steps.old steps.new }
        ensures same { IsSameWrite self.old room.old self.new room.new }
        ensures entered { HasEntered self.old.stage → HasEntered self.new.stage }
        ensures later { (S.view steps.old).steps ≤ (S.view steps.new).steps }
        ensures left { (qs : List Place) → (S.view steps.new).steps + steps_left self.new room.new qs ≤
            (S.view steps.old).steps + steps_left self.old room.old qs }
        ensures fits { (u : View) (ps qs : List Place) → Fits (S.sizes steps.old) u ps self.old room.old qs (S.view steps.old) →
            Fits (S.sizes steps.old) u ps self.new room.new qs (S.view steps.new) }
    {
        match self.stage {
            Stage::Trying(_) => self.try_on(steps, room),
            Stage::Enter(_) | Stage::Exit { .. } | Stage::Ended(_) => {}
        }
    }

    /// Makes the steps of its close, one after another, if it stands there.
    #[inline(always)]
    fn exit_all<S: EpochSteps>(&mut self, steps: &mut S, room: &mut Room, limbo: &mut Limbo)
        requires fits { (u : View) × (ps : List Place) ×
            Fits (S.sizes steps.old) u ps self.old room.old (places_of limbo.old) (S.view steps.old) }
        ensures only { S.only steps.old steps.new }
        ensures same { IsSameWrite self.old room.old self.new room.new }
        ensures framed { HasEntered self.old.stage → HasNoFrame self.new.stage }
        ensures later { (S.view steps.old).steps ≤ (S.view steps.new).steps }
        ensures left { (S.view steps.new).steps + steps_left self.new room.new (places_of limbo.new) ≤
            (S.view steps.old).steps + steps_left self.old room.old (places_of limbo.old) }
        ensures fits { (u : View) (ps : List Place) →
            Fits (S.sizes steps.old) u ps self.old room.old (places_of limbo.old) (S.view steps.old) →
            Fits (S.sizes steps.old) u ps self.new room.new (places_of limbo.new) (S.view steps.new) }
    {
        let Stage::Exit { exit, outcome } = self.stage else {
            return;
        };
        // a copy of its own stays in registers while it runs
        let mut running = exit;
        while let Some(asked) = running.next(&room.stock) {
            let answer = perform(steps, asked, None);
            let Room { stock, change, .. } = room;
            running.told(limbo, stock, gone_by(outcome, change), answer);
        }
        self.stage = Stage::Ended(outcome);
    }

    /// Makes the steps of its attempt, stage after stage.
    #[inline(always)]
    fn try_on<S: EpochSteps>(&mut self, steps: &mut S, room: &mut Room)
        requires stage { (t : AttemptOf) × (self.old.stage ≡ stages.Trying t) }
        requires admitted { S.admits steps.old room.old.row.key.items }
        requires fits { (u : View) × (ps : List Place) × (qs : List Place) ×
            Fits (S.sizes steps.old) u ps self.old room.old qs (S.view steps.old) }
        ensures only { S.only steps.old steps.new }
        ensures job { self.new.job ≡ self.old.job }
        ensures turns { self.new.turns ≡ self.old.turns }
        ensures key { SameRow room.old room.new }
        ensures apart { IsApart self.new }
        ensures entered { HasEntered self.new.stage }
        ensures later { (S.view steps.old).steps ≤ (S.view steps.new).steps }
        ensures left { (qs : List Place) → (S.view steps.new).steps + steps_left self.new room.new qs ≤
            (S.view steps.old).steps + steps_left self.old room.old qs }
        ensures fits { (u : View) (ps qs : List Place) → Fits (S.sizes steps.old) u ps self.old room.old qs (S.view steps.old) →
            Fits (S.sizes steps.old) u ps self.new room.new qs (S.view steps.new) }
    {
        let Stage::Trying(attempt) = &mut self.stage else {
            unreachable!()
        };
        let mut left = self.left;
        attempt.hurry(steps, room, &mut left);
        self.left = left;
        match attempt.ended() {
            None => {}
            Some(ending) => self.conclude(room, ending),
        }
    }

    /// A step of an attempt was made.
    fn try_told(&mut self, room: &mut Room, answer: Answer)
        requires stage { (t : AttemptOf) × (self.old.stage ≡ stages.Trying t) }
        requires told { (z : Sizes) × (u : View) × (v : View) × (w : View) × (ps : List Place) × (qs : List Place) ×
            (asked : ActionOf) × Fits z u ps self.old room.old qs v × (asks self.old room.old qs ≡ Some asked) ×
            Answers z self.old room.old asked answer v w }
        ensures job { self.new.job ≡ self.old.job }
        ensures turns { self.new.turns ≡ self.old.turns }
        ensures restarts { RestartsBy self.old self.new answer }
        ensures overlaps { OverlapsBy self.old self.new answer }
        ensures key { SameRow room.old room.new }
        ensures fits { (z : Sizes) (u v w : View) (ps qs : List Place) (asked : ActionOf) → Fits z u ps self.old room.old qs v →
            asks self.old room.old qs ≡ Some asked → Answers z self.old room.old asked answer v w →
            Fits z u ps self.new room.new qs w }
        ensures left { (qs : List Place) → steps_left self.new room.new qs < steps_left self.old room.old qs }
    {
        let Stage::Trying(attempt) = &mut self.stage else {
            unreachable!()
        };
        attempt.told(room, answer);
        self.left = self.left.saturating_sub(answer.steps());
        match attempt.ended() {
            None => self.turn(room),
            Some(ending) => self.conclude(room, ending),
        }
    }

    /// The attempt goes on, where turns are left or something is held.
    fn turn(&mut self, room: &Room)
        requires stage { (t : AttemptOf) × (self.old.stage ≡ stages.Trying t) }
        ensures job { self.new.job ≡ self.old.job }
        ensures turns { self.new.turns ≡ self.old.turns }
        ensures restarts { self.new.restarts ≡ self.old.restarts }
        ensures apart { IsApart self.new }
        ensures left { (qs : List Place) → steps_left self.new room.now qs ≤ steps_left self.old room.now qs }
        ensures fits { (z : Sizes) (u v : View) (ps qs : List Place) (t : AttemptOf) → self.old.stage ≡ stages.Trying t →
            IsRoom z room.now → IsTrying z u ps self.old t room.now qs v → Fits z u ps self.new room.now qs v }
    {
        let Stage::Trying(attempt) = &self.stage else {
            unreachable!()
        };
        if self.left == 0 {
            if attempt.is_free() {
                self.begin_exit(room, WriteOutcome::Busy);
            }
        }
    }

    /// An attempt ended so.
    #[inline(always)]
    fn conclude(&mut self, room: &Room, ending: Ending)
        ensures going { (ended_at self.new ≡ None) × HasEntered self.new.stage }
        ensures job { self.new.job ≡ self.old.job }
        ensures turns { self.new.turns ≡ self.old.turns }
        ensures restarts { (self.new.restarts ≡ self.old.restarts) ⊎ (ending ≡ anew) }
        ensures overlaps { outcome_in self.new.stage ≡ Some overlaps → ending ≡ attempt_overlaps }
        ensures left { (qs : List Place) → steps_left self.new room.now qs ≤ ended_left self.old.left ending + 7 }
        ensures fits { (z : Sizes) (u opened began v : View) (ps qs : List Place) → IsRoom z room.now →
            WasOpened z u opened ps qs → HasBegun z opened self.old.restarts began →
            EndFits z began self.old.job room.now ending v →
            opened.steps + self.old.turns ≤ v.steps + self.old.left → Fits z u ps self.new room.now qs v }
    {
        match outcome_of(self.left, ending) {
            Some(outcome) => self.begin_exit(room, outcome),
            None => {
                self.restarts = self.restarts.saturating_add(1);
                self.go_on(room);
            }
        }
    }

    /// A step of the close was made.
    fn exit_told(&mut self, room: &mut Room, limbo: &mut Limbo, answer: Answer)
        requires stage { (x : ExitOf) × (o : OutcomeOf) × (self.old.stage ≡ stages.Exit x o) }
        requires told { (z : Sizes) × (u : View) × (v : View) × (w : View) × (ps : List Place) × (asked : ActionOf) ×
            Fits z u ps self.old room.old (places_of limbo.old) v × (asks self.old room.old (places_of limbo.old) ≡ Some asked) ×
            Answers z self.old room.old asked answer v w }
        ensures job { self.new.job ≡ self.old.job }
        ensures turns { self.new.turns ≡ self.old.turns }
        ensures restarts { self.new.restarts ≡ self.old.restarts }
        ensures refuses { WillRefuse self.old → WillRefuse self.new }
        ensures outcome { outcome_in self.new.stage ≡ outcome_in self.old.stage }
        ensures key { SameRow room.old room.new }
        ensures fits { (z : Sizes) (u v w : View) (ps : List Place) (asked : ActionOf) →
            Fits z u ps self.old room.old (places_of limbo.old) v → asks self.old room.old (places_of limbo.old) ≡ Some asked →
            Answers z self.old room.old asked answer v w → Fits z u ps self.new room.new (places_of limbo.new) w }
        ensures left { steps_left self.new room.new (places_of limbo.new) < steps_left self.old room.old (places_of limbo.old) }
    {
        let Stage::Exit { exit, outcome } = &mut self.stage else {
            unreachable!()
        };
        let outcome = *outcome;
        let Room { stock, change, .. } = room;
        exit.told(limbo, stock, gone_by(outcome, change), answer);
        if exit.ended() {
            self.stage = Stage::Ended(outcome);
        }
    }
}

/// Where a number went back by this step of the opening, the next search of its pool begins at its word.
#[inline(always)]
fn note_given(room: &mut Room, asked: Action)
    ensures { room.new ≡ given (freed_by asked) room.old }
{
    if let Action::Free { link } = asked {
        room.stock.start_at(link);
    }
}

/// The child words of what the change unlinked, where it was made.
fn gone_by(outcome: WriteOutcome, change: &Change) -> &[u64]
    ensures words { result.now ≡ gone_by outcome change.now }
    ensures few { length result.now ≤ 3 }
{
    match outcome {
        WriteOutcome::New | WriteOutcome::Gone(_) => change.effects.unlinked.as_slice(),
        _ => &[],
    }
}

/// How the write ends by how an attempt did, if it does not try anew.
fn outcome_of(left: u32, ending: Ending) -> Option<WriteOutcome>
    ensures { result ≡ outcome_of left ending }
{
    match ending {
        Ending::New => Some(WriteOutcome::New),
        Ending::Present(value) => Some(WriteOutcome::Present(value)),
        Ending::Gone(value) => Some(WriteOutcome::Gone(value)),
        Ending::Absent => Some(WriteOutcome::Absent),
        Ending::Full(pool) => Some(or_busy(left, WriteOutcome::Full(pool))),
        Ending::Exhausted(cell) => Some(WriteOutcome::Exhausted(cell)),
        Ending::Overlaps => Some(or_busy(left, WriteOutcome::Overlaps)),
        Ending::Restart => None,
    }
}

/// Whether nothing was told.
fn is_refusal(outcome: WriteOutcome) -> bool
    ensures { result ≡ is_refusal outcome }
{
    !matches!(
        outcome,
        WriteOutcome::New | WriteOutcome::Present(_) | WriteOutcome::Gone(_) | WriteOutcome::Absent
    )
}

/// A refusal at the last turn is none: the turns were used.
fn or_busy(left: u32, outcome: WriteOutcome) -> WriteOutcome
    ensures { result ≡ or_busy left outcome }
{
    if left == 0 {
        WriteOutcome::Busy
    } else {
        outcome
    }
}

/// What was asked, and what was answered. It was one step, or none where the counter of a cell that was to be locked is at its end.
#[derive(Clone, Copy)]
pub struct Stepped {
    pub action: Action,
    pub answer: Answer,
}

/// Makes the next step of a write: one step, or none where a counter is at its end. A write that is run makes few steps so, and `finish`
/// is shorter without it.
#[inline(never)]
pub fn step<S: EpochSteps>(
    steps: &mut S,
    write: &mut Write,
    room: &mut Room,
    limbo: &mut Limbo,
) -> Stepped
    requires admitted { S.admits steps.old room.old.row.key.items }
    requires going { ended_at write.old ≡ None }
    requires fits { (u : View) × (ps : List Place) ×
        Fits (S.sizes steps.old) u ps write.old room.old (places_of limbo.old) (S.view steps.old) }
    ensures only { S.only steps.old steps.new }
    ensures job { write.new.job ≡ write.old.job }
    ensures turns { write.new.turns ≡ write.old.turns }
    ensures key { SameRow room.old room.new }
    ensures asked { asks write.old room.old (places_of limbo.old) ≡ Some result.action }
    ensures allowed { IsAllowed (S.sizes steps.old) write.old room.old (S.view steps.old) result.action }
    ensures row { Answers (S.sizes steps.old) write.old room.old result.action result.answer (S.view steps.old) (S.view steps.new) }
    ensures restarts { RestartsBy write.old write.new result.answer }
    ensures refuses { WillRefuse write.old → WillRefuse write.new }
    ensures apart { NoneOverlaps (S.admits steps.old) (S.sizes steps.old) room.old.row.key.items
        (S.view steps.old) (S.view steps.new) → IsApart write.old → IsApart write.new }
    ensures one { (S.view steps.new).steps ≤ (S.view steps.old).steps + 1 }
    ensures left { steps_left write.new room.new (places_of limbo.new) < steps_left write.old room.old (places_of limbo.old) }
    ensures fits { (u : View) (ps : List Place) →
        Fits (S.sizes steps.old) u ps write.old room.old (places_of limbo.old) (S.view steps.old) →
        Fits (S.sizes steps.old) u ps write.new room.new (places_of limbo.new) (S.view steps.new) }
{
    let Some(action) = write.next(room, limbo) else {
        unreachable!()
    };
    let answer = write.make_step(steps, action, room);
    write.told(room, limbo, answer);
    Stepped { action, answer }
}

/// Makes all steps that are left of a write.
pub fn finish<S: EpochSteps>(steps: &mut S, write: &mut Write, room: &mut Room, limbo: &mut Limbo)
    requires admitted { S.admits steps.old room.old.row.key.items }
    requires fits { (u : View) × (ps : List Place) ×
        Fits (S.sizes steps.old) u ps write.old room.old (places_of limbo.old) (S.view steps.old) }
    ensures only { S.only steps.old steps.new }
    ensures ended { (o : OutcomeOf) × (ended_at write.new ≡ Some o) }
    ensures job { write.new.job ≡ write.old.job }
    ensures turns { write.new.turns ≡ write.old.turns }
    ensures key { SameRow room.old room.new }
    ensures refuses { WillRefuse write.old → WillRefuse write.new }
    ensures apart { AreApart (S.admits steps.old) → IsApart write.old → IsApart write.new }
    ensures left { (S.view steps.new).steps + steps_left write.new room.new (places_of limbo.new) ≤
        (S.view steps.old).steps + steps_left write.old room.old (places_of limbo.old) }
    ensures fits { (u : View) (ps : List Place) →
        Fits (S.sizes steps.old) u ps write.old room.old (places_of limbo.old) (S.view steps.old) →
        Fits (S.sizes steps.old) u ps write.new room.new (places_of limbo.new) (S.view steps.new) }
{
    loop {
        write.hurry(steps, room, limbo);
        if write.ended().is_some() {
            return;
        }
        step(steps, write, room, limbo);
    }
}
