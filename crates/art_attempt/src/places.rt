//! How an attempt finds the place of its key, and what the check of that place tells.
ghost use Rattle.std.specs.Prelude.{◌≡◌, ◌≢◌, ◌+◌, ◌<◌, ◌≤◌, None, Some, true, false};
ghost use Rattle.art_attempt.specs.Attempts.{Fits, IsFinding, IsOverlapBy, IsRoom, IsSameTry, StandsAt, WasPlaced, asks, check_of};
ghost use Rattle.art_attempt.specs.Attempts.{deed_at, deed_by, ended_at, entered_by, finding_asks, is_free, settles};
ghost use Rattle.art_attempt.specs.declared.attempts.Ending.TheVariants.{Restart as anew, Overlaps as overlaps};
ghost use Rattle.art_attempt.specs.declared.attempts.Job.TheVariants as jobs;
ghost use Rattle.art_attempt.specs.declared.attempts.Stage.TheVariants as stages;
ghost use Rattle.art_find.specs.Findings.{position_at};
ghost use Rattle.art_find.specs.declared.descents.Verdict.TheVariants as verdicts;
ghost use Rattle.art_step.specs.Acting.{Answers as ActionAnswers, goes_on, passed, telling};
ghost use Rattle.art_step.specs.declared.actions.Action.{Action as ActionOf};
ghost use Rattle.art_step.specs.declared.views.Sizes.{Sizes};
ghost use Rattle.art_step.specs.declared.views.View.{View};

use crate::{Attempt, Case, Ending, Job, Room, Stage};
use art_find::{Finding, Position, Verdict, look};
use art_step::{Action, Answer, EpochSteps};

impl Attempt {
    ghost use Rattle.std.specs.Prelude.{IfSome};
    ghost use Rattle.art_attempt.specs.Asking.{IsAllowed};
    ghost use Rattle.art_attempt.specs.declared.attempts.Room.{Room as RoomOf};
    ghost use Rattle.art_find.specs.declared.findings.Finding.{Finding as FindingOf};

    /// What comes next on the way to the place of the key, and its check.
    pub(crate) fn find_next(&self, finding: &Finding) -> Option<Action>
        ensures asks { result ≡ finding_asks self.now.job finding.now }
        ensures allowed { (z : Sizes) (u v : View) (r : RoomOf) → IsFinding z u self.now.job finding.now r v →
            IfSome result (IsAllowed z (deed_by self.now.job finding.now r) r.change v) }
        ensures going { (z : Sizes) (u v : View) (r : RoomOf) → IsFinding z u self.now.job finding.now r v →
            (a : ActionOf) × (result ≡ Some a) }
    {
        finding_asked(self.job, finding)
    }

    /// A cell was looked at on the way to the place of the key.
    pub(crate) fn find_told(&mut self, room: &mut Room, answer: Answer)
        requires stage { (f : FindingOf) × (self.old.stage ≡ stages.Finding f) }
        requires told { (z : Sizes) × (u : View) × (v : View) × (w : View) × (asked : ActionOf) × Fits z u self.old room.old v ×
            (asks self.old room.old ≡ Some asked) × ActionAnswers z (telling (deed_at self.old room.old)) asked answer v w }
        ensures kept { IsSameTry self.old self.new room.old room.new }
        ensures anew { ended_at self.new ≡ Some anew → goes_on answer ≡ false }
        ensures overlaps { ended_at self.new ≡ Some overlaps → IsOverlapBy self.old answer }
        ensures free { is_free self.new ≡ true }
        ensures fits { (z : Sizes) (u v w : View) (asked : ActionOf) → Fits z u self.old room.old v →
            asks self.old room.old ≡ Some asked → ActionAnswers z (telling (deed_at self.old room.old)) asked answer v w →
            Fits z u self.new room.new w }
    {
        let Stage::Finding(finding) = &self.stage else {
            unreachable!()
        };
        match finding.position() {
            Some(position) => self.settled(room, &position, answer),
            None => self.find_on(room, answer),
        }
    }

    /// The descent goes on, or its way was changed.
    fn find_on(&mut self, room: &mut Room, answer: Answer)
        requires stage { (f : FindingOf) × (self.old.stage ≡ stages.Finding f) × (position_at f ≡ None) }
        requires told { (z : Sizes) × (u : View) × (v : View) × (w : View) × (asked : ActionOf) × Fits z u self.old room.old v ×
            (asks self.old room.old ≡ Some asked) × ActionAnswers z (telling (deed_at self.old room.old)) asked answer v w }
        ensures kept { IsSameTry self.old self.new room.old room.new }
        ensures anew { ended_at self.new ≡ Some anew → goes_on answer ≡ false }
        ensures not_overlaps { ended_at self.new ≢ Some overlaps }
        ensures free { is_free self.new ≡ true }
        ensures fits { (z : Sizes) (u v w : View) (asked : ActionOf) → Fits z u self.old room.old v →
            asks self.old room.old ≡ Some asked → ActionAnswers z (telling (deed_at self.old room.old)) asked answer v w →
            Fits z u self.new room.new w }
    {
        let Stage::Finding(finding) = &mut self.stage else {
            unreachable!()
        };
        let on = finding.told(&mut room.read_set, room.row.key.as_slice(), answer);
        if !on {
            self.stage = Stage::Ended(Ending::Restart);
        }
    }

    /// Makes steps until the place of the key is known, or its way was changed, as long as more than one turn is left.
    #[inline(always)]
    pub(crate) fn find_all<S: EpochSteps>(&mut self, steps: &mut S, room: &mut Room, left: &mut u32)
        requires turn { 0 < left.old }
        requires fits { (u : View) × Fits (S.sizes steps.old) u self.old room.old (S.view steps.old) }
        requires free { is_free self.old ≡ true }
        requires not_overlaps { ended_at self.old ≢ Some overlaps }
        ensures only { S.only steps.old steps.new }
        ensures kept { IsSameTry self.old self.new room.old room.new }
        ensures free { is_free self.new ≡ true }
        ensures not_overlaps { ended_at self.new ≢ Some overlaps }
        ensures turn { 0 < left.new }
        ensures less { left.new ≤ left.old }
        ensures made { (S.view steps.new).steps + left.new ≡ (S.view steps.old).steps + left.old }
        ensures fits { (u : View) → Fits (S.sizes steps.old) u self.old room.old (S.view steps.old) →
            Fits (S.sizes steps.old) u self.new room.new (S.view steps.new) }
    {
        let Stage::Finding(finding) = &mut self.stage else {
            return;
        };
        let key = room.row.key.as_slice();
        let on = finding.descend(steps, &mut room.read_set, key, left);
        if !on {
            self.stage = Stage::Ended(Ending::Restart);
        }
    }

    /// Checks the place of the key, once that is known, where this tells nothing and more than one turn is left.
    pub(crate) fn settle_on<S: EpochSteps>(
        &mut self,
        steps: &mut S,
        room: &mut Room,
        left: &mut u32,
    )
        requires turn { 0 < left.old }
        requires fits { (u : View) × Fits (S.sizes steps.old) u self.old room.old (S.view steps.old) }
        requires free { is_free self.old ≡ true }
        requires not_overlaps { ended_at self.old ≢ Some overlaps }
        ensures only { S.only steps.old steps.new }
        ensures kept { IsSameTry self.old self.new room.old room.new }
        ensures free { is_free self.new ≡ true }
        ensures not_overlaps { ended_at self.new ≢ Some overlaps }
        ensures turn { 0 < left.new }
        ensures less { left.new ≤ left.old }
        ensures made { (S.view steps.new).steps + left.new ≡ (S.view steps.old).steps + left.old }
        ensures fits { (u : View) → Fits (S.sizes steps.old) u self.old room.old (S.view steps.old) →
            Fits (S.sizes steps.old) u self.new room.new (S.view steps.new) }
    {
        let Stage::Finding(finding) = &self.stage else {
            return;
        };
        let Some(position) = finding.position() else {
            return;
        };
        if *left <= 1 || matches!(position.verdict, Verdict::Overlaps) {
            return;
        }
        let Some(answer) = look(steps, check_of(self.job, &position)) else {
            return;
        };
        *left -= 1;
        self.settled(room, &position, answer);
    }

    /// The place of the key was checked.
    #[inline(always)]
    fn settled(&mut self, room: &mut Room, position: &Position, answer: Answer)
        requires at { StandsAt position.now self.old.stage }
        requires told { (z : Sizes) × (u : View) × (v : View) × (w : View) × (f : FindingOf) × IsRoom z room.old ×
            IsFinding z u self.old.job f room.old v × (position_at f ≡ Some position.now) ×
            ActionAnswers z (telling (deed_by self.old.job f room.old)) (check_of self.old.job position.now) answer v w }
        ensures kept { IsSameTry self.old self.new room.old room.new }
        ensures anew { ended_at self.new ≡ Some anew → goes_on answer ≡ false }
        ensures overlaps { ended_at self.new ≡ Some overlaps →
            (self.old.job ≡ jobs.Insert) × (position.now.verdict ≡ verdicts.Overlaps) × (passed answer ≡ true) }
        ensures free { is_free self.new ≡ true }
        ensures fits { (z : Sizes) (u v w : View) (f : FindingOf) → IsRoom z room.old → IsFinding z u self.old.job f room.old v →
            position_at f ≡ Some position.now →
            ActionAnswers z (telling (deed_by self.old.job f room.old)) (check_of self.old.job position.now) answer v w →
            Fits z u self.new room.new w }
    {
        if !answer.passed() {
            self.stage = Stage::Ended(Ending::Restart);
            return;
        }
        match self.job {
            Job::Insert => self.enter(room, position),
            Job::Remove => self.leave(room, position),
        }
    }

    /// The place of a row that comes was checked: the key is there, or begins another, or a leaf may come.
    #[inline(always)]
    fn enter(&mut self, room: &mut Room, position: &Position)
        requires at { StandsAt position.now self.old.stage }
        requires job { self.old.job ≡ jobs.Insert }
        requires placed { (z : Sizes) × (u : View) × (v : View) × (w : View) × IsRoom z room.old ×
            WasPlaced z u self.old.job position.now room.old v w }
        ensures kept { IsSameTry self.old self.new room.old room.new }
        ensures not_anew { ended_at self.new ≢ Some anew }
        ensures overlaps { ended_at self.new ≡ Some overlaps → position.now.verdict ≡ verdicts.Overlaps }
        ensures free { is_free self.new ≡ true }
        ensures fits { (z : Sizes) (u v w : View) → IsRoom z room.old → WasPlaced z u self.old.job position.now room.old v w →
            Fits z u self.new room.new w }
    {
        match entered_by(&position.verdict) {
            Some(ending) => self.stage = Stage::Ended(ending),
            None => self.supply(room, position, Case::NewLeaf),
        }
    }

    /// The place of a row that goes was checked: a leaf has its key, or none has.
    fn leave(&mut self, room: &mut Room, position: &Position)
        requires at { StandsAt position.now self.old.stage }
        requires job { self.old.job ≡ jobs.Remove }
        requires placed { (z : Sizes) × (u : View) × (v : View) × (w : View) × IsRoom z room.old ×
            WasPlaced z u self.old.job position.now room.old v w }
        ensures kept { IsSameTry self.old self.new room.old room.new }
        ensures not_anew { ended_at self.new ≢ Some anew }
        ensures not_overlaps { ended_at self.new ≢ Some overlaps }
        ensures free { is_free self.new ≡ true }
        ensures fits { (z : Sizes) (u v w : View) → IsRoom z room.old → WasPlaced z u self.old.job position.now room.old v w →
            Fits z u self.new room.new w }
    {
        match position.verdict {
            Verdict::Found { leaf, value } => {
                room.found(leaf, value);
                self.choose(room, position);
            }
            _ => self.stage = Stage::Ended(Ending::Absent),
        }
    }
}

/// The check of the place, once there is one; until then what the descent asks.
fn finding_asked(job: Job, finding: &Finding) -> Option<Action>
    ensures { result ≡ finding_asks job finding.now }
{
    match finding.position() {
        Some(position) => Some(check_of(job, &position)),
        None => finding.next(),
    }
}

/// A check that settles the answer tells it; of any other place a check tells nothing.
fn check_of(job: Job, position: &Position) -> Action
    ensures { result ≡ check_of job position.now }
{
    let stamp = position.stamp;
    if settles(job, &position.verdict) {
        Action::Settle { stamp }
    } else {
        Action::Check { stamp }
    }
}

/// Whether the check of the place settles the answer: a row is there that was to come, or none is that was to go.
fn settles(job: Job, verdict: &Verdict) -> bool
    ensures { result ≡ settles job verdict.now }
{
    match job {
        Job::Insert => matches!(verdict, Verdict::Found { .. }),
        Job::Remove => !matches!(verdict, Verdict::Found { .. }),
    }
}

/// How an attempt ends at a place where no leaf may come.
fn entered_by(verdict: &Verdict) -> Option<Ending>
    ensures { result ≡ entered_by verdict.now }
{
    match *verdict {
        Verdict::Found { value, .. } => Some(Ending::Present(value)),
        Verdict::Overlaps => Some(Ending::Overlaps),
        _ => None,
    }
}
