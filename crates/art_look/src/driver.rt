//! Makes the steps of a seek.
ghost use Rattle.std.specs.Prelude.{◌≡◌, ◌+◌, ◌<◌, ◌≤◌, length, Some, None};
ghost use Rattle.art_find.specs.Findings.{IsToSettle};
ghost use Rattle.art_step.specs.Acting.{Answers, telling};
ghost use Rattle.art_step.specs.declared.actions.Answer.{Answer as AnswerOf};
ghost use Rattle.art_look.specs.Asking.{MaySeek, is_counted, restarts_by, stepped_by, told_by, walked};
ghost use Rattle.art_look.specs.Seeks.{Fits, WillBeBusy, asks, ended_at, is_walking, steps_left};
ghost use Rattle.art_look.specs.Walks.{Settles, aim_of, asks as walk_asks, deed_at};
ghost use Rattle.art_look.specs.declared.walks.Aim.TheVariants as aims;
ghost use Rattle.art_look.specs.declared.walks.Outcome.{Outcome as OutcomeOf};
ghost use Rattle.art_step.specs.Events.{SeesEvent};
ghost use Rattle.art_step.specs.declared.views.View.{View};

use crate::walks::Walk;
use crate::{PathBuffer, Seek};
use art_key::Bound;
use art_step::{Action, Answer, Effects, EpochSteps, perform};

/// Which kind of step was made.
#[derive(Clone, Copy)]
pub enum Stepped {
    /// One of the pin or of the close: it is not counted.
    Frame,
    /// One of the walk, which goes on.
    Walked,
    /// One of the walk, which restarts: a version word was locked, obsolete or changed.
    Restart,
    /// The check of the walk that settled the answer, and made the event.
    Told,
}

/// A step that was made: the action, and which kind of step it was.
#[derive(Clone, Copy)]
pub struct Made {
    pub action: Action,
    pub stepped: Stepped,
}

/// Makes the step that a seek asks for; where that settles the answer, the event of the walk is made. The key is the one that is looked
/// for, or the lower end of the range.
#[inline(always)]
pub(crate) fn make<S: EpochSteps>(
    steps: &mut S,
    action: Action,
    walk: &Walk,
    key: &[u8],
    hi: &Bound,
    path_buffer: &PathBuffer,
) -> Answer
    requires short { length key.now ≤ 64 }
    requires admitted { aim_of walk.now ≡ aims.Key → S.admits steps.old key.now }
    requires asked { IsToSettle action → walk_asks walk.now ≡ Some action }
    requires allowed { MaySeek (S.sizes steps.old) (Settles walk.now key.now path_buffer.now) (S.view steps.old) action }
    ensures only { S.only steps.old steps.new }
    ensures row { Answers (S.sizes steps.old) (telling (deed_at walk.now key.now hi.now path_buffer.now)) action result
        (S.view steps.old) (S.view steps.new) }
{
    match action {
        Action::Settle { .. } => {
            let effects = Effects::telling(walk.deed(key, hi, path_buffer));
            perform(steps, action, Some(&effects))
        }
        _ => perform(steps, action, None),
    }
}

/// Which kind of step it was, by the action and its answer.
fn kind_of(action: Action, answer: Answer) -> Stepped
    ensures { result ≡ stepped_by action answer }
{
    match (action, answer) {
        (Action::Settle { .. }, Answer::Checked { result: Ok(()) }) => Stepped::Told,
        _ => walked(action.is_look(), answer.goes_on()),
    }
}

/// Of a look, by whether the walk goes on; or of another step.
fn walked(look: bool, on: bool) -> Stepped
    ensures { result ≡ walked look on }
{
    match (look, on) {
        (true, true) => Stepped::Walked,
        (true, false) => Stepped::Restart,
        (false, _) => Stepped::Frame,
    }
}

/// Makes the next step of a seek, and says which kind it was. The key is the one that is looked for, or the lower end of the range.
pub fn step<S: EpochSteps>(
    steps: &mut S,
    seek: &mut Seek,
    key: &[u8],
    hi: &Bound,
    path_buffer: &mut PathBuffer,
) -> Made
    requires short { length key.now ≤ 64 }
    requires admitted { aim_of seek.old.walk ≡ aims.Key → S.admits steps.old key.now }
    requires going { ended_at seek.old ≡ None }
    requires fits { (u : View) × Fits (S.sizes steps.old) key.now hi.now u seek.old path_buffer.old (S.view steps.old) }
    ensures only { S.only steps.old steps.new }
    ensures aim { aim_of seek.new.walk ≡ aim_of seek.old.walk }
    ensures turns { seek.new.turns ≡ seek.old.turns }
    ensures one { (S.view steps.new).steps ≡ (S.view steps.old).steps + 1 }
    ensures asked { asks seek.old ≡ Some result.action }
    ensures allowed { MaySeek (S.sizes steps.old) (Settles seek.old.walk key.now path_buffer.old) (S.view steps.old) result.action }
    ensures row { (answer : AnswerOf) ×
        Answers (S.sizes steps.old) (telling (deed_at seek.old.walk key.now hi.now path_buffer.old)) result.action answer
        (S.view steps.old) (S.view steps.new) × (result.stepped ≡ stepped_by result.action answer) }
    ensures refuses { WillBeBusy seek.old → WillBeBusy seek.new }
    ensures counted { is_counted result.stepped ≡ is_walking seek.old.stage }
    ensures restarts { seek.new.restarts ≡ restarts_by result.stepped seek.old.restarts }
    ensures tells { SeesEvent (S.view steps.old) (S.view steps.new)
        (told_by result.stepped (deed_at seek.old.walk key.now hi.now path_buffer.old)) }
    ensures left { steps_left seek.new < steps_left seek.old }
    ensures fits { (u : View) → Fits (S.sizes steps.old) key.now hi.now u seek.old path_buffer.old (S.view steps.old) →
        Fits (S.sizes steps.old) key.now hi.now u seek.new path_buffer.new (S.view steps.new) }
{
    let Some(action) = seek.next() else {
        unreachable!()
    };
    let answer = make(steps, action, seek.walk(), key, hi, path_buffer);
    seek.told(key, path_buffer, answer);
    Made {
        action,
        stepped: kind_of(action, answer),
    }
}

/// Makes all steps that are left of a seek. The key is the one that is looked for, or the lower end of the range.
pub fn finish<S: EpochSteps>(
    steps: &mut S,
    seek: &mut Seek,
    key: &[u8],
    hi: &Bound,
    path_buffer: &mut PathBuffer,
)
    requires short { length key.now ≤ 64 }
    requires admitted { aim_of seek.old.walk ≡ aims.Key → S.admits steps.old key.now }
    requires fits { (u : View) × Fits (S.sizes steps.old) key.now hi.now u seek.old path_buffer.old (S.view steps.old) }
    ensures only { S.only steps.old steps.new }
    ensures aim { aim_of seek.new.walk ≡ aim_of seek.old.walk }
    ensures turns { seek.new.turns ≡ seek.old.turns }
    ensures ended { (o : OutcomeOf) × (ended_at seek.new ≡ Some o) }
    ensures refuses { WillBeBusy seek.old → WillBeBusy seek.new }
    ensures left { (S.view steps.new).steps + steps_left seek.new ≤ (S.view steps.old).steps + steps_left seek.old }
    ensures fits { (u : View) → Fits (S.sizes steps.old) key.now hi.now u seek.old path_buffer.old (S.view steps.old) →
        Fits (S.sizes steps.old) key.now hi.now u seek.new path_buffer.new (S.view steps.new) }
{
    loop {
        if !seek.hurry(steps, key, path_buffer) {
            return;
        }
        seek.walk_by(steps, key, hi, path_buffer);
    }
}
