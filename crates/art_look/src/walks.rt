//! A descent by a key, or a look of a range.
ghost use Rattle.std.specs.Prelude.{◌≡◌, ℕ, List, length, ◌<◌, ◌≤◌, Option, None, Some};
ghost use Rattle.art_find.specs.Asking.{MayLook};
ghost use Rattle.art_step.specs.Acting.{Answers, goes_on, telling};
ghost use Rattle.art_find.specs.Driven.{get_done, restarts_after};
ghost use Rattle.art_step.specs.declared.actions.Action.{Action as ActionOf};
ghost use Rattle.art_step.specs.declared.actions.Answer.TheVariants as answers;
ghost use Rattle.art_step.specs.declared.actions.Action.TheVariants.{Settle as settle_asked};
ghost use Rattle.art_key.specs.declared.bounds.Bound.{Bound as KeyBound};
ghost use Rattle.art_look.specs.Looks as looks;
ghost use Rattle.art_look.specs.declared.path_buffers.PathBuffer.{PathBuffer as PathBufferOf};
ghost use Rattle.art_look.specs.Walks.{Fits, HasTurns, IsAtStart, Settles, aim_of, asks, deed_at, ended_at, of_value, reached_at};
ghost use Rattle.art_look.specs.Settlings.{StandsAt, settling_of, stamp_of};
ghost use Rattle.art_step.specs.declared.views.Sizes.{Sizes};
ghost use Rattle.art_step.specs.declared.views.Stamp.{Stamp as StampOf};
ghost use Rattle.art_step.specs.declared.views.View.{View};

use crate::straight::look_on;
use crate::{Look, LookStage, PathBuffer, Reach, Reached};
use art_find::{Descent, Stage, Tally, Verdict, go_down};
use art_key::{Bound, Key};
use art_model::Answer as Reply;
use art_step::{Act, Action, Answer, Changed, Deed, Stamp, Steps};

/// What is looked for.
#[derive(Clone, Copy, Debug, PartialEq, Eq)]
pub enum Aim {
    /// The value of a key.
    Key,
    /// The first row of a range.
    Range,
}

/// How a seek ends.
#[derive(Clone, Copy, Debug, PartialEq, Eq)]
pub enum Outcome {
    /// The key has this value.
    Found(u64),
    /// It has none.
    Absent,
    /// What the range has was seen, as far as the look saw.
    Seen,
    /// All turns were used.
    Busy,
}

/// What a walk stands at whose answer the next check settles, of a get or of a look.
#[derive(Clone, Copy)]
pub(crate) enum Settling {
    Key {
        stamp: Stamp,
        verdict: Verdict,
    },
    Range {
        stamp: Stamp,
        reach: Reach,
        value: Option<u64>,
    },
}

impl Settling {
    /// The stamp that is checked.
    pub(crate) fn stamp(self) -> Stamp
        ensures { result ≡ stamp_of self }
    {
        match self {
            Settling::Key { stamp, .. } | Settling::Range { stamp, .. } => stamp,
        }
    }
}

/// The machine of either.
#[derive(Clone, Copy)]
pub(crate) enum Walk {
    Key(Descent),
    Range(Look),
}

impl Walk {
    ghost use Rattle.std.specs.Prelude.{IfSome};

    /// At its beginning.
    pub(crate) fn new(aim: Aim) -> Walk
        ensures aim { aim_of result ≡ aim }
        ensures fresh { (z : Sizes) (k : List ℕ) (hi : KeyBound) (t : PathBufferOf) → IsAtStart z k hi result t }
    {
        match aim {
            Aim::Key => Walk::Key(Descent::new()),
            Aim::Range => Walk::Range(Look::new()),
        }
    }

    /// The next step, or none where it has ended.
    pub(crate) fn next(&self) -> Option<Action>
        ensures asks { result ≡ asks self.now }
        ensures allowed { (z : Sizes) (k : List ℕ) (hi : KeyBound) (t : PathBufferOf) (u v : View) (n : ℕ) →
            Fits z k hi u self.now t n v → IfSome result (MayLook z (Settles self.now k t) v) }
        ensures going { ended_at self.now ≡ None → (a : ActionOf) × (result ≡ Some a) }
    {
        match self {
            Walk::Key(descent) => descent.next(),
            Walk::Range(look) => look.next(),
        }
    }

    /// The step that it asked for was made, with this answer. Whether it goes on: else it restarts. The key is the one that is
    /// looked for, or the lower end of the range.
    pub(crate) fn told(&mut self, key: &[u8], path_buffer: &mut PathBuffer, answer: Answer) -> bool
        requires short { length key.now ≤ 64 }
        requires told { (z : Sizes) × (hi : KeyBound) × (u : View) × (v : View) × (w : View) × (n : ℕ) × (asked : ActionOf) ×
            Fits z key.now hi u self.old path_buffer.old n v × (asks self.old ≡ Some asked) ×
            Answers z (telling (deed_at self.old key.now hi path_buffer.old)) asked answer v w }
        ensures on { result ≡ goes_on answer }
        ensures aim { aim_of self.new ≡ aim_of self.old }
        ensures fits { (z : Sizes) (hi : KeyBound) (u v w : View) (n : ℕ) (asked : ActionOf) →
            Fits z key.now hi u self.old path_buffer.old n v → asks self.old ≡ Some asked →
            Answers z (telling (deed_at self.old key.now hi path_buffer.old)) asked answer v w →
            Fits z key.now hi u self.new path_buffer.new (restarts_after n (goes_on answer)) w }
    {
        match self {
            Walk::Key(descent) => descent.told(key, answer),
            Walk::Range(look) => look.told(key, path_buffer, answer),
        }
    }

    /// What it stands at, if the next check settles the answer.
    #[inline(always)]
    pub(crate) fn settling(&self) -> Option<Settling>
        ensures stands { IfSome result (λ s. StandsAt s self.now) }
        ensures all { result ≡ settling_of self.now }
    {
        match self {
            Walk::Key(descent) => {
                let (stamp, verdict) = descent.decided()?;
                Some(Settling::Key { stamp, verdict })
            }
            Walk::Range(look) => look.settling(),
        }
    }

    /// The check that settles the answer was made, where it stood at this, and found this. Whether it goes on: else it restarts.
    #[inline(always)]
    pub(crate) fn settle_told(&mut self, settling: Settling, checked: Result<(), Changed>) -> bool
        requires stands { StandsAt settling self.old }
        ensures on { result ≡ goes_on (answers.Checked checked) }
        ensures aim { aim_of self.new ≡ aim_of self.old }
        ensures fits { (z : Sizes) (k : List ℕ) (hi : KeyBound) (t : PathBufferOf) (u v w : View) (n : ℕ) → length k ≤ 64 →
            Fits z k hi u self.old t n v →
            Answers z (telling (deed_at self.old k hi t)) (settle_asked (stamp_of settling)) (answers.Checked checked) v w →
            Fits z k hi u self.new t (restarts_after n (goes_on (answers.Checked checked))) w }
    {
        match settling {
            Settling::Key { stamp, verdict } => {
                let Walk::Key(descent) = self else {
                    unreachable!()
                };
                descent.check_told(Stage::Decided { stamp, verdict }, checked)
            }
            Settling::Range {
                stamp,
                reach,
                value,
            } => {
                let Walk::Range(look) = self else {
                    unreachable!()
                };
                let stage = LookStage::Decided {
                    stamp,
                    reach,
                    value,
                };
                look.check_told(stage, checked)
            }
        }
    }

    /// Makes its steps one after another, as far as nothing stops it: not the check that settles the answer, and not with the last turn.
    pub(crate) fn hurry<S: Steps>(
        &mut self,
        steps: &mut S,
        tally: &mut Tally,
        key: &[u8],
        path_buffer: &mut PathBuffer,
    )
        requires short { length key.now ≤ 64 }
        requires some { 0 < tally.old.left }
        requires goes { (hi : KeyBound) × (turns : ℕ) × (u : View) ×
            HasTurns (S.sizes steps.old) key.now hi turns u self.old path_buffer.old tally.old (S.view steps.old) }
        ensures only { S.only steps.old steps.new }
        ensures aim { aim_of self.new ≡ aim_of self.old }
        ensures some { 0 < tally.new.left }
        ensures less { tally.new.left ≤ tally.old.left }
        ensures goes { (hi : KeyBound) (turns : ℕ) (u : View) →
            HasTurns (S.sizes steps.old) key.now hi turns u self.old path_buffer.old tally.old (S.view steps.old) →
            HasTurns (S.sizes steps.old) key.now hi turns u self.new path_buffer.new tally.new (S.view steps.new) }
    {
        match self {
            Walk::Key(descent) => go_down(steps, tally, descent, key),
            Walk::Range(look) => look_on(steps, tally, look, key, path_buffer),
        }
    }

    /// How it ended, if it has.
    pub(crate) fn ended(&self) -> Option<Outcome>
        ensures { result ≡ ended_at self.now }
    {
        match self {
            Walk::Key(descent) => Some(of_value(descent.ended()?)),
            Walk::Range(look) => {
                if look.ended() {
                    Some(Outcome::Seen)
                } else {
                    None
                }
            }
        }
    }

    /// How far a look has seen: at the step that settles it, and once that is settled.
    #[inline(always)]
    pub(crate) fn reached(&self) -> Option<Reached>
        ensures { result ≡ reached_at self.now }
    {
        match self {
            Walk::Key(_) => None,
            Walk::Range(look) => look.reached(),
        }
    }

    /// The event of the step that settles the answer.
    #[inline(always)]
    pub(crate) fn deed(&self, key: &[u8], hi: &Bound, path_buffer: &PathBuffer) -> Deed
        requires short { length key.now ≤ 64 }
        requires settles { (x : StampOf) × (asks self.now ≡ Some (settle_asked x)) }
        ensures { result ≡ deed_at self.now key.now hi.now path_buffer.now }
    {
        match self {
            Walk::Key(descent) => get_done(key, descent.answer()),
            Walk::Range(look) => look_done(look, key, hi, path_buffer),
        }
    }
}

/// How a get ends that found this.
fn of_value(value: Option<u64>) -> Outcome
    ensures { result ≡ of_value value }
{
    match value {
        Some(value) => Outcome::Found(value),
        None => Outcome::Absent,
    }
}

/// What a get of the key does where it has this value, or none.
#[inline(always)]
fn get_done(key: &[u8], value: Option<u64>) -> Deed
    requires { length key.now ≤ 64 }
    ensures { result ≡ get_done key.now value }
{
    let reply = match value {
        Some(value) => Reply::Found(value),
        None => Reply::Absent,
    };
    Deed::Done(Act::Get(copied(key)), reply)
}

/// The bytes as a key.
#[inline(always)]
fn copied(bytes: &[u8]) -> Key
    requires { length bytes.now ≤ 64 }
    ensures { result.items ≡ bytes.now }
{
    let mut key = Key::new();
    key.try_extend_from_slice(bytes).unwrap();
    key
}

/// What a look does that settles what it has seen.
#[inline(always)]
fn look_done(look: &Look, lo: &[u8], hi: &Bound, path_buffer: &PathBuffer) -> Deed
    requires short { length lo.now ≤ 64 }
    requires settles { (x : StampOf) × (looks.asks look.now.stage ≡ Some (settle_asked x)) }
    ensures { result ≡ looks.deed_at lo.now hi.now path_buffer.now look.now.stage }
{
    let Some(reached) = look.reached() else {
        unreachable!()
    };
    let seen = reached.seen(lo, hi, path_buffer);
    Deed::Look(seen.lo, seen.hi, seen.row)
}
