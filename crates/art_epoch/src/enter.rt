//! The opening of an attempt: what waits in limbo goes back, and the pass is pinned.
ghost use Rattle.std.specs.Prelude.{◌≡◌, ◌+◌, ◌-◌, ◌<◌, ◌≤◌, length, Some, None, ℕ, List, IfSome, []};
ghost use Rattle.std.specs.Option.{option_and_then};
ghost use Rattle.art_step.specs.Acting.{Answers, IsAllowed, IsWord, word_in};
ghost use Rattle.art_epoch.specs.Limbo.{places_of};
ghost use Rattle.art_epoch.specs.Pins as pins;
ghost use Rattle.art_epoch.specs.Reclaiming as reclaims;
ghost use Rattle.art_epoch.specs.Enter.{IsPinnedOn, MayOpen, EnterFits, HasEnded, asks, blocked_by, ended_at, first_label, going_on, reclaimed, steps_left, watched};
ghost use Rattle.art_step.specs.declared.actions.Action.{Action as ActionOf};
ghost use Rattle.art_epoch.specs.declared.limbo.Place.{Place as PlaceOf};
ghost use Rattle.art_step.specs.declared.views.Sizes.{Sizes};
ghost use Rattle.art_step.specs.declared.views.View.{View};
ghost use Rattle.art_epoch.specs.Pins.{Advances, Fits, MayPin, Pins};
ghost use Rattle.art_step.specs.Steps.Give as give;
ghost use Rattle.art_step.specs.Steps.Pin as pin;
ghost use Rattle.art_step.specs.Tokens.{link_of_number};

use crate::{Limbo, Place, Reclaiming, lets_go};
use art_step::{Action, Answer, EpochSteps, Number, perform};

/// How many places a limbo has.
const PLACES: u32 = 64;

/// How many of them an attempt wants free.
const ROOM: u32 = 4;

/// The first pass, in the order of their numbers, whose word blocked the oldest number in limbo, and that word.
#[derive(Clone, Copy, Debug, PartialEq, Eq)]
pub struct Blocker {
    pub pass: u32,
    pub epoch: u64,
}

/// How an opening ended.
#[derive(Clone, Copy, Debug, PartialEq, Eq)]
pub enum Entered {
    /// The pass is pinned, and limbo has four free places.
    Pinned,
    /// Fewer than four places were free after one reclaim; nothing was pinned.
    Crowded(Blocker),
}

/// Opens an attempt: what waits in limbo goes back as far as it may, and where four places are free then, the pass is pinned. The
/// limbo stands beside it.
#[derive(Clone, Copy)]
pub enum Enter {
    /// What waits goes back. The words that were found so far name this blocker of the first place that stays, if one stays.
    Reclaiming {
        reclaiming: Reclaiming,
        blocker: Blocker,
    },
    /// The pass is being pinned.
    Pinning(Pinning),
    Ended(Entered),
}

impl Enter {
    ghost use Rattle.art_step.specs.declared.actions.Action.TheVariants.{ReadEpoch as read_epoch};

    /// Of the pass `own`, of so many.
    pub fn new(own: u32, passes: u32, limbo: &Limbo) -> Enter
        ensures asks { asks result (places_of limbo.now) ≡ Some read_epoch }
        ensures left { (z : Sizes) (u : View) → MayOpen z u own passes (places_of limbo.now) →
            steps_left result (places_of limbo.now) ≤ 4 + passes + length (places_of limbo.now) }
        ensures fits { (z : Sizes) (u : View) → MayOpen z u own passes (places_of limbo.now) →
            EnterFits z u (places_of limbo.now) result (places_of limbo.now) u }
    {
        if limbo.room() == PLACES {
            return Enter::Pinning(Pinning::new());
        }
        let nobody = Blocker { pass: 0, epoch: 0 };
        Enter::Reclaiming {
            reclaiming: Reclaiming::new(own, passes),
            blocker: nobody,
        }
    }

    /// The next step, or none where it has ended.
    #[inline(always)]
    pub fn next(&self, limbo: &Limbo) -> Option<Action>
        ensures asks { result ≡ asks self.now (places_of limbo.now) }
        ensures allowed { (z : Sizes) (u v : View) (ps : List PlaceOf) → EnterFits z u ps self.now (places_of limbo.now) v →
            IfSome result (IsAllowed z None v) }
        ensures going { (z : Sizes) (u v : View) (ps : List PlaceOf) → EnterFits z u ps self.now (places_of limbo.now) v →
            ended_at self.now ≡ None → (asked : ActionOf) × (result ≡ Some asked) }
    {
        match self {
            Enter::Reclaiming { reclaiming, .. } => reclaiming.next(limbo),
            Enter::Pinning(pinning) => pinning.next(),
            Enter::Ended(_) => None,
        }
    }

    /// The step that it asked for was made, and answered so.
    #[inline(always)]
    pub fn told(&mut self, limbo: &mut Limbo, answer: Answer)
        requires { (z : Sizes) × (u : View) × (v : View) × (w : View) × (ps : List PlaceOf) × (asked : ActionOf) ×
            EnterFits z u ps self.old (places_of limbo.old) v × (asks self.old (places_of limbo.old) ≡ Some asked) ×
            Answers z None asked answer v w }
        ensures left { steps_left self.new (places_of limbo.new) < steps_left self.old (places_of limbo.old) }
        ensures fits { (z : Sizes) (u v w : View) (ps : List PlaceOf) (asked : ActionOf) →
            EnterFits z u ps self.old (places_of limbo.old) v → asks self.old (places_of limbo.old) ≡ Some asked →
            Answers z None asked answer v w → EnterFits z u ps self.new (places_of limbo.new) w }
    {
        *self = match *self {
            Enter::Reclaiming {
                reclaiming,
                blocker,
            } => { reclaimed(limbo, reclaiming, blocker, answer) }
            Enter::Pinning(pinning) => pinned(pinning, answer),
            Enter::Ended(opened) => Enter::Ended(opened),
        };
    }

    /// How it ended, if it has.
    #[inline(always)]
    pub fn ended(&self) -> Option<Entered>
        ensures at { result ≡ ended_at self.now }
        ensures opened { (z : Sizes) (u v : View) (ps qs : List PlaceOf) → EnterFits z u ps self.now qs v →
            IfSome result (HasEnded z u v ps qs) }
    {
        match self {
            Enter::Ended(opened) => Some(*opened),
            _ => None,
        }
    }
}

/// A step by which what waits goes back was made, and answered so.
#[inline(always)]
fn reclaimed(limbo: &mut Limbo, reclaiming: Reclaiming, blocker: Blocker, answer: Answer) -> Enter
    requires { (z : Sizes) × (v0 : View) × (v : View) × (w : View) × (ps : List PlaceOf) × (asked : ActionOf) ×
        reclaims.Fits z v0 ps reclaiming (places_of limbo.old) v × (reclaims.asks_at reclaiming.stage (places_of limbo.old) ≡ Some asked) ×
        Answers z None asked answer v w }
    ensures places { places_of limbo.new ≡ reclaims.places_after reclaiming.stage (places_of limbo.old) }
    ensures next { result ≡ reclaimed reclaiming blocker (word_in answer) (places_of limbo.old) }
{
    let mut reclaiming = reclaiming;
    let found = watched(reclaiming, answer);
    let least = reclaiming.least();
    reclaiming.told(limbo, answer);
    let blocker = blocked_by(found, least, limbo.places(), reclaiming.least(), blocker);
    going_on(limbo, reclaiming, blocker)
}

/// The pass whose word the step found, and that word, if it was a pass's.
#[inline(always)]
fn watched(reclaiming: Reclaiming, answer: Answer) -> Option<Blocker>
    requires { reclaims.HearsWord reclaiming.stage → IsWord answer }
    ensures { (places : List PlaceOf) → result ≡ option_and_then (watched (word_in answer)) (reclaims.asks_at reclaiming.stage places) }
{
    let pass = reclaiming.watches()?;
    Some(Blocker {
        pass,
        epoch: answer.word(),
    })
}

/// The label of the first place that is not below the least word, if there is one.
fn first_label(places: &[Place], least: Option<u64>) -> Option<u64>
    ensures { result ≡ first_label least places.now }
{
    for place in places {
        if !lets_go(least, place.label) {
            return Some(place.label);
        }
    }
    None
}

/// The pass that was found blocks the first place that stays under the lowest word, if that could have gone before. The place is looked
/// for only where a pass was found.
#[inline(always)]
fn blocked_by(
    found: Option<Blocker>,
    least: Option<u64>,
    places: &[Place],
    lowest: Option<u64>,
    blocker: Blocker,
) -> Blocker
    ensures { result ≡ blocked_by found least (first_label lowest places.now) blocker }
{
    let Some(found) = found else {
        return blocker;
    };
    let Some(label) = first_label(places, lowest) else {
        return blocker;
    };
    if lets_go(least, label) {
        found
    } else {
        blocker
    }
}

/// More goes back, or nothing more may: then the pass is pinned, or limbo is crowded.
#[inline(always)]
fn going_on(limbo: &Limbo, reclaiming: Reclaiming, blocker: Blocker) -> Enter
    ensures { result ≡ going_on (reclaims.asks_at reclaiming.stage (places_of limbo.now)) reclaiming blocker (places_of limbo.now) }
{
    if let Some(_) = reclaiming.next(limbo) {
        return Enter::Reclaiming {
            reclaiming,
            blocker,
        };
    }
    if limbo.room() < ROOM {
        return Enter::Ended(Entered::Crowded(blocker));
    }
    Enter::Pinning(Pinning::new())
}

/// A step of the pinning was made, and answered so.
#[inline(always)]
fn pinned(pinning: Pinning, answer: Answer) -> Enter
    requires { (z : Sizes) × (v0 : View) × (v : View) × (w : View) × (asked : ActionOf) × pins.Fits z v0 pinning v ×
        (pins.asks pinning ≡ Some asked) × Answers z None asked answer v w }
    ensures left { (places : List PlaceOf) → steps_left result places ≡ pins.steps_left pinning - 1 }
    ensures fits { (z : Sizes) (v0 v w : View) (asked : ActionOf) → pins.Fits z v0 pinning v → pins.asks pinning ≡ Some asked →
        Answers z None asked answer v w → IsPinnedOn z v0 w result }
{
    let mut pinning = pinning;
    pinning.told(answer);
    match pinning.next() {
        Some(_) => Enter::Pinning(pinning),
        None => Enter::Ended(Entered::Pinned),
    }
}

/// Pins a pass that is idle to the epoch: it notes the epoch and stores it in its own word.
#[derive(Clone, Copy)]
pub enum Pinning {
    /// The epoch is to be noted.
    Noting,
    /// It is to be stored.
    Storing(u64),
    /// The pass is pinned.
    Ended,
}

impl Pinning {
    ghost use Rattle.std.specs.Prelude.{ℕ, Some};
    ghost use Rattle.art_step.specs.declared.actions.Action.{Action as ActionOf};
    ghost use Rattle.art_step.specs.declared.actions.Action.TheVariants.{ReadEpoch as read_epoch};
    ghost use Rattle.art_step.specs.declared.views.Sizes.{Sizes};
    ghost use Rattle.art_step.specs.declared.views.View.{View};

    /// The machine at its beginning.
    pub fn new() -> Pinning
        ensures asks { pins.asks result ≡ Some read_epoch }
        ensures fits { (z : Sizes) (v : View) → MayPin v → Fits z v result v }
    {
        Pinning::Noting
    }

    /// The next step, or none where it has ended.
    #[inline(always)]
    pub fn next(&self) -> Option<Action>
        ensures asks { result ≡ pins.asks self.now }
        ensures allowed { (z : Sizes) (v0 v : View) → Fits z v0 self.now v → IfSome result (IsAllowed z None v) }
        ensures ended { (z : Sizes) (v0 v : View) → Fits z v0 self.now v → result ≡ None → Pins z v0 v }
    {
        match self {
            Pinning::Noting => Some(Action::ReadEpoch),
            Pinning::Storing(epoch) => Some(Action::StorePin { word: *epoch }),
            Pinning::Ended => None,
        }
    }

    /// The step that it asked for was made, and answered so.
    #[inline(always)]
    pub fn told(&mut self, answer: Answer)
        requires { (z : Sizes) × (v0 : View) × (v : View) × (w : View) × (action : ActionOf) × Fits z v0 self.old v ×
            (pins.asks self.old ≡ Some action) × Answers z None action answer v w }
        ensures left { pins.steps_left self.new ≡ pins.steps_left self.old - 1 }
        ensures fits { (z : Sizes) (v0 v w : View) (action : ActionOf) → Fits z v0 self.old v → pins.asks self.old ≡ Some action →
            Answers z None action answer v w → Fits z v0 self.new w }
    {
        *self = match self {
            Pinning::Noting => Pinning::Storing(answer.word()),
            _ => Pinning::Ended,
        };
    }
}

/// Pins the pass, which is idle and holds nothing, to the epoch.
pub fn pin<S: EpochSteps>(steps: &mut S)
    requires { MayPin (S.view steps.old) }
    ensures only { S.only steps.old steps.new }
    ensures pins { Pins (S.sizes steps.old) (S.view steps.old) (S.view steps.new) }
{
    let mut pinning = Pinning::new();
    while let Some(action) = pinning.next() {
        let answer = perform(steps, action, None);
        pinning.told(answer);
    }
}

/// The pass, which holds nothing, goes idle: all its stamps go.
pub fn unpin<S: EpochSteps>(steps: &mut S)
    requires { (S.view steps.old).held ≡ [] }
    ensures only { S.only steps.old steps.new }
    ensures row { pin.Outcome (S.view steps.old) (S.view steps.new) 0 }
{
    steps.pass_store(0);
}

/// The epoch at which it no longer rises.
pub(crate) const TOP: u64 = 1 << 62;

/// Raises the epoch, where that is not at its top.
pub fn advance<S: EpochSteps>(steps: &mut S)
    ensures only { S.only steps.old steps.new }
    ensures advances { Advances (S.sizes steps.old) (S.view steps.old) (S.view steps.new) }
{
    let epoch = steps.epoch();
    if epoch < TOP {
        steps.epoch_add();
    }
}

/// A number in hand, of a cell that is not held, is free again.
pub fn give<S: EpochSteps>(steps: &mut S, number: Number)
    requires { give.May (S.view steps.old) (link_of_number number) }
    ensures only { S.only steps.old steps.new }
    ensures row { give.Outcome (S.view steps.old) (S.view steps.new) (link_of_number number) }
{
    steps.bits_set(number);
}
