//! Limbo: the numbers that a pass unlinked and has not given back. How they come in, and how they go back.
ghost use Rattle.std.specs.Prelude.{◌≡◌, ◌+◌, ◌<◌, ◌≤◌, ◌++◌, [], map, filter_map, length, remove, IfSome, IfNone, None};
ghost use Rattle.std.specs.Option.{option_map};
ghost use Rattle.art_epoch.specs.Limbo.{lets_go, no_place, open_index, place_for, places_for, places_of, IsLimbo};
ghost use Rattle.art_step.specs.Tokens.{link_of_number};
ghost use Rattle.art_step.specs.Acting.{Answers, IsAllowed, IsWord, word_in};
ghost use Rattle.art_epoch.specs.Reclaiming.{Fits, HearsWord, IsStage, MayGo, OnlyReclaims, Reclaims, Retires, asks_at, freed_at, least_after, least_at, places_after, stage_after, steps_left, watches_at, watching};
ghost use Rattle.art_epoch.specs.declared.limbo.ReclaimStage.TheVariants.{Noting as noting};

use crate::enter::TOP;
use arrayvec::ArrayVec;
use art_cell::Link;
use art_step::{Action, Answer, EpochSteps, Number, Unlinked, perform, spent};

/// How many numbers may wait.
const PLACES: usize = 64;

/// A number that waits, and its label: the epoch that was found after the commit which unlinked it.
#[derive(Clone, Copy)]
pub struct Place {
    pub link: Link,
    pub label: u64,
}

impl Default for Place {
    fn default() -> Place
        ensures { result ≡ no_place }
    {
        Place {
            link: Link::Leaf(0),
            label: 0,
        }
    }
}

/// The numbers that a pass unlinked and has not given back, at most 64, in the order in which they came.
#[derive(Drop)]
pub struct Limbo {
    places: ArrayVec<Place, PLACES>,
}

impl Limbo {
    /// With nothing in it.
    pub fn new() -> Limbo
        ensures { places_of result ≡ [] }
    {
        Limbo {
            places: ArrayVec::new(),
        }
    }

    /// How many places are free.
    pub fn room(&self) -> u32
        ensures { result + length (places_of self.now) ≡ 64 }
    {
        (PLACES - self.places.len()) as u32
    }

    /// What waits, the first that came first.
    pub fn places(&self) -> &[Place]
        ensures { result.now ≡ places_of self.now }
    {
        self.places.as_slice()
    }

    /// The number, if there is one, waits with this label.
    fn add(&mut self, number: Option<Number>, label: u64)
        requires { length (places_of self.old) + length (place_for label (option_map link_of_number number)) ≤ 64 }
        ensures { places_of self.new ≡ places_of self.old ++ place_for label (option_map link_of_number number) }
    {
        if let Some(link) = spent(number) {
            self.places.push(Place { link, label });
        }
    }

    /// These numbers wait with this label.
    pub(crate) fn add_all(&mut self, numbers: Unlinked, label: u64)
        requires { length (places_of self.old) + length (filter_map (option_map link_of_number) numbers) ≤ 64 }
        ensures { places_of self.new ≡ places_of self.old ++ places_for label (filter_map (option_map link_of_number) numbers) }
    {
        let [first, second, third] = numbers;
        self.add(first, label);
        self.add(second, label);
        self.add(third, label);
    }

    /// The first place whose label is below the word, if there is one.
    pub(crate) fn first_open(&self, least: Option<u64>) -> Option<usize>
        ensures none { IfNone result (open_index least (places_of self.now) ≡ length (places_of self.now)) }
        ensures some { IfSome result (λ i. (i ≡ open_index least (places_of self.now)) × (i < length (places_of self.now))) }
    {
        for index in 0..self.places.len() {
            if lets_go(least, self.places[index].label) {
                return Some(index);
            }
        }
        None
    }

    /// The number of the first place whose label is below the word no longer waits.
    pub(crate) fn remove_first(&mut self, least: Option<u64>)
        requires { open_index least (places_of self.old) < length (places_of self.old) }
        ensures { places_of self.new ≡ remove (places_of self.old) (open_index least (places_of self.old)) }
    {
        if let Some(index) = self.first_open(least) {
            self.places.remove(index);
        }
    }
}

/// Nothing is there to wait for, or a word that the label is below.
pub fn lets_go(least: Option<u64>, label: u64) -> bool
    ensures { result ≡ lets_go least label }
{
    match least {
        Some(word) => label < word,
        None => true,
    }
}

/// How far the giving back has come.
#[derive(Clone, Copy)]
pub enum ReclaimStage {
    /// The epoch is to be found.
    Noting,
    /// It is to be raised.
    Raising,
    /// The word of this pass is to be found; this is the least before it that is not 0.
    Watching { pass: u32, least: Option<u64> },
    /// This is the least of all; so many numbers have gone back.
    Freeing { least: Option<u64>, freed: u32 },
}

/// Gives back what waits in the limbo of an idle pass, and what no other pass may still have in a stamp: it raises the epoch,
/// finds the word of each other pass once, in the order of their numbers, and gives back each number whose label is below
/// every word that is not 0. The limbo stands beside it.
#[derive(Clone, Copy)]
pub struct Reclaiming {
    own: u32,
    passes: u32,
    stage: ReclaimStage,
}

impl Reclaiming {
    ghost use Rattle.std.specs.Prelude.{ℕ, List, Some};
    ghost use Rattle.art_step.specs.declared.actions.Action.{Action as ActionOf};
    ghost use Rattle.art_step.specs.declared.actions.Action.TheVariants.{ReadEpoch as read_epoch};
    ghost use Rattle.art_epoch.specs.declared.limbo.Place.{Place};
    ghost use Rattle.art_step.specs.declared.views.Sizes.{Sizes};
    ghost use Rattle.art_step.specs.declared.views.View.{View};

    /// The machine of the pass `own`, of so many.
    pub fn new(own: u32, passes: u32) -> Reclaiming
        ensures asks { (ps : List Place) → asks_at result.stage ps ≡ Some read_epoch }
        ensures fits { (z : Sizes) (v : View) (ps : List Place) → own ≡ v.pass → own < passes → passes ≡ z.passes → v.pin ≡ 0 →
            length ps ≤ 64 → IsLimbo ps [] v.limbo → Fits z v ps result ps v }
    {
        Reclaiming {
            own,
            passes,
            stage: ReclaimStage::Noting,
        }
    }

    /// The next step, or none where it has ended.
    #[inline(always)]
    pub fn next(&self, limbo: &Limbo) -> Option<Action>
        ensures asks { result ≡ asks_at self.now.stage (places_of limbo.now) }
        ensures allowed { (z : Sizes) (v0 v : View) (ps : List Place) → Fits z v0 ps self.now (places_of limbo.now) v →
            IfSome result (IsAllowed z None v) }
    {
        match self.stage {
            ReclaimStage::Noting => Some(Action::ReadEpoch),
            ReclaimStage::Raising => Some(Action::RaiseEpoch),
            ReclaimStage::Watching { pass, .. } => Some(Action::ReadPin { pass }),
            ReclaimStage::Freeing { least, .. } => {
                let index = limbo.first_open(least)?;
                Some(Action::Free {
                    link: limbo.places()[index].link,
                })
            }
        }
    }

    /// The step that it asked for was made, and answered so.
    #[inline(always)]
    pub fn told(&mut self, limbo: &mut Limbo, answer: Answer)
        requires { (z : Sizes) × (v0 : View) × (v : View) × (w : View) × (ps : List Place) × (action : ActionOf) ×
            Fits z v0 ps self.old (places_of limbo.old) v × (asks_at self.old.stage (places_of limbo.old) ≡ Some action) ×
            Answers z None action answer v w }
        ensures own { self.new.own ≡ self.old.own }
        ensures passes { self.new.passes ≡ self.old.passes }
        ensures stage { self.new.stage ≡ stage_after self.old.own self.old.passes (word_in answer) self.old.stage }
        ensures places { places_of limbo.new ≡ places_after self.old.stage (places_of limbo.old) }
        ensures left { steps_left self.new.passes self.new.stage (places_of limbo.new) <
            steps_left self.old.passes self.old.stage (places_of limbo.old) }
        ensures fits { (z : Sizes) (v0 v w : View) (ps : List Place) (action : ActionOf) →
            Fits z v0 ps self.old (places_of limbo.old) v → asks_at self.old.stage (places_of limbo.old) ≡ Some action →
            Answers z None action answer v w → Fits z v0 ps self.new (places_of limbo.new) w }
    {
        let_go(limbo, self.stage);
        self.stage = after(self.own, self.passes, self.stage, answer);
    }

    /// The least of the words that it found of other passes so far and that are not 0, if there is one: what is labelled with that
    /// or above it stays.
    #[inline(always)]
    pub fn least(&self) -> Option<u64>
        ensures { result ≡ least_at self.now.stage }
    {
        match self.stage {
            ReclaimStage::Watching { least, .. } => least,
            ReclaimStage::Freeing { least, .. } => least,
            _ => None,
        }
    }

    /// The pass whose word is to be found, if it is at one.
    #[inline(always)]
    pub fn watches(&self) -> Option<u32>
        ensures { result ≡ watches_at self.now.stage }
    {
        match self.stage {
            ReclaimStage::Watching { pass, .. } => Some(pass),
            _ => None,
        }
    }

    /// How many numbers it gave back, once it has ended.
    pub fn freed(&self) -> u32
        ensures freed { result ≡ freed_at self.now.stage }
        ensures reclaims { (z : Sizes) (v0 v : View) (ps qs : List Place) → Fits z v0 ps self.now qs v → asks_at self.now.stage qs ≡ None →
            Reclaims z v0 v ps qs result }
    {
        match self.stage {
            ReclaimStage::Freeing { freed: count, .. } => count,
            _ => 0,
        }
    }
}

/// What waits once the step was made: where a number went back, the first that may go is gone.
#[inline(always)]
fn let_go(limbo: &mut Limbo, stage: ReclaimStage)
    requires { MayGo stage (places_of limbo.old) }
    ensures { places_of limbo.new ≡ places_after stage (places_of limbo.old) }
{
    if let ReclaimStage::Freeing { least, .. } = stage {
        limbo.remove_first(least);
    }
}

/// How far it has come once the step was answered so.
#[inline(always)]
fn after(own: u32, passes: u32, stage: ReclaimStage, answer: Answer) -> ReclaimStage
    requires stage { IsStage own passes stage }
    requires word { HearsWord stage → IsWord answer }
    ensures { result ≡ stage_after own passes (word_in answer) stage }
{
    match stage {
        ReclaimStage::Noting => noted(own, passes, answer.word()),
        ReclaimStage::Raising => watching(own, passes, 0, None),
        ReclaimStage::Watching { pass, least } => {
            watching(own, passes, pass + 1, least_after(least, answer.word()))
        }
        ReclaimStage::Freeing {
            least,
            freed: count,
        } => ReclaimStage::Freeing {
            least,
            freed: count + 1,
        },
    }
}

/// The epoch was found: it is raised where it is below its top.
fn noted(own: u32, passes: u32, epoch: u64) -> ReclaimStage
    requires { own < passes }
    ensures { result ≡ stage_after own passes epoch noting }
{
    if epoch < TOP {
        return ReclaimStage::Raising;
    }
    watching(own, passes, 0, None)
}

/// The next pass to be watched, from this one on; past the last, what waits goes back.
fn watching(own: u32, passes: u32, pass: u32, least: Option<u64>) -> ReclaimStage
    requires pass { pass ≤ passes }
    requires own { own < passes }
    ensures { result ≡ watching own passes pass least }
{
    let pass = if pass == own { pass + 1 } else { pass };
    if pass < passes {
        return ReclaimStage::Watching { pass, least };
    }
    ReclaimStage::Freeing { least, freed: 0 }
}

/// The least word that is not 0, with one more.
fn least_after(least: Option<u64>, word: u64) -> Option<u64>
    ensures { result ≡ least_after least word }
{
    if word == 0 {
        return least;
    }
    match least {
        Some(lowest) if lowest < word => Some(lowest),
        _ => Some(word),
    }
}

/// What waits in the limbo of the pass, which is idle, goes back, as far as no other pass may still have it in a stamp. It
/// answers how many numbers went back.
pub fn reclaim<S: EpochSteps>(steps: &mut S, limbo: &mut Limbo) -> u32
    requires idle { (S.view steps.old).pin ≡ 0 }
    requires limbo { IsLimbo (places_of limbo.old) [] (S.view steps.old).limbo }
    ensures only { S.only steps.old steps.new }
    ensures steps { (S.view steps.new).steps ≤ (S.view steps.old).steps + 1 + (S.sizes steps.old).passes + result }
    ensures same { OnlyReclaims (S.view steps.old) (S.view steps.new) }
    ensures reclaims { Reclaims (S.sizes steps.old) (S.view steps.old) (S.view steps.new) (places_of limbo.old)
        (places_of limbo.new) result }
{
    let _ = limbo.room();
    let mut reclaiming = Reclaiming::new(steps.own_pass(), steps.pool_sizes().passes);
    while let Some(action) = reclaiming.next(limbo) {
        let answer = perform(steps, action, None);
        reclaiming.told(limbo, answer);
    }
    reclaiming.freed()
}

/// Lets numbers into limbo that a commit unlinked: the one step that it asks for finds the epoch, which labels them.
#[derive(Clone, Copy)]
pub struct Retiring;

impl Retiring {
    ghost use Rattle.std.specs.Prelude.{List};
    ghost use Rattle.art_step.specs.declared.actions.Answer.TheVariants.{Word as word_told};
    ghost use Rattle.art_step.specs.declared.actions.Action.TheVariants.{ReadEpoch as read_epoch};
    ghost use Rattle.art_step.specs.declared.views.Sizes.{Sizes};
    ghost use Rattle.art_step.specs.declared.views.View.{View};

    /// The step that it makes.
    pub fn next(&self) -> Action
        ensures { result ≡ read_epoch }
    {
        Action::ReadEpoch
    }

    /// The step was made, and found this epoch.
    pub fn told(self, limbo: &mut Limbo, numbers: Unlinked, epoch: u64)
        requires { length (places_of limbo.old) + length (filter_map (option_map link_of_number) numbers) ≤ 64 }
        ensures { (z : Sizes) (v w : View) → IsLimbo (places_of limbo.old) (filter_map (option_map link_of_number) numbers) v.limbo →
            Answers z None read_epoch (word_told epoch) v w →
            Retires z v w (places_of limbo.old) (places_of limbo.new) (filter_map (option_map link_of_number) numbers) }
    {
        limbo.add_all(numbers, epoch);
    }
}

/// The numbers that a commit of the pass unlinked wait in its limbo, labelled with an epoch that is found after it.
pub fn retire<S: EpochSteps>(steps: &mut S, limbo: &mut Limbo, numbers: Unlinked)
    requires room { length (places_of limbo.old) + length (filter_map (option_map link_of_number) numbers) ≤ 64 }
    requires limbo { IsLimbo (places_of limbo.old) (filter_map (option_map link_of_number) numbers) (S.view steps.old).limbo }
    ensures only { S.only steps.old steps.new }
    ensures retires { Retires (S.sizes steps.old) (S.view steps.old) (S.view steps.new) (places_of limbo.old) (places_of limbo.new)
        (filter_map (option_map link_of_number) numbers) }
{
    let retiring = Retiring;
    let answer = perform(steps, retiring.next(), None);
    retiring.told(limbo, numbers, answer.word());
}
