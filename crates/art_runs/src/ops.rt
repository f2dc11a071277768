//! A call of a pass, as one that takes turns.
ghost use Rattle.std.specs.Prelude.{◌≡◌, ℕ, IfSome, true};
ghost use Rattle.art_change.specs.Calls.{HasCalled, IsCaller, IsCalling, StaysApart, Wish, restarts_in};
ghost use Rattle.art_change.specs.Calls.{Get as get_wish, Insert as insert_wish, Look as look_wish, Remove as remove_wish};
ghost use Rattle.art_key.specs.Bounds.{is_before};
ghost use Rattle.art_change.specs.ArtLook.Seen.{bound_at};
ghost use Rattle.art_runs.specs.Ops.{caller_in, last_in, outcome_in};
ghost use Rattle.art_step.specs.declared.views.Sizes.{Sizes as SizesOf};
ghost use Rattle.art_step.specs.declared.views.View.{View};
ghost use Rattle.art_tree.specs.declared.bounds.Bound.TheVariants.{To as to_text};

use art_change::{Caller, Made, Outcome};
use art_key::{Bound, Key};
use art_world::{Actor, Stepper};

/// An operation of one pass: an insert, a removal, a get or a look, one step a turn.
#[derive(Drop)]
pub struct Op {
    pub(crate) caller: Box<Caller>,
    /// The step that its last turn made.
    pub(crate) last: Option<Made>,
}

impl Op {
    /// An insert of the key with the value, in so many turns.
    pub fn insert(mut caller: Box<Caller>, key: &Key, value: u64, turns: u32) -> Op
        ensures calling { (z : SizesOf) (u : View) → IsCaller z u caller.value →
            IsCalling z (insert_wish key.now value) turns turns u (caller_in result) u }
        ensures apart { StaysApart (caller_in result) }
    {
        caller.begin_insert(key, value, turns);
        Op { caller, last: None }
    }

    /// A removal of the row with the key, in so many turns.
    pub fn remove(mut caller: Box<Caller>, key: &Key, turns: u32) -> Op
        ensures calling { (z : SizesOf) (u : View) → IsCaller z u caller.value →
            IsCalling z (remove_wish key.now) turns turns u (caller_in result) u }
        ensures apart { StaysApart (caller_in result) }
    {
        caller.begin_remove(key, turns);
        Op { caller, last: None }
    }

    /// A get of the key, in so many turns.
    pub fn get(mut caller: Box<Caller>, key: &Key, turns: u32) -> Op
        ensures calling { (z : SizesOf) (u : View) → IsCaller z u caller.value →
            IsCalling z (get_wish key.now) turns turns u (caller_in result) u }
        ensures apart { StaysApart (caller_in result) }
    {
        caller.begin_get(key, turns);
        Op { caller, last: None }
    }

    /// A look of the range from the key on, before the bound, in so many turns.
    pub fn look(mut caller: Box<Caller>, lo: &Key, hi: &Bound, turns: u32) -> Op
        requires { is_before (bound_at (to_text lo.now.items)) hi.now ≡ true }
        ensures calling { (z : SizesOf) (u : View) → IsCaller z u caller.value →
            IsCalling z (look_wish lo.now hi.now) turns turns u (caller_in result) u }
        ensures apart { StaysApart (caller_in result) }
    {
        caller.begin_look(lo, hi, turns);
        Op { caller, last: None }
    }

    /// How it ended, if it has.
    pub fn outcome(&self) -> Option<Outcome>
        ensures at { result ≡ outcome_in self.now }
        ensures called { IfSome result (λ o. (z : SizesOf) (w : Wish) (given turns : ℕ) (u v : View) →
            IsCalling z w given turns u (caller_in self.now) v →
            HasCalled z w given turns (restarts_in (caller_in self.now)) u (caller_in self.now) o v) }
    {
        self.caller.outcome()
    }

    /// The step that its last turn made, if it made one: of which kind, and whether it made the event.
    pub fn last(&self) -> Option<Made>
        ensures { result ≡ last_in self.now }
    {
        self.last
    }

    /// How often it began anew.
    pub fn restarts(&self) -> u64
        ensures { result ≡ restarts_in (caller_in self.now) }
    {
        self.caller.restarts()
    }

    /// What the pass keeps beside the table, for its next op.
    pub fn into_caller(self) -> Box<Caller>
        ensures { result.value ≡ caller_in self }
    {
        let Op { caller, last: _ } = self;
        caller
    }
}

impl Actor for Op {
    ghost use Rattle.art_runs.specs.Ops.{Goes, IsUnderWay, has_ended};

    ghost fits = { λ a z v. IsUnderWay z a v };

    ghost has_ended = { λ a. has_ended a };

    ghost makes = { λ p a k b l. Goes p a k b l };

    fn turn(&mut self, stepper: &mut Stepper<'_>) -> bool {
        self.last = self.caller.step(stepper);
        let ended = self.outcome();
        ended.is_some()
    }

    fn ended(&self) -> bool {
        self.outcome().is_some()
    }
}
