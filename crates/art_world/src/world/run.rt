//! A world, run by a list of turns.
ghost use Rattle.std.specs.Prelude.{◌≡◌, ◌≤◌, ◌<◌, ℕ, length, false, Some};
ghost use Rattle.std.specs.List.{slice_get};
ghost use Rattle.art_step.specs.Sound.{IsSound};
ghost use Rattle.art_step.specs.WordRows.{view_at, views_of};
ghost use Rattle.art_world.specs.Contents.{OnlyStepsOf, memory_now};
ghost use Rattle.art_world.specs.Stepper.{OnlyStepped, pass_of, sizes_of, view_of, world_of};
ghost use Rattle.art_world.specs.Turns.{CountsOne, IsRun, IsTurn};

use super::{Stepper, World};

/// Who makes one step of its pass at each of its turns, or none at its last.
pub trait Actor {
    ghost use Rattle.std.specs.Prelude.{ℕ, Bool};
    ghost use Rattle.art_step.specs.declared.views.Sizes.{Sizes};
    ghost use Rattle.art_step.specs.declared.views.View.{View};
    ghost use Rattle.art_world.specs.Contents.{Contents};

    /// What it knows of its pass's view.
    ghost fits: { Self → Sizes → View → Type 0 };

    ghost has_ended: { Self → Bool };

    /// A turn of the pass leads from the first actor, in the first world, to the second actor, in the second world.
    ghost makes: { ℕ → Self → Contents → Self → Contents → Type 0 };

    /// Makes one step, or none where it only gives up: then it has ended. Says whether it has.
    fn turn(&mut self, stepper: &mut Stepper<'_>) -> bool
        requires going { has_ended self.old ≡ false }
        requires fits { fits self.old (sizes_of stepper.old) (view_of stepper.old) }
        ensures only { OnlyStepped stepper.old stepper.new }
        ensures fits { fits self.new (sizes_of stepper.new) (view_of stepper.new) }
        ensures step { CountsOne (view_of stepper.old) (view_of stepper.new) (has_ended self.new) }
        ensures makes { makes (pass_of stepper.old) self.old (world_of stepper.old) self.new (world_of stepper.new) }
        ensures ended { result ≡ has_ended self.new };

    /// Whether it has ended: then it gets no more turns.
    fn ended(&self) -> bool
        ensures { result ≡ has_ended self.now };
}

impl World {
    /// Each turn lets the actor that it names make one step, or end with none; actor i is pass i. A turn that names no actor, or one
    /// that has ended, does nothing. What goes back from a limbo at a turn goes back under nobody's pin.
    pub fn run<T: Actor>(&mut self, actors: &mut [T], turns: &[u32])
        requires passes { length actors.old ≤ length self.old.views }
        requires fits { (p : ℕ) (a : _) → slice_get actors.old p ≡ Some a → T.fits a self.old.sizes (view_at self.old.views p) }
        ensures run { IsRun T.fits T.has_ended T.makes turns.now self.old actors.old self.new actors.new }
        ensures sizes { self.new.sizes ≡ self.old.sizes }
        ensures passes { length self.new.views ≡ length self.old.views }
        ensures actors { length actors.new ≡ length actors.old }
        ensures fits { (p : ℕ) (a : _) → slice_get actors.new p ≡ Some a → T.fits a self.new.sizes (view_at self.new.views p) }
        ensures others { (q : ℕ) → length actors.old ≤ q → view_at self.new.views q ≡ view_at self.old.views q }
    {
        for turn in turns {
            self.take_turn(actors, *turn as usize);
        }
    }

    /// One turn of the actor of the pass, if there is one that has not ended.
    fn take_turn<T: Actor>(&mut self, actors: &mut [T], pass: usize)
        requires passes { length actors.old ≤ length self.old.views }
        requires fits { (p : ℕ) (a : _) → slice_get actors.old p ≡ Some a → T.fits a self.old.sizes (view_at self.old.views p) }
        ensures is_turn { IsTurn T.fits T.has_ended T.makes pass self.old actors.old self.new actors.new }
        ensures fits { (p : ℕ) (a : _) → slice_get actors.new p ≡ Some a → T.fits a self.new.sizes (view_at self.new.views p) }
    {
        if pass >= actors.len() {
            return;
        }
        let actor = &mut actors[pass];
        if actor.ended() {
            return;
        }
        self.lend_to(actor, pass);
    }

    /// The turn of one actor.
    fn lend_to<T: Actor>(&mut self, actor: &mut T, pass: usize)
        requires pass { pass < length self.old.views }
        requires going { T.has_ended actor.old ≡ false }
        requires fits { T.fits actor.old self.old.sizes (view_at self.old.views pass) }
        ensures only { OnlyStepsOf self.old self.new pass }
        ensures step { CountsOne (view_at self.old.views pass) (view_at self.new.views pass) (T.has_ended actor.new) }
        ensures sound_before { IsSound self.old.sizes (memory_now self.old) (views_of self.old.views) }
        ensures sound { IsSound self.new.sizes (memory_now self.new) (views_of self.new.views) }
        ensures fits { T.fits actor.new self.new.sizes (view_at self.new.views pass) }
        ensures makes { T.makes pass actor.old self.old actor.new self.new }
    {
        self.stays_sound();
        let mut stepper = Stepper { world: self, pass };
        actor.turn(&mut stepper);
        self.stays_sound();
    }
}
