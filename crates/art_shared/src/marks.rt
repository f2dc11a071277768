//! Passes learn what others had seen.
ghost use Rattle.std.specs.Prelude.{◌≡◌};
ghost use Rattle.art_step.specs.Histories.{StartsWith};
ghost use Rattle.art_step.specs.Steps.Anchor as anchor;
ghost use Rattle.art_shared.specs.Marks.{history_of, IsMarkOf, Looked, LooksOnce, Meets, told_too};
ghost use Rattle.art_shared.specs.SamePass.{SamePass, SameSeat};
ghost use Rattle.art_shared.specs.Tables.{IsPassOf, basis_in, known_to, view_of_pass};

use crate::closing::Glue;
use crate::law::Known;
use crate::mark::Mark;
use crate::pass::Pass;
use crate::shared::Shared;
use art_cell::Cell;
use atomic_table::Split;
use std::marker::Brand;

/// A new seat is told what the pass of a seat has seen.
pub(crate) struct Copied;

impl Split<Known> for Copied {
    ghost use Rattle.art_shared.specs.Passes.{marked};

    ghost left = { λ k. k };

    ghost right = { λ k. marked k };
}

impl Pass {
    /// The anchor alone is looked at, and all of the history is seen.
    fn look(&mut self, shared: &Shared) -> u64
        requires { IsPassOf shared.now self.old }
        ensures same { SamePass self.old self.new }
        ensures turn { Looked (basis_in shared.now) (known_to self.old) (known_to self.new) result }
    {
        let place = shared.basis.sizes.place_of(Cell::Anchor);
        self.load::<Brand, ()>(shared, place, &())
    }

    /// The seat is told what a mark was told.
    fn take_in(&mut self, shared: &Shared, mark: Mark)
        requires pass { IsPassOf shared.now self.old }
        requires mark { IsMarkOf shared.now mark }
        ensures same { SameSeat self.old self.new }
        ensures told { known_to self.new ≡ told_too (known_to self.old) (history_of mark) }
    {
        let Mark { seat } = mark;
        shared.table.shared.join_seat::<Glue>(&mut self.seat, seat);
    }
}

impl Shared {
    /// What the pass sees after a look of the anchor, for any pass to learn.
    pub fn mark(&self, pass: &mut Pass) -> Mark
        requires { IsPassOf self.now pass.old }
        ensures row { anchor.Outcome (view_of_pass pass.old) (view_of_pass pass.new) }
        ensures at_once { LooksOnce (basis_in self.now) (known_to pass.old) (known_to pass.new) }
        ensures history { history_of result ≡ (view_of_pass pass.new).seen }
        ensures mark { IsMarkOf self.now result }
        ensures same { SamePass pass.old pass.new }
        ensures pass { IsPassOf self.now pass.new }
    {
        pass.look(self);
        let seat = self.table.shared.split_seat::<Copied>(&mut pass.seat);
        Mark { seat }
    }

    /// The pass sees what the pass of the mark had seen, and all of the history, after a look of the anchor.
    pub fn learn(&self, pass: &mut Pass, mark: Mark)
        requires pass { IsPassOf self.now pass.old }
        requires mark { IsMarkOf self.now mark }
        ensures row { anchor.Outcome (view_of_pass pass.old) (view_of_pass pass.new) }
        ensures learnt { StartsWith (view_of_pass pass.new).seen (history_of mark) }
        ensures at_once { LooksOnce (basis_in self.now) (told_too (known_to pass.old) (history_of mark)) (known_to pass.new) }
        ensures told { (known_to pass.new).told ≡ (told_too (known_to pass.old) (history_of mark)).told }
        ensures same { SameSeat pass.old pass.new }
        ensures pass { IsPassOf self.now pass.new }
    {
        pass.take_in(self, mark);
        pass.look(self);
    }

    /// Each of two passes sees what the other had seen, and the other sees what the one sees.
    pub fn meet(&self, one: &mut Pass, other: &mut Pass)
        requires one { IsPassOf self.now one.old }
        requires other { IsPassOf self.now other.old }
        ensures meets { Meets (view_of_pass one.old) (view_of_pass one.new) (view_of_pass other.old) (view_of_pass other.new) }
        ensures one { SameSeat one.old one.new × IsPassOf self.now one.new }
        ensures other { SameSeat other.old other.new × IsPassOf self.now other.new }
    {
        let theirs = self.mark(other);
        self.learn(one, theirs);
        let ours = self.mark(one);
        self.learn(other, ours);
    }
}
