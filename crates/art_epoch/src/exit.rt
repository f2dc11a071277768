//! The close of an attempt.
ghost use Rattle.std.specs.Prelude.{◌≡◌, ◌+◌, ◌<◌, ◌≤◌, ℕ, List, IfSome, None, Some, length, true};
ghost use Rattle.art_cell.specs.declared.cells.Link.{Link as LinkOf};
ghost use Rattle.art_step.specs.Acting.{Answers, IsAllowed};
ghost use Rattle.art_epoch.specs.Limbo.{IsLimbo, places_of};
ghost use Rattle.art_epoch.specs.Reclaiming.{Retires};
ghost use Rattle.art_step.specs.declared.actions.Action.{Action as ActionOf};
ghost use Rattle.art_step.specs.declared.actions.Action.TheVariants.{GiveBack as give_back, ReadEpoch as read_epoch};
ghost use Rattle.art_step.specs.declared.actions.Answer.TheVariants.{Word as word_told};
ghost use Rattle.art_epoch.specs.declared.limbo.Place.{Place};
ghost use Rattle.art_epoch.specs.Exit.{ExitFits, IsClosed, MayClose, asks, begins, gives, is_ended, stage_given, steps_left, stock_given};
ghost use Rattle.art_epoch.specs.Stocks.{GoesFirst, first_in};
ghost use Rattle.art_epoch.specs.declared.exit.Exit.TheVariants.{Giving as giving};
ghost use Rattle.art_epoch.specs.declared.stocks.Stock.{Stock as StockOf};
ghost use Rattle.art_step.specs.Tokens.{links_of};
ghost use Rattle.art_step.specs.declared.views.Sizes.{Sizes};
ghost use Rattle.art_step.specs.declared.views.View.{View};

use crate::{Limbo, Retiring, Stock};
use art_step::{Action, Answer, numbers_of};

/// Closes an attempt: the epoch is noted, which labels what was unlinked; each number that is still in hand goes back; then the
/// pass goes idle. The limbo and the numbers in hand stand beside it.
#[derive(Clone, Copy)]
pub enum Exit {
    /// The epoch is to be noted.
    Labelling,
    /// The first number in hand is to go back, or the pass to go idle where there is none.
    Giving,
    Ended,
}

impl Exit {
    /// Of an attempt that unlinked what these child words name.
    pub fn new(unlinked: &[u64]) -> Exit
        ensures begins { result ≡ begins unlinked.now }
        ensures fits { (z : Sizes) (k : List ℕ) (value : ℕ) (u : View) (ps : List Place) (stock : StockOf) →
            MayClose z k value u ps (links_of unlinked.now) stock →
            ExitFits z k value u ps (links_of unlinked.now) result ps stock u }
    {
        if unlinked.is_empty() {
            return Exit::Giving;
        }
        Exit::Labelling
    }

    /// The next step, or none where it has ended.
    #[inline(always)]
    pub fn next(&self, stock: &Stock) -> Option<Action>
        ensures asks { result ≡ asks self.now stock.now }
        ensures allowed { (z : Sizes) (k : List ℕ) (value : ℕ) (u v : View) (ps qs : List Place) (us : List LinkOf) →
            ExitFits z k value u ps us self.now qs stock.now v → IfSome result (IsAllowed z None v) }
        ensures order { (d : LinkOf) → result ≡ Some (give_back d) → GoesFirst stock.now d }
    {
        match self {
            Exit::Labelling => Some(Action::ReadEpoch),
            Exit::Giving => Some(gives(stock)),
            Exit::Ended => None,
        }
    }

    /// The step that it asked for was made, and answered so.
    #[inline(always)]
    pub fn told(&mut self, limbo: &mut Limbo, stock: &mut Stock, unlinked: &[u64], answer: Answer)
        requires few { length unlinked.now ≤ 3 }
        requires fits { (z : Sizes) × (k : List ℕ) × (value : ℕ) × (u : View) × (v : View) × (w : View) × (ps : List Place) ×
            (asked : ActionOf) ×
            ExitFits z k value u ps (links_of unlinked.now) self.old (places_of limbo.old) stock.old v ×
            (asks self.old stock.old ≡ Some asked) × Answers z None asked answer v w }
        ensures left { steps_left self.new stock.new < steps_left self.old stock.old }
        ensures fits { (z : Sizes) (k : List ℕ) (value : ℕ) (u v w : View) (ps : List Place) (asked : ActionOf) →
            ExitFits z k value u ps (links_of unlinked.now) self.old (places_of limbo.old) stock.old v →
            asks self.old stock.old ≡ Some asked → Answers z None asked answer v w →
            ExitFits z k value u ps (links_of unlinked.now) self.new (places_of limbo.new) stock.new w }
    {
        *self = match *self {
            Exit::Labelling => labelled(limbo, unlinked, answer.word()),
            Exit::Giving => given(stock),
            Exit::Ended => Exit::Ended,
        };
    }

    /// Whether it has ended.
    #[inline(always)]
    pub fn ended(&self) -> bool
        ensures at { result ≡ is_ended self.now }
        ensures closed { (z : Sizes) (k : List ℕ) (value : ℕ) (u v : View) (ps qs : List Place) (us : List LinkOf) (stock : StockOf) →
            ExitFits z k value u ps us self.now qs stock v → result ≡ true → IsClosed z u v ps qs us × (first_in stock ≡ None) }
    {
        match self {
            Exit::Ended => true,
            _ => false,
        }
    }
}

/// The first number in hand goes back; where there is none, 0 is stored.
#[inline(always)]
fn gives(stock: &Stock) -> Action
    ensures { result ≡ gives stock.now }
{
    match stock.first() {
        Some(link) => Action::GiveBack { link },
        None => Action::StorePin { word: 0 },
    }
}

/// The epoch was found, and labels what was unlinked.
#[inline(always)]
fn labelled(limbo: &mut Limbo, unlinked: &[u64], epoch: u64) -> Exit
    requires few { length unlinked.now ≤ 3 }
    requires room { length (places_of limbo.old) + length (links_of unlinked.now) ≤ 64 }
    ensures next { result ≡ giving }
    ensures retires { (z : Sizes) (v w : View) → IsLimbo (places_of limbo.old) (links_of unlinked.now) v.limbo →
        Answers z None read_epoch (word_told epoch) v w →
        Retires z v w (places_of limbo.old) (places_of limbo.new) (links_of unlinked.now) }
{
    Retiring.told(limbo, numbers_of(unlinked), epoch);
    Exit::Giving
}

/// The first number in hand went back, or the pass went idle.
#[inline(always)]
fn given(stock: &mut Stock) -> Exit
    ensures stock { stock.new ≡ stock_given stock.old }
    ensures next { result ≡ stage_given stock.old }
{
    match stock.first() {
        Some(link) => {
            stock.spend(link);
            Exit::Giving
        }
        None => Exit::Ended,
    }
}
