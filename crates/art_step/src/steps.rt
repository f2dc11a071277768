//! The atomic steps of one pass, whoever keeps the words: of cells, and of numbers, epochs and pins.
ghost use Rattle.std.specs.Prelude.{◌≡◌, ◌<◌, ◌≤◌, ℕ, List, length, map, filter_map, IfSome, MatchResult, OnOk, ◌⊎◌};
ghost use Rattle.std.specs.Option.{option_map};
ghost use Rattle.art_cell.specs.declared.cells.Cell.TheVariants.{Leaf as leaf_cell, Node as node_cell};
ghost use Rattle.art_cell.specs.declared.cells.Link.TheVariants.{Leaf as leaf, Node as node};
ghost use Rattle.art_cell.specs.declared.cells.Node.{Node as NodeOf};
ghost use Rattle.art_cell.specs.Children.{child_word};
ghost use Rattle.art_step.specs.declared.views.Fact.TheVariants.{Starts};
ghost use Rattle.art_step.specs.declared.views.Holding.{Holding as HoldingOf};
ghost use Rattle.art_step.specs.declared.views.InHand.{InHand as NumberInHand};
ghost use Rattle.art_step.specs.Deeds.{IsAdmitted};
ghost use Rattle.art_step.specs.Effects.{FindsVersion, FindsWord, LocksClaimed, LocksStamped, PutsWord, Unlocks, FindsEpoch, FindsPassWord, PutsPassWord, RaisesEpoch, SetsBit};
ghost use Rattle.art_step.specs.Knowledge.{HoldsAmong};
ghost use Rattle.art_step.specs.Steps.Begin as begin;
ghost use Rattle.art_step.specs.Steps.Check as check;
ghost use Rattle.art_step.specs.Steps.Claim as claim;
ghost use Rattle.art_step.specs.Steps.Commit as commit;
ghost use Rattle.art_step.specs.Steps.Read as read;
ghost use Rattle.art_step.specs.Steps.Release as release;
ghost use Rattle.art_step.specs.Steps.Upgrade as upgrade;
ghost use Rattle.art_step.specs.Steps.Write as write;
ghost use Rattle.art_step.specs.Steps.Advance as advance;
ghost use Rattle.art_step.specs.Steps.Epoch as epoch;
ghost use Rattle.art_step.specs.Steps.Give as give;
ghost use Rattle.art_step.specs.Steps.Pin as pin;
ghost use Rattle.art_step.specs.Steps.Take as take_free;
ghost use Rattle.art_step.specs.Steps.Watch as watch;
ghost use Rattle.art_step.specs.Steps.{AtStep, LocksNothing};
ghost use Rattle.art_step.specs.Tokens.{cell_held, link_of_number, links_of};
ghost use Rattle.art_step.specs.Views.{IsHolding, IsInHand, IsWordOf, MayLock, Member, note_of};
ghost use Rattle.art_step.specs.WordPlaces.{HasVersion, IsInside};

use crate::{Changed, Deed, Held, Locked, Number, Sizes, Stamp, Unlinked, UpgradeFault};
use art_cell::{Cell, Pool};

/// The steps of one pass. Each call makes one atomic step, but for an upgrade that is refused as Exhausted, which makes
/// none (DaMoN 2016).
///
/// Contracts see the view of the pass before and after, and that it made one step at an instant between the call and its
/// return, with what happened at once to the words that all passes share. `only` says what else stayed. No law composes
/// instants: the contract of a call that makes several steps names the states between them.
pub trait Steps {
    ghost use Rattle.std.specs.Prelude.{◌≡◌, ◌↔◌, ℕ, List};
    ghost use Rattle.art_step.specs.declared.views.Sizes.{Sizes};
    ghost use Rattle.art_step.specs.declared.views.View.{View};
    ghost use Rattle.art_step.specs.Effects.{Instant};

    /// What the pass knows.
    ghost view: { Self → View };

    /// How many cells there are.
    ghost sizes: { Self → Sizes };

    /// Which keys commands may have: all of them, or those that a schema spells.
    ghost admits: { Self → List ℕ → Type 0 };

    /// The second is the first after steps of this pass alone.
    ghost only: { Self → Self → Type 0 };

    /// The words and all views just before and just after an instant between the first and the second. What memories these
    /// are is for the carrier to tie to its own words.
    ghost instants: { Self → Self → Instant };

    /// The version word of the anchor or of a node. A clear one gives a stamp.
    fn begin(&mut self, cell: Cell) -> Result<Stamp, Locked>
        requires inside { HasVersion (sizes self.old) cell }
        requires may { begin.May (view self.old) cell }
        ensures only { only self.old self.new }
        ensures at_once { AtStep (sizes self.old) (view self.old) (view self.new) (instants self.old self.new)
            (FindsVersion cell (begin.word_found result)) }
        ensures row { begin.Outcome (sizes self.old) (view self.old) (view self.new) cell result };

    /// A word of the stamp's cell.
    fn read(&mut self, stamp: Stamp, place: usize) -> u64
        requires inside { IsInside (sizes self.old) stamp.cell }
        requires may { read.May (view self.old) stamp place }
        ensures only { only self.old self.new }
        ensures at_once { AtStep (sizes self.old) (view self.old) (view self.new) (instants self.old self.new)
            (FindsWord stamp.cell place result) }
        ensures row { read.Outcome (sizes self.old) (view self.old) (view self.new) stamp place result };

    /// A word of a leaf that the words of the stamp's cell name.
    fn read_leaf(&mut self, stamp: Stamp, leaf: u32, place: usize) -> u64
        requires inside { leaf < (sizes self.old).leaves }
        requires may { read.MayLeaf (sizes self.old) (view self.old) stamp leaf place }
        ensures only { only self.old self.new }
        ensures at_once { AtStep (sizes self.old) (view self.old) (view self.new) (instants self.old self.new)
            (FindsWord (leaf_cell leaf) place result) }
        ensures row { read.LeafOutcome (view self.old) (view self.new) stamp leaf place result };

    /// Whether the stamp's version word is unchanged: then what was read under the stamp is what the cell says at this
    /// step, in a tree whose keys are all admitted, and the deed is done at it.
    fn check(&mut self, stamp: Stamp, deed: Option<&Deed>) -> Result<(), Changed>
        requires inside { HasVersion (sizes self.old) stamp.cell }
        requires may { check.May (sizes self.old) (view self.old) stamp (option_map (λ d. d.now) deed) }
        requires admitted { IfSome deed (λ d. IsAdmitted (admits self.old) d.now) }
        ensures only { only self.old self.new }
        ensures at_once { AtStep (sizes self.old) (view self.old) (view self.new) (instants self.old self.new)
            (check.Finds (sizes self.old) (view self.old) stamp result) }
        ensures row { check.Outcome (sizes self.old) (view self.old) (view self.new) stamp
            (option_map (λ d. d.now) deed.entry) result }
        ensures keys { OnOk result (HoldsAmong (admits self.old) (sizes self.old) (view self.old) stamp) };

    /// Locks the stamp's cell, whose path is known, if its version word is unchanged.
    fn upgrade(&mut self, stamp: Stamp) -> Result<Held, UpgradeFault>
        requires inside { HasVersion (sizes self.old) stamp.cell }
        requires stamp { Member stamp (view self.old).stamps }
        requires path { (q : List ℕ) × Member (note_of stamp (Starts q)) (view self.old).notes }
        requires early { MayLock (view self.old) }
        requires unclaimed { upgrade.HasClaimedNone (view self.old) }
        ensures only { only self.old self.new }
        ensures at_once { MatchResult result
            (λ _. AtStep (sizes self.old) (view self.old) (view self.new) (instants self.old self.new) (LocksStamped stamp))
            (λ e. LocksNothing (sizes self.old) (view self.old) (view self.new) (instants self.old self.new) stamp e) }
        ensures row { upgrade.Outcome (view self.old) (view self.new) stamp result };

    /// Locks a node whose number is in hand.
    fn claim(&mut self, number: Number) -> Held
        requires inside { (n : NodeOf) × (link_of_number number ≡ node n) × IsInside (sizes self.old) (node_cell n) ×
            claim.May (view self.old) n }
        ensures only { only self.old self.new }
        ensures at_once { (n : NodeOf) → link_of_number number ≡ node n →
            AtStep (sizes self.old) (view self.old) (view self.new) (instants self.old self.new) (LocksClaimed n) }
        ensures row { (n : NodeOf) → link_of_number number ≡ node n →
            (cell_held result ≡ node_cell n) × claim.Outcome (view self.old) (view self.new) n };

    /// Writes a word of a held cell, before the commit. It has the form of its place.
    fn write(&mut self, held: &mut Held, place: usize, value: u64)
        requires inside { IsInside (sizes self.old) (cell_held held.old) }
        requires may { (h : HoldingOf) × (h.cell ≡ cell_held held.old) × write.May (view self.old) h place }
        requires form { IsWordOf (sizes self.old) (cell_held held.old) place value }
        ensures only { only self.old self.new }
        ensures at_once { AtStep (sizes self.old) (view self.old) (view self.new) (instants self.old self.new)
            (PutsWord (cell_held held.old) place value) }
        ensures same { held.new ≡ held.old }
        ensures row { (h : HoldingOf) → IsHolding (view self.old) (cell_held held.old) h →
            write.Outcome (view self.old) (view self.new) h place value };

    /// Writes a word of a leaf whose number is in hand, likewise.
    fn write_leaf(&mut self, number: &mut Number, place: usize, value: u64)
        requires inside { (l : ℕ) × (y : NumberInHand) × (link_of_number number.old ≡ leaf l) × (l < (sizes self.old).leaves) ×
            write.MayLeaf (view self.old) y l place × IsWordOf (sizes self.old) (leaf_cell l) place value }
        ensures only { only self.old self.new }
        ensures at_once { (l : ℕ) → link_of_number number.old ≡ leaf l →
            AtStep (sizes self.old) (view self.old) (view self.new) (instants self.old self.new) (PutsWord (leaf_cell l) place value) }
        ensures same { number.new ≡ number.old }
        ensures row { (y : NumberInHand) → IsInHand (view self.old) (link_of_number number.old) y →
            write.LeafOutcome (view self.old) (view self.new) y place value };

    /// The first release of a change: at this step all held cells have their new words, and the deed is done. It is given
    /// the leaf that comes into the tree, if one does, and the child words of what leaves it; their numbers come back.
    fn commit(
        &mut self,
        held: Held,
        obsolete: bool,
        deed: &Deed,
        leaf: Option<Number>,
        unlinked: &[u64],
    ) -> Unlinked
        requires inside { IsInside (sizes self.old) (cell_held held) }
        requires words { map child_word (links_of unlinked.now) ≡ unlinked.now }
        requires few { length unlinked.now ≤ 3 }
        requires first { (h : HoldingOf) × (h.cell ≡ cell_held held) ×
            commit.MayBeFirst (view self.old) (links_of unlinked.now) h obsolete }
        requires may { commit.May (sizes self.old) (view self.old) deed.now (links_of unlinked.now)
            (commit.coming (view self.old) (option_map link_of_number leaf)) }
        requires admitted { IsAdmitted (admits self.old) deed.now }
        ensures only { only self.old self.new }
        ensures at_once { AtStep (sizes self.old) (view self.old) (view self.new) (instants self.old self.new)
            (commit.UnlocksFirst (view self.old) (cell_held held) obsolete) }
        ensures numbers { filter_map (option_map link_of_number) result ≡ links_of unlinked.now }
        ensures row { (h : HoldingOf) → IsHolding (view self.old) (cell_held held) h →
            commit.Outcome (view self.old) (view self.new) deed.now (links_of unlinked.now)
            (commit.coming (view self.old) (option_map link_of_number leaf)) h };

    /// A later release, or that of a change that is given up with nothing written and nothing claimed.
    fn release(&mut self, held: Held, obsolete: bool)
        requires inside { IsInside (sizes self.old) (cell_held held) }
        requires may { (h : HoldingOf) × (h.cell ≡ cell_held held) × release.May (view self.old) h obsolete }
        ensures only { only self.old self.new }
        ensures at_once { AtStep (sizes self.old) (view self.old) (view self.new) (instants self.old self.new)
            (Unlocks (cell_held held) obsolete) }
        ensures row { (h : HoldingOf) → IsHolding (view self.old) (cell_held held) h →
            release.Outcome (view self.old) (view self.new) h };

    ghost only_same: { (a : Self) → only a a };

    ghost only_then: { (a b c : Self) → only a b → only b c → only a c };

    ghost only_sizes: { (a b : Self) → only a b → sizes b ≡ sizes a };

    ghost only_admits: { (a b : Self) (k : List ℕ) → only a b → (admits b k ↔ admits a k) };
}

/// The steps of one pass by which numbers are taken and given back, and by which the epoch, its own pin and the pins of the
/// others are seen and changed. Each call makes one atomic step, but for the two that tell what never changes.
pub trait EpochSteps: Steps {
    /// How many numbers each pool has, and how many passes there are.
    fn pool_sizes(&self) -> Sizes
        ensures { result ≡ Self.sizes self.now };

    /// The number of the pass.
    fn own_pass(&self) -> u32
        ensures is { result ≡ (Self.view self.now).pass }
        ensures inside { result < (Self.sizes self.now).passes };

    /// The word of free numbers at an index of the pool, which loses the bit, if one is named. A number whose bit was set is
    /// in the hand of the pass then.
    fn bits_clear(&mut self, pool: Pool, index: u32, bit: Option<u32>) -> u64
        requires may { take_free.May (Self.sizes self.old) pool index bit }
        ensures only { Self.only self.old self.new }
        ensures at_once { AtStep (Self.sizes self.old) (Self.view self.old) (Self.view self.new) (Self.instants self.old self.new)
            (take_free.Takes pool index bit result) }
        ensures row { take_free.Outcome (Self.sizes self.old) (Self.view self.old) (Self.view self.new) pool index bit result };

    /// The bit of a number is set, which is free again: a number in hand that is not held, or, while the pass is idle, one in
    /// its limbo that is marked for every other pass.
    fn bits_set(&mut self, number: Number)
        requires may { give.May (Self.view self.old) (link_of_number number) ⊎
            give.MayFree (Self.sizes self.old) (Self.view self.old) (link_of_number number) }
        ensures only { Self.only self.old self.new }
        ensures at_once { AtStep (Self.sizes self.old) (Self.view self.old) (Self.view self.new) (Self.instants self.old self.new)
            (SetsBit (link_of_number number)) }
        ensures hand { give.May (Self.view self.old) (link_of_number number) →
            give.Outcome (Self.view self.old) (Self.view self.new) (link_of_number number) }
        ensures limbo { give.MayFree (Self.sizes self.old) (Self.view self.old) (link_of_number number) →
            give.FreeOutcome (Self.view self.old) (Self.view self.new) (link_of_number number) };

    /// The epoch, which is noted, and labels what is in limbo without a label.
    fn epoch(&mut self) -> u64
        ensures only { Self.only self.old self.new }
        ensures at_once { AtStep (Self.sizes self.old) (Self.view self.old) (Self.view self.new) (Self.instants self.old self.new)
            (FindsEpoch result) }
        ensures row { epoch.Outcome (Self.sizes self.old) (Self.view self.old) (Self.view self.new) result };

    /// Stores the word of the pass: from idle the epoch that it noted, or 0, by which it goes idle.
    fn pass_store(&mut self, word: u64)
        requires may { pin.May (Self.view self.old) word }
        ensures only { Self.only self.old self.new }
        ensures at_once { AtStep (Self.sizes self.old) (Self.view self.old) (Self.view self.new) (Self.instants self.old self.new)
            (PutsPassWord (Self.view self.old).pass word) }
        ensures row { pin.Outcome (Self.view self.old) (Self.view self.new) word };

    /// The epoch goes up by 1, where the pass has noted one from which it may. It answers the epoch before.
    fn epoch_add(&mut self) -> u64
        requires may { advance.May (Self.view self.old) }
        ensures only { Self.only self.old self.new }
        ensures at_once { AtStep (Self.sizes self.old) (Self.view self.old) (Self.view self.new) (Self.instants self.old self.new)
            (RaisesEpoch result) }
        ensures row { advance.Outcome (Self.view self.old) (Self.view self.new) };

    /// The word of another pass. What is in limbo, and what that pass has gone past, is marked for it.
    fn pass_load(&mut self, pass: u32) -> u64
        requires may { watch.May (Self.sizes self.old) (Self.view self.old) pass }
        ensures only { Self.only self.old self.new }
        ensures at_once { AtStep (Self.sizes self.old) (Self.view self.old) (Self.view self.new) (Self.instants self.old self.new)
            (FindsPassWord pass result) }
        ensures row { watch.Outcome (Self.view self.old) (Self.view self.new) pass result };
}
