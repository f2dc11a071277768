//! One call of `Steps` or `EpochSteps`, and what it answers.
ghost use Rattle.std.specs.Prelude.{◌≡◌, ◌<◌, IfSome, ℕ};
ghost use Rattle.std.specs.Option.{option_map};
ghost use Rattle.art_cell.specs.declared.cells.Cell.TheVariants.{Leaf as leaf_cell};
ghost use Rattle.art_cell.specs.declared.cells.Link.TheVariants.{Leaf as leaf_link};
ghost use Rattle.art_step.specs.Acting.{Answers, IsAllowed, IsWord, IsLeafInHand, MayCommit, MayUpgrade, PassesAmong, Upgrades};
ghost use Rattle.art_step.specs.Acting.{goes_on, is_look, kind_of, leaf_linked, passed, steps_in, steps_of_fault, tells, unlinked, word_in};
ghost use Rattle.art_step.specs.Deeds.{IsAdmitted};
ghost use Rattle.art_step.specs.Steps.Commit as commit;
ghost use Rattle.art_step.specs.Steps.Write as write;
ghost use Rattle.art_step.specs.Views.{IsHolding, IsInHand, IsOnce, IsWordOf, links_in_limbo};
ghost use Rattle.art_step.specs.declared.views.Holding.{Holding as HoldingOf};
ghost use Rattle.art_step.specs.declared.views.InHand.{InHand as NumberInHand};

use crate::{
    Changed, Deed, EpochSteps, Held, Locked, Number, Stamp, StepKind, Steps, UpgradeFault, spent,
};
use arrayvec::ArrayVec;
use art_cell::{Cell, Link, Node, Pool};

/// One call of `Steps` or `EpochSteps`, with its arguments.
#[derive(Clone, Copy)]
pub enum Action {
    /// The version word of a cell is read.
    Begin {
        cell: Cell,
    },
    /// The word at a place of the stamp's cell.
    Read {
        stamp: Stamp,
        place: usize,
    },
    /// The word at a place of a leaf that the stamp's cell names.
    ReadLeaf {
        stamp: Stamp,
        leaf: u32,
        place: usize,
    },
    /// Whether the stamp's version word is unchanged.
    Check {
        stamp: Stamp,
    },
    /// The same, and where it is, the deed of the effects is done.
    Settle {
        stamp: Stamp,
    },
    /// The stamp's cell is locked.
    Upgrade {
        stamp: Stamp,
    },
    /// The node, whose number is in hand, is locked.
    Claim {
        node: Node,
    },
    /// A word of a cell that is held is written.
    Write {
        cell: Cell,
        place: usize,
        word: u64,
    },
    /// A word of a leaf in hand is written.
    WriteLeaf {
        leaf: u32,
        place: usize,
        word: u64,
    },
    /// The cell is released, perhaps as obsolete, and the effects come about.
    Commit {
        cell: Cell,
        obsolete: bool,
    },
    /// The cell is released, perhaps as obsolete.
    Release {
        cell: Cell,
        obsolete: bool,
    },
    /// The word of free numbers at an index of the pool, which loses the bit, if one is named.
    ClearBit {
        pool: Pool,
        index: u32,
        bit: Option<u32>,
    },
    /// A number in hand is free again.
    GiveBack {
        link: Link,
    },
    /// A number that was in limbo is free again.
    Free {
        link: Link,
    },
    /// The epoch is read, and labels what has no label yet.
    ReadEpoch,
    /// The word of the pass becomes this.
    StorePin {
        word: u64,
    },
    /// The epoch goes up.
    RaiseEpoch,
    /// The word of another pass.
    ReadPin {
        pass: u32,
    },
}

/// What such a call answers.
#[derive(Clone, Copy)]
pub enum Answer {
    Begun { result: Result<Stamp, Locked> },
    Word { found: u64 },
    Checked { result: Result<(), Changed> },
    Upgraded { result: Result<(), UpgradeFault> },
    Done,
}

/// What a check that settles an answer or a commit brings about.
#[derive(Drop)]
pub struct Effects {
    pub deed: Deed,
    /// The number of the leaf that comes into the tree, if one does.
    pub leaf: Option<u32>,
    /// The child words of what leaves it.
    pub unlinked: ArrayVec<u64, 3>,
}

impl Action {
    /// Whether it is a look at a cell.
    #[inline(always)]
    pub fn is_look(self) -> bool
        ensures { result ≡ is_look self }
    {
        matches!(
            self,
            Action::Begin { .. }
                | Action::Read { .. }
                | Action::ReadLeaf { .. }
                | Action::Check { .. }
                | Action::Settle { .. }
        )
    }

    /// The kind of the step.
    pub fn kind(self) -> StepKind
        ensures { result ≡ kind_of self }
    {
        match self {
            Action::Begin { .. } => StepKind::Begin,
            Action::Read { .. } | Action::ReadLeaf { .. } => StepKind::Read,
            Action::Check { .. } | Action::Settle { .. } => StepKind::Check,
            Action::Upgrade { .. } => StepKind::Upgrade,
            Action::Claim { .. } => StepKind::Claim,
            Action::Write { .. } | Action::WriteLeaf { .. } => StepKind::Write,
            Action::Commit { .. } => StepKind::Commit,
            Action::Release { .. } => StepKind::Release,
            Action::ClearBit { .. } => StepKind::Take,
            Action::GiveBack { .. } | Action::Free { .. } => StepKind::Give,
            Action::ReadEpoch => StepKind::Epoch,
            Action::StorePin { .. } => StepKind::Pin,
            Action::RaiseEpoch => StepKind::Advance,
            Action::ReadPin { .. } => StepKind::Watch,
        }
    }
}

impl Effects {
    /// Those of a check that settles an answer: this deed is done, and nothing comes or leaves.
    pub fn telling(deed: Deed) -> Effects
        ensures { result ≡ tells deed }
    {
        Effects {
            deed,
            leaf: None,
            unlinked: ArrayVec::new(),
        }
    }
}

impl Answer {
    /// Whether it lets a machine go on: no version word was locked, or another than the stamped one.
    #[inline(always)]
    pub fn goes_on(self) -> bool
        ensures { result ≡ goes_on self }
    {
        !matches!(
            self,
            Answer::Begun { result: Err(_) } | Answer::Checked { result: Err(_) }
        )
    }

    /// Whether it says that a version word is unchanged.
    #[inline(always)]
    pub fn passed(self) -> bool
        ensures { result ≡ passed self }
    {
        matches!(self, Answer::Checked { result: Ok(_) })
    }

    /// The word that was found, and 0 where none was.
    #[inline(always)]
    pub fn found(self) -> u64
        ensures { result ≡ word_in self }
    {
        match self {
            Answer::Word { found } => found,
            _ => 0,
        }
    }

    /// The word that was found.
    #[inline(always)]
    pub fn word(self) -> u64
        requires { IsWord self }
        ensures { result ≡ word_in self }
    {
        match self {
            Answer::Word { found } => found,
            _ => unreachable!(),
        }
    }

    /// How many steps there were: none where the counter of a cell that was to be locked is at its end, and else one.
    #[inline(always)]
    pub fn steps(self) -> u32
        ensures { result ≡ steps_in self }
    {
        match self {
            Answer::Upgraded { result: Err(fault) } => steps_of_fault(fault),
            _ => 1,
        }
    }
}

/// How many steps such an upgrade was.
#[inline(always)]
fn steps_of_fault(fault: UpgradeFault) -> u32
    ensures { result ≡ steps_of_fault fault }
{
    match fault {
        UpgradeFault::Exhausted(_) => 0,
        UpgradeFault::Changed(_) => 1,
    }
}

/// Makes the step that the action names; where the counter of a cell that is to be locked is at its end, none.
#[inline(always)]
pub fn perform<S: EpochSteps>(steps: &mut S, action: Action, effects: Option<&Effects>) -> Answer
    requires allowed { IsAllowed (S.sizes steps.old) (option_map (λ e. e.now) effects) (S.view steps.old) action }
    requires admitted { IfSome effects (λ e. IsAdmitted (S.admits steps.old) e.now.deed) }
    ensures only { S.only steps.old steps.new }
    ensures row { Answers (S.sizes steps.old) (option_map (λ e. e.now) effects.entry) action result (S.view steps.old) (S.view steps.new) }
    ensures keys { PassesAmong (S.admits steps.old) (S.sizes steps.old) (S.view steps.old) action result }
{
    match action {
        Action::Begin { cell } => Answer::Begun {
            result: steps.begin(cell),
        },
        Action::Read { stamp, place } => Answer::Word {
            found: steps.read(stamp, place),
        },
        Action::ReadLeaf { stamp, leaf, place } => Answer::Word {
            found: steps.read_leaf(stamp, leaf, place),
        },
        Action::Check { stamp } => Answer::Checked {
            result: steps.check(stamp, None),
        },
        Action::Settle { stamp } => match effects {
            Some(effects) => Answer::Checked {
                result: steps.check(stamp, Some(&effects.deed)),
            },
            None => unreachable!(),
        },
        Action::Upgrade { stamp } => Answer::Upgraded {
            result: upgrade(steps, stamp),
        },
        Action::Claim { node } => {
            steps.claim(Number::of(Link::Node(node))).spend();
            Answer::Done
        }
        Action::Write { cell, place, word } => {
            let mut held = Held::of(cell);
            steps.write(&mut held, place, word);
            held.spend();
            Answer::Done
        }
        Action::WriteLeaf { leaf, place, word } => {
            write_leaf(steps, leaf, place, word);
            Answer::Done
        }
        Action::Commit { cell, obsolete } => match effects {
            Some(effects) => {
                commit(steps, cell, obsolete, effects);
                Answer::Done
            }
            None => unreachable!(),
        },
        Action::Release { cell, obsolete } => {
            steps.release(Held::of(cell), obsolete);
            Answer::Done
        }
        Action::ClearBit { pool, index, bit } => Answer::Word {
            found: steps.bits_clear(pool, index, bit),
        },
        Action::GiveBack { link } => {
            steps.bits_set(Number::of(link));
            Answer::Done
        }
        Action::Free { link } => {
            steps.bits_set(Number::of(link));
            Answer::Done
        }
        Action::ReadEpoch => Answer::Word {
            found: steps.epoch(),
        },
        Action::StorePin { word } => {
            steps.pass_store(word);
            Answer::Done
        }
        Action::RaiseEpoch => Answer::Word {
            found: steps.epoch_add(),
        },
        Action::ReadPin { pass } => Answer::Word {
            found: steps.pass_load(pass),
        },
    }
}

/// Writes a word of a leaf in hand.
#[inline(always)]
fn write_leaf<S: Steps>(steps: &mut S, leaf: u32, place: usize, word: u64)
    requires { IsLeafInHand (S.sizes steps.old) (S.view steps.old) leaf × (place < 10) ×
        IsWordOf (S.sizes steps.old) (leaf_cell leaf) place word }
    ensures only { S.only steps.old steps.new }
    ensures row { (y : NumberInHand) → IsInHand (S.view steps.old) (leaf_link leaf) y →
        write.LeafOutcome (S.view steps.old) (S.view steps.new) y place word }
{
    let mut number = Number::of(Link::Leaf(leaf));
    steps.write_leaf(&mut number, place, word);
    number.spend();
}

/// Locks the stamp's cell.
#[inline(always)]
fn upgrade<S: Steps>(steps: &mut S, stamp: Stamp) -> Result<(), UpgradeFault>
    requires { MayUpgrade (S.sizes steps.old) (S.view steps.old) stamp }
    ensures only { S.only steps.old steps.new }
    ensures row { Upgrades (S.view steps.old) (S.view steps.new) stamp result }
{
    match steps.upgrade(stamp) {
        Ok(held) => {
            held.spend();
            Ok(())
        }
        Err(fault) => Err(fault),
    }
}

/// Commits, by the release of this cell.
#[inline(always)]
fn commit<S: Steps>(steps: &mut S, cell: Cell, obsolete: bool, effects: &Effects)
    requires may { MayCommit (S.sizes steps.old) (S.view steps.old) effects.now cell obsolete }
    requires admitted { IsAdmitted (S.admits steps.old) effects.now.deed }
    ensures only { S.only steps.old steps.new }
    ensures once { IsOnce (links_in_limbo (S.view steps.new).limbo) }
    ensures row { (h : HoldingOf) → IsHolding (S.view steps.old) cell h →
        commit.Outcome (S.view steps.old) (S.view steps.new) effects.now.deed (unlinked effects.now)
        (commit.coming (S.view steps.old) (leaf_linked effects.now)) h }
{
    let leaf = match effects.leaf {
        Some(number) => Some(Number::of(Link::Leaf(number))),
        None => None,
    };
    let unlinked = effects.unlinked.as_slice();
    let [first, second, third] = steps.commit(
        Held::of(cell),
        obsolete,
        &effects.deed,
        leaf,
        unlinked,
    );
    spent(first);
    spent(second);
    spent(third);
}
