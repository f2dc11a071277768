//! The node below is stamped, and the node that names it is checked.
//!
//! # The problem
//!
//! A pass has gone down an Adaptive Radix Tree (ICDE 2013) by a key and found its leaf, which is to go. The node N that names the
//! leaf keeps one other child. A node of a tree has two children at least, so N goes too, and that child takes its place. Where the
//! child is a node C, three cells are written: the cell P above N, which gets C as its child; N, which goes; and C, which
//! stands higher then, so its prefix has to say what N's prefix and a byte said before.
//!
//! ```text
//! P ── N "rom" ─┬─ 'a' leaf "roman"     goes, and N with it
//!               └─ 'u' C "lu" ..        takes the place of N, as "romulu" ..
//! ```
//!
//! The descent has stamped P and N, and read all words of N (`Position` and `ReadSet` of `art_find`). It never came to C, since the
//! key does not lead there. C is known by one word of N alone, and words that were read under a stamp may be torn from one another
//! until a check of that stamp (DaMoN 2016): before it they need not be those of a node, and C need not be a child of N. That a
//! word which was read at a place of a child names C is all that is known so far (`NamesChild` of `art_plan`, whose `other_child`
//! finds that word). It is enough to begin: there is such a node.
//!
//! # Naming
//!
//! ```text
//! begin C ──► check N ──► Unchanged(stamp of C)
//!    └───────────┴─ a version word that is not clear, or another ──► Changed
//! ```
//!
//! C is begun first and N checked after that. At the check a tree stands that has all that was noted of N. So the words of N are
//! those of a node, and the word that names C is that of a byte's child (`IsParent`); and C, which is stamped by then, gets its path,
//! by which an upgrade knows that it is linked. The other way round C could be moved between the two, and its stamp would say
//! nothing of the tree.
//!
//! What is left to be read and checked is the business of `Validate`.
ghost use Rattle.std.specs.Prelude.{◌≡◌, ℕ, ◌<◌, ◌≤◌, List, Option, Some, None};
ghost use Rattle.art_cell.specs.declared.cells.Node.{Node as NodeOf};
ghost use Rattle.art_find.specs.declared.findings.Position.{Position as PositionOf};
ghost use Rattle.art_find.specs.declared.read_sets.ReadSet.{ReadSet as ReadSetOf};
ghost use Rattle.art_attempt.specs.Naming.{Fits, StillNames, asks, ended_at, steps_left};
ghost use Rattle.art_attempt.specs.declared.naming.Naming.TheVariants.{Begin as beginning, Check as checking};
ghost use Rattle.art_step.specs.Acting.{Answers, telling};
ghost use Rattle.art_step.specs.declared.actions.Action.{Action as ActionOf};
ghost use Rattle.art_step.specs.declared.deeds.Deed.{Deed};
ghost use Rattle.art_step.specs.declared.views.Sizes.{Sizes};
ghost use Rattle.art_step.specs.declared.views.View.{View};

use art_cell::{Cell, Node, Reads};
use art_find::Position;
use art_step::{Action, Answer, Stamp};

/// How a naming ended.
#[derive(Clone, Copy)]
pub enum Named {
    /// The node below has this stamp, and is a child of the node where the key stands.
    Unchanged(Stamp),
    /// That node was changed, or the one below is locked or obsolete.
    Changed,
}

/// Where a naming stands between two of its steps.
#[derive(Clone, Copy)]
pub enum Naming {
    /// The node below is to be stamped.
    Begin(Node),
    /// It is stamped, and the node that names it is to be checked.
    Check(Stamp),
    Ended(Named),
}

impl Naming {
    ghost use Rattle.std.specs.Prelude.{IfSome, ⊤};
    ghost use Rattle.art_find.specs.Asking.{MayLook};

    /// At its beginning: of the node that a word names which was read of the node where the key stands, checked or not.
    pub(crate) fn new(node: Node) -> Naming
        ensures going { ended_at result ≡ None }
        ensures fits { (z : Sizes) (k : List ℕ) (t : PositionOf) (read_set : ReadSetOf) (lower : List (Option ℕ)) (u : View) →
            StillNames z k t node read_set u u → Fits z k t node result read_set lower u u }
    {
        Naming::Begin(node)
    }

    /// The next step, or none where it has ended.
    pub(crate) fn next(&self, position: &Position) -> Option<Action>
        ensures asks { result ≡ asks position.now self.now }
        ensures allowed { (z : Sizes) (k : List ℕ) (n : NodeOf) (read_set : ReadSetOf) (lower : List (Option ℕ)) (u v : View) →
            Fits z k position.now n self.now read_set lower u v → IfSome result (MayLook z (λ s. ⊤) v) }
        ensures going { ended_at self.now ≡ None → (a : ActionOf) × (result ≡ Some a) }
    {
        match *self {
            Naming::Begin(node) => Some(Action::Begin {
                cell: Cell::Node(node),
            }),
            Naming::Check(_) => Some(Action::Check {
                stamp: position.stamp,
            }),
            Naming::Ended(_) => None,
        }
    }

    /// The step that it asked for was made, with this answer. Of a node that is stamped no word is read yet.
    pub(crate) fn told(&mut self, lower: &mut Reads, answer: Answer)
        ensures left { ended_at self.old ≡ None → steps_left self.new < steps_left self.old }
        ensures fits { (z : Sizes) (k : List ℕ) (t : PositionOf) (n : NodeOf) (read_set : ReadSetOf) (deed : Deed) (u v w : View)
            (asked : ActionOf) → Fits z k t n self.old read_set lower.old u v → asks t self.old ≡ Some asked →
            Answers z (telling deed) asked answer v w → Fits z k t n self.new read_set lower.new u w }
    {
        *self = match *self {
            Naming::Begin(_) => begun(lower, answer),
            Naming::Check(stamp) => checked(stamp, answer),
            Naming::Ended(named) => Naming::Ended(named),
        };
    }

    /// How it ended, if it has.
    pub(crate) fn ended(&self) -> Option<Named>
        ensures at { result ≡ ended_at self.now }
    {
        match *self {
            Naming::Ended(named) => Some(named),
            _ => None,
        }
    }
}

/// The version word of the node below was found. A clear one gave a stamp, under which nothing is read yet.
fn begun(lower: &mut Reads, answer: Answer) -> Naming
    ensures few { steps_left result ≤ 1 }
    ensures fits { (z : Sizes) (k : List ℕ) (t : PositionOf) (m n : NodeOf) (read_set : ReadSetOf) (deed : Deed) (u v w : View)
        (asked : ActionOf) → Fits z k t n (beginning m) read_set lower.old u v → asks t (beginning m) ≡ Some asked →
        Answers z (telling deed) asked answer v w → Fits z k t n result read_set lower.new u w }
{
    let Answer::Begun { result } = answer else {
        return Naming::Ended(Named::Changed);
    };
    match result {
        Ok(stamp) => {
            lower.clear();
            Naming::Check(stamp)
        }
        Err(_) => Naming::Ended(Named::Changed),
    }
}

/// The node that names the one below was checked. Where it is unchanged, that is its child.
fn checked(stamp: Stamp, answer: Answer) -> Naming
    ensures few { steps_left result ≤ 0 }
    ensures fits { (z : Sizes) (k : List ℕ) (t : PositionOf) (n : NodeOf) (read_set : ReadSetOf) (lower : List (Option ℕ)) (deed : Deed)
        (u v w : View) (asked : ActionOf) → Fits z k t n (checking stamp) read_set lower u v → asks t (checking stamp) ≡ Some asked →
        Answers z (telling deed) asked answer v w → Fits z k t n result read_set lower u w }
{
    if answer.passed() {
        Naming::Ended(Named::Unchanged(stamp))
    } else {
        Naming::Ended(Named::Changed)
    }
}
