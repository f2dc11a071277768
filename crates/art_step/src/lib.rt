//! The protocol: what passes know, the steps that they make, and what always holds between any two steps.
//!
//! # The problem
//!
//! Many threads walk and change one tree of cells at once. Each is a *pass*: it reads and writes shared words of 64 bits, one at
//! a time, and any other pass may make steps in between. A reader takes no lock, so what it has read may be gone by the next
//! step. Optimistic lock coupling (DaMoN 2016) answers this with one version word a cell: a reader notes it, reads, and looks
//! whether it is still the same; a writer locks by changing it.
//!
//! # Version words
//!
//! ```text
//! bit      63 ............ 2        1         0
//!          counter                  locked    obsolete
//!
//! a cell that stays                       a node that leaves the tree and comes again
//!
//!     clear ──+2──► locked                    locked ──+3──► obsolete
//!       ▲             │                         ▲               │
//!       └─────+2──────┘                         └── becomes 2 ──┘
//!   upgrade         release                claim              release as obsolete
//! ```
//!
//! So the word of a cell only goes up while it is in the tree. A claim begins the counter of a node at 0 again, so that no
//! number wears out, and a clear word may come twice, in two lives of a number; but never while a pass has it in a stamp, since
//! a stamped node is in the tree or in a limbo, and what is claimed is in hand (`UnstampedLaw`). A reader that finds the word
//! that it noted knows that nobody held the cell in between. A leaf has no version word. It does not change while it is
//! linked, and counts as obsolete.
//!
//! # Stamps and notes
//!
//! `begin` finds the version word of the anchor or of a node. A clear one is a *stamp*. What is then read under the stamp is
//! *noted* with it (`read`, `read_leaf`): a word of the cell, or of a leaf that its words name. While the version word is the
//! stamped one, each note holds of the tree. `check` looks: at an unchanged word all notes under the stamp hold at that step,
//! and an event may be made whose answer they decide (a get that found its row, say). At a changed one the stamp goes.
//!
//! A child is stamped before its parent is checked. If it were checked first, the child could leave the tree and come again
//! somewhere else before it is stamped; so the check of the parent, made after, says that the child's cell stood there when
//! its stamp was taken, and gives the stamp its path.
//!
//! A pass sees the history as far as it went when it made its last event. To see all of it without an event, it looks at the
//! anchor alone (`specs/Steps/Anchor.antt`): it loads that cell's version word, and gains no stamp. No trait has a call for
//! it: a carrier of threads makes it where one pass learns what another has seen.
//!
//! # Changes
//!
//! `upgrade` locks a stamped cell whose path is known, if its word is unchanged; `claim` locks a node whose number is in hand.
//! From then on the pass *holds* the cell. Cells are upgraded from the top down, all before the first claim and the first
//! `write`: where one fails, what is held is released unchanged and the change begins anew. Nobody sees what is written
//! meanwhile, since no begin gives a stamp of a locked cell: the tree is made of the *logical words*, which are the old ones
//! of a held cell until the commit, and the new ones from it on.
//!
//! One step makes the change: `commit`, the release of the uppermost cell. At it all held cells have their new words at
//! once, and the event of the change is made. The other cells are released after it, from the top down; those that left the
//! tree, as obsolete.
//!
//! # Numbers
//!
//! Cells are named by numbers, in five pools. A number is in one place: *free*, in the *hand* of a pass that took it, in the
//! *tree*, or in the *limbo* of the pass that unlinked it. It is free where its bit in a word of free numbers is set. A step
//! that finds such a word clears one bit of it, or none; where the bit was set, its number is in hand.
//!
//! # Epochs and pins
//!
//! A number in limbo may not come back while another pass may have it in a stamp. A pass begins a cell only while it is
//! *pinned*: it notes the epoch, a word that only goes up, and stores that in its own word. By storing 0 it goes *idle*, and
//! all its stamps and notes go. A place in limbo keeps the pins that stood at the commit, and the epoch that its pass notes
//! next is its *label*. To watch another pass is to find its word: the place is *marked* for a pass that is idle, or whose
//! word is above the label, as it stands under none of those pins any more. An idle pass gives back a number whose place is
//! marked for every other pass. `art_epoch` teaches this, and has calls for it.
//!
//! # What a contract says of a step
//!
//! Two traits have the steps: `Steps` those of cells, and `EpochSteps`, which stands on it, those of numbers and epochs. Of
//! each call that makes one, three things are said. What the pass knows then (`row`): how its view changed. What happened at
//! one instant between the call and its return (`at_once`): which word was found or written, by one step of one of the kinds
//! (`AtStep`). And that nothing else did (`only`). No contract speaks of other passes: between two calls they may do
//! anything that is a step. A value that stands for a locked cell (`Held`), or for a number in hand (`Number`), has to be
//! spent; what may be done with it, the view decides.
//!
//! # What always holds
//!
//! `IsSound`, of the words and of all views, before and after each step:
//!
//! | | |
//! |---|---|
//! | `IsOneHistory` | there is one legal history of events; each pass has seen a beginning of it, with all events of its own |
//! | `ShowsReplay` | the logical words mean a tree, whose rows are those that the history leaves |
//! | `OneHolder` | a cell is locked exactly where one pass holds it |
//! | `StampsVouch` | no stamp is above its cell's version word; while that is the stamped one, what was noted under the stamp holds |
//! | `NumbersAccounted` | each number is in exactly one place, and free exactly where its bit is set |
//! | `MarkedUnstamped` | only a pinned pass has stamps; a number in limbo that is marked for a pass is in no stamp of it |
//! | `WordsFormed` | version words and all others have the form of their place (`IsWordOf`), the epoch stays below its bound |
//!
//! The bound is 2^62 and the number of passes together: a note of the epoch lets its pass raise it once, and a note of 2^62
//! or above does not.
//!
//! What no view shows of it, the history and the logical words, is determined by the rest, and the history only grows
//! (`hidden_is_determined`). Each step adds 1 to the count of its pass (`steps_keep_their_pass`). A number stays in limbo while
//! a pass is under a pin that its place holds, whatever the passes do (`limbo_waits_for_pins`).
//!
//! # One step from end to end
//!
//! A machine calls `begin(Cell::Anchor)`. Where it may, `begin.May` says: the pass is pinned, and the cell is the anchor or
//! a node that a noted word names. The carrier loads the anchor's version word. `begin.view_after` is the view then: one step
//! more, and a stamp with the anchor's path, or all stamps gone. `begin.Step` is the step as a change of words and views: no
//! word changes, one view does. `begin.Law` says that what is sound before it is sound after it, and `begin.Outcome` what the
//! caller is shown.
//!
//! # One alphabet for all machines
//!
//! A call of the index is a machine of many parts: a descent, a search for a free number, a validation, a change. Each part asks
//! for one step at a time, and whoever drives it may let other passes make theirs in between. Were each part to have steps of its
//! own, each driver would have to know all of them, and so would each theorem about what a step does.
//!
//! ```text
//! machine.next() ──► Action ──► perform(steps, action, effects) ──► Answer ──► machine.told(answer)
//! ```
//!
//! An [`Action`] is one call of `Steps` or `EpochSteps` with its arguments, and an [`Answer`] is what it gave back. [`perform`]
//! makes that call. Two actions bring something about: a check that settles an answer, and the release that commits a change.
//! What they bring about stands in the [`Effects`], which is large and stays where it is.
//!
//! `specs/Acting.antt` says for each action what a pass needs to know before it (`IsAllowed`), and what it knows after it by the
//! answer (`Answers`): an answer of another kind cannot come. No word of a node is read before a path to it was noted, and none
//! of a leaf before the check of the cell that names it.
//!
//! # How to add a kind of step
//!
//! A page in `specs/Steps` with the same names in the same order (`May`, `view_after`, `Step`, `Outcome`, `Law`), a case of
//! `OfAKind` in `specs/Steps.antt`, a file of its law in `proofs`, a lemma there that makes the view after it (as those of
//! `Moves.antt` and `EpochMoves.antt`), lines in `AnyStep.antt`, `Determined.antt` and `LimboWaits.antt`, and a call of
//! one of the two traits. What happens to words at it is said with the words of `specs/Effects.antt`. For machines, a case of
//! `Action` and, where none of those fits, of `Answer`, with their rows in `specs/Acting.antt`.
//!
//! # Letters
//!
//! | | |
//! |---|---|
//! | z | how many cells and passes there are |
//! | m, f | words and views before a step |
//! | m', f' | words and views after it |
//! | p, q | passes; v, w views of one pass before and after |
//! | x | a stamp, or a word where a stamp is not meant; y a note |
//! | c, d | a cell; d also a link |
//! | h, k | what is held of a cell; k also a bit of a word |
//! | e | a place in limbo; i the index of a word of free numbers |
//! | s, s' | logical words before and after |
//! | us, ls | numbers that leave the tree, and that come into it |
#![tactic(auto)]

mod actions;
mod deeds;
mod faults;
mod held;
mod numbers;
mod opening;
mod step_kinds;
mod step_laws;
mod steps;
mod versions;
mod views;
mod word_places;

pub use actions::{Action, Answer, Effects, perform};
pub use deeds::{Act, Deed};
pub use faults::{Changed, Locked, UpgradeFault};
pub use held::Held;
pub use numbers::{Number, Unlinked, numbers_of, spent};
pub use opening::opening_words;
pub use step_kinds::StepKind;
pub use step_laws::{
    advancing_is_sound, beginning_is_sound, checking_is_sound, claiming_is_sound,
    committing_is_sound, giving_is_sound, hidden_is_determined, limbo_waits_for_pins,
    looking_at_the_anchor_is_sound, noting_the_epoch_is_sound, opening_is_sound, pinning_is_sound,
    reading_is_sound, releasing_is_sound, stepping_is_sound, steps_keep_their_pass,
    taking_is_sound, upgrading_is_sound, watching_is_sound, writing_is_sound,
};
pub use steps::{EpochSteps, Steps};
pub use versions::Version;
pub use views::{
    EpochSeen, Event, Fact, Found, Holding, InHand, LastCheck, Note, Pin, Retired, Sizes, Stamp,
    View, Word,
};
pub use word_places::{free_words, pool_of_layout};
