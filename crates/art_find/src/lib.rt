//! The descent to a key, for a get and for a change of the tree.
//!
//! # The problem
//!
//! Many passes read and change one tree (ICDE 2013) at once, and no lock keeps a reader out (DaMoN 2016). Who looks for a
//! key goes down from the anchor, one word at a time; between any two words the tree may change. So what was read is worth
//! nothing until a check finds that the version word of its cell is still the stamped one: then all that was read under the
//! stamp is what the cell says at that step.
//!
//! # A descent
//!
//! `Descent` is the look for one key, as a machine. It is a value that names no carrier and keeps no key: scalars alone, and
//! the key stands beside it. `next` names the step that it asks for (an `Action`), or none where it has ended, and `told` hands it
//! the answer (`Answer`). So the same machine makes one step at each turn of an actor, with those of others in between, or runs
//! to its end in a loop.
//!
//! ```text
//!          anchor: stamp, child word, check
//!            │
//!            ▼
//!       ┌── what the child word names
//!       │    ├─ nothing: the key has no value; the check decides
//!       │    ├─ a leaf: value, length, its key, word by word; then the check of the cell that names it decides
//!       │    └─ a node: stamp it, and check the cell that names it; then read, under the new stamp,
//!       │         header, prefix, key bytes or index, and the child word of the key's next byte
//!       └───────── check the node, and go on below it
//! ```
//!
//! The node is stamped before the cell that names it is checked: at that check the node stands where the cell says, and its
//! stamp vouches for it from then on. No child word is followed before its cell was checked, but that the version word of the
//! node which it names may be loaded.
//!
//! What was read may be of different moments, and then be of no node at all: a prefix that is too long, an entry of an index
//! that is no place. The descent reads on within the cell, or stops and has the cell checked: that check fails.
//!
//! # Where it restarts
//!
//! A version word that is locked, obsolete or changed sends the descent back to the anchor (`failed`). At a changed word the
//! other stamps stay in the view, and do no harm; at one that is not clear all of them go.
//!
//! # What it knows
//!
//! `Fits` says at each stage what the notes under the stamps show, in every tree in which they hold: that the cell has this
//! child on the key's way (`HasChild`), that the prefix was the key's so far (`IsInPrefix`), and at last where the key stands or
//! would stand (`Says`). Two lemmas carry all of it: what is shown stays shown as more is noted, and a word that is read is shown
//! too. `next` is allowed wherever `Fits` holds, and `told` keeps it by the answer's row.
//!
//! # What settles
//!
//! The check that decides is asked for as `Settle`. What was read under the stamp then shows the key's value, or that it has
//! none; which deed that is, whoever drives the descent says: the get of the key, or an insert that finds its key there.
//!
//! `decided` says more, for an insert or a removal that goes on from there. A `Verdict` names the leaf that has the key, or says
//! why none has it: the anchor is empty, another leaf stands on the way, a node's prefix is another, a node has no child at the
//! next byte, or the key and another overlap. `Says` has what each shows of the tree. The stamp is that of the anchor, of the
//! node, or of the cell that names the leaf: the one on which the descent stands (`stands_on`, and `stays` from step to step).
//!
//! # For a change
//!
//! An insert or a removal that goes on from there needs more than a get: the cell above stays stamped, and the words that were
//! read are kept. `Finding` is a descent that keeps them in a `ReadSet` (`src/findings.rt` teaches it), and a `Rereading` reads the
//! words of a cell that the descent had no need of.
//!
//! # The straight way
//!
//! A machine's stage stands in memory between two steps, in one form or another, and a loop that asks it for each step spends
//! more instructions on stages than on words. So a finding goes straight down instead (`src/nodes.rt`), as long as nothing stops it:
//! the same steps in the same order, each a call of its own that hands the next one what it needs. Its contracts say at which stage
//! the finding would stand, so that where something does stop it (a version word that is locked or changed, few turns) the machine
//! goes on from there. A word is read by `read_word` or `read_leaf_word`, which ask for what a machine's reads ask for
//! (`IsAllowed`): a path to the cell was noted, or the cell that names the leaf was checked.
//!
//! There is one such way, for `descend` of a change and for `go_down` of a get. Each word of a cell is handed to a `Sink`: a change's
//! is its `ReadSet`, and that of a get keeps nothing. What the sink of a get was handed stands in proofs alone, so that these are the
//! same for both.
//!
//! # How many steps
//!
//! Each step comes further (`most_steps`), so that a descent that meets no failure ends within 1,200 steps: a byte of the key
//! costs at most 18. A failure begins the count anew. So a get that used all its turns met many failures, or had few turns.
#![tactic(auto)]

mod descents;
mod driver;
mod findings;
mod no_words;
mod nodes;
mod read_sets;
mod reads;
mod straight;

pub use descents::{Beside, Descent, LeafSeen, NodeSeen, Stage, Verdict};
pub use driver::{look, read_leaf_word, read_word};
pub use findings::{Above, Finding, Position};
pub use read_sets::{ReadSet, Rereading};
pub use straight::{Tally, go_down};
