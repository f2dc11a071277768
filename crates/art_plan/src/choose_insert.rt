//! Which change an insert makes of the tree, by where its key stands.
//!
//! # The problem
//!
//! A pass has gone down an Adaptive Radix Tree (ICDE 2013) by a key that no leaf has, and found where it would stand: a `Position` of
//! `art_find`, with the cell under whose stamp that was read, the cell above it, and a verdict. The words of both cells stand on
//! a `ReadSet`, by their places. Now a change is to be planned that brings a new leaf in, before anything is locked (DaMoN 2016).
//! `insert` has the four changes that an insert can make. Each wants to know where the child word stands that is written
//! (its site), and the words of each node that it writes. Here that is read off the stand and the read set.
//!
//! # The cases
//!
//! | verdict | change | site | new node |
//! |---|---|---|---|
//! | the tree is empty (`Empty`) | `add` | the anchor | none |
//! | another leaf is on the way (`LeafMismatch`) | `fork_leaf` | that leaf's, in the cell where the key stands | a Node4 |
//! | the node has no child at the key's byte, and room (`NoChild`) | `add` | that byte of the node | none |
//! | the node has none, and is full (`NoChild`) | `grow` | the node's, in the cell above | the next larger |
//! | the node's prefix parts from the key (`PrefixMismatch`) | `fork_prefix` | the node's, in the cell above | a Node4 |
//!
//! So the cell above is written where the node itself has to give way, or to go further down. A pass asks `needed` first: it says
//! by the verdict alone whether a node is made, and of which layout, so that its number can be had in hand; and whether the
//! words of the cell above have to be read as well. Whether a node is full is said by its header, which the verdict has.
//!
//! # The byte of a site
//!
//! ```text
//! key     r  o  m  u  l  u  s
//!
//! P ── 'r' ── N "om" ─┬─ 'a' ..      one byte leads to N, and P has N at that byte: 'r'
//!                     └─ 'u' free    three lead past the prefix of N, and the next one is free
//! ```
//!
//! The last byte of the path of a child is the one at which its node has it. So where so many bytes of the key lead to a child, its
//! site is at the last of them (`site_at`), while a free site is at the byte after them (`slot_at`). At least one byte leads to a
//! child of a node, in every tree; none leads to the child of the anchor.
//!
//! # Seen, and still known
//!
//! Two things are asked of the pass. `IsSeen` is of the past: all words of each cell that is written were read, and a check of its
//! stamp succeeded after that. So there was a tree in which all that was noted held, and the words are those of a node in it: a
//! body, with the prefix and the children that the verdict says. That is of the words alone, and stays so whatever becomes of
//! the tree. `IsStanding` is of the view at which the change is planned: the pass still has its stamps and its notes. Whether the
//! words are still those of the cells is seen when these are locked.
//!
//! # The bodies
//!
//! The plans of a node go by a `Body`, which has room for the words of the largest. `Bodies` has one for each cell that may be
//! written; they are large, and filled in place with the words of the layout, 0 where none was read. What an earlier node left
//! behind them stays, and is no part of the node.
//!
//! # What is proved
//!
//! `needed` is one equation. Of `plan_insert`: the change is a plan (`IsPlanned` of `art_plan`), for each pass that has seen the cells
//! and has in hand the leaf and the node that is needed (`PlansInsert`). It inserts the leaf. It locks only the cell where the key
//! stands, and the one above where that is written too, under their stamps (`LocksOnly`, `IsLockedAt`).
ghost use Rattle.std.specs.Prelude.{◌≡◌, ℕ, ◌<◌, ◌≤◌, ◌-◌, length, slice_index, Some, [], true, false};
ghost use Rattle.art_plan.specs.ChooseInsert.Needs.{needs_of};
ghost use Rattle.art_find.specs.declared.descents.Verdict.TheVariants as verdicts;
ghost use Rattle.art_cell.specs.declared.cells.Node.{Node as NodeOf};
ghost use Rattle.art_plan.specs.ChooseInsert.Plans.{IsLockedAt, LocksOnly, MakesAnother, PlansInsert, WasReadOf, gives_way, Comes};
ghost use Rattle.art_plan.specs.ChooseInsert.Seen.{IsSeen};
ghost use Rattle.art_plan.specs.Insert.Puts.{insert_effects};
ghost use Rattle.art_plan.specs.Changes.{targets};
ghost use Rattle.art_plan.specs.NewWords.{PutsChanges};
ghost use Rattle.art_step.specs.declared.views.Sizes.{Sizes};
ghost use Rattle.art_find.specs.declared.read_sets.ReadSet.{ReadSet as ReadSetOf};

use crate::changes::{byte_at, fill, site_at, slot_at};
use crate::insert::{NewLeaf, Parting, add, fork_leaf, fork_prefix, grow};
use crate::{Below, Bodies, Change, Site};
use art_cell::{Layout, Node};
use art_find::{Position, ReadSet, Verdict};
use art_node::prefix;

/// What an insert needs, by where its key stands.
#[derive(Clone, Copy)]
pub struct Needs {
    /// The layout of the node that it makes, if it makes one.
    pub node: Option<Layout>,
    /// The cell above is written too.
    pub above: bool,
}

/// What an insert needs where its key stands so.
#[inline(always)]
pub fn needed(verdict: &Verdict) -> Needs
    ensures { result ≡ needs_of verdict.now }
{
    match *verdict {
        Verdict::LeafMismatch { .. } => Needs {
            node: Some(Layout::Node4),
            above: false,
        },
        Verdict::PrefixMismatch { .. } => Needs {
            node: Some(Layout::Node4),
            above: true,
        },
        Verdict::NoChild { node, header } => in_node(node, header),
        _ => Needs {
            node: None,
            above: false,
        },
    }
}

/// What it needs at a free byte of a node with this header.
fn in_node(node: Node, header: u64) -> Needs
    ensures { result ≡ needs_of (verdicts.NoChild node header) }
{
    if header % 512 == node.layout.places() as u64 {
        match node.layout {
            Layout::Node4 => Needs {
                node: Some(Layout::Node16),
                above: true,
            },
            Layout::Node16 => Needs {
                node: Some(Layout::Node48),
                above: true,
            },
            Layout::Node48 => Needs {
                node: Some(Layout::Node256),
                above: true,
            },
            Layout::Node256 => Needs {
                node: None,
                above: false,
            },
        }
    } else {
        Needs {
            node: None,
            above: false,
        }
    }
}

/// Another leaf stands where the leaf would: a new node has both.
pub(crate) fn beside_leaf(
    change: &mut Change,
    bodies: &mut Bodies,
    position: &Position,
    read_set: &ReadSet,
    new: &NewLeaf,
    made: u32,
)
    requires other { (l : ℕ) × (at : ℕ) × (byte : ℕ) × (position.now.verdict ≡ verdicts.LeafMismatch l at byte) }
    requires seen { (z : Sizes) × IsSeen z new.now.key.items position.now read_set.now }
    ensures planned { PlansInsert position.now read_set.now new.now made change.new }
    ensures targets { 0 < targets change.new }
    ensures locks { LocksOnly (IsLockedAt position.now) change.new }
    ensures effects { change.new.effects ≡ insert_effects new.now [] }
    ensures changes { PutsChanges (WasReadOf position.now read_set.now) change.new }
{
    let Verdict::LeafMismatch {
        leaf: other,
        at,
        byte,
    } = position.verdict
    else {
        unreachable!();
    };
    fill(&mut bodies.node, position.stamp.cell, read_set.node());
    let site = site_at(
        position.stamp,
        &bodies.node,
        new.key.as_slice(),
        position.depth,
    );
    let parting = Parting {
        depth: position.depth,
        common: at - position.depth,
    };
    fork_leaf(change, &site, new, parting, other, byte, made);
}

/// The prefix of the node parts from the key: a new node comes between the cell above and the node.
pub(crate) fn beside_node(
    change: &mut Change,
    bodies: &mut Bodies,
    position: &Position,
    read_set: &ReadSet,
    new: &NewLeaf,
    made: u32,
)
    requires other { (n : NodeOf) × (header : ℕ) × (at : ℕ) × (position.now.verdict ≡ verdicts.PrefixMismatch n header at) }
    requires seen { (z : Sizes) × IsSeen z new.now.key.items position.now read_set.now }
    ensures planned { PlansInsert position.now read_set.now new.now made change.new }
    ensures targets { 0 < targets change.new }
    ensures locks { LocksOnly (IsLockedAt position.now) change.new }
    ensures effects { change.new.effects ≡ insert_effects new.now [] }
    ensures changes { MakesAnother position.now made → PutsChanges (WasReadOf position.now read_set.now) change.new }
{
    let Verdict::PrefixMismatch { node, at, .. } = position.verdict else {
        unreachable!();
    };
    let Some(above) = position.above else {
        unreachable!();
    };
    let Some(bytes) = prefix(read_set.node()) else {
        unreachable!();
    };
    fill(&mut bodies.node, position.stamp.cell, read_set.node());
    fill(&mut bodies.above, above.stamp.cell, read_set.above());
    let site = site_at(above.stamp, &bodies.above, new.key.as_slice(), above.depth);
    let below = Below {
        node,
        stamp: position.stamp,
        body: &bodies.node,
    };
    let parting = Parting {
        depth: above.depth,
        common: at,
    };
    fork_prefix(change, &site, &below, bytes.as_slice(), new, parting, made);
}

/// The tree is empty: the leaf comes to the anchor.
pub(crate) fn to_anchor(change: &mut Change, position: &Position, new: &NewLeaf)
    requires { position.now.verdict ≡ verdicts.Empty }
    ensures planned { (read_set : ReadSetOf) (made : ℕ) → PlansInsert position.now read_set new.now made change.new }
    ensures targets { 0 < targets change.new }
    ensures locks { LocksOnly (IsLockedAt position.now) change.new }
    ensures effects { change.new.effects ≡ insert_effects new.now [] }
    ensures changes { (z : Sizes) (read_set : ReadSetOf) → IsSeen z new.now.key.items position.now read_set →
        PutsChanges (WasReadOf position.now read_set) change.new }
{
    add(change, &Site::Root(position.stamp), new);
}

/// The node has a place for the leaf at the key's next byte.
pub(crate) fn to_byte(
    change: &mut Change,
    bodies: &mut Bodies,
    position: &Position,
    read_set: &ReadSet,
    new: &NewLeaf,
)
    requires free { (n : NodeOf) × (header : ℕ) × (position.now.verdict ≡ verdicts.NoChild n header) }
    requires room { (needs_of position.now.verdict).above ≡ false }
    requires seen { (z : Sizes) × IsSeen z new.now.key.items position.now read_set.now }
    ensures planned { (made : ℕ) → PlansInsert position.now read_set.now new.now made change.new }
    ensures targets { 0 < targets change.new }
    ensures locks { LocksOnly (IsLockedAt position.now) change.new }
    ensures effects { change.new.effects ≡ insert_effects new.now [] }
    ensures changes { PutsChanges (WasReadOf position.now read_set.now) change.new }
{
    fill(&mut bodies.node, position.stamp.cell, read_set.node());
    let key = new.key.as_slice();
    let site = slot_at(position.stamp, &bodies.node, key, position.depth);
    add(change, &site, new);
}

/// The node is full: a larger one, which has the leaf too, takes its place in the cell above.
pub(crate) fn to_larger(
    change: &mut Change,
    bodies: &mut Bodies,
    position: &Position,
    read_set: &ReadSet,
    new: &NewLeaf,
    made: u32,
)
    requires full { (needs_of position.now.verdict).above ≡ true }
    requires free { (n : NodeOf) × (header : ℕ) × (position.now.verdict ≡ verdicts.NoChild n header) }
    requires seen { (z : Sizes) × IsSeen z new.now.key.items position.now read_set.now }
    ensures planned { PlansInsert position.now read_set.now new.now made change.new }
    ensures targets { 0 < targets change.new }
    ensures locks { LocksOnly (IsLockedAt position.now) change.new }
    ensures effects { change.new.effects ≡ insert_effects new.now (gives_way position.now.verdict) }
    ensures changes { PutsChanges (WasReadOf position.now read_set.now) change.new }
{
    let Verdict::NoChild { node, .. } = position.verdict else {
        unreachable!();
    };
    let Some(above) = position.above else {
        unreachable!();
    };
    fill(&mut bodies.node, position.stamp.cell, read_set.node());
    fill(&mut bodies.above, above.stamp.cell, read_set.above());
    let key = new.key.as_slice();
    let site = site_at(above.stamp, &bodies.above, key, above.depth);
    let below = Below {
        node,
        stamp: position.stamp,
        body: &bodies.node,
    };
    let byte = byte_at(key, position.depth);
    grow(change, &site, &below, byte, new, made);
}

/// The change that inserts the leaf, where its key stands; all that it writes was read and checked. Where it makes a node, that
/// has this number.
pub fn plan_insert(
    change: &mut Change,
    bodies: &mut Bodies,
    position: &Position,
    read_set: &ReadSet,
    new: &NewLeaf,
    made: u32,
)
    requires comes { Comes position.now.verdict }
    requires seen { (z : Sizes) × IsSeen z new.now.key.items position.now read_set.now }
    ensures planned { PlansInsert position.now read_set.now new.now made change.new }
    ensures targets { 0 < targets change.new }
    ensures locks { LocksOnly (IsLockedAt position.now) change.new }
    ensures effects { change.new.effects ≡ insert_effects new.now (gives_way position.now.verdict) }
    ensures changes { MakesAnother position.now made → PutsChanges (WasReadOf position.now read_set.now) change.new }
{
    match position.verdict {
        Verdict::Empty => to_anchor(change, position, new),
        Verdict::LeafMismatch { .. } => beside_leaf(change, bodies, position, read_set, new, made),
        Verdict::PrefixMismatch { .. } => beside_node(
            change, bodies, position, read_set, new, made,
        ),
        Verdict::NoChild { .. } => {
            if needed(&position.verdict).above {
                to_larger(change, bodies, position, read_set, new, made)
            } else {
                to_byte(change, bodies, position, read_set, new)
            }
        }
        Verdict::Found { .. } | Verdict::Overlaps | Verdict::Torn => { unreachable!() }
    }
}
