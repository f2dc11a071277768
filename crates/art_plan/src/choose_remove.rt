//! Which change a removal makes of the tree, by where its leaf stands.
//!
//! # The problem
//!
//! A pass has gone down an Adaptive Radix Tree (ICDE 2013) by a key and found the leaf that has it: a `Position` of `art_find`, with
//! the cell under whose stamp that was read, the cell above it, and the verdict `Found`. The words of both cells stand on a `ReadSet`,
//! by their places. Now a change is to be planned that takes the leaf away, before anything is locked (DaMoN 2016). `remove`
//! has the changes that a removal can make. Which of them it is goes by how many children the node keeps that names the leaf, and
//! each wants to know where the child word stands that is written (its site), and the words of each node that it writes. Here
//! that is read off the stand and the read set, as `choose_insert` does for an insert.
//!
//! # The cases
//!
//! The anchor has one child word, and stays. A node of a tree has two children at least, so where it loses one of two it has to
//! go: its other child takes its place. Where few are left, a smaller node would do for them.
//!
//! | the cell that names the leaf | `Loss` | plan | site |
//! |---|---|---|---|
//! | the anchor | `Leaf` | `plan_drop` | the anchor |
//! | a node with two children, the leaf and another leaf | `Merges` | `plan_merge_leaf` | the node's, in the cell above |
//! | a node with two children, the leaf and a node | `Merges` | `plan_merge_node` | the node's, in the cell above |
//! | a node that keeps few, and a smaller one is in hand | `Shrinks` | `plan_shrink` | the node's, in the cell above |
//! | the same, and no smaller one is in hand | `Shrinks` | `plan_drop` | the leaf's byte of the node |
//! | any other node | `Leaf` | `plan_drop` | the leaf's byte of the node |
//!
//! A pass asks `lost` first: it says by the header alone what goes with the leaf, so that the number of a smaller node can be had
//! in hand, and the words of the cell above be read where that is written too. A node gives way when it keeps 36, 12 or 3 children
//! of 256, 48 or 16. The smaller one has places for 48, 16 or 4, so the next insert does not make it grow again. To shrink is a
//! saving and no duty: where no number is free, the node stays.
//!
//! # The other child
//!
//! ```text
//! N "rom" ─┬─ 'a' leaf "roman"      goes
//!          └─ 'u' leaf "romulus"    takes the place of N
//! ```
//!
//! N names the leaf at the last byte of the key that leads to it. So of the two entries of N the other child is the one at another
//! byte: the least entry, or, where that is the leaf's, the least after it. Whether it is a leaf or a node decides the plan.
//!
//! Where it is a node, its words have to be read as well, and before that its version word. So `other_child` is asked as soon as
//! all words of N were read, and before a check of N says that they are those of one time. It answers whatever they are. What it
//! tells is named by a child word that was read (`NamesChild`), so that the pass may begin that cell; a check of N that comes then
//! gives the cell its path (`LeadsTo`). Only after that check is it the one child beside the leaf.
//!
//! # A lower node
//!
//! ```text
//! P ── 'r' ── N "om" ─┬─ 'a' leaf "roman"        becomes   P ── 'r' ── L "omulus" ─┬─ 'a' ..
//!                     └─ 'u' ── L "lus" ─┬─ 'a' ..                                 └─ 'e' ..
//!                                        └─ 'e' ..
//! ```
//!
//! A node that is the other child, `Lower`, comes one step up and keeps its children. All keys below it still have the bytes of N's
//! prefix and its own byte on their way, so these come in front of its prefix. The plan writes P and L, and N goes.
//!
//! That L is none of the cells P and N is needed, since a change locks each cell once. No node is a child of its own, so L is not N.
//! But P and L were checked one after another: no tree is known that has both as they were read. So `plan_merge_node` compares
//! them, and answers false where they are one cell.
//!
//! # Seen, and still known
//!
//! As in `choose_insert`, two things are asked of the pass. `IsSeen` is of the past: all words of the cell that names the leaf were
//! read, and a check of its stamp succeeded after that; `AreSeen` says so of the cell above too, and `IsLowerSeen` of a lower node.
//! `IsStanding` is of the view at which the change is planned: the pass still has its stamps and its notes; so is `StillKnown`, of
//! the lower node.
//!
//! # What is proved
//!
//! `lost` is one equation. `other_child` answers, where the node goes and was seen, the one child beside the leaf, in whatever body
//! has the words that were read (`HasOther`); before that, if anything, what a child word names that was read. Of each plan: the
//! change is a plan (`IsPlanned` of `art_plan`), for each pass that has seen the cells and has in hand what is needed (`PlansDrop`,
//! `PlansShrink`, `PlansMerge`, `PlansMergeNode`). It removes the leaf's key, and locks one cell, two or three: only the one that
//! names the leaf, the one above it, and the lower node, under their stamps (`IsNodeAt`, `IsEitherAt`, `IsAnyAt`). `plan_merge_node`
//! alone may answer false, where the lower node is the cell above, or the joined prefix has more than 64 bytes (`MayNotMerge`).
ghost use Rattle.std.specs.Prelude.{◌≡◌, ◌<◌, ◌≤◌, ◌-◌, ◌↔◌, ℕ, IfSome, Some, get_or, length, true, ◌≢◌, None, [], false};
ghost use Rattle.art_plan.specs.ChooseRemove.Losses.{few_of, loss_in, loss_of, loss_at};
ghost use Rattle.art_cell.specs.Words.{Words, child_of};
ghost use Rattle.art_cell.specs.declared.cells.Link.{Link as LinkOf};
ghost use Rattle.art_plan.specs.ChooseRemove.Others.{IsBeside, IsChildRead, IsLeast, IsReadOf, LeadsTo, NamesChild};
ghost use Rattle.art_plan.specs.ChooseRemove.Plans.{HasFound, HasOther, IsNodeAt, PlansDrop, IsEitherAt, PlansMerge, node_words, PlansShrink, ArePartsOf, IsAnyAt, MayNotMerge, PlansMergeNode, WasReadOfAny};
ghost use Rattle.art_plan.specs.ChooseRemove.Seen.{IsSeen, AreSeen, IsLowerSeen};
ghost use Rattle.art_plan.specs.declared.choose_remove.Loss.TheVariants as losses;
ghost use Rattle.art_plan.specs.ArtFind.ReadSets.{node_of};
ghost use Rattle.art_plan.specs.ArtFind.declared.read_sets.ReadSet.{ReadSet as ReadSetOf};
ghost use Rattle.art_step.specs.declared.views.Sizes.{Sizes};
ghost use Rattle.art_plan.specs.ChooseInsert.Plans.{LocksOnly, WasReadOf};
ghost use Rattle.art_plan.specs.Changes.{targets};
ghost use Rattle.art_plan.specs.NewWords.{PutsChanges};
ghost use Rattle.art_plan.specs.Remove.Removals.{remove_effects, removed};
ghost use Rattle.art_cell.specs.declared.cells.Link.TheVariants.{Leaf as leaf_link, Node as node_link};
ghost use Rattle.art_cell.specs.declared.cells.Layout.{Layout};
ghost use Rattle.art_cell.specs.Leaves.{prefix_read};

use crate::art_find::{Position, ReadSet};
use crate::changes::{byte_at, fill, site_at};
use crate::remove::{OldLeaf, drop, merge_leaf, merge_node, shrink};
use crate::{Below, Bodies, Change};
use art_cell::{Body, Cell, Entry, Layout, Link, NextProbe, Node, Reads};
use art_node::{at_least, link_in, prefix};
use art_path::Parts;
use art_step::Stamp;

/// What goes with the leaf, by the cell that names it.
#[derive(Clone, Copy)]
pub enum Loss {
    /// The leaf alone.
    Leaf,
    /// The node may give way to one of this layout, where a number of it is free.
    Shrinks(Layout),
    /// The node goes: it keeps one other child.
    Merges,
}

/// What goes with a leaf of the cell, which has this header if it is a node.
pub fn lost(cell: Cell, header: u64) -> Loss
    ensures { result ≡ loss_of cell header }
{
    match cell {
        Cell::Node(node) => in_node(node.layout, header % 512),
        Cell::Anchor | Cell::Leaf(_) => Loss::Leaf,
    }
}

/// What goes with a child of a node that has so many.
fn in_node(layout: Layout, count: u64) -> Loss
    ensures { result ≡ loss_in layout count }
{
    if count < 3 {
        return Loss::Merges;
    }
    if few(layout) + 1 < count {
        return Loss::Leaf;
    }
    match layout {
        Layout::Node4 | Layout::Node16 => Loss::Shrinks(Layout::Node4),
        Layout::Node48 => Loss::Shrinks(Layout::Node16),
        Layout::Node256 => Loss::Shrinks(Layout::Node48),
    }
}

/// With how many children a node gives way to a smaller one.
fn few(layout: Layout) -> u64
    ensures { result ≡ few_of layout }
{
    match layout {
        Layout::Node4 => 0,
        Layout::Node16 => 3,
        Layout::Node48 => 12,
        Layout::Node256 => 36,
    }
}

/// The child of the node beside the leaf, with its byte, as the words that were read have it, checked or not. None where they have
/// no such child. It stays the one however far the cell above is read after this.
pub fn other_child(position: &Position, read_set: &ReadSet, old: &OldLeaf) -> Option<(u8, Link)>
    requires found { HasFound position.now old.now }
    ensures named { IfSome result (λ child. NamesChild position.now read_set.now child.1) }
    ensures led { IfSome result (λ child. LeadsTo position.now read_set.now old.now.key.items child.1) }
    ensures other { (z : Sizes) (later : ReadSetOf) → node_of later ≡ node_of read_set.now → IsSeen z old.now.key.items position.now later →
        loss_at position.now later ≡ losses.Merges →
        (beside : ℕ) × (d : LinkOf) × (result ≡ Some (beside, d)) × HasOther position.now later old.now beside d }
{
    let Cell::Node(node) = position.stamp.cell else {
        return None;
    };
    let byte = last_byte(old.key.as_slice(), position.depth)?;
    let entry = beside(node.layout, byte, read_set.node())?;
    let link = link_in(entry.child)?;
    Some((entry.byte, link))
}

/// The last byte of so many, if the key has as many and they are some.
fn last_byte(key: &[u8], depth: usize) -> Option<u8>
    ensures { 0 < depth → depth ≤ length key.now → result ≡ Some (get_or key.now (depth - 1) 0) }
{
    key.get(depth.checked_sub(1)?).copied()
}

/// The least entry that is not at the byte, as far as the words that were read tell.
fn beside(layout: Layout, byte: u8, reads: &Reads) -> Option<Entry>
    ensures low { IfSome result (λ entry. entry.byte < 256) }
    ensures read { IfSome result (λ entry. IsChildRead layout reads.now entry.child) }
    ensures beside { (w : Words) → IsReadOf layout reads.now w → IsBeside (child_of layout w) byte result }
{
    let first = least(layout, 0, reads)?;
    if first.byte != byte {
        return Some(first);
    }
    least(layout, byte.checked_add(1)?, reads)
}

/// The least entry at the byte or above, as far as the words that were read tell, if its child word stands at a place of one.
fn least(layout: Layout, low: u8, reads: &Reads) -> Option<Entry>
    ensures low { IfSome result (λ entry. entry.byte < 256) }
    ensures read { IfSome result (λ entry. IsChildRead layout reads.now entry.child) }
    ensures least { (w : Words) → IsReadOf layout reads.now w → IsLeast (child_of layout w) low result }
{
    match at_least(layout, low, reads) {
        NextProbe::Entry(entry) => is_child(layout, entry.child, reads).then_some(entry),
        NextProbe::Need(_) | NextProbe::None => None,
    }
}

/// Whether the word was read at a place of a child.
fn is_child(layout: Layout, word: u64, reads: &Reads) -> bool
    ensures { (result ≡ true) ↔ IsChildRead layout reads.now word }
{
    for place in layout.size() - layout.places()..layout.size() {
        if reads.get(place) == Some(word) {
            return true;
        }
    }
    false
}

/// The leaf goes, and the cell that names it stays: the anchor, or a node that keeps two children. All words of the cell were read
/// and checked.
#[inline(always)]
pub fn plan_drop(
    change: &mut Change,
    bodies: &mut Bodies,
    position: &Position,
    read_set: &ReadSet,
    old: &OldLeaf,
)
    requires found { HasFound position.now old.now }
    requires stays { loss_at position.now read_set.now ≢ losses.Merges }
    requires seen { (z : Sizes) × IsSeen z old.now.key.items position.now read_set.now }
    ensures planned { PlansDrop position.now read_set.now old.now change.new }
    ensures targets { targets change.new ≡ 1 }
    ensures locks { LocksOnly (IsNodeAt position.now) change.new }
    ensures effects { change.new.effects ≡ remove_effects old.now [] }
    ensures changes { PutsChanges (WasReadOf position.now read_set.now) change.new }
{
    fill(&mut bodies.node, position.stamp.cell, read_set.node());
    let site = site_at(
        position.stamp,
        &bodies.node,
        old.key.as_slice(),
        position.depth,
    );
    drop(change, &site, old);
}

/// The leaf goes from a node that has one other child, this leaf: that one takes the node's place in the cell above. All words of
/// both cells were read and checked.
pub fn plan_merge_leaf(
    change: &mut Change,
    bodies: &mut Bodies,
    position: &Position,
    read_set: &ReadSet,
    old: &OldLeaf,
    other: u32,
)
    requires found { HasFound position.now old.now }
    requires other { (beside : ℕ) × HasOther position.now read_set.now old.now beside (leaf_link other) }
    requires seen { (z : Sizes) × AreSeen z old.now.key.items position.now read_set.now }
    ensures planned { PlansMerge position.now read_set.now old.now change.new }
    ensures targets { targets change.new ≡ 2 }
    ensures locks { LocksOnly (IsEitherAt position.now) change.new }
    ensures effects { change.new.effects ≡ remove_effects old.now (node_words position.now.stamp.cell) }
    ensures changes { PutsChanges (WasReadOf position.now read_set.now) change.new }
{
    let Cell::Node(node) = position.stamp.cell else {
        unreachable!();
    };
    let Some(above) = position.above else {
        unreachable!();
    };
    fill(&mut bodies.node, position.stamp.cell, read_set.node());
    fill(&mut bodies.above, above.stamp.cell, read_set.above());
    let key = old.key.as_slice();
    let site = site_at(above.stamp, &bodies.above, key, above.depth);
    let below = Below {
        node,
        stamp: position.stamp,
        body: &bodies.node,
    };
    merge_leaf(change, &site, &below, other, old);
}

/// The leaf goes from a node that keeps few children: the next smaller one, which has this number, takes its place in the cell
/// above. All words of both cells were read and checked.
pub fn plan_shrink(
    change: &mut Change,
    bodies: &mut Bodies,
    position: &Position,
    read_set: &ReadSet,
    old: &OldLeaf,
    made: u32,
)
    requires found { HasFound position.now old.now }
    requires shrinks { (k : Layout) × (loss_at position.now read_set.now ≡ losses.Shrinks k) }
    requires seen { (z : Sizes) × AreSeen z old.now.key.items position.now read_set.now }
    ensures planned { PlansShrink position.now read_set.now old.now made change.new }
    ensures targets { targets change.new ≡ 2 }
    ensures locks { LocksOnly (IsEitherAt position.now) change.new }
    ensures effects { change.new.effects ≡ remove_effects old.now (node_words position.now.stamp.cell) }
    ensures changes { PutsChanges (WasReadOf position.now read_set.now) change.new }
{
    let Cell::Node(node) = position.stamp.cell else {
        unreachable!();
    };
    let Some(above) = position.above else {
        unreachable!();
    };
    fill(&mut bodies.node, position.stamp.cell, read_set.node());
    fill(&mut bodies.above, above.stamp.cell, read_set.above());
    let key = old.key.as_slice();
    let site = site_at(above.stamp, &bodies.above, key, above.depth);
    let below = Below {
        node,
        stamp: position.stamp,
        body: &bodies.node,
    };
    let byte = byte_at(key, position.depth - 1);
    shrink(change, &site, &below, byte, old, made);
}

/// The node that is the other child of the one that names the leaf.
#[derive(Clone, Copy)]
pub struct Lower {
    /// The stamp under which its words were read.
    pub stamp: Stamp,
    pub node: Node,
    /// The byte at which it is the child.
    pub byte: u8,
}

/// The leaf goes from a node that has one other child, this node: it takes the node's place in the cell above, and its prefix becomes
/// the node's, the byte, and its own. All words of the three cells were read and checked. False where the cell above is the lower
/// node, or the joined prefix is too long.
pub fn plan_merge_node(
    change: &mut Change,
    bodies: &mut Bodies,
    lower_body: &mut Body,
    position: &Position,
    read_set: &ReadSet,
    lower: &Lower,
    reads: &Reads,
    old: &OldLeaf,
) -> bool
    requires found { HasFound position.now old.now }
    requires other { HasOther position.now read_set.now old.now lower.now.byte (node_link lower.now.node) }
    requires seen { (z : Sizes) × AreSeen z old.now.key.items position.now read_set.now × IsLowerSeen z lower.now reads.now }
    ensures planned { result ≡ true → PlansMergeNode position.now read_set.now lower.now reads.now old.now change.new }
    ensures targets { result ≡ true → targets change.new ≡ 3 }
    ensures locks { result ≡ true → LocksOnly (IsAnyAt position.now lower.now) change.new }
    ensures deed { change.new.effects.deed ≡ removed old.now }
    ensures leaf { change.new.effects.leaf ≡ None }
    ensures effects { result ≡ true → change.new.effects ≡ remove_effects old.now (node_words position.now.stamp.cell) }
    ensures refused { result ≡ false → MayNotMerge position.now read_set.now lower.now reads.now }
    ensures changes { result ≡ true → PutsChanges (WasReadOfAny position.now read_set.now lower.now reads.now) change.new }
{
    let Cell::Node(node) = position.stamp.cell else {
        unreachable!();
    };
    let Some(above) = position.above else {
        unreachable!();
    };
    fill(&mut bodies.node, position.stamp.cell, read_set.node());
    fill(&mut bodies.above, above.stamp.cell, read_set.above());
    fill(lower_body, lower.stamp.cell, reads);
    let site = site_at(above.stamp, &bodies.above, old.key.as_slice(), above.depth);
    let below = Below {
        node,
        stamp: position.stamp,
        body: &bodies.node,
    };
    let beneath = Below {
        node: lower.node,
        stamp: lower.stamp,
        body: lower_body,
    };
    let parts = parts_of(read_set, lower, reads);
    // The checks came one after another, so they do not show that the lower node is not above too.
    let apart = above.stamp.cell != lower.stamp.cell;
    merge_node(change, &site, &below, &beneath, &parts, old) && apart
}

/// The prefix of the node, the byte of the lower one, and the prefix of this.
fn parts_of(read_set: &ReadSet, lower: &Lower, reads: &Reads) -> Parts
    requires front { prefix_read (node_of read_set.now) ≢ None }
    requires rest { prefix_read reads.now ≢ None }
    ensures { ArePartsOf read_set.now lower.now reads.now result }
{
    let (Some(front), Some(rest)) = (prefix(read_set.node()), prefix(reads)) else {
        unreachable!();
    };
    Parts {
        front,
        byte: lower.byte,
        rest,
    }
}
