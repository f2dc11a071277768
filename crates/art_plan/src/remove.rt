//! The changes that a removal makes of the tree, planned: a leaf goes.
//!
//! # Where it stands
//!
//! A pass has gone down an Adaptive Radix Tree (ICDE 2013) by a key and found the leaf that has it, with a value (`OldLeaf`). It
//! has read all words of the nodes that it will write or that go, each under its stamp, and checked them (DaMoN 2016). What is
//! left to do is a `Change` of `art_plan`, which says before the first lock which cells are locked, which words they get and what
//! goes. Here that value is made; `apply` carries it out.
//!
//! # The place
//!
//! A `Site` (`art_plan`) is where a child word stands that is to be written: in the anchor, or in a node at a byte. So many bytes
//! of the key lead to it. Each node of a tree has two children at least, so what stands beside the leaf decides the case:
//!
//! | case | what stands there | locked, from the top down | new node | what goes |
//! |---|---|---|---|---|
//! | `drop` | the leaf, at the site: in the anchor, or beside two children or more | the site's cell | none | the leaf |
//! | `shrink` | a node: the leaf, beside two children or more that a smaller one has places for | the site's cell, the node | the next smaller one, without the leaf | the leaf, the node |
//! | `merge_leaf` | a node: the leaf, beside one leaf | the site's cell, the node | none | the leaf, the node |
//! | `merge_node` | a node: the leaf, beside one node | the site's cell, the node, the lower node | none | the leaf, the node |
//!
//! ```text
//! shrink       site ── Node16 "rom" ─┬─ 'a' ..                 becomes   site ── Node4 "rom" ─┬─ 'a' ..
//!                                    ├─ 'e' leaf "romeo"                                      └─ 'u' ..
//!                                    └─ 'u' ..
//!
//! merge_leaf   site ── Node4 "rom" ─┬─ 'a' leaf "roman"        becomes   site ── leaf "romulus"
//!                                   └─ 'u' leaf "romulus"
//!
//! merge_node   site ── Node4 "rom" ─┬─ 'a' leaf "roman"        becomes   site ── node "romulu" ..
//!                                   └─ 'u' node "lu" ..
//! ```
//!
//! Where a node goes it is locked, so that no other pass writes it, but its words stay; it is released as obsolete. In
//! `merge_node` the lower node is written too: it stands higher now, so its prefix has to say what the node and its own byte said
//! before: the node's prefix, the byte, and its own prefix, joined.
//!
//! A node that a smaller one would do for may stay as it is, by `drop`, or give way, by `shrink`. Which of the two is right is
//! for the caller to say; `shrink` wants the number of a smaller node in hand.
//!
//! # What is asked
//!
//! The leaf has this key and this value in each tree that is as the stamp of the cell says that names it: that is what a descent
//! shows of what it found. So the answer of the removal, which is the value, is the tree's when the change is committed.
//!
//! A change takes 32 words at most, and those of each case fit: one for a child that is set, at most 19 for one that goes, and at
//! most 9 for the prefix of the lower node, as the contracts of `art_node` say. `merge_node` answers `false` where the joined prefix
//! has more than 64 bytes (`IsTooLong`), which no tree has, since its paths are shorter than that.
//!
//! # What is proved
//!
//! Of each case (`planned`): where the pass knows what the case says (`specs/Cases.antt`), the change is a plan (`IsPlanned`).
//! Its targets may be locked and are different cells, its words may be written, and once all of them are, in every tree that is
//! as the pass knows it, they are a commit of the removal. And it locks just the cells of the table's third column, in that order
//! (`locks`). What is about any change stands in `art_plan`.
ghost use Rattle.std.specs.Prelude.{◌≡◌, [], None, ◌∷◌, ℕ, true, false, Some};
ghost use Rattle.art_plan.specs.Puts.{change_of, IsTaken, HasChild};
ghost use Rattle.art_plan.specs.Remove.Removals.{removed, KeepsTwo, remove_effects, IsTooLong, joined, IsSparse, smaller_node};
ghost use Rattle.art_plan.specs.Changes.{IsPlanned, targets};
ghost use Rattle.art_plan.specs.NewWords.{PutsNone, PutsChild, PutsPrefix};
ghost use Rattle.art_plan.specs.Seen.{kept, site_stamp, gone, word_below};
ghost use Rattle.art_plan.specs.Remove.Cases.{IsDrop, IsMergeLeaf, IsMergeNode, IsShrink};
ghost use Rattle.art_step.specs.declared.views.Sizes.{Sizes};
ghost use Rattle.art_step.specs.declared.views.View.{View};
ghost use Rattle.art_cell.specs.Bodies.{IsBody, Becomes};
ghost use Rattle.art_cell.specs.Reads.{word_of, IsBodyOf, without_child};
ghost use Rattle.art_cell.specs.declared.cells.Link.TheVariants.{Leaf as leaf, Node as node};
ghost use Rattle.art_cell.specs.Words.{child_of, prefix_of};
ghost use Rattle.art_node.specs.Prefixes.{IsNodeOf};
ghost use Rattle.art_node.specs.Sizes.{smaller};

use crate::changes::{dropped, lock, make, put_writes, replaced, unlink};
use crate::{Below, Change, Site};
use art_cell::{Body, Layout, Link, Node, NodeKind};
use art_key::Key;
use art_model::Answer;
use art_node::{child_word, plan_prefix};
use art_node4::Node4;
use art_node16::Node16;
use art_node48::Node48;
use art_node256::Node256;
use art_path::{Parts, join};
use art_step::{Act, Deed};

/// A leaf of the tree, by its number, and the key and the value that it has.
#[derive(Drop)]
pub struct OldLeaf {
    pub number: u32,
    pub key: Key,
    pub value: u64,
}

impl OldLeaf {
    /// With the number 0, the key of no bytes and the value 0.
    pub fn new() -> OldLeaf
        ensures key { result.key.items ≡ [] }
        ensures rest { (result.number ≡ 0) × (result.value ≡ 0) }
    {
        OldLeaf {
            number: 0,
            key: Key::new(),
            value: 0,
        }
    }
}

/// Makes it the removal of the leaf's key, which locks, writes, makes and unlinks nothing yet.
pub(crate) fn begin(change: &mut Change, leaf: &OldLeaf)
    ensures { change.new ≡ change_of [] [] change.old.writes.items None change.old.body None [] (removed leaf.now) }
{
    let key = Key::try_from(leaf.key.as_slice()).unwrap();
    let deed = Deed::Done(Act::Remove(key), Answer::Removed(leaf.value));
    crate::changes::begin(change, deed, None);
}

/// The leaf goes from the site: the anchor, or a byte of a node that keeps two children.
#[inline(always)]
pub(crate) fn drop(change: &mut Change, site: &Site, old: &OldLeaf)
    requires taken { IsTaken site.now }
    requires two { KeepsTwo site.now }
    ensures planned { (z : Sizes) (u : View) (depth : ℕ) → IsDrop z u site.now old.now depth → IsPlanned z u change.new }
    ensures targets { targets change.new ≡ 1 }
    ensures locks { change.new.targets.items ≡ kept (site_stamp site.now) ∷ [] }
    ensures effects { change.new.effects ≡ remove_effects old.now [] }
    ensures puts { PutsNone site.now change.new.puts.items }
{
    let old_leaf = child_word(Link::Leaf(old.number));
    dropped(site, &mut change.writes);
    begin(change, old);
    lock(change, site.stamp(), false);
    unlink(change, old_leaf);
    put_writes(change, 0);
}

/// The leaf goes from the node below the site, which has one other child, a leaf: that one takes the node's place.
pub(crate) fn merge_leaf(change: &mut Change, site: &Site, below: &Below, other: u32, old: &OldLeaf)
    requires { IsTaken site.now }
    ensures planned { (z : Sizes) (u : View) (depth byte beside : ℕ)
        → IsMergeLeaf z u site.now old.now depth below.now byte beside other → IsPlanned z u change.new }
    ensures targets { targets change.new ≡ 2 }
    ensures locks { change.new.targets.items ≡ kept (site_stamp site.now) ∷ gone below.now.stamp ∷ [] }
    ensures effects { change.new.effects ≡ remove_effects old.now (word_below below.now ∷ []) }
    ensures puts { PutsChild site.now (leaf other) change.new.puts.items }
{
    let old_leaf = child_word(Link::Leaf(old.number));
    let old_node = child_word(Link::Node(below.node));
    replaced(site, child_word(Link::Leaf(other)), &mut change.writes);
    begin(change, old);
    lock(change, site.stamp(), false);
    lock(change, below.stamp, true);
    unlink(change, old_leaf);
    unlink(change, old_node);
    put_writes(change, 0);
}

/// The leaf goes from the node below the site, which has one other child, a node: that one takes its place, and has the node's
/// prefix, its own byte and its own prefix as its prefix, which are the parts. False where these are more than 64 bytes.
pub(crate) fn merge_node(
    change: &mut Change,
    site: &Site,
    below: &Below,
    lower: &Below,
    parts: &Parts,
    old: &OldLeaf,
) -> bool
    requires taken { IsTaken site.now }
    requires meaning { IsBody lower.now.body.now.layout (word_of lower.now.body.now) }
    ensures planned { result ≡ true → (z : Sizes) (u : View) (depth byte : ℕ)
        → IsMergeNode z u site.now old.now depth below.now byte lower.now parts.now → IsPlanned z u change.new }
    ensures targets { result ≡ true → targets change.new ≡ 3 }
    ensures locks { result ≡ true →
        change.new.targets.items ≡ kept (site_stamp site.now) ∷ gone below.now.stamp ∷ kept lower.now.stamp ∷ [] }
    ensures deed { change.new.effects.deed ≡ removed old.now }
    ensures leaf { change.new.effects.leaf ≡ None }
    ensures effects { result ≡ true → change.new.effects ≡ remove_effects old.now (word_below below.now ∷ []) }
    ensures refused { result ≡ false → IsTooLong parts.now }
    ensures puts { result ≡ true →
        PutsPrefix site.now (node lower.now.node) 2 lower.now.body.now (joined parts.now) change.new.puts.items }
{
    begin(change, old);
    if parts.front.len() + 1 + parts.rest.len() > 64 {
        return false;
    }
    let prefix = join(parts.front.as_slice(), parts.byte, parts.rest.as_slice());
    let old_leaf = child_word(Link::Leaf(old.number));
    let old_node = child_word(Link::Node(below.node));
    lock(change, site.stamp(), false);
    lock(change, below.stamp, true);
    lock(change, lower.stamp, false);
    unlink(change, old_leaf);
    unlink(change, old_node);
    replaced(site, child_word(Link::Node(lower.node)), &mut change.writes);
    put_writes(change, 0);
    plan_prefix(lower.body, prefix.as_slice(), &mut change.writes);
    put_writes(change, 2);
    true
}

/// The leaf goes from a byte of the node below the site: the next smaller one has the other children, and takes its place.
pub(crate) fn shrink(
    change: &mut Change,
    site: &Site,
    below: &Below,
    byte: u8,
    old: &OldLeaf,
    made: u32,
)
    requires taken { IsTaken site.now }
    requires sparse { IsSparse below.now.body.now byte }
    ensures planned { (z : Sizes) (u : View) (depth : ℕ)
        → IsShrink z u site.now old.now depth below.now byte (smaller_node below.now.body.now made) → IsPlanned z u change.new }
    ensures targets { targets change.new ≡ 2 }
    ensures locks { change.new.targets.items ≡ kept (site_stamp site.now) ∷ gone below.now.stamp ∷ [] }
    ensures effects { change.new.effects ≡ remove_effects old.now (word_below below.now ∷ []) }
    ensures puts { PutsChild site.now (node (smaller_node below.now.body.now made)) change.new.puts.items }
{
    shrunk(below.body, byte, &mut change.body);
    let new_node = child_word(Link::Node(Node {
        layout: change.body.layout,
        number: made,
    }));
    replaced(site, new_node, &mut change.writes);
    let old_leaf = child_word(Link::Leaf(old.number));
    let old_node = child_word(Link::Node(below.node));
    begin(change, old);
    lock(change, site.stamp(), false);
    lock(change, below.stamp, true);
    unlink(change, old_leaf);
    unlink(change, old_node);
    make(change, made);
    put_writes(change, 0);
}

/// Makes the second body the next smaller node, without the child of the byte.
fn shrunk(body: &Body, byte: u8, less: &mut Body)
    requires sparse { IsSparse body.now byte }
    ensures layout { less.new.layout ≡ smaller body.now.layout }
    ensures node { IsNodeOf (smaller body.now.layout) (word_of less.new) (prefix_of (word_of body.now))
        (without_child (child_of body.now.layout (word_of body.now)) byte) }
{
    let mut same_layout = *body;
    take(&mut same_layout, byte);
    art_node::shrink(&same_layout, less);
}

/// Takes the child of the byte away.
fn take(body: &mut Body, byte: u8)
    requires { HasChild body.old byte }
    ensures layout { body.new.layout ≡ body.old.layout }
    ensures less { Becomes body.old.layout (word_of body.old) (word_of body.new)
        (without_child (child_of body.old.layout (word_of body.old)) byte) }
{
    match body.layout {
        Layout::Node4 => Node4::take(body, byte),
        Layout::Node16 => Node16::take(body, byte),
        Layout::Node48 => Node48::take(body, byte),
        Layout::Node256 => Node256::take(body, byte),
    }
}
