//! The changes that an insert makes of the tree, planned: a new leaf comes in.
//!
//! # Where it stands
//!
//! A pass has gone down an Adaptive Radix Tree (ICDE 2013) by a key and found that no leaf has it. It has read all words of the
//! cells that it will write, each under its stamp, and checked them (DaMoN 2016). The words of a leaf with the key and the value
//! are written, under a number in its hand (`NewLeaf`). What is left to do is a `Change` of `art_plan`, which says before the
//! first lock which cells are locked, which words they get and what goes. Here that value is made; `apply` carries it out.
//!
//! # The place
//!
//! A `Site` (`art_plan`) is where a child word stands that is to be written: in the anchor, or in a node at a byte. So many bytes
//! of the key lead to it. What stands there decides the case:
//!
//! | case | what stands at the site | locked, from the top down | new node | what goes |
//! |---|---|---|---|---|
//! | `add` | nothing | the site's cell | none | nothing |
//! | `fork_leaf` | a leaf with another key | the site's cell | a Node4: what the keys have in common, both leaves | nothing |
//! | `grow` | a node that is full, with no child at the key's byte | the site's cell, the node | the next larger one, with the leaf too | the node |
//! | `fork_prefix` | a node whose prefix parts from the key | the site's cell, the node | a Node4: the common front, the node, the leaf | nothing |
//!
//! ```text
//! fork_leaf     site ── leaf "roman"         becomes   site ── Node4 "rom" ─┬─ 'a' leaf "roman"
//!                                                                           └─ 'u' leaf "romulus"
//!
//! fork_prefix   site ── node "roman" ..      becomes   site ── Node4 "rom" ─┬─ 'a' node "n" ..
//!                                                                           └─ 'u' leaf "romulus"
//! ```
//!
//! In `grow` the full node is locked, so that no other pass writes it, but its words stay; it is released as obsolete. In
//! `fork_prefix` it is written too: its prefix loses the front and the byte, which the new node has now.
//!
//! Where the node at the site is not full, the leaf comes to that node: its byte is the site then, and the case is `add`.
//!
//! A change takes 32 words at most, and those of each case fit: one for a child that is set, at most 19 for a new one, and at most 9
//! for the prefix of the node, as the contracts of `art_node` say.
//!
//! # What is proved
//!
//! Of each case (`planned`): where the pass knows what the case says (`specs/Cases.antt`), the change is a plan (`IsPlanned`).
//! Its targets may be locked and are different cells, its words may be written, and once all of them are, in every tree that is
//! as the pass knows it, they are a commit of the insert. And it locks just the cells of the table's third column, in that order
//! (`locks`). What is about any change, and serves a removal as well, stands in `art_plan`.
ghost use Rattle.std.specs.Prelude.{◌≡◌, [], None, Some, ◌∷◌, ℕ, ◌≢◌, ◌+◌, ◌<◌, ◌≤◌, drop, length, slice_index};
ghost use Rattle.art_plan.specs.Insert.Puts.{inserted, insert_effects, node4, larger_node};
ghost use Rattle.art_plan.specs.Puts.{change_of, IsFree, IsTaken, IsCrowded};
ghost use Rattle.art_cell.specs.declared.cells.Link.TheVariants.{Leaf as leaf, Node as node};
ghost use Rattle.art_plan.specs.Insert.Cases.{IsAdd, IsForkLeaf, IsForkPrefix, IsGrow};
ghost use Rattle.art_plan.specs.Changes.{IsPlanned, targets};
ghost use Rattle.art_plan.specs.NewWords.{PutsChild, PutsPrefix};
ghost use Rattle.art_plan.specs.Seen.{kept, site_stamp, gone, word_below};
ghost use Rattle.art_step.specs.declared.views.Sizes.{Sizes};
ghost use Rattle.art_step.specs.declared.views.View.{View};
ghost use Rattle.art_cell.specs.Bodies.{IsBody, Becomes, IsFull};
ghost use Rattle.art_cell.specs.Reads.{word_of, IsBodyOf, with_child};
ghost use Rattle.art_cell.specs.Words.{child_of, prefix_of};
ghost use Rattle.art_node.specs.Prefixes.{IsNodeOf};
ghost use Rattle.art_node.specs.Sizes.{larger};

use crate::changes::{added, lock, make, put_writes, replaced, unlink};
use crate::{Below, Change, Site};
use art_cell::{Body, Layout, Link, Node, NodeKind};
use art_key::Key;
use art_model::Answer;
use art_node::{child_word, fork, plan_prefix};
use art_node16::Node16;
use art_node48::Node48;
use art_node256::Node256;
use art_path::split;
use art_step::{Act, Deed};

/// A leaf whose words are written, by its number, and the key and the value that it has.
#[derive(Drop)]
pub struct NewLeaf {
    pub number: u32,
    pub key: Key,
    pub value: u64,
}

impl NewLeaf {
    /// With the number 0, the key of no bytes and the value 0.
    pub fn new() -> NewLeaf
        ensures key { result.key.items ≡ [] }
        ensures rest { (result.number ≡ 0) × (result.value ≡ 0) }
    {
        NewLeaf {
            number: 0,
            key: Key::new(),
            value: 0,
        }
    }
}

/// Where a key parts from what stands at a site.
#[derive(Clone, Copy)]
pub(crate) struct Parting {
    /// So many bytes of the key lead to the site.
    pub depth: usize,
    /// So many bytes after them are common to both.
    pub common: usize,
}

/// Makes it the insert of the leaf, which locks, writes, makes and unlinks nothing yet.
pub(crate) fn begin(change: &mut Change, leaf: &NewLeaf)
    ensures { change.new ≡ change_of [] [] change.old.writes.items None change.old.body (Some leaf.now.number) [] (inserted leaf.now) }
{
    let key = Key::try_from(leaf.key.as_slice()).unwrap();
    let deed = Deed::Done(Act::Insert(key, leaf.value), Answer::Inserted);
    crate::changes::begin(change, deed, Some(leaf.number));
}

/// The leaf comes to the site, which is free: the anchor that names nothing, or a byte of a node that is not full.
pub(crate) fn add(change: &mut Change, site: &Site, new: &NewLeaf)
    requires { IsFree site.now }
    ensures planned { (z : Sizes) (u : View) (depth : ℕ) → IsAdd z u site.now new.now depth → IsPlanned z u change.new }
    ensures targets { targets change.new ≡ 1 }
    ensures locks { change.new.targets.items ≡ kept (site_stamp site.now) ∷ [] }
    ensures effects { change.new.effects ≡ insert_effects new.now [] }
    ensures puts { PutsChild site.now (leaf new.now.number) change.new.puts.items }
{
    added(site, child_word(Link::Leaf(new.number)), &mut change.writes);
    begin(change, new);
    lock(change, site.stamp(), false);
    put_writes(change, 0);
}

/// Another leaf stands at the site, with this byte where the keys part: a new Node4 has what the keys have in common as its
/// prefix, and both leaves.
pub(crate) fn fork_leaf(
    change: &mut Change,
    site: &Site,
    new: &NewLeaf,
    parting: Parting,
    other: u32,
    byte: u8,
    made: u32,
)
    requires taken { IsTaken site.now }
    requires inside { parting.depth + parting.common < length new.now.key.items }
    requires apart { byte ≢ slice_index new.now.key.items (parting.depth + parting.common) }
    ensures planned { (z : Sizes) (u : View) → IsForkLeaf z u site.now new.now parting other byte made → IsPlanned z u change.new }
    ensures targets { targets change.new ≡ 1 }
    ensures locks { change.new.targets.items ≡ kept (site_stamp site.now) ∷ [] }
    ensures effects { change.new.effects ≡ insert_effects new.now [] }
    ensures puts { PutsChild site.now (node (node4 made)) change.new.puts.items }
{
    let key = new.key.as_slice();
    let at = parting.depth + parting.common;
    let old_leaf = child_word(Link::Leaf(other));
    let new_leaf = child_word(Link::Leaf(new.number));
    fork(
        &mut change.body,
        &key[parting.depth..at],
        byte,
        old_leaf,
        key[at],
        new_leaf,
    );
    let new_node = child_word(Link::Node(Node {
        layout: Layout::Node4,
        number: made,
    }));
    replaced(site, new_node, &mut change.writes);
    begin(change, new);
    lock(change, site.stamp(), false);
    make(change, made);
    put_writes(change, 0);
}

/// The node below the site has this prefix, which parts from the key: a new Node4 has what both have in common as its prefix, the
/// node, which keeps the bytes after that one, and the leaf.
pub(crate) fn fork_prefix(
    change: &mut Change,
    site: &Site,
    below: &Below,
    prefix: &[u8],
    new: &NewLeaf,
    parting: Parting,
    made: u32,
)
    requires taken { IsTaken site.now }
    requires meaning { IsBody below.now.body.now.layout (word_of below.now.body.now) }
    requires short { length prefix.now ≤ 64 }
    requires within { parting.common < length prefix.now }
    requires inside { parting.depth + parting.common < length new.now.key.items }
    requires apart { slice_index prefix.now parting.common ≢ slice_index new.now.key.items (parting.depth + parting.common) }
    ensures planned { (z : Sizes) (u : View) → IsForkPrefix z u site.now new.now parting below.now prefix.now made
        → IsPlanned z u change.new }
    ensures targets { targets change.new ≡ 2 }
    ensures locks { change.new.targets.items ≡ kept (site_stamp site.now) ∷ kept below.now.stamp ∷ [] }
    ensures effects { change.new.effects ≡ insert_effects new.now [] }
    ensures puts { PutsPrefix site.now (node (node4 made)) 1 below.now.body.now (drop (parting.common + 1) prefix.now)
        change.new.puts.items }
{
    let parts = split(prefix, parting.common);
    let key = new.key.as_slice();
    let old_node = child_word(Link::Node(below.node));
    let new_leaf = child_word(Link::Leaf(new.number));
    fork(
        &mut change.body,
        parts.front.as_slice(),
        parts.byte,
        old_node,
        key[parting.depth + parting.common],
        new_leaf,
    );
    let new_node = child_word(Link::Node(Node {
        layout: Layout::Node4,
        number: made,
    }));
    replaced(site, new_node, &mut change.writes);
    begin(change, new);
    lock(change, site.stamp(), false);
    lock(change, below.stamp, false);
    make(change, made);
    put_writes(change, 0);
    plan_prefix(below.body, parts.rest.as_slice(), &mut change.writes);
    put_writes(change, 1);
}

/// The node below the site has no place for the leaf at the byte: the next larger one has its children and the leaf, and takes
/// its place.
pub(crate) fn grow(
    change: &mut Change,
    site: &Site,
    below: &Below,
    byte: u8,
    new: &NewLeaf,
    made: u32,
)
    requires taken { IsTaken site.now }
    requires crowded { IsCrowded below.now.body.now byte }
    ensures planned { (z : Sizes) (u : View) (depth : ℕ)
        → IsGrow z u site.now new.now depth below.now byte (larger_node below.now.body.now made) → IsPlanned z u change.new }
    ensures targets { targets change.new ≡ 2 }
    ensures locks { change.new.targets.items ≡ kept (site_stamp site.now) ∷ gone below.now.stamp ∷ [] }
    ensures effects { change.new.effects ≡ insert_effects new.now (word_below below.now ∷ []) }
    ensures puts { PutsChild site.now (node (larger_node below.now.body.now made)) change.new.puts.items }
{
    let new_leaf = child_word(Link::Leaf(new.number));
    grown(below.body, byte, new_leaf, &mut change.body);
    let new_node = child_word(Link::Node(Node {
        layout: change.body.layout,
        number: made,
    }));
    replaced(site, new_node, &mut change.writes);
    let old_node = child_word(Link::Node(below.node));
    begin(change, new);
    lock(change, site.stamp(), false);
    lock(change, below.stamp, true);
    unlink(change, old_node);
    make(change, made);
    put_writes(change, 0);
}

/// Makes the second body the next larger node, with this child too.
fn grown(body: &Body, byte: u8, child: u64, more: &mut Body)
    requires crowded { IsCrowded body.now byte }
    requires child { 0 < child }
    ensures layout { more.new.layout ≡ larger body.now.layout }
    ensures node { IsNodeOf (larger body.now.layout) (word_of more.new) (prefix_of (word_of body.now))
        (with_child (child_of body.now.layout (word_of body.now)) byte child) }
{
    art_node::grow(body, more);
    match body.layout {
        Layout::Node4 => with_more::<Node16>(more, byte, child),
        Layout::Node16 => with_more::<Node48>(more, byte, child),
        Layout::Node48 => with_more::<Node256>(more, byte, child),
        Layout::Node256 => unreachable!(),
    }
}

/// Gives the node, which has room, this child too.
fn with_more<K: NodeKind>(body: &mut Body, byte: u8, child: u64)
    requires body { IsBodyOf K.layout body.old }
    requires free { child_of K.layout (word_of body.old) byte ≡ None }
    requires room { IsFull K.layout (word_of body.old) → ⊥ }
    requires child { 0 < child }
    ensures layout { body.new.layout ≡ body.old.layout }
    ensures more { Becomes K.layout (word_of body.old) (word_of body.new)
        (with_child (child_of K.layout (word_of body.old)) byte child) }
{
    K::add(body, byte, child);
}
