//! The operations on a node, by its layout.
ghost use Rattle.std.specs.Prelude.{◌≡◌, ◌≢◌, ◌≤◌, ◌<◌, ◌↔◌, ℕ, Some, None, false, true, length};
ghost use Rattle.art_cell.specs.Words.{Words, count_of, places, child_of, entries};
ghost use Rattle.art_cell.specs.Bodies.{IsBody, IsFull, IsInOrder, IsRelaid, TakesLowest};
ghost use Rattle.art_cell.specs.Reads.{Agrees, ProbeNeeds, ProbeTells, NextNeeds, NextTells, IsPlan};
ghost use Rattle.art_cell.specs.Reads.{word_of, with_child, without_child, most_writes, written};
ghost use Rattle.art_node.specs.Sizes.{larger, smaller};

use crate::relaid::relaid;
use art_cell::{Body, Entries, Layout, NextProbe, NodeKind, Probe, Reads, Writes};
use art_node4::Node4;
use art_node16::Node16;
use art_node48::Node48;
use art_node256::Node256;

/// Calls a method of the kind of node that has the layout.
macro_rules! art_node {
    ($layout:expr, $method:ident($($argument:expr),*)) => {
        match $layout {
            Layout::Node4 => Node4::$method($($argument),*),
            Layout::Node16 => Node16::$method($($argument),*),
            Layout::Node48 => Node48::$method($($argument),*),
            Layout::Node256 => Node256::$method($($argument),*),
        }
    };
}

/// The child of the byte, as far as the words that were read of a node of the layout tell.
pub fn probe(layout: Layout, byte: u8, reads: &Reads) -> Probe
    ensures needs { ProbeNeeds layout reads.now result }
    ensures tells { (w : Words) → IsBody layout w → Agrees reads.now w → ProbeTells (child_of layout w byte) result }
{
    art_node!(layout, probe(byte, reads))
}

/// The least entry at the byte or above, as far as the words that were read of a node of the layout tell.
pub fn at_least(layout: Layout, byte: u8, reads: &Reads) -> NextProbe
    ensures needs { NextNeeds layout reads.now result }
    ensures tells { (w : Words) → IsBody layout w → Agrees reads.now w → NextTells (child_of layout w) byte result }
{
    art_node!(layout, at_least(byte, reads))
}

/// Makes the writes the words by which the byte, which has none, gets this child; a Node48 takes the lowest place that is free.
/// False, with nothing changed, where the node is full.
pub fn plan_add(body: &Body, byte: u8, child: u64, writes: &mut Writes) -> bool
    requires body { IsBody body.now.layout (word_of body.now) }
    requires free { child_of body.now.layout (word_of body.now) byte ≡ None }
    requires child { 0 < child }
    ensures full { (result ≡ false) ↔ IsFull body.now.layout (word_of body.now) }
    ensures plan { result ≡ true → IsPlan body.now.layout (word_of body.now) writes.new.items
        (with_child (child_of body.now.layout (word_of body.now)) byte child) }
    ensures lowest { result ≡ true →
        TakesLowest body.now.layout (word_of body.now) (written (word_of body.now) writes.new.items) byte }
    ensures refused { result ≡ false → writes.new ≡ writes.old }
    ensures few { result ≡ true → length writes.new.items ≤ most_writes }
{
    art_node!(body.layout, plan_add(body, byte, child, writes))
}

/// Makes the writes the words by which the byte, which has a child, gets this one.
pub fn plan_set(body: &Body, byte: u8, child: u64, writes: &mut Writes)
    requires body { IsBody body.now.layout (word_of body.now) }
    requires there { (c : ℕ) × (child_of body.now.layout (word_of body.now) byte ≡ Some c) }
    requires child { 0 < child }
    ensures plan { IsPlan body.now.layout (word_of body.now) writes.new.items
        (with_child (child_of body.now.layout (word_of body.now)) byte child) }
    ensures one { length writes.new.items ≤ 1 }
{
    art_node!(body.layout, plan_set(body, byte, child, writes));
}

/// Makes the writes the words by which the byte, which has a child, has none.
pub fn plan_drop(body: &Body, byte: u8, writes: &mut Writes)
    requires body { IsBody body.now.layout (word_of body.now) }
    requires there { (c : ℕ) × (child_of body.now.layout (word_of body.now) byte ≡ Some c) }
    ensures plan { IsPlan body.now.layout (word_of body.now) writes.new.items
        (without_child (child_of body.now.layout (word_of body.now)) byte) }
    ensures few { length writes.new.items ≤ most_writes }
{
    art_node!(body.layout, plan_drop(body, byte, writes));
}

/// The children, in ascending order of their bytes.
pub fn list(body: &Body) -> Entries
    requires { IsBody body.now.layout (word_of body.now) }
    ensures { result.items ≡ entries body.now.layout (word_of body.now) }
{
    art_node!(body.layout, list(body))
}

/// Writes the node in the next larger layout, with the children in ascending order of their bytes from place 0.
pub fn grow(body: &Body, grown: &mut Body)
    requires body { IsBody body.now.layout (word_of body.now) }
    requires larger { body.now.layout ≢ Layout.Node256 }
    ensures layout { grown.new.layout ≡ larger body.now.layout }
    ensures same { IsRelaid body.now.layout (larger body.now.layout) (word_of body.now) (word_of grown.new) }
    ensures order { IsInOrder (larger body.now.layout) (word_of grown.new) }
{
    match body.layout {
        Layout::Node4 => relaid::<Node4, Node16>(body, Layout::Node16, grown),
        Layout::Node16 => relaid::<Node16, Node48>(body, Layout::Node48, grown),
        Layout::Node48 => relaid::<Node48, Node256>(body, Layout::Node256, grown),
        Layout::Node256 => unreachable!(),
    }
}

/// Writes the node in the next smaller layout, which has places for its children, in ascending order of their bytes
/// from place 0.
pub fn shrink(body: &Body, shrunk: &mut Body)
    requires body { IsBody body.now.layout (word_of body.now) }
    requires smaller { body.now.layout ≢ Layout.Node4 }
    requires fits { count_of (word_of body.now) ≤ places (smaller body.now.layout) }
    ensures layout { shrunk.new.layout ≡ smaller body.now.layout }
    ensures same { IsRelaid body.now.layout (smaller body.now.layout) (word_of body.now) (word_of shrunk.new) }
    ensures order { IsInOrder (smaller body.now.layout) (word_of shrunk.new) }
{
    match body.layout {
        Layout::Node4 => unreachable!(),
        Layout::Node16 => relaid::<Node16, Node4>(body, Layout::Node4, shrunk),
        Layout::Node48 => relaid::<Node48, Node16>(body, Layout::Node16, shrunk),
        Layout::Node256 => relaid::<Node256, Node48>(body, Layout::Node48, shrunk),
    }
}
