//! What every layout of a node can do.
ghost use Rattle.std.specs.Prelude.{◌≡◌, ◌<◌, ◌≤◌, ◌↔◌, ℕ, Some, None, IsNone, IfSome, false, true, length, take};

use crate::{Body, Reads, Writes};
use arrayvec::ArrayVec;

/// What is known of the child of a byte.
#[derive(Clone, Copy, Debug, PartialEq)]
pub enum Probe {
    /// The word at this place must be read first.
    Need(usize),
    /// The byte has this child word.
    Child(u64),
    /// The byte has no child.
    None,
}

/// A byte and its child word.
#[derive(Clone, Copy, Debug, Default, PartialEq)]
pub struct Entry {
    pub byte: u8,
    pub child: u64,
}

/// What is known of the least entry at a byte or above.
#[derive(Clone, Copy, Debug, PartialEq)]
pub enum NextProbe {
    /// The word at this place must be read first.
    Need(usize),
    /// This is the entry.
    Entry(Entry),
    /// No byte from there on has a child.
    None,
}

/// The children of a node, in ascending order of their bytes.
pub type Entries = ArrayVec<Entry, 256>;

/// A layout of nodes: a finite map from byte to child, in words.
///
/// A probe looks at words that were read one by one, perhaps while another pass was writing. Whatever they are, it
/// answers; where they are words of a node, the answer is that of the node's map.
pub trait NodeKind {
    ghost use Rattle.art_cell.specs.declared.cells.Layout.{Layout};
    ghost use Rattle.art_cell.specs.Words.{Words, child_of, entries, listed, nth_entry};
    ghost use Rattle.art_cell.specs.Bodies.{IsBody, IsFull, Becomes, TakesLowest};
    ghost use Rattle.art_cell.specs.Reads.{word_of, Agrees, ProbeNeeds, ProbeTells, NextNeeds, NextTells};
    ghost use Rattle.art_cell.specs.Reads.{IsBodyOf, SameOutside, changes, written, IsPlan, with_child, without_child, most_writes};

    ghost layout: { Layout };

    /// The child of the byte, as far as the words that were read tell.
    fn probe(byte: u8, reads: &Reads) -> Probe
        ensures needs { ProbeNeeds layout reads.now result }
        ensures tells { (w : Words) → IsBody layout w → Agrees reads.now w → ProbeTells (child_of layout w byte) result };

    /// The least entry at the byte or above, as far as the words that were read tell.
    fn at_least(byte: u8, reads: &Reads) -> NextProbe
        ensures needs { NextNeeds layout reads.now result }
        ensures tells { (w : Words) → IsBody layout w → Agrees reads.now w → NextTells (child_of layout w) byte result };

    /// Gives the byte, which has none, this child; a Node48 takes the lowest place that is free. False, with nothing changed, where
    /// the node is full.
    fn add(body: &mut Body, byte: u8, child: u64) -> bool
        requires body { IsBodyOf layout body.old }
        requires free { child_of layout (word_of body.old) byte ≡ None }
        requires child { 0 < child }
        ensures full { (result ≡ false) ↔ IsFull layout (word_of body.old) }
        ensures added { result ≡ true → Becomes layout (word_of body.old) (word_of body.new)
            (with_child (child_of layout (word_of body.old)) byte child) }
        ensures lowest { result ≡ true → TakesLowest layout (word_of body.old) (word_of body.new) byte }
        ensures refused { result ≡ false → body.new ≡ body.old }
        ensures layout { body.new.layout ≡ body.old.layout }
        ensures outside { SameOutside layout (word_of body.old) (word_of body.new) }
        ensures few { result ≡ true → length (changes layout (word_of body.old) (word_of body.new)) ≤ most_writes };

    /// Gives the byte, which has a child, this one.
    fn set(body: &mut Body, byte: u8, child: u64)
        requires body { IsBodyOf layout body.old }
        requires there { (c : ℕ) × (child_of layout (word_of body.old) byte ≡ Some c) }
        requires child { 0 < child }
        ensures set { Becomes layout (word_of body.old) (word_of body.new) (with_child (child_of layout (word_of body.old)) byte child) }
        ensures layout { body.new.layout ≡ body.old.layout }
        ensures outside { SameOutside layout (word_of body.old) (word_of body.new) }
        ensures one { length (changes layout (word_of body.old) (word_of body.new)) ≤ 1 };

    /// Takes away the child of the byte, which has one.
    fn take(body: &mut Body, byte: u8)
        requires body { IsBodyOf layout body.old }
        requires there { (c : ℕ) × (child_of layout (word_of body.old) byte ≡ Some c) }
        ensures taken { Becomes layout (word_of body.old) (word_of body.new) (without_child (child_of layout (word_of body.old)) byte) }
        ensures layout { body.new.layout ≡ body.old.layout }
        ensures outside { SameOutside layout (word_of body.old) (word_of body.new) }
        ensures few { length (changes layout (word_of body.old) (word_of body.new)) ≤ most_writes };

    /// The children, in ascending order of their bytes.
    fn list(body: &Body) -> Entries
        requires { IsBodyOf layout body.now }
        ensures { result.items ≡ entries layout (word_of body.now) };

    /// The child at this index, in ascending order of their bytes: the least one at this byte or above, where those before it are
    /// the ones below the byte.
    fn nth(body: &Body, index: usize, from: usize) -> Entry
        requires body { IsBodyOf layout body.now }
        requires there { index < length (entries layout (word_of body.now)) }
        requires within { from ≤ 256 }
        requires before { listed (child_of layout (word_of body.now)) 0 from ≡ take index (entries layout (word_of body.now)) }
        ensures { result ≡ nth_entry (entries layout (word_of body.now)) index };

    /// Makes the writes the words by which the byte, which has none, gets this child; a Node48 takes the lowest place that is free.
    /// False, with nothing changed, where the node is full.
    fn plan_add(body: &Body, byte: u8, child: u64, writes: &mut Writes) -> bool
        requires body { IsBodyOf layout body.now }
        requires free { child_of layout (word_of body.now) byte ≡ None }
        requires child { 0 < child }
        ensures full { (result ≡ false) ↔ IsFull layout (word_of body.now) }
        ensures plan { result ≡ true → IsPlan layout (word_of body.now) writes.new.items
            (with_child (child_of layout (word_of body.now)) byte child) }
        ensures lowest { result ≡ true → TakesLowest layout (word_of body.now) (written (word_of body.now) writes.new.items) byte }
        ensures refused { result ≡ false → writes.new ≡ writes.old }
        ensures few { result ≡ true → length writes.new.items ≤ most_writes };

    /// Makes the writes the words by which the byte, which has a child, gets this one.
    fn plan_set(body: &Body, byte: u8, child: u64, writes: &mut Writes)
        requires body { IsBodyOf layout body.now }
        requires there { (c : ℕ) × (child_of layout (word_of body.now) byte ≡ Some c) }
        requires child { 0 < child }
        ensures plan { IsPlan layout (word_of body.now) writes.new.items (with_child (child_of layout (word_of body.now)) byte child) }
        ensures one { length writes.new.items ≤ 1 };

    /// Makes the writes the words by which the byte, which has a child, has none.
    fn plan_drop(body: &Body, byte: u8, writes: &mut Writes)
        requires body { IsBodyOf layout body.now }
        requires there { (c : ℕ) × (child_of layout (word_of body.now) byte ≡ Some c) }
        ensures plan { IsPlan layout (word_of body.now) writes.new.items (without_child (child_of layout (word_of body.now)) byte) }
        ensures few { length writes.new.items ≤ most_writes };
}
