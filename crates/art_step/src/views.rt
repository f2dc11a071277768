//! What a pass knows: the types that contracts speak of. Of most of them no value is ever made.
use crate::Deed;
use art_cell::{Cell, Link, Pool};
use std::collections::LinkedList;

/// What a pass, by its number, did.
pub struct Event {
    pub pass: u64,
    pub what: Deed,
}

/// A cell whose version word was clear, that word, and the place of the cell's first word in the row of all words, so that an
/// access under the stamp need not look for it.
#[derive(Clone, Copy, Debug, PartialEq, Eq)]
pub struct Stamp {
    pub cell: Cell,
    pub version: u64,
    pub first: usize,
}

/// What is known of a cell while its version word stays.
pub enum Fact {
    /// The path that leads to it.
    Starts(LinkedList<u8>),
    /// The word at a place.
    Word(u64, u64),
    /// It names the leaf with this number, whose word at this place is this.
    LeafWord(u64, u64, u64),
}

/// A fact, and the stamp that it was noted under.
pub struct Note {
    pub stamp: Stamp,
    pub fact: Fact,
}

/// A cell that the pass holds: the version word that it was stamped with, or none where the pass claimed it, and its words
/// before the commit and after.
pub struct Holding {
    pub cell: Cell,
    pub stamped: Option<u64>,
    pub old: LinkedList<u64>,
    pub new: LinkedList<u64>,
}

/// A number in hand, and the words of a leaf, or none of a node.
pub struct InHand {
    pub link: Link,
    pub words: LinkedList<u64>,
}

/// One time of being pinned: the pass, and how many pins it had made with this one.
pub struct Pin {
    pub pass: u64,
    pub count: u64,
}

/// A number that the pass unlinked: the epoch after that, once it was noted, the passes that were seen to have gone on, and
/// the pins that stood.
pub struct Retired {
    pub link: Link,
    pub label: Option<u64>,
    pub marked: LinkedList<u64>,
    pub pins: LinkedList<Pin>,
}

/// The epoch, as the pass found it at one of its steps.
pub struct EpochSeen {
    pub epoch: u64,
    pub step: u64,
}

/// The stamps and notes as the last check that succeeded left them, at one of the pass's steps.
pub struct LastCheck {
    pub stamps: LinkedList<Stamp>,
    pub notes: LinkedList<Note>,
    pub step: u64,
}

/// A word that the pass found.
pub enum Word {
    Version(Cell, u64),
    /// The word of free numbers at an index.
    Free(Pool, u64, u64),
    /// The word of a pass.
    Pass(u64, u64),
}

/// A word that the pass found, and at which of its steps.
pub struct Found {
    pub word: Word,
    pub step: u64,
}

/// What a pass knows.
pub struct View {
    pub pass: u64,
    /// The history that it has seen, and the places of its own events there.
    pub seen: LinkedList<Event>,
    pub own: LinkedList<u64>,
    /// How many steps it has made, and how many of them failed.
    pub steps: u64,
    pub failures: u64,
    /// How many pins it has made, and the epoch that it is pinned to, or 0.
    pub pins: u64,
    pub pin: u64,
    pub noted: Option<EpochSeen>,
    pub stamps: LinkedList<Stamp>,
    pub notes: LinkedList<Note>,
    pub checked: LastCheck,
    pub found: LinkedList<Found>,
    pub held: LinkedList<Holding>,
    /// Whether the cells that it holds have their new words.
    pub committed: bool,
    pub hand: LinkedList<InHand>,
    pub limbo: LinkedList<Retired>,
}

/// How many numbers each pool has, and how many passes there are.
#[derive(Clone, Copy, Debug, PartialEq, Eq)]
pub struct Sizes {
    pub leaves: u32,
    pub n4: u32,
    pub n16: u32,
    pub n48: u32,
    pub n256: u32,
    pub passes: u32,
}
