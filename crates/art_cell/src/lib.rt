//! Cells: what the words of one cell mean.
//!
//! # The problem
//!
//! A pass of the index looks at a node without a lock, while another pass may be writing it. So a node is kept as
//! words of 64 bits, each of which is read or written at one instant, and all that is said of a node is said of its
//! words: which words are those of a node, and what they mean. A pass reads them one after another, and what it has
//! read by then may be of different moments. It must come to an answer whatever it read, and to the right one where
//! the words are those of a node; that they are, it finds out afterwards, by the word of the version, and nothing here
//! asks for it.
//!
//! # Cells and their words
//!
//! A `Cell` is the anchor, a leaf, or an inner `Node`, which stands in one of four layouts (ICDE 2013). A contract
//! sees the words of a cell as a function from a word's place to the word (`Words`). An inner node has these, by their
//! places:
//!
//! ```text
//!            Node4    Node16   Node48   Node256
//! version    0        0        0        0          tells of locks and changes, and is no part of what the words mean
//! header     1        1        1        1          bits 0 to 8: how many children; bits 9 to 15: the prefix's length;
//!                                                  bits 16 to 63, of a Node48: which of its places are in use
//! prefix     2-9      2-9      2-9      2-9        bytes, eight a word, the first in the highest byte
//! key bytes  10       10-11                        bytes in ascending order, packed as those of the prefix
//! index                        10-41               a byte for each byte: 0, or a place and 1
//! children   11-14    12-27    42-89    10-265     a child word each
//! size       15       28       90       266
//! ```
//!
//! Children of a Node4 and a Node16 stand in the order of their key bytes, those of a Node48 where the index says, and
//! that of byte b in a Node256 at place 10 + b. A leaf has ten words and no version: its value, the length of its key,
//! and the bytes of the key, packed from place 2 on. The anchor has a version, and at place 1 the root's child word.
//!
//! A child word is 0, which names none, or 8 times a number and a code: 1 for a leaf, 2 to 5 for a node by its layout.
//! The `Link` that it names is a leaf, or a layout and a number among its nodes.
//!
//! # What the words of a node mean
//!
//! A prefix, `prefix_of`: the bytes that all keys below the node share after its path. And a finite map from byte to
//! child word, `child_of`, whatever the layout. The node of the prefix `61 62` with children at the bytes 3 and 9
//! means the same in each layout; as a Node4 its words are
//!
//! ```text
//! 1: 2 * 512 + 2    2: 0x6162_0000_0000_0000    10: 0x0309_0000_0000_0000    11, 12: the two child words    else 0
//! ```
//!
//! Not all words are those of a node. `IsBody` says which are: the prefix has at most 64 bytes, the layout's form
//! holds (`HasForm`), the count is that of the map, and what is not in use is 0: bytes after the prefix's and after
//! the key bytes', and child words of positions and places that are free. So a change that takes a child away cleans
//! up after it, and the next one may rely on that.
//!
//! # What was read, and what is written
//!
//! `Reads` has the words that a pass has read by now. A probe is asked what a byte's child is, and answers with the
//! place of a word that it needs first, with the child, or that there is none; `NodeKind::at_least` answers the same
//! way for the least byte from one on. Two clauses say what an answer is worth. Whatever was read, a word is only ever
//! asked for that is the cell's, after its version, and was not read, so that each look ends; and a child is only ever
//! told that is a word that was read (`needs`). For all words of a node that agree with what was read, the answer is
//! what their map says (`tells`).
//!
//! A change is planned on a `Body`, a copy of all words of a node, and written as the words that differ, in ascending
//! place (`Writes`, `changes`). `IsPlan` says that the words are those of a node then, with the prefix as it was and
//! the map with that one entry more, another or less.
//!
//! The four layouts meet one trait, `NodeKind`, so that nothing above knows which one a node has.
#![tactic(auto)]

mod cells;
mod node_kinds;
mod reads;

pub use cells::{Body, Cell, Layout, Link, Node, Pool, Write, Writes, changes};
pub use node_kinds::{Entries, Entry, NextProbe, NodeKind, Probe};
pub use reads::Reads;
