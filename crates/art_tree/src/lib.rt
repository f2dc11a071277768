//! The tree that the words of all cells mean, and its laws. Nothing runs here: each law is the contract of a function with
//! nothing to do, over the definitions of `specs/`.
//!
//! # What a heap is, and what a tree
//!
//! A cell is the anchor, a leaf or a node, and `art_cell` says what the words of one cell mean. A heap (`Heap`) is what
//! all cells mean together: the anchor has a root or none, a leaf has a key and a value, and a node has a prefix and, at
//! each byte, a child or none. Whatever words there are mean some heap (`heap_of`), and most heaps are no tree.
//!
//! A path is a text of bytes. The root stands at the empty path. What a node at path p has at byte b stands at p, then
//! the node's prefix, then b (`StandsAt`); so a proof that a cell stands at a path is the way from the anchor to it. A
//! cell is linked where some path leads to it. A place is where a child word stands: the anchor, or a byte of a node.
//!
//! ```text
//! anchor ── node, prefix 1        the node stands at the empty path
//!             2 ── leaf 1 2 3     this leaf at 1 2
//!             5 ── leaf 1 5       and this one at 1 5
//! ```
//!
//! A heap is a tree (`IsTree`) where each linked cell is named at one place, each linked node has two children, its path
//! with its prefix is shorter than 64 bytes, and the path of each linked leaf begins the leaf's key. The rows of a heap
//! are the keys and values of its linked leaves (`Row`), and `HasRows` says that they are those of a map.
//!
//! # What a change is
//!
//! A change of an insert, a removal or a put writes a few cells. It is said on three pages, and laws lead from each to
//! the next: which words are written (`WordChanges`), what differs between the two heaps (`Changes`), and what that does
//! (`Does` of `Laws`): the heap after it is a tree, the touched cells stand where the law says, every other linked cell
//! keeps its path, no other cell is linked, and the rows are those of the map with one row more, or one less, or the same.
//!
//! | Change | What gives way at the place x | Unlinked | Linked | Rows |
//! |---|---|---|---|---|
//! | add (`Edits`) | nothing, to the leaf l | | l | insert |
//! | drop (`Edits`) | the leaf l, to nothing | l | | remove |
//! | replace (`Replaces`) | the leaf l, to the leaf i with its key | l | i | insert |
//! | fork (`Forks`) | a cell c, to a node m that has c and the leaf l | | m, l | insert |
//! | grow (`Renews`) | a node n, to m with its children and the leaf l | n | m, l | insert |
//! | shrink (`Renews`) | a node n, to m with its children but the leaf l | n, l | m | remove |
//! | copy (`Copies`) | a node n, to m with its children | n | m | the same |
//! | merge (`Merges`) | a node n, to its other child c | n, l | | remove |
//!
//! What is not linked does not matter (`SameTree`): words of unlinked cells may change as they like.
//!
//! # What a descent and a look show
//!
//! A descent by a key goes from cell to cell, to those whose paths begin the key. `Descends` says what one cell on the
//! way shows: the key's row at a leaf that has it; and that there is no such row where the heap has no root, where a leaf
//! has another key, where a node's prefix differs from the key, where the key ends with a prefix, and where a node has no
//! child at the key's next byte. `Parts` says where a new key parts from what stands on its way, which is what a fork
//! needs. A look is of a range of keys, from lo on and before hi: `LooksAtAnchor` and `LooksAtNode` say when one cell
//! shows that no row is in the range, or one leaf alone; `after` is the bound just above all keys that begin with a text.
//!
//! # That the laws say something
//!
//! A law whose premises nothing meets says nothing. `proofs/Example.antt` is the witness that they can be met: one heap goes
//! through all eight changes, from no root to no root again, each by its law.
//!
//! # Letters
//!
//! | | |
//! |---|---|
//! | h, h' | a heap before a change, and after it |
//! | s, s' | the words of all cells before, and after |
//! | w, w' | the words of one cell before, and after |
//! | x, y | places; x is the one that is written |
//! | p, q, r | paths, prefixes and other texts; r is the path of x |
//! | n, m, o | nodes; n gives way and m comes. An o may also be a child or none |
//! | l, i | leaves; l is the row's |
//! | c, d | links, and the cells that they name |
//! | a, b, e | bytes |
//! | k, j; v, u | keys; values |
//! | f, g | maps, of the rows before and after |
//! | lo, hi | the ends of a range |
//! | T, E | the touched cells, and where they stand after the change |
#![tactic(auto)]

mod bounds;
mod laws;

pub use bounds::Bound;
pub use laws::{
    bounds_are_least, cells_have_one_path, cells_lead_to_rows, child_words_are_read_back,
    descents_show, leaves_are_added, leaves_are_dropped, leaves_are_replaced, looks_show,
    new_keys_part, no_root_has_no_row, nodes_are_copied, nodes_are_merged_away, nodes_come_between,
    nodes_grow, nodes_shrink, rows_are_of_one_map, rows_stand_below_the_root,
    same_words_are_the_same_tree, unlinked_cells_do_not_matter, words_change_the_tree,
    words_mean_bytes, words_mean_cells,
};
