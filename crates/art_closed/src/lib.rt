//! What a closed table has: its rows in order, and how many numbers of each pool are linked, free and in limbo.
//!
//! # A closed table
//!
//! `Shared::close` (`art_shared`) leaves all words of a table, and says what they mean (`Closes`): a tree with the rows that the one
//! history leaves, and for each number one fate. This crate reads both off the words. Nothing here takes memory, so that a table which
//! is closed is always told: the room for the rows is there before.
//!
//! # The rows
//!
//! `list_rows` walks the tree from the top down, at each node byte by byte. Keys below a lower byte stand before those below a higher
//! one, and keys of one schema stand in byte order as their tuples stand (`art_key`), so the rows come in order:
//!
//! ```text
//!            node ──┬─ 02 ── node ──┬─ 03 ── leaf 02 03      [2, 3]
//!                   │               └─ 09 ── leaf 02 09      [2, 9]
//!                   └─ 05 ── leaf 05 01                      [5, 1]
//! ```
//!
//! What it lists are the spellings of whatever map has the tree's rows (`AreRowsOf`), and a map spells one list of rows
//! (`maps_spell_one_list`). So the rows are those that the typed history leaves (`histories_are_typed` of `art_typed`).
//!
//! # The numbers
//!
//! `count` tells of one pool how many of its numbers are linked in the tree, free, and in limbo (`IsCounted`). Which are free the
//! words say, a bit each. What waits in limbo no word says, so the caller counts that, limbo by limbo (`waiting_in`), and adds it up
//! (`limbos_add_up`). Each number has one fate (`IsAccounted`), so all others are linked:
//!
//! ```text
//!   size of the pool  =  linked  +  free            +  in limbo
//!                        the rest   bits of words      counted before
//! ```
#![tactic(auto)]

mod cells;
mod counts;
mod laws;
mod rows;

pub use counts::{PoolCount, count, waiting_in};
pub use laws::{limbos_add_up, maps_spell_one_list};
pub use rows::list_rows;
