//! Nodes whatever their layout, and leaves, as words.
//!
//! A node in one of the four layouts (ICDE 2013) is a prefix and a finite map from byte to child, and nothing here but
//! the dispatch knows which layout it has. A node that is full moves to the next larger layout, and one that has few
//! children to the next smaller one, with the same prefix and the same map: the words of the new node are written to
//! a body that the caller has, since a body is large. A leaf is its key and its value.
//!
//! `probe` and `at_least` look at all words of a node that were read by now. A machine that keeps none of them asks in
//! another way: `first_word` names the first word to read for the child of a byte, by the header alone, and `next_word`
//! the one after it, by the last word that was read. `first_word_from` and `next_word_from` do so for the least child at
//! a byte or above.
//!
//! Where two keys part below a prefix, `fork` writes the node that comes between, to such a body too: a part of the
//! prefix, and two children. `plan_prefix` gives a node another prefix, shorter where such a node comes above it, longer
//! where one goes.
#![tactic(auto)]

mod nodes;
mod relaid;
mod searches;
mod words;

pub use nodes::{at_least, grow, list, plan_add, plan_drop, plan_set, probe, shrink};
pub use searches::{Sought, SoughtFrom, first_word, first_word_from, next_word, next_word_from};
pub use words::{
    Header, child_word, fork, leaf_word, link_in, pack, plan_prefix, prefix, read_header, unpack,
};
