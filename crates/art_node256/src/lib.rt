//! Node256: the largest layout of a node (ICDE 2013).
//!
//! The child word of a byte stands at a place of its own, so that one read finds it and no key bytes are kept. Words 2
//! to 9 are the prefix, as in every layout, and the header at place 1 counts the children.
#![tactic(auto)]

mod kind;

pub use kind::Node256;
