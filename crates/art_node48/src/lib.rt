//! Nodes of at most 48 children: an index of 256 entries, each naming a place or none, and 48 places (ICDE 2013).
#![tactic(auto)]

mod node48;

pub use node48::Node48;
