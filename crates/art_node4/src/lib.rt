//! The smallest nodes: at most 4 children, in ascending order of their bytes, in 15 words.
//!
//! A Node16 stands in the same order, so both layouts are one piece of code here, with a number of positions (`Sorted`;
//! `src/layouts.rt` teaches it), and `art_node16` gives it the other number.
#![tactic(auto)]

mod bodies;
mod keys;
mod layouts;
mod lists;
mod plans;
mod probes;
mod searches;

use art_cell::{Body, Entries, Entry, NextProbe, NodeKind, Probe, Reads, Writes};
pub use bodies::{add, set, take};
pub use layouts::Sorted;
pub use lists::{entry_at, list};
pub use plans::{plan_add, plan_drop, plan_set};
pub use probes::{at_least, probe};

/// Nodes of at most 4 children (ICDE 2013): the key bytes in one word, and the children after it.
pub struct Node4;

impl NodeKind for Node4 {
    ghost use Rattle.art_cell.specs.declared.cells.Layout.TheVariants as layouts;

    ghost layout = { layouts.Node4 };

    fn probe(byte: u8, reads: &Reads) -> Probe {
        crate::probe(Sorted::Four, byte, reads)
    }

    fn at_least(byte: u8, reads: &Reads) -> NextProbe {
        crate::at_least(Sorted::Four, byte, reads)
    }

    fn add(body: &mut Body, byte: u8, child: u64) -> bool {
        crate::add(Sorted::Four, body, byte, child)
    }

    fn set(body: &mut Body, byte: u8, child: u64) {
        crate::set(Sorted::Four, body, byte, child);
    }

    fn take(body: &mut Body, byte: u8) {
        crate::take(Sorted::Four, body, byte);
    }

    fn list(body: &Body) -> Entries {
        crate::list(Sorted::Four, body)
    }

    fn nth(body: &Body, index: usize, _from: usize) -> Entry {
        crate::entry_at(Sorted::Four, body, index)
    }

    fn plan_add(body: &Body, byte: u8, child: u64, writes: &mut Writes) -> bool {
        crate::plan_add(Sorted::Four, body, byte, child, writes)
    }

    fn plan_set(body: &Body, byte: u8, child: u64, writes: &mut Writes) {
        crate::plan_set(Sorted::Four, body, byte, child, writes);
    }

    fn plan_drop(body: &Body, byte: u8, writes: &mut Writes) {
        crate::plan_drop(Sorted::Four, body, byte, writes);
    }
}
