//! Nodes of at most 16 children, in ascending order of their bytes, in 28 words.
#![tactic(auto)]

use art_cell::{Body, Entries, Entry, NextProbe, NodeKind, Probe, Reads, Writes};
use art_node4::Sorted;

/// Nodes of at most 16 children (ICDE 2013): the key bytes in two words, and the children after them.
pub struct Node16;

impl NodeKind for Node16 {
    ghost use Rattle.art_cell.specs.declared.cells.Layout.TheVariants as layouts;

    ghost layout = { layouts.Node16 };

    fn probe(byte: u8, reads: &Reads) -> Probe {
        art_node4::probe(Sorted::Sixteen, byte, reads)
    }

    fn at_least(byte: u8, reads: &Reads) -> NextProbe {
        art_node4::at_least(Sorted::Sixteen, byte, reads)
    }

    fn add(body: &mut Body, byte: u8, child: u64) -> bool {
        art_node4::add(Sorted::Sixteen, body, byte, child)
    }

    fn set(body: &mut Body, byte: u8, child: u64) {
        art_node4::set(Sorted::Sixteen, body, byte, child);
    }

    fn take(body: &mut Body, byte: u8) {
        art_node4::take(Sorted::Sixteen, body, byte);
    }

    fn list(body: &Body) -> Entries {
        art_node4::list(Sorted::Sixteen, body)
    }

    fn nth(body: &Body, index: usize, _from: usize) -> Entry {
        art_node4::entry_at(Sorted::Sixteen, body, index)
    }

    fn plan_add(body: &Body, byte: u8, child: u64, writes: &mut Writes) -> bool {
        art_node4::plan_add(Sorted::Sixteen, body, byte, child, writes)
    }

    fn plan_set(body: &Body, byte: u8, child: u64, writes: &mut Writes) {
        art_node4::plan_set(Sorted::Sixteen, body, byte, child, writes);
    }

    fn plan_drop(body: &Body, byte: u8, writes: &mut Writes) {
        art_node4::plan_drop(Sorted::Sixteen, body, byte, writes);
    }
}
