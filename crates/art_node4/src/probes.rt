//! A byte's child, and the least entry at a byte or above, as far as the words that were read tell.
ghost use Rattle.art_cell.specs.Words.{Words, child_of};
ghost use Rattle.art_cell.specs.Bodies.{IsBody};
ghost use Rattle.art_cell.specs.Reads.{Agrees, ProbeNeeds, ProbeTells, NextNeeds, NextTells};
ghost use Rattle.art_node4.specs.Sorted.{layout_of};

use crate::Sorted;
use crate::searches::{Search, first_from};
use art_cell::{Entry, NextProbe, Probe, Reads};

/// The child of the byte, as far as the words that were read tell.
///
/// The header and then the key words are asked for in order, and no key word after the byte or a greater one was
/// found.
pub fn probe(sorted: Sorted, byte: u8, reads: &Reads) -> Probe
    ensures needs { ProbeNeeds (layout_of sorted) reads.now result }
    ensures tells { (w : Words) → IsBody (layout_of sorted) w → Agrees reads.now w →
        ProbeTells (child_of (layout_of sorted) w byte) result }
{
    match first_from(sorted, byte, reads) {
        Search::Need(place) => Probe::Need(place),
        Search::At(index, found) => {
            if found != byte {
                return Probe::None;
            }
            let place = sorted.first_child() + index;
            match reads.get(place) {
                None => Probe::Need(place),
                Some(0) => Probe::None,
                Some(child) => Probe::Child(child),
            }
        }
        Search::Nothing => Probe::None,
    }
}

/// The least entry at the byte or above, as far as the words that were read tell.
pub fn at_least(sorted: Sorted, byte: u8, reads: &Reads) -> NextProbe
    ensures needs { NextNeeds (layout_of sorted) reads.now result }
    ensures tells { (w : Words) → IsBody (layout_of sorted) w → Agrees reads.now w →
        NextTells (child_of (layout_of sorted) w) byte result }
{
    match first_from(sorted, byte, reads) {
        Search::Need(place) => NextProbe::Need(place),
        Search::At(index, found) => {
            let place = sorted.first_child() + index;
            match reads.get(place) {
                None => NextProbe::Need(place),
                Some(child) => NextProbe::Entry(Entry { byte: found, child }),
            }
        }
        Search::Nothing => NextProbe::None,
    }
}
