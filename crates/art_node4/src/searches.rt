//! The first key byte at a byte or above, among words that were read one by one.
ghost use Rattle.std.specs.Prelude.{◌≡◌, ◌≤◌, ◌<◌};
ghost use Rattle.art_cell.specs.Words.{Words, byte_of, places, count_of};
ghost use Rattle.art_cell.specs.Reads.{Agrees};
ghost use Rattle.art_node4.specs.Sorted.{layout_of, SearchNeeds, SearchTells};

use crate::Sorted;
use art_cell::Reads;

/// Where the first key byte at a byte or above stands, as far as the words that were read tell.
#[derive(Drop)]
pub(crate) enum Search {
    /// The word at this place must be read first.
    Need(usize),
    /// At this position stands this byte.
    At(usize, u8),
    /// No key byte is at the byte or above.
    Nothing,
}

/// The place of the first word of key bytes.
pub(crate) const FIRST_KEYS: usize = 10;

/// The place of the header.
pub(crate) const HEADER: usize = 1;

/// One of the eight bytes of a word, the first of which is the highest.
pub(crate) fn byte_at(word: u64, index: usize) -> u8
    requires { index < 8 }
    ensures { result ≡ byte_of word index }
{
    word.to_be_bytes()[index]
}

/// Looks at the key bytes in order, and at no more than there are positions, whatever count was read.
pub(crate) fn first_from(sorted: Sorted, byte: u8, reads: &Reads) -> Search
    ensures needs { SearchNeeds (layout_of sorted) reads.now result }
    ensures tells { (w : Words) → count_of w ≤ places (layout_of sorted) → Agrees reads.now w → SearchTells w byte result }
{
    let Some(header) = reads.get(HEADER) else {
        return Search::Need(HEADER);
    };
    let count = ((header % 512) as usize).min(sorted.positions());
    for index in 0..count {
        let place = FIRST_KEYS + index / 8;
        let Some(word) = reads.get(place) else {
            return Search::Need(place);
        };
        let found = byte_at(word, index % 8);
        if found >= byte {
            return Search::At(index, found);
        }
    }
    Search::Nothing
}
