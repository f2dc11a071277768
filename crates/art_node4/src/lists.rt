//! The children of a node, by their positions and as a list.
ghost use Rattle.std.specs.Prelude.{◌≡◌, ◌≤◌};
ghost use Rattle.art_cell.specs.Words.{count_of, entries};
ghost use Rattle.art_cell.specs.Reads.{word_of, IsBodyOf};
ghost use Rattle.art_node4.specs.Sorted.{layout_of, entry_or_none, IsPosition};

use crate::Sorted;
use crate::searches::{FIRST_KEYS, HEADER, byte_at};
use arrayvec::ArrayVec;
use art_cell::{Body, Entries, Entry};

/// The children of a node, of which there are at most 16.
pub(crate) type Children = ArrayVec<Entry, 16>;

/// The children, in ascending order of their bytes.
pub fn list(sorted: Sorted, body: &Body) -> Entries
    requires { IsBodyOf (layout_of sorted) body.now }
    ensures { result.items ≡ entries (layout_of sorted) (word_of body.now) }
{
    listed(sorted, body)
}

/// The children, in ascending order of their bytes, in a list of any size that has room for them.
pub(crate) fn listed<const CAP: usize>(sorted: Sorted, body: &Body) -> ArrayVec<Entry, CAP>
    requires body { IsBodyOf (layout_of sorted) body.now }
    requires room { 16 ≤ CAP }
    ensures { result.items ≡ entries (layout_of sorted) (word_of body.now) }
{
    let mut list = ArrayVec::new();
    let count = count(body);
    let first_child = sorted.first_child();
    for index in 0..count {
        let byte = byte_at(body.words[FIRST_KEYS + index / 8], index % 8);
        let child = body.words[first_child + index];
        list.push(Entry { byte, child });
    }
    list
}

/// How many children there are.
#[inline(always)]
pub(crate) fn count(body: &Body) -> usize
    ensures { result ≡ count_of (word_of body.now) }
{
    (body.words[HEADER] % 512) as usize
}

/// The entry at a position, and after the last one an entry of zeros.
#[inline(always)]
pub fn entry_at(sorted: Sorted, body: &Body, position: usize) -> Entry
    requires { IsBodyOf (layout_of sorted) body.now }
    ensures { result ≡ entry_or_none (entries (layout_of sorted) (word_of body.now)) position }
{
    if position < count(body) {
        Entry {
            byte: byte_at(body.words[FIRST_KEYS + position / 8], position % 8),
            child: body.words[sorted.first_child() + position],
        }
    } else {
        Entry { byte: 0, child: 0 }
    }
}

/// Where a byte stands among the children, or would stand.
#[inline(always)]
pub(crate) fn position(sorted: Sorted, body: &Body, byte: u8) -> usize
    requires { IsBodyOf (layout_of sorted) body.now }
    ensures { IsPosition (entries (layout_of sorted) (word_of body.now)) byte result }
{
    let count = count(body);
    for index in 0..count {
        if entry_at(sorted, body, index).byte >= byte {
            return index;
        }
    }
    count
}

/// The entry at a position of the list, and after its end an entry of zeros.
pub(crate) fn entry_or_none(list: &Children, index: usize) -> Entry
    ensures { result ≡ entry_or_none list.now.items index }
{
    if index < list.len() {
        list[index]
    } else {
        Entry { byte: 0, child: 0 }
    }
}
