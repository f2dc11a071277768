//! Where the child of a byte stands in a node, and the least child from a byte on, by one word after another.
//!
//! Each answer needs the header, the byte and the word that was read last, and nothing of the words before it.
ghost use Rattle.std.specs.Prelude.{◌≡◌, ◌<◌, ℕ};
ghost use Rattle.art_cell.specs.declared.cells.Layout.TheVariants as layouts;
ghost use Rattle.art_cell.specs.Words.{byte_of};
ghost use Rattle.art_node4.specs.Sorted.{layout_of};
ghost use Rattle.art_node.specs.Searches.{AsksCounted, AsksCountedFrom, GoesOnCounted};
ghost use Rattle.art_node.specs.Searches.{AsksLater, AsksLaterFrom, IsHeader, IsNextWord, IsNextWordFrom, SoughtTells, SoughtFromTells};
ghost use Rattle.art_node.specs.Searches.{IsKeyWord, KeySearchTells, PlaceTells, HasWord, HasWordFrom};

use art_cell::Layout;
use art_node4::Sorted;

/// What the words of a node that were read tell of the child of a byte.
#[derive(Clone, Copy, Debug, PartialEq, Eq)]
pub enum Sought {
    /// The word of key bytes, or of the index, with this number has to be read first.
    Keys(u8),
    /// It is the child word at this place, where 0 is none.
    Child(usize),
    /// The byte has no child.
    Nothing,
}

/// What the words of a node that were read tell of its least child at a byte or above.
#[derive(Clone, Copy, Debug, PartialEq, Eq)]
pub enum SoughtFrom {
    /// The word of key bytes, or of the index, with this number has to be read first.
    Keys(u8),
    /// No byte before this one has a child, from the lowest that is asked for on; its child is the child word at this
    /// place, where 0 is none.
    Child { place: usize, byte: u8 },
    /// No byte has a child, from the lowest that is asked for on.
    Nothing,
}

/// Where the first key byte at a byte or above stands, as far as one word of key bytes tells.
#[derive(Clone, Copy)]
enum KeySearch {
    /// At this position stands this byte.
    At { position: usize, byte: u8 },
    /// The next word of key bytes has to be read first.
    Later,
    /// No key byte is at the byte or above.
    Nothing,
}

/// The last word of an index.
const LAST_INDEX_WORD: u8 = 31;

/// How many places a node with an index has.
const INDEXED_PLACES: usize = 48;

/// The place of the child of byte 0 in a node with a place for each byte.
const FIRST_OF_ALL: usize = 10;

/// Where to look for the child of the byte, by the header.
pub fn first_word(layout: Layout, byte: u8, header: u64) -> Sought
    ensures { SoughtTells layout byte (IsHeader header) result }
{
    match layout {
        Layout::Node4 | Layout::Node16 => Sought::Keys(0),
        Layout::Node48 => Sought::Keys(byte / 8),
        Layout::Node256 => Sought::Child(FIRST_OF_ALL + usize::from(byte)),
    }
}

/// Where to look next, by the word of key bytes or of the index with this number, once those before it that were asked
/// for were read.
#[inline(always)]
pub fn next_word(layout: Layout, byte: u8, header: u64, number: u8, word: u64) -> Sought
    requires { number < 32 }
    ensures tells { SoughtTells layout byte (IsNextWord layout byte header number word) result }
    ensures later { AsksLater number result }
    ensures counted { AsksCounted layout header result }
{
    match layout {
        Layout::Node4 => sorted_child(Sorted::Four, byte, header, number, word),
        Layout::Node16 => sorted_child(Sorted::Sixteen, byte, header, number, word),
        Layout::Node48 => indexed_child(byte, word),
        Layout::Node256 => Sought::Nothing,
    }
}

/// Where to look for the least child at the byte or above, by the header.
pub fn first_word_from(layout: Layout, low: u8, header: u64) -> SoughtFrom
    ensures { SoughtFromTells layout low (IsHeader header) result }
{
    match layout {
        Layout::Node4 | Layout::Node16 => SoughtFrom::Keys(0),
        Layout::Node48 => SoughtFrom::Keys(low / 8),
        Layout::Node256 => SoughtFrom::Child {
            place: FIRST_OF_ALL + usize::from(low),
            byte: low,
        },
    }
}

/// Where to look next, by the word of key bytes or of the index with this number, once those before it that were asked
/// for were read.
#[inline(always)]
pub fn next_word_from(layout: Layout, low: u8, header: u64, number: u8, word: u64) -> SoughtFrom
    requires { number < 32 }
    ensures tells { SoughtFromTells layout low (IsNextWordFrom layout low header number word) result }
    ensures later { AsksLaterFrom number result }
    ensures counted { AsksCountedFrom layout header result }
{
    match layout {
        Layout::Node4 => sorted_child_from(Sorted::Four, low, header, number, word),
        Layout::Node16 => sorted_child_from(Sorted::Sixteen, low, header, number, word),
        Layout::Node48 => indexed_child_from(low, number, word),
        Layout::Node256 => SoughtFrom::Nothing,
    }
}

/// The child of the byte in a node with sorted bytes, by one word of them.
fn sorted_child(sorted: Sorted, byte: u8, header: u64, number: u8, word: u64) -> Sought
    requires { number < 32 }
    ensures tells { SoughtTells (layout_of sorted) byte (IsKeyWord byte header number word) result }
    ensures later { AsksLater number result }
    ensures counted { AsksCounted (layout_of sorted) header result }
{
    match first_key(sorted, byte, header, number, word) {
        KeySearch::At {
            position: index,
            byte: found,
        } => {
            if found == byte {
                Sought::Child(sorted.first_child() + index)
            } else {
                Sought::Nothing
            }
        }
        KeySearch::Later => Sought::Keys(number + 1),
        KeySearch::Nothing => Sought::Nothing,
    }
}

/// The least child from a byte on in a node with sorted bytes, by one word of them.
fn sorted_child_from(sorted: Sorted, low: u8, header: u64, number: u8, word: u64) -> SoughtFrom
    requires { number < 32 }
    ensures tells { SoughtFromTells (layout_of sorted) low (IsKeyWord low header number word) result }
    ensures later { AsksLaterFrom number result }
    ensures counted { AsksCountedFrom (layout_of sorted) header result }
{
    match first_key(sorted, low, header, number, word) {
        KeySearch::At {
            position: index,
            byte: found,
        } => SoughtFrom::Child {
            place: sorted.first_child() + index,
            byte: found,
        },
        KeySearch::Later => SoughtFrom::Keys(number + 1),
        KeySearch::Nothing => SoughtFrom::Nothing,
    }
}

/// The first key byte at a byte or above, among those of one word.
///
/// No more positions are looked at than there are, whatever count was read.
fn first_key(sorted: Sorted, byte: u8, header: u64, number: u8, word: u64) -> KeySearch
    requires { number < 32 }
    ensures tells { KeySearchTells sorted byte number (IsKeyWord byte header number word) result }
    ensures counted { GoesOnCounted header number result }
{
    let count = ((header % 512) as usize).min(sorted.positions());
    let first = 8 * usize::from(number);
    let left = count.saturating_sub(first);
    for at in 0..8 {
        if at >= left {
            return KeySearch::Nothing;
        }
        let found = byte_at(word, at);
        if found >= byte {
            return KeySearch::At {
                position: first + at,
                byte: found,
            };
        }
    }
    if left > 8 {
        KeySearch::Later
    } else {
        KeySearch::Nothing
    }
}

/// The child of the byte in a node with an index, by the word of the byte's entry.
fn indexed_child(byte: u8, word: u64) -> Sought
    ensures tells { SoughtTells layouts.Node48 byte (HasWord byte word) result }
    ensures later { (number : ℕ) → AsksLater number result }
{
    match place_named(byte, word) {
        Some(place) => Sought::Child(place),
        None => Sought::Nothing,
    }
}

/// The least child from a byte on in a node with an index, by one word of it.
fn indexed_child_from(low: u8, number: u8, word: u64) -> SoughtFrom
    requires { number < 32 }
    ensures tells { SoughtFromTells layouts.Node48 low (HasWordFrom low number word) result }
    ensures later { AsksLaterFrom number result }
{
    let first = 8 * usize::from(number);
    for at in first.max(usize::from(low))..first + 8 {
        let byte = at as u8;
        if let Some(place) = place_named(byte, word) {
            return SoughtFrom::Child { place, byte };
        }
    }
    if number < LAST_INDEX_WORD {
        SoughtFrom::Keys(number + 1)
    } else {
        SoughtFrom::Nothing
    }
}

/// The place of a byte's child, by the word of its index entry: none where the entry is 0, or more than there are places.
fn place_named(byte: u8, word: u64) -> Option<usize>
    ensures { PlaceTells byte word result }
{
    let entry = usize::from(byte_at(word, usize::from(byte % 8)));
    if entry == 0 || entry > INDEXED_PLACES {
        return None;
    }
    Some(41 + entry)
}

/// One of the eight bytes of a word, the first of which is the highest.
fn byte_at(word: u64, index: usize) -> u8
    requires { index < 8 }
    ensures { result ≡ byte_of word index }
{
    ((word >> (8 * (7 - index))) % 256) as u8
}
