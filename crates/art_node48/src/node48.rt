//! The layout of 48 places behind an index.
ghost use Rattle.std.specs.Prelude.{◌≡◌, ◌<◌, ◌≤◌, ◌%◌};
ghost use Rattle.art_cell.specs.Words.{byte_of, key_byte, indexed_child};
ghost use Rattle.art_cell.specs.Lemmas.Packed.{with_byte};
ghost use Rattle.art_cell.specs.Reads.{word_of, IsBodyOf};
ghost use Rattle.art_node48.specs.Changes.{Wrote, IsFreePlace, child_words, three_words};

use art_cell::{Body, Entries, Entry, Layout, NextProbe, NodeKind, Probe, Reads, Write, Writes};

/// The place of the header.
const HEADER: usize = 1;

/// The header's bit of place 0; each place that is in use has its bit set.
const USED: usize = 16;

/// The place of the first index word, each of which has the entries of eight bytes.
const INDEX: usize = 10;

/// The place of the first child.
const CHILDREN: usize = 42;

/// How many children there are places for.
const PLACES: usize = 48;

/// At most 48 children, each in a place that the index names for its byte.
pub struct Node48;

impl NodeKind for Node48 {
    ghost use Rattle.art_cell.specs.declared.cells.Layout.TheVariants.{Node48};

    ghost layout = { Node48 };

    fn probe(byte: u8, reads: &Reads) -> Probe {
        let byte = usize::from(byte);
        let Some(word) = reads.get(INDEX + byte / 8) else {
            return Probe::Need(INDEX + byte / 8);
        };
        let entry = entry_in(word, byte);
        if entry == 0 || entry > PLACES {
            return Probe::None;
        }
        match reads.get(CHILDREN - 1 + entry) {
            None => Probe::Need(CHILDREN - 1 + entry),
            Some(0) => Probe::None,
            Some(child) => Probe::Child(child),
        }
    }

    fn at_least(byte: u8, reads: &Reads) -> NextProbe {
        for byte in byte..=255 {
            match Self::probe(byte, reads) {
                Probe::Need(place) => return NextProbe::Need(place),
                Probe::Child(child) => return NextProbe::Entry(Entry { byte, child }),
                Probe::None => {}
            }
        }
        NextProbe::None
    }

    fn add(body: &mut Body, byte: u8, child: u64) -> bool {
        let Some(place) = free_place(body.words[HEADER]) else {
            return false;
        };
        let header = body.words[HEADER] + (1 << (USED + place)) + 1;
        write(body, header, byte, place + 1, place, child);
        true
    }

    fn set(body: &mut Body, byte: u8, child: u64) {
        let entry = entry_of(body, byte);
        write(body, body.words[HEADER], byte, entry, entry - 1, child);
    }

    fn take(body: &mut Body, byte: u8) {
        let place = entry_of(body, byte) - 1;
        let header = body.words[HEADER] - (1 << (USED + place)) - 1;
        write(body, header, byte, 0, place, 0);
    }

    fn list(body: &Body) -> Entries {
        let mut entries = Entries::new();
        for byte in 0..=255 {
            if let Some(child) = child_in(body, byte) {
                entries.push(Entry { byte, child });
            }
        }
        entries
    }

    fn nth(body: &Body, _index: usize, from: usize) -> Entry {
        for at in from..256 {
            let byte = at as u8;
            if let Some(child) = child_in(body, byte) {
                return Entry { byte, child };
            }
        }
        unreachable!()
    }

    fn plan_add(body: &Body, byte: u8, child: u64, writes: &mut Writes) -> bool {
        let Some(place) = free_place(body.words[HEADER]) else {
            return false;
        };
        let header = body.words[HEADER] + (1 << (USED + place)) + 1;
        plan_three(body, header, byte, place + 1, place, child, writes);
        true
    }

    fn plan_set(body: &Body, byte: u8, child: u64, writes: &mut Writes) {
        let place = entry_of(body, byte) - 1;
        plan_child(
            writes,
            body.words[CHILDREN + place],
            CHILDREN + place,
            child,
        );
    }

    fn plan_drop(body: &Body, byte: u8, writes: &mut Writes) {
        let place = entry_of(body, byte) - 1;
        let header = body.words[HEADER] - (1 << (USED + place)) - 1;
        plan_three(body, header, byte, 0, place, 0, writes);
    }
}

/// The words that a child which comes or goes changes: the header, the index word of the byte, and the child of its place.
fn plan_three(
    body: &Body,
    header: u64,
    byte: u8,
    entry: usize,
    place: usize,
    child: u64,
    writes: &mut Writes,
)
    requires entry { entry ≤ 48 }
    requires place { place < 48 }
    ensures { writes.new.items ≡ three_words (word_of body.now) header byte entry place child }
{
    let index = usize::from(byte);
    let at = INDEX + index / 8;
    writes.clear();
    writes.push(Write {
        place: HEADER,
        value: header,
    });
    writes.push(Write {
        place: at,
        value: with_entry(body.words[at], index, entry as u8),
    });
    writes.push(Write {
        place: CHILDREN + place,
        value: child,
    });
}

/// The word at the place that another child changes, where it is another word.
fn plan_child(writes: &mut Writes, had: u64, place: usize, child: u64)
    ensures { writes.new.items ≡ child_words had place child }
{
    writes.clear();
    if had != child {
        writes.push(Write {
            place,
            value: child,
        });
    }
}

/// The index entry of a byte, in the word of its eight bytes: 0, or a place and 1.
fn entry_in(word: u64, byte: usize) -> usize
    ensures { result ≡ byte_of word (byte % 8) }
{
    usize::from(word.to_be_bytes()[byte % 8])
}

/// The index entry of a byte in a body.
fn entry_of(body: &Body, byte: u8) -> usize
    ensures { result ≡ key_byte (word_of body.now) byte }
{
    let byte = usize::from(byte);
    entry_in(body.words[INDEX + byte / 8], byte)
}

/// The word of eight index entries with that of a byte replaced.
fn with_entry(word: u64, byte: usize, entry: u8) -> u64
    ensures { result ≡ with_byte word (byte % 8) entry }
{
    let mut entries = word.to_be_bytes();
    entries[byte % 8] = entry;
    u64::from_be_bytes(entries)
}

/// Writes the header, the index entry of a byte and the child of a place.
fn write(body: &mut Body, header: u64, byte: u8, entry: usize, place: usize, child: u64)
    requires entry { entry ≤ 48 }
    requires place { place < 48 }
    ensures layout { body.new.layout ≡ body.old.layout }
    ensures wrote { Wrote (word_of body.old) (word_of body.new) header byte entry place child }
{
    let byte = usize::from(byte);
    let index = INDEX + byte / 8;
    body.words[index] = with_entry(body.words[index], byte, entry as u8);
    body.words[CHILDREN + place] = child;
    body.words[HEADER] = header;
}

/// The lowest place that is not in use.
fn free_place(header: u64) -> Option<usize>
    ensures { IsFreePlace header result }
{
    let place = (header >> USED).trailing_ones() as usize;
    if place < PLACES { Some(place) } else { None }
}

/// The child of a byte.
fn child_in(body: &Body, byte: u8) -> Option<u64>
    requires { IsBodyOf Layout.Node48 body.now }
    ensures { result ≡ indexed_child (word_of body.now) byte }
{
    let entry = entry_of(body, byte);
    if entry == 0 {
        return None;
    }
    let child = body.words[CHILDREN - 1 + entry];
    if child == 0 { None } else { Some(child) }
}
