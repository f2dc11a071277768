//! A node with a place for each byte.
ghost use Rattle.std.specs.Prelude.{◌≡◌, ◌+◌};
ghost use Rattle.art_node256.specs.Changes.{both_words, child_words};

use art_cell::{Body, Entries, Entry, NextProbe, NodeKind, Probe, Reads, Write, Writes};

/// The place of the header, whose low bits count the children.
const HEADER: usize = 1;

/// The place of the child word of byte 0.
const FIRST_CHILD: usize = 10;

/// The place of the child word of the byte.
fn place_of(byte: u8) -> usize
    ensures { result ≡ 10 + byte }
{
    FIRST_CHILD + usize::from(byte)
}

/// The layout with an array of 256 child words, which a byte indexes directly (ICDE 2013).
pub struct Node256;

impl NodeKind for Node256 {
    ghost use Rattle.art_cell.specs.declared.cells.Layout.TheVariants as layouts;

    ghost layout = { layouts.Node256 };

    fn probe(byte: u8, reads: &Reads) -> Probe {
        let place = place_of(byte);
        match reads.get(place) {
            None => Probe::Need(place),
            Some(0) => Probe::None,
            Some(child) => Probe::Child(child),
        }
    }

    fn at_least(byte: u8, reads: &Reads) -> NextProbe {
        for at in byte..=u8::MAX {
            match Self::probe(at, reads) {
                Probe::Need(place) => return NextProbe::Need(place),
                Probe::Child(child) => return NextProbe::Entry(Entry { byte: at, child }),
                Probe::None => {}
            }
        }
        NextProbe::None
    }

    fn add(body: &mut Body, byte: u8, child: u64) -> bool {
        body.words[HEADER] += 1;
        body.words[place_of(byte)] = child;
        // a byte with no child is a place that is free
        true
    }

    fn set(body: &mut Body, byte: u8, child: u64) {
        body.words[place_of(byte)] = child;
    }

    fn take(body: &mut Body, byte: u8) {
        body.words[HEADER] -= 1;
        body.words[place_of(byte)] = 0;
    }

    fn list(body: &Body) -> Entries {
        let mut entries = Entries::new();
        for index in 0..256usize {
            let byte = index as u8;
            let child = body.words[place_of(byte)];
            if child != 0 {
                entries.push(Entry { byte, child });
            }
        }
        entries
    }

    fn nth(body: &Body, _index: usize, from: usize) -> Entry {
        for at in from..256 {
            let byte = at as u8;
            let child = body.words[place_of(byte)];
            if child != 0 {
                return Entry { byte, child };
            }
        }
        unreachable!()
    }

    fn plan_add(body: &Body, byte: u8, child: u64, writes: &mut Writes) -> bool {
        plan_both(writes, body.words[HEADER] + 1, byte, child);
        // a byte with no child is a place that is free
        true
    }

    fn plan_set(body: &Body, byte: u8, child: u64, writes: &mut Writes) {
        plan_child(writes, body.words[place_of(byte)], byte, child);
    }

    fn plan_drop(body: &Body, byte: u8, writes: &mut Writes) {
        plan_both(writes, body.words[HEADER] - 1, byte, 0);
    }
}

/// The words that a child which comes or goes changes: the header and the byte's own.
fn plan_both(writes: &mut Writes, header: u64, byte: u8, child: u64)
    ensures { writes.new.items ≡ both_words header byte child }
{
    writes.clear();
    writes.push(Write {
        place: HEADER,
        value: header,
    });
    writes.push(Write {
        place: place_of(byte),
        value: child,
    });
}

/// The word that another child changes: the byte's own, where it is another word.
fn plan_child(writes: &mut Writes, had: u64, byte: u8, child: u64)
    ensures { writes.new.items ≡ child_words had byte child }
{
    writes.clear();
    if had != child {
        writes.push(Write {
            place: place_of(byte),
            value: child,
        });
    }
}
