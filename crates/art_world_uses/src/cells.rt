//! Words that were read, and words that differ.
use art_cell::{Body, Layout, Reads, Write, Writes, changes};
use std::test::*;

#[test]
fn sizes_and_places_of_the_layouts(rt: HostRuntime) {
    let layouts = [
        (Layout::Node4, 15, 4),
        (Layout::Node16, 28, 16),
        (Layout::Node48, 90, 48),
        (Layout::Node256, 266, 256),
    ];
    for (layout, size, places) in layouts {
        assert_eq!(rt; (layout.size(), layout.places()), (size, places));
    }
}

#[test]
fn a_word_is_read_once_it_is_noted(rt: HostRuntime) {
    let mut reads = Reads::new();
    assert_eq!(rt; reads.get(1), None);
    reads.note(1, 514);
    for (place, word) in [(1, Some(514)), (2, None), (266, None)] {
        assert_eq!(rt; reads.get(place), word);
    }
}

#[test]
fn words_that_differ_are_written_in_ascending_place(rt: HostRuntime) {
    let before = Body {
        layout: Layout::Node4,
        words: [0; 266],
    };
    let mut after = before;
    after.words[11] = 9;
    after.words[1] = 1;
    let mut writes = Writes::new();
    changes(&before, &after, &mut writes);
    let expected = [
        Write { place: 1, value: 1 },
        Write {
            place: 11,
            value: 9,
        },
    ];
    assert_eq!(rt; writes.as_slice(), expected.as_slice());
    changes(&before, &before, &mut writes);
    assert!(rt; writes.is_empty());
}
