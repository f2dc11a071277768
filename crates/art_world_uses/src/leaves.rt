//! Leaves, child words and headers, by worked words.
use crate::keys::key_of;
use art_cell::{Layout, Link, Node, Reads, Write};
use art_key::Key;
use art_node::{Header, child_word, link_in, pack, prefix, read_header, unpack};
use std::process::Abort;
use std::test::*;

/// What was read of a leaf tells this key and value, or none.
fn check_leaf(rt: &impl Abort, reads: &Reads, leaf: Option<(Key, u64)>) {
    assert!(rt; unpack(reads) == leaf);
}

#[test]
fn a_leaf_is_its_key_and_its_value(rt: HostRuntime) {
    let key = key_of([1, 1]);
    let writes = pack(&key, 1);
    let mut reads = Reads::new();
    let words = [1, 2, 0x0101_0000_0000_0000, 0, 0, 0, 0, 0, 0, 0];
    assert_eq!(rt; writes.len(), 10);
    for place in 0..10 {
        let value = words[place];
        assert_eq!(rt; writes[place], Write { place, value });
        if place <= 2 {
            check_leaf(&rt, &reads, None);
        }
        reads.note(place, value);
    }
    check_leaf(&rt, &reads, Some((key, 1)));
    reads.note(1, 65);
    check_leaf(&rt, &reads, None);
}

/// The node with this layout and number.
fn node(layout: Layout, number: u32) -> Link {
    Link::Node(Node { layout, number })
}

#[test]
fn child_words_name_leaves_and_nodes(rt: HostRuntime) {
    let named = [
        (Link::Leaf(0), 1),
        (Link::Leaf(1), 9),
        (node(Layout::Node4, 0), 2),
        (node(Layout::Node16, 2), 19),
        (node(Layout::Node48, 3), 28),
        (node(Layout::Node256, 7), 61),
        (Link::Leaf(u32::MAX), 34_359_738_361),
    ];
    for (link, word) in named {
        assert_eq!(rt; (child_word(link), link_in(word)), (word, Some(link)));
    }
    for word in [0, 6, 7, 8, 15, 1 << 40, (1 << 35) + 1] {
        assert_eq!(rt; link_in(word), None);
    }
}

/// What was read of a node tells this prefix, or none.
fn check_prefix(rt: &impl Abort, reads: &Reads, bytes: Option<Key>) {
    assert_eq!(rt; prefix(reads), bytes);
}

#[test]
fn a_header_and_a_prefix_are_read(rt: HostRuntime) {
    let mut reads = Reads::new();
    check_prefix(&rt, &reads, None);
    reads.note(1, 514);
    let header = Header {
        count: 2,
        prefix_length: 1,
    };
    assert_eq!(rt; read_header(514), header);
    check_prefix(&rt, &reads, None);
    reads.note(2, 0x0100_0000_0000_0000);
    check_prefix(&rt, &reads, Some(key_of([1])));
    reads.note(1, 65 * 512);
    check_prefix(&rt, &reads, None);
}
