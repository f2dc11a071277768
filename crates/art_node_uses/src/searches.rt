//! The children of a node by one word after another.
ghost use Rattle.std.specs.Prelude.{◌≡◌, ◌≤◌};
ghost use Rattle.art_cell.specs.Reads.{IsBodyOf};

use crate::fills::bytes_apart;
use crate::nodes::with_bytes;
use art_cell::{Body, Entry, Layout, NodeKind};
use art_node::{Sought, SoughtFrom, first_word, first_word_from, next_word, next_word_from};
use art_node4::Node4;
use art_node16::Node16;
use art_node48::Node48;
use art_node256::Node256;
use std::process::Abort;
use std::test::*;

/// The word that is asked for next.
fn next_in(rt: &impl Abort, layout: Layout, byte: u8, words: &[u64; 266], number: u8) -> Sought {
    assert!(rt; number < 32);
    next_word(
        layout,
        byte,
        words[1],
        number,
        words[10 + usize::from(number)],
    )
}

/// The word that is asked for next, of the least child from a byte on.
fn next_from(
    rt: &impl Abort,
    layout: Layout,
    low: u8,
    words: &[u64; 266],
    number: u8,
) -> SoughtFrom {
    assert!(rt; number < 32);
    next_word_from(
        layout,
        low,
        words[1],
        number,
        words[10 + usize::from(number)],
    )
}

/// The child of the byte by one word after another, where 0 is none.
fn child_by_words(rt: &impl Abort, layout: Layout, words: &[u64; 266], byte: u8) -> u64 {
    let mut sought = first_word(layout, byte, words[1]);
    for _ in 0..3 {
        match sought {
            Sought::Keys(number) => sought = next_in(rt, layout, byte, words, number),
            Sought::Child(place) => {
                assert!(rt; place < 266);
                return words[place];
            }
            Sought::Nothing => return 0,
        }
    }
    panic!(rt; "more than two words of keys are asked for");
}

/// What one search by words tells of the least child from a byte on.
fn told_by_words(rt: &impl Abort, layout: Layout, words: &[u64; 266], low: u8) -> SoughtFrom {
    let mut sought = first_word_from(layout, low, words[1]);
    for _ in 0..32 {
        let SoughtFrom::Keys(number) = sought else {
            return sought;
        };
        sought = next_from(rt, layout, low, words, number);
    }
    sought
}

/// The least entry at the byte or above by one word after another. Where a child word is 0, it begins anew after it.
fn least_by_words(rt: &impl Abort, layout: Layout, words: &[u64; 266], low: u8) -> Option<Entry> {
    let mut low = low;
    for _ in 0..256 {
        let SoughtFrom::Child { place, byte } = told_by_words(rt, layout, words, low) else {
            return None;
        };
        assert!(rt; place < 266);
        if words[place] != 0 {
            return Some(Entry {
                byte,
                child: words[place],
            });
        }
        low = byte.checked_add(1)?;
    }
    panic!(rt; "no more than 256 bytes have child words");
}

/// Word after word tells of each byte what the list of the node's children says.
fn check_each_byte<K: NodeKind>(rt: &impl Abort, layout: Layout, body: &Body)
    requires { IsBodyOf K.layout body.now }
{
    let mut children = [0; 256];
    for entry in K::list(body).as_slice() {
        children[usize::from(entry.byte)] = entry.child;
    }
    let mut least = None;
    for index in (0..256usize).rev() {
        let byte = index as u8;
        let child = children[index];
        if child != 0 {
            least = Some(Entry { byte, child });
        }
        assert_eq!(rt; child_by_words(rt, layout, &body.words, byte), child);
        assert_eq!(rt; least_by_words(rt, layout, &body.words, byte), least);
    }
}

/// The same of a node with these bytes.
fn check_bytes<K: NodeKind>(rt: &impl Abort, layout: Layout, bytes: &[u8])
    requires { layout ≡ K.layout }
{
    check_each_byte::<K>(rt, layout, &with_bytes::<K>(rt, layout, bytes));
}

/// The same of a node with so many bytes, so far apart from one on.
fn check_apart<K: NodeKind>(rt: &impl Abort, layout: Layout, first: u8, apart: u8, count: usize)
    requires layout { layout ≡ K.layout }
    requires few { count ≤ 256 }
{
    check_bytes::<K>(rt, layout, &bytes_apart(first, apart)[..count]);
}

#[test]
fn each_byte_has_its_child_and_the_least_one(rt: HostRuntime) {
    check_bytes::<Node4>(&rt, Layout::Node4, &[]);
    check_bytes::<Node4>(&rt, Layout::Node4, &[7, 3, 200, 0]);
    check_bytes::<Node16>(&rt, Layout::Node16, &[255, 1]);
    check_bytes::<Node48>(&rt, Layout::Node48, &[20, 90]);
    check_bytes::<Node256>(&rt, Layout::Node256, &[0, 100, 255]);
}

#[test]
fn each_byte_of_a_node_of_many_children_has_its_child_and_the_least_one(rt: HostRuntime) {
    check_apart::<Node16>(&rt, Layout::Node16, 254, 91, 16);
    check_apart::<Node48>(&rt, Layout::Node48, 3, 5, 48);
    check_apart::<Node256>(&rt, Layout::Node256, 0, 37, 100);
}

/// After the header these words of keys are asked for, one after another, and then this is told.
fn check_order(
    rt: &impl Abort,
    layout: Layout,
    words: &[u64; 266],
    byte: u8,
    keys: &[u8],
    told: Sought,
) {
    let mut sought = first_word(layout, byte, words[1]);
    for number in keys {
        assert_eq!(rt; sought, Sought::Keys(*number));
        sought = next_in(rt, layout, byte, words, *number);
    }
    assert_eq!(rt; sought, told);
}

/// The same of the least child from a byte on.
fn check_order_from(
    rt: &impl Abort,
    layout: Layout,
    words: &[u64; 266],
    low: u8,
    keys: &[u8],
    told: SoughtFrom,
) {
    let mut sought = first_word_from(layout, low, words[1]);
    for number in keys {
        assert_eq!(rt; sought, SoughtFrom::Keys(*number));
        sought = next_from(rt, layout, low, words, *number);
    }
    assert_eq!(rt; sought, told);
}

#[test]
fn a_node4_asks_for_its_word_of_keys(rt: HostRuntime) {
    let words = with_bytes::<Node4>(&rt, Layout::Node4, &[2, 1]).words;
    check_order(&rt, Layout::Node4, &words, 1, &[0], Sought::Child(11));
    check_order(&rt, Layout::Node4, &words, 2, &[0], Sought::Child(12));
    check_order(&rt, Layout::Node4, &words, 0, &[0], Sought::Nothing);
    check_order_from(
        &rt,
        Layout::Node4,
        &words,
        0,
        &[0],
        SoughtFrom::Child { place: 11, byte: 1 },
    );
    check_order_from(
        &rt,
        Layout::Node4,
        &words,
        2,
        &[0],
        SoughtFrom::Child { place: 12, byte: 2 },
    );
    check_order_from(&rt, Layout::Node4, &words, 3, &[0], SoughtFrom::Nothing);
    check_order(&rt, Layout::Node4, &[0; 266], 0, &[0], Sought::Nothing);
}

#[test]
fn a_node16_asks_for_its_second_word_only_where_it_must(rt: HostRuntime) {
    let bytes = [90, 10, 20, 80, 70, 30, 40, 60, 50];
    let words = with_bytes::<Node16>(&rt, Layout::Node16, &bytes).words;
    check_order(&rt, Layout::Node16, &words, 80, &[0], Sought::Child(19));
    check_order(&rt, Layout::Node16, &words, 75, &[0], Sought::Nothing);
    check_order(&rt, Layout::Node16, &words, 90, &[0, 1], Sought::Child(20));
    check_order(&rt, Layout::Node16, &words, 91, &[0, 1], Sought::Nothing);
    check_order_from(
        &rt,
        Layout::Node16,
        &words,
        71,
        &[0],
        SoughtFrom::Child {
            place: 19,
            byte: 80,
        },
    );
    check_order_from(
        &rt,
        Layout::Node16,
        &words,
        81,
        &[0, 1],
        SoughtFrom::Child {
            place: 20,
            byte: 90,
        },
    );
    check_order_from(
        &rt,
        Layout::Node16,
        &words,
        91,
        &[0, 1],
        SoughtFrom::Nothing,
    );
}

/// Eight children fill the first word of keys: no other is asked for, whatever the byte is.
#[test]
fn a_node16_of_eight_children_asks_for_one_word_of_keys(rt: HostRuntime) {
    let bytes = [80, 10, 20, 70, 30, 40, 60, 50];
    let words = with_bytes::<Node16>(&rt, Layout::Node16, &bytes).words;
    check_order(&rt, Layout::Node16, &words, 81, &[0], Sought::Nothing);
    check_order_from(&rt, Layout::Node16, &words, 81, &[0], SoughtFrom::Nothing);
}

#[test]
fn a_node48_asks_for_the_bytes_index_word_and_those_after_it(rt: HostRuntime) {
    let words = with_bytes::<Node48>(&rt, Layout::Node48, &[20, 90, 240]).words;
    check_order(&rt, Layout::Node48, &words, 90, &[11], Sought::Child(43));
    check_order(&rt, Layout::Node48, &words, 91, &[11], Sought::Nothing);
    check_order_from(
        &rt,
        Layout::Node48,
        &words,
        0,
        &[0, 1, 2],
        SoughtFrom::Child {
            place: 42,
            byte: 20,
        },
    );
    check_order_from(
        &rt,
        Layout::Node48,
        &words,
        90,
        &[11],
        SoughtFrom::Child {
            place: 43,
            byte: 90,
        },
    );
    check_order_from(
        &rt,
        Layout::Node48,
        &words,
        225,
        &[28, 29, 30],
        SoughtFrom::Child {
            place: 44,
            byte: 240,
        },
    );
    check_order_from(
        &rt,
        Layout::Node48,
        &words,
        241,
        &[30, 31],
        SoughtFrom::Nothing,
    );
}

#[test]
fn a_node256_asks_for_the_child_at_once(rt: HostRuntime) {
    let words = with_bytes::<Node256>(&rt, Layout::Node256, &[0, 100]).words;
    check_order(&rt, Layout::Node256, &words, 100, &[], Sought::Child(110));
    check_order(&rt, Layout::Node256, &words, 99, &[], Sought::Child(109));
    check_order_from(
        &rt,
        Layout::Node256,
        &words,
        99,
        &[],
        SoughtFrom::Child {
            place: 109,
            byte: 99,
        },
    );
}

/// The searches end, whatever the words are.
fn check_ends(rt: &impl Abort, layout: Layout, words: &[u64; 266]) {
    for byte in 0..=255 {
        let _ = child_by_words(rt, layout, words, byte);
        let _ = least_by_words(rt, layout, words, byte);
    }
}

#[test]
fn searches_of_words_of_no_node_end(rt: HostRuntime) {
    let mut counted = [0; 266];
    counted[1] = 511;
    let named = [0xc8c8_c8c8_c8c8_c8c8; 266];
    for layout in [
        Layout::Node4,
        Layout::Node16,
        Layout::Node48,
        Layout::Node256,
    ] {
        check_ends(&rt, layout, &counted);
        check_ends(&rt, layout, &named);
    }
    check_order(&rt, Layout::Node16, &counted, 0, &[0], Sought::Child(12));
    check_order(&rt, Layout::Node16, &counted, 5, &[0, 1], Sought::Nothing);
    check_order(&rt, Layout::Node48, &named, 9, &[1], Sought::Nothing);
    check_order_from(
        &rt,
        Layout::Node48,
        &named,
        240,
        &[30, 31],
        SoughtFrom::Nothing,
    );
}
