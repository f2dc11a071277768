//! Nodes whatever their layout: those that grow and shrink, and the same changes in each layout.
ghost use Rattle.std.specs.Prelude.{◌≡◌};
ghost use Rattle.art_cell.specs.declared.cells.Layout.TheVariants as layouts;
ghost use Rattle.art_cell.specs.Reads.{IsBodyOf};

use crate::kinds::{all_read, bare, change, check_words, give, remove};
use art_cell::{Body, Entry, Layout, NextProbe, NodeKind, Probe};
use art_node::{at_least, grow, list, probe, read_header, shrink};
use art_node4::Node4;
use art_node16::Node16;
use art_node48::Node48;
use art_node256::Node256;
use std::process::Abort;
use std::test::*;

/// A node of no prefix with these bytes, and 8 times the byte and 1 for each child.
pub(crate) fn with_bytes<K: NodeKind>(rt: &impl Abort, layout: Layout, bytes: &[u8]) -> Body
    requires { layout ≡ K.layout }
    ensures { IsBodyOf K.layout result }
{
    let mut body = bare::<K>(layout);
    for byte in bytes {
        assert!(rt; give::<K>(rt, &mut body, *byte, 8 * u64::from(*byte) + 1));
    }
    body
}

/// A node of the bytes 0 to 15, which has grown, with the byte 16 then.
fn grown(rt: &impl Abort) -> Body
    ensures { IsBodyOf layouts.Node48 result }
{
    let body = with_bytes::<Node16>(
        rt,
        Layout::Node16,
        &[0, 1, 2, 3, 4, 5, 6, 7, 8, 9, 10, 11, 12, 13, 14, 15],
    );
    let mut grown = bare::<Node48>(Layout::Node48);
    grow(&body, &mut grown);
    assert!(rt; list(&grown).as_slice() == list(&body).as_slice());
    assert!(rt; give::<Node48>(rt, &mut grown, 16, 129));
    grown
}

#[test]
fn a_grown_node_takes_a_freed_place_again(rt: HostRuntime) {
    let mut body = grown(&rt);
    assert!(rt; [body.words[1], body.words[12], body.words[58]] == [8_589_869_073, 17 << 56, 129]);
    remove::<Node48>(&rt, &mut body, 3);
    assert!(rt; [body.words[1], body.words[45]] == [8_589_344_784, 0]);
    assert!(rt; give::<Node48>(&rt, &mut body, 255, 33));
    assert!(rt; [body.words[1], body.words[41], body.words[45]] == [8_589_869_073, 4, 33]);
}

#[test]
fn a_node_that_shrank_has_the_same_children(rt: HostRuntime) {
    let body = with_bytes::<Node16>(&rt, Layout::Node16, &[9, 1, 5]);
    assert!(rt; read_header(body.words[1]).count <= 4);
    let mut small = bare::<Node4>(Layout::Node4);
    shrink(&body, &mut small);
    check_words(&rt, &small.words, 0, &[0, 3, 0]);
    check_words(
        &rt,
        &small.words,
        10,
        &[0x0105_0900_0000_0000, 9, 41, 73, 0],
    );
    assert!(rt; list(&small).as_slice() == list(&body).as_slice());
}

/// The children after the same adds, changes and removals in a layout.
fn changed<K: NodeKind>(rt: &impl Abort, layout: Layout) -> Body
    requires { layout ≡ K.layout }
    ensures { IsBodyOf K.layout result }
{
    let mut body = with_bytes::<K>(rt, layout, &[7, 3, 200, 0]);
    change::<K>(rt, &mut body, 3, 17);
    remove::<K>(rt, &mut body, 7);
    assert!(rt; give::<K>(rt, &mut body, 255, 33));
    change::<K>(rt, &mut body, 0, 41);
    remove::<K>(rt, &mut body, 200);
    body
}

/// After them the node has three children, whatever its layout.
fn check_changed<K: NodeKind>(rt: &impl Abort, layout: Layout)
    requires { layout ≡ K.layout }
{
    let body = changed::<K>(rt, layout);
    let least = Entry { byte: 0, child: 41 };
    let next = Entry { byte: 3, child: 17 };
    let last = Entry {
        byte: 255,
        child: 33,
    };
    assert!(rt; list(&body).as_slice() == [least, next, last].as_slice());
    let reads = all_read(&body);
    assert_eq!(rt; probe(layout, 3, &reads), Probe::Child(17));
    assert_eq!(rt; probe(layout, 7, &reads), Probe::None);
    assert_eq!(rt; at_least(layout, 4, &reads), NextProbe::Entry(last));
}

#[test]
fn the_same_changes_in_every_layout_give_the_same_children(rt: HostRuntime) {
    check_changed::<Node4>(&rt, Layout::Node4);
    check_changed::<Node16>(&rt, Layout::Node16);
    check_changed::<Node48>(&rt, Layout::Node48);
    check_changed::<Node256>(&rt, Layout::Node256);
}
