//! Nodes of each layout, filled and emptied in two orders.
ghost use Rattle.std.specs.Prelude.{◌≡◌, ◌≤◌, length};
ghost use Rattle.art_cell.specs.Reads.{IsBodyOf};

use crate::kinds::{check_children, empty, give, remove};
use art_cell::{Body, Layout, NodeKind};
use art_node4::Node4;
use art_node16::Node16;
use art_node48::Node48;
use art_node256::Node256;
use std::process::Abort;
use std::test::*;

/// Gives each byte a child, in this order.
fn fill<K: NodeKind>(rt: &impl Abort, body: &mut Body, children: &mut [u64; 256], bytes: &[u8])
    requires { IsBodyOf K.layout body.old }
    ensures { IsBodyOf K.layout body.new }
{
    for byte in bytes {
        let word = 1000 + u64::from(*byte);
        assert!(rt; give::<K>(rt, body, *byte, word));
        children[usize::from(*byte)] = word;
        check_children::<K>(rt, body, children);
    }
}

/// Takes away the child of each byte, of every seventh first.
fn take_all<K: NodeKind>(rt: &impl Abort, body: &mut Body, children: &mut [u64; 256], bytes: &[u8])
    requires body { IsBodyOf K.layout body.old }
    requires few { length bytes.now ≤ 256 }
    ensures { IsBodyOf K.layout body.new }
{
    for index in 0..bytes.len() {
        let byte = bytes[index * 7 % bytes.len()];
        remove::<K>(rt, body, byte);
        children[usize::from(byte)] = 0;
        check_children::<K>(rt, body, children);
    }
}

/// A full node takes no child, and stays as it was.
fn check_full<K: NodeKind>(rt: &impl Abort, body: &Body, byte: u8)
    requires { IsBodyOf K.layout body.now }
{
    let mut after = *body;
    assert!(rt; !give::<K>(rt, &mut after, byte, 1));
    assert!(rt; after == *body);
}

/// A node takes all these bytes, and not one more; without them it is as it was.
fn fill_and_empty<K: NodeKind>(rt: &impl Abort, layout: Layout, bytes: &[u8], more: Option<u8>)
    requires layout { layout ≡ K.layout }
    requires few { length bytes.now ≤ 256 }
{
    let mut body = empty::<K>(layout);
    let mut children = [0; 256];
    fill::<K>(rt, &mut body, &mut children, bytes);
    if let Some(byte) = more {
        check_full::<K>(rt, &body, byte);
    }
    take_all::<K>(rt, &mut body, &mut children, bytes);
    assert!(rt; body == empty::<K>(layout));
}

/// All bytes, so far apart from one on, and after 255 again from 0 on.
pub(crate) fn bytes_apart(first: u8, apart: u8) -> [u8; 256] {
    let mut bytes = [first; 256];
    let mut byte = first;
    for place in 0..256 {
        bytes[place] = byte;
        byte = byte.wrapping_add(apart);
    }
    bytes
}

/// The same of so many bytes, so far apart from one on.
fn fill_apart<K: NodeKind>(
    rt: &impl Abort,
    layout: Layout,
    first: u8,
    apart: u8,
    count: usize,
    more: Option<u8>,
)
    requires layout { layout ≡ K.layout }
    requires few { count ≤ 256 }
{
    let bytes = bytes_apart(first, apart);
    fill_and_empty::<K>(rt, layout, &bytes[..count], more);
}

#[test]
fn a_node4_is_filled_and_emptied(rt: HostRuntime) {
    fill_and_empty::<Node4>(&rt, Layout::Node4, &[1, 2, 3, 4], Some(255));
    fill_and_empty::<Node4>(&rt, Layout::Node4, &[250, 7, 0, 128], Some(255));
}

#[test]
fn a_node16_is_filled_and_emptied(rt: HostRuntime) {
    fill_apart::<Node16>(&rt, Layout::Node16, 0, 1, 16, Some(255));
    fill_apart::<Node16>(&rt, Layout::Node16, 254, 91, 16, Some(255));
}

#[test]
fn a_node48_is_filled_and_emptied(rt: HostRuntime) {
    fill_apart::<Node48>(&rt, Layout::Node48, 3, 5, 48, Some(243));
    fill_apart::<Node48>(&rt, Layout::Node48, 3, 251, 48, Some(19));
}

#[test]
fn a_node256_is_filled_and_emptied(rt: HostRuntime) {
    fill_apart::<Node256>(&rt, Layout::Node256, 0, 1, 256, None);
    fill_apart::<Node256>(&rt, Layout::Node256, 0, 37, 256, None);
}
