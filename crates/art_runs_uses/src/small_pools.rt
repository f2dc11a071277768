//! A removal makes do without a smaller node, and an insert that needs a larger one is refused until there is one.
ghost use Rattle.art_runs_uses.specs.Writes.{WritesFirst};

use crate::cells::account_with_rows;
use crate::clients::{Client, check_find, check_put, opened};
use crate::rows::{empties, fills, key_of};
use art_cell::{Cell, Layout, Node, Pool};
use art_change::WriteOutcome;
use art_look::Outcome as Got;
use art_step::Sizes;
use art_world::World;
use std::alloc::Global;
use std::process::Abort;

/// One node of each layout, and one Node4 more, for the root.
const SMALL: Sizes = Sizes {
    leaves: 128,
    n4: 2,
    n16: 1,
    n48: 1,
    n256: 1,
    passes: 2,
};

/// The rows with the numbers from `first` on before `end` stand.
fn check_rows(rt: &impl Abort, client: &mut Client, first: u16, end: u16)
    requires { WritesFirst client.old.world client.old.caller }
    ensures { WritesFirst client.new.world client.new.caller }
{
    for number in first..end {
        let key = key_of(rt, "u16", number);
        let found = Got::Found(u64::from(number));
        check_find(rt, client, &key, found);
    }
}

/// The root is a Node4, of which this is the first child word.
fn check_first_child(rt: &impl Abort, world: &World, child: u64) {
    assert_eq!(rt; world.word(Cell::Anchor, 1), 2);
    assert!(rt; world.sizes().n4 > 0);
    let root = Node {
        layout: Layout::Node4,
        number: 0,
    };
    assert_eq!(rt; world.word(Cell::Node(root), 11), child);
}

/// A node of so many rows, beside one with `beside` rows that has the only smaller node, stays when `left` are left.
fn check_stays(rt: &impl Abort, alloc: Global, many: u16, beside: u16, left: u16, child: u64) {
    let mut client = opened(rt, alloc, &SMALL, 0);
    let end = 256u16.saturating_add(beside);
    fills(rt, &mut client, "u16", 0, many);
    fills(rt, &mut client, "u16", 256, end);
    empties(rt, &mut client, "u16", left, many);
    check_first_child(rt, &client.world, child);
    check_rows(rt, &mut client, 0, left);
    check_rows(rt, &mut client, 256, end);
    let rows = usize::from(left).wrapping_add(usize::from(beside));
    account_with_rows(rt, alloc, &client.world, client.caller.limbo(), rows);
}

#[test]
fn a_node_stays_where_no_smaller_one_is_free(rt: HostRuntime) {
    for (many, beside, left, child) in [(5, 2, 3, 3), (17, 5, 12, 4), (49, 17, 36, 5)] {
        check_stays(&rt, rt.alloc(), many, beside, left, child);
    }
}

/// The first pass is not pinned.
fn check_unpinned(rt: &impl Abort, world: &World) {
    assert!(rt; world.sizes().passes > 0);
    assert_eq!(rt; world.pass_word(0), 0);
}

#[test]
fn a_full_node4_waits_for_the_only_node16(rt: HostRuntime) {
    let mut client = opened(&rt, rt.alloc(), &SMALL, 0);
    fills(&rt, &mut client, "u16", 0, 5);
    fills(&rt, &mut client, "u16", 256, 260);
    let fifth = key_of(&rt, "u16", 260);
    let full = WriteOutcome::Full(Pool::N16);
    check_put(&rt, &mut client, &fifth, 260, full);
    check_unpinned(&rt, &client.world);
    account_with_rows(&rt, rt.alloc(), &client.world, client.caller.limbo(), 9);
    check_find(&rt, &mut client, &fifth, Got::Absent);
    check_rows(&rt, &mut client, 0, 5);
    check_rows(&rt, &mut client, 256, 260);
    empties(&rt, &mut client, "u16", 1, 5);
    fills(&rt, &mut client, "u16", 260, 261);
    check_rows(&rt, &mut client, 0, 1);
    check_rows(&rt, &mut client, 256, 261);
    account_with_rows(&rt, rt.alloc(), &client.world, client.caller.limbo(), 6);
}
