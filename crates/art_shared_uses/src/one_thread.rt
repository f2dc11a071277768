//! One thread opens a table, and calls it: the worked rows of gets and changes.
ghost use Rattle.std.specs.Prelude.{◌≤◌};
ghost use Rattle.art_shared_uses.specs.Clients.{IsNew, Writes};
ghost use Rattle.art_step.specs.Views.{last_counter};

use crate::clients::{caller_of, check_find, check_put, check_take, last_of, opened};
use crate::closing::ended;
use art_cell::{Cell, Pool};
use art_change::{Caller, WriteOutcome};
use art_look::Outcome as Got;
use art_shared::{Pass, Shared};
use art_step::Sizes;
use std::alloc::Global;
use std::process::Abort;

const ONE_PASS: Sizes = Sizes {
    leaves: 256,
    n4: 4,
    n16: 4,
    n48: 4,
    n256: 4,
    passes: 1,
};

/// Turns enough for a get that nobody disturbs.
const TURNS: u32 = 1_000;

/// A table of one pass, and the pass.
fn alone(rt: &impl Abort, alloc: Global, sizes: &Sizes, counter_start: u64) -> (Shared, Pass)
    requires { counter_start ≤ last_counter }
    ensures { IsNew result.0 result.1 }
{
    let (shared, mut passes) = opened(rt, alloc, "u16", sizes, counter_start);
    let pass = last_of(rt, &shared, &mut passes);
    (shared, pass)
}

#[test]
fn a_get_on_an_empty_table_takes_three_steps(rt: HostRuntime) {
    let (shared, mut pass) = alone(&rt, rt.alloc(), &ONE_PASS, 0);
    let mut caller = caller_of(&rt, &shared, &pass);
    check_find(&rt, &shared, &mut pass, &mut caller, 7, 0, Got::Busy);
    check_find(&rt, &shared, &mut pass, &mut caller, 7, 2, Got::Busy);
    check_find(&rt, &shared, &mut pass, &mut caller, 7, 3, Got::Absent);
    check_find(&rt, &shared, &mut pass, &mut caller, 7, 1_000, Got::Absent);
}

/// Rows with the numbers from `first` on before `end` are inserted: each is new, found, and keeps its value.
fn fills(
    rt: &impl Abort,
    shared: &Shared,
    pass: &mut Pass,
    caller: &mut Caller,
    first: u16,
    end: u16,
)
    requires { Writes shared.now pass.old caller.old }
    ensures { Writes shared.now pass.new caller.new }
{
    for number in first..end {
        let value = u64::from(number);
        check_put(rt, shared, pass, caller, number, value, WriteOutcome::New);
        check_find(rt, shared, pass, caller, number, TURNS, Got::Found(value));
        check_put(
            rt,
            shared,
            pass,
            caller,
            number,
            1_000,
            WriteOutcome::Present(value),
        );
    }
}

/// Rows with the numbers from `first` on before `end` are removed: each had its value, and is absent then.
fn empties(
    rt: &impl Abort,
    shared: &Shared,
    pass: &mut Pass,
    caller: &mut Caller,
    first: u16,
    end: u16,
)
    requires { Writes shared.now pass.old caller.old }
    ensures { Writes shared.now pass.new caller.new }
{
    for number in first..end {
        let value = u64::from(number);
        check_take(rt, shared, pass, caller, number, WriteOutcome::Gone(value));
        check_find(rt, shared, pass, caller, number, TURNS, Got::Absent);
        check_take(rt, shared, pass, caller, number, WriteOutcome::Absent);
    }
}

/// What the anchor names when the first `gone` of so many rows are removed again: 0 is nothing, 1 a leaf, 2 a Node4, 3 a Node16, 4 a
/// Node48, 5 a Node256.
fn check_root(rt: &impl Abort, alloc: Global, rows: u16, gone: u16, kind: u64) {
    let (shared, mut pass) = alone(rt, alloc, &ONE_PASS, 0);
    let mut caller = caller_of(rt, &shared, &pass);
    fills(rt, &shared, &mut pass, &mut caller, 0, rows);
    empties(rt, &shared, &mut pass, &mut caller, 0, gone);
    let closed = ended(rt, alloc, shared, Vec::new(alloc), pass);
    assert_eq!(rt;
        closed.word(Cell::Anchor, 1) % 8,
        kind,
        "{gone} of {rows} rows gone"
    );
}

#[test]
fn nodes_grow_at_five_seventeen_and_forty_nine(rt: HostRuntime) {
    for (rows, kind) in [(1, 1), (4, 2), (5, 3), (16, 3), (17, 4), (48, 4), (49, 5)] {
        check_root(&rt, rt.alloc(), rows, 0, kind);
    }
}

#[test]
fn nodes_shrink_at_thirty_six_twelve_three_and_one(rt: HostRuntime) {
    for (gone, kind) in [
        (23, 5),
        (24, 4),
        (47, 4),
        (48, 3),
        (56, 3),
        (57, 2),
        (58, 2),
        (59, 1),
        (60, 0),
    ] {
        check_root(&rt, rt.alloc(), 60, gone, kind);
    }
}

/// Nothing waits in the limbo of the pass.
fn check_limbo(rt: &impl Abort, caller: &Caller) {
    assert_eq!(rt; caller.limbo().room(), 64);
}

/// Two rows stand below one byte, and two come below another; when these are gone, the node of the first two is the root again.
#[test]
fn a_prefix_is_split_and_a_node_merged(rt: HostRuntime) {
    let (shared, mut pass) = alone(&rt, rt.alloc(), &ONE_PASS, 0);
    let mut caller = caller_of(&rt, &shared, &pass);
    fills(&rt, &shared, &mut pass, &mut caller, 257, 259);
    fills(&rt, &shared, &mut pass, &mut caller, 513, 515);
    empties(&rt, &shared, &mut pass, &mut caller, 513, 515);
    check_find(
        &rt,
        &shared,
        &mut pass,
        &mut caller,
        258,
        TURNS,
        Got::Found(258),
    );
    check_limbo(&rt, &caller);
    let closed = ended(&rt, rt.alloc(), shared, Vec::new(rt.alloc()), pass);
    let counts = closed.in_tree(&rt, rt.alloc());
    assert_eq!(rt; (counts.of(Pool::Leaves), counts.of(Pool::N4)), (2, 1));
    assert_eq!(rt;
        (closed.free(Pool::Leaves), closed.free(Pool::N4)),
        (254, 3)
    );
}

/// An insert of a row beside the rows with the numbers below it is refused so, and all of these stand then.
fn check_refused(
    rt: &impl Abort,
    alloc: Global,
    sizes: &Sizes,
    counter_start: u64,
    number: u16,
    wanted: WriteOutcome,
)
    requires { counter_start ≤ last_counter }
{
    let (shared, mut pass) = alone(rt, alloc, sizes, counter_start);
    let mut caller = caller_of(rt, &shared, &pass);
    fills(rt, &shared, &mut pass, &mut caller, 0, number);
    check_put(rt, &shared, &mut pass, &mut caller, number, 1, wanted);
    check_find(
        rt,
        &shared,
        &mut pass,
        &mut caller,
        number,
        TURNS,
        Got::Absent,
    );
    check_limbo(rt, &caller);
    let closed = ended(rt, alloc, shared, Vec::new(alloc), pass);
    let free = sizes.leaves.wrapping_sub(u32::from(number));
    assert_eq!(rt; closed.free(Pool::Leaves), free);
}

/// The end of a counter.
const LAST: u64 = (1 << 62) - 8;

#[test]
fn a_refused_insert_leaves_all_as_it_was(rt: HostRuntime) {
    let two = Sizes {
        leaves: 2,
        n4: 1,
        n16: 0,
        n48: 1,
        n256: 1,
        passes: 1,
    };
    let no_leaf = WriteOutcome::Full(Pool::Leaves);
    check_refused(&rt, rt.alloc(), &two, 0, 2, no_leaf);
    let no_node16 = Sizes { leaves: 8, ..two };
    let no_node = WriteOutcome::Full(Pool::N16);
    check_refused(&rt, rt.alloc(), &no_node16, 0, 4, no_node);
    let anchor = WriteOutcome::Exhausted(Cell::Anchor);
    check_refused(&rt, rt.alloc(), &ONE_PASS, LAST, 0, anchor);
}
