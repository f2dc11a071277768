//! The steps of inserts and removals, one after another, are those that were written down.
ghost use Rattle.std.specs.Prelude.{◌≡◌, ◌<◌};
ghost use Rattle.art_attempt.specs.Attempts.{IsRoom};
ghost use Rattle.art_change.specs.Writes.{IsFresh, IsReady};
ghost use Rattle.art_epoch.specs.Limbo.{places_of};
ghost use Rattle.art_step.specs.declared.views.View.{View};
ghost use Rattle.art_world.specs.Stepper.{OnlyStepped, sizes_of, view_of};

use crate::expected::*;
use crate::lines::write_line;
use crate::worlds::opened;
use arrayvec::ArrayString;
use art_attempt::Room;
use art_change::{Job, Write, step};
use art_epoch::Limbo;
use art_key::{Key, Schema, encode};
use art_model::{Tuple, Value};
use art_step::{Action, Sizes};
use art_world::Stepper;
use std::alloc::Global;
use std::process::Abort;
use std::test::*;

const SIZES: Sizes = Sizes {
    leaves: 64,
    n4: 64,
    n16: 64,
    n48: 64,
    n256: 64,
    passes: 8,
};

/// Three words of free numbers for the leaves.
const WIDE: Sizes = Sizes {
    leaves: 130,
    n4: 64,
    n16: 64,
    n48: 64,
    n256: 64,
    passes: 1,
};

/// Which steps are told.
#[derive(Clone, Copy)]
enum Shown {
    All,
    /// Those by which a number is looked for, taken or given back.
    Numbers,
}

impl Shown {
    fn has(self, action: Action) -> bool {
        match self {
            Shown::All => true,
            Shown::Numbers => matches!(
                action,
                Action::ClearBit { .. } | Action::GiveBack { .. } | Action::Free { .. }
            ),
        }
    }
}

/// A write of a number: its row comes with this value, or goes.
type Written = (i128, Option<u64>);

/// More text than any write here has.
type Text = ArrayString<4096>;

/// The steps of a write of the key, by the first pass: its row comes with the value, or goes.
fn steps_of(
    rt: &impl Abort,
    stepper: &mut Stepper<'_>,
    room: &mut Room,
    limbo: &mut Limbo,
    key: &Key,
    value: Option<u64>,
    shown: Shown,
) -> Text
    requires sizes { room.old.sizes ≡ sizes_of stepper.old }
    requires ready { IsReady (sizes_of stepper.old) (view_of stepper.old) 0 (places_of limbo.old) room.old.stock }
    ensures only { OnlyStepped stepper.old stepper.new }
    ensures sizes { room.new.sizes ≡ sizes_of stepper.new }
    ensures ready { IsReady (sizes_of stepper.new) (view_of stepper.new) 0 (places_of limbo.new) room.new.stock }
{
    match value {
        Some(value) => {
            room.set(key, value);
            run(rt, stepper, Job::Insert, room, limbo, shown)
        }
        None => {
            room.set(key, 0);
            run(rt, stepper, Job::Remove, room, limbo, shown)
        }
    }
}

/// The steps of a write of what the room has, by the first pass.
fn run(
    rt: &impl Abort,
    stepper: &mut Stepper<'_>,
    job: Job,
    room: &mut Room,
    limbo: &mut Limbo,
    shown: Shown,
) -> Text
    requires room { IsRoom (sizes_of stepper.old) room.old }
    requires ready { IsReady (sizes_of stepper.old) (view_of stepper.old) 0 (places_of limbo.old) room.old.stock }
    ensures only { OnlyStepped stepper.old stepper.new }
    ensures sizes { room.new.sizes ≡ sizes_of stepper.new }
    ensures ready { IsReady (sizes_of stepper.new) (view_of stepper.new) 0 (places_of limbo.new) room.new.stock }
{
    let mut write = Write::new(job, 0, 1_000_000, room, limbo);
    let mut text = Text::new();
    loop {
        if let Some(outcome) = write.ended() {
            let _ = outcome;
            return text;
        }
        if let Some(action) = write.next(room, limbo) {
            tell(rt, &mut text, action, shown);
        }
        step(stepper, &mut write, room, limbo);
    }
}

fn tell(rt: &impl Abort, text: &mut Text, action: Action, shown: Shown) {
    if shown.has(action) {
        write_line(text, action).expect(rt, "the text has room");
    }
}

/// A room and a limbo with nothing in them.
fn empty(sizes: &Sizes) -> (Room, Limbo)
    ensures sizes { result.0.sizes ≡ sizes.now }
    ensures ready { (u : View) → IsFresh sizes.now u 0 → IsReady sizes.now u 0 (places_of result.1) result.0.stock }
{
    (Room::new(0, sizes), Limbo::new())
}

/// The key of a number, as the schema spells it.
fn key_of(rt: &impl Abort, schema: &Schema, number: i128) -> Key {
    let mut tuple = Tuple::new();
    tuple.push(Value::Int(number));
    encode(schema, &tuple).expect(rt, "a number of the column")
}

/// Those steps of the last of these writes that are shown, one after another, from an empty tree with these sizes on.
fn last_steps(
    rt: &impl Abort,
    alloc: Global,
    sizes: &Sizes,
    schema: &str,
    writes: &[Written],
    shown: Shown,
) -> Text
    requires { 0 < sizes.now.passes }
{
    let mut world = opened(rt, alloc, sizes);
    let schema = Schema::parse(schema).expect(rt, "a schema");
    let (mut room, mut limbo) = empty(sizes);
    let mut stepper = world.at(0);
    let mut text = Text::new();
    for (number, value) in writes {
        let key = key_of(rt, &schema, *number);
        text = steps_of(rt, &mut stepper, &mut room, &mut limbo, &key, *value, shown);
    }
    text
}

/// These are the steps of the last of these writes, from an empty tree on.
fn check_steps(rt: &impl Abort, alloc: Global, schema: &str, writes: &[Written], wanted: &str) {
    let text = last_steps(rt, alloc, &SIZES, schema, writes, Shown::All);
    assert_eq!(rt; text.as_str(), wanted);
}

#[test]
fn an_insert_into_the_empty_anchor(rt: HostRuntime) {
    let writes = [(1, Some(1))];
    check_steps(&rt, rt.alloc(), "u8", &writes, INTO_THE_EMPTY_ANCHOR);
}

#[test]
fn an_insert_of_a_key_that_is_there(rt: HostRuntime) {
    let writes = [(1, Some(1)), (1, Some(9))];
    check_steps(&rt, rt.alloc(), "u8", &writes, OF_A_KEY_THAT_IS_THERE);
}

#[test]
fn an_insert_where_another_leaf_stands(rt: HostRuntime) {
    let writes = [(1, Some(1)), (5, Some(5))];
    check_steps(&rt, rt.alloc(), "u8", &writes, WHERE_ANOTHER_LEAF_STANDS);
}

#[test]
fn an_insert_at_a_free_entry(rt: HostRuntime) {
    let writes = [(1, Some(1)), (5, Some(5)), (3, Some(3))];
    check_steps(&rt, rt.alloc(), "u8", &writes, AT_A_FREE_ENTRY);
}

#[test]
fn an_insert_into_a_full_node4(rt: HostRuntime) {
    let writes = [
        (1, Some(1)),
        (2, Some(2)),
        (3, Some(3)),
        (4, Some(4)),
        (5, Some(5)),
    ];
    check_steps(&rt, rt.alloc(), "u8", &writes, INTO_A_FULL_NODE4);
}

#[test]
fn an_insert_where_the_prefix_differs(rt: HostRuntime) {
    let writes = [(257, Some(1)), (258, Some(2)), (515, Some(3))];
    check_steps(&rt, rt.alloc(), "u16", &writes, WHERE_THE_PREFIX_DIFFERS);
}

#[test]
fn a_removal_of_the_root_leaf(rt: HostRuntime) {
    let writes = [(1, Some(1)), (1, None)];
    check_steps(&rt, rt.alloc(), "u8", &writes, OF_THE_ROOT_LEAF);
}

#[test]
fn a_removal_that_leaves_a_leaf(rt: HostRuntime) {
    let writes = [(1, Some(1)), (5, Some(5)), (5, None)];
    check_steps(&rt, rt.alloc(), "u8", &writes, THAT_LEAVES_A_LEAF);
}

#[test]
fn a_removal_that_leaves_an_inner_node(rt: HostRuntime) {
    let writes = [(257, Some(1)), (258, Some(2)), (515, Some(3)), (515, None)];
    check_steps(&rt, rt.alloc(), "u16", &writes, THAT_LEAVES_AN_INNER_NODE);
}

#[test]
fn a_removal_of_one_of_three_rows(rt: HostRuntime) {
    let writes = [(1, Some(1)), (2, Some(2)), (3, Some(3)), (3, None)];
    check_steps(&rt, rt.alloc(), "u8", &writes, OF_ONE_OF_THREE);
}

#[test]
fn a_removal_that_shrinks_a_node16(rt: HostRuntime) {
    let writes = [
        (1, Some(1)),
        (2, Some(2)),
        (3, Some(3)),
        (4, Some(4)),
        (5, Some(5)),
        (5, None),
        (4, None),
    ];
    check_steps(&rt, rt.alloc(), "u8", &writes, THAT_SHRINKS_A_NODE16);
}

/// The row with this number, four to a node.
fn four_to_a_node(number: u8) -> i128 {
    256 * i128::from(number / 4) + i128::from(number % 4)
}

/// How numbers are looked for by the last insert of so many rows, and one of the row `gone` is out before it, if there is one.
fn check_searches(rt: &impl Abort, alloc: Global, rows: usize, gone: Option<u8>, wanted: &str) {
    let mut writes = [(0, None); 68];
    for (number, write) in writes.iter_mut().enumerate() {
        *write = (four_to_a_node(number as u8), Some(1));
    }
    if let Some(number) = gone {
        writes[66] = (four_to_a_node(number), None);
    }
    let writes = &writes[..rows.min(68)];
    let text = last_steps(rt, alloc, &WIDE, "u16", writes, Shown::Numbers);
    assert_eq!(rt; text.as_str(), wanted);
}

#[test]
fn a_search_begins_where_a_number_was_found_or_went_back(rt: HostRuntime) {
    let alloc = rt.alloc();
    check_searches(&rt, alloc, 65, None, INTO_THE_NEXT_WORD);
    check_searches(&rt, alloc, 67, None, WHERE_ONE_WAS_FOUND);
    check_searches(&rt, alloc, 68, Some(3), WHERE_ONE_WENT_BACK);
}
