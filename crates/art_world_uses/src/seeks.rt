//! Gets and looks from their pin to their close, over a world of one thread.
ghost use Rattle.std.specs.Prelude.{◌≤◌, length};
ghost use Rattle.art_change.specs.Calls.{IsCaller};
ghost use Rattle.art_epoch.specs.Pins.{MayPin};
ghost use Rattle.art_world.specs.Stepper.{OnlyStepped, sizes_of, view_of};

use crate::keys::key_of;
use crate::worlds::{caller_of, opened};
use art_change::{Caller, Outcome};
use art_key::Bound;
use art_look::{Aim, PathBuffer, Seek, Seen, Stepped, step};
use art_step::{EpochSteps, Sizes};
use art_world::Stepper;
use std::alloc::Global;
use std::process::Abort;
use std::test::*;

const EIGHT_LEAVES: Sizes = Sizes {
    leaves: 8,
    n4: 1,
    n16: 1,
    n48: 1,
    n256: 1,
    passes: 2,
};

/// A get of the key of 7 that is begun, and then run, ends so in so many turns, and met no failure.
fn check_get(
    rt: &impl Abort,
    pass: &mut Stepper<'_>,
    caller: &mut Caller,
    turns: u32,
    wanted: Outcome,
)
    requires { IsCaller (sizes_of pass.old) (view_of pass.old) caller.old }
    ensures only { OnlyStepped pass.old pass.new }
    ensures may { IsCaller (sizes_of pass.new) (view_of pass.new) caller.new }
{
    let key = key_of([7]);
    caller.begin_get(&key, turns);
    let outcome = caller.run(pass);
    assert_eq!(rt; outcome, wanted);
    assert_eq!(rt; caller.restarts(), 0);
}

#[test]
fn a_begun_get_of_an_empty_tree_takes_three_turns(rt: HostRuntime) {
    let mut world = opened(&rt, rt.alloc(), &EIGHT_LEAVES);
    let mut caller = caller_of(&rt, &world, &EIGHT_LEAVES, 1);
    let mut pass = world.at(1);
    check_get(&rt, &mut pass, &mut caller, 0, Outcome::Busy);
    check_get(&rt, &mut pass, &mut caller, 2, Outcome::Busy);
    check_get(&rt, &mut pass, &mut caller, 3, Outcome::Absent);
    check_get(&rt, &mut pass, &mut caller, 1_000, Outcome::Absent);
    assert_eq!(rt; world.pass_word(1), 0);
}

/// A look from the key of 7 on that is begun, and then run, ends so in so many turns, and met no failure.
fn check_look(
    rt: &impl Abort,
    pass: &mut Stepper<'_>,
    caller: &mut Caller,
    turns: u32,
    wanted: Outcome,
)
    requires { IsCaller (sizes_of pass.old) (view_of pass.old) caller.old }
    ensures only { OnlyStepped pass.old pass.new }
    ensures may { IsCaller (sizes_of pass.new) (view_of pass.new) caller.new }
{
    let key = key_of([7]);
    caller.begin_look(&key, &Bound::End, turns);
    let outcome = caller.run(pass);
    assert_eq!(rt; outcome, wanted);
    assert_eq!(rt; caller.restarts(), 0);
}

#[test]
fn a_begun_look_sees_all_of_an_empty_tree(rt: HostRuntime) {
    let mut world = opened(&rt, rt.alloc(), &EIGHT_LEAVES);
    let mut caller = caller_of(&rt, &world, &EIGHT_LEAVES, 1);
    let all = Seen {
        lo: key_of([7]),
        hi: Bound::End,
        row: None,
    };
    let mut pass = world.at(1);
    check_look(&rt, &mut pass, &mut caller, 0, Outcome::Busy);
    check_look(&rt, &mut pass, &mut caller, 2, Outcome::Busy);
    check_look(&rt, &mut pass, &mut caller, 3, Outcome::Seen(all));
    assert_eq!(rt; world.pass_word(1), 0);
}

/// How many steps of a get of the key were counted, in so many turns, and how many made an event.
fn counts_of<S: EpochSteps>(steps: &mut S, key: &[u8], turns: u32) -> (u32, u32)
    requires short { length key.now ≤ 64 }
    requires admitted { S.admits steps.old key.now }
    requires may { MayPin (S.view steps.old) }
{
    let mut seek = Seek::new(Aim::Key, turns);
    let mut path_buffer = PathBuffer::new();
    let mut counted = 0_u32;
    let mut told = 0_u32;
    while seek.ended().is_none() {
        let made = step(steps, &mut seek, key, &Bound::End, &mut path_buffer);
        if made.stepped != Stepped::Frame {
            counted = counted.saturating_add(1);
        }
        if made.stepped == Stepped::Told {
            told = told.saturating_add(1);
        }
    }
    (counted, told)
}

/// So many steps of a get from an empty tree were counted, in so many turns, and so many made an event.
fn check_counts(rt: &impl Abort, alloc: Global, turns: u32, wanted: (u32, u32)) {
    let mut world = opened(rt, alloc, &EIGHT_LEAVES);
    let mut pass = world.at(1);
    assert_eq!(rt; counts_of(&mut pass, &[7], turns), wanted);
}

#[test]
fn each_step_says_whether_it_is_counted_and_told(rt: HostRuntime) {
    check_counts(&rt, rt.alloc(), 2, (2, 0));
    check_counts(&rt, rt.alloc(), 1_000, (3, 1));
}
