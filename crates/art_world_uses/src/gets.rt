//! Gets over a world of one thread.
ghost use Rattle.art_change.specs.Calls.{IsCaller};
ghost use Rattle.art_world.specs.Stepper.{OnlyStepped, sizes_of, view_of};

use crate::keys::key_of;
use crate::worlds::{ONE_PASS, caller_of, opened};
use art_change::Caller;
use art_look::Outcome;
use art_world::Stepper;
use std::process::Abort;
use std::test::*;

/// A get of the key of 7 ends so in so many turns.
fn check_get(
    rt: &impl Abort,
    stepper: &mut Stepper<'_>,
    caller: &mut Caller,
    turns: u32,
    wanted: Outcome,
)
    requires { IsCaller (sizes_of stepper.old) (view_of stepper.old) caller.old }
    ensures only { OnlyStepped stepper.old stepper.new }
    ensures may { IsCaller (sizes_of stepper.new) (view_of stepper.new) caller.new }
{
    let outcome = caller.get(stepper, &key_of([7]), turns);
    assert_eq!(rt; outcome, wanted);
}

#[test]
fn a_get_on_an_empty_tree_takes_three_steps(rt: HostRuntime) {
    let mut world = opened(&rt, rt.alloc(), &ONE_PASS);
    let mut caller = caller_of(&rt, &world, &ONE_PASS, 0);
    let mut stepper = world.at(0);
    check_get(&rt, &mut stepper, &mut caller, 0, Outcome::Busy);
    check_get(&rt, &mut stepper, &mut caller, 2, Outcome::Busy);
    check_get(&rt, &mut stepper, &mut caller, 3, Outcome::Absent);
    check_get(&rt, &mut stepper, &mut caller, 1_000, Outcome::Absent);
}
