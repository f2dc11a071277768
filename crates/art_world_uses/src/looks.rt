//! Looks of ranges over a world of one thread.
ghost use Rattle.art_change.specs.Calls.{IsCaller};
ghost use Rattle.art_world.specs.Stepper.{OnlyStepped, sizes_of, view_of};

use crate::keys::key_of;
use crate::worlds::{ONE_PASS, caller_of, opened};
use art_change::Caller;
use art_key::Bound;
use art_world::Stepper;
use std::process::Abort;
use std::test::*;

/// A look from the key of 7 on sees no row up to there, or nothing, in so many turns, and met no failure.
fn check_look(
    rt: &impl Abort,
    stepper: &mut Stepper<'_>,
    caller: &mut Caller,
    turns: u32,
    wanted: Option<Bound>,
)
    requires { IsCaller (sizes_of stepper.old) (view_of stepper.old) caller.old }
    ensures only { OnlyStepped stepper.old stepper.new }
    ensures may { IsCaller (sizes_of stepper.new) (view_of stepper.new) caller.new }
{
    let lo = key_of([7]);
    let reached = caller.look(stepper, &lo, &Bound::End, turns);
    assert_eq!(rt; reached.map(|it| caller.end_seen(it, &Bound::End)), wanted);
    let row = reached.and_then(|it| caller.row_seen(it, &lo, &Bound::End));
    assert!(rt; row.is_none());
    assert_eq!(rt; caller.restarts(), 0);
}

#[test]
fn a_look_of_an_empty_tree_sees_all_of_its_range(rt: HostRuntime) {
    let mut world = opened(&rt, rt.alloc(), &ONE_PASS);
    let mut caller = caller_of(&rt, &world, &ONE_PASS, 0);
    let mut stepper = world.at(0);
    check_look(&rt, &mut stepper, &mut caller, 0, None);
    check_look(&rt, &mut stepper, &mut caller, 2, None);
    check_look(&rt, &mut stepper, &mut caller, 3, Some(Bound::End));
}
