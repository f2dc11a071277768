//! Numbers of a pool with more than one free word, and what opens.
ghost use Rattle.art_cell.specs.declared.cells.Pool.TheVariants.{N4};
ghost use Rattle.art_step.specs.WordPlaces.{HasFreeWord};

use crate::worlds::opened;
use art_cell::{Link, Pool};
use art_epoch::{Stock, Taking, advance, give, take};
use art_step::{EpochSteps, Number, Sizes, perform, spent};
use art_world::World;
use std::process::Abort;
use std::test::*;

const THREE_FREE_WORDS: Sizes = Sizes {
    leaves: 130,
    n4: 1,
    n16: 1,
    n48: 1,
    n256: 1,
    passes: 2,
};

/// Takes a number of a leaf, and counts the steps.
fn counted_take<S: EpochSteps>(steps: &mut S) -> (Option<Number>, u32) {
    let mut taking = Taking::new(Pool::Leaves, steps.pool_sizes());
    let mut count = 0u32;
    while let Some(asked) = taking.next() {
        let answer = perform(steps, asked, None);
        taking.told(answer);
        count = count.wrapping_add(1);
    }
    (taking.number(), count)
}

/// The next take of a leaf answers so, in so many steps.
fn check_take<S: EpochSteps>(rt: &impl Abort, steps: &mut S, wanted: Option<Link>, count: u32) {
    let (taken, made) = counted_take(steps);
    assert_eq!(rt; (spent(taken), made), (wanted, count));
}

#[test]
fn a_pool_of_130_has_three_free_words(rt: HostRuntime) {
    let mut world = opened(&rt, rt.alloc(), &THREE_FREE_WORDS);
    let words = [
        world.free_word(Pool::Leaves, 0),
        world.free_word(Pool::Leaves, 1),
        world.free_word(Pool::Leaves, 2),
        world.epoch(),
        world.pass_word(0),
        world.pass_word(1),
    ];
    assert_eq!(rt; words, [u64::MAX, u64::MAX, 3, 1, 0, 0]);
    let mut stepper = world.at(0);
    for number in 0..130 {
        let leaf = Link::Leaf(number);
        check_take(&rt, &mut stepper, Some(leaf), 2 + number / 64);
    }
    check_take(&rt, &mut stepper, None, 3);
}

/// These are the word of free numbers of the nodes of four, and the epoch.
fn check_words(rt: &impl Abort, world: &World, free: u64, epoch: u64)
    requires { HasFreeWord world.now.sizes N4 0 }
{
    let words = (world.free_word(Pool::N4, 0), world.epoch());
    assert_eq!(rt; words, (free, epoch));
}

#[test]
fn a_number_in_hand_goes_back_and_the_epoch_rises(rt: HostRuntime) {
    let mut world = opened(&rt, rt.alloc(), &THREE_FREE_WORDS);
    let mut stepper = world.at(1);
    let taken = take(&mut stepper, Pool::N4).expect(&rt, "it is free");
    assert_eq!(rt; (taken.pool(), taken.number()), (Pool::N4, 0));
    check_words(&rt, stepper.world, 0, 1);
    give(&mut stepper, taken);
    check_words(&rt, stepper.world, 1, 1);
    advance(&mut stepper);
    check_words(&rt, stepper.world, 1, 2);
}

/// The word of three at which the first search of a pass begins, of so many passes.
fn check_first_word(rt: &impl Abort, own: u32, passes: u32, wanted: u32) {
    let sizes = Sizes {
        leaves: 130,
        n4: 1,
        n16: 1,
        n48: 1,
        n256: 1,
        passes,
    };
    assert_eq!(rt; Stock::new(own, &sizes).hint(Pool::Leaves), wanted);
}

#[test]
fn first_searches_of_passes_begin_apart(rt: HostRuntime) {
    check_first_word(&rt, 0, 3, 0);
    check_first_word(&rt, 1, 3, 1);
    check_first_word(&rt, 2, 3, 2);
    check_first_word(&rt, 1, 2, 1);
    check_first_word(&rt, 1, 8, 0);
    check_first_word(&rt, 7, 8, 2);
}
