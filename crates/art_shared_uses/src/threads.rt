//! Two threads, each with a pass of its own, insert rows; and a third pass finds them.
ghost use Rattle.art_shared.specs.Tables.{IsPassOf};
ghost use Rattle.art_shared_uses.specs.Clients.{IsNew, Writes};

use crate::clients::{caller_of, check_find, check_put, check_take, last_of, opened};
use crate::closing::{ended, with_last};
use art_cell::Cell;
use art_change::{Caller, WriteOutcome};
use art_look::Outcome as Got;
use art_shared::{Pass, Shared};
use art_step::Sizes;
use std::process::Abort;
use std::thread::{Threads, join};

/// Many words of free numbers in each pool: an insert that loses a number to the other thread looks in the next word, and is refused
/// where there is none.
const SIZES: Sizes = Sizes {
    leaves: 4096,
    n4: 256,
    n16: 256,
    n48: 256,
    n256: 256,
    passes: 3,
};

/// How many rows each thread inserts.
const ROWS: u16 = 250;

/// Turns enough for a get.
const TURNS: u32 = 1_000;

/// Inserts a row, which is new, and removes every tenth again, which had its value.
fn round(rt: &impl Abort, shared: &Shared, pass: &mut Pass, caller: &mut Caller, number: u16)
    requires { Writes shared.now pass.old caller.old }
    ensures { Writes shared.now pass.new caller.new }
{
    let value = u64::from(number);
    check_put(rt, shared, pass, caller, number, value, WriteOutcome::New);
    if number % 10 == 9 {
        check_take(rt, shared, pass, caller, number, WriteOutcome::Gone(value));
    }
}

/// So many rounds from a number on.
fn works(rt: &impl Abort, shared: &Shared, mut pass: Pass, first: u16) -> Pass
    requires { IsNew shared.now pass }
    ensures { IsPassOf shared.now result }
{
    let mut caller = caller_of(rt, shared, &pass);
    for row in 0..ROWS {
        round(rt, shared, &mut pass, &mut caller, first.wrapping_add(row));
    }
    pass
}

/// Both threads at once.
fn both<R: Threads + Abort + Sync>(rt: &R, shared: &Shared, one: Pass, two: Pass) -> (Pass, Pass)
    requires one { IsNew shared.now one }
    requires two { IsNew shared.now two }
    ensures one { IsPassOf shared.now result.0 }
    ensures two { IsPassOf shared.now result.1 }
{
    join(
        rt,
        || works(rt, shared, one, 0),
        || works(rt, shared, two, ROWS),
    )
}

/// What a get of the row of the number finds after all rounds.
fn left(number: u16) -> Got {
    if number % 10 == 9 {
        Got::Absent
    } else {
        Got::Found(u64::from(number))
    }
}

/// All of the rows are found as they were left.
fn check_rows(rt: &impl Abort, shared: &Shared, pass: &mut Pass)
    requires { IsNew shared.now pass.old }
    ensures { IsPassOf shared.now pass.new }
{
    let mut caller = caller_of(rt, shared, pass);
    for number in 0..2 * ROWS {
        check_find(rt, shared, pass, &mut caller, number, TURNS, left(number));
    }
}

#[test]
fn a_third_pass_finds_what_two_threads_left(rt: HostRuntime) {
    let (shared, mut passes) = opened(&rt, rt.alloc(), "u16", &SIZES, 0);
    let one = last_of(&rt, &shared, &mut passes);
    let two = last_of(&rt, &shared, &mut passes);
    let mut three = last_of(&rt, &shared, &mut passes);
    let (one, two) = both(&rt, &shared, one, two);
    check_rows(&rt, &shared, &mut three);
    let passes = with_last(&rt, &shared, Vec::new(rt.alloc()), one);
    let passes = with_last(&rt, &shared, passes, two);
    let end = ended(&rt, rt.alloc(), shared, passes, three);
    assert_eq!(rt; end.word(Cell::Anchor, 1) % 8, 2);
}
