//! Four threads, each with a pass of its own, insert rows; a fifth pass finds them, and as many numbers are gone.
ghost use Rattle.std.specs.Prelude.{IfOk};
ghost use Rattle.art_shared.specs.Tables.{IsPassOf};
ghost use Rattle.art_shared_uses.specs.Clients.{AreNew, AreOf, IsNew};

use crate::clients::{caller_of, check_find, check_put, last_of, opened};
use crate::closing::ended;
use art_cell::Pool;
use art_change::WriteOutcome;
use art_look::Outcome as Got;
use art_shared::{Pass, Shared};
use art_step::Sizes;
use std::alloc::AllocError;
use std::process::Abort;
use std::thread;
use std::thread::Threads;

/// Many words of free numbers in each pool: an insert that loses a number to another thread looks in the next word, and is refused
/// where there is none.
const SIZES: Sizes = Sizes {
    leaves: 4096,
    n4: 1024,
    n16: 1024,
    n48: 1024,
    n256: 1024,
    passes: 5,
};

/// How many rows each thread inserts.
const ROWS: u16 = 250;

/// Turns enough for a get.
const TURNS: u32 = 1_000;

/// Inserts the rows of one thread, each of which is new.
fn fills(rt: &impl Abort, shared: &Shared, mut pass: Pass) -> Pass
    requires { IsNew shared.now pass }
    ensures { IsPassOf shared.now result }
{
    let mut caller = caller_of(rt, shared, &pass);
    let first = u16::try_from(pass.number()).unwrap_or(0);
    for row in 0..ROWS {
        let number = first.wrapping_mul(ROWS).wrapping_add(row);
        let value = u64::from(number);
        check_put(
            rt,
            shared,
            &mut pass,
            &mut caller,
            number,
            value,
            WriteOutcome::New,
        );
    }
    pass
}

/// Each pass inserts its rows, in a thread of its own.
fn all_fill<R: Threads + Abort + Sync>(
    rt: &R,
    shared: &Shared,
    passes: Vec<Pass>,
) -> Result<Vec<Pass>, AllocError>
    requires { AreNew shared.now passes.items }
    ensures { IfOk result (λ all. AreOf shared.now all.items) }
{
    thread::map_vec(
        rt,
        passes,
        &|pass: Pass| -> Pass
            requires { IsNew shared.now pass }
            ensures { IsPassOf shared.entry.now result }
        { fills(rt, shared, pass) },
    )
}

/// All of the rows are found.
fn check_rows(rt: &impl Abort, shared: &Shared, pass: &mut Pass)
    requires { IsNew shared.now pass.old }
    ensures { IsPassOf shared.now pass.new }
{
    let mut caller = caller_of(rt, shared, pass);
    for number in 0..4 * ROWS {
        let wanted = Got::Found(u64::from(number));
        check_find(rt, shared, pass, &mut caller, number, TURNS, wanted);
    }
}

#[test]
fn four_threads_insert_two_hundred_and_fifty_rows_each(rt: HostRuntime) {
    let (shared, mut passes) = opened(&rt, rt.alloc(), "u16", &SIZES, 0);
    let mut fifth = last_of(&rt, &shared, &mut passes);
    let passes = all_fill(&rt, &shared, passes).expect(&rt, "room for the passes");
    assert_eq!(rt; passes.len(), 4);
    check_rows(&rt, &shared, &mut fifth);
    let end = ended(&rt, rt.alloc(), shared, passes, fifth);
    assert_eq!(rt; end.free(Pool::Leaves), SIZES.leaves - 1000);
}
