//! What passes saw in two threads is learnt by passes in two others.
ghost use Rattle.art_shared.specs.Marks.{IsMarkOf};
ghost use Rattle.art_shared.specs.Tables.{IsPassOf};
ghost use Rattle.art_shared_uses.specs.Clients.{IsNew};

use crate::clients::{caller_of, check_find, check_put, last_of, opened};
use art_change::WriteOutcome;
use art_look::Outcome as Got;
use art_shared::{Mark, Pass, Shared};
use art_step::Sizes;
use std::process::Abort;
use std::thread::{Threads, join};

/// More than one word of free numbers in each pool, since either thread may lose a number to the other.
const SIZES: Sizes = Sizes {
    leaves: 4096,
    n4: 256,
    n16: 256,
    n48: 256,
    n256: 256,
    passes: 4,
};

/// Turns enough for a get.
const TURNS: u32 = 1_000;

/// Inserts a row, which is new, and marks what was seen.
pub(crate) fn puts_and_marks(
    rt: &impl Abort,
    shared: &Shared,
    mut pass: Pass,
    number: u16,
    value: u64,
) -> (Pass, Mark)
    requires { IsNew shared.now pass }
    ensures pass { IsPassOf shared.now result.0 }
    ensures mark { IsMarkOf shared.now result.1 }
{
    let mut caller = caller_of(rt, shared, &pass);
    check_put(
        rt,
        shared,
        &mut pass,
        &mut caller,
        number,
        value,
        WriteOutcome::New,
    );
    let mark = shared.mark(&mut pass);
    (pass, mark)
}

/// Learns a mark, and finds a row with its value.
pub(crate) fn learns_and_finds(
    rt: &impl Abort,
    shared: &Shared,
    mut pass: Pass,
    mark: Mark,
    number: u16,
    value: u64,
)
    requires pass { IsNew shared.now pass }
    requires mark { IsMarkOf shared.now mark }
{
    let mut caller = caller_of(rt, shared, &pass);
    shared.learn(&mut pass, mark);
    let found = Got::Found(value);
    check_find(rt, shared, &mut pass, &mut caller, number, TURNS, found);
}

/// A row from each of two threads.
fn both_put<R: Threads + Abort + Sync>(
    rt: &R,
    shared: &Shared,
    one: Pass,
    two: Pass,
) -> ((Pass, Mark), (Pass, Mark))
    requires one { IsNew shared.now one }
    requires two { IsNew shared.now two }
    ensures one { IsPassOf shared.now result.0.0 × IsMarkOf shared.now result.0.1 }
    ensures two { IsPassOf shared.now result.1.0 × IsMarkOf shared.now result.1.1 }
{
    join(
        rt,
        || puts_and_marks(rt, shared, one, 7, 70),
        || puts_and_marks(rt, shared, two, 300, 3_000),
    )
}

/// Each of two threads learns one of the marks, and finds the row.
fn both_learn<R: Threads + Abort + Sync>(
    rt: &R,
    shared: &Shared,
    one: (Pass, Mark),
    two: (Pass, Mark),
)
    requires one { IsNew shared.now one.0 × IsMarkOf shared.now one.1 }
    requires two { IsNew shared.now two.0 × IsMarkOf shared.now two.1 }
{
    let (three, mark) = one;
    let (four, other) = two;
    join(
        rt,
        || learns_and_finds(rt, shared, three, mark, 7, 70),
        || learns_and_finds(rt, shared, four, other, 300, 3_000),
    );
}

#[test]
fn two_threads_learn_what_two_others_saw(rt: HostRuntime) {
    let (shared, mut passes) = opened(&rt, rt.alloc(), "u16", &SIZES, 0);
    let one = last_of(&rt, &shared, &mut passes);
    let two = last_of(&rt, &shared, &mut passes);
    let three = last_of(&rt, &shared, &mut passes);
    let four = last_of(&rt, &shared, &mut passes);
    let ((mut one, mark), (mut two, other)) = both_put(&rt, &shared, one, two);
    both_learn(&rt, &shared, (three, mark), (four, other));
    shared.meet(&mut one, &mut two);
    let last = shared.mark(&mut one);
    shared.learn(&mut two, last);
}
