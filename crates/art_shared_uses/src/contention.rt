//! Eight threads insert, remove and look up rows with the same few keys.
ghost use Rattle.std.specs.Prelude.{IfOk};
ghost use Rattle.art_shared.specs.Tables.{IsPassOf};
ghost use Rattle.art_shared_uses.specs.Clients.{AreNew, AreOf, IsNew, Writes};

use crate::clients::{asks, caller_of, check_find, last_of, opened, puts, takes};
use crate::closing::{Closed, Counts, POOLS, ended};
use art_change::{Caller, WriteOutcome};
use art_look::Outcome as Got;
use art_shared::{Pass, Shared};
use art_step::Sizes;
use std::alloc::AllocError;
use std::process::Abort;
use std::sync::{Mutex, Wait};
use std::thread;
use std::thread::Threads;

/// Enough for what waits in the limbos of eight passes.
const SIZES: Sizes = Sizes {
    leaves: 1024,
    n4: 1024,
    n16: 1024,
    n48: 1024,
    n256: 1024,
    passes: 9,
};

/// How many keys there are.
const KEYS: usize = 50;

/// How many calls each thread makes.
const CALLS: u16 = 10_000;

/// Turns enough for a get that nobody disturbs.
const TURNS: u32 = 1_000;

/// How often a row with each key was new, and how often one was gone; how many gets found what no row of the key has; and what waits in
/// the end. A call that is refused changes nothing.
#[derive(Clone, Copy)]
struct Tally {
    new: [u32; KEYS],
    gone: [u32; KEYS],
    strange: u32,
    waiting: Counts,
}

impl Tally {
    fn empty() -> Tally {
        Tally {
            new: [0; KEYS],
            gone: [0; KEYS],
            strange: 0,
            waiting: Counts::none(),
        }
    }

    /// A write with the key ended so.
    fn wrote(&mut self, number: u16, outcome: WriteOutcome) {
        let place = usize::from(number) % KEYS;
        match outcome {
            WriteOutcome::New => self.new[place] = self.new[place].saturating_add(1),
            WriteOutcome::Gone(_) => self.gone[place] = self.gone[place].saturating_add(1),
            _ => {}
        }
    }

    /// A get of the key ended so.
    fn saw(&mut self, number: u16, got: Got) {
        if got != Got::Absent && got != Got::Found(u64::from(number)) {
            self.strange = self.strange.saturating_add(1);
        }
    }

    /// What another counted is counted too.
    fn add(&mut self, other: &Tally) {
        for place in 0..KEYS {
            self.new[place] = self.new[place].saturating_add(other.new[place]);
            self.gone[place] = self.gone[place].saturating_add(other.gone[place]);
        }
        self.strange = self.strange.saturating_add(other.strange);
        self.waiting.add(&other.waiting);
    }

    /// What a get of the key finds after all calls: a row with it was new at some time, and one or none is left.
    fn wanted(&self, rt: &impl Abort, number: u16) -> Got {
        let place = usize::from(number) % KEYS;
        let left = self.new[place].wrapping_sub(self.gone[place]);
        assert!(rt; self.new[place] > 0 && left < 2);
        if left == 0 {
            Got::Absent
        } else {
            Got::Found(u64::from(number))
        }
    }
}

/// One call: a get, a removal or an insert.
fn call(
    rt: &impl Abort,
    shared: &Shared,
    pass: &mut Pass,
    caller: &mut Caller,
    tally: &mut Tally,
    number: u16,
    kind: u16,
)
    requires { Writes shared.now pass.old caller.old }
    ensures { Writes shared.now pass.new caller.new }
{
    let value = u64::from(number);
    match kind {
        0 => tally.saw(number, asks(rt, shared, pass, caller, number)),
        1 => tally.wrote(number, takes(rt, shared, pass, caller, number)),
        _ => tally.wrote(number, puts(rt, shared, pass, caller, number, value)),
    }
}

/// All calls of one thread.
fn contends<R: Wait + Abort>(rt: &R, shared: &Shared, mut pass: Pass, total: &Mutex<Tally>) -> Pass
    requires { IsNew shared.now pass }
    ensures { IsPassOf shared.now result }
{
    let mut caller = caller_of(rt, shared, &pass);
    let first = u16::try_from(pass.number()).unwrap_or(0);
    let mut tally = Tally::empty();
    for round in 0..CALLS {
        let number = round.wrapping_mul(7).wrapping_add(first) % 50;
        let kind = round.wrapping_add(first) % 3;
        call(rt, shared, &mut pass, &mut caller, &mut tally, number, kind);
    }
    tally.waiting.note_all(caller.limbo());
    total.lock(rt).add(&tally);
    pass
}

/// Each pass makes its calls, in a thread of its own.
fn all_contend<R: Threads + Wait + Abort + Sync>(
    rt: &R,
    shared: &Shared,
    passes: Vec<Pass>,
    total: &Mutex<Tally>,
) -> Result<Vec<Pass>, AllocError>
    requires { AreNew shared.now passes.items }
    ensures { IfOk result (λ all. AreOf shared.now all.items) }
{
    thread::map_vec(
        rt,
        passes,
        &|pass: Pass| -> Pass
            requires { IsNew shared.now pass }
            ensures { IsPassOf shared.entry.now result }
        { contends(rt, shared, pass, total) },
    )
}

/// With each key as many rows are found as the calls left.
fn check_left(rt: &impl Abort, shared: &Shared, pass: &mut Pass, tally: &Tally)
    requires { IsNew shared.now pass.old }
    ensures { IsPassOf shared.now pass.new }
{
    let mut caller = caller_of(rt, shared, pass);
    for number in 0..50 {
        let wanted = tally.wanted(rt, number);
        check_find(rt, shared, pass, &mut caller, number, TURNS, wanted);
    }
}

/// Each number of each pool is free, waits, or is in the tree.
fn check_numbers(rt: &impl Abort, end: &Closed, in_tree: &Counts, waiting: &Counts) {
    for pool in POOLS {
        let taken = in_tree.of(pool).saturating_add(waiting.of(pool));
        let numbers = end.free(pool).saturating_add(taken);
        assert_eq!(rt; numbers, SIZES.pool_size(pool), "of {pool:?}");
    }
}

#[test]
fn eight_threads_agree_on_fifty_keys(rt: HostRuntime) {
    let (shared, mut passes) = opened(&rt, rt.alloc(), "u16", &SIZES, 0);
    let mut ninth = last_of(&rt, &shared, &mut passes);
    let total = Mutex::new(Tally::empty());
    let passes = all_contend(&rt, &shared, passes, &total).expect(&rt, "room for the passes");
    assert_eq!(rt; passes.len(), 8);
    let tally = total.into_inner();
    assert_eq!(rt; tally.strange, 0);
    check_left(&rt, &shared, &mut ninth, &tally);
    let end = ended(&rt, rt.alloc(), shared, passes, ninth);
    let in_tree = end.in_tree(&rt, rt.alloc());
    check_numbers(&rt, &end, &in_tree, &tally.waiting);
}
