//! A world of four passes, each with an op.
ghost use Rattle.std.specs.Prelude.{◌≡◌, ◌<◌, ◌≤◌, IfErr, IfOk, length};
ghost use Rattle.art_runs.specs.ArtChange.Calls.{IsCaller};
ghost use Rattle.art_runs.specs.Ops.{IsUnderWay};
ghost use Rattle.art_runs_uses.specs.Benches.{IsBench, IsBegun};
ghost use Rattle.art_step.specs.Views.{last_counter};
ghost use Rattle.art_step.specs.declared.views.Sizes.{Sizes as SizesOf};
ghost use Rattle.art_step.specs.declared.views.View.{View};

use crate::events::Notes;
use crate::wishes::{Wish, key_of};
use art_key::{Bound, Schema};
use art_runs::art_change::Caller;
use art_runs::{Op, run};
use art_step::Sizes;
use art_world::World;
use std::alloc::Global;
use std::process::Abort;

/// How many passes there are.
pub(crate) const PASSES: u32 = 4;

/// More turns than an op needs.
const TURNS: u32 = 1_000;

/// More turns than an op takes to its end.
const MOST: u32 = 3_000;

/// A world, and the op of each of its passes.
pub(crate) struct Bench {
    pub(crate) world: World,
    pub(crate) ops: Vec<Op>,
}

/// An op of the wish, of which no step is made yet.
fn begun(rt: &impl Abort, schema: &Schema, caller: Box<Caller>, wish: Wish) -> Op
    ensures { IsBegun caller.value result }
{
    match wish {
        Wish::Insert(number, value) => {
            Op::insert(caller, &key_of(rt, schema, number), value, TURNS)
        }
        Wish::Remove(number) => Op::remove(caller, &key_of(rt, schema, number), TURNS),
        Wish::Get(number) => Op::get(caller, &key_of(rt, schema, number), TURNS),
        Wish::Look(from, end) => begun_look(rt, schema, caller, from, end),
    }
}

/// A look from the row of a number on, before that of another one, where that stands after it.
fn begun_look(rt: &impl Abort, schema: &Schema, caller: Box<Caller>, from: u32, end: u32) -> Op
    ensures { IsBegun caller.value result }
{
    let lo = key_of(rt, schema, from);
    let hi = key_of(rt, schema, end);
    if lo.as_slice().cmp(hi.as_slice()).is_lt() {
        Op::look(caller, &lo, &Bound::At(hi), TURNS)
    } else {
        Op::look(caller, &lo, &Bound::End, TURNS)
    }
}

/// What the pass of an op keeps for its next one, if the op has ended.
fn ended(op: Op) -> Result<Box<Caller>, Op>
    ensures ended { IfOk result (λ c. (z : SizesOf) (v : View) → IsUnderWay z op v → IsCaller z v c.value) }
    ensures goes_on { IfErr result (λ a. a ≡ op) }
{
    match op.outcome() {
        Some(_) => Ok(op.into_caller()),
        None => Err(op),
    }
}

/// The first op of each pass is of the wish.
pub(crate) fn opened(
    rt: &impl Abort,
    alloc: Global,
    schema: &Schema,
    sizes: &Sizes,
    counter_start: u64,
    wish: Wish,
) -> Bench
    requires counter { counter_start ≤ last_counter }
    requires passes { sizes.now.passes ≡ PASSES }
    ensures { IsBench result.world result.ops.items }
{
    let world = World::open(alloc, sizes, counter_start).expect(rt, "room for a world");
    let mut ops = Vec::new(alloc);
    for pass in 0..PASSES {
        let caller = Box::new(alloc, Caller::new(pass, sizes)).expect(rt, "memory");
        let op = begun(rt, schema, caller, wish);
        ops.push(op).expect(rt, "memory");
    }
    Bench { world, ops }
}

impl Bench {
    /// One turn of the op of the pass, which has not ended: its step, and whether it has now.
    pub(crate) fn turn(
        &mut self,
        rt: &impl Abort,
        schema: &Schema,
        notes: &mut Notes,
        which: u32,
    ) -> bool
        requires { IsBench self.old.world self.old.ops.items }
        ensures { IsBench self.new.world self.new.ops.items }
    {
        run(&mut self.world, self.ops.as_mut_slice(), &[which]);
        let op = self.ops.get(which as usize).expect(rt, "an op");
        notes.makes(rt, which, op.last());
        match op.outcome() {
            Some(outcome) => {
                notes.ends(rt, schema, which, outcome, op.restarts());
                true
            }
            None => false,
        }
    }

    /// The op of the pass has ended, and another one begins.
    pub(crate) fn begins(&mut self, rt: &impl Abort, schema: &Schema, which: u32, wish: Wish)
        requires { IsBench self.old.world self.old.ops.items }
        ensures { IsBench self.new.world self.new.ops.items }
    {
        let which = which as usize;
        assert!(rt; which < self.ops.len());
        let op = self.ops.remove(which);
        let Ok(caller) = ended(op) else {
            panic!(rt; "the op of pass {which} goes on")
        };
        let op = begun(rt, schema, caller, wish);
        self.ops.insert(which, op).expect(rt, "its place");
    }

    /// One turn of each op that has not ended.
    fn round(&mut self, rt: &impl Abort, schema: &Schema, notes: &mut Notes)
        requires { IsBench self.old.world self.old.ops.items }
        ensures { IsBench self.new.world self.new.ops.items }
    {
        for which in 0..PASSES {
            let op = self.ops.get(which as usize).expect(rt, "an op");
            if op.outcome().is_none() {
                self.turn(rt, schema, notes, which);
            }
        }
    }

    /// All turns that are left: the ops take turns.
    pub(crate) fn runs_out(&mut self, rt: &impl Abort, schema: &Schema, notes: &mut Notes)
        requires { IsBench self.old.world self.old.ops.items }
        ensures { IsBench self.new.world self.new.ops.items }
    {
        for _ in 0..MOST {
            self.round(rt, schema, notes);
        }
    }
}

/// What each pass keeps, whose ops have ended.
pub(crate) fn callers_of(rt: &impl Abort, alloc: Global, ops: Vec<Op>) -> Vec<Box<Caller>> {
    let mut callers = Vec::new(alloc);
    for op in ops {
        let caller = ended(op).ok().expect(rt, "an op that has ended");
        callers.push(caller).expect(rt, "memory");
    }
    callers
}
