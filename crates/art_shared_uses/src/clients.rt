//! Tables that open, and passes of theirs that call.
ghost use Rattle.std.specs.Prelude.{◌≤◌, IfSome};
ghost use Rattle.art_shared_uses.specs.Clients.{AreNew, IsKey, IsNew, Writes};
ghost use Rattle.art_step.specs.Views.{last_counter};

use art_change::{Caller, WriteOutcome};
use art_key::{Key, Schema, encode};
use art_look::Outcome as Got;
use art_model::{Tuple, Value};
use art_shared::{Pass, Shared};
use art_step::Sizes;
use std::alloc::Global;
use std::process::Abort;

/// As many turns as there are: a thread may lose its processor while it holds a cell, and the other waits for it by trying anew.
const TURNS: u32 = u32::MAX;

/// A table of these sizes under the schema that the text says, and its passes.
pub(crate) fn opened(
    rt: &impl Abort,
    alloc: Global,
    text: &str,
    sizes: &Sizes,
    counter_start: u64,
) -> (Shared, Vec<Pass>)
    requires { counter_start ≤ last_counter }
    ensures { AreNew result.0 result.1.items }
{
    let schema = Schema::parse(text).expect(rt, "a schema");
    Shared::open(alloc, schema, sizes, counter_start).expect(rt, "room for a table")
}

/// The last of these passes, if there is one: it made no step yet.
fn popped(shared: &Shared, passes: &mut Vec<Pass>) -> Option<Pass>
    requires { AreNew shared.now passes.old.items }
    ensures new { IfSome result (λ a. IsNew shared.now a) }
    ensures left { AreNew shared.now passes.new.items }
{
    let _ = shared.sizes();
    passes.pop()
}

/// The last of these passes, which made no step yet.
pub(crate) fn last_of(rt: &impl Abort, shared: &Shared, passes: &mut Vec<Pass>) -> Pass
    requires { AreNew shared.now passes.old.items }
    ensures new { IsNew shared.now result }
    ensures left { AreNew shared.now passes.new.items }
{
    popped(shared, passes).expect(rt, "a pass")
}

/// What a pass keeps beside the table to call it.
pub(crate) fn caller_of(rt: &impl Abort, shared: &Shared, pass: &Pass) -> Caller
    requires { IsNew shared.now pass.now }
    ensures { Writes shared.now pass.now result }
{
    let sizes = shared.sizes();
    assert!(rt; sizes.passes <= 32);
    Caller::new(pass.number(), &sizes)
}

/// The key that spells a number under the schema of the table, which has one column.
pub(crate) fn key_of(rt: &impl Abort, shared: &Shared, number: u16) -> Key
    ensures { IsKey shared.now result.items }
{
    let mut tuple = Tuple::new();
    tuple.push(Value::Int(i128::from(number)));
    encode(shared.schema(), &tuple).expect(rt, "a number of the column")
}

/// How an insert of the row of a number ends.
pub(crate) fn puts(
    rt: &impl Abort,
    shared: &Shared,
    pass: &mut Pass,
    caller: &mut Caller,
    number: u16,
    value: u64,
) -> WriteOutcome
    requires { Writes shared.now pass.old caller.old }
    ensures { Writes shared.now pass.new caller.new }
{
    let key = key_of(rt, shared, number);
    let mut stepper = shared.at(pass);
    caller.insert(&mut stepper, &key, value, TURNS)
}

/// How a removal of the row of a number ends.
pub(crate) fn takes(
    rt: &impl Abort,
    shared: &Shared,
    pass: &mut Pass,
    caller: &mut Caller,
    number: u16,
) -> WriteOutcome
    requires { Writes shared.now pass.old caller.old }
    ensures { Writes shared.now pass.new caller.new }
{
    let key = key_of(rt, shared, number);
    let mut stepper = shared.at(pass);
    caller.remove(&mut stepper, &key, TURNS)
}

/// How a get of the row of a number ends, in so many turns.
fn finds(
    rt: &impl Abort,
    shared: &Shared,
    pass: &mut Pass,
    caller: &mut Caller,
    number: u16,
    turns: u32,
) -> Got
    requires { Writes shared.now pass.old caller.old }
    ensures { Writes shared.now pass.new caller.new }
{
    let key = key_of(rt, shared, number);
    let mut stepper = shared.at(pass);
    caller.get(&mut stepper, &key, turns)
}

/// How a get of the row of a number ends, while others call.
pub(crate) fn asks(
    rt: &impl Abort,
    shared: &Shared,
    pass: &mut Pass,
    caller: &mut Caller,
    number: u16,
) -> Got
    requires { Writes shared.now pass.old caller.old }
    ensures { Writes shared.now pass.new caller.new }
{
    finds(rt, shared, pass, caller, number, TURNS)
}

/// An insert of the row of a number ends so.
pub(crate) fn check_put(
    rt: &impl Abort,
    shared: &Shared,
    pass: &mut Pass,
    caller: &mut Caller,
    number: u16,
    value: u64,
    wanted: WriteOutcome,
)
    requires { Writes shared.now pass.old caller.old }
    ensures { Writes shared.now pass.new caller.new }
{
    assert_eq!(rt; puts(rt, shared, pass, caller, number, value), wanted);
}

/// A removal of the row of a number ends so.
pub(crate) fn check_take(
    rt: &impl Abort,
    shared: &Shared,
    pass: &mut Pass,
    caller: &mut Caller,
    number: u16,
    wanted: WriteOutcome,
)
    requires { Writes shared.now pass.old caller.old }
    ensures { Writes shared.now pass.new caller.new }
{
    assert_eq!(rt; takes(rt, shared, pass, caller, number), wanted);
}

/// A get of the row of a number, in so many turns, ends so.
pub(crate) fn check_find(
    rt: &impl Abort,
    shared: &Shared,
    pass: &mut Pass,
    caller: &mut Caller,
    number: u16,
    turns: u32,
    wanted: Got,
)
    requires { Writes shared.now pass.old caller.old }
    ensures { Writes shared.now pass.new caller.new }
{
    assert_eq!(rt; finds(rt, shared, pass, caller, number, turns), wanted);
}
