//! The first pass of a world writes, and looks up.
ghost use Rattle.std.specs.Prelude.{◌<◌, ◌≤◌};
ghost use Rattle.art_runs_uses.specs.Writes.{WritesFirst};
ghost use Rattle.art_step.specs.Views.{last_counter};

use art_change::WriteOutcome;
use art_key::Key;
use art_look::Outcome as Got;
use art_runs::art_change::Caller;
use art_step::Sizes;
use art_world::World;
use std::alloc::Global;
use std::process::Abort;

/// More turns than any call needs.
const TURNS: u32 = 1_000_000;

/// A world, and what its first pass keeps beside it.
#[derive(Drop)]
pub(crate) struct Client {
    pub(crate) world: World,
    pub(crate) caller: Caller,
}

/// A world whose counters begin there, and what its first pass keeps.
pub(crate) fn opened(rt: &impl Abort, alloc: Global, sizes: &Sizes, counter_start: u64) -> Client
    requires counter { counter_start ≤ last_counter }
    requires some { 0 < sizes.now.passes }
    requires few { sizes.now.passes ≤ 32 }
    ensures { WritesFirst result.world result.caller }
{
    let world = World::open(alloc, sizes, counter_start).expect(rt, "room for a world");
    let caller = Caller::new(0, sizes);
    Client { world, caller }
}

/// How an insert of the row ends.
fn puts(client: &mut Client, key: &Key, value: u64) -> WriteOutcome
    requires { WritesFirst client.old.world client.old.caller }
    ensures { WritesFirst client.new.world client.new.caller }
{
    let mut stepper = client.world.at(0);
    client.caller.insert(&mut stepper, key, value, TURNS)
}

/// How a removal of the key ends.
fn takes(client: &mut Client, key: &Key) -> WriteOutcome
    requires { WritesFirst client.old.world client.old.caller }
    ensures { WritesFirst client.new.world client.new.caller }
{
    let mut stepper = client.world.at(0);
    client.caller.remove(&mut stepper, key, TURNS)
}

/// How a get of the key ends.
fn finds(client: &mut Client, key: &Key) -> Got
    requires { WritesFirst client.old.world client.old.caller }
    ensures { WritesFirst client.new.world client.new.caller }
{
    let mut stepper = client.world.at(0);
    client.caller.get(&mut stepper, key, TURNS)
}

/// An insert of the row ends so.
pub(crate) fn check_put(
    rt: &impl Abort,
    client: &mut Client,
    key: &Key,
    value: u64,
    wanted: WriteOutcome,
)
    requires { WritesFirst client.old.world client.old.caller }
    ensures { WritesFirst client.new.world client.new.caller }
{
    assert_eq!(rt; puts(client, key, value), wanted);
}

/// A removal of the key ends so.
pub(crate) fn check_take(rt: &impl Abort, client: &mut Client, key: &Key, wanted: WriteOutcome)
    requires { WritesFirst client.old.world client.old.caller }
    ensures { WritesFirst client.new.world client.new.caller }
{
    assert_eq!(rt; takes(client, key), wanted);
}

/// A get of the key ends so.
pub(crate) fn check_find(rt: &impl Abort, client: &mut Client, key: &Key, wanted: Got)
    requires { WritesFirst client.old.world client.old.caller }
    ensures { WritesFirst client.new.world client.new.caller }
{
    assert_eq!(rt; finds(client, key), wanted);
}
