//! The commands of a load.
ghost use Rattle.std.specs.Prelude.{◌≡◌, ◌<◌};
ghost use Rattle.art_load.specs.Commands.{load_command};

use art_model::{Command, Tuple, Value};

/// What the threads of a load are to do: so many operations each, on keys below `keys` that are drawn from the seed on.
#[derive(Clone, Copy)]
pub(crate) struct Plan {
    pub(crate) ops: u32,
    pub(crate) seed: u64,
    pub(crate) keys: u64,
}

/// The command of a thread at a step, both counted from 0.
pub(crate) fn load_command(plan: Plan, thread: u64, step: u64) -> Command
    requires { 0 < plan.keys }
    ensures { result ≡ load_command plan.seed plan.keys thread step }
{
    let drawn = plan
        .seed
        .wrapping_add(13u64.wrapping_mul(thread))
        .wrapping_add(7u64.wrapping_mul(step));
    let key = drawn % plan.keys;
    let mut tuple = Tuple::new();
    tuple.push(Value::Int(i128::from(key)));
    match step / 3 % 4 {
        0 | 1 => Command::Insert(tuple, key),
        2 => Command::Remove(tuple),
        _ => Command::Get(tuple),
    }
}
