//! Looks over a table see one row after another, and tile their range.
ghost use Rattle.art_shared_uses.specs.Clients.{Writes};

use crate::clients::{caller_of, check_put, key_of, last_of, opened};
use art_change::{Caller, WriteOutcome};
use art_key::{Bound, Key};
use art_look::{Reached, Seen};
use art_shared::{Pass, Shared};
use art_step::Sizes;
use std::process::Abort;

const TWO_PASSES: Sizes = Sizes {
    leaves: 4,
    n4: 1,
    n16: 1,
    n48: 1,
    n256: 1,
    passes: 2,
};

/// Turns enough for a look.
const TURNS: u32 = 1_000;

/// What a look from the key on sees.
fn sees(shared: &Shared, pass: &mut Pass, caller: &mut Caller, lo: &Key) -> Option<Seen>
    requires { Writes shared.now pass.old caller.old }
    ensures { Writes shared.now pass.new caller.new }
{
    let mut stepper = shared.at(pass);
    let reached = caller.look(&mut stepper, lo, &Bound::End, TURNS);
    seen_by(caller, lo, reached)
}

/// What a look from the key on has seen that reached so far.
fn seen_by(caller: &Caller, lo: &Key, reached: Option<Reached>) -> Option<Seen> {
    let reached = reached?;
    let row = caller.row_seen(reached, lo, &Bound::End);
    Some(Seen {
        lo: copied(lo.as_slice()),
        hi: caller.end_seen(reached, &Bound::End),
        row: row.map(|(key, value)| (copied(key), value)),
    })
}

/// The bytes as a key.
fn copied(bytes: &[u8]) -> Key {
    Key::try_from(bytes).unwrap_or_default()
}

/// A look from the key of the number on sees all up to the bound, with this row.
fn check_look(
    rt: &impl Abort,
    shared: &Shared,
    pass: &mut Pass,
    caller: &mut Caller,
    from: u16,
    hi: Bound,
    row: Option<(Key, u64)>,
)
    requires { Writes shared.now pass.old caller.old }
    ensures { Writes shared.now pass.new caller.new }
{
    let lo = key_of(rt, shared, from);
    let wanted = Seen { lo, hi, row };
    assert_eq!(rt; sees(shared, pass, caller, &wanted.lo), Some(wanted));
}

#[test]
fn looks_tile_a_range(rt: HostRuntime) {
    let (shared, mut passes) = opened(&rt, rt.alloc(), "u8", &TWO_PASSES, 0);
    let mut other = last_of(&rt, &shared, &mut passes);
    let mut pass = last_of(&rt, &shared, &mut passes);
    let mut writer = caller_of(&rt, &shared, &pass);
    check_put(
        &rt,
        &shared,
        &mut pass,
        &mut writer,
        1,
        1,
        WriteOutcome::New,
    );
    check_put(
        &rt,
        &shared,
        &mut pass,
        &mut writer,
        5,
        5,
        WriteOutcome::New,
    );
    let mut looker = caller_of(&rt, &shared, &other);
    let (one, two) = (key_of(&rt, &shared, 1), key_of(&rt, &shared, 2));
    check_look(
        &rt,
        &shared,
        &mut other,
        &mut looker,
        0,
        Bound::At(two),
        Some((one, 1)),
    );
    let (five, six) = (key_of(&rt, &shared, 5), key_of(&rt, &shared, 6));
    check_look(
        &rt,
        &shared,
        &mut other,
        &mut looker,
        2,
        Bound::At(six),
        Some((five, 5)),
    );
    check_look(&rt, &shared, &mut other, &mut looker, 6, Bound::End, None);
}
