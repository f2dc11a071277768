//! A pass: the right to make its steps, and what it knows.
ghost use Rattle.std.specs.Prelude.{◌≡◌, ◌<◌, true, length};
ghost use Rattle.art_shared.specs.Passes.{all_placed, has_numbers, view_in};

use crate::law::Known;
use atomic_table::Seat;

/// One pass at a table, for one thread at a time. What it knows exists in proofs alone, so that it has no bytes but its number.
#[derive(Drop)]
pub struct Pass {
    pub(crate) seat: Seat<(), Known>,
    pub(crate) number: u32,
    ghost one: { length seat.me.0.views ≡ 1 },
    ghost empty: { length seat.me.1 ≡ 0 },
    ghost own: { number ≡ (view_in seat.me.0).pass },
    ghost inside: { number < seat.me.0.basis.sizes.passes },
    ghost placed: { all_placed seat.me.0.basis.sizes (view_in seat.me.0).stamps ≡ true },
    ghost numbers: { has_numbers seat.me.0.basis.sizes (view_in seat.me.0) ≡ true },
}
