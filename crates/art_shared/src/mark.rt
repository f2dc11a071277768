//! A mark: what a pass had seen, for another to learn.
ghost use Rattle.std.specs.Prelude.{◌≡◌, length};

use crate::law::Known;
use atomic_table::Seat;

/// What a pass had seen, in a seat of its own. It exists in proofs alone, so that it has no bytes.
#[derive(Drop)]
pub struct Mark {
    pub(crate) seat: Seat<(), Known>,
    ghost none: { length seat.me.0.views ≡ 0 },
    ghost one: { length seat.me.0.told ≡ 1 },
    ghost empty: { length seat.me.1 ≡ 0 },
}
