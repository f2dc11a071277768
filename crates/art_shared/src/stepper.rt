//! A pass, lent to the table.
ghost use Rattle.std.specs.Prelude.{◌≡◌};
ghost use Rattle.std.specs.Coded.{Coded-set};
ghost use Rattle.atomic_table.specs.Seated.{table_id_coded};

use crate::pass::Pass;
use crate::shared::Shared;

/// A pass, lent to its table, at which it makes its steps.
#[derive(Drop)]
pub struct Stepper<'a> {
    pub(crate) shared: &'a Shared,
    pub(crate) pass: &'a mut Pass,
    ghost same: { pass.now.seat.table_id ≡ shared.now.table.shared.table_id } by { Coded-set table_id_coded _ _ },
    ghost basis: { pass.now.seat.me.0.basis ≡ shared.now.basis },
}
