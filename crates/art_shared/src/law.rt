//! The rule of the table.
use art_key::Schema;
use art_step::{Event, Sizes, View};
use atomic_table::TableRule;
use std::collections::LinkedList;

/// What a table is opened with: how many cells there are, the schema that spells all keys, and the counter at which the anchor's
/// version word begins.
#[derive(Drop)]
pub struct Basis {
    pub sizes: Sizes,
    pub schema: Schema,
    pub counter_start: u64,
}

/// What a seat of the table knows: the table's basis, the views of its passes, and histories that it was told. No value of it is
/// made.
pub struct Known {
    pub basis: Basis,
    pub views: LinkedList<View>,
    pub told: LinkedList<LinkedList<Event>>,
}

/// What holds of the table between any two steps. At opening one seat has all passes.
pub struct Law;

impl TableRule<(), Known, Basis> for Law {
    ghost use Rattle.art_shared.specs.Passes.{newcomers_known};
    ghost use Rattle.art_shared.specs.Rule.{Kept};

    ghost holds = { λ b s. Kept b s };

    ghost first = { λ b. newcomers_known b };
}
