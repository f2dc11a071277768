//! A table that opens.
ghost use Rattle.std.specs.Prelude.{◌≡◌, ◌≤◌, IfOk};
ghost use Rattle.art_shared.specs.Opening.{OpensWith};
ghost use Rattle.art_step.specs.Views.{last_counter};

use crate::first_places::{first_free_words, first_nodes};
use crate::law::{Basis, Known, Law};
use crate::pass::Pass;
use crate::shared::Shared;
use art_key::Schema;
use art_model::NoMemory;
use art_step::{Sizes, opening_words};
use atomic_table::{Split, Table};
use std::alloc::Global;

/// The first of a seat's passes gets a seat of its own.
pub(crate) struct Cut;

impl Split<Known> for Cut {
    ghost use Rattle.art_shared.specs.Passes.{first_alone, without_first};

    ghost left = { λ k. without_first k };

    ghost right = { λ k. first_alone k };
}

impl Shared {
    /// A table for these cells, with keys of the schema, and its passes in the order of their numbers. The anchor names no root,
    /// its counter begins at `counter_start`, all numbers are free, and each pass is idle and knows nothing. The counter of a node
    /// begins at 0 whenever its number is claimed.
    pub fn open(
        alloc: Global,
        schema: Schema,
        sizes: &Sizes,
        counter_start: u64,
    ) -> Result<(Shared, Vec<Pass>), NoMemory>
        requires { counter_start ≤ last_counter }
        ensures { IfOk result (λ r. OpensWith (record { sizes = sizes.now; schema = schema; counter_start = counter_start })
            r.0 r.1.items) }
    {
        let sizes = *sizes;
        let words = opening_words(alloc, sizes, counter_start)?;
        let basis = Basis {
            sizes,
            schema,
            counter_start,
        };
        let (table, mut rest) = Table::<(), Known, Basis, Law, Global>::of_words(
            alloc,
            words.as_slice(),
            &basis,
        )?;
        let mut passes = Vec::new(alloc);
        for number in 0..sizes.passes {
            let seat = table.shared.split_seat::<Cut>(&mut rest);
            passes.push(Pass { seat, number })?;
        }
        let shared = Shared {
            table,
            basis,
            first_nodes: first_nodes(sizes),
            first_free_words: first_free_words(sizes),
            epoch_at: sizes.epoch_place(),
        };
        Ok((shared, passes))
    }
}
