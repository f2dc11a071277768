//! The table, and how it is opened.
ghost use Rattle.std.specs.Prelude.{◌≡◌, ◌↔◌, ℕ, ◌<◌, IfErr, IfOk, OnOk, Some, length, []};
ghost use Rattle.std.specs.List.{slice_get};
ghost use Rattle.art_table.specs.Opening.{IsOpened, sizes_of};
ghost use Rattle.art_table.specs.Sizes.{IsConfig};
ghost use Rattle.art_table.specs.Tables.{AreOf, schema_in};

use crate::{Config, OpenFault, Pass};
use art_change::Caller;
use art_key::Schema;
use art_model::NoMemory;
use art_shared::Shared;
use art_step::Sizes;
use std::alloc::Global;

/// Rows under a schema, in words that threads share.
#[derive(Drop)]
pub struct Table {
    pub(crate) shared: Shared,
}

impl Table {
    /// What its tuples are.
    pub fn schema(&self) -> &Schema
        ensures { result.now ≡ schema_in self.now }
    {
        self.shared.schema()
    }
}

/// An empty table under the schema, and its passes, numbered from 0. Room for all that their calls need is reserved here.
pub fn open(alloc: Global, schema: Schema, config: Config) -> Result<(Table, Vec<Pass>), OpenFault>
    ensures opened { IfOk result (λ r. IsOpened schema config r.0 r.1.items) }
    ensures passes { IfOk result (λ r. AreOf r.0 r.1.items) }
    ensures valid { OnOk result (IsConfig config) }
    ensures config { IfErr result (λ f. (f ≡ OpenFault.BadConfig) ↔ (¬ (IsConfig config))) }
{
    if !config.is_valid() {
        return Err(OpenFault::BadConfig);
    }
    Ok(opened(alloc, schema, &config)?)
}

/// A table of these sizes, and its passes.
fn opened(alloc: Global, schema: Schema, config: &Config) -> Result<(Table, Vec<Pass>), NoMemory>
    requires { IsConfig config.now }
    ensures { IfOk result (λ r. IsOpened schema config.now r.0 r.1.items) }
{
    let sizes = sizes_of(config);
    let (shared, seats) = Shared::open(alloc, schema, &sizes, config.counter_start)?;
    let mut seats = seats;
    let mut passes = Vec::with_capacity(alloc, seats.len())?;
    while let Some(seat) = seats.pop() {
        let caller = Box::new(alloc, Caller::new(seat.number(), &sizes))?;
        passes.insert(0, Pass { seat, caller })?;
    }
    Ok((Table { shared }, passes))
}

/// How many numbers each pool has, and how many passes there are.
fn sizes_of(config: &Config) -> Sizes
    ensures { result ≡ sizes_of config.now }
{
    Sizes {
        leaves: config.leaves,
        n4: config.n4,
        n16: config.n16,
        n48: config.n48,
        n256: config.n256,
        passes: config.passes,
    }
}
