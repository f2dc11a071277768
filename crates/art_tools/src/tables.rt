//! A table with a pass for each thread, from its opening to its close.
ghost use Rattle.std.specs.Prelude.{◌≡◌, IfErr, IfOk};
ghost use Rattle.art_server.specs.ArtTable.Closing.{IsClosed};
ghost use Rattle.art_server.specs.ArtTable.Tables.{AreOf};
ghost use Rattle.art_server.specs.ArtTable.Opening.{IsOpened};
ghost use Rattle.art_server.specs.ArtTable.Sizes.{IsConfig};
ghost use Rattle.art_tools.specs.Tables.{NotClosed, of_passes};
ghost use Rattle.art_tools.specs.declared.run_faults.RunFault.TheVariants.{NoMemory};

use crate::run_faults::RunFault;
use art_key::Schema;
use art_server::art_table::{Closed, Config, Pass, Table, close, open};
use std::alloc::Global;

/// A table with no row, of these sizes, and as many passes.
pub(crate) fn open_table(
    alloc: Global,
    schema: Schema,
    sizes: Config,
    passes: u32,
) -> Result<(Table, Vec<Pass>), RunFault>
    requires { IsConfig (of_passes passes sizes) }
    ensures opened { IfOk result (λ r. IsOpened schema (of_passes passes sizes) r.0 r.1.items) }
    ensures memory { IfErr result (λ fault. fault ≡ NoMemory) }
{
    Ok(open(alloc, schema, Config { passes, ..sizes })?)
}

/// What the table held.
pub(crate) fn close_table(
    alloc: Global,
    table: Table,
    passes: Vec<Pass>,
) -> Result<Closed, RunFault>
    requires { AreOf table passes.items }
    ensures closed { IfOk result (IsClosed table passes.items) }
    ensures why { IfErr result (NotClosed table passes.items) }
{
    match close(alloc, table, passes) {
        Ok(closed) => Ok(closed),
        Err(fault) => Err(RunFault::from(fault.why)),
    }
}
