//! Opening a table as its handles.
ghost use Rattle.std.specs.Prelude.{◌≡◌, ◌↔◌, IfErr, IfOk, OnOk, map};
ghost use Rattle.std.specs.List.{All};
ghost use Rattle.art_handle.specs.Handles.{AreOpened, IsOfItsTable, pass_of, table_of};
ghost use Rattle.art_scan.specs.ArtTable.Sizes.{IsConfig};
ghost use Rattle.art_scan.specs.ArtTable.Tables.{IsPassOf};

use crate::Handle;
use art_key::Schema;
use art_model::NoMemory;
use art_scan::art_table;
use art_scan::art_table::{Config, OpenFault, Pass, Table};
use std::alloc::Global;
use std::sync::Arc;

/// An empty table under the schema, as its handles, in the order of their passes, which are numbered from 0. Room for all that their calls
/// need is reserved here.
pub fn open(alloc: Global, schema: Schema, config: Config) -> Result<Vec<Handle>, OpenFault>
    ensures opened { IfOk result (λ handles. AreOpened schema config handles.items) }
    ensures own { IfOk result (λ handles. All IsOfItsTable handles.items) }
    ensures valid { OnOk result (IsConfig config) }
    ensures config { IfErr result (λ f. (f ≡ OpenFault.BadConfig) ↔ (¬ (IsConfig config))) }
{
    let (table, passes) = art_table::open(alloc, schema, config)?;
    Ok(shared(alloc, table, passes)?)
}

/// The passes, each with a share of the table.
fn shared(alloc: Global, table: Table, passes: Vec<Pass>) -> Result<Vec<Handle>, NoMemory>
    requires { All (IsPassOf table) passes.items }
    ensures own { IfOk result (λ handles. All IsOfItsTable handles.items) }
    ensures passes { IfOk result (λ handles. map pass_of handles.items ≡ passes.items) }
    ensures table { IfOk result (λ handles. All (λ h. table_of h ≡ table) handles.items) }
{
    let table = Arc::new(alloc, table)?;
    let mut handles = Vec::with_capacity(alloc, passes.len())?;
    for pass in passes {
        let table = Arc::try_clone(&table)?;
        handles.push(Handle { table, pass })?;
    }
    Ok(handles)
}
