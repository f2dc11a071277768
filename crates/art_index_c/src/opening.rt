//! Opening a table.
ghost use Rattle.std.specs.Prelude.{◌≡◌, ◌↔◌, IfErr, IfNone, IfOk, IfSome, OnOk, Some, length, map};
ghost use Rattle.std.specs.List.{All};
ghost use Rattle.art_handle.specs.ArtTable.Sizes.{IsConfig};
ghost use Rattle.art_handle.specs.Handles.{AreOpened, IsOfItsTable};
ghost use Rattle.art_index_c.specs.Opening.{Opens, config_of, schema_named};

use crate::opaque::OpaquePass;
use crate::statuses::{DONE, of_open, of_schema};
use art_handle::Handle;
use art_handle::art_scan::art_table::{Config, OpenFault};
use art_key::{Schema, SchemaFault};
use art_model::NoMemory;
use std::alloc::Global;

/// The sizes of a table: how many numbers each pool has, and where version counters start.
#[repr(C)]
#[derive(Clone, Copy, Debug, PartialEq, Drop)]
pub struct Sizes {
    pub leaves: u32,
    pub n4: u32,
    pub n16: u32,
    pub n48: u32,
    pub n256: u32,
    pub counter_start: u64,
}

impl Sizes {
    /// These sizes with so many passes, unless these are more than any number of them may be.
    fn with_passes(&self, count: usize) -> Option<Config>
        ensures some { IfSome result (λ config. config ≡ config_of self.now count) }
        ensures none { IfNone result (¬ (IsConfig (config_of self.now count))) }
    {
        let passes = u32::try_from(count).ok()?;
        Some(Config {
            leaves: self.leaves,
            n4: self.n4,
            n16: self.n16,
            n48: self.n48,
            n256: self.n256,
            passes,
            counter_start: self.counter_start,
        })
    }
}

/// Opens a table, fills the opaque passes, and answers a status.
pub(crate) fn open(alloc: Global, schema: &[u8], sizes: &Sizes, passes: &mut [OpaquePass]) -> u32
    ensures { Opens (schema_named schema.now) (config_of sizes.now (length passes.old)) passes.old result passes.new }
{
    let schema = match schema_named(schema) {
        Ok(schema) => schema,
        Err(fault) => return of_schema(fault),
    };
    let Some(config) = sizes.with_passes(passes.len()) else {
        return of_open(OpenFault::BadConfig);
    };
    match open_boxed(alloc, schema, config) {
        Ok(handles) => {
            fill(passes, handles);
            DONE
        }
        Err(fault) => of_open(fault),
    }
}

/// The schema that the bytes name.
fn schema_named(bytes: &[u8]) -> Result<Schema, SchemaFault>
    ensures { result ≡ schema_named bytes.now }
{
    match str::from_utf8(bytes) {
        Ok(text) => Schema::parse(text),
        Err(_) => Err(SchemaFault::BadColumn(0)),
    }
}

/// The handles of a new table, each in a box.
fn open_boxed(
    alloc: Global,
    schema: Schema,
    config: Config,
) -> Result<Vec<Box<Handle, Global>>, OpenFault>
    ensures opened { IfOk result (λ boxes. AreOpened schema config (map (λ b. b.value) boxes.items)) }
    ensures own { IfOk result (λ boxes. All IsOfItsTable (map (λ b. b.value) boxes.items)) }
    ensures valid { OnOk result (IsConfig config) }
    ensures config { IfErr result (λ f. (f ≡ OpenFault.BadConfig) ↔ (¬ (IsConfig config))) }
{
    let handles = art_handle::open(alloc, schema, config)?;
    Ok(boxed(alloc, handles)?)
}

/// Each handle in a box.
fn boxed(alloc: Global, handles: Vec<Handle>) -> Result<Vec<Box<Handle, Global>>, NoMemory>
    ensures { IfOk result (λ boxes. map (λ b. b.value) boxes.items ≡ handles.items) }
{
    let mut boxes = Vec::with_capacity(alloc, handles.len())?;
    for handle in handles {
        boxes.push(Box::new(alloc, sent(handle))?)?;
    }
    Ok(boxes)
}

/// Puts one handle into each opaque pass, in order.
fn fill(passes: &mut [OpaquePass], handles: Vec<Box<Handle, Global>>)
    requires own { All IsOfItsTable (map (λ b. b.value) handles.items) }
    requires one_each { length handles.items ≡ length passes.old }
    ensures { map (λ p. p.held) passes.new ≡ map Some (map (λ b. b.value) handles.items) }
{
    let mut place = 0;
    for handle in handles {
        passes[place] = OpaquePass::of(handle);
        place += 1;
    }
}

/// What may go to any thread, as what holds it does.
fn sent<T: Send>(x: T) -> T
    ensures { result ≡ x }
{
    x
}
