//! A handle, and its calls.
ghost use Rattle.std.specs.Prelude.{◌≡◌};
ghost use Rattle.art_handle.specs.Handles.{IsOfItsTable, pass_of, table_of};
ghost use Rattle.art_scan.specs.ArtTable.Calls.{Ends};
ghost use Rattle.art_scan.specs.ArtTable.Jobs.{of_got, of_inserted, of_removed, with_result};
ghost use Rattle.art_scan.specs.ArtTable.Tables.{schema_in};
ghost use Rattle.art_scan.specs.ArtTable.declared.jobs.Job.TheVariants as jobs;
ghost use Rattle.art_scan.specs.Scans.{Scans};

use arrayvec::ArrayVec;
use art_key::Schema;
use art_model::{Row, Tuple};
use art_scan::art_table::{Fault, Inserted, Pass, Table};
use art_scan::{More, ScanFault, art_table};
use std::alloc::Global;
use std::sync::Arc;

/// A pass, and its share of the table: the right to call the table, one call at a time.
#[derive(Drop)]
pub struct Handle {
    pub(crate) table: Arc<Table, Global>,
    pub(crate) pass: Pass,
}

impl Handle {
    /// What the tuples of the table are.
    pub fn schema(&self) -> &Schema
        ensures { result.now ≡ schema_in (table_of self.now) }
    {
        self.table.schema()
    }

    /// Adds a row, unless one with the tuple stands, which keeps its value.
    pub fn insert(&mut self, tuple: &Tuple, value: u64, turns: u32) -> Result<Inserted, Fault>
        requires { IsOfItsTable self.old }
        ensures own { IsOfItsTable self.new }
        ensures table { table_of self.new ≡ table_of self.old }
        ensures ends { Ends (table_of self.old) (jobs.Insert tuple.now value) turns
            (pass_of self.old) (with_result of_inserted result) (pass_of self.new) }
    {
        art_table::insert(&self.table, &mut self.pass, tuple, value, turns)
    }

    /// Takes the row with the tuple out, if one stands, and answers its value.
    pub fn remove(&mut self, tuple: &Tuple, turns: u32) -> Result<Option<u64>, Fault>
        requires { IsOfItsTable self.old }
        ensures own { IsOfItsTable self.new }
        ensures table { table_of self.new ≡ table_of self.old }
        ensures ends { Ends (table_of self.old) (jobs.Remove tuple.now) turns
            (pass_of self.old) (with_result of_removed result) (pass_of self.new) }
    {
        art_table::remove(&self.table, &mut self.pass, tuple, turns)
    }

    /// The value of the row with the tuple, if one stands.
    pub fn get(&mut self, tuple: &Tuple, turns: u32) -> Result<Option<u64>, Fault>
        requires { IsOfItsTable self.old }
        ensures own { IsOfItsTable self.new }
        ensures table { table_of self.new ≡ table_of self.old }
        ensures ends { Ends (table_of self.old) (jobs.Get tuple.now) turns
            (pass_of self.old) (with_result of_got result) (pass_of self.new) }
    {
        art_table::get(&self.table, &mut self.pass, tuple, turns)
    }

    /// Lists the rows from the tuple `lo` to the tuple `hi`, both included, in order: at most so many, 1 to 100. `out` has just those rows
    /// then, whatever it had, and none after a refusal.
    pub fn scan(
        &mut self,
        lo: &Tuple,
        hi: &Tuple,
        limit: u64,
        turns: u32,
        out: &mut ArrayVec<Row, 100>,
    ) -> Result<More, ScanFault>
        requires { IsOfItsTable self.old }
        ensures own { IsOfItsTable self.new }
        ensures table { table_of self.new ≡ table_of self.old }
        ensures scans { Scans (table_of self.old) lo.now hi.now limit turns (pass_of self.old) out.new.items result (pass_of self.new) }
    {
        art_scan::scan(&self.table, &mut self.pass, lo, hi, limit, turns, out)
    }
}
