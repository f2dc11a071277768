//! A schedule over a table of its own.
ghost use Rattle.std.specs.Prelude.{◌≡◌, ◌⊎◌, ◌↔◌, List, Err, IsErr, IsOk, IfErr, IfOk, OnOk};
ghost use Rattle.std.specs.Io.KnownBytes.{IsAtEnd};
ghost use Rattle.std.specs.Option.{option_or};
ghost use Rattle.art_key.specs.declared.faults.SchemaFault.{SchemaFault};
ghost use Rattle.art_key.specs.Schemas.{schema_of};
ghost use Rattle.art_schedule.specs.Schedules.{ComeBack};
ghost use Rattle.art_server.specs.Counted.{reader_of, reads_of};
ghost use Rattle.art_server.specs.Reads.{AddsReads, MakesReads};
ghost use Rattle.art_server.specs.ArtRefusal.Refusals.{schema_refusal};
ghost use Rattle.art_server.specs.ArtRefusal.declared.refusals.Refusal.{Refusal};
ghost use Rattle.art_server.specs.declared.sessions.EndCause.TheVariants as ends;
ghost use Rattle.art_server.specs.ArtTable.Closing.{IsClosed};
ghost use Rattle.art_server.specs.ArtTable.Opening.{IsOpened};
ghost use Rattle.art_server.specs.ArtTable.Sizes.{IsConfig};
ghost use Rattle.art_server.specs.ArtTable.Tables.{sizes_in};
ghost use Rattle.art_server.specs.ArtTable.declared.closing.Closed.{Closed as ClosedOf};
ghost use Rattle.art_server.specs.ArtTable.declared.passes.Pass.{Pass as PassOf};
ghost use Rattle.art_tools.specs.Schedules.{AreEight, Steps, of_eight_passes};
ghost use Rattle.art_tools.specs.Statuses.{fault_in, schedule_fault};

use crate::run_faults::RunFault;
use art_key::Schema;
use art_schedule::{ScheduleEnd, run_schedule};
use art_server::Counted;
use art_server::art_table::{Config, OpenFault, Pass, Table, close, open};
use std::alloc::Global;
use std::io::{Read, Write};

/// A schedule over an empty table of these sizes, with eight passes, from the reader to the writer. A schema that is none is told before
/// a size out of its range.
pub fn step<R: Read, W: Write>(
    alloc: Global,
    schema: &str,
    sizes: Config,
    reader: &mut Counted<R>,
    writer: &mut W,
) -> Result<(), RunFault>
    ensures steps { Steps (schema_of schema.now) sizes (R.remaining (reader_of reader.old)) (R.remaining (reader_of reader.new))
        (W.contents writer.old) (W.contents writer.new) (fault_in result) }
    ensures ended { OnOk result (IsAtEnd (R.remaining (reader_of reader.new))) }
    ensures schema { (fault : SchemaFault) → schema_of schema.now ≡ Err fault
        → result ≡ Err (RunFault.Refused (schema_refusal fault)) }
    ensures range { IsOk (schema_of schema.now) → (¬ (IsConfig (of_eight_passes sizes)))
        → result ≡ Err (RunFault.Refused Refusal.BadConfig) }
    ensures refused { (refusal : Refusal) → result ≡ Err (RunFault.Refused refusal)
        → IsErr (schema_of schema.now) ⊎ (¬ (IsConfig (of_eight_passes sizes))) }
    ensures reads { AddsReads (reads_of reader.old) (reads_of reader.new) }
    ensures failed { result ≡ Err RunFault.ReadFailed
        → MakesReads (reads_of reader.old) (reads_of reader.new) ends.ReadFault }
    ensures used { result ≡ Err RunFault.ReadsUsed
        → MakesReads (reads_of reader.old) (reads_of reader.new) ends.ReadsUsed }
{
    let schema = Schema::parse(schema)?;
    let (table, passes) = table_of_eight(alloc, schema, sizes)?;
    let (passes, end) = run_schedule(alloc, &table, passes, reader, writer);
    let closed = close_all(alloc, table, passes);
    outcome(end, closed)
}

/// A table with no row, and its eight passes.
fn table_of_eight(
    alloc: Global,
    schema: Schema,
    sizes: Config,
) -> Result<(Table, [Pass; 8]), OpenFault>
    ensures opened { IfOk result (λ opened. IsOpened schema (of_eight_passes sizes) opened.0 opened.1) }
    ensures passes { IfOk result (λ opened. AreEight opened.0 opened.1) }
    ensures valid { OnOk result (IsConfig (of_eight_passes sizes)) }
    ensures config { IfErr result (λ fault. (fault ≡ OpenFault.BadConfig) ↔ (¬ (IsConfig (of_eight_passes sizes)))) }
{
    let (table, passes) = open(alloc, schema, Config { passes: 8, ..sizes })?;
    let Ok(passes) = <[Pass; 8]>::try_from(passes) else {
        unreachable!();
    };
    Ok((table, passes))
}

/// Closes the table with its eight passes, as they come back from a schedule: none is missing.
fn close_all(alloc: Global, table: Table, passes: [Pass; 8]) -> Result<(), RunFault>
    requires passes { (opened : List PassOf) × AreEight table opened × ComeBack table opened passes }
    requires eight { (sizes_in table).passes ≡ 8 }
    ensures closed { OnOk result ((closed : ClosedOf) × IsClosed table passes closed) }
    ensures memory { IfErr result (λ fault. fault ≡ RunFault.NoMemory) }
{
    let passes = Vec::from_array(alloc, passes)?;
    match close(alloc, table, passes) {
        Ok(_) => Ok(()),
        Err(fault) => Err(RunFault::from(fault.why)),
    }
}

/// What a schedule's end and the closing of its table mean. The schedule's fault is told before that of closing.
fn outcome(end: ScheduleEnd, closed: Result<(), RunFault>) -> Result<(), RunFault>
    ensures { fault_in result ≡ option_or (schedule_fault end) (fault_in closed) }
{
    check_end(end)?;
    closed
}

/// What the end of a schedule means.
fn check_end(end: ScheduleEnd) -> Result<(), RunFault>
    ensures { fault_in result ≡ schedule_fault end }
{
    match end {
        ScheduleEnd::Ended => Ok(()),
        ScheduleEnd::BadLine(line) => Err(RunFault::BadLine(line)),
        ScheduleEnd::ReadFault => Err(RunFault::ReadFailed),
        ScheduleEnd::WriteFault => Err(RunFault::WriteFailed),
        ScheduleEnd::NoMemory => Err(RunFault::NoMemory),
        ScheduleEnd::ReadsUsed => Err(RunFault::ReadsUsed),
    }
}
