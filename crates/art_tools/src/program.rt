//! The program over a reader, a writer and a writer for faults.
ghost use Rattle.std.specs.Prelude.{◌≡◌, ◌≢◌, ◌⊎◌, ◌↔◌, ◌≤◌, ℕ, [], ◌∷◌, Option, Ok, Err, IsErr, IsOk, IfErr, IfOk, OnOk};
ghost use Rattle.std.specs.Io.KnownBytes.{IsAtEnd};
ghost use Rattle.std.specs.Option.{option_or};
ghost use Rattle.clap.specs.Values.{kind_of};
ghost use Rattle.clap.specs.declared.error.kind.ErrorKind.TheVariants.{DisplayHelp, DisplayVersion};
ghost use Rattle.art_key.specs.declared.faults.SchemaFault.{SchemaFault};
ghost use Rattle.art_key.specs.Schemas.{schema_of};
ghost use Rattle.art_server.specs.ArtTable.Closing.{IsClosed};
ghost use Rattle.art_server.specs.ArtTable.Opening.{IsOpened};
ghost use Rattle.art_server.specs.ArtTable.Sizes.{IsConfig};
ghost use Rattle.art_server.specs.Counted.{reader_of, reads_of};
ghost use Rattle.art_server.specs.Reads.{AddsReads, MakesReads};
ghost use Rattle.art_server.specs.ArtRefusal.Refusals.{schema_refusal};
ghost use Rattle.art_server.specs.ArtRefusal.declared.refusals.Refusal.{Refusal};
ghost use Rattle.art_server.specs.ArtTable.Tables.{IsPassOf, number_of, seen_by, sizes_in};
ghost use Rattle.art_server.specs.ArtTable.declared.closing.Closed.{Closed as ClosedOf};
ghost use Rattle.art_tools.specs.Outputs.{Outputs, of_one_pass};
ghost use Rattle.art_tools.specs.Sessions.{Runs};
ghost use Rattle.art_tools.specs.Statuses.{fault_at, fault_in, status_after, status_told};
ghost use Rattle.art_tools.specs.Told.{AreReadsTold};
ghost use Rattle.art_tools.specs.declared.run_faults.RunFault.{RunFault as RunFaultOf};
ghost use Rattle.art_tools.specs.Settings.{faults_of, AsksFor, AsksToShow, IsInRange, asked_of, load, run as run_asked, schema_asked, serve, step as step_asked};
ghost use Rattle.art_tools.specs.Programs.{HasDone, IsReady, Performs, ReadsLines};

use crate::command_line::settings;
use crate::loads::load_table;
use crate::run_faults::RunFault;
use crate::schedules::step;
use crate::servers::serve_table;
use crate::settings::{Settings, SettingsFault};
use art_key::Schema;
use art_server::art_table::{Config, OpenFault, Pass, Table, close, open};
use art_server::{Counted, EndCause, NoGate, Refusal, session};
use std::alloc::Global;
use std::io::{self, Read, Write};
use std::net::{Net, TcpListener, TcpStream};
use std::sync::Wait;
use std::thread::Threads;

/// Does what the words ask for, and answers the status that the program ends with.
///
/// Replies, help and the version go to `writer`, and what was wrong goes to `faults`, in one line; so does where a server listens. 0: ended,
/// or help; 1: a read or a write failed; 2: the words were refused; 3: a number is out of its range, or the schema is none; 4: want of
/// memory; 5: a million reads were made, each of which gave bytes; 6: a line of a schedule is none; 7: there is no listener, or a
/// connection could not be accepted.
pub fn execute<'a, H, R: Read, W: Write, E: Write>(
    rt: &H,
    alloc: Global,
    words: &'a [&'a str],
    reader: &mut Counted<R>,
    writer: &mut W,
    faults: &mut E,
) -> u8
where
    H: Threads + Wait + Sync + Net<Listener = TcpListener, Stream = TcpStream>,
    ensures status { result ≤ 7 }
    ensures quiet { result ≡ 2 → writer.new ≡ writer.old }
    ensures mistake { faults_of words.entry.now ≢ [] → (¬ (AsksToShow words.entry.now)) → (result ≡ 2) ⊎ (result ≡ 4) }
    ensures help { faults_of words.entry.now ≡ DisplayHelp ∷ [] → result ≢ 2 }
    ensures version { faults_of words.entry.now ≡ DisplayVersion ∷ [] → result ≢ 2 }
    ensures words { result ≡ 2 → faults_of words.entry.now ≢ [] }
    ensures range { faults_of words.entry.now ≡ [] → (¬ (IsInRange words.entry.now)) → (result ≡ 3) ⊎ (result ≡ 4) }
    ensures schema { (fault : SchemaFault) → faults_of words.entry.now ≡ [] → (¬ (AsksFor words.entry.now load))
        → schema_asked words.entry.now ≡ Err fault → (result ≡ 3) ⊎ (result ≡ 4) }
    ensures refused { result ≡ 3 → (faults_of words.entry.now ≡ [])
        × ((¬ (IsInRange words.entry.now)) ⊎ IsErr (schema_asked words.entry.now)) }
    ensures ended { faults_of words.entry.now ≡ [] → ReadsLines (asked_of words.entry.now) → result ≡ 0
        → IsAtEnd (R.remaining (reader_of reader.new)) }
    ensures ran { faults_of words.entry.now ≡ [] → AsksFor words.entry.now run_asked → result ≡ 0
        → Outputs (schema_asked words.entry.now) (R.remaining (reader_of reader.old)) (W.contents writer.old) (W.contents writer.new) }
    ensures performs { faults_of words.entry.now ≡ [] → (told : Option RunFaultOf)
        × Performs (asked_of words.entry.now) words.entry.now (R.remaining (reader_of reader.old)) (R.remaining (reader_of reader.new))
        (W.contents writer.old) (W.contents writer.new) told × (result ≡ status_told told)
        × AreReadsTold told (reads_of reader.old) (reads_of reader.new) }
    ensures reads { AddsReads (reads_of reader.old) (reads_of reader.new) }
    ensures used { result ≡ 5 → MakesReads (reads_of reader.old) (reads_of reader.new) EndCause.ReadsUsed }
    ensures line { result ≡ 6 → (faults_of words.entry.now ≡ []) × AsksFor words.entry.now step_asked }
    ensures listener { result ≡ 7 → (faults_of words.entry.now ≡ []) × AsksFor words.entry.now serve }
{
    match settings(alloc, words) {
        Ok(asked) => {
            let ended = perform(rt, alloc, asked, reader, writer, faults);
            status(faults, ended)
        }
        Err(SettingsFault::Usage(error)) => tell_usage(&error, writer, faults),
        Err(SettingsFault::Range) => status(faults, Err(RunFault::Refused(Refusal::BadConfig))),
        Err(SettingsFault::NoMemory) => status(faults, Err(RunFault::NoMemory)),
    }
}

/// Does what the settings ask for. Where a server listens goes to `notes`.
fn perform<H, R: Read, W: Write, E: Write>(
    rt: &H,
    alloc: Global,
    asked: Settings<'_>,
    reader: &mut Counted<R>,
    writer: &mut W,
    notes: &mut E,
) -> Result<(), RunFault>
where
    H: Threads + Wait + Sync + Net<Listener = TcpListener, Stream = TcpStream>,
    requires { IsReady asked }
    ensures { HasDone asked.entry (R.remaining (reader_of reader.old)) (R.remaining (reader_of reader.new)) (W.contents writer.old)
        (W.contents writer.new) (reads_of reader.old) (reads_of reader.new) (fault_in result) }
{
    match asked {
        Settings::Run(table) => run(alloc, table.schema, table.sizes, reader, writer),
        Settings::Step(table) => step(alloc, table.schema, table.sizes, reader, writer),
        Settings::Load(asked) => load_table(rt, alloc, asked, writer),
        Settings::Serve(asked) => serve_table(rt, alloc, asked, writer, notes),
    }
}

/// One session over an empty table of these sizes, with one pass, from the reader to the writer. A schema that is none is told before a
/// size out of its range.
pub fn run<R: Read, W: Write>(
    alloc: Global,
    schema: &str,
    sizes: Config,
    reader: &mut Counted<R>,
    writer: &mut W,
) -> Result<(), RunFault>
    ensures output { OnOk result (Outputs (schema_of schema.now) (R.remaining (reader_of reader.old))
        (W.contents writer.old) (W.contents writer.new)) }
    ensures runs { Runs (schema_of schema.now) sizes (R.remaining (reader_of reader.old)) (R.remaining (reader_of reader.new))
        (W.contents writer.old) (W.contents writer.new) (fault_in result) }
    ensures ended { OnOk result (IsAtEnd (R.remaining (reader_of reader.new))) }
    ensures schema { (fault : SchemaFault) → schema_of schema.now ≡ Err fault
        → result ≡ Err (RunFault.Refused (schema_refusal fault)) }
    ensures range { IsOk (schema_of schema.now) → (¬ (IsConfig (of_one_pass sizes)))
        → result ≡ Err (RunFault.Refused Refusal.BadConfig) }
    ensures refused { (refusal : Refusal) → result ≡ Err (RunFault.Refused refusal)
        → IsErr (schema_of schema.now) ⊎ (¬ (IsConfig (of_one_pass sizes))) }
    ensures reads { AddsReads (reads_of reader.old) (reads_of reader.new) }
    ensures failed { result ≡ Err RunFault.ReadFailed
        → MakesReads (reads_of reader.old) (reads_of reader.new) EndCause.ReadFault }
    ensures used { result ≡ Err RunFault.ReadsUsed
        → MakesReads (reads_of reader.old) (reads_of reader.new) EndCause.ReadsUsed }
    ensures lines { (line : ℕ) → result ≢ Err (RunFault.BadLine line) }
{
    let schema = Schema::parse(schema)?;
    let (table, passes, pass) = empty_table(alloc, schema, sizes)?;
    let (pass, end) = session(alloc, &table, pass, reader, writer, &NoGate);
    let closed = give_back(alloc, table, passes, pass);
    outcome(end.why, closed)
}

/// A table with no row, room for its pass, and the pass.
fn empty_table(
    alloc: Global,
    schema: Schema,
    sizes: Config,
) -> Result<(Table, Vec<Pass>, Pass), OpenFault>
    ensures opened { IfOk result (λ opened. IsOpened schema (of_one_pass sizes) opened.0 (opened.2 ∷ [])) }
    ensures room { IfOk result (λ opened. opened.1.items ≡ []) }
    ensures pass { IfOk result (λ opened. IsPassOf opened.0 opened.2 × (number_of opened.2 ≡ 0) × (seen_by opened.0 opened.2 ≡ [])) }
    ensures valid { OnOk result (IsConfig (of_one_pass sizes)) }
    ensures config { IfErr result (λ fault. (fault ≡ OpenFault.BadConfig) ↔ (¬ (IsConfig (of_one_pass sizes)))) }
{
    let (table, mut passes) = open(alloc, schema, Config { passes: 1, ..sizes })?;
    let pass = passes.pop().unwrap();
    Ok((table, passes, pass))
}

/// What a session's end and the closing of its table mean for the run. The session's fault is told before that of closing.
fn outcome(why: EndCause, closed: Result<(), RunFault>) -> Result<(), RunFault>
    ensures { fault_in result ≡ option_or (fault_at why) (fault_in closed) }
{
    check_end(why)?;
    closed
}

/// What the end of a session means for the run.
fn check_end(why: EndCause) -> Result<(), RunFault>
    ensures { fault_in result ≡ fault_at why }
{
    match why {
        EndCause::Ended => Ok(()),
        EndCause::ReadFault => Err(RunFault::ReadFailed),
        EndCause::WriteFault => Err(RunFault::WriteFailed),
        EndCause::NoMemory => Err(RunFault::NoMemory),
        EndCause::ReadsUsed => Err(RunFault::ReadsUsed),
    }
}

/// Closes the table with its one pass, for which there is room here.
fn give_back(alloc: Global, table: Table, mut passes: Vec<Pass>, pass: Pass) -> Result<(), RunFault>
    requires room { passes.items ≡ [] }
    requires pass { IsPassOf table pass × (number_of pass ≡ 0) }
    requires one { (sizes_in table).passes ≡ 1 }
    ensures closed { OnOk result ((closed : ClosedOf) × IsClosed table (pass ∷ []) closed) }
    ensures memory { IfErr result (λ fault. fault ≡ RunFault.NoMemory) }
{
    passes.push(pass)?;
    match close(alloc, table, passes) {
        Ok(_) => Ok(()),
        Err(fault) => Err(RunFault::from(fault.why)),
    }
}

/// Says what was wrong, in one line, and answers the status.
fn status<E: Write>(faults: &mut E, end: Result<(), RunFault>) -> u8
    ensures of { result ≡ status_after end }
    ensures other { result ≢ 2 }
{
    match end {
        Ok(()) => 0,
        Err(fault) => {
            let _ = writeln!(faults, "art_index: {fault}");
            fault.status()
        }
    }
}

/// Writes help where it was asked for, and what is wrong with the words where it was not.
fn tell_usage<W: Write, E: Write>(error: &clap::Error, writer: &mut W, faults: &mut E) -> u8
    ensures status { result ≤ 2 }
    ensures mistake { (kind_of error.now ≢ DisplayHelp) → (kind_of error.now ≢ DisplayVersion) → result ≡ 2 }
    ensures shown { (kind_of error.now ≡ DisplayHelp) ⊎ (kind_of error.now ≡ DisplayVersion) → result ≢ 2 }
    ensures quiet { result ≡ 2 → writer.new ≡ writer.old }
{
    if error.use_stderr() {
        let _ = show(error, faults);
        return 2;
    }
    match show(error, writer) {
        Ok(()) => 0,
        Err(_) => status(faults, Err(RunFault::WriteFailed)),
    }
}

fn show<W: Write>(error: &clap::Error, writer: &mut W) -> io::Result<()> {
    write!(writer, "{error}")?;
    writer.flush()
}
