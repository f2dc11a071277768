//! A load of a table of its own.
ghost use Rattle.std.specs.Prelude.{◌≡◌, ◌++◌, IfErr, IfOk, OnOk};
ghost use Rattle.art_tools.specs.Loads.{RunsLoad, count_line, load_text};
ghost use Rattle.art_tools.specs.Ranges.{IsLoad};
ghost use Rattle.art_tools.specs.Statuses.{fault_in};
ghost use Rattle.art_tools.specs.Tables.{Prints};

use crate::run_faults::RunFault;
use crate::settings::LoadSettings;
use crate::tables::{close_table, open_table};
use art_key::Schema;
use art_load::{Counts, load};
use art_server::write_text;
use std::alloc::Global;
use std::io::Write;
use std::sync::Wait;
use std::thread::Threads;

/// A load of an empty table of these sizes, with a pass for each thread. The table has one column, `u64`. Once it is closed, the counts of
/// the replies and the number of rows are printed.
pub(crate) fn load_table<R: Threads + Wait + Sync, W: Write>(
    rt: &R,
    alloc: Global,
    asked: LoadSettings,
    writer: &mut W,
) -> Result<(), RunFault>
    requires { IsLoad asked }
    ensures { RunsLoad asked (W.contents writer.old) (W.contents writer.new) (fault_in result) }
{
    let schema = Schema::parse("u64")?;
    let (table, passes) = open_table(alloc, schema, asked.sizes, asked.threads)?;
    let (passes, told) = load(rt, alloc, &table, passes, asked.ops, asked.seed, asked.keys);
    let closed = close_table(alloc, table, passes);
    let counts = told?;
    let rows = closed?.rows.len();
    print_load(alloc, &counts, rows, writer)
}

/// Prints the counts of the replies, and how many rows there were at the close.
fn print_load<W: Write>(
    alloc: Global,
    counts: &Counts,
    rows: usize,
    writer: &mut W,
) -> Result<(), RunFault>
    ensures { Prints (load_text counts.now rows) (W.contents writer.old) (W.contents writer.new) (fault_in result) }
{
    let text = load_text(alloc, counts, rows)?;
    print_text(text.as_slice(), writer)
}

/// The counts of the replies, and how many rows there were, a line each.
fn load_text(alloc: Global, counts: &Counts, rows: usize) -> Result<Vec<u8>, RunFault>
    ensures text { IfOk result (λ text. text.items ≡ load_text counts.now rows) }
    ensures memory { IfErr result (λ fault. fault ≡ RunFault.NoMemory) }
{
    let mut text = Vec::new(alloc);
    put_count(alloc, &mut text, b"inserted ", counts.inserted)?;
    put_count(alloc, &mut text, b"present ", counts.present)?;
    put_count(alloc, &mut text, b"removed ", counts.removed)?;
    put_count(alloc, &mut text, b"absent ", counts.absent)?;
    put_count(alloc, &mut text, b"found ", counts.found)?;
    put_count(alloc, &mut text, b"refused ", counts.refused)?;
    put_count(alloc, &mut text, b"rows ", rows as u64)?;
    Ok(text)
}

/// One line more: a word with a blank, and a number.
fn put_count(alloc: Global, text: &mut Vec<u8>, word: &[u8], count: u64) -> Result<(), RunFault>
    ensures text { OnOk result (text.new.items ≡ text.old.items ++ count_line word.now count) }
    ensures memory { IfErr result (λ fault. fault ≡ RunFault.NoMemory) }
{
    text.extend_from_slice(word)?;
    text.extend_from_slice(format!(in alloc; "{count}\n")?.as_bytes())?;
    Ok(())
}

/// Writes the text, and flushes it.
pub(crate) fn print_text<W: Write>(text: &[u8], writer: &mut W) -> Result<(), RunFault>
    ensures { Prints text.now (W.contents writer.old) (W.contents writer.new) (fault_in result) }
{
    match write_text(writer, text) {
        Ok(()) => Ok(()),
        Err(_) => Err(RunFault::WriteFailed),
    }
}
