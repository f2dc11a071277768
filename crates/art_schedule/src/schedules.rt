//! From the lines of a reader to what they print.
ghost use Rattle.std.specs.Prelude.{◌≡◌, ◌≢◌, ◌+◌, ◌<◌, ◌^◌, List, IfErr, length};
ghost use Rattle.std.specs.Io.KnownBytes.{IsAtEnd};
ghost use Rattle.art_server.specs.Counted.{reader_of, reads_of};
ghost use Rattle.art_server.specs.Lines.{AllAreGiven};
ghost use Rattle.art_server.specs.Reads.{AddsReads, MakesReads};
ghost use Rattle.art_server.specs.declared.sessions.EndCause.TheVariants as cause;
ghost use Rattle.art_schedule.specs.Desks.{IsDesk, places_of};
ghost use Rattle.art_schedule.specs.Lines.{HasTimes, said_by};
ghost use Rattle.art_schedule.specs.Schedules.{ArePassesOf, ComeBack, EndsAtInput, RunsSchedule, rest_tasks};
ghost use Rattle.art_schedule.specs.Tasks.{end_at, obey as obey_task};
ghost use Rattle.art_schedule.specs.Ways.{EndsThere, ObeysLeft, RunsFrom, Tries, TriesAll, TriesAt, end_by};
ghost use Rattle.art_server.specs.ArtTable.declared.passes.Pass.{Pass as PassOf};

use crate::desks::{Desk, close, open};
use crate::orders::follow;
use crate::stops::{ScheduleEnd, Stop};
use crate::tells::tell;
use crate::{Order, parse};
use art_lines::LINE_BYTES;
use art_server::art_table::{Pass, Table};
use art_server::{Counted, Lines};
use std::alloc::Global;
use std::io::{Read, Write};

/// The most reads of one schedule.
const READS: u32 = 1_000_000;

/// Runs the schedule that the reader gives, on the passes of the table, which have the names A to H in their order. Other threads may use
/// the table meanwhile.
///
/// At most 1,000,000 reads are made, each of at most 4,096 bytes. The first read or write that fails ends the schedule, an interruption
/// too, and so does the first bad line, for which nothing is printed. What is under way then is run to its end, and nothing is printed of
/// it. Memory is taken for room for the rows of scans, and for one line's command and what it prints.
pub fn run_schedule<R: Read, W: Write>(
    alloc: Global,
    table: &Table,
    passes: [Pass; 8],
    reader: &mut Counted<R>,
    writer: &mut W,
) -> ([Pass; 8], ScheduleEnd)
    requires { ArePassesOf table.now passes }
    ensures passes { ComeBack table.now passes result.0 }
    ensures schedule { RunsSchedule (R.remaining (reader_of reader.old)) (R.remaining (reader_of reader.new))
        (W.contents writer.old) (W.contents writer.new) table.now passes result.0 result.1 }
    ensures end { result.1 ≡ ScheduleEnd.Ended → IsAtEnd (R.remaining (reader_of reader.new)) }
    ensures reads { AddsReads (reads_of reader.old) (reads_of reader.new) }
    ensures used { result.1 ≡ ScheduleEnd.ReadsUsed → MakesReads (reads_of reader.old) (reads_of reader.new) cause.ReadsUsed }
    ensures failed { result.1 ≡ ScheduleEnd.ReadFault → MakesReads (reads_of reader.old) (reads_of reader.new) cause.ReadFault }
{
    match open(alloc, passes) {
        Ok(desk) => {
            let mut desk = desk;
            let end = run_reads(alloc, table, &mut desk, reader, writer);
            (close(table, desk), end)
        }
        Err(passes) => (passes, ScheduleEnd::NoMemory),
    }
}

fn run_reads<R: Read, W: Write>(
    alloc: Global,
    table: &Table,
    desk: &mut Desk,
    reader: &mut Counted<R>,
    writer: &mut W,
) -> ScheduleEnd
    requires { (ps : List PassOf) × IsDesk table.now ps desk.old }
    ensures keeps { (ps : List PassOf) → IsDesk table.now ps desk.old → IsDesk table.now ps desk.new }
    ensures schedule { RunsFrom (R.remaining (reader_of reader.old)) (R.remaining (reader_of reader.new))
        (W.contents writer.old) (W.contents writer.new) table.now (places_of desk.old) (places_of desk.new) result }
    ensures end { result ≡ ScheduleEnd.Ended → IsAtEnd (R.remaining (reader_of reader.new)) }
    ensures reads { AddsReads (reads_of reader.old) (reads_of reader.new) }
    ensures used { result ≡ ScheduleEnd.ReadsUsed → MakesReads (reads_of reader.old) (reads_of reader.new) cause.ReadsUsed }
    ensures failed { result ≡ ScheduleEnd.ReadFault → MakesReads (reads_of reader.old) (reads_of reader.new) cause.ReadFault }
{
    let mut lines = Lines::new();
    let mut count = 0;
    'reads: for _ in 0..READS {
        match lines.read(reader) {
            Ok(true) => match obey_lines(alloc, table, desk, &mut lines, writer, count) {
                Ok(more) => count = more,
                Err(end) => return end,
            },
            Ok(false) => return finish(alloc, table, desk, &lines, writer, count),
            Err(_) => return ScheduleEnd::ReadFault,
        }
    }
    ScheduleEnd::ReadsUsed
}

/// The input has ended: what is left is done.
fn finish<W: Write>(
    alloc: Global,
    table: &Table,
    desk: &mut Desk,
    lines: &Lines,
    writer: &mut W,
    count: u64,
) -> ScheduleEnd
    requires desk { (ps : List PassOf) × IsDesk table.now ps desk.old }
    requires given { AllAreGiven lines.now }
    requires count { count ≡ lines.now.given }
    requires room { count + 1 < 2 ^ 64 }
    ensures keeps { (ps : List PassOf) → IsDesk table.now ps desk.old → IsDesk table.now ps desk.new }
    ensures finishes { EndsThere table.now lines.now (W.contents writer.old) (W.contents writer.new)
        (places_of desk.old) (places_of desk.new) result × EndsAtInput result }
{
    match obey_rest(alloc, table, desk, lines, writer) {
        Ok(()) => ScheduleEnd::Ended,
        Err(stop) => stop.at(count + 1),
    }
}

/// The last line, if one stands with no line feed after it; and then all that is under way is run to its end, and printed.
fn obey_rest<W: Write>(
    alloc: Global,
    table: &Table,
    desk: &mut Desk,
    lines: &Lines,
    writer: &mut W,
) -> Result<(), Stop>
    requires desk { (ps : List PassOf) × IsDesk table.now ps desk.old }
    requires given { AllAreGiven lines.now }
    ensures keeps { (ps : List PassOf) → IsDesk table.now ps desk.old → IsDesk table.now ps desk.new }
    ensures rest { EndsThere table.now lines.now (W.contents writer.old) (W.contents writer.new)
        (places_of desk.old) (places_of desk.new) (end_by result (lines.now.given + 1)) }
{
    let line = lines.rest();
    if !line.is_empty() {
        obey_line(alloc, table, desk, line, writer)?;
    }
    end_all(alloc, table, desk, writer)
}

/// All that is under way is run to its end, in order of the names, and printed.
fn end_all<W: Write>(
    alloc: Global,
    table: &Table,
    desk: &mut Desk,
    writer: &mut W,
) -> Result<(), Stop>
    requires { (ps : List PassOf) × IsDesk table.now ps desk.old }
    ensures keeps { (ps : List PassOf) → IsDesk table.now ps desk.old → IsDesk table.now ps desk.new }
    ensures ends { TriesAll table.now rest_tasks (places_of desk.old) (places_of desk.new)
        (W.contents writer.old) (W.contents writer.new) result }
    ensures fit { IfErr result (λ stop. stop ≢ Stop.BadLine) }
{
    for place in 0..8 {
        end_place(alloc, table, desk, place, writer)?;
    }
    Ok(())
}

/// What is under way at the place, if anything is, is run to its end, and printed.
fn end_place<W: Write>(
    alloc: Global,
    table: &Table,
    desk: &mut Desk,
    place: usize,
    writer: &mut W,
) -> Result<(), Stop>
    requires desk { (ps : List PassOf) × IsDesk table.now ps desk.old }
    requires place { place < 8 }
    ensures keeps { (ps : List PassOf) → IsDesk table.now ps desk.old → IsDesk table.now ps desk.new }
    ensures ends { Tries table.now (end_at place) (places_of desk.old) (places_of desk.new)
        (W.contents writer.old) (W.contents writer.new) result }
    ensures fit { IfErr result (λ stop. stop ≢ Stop.BadLine) }
{
    if desk.seats[place].is_idle() {
        return Ok(());
    }
    obey(alloc, table, desk, place, Order::End, writer)
}

/// Each line that ends in what was read is obeyed: how many lines these are, with those before them.
fn obey_lines<W: Write>(
    alloc: Global,
    table: &Table,
    desk: &mut Desk,
    lines: &mut Lines,
    writer: &mut W,
    before: u64,
) -> Result<u64, ScheduleEnd>
    requires desk { (ps : List PassOf) × IsDesk table.now ps desk.old }
    requires count { before ≡ lines.old.given }
    requires room { length lines.old.taken < 2 ^ 64 }
    ensures keeps { (ps : List PassOf) → IsDesk table.now ps desk.old → IsDesk table.now ps desk.new }
    ensures obeys { ObeysLeft table.now lines.old lines.new (W.contents writer.old) (W.contents writer.new)
        (places_of desk.old) (places_of desk.new) result }
{
    let mut count = before;
    'lines: while lines.advance() {
        count += 1;
        if let Err(stop) = obey_line(alloc, table, desk, lines.line(), writer) {
            return Err(stop.at(count));
        }
    }
    Ok(count)
}

/// The pass that the line names does what the line says, and what is told of it is printed.
fn obey_line<W: Write>(
    alloc: Global,
    table: &Table,
    desk: &mut Desk,
    line: &[u8],
    writer: &mut W,
) -> Result<(), Stop>
    requires { (ps : List PassOf) × IsDesk table.now ps desk.old }
    ensures keeps { (ps : List PassOf) → IsDesk table.now ps desk.old → IsDesk table.now ps desk.new }
    ensures obeys { Tries table.now (obey_task line.now) (places_of desk.old) (places_of desk.new)
        (W.contents writer.old) (W.contents writer.new) result }
{
    if line.len() > LINE_BYTES {
        return Err(Stop::BadLine);
    }
    match parse(line) {
        Some(line) => obey(alloc, table, desk, line.pass, line.order, writer),
        None => Err(Stop::BadLine),
    }
}

/// The pass at the place follows the order, and what is told of it is printed.
fn obey<W: Write>(
    alloc: Global,
    table: &Table,
    desk: &mut Desk,
    place: usize,
    order: Order<'_>,
    writer: &mut W,
) -> Result<(), Stop>
    requires desk { (ps : List PassOf) × IsDesk table.now ps desk.old }
    requires place { place < 8 }
    requires times { HasTimes order }
    ensures keeps { (ps : List PassOf) → IsDesk table.now ps desk.old → IsDesk table.now ps desk.new }
    ensures obeys { TriesAt table.now place (said_by order.entry) (places_of desk.old) (places_of desk.new)
        (W.contents writer.old) (W.contents writer.new) result }
{
    let followed = follow(
        alloc,
        table,
        &mut desk.seats[place],
        &mut desk.rooms[place],
        order,
    );
    tell(alloc, place, &followed?, writer)
}
