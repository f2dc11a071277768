//! From the bytes of a reader to the bytes of a writer.
ghost use Rattle.std.specs.Prelude.{◌≡◌, ◌+◌, ◌<◌, ◌^◌, length, true, false};
ghost use Rattle.std.specs.Io.KnownBytes.{IsAtEnd, Keeps};
ghost use Rattle.art_server.specs.Counted.{reader_of, reads_of};
ghost use Rattle.art_server.specs.Lines.{AllAreGiven};
ghost use Rattle.art_server.specs.Reads.{MakesReads};
ghost use Rattle.art_server.specs.Replies.{IsPrintable, reply_of, reply_with};
ghost use Rattle.art_server.specs.Sessions.{IsSamePass, RunsSession};
ghost use Rattle.art_server.specs.Steps.{AnswersLeft, Finishes, SendsLine, SendsReply};
ghost use Rattle.art_scan.specs.ArtTable.Tables.{IsPassOf};

use crate::replies::{ReplyHead, print_rows};
use crate::streams::write_whole;
use crate::texts::{TEXT_BYTES, put_reply};
use crate::watched::do_command;
use crate::{Counted, Gate, Lines, Refusal};
use arrayvec::ArrayVec;
use art_lines::{LineFault, LineReader};
use art_model::{Answer, NoMemory, Row};
use art_scan::art_table::{Pass, Table};
use std::alloc::Global;
use std::io::{self, Read, Write};

/// The most reads of one session.
const READS: u32 = 1_000_000;

/// Why a session ended.
#[derive(Clone, Copy, Debug, PartialEq, Eq)]
pub enum EndCause {
    /// The input ended.
    Ended,
    /// A read failed, or was interrupted.
    ReadFault,
    /// A write failed, was interrupted, or took no byte.
    WriteFault,
    /// There was no memory.
    NoMemory,
    /// 1,000,000 reads were made, and each gave bytes.
    ReadsUsed,
}

/// How a session ended.
#[derive(Clone, Copy, Debug, PartialEq, Eq)]
pub struct SessionEnd {
    pub why: EndCause,
    /// How many replies were wholly written.
    pub answered: u64,
    /// One further line had its reply, or its change, and the reply was not wholly written.
    pub pending: bool,
}

/// What a session keeps beside its pass and its lines: room for the rows of a scan, and for the command of a line.
#[derive(Drop)]
struct Room {
    rows: ArrayVec<Row, 100>,
    reader: LineReader,
}

/// Why a line was not answered.
#[derive(Clone, Copy)]
struct Stop {
    why: EndCause,
    pending: bool,
}

/// There was no memory to read a line, so nothing of it was done.
const UNREAD: Stop = Stop {
    why: EndCause::NoMemory,
    pending: false,
};

impl Stop {
    fn after(self, answered: u64) -> SessionEnd
        ensures { result ≡ record { why = self.why; answered = answered; pending = self.pending } }
    {
        SessionEnd {
            why: self.why,
            answered,
            pending: self.pending,
        }
    }
}

/// There was no memory to print a reply.
impl From<NoMemory> for Stop {
    ghost use Rattle.std.specs.Prelude.{◌≡◌, true};
    ghost use Rattle.art_server.specs.declared.sessions.EndCause.TheVariants as end;

    ghost from_gives = { λ _ stop. stop ≡ record { why = end.NoMemory; pending = true } };

    fn from(_refused: NoMemory) -> Stop {
        Stop {
            why: EndCause::NoMemory,
            pending: true,
        }
    }
}

/// A reply could not be written.
impl From<io::Error> for Stop {
    ghost use Rattle.std.specs.Prelude.{◌≡◌, true};
    ghost use Rattle.art_server.specs.declared.sessions.EndCause.TheVariants as end;

    ghost from_gives = { λ _ stop. stop ≡ record { why = end.WriteFault; pending = true } };

    fn from(_error: io::Error) -> Stop {
        Stop {
            why: EndCause::WriteFault,
            pending: true,
        }
    }
}

/// Answers each line that the reader gives, by the pass, to the writer. Other threads may use the table meanwhile.
///
/// At most 1,000,000 reads are made, each of at most 4,096 bytes. The first read or write that fails ends the session, an
/// interruption too: a caller who wants another try makes it in the reader or the writer. So does a write that takes
/// no byte. The replies to the lines of one read are flushed once, before the next read; a flush that fails leaves the last of them
/// pending. Memory is taken for one line's reading, and for a reply that lists rows.
///
/// The gate is told of each atomic step, where it watches them, and of each reply, once it was flushed. A session that nobody watches
/// makes whole calls.
pub fn session<R: Read, W: Write, G: Gate>(
    alloc: Global,
    table: &Table,
    pass: Pass,
    reader: &mut Counted<R>,
    writer: &mut W,
    gate: &G,
) -> (Pass, SessionEnd)
    requires { IsPassOf table.now pass }
    ensures pass { IsPassOf table.now result.0 }
    ensures same { IsSamePass pass result.0 }
    ensures session { RunsSession (R.remaining (reader_of reader.old)) (R.remaining (reader_of reader.new))
        (W.contents writer.old) (W.contents writer.new) table.now pass result.0 result.1 }
    ensures end { result.1.why ≡ EndCause.Ended → IsAtEnd (R.remaining (reader_of reader.new)) }
    ensures reads { MakesReads (reads_of reader.old) (reads_of reader.new) result.1.why }
{
    let mut lines = Lines::new();
    let mut room = Room {
        rows: ArrayVec::new(),
        reader: LineReader::new(alloc),
    };
    let mut pass = pass;
    let mut answered = 0;
    'reads: for _ in 0..READS {
        match lines.read(reader) {
            Ok(true) => {
                let (back, taken) = answer_read(
                    alloc, table, pass, &mut lines, &mut room, writer, gate, answered,
                );
                pass = back;
                match taken {
                    Ok(more) => answered = more,
                    Err(end) => return (pass, end),
                }
            }
            Ok(false) => {
                return finish(
                    alloc, table, pass, &lines, &mut room, writer, gate, answered,
                );
            }
            Err(_) => return (pass, ended(EndCause::ReadFault, answered)),
        }
    }
    (pass, ended(EndCause::ReadsUsed, answered))
}

fn ended(why: EndCause, answered: u64) -> SessionEnd
    ensures { result ≡ record { why = why; answered = answered; pending = false } }
{
    SessionEnd {
        why,
        answered,
        pending: false,
    }
}

/// A flush failed, so nobody knows how much of the last reply came through: it counts as cut, after so many that were written.
fn flush_failed(answered: u64) -> SessionEnd
    ensures { result ≡ record { why = EndCause.WriteFault; answered = answered; pending = true } }
{
    SessionEnd {
        why: EndCause::WriteFault,
        answered,
        pending: true,
    }
}

/// The input has ended: answers the last line, if one stands with no line feed after it.
fn finish<W: Write, G: Gate>(
    alloc: Global,
    table: &Table,
    pass: Pass,
    lines: &Lines,
    room: &mut Room,
    writer: &mut W,
    gate: &G,
    answered: u64,
) -> (Pass, SessionEnd)
    requires pass { IsPassOf table.now pass }
    requires given { AllAreGiven lines.now }
    requires count { answered ≡ lines.now.given }
    requires room { answered + 1 < 2 ^ 64 }
    ensures pass { IsPassOf table.now result.0 }
    ensures finishes { Finishes table.now lines.now (W.contents writer.old) (W.contents writer.new) pass result.0 result.1 }
{
    let line = lines.rest();
    if line.is_empty() {
        return (pass, ended(EndCause::Ended, answered));
    }
    let (pass, sent) = answer_line(alloc, table, pass, line, room, writer, gate);
    if let Err(stop) = sent {
        return (pass, stop.after(answered));
    }
    match writer.flush() {
        Ok(()) => {
            gate.answered(pass.number());
            (pass, ended(EndCause::Ended, answered + 1))
        }
        Err(_) => (pass, flush_failed(answered)),
    }
}

/// Answers each line that ends in what was read, and flushes the replies once.
fn answer_read<W: Write, G: Gate>(
    alloc: Global,
    table: &Table,
    pass: Pass,
    lines: &mut Lines,
    room: &mut Room,
    writer: &mut W,
    gate: &G,
    answered: u64,
) -> (Pass, Result<u64, SessionEnd>)
    requires pass { IsPassOf table.now pass }
    requires count { answered ≡ lines.old.given }
    requires room { length lines.old.taken < 2 ^ 64 }
    ensures pass { IsPassOf table.now result.0 }
    ensures answers { AnswersLeft table.now lines.old lines.new (W.contents writer.old) (W.contents writer.new) pass result.0 result.1 }
{
    let (pass, taken) = answer_lines(alloc, table, pass, lines, room, writer, gate, answered);
    let count = match taken {
        Ok(count) => count,
        Err(end) => {
            send_answered(writer, gate, pass.number(), answered, end);
            return (pass, Err(end));
        }
    };
    if answered < count && writer.flush().is_err() {
        return (pass, Err(flush_failed(count - 1)));
    }
    tell_answered(gate, pass.number(), answered, count);
    (pass, Ok(count))
}

/// The lines before the one that stopped the session were answered: their replies go out, if they can.
fn send_answered<W: Write, G: Gate>(
    writer: &mut W,
    gate: &G,
    pass: u32,
    before: u64,
    end: SessionEnd,
)
    ensures { Keeps (W.contents writer.old) (W.contents writer.new) }
{
    if end.why != EndCause::WriteFault && writer.flush().is_ok() {
        tell_answered(gate, pass, before, end.answered);
    }
}

/// Tells the gate of the replies from one count to another.
fn tell_answered<G: Gate>(gate: &G, pass: u32, from: u64, to: u64) {
    for _ in from..to {
        gate.answered(pass);
    }
}

/// Answers each line that ends in what was read. The replies are not flushed.
fn answer_lines<W: Write, G: Gate>(
    alloc: Global,
    table: &Table,
    pass: Pass,
    lines: &mut Lines,
    room: &mut Room,
    writer: &mut W,
    gate: &G,
    answered: u64,
) -> (Pass, Result<u64, SessionEnd>)
    requires pass { IsPassOf table.now pass }
    requires count { answered ≡ lines.old.given }
    requires room { length lines.old.taken < 2 ^ 64 }
    ensures pass { IsPassOf table.now result.0 }
    ensures answers { AnswersLeft table.now lines.old lines.new (W.contents writer.old) (W.contents writer.new) pass result.0 result.1 }
{
    let mut pass = pass;
    let mut count = answered;
    'lines: while lines.advance() {
        let (back, sent) = answer_line(alloc, table, pass, lines.line(), room, writer, gate);
        pass = back;
        match sent {
            Ok(()) => count += 1,
            Err(stop) => return (pass, Err(stop.after(count))),
        }
    }
    (pass, Ok(count))
}

/// Answers the line. The reply is not flushed.
fn answer_line<W: Write, G: Gate>(
    alloc: Global,
    table: &Table,
    pass: Pass,
    line: &[u8],
    room: &mut Room,
    writer: &mut W,
    gate: &G,
) -> (Pass, Result<(), Stop>)
    requires { IsPassOf table.now pass }
    ensures pass { IsPassOf table.now result.0 }
    ensures sends { SendsLine table.now line.now (W.contents writer.old) (W.contents writer.new) pass result.0 result.1 }
{
    let (pass, head) = match room.reader.verb(line) {
        Ok(verb) => do_command(table, pass, verb, &mut room.reader, &mut room.rows, gate),
        Err(fault) => match fault {
            LineFault::NoMemory => return (pass, Err(UNREAD)),
            _ => (pass, Err(Refusal::from(fault))),
        },
    };
    let sent = send_reply(alloc, head, room.rows.as_slice(), writer);
    (pass, sent)
}

/// Prints the reply whose rows stand beside it, and writes it. It is not flushed.
fn send_reply<W: Write>(
    alloc: Global,
    head: Result<ReplyHead, Refusal>,
    rows: &[Row],
    writer: &mut W,
) -> Result<(), Stop>
    requires { IsPrintable (reply_with rows.now head) }
    ensures { SendsReply (reply_with rows.now head) (W.contents writer.old) (W.contents writer.new) result }
{
    match head {
        Ok(ReplyHead::Answer(answer)) => send_answer(Ok(answer), writer),
        Ok(ReplyHead::Rows(more)) => {
            let text = print_rows(alloc, rows, more)?;
            write_whole(writer, text.as_slice())?;
            Ok(())
        }
        Err(refusal) => send_answer(Err(refusal), writer),
    }
}

/// Writes the text of an answer, or of a refusal. It takes no memory.
fn send_answer<W: Write>(answer: Result<Answer, Refusal>, writer: &mut W) -> Result<(), Stop>
    ensures { SendsReply (reply_of answer) (W.contents writer.old) (W.contents writer.new) result }
{
    let mut room = [0; TEXT_BYTES];
    let start = put_reply(&mut room, answer);
    write_whole(writer, &room[start..])?;
    Ok(())
}
