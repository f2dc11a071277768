//! Sessions over readers and writers that fail, are interrupted, or give and take a little at a time.
use crate::clients::{SIZES, alone, check_alone, check_session, last_of, opened};
use art_server::art_table::Config;
use art_server::{Counted, EndCause, NoGate, SessionEnd, session};
use std::alloc::Global;
use std::io::{self, ErrorKind, Read, Write};
use std::process::Abort;

/// Gives at most so many bytes at a read, and after so many reads fails.
#[derive(Drop)]
struct Pieces<'a> {
    rest: &'a [u8],
    most: usize,
    reads: u32,
    fault: ErrorKind,
}

impl Read for Pieces<'_> {
    fn read(&mut self, buf: &mut [u8]) -> io::Result<usize> {
        if self.reads == 0 {
            return Err(io::Error::from(self.fault));
        }
        self.reads -= 1;
        let count = self.rest.len().min(self.most).min(buf.len());
        let (piece, rest) = self.rest.split_at(count);
        buf[..count].copy_from_slice(piece);
        self.rest = rest;
        Ok(count)
    }
}

/// Gives this byte at each read, and counts the reads.
#[derive(Drop)]
struct Endless {
    byte: u8,
    reads: u64,
}

impl Read for Endless {
    fn read(&mut self, buf: &mut [u8]) -> io::Result<usize> {
        self.reads = self.reads.saturating_add(1);
        if buf.is_empty() {
            return Ok(0);
        }
        buf[0] = self.byte;
        Ok(1)
    }
}

/// Takes so many bytes, at most three at a call. After them it fails, or takes no byte where there is no fault.
#[derive(Drop)]
struct Short {
    held: Vec<u8>,
    room: usize,
    fault: Option<ErrorKind>,
}

impl Write for Short {
    fn write(&mut self, buf: &[u8]) -> io::Result<usize> {
        if self.room == 0 {
            return match self.fault {
                Some(kind) => Err(io::Error::from(kind)),
                None => Ok(0),
            };
        }
        let count = buf.len().min(self.room).min(3);
        self.held.extend_from_slice(&buf[..count])?;
        self.room -= count;
        Ok(count)
    }

    fn flush(&mut self) -> io::Result<()> {
        Ok(())
    }
}

/// Counts what is written, and holds nothing.
#[derive(Drop)]
struct Sink {
    bytes: u64,
}

impl Write for Sink {
    fn write(&mut self, buf: &[u8]) -> io::Result<usize> {
        self.bytes = self.bytes.saturating_add(buf.len() as u64);
        Ok(buf.len())
    }

    fn flush(&mut self) -> io::Result<()> {
        Ok(())
    }
}

/// How a session from the reader to the writer ends, on a table of one leaf.
fn end_of<R: Read, W: Write>(
    rt: &impl Abort,
    alloc: Global,
    reader: &mut Counted<R>,
    writer: &mut W,
) -> SessionEnd {
    let (table, pass) = alone(rt, alloc, "u64", SIZES);
    let (_, end) = session(alloc, &table, pass, reader, writer, &NoGate);
    end
}

fn ended(why: EndCause, answered: u64, pending: bool) -> SessionEnd {
    SessionEnd {
        why,
        answered,
        pending,
    }
}

/// A session from the reader, on a table of one leaf, ends so, and what it says is this.
fn check_end<R: Read>(
    rt: &impl Abort,
    alloc: Global,
    reader: &mut Counted<R>,
    wanted: SessionEnd,
    want: &str,
) {
    let mut heard = Vec::new(alloc);
    let end = end_of(rt, alloc, reader, &mut heard);
    assert_eq!(rt; end, wanted);
    assert!(rt; heard.as_slice() == want.as_bytes());
}

#[test]
fn answers_lines_in_turn(rt: HostRuntime) {
    let said = b"[\"get\",[5]]\n[\"insert\",[5],9]\n[\"get\",[5]]\n[\"insert\",[5],10]\n\
        [\"remove\",[6]]\n[\"insert\",[6],1]\n[\"remove\",[5]]\n[\"get\",[5]]\n\
        [\"insert\",[6],1]\n[\"scan\",[1],[9],3]\n[\"get\",[null]]\n";
    let want = "[\"absent\"]\n[\"inserted\"]\n[\"found\",9]\n[\"present\",9]\n\
        [\"absent\"]\n[\"refused\",11,\"Full\"]\n[\"removed\",9]\n[\"absent\"]\n\
        [\"inserted\"]\n[\"rows\",[[[6],1]],false]\n[\"refused\",5,\"WrongType\"]\n";
    let mut reader = Counted::new(said.as_slice());
    let end = ended(EndCause::Ended, 11, false);
    check_end(&rt, rt.alloc(), &mut reader, end, want);
}

/// Three bad lines, one that is too long, and a get with no line feed behind it.
fn bad_lines(rt: &impl Abort, alloc: Global) -> Vec<u8> {
    let mut text = Vec::new(alloc);
    for line in [
        b"\n{\n[\"get\"]\n".as_slice(),
        [b'x'; 4097].as_slice(),
        b"\n[\"get\",[7]]".as_slice(),
    ] {
        let more = text.extend_from_slice(line);
        more.expect(rt, "room for a line");
    }
    text
}

#[test]
fn refuses_bad_lines_and_answers_the_last(rt: HostRuntime) {
    let text = bad_lines(&rt, rt.alloc());
    let mut reader = Counted::new(Pieces {
        rest: text.as_slice(),
        most: 1000,
        reads: 99,
        fault: ErrorKind::Other,
    });
    let want = "[\"refused\",1,\"BadLine\"]\n[\"refused\",1,\"BadLine\"]\n\
        [\"refused\",3,\"BadCommand\"]\n[\"refused\",2,\"LineTooLong\"]\n[\"absent\"]\n";
    let end = ended(EndCause::Ended, 5, false);
    check_end(&rt, rt.alloc(), &mut reader, end, want);
}

/// A session of which the fourth read fails, in the middle of its second line, ends behind the first.
fn check_read_fault(rt: &impl Abort, alloc: Global, fault: ErrorKind) {
    let mut reader = Counted::new(Pieces {
        rest: b"[\"get\",[5]]\n[\"get\",[6]]\n",
        most: 7,
        reads: 3,
        fault,
    });
    let end = ended(EndCause::ReadFault, 1, false);
    check_end(rt, alloc, &mut reader, end, "[\"absent\"]\n");
}

#[test]
fn a_read_that_fails_or_is_interrupted_ends_behind_the_whole_lines(rt: HostRuntime) {
    for fault in [ErrorKind::BrokenPipe, ErrorKind::Interrupted] {
        check_read_fault(&rt, rt.alloc(), fault);
    }
}

/// How a session ends whose writer has room for a reply and a part of the next, and what a look shows after it.
fn end_at_a_write(
    rt: &impl Abort,
    alloc: Global,
    fault: Option<ErrorKind>,
) -> (SessionEnd, Vec<u8>, Vec<u8>) {
    let (table, pass) = alone(rt, alloc, "u64", SIZES);
    let said = b"[\"get\",[5]]\n[\"insert\",[5],9]\n[\"get\",[5]]\n";
    let mut cut = Short {
        held: Vec::new(alloc),
        room: 15,
        fault,
    };
    let mut reader = Counted::new(said.as_slice());
    let (pass, end) = session(alloc, &table, pass, &mut reader, &mut cut, &NoGate);
    let mut after = Vec::new(alloc);
    let mut reader = Counted::new(b"[\"get\",[5]]".as_slice());
    let _ = session(alloc, &table, pass, &mut reader, &mut after, &NoGate);
    (end, cut.held, after)
}

/// A session whose writer has room for a reply and a part of the next ends there, and its change is made.
fn check_write_fault(rt: &impl Abort, alloc: Global, fault: Option<ErrorKind>) {
    let (end, held, after) = end_at_a_write(rt, alloc, fault);
    assert_eq!(rt; end, ended(EndCause::WriteFault, 1, true));
    assert!(rt; held.as_slice() == "[\"absent\"]\n[\"in".as_bytes());
    assert!(rt; after.as_slice() == "[\"found\",9]\n".as_bytes());
}

#[test]
fn a_write_that_fails_is_interrupted_or_takes_nothing_leaves_the_change(rt: HostRuntime) {
    for fault in [
        Some(ErrorKind::BrokenPipe),
        Some(ErrorKind::Interrupted),
        None,
    ] {
        check_write_fault(&rt, rt.alloc(), fault);
    }
}

/// A session from an input with no end, of this byte alone, answers so many lines in so many bytes.
fn check_endless(rt: &impl Abort, alloc: Global, byte: u8, answered: u64, bytes: u64) {
    let mut reader = Counted::new(Endless { byte, reads: 0 });
    let mut sink = Sink { bytes: 0 };
    let end = end_of(rt, alloc, &mut reader, &mut sink);
    assert_eq!(rt; end, ended(EndCause::ReadsUsed, answered, false));
    assert_eq!(rt; reader.into_inner().reads, 1_000_000);
    assert_eq!(rt; sink.bytes, bytes);
}

#[test]
fn a_million_reads_are_made_of_an_input_with_no_end(rt: HostRuntime) {
    for (byte, answered, bytes) in [(b'x', 0, 0), (b'\n', 1_000_000, 24_000_000)] {
        check_endless(&rt, rt.alloc(), byte, answered, bytes);
    }
}

#[test]
fn a_third_row_finds_no_leaf_of_two(rt: HostRuntime) {
    let config = Config { leaves: 2, ..SIZES };
    let said = "[\"insert\",[1],1]\n[\"insert\",[2],2]\n[\"insert\",[3],3]\n[\"insert\",[1],9]\n\
        [\"get\",[1]]\n[\"get\",[2]]\n";
    let want = "[\"inserted\"]\n[\"inserted\"]\n[\"refused\",11,\"Full\"]\n[\"present\",1]\n\
        [\"found\",1]\n[\"found\",2]\n";
    check_alone(&rt, rt.alloc(), "u64", config, said, want);
}

#[test]
fn a_counter_at_its_end_is_told(rt: HostRuntime) {
    let config = Config {
        counter_start: 4_611_686_018_427_387_896,
        ..SIZES
    };
    let said = "[\"insert\",[1],1]\n[\"get\",[1]]\n";
    let want = "[\"refused\",13,\"Exhausted\"]\n[\"absent\"]\n";
    check_alone(&rt, rt.alloc(), "u64", config, said, want);
}

/// The leaf of the row that the one pass removed waits in its limbo, so the other takes the second leaf.
#[test]
fn sessions_of_two_passes_have_one_map(rt: HostRuntime) {
    let config = Config {
        leaves: 2,
        passes: 2,
        ..SIZES
    };
    let (table, mut passes) = opened(&rt, rt.alloc(), "u64", config);
    let one = last_of(&rt, &table, &mut passes);
    let zero = last_of(&rt, &table, &mut passes);
    let said = "[\"insert\",[5],9]\n";
    let zero = check_session(&rt, rt.alloc(), &table, zero, said, "[\"inserted\"]\n");
    let said = "[\"insert\",[5],10]\n[\"get\",[5]]\n[\"remove\",[5]]\n";
    let want = "[\"present\",9]\n[\"found\",9]\n[\"removed\",9]\n";
    let one = check_session(&rt, rt.alloc(), &table, one, said, want);
    let said = "[\"get\",[5]]\n[\"insert\",[6],1]\n";
    let want = "[\"absent\"]\n[\"inserted\"]\n";
    let _ = check_session(&rt, rt.alloc(), &table, zero, said, want);
    let _ = check_session(
        &rt,
        rt.alloc(),
        &table,
        one,
        "[\"get\",[6]]",
        "[\"found\",1]\n",
    );
}
