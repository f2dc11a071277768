//! Clients that send their next lines once the replies to those before have come through.
use crate::clients::{SIZES, alone};
use art_server::{Counted, EndCause, NoGate, SessionEnd, session};
use std::alloc::Global;
use std::cell::Cell;
use std::io::{self, BufWriter, ErrorKind, Read, Write};
use std::process::Abort;

/// What a client says at one read, and what it hears before the next.
type Turn = (&'static str, &'static str);

/// Says one turn at each read, and then no more. It fails where not all replies to the turns before have come through.
#[derive(Drop)]
struct Client<'a> {
    turns: &'a [Turn],
    owed: usize,
    heard: &'a Cell<usize>,
}

impl Read for Client<'_> {
    fn read(&mut self, buf: &mut [u8]) -> io::Result<usize> {
        let [(said, reply), rest @ ..] = self.turns else {
            return Ok(0);
        };
        if self.heard.get() != self.owed {
            return Err(io::Error::from(ErrorKind::TimedOut));
        }
        let count = said.len().min(buf.len());
        buf[..count].copy_from_slice(&said.as_bytes()[..count]);
        self.turns = rest;
        self.owed = self.owed.saturating_add(reply.len());
        Ok(count)
    }
}

/// Holds what is written, and counts the writes. A flush lets it come through, or fails.
#[derive(Drop)]
struct Line<'a> {
    held: Vec<u8>,
    writes: usize,
    broken: bool,
    heard: &'a Cell<usize>,
}

impl Write for Line<'_> {
    fn write(&mut self, buf: &[u8]) -> io::Result<usize> {
        self.held.extend_from_slice(buf)?;
        self.writes = self.writes.saturating_add(1);
        Ok(buf.len())
    }

    fn flush(&mut self) -> io::Result<()> {
        if self.broken {
            return Err(io::Error::from(ErrorKind::BrokenPipe));
        }
        self.heard.set(self.held.len());
        Ok(())
    }
}

/// How a session with such a client ends over a buffer, and its line then.
fn talk<'a>(
    rt: &impl Abort,
    alloc: Global,
    turns: &'a [Turn],
    broken: bool,
    heard: &'a Cell<usize>,
) -> (SessionEnd, Vec<u8>, usize) {
    let (table, pass) = alone(rt, alloc, "u64", SIZES);
    let owed = 0;
    let mut reader = Counted::new(Client { turns, owed, heard });
    let line = Line {
        held: Vec::new(alloc),
        writes: 0,
        broken,
        heard,
    };
    let mut writer = BufWriter::new(alloc, line).expect(rt, "room for a buffer");
    let (_, end) = session(alloc, &table, pass, &mut reader, &mut writer, &NoGate);
    let (line, _) = writer.into_parts();
    (end, line.held, line.writes)
}

/// All turns are said and heard, in so many writes, and so many lines are answered.
fn check_turns(rt: &impl Abort, alloc: Global, turns: &[Turn], writes: usize, answered: u64) {
    let heard = Cell::new(0);
    let (end, held, written) = talk(rt, alloc, &*turns, false, &heard);
    assert_eq!(rt; end.why, EndCause::Ended);
    assert_eq!(rt; end.answered, answered);
    assert_eq!(rt; written, writes);
    let mut wanted = Vec::new(alloc);
    for (_, reply) in turns {
        let more = wanted.extend_from_slice(reply.as_bytes());
        more.expect(rt, "room for a reply");
    }
    assert!(rt; held.as_slice() == wanted.as_slice());
    assert_eq!(rt; heard.get(), wanted.len());
}

#[test]
fn the_replies_of_a_read_come_through_in_one_write_before_the_next(rt: HostRuntime) {
    let one_by_one = [
        ("[\"get\",[5]]\n", "[\"absent\"]\n"),
        ("[\"insert\",[5],9]\n", "[\"inserted\"]\n"),
        ("[\"get\",[5]]\n", "[\"found\",9]\n"),
        ("[\"remove\",[5]]", ""),
        ("\n", "[\"removed\",9]\n"),
    ];
    let together = [
        (
            "[\"get\",[5]]\n[\"insert\",[5],9]\n[\"ge",
            "[\"absent\"]\n[\"inserted\"]\n",
        ),
        (
            "t\",[5]]\n\n[\"scan\",[0],[9],9]\n",
            "[\"found\",9]\n[\"refused\",1,\"BadLine\"]\n[\"rows\",[[[5],9]],false]\n",
        ),
        ("[\"remove\",[5]]", "[\"removed\",9]\n"),
    ];
    for (turns, writes, answered) in [(one_by_one.as_slice(), 4, 4), (together.as_slice(), 3, 6)] {
        check_turns(&rt, rt.alloc(), turns, writes, answered);
    }
}

/// A flush that fails ends the session, with so many lines answered and one pending.
fn check_broken(rt: &impl Abort, alloc: Global, said: &'static str, answered: u64) {
    let heard = Cell::new(0);
    let (end, _, _) = talk(rt, alloc, &[(said, "")], true, &heard);
    let wanted = SessionEnd {
        why: EndCause::WriteFault,
        answered,
        pending: true,
    };
    assert_eq!(rt; end, wanted);
}

#[test]
fn a_flush_that_fails_leaves_the_last_reply_pending(rt: HostRuntime) {
    for (said, answered) in [
        ("[\"get\",[5]]\n", 0),
        ("[\"get\",[5]]\n[\"insert\",[5],9]\n\n[\"get\",[5]]\n", 3),
    ] {
        check_broken(&rt, rt.alloc(), said, answered);
    }
}
