//! The lines of a reader.
ghost use Rattle.std.specs.Prelude.{◌≡◌, ◌+◌, ◌≤◌, [], slice_range, take};
ghost use Rattle.art_server.specs.Counted.{reader_of, reads_of};
ghost use Rattle.art_server.specs.Lines.{AllAreGiven, GoesOn, ReadsOnce};
ghost use Rattle.art_server.specs.Streams.{last_part};

use crate::Counted;
use crate::accounts::{MoreBytes, NoBytes};
use art_ghosts::Ghost;
use memchr::memchr;
use std::collections::LinkedList;
use std::io::{self, Read};
use std::marker::Model;

/// How many bytes of a line are given: one more than a line may have, so that one that is too long is seen as such.
const GIVEN: usize = 4097;

/// The most bytes of one read.
const PIECE: usize = 4096;

/// Room for the front of a line, and for one read behind it.
pub(crate) const ROOM: usize = 8193;

/// Bytes from one place up to another.
#[derive(Clone, Copy)]
pub(crate) struct Span {
    pub(crate) from: usize,
    pub(crate) to: usize,
}

/// The lines of a reader, one after another, as far as it was read.
///
/// A line is given where it was read, so it is not copied. Only the front of a line that a read cut is moved.
#[derive(Drop)]
pub struct Lines {
    bytes: [u8; ROOM],
    /// The line that was given last, since the last read.
    line: Span,
    /// Where the line under way begins.
    start: usize,
    /// Up to here there is no line feed in it.
    seen: usize,
    /// Up to here bytes were read.
    end: usize,
    /// All that was read before `seen`, dropped bytes too.
    before: Ghost<LinkedList<u8>>,
}

impl Model for Lines {
    ghost use Rattle.art_server.specs.Lines.{LinesRead};

    ghost Value = { LinesRead };

    ghost use Rattle.art_server.specs.HeldLines.{HoldsLine, lines_read};

    ghost view = { lines_read };

    ghost invariant = { HoldsLine };
}

impl Lines {
    /// Nothing is read.
    pub fn new() -> Self
        ensures { result ≡ record { taken = []; given = 0; line = [] } }
    {
        Lines {
            bytes: [0; ROOM],
            line: Span { from: 0, to: 0 },
            start: 0,
            seen: 0,
            end: 0,
            before: Ghost::<LinkedList<u8>>::chosen::<NoBytes>(),
        }
    }

    /// Makes one read, where each line that ended in what was read is given. Whether it gave bytes: if not, the input has ended.
    pub fn read<R: Read>(&mut self, reader: &mut Counted<R>) -> io::Result<bool>
        requires { AllAreGiven self.old }
        ensures given { self.new.given ≡ self.old.given }
        ensures line { self.new.line ≡ [] }
        ensures reads { ReadsOnce (R.remaining (reader_of reader.old)) (R.remaining (reader_of reader.new))
            (reads_of reader.old) (reads_of reader.new) self.old.taken self.new.taken result }
    {
        let kept = (self.end - self.start).min(GIVEN);
        let ahead = Span {
            from: self.seen,
            to: self.end,
        };
        self.before = self
            .before
            .changed::<[u8; ROOM], Span, MoreBytes>(&self.bytes, &ahead);
        to_front(&mut self.bytes, self.start, kept);
        self.line = Span { from: 0, to: 0 };
        self.start = 0;
        self.seen = kept;
        self.end = kept;
        let count = reader.read(&mut self.bytes[kept..kept + PIECE])?;
        self.end = kept + count;
        Ok(count > 0)
    }

    /// Goes on to the next line that ended in what was read. Whether there is one.
    #[inline]
    pub fn advance(&mut self) -> bool
        ensures { GoesOn self.old self.new result }
    {
        let Some(length) = memchr(b'\n', &self.bytes[self.seen..self.end]) else {
            return false;
        };
        let feed = self.seen + length;
        let fed = Span {
            from: self.seen,
            to: feed + 1,
        };
        self.before = self
            .before
            .changed::<[u8; ROOM], Span, MoreBytes>(&self.bytes, &fed);
        self.line = Span {
            from: self.start,
            to: feed.min(self.start + GIVEN),
        };
        self.start = feed + 1;
        self.seen = feed + 1;
        true
    }

    /// The line to which it went on last, without its line feed. A read leaves it empty.
    #[inline]
    pub fn line(&self) -> &[u8]
        ensures { result.now ≡ self.now.line }
    {
        &self.bytes[self.line.from..self.line.to]
    }

    /// What stands after the last line feed, where each line before it is given. It may be empty.
    pub fn rest(&self) -> &[u8]
        requires { AllAreGiven self.now }
        ensures { result.now ≡ take 4097 (last_part self.now.taken) }
    {
        &self.bytes[self.start..self.end.min(self.start + GIVEN)]
    }
}

/// Moves so many bytes to the front. Where they stand there nothing is moved, so a line that comes in many reads costs no more.
fn to_front(bytes: &mut [u8; ROOM], from: usize, count: usize)
    requires { from + count ≤ 8193 }
    ensures { take count bytes.new ≡ slice_range bytes.old from (from + count) }
{
    if from > 0 {
        bytes.copy_within(from..from + count, 0);
    }
}
