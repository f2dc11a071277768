//! A reader that keeps account of its reads.
ghost use Rattle.std.specs.Prelude.{◌≡◌, [], ◌∷◌, ◌++◌};
ghost use Rattle.std.specs.Io.{ReadsAtMost};
ghost use Rattle.std.specs.Io.KnownBytes.{ReadConsumes};
ghost use Rattle.art_server.specs.Given.{given};
ghost use Rattle.art_server.specs.Counted.{reader_of, reads_of};

use crate::accounts::{NoReads, OneMoreRead};
use art_ghosts::Ghost;
use std::collections::LinkedList;
use std::io::{self, Read};

/// A reader whose reads contracts count: they know what each read gave, and which failed.
///
/// The account takes no memory: it exists in proofs alone.
#[derive(Drop)]
pub struct Counted<R> {
    reader: R,
    reads: Ghost<LinkedList<Option<usize>>>,
}

impl<R> Counted<R> {
    /// The reader, of which no read is counted yet.
    pub fn new(reader: R) -> Self
        ensures reader { reader_of result ≡ reader }
        ensures none { reads_of result ≡ [] }
    {
        Counted {
            reader,
            reads: Ghost::<LinkedList<Option<usize>>>::chosen::<NoReads>(),
        }
    }

    /// The reader, after the reads that were made of it.
    pub fn into_inner(self) -> R
        ensures { result ≡ reader_of self }
    {
        let Counted { reader, reads: _ } = self;
        reader
    }
}

impl<R: Read> Read for Counted<R> {
    ghost remaining = { λ counted. R.remaining (reader_of counted) };

    /// One read of the reader, whatever comes of it.
    fn read(&mut self, bytes: &mut [u8]) -> io::Result<usize>
        ensures bound { ReadsAtMost result bytes.new }
        ensures bytes { ReadConsumes (R.remaining (reader_of self.old)) (R.remaining (reader_of self.new)) result bytes.new }
        ensures count { reads_of self.new ≡ reads_of self.old ++ given result ∷ [] }
    {
        let result = self.reader.read(bytes);
        self.reads = self
            .reads
            .changed::<io::Result<usize>, (), OneMoreRead>(&result, &());
        result
    }
}
