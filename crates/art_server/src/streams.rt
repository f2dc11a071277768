//! Bytes from readers and to writers.
ghost use Rattle.std.specs.Prelude.{◌≡◌, ℕ, List, All};
ghost use Rattle.std.specs.List.{flat_map};
ghost use Rattle.art_server.specs.Streams.{HasNoFeed, with_feed, lines_of, WritesFront};

use std::io::{self, ErrorKind, Write};

/// Lines that hold no line feed, each with a line feed after it, are read as these lines.
pub fn lines_are_read_back()
    ensures { (lines : List (List ℕ)) → All HasNoFeed lines → lines_of (flat_map with_feed lines) ≡ lines }
{}

/// Writes all of the text and flushes. The first write that fails or takes no byte ends it, after some front of the text, and so does a
/// flush that fails, after all of it.
pub fn write_text<W: Write>(writer: &mut W, text: &[u8]) -> io::Result<()>
    ensures { WritesFront text.now (W.contents writer.old) (W.contents writer.new) result }
{
    write_whole(writer, text)?;
    writer.flush()
}

/// Writes all of the text, as a session writes a reply, and does not flush. The first write that fails or takes no byte ends it, after
/// some front of the text.
pub(crate) fn write_whole<W: Write>(writer: &mut W, text: &[u8]) -> io::Result<()>
    ensures { WritesFront text.now (W.contents writer.old) (W.contents writer.new) result }
{
    let mut rest = text;
    while !rest.is_empty() {
        match writer.write(rest)? {
            0 => return Err(io::Error::from(ErrorKind::WriteZero)),
            count => rest = &rest[count..],
        }
    }
    Ok(())
}
