//! From a line to the command that it says.
//!
//! A line is one JSON text. `parse_line` gives the command that it says, or why it says none, and a `LineReader` does so line after
//! line, in memory that it keeps. It reads a line that says a command by its tokens, and makes a tree of values only of one that says
//! none, to tell its fault.
//!
//! A tuple is too long to be handed on from call to call. So a `LineReader` also gives a command as its `Verb`, with the tuples left
//! where the reader keeps them.
#![tactic(auto)]

mod cursors;
mod lines;
mod tokens;

pub use art_refusal;
pub use lines::{LINE_BYTES, LineFault, LineReader, long_lines_are_alike, parse_line};
pub use tokens::Verb;
