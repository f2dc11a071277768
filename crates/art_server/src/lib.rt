//! The sessions of the server: lines in, a reply to each line out.
//!
//! `session` goes from the bytes of a reader to the bytes of a writer: each line is read by `art_lines` and answered by the pass as the
//! line before left it, and the end says how many replies were wholly written, and whether one more was begun. A session reads a
//! `Counted` reader, so that its contract can say which reads it makes: at most 1,000,000, and none after one that fails. `print_reply`
//! gives the text of a reply, or of a numbered refusal, with its line feed.
//!
//! `Lines` gives the lines of such a reader: one read is made where no line is left, and each line is given where it was read.
//!
//! A `Gate` is told of each atomic step that a session makes, and of each reply: so a test can hold a session at any step, and see what the
//! others do meanwhile. `NoGate` is told of nothing, and costs nothing.
//!
//! A command that is made step by step ends in an `Ending` of `art_scan`: `print_ending` gives the text of its reply. `write_text` writes a
//! text and flushes it, for whoever writes lines of its own.
#![tactic(auto)]

mod accounts;
mod counted;
mod endings;
mod gates;
mod lines;
mod replies;
mod sessions;
mod streams;
mod texts;
mod watched;

pub use art_scan;
pub use art_scan::art_table;
pub use art_scan::art_table::art_refusal::Refusal;
pub use counted::Counted;
pub use endings::{endings_are_answers, print_ending};
pub use gates::{Gate, NoGate};
pub use lines::Lines;
pub use replies::print_reply;
pub use sessions::{EndCause, SessionEnd, session};
pub use streams::{lines_are_read_back, write_text};
