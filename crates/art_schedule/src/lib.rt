//! Schedules: which pass makes which steps, line by line.
//!
//! # What a schedule is
//!
//! A call of a table is a row of single steps: a word is read, a version is checked, a cell is locked. Threads make the steps of their
//! calls in any order, and most orders are rarely met. A schedule names one: each of its lines says which pass goes on, and how far. So a
//! person sees one interleaving, again and again, and on one thread.
//!
//! A table of a schedule has eight passes, with the names A to H. A line is the name of a pass and what it is to do, in words with one
//! blank between them:
//!
//! | Line | What the pass does | What is printed |
//! |---|---|---|
//! | `A start TURNS JSON` | it begins the command, in so many turns, and makes no step | nothing |
//! | `A until WORD` | it makes steps up to the first one of this kind, or the first `event` | `A at WORD` |
//! | `A until WORD n` | the same, up to the n-th one | `A at WORD` |
//! | `A step n` | it makes so many steps | `A stepped` |
//! | `A end` | it makes all steps that are left | its reply |
//!
//! The kinds of step are `begin`, `read`, `check`, `upgrade`, `write`, `commit`, `release`, `claim`, `take`, `give`, `epoch`, `pin`,
//! `advance`, `watch` and `anchor`; an `event` is the one step at which a call takes effect. Where a command has fewer steps left than a
//! line wants, it ends there, and its reply is printed in place of the line's own words: `A REPLY restarts k`, where `k` says how often it
//! began anew. So does the reply to a text that says no command, at its start. A number is a row of digits, of 32 bits.
//!
//! # An example
//!
//! ```text
//!   B start 50 ["get",[5]]       prints nothing
//!   A start 1000 ["insert",[3],3]
//!   A until upgrade              A at upgrade                        A has locked a node, and stands
//!   B end                        B ["refused",10,"Busy"] restarts 12 B met the lock until its turns were used
//!   A end                        A ["inserted"] restarts 0
//! ```
//!
//! # How a schedule ends
//!
//! At the end of the input each command that is under way is run to its end, in order of the names, and its reply printed. A line that is
//! none of these, a start where a command is under way, and another line where none is, end the schedule at once (`ScheduleEnd`). Then,
//! and after a read or a write that failed, what is under way is run to its end too, and nothing more is printed. Each pass comes back
//! idle, at its place.
//!
//! Once the table is closed with them, the replies are those of one sorted map at points of one history (`schedules_are_one_map`).
#![tactic(auto)]

mod desks;
mod laws;
mod lines;
mod orders;
mod schedules;
mod seats;
mod steps;
mod stops;
mod tells;

pub use laws::schedules_are_one_map;
pub use lines::{Line, Mark, Order, parse};
pub use schedules::run_schedule;
pub use stops::ScheduleEnd;
