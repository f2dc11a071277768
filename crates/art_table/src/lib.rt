//! The typed table: rows under a schema, in words that threads share.
//!
//! # A table and its passes
//!
//! `open` gives a table and its passes, numbered from 0. Each thread takes a pass of its own and calls the table with it: `insert`,
//! `remove`, `get`, `look`. The table is only read by a call (`&Table`): what threads share are its words, one by one. A pass has all
//! that its calls need, reserved as the table is opened, so that no call takes memory but `close`.
//!
//! ```text
//!   thread 1 ── pass 0 ──┐
//!   thread 2 ── pass 1 ──┼── &Table ── one row of atomic words
//!   thread 3 ── pass 2 ──┘
//! ```
//!
//! # What a call says
//!
//! Other threads change the table between any two steps of a call, so its contract speaks of what its pass has seen: a history of
//! typed rows (`seen_by`), with the pass's own events at their places (`own_of`). The history only grows, and is always legal: one
//! sorted map, from the empty one on, answers each event as it stands there. Where a call is answered, the history ends with its
//! event, with that answer. Where it is refused, the pass has seen nothing new.
//!
//! ```text
//!   seen at entry             what others did              this call
//!   [ .. .. .. .. .. ..  |  .. .. .. .. .. .. .. ..  |  insert [5], 9: new ]   seen at exit
//! ```
//!
//! A look goes on from a bound of the caller's, which it leaves where its range ended, and writes the row that it found over a row of the
//! caller's. So looks one after another read a range, each row where it is wanted.
//!
//! # One step at a time
//!
//! A call is an attempt that is run to its end. `start` begins one, which owns its pass; `step` makes one step and says which kind it
//! was; `finish` makes all that are left, and gives the pass back with the answer; `abandon` gives up where nothing is held and
//! nothing was told.
//!
//! # Passes that hear of one another
//!
//! What a pass has seen goes to another by a `Mark`, over a channel or any other way between threads: after `learn` the other has
//! seen all of it, and its calls come after. `meet` does this both ways.
//!
//! # The end
//!
//! `close` takes the table and all of its passes, and says what the table held: the rows in order, which are those that one history
//! of all passes leaves, and how many numbers of each pool are linked, free and in limbo.
#![tactic(auto)]

mod attempts;
mod calls;
mod closing;
mod configs;
mod faults;
mod jobs;
mod marked;
mod marks;
mod passes;
mod tables;

pub use art_refusal;
pub use attempts::{Attempt, Progress, start, start_look};
pub use calls::{Inserted, get, insert, look, remove};
pub use closing::{CloseFault, CloseRefusal, Closed, close};
pub use configs::Config;
pub use faults::{Fault, OpenFault};
pub use jobs::{Job, Outcome, Seen};
pub use marked::Mark;
pub use marks::{learn, mark, meet};
pub use passes::Pass;
pub use tables::{Table, open};
