//! The carrier of many threads: all words in one table, with what always holds of them.
//!
//! # A table and its passes
//!
//! `Shared` keeps the words of all cells, of free numbers, of the epoch and of the passes in one `atomic_table`. It is opened
//! with its passes (`Shared::open`), each a `Pass`, which a thread may take with it: a pass is the right to make its steps, and
//! no two passes have the same number. A `Pass` has a seat of the table. What the seat knows (`Known`) exists in proofs alone:
//! what the table was opened with, the view of the pass as `art_step` has it, and histories that it was told.
//!
//! # Keys
//!
//! A table is opened with a schema (`Basis`), and a command may have no key but one that spells a tuple of it (`IsKeyOf`): that is what
//! the `admits` of a `Stepper` says. So a pass that looks at the history sees typed rows alone, whoever made them (`AreAdmitted`, kept
//! from step to step in `OnlyStepped`, and in `IsPassOf` for a pass that is not lent).
//!
//! # Steps
//!
//! A pass is lent to the table (`Shared::at`), and makes its steps on the `Stepper`, by the traits of `art_step`: a machine
//! that runs on a world of one thread runs here unchanged. Seen from the code, each call makes one atomic operation on one word, and
//! no other. Its contract says that it makes one step; that it makes no second load beside it, no clause says:
//!
//! | call | operation |
//! |---|---|
//! | `begin`, `read`, `read_leaf`, `check` | load |
//! | `upgrade` | compare and exchange: the stamped version word becomes a locked one, or nothing is written |
//! | `claim` | store, of a locked word whose counter is 0, to a version word that nobody else writes |
//! | `commit`, `release` | add, to a version word that nobody else writes |
//! | `write`, `write_leaf` | store, to a word that nobody else writes |
//! | `bits_clear` | load where no bit is named, else and, with a mask of all other bits |
//! | `bits_set` | or, with the bit, which is not set |
//! | `epoch`, `pass_load` | load |
//! | `epoch_add` | add |
//! | `pass_store` | store, to the pass's own word |
//!
//! All operations are sequentially consistent. There is no lock round the table, and no call waits for another thread.
//!
//! A word of free numbers that is only looked at is loaded. Other designs of this kind look by an and with all ones: that finds the
//! same word and leaves it as it was too, but takes the word's cache line from all other threads.
//!
//! # The rule
//!
//! Between any two steps of any threads the table keeps one rule (`Kept` in `specs/Rule.antt`): its words, and the views that all
//! seats have, are a world in which the invariant of `art_step` holds; each pass stands in one seat; what a seat was told is a
//! beginning of the one history; all commands of that have keys of the schema; and the anchor's counter is never below the one at which
//! the table was opened, and is just that one until some pass makes a step (`BeginsAt`). Each step of a thread has to keep it, whatever
//! the table is then, and is shown to by the law of its kind: no step rests on what other threads do or leave undone.
//!
//! # What a step tells
//!
//! A seat sees nothing of the table but the word that its step finds. What its contract says of the step, it says at an instant
//! (`Moment` in `specs/Turns.antt`): there is a state of the table that keeps the rule, in which the seat knows what it knew
//! before the call, and one that the step made of it. That such a state was one of this run is no contract's matter: it is what
//! `atomic_table` says of each of its steps.
//!
//! A pass that is lent is changed by its steps alone (`OnlyStepped`), so that it is one of its table still when the borrow ends
//! (`lent_passes_stay`).
//!
//! Outside its steps a pass knows nothing of the words, since the next thread may have changed them. A `Pass` carries two lasting
//! facts alone: its stamps have the places of their cells, and its numbers in hand and in limbo are numbers that there are.
//!
//! # Marks
//!
//! A pass sees the history as far as it went at its last event. What it has seen it can pass on to others, in any thread:
//!
//! ```text
//!   pass 2                          pass 5, in another thread
//!     │
//!     mark ── looks at the anchor
//!     │       and sees h
//!     └───── Mark of h ──────────►  learn
//!                                     │  its seat is told h
//!                                     └  it looks at the anchor, and sees a history
//!                                        that begins with h
//! ```
//!
//! A `Mark` has a seat of its own, with no pass, that was told one history; so it has no bytes, and needs no memory. By the rule
//! that history is a beginning of the one that there is, whenever the mark is learnt. A look of the anchor is one step (`Anchor`
//! in `art_step`), a load of its version word, by which a pass sees all of the history. `meet` makes two marks, there and back:
//! each of two passes sees what the other had seen. To split a seat off or to join one is another load, whose word tells nothing.
//!
//! # The end
//!
//! `Shared::close` takes the table and passes of it, and gives all words, in their places (`Ended`). It takes no memory, so it is not
//! refused. The words (`words_of`) are those of a sound world, in which each of the passes knows what it knew at its last step (`Closes`).
//! What is left is said in the table's own words:
//!
//! - one history (`TellsAll`). It is legal, of commands with keys of the schema, begins with what each of the passes has seen, and has
//!   the events of each at their places. Where all passes of the table are closed, it has no others.
//! - the tree (`ShowsReplay`). Where they are all, and none holds a cell, the words mean a tree with the rows that this history
//!   leaves.
//! - the numbers (`IsAccounted`). Where none has a number in hand either, each number of each pool has just one `Fate`: it is
//!   linked in that tree, free, or in the limbo of one of the passes. No limbo has a number twice.
#![tactic(auto)]

mod closing;
mod ended;
mod first_places;
mod law;
mod laws;
mod lending;
mod mark;
mod marks;
mod opening;
mod pass;
mod shared;
mod shows;
mod stepper;
mod steps;

pub use ended::Ended;
pub use law::{Basis, Known, Law};
pub use laws::lent_passes_stay;
pub use mark::Mark;
pub use pass::Pass;
pub use shared::Shared;
pub use stepper::Stepper;
