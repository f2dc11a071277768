//! Calls of many passes over one world, by any list of turns, and what they come to.
//!
//! An `Op` is one call of a pass: an insert, a removal, a get or a look. It makes one step a turn. `run` takes a list of turns, each
//! the number of a pass, and lets the op of that pass make its step; so a list of turns is one way in which calls may overlap, and
//! what `run` says holds of each of them.
//!
//! ```text
//!   turns      0   1   1   0   0   1   0
//!   op 0       ·           ·   ✱       ·        insert, new
//!   op 1           ·   ·           ✱            get, found
//!                              │   │
//!   history  ── .. ────────────┴───┴──►         one, legal, of all passes: each ✱ is an event, made at one turn of its own op
//! ```
//!
//! # What holds of every list of turns
//!
//! *One history.* Afterwards there is one list of events of all passes, in which each event says what one sorted map of keys answers
//! after the events before it; it begins with all that each pass has seen, and so with what it had seen before the run; and the tree of
//! the world has the rows that it leaves (`HasOneHistory`).
//!
//! *Each call once.* An op makes its event at one turn of its own and at no other, or it makes none (`MakesOnce`). One that ended with
//! an answer has made the event of just that answer, and one that was refused, or has not decided yet, has made none
//! (`IsCarriedOn`). What a look found are the rows of its range at the place of its event, since this is what the map answers there.
//!
//! *Each call ends.* Each turn of an op that has not ended is one step of its call, or its end; so an op that had the turns that it was
//! given and a thousand more has ended (`ends` in `IsCarriedOn`).
//!
//! *An op alone.* An op that alone has turns, while every other pass is idle, meets no failure and never begins anew; it is not crowded,
//! and busy only where it had few turns (`GoesAlone`).
//!
//! *Typed rows.* Where all keys spell tuples of a schema, the history is a legal one of typed rows, and the tree has the spellings of
//! the rows that it leaves (`HasTypedHistory`). No op then meets a key that begins its own, or ends so (`apart` in `IsCarriedOn`).
#![tactic(auto)]

mod ops;
mod runs;
mod solo;

pub use art_change;
pub use ops::Op;
pub use runs::run;
pub use solo::calls_alone_do_not_fail;
