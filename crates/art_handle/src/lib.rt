//! Handles of a table: passes that share in it.
//!
//! A call of `art_table` takes the table and a pass of it. So whoever calls has to keep the table for as long as one of its passes is used,
//! and has to bring each pass to its own table. A `Handle` is a pass with a share of its table. It borrows nothing, so a struct can keep
//! it, and a thread can take it along; there is no second value to go with it, and no lifetime to get wrong.
//!
//! ```text
//!   handle 0 ── pass 0 ─┐
//!   handle 1 ── pass 1 ─┼── the table, which goes with the last handle
//!   handle 2 ── pass 2 ─┘
//! ```
//!
//! `open` makes a table, and gives all of its passes as handles: as many as the config says, and there are never more. A handle makes one
//! call at a time, since each call takes it by `&mut`; calls of different handles run at once, and none waits for another. The table ends
//! with the last of its handles, whatever the order in which they are dropped.
//!
//! A call does what the same call of `art_table` or of `art_scan` does, and its contract says that in their words: `Ends` and `Scans`, of
//! the table and the pass of the handle. It asks that the pass is one of that table, as it is from `open` on, and keeps it so.
#![tactic(auto)]

mod handles;
mod opening;

pub use art_scan;
pub use handles::Handle;
pub use opening::open;
