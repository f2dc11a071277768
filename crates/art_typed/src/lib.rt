//! Histories of byte keys, read as histories of typed rows.
//!
//! A pass sees events with byte keys (`art_step`). Where each command has a key that spells a tuple of one schema, its history is one
//! of typed rows as well (`typed`): the same passes, commands and replies, with tuples for keys. The one law of this crate says that
//! what is legal of bytes is legal of rows.
//!
//! ```text
//!   bytes    [] ── insert 00 05, 9 ──► {00 05: 9} ── look of [00 02, 00 07): (00 05, 9)
//!             │                            │
//!   Spells    │                            │
//!             ▼                            ▼
//!   rows     [] ── insert [5], 9 ─────► {[5]: 9} ── look of [00 02, 00 07): ([5], 9)
//! ```
//!
//! `Spells` ties a map of byte keys to sorted rows, and each event keeps it.
#![tactic(auto)]

mod laws;

pub use laws::histories_are_typed;
