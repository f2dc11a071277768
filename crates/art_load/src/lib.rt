//! A load: many threads at one table, each with commands of its own.
//!
//! `load` starts one thread for each pass. The thread makes so many commands by its pass, one after another, and counts the replies: which
//! were inserted, present, removed, absent, found, refused. What comes back are the passes, and the counts of all threads together.
//!
//! No command is left to chance: thread `T` draws at step `I` the key `(seed + 13 * T + 7 * I) mod 2^64 mod keys`, and of four rounds of
//! three steps two insert it, with itself as value, one removes it, and one gets it. So two runs ask the same of a table, however their
//! threads fall out, and the threads meet at the same keys again and again.
//!
//! ```text
//!   thread 0 ── pass 0    insert 5   insert 12  insert 19  ..  remove 47  ..  get 68  ..      counts ─┐
//!   thread 1 ── pass 1    insert 18  insert 25  insert 32  ..  remove 60  ..  get 81  ..      counts ─┼── their sum
//!   thread 2 ── pass 2    insert 31  insert 38  insert 45  ..  remove 73  ..  get 94  ..      counts ─┘
//! ```
//!
//! Which replies come is the threads' affair. What is promised is that the counts are those of replies that the passes gave to these
//! commands, none left out; and, by a law, that each pass told them as events of its own, at which one sorted map answers so
//! (`loads_tell_own`). Another law counts the rows that a history leaves (`rows_left`).
//!
//! Where a load has its table alone, from the opening to the close, all its threads are of one history. That has as many events of each
//! kind as were counted, so the rows at the close are those inserted less those removed (`loads_are_one_map`).
#![tactic(auto)]

mod commands;
mod counts;
mod faults;
mod laws;
mod loads;
mod threads;

pub use counts::Counts;
pub use faults::LoadFault;
pub use laws::{loads_are_one_map, loads_tell_own, rows_left};
pub use threads::load;
