//! The typed table, as its callers use it: whole calls, on one thread and on up to four, and calls that are made step by step. Nothing
//! stands above this crate.
//!
//! Whole calls:
//!
//! - `rows`: worked rows of single calls, looks and the close;
//! - `nodes`: which nodes stand, and what of them is left at the close;
//! - `refusals`: small pools, and counters at their end;
//! - `scans`: what a scan lists, page by page, and why it is refused;
//! - `drawn`, `descending`: drawn calls answer as a map of rows does, whose replies are in `replies`;
//! - `threads`: four threads insert rows;
//! - `letters`: what a pass saw goes to a pass in another thread;
//! - `faults`: the refusals that faults are, and their words.
//!
//! Step by step:
//!
//! - `stopped`: a call stops after each of its steps, and goes on or is given up;
//! - `turns`: four attempts go on by drawn turns;
//! - `crowded`: a pass stays pinned;
//! - `commands`: scans whose looks stand apart, and calls as commands.
//!
//! What they share is in `tables` (tables, and calls of their passes), `attempts` and `events` (histories).
#![tactic(auto)]

#[cfg(test)]
mod attempts;
#[cfg(test)]
mod commands;
#[cfg(test)]
mod crowded;
#[cfg(test)]
mod descending;
#[cfg(test)]
mod drawn;
#[cfg(test)]
mod events;
#[cfg(test)]
mod faults;
#[cfg(test)]
mod letters;
#[cfg(test)]
mod nodes;
#[cfg(test)]
mod refusals;
#[cfg(test)]
mod replies;
#[cfg(test)]
mod rows;
#[cfg(test)]
mod scans;
#[cfg(test)]
mod stopped;
#[cfg(test)]
mod tables;
#[cfg(test)]
mod threads;
#[cfg(test)]
mod turns;
