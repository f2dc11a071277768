//! Worked rows of cells, leaves, numbers and paths, gets and looks of an empty tree, and the steps of inserts and removals, one after another,
//! beside those that were written down; most of them over a world of one thread.
//!
//! Each test makes steps of one pass. Whole changes, in turns with those of other passes, stand in `art_runs_uses`.
//! Nothing stands above this crate.
#![tactic(auto)]

#[cfg(test)]
mod cells;
#[cfg(test)]
mod expected;
#[cfg(test)]
mod free_numbers;
#[cfg(test)]
mod gets;
#[cfg(test)]
mod keys;
#[cfg(test)]
mod leaves;
#[cfg(test)]
mod lines;
#[cfg(test)]
mod looks;
#[cfg(test)]
mod numbers;
#[cfg(test)]
mod paths;
#[cfg(test)]
mod reads;
#[cfg(test)]
mod seeks;
#[cfg(test)]
mod step_names;
#[cfg(test)]
mod traces;
#[cfg(test)]
mod worlds;
