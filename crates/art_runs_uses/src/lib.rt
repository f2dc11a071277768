//! Writes of one pass over a world, and calls of four passes by drawn turns. The answers of the one are beside those of a map of rows; what
//! the others did, in the order in which it was made, is one legal history, which leaves the rows of the tree. Nothing stands above this
//! crate.
#![tactic(auto)]

#[cfg(test)]
mod benches;
#[cfg(test)]
mod cells;
#[cfg(test)]
mod clients;
#[cfg(test)]
mod commands;
#[cfg(test)]
mod counters;
#[cfg(test)]
mod drawn;
#[cfg(test)]
mod events;
#[cfg(test)]
mod rows;
#[cfg(test)]
mod small_pools;
#[cfg(test)]
mod wishes;
