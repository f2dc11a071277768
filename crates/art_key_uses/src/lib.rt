//! Tests of what no clause of `art_model` and `art_key` says: that their definitions mean what worked examples say.
#![tactic(auto)]

#[cfg(test)]
mod events;
#[cfg(test)]
mod keys;
#[cfg(test)]
mod rows;
#[cfg(test)]
mod scans;
#[cfg(test)]
mod schemas;
#[cfg(test)]
mod tuples;
