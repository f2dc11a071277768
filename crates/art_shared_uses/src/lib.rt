//! Calls over a table that threads share: on one thread, and on up to eight. Nothing stands above this crate.
#![tactic(auto)]

#[cfg(test)]
mod clients;
#[cfg(test)]
mod closing;
#[cfg(test)]
mod contention;
#[cfg(test)]
mod letters;
#[cfg(test)]
mod looks;
#[cfg(test)]
mod marks;
#[cfg(test)]
mod one_thread;
#[cfg(test)]
mod rows;
#[cfg(test)]
mod threads;
