//! Tests of what no clause of `art_server` says: the texts that clients see, lines as they write them, scans in
//! sessions, readers and writers that fail, and what a gate is told; and of workers over sockets (`art_workers`), and loads (`art_load`).
#![tactic(auto)]

#[cfg(test)]
mod clients;
#[cfg(test)]
mod gates;
#[cfg(test)]
mod lines;
#[cfg(test)]
mod loads;
#[cfg(test)]
mod replies;
#[cfg(test)]
mod scans;
#[cfg(test)]
mod sessions;
#[cfg(test)]
mod sockets;
#[cfg(test)]
mod waiting;
