//! Sessions over sockets, by a worker for each pass of a table.
//!
//! A server has a listener and some passes. Each pass gets a thread of its own, its worker: this claims the next session, accepts a
//! connection for it, answers its lines, and goes on with its pass as the session left it.
//!
//! ```text
//!   pass 0      session, session, session     back, 3
//!   pass 1      session                       back, 1
//! ```
//!
//! What is promised: the passes come back in their order. Each of them had talks, one after another, and each talk is a session as
//! `art_server` tells it: the bytes that were read, the bytes that were written, how it ended, and the pass before and after. Where all
//! went well every pass is back, and the number that is told is that of all their talks. Once the table is
//! closed with the passes that came back, all of it is of one sorted map (`served_are_one_map`).
//!
//! What is not: after a fault no clause says which passes came back, nor which fault is told when. As the code is, the other workers go
//! on, and a pass is lost where its thread could not be started. Nothing is said of the order in time between clients on different passes.
//! Which client a worker gets, and what a socket carried, is in no contract but as bytes that the session read and wrote. As many sessions
//! are claimed as are asked for, on one counter for all workers; no clause says so.
#![tactic(auto)]

mod faults;
mod laws;
mod serving;

pub use faults::ServeFault;
pub use laws::served_are_one_map;
pub use serving::serve;
