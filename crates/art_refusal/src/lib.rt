//! The refusals that a client sees, numbered.
//!
//! A refusal says why a command changed nothing, or why a table was not started. A client sees its number and its name, as
//! `refused 12 Crowded`, and nothing of what the fault knew besides: the column, the pool, the pass in the way, the cell.
//!
//! ```text
//!   1  to 3     lines                   the line says no command
//!   4  to 7     lines, keys             a value stands in no column, or not in its own
//!   8  and 9    scans                   the range or the limit of a scan
//!   10          the table, scans        the turns are used up
//!   11 to 13    the table               a pool, a limbo or a counter is at its end
//!   14          all that take memory    there is none
//!   20 to 23    the schema              the columns make no table
//!   24 and 25   the table               it is not opened, or not closed
//! ```
//!
//! So 1 to 14 are of commands, and 20 to 25 of the table that is started for them.
//!
//! This enum stands below all that tell one. The fault of a value and that of a schema become refusals here, and each other fault beside
//! its own enum (`From`), so that whoever meets it says which refusal it is.
#![tactic(auto)]

mod refusals;

pub use refusals::Refusal;
