//! Scans of a range by looks, one after another.
//!
//! A scan lists the rows from one tuple to another while the table changes under it. It looks at one small part of its range after
//! another: a look finds the one row of its part, or none, and says where the part ended, and there the next look begins. So the looks
//! tile the range, and between two of them the table may change.
//!
//! ```text
//!   look      1         2         3         4
//!             ├─────────┼─────────┼─────────┼─────────┤
//!   part      1         4         6         9         end
//!   state     3 5 8     3 8       4 8       4 8 9
//!   found     3         none      8         9
//! ```
//!
//! This scan from 1 to 9 lists 3, 8 and 9. Each of them stood when its look was made. 8 stood at all looks, so it had to be listed. 5
//! stood when the scan began, and was gone before the look of its part. 4 came when its part had been looked at.
//!
//! A look at its place in a history is a `Tile`. What tiles list is what a scan owes over the states that they saw (`IsScanOf` of
//! `art_model`), where the scan may stop: nothing of its range is left, or it has found as many rows as it was asked for. That is the
//! first law of this crate. The second says where a range ends that goes up to a tuple and has it: at the bound just above its key.
#![tactic(auto)]

mod ends;
mod faults;
mod laws;
mod looking;
mod running;
mod scans;
mod tilings;

pub use art_table;
pub use ends::after_ends_range;
pub use faults::ScanFault;
pub use laws::{looks_at_one_state_are_answers, looks_that_tile_are_scans};
pub use running::{Ending, Running, start_command};
pub use scans::{More, scan};
