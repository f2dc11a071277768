//! What the index promises, as a plain program: typed rows in order, and what one sorted map of them answers.
//!
//! Everything above is proved against the definitions of this crate: the order of values and, as each column
//! ascends or descends, of tuples, sorted rows, and the answer to a command. `SortedRows` answers commands one after another by those definitions,
//! slowly and plainly. Nothing here knows of bytes, nodes or threads.
#![tactic(auto)]

mod commands;
mod faults;
mod laws;
mod rows;
mod scans;
mod sorted_rows;
mod values;

pub use commands::{Answer, Command, Reply};
pub use faults::NoMemory;
pub use laws::{
    rows_answer_at_places, rows_are_searched, texts_stand_by_code_points, tuples_have_orders,
};
pub use rows::{Order, Row, Tuple};
pub use scans::scan_ok;
pub use sorted_rows::SortedRows;
pub use values::{TEXT_BYTES, Text, Value};
