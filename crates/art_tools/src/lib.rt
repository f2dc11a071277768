//! What the program `art_index` does: an ordered index in memory, answering lines of commands.
//!
//! `command_line::settings` reads the words of a command line, and `execute` does what they ask for over a reader and two
//! writers, and answers the status that the program ends with. It has four subcommands, each over a table of its own:
//!
//! | Subcommand | What it does | Passes of its table |
//! |---|---|---|
//! | `run` | one session, from the reader to the writer | one |
//! | `step` | a schedule of single steps | eight |
//! | `load` | commands of many threads, whose replies are counted | one a thread |
//! | `serve` | sessions over sockets | one a worker |
//!
//! ```text
//! let status = execute(&rt, alloc, &["art_index", "run"], &mut Counted::new(input), &mut output, &mut faults);
//! ```
//!
//! What went wrong is a `RunFault`, with its line and its status.
#![tactic(auto)]

pub mod command_line;
mod help;
mod load_options;
mod loads;
mod options;
mod program;
mod run_faults;
mod schedules;
mod serve_options;
mod servers;
mod settings;
mod tables;

pub use help::{AFTER_HELP, LOAD_HELP, RUN_HELP, SERVE_HELP, STEP_HELP};
pub use program::{execute, run};
pub use run_faults::RunFault;
pub use schedules::step;
pub use settings::{LoadSettings, ServeSettings, Settings, SettingsFault, TableSettings};
