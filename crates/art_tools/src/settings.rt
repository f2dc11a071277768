//! What the words of the command line ask for, and why they may ask for nothing.
ghost use Rattle.std.specs.Prelude.{◌≡◌};
ghost use Rattle.art_tools.specs.Faults.{fault_from, told_fault};
ghost use Rattle.art_tools.specs.declared.settings.SettingsFault.TheVariants.{NoMemory};

use art_server::art_table::Config;
use clap::error::ErrorKind;
use std::alloc::AllocError;
use std::error::Error;
use std::fmt;

/// What the program is asked to do: a variant for each subcommand, with its options.
#[derive(Clone, Copy)]
pub enum Settings<'a> {
    /// `run`: one session.
    Run(TableSettings<'a>),
    /// `step`: a schedule of single steps.
    Step(TableSettings<'a>),
    /// `load`: commands of many threads, counted.
    Load(LoadSettings),
    /// `serve`: sessions over sockets.
    Serve(ServeSettings<'a>),
}

/// What a table is opened with.
#[derive(Clone, Copy)]
pub struct TableSettings<'a> {
    /// `--schema`
    pub schema: &'a str,
    /// The numbers, for a table of one pass: each subcommand opens its table with as many as it has. One that its field cannot hold
    /// stands there as the most that it can.
    pub sizes: Config,
}

/// What a load is made with. Its table has one column, `u64`.
#[derive(Clone, Copy)]
pub struct LoadSettings {
    /// The numbers, for a table of one pass.
    pub sizes: Config,
    /// `--threads`: 1 to 32.
    pub threads: u32,
    /// `--ops`: how many commands each thread makes, at most 1,000,000.
    pub ops: u32,
    /// `--seed`: where the drawing of keys begins.
    pub seed: u64,
    /// `--keys`: how many keys there are, from 1 on.
    pub keys: u64,
}

/// What a server is started with.
#[derive(Clone, Copy)]
pub struct ServeSettings<'a> {
    /// The options of its table.
    pub table: TableSettings<'a>,
    /// `--port`: from 1 on.
    pub port: u16,
    /// `--workers`: 1 to 32.
    pub workers: u32,
    /// `--sessions`: after how many it ends.
    pub sessions: u32,
}

/// Why there are no settings.
#[derive(Debug, Drop)]
pub enum SettingsFault {
    /// The words were refused, or they ask for help. The error has the text for the user, where it
    /// goes, and the status to exit with.
    Usage(clap::Error),
    /// A number is out of its range.
    Range,
    /// Memory ran out.
    NoMemory,
}

impl fmt::Display for SettingsFault {
    ghost output = { told_fault };

    fn fmt<W: fmt::Write>(&self, f: &mut fmt::Formatter<W>) -> fmt::Result {
        match self {
            SettingsFault::Usage(error) => write!(f, "{error}"),
            SettingsFault::Range => f.write_str("a number is out of its range"),
            SettingsFault::NoMemory => f.write_str("no memory"),
        }
    }
}

impl Error for SettingsFault {}

impl From<clap::Error> for SettingsFault {
    ghost from_gives = { λ error fault. fault ≡ fault_from error };

    fn from(error: clap::Error) -> SettingsFault {
        match error.kind() {
            ErrorKind::OutOfMemory => SettingsFault::NoMemory,
            _ => SettingsFault::Usage(error),
        }
    }
}

impl From<AllocError> for SettingsFault {
    ghost from_gives = { λ _ fault. fault ≡ NoMemory };

    fn from(_error: AllocError) -> SettingsFault {
        SettingsFault::NoMemory
    }
}
