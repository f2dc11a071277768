//! The options of a load: how the subcommand has them, and what its matches give.
ghost use Rattle.std.specs.Prelude.{◌≡◌, ◌↔◌, IfOk, IsTrue, MatchResult, [], ◌∷◌};
ghost use Rattle.clap.specs.Words.{app_of, first_value, found_of};
ghost use Rattle.clap.specs.declared.error.kind.ErrorKind.TheVariants.{ValueValidation};
ghost use Rattle.art_tools.specs.Options.{load_options, numbers_fault, with_load_options};
ghost use Rattle.art_tools.specs.Ranges.{HasLoadNumbers, IsLoad, load_of};

use crate::options::{NoNumber, number, number_option, read_sizes, with_size_options};
use crate::settings::LoadSettings;
use art_server::art_table::Config;
use clap::{ArgMatches, Command};
use std::alloc::{AllocError, Global};

/// The most threads of a load, which is the most passes of a table.
const THREADS: u128 = 32;

/// The most commands of a thread.
const OPS: u128 = 1_000_000;

/// The numbers of a load as they are given. One past 128 bits is the most that they hold.
#[derive(Clone, Copy)]
pub(crate) struct LoadNumbers {
    sizes: Config,
    threads: u128,
    ops: u128,
    seed: u128,
    keys: u128,
}

impl LoadNumbers {
    /// Whether each number is in its range.
    pub(crate) fn is_valid(&self) -> bool
        ensures { IsTrue result ↔ IsLoad (load_of self.now) }
    {
        self.sizes.is_valid()
            && 1 <= self.threads
            && self.threads <= THREADS
            && self.ops <= OPS
            && self.seed <= u128::from(u64::MAX)
            && 1 <= self.keys
            && self.keys <= u128::from(u64::MAX)
    }

    /// The settings with these numbers.
    pub(crate) fn settings(self) -> LoadSettings
        requires { IsLoad (load_of self) }
        ensures { result ≡ load_of self }
    {
        LoadSettings {
            sizes: self.sizes,
            threads: self.threads as u32,
            ops: self.ops as u32,
            seed: self.seed as u64,
            keys: self.keys as u64,
        }
    }
}

/// The command with the options of a load.
pub(crate) fn with_load_options<'a>(
    alloc: Global,
    command: Command<'a>,
) -> Result<Command<'a>, AllocError>
    ensures { IfOk result (λ c. app_of c ≡ with_load_options (app_of command.entry)) }
{
    let command = command
        .arg(number_option(alloc, "threads", "Threads, each with a pass [default: 2]"))?
        .arg(number_option(alloc, "ops", "Commands of each thread [default: 1000]"))?
        .arg(number_option(
            alloc,
            "seed",
            "Where the drawing of keys begins [default: 1]",
        ))?
        .arg(number_option(alloc, "keys", "How many keys there are [default: 1000]"))?;
    with_size_options(alloc, command)
}

/// Reads the options of a load, unless a number is none.
pub(crate) fn read_load<'a>(given: &ArgMatches<'a>) -> Result<LoadNumbers, NoNumber<'a>>
    ensures { MatchResult result
        (λ numbers. (numbers_fault load_options (first_value (found_of given.now)) ≡ [])
        × HasLoadNumbers (first_value (found_of given.now)) numbers)
        (λ _. numbers_fault load_options (first_value (found_of given.now)) ≡ ValueValidation ∷ []) }
{
    Ok(LoadNumbers {
        sizes: read_sizes(given)?,
        threads: number(given, "threads", 2)?,
        ops: number(given, "ops", 1000)?,
        seed: number(given, "seed", 1)?,
        keys: number(given, "keys", 1000)?,
    })
}
