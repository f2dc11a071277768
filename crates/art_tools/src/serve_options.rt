//! The options of a server: how the subcommand has them, and what its matches give.
ghost use Rattle.std.specs.Prelude.{◌≡◌, ◌↔◌, IfOk, IsTrue, MatchResult, [], ◌∷◌};
ghost use Rattle.clap.specs.Words.{app_of, first_value, found_of};
ghost use Rattle.clap.specs.declared.error.kind.ErrorKind.TheVariants.{ValueValidation};
ghost use Rattle.art_tools.specs.Options.{numbers_fault, serve_options, with_serve_options};
ghost use Rattle.art_tools.specs.Ranges.{HasServeNumbers, IsServe, serve_of};

use crate::options::{NoNumber, number, number_option, read_options, with_table_options};
use crate::settings::{ServeSettings, TableSettings};
use clap::{ArgMatches, Command};
use std::alloc::{AllocError, Global};

/// The most workers of a server, which is the most passes of a table.
const WORKERS: u128 = 32;

/// The numbers of a server as they are given. One past 128 bits is the most that they hold.
#[derive(Clone, Copy)]
pub(crate) struct ServeNumbers<'a> {
    table: TableSettings<'a>,
    port: u128,
    workers: u128,
    sessions: u128,
}

impl<'a> ServeNumbers<'a> {
    /// Whether each number is in its range.
    pub(crate) fn is_valid(&self) -> bool
        ensures { IsTrue result ↔ IsServe self.now.table.sizes self.now.port self.now.workers self.now.sessions }
    {
        self.table.sizes.is_valid()
            && 1 <= self.port
            && self.port <= u128::from(u16::MAX)
            && 1 <= self.workers
            && self.workers <= WORKERS
            && self.sessions <= u128::from(u32::MAX)
    }

    /// The settings with these numbers.
    pub(crate) fn settings(self) -> ServeSettings<'a>
        requires { IsServe self.table.sizes self.port self.workers self.sessions }
        ensures { result ≡ serve_of self.entry }
    {
        ServeSettings {
            table: self.table,
            port: self.port as u16,
            workers: self.workers as u32,
            sessions: self.sessions as u32,
        }
    }
}

/// The command with the options of a server.
pub(crate) fn with_serve_options<'a>(
    alloc: Global,
    command: Command<'a>,
) -> Result<Command<'a>, AllocError>
    ensures { IfOk result (λ c. app_of c ≡ with_serve_options (app_of command.entry)) }
{
    let port = number_option(alloc, "port", "The port of 127.0.0.1 to listen on").required(true);
    let command = command
        .arg(port)?
        .arg(number_option(
            alloc,
            "workers",
            "Clients that are answered at once [default: 2]",
        ))?
        .arg(number_option(
            alloc,
            "sessions",
            "After how many clients it ends [default: 1]",
        ))?;
    with_table_options(alloc, command)
}

/// Reads the options of a server, unless a number is none.
pub(crate) fn read_serve<'a>(given: &ArgMatches<'a>) -> Result<ServeNumbers<'a>, NoNumber<'a>>
    ensures { MatchResult result
        (λ numbers. (numbers_fault serve_options (first_value (found_of given.now)) ≡ [])
        × HasServeNumbers (first_value (found_of given.now)) numbers)
        (λ _. numbers_fault serve_options (first_value (found_of given.now)) ≡ ValueValidation ∷ []) }
{
    Ok(ServeNumbers {
        table: read_options(given)?,
        // Words that lack it are refused before they are read, so its default is none that fits.
        port: number(given, "port", 0)?,
        workers: number(given, "workers", 2)?,
        sessions: number(given, "sessions", 1)?,
    })
}
