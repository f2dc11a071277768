//! The program's subcommands and their options, and what the words of a command line ask of them.
ghost use Rattle.std.specs.Prelude.{◌≡◌, IfOk, MatchResult, []};
ghost use Rattle.clap.specs.Words.{app_of, first_value, found_of, kind_of, new_app};
ghost use Rattle.clap.specs.declared.error.kind.ErrorKind.TheVariants.{ValueValidation};
ghost use Rattle.art_server.specs.ArtTable.Sizes.{IsConfig};
ghost use Rattle.art_tools.specs.Faults.{Explains};
ghost use Rattle.art_tools.specs.Options.{HasOptions, load_options, numbers_fault, serve_options, size_options, sizes_given, with_table_options};
ghost use Rattle.art_tools.specs.Ranges.{HasServe, IsLoad, IsServeGiven, load_given};
ghost use Rattle.art_tools.specs.Settings.{IsAskedBy, IsInRange, art_index_app, faults_of, load_app, serve_app, texts_of};

use crate::help::{AFTER_HELP, LOAD_HELP, RUN_HELP, SERVE_HELP, STEP_HELP, VERSION};
use crate::load_options::{read_load, with_load_options};
use crate::options::{NoNumber, read_options, with_table_options};
use crate::serve_options::{read_serve, with_serve_options};
use crate::settings::{LoadSettings, ServeSettings, Settings, SettingsFault, TableSettings};
use clap::error::ErrorKind;
use clap::{ArgMatches, Command};
use std::alloc::{AllocError, Global};

/// Reads the words of a command line, of which the first is the program's name.
///
/// Words that clap refuses, no subcommand, a number that is no row of digits and a request for help are `Usage`. Where
/// nothing of this is wrong, and a number is out of its range, that is `Range`.
pub fn settings<'a>(alloc: Global, words: &'a [&'a str]) -> Result<Settings<'a>, SettingsFault>
    ensures asked { IfOk result (IsAskedBy (texts_of words.entry.now)) }
    ensures refused { MatchResult result
        (λ _. (faults_of words.entry.now ≡ []) × IsInRange words.entry.now)
        (Explains (faults_of words.entry.now) (IsInRange words.entry.now)) }
{
    let mut program = art_index(alloc)?;
    let matches = program.try_get_matches_from_mut(words)?;
    let Some((name, given)) = matches.subcommand() else {
        unreachable!();
    };
    match name {
        "run" => Ok(Settings::Run(table_settings(alloc, &mut program, given)?)),
        "step" => Ok(Settings::Step(table_settings(alloc, &mut program, given)?)),
        "load" => Ok(Settings::Load(load_settings(alloc, &mut program, given)?)),
        "serve" => Ok(Settings::Serve(serve_settings(alloc, &mut program, given)?)),
        _ => unreachable!(),
    }
}

// The program, with its subcommands.
fn art_index<'a>(alloc: Global) -> Result<Command<'a>, AllocError>
    ensures { IfOk result (λ c. app_of c ≡ art_index_app) }
{
    let run = table_command(
        alloc,
        "run",
        "Answers the lines on standard input",
        RUN_HELP,
    )?;
    let step = table_command(alloc, "step", "Runs a schedule of single steps", STEP_HELP)?;
    let load = load_command(alloc)?;
    let serve = serve_command(alloc)?;
    Command::new(alloc, "art_index")
        .about("An ordered index in memory")
        .after_help(AFTER_HELP)
        .version(VERSION)
        .subcommand_required(true)
        .subcommand(run)?
        .subcommand(step)?
        .subcommand(load)?
        .subcommand(serve)
}

// A subcommand with the options of a table.
fn table_command<'a>(
    alloc: Global,
    name: &'a str,
    about: &'a str,
    after_help: &'a str,
) -> Result<Command<'a>, AllocError>
    ensures { IfOk result (λ c. app_of c ≡ with_table_options (new_app name.entry.now)) }
{
    let command = Command::new(alloc, name)
        .about(about)
        .after_help(after_help);
    with_table_options(alloc, command)
}

// `load`
fn load_command<'a>(alloc: Global) -> Result<Command<'a>, AllocError>
    ensures { IfOk result (λ c. app_of c ≡ load_app) }
{
    let command = Command::new(alloc, "load")
        .about("Makes commands by many threads, and counts the replies")
        .after_help(LOAD_HELP);
    with_load_options(alloc, command)
}

// `serve`
fn serve_command<'a>(alloc: Global) -> Result<Command<'a>, AllocError>
    ensures { IfOk result (λ c. app_of c ≡ serve_app) }
{
    let command = Command::new(alloc, "serve")
        .about("Answers the lines of clients, over sockets")
        .after_help(SERVE_HELP);
    with_serve_options(alloc, command)
}

// The options of a table that the matches of a subcommand give, each number in its range.
fn table_settings<'a>(
    alloc: Global,
    program: &mut Command<'a>,
    given: &ArgMatches<'a>,
) -> Result<TableSettings<'a>, SettingsFault>
    ensures has { IfOk result (HasOptions (first_value (found_of given.now))) }
    ensures refused { MatchResult result
        (λ _. (numbers_fault size_options (first_value (found_of given.now)) ≡ []) × IsConfig (sizes_given (first_value (found_of given.now))))
        (Explains (numbers_fault size_options (first_value (found_of given.now))) (IsConfig (sizes_given (first_value (found_of given.now))))) }
{
    match read_options(given) {
        Ok(table) => {
            if !table.sizes.is_valid() {
                return Err(SettingsFault::Range);
            }
            Ok(table)
        }
        Err(fault) => Err(SettingsFault::from(usage_error(alloc, program, fault)?)),
    }
}

// The options of a load that the matches of its subcommand give, each number in its range.
fn load_settings<'a>(
    alloc: Global,
    program: &mut Command<'a>,
    given: &ArgMatches<'a>,
) -> Result<LoadSettings, SettingsFault>
    ensures has { IfOk result (λ asked. asked ≡ load_given (first_value (found_of given.now))) }
    ensures refused { MatchResult result
        (λ _. (numbers_fault load_options (first_value (found_of given.now)) ≡ []) × IsLoad (load_given (first_value (found_of given.now))))
        (Explains (numbers_fault load_options (first_value (found_of given.now))) (IsLoad (load_given (first_value (found_of given.now))))) }
{
    match read_load(given) {
        Ok(numbers) => {
            if !numbers.is_valid() {
                return Err(SettingsFault::Range);
            }
            Ok(numbers.settings())
        }
        Err(fault) => Err(SettingsFault::from(usage_error(alloc, program, fault)?)),
    }
}

// The options of a server that the matches of its subcommand give, each number in its range.
fn serve_settings<'a>(
    alloc: Global,
    program: &mut Command<'a>,
    given: &ArgMatches<'a>,
) -> Result<ServeSettings<'a>, SettingsFault>
    ensures has { IfOk result (HasServe (first_value (found_of given.now))) }
    ensures refused { MatchResult result
        (λ _. (numbers_fault serve_options (first_value (found_of given.now)) ≡ []) × IsServeGiven (first_value (found_of given.now)))
        (Explains (numbers_fault serve_options (first_value (found_of given.now))) (IsServeGiven (first_value (found_of given.now)))) }
{
    match read_serve(given) {
        Ok(numbers) => {
            if !numbers.is_valid() {
                return Err(SettingsFault::Range);
            }
            Ok(numbers.settings())
        }
        Err(fault) => Err(SettingsFault::from(usage_error(alloc, program, fault)?)),
    }
}

// clap's error at a value that is no number.
fn usage_error(
    alloc: Global,
    program: &mut Command<'_>,
    fault: NoNumber<'_>,
) -> Result<clap::Error, AllocError>
    ensures { IfOk result (λ error. kind_of error ≡ ValueValidation) }
{
    let NoNumber { name, value } = fault;
    let message = format!(in alloc;
        "invalid value '{value}' for '--{name} <NUMBER>': not a row of digits"
    )?;
    program.error(ErrorKind::ValueValidation, message.as_str())
}
