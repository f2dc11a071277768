//! The options of a table, and numbers of options: how a subcommand has them, and what its matches give.
ghost use Rattle.std.specs.Prelude.{◌≡◌, ◌-◌, ◌^◌, IfOk, MatchResult, Some, [], ◌∷◌, true, false, min};
ghost use Rattle.std.specs.Char.{is_ascii_digit};
ghost use Rattle.std.specs.List.{list_all};
ghost use Rattle.std.specs.Str.Parse.{digits_value};
ghost use Rattle.clap.specs.Words.{app_of, first_value, found_of, items_of, rule_of};
ghost use Rattle.clap.specs.declared.error.kind.ErrorKind.TheVariants.{ValueValidation};
ghost use Rattle.art_tools.specs.Options.{HasSaturated, has_digits, is_digits, number_given, numbers_fault, option_rule, saturated, size_options, sizes_given, with_size_options, with_table_options};

use crate::settings::TableSettings;
use art_server::art_table::Config;
use clap::{Arg, ArgMatches, Command};
use std::alloc::{AllocError, Global};

/// A value that should be a number and is no row of digits.
#[derive(Clone, Copy)]
pub struct NoNumber<'a> {
    /// The option.
    pub name: &'static str,
    /// Its value.
    pub value: &'a str,
}

/// The command with the options of a table.
pub fn with_table_options<'a>(
    alloc: Global,
    command: Command<'a>,
) -> Result<Command<'a>, AllocError>
    ensures { IfOk result (λ c. app_of c ≡ with_table_options (app_of command.entry)) }
{
    let schema = option(
        alloc,
        "schema",
        "TEXT",
        "The columns of a row [default: u64]",
    );
    with_size_options(alloc, command.arg(schema)?)
}

/// The command with the options for the sizes of a table.
pub fn with_size_options<'a>(alloc: Global, command: Command<'a>) -> Result<Command<'a>, AllocError>
    ensures { IfOk result (λ c. app_of c ≡ with_size_options (app_of command.entry)) }
{
    command
        .arg(number_option(alloc, "leaves", "The most rows [default: 4096]"))?
        .arg(number_option(alloc, "n4", "Nodes of 4 children [default: 4096]"))?
        .arg(number_option(alloc, "n16", "Nodes of 16 children [default: 1024]"))?
        .arg(number_option(alloc, "n48", "Nodes of 48 children [default: 512]"))?
        .arg(number_option(alloc, "n256", "Nodes of 256 children [default: 128]"))?
        .arg(number_option(alloc, "counter-start", "Where counters start [default: 0]"))
}

// `--name NUMBER`
pub(crate) fn number_option<'a>(alloc: Global, name: &'a str, help: &'a str) -> Arg<'a>
    ensures rule { rule_of result ≡ option_rule name.entry.now }
    ensures local { result.global ≡ false }
    ensures shown { result.help ≡ Some help.entry }
{
    option(alloc, name, "NUMBER", help)
}

// `--name VALUE`, of any text.
fn option<'a>(alloc: Global, name: &'a str, value: &'a str, help: &'a str) -> Arg<'a>
    ensures rule { rule_of result ≡ option_rule name.entry.now }
    ensures local { result.global ≡ false }
    ensures shown { (result.help ≡ Some help.entry) × (items_of result.val_names ≡ value.entry ∷ []) }
{
    Arg::new(alloc, name)
        .long(name)
        .value_name(value)
        .help(help)
}

/// Reads the options of a table, unless a number is none.
pub fn read_options<'a>(given: &ArgMatches<'a>) -> Result<TableSettings<'a>, NoNumber<'a>>
    ensures { MatchResult result
        (λ options. (numbers_fault size_options (first_value (found_of given.now)) ≡ [])
        × HasSaturated (first_value (found_of given.now)) options)
        (λ _. numbers_fault size_options (first_value (found_of given.now)) ≡ ValueValidation ∷ []) }
{
    let sizes = read_sizes(given)?;
    let schema = given.get_str("schema").unwrap_or("u64");
    Ok(TableSettings { schema, sizes })
}

/// Reads the sizes of a table of one pass, unless a number is none. One that its field cannot hold is the most that it can.
pub(crate) fn read_sizes<'a>(given: &ArgMatches<'a>) -> Result<Config, NoNumber<'a>>
    ensures { MatchResult result
        (λ sizes. (numbers_fault size_options (first_value (found_of given.now)) ≡ [])
        × (sizes ≡ saturated (sizes_given (first_value (found_of given.now)))))
        (λ _. numbers_fault size_options (first_value (found_of given.now)) ≡ ValueValidation ∷ []) }
{
    Ok(Config {
        leaves: size(given, "leaves", 4096)?,
        n4: size(given, "n4", 4096)?,
        n16: size(given, "n16", 1024)?,
        n48: size(given, "n48", 512)?,
        n256: size(given, "n256", 128)?,
        passes: 1,
        counter_start: counter(given, "counter-start", 0)?,
    })
}

// The number of an option as a size. One past 32 bits is the most that they hold.
fn size<'a>(given: &ArgMatches<'a>, name: &'static str, default: u64) -> Result<u32, NoNumber<'a>>
    ensures { MatchResult result
        (λ n. (has_digits (first_value (found_of given.now)) name.now ≡ true)
        × (n ≡ min (number_given (first_value (found_of given.now)) name.now default) (2 ^ 32 - 1)))
        (λ _. has_digits (first_value (found_of given.now)) name.now ≡ false) }
{
    let number = number(given, name, default)?;
    Ok(number.min(u128::from(u32::MAX)) as u32)
}

// The number of an option as a counter. One past 64 bits is the most that they hold.
fn counter<'a>(
    given: &ArgMatches<'a>,
    name: &'static str,
    default: u64,
) -> Result<u64, NoNumber<'a>>
    ensures { MatchResult result
        (λ n. (has_digits (first_value (found_of given.now)) name.now ≡ true)
        × (n ≡ min (number_given (first_value (found_of given.now)) name.now default) (2 ^ 64 - 1)))
        (λ _. has_digits (first_value (found_of given.now)) name.now ≡ false) }
{
    let number = number(given, name, default)?;
    Ok(number.min(u128::from(u64::MAX)) as u64)
}

/// The number of an option, or its default. One past 128 bits is the most that they hold, which is past every range.
pub(crate) fn number<'a>(
    given: &ArgMatches<'a>,
    name: &'static str,
    default: u64,
) -> Result<u128, NoNumber<'a>>
    ensures { MatchResult result
        (λ n. (has_digits (first_value (found_of given.now)) name.now ≡ true)
        × (n ≡ min (number_given (first_value (found_of given.now)) name.now default) (2 ^ 128 - 1)))
        (λ _. has_digits (first_value (found_of given.now)) name.now ≡ false) }
{
    match given.get_str(name) {
        None => Ok(u128::from(default)),
        Some(value) if is_digits(value.as_bytes()) => Ok(digits_value(value)),
        Some(value) => Err(NoNumber { name, value }),
    }
}

// Whether there are bytes, and each is a digit.
fn is_digits(text: &[u8]) -> bool
    ensures { result ≡ is_digits text.now }
{
    !text.is_empty() && all_digits(text)
}

fn all_digits(text: &[u8]) -> bool
    ensures { result ≡ list_all is_ascii_digit text.now }
{
    text.iter().all(|byte| byte.is_ascii_digit())
}

// The number that digits write. One past 128 bits is the most that they hold.
fn digits_value(digits: &str) -> u128
    requires { is_digits digits.now ≡ true }
    ensures { result ≡ min (digits_value 10 digits.now) (2 ^ 128 - 1) }
{
    digits.parse::<u128>().unwrap_or(u128::MAX)
}
