//! The command as `clap` parses it, and the values that a parse found.
ghost use Rattle.std.specs.Prelude.{◌≡◌, None, map, string_bytes, IfOk, IsErrOf, codes, option_map};
ghost use Rattle.clap.specs.Words.{app_of, first_of, with_rule};
ghost use Rattle.settings.specs.Asked.{asked_in, is_all, rows_in, settings_of};
ghost use Rattle.settings.specs.Command.{options, option_rule, dejavu};

use crate::types::UsageEnd;
use clap::error::ErrorKind;
use clap::{Arg, ArgAction, ArgMatches, Command};
use std::alloc::{AllocError, Global};

/// One more option of one value.
fn with_option<'a>(
    alloc: Global,
    command: Command<'a>,
    name: &'a str,
) -> Result<Command<'a>, AllocError>
    ensures { IfOk result (λ c. app_of c ≡ with_rule (app_of command.entry) (option_rule name.entry.now)) }
{
    let option = Arg::new(alloc, name).long(name).action(ArgAction::Set);
    let longer = command.arg(option)?;
    Ok(longer)
}

/// The options of one value.
fn options_command<'a>(alloc: Global) -> Result<Command<'a>, AllocError>
    ensures { IfOk result (λ c. app_of c ≡ options) }
{
    let start = Command::new(alloc, "dejavu").no_binary_name(true);
    let first = with_option(alloc, start, "bits")?;
    let second = with_option(alloc, first, "nodes")?;
    let third = with_option(alloc, second, "cache")?;
    let fourth = with_option(alloc, third, "limit")?;
    let fifth = with_option(alloc, fourth, "listen")?;
    let sixth = with_option(alloc, fifth, "sample")?;
    Ok(sixth)
}

/// The whole command.
fn dejavu_command<'a>(alloc: Global) -> Result<Command<'a>, AllocError>
    ensures { IfOk result (λ c. app_of c ≡ dejavu) }
{
    let all = Arg::new(alloc, "all")
        .long("all")
        .action(ArgAction::SetTrue);
    let spec = Arg::new(alloc, "SPEC")
        .action(ArgAction::Set)
        .required(true);
    let log = Arg::new(alloc, "LOG").action(ArgAction::Set);
    let start = options_command(alloc)?;
    let first = start.arg(all)?;
    let second = first.arg(spec)?;
    let third = second.arg(log)?;
    Ok(third)
}

/// The matches of the words, or a wrong use.
pub fn matches_in<'a>(alloc: Global, words: &'a [String]) -> Result<ArgMatches<'a>, UsageEnd>
    ensures ok { IfOk result (λ m. settings_of (map string_bytes words.entry.now) ≡ asked_in (rows_in m)) }
    ensures usage { IsErrOf result UsageEnd.Usage → settings_of (map string_bytes words.entry.now) ≡ None }
{
    let command = match dejavu_command(alloc) {
        Ok(command) => command,
        Err(_) => return Err(UsageEnd::NoMemory),
    };
    match command.try_get_matches_from(words) {
        Ok(matches) => Ok(matches),
        Err(fault) => match fault.kind() {
            ErrorKind::OutOfMemory => Err(UsageEnd::NoMemory),
            _ => Err(UsageEnd::Usage),
        },
    }
}

/// The value of an option or a word.
pub fn value_of<'a>(matches: &ArgMatches<'a>, name: &str) -> Option<&'a str>
    ensures { option_map (λ s. s.now) result ≡ first_of name.now (rows_in matches.now) }
{
    matches.get_str(name)
}

/// Whether `--all` was given.
pub fn has_flag(matches: &ArgMatches<'_>) -> bool
    ensures { result ≡ is_all (rows_in matches.now) }
{
    matches.get_one::<bool>("all").unwrap_or(false)
}
