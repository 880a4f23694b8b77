//! The words read, and what they say of the log.
ghost use Rattle.std.specs.Prelude.{◌≡◌, None, Some, map, string_bytes, IfOk, IsErrOf, option_map};
ghost use Rattle.settings.specs.Numbers.{AreLawful};
ghost use Rattle.settings.specs.Asked.{asked_by, asked_in, is_dash, log_of, origin_in, pieces, rows_in, sample_of, settings_of};

use crate::command::{has_flag, matches_in, value_of};
use crate::names::names_in;
use crate::numbers::{number_in, sizes_in};
use crate::types::{LogFrom, Settings, UsageEnd};
use clap::ArgMatches;
use std::alloc::Global;

const MOST_SEED: u64 = 4_294_967_295;

const MOST_EVENTS: u64 = 10_000_000;

/// The sample that a seed, a comma and a number of events ask for.
fn sample_in(value: &str) -> Option<LogFrom>
    ensures { option_map origin_in result ≡ sample_of (pieces value.now) }
{
    let (seed, events) = value.split_once(',')?;
    let seed = number_in(seed, 0, MOST_SEED)?;
    let events = number_in(events, 1, MOST_EVENTS)?;
    Some(LogFrom::Sample {
        seed: seed as u32,
        events: events as u32,
    })
}

fn is_input(word: &str) -> bool
    ensures { result ≡ is_dash word.now }
{
    word == "-"
}

/// The log of exactly one of LOG and `--sample`.
fn log_in(
    alloc: Global,
    spec: &str,
    log: Option<&str>,
    sample: Option<&str>,
) -> Result<LogFrom, UsageEnd>
    ensures ok { IfOk result (λ from. log_of spec.now (option_map (λ s. s.now) log.entry) (option_map (λ s. s.now) sample.entry) ≡ Some (origin_in from)) }
    ensures usage { IsErrOf result UsageEnd.Usage → log_of spec.now (option_map (λ s. s.now) log.entry) (option_map (λ s. s.now) sample.entry) ≡ None }
{
    match (log, sample) {
        (Some(log), None) => {
            if is_input(spec) && is_input(log) {
                return Err(UsageEnd::Usage);
            }
            Ok(LogFrom::File(String::from_str(alloc, log)?))
        }
        (None, Some(sample)) => sample_in(sample).ok_or(UsageEnd::Usage),
        _ => Err(UsageEnd::Usage),
    }
}

/// The settings of a command line that was parsed.
fn settings_in(alloc: Global, matches: &ArgMatches<'_>) -> Result<Settings, UsageEnd>
    ensures ok { IfOk result (λ s. asked_in (rows_in matches.now) ≡ Some (asked_by s)) }
    ensures lawful { IfOk result (λ s. AreLawful s.bits s.nodes s.cache s.limit) }
    ensures usage { IsErrOf result UsageEnd.Usage → asked_in (rows_in matches.now) ≡ None }
{
    let sizes = sizes_in(matches).ok_or(UsageEnd::Usage)?;
    let spec = value_of(matches, "SPEC").ok_or(UsageEnd::Usage)?;
    let log = log_in(
        alloc,
        spec,
        value_of(matches, "LOG"),
        value_of(matches, "sample"),
    )?;
    let listen = names_in(alloc, value_of(matches, "listen"))?;
    let spec = String::from_str(alloc, spec)?;
    Ok(Settings {
        bits: sizes.bits,
        nodes: sizes.nodes,
        cache: sizes.cache,
        limit: sizes.limit,
        all: has_flag(matches),
        listen,
        spec,
        log,
    })
}

/// The settings of the words of a command line, without the program's own name.
///
/// The words are one command with the options `--bits`, `--nodes`, `--cache`, `--limit`, `--listen`
/// and `--sample`, the flag `--all`, the word SPEC and the optional word LOG. Names of `--listen`
/// are not looked up here.
pub fn read(alloc: Global, words: &[String]) -> Result<Settings, UsageEnd>
    ensures ok { IfOk result (λ s. settings_of (map string_bytes words.now) ≡ Some (asked_by s)) }
    ensures lawful { IfOk result (λ s. AreLawful s.bits s.nodes s.cache s.limit) }
    ensures usage { IsErrOf result UsageEnd.Usage → settings_of (map string_bytes words.now) ≡ None }
{
    let matches = matches_in(alloc, words)?;
    settings_in(alloc, &matches)
}
