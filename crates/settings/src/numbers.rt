//! The numbers of the options, each within its limits.
ghost use Rattle.std.specs.Prelude.{◌≡◌, ◌≤◌, IfSome, option_map, string_bytes};
ghost use Rattle.std.specs.Str.{all_ascii_digits};
ghost use Rattle.settings.specs.Asked.{rows_in};
ghost use Rattle.settings.specs.Numbers.{AreLawful, number_within, number_or as number_or_lem, sizes_of};

use crate::command::value_of;
use clap::ArgMatches;

const USUAL_BITS: u64 = 16;

const MOST_BITS: u64 = 20;

const USUAL_NODES: u64 = 1_048_576;

const MOST_NODES: u64 = 4_194_304;

const USUAL_CACHE: u64 = 2_097_152;

const MOST_CACHE: u64 = 8_388_608;

const MOST_BYTES: u64 = 281_474_976_710_656;

/// The sizes that the options set.
#[derive(Clone, Copy)]
pub struct Sizes {
    pub bits: u8,
    pub nodes: u32,
    pub cache: u32,
    pub limit: u64,
}

fn has_digits_alone(text: &str) -> bool
    ensures { result ≡ all_ascii_digits text.now }
{
    text.bytes().all(|b| b.is_ascii_digit())
}

/// The number that one to twenty digits write, where it is within the limits.
pub fn number_in(text: &str, least: u64, most: u64) -> Option<u64>
    ensures value { result ≡ number_within least most text.now }
    ensures low { IfSome result (λ n. least ≤ n) }
    ensures high { IfSome result (λ n. n ≤ most) }
{
    if text.len() > 20 || !has_digits_alone(text) {
        return None;
    }
    let number: u64 = text.parse().ok()?;
    if number < least || number > most {
        return None;
    }
    Some(number)
}

/// The number of an option, and `usual` where the option is absent.
fn number_or(value: Option<&str>, usual: u64, least: u64, most: u64) -> Option<u64>
    requires low { least ≤ usual }
    requires high { usual ≤ most }
    ensures value { result ≡ number_or_lem usual least most (option_map (λ s. s.now) value.entry) }
    ensures low { IfSome result (λ n. least ≤ n) }
    ensures high { IfSome result (λ n. n ≤ most) }
{
    match value {
        Some(text) => number_in(text, least, most),
        None => Some(usual),
    }
}

pub fn sizes_in(matches: &ArgMatches<'_>) -> Option<Sizes>
    ensures sizes { result ≡ sizes_of (rows_in matches.now) }
    ensures lawful { IfSome result (λ s. AreLawful s.bits s.nodes s.cache s.limit) }
{
    let bits = number_or(value_of(matches, "bits"), USUAL_BITS, 1, MOST_BITS)?;
    let nodes = number_or(value_of(matches, "nodes"), USUAL_NODES, 2, MOST_NODES)?;
    let least = nodes + 2;
    let usual = least.max(USUAL_CACHE);
    let cache = number_or(value_of(matches, "cache"), usual, least, MOST_CACHE)?;
    let limit = number_or(value_of(matches, "limit"), MOST_BYTES, 1, MOST_BYTES)?;
    Some(Sizes {
        bits: bits as u8,
        nodes: nodes as u32,
        cache: cache as u32,
        limit,
    })
}
