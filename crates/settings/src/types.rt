//! What the words can ask for, and how the reading of them ends without it.
ghost use Rattle.settings.specs.declared.types.UsageEnd.TheVariants.{NoMemory};
ghost use Rattle.std.specs.Prelude.{◌≡◌};

use qtl_syntax::Text;
use sqlite_items::Items;
use std::alloc::AllocError;
use thiserror::Error;

/// Where the log comes from.
#[derive(Debug, Drop)]
pub enum LogFrom {
    /// The file of this name; `-` is standard input.
    File(String),
    /// The sample log of `seed`, with 1 to 10,000,000 `events`.
    Sample { seed: u32, events: u32 },
}

/// What the words of a command line ask for.
#[derive(Debug, Drop)]
pub struct Settings {
    /// Bits of a variable's codes, 1 to 20.
    pub bits: u8,
    /// Nodes of the table, 2 to 4,194,304.
    pub nodes: u32,
    /// Entries of the cache, `nodes + 2` to 8,388,608.
    pub cache: u32,
    /// Bytes of the log that are read, 1 to 281,474,976,710,656.
    pub limit: u64,
    /// Whether true verdicts are written too.
    pub all: bool,
    /// Names of listeners, as they were given: unknown and repeated names among them.
    pub listen: Items<Text>,
    /// The specification's file; `-` is standard input.
    pub spec: String,
    pub log: LogFrom,
}

/// Why words gave no settings.
#[derive(Clone, Copy, Debug, PartialEq, Eq, Error)]
pub enum UsageEnd {
    /// The words are no use of the command, or call for its help.
    #[error("wrong use of the command")]
    Usage,
    /// There was no memory.
    #[error("no memory")]
    NoMemory,
}

impl From<AllocError> for UsageEnd {
    ghost from_gives = { λ _ e. e ≡ NoMemory };

    fn from(_error: AllocError) -> UsageEnd {
        UsageEnd::NoMemory
    }
}
