//! Why a log gives no further event.
ghost use Rattle.std.specs.Prelude.{◌≡◌};
ghost use Rattle.log_reader.specs.Standing.{lasting as lasting_lem};

use std::alloc::{AllocError, AllocFailed};

/// Why there is no next event. `number` is that of the faulty record: the number of events before, and 1.
#[derive(Clone, Copy, Debug, PartialEq, Eq)]
pub enum LogFault {
    /// A quoted field isn't closed at the end of the log.
    QuoteOpen { number: u64 },
    /// Behind a closing quote stands another byte than a blank, a comma or a line feed.
    AfterQuote { number: u64 },
    /// The line has more than 65,536 bytes before its line feed.
    RecordTooLong { number: u64 },
    /// The line has more than 64 fields.
    TooManyFields { number: u64 },
    /// The first field is empty.
    EmptyName { number: u64 },
    /// The log is timed, and the line has one field only, or its last field is no number of 64 bits.
    BadTime { number: u64 },
    /// The time `now` is below `before`, that of the last event.
    TimeBack { number: u64, before: u64, now: u64 },
    /// The same record can be asked for again.
    NoMemory,
}

/// The fault, if it is one of the log.
pub fn lasting(fault: LogFault) -> Option<LogFault>
    ensures { result ≡ lasting_lem fault }
{
    match fault {
        LogFault::NoMemory => None,
        _ => Some(fault),
    }
}

impl From<AllocError> for LogFault {
    ghost use Rattle.std.specs.Prelude.{◌≡◌};
    ghost use Rattle.log_reader.specs.declared.fault.LogFault.TheVariants.{NoMemory};

    ghost from_gives = { λ _ e. e ≡ NoMemory };

    fn from(_: AllocError) -> Self {
        LogFault::NoMemory
    }
}

impl<T: Drop> From<AllocFailed<T>> for LogFault {
    ghost use Rattle.std.specs.Prelude.{◌≡◌};
    ghost use Rattle.log_reader.specs.declared.fault.LogFault.TheVariants.{NoMemory};

    ghost from_gives = { λ _ e. e ≡ NoMemory };

    fn from(_: AllocFailed<T>) -> Self {
        LogFault::NoMemory
    }
}
