//! How far a run came, and what became of its text. An `End` is made here alone.
ghost use Rattle.std.specs.Prelude.{◌≡◌};
ghost use Rattle.run_model.specs.Course.{end_of, end_of_log, end_of_spec, end_of_stop, end_of_verdicts};

use crate::end::End;
use log_reader::LogFault;
use qtl_syntax::SpecFault;
use report::Which;
use wellformed::NameFault;

/// Why the specification gave no judge.
#[derive(Clone, Copy, Debug, PartialEq, Eq)]
pub enum SpecStop {
    Unopened,
    Unread,
    TooLong,
    /// Never want of memory.
    Fault(SpecFault),
    /// Never want of memory.
    Names(NameFault),
}

/// How the log ended.
#[derive(Clone, Copy, Debug, PartialEq, Eq)]
pub enum LogStop {
    Unopened,
    /// A read failed.
    Unread,
    /// It was read to its end, and each event judged.
    Whole,
    /// Never want of memory.
    Fault(LogFault),
    Long {
        limit: u64,
    },
    CodesFull {
        event: u64,
        variable: u32,
        need: u32,
    },
    NodesFull {
        event: u64,
        subformula: u32,
        row: u32,
    },
}

/// Where a run stopped.
#[derive(Clone, Copy, Debug, PartialEq, Eq)]
pub enum Stop {
    /// The words are a wrong use.
    Misused,
    Spec(SpecStop),
    Log(LogStop),
}

/// Why a text wasn't written whole.
#[derive(Clone, Copy, Debug, PartialEq, Eq)]
pub enum Loss {
    /// A write failed.
    Cut,
    /// There was no memory.
    Starved,
}

/// How a run went: it came to a stop and its text was written whole, or the text was lost on the way or at a stop.
#[derive(Clone, Copy, Debug, PartialEq, Eq)]
pub enum Course {
    Came(Stop),
    Lost(Loss, Option<Stop>),
}

/// Why a part of a run gave up: it came to a stop, or its text was lost on the way.
#[derive(Clone, Copy, Debug, PartialEq, Eq)]
pub enum Halt<S> {
    At(S),
    Lost(Loss),
}

/// The end of a log of which each event was judged.
fn verdict_of(violations: u64) -> End
    ensures { result ≡ end_of_verdicts violations }
{
    if violations == 0 {
        End::AllTrue
    } else {
        End::Violated { count: violations }
    }
}

impl SpecStop {
    fn end(self) -> End
        ensures { result ≡ end_of_spec self }
    {
        match self {
            SpecStop::Unopened => End::OpenFault { which: Which::Spec },
            SpecStop::Unread => End::ReadFault { which: Which::Spec },
            SpecStop::TooLong => End::SpecTooLong,
            SpecStop::Fault(fault) => End::Spec(fault),
            SpecStop::Names(fault) => End::Names(fault),
        }
    }
}

impl LogStop {
    fn end(self, violations: u64) -> End
        ensures { result ≡ end_of_log violations self }
    {
        match self {
            LogStop::Unopened => End::OpenFault { which: Which::Log },
            LogStop::Unread => End::ReadFault { which: Which::Log },
            LogStop::Whole => verdict_of(violations),
            LogStop::Fault(fault) => End::Log(fault),
            LogStop::Long { limit } => End::LogTooLong { limit },
            LogStop::CodesFull {
                event,
                variable,
                need,
            } => End::CodesFull {
                event,
                variable,
                need,
            },
            LogStop::NodesFull {
                event,
                subformula,
                row,
            } => End::NodesFull {
                event,
                subformula,
                row,
            },
        }
    }
}

impl Stop {
    /// The end of a run that stops so and whose text is written whole. Its last line is that of this end.
    pub fn end(self, violations: u64) -> End
        ensures { result ≡ end_of_stop violations self }
    {
        match self {
            Stop::Misused => End::Usage,
            Stop::Spec(stop) => stop.end(),
            Stop::Log(stop) => stop.end(violations),
        }
    }
}

impl Course {
    /// The end of a run that went so.
    pub fn end(self, violations: u64) -> End
        ensures { result ≡ end_of violations self }
    {
        match self {
            Course::Came(stop) => stop.end(violations),
            Course::Lost(Loss::Cut, _) => End::WriteFault,
            Course::Lost(Loss::Starved, _) => End::NoMemory,
        }
    }
}
