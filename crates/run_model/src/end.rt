//! How a run ends.
use log_reader::LogFault;
use qtl_syntax::SpecFault;
use report::Which;
use wellformed::NameFault;

/// How a run ends.
#[derive(Clone, Copy, Debug, PartialEq, Eq)]
pub enum End {
    /// The log was read to its end, and no verdict was false.
    AllTrue,
    /// The log was read to its end, and `count` verdicts, at least one, were false.
    Violated {
        count: u64,
    },
    /// The words are a wrong use.
    Usage,
    /// The specification has more than 1,048,576 bytes.
    SpecTooLong,
    /// The specification has this fault, which is never want of memory.
    Spec(SpecFault),
    /// Its names have this fault, the first one of the first pass that has one, which is never want of memory.
    Names(NameFault),
    /// The log has this fault behind the events that were judged, which is never want of memory.
    Log(LogFault),
    /// The log has more than `limit` bytes, and nothing in these ended the run.
    LogTooLong {
        limit: u64,
    },
    /// At this event so many texts are told apart or needed for this variable, and it has fewer codes. Variables count from 0.
    CodesFull {
        event: u64,
        variable: u32,
        need: u32,
    },
    /// At this event this row of this subformula, both counted from 1, is the first that needs more nodes than there are.
    NodesFull {
        event: u64,
        subformula: u32,
        row: u32,
    },
    /// The file could not be opened, and the files' count of faults rose.
    OpenFault {
        which: Which,
    },
    /// A read of the file failed, and the files' count of faults rose.
    ReadFault {
        which: Which,
    },
    /// A write failed, and the output's count of faults rose.
    WriteFault,
    /// There was no memory.
    NoMemory,
}

/// What a run answers.
#[derive(Clone, Copy, Debug, PartialEq, Eq)]
pub struct Outcome {
    /// The exit status of `end`, from 0 to 7.
    pub status: u8,
    pub end: End,
    /// How many listeners were dropped: none, since there are no listeners yet.
    pub dropped: u32,
}

impl End {
    ghost use Rattle.std.specs.Prelude.{◌≡◌};
    ghost use Rattle.run_model.specs.Course.{status_of};

    /// The exit status of this end.
    pub fn status(self) -> u8
        ensures { result ≡ status_of self }
    {
        match self {
            End::AllTrue => 0,
            End::Violated { count: _ } => 1,
            End::Usage => 2,
            End::SpecTooLong => 3,
            End::Spec(_) => 3,
            End::Names(_) => 3,
            End::Log(_) => 4,
            End::LogTooLong { limit: _ } => 4,
            End::CodesFull {
                event: _,
                variable: _,
                need: _,
            } => 5,
            End::NodesFull {
                event: _,
                subformula: _,
                row: _,
            } => 5,
            End::OpenFault { which: _ } => 6,
            End::ReadFault { which: _ } => 6,
            End::WriteFault => 6,
            End::NoMemory => 7,
        }
    }
}
