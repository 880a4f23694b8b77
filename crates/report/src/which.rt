//! The two files of a run, and how a last line calls them.
ghost use Rattle.std.specs.Prelude.{◌≡◌};
ghost use Rattle.report.specs.LastLines.{file_text};

/// One of the two files that the words name.
#[derive(Clone, Copy, Debug, PartialEq, Eq)]
pub enum Which {
    Spec,
    Log,
}

/// How a last line calls the file.
pub fn name_of(which: Which) -> &'static [u8]
    ensures { result.now ≡ file_text which }
{
    match which {
        Which::Spec => b"the specification",
        Which::Log => b"the log",
    }
}
