//! A listener that writes rows of comma-separated fields.
ghost use Rattle.std.specs.Prelude.{◌≡◌, ◌≤◌, IfOk, IsErrOf, IsOk, OnErr, OnOk, codes, true, false};
ghost use Rattle.std.specs.Io.KnownBytes.{Appends};
ghost use Rattle.mon_base.specs.Causes.{Rose};
ghost use Rattle.mon_base.specs.Told.{AppendsFront};
ghost use Rattle.listeners.specs.Lines.{csv_row, without_line_feed};

use crate::{Listener, TellEnd, Told};
use csv::Writer;
use itoa::Buffer;
use mon_base::{Failed, NoMemory, Sink, put_all};
use qtl_syntax::Text;
use std::alloc::{AllocError, Global};

/// Writes a row for each violation that it is told: the number of the event, the name of the
/// property, and the line of the report without its line feed. It fails where its sink does.
#[derive(Drop)]
pub struct CsvReport<S: Sink + Drop> {
    alloc: Global,
    sink: S,
    finished: bool,
}

impl<S: Sink + Drop> CsvReport<S> {
    /// A report without rows.
    pub fn new(alloc: Global, sink: S) -> CsvReport<S>
        ensures sink { result.sink ≡ sink }
        ensures unfinished { result.finished ≡ false }
    {
        CsvReport {
            alloc,
            sink,
            finished: false,
        }
    }

    /// The sink, with what was written.
    pub fn sink(&self) -> &S
        ensures { result.now ≡ self.now.sink }
    {
        &self.sink
    }
}

/// A line without the line feed that ends it.
fn cut_line(line: &[u8]) -> &[u8]
    ensures { result.now ≡ without_line_feed line.now }
{
    if line.ends_with(b"\n") {
        &line[..line.len() - 1]
    } else {
        line
    }
}

/// The row of a violation, with its line feed.
fn row_of(alloc: Global, violation: &Told) -> Result<Vec<u8>, NoMemory>
    ensures { IfOk result (λ row. row.items ≡ csv_row violation.now) }
{
    let mut buffer = Buffer::new();
    let event = buffer.format(violation.event).as_bytes();
    let fields = [
        event,
        violation.name.bytes(),
        cut_line(violation.line.bytes()),
    ];
    let mut writer = Writer::from_writer(Vec::new(alloc));
    // Over memory an error of the writer is want of it.
    if writer.write_fields(&fields).is_err() {
        return Err(AllocError);
    }
    match writer.into_inner() {
        Ok(row) => Ok(row),
        Err(_) => Err(AllocError),
    }
}

impl<S: Sink + Drop> Listener for CsvReport<S> {
    ghost use Rattle.std.specs.Prelude.{None, Some, codes};

    ghost name = { λ _. codes "csv" };

    ghost told = { λ _. None };

    ghost finished = { λ r. Some r.finished };

    ghost faults = { λ r. S.faults r.sink };

    fn has_name(&self, word: &Text) -> bool {
        word.bytes() == b"csv".as_slice()
    }

    /// Where it fails, a front of the row was written; where there is no memory, nothing was.
    fn tell(&mut self, violation: &Told) -> Result<(), TellEnd>
        ensures row { OnOk result (Appends (S.written self.old.sink) (S.written self.new.sink)
            (csv_row violation.now)) }
        ensures front { OnErr result (AppendsFront (S.written self.old.sink)
            (S.written self.new.sink) (csv_row violation.now)) }
        ensures kept { IsErrOf result TellEnd.NoMemory → self.new ≡ self.old }
        ensures later { S.faults self.old.sink ≤ S.faults self.new.sink }
        ensures failed { IsErrOf result TellEnd.Failed
            → Rose (S.faults self.old.sink) (S.faults self.new.sink) }
        ensures finished { self.new.finished ≡ self.old.finished }
    {
        let row = row_of(self.alloc, violation)?;
        match put_all(&mut self.sink, row.as_slice()) {
            Ok(()) => Ok(()),
            Err(Failed) => Err(TellEnd::Failed),
        }
    }

    /// It never fails, and writes nothing.
    fn finish(&mut self) -> Result<(), TellEnd>
        ensures succeeds { IsOk result }
        ensures finished { self.new ≡ record self.old { finished = true } }
    {
        self.finished = true;
        Ok(())
    }
}
