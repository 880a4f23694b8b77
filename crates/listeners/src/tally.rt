//! A listener that counts.
ghost use Rattle.std.specs.Prelude.{◌≡◌, IsErrOf, IsOk, OnErr, OnOk, codes, true, false};
ghost use Rattle.std.specs.Io.KnownBytes.{Appends};
ghost use Rattle.mon_base.specs.Causes.{HasCause, next_count};
ghost use Rattle.mon_base.specs.Told.{AppendsFront};
ghost use Rattle.listeners.specs.Lines.{tally_line};

use crate::{Listener, TellEnd, Told};
use itoa::Buffer;
use mon_base::{Failed, Sink, put_all};
use qtl_syntax::Text;

/// Counts the violations that it is told, and writes `tally N` and a line feed when it is finished.
/// It takes no memory, and fails where its sink does.
#[derive(Drop)]
pub struct Tally<S: Sink + Drop> {
    sink: S,
    count: u64,
    finished: bool,
}

impl<S: Sink + Drop> Tally<S> {
    /// A tally that was told nothing.
    pub fn new(sink: S) -> Tally<S>
        ensures sink { result.sink ≡ sink }
        ensures none { result.count ≡ 0 }
        ensures unfinished { result.finished ≡ false }
    {
        Tally {
            sink,
            count: 0,
            finished: false,
        }
    }

    /// The sink, with what was written.
    pub fn sink(&self) -> &S
        ensures { result.now ≡ self.now.sink }
    {
        &self.sink
    }
}

/// Writes the line of a tally.
fn put_tally<S: Sink>(sink: &mut S, count: u64) -> Result<(), Failed>
    ensures ok { OnOk result (Appends (S.written sink.old) (S.written sink.new)
        (tally_line count)) }
    ensures err { OnErr result (AppendsFront (S.written sink.old) (S.written sink.new)
        (tally_line count)) }
    ensures cause { HasCause (S.faults sink.old) (S.faults sink.new) result }
{
    let mut buffer = Buffer::new();
    put_all(sink, b"tally ")?;
    put_all(sink, buffer.format(count).as_bytes())?;
    put_all(sink, b"\n")
}

impl<S: Sink + Drop> Listener for Tally<S> {
    ghost use Rattle.std.specs.Prelude.{None, Some, codes};

    ghost name = { λ _. codes "tally" };

    ghost told = { λ _. None };

    ghost finished = { λ t. Some t.finished };

    ghost faults = { λ t. S.faults t.sink };

    fn has_name(&self, word: &Text) -> bool {
        word.bytes() == b"tally".as_slice()
    }

    /// It never fails. The count stands still at 2^64 - 1.
    fn tell(&mut self, _violation: &Told) -> Result<(), TellEnd>
        ensures succeeds { IsOk result }
        ensures counted { self.new ≡ record self.old { count = next_count self.old.count } }
    {
        self.count = self.count.saturating_add(1);
        Ok(())
    }

    /// Where it fails, a front of the line was written.
    fn finish(&mut self) -> Result<(), TellEnd>
        ensures line { OnOk result (Appends (S.written self.old.sink) (S.written self.new.sink)
            (tally_line self.old.count)) }
        ensures front { OnErr result (AppendsFront (S.written self.old.sink)
            (S.written self.new.sink) (tally_line self.old.count)) }
        ensures cause { HasCause (S.faults self.old.sink) (S.faults self.new.sink) result }
        ensures memory { IsErrOf result TellEnd.NoMemory → ⊥ }
        ensures finished { OnOk result (self.new.finished ≡ true) }
        ensures unfinished { OnErr result (self.new.finished ≡ self.old.finished) }
        ensures count { self.new.count ≡ self.old.count }
    {
        match put_tally(&mut self.sink, self.count) {
            Ok(()) => {
                self.finished = true;
                Ok(())
            }
            Err(Failed) => Err(TellEnd::Failed),
        }
    }
}
