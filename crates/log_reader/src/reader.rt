//! The reader of a log's records.
ghost use Rattle.std.specs.Prelude.{◌≡◌, ◌≢◌, ◌+◌, ◌^◌, ◌<◌, ◌≤◌, [], ◌++◌, Bool, true, false, None, Some, Ok, Err, IfOk, OnOk, OnErr, IfErr};
ghost use Rattle.qtl_syntax.specs.Tree as tree;
ghost use Rattle.log_reader.specs.declared.fault.LogFault as declared;
ghost use Rattle.log_reader.specs.Standing.{Stands, IsNext, fresh_reading, with_rest, given_next};

use crate::fault::LogFault;
use crate::place::Place;
use crate::state::{State, Turn};
use qtl_truth::Event;
use sqlite_items::Items;
use std::alloc::{AllocError as NoMemory, Global};
use std::marker::Model;

/// A reader of a log's records. It is fed the log's bytes in pieces of any size, and gives the events of the bytes fed so
/// far, in order, up to the first fault. How the bytes are cut into pieces changes nothing. It keeps one record beside
/// the piece that it was fed last, if all events that are there are asked for between two pieces.
#[derive(Drop)]
pub struct LogReader {
    state: State,
}

impl Model for LogReader {
    ghost use Rattle.log_reader.specs.Standing.{Reading};
    ghost use Rattle.log_reader.specs.State.{reading_of, IsState};

    ghost Value = { Reading };

    ghost view = { λ r. reading_of r.state };

    ghost invariant = { λ r. IsState r.state };
}

impl LogReader {
    /// A reader of a log, of which no byte is fed yet. In a timed log the last field of each record is its time.
    pub fn open(alloc: Global, timed: bool) -> Result<LogReader, NoMemory>
        ensures fresh { IfOk result (λ r. r ≡ fresh_reading timed) }
        ensures stands { IfOk result (λ r. Stands [] r) }
    {
        Ok(LogReader {
            state: State {
                timed,
                held: Vec::new(alloc),
                from: 0,
                seen: 0,
                before: 0,
                place: Place::Before,
                texts: Items::new(alloc),
                is_begun: false,
                ended: false,
                given: 0,
                last_time: 0,
                fault: None,
                scratch: Vec::new(alloc),
            },
        })
    }

    /// Adds a piece to the bytes fed, unless the log has ended. Where memory is wanting nothing of the piece is taken.
    pub fn feed(&mut self, piece: &[u8]) -> Result<(), NoMemory>
        requires on { self.old.ended ≡ false }
        ensures fed { OnOk result (self.new ≡ with_rest self.old (self.old.rest ++ piece.now)) }
        ensures stands { OnOk result ((bytes : tree.Text) → Stands bytes self.old → Stands (bytes ++ piece.now) self.new) }
        ensures kept { OnErr result (self.new ≡ self.old) }
        ensures ended { self.new.ended ≡ self.old.ended }
        ensures given { self.new.given ≡ self.old.given }
    {
        self.state.feed(piece)
    }

    /// The bytes fed are the whole log.
    pub fn end(&mut self)
        ensures ended { self.new.ended ≡ true }
        ensures timed { self.new.timed ≡ self.old.timed }
        ensures given { self.new.given ≡ self.old.given }
        ensures stands { (bytes : tree.Text) → Stands bytes self.old → Stands bytes self.new }
    {
        self.state.ended = true;
    }

    /// The next event of the bytes fed, `None` where they have no further one yet, or the fault that stands behind the
    /// events given, which is then the answer for ever. After want of memory the same record can be asked for again.
    pub fn next(&mut self) -> Result<Option<Event>, LogFault>
        requires room { self.old.given + 1 < 2 ^ 64 }
        ensures answer { (bytes : tree.Text) → Stands bytes self.old → IsNext bytes self.old result }
        ensures stands { (bytes : tree.Text) → Stands bytes self.old → Stands bytes self.new }
        ensures given { self.new.given ≡ given_next self.old.given result }
        ensures most { self.new.given ≤ self.old.given + 1 }
        ensures ended { self.new.ended ≡ self.old.ended }
        ensures timed { self.new.timed ≡ self.old.timed }
        ensures fault { IfErr result (λ f. f ≢ LogFault.NoMemory → self.new.fault ≡ Some f) }
        ensures again { (f : declared.LogFault) → self.old.fault ≡ Some f → (result ≡ Err f) × (self.new ≡ self.old) }
    {
        self.state.next()
    }
}
