//! Listeners in boxes, told and finished, and what the ready ones write.
ghost use Rattle.std.specs.Prelude.{◌≡◌, IsErrOf};
ghost use Rattle.mon_base.specs.Causes.{HasCause};

use crate::{CsvReport, FailListener, Listener, Tally, TellEnd, Told, finish_all, tell_all};
use itoa::Buffer;
use mon_base::{Failed, MemSink, Sink, put_all};
use qtl_syntax::Text;
use std::alloc::{AllocError, Global};
use std::cell::RefCell;
use std::rc::Rc;
use std::test::Fail;

/// A violation of a property at an event.
fn violation(alloc: Global, event: u64, name: &str, line: &str) -> Result<Told, AllocError> {
    Ok(Told {
        event,
        property: 0,
        name: Text::from_bytes(alloc, name.as_bytes())?,
        line: Text::from_bytes(alloc, line.as_bytes())?,
    })
}

/// The two violations that the boxes of the tests are told.
fn both(alloc: Global) -> Result<(Told, Told), AllocError> {
    let bob = violation(alloc, 3, "access", "violation 3 access u=\"bob\"\n")?;
    let ann = violation(alloc, 5, "access", "violation 5 access u=\"ann\"\n")?;
    Ok((bob, ann))
}

/// A sink that a test still sees once it went into a box.
#[derive(Drop)]
struct SharedSink {
    held: Rc<RefCell<MemSink>>,
    faults: u64,
}

/// A sink for a box that writes to what is held here.
fn shared(held: &Rc<RefCell<MemSink>>) -> Result<SharedSink, AllocError> {
    Ok(SharedSink {
        held: Rc::clone(held)?,
        faults: 0,
    })
}

impl Sink for SharedSink {
    ghost use Rattle.std.specs.Prelude.{None};

    ghost written = { λ _. None };

    ghost faults = { λ s. s.faults };

    fn write(&mut self, bytes: &[u8]) -> Result<usize, Failed> {
        let written = match self.held.try_borrow_mut() {
            Ok(mut sink) => sink.write(bytes),
            Err(_) => Err(Failed),
        };
        match written {
            Ok(count) => Ok(count),
            Err(_) => {
                self.faults = self.faults.saturating_add(1);
                Err(Failed)
            }
        }
    }
}

/// Adds what a shared sink holds.
fn put_held(text: &mut String, held: &Rc<RefCell<MemSink>>) -> Result<(), Fail> {
    if let Ok(sink) = held.try_borrow() {
        text.push_str(std::str::from_utf8(sink.bytes())?)?;
    }
    Ok(())
}

/// Adds the flags, `f` for a listener that failed, and a space.
fn put_flags(text: &mut String, failed: &[bool]) -> Result<(), AllocError> {
    for flag in failed {
        text.push(if *flag { 'f' } else { '-' })?;
    }
    text.push(' ')?;
    Ok(())
}

/// Tells a `csv` and a `tally` the two violations, and finishes them. It gives their
/// flags after each call, and what their sinks hold then.
fn outcome(alloc: Global, csv_room: usize, tally_room: usize) -> Result<String, Fail> {
    let (bob, ann) = both(alloc)?;
    let rows = Rc::new(alloc, RefCell::new(MemSink::open(alloc, csv_room)?))?;
    let line = Rc::new(alloc, RefCell::new(MemSink::open(alloc, tally_room)?))?;
    let mut listeners: Vec<Box<dyn Listener>> = Vec::new(alloc);
    listeners.push(Box::new(alloc, CsvReport::new(alloc, shared(&rows)?))?)?;
    listeners.push(Box::new(alloc, Tally::new(shared(&line)?))?)?;
    let mut failed = vec![in alloc; false, false]?;
    let mut text = String::new(alloc);
    tell_all(&mut listeners, &mut failed, &bob)?;
    put_flags(&mut text, failed.as_slice())?;
    tell_all(&mut listeners, &mut failed, &ann)?;
    put_flags(&mut text, failed.as_slice())?;
    finish_all(&mut listeners, &mut failed)?;
    put_flags(&mut text, failed.as_slice())?;
    put_held(&mut text, &rows)?;
    put_held(&mut text, &line)?;
    Ok(text)
}

/// The rooms of the two sinks, and the outcome.
#[rattlefmt::skip]
const OUTCOMES: &[(usize, usize, &str)] = &[
    (80, 8, "-- -- -- 3,access,\"violation 3 access u=\"\"bob\"\"\"\n5,access,\"violation 5 access u=\"\"ann\"\"\"\ntally 2\n"),
    (40, 8, "-- f- f- 3,access,\"violation 3 access u=\"\"bob\"\"\"\ntally 2\n"),
    (45, 8, "-- f- f- 3,access,\"violation 3 access u=\"\"bob\"\"\"\n5,acctally 2\n"),
    (0, 8, "f- f- f- tally 2\n"),
    (80, 0, "-- -- -f 3,access,\"violation 3 access u=\"\"bob\"\"\"\n5,access,\"violation 5 access u=\"\"ann\"\"\"\n"),
    (40, 4, "-- f- ff 3,access,\"violation 3 access u=\"\"bob\"\"\"\ntall"),
];

#[test]
fn rows_beside_a_tally(rt: HostRuntime) -> Result<(), Fail> {
    for (csv_room, tally_room, wanted) in OUTCOMES {
        let text = outcome(rt.alloc(), *csv_room, *tally_room)?;
        assert_eq!(rt; text.as_str(), *wanted);
    }
    Ok(())
}

/// A listener that writes each of its calls to a sink that others share: its name, and the number of
/// the event or a full stop. It may fail after that.
#[derive(Drop)]
struct Noting {
    name: Text,
    notes: Rc<RefCell<MemSink>>,
    fails: bool,
    faults: u64,
}

impl Noting {
    fn note(&mut self, call: &[u8]) -> Result<(), TellEnd>
        ensures name { self.new.name ≡ self.old.name }
        ensures cause { HasCause self.old.faults self.new.faults result }
        ensures memory { IsErrOf result TellEnd.NoMemory → ⊥ }
    {
        if let Ok(mut notes) = self.notes.try_borrow_mut() {
            let _ = put_all(&mut *notes, self.name.bytes());
            let _ = put_all(&mut *notes, call);
        }
        if self.fails {
            self.faults = self.faults.saturating_add(1);
            return Err(TellEnd::Failed);
        }
        Ok(())
    }
}

impl Listener for Noting {
    ghost use Rattle.std.specs.Prelude.{None};

    ghost name = { λ l. l.name };

    ghost told = { λ _. None };

    ghost finished = { λ _. None };

    ghost faults = { λ l. l.faults };

    fn has_name(&self, word: &Text) -> bool {
        word.is_same(&self.name)
    }

    fn tell(&mut self, violation: &Told) -> Result<(), TellEnd> {
        let mut buffer = Buffer::new();
        self.note(buffer.format(violation.event).as_bytes())
    }

    fn finish(&mut self) -> Result<(), TellEnd> {
        self.note(b".")
    }
}

#[test]
fn a_failed_one_is_called_once(rt: HostRuntime) -> Result<(), Fail> {
    let alloc = rt.alloc();
    let (bob, ann) = both(alloc)?;
    let notes = Rc::new(alloc, RefCell::new(MemSink::open(alloc, 100)?))?;
    let mut listeners: Vec<Box<dyn Listener>> = Vec::new(alloc);
    for (name, fails) in [("a", false), ("b", true), ("a", false)] {
        let noting = Noting {
            name: Text::from_bytes(alloc, name.as_bytes())?,
            notes: Rc::clone(&notes)?,
            fails,
            faults: 0,
        };
        listeners.push(Box::new(alloc, noting)?)?;
    }
    let mut failed = vec![in alloc; false, false, false]?;
    assert_eq!(rt; listeners.len(), failed.len());
    tell_all(&mut listeners, &mut failed, &bob)?;
    tell_all(&mut listeners, &mut failed, &ann)?;
    finish_all(&mut listeners, &mut failed)?;
    assert_eq!(rt; failed.as_slice(), [false, true, false].as_slice());
    let mut calls = String::new(alloc);
    put_held(&mut calls, &notes)?;
    assert_eq!(rt; calls.as_str(), "a3b3a3a5a5a.a.");
    let name = Text::from_bytes(alloc, b"a")?;
    let named = listeners.iter().filter(|l| l.has_name(&name)).count();
    assert_eq!(rt; named, 2);
    Ok(())
}

/// At which calls of `tell` it fails, whether `finish` does, and its answers to three violations, of
/// the events 0 to 2, and to the end.
#[derive(Clone, Copy)]
struct Failing {
    fail_tell: &'static [u64],
    fail_finish: bool,
    answers: &'static str,
    events: &'static [u64],
}

#[rattlefmt::skip]
const FAILING: &[Failing] = &[
    Failing { fail_tell: &[], fail_finish: false, answers: "ok ok ok ok ", events: &[0, 1, 2] },
    Failing { fail_tell: &[0], fail_finish: false, answers: "failed ok ok ok ", events: &[1, 2] },
    Failing { fail_tell: &[2, 0, 2], fail_finish: true, answers: "failed ok failed failed ", events: &[1] },
    Failing { fail_tell: &[3], fail_finish: true, answers: "ok ok ok failed ", events: &[0, 1, 2] },
];

/// An answer and a space.
fn put_answer(text: &mut String, answer: Result<(), TellEnd>) -> Result<(), AllocError> {
    text.push_str(match answer {
        Ok(()) => "ok ",
        Err(TellEnd::Failed) => "failed ",
        Err(TellEnd::NoMemory) => "no memory ",
    })
}

#[test]
fn stated_calls_fail(rt: HostRuntime) -> Result<(), Fail> {
    let alloc = rt.alloc();
    for case in FAILING {
        let fail_tell = Vec::from_slice(alloc, case.fail_tell)?;
        let name = String::from_str(alloc, "f")?;
        let mut listener = FailListener::new(alloc, name, fail_tell, case.fail_finish);
        let mut answers = String::new(alloc);
        for event in 0..3 {
            put_answer(
                &mut answers,
                listener.tell(&violation(alloc, event, "p", "\n")?),
            )?;
        }
        put_answer(&mut answers, listener.finish())?;
        assert_eq!(rt; answers.as_str(), case.answers);
        let mut events = Vec::new(alloc);
        for told in listener.violations() {
            events.push(told.event)?;
        }
        assert_eq!(rt; events.as_slice(), case.events, "{}", case.answers);
    }
    Ok(())
}

/// The number of an event, the name of a property, and a line, and the row of these.
#[rattlefmt::skip]
const ROWS: &[(u64, &str, &str, &str)] = &[
    (1, "p", "violation 1 p\n", "1,p,violation 1 p\n"),
    (18_446_744_073_709_551_615, "p", "a b", "18446744073709551615,p,a b\n"),
    (2, "p", "violation 2 p u=*, v=*\n", "2,p,\"violation 2 p u=*, v=*\"\n"),
    (3, "p,q", "x\n\n", "3,\"p,q\",\"x\n\"\n"),
    (4, "", "\n", "4,,\n"),
    (5, "\"", "a\\b\r\n", "5,\"\"\"\",\"a\\b\r\"\n"),
];

#[test]
fn each_row_has_its_bytes(rt: HostRuntime) -> Result<(), Fail> {
    let alloc = rt.alloc();
    for (event, name, line, wanted) in ROWS {
        let mut csv = CsvReport::new(alloc, MemSink::open(alloc, 100)?);
        assert_eq!(rt; csv.tell(&violation(alloc, *event, name, line)?), Ok(()));
        assert_eq!(rt; csv.sink().bytes(), wanted.as_bytes(), "{wanted}");
    }
    let tally = Tally::new(MemSink::open(alloc, 100)?);
    assert_eq!(rt; tally.sink().bytes(), b"".as_slice());
    Ok(())
}
