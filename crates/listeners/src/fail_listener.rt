//! A listener for tries, which fails where it is told to.
ghost use Rattle.std.specs.Prelude.{◌≡◌, ◌≤◌, ◌↔◌, ◌∷◌, ◌++◌, [], Contains, IsErrOf, IsTrue};
ghost use Rattle.std.specs.Prelude.{OnErr, OnOk, Some, string_bytes, true, false};
ghost use Rattle.mon_base.specs.Causes.{CountsErrors, HasCause, Rose, next_count};

use crate::{Listener, TellEnd, Told};
use qtl_syntax::Text;
use std::alloc::Global;

/// Keeps what it is told, and fails at stated calls. It counts its faults and its calls of `tell`
/// in 64 bits, each up to 2^64 - 1.
#[derive(Drop)]
pub struct FailListener {
    name: String,
    fail_tell: Vec<u64>,
    fail_finish: bool,
    calls: u64,
    told: Vec<Told>,
    finished: bool,
    faults: u64,
}

impl FailListener {
    /// Its `tell` fails where the number of its earlier calls stands in `fail_tell`; those that failed
    /// or had no memory count too. Its `finish` fails where `fail_finish` is true.
    pub fn new(alloc: Global, name: String, fail_tell: Vec<u64>, fail_finish: bool) -> FailListener
        ensures name { result.name ≡ name }
        ensures fail_tell { result.fail_tell ≡ fail_tell }
        ensures fail_finish { result.fail_finish ≡ fail_finish }
        ensures calls { result.calls ≡ 0 }
        ensures told { result.told.items ≡ [] }
        ensures unfinished { result.finished ≡ false }
        ensures fresh { result.faults ≡ 0 }
    {
        FailListener {
            name,
            fail_tell,
            fail_finish,
            calls: 0,
            told: Vec::new(alloc),
            finished: false,
            faults: 0,
        }
    }

    /// What it was told, the first violation first.
    pub fn violations(&self) -> &[Told]
        ensures { result.now ≡ self.now.told.items }
    {
        self.told.as_slice()
    }

    /// The violation is kept.
    fn keep(&mut self, violation: &Told) -> Result<(), TellEnd>
        ensures ok { OnOk result (self.new.told.items ≡ self.old.told.items ++ violation.now ∷ []) }
        ensures err { OnErr result (self.new.told.items ≡ self.old.told.items) }
        ensures memory { IsErrOf result TellEnd.Failed → ⊥ }
        ensures rest { self.new ≡ record self.old { told = self.new.told } }
    {
        let copy = violation.copy()?;
        match self.told.push(copy) {
            Ok(()) => Ok(()),
            Err(_) => Err(TellEnd::NoMemory),
        }
    }
}

impl Listener for FailListener {
    ghost name = { λ l. string_bytes l.name };

    ghost told = { λ l. Some l.told.items };

    ghost finished = { λ l. Some l.finished };

    ghost faults = { λ l. l.faults };

    fn has_name(&self, word: &Text) -> bool {
        word.bytes() == self.name.as_bytes()
    }

    fn tell(&mut self, violation: &Told) -> Result<(), TellEnd>
        ensures ok { OnOk result (self.new.told.items ≡ self.old.told.items ++ violation.now ∷ []) }
        ensures err { OnErr result (Some self.new.told.items ≡ Some self.old.told.items) }
        ensures finished { Some self.new.finished ≡ Some self.old.finished }
        ensures name { string_bytes self.new.name ≡ string_bytes self.old.name }
        ensures later { self.old.faults ≤ self.new.faults }
        ensures failed { IsErrOf result TellEnd.Failed → Rose self.old.faults self.new.faults }
        ensures kept { IsErrOf result TellEnd.NoMemory → self.new.faults ≡ self.old.faults }

        // It fails exactly where it is told to.
        ensures fails { IsErrOf result TellEnd.Failed
            ↔ Contains self.old.fail_tell.items self.old.calls }
        ensures calls { self.new.calls ≡ next_count self.old.calls }
        ensures fail_tell { self.new.fail_tell ≡ self.old.fail_tell }
        ensures fail_finish { self.new.fail_finish ≡ self.old.fail_finish }

        // Each failure counts as one fault, and nothing else does.
        ensures counted { IsErrOf result TellEnd.Failed
            → self.new.faults ≡ next_count self.old.faults }
        ensures uncounted { OnOk result (self.new.faults ≡ self.old.faults) }
    {
        let call = self.calls;
        self.calls = self.calls.saturating_add(1);
        if self.fail_tell.contains(&call) {
            self.faults = self.faults.saturating_add(1);
            return Err(TellEnd::Failed);
        }
        self.keep(violation)
    }

    fn finish(&mut self) -> Result<(), TellEnd>
        ensures ok { OnOk result (Some self.new.finished ≡ Some true) }
        ensures err { OnErr result (Some self.new.finished ≡ Some self.old.finished) }
        ensures told { Some self.new.told.items ≡ Some self.old.told.items }
        ensures name { string_bytes self.new.name ≡ string_bytes self.old.name }
        ensures cause { HasCause self.old.faults self.new.faults result }
        ensures memory { IsErrOf result TellEnd.NoMemory → ⊥ }

        // It fails exactly where it is told to, and each failure counts as one fault.
        ensures fails { IsErrOf result TellEnd.Failed ↔ IsTrue self.old.fail_finish }
        ensures counted { CountsErrors self.old.faults self.new.faults result }
        ensures calls { self.new.calls ≡ self.old.calls }
        ensures fail_tell { self.new.fail_tell ≡ self.old.fail_tell }
        ensures fail_finish { self.new.fail_finish ≡ self.old.fail_finish }
    {
        if self.fail_finish {
            self.faults = self.faults.saturating_add(1);
            return Err(TellEnd::Failed);
        }
        self.finished = true;
        Ok(())
    }
}
