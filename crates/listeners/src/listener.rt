//! What is asked of a listener.
ghost use Rattle.std.specs.Prelude.{◌≡◌, ◌≤◌, ◌↔◌, ℕ, List, Option, Bool, IsTrue};
ghost use Rattle.std.specs.Prelude.{OnOk, OnErr, IsErrOf};
ghost use Rattle.mon_base.specs.Causes.{Rose};
ghost use Rattle.mon_base.specs.Told.{Gains};

use crate::{TellEnd, Told};
use qtl_syntax::Text;

/// Someone who is told of each violation, and finished once there are no more.
pub trait Listener: Drop {
    ghost use Rattle.listeners.specs.declared.told.Told.{Told};
    ghost use Rattle.listeners.specs.Meaning.{BecomesTrue};

    /// Its name, as bytes. No call changes it.
    ghost name: { Self → List ℕ };

    /// What it was told, where it tells that: the first violation first.
    ghost told: { Self → Option (List Told) };

    /// Whether it was finished, where it tells that.
    ghost finished: { Self → Option Bool };

    /// How often a call of it has failed. It never falls, and stands still at 2^64 - 1.
    ghost faults: { Self → ℕ };

    /// Whether this is its name.
    fn has_name(&self, word: &Text) -> bool
        ensures { IsTrue result ↔ (word.now ≡ name self.now) };

    /// Takes one violation more. An error leaves what it was told.
    fn tell(&mut self, violation: &Told) -> Result<(), TellEnd>
        ensures ok { OnOk result (Gains (told self.old) (told self.new) violation.now) }
        ensures err { OnErr result (told self.new ≡ told self.old) }
        ensures finished { finished self.new ≡ finished self.old }
        ensures name { name self.new ≡ name self.old }
        ensures later { faults self.old ≤ faults self.new }
        ensures failed { IsErrOf result TellEnd.Failed → Rose (faults self.old) (faults self.new) }
        ensures kept { IsErrOf result TellEnd.NoMemory → faults self.new ≡ faults self.old };

    /// No violation comes any more. An error leaves whether it was finished.
    fn finish(&mut self) -> Result<(), TellEnd>
        ensures ok { OnOk result (BecomesTrue (finished self.old) (finished self.new)) }
        ensures err { OnErr result (finished self.new ≡ finished self.old) }
        ensures told { told self.new ≡ told self.old }
        ensures name { name self.new ≡ name self.old }
        ensures later { faults self.old ≤ faults self.new }
        ensures failed { IsErrOf result TellEnd.Failed → Rose (faults self.old) (faults self.new) }
        ensures kept { IsErrOf result TellEnd.NoMemory → faults self.new ≡ faults self.old };
}
