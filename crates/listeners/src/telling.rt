//! A violation is told to one listener, and to all.
ghost use Rattle.std.specs.Prelude.{◌≡◌, ◌≤◌, map, vec_len, IfOk, OnOk, OnErr, IsErrOf, false};
ghost use Rattle.mon_base.specs.Causes.{Rose};
ghost use Rattle.mon_base.specs.Told.{Gains};
ghost use Rattle.listeners.specs.Meaning.{LacksMemory, meaning_of};
ghost use Rattle.listeners.specs.Each.{IsTold, EachIsTold, TellingStops};

use crate::{Listener, TellEnd, Told};
use mon_base::NoMemory;
use std::alloc::AllocError;

/// Tells one listener, whatever its flag.
fn tell_one(listener: &mut Box<dyn Listener>, violation: &Told) -> Result<(), TellEnd>
    ensures ok { OnOk result (Gains (told listener.old) (told listener.new) violation.now) }
    ensures err { OnErr result (told listener.new ≡ told listener.old) }
    ensures finished { finished listener.new ≡ finished listener.old }
    ensures name { name listener.new ≡ name listener.old }
    ensures later { faults listener.old ≤ faults listener.new }
    ensures failed { IsErrOf result TellEnd.Failed
        → Rose (faults listener.old) (faults listener.new) }
    ensures kept { IsErrOf result TellEnd.NoMemory
        → faults listener.new ≡ faults listener.old }
{
    listener.tell(violation)
}

/// Tells one listener unless its flag is set, and gives its flag from then on.
fn tell_unflagged(
    listener: &mut Box<dyn Listener>,
    was: bool,
    violation: &Told,
) -> Result<bool, NoMemory>
    ensures ok { IfOk result (λ now. IsTold
        (meaning_of (λ b. name b) (λ b. told b) (λ b. finished b) (λ b. faults b))
        violation.now listener.old listener.new was now) }
    ensures name { name listener.new ≡ name listener.old }
    ensures finished { finished listener.new ≡ finished listener.old }
    ensures unflagged { OnErr result (was ≡ false) }
    ensures err { OnErr result (LacksMemory
        (meaning_of (λ b. name b) (λ b. told b) (λ b. finished b) (λ b. faults b))
        listener.old listener.new) }
{
    if was {
        return Ok(true);
    }
    match tell_one(listener, violation) {
        Ok(()) => Ok(false),
        Err(TellEnd::Failed) => Ok(true),
        Err(TellEnd::NoMemory) => Err(AllocError),
    }
}

/// Tells each listener whose flag is false, in their order. A flag is set where that listener's
/// call failed, and stays set. No listener is taken out or moved.
pub fn tell_all(
    listeners: &mut Vec<Box<dyn Listener>>,
    failed: &mut Vec<bool>,
    violation: &Told,
) -> Result<(), NoMemory>
    requires { vec_len listeners.old ≡ vec_len failed.old }
    ensures ok { OnOk result (EachIsTold
        (meaning_of (λ b. name b) (λ b. told b) (λ b. finished b) (λ b. faults b))
        violation.now
        listeners.old.items listeners.new.items failed.old.items failed.new.items) }
    ensures err { OnErr result (TellingStops
        (meaning_of (λ b. name b) (λ b. told b) (λ b. finished b) (λ b. faults b))
        violation.now
        listeners.old.items listeners.new.items failed.old.items failed.new.items) }
    ensures names { map (λ b. name b) listeners.new.items
        ≡ map (λ b. name b) listeners.old.items }
    ensures finished { map (λ b. finished b) listeners.new.items
        ≡ map (λ b. finished b) listeners.old.items }
    ensures count { vec_len listeners.new ≡ vec_len listeners.old }
    ensures flags { vec_len failed.new ≡ vec_len failed.old }
{
    for i in 0..listeners.len() {
        failed[i] = tell_unflagged(&mut listeners[i], failed[i], violation)?;
    }
    Ok(())
}
