//! One listener is finished, and all are.
ghost use Rattle.std.specs.Prelude.{◌≡◌, ◌≤◌, map, vec_len, IfOk, OnOk, OnErr, IsErrOf, false};
ghost use Rattle.mon_base.specs.Causes.{Rose};
ghost use Rattle.listeners.specs.Meaning.{BecomesTrue, LacksMemory, meaning_of};
ghost use Rattle.listeners.specs.Each.{IsFinished, EachIsFinished, FinishingStops};

use crate::{Listener, TellEnd};
use mon_base::NoMemory;
use std::alloc::AllocError;

/// Finishes one listener, whatever its flag.
fn finish_one(listener: &mut Box<dyn Listener>) -> Result<(), TellEnd>
    ensures ok { OnOk result (BecomesTrue (finished listener.old) (finished listener.new)) }
    ensures err { OnErr result (finished listener.new ≡ finished listener.old) }
    ensures told { told listener.new ≡ told listener.old }
    ensures name { name listener.new ≡ name listener.old }
    ensures later { faults listener.old ≤ faults listener.new }
    ensures failed { IsErrOf result TellEnd.Failed
        → Rose (faults listener.old) (faults listener.new) }
    ensures kept { IsErrOf result TellEnd.NoMemory
        → faults listener.new ≡ faults listener.old }
{
    listener.finish()
}

/// Finishes one listener unless its flag is set, and gives its flag from then on.
fn finish_unflagged(listener: &mut Box<dyn Listener>, was: bool) -> Result<bool, NoMemory>
    ensures ok { IfOk result (λ now. IsFinished
        (meaning_of (λ b. name b) (λ b. told b) (λ b. finished b) (λ b. faults b))
        listener.old listener.new was now) }
    ensures name { name listener.new ≡ name listener.old }
    ensures told { told listener.new ≡ told listener.old }
    ensures unflagged { OnErr result (was ≡ false) }
    ensures err { OnErr result (LacksMemory
        (meaning_of (λ b. name b) (λ b. told b) (λ b. finished b) (λ b. faults b))
        listener.old listener.new) }
{
    if was {
        return Ok(true);
    }
    match finish_one(listener) {
        Ok(()) => Ok(false),
        Err(TellEnd::Failed) => Ok(true),
        Err(TellEnd::NoMemory) => Err(AllocError),
    }
}

/// Finishes each listener whose flag is false, in their order. A flag is set where that listener's
/// call failed, and stays set. No listener is taken out or moved.
pub fn finish_all(
    listeners: &mut Vec<Box<dyn Listener>>,
    failed: &mut Vec<bool>,
) -> Result<(), NoMemory>
    requires { vec_len listeners.old ≡ vec_len failed.old }
    ensures ok { OnOk result (EachIsFinished
        (meaning_of (λ b. name b) (λ b. told b) (λ b. finished b) (λ b. faults b))
        listeners.old.items listeners.new.items failed.old.items failed.new.items) }
    ensures err { OnErr result (FinishingStops
        (meaning_of (λ b. name b) (λ b. told b) (λ b. finished b) (λ b. faults b))
        listeners.old.items listeners.new.items failed.old.items failed.new.items) }
    ensures names { map (λ b. name b) listeners.new.items
        ≡ map (λ b. name b) listeners.old.items }
    ensures told { map (λ b. told b) listeners.new.items
        ≡ map (λ b. told b) listeners.old.items }
    ensures count { vec_len listeners.new ≡ vec_len listeners.old }
    ensures flags { vec_len failed.new ≡ vec_len failed.old }
{
    for i in 0..listeners.len() {
        failed[i] = finish_unflagged(&mut listeners[i], failed[i])?;
    }
    Ok(())
}
