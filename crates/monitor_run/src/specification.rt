//! The judge of a specification file.
ghost use Rattle.std.specs.Prelude.{◌≡◌, ◌+◌, ◌^◌, ◌<◌, ◌≤◌, ℕ, List, length, vec_len, IfOk, IfErr, IfSome, IsErrOf, string_bytes};
ghost use Rattle.std.specs.Io.KnownBytes.{Consumes, IsAtEnd};
ghost use Rattle.mon_base.specs.Causes.{Rose};
ghost use Rattle.settings.specs.Asked.{asked_by};
ghost use Rattle.settings.specs.Numbers.{AreLawful};
ghost use Rattle.run_model.specs.Uses.{Use};
ghost use Rattle.monitor_run.specs.Opening.{AreTold, AsksSpec, HasSpecCause, IsSpelled, IsUnspelled, SpecIs, SpecRead, SpecRefused, StopsReading, halt_of_fault, halt_of_names};
ghost use Rattle.monitor_run.specs.Standing.{IsReady};

use crate::judge::Judge;
use mon_base::{Files, NoMemory, OpenEnd, Source};
use monitor_step::{Monitor, Sizes};
use qtl_syntax::{SpecFault, parse};
use run_model::{Halt, Loss, MAX_SPEC, SpecStop};
use settings::Settings;
use std::alloc::Global;
use subformulas::make_plan;
use wellformed::{NameFault, check, short_texts_have_few_nodes, short_texts_have_few_terms};

/// A read asks for so many bytes.
const PIECE: usize = 65_536;

/// Why a text wasn't read whole.
#[derive(Clone, Copy, Debug, PartialEq, Eq)]
enum TextEnd {
    TooLong,
    Failed,
    NoMemory,
}

/// Room for the bytes of a read.
pub fn read_room(alloc: Global) -> Result<Vec<u8>, NoMemory>
    ensures { IfOk result (λ room. vec_len room ≡ 65536) }
{
    let room = vec![in alloc; 0u8; PIECE]?;
    Ok(room)
}

/// All bytes of a source, which are at most `limit`. Each read asks for as many as `room` has.
fn read_text<S: Source>(
    alloc: Global,
    source: &mut S,
    room: &mut [u8],
    limit: usize,
) -> Result<Vec<u8>, TextEnd>
    requires small { limit < 2 ^ 62 }
    requires some { 0 < length room.old }
    requires few { length room.old ≤ 65536 }
    ensures ok { IfOk result (λ text. Consumes (S.left source.old) (S.left source.new) text.items ×
        IsAtEnd (S.left source.new) × (length text.items ≤ limit)) }
    ensures long { IsErrOf result TextEnd.TooLong → (given : List ℕ) ×
        Consumes (S.left source.old) (S.left source.new) given × (limit < length given) }
    ensures taken { (given : List ℕ) × Consumes (S.left source.old) (S.left source.new) given }
    ensures later { S.faults source.old ≤ S.faults source.new }
    ensures failed { IsErrOf result TextEnd.Failed →
        Rose (S.faults source.old) (S.faults source.new) }
{
    let mut text = Vec::new(alloc);
    'reads: while text.len() <= limit {
        match source.read(room) {
            Ok(0) => return Ok(text),
            Ok(count) => match text.extend_from_slice(&room[..count]) {
                Ok(()) => {}
                Err(_) => return Err(TextEnd::NoMemory),
            },
            Err(_) => return Err(TextEnd::Failed),
        }
    }
    Err(TextEnd::TooLong)
}

/// The text of the specification of this name.
fn read_spec<F: Files>(alloc: Global, name: &str, files: &mut F) -> Result<Vec<u8>, Halt<SpecStop>>
    ensures ok { IfOk result (λ text. IfSome (F.texts files.old)
        (λ texts. SpecIs texts name.now text.items)) }
    ensures short { IfOk result (λ text. length text.items ≤ 1048576) }
    ensures stops { IfErr result
        (λ halt. IfSome (F.texts files.old) (λ texts. StopsReading texts name.now halt)) }
    // Which files were asked for, and what the files tell of that.
    ensures uses { (uses : List Use) × AsksSpec name.now result uses
        × AreTold (F.texts files.old) uses (F.opened files.old) (F.opened files.new)
        (F.hurt files.old) (F.hurt files.new) (F.unread files.old) (F.unread files.new) }
    ensures cause { IfErr result
        (λ halt. HasSpecCause (Rose (F.faults files.old) (F.faults files.new)) halt) }
    ensures texts { F.texts files.new ≡ F.texts files.old }
    ensures lent { F.lent files.new ≡ F.lent files.old }
    ensures later { F.faults files.old ≤ F.faults files.new }
{
    let mut room = match read_room(alloc) {
        Ok(room) => room,
        Err(_) => return Err(Halt::Lost(Loss::Starved)),
    };
    match files.open(name) {
        Ok(mut source) => {
            let text = read_text(alloc, &mut source, room.as_mut_slice(), MAX_SPEC);
            files.close(source);
            match text {
                Ok(text) => Ok(text),
                Err(TextEnd::TooLong) => Err(Halt::At(SpecStop::TooLong)),
                Err(TextEnd::Failed) => Err(Halt::At(SpecStop::Unread)),
                Err(TextEnd::NoMemory) => Err(Halt::Lost(Loss::Starved)),
            }
        }
        Err(OpenEnd::Failed) => Err(Halt::At(SpecStop::Unopened)),
        Err(OpenEnd::NoMemory) => Err(Halt::Lost(Loss::Starved)),
    }
}

/// How a run gives up whose specification has this fault.
fn halt_of_fault(fault: SpecFault) -> Halt<SpecStop>
    ensures { result ≡ halt_of_fault fault }
{
    match fault {
        SpecFault::NoMemory => Halt::Lost(Loss::Starved),
        _ => Halt::At(SpecStop::Fault(fault)),
    }
}

/// How a run gives up whose specification's names have this fault.
fn halt_of_names(fault: NameFault) -> Halt<SpecStop>
    ensures { result ≡ halt_of_names fault }
{
    match fault {
        NameFault::NoMemory => Halt::Lost(Loss::Starved),
        _ => Halt::At(SpecStop::Names(fault)),
    }
}

/// The judge of the properties that the text spells, which are to be accepted.
fn judge_in(alloc: Global, text: &[u8], settings: &Settings) -> Result<Judge, Halt<SpecStop>>
    requires lawful { AreLawful settings.now.bits settings.now.nodes settings.now.cache
        settings.now.limit }
    requires short { length text.now ≤ 1048576 }
    ensures ok { IfOk result (λ judge. IsSpelled (asked_by settings.now) text.now judge) }
    ensures fresh { IfOk result (λ judge. judge.events ≡ 0) }
    ensures time { IfOk result (λ judge. judge.monitor.last_time ≡ 0) }
    ensures ready { IfOk result IsReady }
    ensures err { IfErr result (λ halt. IsUnspelled text.now halt) }
{
    let spec = match parse(alloc, text) {
        Ok(spec) => spec,
        Err(fault) => return Err(halt_of_fault(fault)),
    };
    // A law, for the conditions of `check`.
    short_texts_have_few_nodes();
    let core = match check(alloc, spec) {
        Ok(core) => core,
        Err(fault) => return Err(halt_of_names(fault)),
    };
    let plan = match make_plan(alloc, core) {
        Ok(plan) => plan,
        Err(_) => return Err(Halt::Lost(Loss::Starved)),
    };
    // A law, for a condition of `Monitor::open`.
    short_texts_have_few_terms();
    let sizes = Sizes {
        bits: settings.bits,
        nodes: settings.nodes,
        cache: settings.cache,
    };
    // A law, for what holds of each plan.
    let _rows = plan.count();
    match Monitor::open(alloc, plan, sizes) {
        Ok(monitor) => {
            // A law, for what holds of each live monitor.
            let _live = monitor.is_live();
            Ok(Judge {
                alloc,
                monitor,
                shows_true: settings.all,
                events: 0,
                violations: 0,
            })
        }
        Err(_) => Err(Halt::Lost(Loss::Starved)),
    }
}

/// The judge of the specification file that the settings name.
pub fn read_specification<F: Files>(
    alloc: Global,
    settings: &Settings,
    files: &mut F,
) -> Result<Judge, Halt<SpecStop>>
    requires lawful { AreLawful settings.now.bits settings.now.nodes settings.now.cache
        settings.now.limit }
    ensures ok { IfOk result (λ judge. SpecRead (asked_by settings.now) (F.texts files.old) judge) }
    ensures fresh { IfOk result (λ judge. judge.events ≡ 0) }
    ensures time { IfOk result (λ judge. judge.monitor.last_time ≡ 0) }
    ensures ready { IfOk result IsReady }
    ensures err { IfErr result (λ halt. IfSome (F.texts files.old)
        (λ texts. SpecRefused texts (string_bytes settings.now.spec) halt)) }
    ensures uses { (uses : List Use) × AsksSpec (string_bytes settings.now.spec) result uses
        × AreTold (F.texts files.old) uses (F.opened files.old) (F.opened files.new)
        (F.hurt files.old) (F.hurt files.new) (F.unread files.old) (F.unread files.new) }
    ensures cause { IfErr result
        (λ halt. HasSpecCause (Rose (F.faults files.old) (F.faults files.new)) halt) }
    ensures texts { F.texts files.new ≡ F.texts files.old }
    ensures lent { F.lent files.new ≡ F.lent files.old }
    ensures later { F.faults files.old ≤ F.faults files.new }
{
    let text = match read_spec(alloc, settings.spec.as_str(), files) {
        Ok(text) => text,
        Err(halt) => return Err(halt),
    };
    judge_in(alloc, text.as_slice(), settings)
}
