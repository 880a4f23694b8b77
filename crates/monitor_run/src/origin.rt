//! The log of a run: a file, or the sample.
ghost use Rattle.std.specs.Prelude.{◌≡◌, ◌<◌, ◌≤◌, List, [], length, IfSome};
ghost use Rattle.mon_base.specs.Causes.{Rose};
ghost use Rattle.qtl_syntax.specs.Tree as tree;
ghost use Rattle.log_reader.specs.Standing.{Stands, fresh_reading};
ghost use Rattle.run_model.specs.Job.{Job};
ghost use Rattle.run_model.specs.Uses.{TellUses, Use};
ghost use Rattle.settings.specs.Asked.{FromFile, asked_by, origin_in};
ghost use Rattle.monitor_run.specs.Opening.{AsksTo, HasLogCause, LogHalted};
ghost use Rattle.monitor_run.specs.Reading.{HasCutCause};
ghost use Rattle.monitor_run.specs.Standing.{HasJudged, IsReady, KeepsPlan, has_times};

use crate::judge::Judge;
use crate::log::read_log;
use crate::specification::read_room;
use log_reader::LogReader;
use mon_base::{Files, OpenEnd, Sink, Steps};
use report::Output;
use run_model::{Halt, LogStop, Loss};
use sample_log::SampleSource;
use settings::{LogFrom, Settings};
use std::alloc::Global;
use std::sync::ledger::Ledger;

/// Judges the log in the file of this name. Each read asks for as many bytes as `room` has.
fn run_file<F: Files, W: Sink, L: Ledger>(
    judge: &mut Judge,
    reader: &mut LogReader,
    room: &mut [u8],
    name: &str,
    files: &mut F,
    output: &mut Output,
    out: &mut W,
    steps: &mut Steps<L>,
    limit: u64,
) -> Halt<LogStop>
    requires fresh { reader.old ≡ fresh_reading (has_times judge.old.monitor.plan) }
    requires stands { Stands [] reader.old }
    requires room { 0 < length room.old }
    requires events { judge.old.events ≡ 0 }
    requires time { judge.old.monitor.last_time ≡ 0 }
    requires ready { IsReady judge.old }
    requires nothing { output.old ≡ [] }
    requires small { limit ≤ 281474976710656 }
    ensures halted { (uses : List Use) × AsksTo (FromFile name.now) result uses
        × TellUses uses (F.opened files.old) (F.opened files.new)
        (F.hurt files.old) (F.hurt files.new) (F.unread files.old) (F.unread files.new)
        × ((job : Job) (items : List tree.Item) → HasJudged job items [] [] judge.old →
        job.log ≡ FromFile name.now → job.limit ≡ limit → IfSome (F.texts files.old) (λ texts.
        LogHalted job texts items uses (W.written out.old) (W.written out.new) output.new
        judge.new steps.old steps.new result)) }
    ensures plan { KeepsPlan judge.old judge.new }
    ensures cause { HasCutCause (Rose (W.faults out.old) (W.faults out.new)) result }
    ensures opened { HasLogCause (Rose (F.faults files.old) (F.faults files.new)) result }
    ensures texts { F.texts files.new ≡ F.texts files.old }
    ensures lent { F.lent files.new ≡ F.lent files.old }
    ensures later { F.faults files.old ≤ F.faults files.new }
    ensures out_later { W.faults out.old ≤ W.faults out.new }
{
    match files.open(name) {
        Ok(mut source) => {
            let halt = read_log(judge, reader, room, &mut source, output, out, steps, limit);
            files.close(source);
            halt
        }
        Err(OpenEnd::Failed) => Halt::At(LogStop::Unopened),
        Err(OpenEnd::NoMemory) => Halt::Lost(Loss::Starved),
    }
}

/// Judges the log that the settings name.
pub fn run_log<F: Files, W: Sink, L: Ledger>(
    alloc: Global,
    judge: &mut Judge,
    settings: &Settings,
    files: &mut F,
    output: &mut Output,
    out: &mut W,
    steps: &mut Steps<L>,
) -> Halt<LogStop>
    requires events { judge.old.events ≡ 0 }
    requires time { judge.old.monitor.last_time ≡ 0 }
    requires ready { IsReady judge.old }
    requires nothing { output.old ≡ [] }
    requires small { settings.now.limit ≤ 281474976710656 }
    ensures halted { (uses : List Use) × AsksTo (origin_in settings.now.log) result uses
        × TellUses uses (F.opened files.old) (F.opened files.new)
        (F.hurt files.old) (F.hurt files.new) (F.unread files.old) (F.unread files.new)
        × ((items : List tree.Item) → HasJudged (asked_by settings.now) items [] [] judge.old →
        IfSome (F.texts files.old) (λ texts.
        LogHalted (asked_by settings.now) texts items uses (W.written out.old)
        (W.written out.new) output.new judge.new steps.old steps.new result)) }
    ensures plan { KeepsPlan judge.old judge.new }
    ensures cause { HasCutCause (Rose (W.faults out.old) (W.faults out.new)) result }
    ensures opened { HasLogCause (Rose (F.faults files.old) (F.faults files.new)) result }
    ensures texts { F.texts files.new ≡ F.texts files.old }
    ensures lent { F.lent files.new ≡ F.lent files.old }
    ensures later { F.faults files.old ≤ F.faults files.new }
    ensures out_later { W.faults out.old ≤ W.faults out.new }
{
    let mut bytes = match read_room(alloc) {
        Ok(bytes) => bytes,
        Err(_) => return Halt::Lost(Loss::Starved),
    };
    let room = bytes.as_mut_slice();
    let timed = judge.monitor.plan().is_timed();
    let mut reader = match LogReader::open(alloc, timed) {
        Ok(reader) => reader,
        Err(_) => return Halt::Lost(Loss::Starved),
    };
    let limit = settings.limit;
    match &settings.log {
        LogFrom::File(name) => {
            let name = name.as_str();
            run_file(
                judge,
                &mut reader,
                room,
                name,
                files,
                output,
                out,
                steps,
                limit,
            )
        }
        LogFrom::Sample { seed, events } => {
            let mut source = SampleSource::new(*seed, *events, timed);
            read_log(
                judge,
                &mut reader,
                room,
                &mut source,
                output,
                out,
                steps,
                limit,
            )
        }
    }
}
