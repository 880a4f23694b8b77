//! A run, from its words to its last line.
ghost use Rattle.std.specs.Prelude.{◌≡◌, ◌≤◌, [], map, IfOk, IsErrOf, None, Some, string_bytes};
ghost use Rattle.run_model.specs.Job.{job_of};
ghost use Rattle.run_model.specs.Went.{Moment};
ghost use Rattle.settings.specs.Asked.{asked_by};
ghost use Rattle.settings.specs.Numbers.{AreLawful};
ghost use Rattle.monitor_run.specs.Finishing.{Owes};

use crate::last::{Finished, finish_log, finish_misused, finish_spec};
use crate::origin::run_log;
use crate::specification::read_specification;
use mon_base::{Files, Sink, Steps};
use report::Output;
use run_model::{Course, Loss};
use settings::{Settings, UsageEnd, read};
use std::alloc::Global;
use std::sync::ledger::Ledger;

/// A run of these settings.
fn run_settings<F: Files, W: Sink, L: Ledger>(
    alloc: Global,
    settings: &Settings,
    files: &mut F,
    output: &mut Output,
    out: &mut W,
    steps: &mut Steps<L>,
) -> Finished
    requires lawful { AreLawful settings.now.bits settings.now.nodes settings.now.cache
        settings.now.limit }
    requires nothing { output.old ≡ [] }
    ensures owes { let before : Moment = record {
      texts = F.texts files.old;
      opened = F.opened files.old;
      unread = F.unread files.old;
      hurt = F.hurt files.old;
      lent = F.lent files.old;
      file_faults = F.faults files.old;
      written = W.written out.old;
      out_faults = W.faults out.old;
      steps = steps.old;
    } in
        let after : Moment = record {
          texts = F.texts files.new;
          opened = F.opened files.new;
          unread = F.unread files.new;
          hurt = F.hurt files.new;
          lent = F.lent files.new;
          file_faults = F.faults files.new;
          written = W.written out.new;
          out_faults = W.faults out.new;
          steps = steps.new;
        } in
        Owes (Some (asked_by settings.now)) before after result }
    ensures lent { F.lent files.new ≡ F.lent files.old }
    ensures later { F.faults files.old ≤ F.faults files.new }
    ensures out_later { W.faults out.old ≤ W.faults out.new }
{
    match read_specification(alloc, settings, files) {
        Ok(judge) => {
            let mut judge = judge;
            let halt = run_log(alloc, &mut judge, settings, files, output, out, steps);
            let course = finish_log(output, out, halt, &judge);
            Finished {
                course,
                violations: judge.violations,
            }
        }
        Err(halt) => {
            let course = finish_spec(output, out, halt);
            Finished {
                course,
                violations: 0,
            }
        }
    }
}

/// The settings that the words ask for. No listener is known yet, so words that name one are a wrong use.
fn settings_for(alloc: Global, words: &[String]) -> Result<Settings, UsageEnd>
    ensures ok { IfOk result (λ s. job_of (map string_bytes words.now) ≡ Some (asked_by s)) }
    ensures lawful { IfOk result (λ s. AreLawful s.bits s.nodes s.cache s.limit) }
    ensures usage { IsErrOf result UsageEnd.Usage → job_of (map string_bytes words.now) ≡ None }
{
    let settings = read(alloc, words)?;
    if settings.listen.is_empty() {
        Ok(settings)
    } else {
        Err(UsageEnd::Usage)
    }
}

/// A run, as the words ask for it.
pub fn session<F: Files, W: Sink, L: Ledger>(
    alloc: Global,
    words: &[String],
    files: &mut F,
    out: &mut W,
    steps: &mut Steps<L>,
) -> Finished
    ensures owes { let before : Moment = record {
      texts = F.texts files.old;
      opened = F.opened files.old;
      unread = F.unread files.old;
      hurt = F.hurt files.old;
      lent = F.lent files.old;
      file_faults = F.faults files.old;
      written = W.written out.old;
      out_faults = W.faults out.old;
      steps = steps.old;
    } in
        let after : Moment = record {
          texts = F.texts files.new;
          opened = F.opened files.new;
          unread = F.unread files.new;
          hurt = F.hurt files.new;
          lent = F.lent files.new;
          file_faults = F.faults files.new;
          written = W.written out.new;
          out_faults = W.faults out.new;
          steps = steps.new;
        } in
        Owes (job_of (map string_bytes words.now)) before after result }
    ensures lent { F.lent files.new ≡ F.lent files.old }
    ensures later { F.faults files.old ≤ F.faults files.new }
    ensures out_later { W.faults out.old ≤ W.faults out.new }
{
    let mut output = match Output::open(alloc) {
        Ok(output) => output,
        Err(_) => {
            return Finished {
                course: Course::Lost(Loss::Starved, None),
                violations: 0,
            };
        }
    };
    match settings_for(alloc, words) {
        Ok(settings) => run_settings(alloc, &settings, files, &mut output, out, steps),
        Err(UsageEnd::NoMemory) => Finished {
            course: Course::Lost(Loss::Starved, None),
            violations: 0,
        },
        Err(UsageEnd::Usage) => {
            let course = finish_misused(&mut output, out);
            Finished {
                course,
                violations: 0,
            }
        }
    }
}
