//! The top call.
ghost use Rattle.std.specs.Prelude.{◌≡◌, map, string_bytes};
ghost use Rattle.run_model.specs.Course.{status_of};
ghost use Rattle.run_model.specs.Job.{job_of};
ghost use Rattle.run_model.specs.Ran.{Ran};
ghost use Rattle.run_model.specs.Went.{Moment};

use crate::session::session;
use mon_base::{Files, Sink, Steps};
use qtl_syntax::one_answer;
use run_model::Outcome;
use std::alloc::Global;
use std::sync::ledger::Ledger;

/// Checks a log against the properties of a specification, and writes the report to `out`.
///
/// `words` are those of a command line behind the program's name, as `settings::read` reads them: options, SPEC, and one of
/// LOG and `--sample`. A wrong use is answered with the line that tells how they are to be, and so is `--listen`, as no
/// listener is known yet. Where a property has a bound on time, once its macros are expanded, the last field of each record
/// is the event's time. For each event of the log and each property that is false there a line with a witness is written,
/// with `--all` one for each that is true too, and then the end line or the stop line. Lines are held back at most until
/// the next read of the log and until the call answers. The status is that of the end, from 0 to 7.
///
/// An event that needs more codes or nodes than `--bits` and `--nodes` allow ends the run. A code or a node is used again
/// once nothing that is remembered tells it apart, so a log of any length may stay within them.
pub fn run<F: Files, W: Sink, L: Ledger>(
    alloc: Global,
    words: &[String],
    files: &mut F,
    out: &mut W,
    steps: &mut Steps<L>,
) -> Outcome
    // How the run went, and what it asked for, judged and wrote: the report of each property's truth at each event.
    ensures ran { let before : Moment = record {
      texts = F.texts files.old;
      opened = F.opened files.old;
      unread = F.unread files.old;
      hurt = F.hurt files.old;
      lent = F.lent files.old;
      file_faults = F.faults files.old;
      written = W.written out.old;
      out_faults = W.faults out.old;
      steps = steps.old;
    } in
        let after : Moment = record {
          texts = F.texts files.new;
          opened = F.opened files.new;
          unread = F.unread files.new;
          hurt = F.hurt files.new;
          lent = F.lent files.new;
          file_faults = F.faults files.new;
          written = W.written out.new;
          out_faults = W.faults out.new;
          steps = steps.new;
        } in
        Ran (job_of (map string_bytes words.now)) before after result.end }
    ensures status { result.status ≡ status_of result.end }
    ensures dropped { result.dropped ≡ 0 }
{
    // A law, for what the words and the bytes decide: it does nothing.
    one_answer();
    let finished = session(alloc, words, files, out, steps);
    let end = finished.course.end(finished.violations);
    Outcome {
        status: end.status(),
        end,
        dropped: 0,
    }
}
