//! The log, read in pieces to its end or to the limit.
ghost use Rattle.std.specs.Prelude.{◌≡◌, ◌+◌, ◌<◌, ◌≤◌, ℕ, List, [], ◌++◌, take, length, false, Option, Some, OnOk, IfOk, IfErr};
ghost use Rattle.std.specs.Io.KnownBytes.{Appends, Consumes, IsAtEnd};
ghost use Rattle.bdd_ops.specs.Shelf.{IsLarge};
ghost use Rattle.mon_base.specs.Causes.{Rose};
ghost use Rattle.qtl_syntax.specs.Tree as tree;
ghost use Rattle.log_reader.specs.Standing.{Stands, fresh_reading};
ghost use Rattle.monitor_run.specs.Judging.{Spends, judge_bound};
ghost use Rattle.monitor_run.specs.Reading.{Halted, HasCutCause, HasReadCause, IsFed, IsFedWithin, IsUnread, ReadsAll};
ghost use Rattle.monitor_run.specs.Standing.{HasJudged, IsReady, KeepsPlan, has_times};
ghost use Rattle.run_model.specs.Job.{Job};

use crate::judge::Judge;
use crate::piece::judge_fed;
use log_reader::LogReader;
use mon_base::{Sink, Source, Steps};
use report::Output;
use run_model::{Halt, LogStop, Loss};
use std::sync::ledger::Ledger;

/// How many bytes a read asks for: as many as there is room for, and at most so many.
fn asked(room: usize, most: u64) -> usize
    requires room { 0 < room }
    requires most { 0 < most }
    ensures some { 0 < result }
    ensures room { result ≤ room }
    ensures most { result ≤ most }
{
    if most < room as u64 {
        most as usize
    } else {
        room
    }
}

/// Writes what is held back, and then takes the bytes of one read, at most `most`. It gives 0 at the log's end alone.
fn fetch<S: Source, W: Sink>(
    room: &mut [u8],
    source: &mut S,
    output: &mut Output,
    out: &mut W,
    most: u64,
) -> Result<usize, Halt<LogStop>>
    requires room { 0 < length room.old }
    requires some { 0 < most }
    ensures within { IfOk result (λ n. n ≤ length room.new) }
    ensures most { IfOk result (λ n. n ≤ most) }
    ensures length { length room.new ≡ length room.old }
    ensures taken { IfOk result
        (λ n. Consumes (S.left source.old) (S.left source.new) (take n room.new)) }
    ensures ended { IfOk result (λ n. n ≡ 0 → IsAtEnd (S.left source.new)) }
    ensures sent { IfOk result (λ _. Appends (W.written out.old) (W.written out.new) output.old ×
        (output.new ≡ [])) }
    ensures failed { IfErr result (λ halt. IsUnread (S.left source.old) (S.left source.new)
        (W.written out.old) (W.written out.new) output.old output.new halt) }
    ensures cause { IfErr result
        (λ halt. HasCutCause (Rose (W.faults out.old) (W.faults out.new)) halt) }
    ensures read { IfErr result
        (λ halt. HasReadCause (Rose (S.faults source.old) (S.faults source.new)) halt) }
    ensures later { S.faults source.old ≤ S.faults source.new }
    ensures out_later { W.faults out.old ≤ W.faults out.new }
{
    match output.flush(out) {
        Ok(()) => {}
        Err(_) => return Err(Halt::Lost(Loss::Cut)),
    }
    let count = asked(room.len(), most);
    match source.read(&mut room[..count]) {
        Ok(count) => Ok(count),
        Err(_) => Err(Halt::At(LogStop::Unread)),
    }
}

/// Takes the bytes of one read, at most `most`, and judges the events that they complete. It gives 0 at the log's end.
fn take_turn<S: Source, W: Sink, L: Ledger>(
    judge: &mut Judge,
    reader: &mut LogReader,
    room: &mut [u8],
    source: &mut S,
    output: &mut Output,
    out: &mut W,
    steps: &mut Steps<L>,
    most: u64,
) -> Result<usize, Halt<LogStop>>
    requires room { 0 < length room.old }
    requires some { 0 < most }
    requires on { reader.old.ended ≡ false }
    requires fed { (count : ℕ) × IsFed count reader.old judge.old.monitor.last_time ×
        (count + most ≤ 281474976710656) }
    requires events { judge.old.events ≡ reader.old.given }
    requires ready { IsReady judge.old }
    ensures length { length room.new ≡ length room.old }
    ensures most { IfOk result (λ n. n ≤ most) }
    ensures on { OnOk result (reader.new.ended ≡ false) }
    ensures ok { IfOk result (λ n. (job : Job) (items : List tree.Item)
        (all : tree.Text)
        (sent : Option tree.Text) (given : tree.Text) → length given + most ≤ job.limit →
        ReadsAll job items all (S.left source.old) sent (W.written out.old) given false judge.old
        reader.old output.old →
        (more : tree.Text) × (length more ≡ n)
        × ReadsAll job items all (S.left source.new) sent (W.written out.new) (given ++ more)
        false judge.new reader.new output.new) }
    ensures ended { IfOk result (λ n. n ≡ 0 → IsAtEnd (S.left source.new)) }
    ensures err { IfErr result (λ halt. (job : Job) (items : List tree.Item)
        (all : tree.Text)
        (sent : Option tree.Text) (given : tree.Text) → length given + most ≤ job.limit →
        ReadsAll job items all (S.left source.old) sent (W.written out.old) given false judge.old
        reader.old output.old →
        Halted job items all (S.left source.new) sent (W.written out.new) output.new judge.new
        reader.new.given halt) }
    ensures fed { IfOk result (λ n. (count : ℕ) →
        IsFed count reader.old judge.old.monitor.last_time →
        IsFed (count + n) reader.new judge.new.monitor.last_time) }
    ensures events { OnOk result (judge.new.events ≡ reader.new.given) }
    ensures ready { OnOk result (IsReady judge.new) }
    ensures plan { KeepsPlan judge.old judge.new }
    ensures cause { IfErr result
        (λ halt. HasCutCause (Rose (W.faults out.old) (W.faults out.new)) halt) }
    ensures read { IfErr result
        (λ halt. HasReadCause (Rose (S.faults source.old) (S.faults source.new)) halt) }
    ensures later { S.faults source.old ≤ S.faults source.new }
    ensures out_later { W.faults out.old ≤ W.faults out.new }
    ensures cost { IsLarge judge.old.monitor.shelf →
        Spends (judge_bound judge.old.monitor) judge.old.events reader.new.given steps.old
        steps.new }
    ensures grown { reader.old.given ≤ reader.new.given }
    ensures idle { reader.new.given ≡ reader.old.given → steps.new ≡ steps.old }
{
    let count = match fetch(room, source, output, out, most) {
        Ok(count) => count,
        Err(halt) => return Err(halt),
    };
    match reader.feed(&room[..count]) {
        Ok(()) => {}
        Err(_) => return Err(Halt::Lost(Loss::Starved)),
    }
    match judge_fed(judge, reader, output, out, steps) {
        Ok(()) => Ok(count),
        Err(halt) => Err(halt),
    }
}

/// Judges the last line of a log that has no more bytes.
fn end_log<W: Sink, L: Ledger>(
    judge: &mut Judge,
    reader: &mut LogReader,
    output: &mut Output,
    out: &mut W,
    steps: &mut Steps<L>,
) -> Halt<LogStop>
    requires on { reader.old.ended ≡ false }
    requires fed { IsFedWithin 281474976710656 reader.old judge.old.monitor.last_time }
    requires events { judge.old.events ≡ reader.old.given }
    requires ready { IsReady judge.old }
    ensures halted { (job : Job) (items : List tree.Item) (all : tree.Text)
        (left : Option tree.Text) (sent : Option tree.Text) (given : tree.Text) →
        ReadsAll job items all left sent (W.written out.old) given false judge.old reader.old
        output.old → IsAtEnd left →
        Halted job items all left sent (W.written out.new) output.new judge.new reader.new.given
        result }
    ensures plan { KeepsPlan judge.old judge.new }
    ensures cause { HasCutCause (Rose (W.faults out.old) (W.faults out.new)) result }
    ensures no_read { HasReadCause ⊥ result }
    ensures out_later { W.faults out.old ≤ W.faults out.new }
    ensures cost { IsLarge judge.old.monitor.shelf →
        Spends (judge_bound judge.old.monitor) judge.old.events reader.new.given steps.old
        steps.new }
    ensures grown { reader.old.given ≤ reader.new.given }
    ensures idle { reader.new.given ≡ reader.old.given → steps.new ≡ steps.old }
{
    reader.end();
    match judge_fed(judge, reader, output, out, steps) {
        Ok(()) => Halt::At(LogStop::Whole),
        Err(halt) => halt,
    }
}

/// Tells whether a log goes on behind the limit.
fn past_limit<S: Source, W: Sink, L: Ledger>(
    judge: &mut Judge,
    reader: &mut LogReader,
    room: &mut [u8],
    source: &mut S,
    output: &mut Output,
    out: &mut W,
    steps: &mut Steps<L>,
    limit: u64,
) -> Halt<LogStop>
    requires room { 0 < length room.old }
    requires on { reader.old.ended ≡ false }
    requires fed { IsFedWithin 281474976710656 reader.old judge.old.monitor.last_time }
    requires events { judge.old.events ≡ reader.old.given }
    requires ready { IsReady judge.old }
    ensures halted { (job : Job) (items : List tree.Item) (all : tree.Text)
        (sent : Option tree.Text) (given : tree.Text) → job.limit ≡ limit →
        ReadsAll job items all (S.left source.old) sent (W.written out.old) given false judge.old
        reader.old output.old →
        length given ≡ limit →
        Halted job items all (S.left source.new) sent (W.written out.new) output.new judge.new
        reader.new.given result }
    ensures plan { KeepsPlan judge.old judge.new }
    ensures cause { HasCutCause (Rose (W.faults out.old) (W.faults out.new)) result }
    ensures read { HasReadCause (Rose (S.faults source.old) (S.faults source.new)) result }
    ensures later { S.faults source.old ≤ S.faults source.new }
    ensures out_later { W.faults out.old ≤ W.faults out.new }
    ensures cost { IsLarge judge.old.monitor.shelf →
        Spends (judge_bound judge.old.monitor) judge.old.events reader.new.given steps.old
        steps.new }
    ensures grown { reader.old.given ≤ reader.new.given }
    ensures idle { reader.new.given ≡ reader.old.given → steps.new ≡ steps.old }
{
    match fetch(room, source, output, out, 1) {
        Ok(0) => end_log(judge, reader, output, out, steps),
        Ok(_) => Halt::At(LogStop::Long { limit }),
        Err(halt) => halt,
    }
}

/// Reads at most `limit` bytes of the log, and judges their events. Each read asks for as many bytes as
/// `room` has.
pub fn read_log<S: Source, W: Sink, L: Ledger>(
    judge: &mut Judge,
    reader: &mut LogReader,
    room: &mut [u8],
    source: &mut S,
    output: &mut Output,
    out: &mut W,
    steps: &mut Steps<L>,
    limit: u64,
) -> Halt<LogStop>
    requires fresh { reader.old ≡ fresh_reading (has_times judge.old.monitor.plan) }
    requires stands { Stands [] reader.old }
    requires room { 0 < length room.old }
    requires events { judge.old.events ≡ 0 }
    requires time { judge.old.monitor.last_time ≡ 0 }
    requires ready { IsReady judge.old }
    requires nothing { output.old ≡ [] }
    requires small { limit ≤ 281474976710656 }
    ensures halted { (job : Job) (items : List tree.Item) (all : tree.Text) → job.limit ≡ limit →
        HasJudged job items [] [] judge.old → S.left source.old ≡ Some all →
        Halted job items all (S.left source.new) (W.written out.old) (W.written out.new)
        output.new judge.new reader.new.given result }
    ensures plan { KeepsPlan judge.old judge.new }
    ensures cause { HasCutCause (Rose (W.faults out.old) (W.faults out.new)) result }
    ensures read { HasReadCause (Rose (S.faults source.old) (S.faults source.new)) result }
    ensures later { S.faults source.old ≤ S.faults source.new }
    ensures out_later { W.faults out.old ≤ W.faults out.new }
    ensures cost { IsLarge judge.old.monitor.shelf →
        Spends (judge_bound judge.old.monitor) judge.old.events reader.new.given steps.old
        steps.new }
    ensures idle { reader.new.given ≡ 0 → steps.new ≡ steps.old }
{
    let mut taken: u64 = 0;
    'pieces: while taken < limit {
        let most = limit - taken;
        match take_turn(judge, reader, room, source, output, out, steps, most) {
            Ok(0) => return end_log(judge, reader, output, out, steps),
            Ok(count) => taken += count as u64,
            Err(halt) => return halt,
        }
    }
    past_limit(judge, reader, room, source, output, out, steps, limit)
}
