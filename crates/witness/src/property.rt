//! The values that show a violation.
ghost use Rattle.std.specs.Prelude.{◌≡◌, ◌+◌, ◌<◌, ◌≤◌, List, length, true, false, Some, IfOk, slice_get};
ghost use Rattle.std.specs.Option.{option_map};
ghost use Rattle.qtl_truth.specs.Truth.{IsLog};
ghost use Rattle.qtl_truth.specs.declared.event.Event.{Event as TheEvent};
ghost use Rattle.monitor_model.specs.State.{Stands, verdict_at};
ghost use Rattle.report.specs.Witness.{IsWitness};
ghost use Rattle.witness.specs.Finding.{witness_of};
ghost use Rattle.witness.specs.Turns.{root_of, find_bound};

use crate::chain::{below, show_chain};
use crate::laws::witnesses_hold;
use mon_base::{NoMemory, Steps};
use monitor_step::Monitor;
use report::Shown;
use std::alloc::Global;
use std::sync::ledger::Ledger;

/// The witness of property p, counted from 0, which is false at the last event: for each variable
/// of the `forall` at its top, from outside, any text, where one that the log doesn't have can be
/// extended by the later variables to a violation; else the least text by bytes that can. It makes
/// no node, and costs at most (B + 1) * 2^B steps for each of these variables, where a code has B
/// bits.
pub fn find<L: Ledger>(
    alloc: Global,
    monitor: &Monitor,
    p: u32,
    steps: &mut Steps<L>,
) -> Result<Vec<Shown>, NoMemory>
    requires live { monitor.now.live ≡ true }
    requires some { 1 ≤ monitor.now.events }
    requires p { p < length monitor.now.plan.props }
    requires fails { option_map (λ q. verdict_at monitor.now q.root)
        (slice_get monitor.now.plan.props p) ≡ Some false }
    ensures is { IfOk result (λ w. w.items ≡ witness_of monitor.now (root_of monitor.now p)) }
    ensures witness { (log : List TheEvent) → IsLog log → Stands monitor.now log →
        IfOk result (λ w. IsWitness monitor.now.plan log (length log)
        (root_of monitor.now p) w.items) }
    ensures cost { steps.new ≤ steps.old + find_bound monitor.now (root_of monitor.now p) }
{
    witnesses_hold();
    let _live = monitor.is_live();
    let _held = monitor.table().live();
    let root = monitor.plan().root(p);
    let body = below(monitor.plan(), root);
    let tree = monitor.now(body);
    let mut shown = Vec::new(alloc);
    show_chain(monitor, root, tree, &mut shown, steps)?;
    Ok(shown)
}
