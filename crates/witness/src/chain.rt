//! Along the `forall` at the top of a property.
ghost use Rattle.std.specs.Prelude.{◌≡◌, ℕ, ◌+◌, ◌*◌, ◌^◌, ◌<◌, ◌≤◌, ◌++◌, ◌∷◌, [], length, true, OnOk, IfOk};
ghost use Rattle.node_tree.specs.Tree.{IsOrderedFrom};
ghost use Rattle.node_table.specs.Table.{tree_of, IsValid};
ghost use Rattle.subformulas.specs.Unfolded.{formula_at};
ghost use Rattle.monitor_model.specs.Setting.{first_of};
ghost use Rattle.monitor_model.specs.State.{setting_of};
ghost use Rattle.monitor_step.specs.Monitor.{variables_of};
ghost use Rattle.report.specs.Witness.{chain};
ghost use Rattle.witness.specs.Finding.{left_over, name_of, row_below, shown_over, value_over};
ghost use Rattle.witness.specs.Turns.{HasTurns};

use crate::choose::choose;
use mon_base::{NoMemory, Steps};
use monitor_step::Monitor;
use node_table::Handle;
use report::Shown;
use std::sync::ledger::Ledger;
use subformulas::{Kind, Plan};

/// The row below the `forall` at the top of row k, counted from 1.
pub fn below(plan: &Plan, k: u32) -> u32
    requires from { 1 ≤ k }
    requires to { k ≤ length plan.now.subs }
    ensures is { (looks : ℕ) → k ≤ looks → result ≡ row_below plan.now.subs looks k }
    ensures from { 1 ≤ result }
    ensures to { result ≤ k }
{
    let _sound = plan.count();
    let sub = plan.sub(k);
    match sub.kind {
        Kind::Forall(_) => below(plan, sub.left),
        _ => k,
    }
}

/// Shows a variable over a tree, and gives the tree that is left for the later ones.
fn show<L: Ledger>(
    monitor: &Monitor,
    x: u32,
    h: Handle,
    shown: &mut Vec<Shown>,
    steps: &mut Steps<L>,
) -> Result<Handle, NoMemory>
    requires live { monitor.now.live ≡ true }
    requires variable { x < variables_of monitor.now }
    requires valid { IsValid monitor.now.shelf.table h }
    requires below { IsOrderedFrom (first_of (setting_of monitor.now) x)
        (tree_of monitor.now.shelf.table h) }
    ensures shown { OnOk result (shown.new.items ≡ shown.old.items ++
        record {
          name = name_of monitor.now x;
          value = value_over monitor.now x (tree_of monitor.now.shelf.table h);
        } ∷ []) }
    ensures valid { IfOk result (IsValid monitor.now.shelf.table) }
    ensures tree { IfOk result (λ r. tree_of monitor.now.shelf.table r ≡
        left_over monitor.now x (tree_of monitor.now.shelf.table h)) }
    ensures cost { steps.new ≤ steps.old + (monitor.now.bits + 1) * 2 ^ monitor.now.bits }
{
    let chosen = choose(monitor, x, h, steps)?;
    let name = monitor.plan().variables()[x as usize].name.copy()?;
    shown.push(Shown {
        name,
        value: chosen.value,
    })?;
    Ok(chosen.rest)
}

/// Shows the variables of the `forall` at the top of row k over a tree.
pub fn show_chain<L: Ledger>(
    monitor: &Monitor,
    k: u32,
    h: Handle,
    shown: &mut Vec<Shown>,
    steps: &mut Steps<L>,
) -> Result<(), NoMemory>
    requires live { monitor.now.live ≡ true }
    requires from { 1 ≤ k }
    requires to { k ≤ length monitor.now.plan.subs }
    requires valid { IsValid monitor.now.shelf.table h }
    requires turns { HasTurns (setting_of monitor.now) (chain (formula_at monitor.now.plan.subs k))
        (tree_of monitor.now.shelf.table h) }
    ensures shown { OnOk result (shown.new.items ≡ shown.old.items ++
        shown_over monitor.now (chain (formula_at monitor.now.plan.subs k))
        (tree_of monitor.now.shelf.table h)) }
    ensures cost { steps.new ≤ steps.old + length (chain (formula_at monitor.now.plan.subs k)) *
        ((monitor.now.bits + 1) * 2 ^ monitor.now.bits) }
{
    let plan = monitor.plan();
    let _sound = plan.count();
    let _held = monitor.table().live();
    let sub = plan.sub(k);
    match sub.kind {
        Kind::Forall(x) => {
            let rest = show(monitor, x, h, shown, steps)?;
            show_chain(monitor, sub.left, rest, shown, steps)
        }
        _ => Ok(()),
    }
}
