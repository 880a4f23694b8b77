//! The rows of one subformula that remembers something.

ghost use Rattle.std.specs.Prelude.{◌≡◌, ◌+◌, ◌*◌, ◌≤◌, length, take, true};
ghost use Rattle.std.specs.List.{Contains};
ghost use Rattle.node_table.specs.Table.{tree_of};
ghost use Rattle.node_table.specs.Collects.{AllValid};
ghost use Rattle.bdd_ops.specs.Shelf.{handle_pairs, IsLarge};
ghost use Rattle.operation_rows.specs.Rows.{MakesUpdate};
ghost use Rattle.subformulas.specs.Memory.{is_temporal};
ghost use Rattle.subformulas.specs.OperationRows.{rows_of};
ghost use Rattle.subformulas.specs.Table.{children as children_of};
ghost use Rattle.monitor_model.specs.Rows.{update};
ghost use Rattle.monitor_step.specs.Frame.{frame_of, setting_with, HasTimeBlock};
ghost use Rattle.monitor_step.specs.RowsMade.{IsReadable};

use crate::frame::{Children, Frame};
use bdd_ops::{Op, Store};
use mon_base::Steps;
use node_table::Handle;
use operation_rows::{
    RowFull, Updated, always_at_most_rows, always_more_than_rows, interval_rows, once_at_most_rows,
    once_more_than_rows, operation_row, since_at_most_rows, since_more_than_rows, since_rows,
};
use std::sync::ledger::Ledger;
use subformulas::{Kind, Plan};

/// The rows of a subformula of this kind, which remembers something. The first so many handles are the roots; those of its
/// children, and of what it remembers, are among them. Letters of the rows are put behind the roots.
pub fn temporal_rows<L: Ledger>(
    store: &mut Store,
    plan: &Plan,
    frame: &Frame,
    kind: &Kind,
    children: Children,
    handles: &mut [Handle],
    done: usize,
    steps: &mut Steps<L>,
) -> Result<Updated, RowFull>
    requires temporal { is_temporal kind.now ≡ true }
    requires time { HasTimeBlock plan.now frame.now }
    requires readable { IsReadable (setting_with plan.now frame.now.bits store.old.table.room) kind.now (tree_of store.old.table children.left) (tree_of store.old.table children.right) (tree_of store.old.table children.memory) }
    requires room { done + 3 ≤ length handles.old }
    requires left { Contains (take done handles.old) children.left }
    requires right { 2 ≤ children_of kind.now → Contains (take done handles.old) children.right }
    requires memory { Contains (take done handles.old) children.memory }
    requires roots { AllValid store.old.table (take done handles.old) }
    ensures made { MakesUpdate (update (frame_of (setting_with plan.now frame.now.bits store.old.table.room) frame.now) kind.now (tree_of store.old.table children.left) (tree_of store.old.table children.right) (tree_of store.old.table children.memory)) (take done handles.old) store.old.table store.new.table result }
    ensures roots { take done handles.new ≡ take done handles.old }
    ensures count { length handles.new ≡ length handles.old }
    ensures cost { IsLarge store.old → steps.new ≤ steps.old + rows_of kind.now frame.now.bits * (6 * handle_pairs store.old.table) }
    ensures entries { store.new.memo.entries ≡ store.old.memo.entries }
{
    let _held = store.live();
    let _ = plan;
    let Children {
        left: f,
        right: g,
        memory: m,
    } = children;
    let (time, delta) = (frame.time, frame.delta);
    match kind {
        Kind::Since => since_rows(store, f, g, m, &handles[..done], steps),
        Kind::Once => operation_row(store, Op::Or, f, m, &handles[..done], steps),
        Kind::Always => operation_row(store, Op::And, f, m, &handles[..done], steps),
        Kind::Interval => interval_rows(store, f, g, m, &handles[..done], steps),
        Kind::SinceAtMost(n) => {
            since_at_most_rows(store, time, *n, delta, f, g, m, handles, done, steps)
        }
        Kind::SinceMoreThan(n) => {
            since_more_than_rows(store, time, *n, delta, f, g, m, handles, done, steps)
        }
        Kind::OnceAtMost(n) => {
            once_at_most_rows(store, time, *n, delta, f, m, handles, done, steps)
        }
        Kind::OnceMoreThan(n) => {
            once_more_than_rows(store, time, *n, delta, f, m, handles, done, steps)
        }
        Kind::AlwaysAtMost(n) => {
            always_at_most_rows(store, time, *n, delta, f, m, handles, done, steps)
        }
        Kind::AlwaysMoreThan(n) => {
            always_more_than_rows(store, time, *n, delta, f, m, handles, done, steps)
        }
        _ => Ok(Updated { now: m, next: f }),
    }
}
