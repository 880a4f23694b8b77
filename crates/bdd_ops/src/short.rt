//! A short try of an operation: without the memo, which costs more than it saves where few pairs are taken apart.

ghost use Rattle.std.specs.Prelude.{◌≡◌, ◌+◌, ◌*◌, ◌≤◌, ◌⊎◌};
ghost use Rattle.node_table.specs.Table.{tree_of, IsValid};
ghost use Rattle.bdd_ops.specs.Applied.{HoldsResults, op_tree};
ghost use Rattle.bdd_ops.specs.Parts.{IsBranch};
ghost use Rattle.bdd_ops.specs.Tried.{Tries};

use crate::once::at_once;
use crate::parts::take_apart;
use crate::{Op, Store};
use mon_base::Steps;
use node_table::{Full, Handle, NodeTable};
use std::sync::ledger::Ledger;

/// How many pairs of handles a short try takes apart at most.
const SHORT: u32 = 48;

/// An operation over a table that takes apart at most so many pairs. None where these or the table's nodes don't suffice.
#[cycle(few)]
#[inline]
fn apply_to_few<L: Ledger>(
    table: &mut NodeTable,
    op: Op,
    u: Handle,
    v: Handle,
    pairs: &mut u32,
    steps: &mut Steps<L>,
) -> Option<Handle>
    requires left { IsValid table.old u }
    requires right { IsValid table.old v }
    ensures tried { Tries (op_tree op table.old u v) table.old table.new result }
    ensures fewer { pairs.new ≤ pairs.old }
    ensures cost { steps.new + 2 * pairs.new ≤ steps.old + 2 * pairs.old }
{
    let _held = table.live();
    match at_once(table, op, u, v) {
        Some(known) => Some(known),
        None => apply_to_parts(table, op, u, v, pairs, steps),
    }
}

/// The same for a pair that isn't answered at once. It stands by itself so that a part that is costs no call.
#[cycle(few)]
#[inline(never)]
fn apply_to_parts<L: Ledger>(
    table: &mut NodeTable,
    op: Op,
    u: Handle,
    v: Handle,
    pairs: &mut u32,
    steps: &mut Steps<L>,
) -> Option<Handle>
    requires left { IsValid table.old u }
    requires right { IsValid table.old v }
    requires node { IsBranch (tree_of table.old u) ⊎ IsBranch (tree_of table.old v) }
    ensures tried { Tries (op_tree op table.old u v) table.old table.new result }
    ensures fewer { pairs.new ≤ pairs.old }
    ensures cost { steps.new + 2 * pairs.new ≤ steps.old + 2 * pairs.old }
{
    let _held = table.live();
    if *pairs == 0 {
        return None;
    }
    *pairs -= 1;
    let part = take_apart(table, u, v, steps);
    let low = apply_to_few(table, op, part.left_low, part.right_low, pairs, steps)?;
    let high = apply_to_few(table, op, part.left_high, part.right_high, pairs, steps)?;
    match table.make(part.level, low, high) {
        Ok(made) => Some(made),
        Err(Full) => None,
    }
}

/// A short try over a store, whose memo it leaves as it is.
pub fn apply_shortly<L: Ledger>(
    store: &mut Store,
    op: Op,
    u: Handle,
    v: Handle,
    steps: &mut Steps<L>,
) -> Option<Handle>
    requires left { IsValid store.old.table u }
    requires right { IsValid store.old.table v }
    ensures tried { Tries (op_tree op store.old.table u v) store.old.table store.new.table result }
    ensures memo { store.new.memo ≡ store.old.memo }
    ensures sound { HoldsResults store.old.table store.old.memo.pairs → HoldsResults store.new.table store.new.memo.pairs }
    ensures cost { steps.new ≤ steps.old + 2 * store.old.table.room }
{
    let mut pairs = SHORT.min(store.table.room());
    apply_to_few(&mut store.table, op, u, v, &mut pairs, steps)
}
