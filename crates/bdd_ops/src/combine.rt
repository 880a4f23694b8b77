//! The recursion of an operation on two diagrams, with its memo.

ghost use Rattle.std.specs.Prelude.{◌⊎◌};
ghost use Rattle.node_table.specs.Table.{tree_of, IsValid};
ghost use Rattle.bdd_ops.specs.Parts.{IsBranch};
ghost use Rattle.bdd_ops.specs.Applied.{HoldsResults, Applies};

use crate::Op;
use crate::once::at_once;
use crate::parts::take_apart;
use mon_base::Steps;
use node_table::{Full, Handle, NodeTable};
use op_cache::OpCache;
use std::sync::ledger::Ledger;

/// An operation over a table and a memo. It neither collects nor begins the memo anew. It is inlined, so that a half
/// that is known at once costs the recursion no call.
#[cycle(combine)]
#[inline(always)]
pub fn apply_parts<L: Ledger>(
    table: &mut NodeTable,
    cache: &mut OpCache<Handle>,
    op: Op,
    u: Handle,
    v: Handle,
    steps: &mut Steps<L>,
) -> Result<Handle, Full>
    requires left { IsValid table.old u }
    requires right { IsValid table.old v }
    requires sound { HoldsResults table.old cache.old.pairs }
    ensures { Applies op u v table.old table.new cache.old cache.new steps.old steps.new result }
{
    let _held = table.live();
    match at_once(table, op, u, v) {
        Some(known) => Ok(known),
        None => apply_nodes(table, cache, op, u, v, steps),
    }
}

/// The operation on two handles of which one is a node: what the memo has, or else the node over both halves.
#[cycle(combine)]
fn apply_nodes<L: Ledger>(
    table: &mut NodeTable,
    cache: &mut OpCache<Handle>,
    op: Op,
    u: Handle,
    v: Handle,
    steps: &mut Steps<L>,
) -> Result<Handle, Full>
    requires left { IsValid table.old u }
    requires right { IsValid table.old v }
    requires node { IsBranch (tree_of table.old u) ⊎ IsBranch (tree_of table.old v) }
    requires sound { HoldsResults table.old cache.old.pairs }
    ensures { Applies op u v table.old table.new cache.old cache.new steps.old steps.new result }
{
    let _held = table.live();
    if let Some(found) = cache.find(op.key(u, v)) {
        return Ok(found);
    }
    let part = take_apart(table, u, v, steps);
    let low = apply_parts(table, cache, op, part.left_low, part.right_low, steps)?;
    let high = apply_parts(table, cache, op, part.left_high, part.right_high, steps)?;
    let made = table.make(part.level, low, high)?;
    cache.store(op.key(u, v), made);
    Ok(made)
}
