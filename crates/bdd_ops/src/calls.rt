//! The operations on two trees, and negation.

ghost use Rattle.std.specs.Prelude.{◌≡◌, ◌+◌, ◌*◌, ◌≤◌, [], ◌∷◌, List, Bool, not, IfOk};
ghost use Rattle.node_tree.specs.Tree.{value};
ghost use Rattle.node_table.specs.Table.{tree_of, IsValid};
ghost use Rattle.node_table.specs.Collects.{AllValid};
ghost use Rattle.bdd_ops.specs.Apply.{map_leaves};
ghost use Rattle.bdd_ops.specs.Numbers.{truth_of};
ghost use Rattle.bdd_ops.specs.Applied.{op_tree, HoldsResults, Applies};
ghost use Rattle.bdd_ops.specs.Shelf.{handle_pairs, HasRoom, IsBounded};
ghost use Rattle.bdd_ops.specs.Operates.{Operates};

use crate::combine::apply_parts;
use crate::short::apply_shortly;
use crate::{NodesFull, Op, Store};
use mon_base::Steps;
use node_table::{Full, Handle};
use std::sync::ledger::Ledger;

/// An operation in the middle of another. It neither collects nor forgets.
pub fn apply_inside<L: Ledger>(
    store: &mut Store,
    op: Op,
    u: Handle,
    v: Handle,
    steps: &mut Steps<L>,
) -> Result<Handle, Full>
    requires left { IsValid store.old.table u }
    requires right { IsValid store.old.table v }
    requires sound { HoldsResults store.old.table store.old.memo.pairs }
    ensures applies { Applies op u v store.old.table store.new.table store.old.memo store.new.memo steps.old steps.new result }
    ensures bounded { HasRoom store.old → steps.new ≤ steps.old + (2 * handle_pairs store.old.table + 4 * store.old.table.room) }
{
    let _nodes = store.table.live();
    let made = apply_parts(&mut store.table, &mut store.cache, op, u, v, steps);
    let _pairs = store.cache.held();
    store.sound = true;
    made
}

/// The operation on two trees. Where the memo doesn't have it, it is tried shortly first. An operation that finds the table
/// full is dropped, the table is collected, and the operation is tried once more.
pub fn apply<L: Ledger>(
    store: &mut Store,
    op: Op,
    u: Handle,
    v: Handle,
    roots: &[Handle],
    steps: &mut Steps<L>,
) -> Result<Handle, NodesFull>
    requires left { IsValid store.old.table u }
    requires right { IsValid store.old.table v }
    requires roots { AllValid store.old.table roots.now }
    ensures made { Operates (op_tree op store.old.table u v) (u ∷ (v ∷ [])) roots.now store.old.table store.new.table result }
    ensures values { IfOk result
        (λ h. (bits : List Bool) → value (tree_of store.new.table h) bits ≡ truth_of op (value (tree_of store.old.table u) bits) (value (tree_of store.old.table v) bits)) }
    ensures bounded { IsBounded store.old steps.old steps.new }
    ensures entries { store.new.memo.entries ≡ store.old.memo.entries }
    ensures sound { HoldsResults store.new.table store.new.memo.pairs }
{
    let operands = [u, v];
    store.make_ready(&operands, roots);
    let _held = store.live();
    if let Some(known) = store.find(op.key(u, v)) {
        return Ok(known);
    }
    if let Some(made) = apply_shortly(store, op, u, v, steps) {
        return Ok(made);
    }
    if let Ok(made) = apply_inside(store, op, u, v, steps) {
        return Ok(made);
    }
    store.tidy(roots, &operands);
    match apply_inside(store, op, u, v, steps) {
        Ok(made) => Ok(made),
        Err(Full) => Err(NodesFull),
    }
}

/// The negation of a tree.
pub fn not<L: Ledger>(
    store: &mut Store,
    h: Handle,
    roots: &[Handle],
    steps: &mut Steps<L>,
) -> Result<Handle, NodesFull>
    requires valid { IsValid store.old.table h }
    requires roots { AllValid store.old.table roots.now }
    ensures made { Operates (map_leaves not (tree_of store.old.table h)) (h ∷ []) roots.now store.old.table store.new.table result }
    ensures values { IfOk result (λ n. (bits : List Bool) → value (tree_of store.new.table n) bits ≡ not (value (tree_of store.old.table h) bits)) }
    ensures bounded { IsBounded store.old steps.old steps.new }
    ensures entries { store.new.memo.entries ≡ store.old.memo.entries }
    ensures sound { HoldsResults store.new.table store.new.memo.pairs }
{
    let one = store.table.one();
    apply(store, Op::AndNot, one, h, roots, steps)
}
