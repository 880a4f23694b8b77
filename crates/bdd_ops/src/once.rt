//! Answers that need neither a look-up nor a node.

ghost use Rattle.std.specs.Prelude.{◌≡◌, List, Bool, ◌⊎◌, if◌then◌else◌, MatchOption};
ghost use Rattle.node_tree.specs.Tree.{value};
ghost use Rattle.node_table.specs.Table.{tree_of, IsValid};
ghost use Rattle.bdd_ops.specs.Applied.{op_tree};
ghost use Rattle.bdd_ops.specs.Parts.{IsBranch};

use crate::Op;
use crate::parts::{leaf, leaf_truth};
use mon_base::Numbered;
use node_table::{Handle, NodeTable};

/// The handle of a tree that has one truth where a handle's tree is false, and another where it is true. None only
/// where that would be the negation of a node.
fn chosen(table: &NodeTable, h: Handle, when_false: bool, when_true: bool) -> Option<Handle>
    requires { IsValid table.now h }
    ensures { MatchOption result (IsBranch (tree_of table.now h))
        (λ k. IsValid table.now k × ((bits : List Bool) → value (tree_of table.now k) bits ≡ (if value (tree_of table.now h) bits then when_true else when_false))) }
{
    if when_false == when_true {
        return Some(leaf(table, when_true));
    }
    if when_true {
        return Some(h);
    }
    match leaf_truth(table, h) {
        Some(truth) => Some(leaf(table, !truth)),
        None => None,
    }
}

/// The result of an operation, where an operand is a leaf or both are one. None only where an operand is a node.
pub fn at_once(table: &NodeTable, op: Op, u: Handle, v: Handle) -> Option<Handle>
    requires left { IsValid table.now u }
    requires right { IsValid table.now v }
    ensures { MatchOption result (IsBranch (tree_of table.now u) ⊎ IsBranch (tree_of table.now v))
        (λ h. IsValid table.now h × (tree_of table.now h ≡ op_tree op table.now u v)) }
{
    let _held = table.live();
    if let Some(a) = leaf_truth(table, u) {
        return chosen(table, v, op.truth(a, false), op.truth(a, true));
    }
    if let Some(b) = leaf_truth(table, v) {
        return chosen(table, u, op.truth(false, b), op.truth(true, b));
    }
    if u.number() == v.number() {
        return chosen(table, u, op.truth(false, false), op.truth(true, true));
    }
    None
}
