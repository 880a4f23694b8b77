//! A walk below a handle, by marks: each handle is looked at once.

ghost use Rattle.std.specs.Prelude.{◌≡◌, ◌+◌, ◌*◌, ◌-◌, ◌^◌, ◌<◌, ◌≤◌, MatchOption, length};
ghost use Rattle.node_tree.specs.Tree.{IsOrderedFrom, top};
ghost use Rattle.node_table.specs.Table.{tree_of, IsValid};
ghost use Rattle.code_reclaim.specs.Search.{HasChildren, AreClear, unmarked, Strikes};

use crate::entry::strike_entry;
use mon_base::Steps;
use node_table::{Block, Branch, Handle, NodeTable};
use std::sync::ledger::Ledger;

/// The children of a node.
#[derive(Clone, Copy)]
struct Children {
    low: Handle,
    high: Handle,
}

/// The children of a node that stands above a level, and none of another handle. It costs one step.
fn children_above<L: Ledger>(
    table: &NodeTable,
    h: Handle,
    level: u16,
    steps: &mut Steps<L>,
) -> Option<Children>
    requires { IsValid table.now h }
    ensures children { MatchOption result (IsOrderedFrom level (tree_of table.now h)) (λ c. HasChildren table.now h level c.low c.high) }
    ensures cost { steps.new ≡ steps.old + 1 }
{
    match table.branch(h, steps) {
        Branch::Node {
            level: at,
            low,
            high,
        } if at < level => Some(Children { low, high }),
        _ => None,
    }
}

/// Strikes the candidates that the tree of a handle tells apart. The list begins with the code `from`. A handle that is
/// marked was looked at before, or stands above this one.
pub fn strike_below<L: Ledger>(
    table: &mut NodeTable,
    h: Handle,
    block: Block,
    from: u32,
    candidates: &mut [bool],
    steps: &mut Steps<L>,
)
    requires valid { IsValid table.old h }
    requires width { block.bits ≤ 20 }
    requires block { block.first + block.bits ≤ 65536 }
    requires some { 1 ≤ length candidates.old }
    requires fits { from + length candidates.old ≤ 2 ^ block.bits }
    requires clear { AreClear block.first block.bits from candidates.old (top (tree_of table.old h)) table.old }
    ensures struck { Strikes block.first block.bits from h table.old table.new candidates.old candidates.new }
    ensures cost { steps.new + length candidates.old * (2 * block.bits + 1) * unmarked table.new ≤ steps.old + length candidates.old * (2 * block.bits + 1) * unmarked table.old }
{
    let _held = table.live();
    if !table.mark(h) {
        return;
    }
    match children_above(table, h, block.first, steps) {
        None => strike_entry(table, h, block, from, candidates, steps),
        Some(node) => {
            strike_below(table, node.low, block, from, candidates, steps);
            strike_below(table, node.high, block, from, candidates, steps);
        }
    }
}
