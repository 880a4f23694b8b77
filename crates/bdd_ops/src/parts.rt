//! What a handle is: a truth, or a level and two parts.

ghost use Rattle.std.specs.Prelude.{◌≡◌, ◌+◌, ◌<◌, ◌⊎◌, min, MatchOption};
ghost use Rattle.node_table.specs.Table.{tree_of, IsValid};
ghost use Rattle.bdd_ops.specs.Apply.{leaf_of};
ghost use Rattle.bdd_ops.specs.Parts.{IsBranch, IsNode, level_of, low_of, high_of};
ghost use Rattle.bdd_ops.specs.Split.{Splits};

use mon_base::{Numbered, Steps};
use node_table::{Branch, Handle, NodeTable};
use std::sync::ledger::Ledger;

/// The leaf of a truth.
pub fn leaf(table: &NodeTable, truth: bool) -> Handle
    ensures valid { IsValid table.now result }
    ensures tree { tree_of table.now result ≡ leaf_of truth }
{
    if truth { table.one() } else { table.zero() }
}

/// The truth of a leaf, and none of a node.
pub fn leaf_truth(table: &NodeTable, h: Handle) -> Option<bool>
    requires { IsValid table.now h }
    ensures { MatchOption result (IsBranch (tree_of table.now h)) (λ truth. tree_of table.now h ≡ leaf_of truth) }
{
    let _held = table.live();
    if h.number() == table.zero().number() {
        return Some(false);
    }
    if h.number() == table.one().number() {
        return Some(true);
    }
    None
}

/// The level of what a handle is. A leaf stands below all levels.
fn level(branch: &Branch) -> u32
    ensures level { result ≡ level_of branch.now }
    ensures node { IsNode branch.now → result < 65536 }
{
    match branch {
        Branch::Node { level, .. } => *level as u32,
        _ => 65536,
    }
}

/// The lesser of two levels, of which one is a node's.
fn first_level(left: &Branch, right: &Branch) -> u16
    requires { IsNode left.now ⊎ IsNode right.now }
    ensures { result ≡ min (level_of left.now) (level_of right.now) }
{
    level(left).min(level(right)) as u16
}

/// The parts of a handle at a level: its children, where it stands there, or else itself twice.
fn parts(branch: &Branch, h: Handle, at: u16) -> (Handle, Handle)
    ensures low { result.0 ≡ low_of branch.now h at }
    ensures high { result.1 ≡ high_of branch.now h at }
{
    match branch {
        Branch::Node { level, low, high } if *level == at => (*low, *high),
        _ => (h, h),
    }
}

/// Two handles taken apart: the lesser of their levels, and the parts of both there.
#[derive(Clone, Copy)]
pub struct Split {
    pub level: u16,
    pub left_low: Handle,
    pub left_high: Handle,
    pub right_low: Handle,
    pub right_high: Handle,
}

/// Takes two handles apart, of which one is a node. It costs two steps.
pub fn take_apart<L: Ledger>(table: &NodeTable, u: Handle, v: Handle, steps: &mut Steps<L>) -> Split
    requires left { IsValid table.now u }
    requires right { IsValid table.now v }
    requires node { IsBranch (tree_of table.now u) ⊎ IsBranch (tree_of table.now v) }
    ensures splits { Splits table.now u v result }
    ensures cost { steps.new ≡ steps.old + 2 }
{
    let left = table.branch(u, steps);
    let right = table.branch(v, steps);
    let level = first_level(&left, &right);
    let (left_low, left_high) = parts(&left, u, level);
    let (right_low, right_high) = parts(&right, v, level);
    Split {
        level,
        left_low,
        left_high,
        right_low,
        right_high,
    }
}
