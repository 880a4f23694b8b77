//! Operations that take a level out of a tree: restriction, and the disjunction or conjunction over a bit.

ghost use Rattle.std.specs.Prelude.{◌≡◌, ◌+◌, ◌<◌, MatchOption};
ghost use Rattle.node_tree.specs.Tree.{top};
ghost use Rattle.node_table.specs.Table.{tree_of, IsValid};
ghost use Rattle.bdd_ops.specs.Applied.{HoldsResults};
ghost use Rattle.bdd_ops.specs.Level.{at_level, merged, merge_number, HoldsTrees, Changes, Merges, IsAbove};

use crate::Op;
use crate::combine::apply_parts;
use mon_base::Steps;
use node_table::{Branch, Full, Handle, NodeTable};
use op_cache::{Key, OpCache};
use std::sync::ledger::Ledger;

/// What takes the place of a node of the level: its low or its high child, or either or both of them as truths.
#[derive(Clone, Copy, Debug, PartialEq, Eq)]
pub enum Merge {
    Low,
    High,
    Either,
    Both,
}

impl Merge {
    /// Its number in the memo.
    fn number(self) -> u8
        ensures { result ≡ merge_number self }
    {
        match self {
            Merge::Low => 5,
            Merge::High => 6,
            Merge::Either => 16,
            Merge::Both => 17,
        }
    }

    /// The key of its result on a handle. The level isn't part of it.
    fn key(self, h: Handle) -> Key<Handle>
        ensures { result ≡ record { op = merge_number self; left = h; right = h } }
    {
        Key {
            op: self.number(),
            left: h,
            right: h,
        }
    }
}

/// A node: its level and its children.
#[derive(Clone, Copy)]
struct Above {
    level: u16,
    low: Handle,
    high: Handle,
}

/// The node of a handle, where its level is the given one or stands above it. It costs one step.
fn node_to<L: Ledger>(
    table: &NodeTable,
    h: Handle,
    level: u16,
    steps: &mut Steps<L>,
) -> Option<Above>
    requires { IsValid table.now h }
    ensures node { MatchOption result (level < top (tree_of table.now h)) (λ a. IsAbove table.now h level a.level a.low a.high) }
    ensures cost { steps.new ≡ steps.old + 1 }
{
    match table.branch(h, steps) {
        Branch::Node {
            level: at,
            low,
            high,
        } if at <= level => Some(Above {
            level: at,
            low,
            high,
        }),
        _ => None,
    }
}

/// What takes the place of a node with these children.
fn merge_parts<L: Ledger>(
    table: &mut NodeTable,
    cache: &mut OpCache<Handle>,
    merge: Merge,
    low: Handle,
    high: Handle,
    steps: &mut Steps<L>,
) -> Result<Handle, Full>
    requires low { IsValid table.old low }
    requires high { IsValid table.old high }
    requires sound { HoldsResults table.old cache.old.pairs }
    ensures { Merges merge low high table.old table.new cache.old cache.new steps.old steps.new result }
{
    let _held = table.live();
    match merge {
        Merge::Low => Ok(low),
        Merge::High => Ok(high),
        Merge::Either => apply_parts(table, cache, Op::Or, low, high, steps),
        Merge::Both => apply_parts(table, cache, Op::And, low, high, steps),
    }
}

/// Takes a level out of a tree. All results of the memo under this number are those of this level.
pub fn level_parts<L: Ledger>(
    table: &mut NodeTable,
    cache: &mut OpCache<Handle>,
    merge: Merge,
    level: u16,
    h: Handle,
    steps: &mut Steps<L>,
) -> Result<Handle, Full>
    requires valid { IsValid table.old h }
    requires sound { HoldsResults table.old cache.old.pairs }
    requires remembers { HoldsTrees (at_level (merged merge) level) (merge_number merge) table.old cache.old.pairs }
    ensures { Changes merge level h table.old table.new cache.old cache.new steps.old steps.new result }
{
    let _held = table.live();
    let Some(node) = node_to(table, h, level, steps) else {
        return Ok(h);
    };
    if node.level == level {
        return merge_parts(table, cache, merge, node.low, node.high, steps);
    }
    if let Some(found) = cache.find(merge.key(h)) {
        return Ok(found);
    }
    let low = level_parts(table, cache, merge, level, node.low, steps)?;
    let high = level_parts(table, cache, merge, level, node.high, steps)?;
    let made = table.make(node.level, low, high)?;
    cache.store(merge.key(h), made);
    Ok(made)
}
