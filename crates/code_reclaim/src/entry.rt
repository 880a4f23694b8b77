//! The codes that the tree of one entry of a block tells apart: one walk below it, by ranges of codes.

ghost use Rattle.std.specs.Prelude.{◌≡◌, ◌+◌, ◌*◌, ◌-◌, ◌^◌, ◌<◌, ◌≤◌, MatchOption, length};
ghost use Rattle.node_tree.specs.Tree.{IsOrderedFrom};
ghost use Rattle.node_table.specs.Table.{tree_of, IsValid};
ghost use Rattle.code_reclaim.specs.Told.{differs};
ghost use Rattle.code_reclaim.specs.Candidates.{departs, struck, HasHalves};

use bdd_ops::walk;
use mon_base::{Numbered, Steps};
use node_table::{Block, Branch, Handle, NodeTable};
use std::sync::ledger::Ledger;

/// The number of so many bits that are all ones.
pub fn all_ones(bits: u8) -> u32
    requires { bits ≤ 20 }
    ensures { result ≡ 2 ^ bits - 1 }
{
    (1 << bits) - 1
}

/// The half of the numbers of so many bits.
fn half(bits: u8) -> u32
    requires some { 1 ≤ bits }
    requires small { bits ≤ 20 }
    ensures { result ≡ 2 ^ (bits - 1) }
{
    1 << (bits - 1)
}

/// A tree with the first bit of a block false, and true.
#[derive(Clone, Copy)]
struct Halves {
    low: Handle,
    high: Handle,
}

/// The halves of a tree that the first bit doesn't change.
fn both(h: Handle) -> Halves
    ensures low { result.low ≡ h }
    ensures high { result.high ≡ h }
{
    let low = h;
    Halves { low, high: h }
}

/// Both halves of a tree that has a node in the block, and none of another tree. It costs one step at most, and none
/// for a block without bits.
fn halves_of<L: Ledger>(
    table: &NodeTable,
    h: Handle,
    level: u32,
    bits: u8,
    steps: &mut Steps<L>,
) -> Option<Halves>
    requires valid { IsValid table.now h }
    requires below { IsOrderedFrom level (tree_of table.now h) }
    requires block { level + bits ≤ 65536 }
    ensures halves { MatchOption result (IsOrderedFrom (level + bits) (tree_of table.now h)) (λ x. HasHalves table.now h level bits x.low x.high) }
    ensures cost { steps.new ≤ steps.old + 1 }
    ensures least { steps.new ≤ steps.old + bits }
{
    let _held = table.live();
    if bits == 0 {
        return None;
    }
    match table.branch(h, steps) {
        Branch::Node {
            level: at,
            low,
            high,
        } if (at as u32) < level + bits as u32 => {
            if at as u32 == level {
                Some(Halves { low, high })
            } else {
                Some(both(h))
            }
        }
        _ => None,
    }
}

/// Strikes the candidates by which a tree comes to another one than by all ones. The list begins with the code `from`.
/// It costs a step for each bit of each code at most.
fn strike_range<L: Ledger>(
    table: &NodeTable,
    h: Handle,
    ones: Handle,
    level: u32,
    bits: u8,
    from: u32,
    candidates: &mut [bool],
    steps: &mut Steps<L>,
)
    requires valid { IsValid table.now h }
    requires ones { IsValid table.now ones }
    requires width { bits ≤ 20 }
    requires block { level + bits ≤ 65536 }
    requires fits { from + length candidates.old ≤ 2 ^ bits }
    requires below { IsOrderedFrom level (tree_of table.now h) }
    ensures struck { candidates.new ≡ struck (departs level bits (tree_of table.now h) (tree_of table.now ones)) from candidates.old }
    ensures cost { steps.new ≤ steps.old + length candidates.old * bits }
{
    let _held = table.live();
    if !candidates.contains(&true) {
        return;
    }
    let Some(halves) = halves_of(table, h, level, bits, steps) else {
        if h.number() != ones.number() {
            candidates.fill(false);
        }
        return;
    };
    let half = half(bits);
    let count = candidates.len().min(half.saturating_sub(from) as usize);
    let (below, above) = candidates.split_at_mut(count);
    strike_range(
        table,
        halves.low,
        ones,
        level + 1,
        bits - 1,
        from.min(half),
        below,
        steps,
    );
    strike_range(
        table,
        halves.high,
        ones,
        level + 1,
        bits - 1,
        from.saturating_sub(half),
        above,
        steps,
    );
}

/// Strikes the candidates that a tree without a node above the block tells apart. The list begins with the code `from`.
/// It costs a step for each bit of all ones and of each code at most.
pub fn strike_entry<L: Ledger>(
    table: &NodeTable,
    h: Handle,
    block: Block,
    from: u32,
    candidates: &mut [bool],
    steps: &mut Steps<L>,
)
    requires valid { IsValid table.now h }
    requires width { block.bits ≤ 20 }
    requires block { block.first + block.bits ≤ 65536 }
    requires fits { from + length candidates.old ≤ 2 ^ block.bits }
    requires below { IsOrderedFrom block.first (tree_of table.now h) }
    ensures struck { candidates.new ≡ struck (λ c. differs block.first block.bits c (tree_of table.now h)) from candidates.old }
    ensures cost { steps.new ≤ steps.old + block.bits + length candidates.old * block.bits }
{
    let ones = walk(table, h, block, all_ones(block.bits), steps);
    strike_range(
        table,
        h,
        ones,
        block.first as u32,
        block.bits,
        from,
        candidates,
        steps,
    );
}
