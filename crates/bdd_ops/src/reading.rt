//! Reading a tree: its value at bits, and the way down a block.

ghost use Rattle.std.specs.Prelude.{◌≡◌, ◌+◌, ◌-◌, ◌^◌, ◌<◌, ◌≤◌, List, Bool};
ghost use Rattle.node_tree.specs.Tree.{IsOrderedFrom, bit, value, depth};
ghost use Rattle.node_tree.specs.Restrict.{restrict};
ghost use Rattle.node_table.specs.Table.{tree_of, IsValid};
ghost use Rattle.bdd_ops.specs.Reading.{set_block, with_code};

use mon_base::Steps;
use node_table::{Block, Branch, Handle, NodeTable};
use std::sync::ledger::Ledger;

/// The bit of a level. Those past the end are false.
fn bit(bits: &[bool], level: u16) -> bool
    ensures { result ≡ bit bits.now level }
{
    (level as usize) < bits.len() && bits[level as usize]
}

/// The value of a tree at bits, one for each level. It costs a step for each node on the way, and one.
pub fn eval<L: Ledger>(table: &NodeTable, h: Handle, bits: &[bool], steps: &mut Steps<L>) -> bool
    requires { IsValid table.now h }
    ensures value { result ≡ value (tree_of table.now h) bits.now }
    ensures cost { steps.new ≤ steps.old + depth (tree_of table.now h) + 1 }
{
    match table.branch(h, steps) {
        Branch::Zero => false,
        Branch::One => true,
        Branch::Node { level, low, high } => {
            eval(
                table,
                if bit(bits, level) { high } else { low },
                bits,
                steps,
            )
        }
    }
}

/// The tree with a bit set, where no level stands before that of the bit. It costs one step.
fn step_down<L: Ledger>(
    table: &NodeTable,
    h: Handle,
    level: u32,
    bit: bool,
    steps: &mut Steps<L>,
) -> Handle
    requires valid { IsValid table.now h }
    requires below { IsOrderedFrom level (tree_of table.now h) }
    ensures valid { IsValid table.now result }
    ensures tree { tree_of table.now result ≡ restrict level bit (tree_of table.now h) }
    ensures cost { steps.new ≡ steps.old + 1 }
{
    match table.branch(h, steps) {
        Branch::Node {
            level: at,
            low,
            high,
        } if at as u32 == level => if bit { high } else { low },
        _ => h,
    }
}

/// The half of the numbers of so many bits.
fn half(bits: u8) -> u32
    requires some { 1 ≤ bits }
    requires small { bits ≤ 20 }
    ensures power { result ≡ 2 ^ (bits - 1) }
    ensures half { result + result ≡ 2 ^ bits }
{
    1u32 << (bits - 1)
}

/// The way down some levels by the bits of a number.
fn walk_from<L: Ledger>(
    table: &NodeTable,
    h: Handle,
    level: u32,
    bits: u8,
    code: u32,
    steps: &mut Steps<L>,
) -> Handle
    requires valid { IsValid table.now h }
    requires width { bits ≤ 20 }
    requires block { level + bits ≤ 65536 }
    requires code { code < 2 ^ bits }
    requires below { IsOrderedFrom level (tree_of table.now h) }
    ensures valid { IsValid table.now result }
    ensures tree { tree_of table.now result ≡ set_block level bits code (tree_of table.now h) }
    ensures cost { steps.new ≤ steps.old + bits }
{
    let _held = table.live();
    if bits == 0 {
        return h;
    }
    let half = half(bits);
    if half <= code {
        let next = step_down(table, h, level, true, steps);
        walk_from(table, next, level + 1, bits - 1, code - half, steps)
    } else {
        let next = step_down(table, h, level, false, steps);
        walk_from(table, next, level + 1, bits - 1, code, steps)
    }
}

/// The tree with the bits of a block set to a number's, where no level stands before the block.
pub fn walk<L: Ledger>(
    table: &NodeTable,
    h: Handle,
    block: Block,
    code: u32,
    steps: &mut Steps<L>,
) -> Handle
    requires valid { IsValid table.now h }
    requires width { block.bits ≤ 20 }
    requires block { block.first + block.bits ≤ 65536 }
    requires code { code < 2 ^ block.bits }
    requires below { IsOrderedFrom block.first (tree_of table.now h) }
    ensures valid { IsValid table.now result }
    ensures tree { tree_of table.now result ≡ set_block block.first block.bits code (tree_of table.now h) }
    ensures values { (bits : List Bool) → value (tree_of table.now result) bits ≡ value (tree_of table.now h) (with_code bits block.first block.bits code) }
    ensures cost { steps.new ≤ steps.old + block.bits }
{
    walk_from(table, h, block.first as u32, block.bits, code, steps)
}
