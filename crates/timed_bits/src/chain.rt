//! Chains of bits in a table.

ghost use Rattle.std.specs.Prelude.{◌≡◌, ℕ, ◌+◌, ◌^◌, ◌<◌, ◌≤◌};
ghost use Rattle.node_tree.specs.Tree.{depth};
ghost use Rattle.node_table.specs.Table.{tree_of, IsValid};
ghost use Rattle.bdd_ops.specs.Apply.{leaf_of};
ghost use Rattle.bdd_ops.specs.Applied.{Makes};
ghost use Rattle.timed_bits.specs.Changes.{chain};
ghost use Rattle.timed_bits.specs.Changing.{IsChain};
ghost use Rattle.timed_bits.specs.Walks.{SameNotes};

use bdd_ops::Store;
use mon_base::Steps;
use node_table::{Branch, Full, Handle, NodeTable};
use std::sync::ledger::Ledger;

/// The number whose top bit alone is set.
fn half(width: u8) -> u32
    requires some { 1 ≤ width }
    requires small { width ≤ 20 }
    ensures { result + result ≡ 2 ^ width }
{
    1u32 << (width - 1)
}

/// The number that a chain spells.
pub fn read_chain<L: Ledger>(table: &NodeTable, width: u8, h: Handle, steps: &mut Steps<L>) -> u32
    requires width { width ≤ 20 }
    requires valid { IsValid table.now h }
    requires chain { IsChain width (tree_of table.now h) }
    ensures small { result < 2 ^ width }
    ensures chain { (first n : ℕ) → n < 2 ^ width → tree_of table.now h ≡ chain first width n → result ≡ n }
    ensures cost { steps.new ≤ steps.old + (depth (tree_of table.now h) + 1) }
{
    if width == 0 {
        return 0;
    }
    let Branch::Node { low, high, .. } = table.branch(h, steps) else {
        return 0;
    };
    if low == table.zero() {
        half(width) + read_chain(table, width - 1, high, steps)
    } else {
        read_chain(table, width - 1, low, steps)
    }
}

/// The leaf of a truth.
fn leaf(table: &NodeTable, truth: bool) -> Handle
    ensures valid { IsValid table.now result }
    ensures tree { tree_of table.now result ≡ leaf_of truth }
{
    if truth { table.one() } else { table.zero() }
}

/// The leaf of a truth in a store.
pub fn leaf_in(store: &Store, truth: bool) -> Handle
    ensures valid { IsValid store.now.table result }
    ensures tree { tree_of store.now.table result ≡ leaf_of truth }
{
    leaf(store.table(), truth)
}

/// The chain that spells a number, made from the last bit up.
pub fn make_chain(store: &mut Store, level: u32, width: u8, number: u32) -> Result<Handle, Full>
    requires width { width ≤ 20 }
    requires block { level + width ≤ 65536 }
    requires number { number < 2 ^ width }
    ensures made { Makes (chain level width number) store.old.table store.new.table result }
    ensures memo { store.new.memo ≡ store.old.memo }
    ensures notes { SameNotes store.old.table store.new.table }
{
    let _held = store.live();
    if width == 0 {
        return Ok(leaf_in(store, true));
    }
    let zero = leaf_in(store, false);
    let top = half(width);
    if number < top {
        let low = make_chain(store, level + 1, width - 1, number)?;
        store.make(level as u16, low, zero)
    } else {
        let high = make_chain(store, level + 1, width - 1, number - top)?;
        store.make(level as u16, zero, high)
    }
}
