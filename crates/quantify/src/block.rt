//! Quantification over the bits of a block, the last bit first.

ghost use Rattle.std.specs.Prelude.{◌≡◌, ◌+◌, ◌*◌, ◌<◌, ◌≤◌, ◌⊎◌, ℕ, IsTrue};
ghost use Rattle.node_tree.specs.Tree.{Zero, One};
ghost use Rattle.node_table.specs.Table.{tree_of, IsValid};
ghost use Rattle.node_table.specs.Collects.{AllValid};
ghost use Rattle.bdd_ops.specs.Applied.{HoldsResults};
ghost use Rattle.bdd_ops.specs.Shelf.{handle_pairs, try_steps, IsLarge};
ghost use Rattle.node_tree.specs.Levels.{LevelsBelow};
ghost use Rattle.quantify.specs.Quantified.{after_rows};
ghost use Rattle.quantify.specs.Rows.{Quantifies};

use crate::bit::merge_of;
use crate::deepest::cut_deepest;
use bdd_ops::{NodesFull, Store, change_level};
use mon_base::Steps;
use node_table::{Block, Handle, NodeTable};
use std::sync::ledger::Ledger;

/// The row, counted from 1, at which the branches of its result, of the row before, of the operand and of the roots
/// are more than the table has nodes.
#[derive(Clone, Copy, Debug, PartialEq, Eq)]
pub struct BlockFull {
    pub row: u32,
}

/// The level that a row takes.
fn row_level(block: Block, done: u8) -> u16
    requires block { block.first + block.bits ≤ 65536 }
    requires done { done < block.bits }
    ensures { result + done + 1 ≡ block.first + block.bits }
{
    (block.first as u32 + (block.bits as u32 - done as u32 - 1)) as u16
}

/// Whether a handle is one of the leaves.
fn is_leaf(table: &NodeTable, h: Handle) -> bool
    ensures { IsTrue result → (tree_of table.now h ≡ Zero) ⊎ (tree_of table.now h ≡ One) }
{
    h == table.zero() || h == table.one()
}

/// The rows after so many.
fn rows_from<L: Ledger>(
    store: &mut Store,
    all: bool,
    h: Handle,
    block: Block,
    done: u8,
    current: Handle,
    roots: &[Handle],
    steps: &mut Steps<L>,
) -> Result<Handle, BlockFull>
    requires block { block.first + block.bits ≤ 65536 }
    requires done { done ≤ block.bits }
    requires operand { IsValid store.old.table h }
    requires current { IsValid store.old.table current }
    requires tree { tree_of store.old.table current ≡ after_rows all block.first block.bits done (tree_of store.old.table h) }
    requires roots { AllValid store.old.table roots.now }
    ensures made { Quantifies all block.first block.bits done h roots.now store.old.table store.new.table result }
    ensures bounded { IsLarge store.old → steps.new + done * (6 * handle_pairs store.old.table) ≤ steps.old + block.bits * (6 * handle_pairs store.old.table) }
    ensures closely { IsLarge store.old → done < block.bits → steps.new + (done + 1) * (6 * handle_pairs store.old.table) ≤ steps.old + block.bits * (6 * handle_pairs store.old.table) + 2 * try_steps store.old.table }
    ensures entries { store.new.memo.entries ≡ store.old.memo.entries }
{
    let _held = store.live();
    if done == block.bits {
        return Ok(current);
    }
    // a leaf has no bit left to take
    if is_leaf(store.table(), current) {
        return Ok(current);
    }
    let level = row_level(block, done);
    let operands = [current, h];
    match change_level(store, merge_of(all), level, &operands, roots, steps) {
        Ok(next) => rows_from(store, all, h, block, done + 1, next, roots, steps),
        Err(NodesFull) => Err(BlockFull {
            row: done as u32 + 1,
        }),
    }
}

/// The whole block at once, where nothing stands below it and no row can be refused, and else row by row.
fn rows_at_once<L: Ledger>(
    store: &mut Store,
    all: bool,
    h: Handle,
    block: Block,
    known: bool,
    roots: &[Handle],
    steps: &mut Steps<L>,
) -> Result<Handle, BlockFull>
    requires block { block.first + block.bits ≤ 65536 }
    requires some { 0 < block.bits }
    requires operand { IsValid store.old.table h }
    requires known { IsTrue known → LevelsBelow (block.first + block.bits) (tree_of store.old.table h) }
    requires roots { AllValid store.old.table roots.now }
    ensures made { Quantifies all block.first block.bits 0 h roots.now store.old.table store.new.table result }
    ensures bounded { IsLarge store.old → steps.new ≤ steps.old + block.bits * (6 * handle_pairs store.old.table) }
    ensures entries { store.new.memo.entries ≡ store.old.memo.entries }
{
    let operands = [h];
    store.make_ready(&operands, roots);
    let _held = store.live();
    if let Some(made) = cut_deepest(store, all, block, h, known, steps) {
        return Ok(made);
    }
    rows_from(store, all, h, block, 0, h, roots, steps)
}

/// The rows of a block, of which it may be known that it is the deepest. A leaf has no bit to take, nor has an empty
/// block.
fn rows<L: Ledger>(
    store: &mut Store,
    all: bool,
    h: Handle,
    block: Block,
    known: bool,
    roots: &[Handle],
    steps: &mut Steps<L>,
) -> Result<Handle, BlockFull>
    requires block { block.first + block.bits ≤ 65536 }
    requires valid { IsValid store.old.table h }
    requires known { IsTrue known → LevelsBelow (block.first + block.bits) (tree_of store.old.table h) }
    requires roots { AllValid store.old.table roots.now }
    ensures made { Quantifies all block.first block.bits 0 h roots.now store.old.table store.new.table result }
    ensures bounded { IsLarge store.old → steps.new ≤ steps.old + block.bits * (6 * handle_pairs store.old.table) }
    ensures entries { store.new.memo.entries ≡ store.old.memo.entries }
{
    if block.bits == 0 || is_leaf(store.table(), h) {
        return rows_from(store, all, h, block, 0, h, roots, steps);
    }
    rows_at_once(store, all, h, block, known, roots, steps)
}

/// `quantify_block` of a tree that has no level behind the block. It makes no walk to find that out.
pub fn quantify_deepest<L: Ledger>(
    store: &mut Store,
    all: bool,
    h: Handle,
    block: Block,
    roots: &[Handle],
    steps: &mut Steps<L>,
) -> Result<Handle, BlockFull>
    requires block { block.first + block.bits ≤ 65536 }
    requires valid { IsValid store.old.table h }
    requires deepest { LevelsBelow (block.first + block.bits) (tree_of store.old.table h) }
    requires roots { AllValid store.old.table roots.now }
    ensures made { Quantifies all block.first block.bits 0 h roots.now store.old.table store.new.table result }
    ensures bounded { IsLarge store.old → steps.new ≤ steps.old + block.bits * (6 * handle_pairs store.old.table) }
    ensures entries { store.new.memo.entries ≡ store.old.memo.entries }
{
    rows(store, all, h, block, true, roots, steps)
}

/// The disjunction over all values of a block's bits, or with `all` the conjunction. Row r is the r-th bit taken.
pub fn quantify_block<L: Ledger>(
    store: &mut Store,
    all: bool,
    h: Handle,
    block: Block,
    roots: &[Handle],
    steps: &mut Steps<L>,
) -> Result<Handle, BlockFull>
    requires block { block.first + block.bits ≤ 65536 }
    requires valid { IsValid store.old.table h }
    requires roots { AllValid store.old.table roots.now }
    ensures made { Quantifies all block.first block.bits 0 h roots.now store.old.table store.new.table result }
    ensures bounded { IsLarge store.old → steps.new ≤ steps.old + block.bits * (6 * handle_pairs store.old.table) }
    ensures entries { store.new.memo.entries ≡ store.old.memo.entries }
{
    rows(store, all, h, block, false, roots, steps)
}
