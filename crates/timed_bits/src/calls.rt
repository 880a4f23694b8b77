//! The operations on ages. An operation that finds the table full is dropped, the table is collected, and the operation is
//! tried once more.

ghost use Rattle.std.specs.Prelude.{◌≡◌, ◌+◌, ◌*◌, ◌^◌, ◌<◌, ◌≤◌, [], ◌∷◌};
ghost use Rattle.node_tree.specs.Levels.{LevelsBelow};
ghost use Rattle.node_table.specs.Table.{tree_of, IsValid};
ghost use Rattle.node_table.specs.Collects.{AllValid};
ghost use Rattle.bdd_ops.specs.Shelf.{handle_pairs};
ghost use Rattle.bdd_ops.specs.Operates.{Operates};
ghost use Rattle.timed_bits.specs.Ages.{HasAgesTo};
ghost use Rattle.timed_bits.specs.Changes.{age_drop, age_cap, any_time, at_time, stamp};
ghost use Rattle.timed_bits.specs.Entries.{IsAgeTree};
ghost use Rattle.timed_bits.specs.Changing.{changed, Fits, Accepts};

use crate::change::Change;
use crate::walk::change_whole;
use bdd_ops::{NodesFull, Store};
use mon_base::Steps;
use node_table::{Block, Full, Handle};
use std::sync::ledger::Ledger;

/// A change of the ages of a tree.
fn change_ages<L: Ledger>(
    store: &mut Store,
    block: Block,
    change: Change,
    h: Handle,
    roots: &[Handle],
    steps: &mut Steps<L>,
) -> Result<Handle, NodesFull>
    requires width { block.bits ≤ 20 }
    requires block { block.first + block.bits ≤ 65536 }
    requires valid { IsValid store.old.table h }
    requires fits { Fits block.bits change }
    requires accepts { Accepts block.first block.bits change (tree_of store.old.table h) }
    requires roots { AllValid store.old.table roots.now }
    ensures made { Operates (changed block.first block.bits change (tree_of store.old.table h)) (h ∷ []) roots.now store.old.table store.new.table result }
    ensures bounded { steps.new ≤ steps.old + 4 * handle_pairs store.old.table }
    ensures entries { store.new.memo.entries ≡ store.old.memo.entries }
{
    let operands = [h];
    store.make_ready(&operands, roots);
    if let Ok(made) = change_whole(store, block, change, h, steps) {
        return Ok(made);
    }
    store.tidy(roots, &operands);
    match change_whole(store, block, change, h, steps) {
        Ok(made) => Ok(made),
        Err(Full) => Err(NodesFull),
    }
}

/// Each age becomes later by delta, or none where that is above the most. Where no time passed the tree is as before.
pub fn age_drop<L: Ledger>(
    store: &mut Store,
    block: Block,
    h: Handle,
    delta: u64,
    most: u32,
    roots: &[Handle],
    steps: &mut Steps<L>,
) -> Result<Handle, NodesFull>
    requires width { block.bits ≤ 20 }
    requires block { block.first + block.bits ≤ 65536 }
    requires bound { most < 2 ^ block.bits }
    requires valid { IsValid store.old.table h }
    requires ages { HasAgesTo block.first block.bits most (tree_of store.old.table h) }
    requires roots { AllValid store.old.table roots.now }
    ensures made { Operates (age_drop block.first block.bits delta most (tree_of store.old.table h)) (h ∷ []) roots.now store.old.table store.new.table result }
    ensures bounded { steps.new ≤ steps.old + 4 * handle_pairs store.old.table }
    ensures entries { store.new.memo.entries ≡ store.old.memo.entries }
{
    let _held = store.live();
    if delta == 0 {
        return Ok(h);
    }
    change_ages(store, block, Change::Drop { delta, most }, h, roots, steps)
}

/// Each age becomes later by delta, at most the cap. Where no time passed the tree is as before.
pub fn age_cap<L: Ledger>(
    store: &mut Store,
    block: Block,
    h: Handle,
    delta: u64,
    cap: u32,
    roots: &[Handle],
    steps: &mut Steps<L>,
) -> Result<Handle, NodesFull>
    requires width { block.bits ≤ 20 }
    requires block { block.first + block.bits ≤ 65536 }
    requires bound { cap < 2 ^ block.bits }
    requires valid { IsValid store.old.table h }
    requires ages { HasAgesTo block.first block.bits cap (tree_of store.old.table h) }
    requires roots { AllValid store.old.table roots.now }
    ensures made { Operates (age_cap block.first block.bits delta cap (tree_of store.old.table h)) (h ∷ []) roots.now store.old.table store.new.table result }
    ensures bounded { steps.new ≤ steps.old + 4 * handle_pairs store.old.table }
    ensures entries { store.new.memo.entries ≡ store.old.memo.entries }
{
    let _held = store.live();
    if delta == 0 {
        return Ok(h);
    }
    change_ages(store, block, Change::Cap { delta, cap }, h, roots, steps)
}

/// Whether there is an age.
pub fn any_time<L: Ledger>(
    store: &mut Store,
    block: Block,
    h: Handle,
    roots: &[Handle],
    steps: &mut Steps<L>,
) -> Result<Handle, NodesFull>
    requires width { block.bits ≤ 20 }
    requires block { block.first + block.bits ≤ 65536 }
    requires valid { IsValid store.old.table h }
    requires ages { IsAgeTree block.first block.bits (tree_of store.old.table h) }
    requires roots { AllValid store.old.table roots.now }
    ensures made { Operates (any_time block.first block.bits (tree_of store.old.table h)) (h ∷ []) roots.now store.old.table store.new.table result }
    ensures bounded { steps.new ≤ steps.old + 4 * handle_pairs store.old.table }
    ensures entries { store.new.memo.entries ≡ store.old.memo.entries }
{
    change_ages(store, block, Change::Any, h, roots, steps)
}

/// Whether the age is this one.
pub fn at_time<L: Ledger>(
    store: &mut Store,
    block: Block,
    h: Handle,
    age: u32,
    roots: &[Handle],
    steps: &mut Steps<L>,
) -> Result<Handle, NodesFull>
    requires width { block.bits ≤ 20 }
    requires block { block.first + block.bits ≤ 65536 }
    requires valid { IsValid store.old.table h }
    requires ages { IsAgeTree block.first block.bits (tree_of store.old.table h) }
    requires roots { AllValid store.old.table roots.now }
    ensures made { Operates (at_time block.first block.bits age (tree_of store.old.table h)) (h ∷ []) roots.now store.old.table store.new.table result }
    ensures bounded { steps.new ≤ steps.old + 4 * handle_pairs store.old.table }
    ensures entries { store.new.memo.entries ≡ store.old.memo.entries }
{
    change_ages(store, block, Change::At { age }, h, roots, steps)
}

/// Age 0 where a tree before the block is true, else none.
pub fn stamp<L: Ledger>(
    store: &mut Store,
    block: Block,
    h: Handle,
    roots: &[Handle],
    steps: &mut Steps<L>,
) -> Result<Handle, NodesFull>
    requires width { block.bits ≤ 20 }
    requires block { block.first + block.bits ≤ 65536 }
    requires valid { IsValid store.old.table h }
    requires before { LevelsBelow block.first (tree_of store.old.table h) }
    requires roots { AllValid store.old.table roots.now }
    ensures made { Operates (stamp block.first block.bits (tree_of store.old.table h)) (h ∷ []) roots.now store.old.table store.new.table result }
    ensures bounded { steps.new ≤ steps.old + 4 * handle_pairs store.old.table }
    ensures entries { store.new.memo.entries ≡ store.old.memo.entries }
{
    change_ages(store, block, Change::Stamp, h, roots, steps)
}
