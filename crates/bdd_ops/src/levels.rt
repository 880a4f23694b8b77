//! Whole operations that take a level out of a tree.

ghost use Rattle.std.specs.Prelude.{◌≡◌, ◌+◌, ◌*◌, ◌<◌, ◌≤◌, [], ◌∷◌, List, Bool, length, slice_index_or, IfOk};
ghost use Rattle.node_tree.specs.Tree.{value};
ghost use Rattle.node_tree.specs.Restrict.{restrict, with_bit};
ghost use Rattle.node_table.specs.Table.{tree_of, IsValid};
ghost use Rattle.node_table.specs.Collects.{AllValid};
ghost use Rattle.bdd_ops.specs.Applied.{HoldsResults};
ghost use Rattle.bdd_ops.specs.Level.{at_level, merged, child, Changes};
ghost use Rattle.bdd_ops.specs.Shelf.{handle_pairs, try_steps, IsLarge, IsBounded};
ghost use Rattle.bdd_ops.specs.Operates.{Operates};

use crate::level::level_parts;
use crate::{Merge, NodesFull, Store};
use mon_base::Steps;
use node_table::{Full, Handle};
use std::sync::ledger::Ledger;

/// One try, from an empty memo.
fn level_inside<L: Ledger>(
    store: &mut Store,
    merge: Merge,
    level: u16,
    h: Handle,
    steps: &mut Steps<L>,
) -> Result<Handle, Full>
    requires valid { IsValid store.old.table h }
    requires empty { store.old.memo.pairs ≡ [] }
    ensures changes { Changes merge level h store.old.table store.new.table store.old.memo store.new.memo steps.old steps.new result }
    ensures bounded { IsLarge store.old → steps.new ≤ steps.old + 3 * handle_pairs store.old.table }
    ensures closely { IsLarge store.old → steps.new ≤ steps.old + try_steps store.old.table }
{
    let _nodes = store.table.live();
    let made = level_parts(&mut store.table, &mut store.cache, merge, level, h, steps);
    let _pairs = store.cache.held();
    store.sound = true;
    made
}

/// Takes a level out of the first operand's tree. The other operands are kept like roots.
pub fn change_level<L: Ledger>(
    store: &mut Store,
    merge: Merge,
    level: u16,
    operands: &[Handle],
    roots: &[Handle],
    steps: &mut Steps<L>,
) -> Result<Handle, NodesFull>
    requires some { 0 < length operands.now }
    requires operands { AllValid store.old.table operands.now }
    requires roots { AllValid store.old.table roots.now }
    ensures made { Operates (at_level (merged merge) level (tree_of store.old.table (slice_index_or operands.now 0 0))) operands.now roots.now store.old.table store.new.table result }
    ensures bounded { IsBounded store.old steps.old steps.new }
    ensures closely { IsLarge store.old → steps.new ≤ steps.old + 2 * try_steps store.old.table }
    ensures entries { store.new.memo.entries ≡ store.old.memo.entries }
    ensures sound { HoldsResults store.new.table store.new.memo.pairs }
{
    let h = operands[0];
    store.make_ready(operands, roots);
    store.forget();
    if let Ok(made) = level_inside(store, merge, level, h, steps) {
        return Ok(made);
    }
    store.tidy(roots, operands);
    match level_inside(store, merge, level, h, steps) {
        Ok(made) => Ok(made),
        Err(Full) => Err(NodesFull),
    }
}

/// The child that a bit leads to.
fn child(bit: bool) -> Merge
    ensures { result ≡ child bit }
{
    if bit { Merge::High } else { Merge::Low }
}

/// The tree with one bit set.
pub fn restrict<L: Ledger>(
    store: &mut Store,
    h: Handle,
    level: u16,
    bit: bool,
    roots: &[Handle],
    steps: &mut Steps<L>,
) -> Result<Handle, NodesFull>
    requires valid { IsValid store.old.table h }
    requires roots { AllValid store.old.table roots.now }
    ensures made { Operates (restrict level bit (tree_of store.old.table h)) (h ∷ []) roots.now store.old.table store.new.table result }
    ensures values { IfOk result (λ n. (bits : List Bool) → value (tree_of store.new.table n) bits ≡ value (tree_of store.old.table h) (with_bit bits level bit)) }
    ensures bounded { IsBounded store.old steps.old steps.new }
    ensures entries { store.new.memo.entries ≡ store.old.memo.entries }
    ensures sound { HoldsResults store.new.table store.new.memo.pairs }
{
    let _held = store.live();
    let operands = [h];
    change_level(store, child(bit), level, &operands, roots, steps)
}
