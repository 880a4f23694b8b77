//! The operation rows of a subformula. Each row is one operation whose roots are the trees that the event still needs,
//! so it is refused exactly where these, its operands and its result have more branches than the table has nodes.

ghost use Rattle.std.specs.Prelude.{◌≡◌, ◌+◌, ◌*◌, ◌≤◌, ◌<◌, ◌∷◌, [], not};
ghost use Rattle.std.specs.List.{All, Contains};
ghost use Rattle.node_tree.specs.Levels.{LevelsBelow};
ghost use Rattle.node_tree.specs.Tree.{Zero};
ghost use Rattle.node_table.specs.Table.{tree_of, IsValid};
ghost use Rattle.node_table.specs.Collects.{AllValid};
ghost use Rattle.bdd_ops.specs.declared.op.Op.TheVariants.{And, Or, AndNot};
ghost use Rattle.bdd_ops.specs.Apply.{map_leaves};
ghost use Rattle.bdd_ops.specs.Applied.{op_tree};
ghost use Rattle.bdd_ops.specs.Cube.{cube_tree, AscendFrom};
ghost use Rattle.bdd_ops.specs.Codes.{code_list_literals, HasLevels};
ghost use Rattle.bdd_ops.specs.Operates.{Operates};
ghost use Rattle.bdd_ops.specs.Shelf.{handle_pairs, IsLarge};
ghost use Rattle.operation_rows.specs.Kinds.{applied, block_update, one_row, two_rows};
ghost use Rattle.operation_rows.specs.Rows.{MakesUpdate};

use crate::updated::Updated;
use bdd_ops::{BlockCode, NodesFull, Op, Store, apply, at_once, code_cube};
use mon_base::Steps;
use node_table::{Block, Handle};
use quantify::{BlockFull, quantify_deepest};
use std::sync::ledger::Ledger;

/// The row, counted from 1 within its subformula, that doesn't fit in the table.
#[derive(Clone, Copy, Debug, PartialEq, Eq)]
pub struct RowFull {
    pub row: u32,
}

/// The diagram of a subformula that remembers its own diagram, if any.
fn plain(made: Handle) -> Updated
    ensures { result ≡ record { now = made; next = made } }
{
    Updated {
        now: made,
        next: made,
    }
}

/// The row of an atom that doesn't match the event: the leaf zero. It always fits, since the roots do.
pub fn leaf_row(store: &Store, roots: &[Handle]) -> Result<Updated, RowFull>
    requires roots { AllValid store.now.table roots.now }
    ensures made { MakesUpdate (one_row Zero) roots.now store.now.table store.now.table result }
{
    let _held = store.live();
    let _ = roots;
    Ok(plain(store.table().zero()))
}

/// The row of an atom that matches the event: the cube of the codes of its variables' blocks. The blocks ascend.
pub fn code_cube_row<L: Ledger>(
    store: &mut Store,
    codes: &[BlockCode],
    roots: &[Handle],
    steps: &mut Steps<L>,
) -> Result<Updated, RowFull>
    requires ascending { AscendFrom 0 (code_list_literals codes.now) }
    requires levels { All HasLevels codes.now }
    requires roots { AllValid store.old.table roots.now }
    ensures made { MakesUpdate (one_row (cube_tree (code_list_literals codes.now))) roots.now store.old.table store.new.table result }
    ensures cost { steps.new ≡ steps.old }
    ensures entries { store.new.memo.entries ≡ store.old.memo.entries }
{
    match code_cube(store, codes, roots, steps) {
        Ok(made) => Ok(plain(made)),
        Err(NodesFull) => Err(RowFull { row: 1 }),
    }
}

/// The operation on two trees. Where an operand is a leaf, or both are one, it is mostly answered at once, and then
/// nothing changes.
pub(crate) fn operate<L: Ledger>(
    store: &mut Store,
    op: Op,
    u: Handle,
    v: Handle,
    roots: &[Handle],
    steps: &mut Steps<L>,
) -> Result<Handle, NodesFull>
    requires left { IsValid store.old.table u }
    requires right { IsValid store.old.table v }
    requires roots { AllValid store.old.table roots.now }
    ensures made { Operates (op_tree op store.old.table u v) (u ∷ (v ∷ [])) roots.now store.old.table store.new.table result }
    ensures cost { IsLarge store.old → steps.new ≤ steps.old + 6 * handle_pairs store.old.table }
    ensures entries { store.new.memo.entries ≡ store.old.memo.entries }
{
    let _held = store.live();
    match at_once(store.table(), op, u, v) {
        Some(known) => Ok(known),
        None => apply(store, op, u, v, roots, steps),
    }
}

/// The row of a negation.
pub fn not_row<L: Ledger>(
    store: &mut Store,
    h: Handle,
    roots: &[Handle],
    steps: &mut Steps<L>,
) -> Result<Updated, RowFull>
    requires operand { Contains roots.now h }
    requires roots { AllValid store.old.table roots.now }
    ensures made { MakesUpdate (one_row (map_leaves not (tree_of store.old.table h))) roots.now store.old.table store.new.table result }
    ensures cost { IsLarge store.old → steps.new ≤ steps.old + 6 * handle_pairs store.old.table }
    ensures entries { store.new.memo.entries ≡ store.old.memo.entries }
{
    let one = store.table().one();
    match operate(store, Op::AndNot, one, h, roots, steps) {
        Ok(made) => Ok(plain(made)),
        Err(NodesFull) => Err(RowFull { row: 1 }),
    }
}

/// The row of an operation on two trees.
pub fn operation_row<L: Ledger>(
    store: &mut Store,
    op: Op,
    u: Handle,
    v: Handle,
    roots: &[Handle],
    steps: &mut Steps<L>,
) -> Result<Updated, RowFull>
    requires left { Contains roots.now u }
    requires right { Contains roots.now v }
    requires roots { AllValid store.old.table roots.now }
    ensures made { MakesUpdate (one_row (op_tree op store.old.table u v)) roots.now store.old.table store.new.table result }
    ensures cost { IsLarge store.old → steps.new ≤ steps.old + 6 * handle_pairs store.old.table }
    ensures entries { store.new.memo.entries ≡ store.old.memo.entries }
{
    match operate(store, op, u, v, roots, steps) {
        Ok(made) => Ok(plain(made)),
        Err(NodesFull) => Err(RowFull { row: 1 }),
    }
}

/// The rows of a since: what it remembered and the left child, and then the right child or that.
pub fn since_rows<L: Ledger>(
    store: &mut Store,
    f: Handle,
    g: Handle,
    m: Handle,
    roots: &[Handle],
    steps: &mut Steps<L>,
) -> Result<Updated, RowFull>
    requires left { Contains roots.now f }
    requires right { Contains roots.now g }
    requires memory { Contains roots.now m }
    requires roots { AllValid store.old.table roots.now }
    ensures made { let a = applied And (tree_of store.old.table f) (tree_of store.old.table m) in
        MakesUpdate (two_rows a (applied Or (tree_of store.old.table g) a)) roots.now store.old.table store.new.table result }
    ensures cost { IsLarge store.old → steps.new ≤ steps.old + 2 * (6 * handle_pairs store.old.table) }
    ensures entries { store.new.memo.entries ≡ store.old.memo.entries }
{
    let first = operation_row(store, Op::And, f, m, roots, steps)?;
    match operate(store, Op::Or, g, first.now, roots, steps) {
        Ok(made) => Ok(plain(made)),
        Err(NodesFull) => Err(RowFull { row: 2 }),
    }
}

/// The rows of an interval: what it remembered or the left child, and then that without the right child.
pub fn interval_rows<L: Ledger>(
    store: &mut Store,
    f: Handle,
    g: Handle,
    m: Handle,
    roots: &[Handle],
    steps: &mut Steps<L>,
) -> Result<Updated, RowFull>
    requires left { Contains roots.now f }
    requires right { Contains roots.now g }
    requires memory { Contains roots.now m }
    requires roots { AllValid store.old.table roots.now }
    ensures made { let a = applied Or (tree_of store.old.table f) (tree_of store.old.table m) in
        MakesUpdate (two_rows a (applied AndNot a (tree_of store.old.table g))) roots.now store.old.table store.new.table result }
    ensures cost { IsLarge store.old → steps.new ≤ steps.old + 2 * (6 * handle_pairs store.old.table) }
    ensures entries { store.new.memo.entries ≡ store.old.memo.entries }
{
    let first = operation_row(store, Op::Or, f, m, roots, steps)?;
    match operate(store, Op::AndNot, first.now, g, roots, steps) {
        Ok(made) => Ok(plain(made)),
        Err(NodesFull) => Err(RowFull { row: 2 }),
    }
}

/// The rows of a quantifier over a block that no level of its operand stands behind: one for each bit, the last bit first.
pub fn quantifier_rows<L: Ledger>(
    store: &mut Store,
    all: bool,
    h: Handle,
    block: Block,
    roots: &[Handle],
    steps: &mut Steps<L>,
) -> Result<Updated, RowFull>
    requires block { block.first + block.bits ≤ 65536 }
    requires operand { Contains roots.now h }
    requires deepest { LevelsBelow (block.first + block.bits) (tree_of store.old.table h) }
    requires roots { AllValid store.old.table roots.now }
    ensures made { MakesUpdate (block_update all block.first block.bits (tree_of store.old.table h)) roots.now store.old.table store.new.table result }
    ensures cost { IsLarge store.old → steps.new ≤ steps.old + block.bits * (6 * handle_pairs store.old.table) }
    ensures entries { store.new.memo.entries ≡ store.old.memo.entries }
{
    match quantify_deepest(store, all, h, block, roots, steps) {
        Ok(made) => Ok(plain(made)),
        Err(BlockFull { row }) => Err(RowFull { row }),
    }
}
