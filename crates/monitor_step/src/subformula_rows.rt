//! The rows of one subformula.

ghost use Rattle.std.specs.Prelude.{◌≡◌, ◌+◌, ◌*◌, ◌≤◌, length, take, IsTrue};
ghost use Rattle.std.specs.List.{All, Contains};
ghost use Rattle.node_table.specs.Table.{tree_of};
ghost use Rattle.node_table.specs.Collects.{AllValid};
ghost use Rattle.bdd_ops.specs.Codes.{HasLevels};
ghost use Rattle.bdd_ops.specs.Shelf.{handle_pairs, IsLarge};
ghost use Rattle.operation_rows.specs.Rows.{MakesUpdate};
ghost use Rattle.subformulas.specs.Matched.{IsWithin};
ghost use Rattle.subformulas.specs.Memory.{is_temporal};
ghost use Rattle.subformulas.specs.OperationRows.{rows_of};
ghost use Rattle.subformulas.specs.Table.{children as children_of, UsesBelow};
ghost use Rattle.monitor_model.specs.Rows.{update};
ghost use Rattle.monitor_step.specs.Frame.{frame_of, setting_with, slot_update, HasAscending, HasTimeBlock, IsCodedKind};
ghost use Rattle.monitor_step.specs.RowsMade.{IsReadable};

use crate::frame::{Children, Frame};
use crate::temporal_rows::temporal_rows;
use bdd_ops::{BlockCode, Op, Store};
use mon_base::Steps;
use node_table::{Block, Handle};
use operation_rows::{
    RowFull, Updated, code_cube_row, leaf_row, not_row, operation_row, quantifier_rows,
};
use std::sync::ledger::Ledger;
use subformulas::{Kind, Plan, Stretch};

/// The block of a variable.
pub fn block_of(variable: u32, bits: u8) -> Block
    requires { variable * bits + bits ≤ 65536 }
    ensures first { result.first ≡ variable * bits }
    ensures bits { result.bits ≡ bits }
{
    Block {
        first: (variable * bits as u32) as u16,
        bits,
    }
}

/// A constant: a leaf, which no row makes.
fn leaf(leaf: Handle) -> Updated
    ensures { result ≡ record { now = leaf; next = leaf } }
{
    Updated {
        now: leaf,
        next: leaf,
    }
}

/// The row of an atom: the cube of its codes, if the event matches it.
fn atom_row<L: Ledger>(
    store: &mut Store,
    coded: &[BlockCode],
    slot: Option<Stretch>,
    roots: &[Handle],
    steps: &mut Steps<L>,
) -> Result<Updated, RowFull>
    requires within { IsWithin (length coded.now) slot }
    requires ascending { HasAscending coded.now slot }
    requires blocks { All HasLevels coded.now }
    requires roots { AllValid store.old.table roots.now }
    ensures made { MakesUpdate (slot_update coded.now slot) roots.now store.old.table store.new.table result }
    ensures cost { steps.new ≡ steps.old }
    ensures entries { store.new.memo.entries ≡ store.old.memo.entries }
{
    match slot {
        None => leaf_row(store, roots),
        Some(at) => code_cube_row(
            store,
            &coded[at.from as usize..at.to as usize],
            roots,
            steps,
        ),
    }
}

/// The rows of a subformula of this kind. The first so many handles are the roots; those of its children, and of what it
/// remembers, are among them, as far as the kind has them. Letters of the rows are put behind the roots.
pub fn subformula_rows<L: Ledger>(
    store: &mut Store,
    plan: &Plan,
    frame: &Frame,
    kind: &Kind,
    slot: Option<Stretch>,
    children: Children,
    handles: &mut [Handle],
    done: usize,
    steps: &mut Steps<L>,
) -> Result<Updated, RowFull>
    requires uses { UsesBelow (length plan.now.variables) kind.now }
    requires levels { length plan.now.variables * frame.now.bits ≤ 65536 }
    requires coded { IsCodedKind (frame_of (setting_with plan.now frame.now.bits store.old.table.room) frame.now) frame.now.coded.now kind.now slot }
    requires within { IsWithin (length frame.now.coded.now) slot }
    requires blocks { All HasLevels frame.now.coded.now }
    requires time { HasTimeBlock plan.now frame.now }
    requires readable { IsReadable (setting_with plan.now frame.now.bits store.old.table.room) kind.now (tree_of store.old.table children.left) (tree_of store.old.table children.right) (tree_of store.old.table children.memory) }
    requires room { done + 3 ≤ length handles.old }
    requires left { 1 ≤ children_of kind.now → Contains (take done handles.old) children.left }
    requires right { 2 ≤ children_of kind.now → Contains (take done handles.old) children.right }
    requires memory { IsTrue (is_temporal kind.now) → Contains (take done handles.old) children.memory }
    requires roots { AllValid store.old.table (take done handles.old) }
    ensures made { MakesUpdate (update (frame_of (setting_with plan.now frame.now.bits store.old.table.room) frame.now) kind.now (tree_of store.old.table children.left) (tree_of store.old.table children.right) (tree_of store.old.table children.memory)) (take done handles.old) store.old.table store.new.table result }
    ensures roots { take done handles.new ≡ take done handles.old }
    ensures count { length handles.new ≡ length handles.old }
    ensures cost { IsLarge store.old → steps.new ≤ steps.old + rows_of kind.now frame.now.bits * (6 * handle_pairs store.old.table) }
    ensures entries { store.new.memo.entries ≡ store.old.memo.entries }
{
    let _held = store.live();
    let Children { left, right, .. } = children;
    let roots = &handles[..done];
    match kind {
        Kind::True => Ok(leaf(store.table().one())),
        Kind::False => Ok(leaf(store.table().zero())),
        Kind::Atom(_) => atom_row(store, frame.coded, slot, roots, steps),
        Kind::Not => not_row(store, left, roots, steps),
        Kind::And => operation_row(store, Op::And, left, right, roots, steps),
        Kind::Or => operation_row(store, Op::Or, left, right, roots, steps),
        Kind::Implies => operation_row(store, Op::Implies, left, right, roots, steps),
        Kind::Iff => operation_row(store, Op::Iff, left, right, roots, steps),
        Kind::Exists(x) => {
            let block = block_of(*x, frame.bits);
            quantifier_rows(store, false, left, block, roots, steps)
        }
        Kind::Forall(x) => {
            let block = block_of(*x, frame.bits);
            quantifier_rows(store, true, left, block, roots, steps)
        }
        _ => temporal_rows(store, plan, frame, kind, children, handles, done, steps),
    }
}
