//! Cubes: conjunctions of literals.

ghost use Rattle.std.specs.Prelude.{◌≡◌, ◌<◌, ◌+◌, [], List, Bool, IfOk};
ghost use Rattle.node_tree.specs.Tree.{top, value};
ghost use Rattle.node_table.specs.Table.{tree_of, IsValid};
ghost use Rattle.node_table.specs.Collects.{AllValid};
ghost use Rattle.bdd_ops.specs.Applied.{Makes};
ghost use Rattle.bdd_ops.specs.Cube.{literal_tree, cube_tree, all_hold, AscendFrom};
ghost use Rattle.bdd_ops.specs.Operates.{Operates};

use crate::{NodesFull, Store};
use mon_base::Steps;
use node_table::{Full, Handle, NodeTable};
use std::sync::ledger::Ledger;

/// A level and the bit that it is to have.
#[derive(Clone, Copy, Debug, PartialEq, Eq)]
pub struct Literal {
    pub level: u16,
    pub bit: bool,
}

/// The handle of the tree that holds where a literal does and a tree below its level.
pub(crate) fn put_literal(
    table: &mut NodeTable,
    literal: Literal,
    rest: Handle,
) -> Result<Handle, Full>
    requires rest { IsValid table.old rest }
    requires below { literal.level < top (tree_of table.old rest) }
    ensures { Makes (literal_tree literal (tree_of table.old rest)) table.old table.new result }
{
    let zero = table.zero();
    if literal.bit {
        table.make(literal.level, zero, rest)
    } else {
        table.make(literal.level, rest, zero)
    }
}

/// The cube of literals, made from the last one up.
fn cube_parts(table: &mut NodeTable, literals: &[Literal], first: u32) -> Result<Handle, Full>
    requires { AscendFrom first literals.now }
    ensures { Makes (cube_tree literals.now) table.old table.new result }
{
    let _held = table.live();
    match literals {
        [] => Ok(table.one()),
        [literal, others @ ..] => {
            let rest = cube_parts(table, others, literal.level as u32 + 1)?;
            put_literal(table, *literal, rest)
        }
    }
}

/// One try, over what a store holds.
fn cube_inside(store: &mut Store, literals: &[Literal]) -> Result<Handle, Full>
    requires { AscendFrom 0 literals.now }
    ensures made { Makes (cube_tree literals.now) store.old.table store.new.table result }
    ensures memo { store.new.memo ≡ store.old.memo }
{
    cube_parts(&mut store.table, literals, 0)
}

/// The tree that holds exactly where each literal's level has its bit. The levels ascend. It takes no step.
pub fn cube<L: Ledger>(
    store: &mut Store,
    literals: &[Literal],
    roots: &[Handle],
    steps: &mut Steps<L>,
) -> Result<Handle, NodesFull>
    requires ascending { AscendFrom 0 literals.now }
    requires roots { AllValid store.old.table roots.now }
    ensures made { Operates (cube_tree literals.now) [] roots.now store.old.table store.new.table result }
    ensures values { IfOk result (λ h. (bits : List Bool) → value (tree_of store.new.table h) bits ≡ all_hold literals.now bits) }
    ensures cost { steps.new ≡ steps.old }
    ensures entries { store.new.memo.entries ≡ store.old.memo.entries }
{
    let _ = &steps;
    if let Ok(made) = cube_inside(store, literals) {
        return Ok(made);
    }
    store.tidy(roots, &[]);
    match cube_inside(store, literals) {
        Ok(made) => Ok(made),
        Err(Full) => Err(NodesFull),
    }
}
