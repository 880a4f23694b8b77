//! Cubes made straight from the codes of blocks, with no list of literals between.

ghost use Rattle.std.specs.Prelude.{◌≡◌, ◌≤◌, ◌+◌, [], List, Bool, IfOk};
ghost use Rattle.std.specs.List.{All};
ghost use Rattle.node_tree.specs.Tree.{top, value};
ghost use Rattle.node_table.specs.Table.{tree_of, IsValid};
ghost use Rattle.node_table.specs.Collects.{AllValid};
ghost use Rattle.bdd_ops.specs.Applied.{Makes};
ghost use Rattle.bdd_ops.specs.Cube.{cube_tree, cube_over, all_hold, AscendFrom};
ghost use Rattle.bdd_ops.specs.Codes.{block_code_literals, code_list_literals, HasLevels};
ghost use Rattle.bdd_ops.specs.Operates.{Operates};

use crate::literals::put_literal;
use crate::{Literal, NodesFull, Store};
use mon_base::Steps;
use node_table::{Block, Full, Handle, NodeTable};
use std::sync::ledger::Ledger;

/// A block, and the code that its bits are to spell, the most significant bit first. What the code has beyond the bits
/// of the block counts for nothing.
#[derive(Clone, Copy, Debug, PartialEq, Eq)]
pub struct BlockCode {
    pub block: Block,
    pub code: u32,
}

/// The handle of the tree that holds where a block spells a code and a tree below it does, made from the last bit up.
fn put_code(table: &mut NodeTable, part: BlockCode, rest: Handle) -> Result<Handle, Full>
    requires levels { HasLevels part }
    requires rest { IsValid table.old rest }
    requires below { 1 ≤ part.block.bits → part.block.first + part.block.bits ≤ top (tree_of table.old rest) }
    ensures { Makes (cube_over (block_code_literals part) (tree_of table.old rest)) table.old table.new result }
{
    let _held = table.live();
    let mut bits = part.block.bits;
    let mut code = part.code;
    let mut made = rest;
    while bits > 0 {
        bits -= 1;
        let literal = Literal {
            level: part.block.first + bits as u16,
            bit: code % 2 == 1,
        };
        made = put_literal(table, literal, made)?;
        code /= 2;
    }
    Ok(made)
}

/// The cube of codes, made from the last one up.
fn put_codes(table: &mut NodeTable, codes: &[BlockCode]) -> Result<Handle, Full>
    requires ascending { AscendFrom 0 (code_list_literals codes.now) }
    requires levels { All HasLevels codes.now }
    ensures { Makes (cube_tree (code_list_literals codes.now)) table.old table.new result }
{
    let _held = table.live();
    let mut left = codes.len();
    let mut made = table.one();
    while left > 0 {
        left -= 1;
        made = put_code(table, codes[left], made)?;
    }
    Ok(made)
}

/// One try, over what a store holds.
fn code_cube_inside(store: &mut Store, codes: &[BlockCode]) -> Result<Handle, Full>
    requires ascending { AscendFrom 0 (code_list_literals codes.now) }
    requires levels { All HasLevels codes.now }
    ensures made { Makes (cube_tree (code_list_literals codes.now)) store.old.table store.new.table result }
    ensures memo { store.new.memo ≡ store.old.memo }
{
    put_codes(&mut store.table, codes)
}

/// The tree that holds exactly where each block spells its code. The blocks ascend. It takes no step.
pub fn code_cube<L: Ledger>(
    store: &mut Store,
    codes: &[BlockCode],
    roots: &[Handle],
    steps: &mut Steps<L>,
) -> Result<Handle, NodesFull>
    requires ascending { AscendFrom 0 (code_list_literals codes.now) }
    requires levels { All HasLevels codes.now }
    requires roots { AllValid store.old.table roots.now }
    ensures made { Operates (cube_tree (code_list_literals codes.now)) [] roots.now store.old.table store.new.table result }
    ensures values { IfOk result (λ h. (bits : List Bool) → value (tree_of store.new.table h) bits ≡ all_hold (code_list_literals codes.now) bits) }
    ensures cost { steps.new ≡ steps.old }
    ensures entries { store.new.memo.entries ≡ store.old.memo.entries }
{
    let _ = &steps;
    if let Ok(made) = code_cube_inside(store, codes) {
        return Ok(made);
    }
    store.tidy(roots, &[]);
    match code_cube_inside(store, codes) {
        Ok(made) => Ok(made),
        Err(Full) => Err(NodesFull),
    }
}
