//! Whether remembered trees tell codes apart.

ghost use Rattle.std.specs.Prelude.{◌≡◌, ◌+◌, ◌*◌, ◌^◌, ◌<◌, ◌≤◌, ◌↔◌, ◌&&◌, [], ℕ, IsTrue, length, map, not};
ghost use Rattle.node_table.specs.Table.{tree_of, KeepsTrees};
ghost use Rattle.node_table.specs.Collects.{AllValid};
ghost use Rattle.code_reclaim.specs.Told.{told_apart, IsToldApart};
ghost use Rattle.code_reclaim.specs.Candidates.{is_candidate};

use crate::search::strike_below;
use mon_base::Steps;
use node_table::{Block, Handle, NodeTable};
use std::sync::ledger::Ledger;

/// Strikes the candidates that some remembered tree tells apart. The list begins with the code `from`. It changes marks
/// alone, and looks at each handle once, however many candidates there are.
pub fn strike_told<L: Ledger>(
    table: &mut NodeTable,
    remembered: &[Handle],
    block: Block,
    from: u32,
    candidates: &mut [bool],
    steps: &mut Steps<L>,
)
    requires valid { AllValid table.old remembered.now }
    requires width { block.bits ≤ 20 }
    requires block { block.first + block.bits ≤ 65536 }
    requires some { 1 ≤ length candidates.old }
    requires fits { from + length candidates.old ≤ 2 ^ block.bits }
    ensures struck { (i : ℕ) → is_candidate candidates.new i ≡ (is_candidate candidates.old i && not (told_apart (map (tree_of table.old) remembered.now) block.first block.bits (from + i))) }
    ensures count { length candidates.new ≡ length candidates.old }
    ensures room { table.new.room ≡ table.old.room }
    ensures nodes { table.new.nodes ≡ table.old.nodes }
    ensures cost { steps.new ≤ steps.old + length candidates.old * ((table.old.room + 2) * (2 * block.bits + 1)) }
    ensures idle { remembered.now ≡ [] → steps.new ≡ steps.old }
{
    let _held = table.live();
    table.unmark_all();
    for h in remembered {
        strike_below(table, *h, block, from, candidates, steps);
    }
}

/// Whether some remembered tree differs between the block's bits set to a code and set to all ones. It changes marks
/// alone, and looks at each handle once.
pub fn is_told_apart<L: Ledger>(
    table: &mut NodeTable,
    remembered: &[Handle],
    block: Block,
    code: u32,
    steps: &mut Steps<L>,
) -> bool
    requires valid { AllValid table.old remembered.now }
    requires width { block.bits ≤ 20 }
    requires block { block.first + block.bits ≤ 65536 }
    requires code { code < 2 ^ block.bits }
    ensures told { result ≡ told_apart (map (tree_of table.old) remembered.now) block.first block.bits code }
    ensures values { IsTrue result ↔ IsToldApart (map (tree_of table.old) remembered.now) block.first block.bits code }
    ensures room { table.new.room ≡ table.old.room }
    ensures nodes { table.new.nodes ≡ table.old.nodes }
    ensures kept { KeepsTrees table.old table.new }
    ensures cost { steps.new ≤ steps.old + (table.old.room + 2) * (2 * block.bits + 1) }
    ensures idle { remembered.now ≡ [] → steps.new ≡ steps.old }
{
    let _held = table.live();
    let mut candidates = [true];
    strike_told(table, remembered, block, code, &mut candidates, steps);
    !candidates[0]
}
