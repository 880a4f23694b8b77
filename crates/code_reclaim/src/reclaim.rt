//! A book's codes taken back.

ghost use Rattle.std.specs.Prelude.{◌≡◌, ◌≢◌, ◌+◌, ◌*◌, ◌-◌, ◌^◌, ◌<◌, ◌≤◌, ◌&&◌, [], ℕ, length, map, not, is_some};
ghost use Rattle.node_table.specs.Table.{tree_of, KeepsTrees};
ghost use Rattle.node_table.specs.Collects.{AllValid};
ghost use Rattle.value_codes.specs.Pairs.{value_of, IsBook};
ghost use Rattle.code_reclaim.specs.Candidates.{is_candidate};
ghost use Rattle.code_reclaim.specs.Swept.{stays, stands_in, Keeps, KeepsWithin};

use crate::entry::all_ones;
use crate::told::strike_told;
use mon_base::Steps;
use node_table::{Block, Handle, NodeTable};
use std::sync::ledger::Ledger;
use value_codes::Book;

/// How many codes a walk looks at. The codes of a block of up to 16 bits take one walk together.
const WALK: usize = 65536;

/// Makes the given codes candidates that aren't needed, from the code `from` on.
fn find_candidates(book: &Book, needed: &[u32], from: u32, candidates: &mut [bool])
    requires { from + length candidates.old ≤ 1048576 }
    ensures candidates { (i : ℕ) → i < length candidates.old → is_candidate candidates.new i ≡ (is_some (value_of book.now.pairs (from + i)) && not (stands_in needed.now (from + i))) }
    ensures count { length candidates.new ≡ length candidates.old }
{
    for i in 0..candidates.len() {
        let code = from + i as u32;
        candidates[i] = book.value_of(code).is_some() && !needed.contains(&code);
    }
}

/// `sweep` of as many codes from `from` on as there is room for candidates.
fn sweep_range<L: Ledger>(
    table: &mut NodeTable,
    remembered: &[Handle],
    block: Block,
    book: &mut Book,
    needed: &[u32],
    from: u32,
    candidates: &mut [bool],
    steps: &mut Steps<L>,
) -> u32
    requires valid { AllValid table.old remembered.now }
    requires block { block.first + block.bits ≤ 65536 }
    requires width { block.bits ≤ 20 }
    requires some { 1 ≤ length candidates.old }
    requires fits { from + length candidates.old ≤ 2 ^ block.bits }
    ensures swept { KeepsWithin (stays (map (tree_of table.old) remembered.now) block.first block.bits needed.now) from (from + length candidates.old) book.old.pairs book.new.pairs }
    ensures count { result + length book.new.pairs ≡ length book.old.pairs }
    ensures few { result ≤ length candidates.old }
    ensures bits { book.new.bits ≡ book.old.bits }
    ensures sound { IsBook book.new }
    ensures room { table.new.room ≡ table.old.room }
    ensures nodes { table.new.nodes ≡ table.old.nodes }
    ensures cost { steps.new ≤ steps.old + length candidates.old * ((table.old.room + 2) * (2 * block.bits + 1)) }
    ensures idle { remembered.now ≡ [] → steps.new ≡ steps.old }
{
    let _free = book.free_count();
    find_candidates(book, needed, from, candidates);
    strike_told(table, remembered, block, from, candidates, steps);
    let mut released = 0;
    for i in 0..candidates.len() {
        if candidates[i] {
            book.release(from + i as u32);
            released += 1;
        }
    }
    released
}

/// Takes back each given code that no remembered tree tells apart and that isn't needed, and says how many it took.
pub fn sweep<L: Ledger>(
    table: &mut NodeTable,
    remembered: &[Handle],
    block: Block,
    book: &mut Book,
    needed: &[u32],
    steps: &mut Steps<L>,
) -> u32
    requires valid { AllValid table.old remembered.now }
    requires block { block.first + block.bits ≤ 65536 }
    requires bits { book.old.bits ≡ block.bits }
    ensures swept { Keeps (stays (map (tree_of table.old) remembered.now) block.first block.bits needed.now) book.old.pairs book.new.pairs }
    ensures count { result + length book.new.pairs ≡ length book.old.pairs }
    ensures bits { book.new.bits ≡ book.old.bits }
    ensures sound { IsBook book.new }
    ensures room { table.new.room ≡ table.old.room }
    ensures nodes { table.new.nodes ≡ table.old.nodes }
    ensures kept { KeepsTrees table.old table.new }
    ensures cost { steps.new ≤ steps.old + (2 ^ block.bits - 1) * ((table.old.room + 2) * (2 * block.bits + 1)) }
    ensures idle { remembered.now ≡ [] → steps.new ≡ steps.old }
{
    let _free = book.free_count();
    let codes = all_ones(block.bits);
    let mut candidates = [false; WALK];
    let mut from = 0;
    let mut released = 0;
    while from < codes {
        let count = (codes - from).min(WALK as u32);
        let range = &mut candidates[..count as usize];
        released += sweep_range(table, remembered, block, book, needed, from, range, steps);
        from += count;
    }
    released
}
