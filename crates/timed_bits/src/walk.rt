//! One walk over the nodes before the time block, which changes what stands at the entries.

ghost use Rattle.std.specs.Prelude.{◌≡◌, ℕ, ◌+◌, ◌*◌, ◌^◌, ◌<◌, ◌≤◌, None, IfSome, MatchOption};
ghost use Rattle.node_tree.specs.Tree.{IsOrderedFrom, depth};
ghost use Rattle.node_table.specs.Table.{tree_of, note_of, IsValid};
ghost use Rattle.bdd_ops.specs.Applied.{Makes};
ghost use Rattle.bdd_ops.specs.Shelf.{handle_pairs};
ghost use Rattle.quantify.specs.Notes.{HoldsNotes};
ghost use Rattle.timed_bits.specs.Changes.{chain_of, read_on, is_one, is_there};
ghost use Rattle.timed_bits.specs.Changing.{changed, changed_entry, tree_for, Fits, FitsOutcome, IsEntry, Accepts, AcceptsEntry};
ghost use Rattle.timed_bits.specs.Walks.{SameNotes, IsNodeBefore, Walks};

use crate::chain::{leaf_in, make_chain, read_chain};
use crate::change::{Change, Outcome, cap_age, drop_age, is_wanted};
use bdd_ops::Store;
use mon_base::Steps;
use node_table::{Block, Branch, Full, Handle, NodeTable};
use std::sync::ledger::Ledger;

/// A node before the block: its level and its children.
#[derive(Clone, Copy)]
struct Before {
    level: u16,
    low: Handle,
    high: Handle,
}

/// The node of a handle, where it stands before the level. It costs one step.
fn node_before<L: Ledger>(
    table: &NodeTable,
    first: u16,
    h: Handle,
    steps: &mut Steps<L>,
) -> Option<Before>
    requires { IsValid table.now h }
    ensures node { MatchOption result (IsOrderedFrom first (tree_of table.now h)) (λ a. IsNodeBefore table.now h first a.level a.low a.high) }
    ensures cost { steps.new ≡ steps.old + 1 }
{
    match table.branch(h, steps) {
        Branch::Node { level, low, high } if level < first => Some(Before { level, low, high }),
        _ => None,
    }
}

/// The age that stands at an entry.
fn read_entry<L: Ledger>(
    table: &NodeTable,
    block: Block,
    h: Handle,
    steps: &mut Steps<L>,
) -> Option<u32>
    requires width { block.bits ≤ 20 }
    requires valid { IsValid table.now h }
    requires entry { IsEntry block.first block.bits (tree_of table.now h) }
    ensures age { result ≡ read_on 0 (tree_of table.now h) }
    ensures small { IfSome result (λ a. a < 2 ^ block.bits) }
    ensures cost { steps.new ≤ steps.old + (depth (tree_of table.now h) + 1) }
{
    let _held = table.live();
    if h == table.zero() {
        return None;
    }
    Some(read_chain(table, block.bits, h, steps))
}

/// Whether there is an age at an entry.
fn has_age(table: &NodeTable, block: Block, h: Handle) -> bool
    requires valid { IsValid table.now h }
    requires entry { IsEntry block.first block.bits (tree_of table.now h) }
    ensures { result ≡ is_there (read_on 0 (tree_of table.now h)) }
{
    let _held = table.live();
    let _ = block;
    if h == table.zero() {
        return false;
    }
    true
}

/// Whether a handle is the leaf that is true.
fn is_true(table: &NodeTable, h: Handle) -> bool
    requires valid { IsValid table.now h }
    ensures { result ≡ is_one (tree_of table.now h) }
{
    let _held = table.live();
    h == table.one()
}

/// What a change makes of an entry.
fn entry_outcome<L: Ledger>(
    table: &NodeTable,
    block: Block,
    change: Change,
    h: Handle,
    steps: &mut Steps<L>,
) -> Outcome
    requires width { block.bits ≤ 20 }
    requires valid { IsValid table.now h }
    requires fits { Fits block.bits change }
    requires accepts { AcceptsEntry block.first block.bits change (tree_of table.now h) }
    ensures tree { tree_for block.first block.bits result ≡ changed_entry block.first block.bits change (tree_of table.now h) }
    ensures fits { FitsOutcome block.bits result }
    ensures cost { steps.new ≤ steps.old + (depth (tree_of table.now h) + 1) }
{
    match change {
        Change::Drop { delta, most } => {
            Outcome::Age(drop_age(read_entry(table, block, h, steps), delta, most))
        }
        Change::Cap { delta, cap } => {
            Outcome::Age(cap_age(read_entry(table, block, h, steps), delta, cap))
        }
        Change::Any => Outcome::Truth(has_age(table, block, h)),
        Change::At { age } => Outcome::Truth(is_wanted(read_entry(table, block, h, steps), age)),
        Change::Stamp => Outcome::Age(if is_true(table, h) { Some(0) } else { None }),
    }
}

/// Makes the chain of an age, if there is one.
fn make_age(store: &mut Store, block: Block, age: Option<u32>) -> Result<Handle, Full>
    requires width { block.bits ≤ 20 }
    requires block { block.first + block.bits ≤ 65536 }
    requires fits { IfSome age (λ a. a < 2 ^ block.bits) }
    ensures made { Makes (chain_of block.first block.bits age) store.old.table store.new.table result }
    ensures memo { store.new.memo ≡ store.old.memo }
    ensures notes { SameNotes store.old.table store.new.table }
{
    let _held = store.live();
    match age {
        Some(number) => make_chain(store, block.first as u32, block.bits, number),
        None => Ok(leaf_in(store, false)),
    }
}

/// Makes the tree of an outcome.
fn make_outcome(store: &mut Store, block: Block, outcome: Outcome) -> Result<Handle, Full>
    requires width { block.bits ≤ 20 }
    requires block { block.first + block.bits ≤ 65536 }
    requires fits { FitsOutcome block.bits outcome }
    ensures made { Makes (tree_for block.first block.bits outcome) store.old.table store.new.table result }
    ensures memo { store.new.memo ≡ store.old.memo }
    ensures notes { SameNotes store.old.table store.new.table }
{
    let _held = store.live();
    match outcome {
        Outcome::Age(age) => make_age(store, block, age),
        Outcome::Truth(truth) => Ok(leaf_in(store, truth)),
    }
}

/// Changes an entry.
fn change_entry<L: Ledger>(
    store: &mut Store,
    block: Block,
    change: Change,
    h: Handle,
    steps: &mut Steps<L>,
) -> Result<Handle, Full>
    requires width { block.bits ≤ 20 }
    requires block { block.first + block.bits ≤ 65536 }
    requires valid { IsValid store.old.table h }
    requires fits { Fits block.bits change }
    requires accepts { AcceptsEntry block.first block.bits change (tree_of store.old.table h) }
    ensures made { Makes (changed_entry block.first block.bits change (tree_of store.old.table h)) store.old.table store.new.table result }
    ensures memo { store.new.memo ≡ store.old.memo }
    ensures notes { SameNotes store.old.table store.new.table }
    ensures cost { steps.new ≤ steps.old + (depth (tree_of store.old.table h) + 1) }
{
    let outcome = entry_outcome(store.table(), block, change, h, steps);
    make_outcome(store, block, outcome)
}

/// Changes an entry, and notes what was made of it. The step that found it an entry counts too.
fn note_entry<L: Ledger>(
    store: &mut Store,
    block: Block,
    change: Change,
    h: Handle,
    steps: &mut Steps<L>,
) -> Result<Handle, Full>
    requires width { block.bits ≤ 20 }
    requires block { block.first + block.bits ≤ 65536 }
    requires valid { IsValid store.old.table h }
    requires fits { Fits block.bits change }
    requires accepts { Accepts block.first block.bits change (tree_of store.old.table h) }
    requires ordered { IsOrderedFrom block.first (tree_of store.old.table h) }
    requires noted { HoldsNotes (λ t. changed block.first block.bits change t) store.old.table }
    requires none { None ≡ note_of store.old.table h }
    ensures walks { (before : ℕ) → steps.old ≡ before + 1 → Walks (λ t. changed block.first block.bits change t) h store.old.table store.new.table before steps.new result }
    ensures entries { store.new.memo.entries ≡ store.old.memo.entries }
{
    let _held = store.live();
    let made = change_entry(store, block, change, h, steps)?;
    store.take_note(h, made);
    Ok(made)
}

/// Changes the entries below a handle. All notes are of this change in this block.
fn change_parts<L: Ledger>(
    store: &mut Store,
    block: Block,
    change: Change,
    h: Handle,
    steps: &mut Steps<L>,
) -> Result<Handle, Full>
    requires width { block.bits ≤ 20 }
    requires block { block.first + block.bits ≤ 65536 }
    requires valid { IsValid store.old.table h }
    requires fits { Fits block.bits change }
    requires accepts { Accepts block.first block.bits change (tree_of store.old.table h) }
    requires noted { HoldsNotes (λ t. changed block.first block.bits change t) store.old.table }
    ensures walks { Walks (λ t. changed block.first block.bits change t) h store.old.table store.new.table steps.old steps.new result }
    ensures entries { store.new.memo.entries ≡ store.old.memo.entries }
{
    let _held = store.live();
    if let Some(found) = store.note(h) {
        return Ok(found);
    }
    let Some(node) = node_before(store.table(), block.first, h, steps) else {
        return note_entry(store, block, change, h, steps);
    };
    let low = change_parts(store, block, change, node.low, steps)?;
    let high = change_parts(store, block, change, node.high, steps)?;
    let made = store.make(node.level, low, high)?;
    store.take_note(h, made);
    Ok(made)
}

/// The whole change, without notes at its begin.
pub fn change_whole<L: Ledger>(
    store: &mut Store,
    block: Block,
    change: Change,
    h: Handle,
    steps: &mut Steps<L>,
) -> Result<Handle, Full>
    requires width { block.bits ≤ 20 }
    requires block { block.first + block.bits ≤ 65536 }
    requires valid { IsValid store.old.table h }
    requires fits { Fits block.bits change }
    requires accepts { Accepts block.first block.bits change (tree_of store.old.table h) }
    ensures made { Makes (changed block.first block.bits change (tree_of store.old.table h)) store.old.table store.new.table result }
    ensures entries { store.new.memo.entries ≡ store.old.memo.entries }
    ensures cost { steps.new ≤ steps.old + 2 * handle_pairs store.old.table }
{
    let _held = store.live();
    store.clear_notes();
    change_parts(store, block, change, h, steps)
}
