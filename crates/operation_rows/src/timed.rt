//! The rows of the timed operators. Their letters stand behind the roots, so that the roots of each operation are one
//! slice.

ghost use Rattle.std.specs.Prelude.{◌≡◌, ◌+◌, ◌*◌, ◌^◌, ◌≤◌, ◌<◌, ◌++◌, [], length, take};
ghost use Rattle.std.specs.List.{Contains};
ghost use Rattle.node_tree.specs.Levels.{LevelsBelow};
ghost use Rattle.node_table.specs.Table.{tree_of, IsValid};
ghost use Rattle.node_table.specs.Collects.{AllValid};
ghost use Rattle.bdd_ops.specs.declared.op.Op.TheVariants.{And, Or, AndNot};
ghost use Rattle.bdd_ops.specs.Applied.{op_tree};
ghost use Rattle.bdd_ops.specs.Shelf.{handle_pairs, IsLarge};
ghost use Rattle.timed_bits.specs.Ages.{HasAgesTo};
ghost use Rattle.timed_bits.specs.Changes.{age_drop, any_time, stamp};
ghost use Rattle.timed_bits.specs.Entries.{IsAgeTree};
ghost use Rattle.operation_rows.specs.Kinds.{applied, since_at_most, once_at_most};
ghost use Rattle.operation_rows.specs.Lines.{MakesRow, EndsRows, IsKept, last_rows, joined_rows, stamped_rows, without_rows, without_ages, since_rows, since_ages};
ghost use Rattle.operation_rows.specs.Rows.{MakesUpdate};

use crate::rows::{RowFull, operate};
use crate::updated::Updated;
use bdd_ops::{NodesFull, Op, Store};
use mon_base::Steps;
use node_table::{Block, Handle};
use std::sync::ledger::Ledger;
use timed_bits::{age_drop, any_time, stamp};

/// Puts letters behind the roots, and answers where they end.
pub(crate) fn keep(handles: &mut [Handle], done: usize, letters: &[Handle]) -> usize
    requires room { done + length letters.now ≤ length handles.old }
    ensures end { result ≡ done + length letters.now }
    ensures kept { take result handles.new ≡ take done handles.old ++ letters.now }
    ensures roots { take done handles.new ≡ take done handles.old }
    ensures count { length handles.new ≡ length handles.old }
{
    let end = done + letters.len();
    handles[done..end].copy_from_slice(letters);
    end
}

/// A row that is an operation on two trees, of which each is a root's or a letter's.
pub(crate) fn operate_row<L: Ledger>(
    store: &mut Store,
    op: Op,
    u: Handle,
    v: Handle,
    handles: &mut [Handle],
    done: usize,
    letters: &[Handle],
    number: u32,
    steps: &mut Steps<L>,
) -> Result<Handle, RowFull>
    requires room { done + length letters.now ≤ length handles.old }
    requires roots { AllValid store.old.table (take done handles.old) }
    requires letters { AllValid store.old.table letters.now }
    requires left { IsKept (take done handles.old) letters.now u }
    requires right { IsKept (take done handles.old) letters.now v }
    ensures row { MakesRow number (op_tree op store.old.table u v) (take done handles.old) letters.now store.old.table store.new.table result }
    ensures roots { take done handles.new ≡ take done handles.old }
    ensures count { length handles.new ≡ length handles.old }
    ensures cost { IsLarge store.old → steps.new ≤ steps.old + 6 * handle_pairs store.old.table }
    ensures entries { store.new.memo.entries ≡ store.old.memo.entries }
{
    let end = keep(handles, done, letters);
    match operate(store, op, u, v, &handles[..end], steps) {
        Ok(made) => Ok(made),
        Err(NodesFull) => Err(RowFull { row: number }),
    }
}

/// A row that stamps a root or a letter.
pub(crate) fn stamp_row<L: Ledger>(
    store: &mut Store,
    block: Block,
    h: Handle,
    handles: &mut [Handle],
    done: usize,
    letters: &[Handle],
    number: u32,
    steps: &mut Steps<L>,
) -> Result<Handle, RowFull>
    requires width { block.bits ≤ 20 }
    requires block { block.first + block.bits ≤ 65536 }
    requires room { done + length letters.now ≤ length handles.old }
    requires roots { AllValid store.old.table (take done handles.old) }
    requires letters { AllValid store.old.table letters.now }
    requires operand { IsKept (take done handles.old) letters.now h }
    requires before { LevelsBelow block.first (tree_of store.old.table h) }
    ensures row { MakesRow number (stamp block.first block.bits (tree_of store.old.table h)) (take done handles.old) letters.now store.old.table store.new.table result }
    ensures roots { take done handles.new ≡ take done handles.old }
    ensures count { length handles.new ≡ length handles.old }
    ensures cost { IsLarge store.old → steps.new ≤ steps.old + 6 * handle_pairs store.old.table }
    ensures entries { store.new.memo.entries ≡ store.old.memo.entries }
{
    let end = keep(handles, done, letters);
    match stamp(store, block, h, &handles[..end], steps) {
        Ok(made) => Ok(made),
        Err(NodesFull) => Err(RowFull { row: number }),
    }
}

/// A row that tells where a letter has an age.
pub(crate) fn any_row<L: Ledger>(
    store: &mut Store,
    block: Block,
    h: Handle,
    handles: &mut [Handle],
    done: usize,
    letters: &[Handle],
    number: u32,
    steps: &mut Steps<L>,
) -> Result<Handle, RowFull>
    requires width { block.bits ≤ 20 }
    requires block { block.first + block.bits ≤ 65536 }
    requires room { done + length letters.now ≤ length handles.old }
    requires roots { AllValid store.old.table (take done handles.old) }
    requires letters { AllValid store.old.table letters.now }
    requires operand { IsKept (take done handles.old) letters.now h }
    requires ages { IsAgeTree block.first block.bits (tree_of store.old.table h) }
    ensures row { MakesRow number (any_time block.first block.bits (tree_of store.old.table h)) (take done handles.old) letters.now store.old.table store.new.table result }
    ensures roots { take done handles.new ≡ take done handles.old }
    ensures count { length handles.new ≡ length handles.old }
    ensures cost { IsLarge store.old → steps.new ≤ steps.old + 6 * handle_pairs store.old.table }
    ensures entries { store.new.memo.entries ≡ store.old.memo.entries }
{
    let end = keep(handles, done, letters);
    match any_time(store, block, h, &handles[..end], steps) {
        Ok(made) => Ok(made),
        Err(NodesFull) => Err(RowFull { row: number }),
    }
}

/// The first row, which drops ages.
pub(crate) fn drop_row<L: Ledger>(
    store: &mut Store,
    block: Block,
    h: Handle,
    delta: u64,
    most: u32,
    handles: &[Handle],
    done: usize,
    steps: &mut Steps<L>,
) -> Result<Handle, RowFull>
    requires width { block.bits ≤ 20 }
    requires block { block.first + block.bits ≤ 65536 }
    requires bound { most < 2 ^ block.bits }
    requires room { done ≤ length handles.now }
    requires roots { AllValid store.old.table (take done handles.now) }
    requires operand { IsKept (take done handles.now) [] h }
    requires ages { HasAgesTo block.first block.bits most (tree_of store.old.table h) }
    ensures row { MakesRow 1 (age_drop block.first block.bits delta most (tree_of store.old.table h)) (take done handles.now) [] store.old.table store.new.table result }
    ensures cost { IsLarge store.old → steps.new ≤ steps.old + 6 * handle_pairs store.old.table }
    ensures entries { store.new.memo.entries ≡ store.old.memo.entries }
{
    match age_drop(store, block, h, delta, most, &handles[..done], steps) {
        Ok(made) => Ok(made),
        Err(NodesFull) => Err(RowFull { row: 1 }),
    }
}

/// The last row of a timed operator within a bound: where the new ages are.
fn last_row<L: Ledger>(
    store: &mut Store,
    block: Block,
    e: Handle,
    handles: &mut [Handle],
    done: usize,
    number: u32,
    steps: &mut Steps<L>,
) -> Result<Updated, RowFull>
    requires width { block.bits ≤ 20 }
    requires block { block.first + block.bits ≤ 65536 }
    requires room { done + 3 ≤ length handles.old }
    requires roots { AllValid store.old.table (take done handles.old) }
    requires letter { IsValid store.old.table e }
    requires ages { IsAgeTree block.first block.bits (tree_of store.old.table e) }
    ensures made { EndsRows number (last_rows block.first block.bits (tree_of store.old.table e)) (any_time block.first block.bits (tree_of store.old.table e)) (tree_of store.old.table e) (take done handles.old) store.old.table store.new.table result }
    ensures roots { take done handles.new ≡ take done handles.old }
    ensures count { length handles.new ≡ length handles.old }
    ensures cost { IsLarge store.old → steps.new ≤ steps.old + 6 * handle_pairs store.old.table }
    ensures entries { store.new.memo.entries ≡ store.old.memo.entries }
{
    let letters = [e];
    match any_row(store, block, e, handles, done, &letters, number, steps) {
        Ok(now) => Ok(Updated { now, next: e }),
        Err(full) => Err(full),
    }
}

/// The last two rows: the ages that were kept or the new ones, and where they are.
pub(crate) fn joined_rows<L: Ledger>(
    store: &mut Store,
    block: Block,
    c: Handle,
    z: Handle,
    handles: &mut [Handle],
    done: usize,
    number: u32,
    steps: &mut Steps<L>,
) -> Result<Updated, RowFull>
    requires width { block.bits ≤ 20 }
    requires block { block.first + block.bits ≤ 65536 }
    requires room { done + 3 ≤ length handles.old }
    requires few { number ≤ 8 }
    requires roots { AllValid store.old.table (take done handles.old) }
    requires kept { IsValid store.old.table c }
    requires new { IsValid store.old.table z }
    requires ages { IsAgeTree block.first block.bits (applied Or (tree_of store.old.table c) (tree_of store.old.table z)) }
    ensures made { EndsRows number (joined_rows block.first block.bits (tree_of store.old.table c) (tree_of store.old.table z)) (any_time block.first block.bits (applied Or (tree_of store.old.table c) (tree_of store.old.table z))) (applied Or (tree_of store.old.table c) (tree_of store.old.table z)) (take done handles.old) store.old.table store.new.table result }
    ensures roots { take done handles.new ≡ take done handles.old }
    ensures count { length handles.new ≡ length handles.old }
    ensures cost { IsLarge store.old → steps.new ≤ steps.old + 2 * (6 * handle_pairs store.old.table) }
    ensures entries { store.new.memo.entries ≡ store.old.memo.entries }
{
    let letters = [c, z];
    match operate_row(store, Op::Or, c, z, handles, done, &letters, number, steps) {
        Ok(e) => last_row(store, block, e, handles, done, number + 1, steps),
        Err(full) => Err(full),
    }
}

/// The last three rows: new ages where g holds beside those that were kept, both, and where they are.
fn stamped_rows<L: Ledger>(
    store: &mut Store,
    block: Block,
    c: Handle,
    g: Handle,
    handles: &mut [Handle],
    done: usize,
    number: u32,
    steps: &mut Steps<L>,
) -> Result<Updated, RowFull>
    requires width { block.bits ≤ 20 }
    requires block { block.first + block.bits ≤ 65536 }
    requires room { done + 3 ≤ length handles.old }
    requires few { number ≤ 7 }
    requires roots { AllValid store.old.table (take done handles.old) }
    requires kept { IsValid store.old.table c }
    requires child { Contains (take done handles.old) g }
    requires before { LevelsBelow block.first (tree_of store.old.table g) }
    requires ages { IsAgeTree block.first block.bits (applied Or (tree_of store.old.table c) (stamp block.first block.bits (tree_of store.old.table g))) }
    ensures made { EndsRows number (stamped_rows block.first block.bits (tree_of store.old.table c) (tree_of store.old.table g)) (any_time block.first block.bits (applied Or (tree_of store.old.table c) (stamp block.first block.bits (tree_of store.old.table g)))) (applied Or (tree_of store.old.table c) (stamp block.first block.bits (tree_of store.old.table g))) (take done handles.old) store.old.table store.new.table result }
    ensures roots { take done handles.new ≡ take done handles.old }
    ensures count { length handles.new ≡ length handles.old }
    ensures cost { IsLarge store.old → steps.new ≤ steps.old + 3 * (6 * handle_pairs store.old.table) }
    ensures entries { store.new.memo.entries ≡ store.old.memo.entries }
{
    let letters = [c];
    match stamp_row(store, block, g, handles, done, &letters, number, steps) {
        Ok(z) => joined_rows(store, block, c, z, handles, done, number + 1, steps),
        Err(full) => Err(full),
    }
}

/// The last four rows: the ages of the letter a without those where f holds, the stamp of f, both, and where they are.
fn without_rows<L: Ledger>(
    store: &mut Store,
    block: Block,
    f: Handle,
    a: Handle,
    handles: &mut [Handle],
    done: usize,
    number: u32,
    steps: &mut Steps<L>,
) -> Result<Updated, RowFull>
    requires width { block.bits ≤ 20 }
    requires block { block.first + block.bits ≤ 65536 }
    requires room { done + 3 ≤ length handles.old }
    requires few { number ≤ 6 }
    requires roots { AllValid store.old.table (take done handles.old) }
    requires child { Contains (take done handles.old) f }
    requires before { LevelsBelow block.first (tree_of store.old.table f) }
    requires letter { IsValid store.old.table a }
    requires ages { IsAgeTree block.first block.bits (tree_of store.old.table a) }
    ensures made { EndsRows number (without_rows block.first block.bits (tree_of store.old.table a) (tree_of store.old.table f)) (any_time block.first block.bits (without_ages block.first block.bits (tree_of store.old.table a) (tree_of store.old.table f))) (without_ages block.first block.bits (tree_of store.old.table a) (tree_of store.old.table f)) (take done handles.old) store.old.table store.new.table result }
    ensures roots { take done handles.new ≡ take done handles.old }
    ensures count { length handles.new ≡ length handles.old }
    ensures cost { IsLarge store.old → steps.new ≤ steps.old + 4 * (6 * handle_pairs store.old.table) }
    ensures entries { store.new.memo.entries ≡ store.old.memo.entries }
{
    let _held = store.live();
    let letters = [a];
    match operate_row(
        store,
        Op::AndNot,
        a,
        f,
        handles,
        done,
        &letters,
        number,
        steps,
    ) {
        Ok(c) => stamped_rows(store, block, c, f, handles, done, number + 1, steps),
        Err(full) => Err(full),
    }
}

/// The rows of P[<=n] f: ages at most n that are later by delta, without those where f holds; the stamp of f; both; where
/// they are. What it remembered has ages at most n.
pub fn once_at_most_rows<L: Ledger>(
    store: &mut Store,
    block: Block,
    n: u32,
    delta: u64,
    f: Handle,
    m: Handle,
    handles: &mut [Handle],
    done: usize,
    steps: &mut Steps<L>,
) -> Result<Updated, RowFull>
    requires width { block.bits ≤ 20 }
    requires block { block.first + block.bits ≤ 65536 }
    requires bound { n < 2 ^ block.bits }
    requires room { done + 3 ≤ length handles.old }
    requires roots { AllValid store.old.table (take done handles.old) }
    requires child { Contains (take done handles.old) f }
    requires memory { Contains (take done handles.old) m }
    requires before { LevelsBelow block.first (tree_of store.old.table f) }
    requires ages { HasAgesTo block.first block.bits n (tree_of store.old.table m) }
    ensures made { let a = age_drop block.first block.bits delta n (tree_of store.old.table m) in
        let c = applied AndNot a (tree_of store.old.table f) in let z = stamp block.first block.bits (tree_of store.old.table f) in let e = applied Or c z in
        MakesUpdate (once_at_most a c z e (any_time block.first block.bits e)) (take done handles.old) store.old.table store.new.table result }
    ensures roots { take done handles.new ≡ take done handles.old }
    ensures count { length handles.new ≡ length handles.old }
    ensures cost { IsLarge store.old → steps.new ≤ steps.old + 5 * (6 * handle_pairs store.old.table) }
    ensures entries { store.new.memo.entries ≡ store.old.memo.entries }
{
    match drop_row(store, block, m, delta, n, handles, done, steps) {
        Ok(a) => without_rows(store, block, f, a, handles, done, 2, steps),
        Err(full) => Err(full),
    }
}

/// The rows of f S[<=n] g behind the first one, which made the letter a.
fn since_after_drop<L: Ledger>(
    store: &mut Store,
    block: Block,
    f: Handle,
    g: Handle,
    a: Handle,
    handles: &mut [Handle],
    done: usize,
    steps: &mut Steps<L>,
) -> Result<Updated, RowFull>
    requires width { block.bits ≤ 20 }
    requires block { block.first + block.bits ≤ 65536 }
    requires room { done + 3 ≤ length handles.old }
    requires roots { AllValid store.old.table (take done handles.old) }
    requires left { Contains (take done handles.old) f }
    requires right { Contains (take done handles.old) g }
    requires before_left { LevelsBelow block.first (tree_of store.old.table f) }
    requires before_right { LevelsBelow block.first (tree_of store.old.table g) }
    requires letter { IsValid store.old.table a }
    requires ages { IsAgeTree block.first block.bits (tree_of store.old.table a) }
    ensures made { EndsRows 2 (since_rows block.first block.bits (tree_of store.old.table a) (tree_of store.old.table f) (tree_of store.old.table g)) (any_time block.first block.bits (since_ages block.first block.bits (tree_of store.old.table a) (tree_of store.old.table f) (tree_of store.old.table g))) (since_ages block.first block.bits (tree_of store.old.table a) (tree_of store.old.table f) (tree_of store.old.table g)) (take done handles.old) store.old.table store.new.table result }
    ensures roots { take done handles.new ≡ take done handles.old }
    ensures count { length handles.new ≡ length handles.old }
    ensures cost { IsLarge store.old → steps.new ≤ steps.old + 5 * (6 * handle_pairs store.old.table) }
    ensures entries { store.new.memo.entries ≡ store.old.memo.entries }
{
    let _held = store.live();
    let letters = [a];
    match operate_row(store, Op::And, f, a, handles, done, &letters, 2, steps) {
        Ok(b) => without_rows(store, block, g, b, handles, done, 3, steps),
        Err(full) => Err(full),
    }
}

/// The rows of f S[<=n] g: ages at most n that are later by delta, those where f holds, and then those of P[<=n] g behind
/// its first. What it remembered has ages at most n.
pub fn since_at_most_rows<L: Ledger>(
    store: &mut Store,
    block: Block,
    n: u32,
    delta: u64,
    f: Handle,
    g: Handle,
    m: Handle,
    handles: &mut [Handle],
    done: usize,
    steps: &mut Steps<L>,
) -> Result<Updated, RowFull>
    requires width { block.bits ≤ 20 }
    requires block { block.first + block.bits ≤ 65536 }
    requires bound { n < 2 ^ block.bits }
    requires room { done + 3 ≤ length handles.old }
    requires roots { AllValid store.old.table (take done handles.old) }
    requires left { Contains (take done handles.old) f }
    requires right { Contains (take done handles.old) g }
    requires memory { Contains (take done handles.old) m }
    requires before_left { LevelsBelow block.first (tree_of store.old.table f) }
    requires before_right { LevelsBelow block.first (tree_of store.old.table g) }
    requires ages { HasAgesTo block.first block.bits n (tree_of store.old.table m) }
    ensures made { let a = age_drop block.first block.bits delta n (tree_of store.old.table m) in
        let b = applied And (tree_of store.old.table f) a in
        let c = applied AndNot b (tree_of store.old.table g) in let z = stamp block.first block.bits (tree_of store.old.table g) in let e = applied Or c z in
        MakesUpdate (since_at_most a b c z e (any_time block.first block.bits e)) (take done handles.old) store.old.table store.new.table result }
    ensures roots { take done handles.new ≡ take done handles.old }
    ensures count { length handles.new ≡ length handles.old }
    ensures cost { IsLarge store.old → steps.new ≤ steps.old + 6 * (6 * handle_pairs store.old.table) }
    ensures entries { store.new.memo.entries ≡ store.old.memo.entries }
{
    match drop_row(store, block, m, delta, n, handles, done, steps) {
        Ok(a) => since_after_drop(store, block, f, g, a, handles, done, steps),
        Err(full) => Err(full),
    }
}
