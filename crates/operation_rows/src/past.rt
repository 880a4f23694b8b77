//! The rows of the timed operators past a bound.

ghost use Rattle.std.specs.Prelude.{◌≡◌, ◌+◌, ◌*◌, ◌^◌, ◌≤◌, ◌<◌, [], length, take};
ghost use Rattle.std.specs.List.{Contains};
ghost use Rattle.node_tree.specs.Levels.{LevelsBelow};
ghost use Rattle.node_table.specs.Table.{tree_of, IsValid};
ghost use Rattle.node_table.specs.Collects.{AllValid};
ghost use Rattle.bdd_ops.specs.declared.op.Op.TheVariants.{And, Or, AndNot};
ghost use Rattle.bdd_ops.specs.Shelf.{handle_pairs, IsLarge};
ghost use Rattle.timed_bits.specs.Ages.{HasAgesTo};
ghost use Rattle.timed_bits.specs.Changes.{age_cap, any_time, at_time, stamp};
ghost use Rattle.timed_bits.specs.Entries.{IsAgeTree};
ghost use Rattle.operation_rows.specs.Kinds.{applied, since_more_than, once_more_than};
ghost use Rattle.operation_rows.specs.Lines.{MakesRow, EndsRows, IsKept};
ghost use Rattle.operation_rows.specs.Past.{past_last, past_joined, past_stamped, past_elsewhere, past_rows, past_ages, past_since, past_since_ages};
ghost use Rattle.operation_rows.specs.Rows.{MakesUpdate};

use crate::rows::RowFull;
use crate::timed::{any_row, keep, operate_row, stamp_row};
use crate::updated::Updated;
use bdd_ops::{NodesFull, Op, Store};
use mon_base::Steps;
use node_table::{Block, Handle};
use std::sync::ledger::Ledger;
use timed_bits::{age_cap, at_time};

/// The first row, which caps ages.
pub(crate) fn cap_row<L: Ledger>(
    store: &mut Store,
    block: Block,
    h: Handle,
    delta: u64,
    cap: u32,
    handles: &[Handle],
    done: usize,
    steps: &mut Steps<L>,
) -> Result<Handle, RowFull>
    requires width { block.bits ≤ 20 }
    requires block { block.first + block.bits ≤ 65536 }
    requires bound { cap < 2 ^ block.bits }
    requires room { done ≤ length handles.now }
    requires roots { AllValid store.old.table (take done handles.now) }
    requires operand { IsKept (take done handles.now) [] h }
    requires ages { HasAgesTo block.first block.bits cap (tree_of store.old.table h) }
    ensures row { MakesRow 1 (age_cap block.first block.bits delta cap (tree_of store.old.table h)) (take done handles.now) [] store.old.table store.new.table result }
    ensures cost { IsLarge store.old → steps.new ≤ steps.old + 6 * handle_pairs store.old.table }
    ensures entries { store.new.memo.entries ≡ store.old.memo.entries }
{
    match age_cap(store, block, h, delta, cap, &handles[..done], steps) {
        Ok(made) => Ok(made),
        Err(NodesFull) => Err(RowFull { row: 1 }),
    }
}

/// A row that tells where a letter has this age.
fn at_row<L: Ledger>(
    store: &mut Store,
    block: Block,
    h: Handle,
    age: u32,
    handles: &mut [Handle],
    done: usize,
    letters: &[Handle],
    number: u32,
    steps: &mut Steps<L>,
) -> Result<Handle, RowFull>
    requires width { block.bits ≤ 20 }
    requires block { block.first + block.bits ≤ 65536 }
    requires room { done + length letters.now ≤ length handles.old }
    requires roots { AllValid store.old.table (take done handles.old) }
    requires letters { AllValid store.old.table letters.now }
    requires operand { IsKept (take done handles.old) letters.now h }
    requires ages { IsAgeTree block.first block.bits (tree_of store.old.table h) }
    ensures row { MakesRow number (at_time block.first block.bits age (tree_of store.old.table h)) (take done handles.old) letters.now store.old.table store.new.table result }
    ensures roots { take done handles.new ≡ take done handles.old }
    ensures count { length handles.new ≡ length handles.old }
    ensures cost { IsLarge store.old → steps.new ≤ steps.old + 6 * handle_pairs store.old.table }
    ensures entries { store.new.memo.entries ≡ store.old.memo.entries }
{
    let end = keep(handles, done, letters);
    match at_time(store, block, h, age, &handles[..end], steps) {
        Ok(made) => Ok(made),
        Err(NodesFull) => Err(RowFull { row: number }),
    }
}

/// The last row: where the age is past the bound.
fn past_last_row<L: Ledger>(
    store: &mut Store,
    block: Block,
    e: Handle,
    past: u32,
    handles: &mut [Handle],
    done: usize,
    number: u32,
    steps: &mut Steps<L>,
) -> Result<Updated, RowFull>
    requires width { block.bits ≤ 20 }
    requires block { block.first + block.bits ≤ 65536 }
    requires room { done + 3 ≤ length handles.old }
    requires roots { AllValid store.old.table (take done handles.old) }
    requires letter { IsValid store.old.table e }
    requires ages { IsAgeTree block.first block.bits (tree_of store.old.table e) }
    ensures made { EndsRows number (past_last block.first block.bits past (tree_of store.old.table e)) (at_time block.first block.bits past ((tree_of store.old.table e))) ((tree_of store.old.table e)) (take done handles.old) store.old.table store.new.table result }
    ensures roots { take done handles.new ≡ take done handles.old }
    ensures count { length handles.new ≡ length handles.old }
    ensures cost { IsLarge store.old → steps.new ≤ steps.old + 6 * handle_pairs store.old.table }
    ensures entries { store.new.memo.entries ≡ store.old.memo.entries }
{
    let letters = [e];
    match at_row(
        store, block, e, past, handles, done, &letters, number, steps,
    ) {
        Ok(now) => Ok(Updated { now, next: e }),
        Err(full) => Err(full),
    }
}

/// The last two rows: the ages that were kept or the new ones, and where they are past the bound.
fn past_joined_rows<L: Ledger>(
    store: &mut Store,
    block: Block,
    a: Handle,
    z: Handle,
    past: u32,
    handles: &mut [Handle],
    done: usize,
    number: u32,
    steps: &mut Steps<L>,
) -> Result<Updated, RowFull>
    requires width { block.bits ≤ 20 }
    requires block { block.first + block.bits ≤ 65536 }
    requires room { done + 3 ≤ length handles.old }
    requires few { number ≤ 8 }
    requires roots { AllValid store.old.table (take done handles.old) }
    requires kept { IsValid store.old.table a }
    requires new { IsValid store.old.table z }
    requires ages { IsAgeTree block.first block.bits (applied Or (tree_of store.old.table a) (tree_of store.old.table z)) }
    ensures made { EndsRows number (past_joined block.first block.bits past (tree_of store.old.table a) (tree_of store.old.table z)) (at_time block.first block.bits past (applied Or (tree_of store.old.table a) (tree_of store.old.table z))) (applied Or (tree_of store.old.table a) (tree_of store.old.table z)) (take done handles.old) store.old.table store.new.table result }
    ensures roots { take done handles.new ≡ take done handles.old }
    ensures count { length handles.new ≡ length handles.old }
    ensures cost { IsLarge store.old → steps.new ≤ steps.old + 2 * (6 * handle_pairs store.old.table) }
    ensures entries { store.new.memo.entries ≡ store.old.memo.entries }
{
    let letters = [a, z];
    match operate_row(store, Op::Or, a, z, handles, done, &letters, number, steps) {
        Ok(e) => past_last_row(store, block, e, past, handles, done, number + 1, steps),
        Err(full) => Err(full),
    }
}

/// The last three rows: the stamp of w, and then those two.
pub(crate) fn past_stamped_rows<L: Ledger>(
    store: &mut Store,
    block: Block,
    a: Handle,
    w: Handle,
    past: u32,
    handles: &mut [Handle],
    done: usize,
    number: u32,
    steps: &mut Steps<L>,
) -> Result<Updated, RowFull>
    requires width { block.bits ≤ 20 }
    requires block { block.first + block.bits ≤ 65536 }
    requires room { done + 3 ≤ length handles.old }
    requires few { number ≤ 7 }
    requires roots { AllValid store.old.table (take done handles.old) }
    requires kept { IsValid store.old.table a }
    requires new { IsValid store.old.table w }
    requires before { LevelsBelow block.first (tree_of store.old.table w) }
    requires ages { IsAgeTree block.first block.bits (applied Or (tree_of store.old.table a) (stamp block.first block.bits (tree_of store.old.table w))) }
    ensures made { EndsRows number (past_stamped block.first block.bits past (tree_of store.old.table a) (tree_of store.old.table w)) (at_time block.first block.bits past (applied Or (tree_of store.old.table a) (stamp block.first block.bits (tree_of store.old.table w)))) (applied Or (tree_of store.old.table a) (stamp block.first block.bits (tree_of store.old.table w))) (take done handles.old) store.old.table store.new.table result }
    ensures roots { take done handles.new ≡ take done handles.old }
    ensures count { length handles.new ≡ length handles.old }
    ensures cost { IsLarge store.old → steps.new ≤ steps.old + 3 * (6 * handle_pairs store.old.table) }
    ensures entries { store.new.memo.entries ≡ store.old.memo.entries }
{
    let letters = [a, w];
    match stamp_row(store, block, w, handles, done, &letters, number, steps) {
        Ok(z) => past_joined_rows(store, block, a, z, past, handles, done, number + 1, steps),
        Err(full) => Err(full),
    }
}

/// The last four rows: g where there is no age, and then those three.
fn past_elsewhere_rows<L: Ledger>(
    store: &mut Store,
    block: Block,
    g: Handle,
    a: Handle,
    y: Handle,
    past: u32,
    handles: &mut [Handle],
    done: usize,
    number: u32,
    steps: &mut Steps<L>,
) -> Result<Updated, RowFull>
    requires width { block.bits ≤ 20 }
    requires block { block.first + block.bits ≤ 65536 }
    requires room { done + 3 ≤ length handles.old }
    requires few { number ≤ 6 }
    requires roots { AllValid store.old.table (take done handles.old) }
    requires child { Contains (take done handles.old) g }
    requires kept { IsValid store.old.table a }
    requires new { IsValid store.old.table y }
    requires before { LevelsBelow block.first (applied AndNot (tree_of store.old.table g) (tree_of store.old.table y)) }
    requires ages { IsAgeTree block.first block.bits (applied Or (tree_of store.old.table a) (stamp block.first block.bits (applied AndNot (tree_of store.old.table g) (tree_of store.old.table y)))) }
    ensures made { EndsRows number (past_elsewhere block.first block.bits past (tree_of store.old.table g) (tree_of store.old.table a) (tree_of store.old.table y)) (at_time block.first block.bits past (applied Or (tree_of store.old.table a) (stamp block.first block.bits (applied AndNot (tree_of store.old.table g) (tree_of store.old.table y))))) (applied Or (tree_of store.old.table a) (stamp block.first block.bits (applied AndNot (tree_of store.old.table g) (tree_of store.old.table y)))) (take done handles.old) store.old.table store.new.table result }
    ensures roots { take done handles.new ≡ take done handles.old }
    ensures count { length handles.new ≡ length handles.old }
    ensures cost { IsLarge store.old → steps.new ≤ steps.old + 4 * (6 * handle_pairs store.old.table) }
    ensures entries { store.new.memo.entries ≡ store.old.memo.entries }
{
    let letters = [a, y];
    match operate_row(
        store,
        Op::AndNot,
        g,
        y,
        handles,
        done,
        &letters,
        number,
        steps,
    ) {
        Ok(w) => past_stamped_rows(store, block, a, w, past, handles, done, number + 1, steps),
        Err(full) => Err(full),
    }
}

/// The last five rows: where there is an age, and then those four.
fn past_all_rows<L: Ledger>(
    store: &mut Store,
    block: Block,
    g: Handle,
    a: Handle,
    past: u32,
    handles: &mut [Handle],
    done: usize,
    number: u32,
    steps: &mut Steps<L>,
) -> Result<Updated, RowFull>
    requires width { block.bits ≤ 20 }
    requires block { block.first + block.bits ≤ 65536 }
    requires room { done + 3 ≤ length handles.old }
    requires few { number ≤ 5 }
    requires roots { AllValid store.old.table (take done handles.old) }
    requires child { Contains (take done handles.old) g }
    requires before { LevelsBelow block.first (tree_of store.old.table g) }
    requires letter { IsValid store.old.table a }
    requires ages { IsAgeTree block.first block.bits (tree_of store.old.table a) }
    ensures made { EndsRows number (past_rows block.first block.bits past (tree_of store.old.table g) (tree_of store.old.table a)) (at_time block.first block.bits past (past_ages block.first block.bits (tree_of store.old.table g) (tree_of store.old.table a))) (past_ages block.first block.bits (tree_of store.old.table g) (tree_of store.old.table a)) (take done handles.old) store.old.table store.new.table result }
    ensures roots { take done handles.new ≡ take done handles.old }
    ensures count { length handles.new ≡ length handles.old }
    ensures cost { IsLarge store.old → steps.new ≤ steps.old + 5 * (6 * handle_pairs store.old.table) }
    ensures entries { store.new.memo.entries ≡ store.old.memo.entries }
{
    let _held = store.live();
    let letters = [a];
    match any_row(store, block, a, handles, done, &letters, number, steps) {
        Ok(y) => past_elsewhere_rows(
            store,
            block,
            g,
            a,
            y,
            past,
            handles,
            done,
            number + 1,
            steps,
        ),
        Err(full) => Err(full),
    }
}

/// The rows of P[>n] f: ages at most n + 1 that are later by delta, where there is one, f elsewhere, its stamp, both, and
/// where the age is n + 1. What it remembered has ages at most n + 1.
pub fn once_more_than_rows<L: Ledger>(
    store: &mut Store,
    block: Block,
    n: u32,
    delta: u64,
    f: Handle,
    m: Handle,
    handles: &mut [Handle],
    done: usize,
    steps: &mut Steps<L>,
) -> Result<Updated, RowFull>
    requires width { block.bits ≤ 20 }
    requires block { block.first + block.bits ≤ 65536 }
    requires room { done + 3 ≤ length handles.old }
    requires bound { n + 1 < 2 ^ block.bits }
    requires roots { AllValid store.old.table (take done handles.old) }
    requires child { Contains (take done handles.old) f }
    requires memory { Contains (take done handles.old) m }
    requires before { LevelsBelow block.first (tree_of store.old.table f) }
    requires ages { HasAgesTo block.first block.bits (n + 1) (tree_of store.old.table m) }
    ensures made { let a = age_cap block.first block.bits delta (n + 1) (tree_of store.old.table m) in let y = any_time block.first block.bits a in
        let w = applied AndNot (tree_of store.old.table f) y in let z = stamp block.first block.bits w in let e = applied Or a z in
        MakesUpdate (once_more_than a y w z e (at_time block.first block.bits (n + 1) e)) (take done handles.old) store.old.table store.new.table result }
    ensures roots { take done handles.new ≡ take done handles.old }
    ensures count { length handles.new ≡ length handles.old }
    ensures cost { IsLarge store.old → steps.new ≤ steps.old + 6 * (6 * handle_pairs store.old.table) }
    ensures entries { store.new.memo.entries ≡ store.old.memo.entries }
{
    match cap_row(store, block, m, delta, n + 1, handles, done, steps) {
        Ok(a) => past_all_rows(store, block, f, a, n + 1, handles, done, 2, steps),
        Err(full) => Err(full),
    }
}

/// The rows of f S[>n] g behind the first one, which made the letter c.
fn since_after_cap<L: Ledger>(
    store: &mut Store,
    block: Block,
    f: Handle,
    g: Handle,
    c: Handle,
    past: u32,
    handles: &mut [Handle],
    done: usize,
    steps: &mut Steps<L>,
) -> Result<Updated, RowFull>
    requires width { block.bits ≤ 20 }
    requires block { block.first + block.bits ≤ 65536 }
    requires room { done + 3 ≤ length handles.old }
    requires roots { AllValid store.old.table (take done handles.old) }
    requires left { Contains (take done handles.old) f }
    requires right { Contains (take done handles.old) g }
    requires before_left { LevelsBelow block.first (tree_of store.old.table f) }
    requires before_right { LevelsBelow block.first (tree_of store.old.table g) }
    requires letter { IsValid store.old.table c }
    requires ages { IsAgeTree block.first block.bits (tree_of store.old.table c) }
    ensures made { EndsRows 2 (past_since block.first block.bits past (tree_of store.old.table c) (tree_of store.old.table f) (tree_of store.old.table g)) (at_time block.first block.bits past (past_since_ages block.first block.bits (tree_of store.old.table c) (tree_of store.old.table f) (tree_of store.old.table g))) (past_since_ages block.first block.bits (tree_of store.old.table c) (tree_of store.old.table f) (tree_of store.old.table g)) (take done handles.old) store.old.table store.new.table result }
    ensures roots { take done handles.new ≡ take done handles.old }
    ensures count { length handles.new ≡ length handles.old }
    ensures cost { IsLarge store.old → steps.new ≤ steps.old + 6 * (6 * handle_pairs store.old.table) }
    ensures entries { store.new.memo.entries ≡ store.old.memo.entries }
{
    let _held = store.live();
    let letters = [c];
    match operate_row(store, Op::And, f, c, handles, done, &letters, 2, steps) {
        Ok(a) => past_all_rows(store, block, g, a, past, handles, done, 3, steps),
        Err(full) => Err(full),
    }
}

/// The rows of f S[>n] g: ages at most n + 1 that are later by delta, those where f holds, and then those of P[>n] g behind
/// its first. What it remembered has ages at most n + 1.
pub fn since_more_than_rows<L: Ledger>(
    store: &mut Store,
    block: Block,
    n: u32,
    delta: u64,
    f: Handle,
    g: Handle,
    m: Handle,
    handles: &mut [Handle],
    done: usize,
    steps: &mut Steps<L>,
) -> Result<Updated, RowFull>
    requires width { block.bits ≤ 20 }
    requires block { block.first + block.bits ≤ 65536 }
    requires room { done + 3 ≤ length handles.old }
    requires bound { n + 1 < 2 ^ block.bits }
    requires roots { AllValid store.old.table (take done handles.old) }
    requires left { Contains (take done handles.old) f }
    requires right { Contains (take done handles.old) g }
    requires memory { Contains (take done handles.old) m }
    requires before_left { LevelsBelow block.first (tree_of store.old.table f) }
    requires before_right { LevelsBelow block.first (tree_of store.old.table g) }
    requires ages { HasAgesTo block.first block.bits (n + 1) (tree_of store.old.table m) }
    ensures made { let c = age_cap block.first block.bits delta (n + 1) (tree_of store.old.table m) in let a = applied And (tree_of store.old.table f) c in let y = any_time block.first block.bits a in
        let w = applied AndNot (tree_of store.old.table g) y in let z = stamp block.first block.bits w in let e = applied Or a z in
        MakesUpdate (since_more_than c a y w z e (at_time block.first block.bits (n + 1) e)) (take done handles.old) store.old.table store.new.table result }
    ensures roots { take done handles.new ≡ take done handles.old }
    ensures count { length handles.new ≡ length handles.old }
    ensures cost { IsLarge store.old → steps.new ≤ steps.old + 7 * (6 * handle_pairs store.old.table) }
    ensures entries { store.new.memo.entries ≡ store.old.memo.entries }
{
    match cap_row(store, block, m, delta, n + 1, handles, done, steps) {
        Ok(c) => since_after_cap(store, block, f, g, c, n + 1, handles, done, steps),
        Err(full) => Err(full),
    }
}
