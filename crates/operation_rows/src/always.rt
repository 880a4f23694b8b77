//! The rows of always with a bound: those of once for the negation of its operand, and the negation of their tree.

ghost use Rattle.std.specs.Prelude.{◌≡◌, ◌+◌, ◌*◌, ◌^◌, ◌≤◌, ◌<◌, ◌∷◌, [], length, take, not};
ghost use Rattle.std.specs.List.{Contains};
ghost use Rattle.node_tree.specs.Levels.{LevelsBelow};
ghost use Rattle.node_table.specs.Table.{tree_of, IsValid};
ghost use Rattle.node_table.specs.Collects.{AllValid};
ghost use Rattle.bdd_ops.specs.declared.op.Op.TheVariants.{And, Or, AndNot};
ghost use Rattle.bdd_ops.specs.Apply.{map_leaves};
ghost use Rattle.bdd_ops.specs.Shelf.{handle_pairs, IsLarge};
ghost use Rattle.timed_bits.specs.Ages.{HasAgesTo};
ghost use Rattle.timed_bits.specs.Changes.{age_drop, age_cap, any_time, at_time, stamp};
ghost use Rattle.timed_bits.specs.Entries.{IsAgeTree};
ghost use Rattle.operation_rows.specs.Kinds.{applied, always_at_most, always_more_than};
ghost use Rattle.operation_rows.specs.Lines.{MakesRow, IsKept};
ghost use Rattle.operation_rows.specs.Always.{EndsNegated, EndsWithin, EndsPast, fresh_ages, fresh_rows, not_rows, within_ages, within_rows, lacking_ages, lacking_rows, past_not_rows, past_never_ages, past_never_rows};
ghost use Rattle.operation_rows.specs.Rows.{MakesUpdate, row, timed};

use crate::past::{cap_row, past_stamped_rows};
use crate::rows::{RowFull, operate};
use crate::timed::{any_row, drop_row, joined_rows, keep, operate_row, stamp_row};
use crate::updated::Updated;
use bdd_ops::{NodesFull, Op, Store};
use mon_base::Steps;
use node_table::{Block, Handle};
use std::sync::ledger::Ledger;

/// A row that negates a root or a letter.
fn negation_row<L: Ledger>(
    store: &mut Store,
    h: Handle,
    handles: &mut [Handle],
    done: usize,
    letters: &[Handle],
    number: u32,
    steps: &mut Steps<L>,
) -> Result<Handle, RowFull>
    requires room { done + length letters.now ≤ length handles.old }
    requires roots { AllValid store.old.table (take done handles.old) }
    requires letters { AllValid store.old.table letters.now }
    requires operand { IsKept (take done handles.old) letters.now h }
    ensures row { MakesRow number (map_leaves not (tree_of store.old.table h)) (take done handles.old) letters.now
        store.old.table store.new.table result }
    ensures roots { take done handles.new ≡ take done handles.old }
    ensures count { length handles.new ≡ length handles.old }
    ensures cost { IsLarge store.old → steps.new ≤ steps.old + 6 * handle_pairs store.old.table }
    ensures entries { store.new.memo.entries ≡ store.old.memo.entries }
{
    let end = keep(handles, done, letters);
    let one = store.table().one();
    match operate(store, Op::AndNot, one, h, &handles[..end], steps) {
        Ok(made) => Ok(made),
        Err(NodesFull) => Err(RowFull { row: number }),
    }
}

/// The last row of an always: not what the rows of once before it say. It remembers what they do.
fn negated_row<L: Ledger>(
    store: &mut Store,
    once: Updated,
    handles: &mut [Handle],
    done: usize,
    number: u32,
    steps: &mut Steps<L>,
) -> Result<Updated, RowFull>
    requires room { done + 3 ≤ length handles.old }
    requires roots { AllValid store.old.table (take done handles.old) }
    requires now { IsValid store.old.table once.now }
    requires next { IsValid store.old.table once.next }
    ensures made { EndsNegated number (tree_of store.old.table once.now) (tree_of store.old.table once.next)
        (take done handles.old) store.old.table store.new.table result }
    ensures roots { take done handles.new ≡ take done handles.old }
    ensures count { length handles.new ≡ length handles.old }
    ensures cost { IsLarge store.old → steps.new ≤ steps.old + 6 * handle_pairs store.old.table }
    ensures entries { store.new.memo.entries ≡ store.old.memo.entries }
{
    let letters = [once.next, once.now];
    match negation_row(store, once.now, handles, done, &letters, number, steps) {
        Ok(now) => Ok(Updated {
            now,
            next: once.next,
        }),
        Err(full) => Err(full),
    }
}

/// The rows 4 to 6 of H[<=n] f: the stamp of o beside c and o, both ages, and where they are.
fn fresh_rows<L: Ledger>(
    store: &mut Store,
    block: Block,
    c: Handle,
    o: Handle,
    handles: &mut [Handle],
    done: usize,
    steps: &mut Steps<L>,
) -> Result<Updated, RowFull>
    requires width { block.bits ≤ 20 }
    requires block { block.first + block.bits ≤ 65536 }
    requires room { done + 3 ≤ length handles.old }
    requires roots { AllValid store.old.table (take done handles.old) }
    requires kept { IsValid store.old.table c }
    requires new { IsValid store.old.table o }
    requires before { LevelsBelow block.first (tree_of store.old.table o) }
    requires ages { IsAgeTree block.first block.bits
        (fresh_ages block.first block.bits (tree_of store.old.table c) (tree_of store.old.table o)) }
    ensures made { let c = tree_of store.old.table c in let o = tree_of store.old.table o in
        EndsWithin 4 block.first block.bits (fresh_rows block.first block.bits c o) (fresh_ages block.first block.bits c o)
        (take done handles.old) store.old.table store.new.table result }
    ensures roots { take done handles.new ≡ take done handles.old }
    ensures count { length handles.new ≡ length handles.old }
    ensures cost { IsLarge store.old → steps.new ≤ steps.old + 3 * (6 * handle_pairs store.old.table) }
    ensures entries { store.new.memo.entries ≡ store.old.memo.entries }
{
    let letters = [c, o];
    match stamp_row(store, block, o, handles, done, &letters, 4, steps) {
        Ok(z) => joined_rows(store, block, c, z, handles, done, 5, steps),
        Err(full) => Err(full),
    }
}

/// The rows 3 to 6 of H[<=n] f: not f beside c, and then those.
fn not_rows<L: Ledger>(
    store: &mut Store,
    block: Block,
    c: Handle,
    f: Handle,
    handles: &mut [Handle],
    done: usize,
    steps: &mut Steps<L>,
) -> Result<Updated, RowFull>
    requires width { block.bits ≤ 20 }
    requires block { block.first + block.bits ≤ 65536 }
    requires room { done + 3 ≤ length handles.old }
    requires roots { AllValid store.old.table (take done handles.old) }
    requires kept { IsValid store.old.table c }
    requires child { Contains (take done handles.old) f }
    requires before { LevelsBelow block.first (tree_of store.old.table f) }
    requires ages { IsAgeTree block.first block.bits
        (fresh_ages block.first block.bits (tree_of store.old.table c) (map_leaves not (tree_of store.old.table f))) }
    ensures made { let c = tree_of store.old.table c in let f = tree_of store.old.table f in
        EndsWithin 3 block.first block.bits (not_rows block.first block.bits c f)
        (fresh_ages block.first block.bits c (map_leaves not f)) (take done handles.old) store.old.table store.new.table result }
    ensures roots { take done handles.new ≡ take done handles.old }
    ensures count { length handles.new ≡ length handles.old }
    ensures cost { IsLarge store.old → steps.new ≤ steps.old + 4 * (6 * handle_pairs store.old.table) }
    ensures entries { store.new.memo.entries ≡ store.old.memo.entries }
{
    let letters = [c];
    match negation_row(store, f, handles, done, &letters, 3, steps) {
        Ok(o) => fresh_rows(store, block, c, o, handles, done, steps),
        Err(full) => Err(full),
    }
}

/// The rows 2 to 6 of H[<=n] f: the ages of the letter a where f holds, and then those.
fn within_rows<L: Ledger>(
    store: &mut Store,
    block: Block,
    a: Handle,
    f: Handle,
    handles: &mut [Handle],
    done: usize,
    steps: &mut Steps<L>,
) -> Result<Updated, RowFull>
    requires width { block.bits ≤ 20 }
    requires block { block.first + block.bits ≤ 65536 }
    requires room { done + 3 ≤ length handles.old }
    requires roots { AllValid store.old.table (take done handles.old) }
    requires child { Contains (take done handles.old) f }
    requires before { LevelsBelow block.first (tree_of store.old.table f) }
    requires letter { IsValid store.old.table a }
    requires ages { IsAgeTree block.first block.bits (tree_of store.old.table a) }
    ensures made { let a = tree_of store.old.table a in let f = tree_of store.old.table f in
        EndsWithin 2 block.first block.bits (within_rows block.first block.bits a f) (within_ages block.first block.bits a f)
        (take done handles.old) store.old.table store.new.table result }
    ensures roots { take done handles.new ≡ take done handles.old }
    ensures count { length handles.new ≡ length handles.old }
    ensures cost { IsLarge store.old → steps.new ≤ steps.old + 5 * (6 * handle_pairs store.old.table) }
    ensures entries { store.new.memo.entries ≡ store.old.memo.entries }
{
    let _held = store.live();
    let letters = [a];
    match operate_row(store, Op::And, a, f, handles, done, &letters, 2, steps) {
        Ok(c) => not_rows(store, block, c, f, handles, done, steps),
        Err(full) => Err(full),
    }
}

/// The rows of H[<=n] f but the last: those of P[<=n] for not f.
fn once_not_at_most_rows<L: Ledger>(
    store: &mut Store,
    block: Block,
    n: u32,
    delta: u64,
    f: Handle,
    m: Handle,
    handles: &mut [Handle],
    done: usize,
    steps: &mut Steps<L>,
) -> Result<Updated, RowFull>
    requires width { block.bits ≤ 20 }
    requires block { block.first + block.bits ≤ 65536 }
    requires bound { n < 2 ^ block.bits }
    requires room { done + 3 ≤ length handles.old }
    requires roots { AllValid store.old.table (take done handles.old) }
    requires child { Contains (take done handles.old) f }
    requires memory { Contains (take done handles.old) m }
    requires before { LevelsBelow block.first (tree_of store.old.table f) }
    requires ages { HasAgesTo block.first block.bits n (tree_of store.old.table m) }
    ensures made { let a = age_drop block.first block.bits delta n (tree_of store.old.table m) in
        let e = within_ages block.first block.bits a (tree_of store.old.table f) in
        MakesUpdate (timed (row [] a ∷ within_rows block.first block.bits a (tree_of store.old.table f))
        (any_time block.first block.bits e) e) (take done handles.old) store.old.table store.new.table result }
    ensures roots { take done handles.new ≡ take done handles.old }
    ensures count { length handles.new ≡ length handles.old }
    ensures cost { IsLarge store.old → steps.new ≤ steps.old + 6 * (6 * handle_pairs store.old.table) }
    ensures entries { store.new.memo.entries ≡ store.old.memo.entries }
{
    match drop_row(store, block, m, delta, n, handles, done, steps) {
        Ok(a) => within_rows(store, block, a, f, handles, done, steps),
        Err(full) => Err(full),
    }
}

/// The rows of H[<=n] f: ages at most n that are later by delta, those where f holds; not f, and its stamp; both; where they
/// are, and where they aren't. What it remembered has ages at most n: those of when f last failed.
pub fn always_at_most_rows<L: Ledger>(
    store: &mut Store,
    block: Block,
    n: u32,
    delta: u64,
    f: Handle,
    m: Handle,
    handles: &mut [Handle],
    done: usize,
    steps: &mut Steps<L>,
) -> Result<Updated, RowFull>
    requires width { block.bits ≤ 20 }
    requires block { block.first + block.bits ≤ 65536 }
    requires bound { n < 2 ^ block.bits }
    requires room { done + 3 ≤ length handles.old }
    requires roots { AllValid store.old.table (take done handles.old) }
    requires child { Contains (take done handles.old) f }
    requires memory { Contains (take done handles.old) m }
    requires before { LevelsBelow block.first (tree_of store.old.table f) }
    requires ages { HasAgesTo block.first block.bits n (tree_of store.old.table m) }
    ensures made { let a = age_drop block.first block.bits delta n (tree_of store.old.table m) in
        let c = applied And a (tree_of store.old.table f) in
        let o = map_leaves not (tree_of store.old.table f) in
        let z = stamp block.first block.bits o in
        let e = applied Or c z in
        let y = any_time block.first block.bits e in
        MakesUpdate (always_at_most a c o z e y (map_leaves not y))
        (take done handles.old) store.old.table store.new.table result }
    ensures roots { take done handles.new ≡ take done handles.old }
    ensures count { length handles.new ≡ length handles.old }
    ensures cost { IsLarge store.old → steps.new ≤ steps.old + 7 * (6 * handle_pairs store.old.table) }
    ensures entries { store.new.memo.entries ≡ store.old.memo.entries }
{
    match once_not_at_most_rows(store, block, n, delta, f, m, handles, done, steps) {
        Ok(once) => negated_row(store, once, handles, done, 7, steps),
        Err(full) => Err(full),
    }
}

/// The rows 4 to 7 of H[>n] f: o where there is no age beside a, y and o, its stamp, both ages, and where they are past the
/// bound.
fn lacking_rows<L: Ledger>(
    store: &mut Store,
    block: Block,
    a: Handle,
    y: Handle,
    o: Handle,
    past: u32,
    handles: &mut [Handle],
    done: usize,
    steps: &mut Steps<L>,
) -> Result<Updated, RowFull>
    requires width { block.bits ≤ 20 }
    requires block { block.first + block.bits ≤ 65536 }
    requires room { done + 3 ≤ length handles.old }
    requires roots { AllValid store.old.table (take done handles.old) }
    requires kept { IsValid store.old.table a }
    requires there { IsValid store.old.table y }
    requires new { IsValid store.old.table o }
    requires before { LevelsBelow block.first (applied AndNot (tree_of store.old.table o) (tree_of store.old.table y)) }
    requires ages { IsAgeTree block.first block.bits (lacking_ages block.first block.bits
        (tree_of store.old.table a) (tree_of store.old.table y) (tree_of store.old.table o)) }
    ensures made { let a = tree_of store.old.table a in let y = tree_of store.old.table y in let o = tree_of store.old.table o in
        EndsPast 4 block.first block.bits past (lacking_rows block.first block.bits past a y o)
        (lacking_ages block.first block.bits a y o) (take done handles.old) store.old.table store.new.table result }
    ensures roots { take done handles.new ≡ take done handles.old }
    ensures count { length handles.new ≡ length handles.old }
    ensures cost { IsLarge store.old → steps.new ≤ steps.old + 4 * (6 * handle_pairs store.old.table) }
    ensures entries { store.new.memo.entries ≡ store.old.memo.entries }
{
    let letters = [a, y, o];
    match operate_row(store, Op::AndNot, o, y, handles, done, &letters, 4, steps) {
        Ok(w) => past_stamped_rows(store, block, a, w, past, handles, done, 5, steps),
        Err(full) => Err(full),
    }
}

/// The rows 3 to 7 of H[>n] f: not f beside a and y, and then those.
fn past_not_rows<L: Ledger>(
    store: &mut Store,
    block: Block,
    a: Handle,
    y: Handle,
    f: Handle,
    past: u32,
    handles: &mut [Handle],
    done: usize,
    steps: &mut Steps<L>,
) -> Result<Updated, RowFull>
    requires width { block.bits ≤ 20 }
    requires block { block.first + block.bits ≤ 65536 }
    requires room { done + 3 ≤ length handles.old }
    requires roots { AllValid store.old.table (take done handles.old) }
    requires kept { IsValid store.old.table a }
    requires there { IsValid store.old.table y }
    requires child { Contains (take done handles.old) f }
    requires before { LevelsBelow block.first (applied AndNot (map_leaves not (tree_of store.old.table f)) (tree_of store.old.table y)) }
    requires ages { IsAgeTree block.first block.bits (lacking_ages block.first block.bits
        (tree_of store.old.table a) (tree_of store.old.table y) (map_leaves not (tree_of store.old.table f))) }
    ensures made { let a = tree_of store.old.table a in let y = tree_of store.old.table y in let f = tree_of store.old.table f in
        EndsPast 3 block.first block.bits past (past_not_rows block.first block.bits past a y f)
        (lacking_ages block.first block.bits a y (map_leaves not f)) (take done handles.old) store.old.table store.new.table result }
    ensures roots { take done handles.new ≡ take done handles.old }
    ensures count { length handles.new ≡ length handles.old }
    ensures cost { IsLarge store.old → steps.new ≤ steps.old + 5 * (6 * handle_pairs store.old.table) }
    ensures entries { store.new.memo.entries ≡ store.old.memo.entries }
{
    let letters = [a, y];
    match negation_row(store, f, handles, done, &letters, 3, steps) {
        Ok(o) => lacking_rows(store, block, a, y, o, past, handles, done, steps),
        Err(full) => Err(full),
    }
}

/// The rows 2 to 7 of H[>n] f: where the letter a has an age, and then those.
fn past_never_rows<L: Ledger>(
    store: &mut Store,
    block: Block,
    a: Handle,
    f: Handle,
    past: u32,
    handles: &mut [Handle],
    done: usize,
    steps: &mut Steps<L>,
) -> Result<Updated, RowFull>
    requires width { block.bits ≤ 20 }
    requires block { block.first + block.bits ≤ 65536 }
    requires room { done + 3 ≤ length handles.old }
    requires roots { AllValid store.old.table (take done handles.old) }
    requires child { Contains (take done handles.old) f }
    requires before { LevelsBelow block.first (tree_of store.old.table f) }
    requires letter { IsValid store.old.table a }
    requires ages { IsAgeTree block.first block.bits (tree_of store.old.table a) }
    ensures made { let a = tree_of store.old.table a in let f = tree_of store.old.table f in
        EndsPast 2 block.first block.bits past (past_never_rows block.first block.bits past a f)
        (past_never_ages block.first block.bits a f) (take done handles.old) store.old.table store.new.table result }
    ensures roots { take done handles.new ≡ take done handles.old }
    ensures count { length handles.new ≡ length handles.old }
    ensures cost { IsLarge store.old → steps.new ≤ steps.old + 6 * (6 * handle_pairs store.old.table) }
    ensures entries { store.new.memo.entries ≡ store.old.memo.entries }
{
    let _held = store.live();
    let letters = [a];
    match any_row(store, block, a, handles, done, &letters, 2, steps) {
        Ok(y) => past_not_rows(store, block, a, y, f, past, handles, done, steps),
        Err(full) => Err(full),
    }
}

/// The rows of H[>n] f but the last: those of P[>n] for not f.
fn once_not_more_than_rows<L: Ledger>(
    store: &mut Store,
    block: Block,
    n: u32,
    delta: u64,
    f: Handle,
    m: Handle,
    handles: &mut [Handle],
    done: usize,
    steps: &mut Steps<L>,
) -> Result<Updated, RowFull>
    requires width { block.bits ≤ 20 }
    requires block { block.first + block.bits ≤ 65536 }
    requires bound { n + 1 < 2 ^ block.bits }
    requires room { done + 3 ≤ length handles.old }
    requires roots { AllValid store.old.table (take done handles.old) }
    requires child { Contains (take done handles.old) f }
    requires memory { Contains (take done handles.old) m }
    requires before { LevelsBelow block.first (tree_of store.old.table f) }
    requires ages { HasAgesTo block.first block.bits (n + 1) (tree_of store.old.table m) }
    ensures made { let a = age_cap block.first block.bits delta (n + 1) (tree_of store.old.table m) in
        let e = past_never_ages block.first block.bits a (tree_of store.old.table f) in
        MakesUpdate (timed (row [] a ∷ past_never_rows block.first block.bits (n + 1) a (tree_of store.old.table f))
        (at_time block.first block.bits (n + 1) e) e) (take done handles.old) store.old.table store.new.table result }
    ensures roots { take done handles.new ≡ take done handles.old }
    ensures count { length handles.new ≡ length handles.old }
    ensures cost { IsLarge store.old → steps.new ≤ steps.old + 7 * (6 * handle_pairs store.old.table) }
    ensures entries { store.new.memo.entries ≡ store.old.memo.entries }
{
    match cap_row(store, block, m, delta, n + 1, handles, done, steps) {
        Ok(a) => past_never_rows(store, block, a, f, n + 1, handles, done, steps),
        Err(full) => Err(full),
    }
}

/// The rows of H[>n] f: ages at most n + 1 that are later by delta, where there is one, not f, that elsewhere, its stamp,
/// both, where the age is n + 1, and where it isn't. What it remembered has ages at most n + 1: those of when f first failed.
pub fn always_more_than_rows<L: Ledger>(
    store: &mut Store,
    block: Block,
    n: u32,
    delta: u64,
    f: Handle,
    m: Handle,
    handles: &mut [Handle],
    done: usize,
    steps: &mut Steps<L>,
) -> Result<Updated, RowFull>
    requires width { block.bits ≤ 20 }
    requires block { block.first + block.bits ≤ 65536 }
    requires bound { n + 1 < 2 ^ block.bits }
    requires room { done + 3 ≤ length handles.old }
    requires roots { AllValid store.old.table (take done handles.old) }
    requires child { Contains (take done handles.old) f }
    requires memory { Contains (take done handles.old) m }
    requires before { LevelsBelow block.first (tree_of store.old.table f) }
    requires ages { HasAgesTo block.first block.bits (n + 1) (tree_of store.old.table m) }
    ensures made { let a = age_cap block.first block.bits delta (n + 1) (tree_of store.old.table m) in
        let y = any_time block.first block.bits a in
        let o = map_leaves not (tree_of store.old.table f) in
        let w = applied AndNot o y in
        let z = stamp block.first block.bits w in
        let e = applied Or a z in
        let v = at_time block.first block.bits (n + 1) e in
        MakesUpdate (always_more_than a y o w z e v (map_leaves not v))
        (take done handles.old) store.old.table store.new.table result }
    ensures roots { take done handles.new ≡ take done handles.old }
    ensures count { length handles.new ≡ length handles.old }
    ensures cost { IsLarge store.old → steps.new ≤ steps.old + 8 * (6 * handle_pairs store.old.table) }
    ensures entries { store.new.memo.entries ≡ store.old.memo.entries }
{
    match once_not_more_than_rows(store, block, n, delta, f, m, handles, done, steps) {
        Ok(once) => negated_row(store, once, handles, done, 8, steps),
        Err(full) => Err(full),
    }
}
