//! Ages over one bit before a block of two, worked out by hand.

ghost use Rattle.std.specs.Prelude.{◌≡◌, ℕ, ◌<◌, ◌≤◌, IfOk};
ghost use Rattle.node_table.specs.Table.{tree_of, IsValid};
ghost use Rattle.timed_bits.specs.Ages.{HasAgesTo};

use crate::{age_cap, age_drop, stamp};
use bdd_ops::{Literal, NodesFull, Store, cube, eval};
use mon_base::{NoMemory, Steps};
use node_table::{Block, Handle};
use std::alloc::Global;
use std::marker::Brand;
use std::sync::ledger::{Blank, Ledger};
use std::test::Fail;

/// Age 0 where the bit before the block is true, else none.
fn stamped_bit<L: Ledger>(store: &mut Store, steps: &mut Steps<L>) -> Result<Handle, NodesFull>
    ensures valid { IfOk result (λ h. IsValid store.new.table h) }
    ensures ages { IfOk result (λ h. (most : ℕ) → HasAgesTo 1 2 most (tree_of store.new.table h)) }
{
    let literals = [Literal {
        level: 0,
        bit: true,
    }];
    let f = cube(store, &literals, &[], steps)?;
    stamp(store, Block { first: 1, bits: 2 }, f, &[], steps)
}

/// Ages that are later by delta: of at most 3, or where they are capped at most 2.
fn later<L: Ledger>(
    store: &mut Store,
    h: Handle,
    delta: u64,
    capped: bool,
    steps: &mut Steps<L>,
) -> Result<Handle, NodesFull>
    requires valid { IsValid store.old.table h }
    requires two { HasAgesTo 1 2 2 (tree_of store.old.table h) }
    requires three { HasAgesTo 1 2 3 (tree_of store.old.table h) }
    ensures valid { IfOk result (λ k. IsValid store.new.table k) }
{
    let block = Block { first: 1, bits: 2 };
    if capped {
        return age_cap(store, block, h, delta, 2, &[], steps);
    }
    age_drop(store, block, h, delta, 3, &[], steps)
}

/// The age where the bit before the block is true.
fn age_there<L: Ledger>(store: &Store, h: Handle, steps: &mut Steps<L>) -> Option<u32>
    requires { IsValid store.now.table h }
{
    let table = store.table();
    if eval(table, h, &[true, false, false], steps) {
        return Some(0);
    }
    if eval(table, h, &[true, false, true], steps) {
        return Some(1);
    }
    if eval(table, h, &[true, true, false], steps) {
        return Some(2);
    }
    if eval(table, h, &[true, true, true], steps) {
        return Some(3);
    }
    None
}

/// What comes of age 0 after delta, in a table of so many nodes.
fn aged<L: Ledger>(
    alloc: Global,
    nodes: u32,
    delta: u64,
    capped: bool,
    blank: Blank,
) -> Result<Option<Result<Option<u32>, NodesFull>>, NoMemory>
    requires two { 2 ≤ nodes }
    requires bound { nodes ≤ 4194304 }
    requires name { blank.name ≡ L.name }
    requires parts { blank.parts ≡ L.parts }
    requires some { 0 < L.parts }
{
    let mut steps = Steps::<L>::new(blank);
    let mut store = Store::open(alloc, nodes, 16)?;
    let Ok(h) = stamped_bit(&mut store, &mut steps) else {
        return Ok(None);
    };
    match later(&mut store, h, delta, capped, &mut steps) {
        Ok(made) => Ok(Some(Ok(age_there(&store, made, &mut steps)))),
        Err(full) => Ok(Some(Err(full))),
    }
}

/// The stamp has three nodes, and so has each other age, but age 2 shares one with it.
const AGES: [(u32, u64, bool, Result<Option<u32>, NodesFull>); 9] = [
    (4, 0, false, Ok(Some(0))),
    (5, 1, false, Err(NodesFull)),
    (6, 1, false, Ok(Some(1))),
    (5, 2, false, Ok(Some(2))),
    (6, 3, false, Ok(Some(3))),
    (4, 4, false, Ok(None)),
    (6, 1, true, Ok(Some(1))),
    (4, 2, true, Err(NodesFull)),
    (5, 1000000000000, true, Ok(Some(2))),
];

#[test]
fn ages_that_are_later(rt: HostRuntime) -> Result<(), Fail> {
    for (nodes, delta, capped, expected) in AGES {
        assert_eq!(rt;
            aged::<Brand>(rt.alloc(), nodes, delta, capped, Blank::new(1))?,
            Some(expected),
            "{nodes} {delta} {capped}"
        );
    }
    Ok(())
}
