//! What is done with a set of pairs: a diagram over two blocks of 16 levels.

ghost use Rattle.std.specs.Prelude.{◌≡◌, IfOk};
ghost use Rattle.node_table.specs.Table.{IsValid};

use crate::codes::{first_bits, second_bits};
use bdd_ops::{NodesFull, Op, Store, apply, cube};
use mon_base::Steps;
use node_table::{Block, Handle};
use quantify::quantify_block;
use std::sync::ledger::Ledger;

/// The pair alone: the conjunction of the cubes of both codes.
fn pair_cube<L: Ledger>(
    store: &mut Store,
    set: Handle,
    pair: u32,
    steps: &mut Steps<L>,
) -> Result<Handle, NodesFull>
    requires set { IsValid store.old.table set }
    ensures set { IfOk result (λ _. IsValid store.new.table set) }
    ensures pair { IfOk result (λ h. IsValid store.new.table h) }
{
    let first = cube(store, &first_bits(pair), &[set], steps)?;
    let second = cube(store, &second_bits(pair), &[set, first], steps)?;
    apply(store, Op::And, first, second, &[set], steps)
}

/// A set and a pair combined: by `Or` the pair is put into the set, by `AndNot` it is taken out.
pub fn combine<L: Ledger>(
    store: &mut Store,
    op: Op,
    set: Handle,
    pair: u32,
    steps: &mut Steps<L>,
) -> Result<Handle, NodesFull>
    requires set { IsValid store.old.table set }
    ensures { IfOk result (λ h. IsValid store.new.table h) }
{
    let alone = pair_cube(store, set, pair, steps)?;
    apply(store, op, set, alone, &[], steps)
}

/// The pairs of a set that have the first code of this one.
pub fn with_first<L: Ledger>(
    store: &mut Store,
    set: Handle,
    pair: u32,
    steps: &mut Steps<L>,
) -> Result<Handle, NodesFull>
    requires set { IsValid store.old.table set }
    ensures set { IfOk result (λ _. IsValid store.new.table set) }
{
    let first = cube(store, &first_bits(pair), &[set], steps)?;
    apply(store, Op::And, set, first, &[], steps)
}

/// The first codes of a set's pairs.
pub fn first_codes<L: Ledger>(
    store: &mut Store,
    set: Handle,
    steps: &mut Steps<L>,
) -> Result<Handle, NodesFull>
    requires set { IsValid store.old.table set }
    ensures set { IfOk result (λ _. IsValid store.new.table set) }
    ensures codes { IfOk result (λ h. IsValid store.new.table h) }
{
    let seconds = Block {
        first: 16,
        bits: 16,
    };
    match quantify_block(store, false, set, seconds, &[], steps) {
        Ok(codes) => Ok(codes),
        Err(_) => Err(NodesFull),
    }
}
