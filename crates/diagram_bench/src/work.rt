//! The work: pairs go into a set, and leave it so many rounds later.

ghost use Rattle.std.specs.Prelude.{◌≡◌, IfOk};
ghost use Rattle.node_table.specs.Table.{IsValid};

use crate::codes::Codes;
use crate::sets::{combine, first_codes, with_first};
use bdd_ops::{NodesFull, Op, Store};
use mon_base::Steps;
use node_table::Handle;
use std::alloc::Global;
use std::sync::ledger::Ledger;

const NODES: u32 = 1_048_576;

const ENTRIES: u32 = 2_097_152;

/// How many pairs go in, how many rounds each stays, each how many rounds the set's first codes are asked for, with 0 for
/// never, and the bits that pairs may have.
#[derive(Clone, Copy)]
pub struct Work {
    pub rounds: u32,
    pub window: u32,
    pub every: u32,
    pub mask: u32,
}

/// How many operations were done, how many nodes were made, and how many branches the last set and its first codes have.
/// Nodes of a round with a collection may be missing.
#[derive(Clone, Copy)]
pub struct Done {
    pub operations: u64,
    pub nodes: u64,
    pub left: u32,
    pub range: u32,
}

/// Whether something that comes each so many rounds comes at the end of this one.
fn is_due(round: u32, every: u32) -> bool {
    every != 0 && round % every == every - 1
}

/// One round: its new set. What is asked for beside is lost.
fn one_round<L: Ledger>(
    store: &mut Store,
    work: Work,
    round: u32,
    set: Handle,
    coming: &mut Codes,
    going: &mut Codes,
    operations: &mut u64,
    steps: &mut Steps<L>,
) -> Result<Handle, NodesFull>
    requires set { IsValid store.old.table set }
    ensures { IfOk result (λ h. IsValid store.new.table h) }
{
    let pair = coming.next_pair();
    let mut set = combine(store, Op::Or, set, pair, steps)?;
    *operations = operations.wrapping_add(4);
    if round >= work.window {
        set = combine(store, Op::AndNot, set, going.next_pair(), steps)?;
        *operations = operations.wrapping_add(4);
    }
    if is_due(round, 64) {
        with_first(store, set, pair, steps)?;
        *operations = operations.wrapping_add(2);
    }
    if is_due(round, work.every) {
        first_codes(store, set, steps)?;
        *operations = operations.wrapping_add(1);
    }
    Ok(set)
}

/// All rounds, and then the counts.
fn all_rounds<L: Ledger>(
    store: &mut Store,
    work: Work,
    steps: &mut Steps<L>,
) -> Result<Done, NodesFull> {
    let mut coming = Codes {
        state: 1,
        mask: work.mask,
    };
    let mut going = coming;
    let mut operations = 0;
    let mut nodes = 0u64;
    let mut set = store.table().zero();
    for round in 0..work.rounds {
        let before = store.live();
        set = one_round(
            store,
            work,
            round,
            set,
            &mut coming,
            &mut going,
            &mut operations,
            steps,
        )?;
        nodes = nodes.wrapping_add(store.live().saturating_sub(before) as u64);
    }
    store.tidy(&[set], &[]);
    let left = store.live();
    let codes = first_codes(store, set, steps)?;
    store.tidy(&[codes], &[]);
    Ok(Done {
        operations,
        nodes,
        left,
        range: store.live(),
    })
}

/// The work over a store of its own. There is none where memory or nodes don't do.
pub fn run<L: Ledger>(alloc: Global, work: Work, steps: &mut Steps<L>) -> Option<Done> {
    let mut store = Store::open(alloc, NODES, ENTRIES).ok()?;
    all_rounds(&mut store, work, steps).ok()
}
