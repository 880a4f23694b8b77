//! Small tables worked out by hand, and the operations beside their truth tables.

ghost use Rattle.std.specs.Prelude.{◌≡◌, ◌<◌};

use crate::{
    BlockCode, Literal, NodesFull, Op, Store, apply, code_cube, cube, eval, not, restrict,
};
use mon_base::{NoMemory, Steps};
use node_table::{Block, Handle};
use std::alloc::Global;
use std::marker::Brand;
use std::sync::ledger::{Blank, Ledger};
use std::test::Fail;

fn at(level: u16, bit: bool) -> Literal
    ensures { result ≡ record { level = level; bit = bit } }
{
    Literal { level, bit }
}

/// How many nodes are held after an answer, and nothing after a refusal.
fn live(store: &Store, answer: Result<Handle, NodesFull>) -> Option<u32> {
    match answer {
        Ok(_) => Some(store.table().live()),
        Err(NodesFull) => None,
    }
}

/// Over two nodes: a cube, another one beside it as a root, and another one in its place.
fn in_two<L: Ledger>(
    alloc: Global,
    blank: Blank,
) -> Result<(Option<u32>, Option<u32>, Option<u32>), NoMemory>
    requires name { blank.name ≡ L.name }
    requires parts { blank.parts ≡ L.parts }
    requires some { 0 < L.parts }
{
    let mut steps = Steps::<L>::new(blank);
    let mut store = Store::open(alloc, 2, 16)?;
    let Ok(root) = cube(&mut store, &[at(0, false), at(1, false)], &[], &mut steps) else {
        return Ok((None, None, None));
    };
    let first = Some(store.table().live());
    let beside = cube(
        &mut store,
        &[at(0, false), at(1, true)],
        &[root],
        &mut steps,
    );
    let second = live(&store, beside);
    let alone = cube(&mut store, &[at(0, false), at(1, true)], &[], &mut steps);
    Ok((first, second, live(&store, alone)))
}

/// Over three nodes: a cube that is lost, another one that needs its nodes, and one beside that.
fn in_three<L: Ledger>(alloc: Global, blank: Blank) -> Result<(Option<u32>, Option<u32>), NoMemory>
    requires name { blank.name ≡ L.name }
    requires parts { blank.parts ≡ L.parts }
    requires some { 0 < L.parts }
{
    let mut steps = Steps::<L>::new(blank);
    let mut store = Store::open(alloc, 3, 16)?;
    let lost = cube(&mut store, &[at(0, false), at(1, false)], &[], &mut steps);
    if lost.is_err() {
        return Ok((None, None));
    }
    let Ok(root) = cube(&mut store, &[at(2, true), at(3, true)], &[], &mut steps) else {
        return Ok((None, None));
    };
    let first = Some(store.table().live());
    let beside = cube(
        &mut store,
        &[at(0, false), at(1, false)],
        &[root],
        &mut steps,
    );
    Ok((first, live(&store, beside)))
}

/// The operation of two bits at 00, 01, 10 and 11.
fn truths<L: Ledger>(alloc: Global, op: Op, blank: Blank) -> Result<Option<[bool; 4]>, NoMemory>
    requires name { blank.name ≡ L.name }
    requires parts { blank.parts ≡ L.parts }
    requires some { 0 < L.parts }
{
    let mut steps = Steps::<L>::new(blank);
    let mut store = Store::open(alloc, 16, 64)?;
    let Ok(u) = cube(&mut store, &[at(0, true)], &[], &mut steps) else {
        return Ok(None);
    };
    let Ok(v) = cube(&mut store, &[at(1, true)], &[u], &mut steps) else {
        return Ok(None);
    };
    let Ok(made) = apply(&mut store, op, u, v, &[], &mut steps) else {
        return Ok(None);
    };
    let table = store.table();
    Ok(Some([
        eval(table, made, &[false, false], &mut steps),
        eval(table, made, &[false, true], &mut steps),
        eval(table, made, &[true, false], &mut steps),
        eval(table, made, &[true, true], &mut steps),
    ]))
}

/// A bit, its negation, and that with the bit set to true, each at 0 and 1.
fn negated<L: Ledger>(alloc: Global, blank: Blank) -> Result<Option<[bool; 4]>, NoMemory>
    requires name { blank.name ≡ L.name }
    requires parts { blank.parts ≡ L.parts }
    requires some { 0 < L.parts }
{
    let mut steps = Steps::<L>::new(blank);
    let mut store = Store::open(alloc, 2, 64)?;
    let Ok(bit) = cube(&mut store, &[at(0, true)], &[], &mut steps) else {
        return Ok(None);
    };
    let Ok(other) = not(&mut store, bit, &[], &mut steps) else {
        return Ok(None);
    };
    let before = (
        eval(store.table(), other, &[false], &mut steps),
        eval(store.table(), other, &[true], &mut steps),
    );
    let Ok(set) = restrict(&mut store, other, 0, true, &[], &mut steps) else {
        return Ok(None);
    };
    Ok(Some([
        before.0,
        before.1,
        eval(store.table(), set, &[false], &mut steps),
        eval(store.table(), set, &[true], &mut steps),
    ]))
}

/// Whether two bits spell 2, at 00, 01, 10 and 11.
fn spelled<L: Ledger>(alloc: Global, blank: Blank) -> Result<Option<[bool; 4]>, NoMemory>
    requires name { blank.name ≡ L.name }
    requires parts { blank.parts ≡ L.parts }
    requires some { 0 < L.parts }
{
    let mut steps = Steps::<L>::new(blank);
    let mut store = Store::open(alloc, 2, 64)?;
    let codes = [BlockCode {
        block: Block { first: 0, bits: 2 },
        code: 2,
    }];
    let Ok(made) = code_cube(&mut store, &codes, &[], &mut steps) else {
        return Ok(None);
    };
    let table = store.table();
    Ok(Some([
        eval(table, made, &[false, false], &mut steps),
        eval(table, made, &[false, true], &mut steps),
        eval(table, made, &[true, false], &mut steps),
        eval(table, made, &[true, true], &mut steps),
    ]))
}

#[test]
fn the_need_decides(rt: HostRuntime) -> Result<(), Fail> {
    assert_eq!(rt;
        in_two::<Brand>(rt.alloc(), Blank::new(1))?,
        (Some(2), None, Some(2))
    );
    assert_eq!(rt;
        in_three::<Brand>(rt.alloc(), Blank::new(1))?,
        (Some(2), None)
    );
    Ok(())
}

#[test]
fn truth_tables(rt: HostRuntime) -> Result<(), Fail> {
    for (op, expected) in [
        (Op::And, [false, false, false, true]),
        (Op::Or, [false, true, true, true]),
        (Op::AndNot, [false, false, true, false]),
        (Op::Implies, [true, true, false, true]),
        (Op::Iff, [true, false, false, true]),
    ] {
        assert_eq!(rt;
            truths::<Brand>(rt.alloc(), op, Blank::new(1))?,
            Some(expected),
            "{op:?}"
        );
    }
    assert_eq!(rt;
        negated::<Brand>(rt.alloc(), Blank::new(1))?,
        Some([true, false, false, false])
    );
    assert_eq!(rt;
        spelled::<Brand>(rt.alloc(), Blank::new(1))?,
        Some([false, false, true, false])
    );
    Ok(())
}
