//! What no clause says: that a table opens where memory is ample, and small tables worked out by hand.

ghost use Rattle.std.specs.Prelude.{◌≡◌, IfOk};
ghost use Rattle.node_tree.specs.Tree.{top};
ghost use Rattle.node_table.specs.Table.{tree_of, IsValid, KeepsTrees};

use crate::{Full, Handle, NodeTable};
use std::test::Fail;

fn leaf(table: &NodeTable, truth: bool) -> Handle
    ensures valid { IsValid table.now result }
    ensures top { top (tree_of table.now result) ≡ 65536 }
{
    if truth { table.one() } else { table.zero() }
}

/// The node of a level over two leaves.
fn over_leaves(table: &mut NodeTable, level: u16, low: bool, high: bool) -> Result<Handle, Full>
    ensures valid { IfOk result (λ h. IsValid table.new h) }
    ensures kept { KeepsTrees table.old table.new }
{
    let low = leaf(table, low);
    let high = leaf(table, high);
    table.make(level, low, high)
}

/// Keeps one handle's tree.
fn keep(table: &mut NodeTable, h: Handle)
    requires { IsValid table.old h }
{
    table.collect(&[h], &[]);
}

/// Whether two handles were not marked before.
fn mark_twice(table: &mut NodeTable, h: Handle) -> (bool, bool)
    requires { IsValid table.old h }
{
    let first = table.mark(h);
    (first, table.mark(h))
}

#[test]
fn two_nodes_fill_a_table_of_two(rt: HostRuntime) -> Result<(), Fail> {
    let mut table = NodeTable::open(rt.alloc(), 2)?;
    assert!(rt; over_leaves(&mut table, 1, false, true).is_ok());
    assert!(rt; over_leaves(&mut table, 0, false, true).is_ok());
    assert_eq!(rt; over_leaves(&mut table, 1, true, false), Err(Full));
    assert_eq!(rt; table.live(), 2);
    let second = over_leaves(&mut table, 0, false, true)?;
    keep(&mut table, second);
    assert_eq!(rt; table.live(), 1);
    assert!(rt; over_leaves(&mut table, 1, true, false).is_ok());
    assert_eq!(rt; table.live(), 2);
    Ok(())
}

#[test]
fn a_mark_goes_with_its_round(rt: HostRuntime) -> Result<(), Fail> {
    let mut table = NodeTable::open(rt.alloc(), 2)?;
    let zero = table.zero();
    assert_eq!(rt; mark_twice(&mut table, zero), (true, false));
    table.unmark_all();
    let zero = table.zero();
    assert_eq!(rt; mark_twice(&mut table, zero), (true, false));
    Ok(())
}
