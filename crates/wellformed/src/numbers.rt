//! Whether items and nodes are few enough to be numbered.
ghost use Rattle.std.specs.Prelude.{◌≡◌, ◌+◌, ◌<◌, ◌↔◌, length, map, min, IsTrue};
ghost use Rattle.std.specs.List.{AllByRecursion};
ghost use Rattle.qtl_syntax.specs.Tree.{formula_of, item_of, items_of};
ghost use Rattle.wellformed.specs.Faults.{nodes_of, HasFewNodes};

use crate::clash::body_of;
use qtl_syntax::{Formula, Item, Spec};

/// What more nodes than this are told as.
const MOST: u64 = 4_294_967_296;

/// The sum, told up to 2^32.
fn sum(a: u64, b: u64) -> u64
    ensures { result ≡ min (a + b) 4294967296 }
{
    a.saturating_add(b).min(MOST)
}

/// How many nodes the formula has, told up to 2^32.
fn count_nodes(formula: &Formula) -> u64
    ensures { result ≡ min (length (nodes_of (formula_of formula.now))) 4294967296 }
{
    match formula {
        Formula::True | Formula::False | Formula::Atom { .. } => 1,
        Formula::Not(f)
        | Formula::Prev(f)
        | Formula::Once(f)
        | Formula::Always(f)
        | Formula::TimedOnce(_, f)
        | Formula::TimedAlways(_, f)
        | Formula::Exists(_, f)
        | Formula::Forall(_, f) => sum(1, count_nodes(f)),
        Formula::And(f, g)
        | Formula::Or(f, g)
        | Formula::Implies(f, g)
        | Formula::Iff(f, g)
        | Formula::Since(f, g)
        | Formula::TimedSince(_, f, g)
        | Formula::Interval(f, g) => sum(1, sum(count_nodes(f), count_nodes(g))),
    }
}

/// Whether each item's formula has fewer than 2^32 nodes.
fn have_few_nodes(items: &[Item]) -> bool
    ensures { IsTrue result ↔ AllByRecursion HasFewNodes (map item_of items.now) }
{
    for item in items {
        if count_nodes(body_of(item)) == MOST {
            return false;
        }
    }
    true
}

/// Whether the items, and the nodes of each item's formula, are fewer than 2^32: what `check` asks.
pub fn can_be_numbered(spec: &Spec) -> bool
    ensures { IsTrue result ↔ ((length (items_of spec.now) < 4294967296) × AllByRecursion HasFewNodes (items_of spec.now)) }
{
    (spec.items.len() as u64) < MOST && have_few_nodes(spec.items.as_slice())
}
