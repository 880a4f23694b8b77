//! The expanded size of formulas and the number of their quantifiers, without expanding them.
ghost use Rattle.std.specs.Prelude.{◌≡◌, ◌+◌, ◌≤◌, [], length, map, min, IfOk};
ghost use Rattle.qtl_syntax.specs.Tree.{formula_of, item_of};
ghost use Rattle.qtl_truth.specs.Items.{before_of};
ghost use Rattle.wellformed.specs.Counts.{AreCounts, IsCount, IsCountOf, IsTotal};
ghost use Rattle.wellformed.specs.Expansion.{call_quantifiers, call_size, props_quantifiers};
ghost use Rattle.wellformed.specs.Faults.{props_size};

use crate::clash::body_of;
use crate::macros::is_macro;
use qtl_syntax::{Formula, Item, Text};
use std::alloc::{AllocError, Global};

/// What more than this is told as.
const MOST: u32 = 1_000_000;

/// A number of nodes and one of quantifiers, each told up to 1,000,000.
#[derive(Clone, Copy, Debug, PartialEq, Eq)]
pub struct Counts {
    pub size: u32,
    pub quantifiers: u32,
}

/// The sum of two numbers, told up to 1,000,000.
fn sum(a: u32, b: u32) -> u32
    ensures { result ≡ min (a + b) 1000000 }
{
    a.saturating_add(b).min(MOST)
}

/// Both together.
fn both(a: Counts, b: Counts) -> Counts
    ensures size { result.size ≡ min (a.size + b.size) 1000000 }
    ensures quantifiers { result.quantifiers ≡ min (a.quantifiers + b.quantifiers) 1000000 }
{
    Counts {
        size: sum(a.size, b.size),
        quantifiers: sum(a.quantifiers, b.quantifiers),
    }
}

/// One node more.
fn node_over(counts: Counts) -> Counts
    ensures size { result.size ≡ min (1 + counts.size) 1000000 }
    ensures quantifiers { result.quantifiers ≡ counts.quantifiers }
{
    Counts {
        size: sum(1, counts.size),
        quantifiers: counts.quantifiers,
    }
}

/// One quantifier more.
fn quantifier_over(counts: Counts) -> Counts
    ensures size { result.size ≡ min (1 + counts.size) 1000000 }
    ensures quantifiers { result.quantifiers ≡ min (1 + counts.quantifiers) 1000000 }
{
    Counts {
        size: sum(1, counts.size),
        quantifiers: sum(1, counts.quantifiers),
    }
}

/// The counts of the body of the macro of the name, or none.
fn count_of_call(items: &[Item], counts: &[Counts], name: &Text) -> Counts
    requires each { length counts.now ≡ length items.now }
    requires known { AreCounts [] items.now counts.now }
    ensures { IsCount result (call_size (before_of items.now) name.now) (call_quantifiers (before_of items.now) name.now) }
{
    let mut found = Counts {
        size: 0,
        quantifiers: 0,
    };
    for (k, item) in items.iter().enumerate() {
        if is_macro(item, name) {
            found = counts[k];
        }
    }
    found
}

/// The counts of the formula, whose calls are of the items. Their counts are known.
fn count_of(items: &[Item], counts: &[Counts], formula: &Formula) -> Counts
    requires each { length counts.now ≡ length items.now }
    requires known { AreCounts [] items.now counts.now }
    ensures { IsCountOf result (before_of items.now) (formula_of formula.now) }
{
    match formula {
        Formula::True | Formula::False => Counts {
            size: 1,
            quantifiers: 0,
        },
        Formula::Atom { name, .. } => node_over(count_of_call(items, counts, name)),
        Formula::Not(f)
        | Formula::Prev(f)
        | Formula::Once(f)
        | Formula::Always(f)
        | Formula::TimedOnce(_, f)
        | Formula::TimedAlways(_, f) => node_over(count_of(items, counts, f)),
        Formula::And(f, g)
        | Formula::Or(f, g)
        | Formula::Implies(f, g)
        | Formula::Iff(f, g)
        | Formula::Since(f, g)
        | Formula::TimedSince(_, f, g)
        | Formula::Interval(f, g) => {
            node_over(both(count_of(items, counts, f), count_of(items, counts, g)))
        }
        Formula::Exists(_, f) | Formula::Forall(_, f) => {
            quantifier_over(count_of(items, counts, f))
        }
    }
}

/// The counts with those of the item, if it is a property.
fn with_item(total: Counts, item: &Item, counts: Counts) -> Counts
    ensures { IsTotal total counts (item_of item.now) result }
{
    match item {
        Item::Pred { .. } => total,
        Item::Prop { .. } => both(total, counts),
    }
}

/// The counts of all properties together. Each formula is gone through once.
pub fn count_props(alloc: Global, items: &[Item]) -> Result<Counts, AllocError>
    ensures { IfOk result (λ c. IsCount c (props_size [] (map item_of items.now)) (props_quantifiers [] (map item_of items.now))) }
{
    let mut counts = Vec::new(alloc);
    let mut total = Counts {
        size: 0,
        quantifiers: 0,
    };
    for m in 0..items.len() {
        let item = &items[m];
        let own = count_of(&items[..m], counts.as_slice(), body_of(item));
        counts.push(own)?;
        total = with_item(total, item, own);
    }
    Ok(total)
}
