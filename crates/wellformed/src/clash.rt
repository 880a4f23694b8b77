//! The fourth pass: atoms of events with several numbers of terms.
ghost use Rattle.std.specs.Prelude.{◌≡◌, ◌+◌, ◌<◌, ◌++◌, [], Some, None, is_some, map, length, IfOk};
ghost use Rattle.std.specs.List.{AllByRecursion};
ghost use Rattle.qtl_syntax.specs.Tree.{Atom, formula_of, item_of};
ghost use Rattle.qtl_truth.specs.Items.{before_of};
ghost use Rattle.wellformed.specs.Clash.{seen_in, IsAtomClash, IsClash};
ghost use Rattle.wellformed.specs.Faults.{body_of, clash_pass, event_atom, first_in, nodes_of, HasFewNodes};
ghost use Rattle.wellformed.specs.Macros.{macro_of};

use crate::macros::find_macro;
use qtl_syntax::{Formula, Item, Term, Text};
use std::alloc::{AllocError, Global};
use std::collections::BTreeMap;

/// Whether an atom of this name is a call.
fn is_call(before: &[Item], name: &Text) -> bool
    ensures { result ≡ is_some (macro_of (before_of before.now) name.now) }
{
    find_macro(before, name).is_some()
}

/// Whether the atom clashes with one that was seen; else it is seen too, unless it is a call.
fn atom_clashes(
    before: &[Item],
    name: &Text,
    terms: &[Term],
    seen: &mut BTreeMap<Text, usize>,
) -> Result<bool, AllocError>
    ensures { IfOk result (λ b. IsAtomClash (seen_in seen.old) (event_atom (before_of before.now) (Atom name.now terms.now)) (seen_in seen.new) b) }
{
    if is_call(before, name) {
        return Ok(false);
    }
    match seen.get(name).copied() {
        Some(count) => Ok(count != terms.len()),
        None => {
            seen.insert(name.copy()?, terms.len())?;
            Ok(false)
        }
    }
}

/// Whether a node of the formula clashes with an atom that was seen. The first of its nodes has the number `node`, which
/// becomes that of the first one that clashes, or of the first node after the formula.
#[cycle(clash)]
fn any_clashes(
    before: &[Item],
    formula: &Formula,
    node: &mut u32,
    seen: &mut BTreeMap<Text, usize>,
) -> Result<bool, AllocError>
    requires few { node.old + length (nodes_of (formula_of formula.now)) < 4294967296 }
    ensures { IfOk result (λ b. IsClash (before_of before.now) (seen_in seen.old) node.old (nodes_of (formula_of formula.now)) node.new (seen_in seen.new) b) }
{
    match formula {
        Formula::True | Formula::False => {
            *node += 1;
            Ok(false)
        }
        Formula::Atom { name, terms } => {
            if atom_clashes(before, name, terms.as_slice(), seen)? {
                return Ok(true);
            }
            *node += 1;
            Ok(false)
        }
        Formula::Not(f)
        | Formula::Prev(f)
        | Formula::Once(f)
        | Formula::Always(f)
        | Formula::TimedOnce(_, f)
        | Formula::TimedAlways(_, f)
        | Formula::Exists(_, f)
        | Formula::Forall(_, f) => {
            *node += 1;
            any_clashes(before, f, node, seen)
        }
        Formula::And(f, g)
        | Formula::Or(f, g)
        | Formula::Implies(f, g)
        | Formula::Iff(f, g)
        | Formula::Since(f, g)
        | Formula::TimedSince(_, f, g)
        | Formula::Interval(f, g) => {
            *node += 1;
            either_clashes(before, f, g, node, seen)
        }
    }
}

/// The same of two formulas, one after the other.
#[cycle(clash)]
fn either_clashes(
    before: &[Item],
    f: &Formula,
    g: &Formula,
    node: &mut u32,
    seen: &mut BTreeMap<Text, usize>,
) -> Result<bool, AllocError>
    requires few { node.old + length (nodes_of (formula_of f.now) ++ nodes_of (formula_of g.now)) < 4294967296 }
    ensures { IfOk result (λ b. IsClash (before_of before.now) (seen_in seen.old) node.old (nodes_of (formula_of f.now) ++ nodes_of (formula_of g.now)) node.new (seen_in seen.new) b) }
{
    if any_clashes(before, f, node, seen)? {
        return Ok(true);
    }
    any_clashes(before, g, node, seen)
}

/// The formula of the item.
pub fn body_of(item: &Item) -> &Formula
    ensures { formula_of result.now ≡ body_of (item_of item.now) }
{
    match item {
        Item::Pred { body, .. } | Item::Prop { body, .. } => body,
    }
}

/// The first node that clashes, and its item before it.
pub fn first_clash(alloc: Global, items: &[Item]) -> Result<Option<(u32, u32)>, AllocError>
    requires items { length items.now < 4294967296 }
    requires few { AllByRecursion HasFewNodes (map item_of items.now) }
    ensures { IfOk result (λ o. o ≡ first_in clash_pass [] 0 (map item_of items.now)) }
{
    let mut seen = BTreeMap::new(alloc);
    for m in 0..items.len() {
        let mut node = 0;
        if any_clashes(&items[..m], body_of(&items[m]), &mut node, &mut seen)? {
            return Ok(Some((m as u32, node)));
        }
    }
    Ok(None)
}
