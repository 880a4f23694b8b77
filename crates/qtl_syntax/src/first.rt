//! Which specifications are of the first forms: one property, made of names with constants, `!`
//! and `S` without a bound.
ghost use Rattle.std.specs.Prelude.{◌↔◌, IsTrue, map};
ghost use Rattle.qtl_syntax.specs.Tree.{formula_of, item_of, items_of};
ghost use Rattle.qtl_syntax.specs.FirstForms.{AreConstant, IsFirst, IsFirstItems};

use crate::formula::{Formula, Item, Term};
use crate::spec::Spec;

fn are_constant(terms: &[Term]) -> bool
    ensures { IsTrue result ↔ AreConstant terms.now }
{
    for term in terms {
        if let Term::Variable(_) = term {
            return false;
        }
    }
    true
}

fn is_first(formula: &Formula) -> bool
    ensures { IsTrue result ↔ IsFirst (formula_of formula.now) }
{
    match formula {
        Formula::Atom { terms, .. } => are_constant(terms.as_slice()),
        Formula::Not(f) => is_first(f),
        Formula::Since(f, g) => is_first(f) && is_first(g),
        _ => false,
    }
}

fn are_first(items: &[Item]) -> bool
    ensures { IsTrue result ↔ IsFirstItems (map item_of items.now) }
{
    match items {
        [Item::Prop { body, .. }] => is_first(body),
        _ => false,
    }
}

/// Whether the specification is one property of the first forms.
pub fn is_first_spec(spec: &Spec) -> bool
    ensures { IsTrue result ↔ IsFirstItems (items_of spec.now) }
{
    are_first(spec.items.as_slice())
}
