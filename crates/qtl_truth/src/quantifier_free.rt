//! Tests of what the slow evaluator asks of its formulas.
ghost use Rattle.std.specs.Prelude.{◌↔◌, IsTrue};
ghost use Rattle.qtl_syntax.specs.Tree.{formula_of};
ghost use Rattle.qtl_truth.specs.Items.{before_of};
ghost use Rattle.qtl_truth.specs.QuantifierFree.{HasNoQuantifier, MacrosHaveNoQuantifier};

use qtl_syntax::{Formula, Item};

/// Whether no `exists` and no `forall` stands in the formula.
pub fn has_no_quantifier(formula: &Formula) -> bool
    ensures { IsTrue result ↔ HasNoQuantifier (formula_of formula.now) }
{
    match formula {
        Formula::True | Formula::False | Formula::Atom { .. } => true,
        Formula::Not(f)
        | Formula::Prev(f)
        | Formula::Once(f)
        | Formula::TimedOnce(_, f)
        | Formula::Always(f)
        | Formula::TimedAlways(_, f) => has_no_quantifier(f),
        Formula::And(f, g)
        | Formula::Or(f, g)
        | Formula::Implies(f, g)
        | Formula::Iff(f, g)
        | Formula::Since(f, g)
        | Formula::TimedSince(_, f, g)
        | Formula::Interval(f, g) => has_no_quantifier(f) && has_no_quantifier(g),
        Formula::Exists(_, _) | Formula::Forall(_, _) => false,
    }
}

/// Whether none stands in a macro's body. The items are in the order of the text.
pub fn macros_have_no_quantifier(before: &[Item]) -> bool
    ensures { IsTrue result ↔ MacrosHaveNoQuantifier (before_of before.now) }
{
    match before.split_last() {
        None => true,
        Some((Item::Prop { .. }, rest)) => macros_have_no_quantifier(rest),
        Some((Item::Pred { body, .. }, rest)) => {
            has_no_quantifier(body) && macros_have_no_quantifier(rest)
        }
    }
}
