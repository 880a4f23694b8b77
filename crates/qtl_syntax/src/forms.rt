//! The table of operators, and the trees that they make.
ghost use Rattle.std.specs.Prelude.{◌≡◌, ◌≤◌, IfOk};
ghost use Rattle.qtl_syntax.specs.Tree.{formula_of};
ghost use Rattle.qtl_syntax.specs.Grammar.{level_of as level_lem, joined as joined_lem, prefixed as prefixed_lem, quantified as quantified_lem};

use crate::formula::Formula;
use crate::operator::{Binary, Prefix, Quantifier};
use crate::text::Text;
use std::alloc::{AllocError, Global};

/// The level of the grammar that the operator's form has.
pub fn level_of(op: Binary) -> u32
    ensures { result ≡ level_lem op }
{
    match op {
        Binary::Iff => 0,
        Binary::Implies => 1,
        Binary::Or => 2,
        Binary::And => 3,
        Binary::Since => 4,
        Binary::TimedSince(_) => 4,
    }
}

/// The operator between two formulas.
pub fn joined(alloc: Global, op: Binary, f: Formula, g: Formula) -> Result<Formula, AllocError>
    ensures { IfOk result (λ h. formula_of h ≡ joined_lem op (formula_of f) (formula_of g)) }
{
    let f = Box::new(alloc, f)?;
    let g = Box::new(alloc, g)?;
    Ok(match op {
        Binary::Iff => Formula::Iff(f, g),
        Binary::Implies => Formula::Implies(f, g),
        Binary::Or => Formula::Or(f, g),
        Binary::And => Formula::And(f, g),
        Binary::Since => Formula::Since(f, g),
        Binary::TimedSince(b) => Formula::TimedSince(b, f, g),
    })
}

/// The operator before a formula.
pub fn prefixed(alloc: Global, op: Prefix, f: Formula) -> Result<Formula, AllocError>
    ensures { IfOk result (λ g. formula_of g ≡ prefixed_lem op (formula_of f)) }
{
    let f = Box::new(alloc, f)?;
    Ok(match op {
        Prefix::Not => Formula::Not(f),
        Prefix::Prev => Formula::Prev(f),
        Prefix::Once => Formula::Once(f),
        Prefix::Always => Formula::Always(f),
        Prefix::TimedOnce(b) => Formula::TimedOnce(b, f),
        Prefix::TimedAlways(b) => Formula::TimedAlways(b, f),
    })
}

/// The quantifier of this variable before a formula.
pub fn quantified(
    alloc: Global,
    quantifier: Quantifier,
    x: Text,
    f: Formula,
) -> Result<Formula, AllocError>
    ensures { IfOk result (λ g. formula_of g ≡ quantified_lem quantifier x (formula_of f)) }
{
    let f = Box::new(alloc, f)?;
    Ok(match quantifier {
        Quantifier::Exists => Formula::Exists(x, f),
        Quantifier::Forall => Formula::Forall(x, f),
    })
}
