//! Truth found from its definition, for formulas without quantifiers: slow and plain, a yardstick for other evaluators.
ghost use Rattle.std.specs.Prelude.{◌≡◌, ◌<◌, ◌≤◌, ◌↔◌, length, IsTrue, IsSomeAnd};
ghost use Rattle.qtl_syntax.specs.Tree.{formula_of};
ghost use Rattle.qtl_truth.specs.Items.{before_of};
ghost use Rattle.qtl_truth.specs.QuantifierFree.{HasNoQuantifier, MacrosHaveNoQuantifier};
ghost use Rattle.qtl_truth.specs.Scope.{assignment_of, HasTexts};
ghost use Rattle.qtl_truth.specs.Support.{HasSupport, Supports};
ghost use Rattle.qtl_truth.specs.Truth.{Holds, Says, texts_of, IsWithin, SomeTime, EachTime, After, NeverFrom};

use crate::atom::{have_texts, is_event};
use crate::event::Event;
use crate::scope::Scope;
use qtl_syntax::{Bound, Formula, Item, Term, Text};

/// Whether the formula holds at position i of the log, where positions count from 1. The items are those before the
/// formula, in the order of the text. The variables have the texts of the pairs `nu`, of which the first with a name
/// counts; an atom with a variable that has none is false. No memory is taken. The time can grow with the length of
/// the log to the power of how deep temporal operators stand inside one another.
pub fn evaluate(
    before: &[Item],
    formula: &Formula,
    log: &[Event],
    i: usize,
    nu: &[(Text, Text)],
) -> bool
    requires form { HasNoQuantifier (formula_of formula.now) }
    requires bodies { MacrosHaveNoQuantifier (before_of before.now) }
    requires from { 1 ≤ i }
    requires to { i ≤ length log.now }
    ensures { IsTrue result ↔ Holds (before_of before.now) log.now i nu.now (formula_of formula.now) }
{
    holds(before, formula, log, i, &Scope::Pairs(nu))
}

/// Whether the age at position i of position j is within the bound.
fn is_within(bound: Bound, log: &[Event], i: usize, j: usize) -> bool
    requires from { 1 ≤ j }
    requires back { j ≤ i }
    requires to { i ≤ length log.now }
    ensures { IsTrue result ↔ IsWithin bound log.now i j }
{
    let age = log[i - 1].time.saturating_sub(log[j - 1].time);
    match bound {
        Bound::AtMost(most) => age <= u64::from(most),
        Bound::MoreThan(least) => age > u64::from(least),
    }
}

/// Whether the formula holds at position i under the scope.
#[cycle(slow)]
fn holds(before: &[Item], formula: &Formula, log: &[Event], i: usize, scope: &Scope) -> bool
    requires form { HasNoQuantifier (formula_of formula.now) }
    requires bodies { MacrosHaveNoQuantifier (before_of before.now) }
    requires texts { HasTexts scope.now }
    requires from { 1 ≤ i }
    requires to { i ≤ length log.now }
    ensures { IsTrue result ↔ Holds (before_of before.now) log.now i (assignment_of scope.now) (formula_of formula.now) }
{
    match formula {
        Formula::True => true,
        Formula::False => false,
        Formula::Atom { name, terms } => says(before, name, terms.as_slice(), log, i, scope),
        Formula::Not(f) => !holds(before, f, log, i, scope),
        Formula::And(f, g) => holds(before, f, log, i, scope) && holds(before, g, log, i, scope),
        Formula::Or(f, g) => holds(before, f, log, i, scope) || holds(before, g, log, i, scope),
        Formula::Implies(f, g) => {
            !holds(before, f, log, i, scope) || holds(before, g, log, i, scope)
        }
        Formula::Iff(f, g) => holds(before, f, log, i, scope) == holds(before, g, log, i, scope),
        Formula::Prev(f) => i > 1 && holds(before, f, log, i - 1, scope),
        Formula::Since(_, _)
        | Formula::TimedSince(_, _, _)
        | Formula::Once(_)
        | Formula::TimedOnce(_, _)
        | Formula::Interval(_, _) => has_support(before, formula, log, i, scope),
        Formula::Always(f) => holds_after(before, f, log, 0, i, scope),
        Formula::TimedAlways(bound, f) => holds_within(*bound, before, f, log, i, scope),
        Formula::Exists(_, _) | Formula::Forall(_, _) => unreachable!(),
    }
}

/// Whether the atom holds at position i: the nearest macro of its name with the texts of the terms for its parameters,
/// or where there is none the event itself.
#[cycle(slow)]
fn says(
    before: &[Item],
    name: &Text,
    terms: &[Term],
    log: &[Event],
    i: usize,
    scope: &Scope,
) -> bool
    requires bodies { MacrosHaveNoQuantifier (before_of before.now) }
    requires texts { HasTexts scope.now }
    requires from { 1 ≤ i }
    requires to { i ≤ length log.now }
    ensures { IsTrue result ↔ IsSomeAnd (texts_of (assignment_of scope.now) terms.now)
        (λ args. Says (before_of before.now) log.now name.now args i) }
{
    match before.split_last() {
        None => is_event(scope, name, terms, &log[i - 1]),
        Some((last, rest)) => match last {
            Item::Prop { .. } => says(rest, name, terms, log, i, scope),
            Item::Pred {
                name: own,
                params,
                body,
            } => {
                if own.is_same(name) {
                    let call = Scope::Call {
                        params: params.as_slice(),
                        terms: &*terms,
                        outer: &*scope,
                    };
                    have_texts(&*scope, &*terms) && holds(rest, body, log, i, &call)
                } else {
                    says(rest, name, terms, log, i, scope)
                }
            }
        },
    }
}

/// Whether some position from 1 to i supports the formula at i.
#[cycle(slow)]
fn has_support(before: &[Item], formula: &Formula, log: &[Event], i: usize, scope: &Scope) -> bool
    requires form { HasNoQuantifier (formula_of formula.now) }
    requires looks_back { HasSupport (formula_of formula.now) }
    requires bodies { MacrosHaveNoQuantifier (before_of before.now) }
    requires texts { HasTexts scope.now }
    requires to { i ≤ length log.now }
    ensures { IsTrue result ↔ SomeTime (Supports (before_of before.now) log.now (assignment_of scope.now) (formula_of formula.now) i) i }
{
    for j in 0..i {
        if is_support(before, formula, log, i, j + 1, scope) {
            return true;
        }
    }
    false
}

/// Whether position j supports the formula at i.
#[cycle(slow)]
fn is_support(
    before: &[Item],
    formula: &Formula,
    log: &[Event],
    i: usize,
    j: usize,
    scope: &Scope,
) -> bool
    requires form { HasNoQuantifier (formula_of formula.now) }
    requires looks_back { HasSupport (formula_of formula.now) }
    requires bodies { MacrosHaveNoQuantifier (before_of before.now) }
    requires texts { HasTexts scope.now }
    requires from { 1 ≤ j }
    requires back { j ≤ i }
    requires to { i ≤ length log.now }
    ensures { IsTrue result ↔ Supports (before_of before.now) log.now (assignment_of scope.now) (formula_of formula.now) i j }
{
    match formula {
        Formula::Since(f, g) => {
            holds(before, g, log, j, scope) && holds_after(before, f, log, j, i, scope)
        }
        Formula::TimedSince(bound, f, g) => {
            is_within(*bound, log, i, j)
                && holds(before, g, log, j, scope)
                && holds_after(before, f, log, j, i, scope)
        }
        Formula::Once(f) => holds(before, f, log, j, scope),
        Formula::TimedOnce(bound, f) => {
            is_within(*bound, log, i, j) && holds(before, f, log, j, scope)
        }
        Formula::Interval(f, g) => {
            holds(before, f, log, j, scope) && never_from(before, g, log, j, i, scope)
        }
        _ => unreachable!(),
    }
}

/// Whether the formula holds at each position after j up to i.
#[cycle(slow)]
fn holds_after(
    before: &[Item],
    formula: &Formula,
    log: &[Event],
    j: usize,
    i: usize,
    scope: &Scope,
) -> bool
    requires form { HasNoQuantifier (formula_of formula.now) }
    requires bodies { MacrosHaveNoQuantifier (before_of before.now) }
    requires texts { HasTexts scope.now }
    requires back { j ≤ i }
    requires to { i ≤ length log.now }
    ensures { IsTrue result ↔ After j (λ k. Holds (before_of before.now) log.now k (assignment_of scope.now) (formula_of formula.now)) i }
{
    for k in j..i {
        if !holds(before, formula, log, k + 1, scope) {
            return false;
        }
    }
    true
}

/// Whether the formula holds at no position from j to i.
#[cycle(slow)]
fn never_from(
    before: &[Item],
    formula: &Formula,
    log: &[Event],
    j: usize,
    i: usize,
    scope: &Scope,
) -> bool
    requires form { HasNoQuantifier (formula_of formula.now) }
    requires bodies { MacrosHaveNoQuantifier (before_of before.now) }
    requires texts { HasTexts scope.now }
    requires from { 1 ≤ j }
    requires back { j ≤ i }
    requires to { i ≤ length log.now }
    ensures { IsTrue result ↔ NeverFrom j (λ k. Holds (before_of before.now) log.now k (assignment_of scope.now) (formula_of formula.now)) i }
{
    for k in j - 1..i {
        if holds(before, formula, log, k + 1, scope) {
            return false;
        }
    }
    true
}

/// Whether the formula holds at each position from 1 to i whose age at i is within the bound.
#[cycle(slow)]
fn holds_within(
    bound: Bound,
    before: &[Item],
    formula: &Formula,
    log: &[Event],
    i: usize,
    scope: &Scope,
) -> bool
    requires form { HasNoQuantifier (formula_of formula.now) }
    requires bodies { MacrosHaveNoQuantifier (before_of before.now) }
    requires texts { HasTexts scope.now }
    requires to { i ≤ length log.now }
    ensures { IsTrue result ↔ EachTime
        (λ j. IsWithin bound log.now i j → Holds (before_of before.now) log.now j (assignment_of scope.now) (formula_of formula.now)) i }
{
    for j in 0..i {
        if is_within(bound, log, i, j + 1) && !holds(before, formula, log, j + 1, scope) {
            return false;
        }
    }
    true
}
