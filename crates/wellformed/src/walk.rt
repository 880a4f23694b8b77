//! The passes that test the nodes of each formula one after the other.
ghost use Rattle.std.specs.Prelude.{◌≡◌, ◌+◌, ◌<◌, ◌∷◌, ◌++◌, [], map, take, drop, length};
ghost use Rattle.std.specs.List.{AllByRecursion};
ghost use Rattle.qtl_syntax.specs.Tree.{Atom, formula_of, item_of};
ghost use Rattle.qtl_truth.specs.Items.{before_of};
ghost use Rattle.wellformed.specs.Faults.{first_in, is_in, is_unbound, nodes_in, other_count, HasFewNodes};
ghost use Rattle.wellformed.specs.Macros.{macro_of};
ghost use Rattle.wellformed.specs.Walk.{names_in_scope, is_bad_at, pass_at, pass_of, IsFirst};

use crate::duplicates::contains;
use crate::macros::{find_macro, has_macro};
use qtl_syntax::{Formula, Item, Term, Text};

/// What is asked of an atom.
#[derive(Clone, Copy, Debug, PartialEq, Eq)]
pub enum Test {
    /// Whether it has the name of a macro of its own or a later item.
    Late,
    /// Whether it is a call with a wrong number of terms.
    Arity,
    /// Whether it has a variable that isn't in scope.
    Free,
}

/// The names in scope at a node.
#[derive(Clone, Copy)]
pub enum Scope<'a> {
    /// The parameters of the item.
    Params(&'a [Text]),
    /// A quantifier's name, and those round it.
    Bound {
        name: &'a Text,
        outer: &'a Scope<'a>,
    },
}

/// Whether the name is in scope.
fn is_bound<'a>(scope: &'a Scope<'a>, name: &Text) -> bool
    ensures { result ≡ is_in (names_in_scope scope.now) name.now }
{
    match scope {
        Scope::Params(params) => contains(params, name),
        Scope::Bound { name: own, outer } => own.is_same(name) || is_bound(outer, name),
    }
}

/// Whether a variable of the terms isn't in scope.
fn has_unbound<'a>(scope: &'a Scope<'a>, terms: &[Term]) -> bool
    ensures { result ≡ is_unbound (names_in_scope scope.now) terms.now }
{
    for term in terms {
        match term {
            Term::Variable(name) => {
                if !is_bound(scope, name) {
                    return true;
                }
            }
            Term::Constant(_) => {}
        }
    }
    false
}

/// Whether the name is that of a macro that takes another number of terms.
fn takes_other(before: &[Item], name: &Text, count: usize) -> bool
    ensures { result ≡ other_count (macro_of (before_of before.now) name.now) count }
{
    match find_macro(before, name) {
        None => false,
        Some(m) => match &before[m] {
            Item::Pred { params, .. } => params.len() != count,
            Item::Prop { .. } => unreachable!(),
        },
    }
}

/// Whether the atom, which stands in item m, fails the test.
fn fails<'a>(
    items: &[Item],
    m: usize,
    test: Test,
    scope: &'a Scope<'a>,
    name: &Text,
    terms: &[Term],
) -> bool
    requires within { m < length items.now }
    ensures { result ≡ is_bad_at test items.now m (names_in_scope scope.now, Atom name.now terms.now) }
{
    match test {
        Test::Late => has_macro(&items[m..], name),
        Test::Arity => takes_other(&items[..m], name, terms.len()),
        Test::Free => has_unbound(scope, terms),
    }
}

/// Whether a node of the formula, which stands in item m, fails the test. The first of its nodes has the number `node`,
/// which becomes that of the first one that fails, or of the first node after the formula.
#[cycle(walk)]
fn any_fails<'a>(
    items: &[Item],
    m: usize,
    test: Test,
    scope: &'a Scope<'a>,
    formula: &Formula,
    node: &mut u32,
) -> bool
    requires within { m < length items.now }
    requires few { node.old + length (nodes_in (names_in_scope scope.now) (formula_of formula.now)) < 4294967296 }
    ensures { IsFirst (is_bad_at test items.now m) node.old (nodes_in (names_in_scope scope.now) (formula_of formula.now)) node.new result }
{
    match formula {
        Formula::True | Formula::False => {
            *node += 1;
            false
        }
        Formula::Atom { name, terms } => {
            if fails(items, m, test, scope, name, terms.as_slice()) {
                return true;
            }
            *node += 1;
            false
        }
        Formula::Not(f)
        | Formula::Prev(f)
        | Formula::Once(f)
        | Formula::Always(f)
        | Formula::TimedOnce(_, f)
        | Formula::TimedAlways(_, f) => {
            *node += 1;
            any_fails(items, m, test, scope, f, node)
        }
        Formula::And(f, g)
        | Formula::Or(f, g)
        | Formula::Implies(f, g)
        | Formula::Iff(f, g)
        | Formula::Since(f, g)
        | Formula::TimedSince(_, f, g)
        | Formula::Interval(f, g) => {
            *node += 1;
            either_fails(items, m, test, scope, f, g, node)
        }
        Formula::Exists(name, f) | Formula::Forall(name, f) => {
            *node += 1;
            let inner = Scope::Bound {
                name: &*name,
                outer: &*scope,
            };
            any_fails(items, m, test, &inner, f, node)
        }
    }
}

/// The same of two formulas, one after the other.
#[cycle(walk)]
fn either_fails<'a>(
    items: &[Item],
    m: usize,
    test: Test,
    scope: &'a Scope<'a>,
    f: &Formula,
    g: &Formula,
    node: &mut u32,
) -> bool
    requires within { m < length items.now }
    requires few { node.old + length (nodes_in (names_in_scope scope.now) (formula_of f.now) ++ nodes_in (names_in_scope scope.now) (formula_of g.now)) < 4294967296 }
    ensures { IsFirst (is_bad_at test items.now m) node.old (nodes_in (names_in_scope scope.now) (formula_of f.now) ++ nodes_in (names_in_scope scope.now) (formula_of g.now)) node.new result }
{
    if any_fails(items, m, test, &*scope, f, node) {
        return true;
    }
    any_fails(items, m, test, scope, g, node)
}

/// The first node of item m that fails the test.
fn first_of_item(items: &[Item], m: usize, test: Test) -> Option<u32>
    requires within { m < length items.now }
    requires few { AllByRecursion HasFewNodes (map item_of items.now) }
    ensures { result ≡ pass_at test items.now m }
{
    let mut node = 0;
    let found = match &items[m] {
        Item::Pred { params, body, .. } => {
            any_fails(
                items,
                m,
                test,
                &Scope::Params(params.as_slice()),
                body,
                &mut node,
            )
        }
        Item::Prop { body, .. } => {
            any_fails(items, m, test, &Scope::Params(&[]), body, &mut node)
        }
    };
    if found { Some(node) } else { None }
}

/// The first node that fails the test, and its item before it.
pub fn first_failing(items: &[Item], test: Test) -> Option<(u32, u32)>
    requires items { length items.now < 4294967296 }
    requires few { AllByRecursion HasFewNodes (map item_of items.now) }
    ensures { result ≡ first_in (pass_of test) [] 0 (map item_of items.now) }
{
    for m in 0..items.len() {
        if let Some(node) = first_of_item(items, m, test) {
            return Some((m as u32, node));
        }
    }
    None
}
