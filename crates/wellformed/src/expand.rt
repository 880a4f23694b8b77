//! Calls replaced by the bodies of their macros, and names by numbers.
ghost use Rattle.std.specs.Prelude.{◌≡◌, ◌+◌, ◌<◌, [], ◌∷◌, ◌++◌, length, map, IfOk, OnOk};
ghost use Rattle.qtl_syntax.specs.Tree.{formula_of, item_of};
ghost use Rattle.qtl_truth.specs.Items.{before_of};
ghost use Rattle.qtl_truth.specs.declared.numbered_atom.AtomTerm.TheVariants as term;
ghost use Rattle.wellformed.specs.CoreTree.{core_of, props_of};
ghost use Rattle.wellformed.specs.Expansion.{called, call_names, call_quantifiers, expansion, expanded_props, props_quantifiers, props_variables, quantifiers, quantifier_names, variables_named};
ghost use Rattle.wellformed.specs.Meanings.{names_of};

use crate::core_formula::{CoreFormula, CoreProp, Variable};
use crate::macros::find_macro;
use crate::meaning::{Meaning, number_all};
use qtl_syntax::{Formula, Item, Text};
use qtl_truth::{Atom, AtomTerm};
use sqlite_items::Items;
use std::alloc::{AllocError, Global};

/// The formula under the items before it; its quantifiers have the next numbers.
#[cycle(expansion)]
fn expand<'a>(
    alloc: Global,
    items: &[Item],
    meaning: &'a Meaning<'a>,
    formula: &Formula,
    property: u32,
    variables: &mut Items<Variable>,
) -> Result<CoreFormula, AllocError>
    requires few { length variables.old + quantifiers (before_of items.now) (formula_of formula.now) < 4294967296 }
    ensures core { IfOk result (λ c. core_of c ≡ expansion (before_of items.now) (names_of meaning.now) (length variables.old) (formula_of formula.now)) }
    ensures count { OnOk result (length variables.new ≡ length variables.old + quantifiers (before_of items.now) (formula_of formula.now)) }
    ensures variables { OnOk result (variables.new ≡ variables.old ++ variables_named property (quantifier_names (before_of items.now) (formula_of formula.now))) }
{
    match formula {
        Formula::True => Ok(CoreFormula::True),
        Formula::False => Ok(CoreFormula::False),
        Formula::Atom { name, terms } => {
            let numbered = number_all(alloc, meaning, terms.as_slice())?;
            call(alloc, items, name, numbered, property, variables)
        }
        Formula::Not(f) => Ok(CoreFormula::Not(one(
            alloc, items, meaning, f, property, variables,
        )?)),
        Formula::And(f, g) => {
            let (f, g) = two(alloc, items, meaning, f, g, property, variables)?;
            Ok(CoreFormula::And(f, g))
        }
        Formula::Or(f, g) => {
            let (f, g) = two(alloc, items, meaning, f, g, property, variables)?;
            Ok(CoreFormula::Or(f, g))
        }
        Formula::Implies(f, g) => {
            let (f, g) = two(alloc, items, meaning, f, g, property, variables)?;
            Ok(CoreFormula::Implies(f, g))
        }
        Formula::Iff(f, g) => {
            let (f, g) = two(alloc, items, meaning, f, g, property, variables)?;
            Ok(CoreFormula::Iff(f, g))
        }
        Formula::Prev(f) => Ok(CoreFormula::Prev(one(
            alloc, items, meaning, f, property, variables,
        )?)),
        Formula::Since(f, g) => {
            let (f, g) = two(alloc, items, meaning, f, g, property, variables)?;
            Ok(CoreFormula::Since(f, g))
        }
        Formula::TimedSince(bound, f, g) => {
            let (f, g) = two(alloc, items, meaning, f, g, property, variables)?;
            Ok(CoreFormula::TimedSince(*bound, f, g))
        }
        Formula::Once(f) => Ok(CoreFormula::Once(one(
            alloc, items, meaning, f, property, variables,
        )?)),
        Formula::TimedOnce(bound, f) => Ok(CoreFormula::TimedOnce(
            *bound,
            one(alloc, items, meaning, f, property, variables)?,
        )),
        Formula::Always(f) => Ok(CoreFormula::Always(one(
            alloc, items, meaning, f, property, variables,
        )?)),
        Formula::TimedAlways(bound, f) => Ok(CoreFormula::TimedAlways(
            *bound,
            one(alloc, items, meaning, f, property, variables)?,
        )),
        Formula::Interval(f, g) => {
            let (f, g) = two(alloc, items, meaning, f, g, property, variables)?;
            Ok(CoreFormula::Interval(f, g))
        }
        Formula::Exists(name, f) => {
            let number = variables.len() as u32;
            Ok(CoreFormula::Exists(
                number,
                under(alloc, items, meaning, name, f, property, variables)?,
            ))
        }
        Formula::Forall(name, f) => {
            let number = variables.len() as u32;
            Ok(CoreFormula::Forall(
                number,
                under(alloc, items, meaning, name, f, property, variables)?,
            ))
        }
    }
}

/// What stands for a call: the body of the macro of the name, or an atom where there is none.
#[cycle(expansion)]
fn call(
    alloc: Global,
    items: &[Item],
    name: &Text,
    terms: Items<AtomTerm>,
    property: u32,
    variables: &mut Items<Variable>,
) -> Result<CoreFormula, AllocError>
    requires few { length variables.old + call_quantifiers (before_of items.now) name.now < 4294967296 }
    ensures core { IfOk result (λ c. core_of c ≡ called (before_of items.now) name.now terms (length variables.old)) }
    ensures count { OnOk result (length variables.new ≡ length variables.old + call_quantifiers (before_of items.now) name.now) }
    ensures variables { OnOk result (variables.new ≡ variables.old ++ variables_named property (call_names (before_of items.now) name.now)) }
{
    match find_macro(items, name) {
        None => Ok(CoreFormula::Atom(Atom {
            name: name.copy()?,
            terms,
        })),
        Some(m) => match &items[m] {
            Item::Pred { params, body, .. } => {
                let meaning = Meaning::Call {
                    params: params.as_slice(),
                    terms: terms.as_slice(),
                };
                expand(alloc, &items[..m], &meaning, body, property, variables)
            }
            Item::Prop { .. } => unreachable!(),
        },
    }
}

/// The same in a box.
#[cycle(expansion)]
fn one<'a>(
    alloc: Global,
    items: &[Item],
    meaning: &'a Meaning<'a>,
    formula: &Formula,
    property: u32,
    variables: &mut Items<Variable>,
) -> Result<Box<CoreFormula>, AllocError>
    requires few { length variables.old + quantifiers (before_of items.now) (formula_of formula.now) < 4294967296 }
    ensures core { IfOk result (λ c. core_of c.value ≡ expansion (before_of items.now) (names_of meaning.now) (length variables.old) (formula_of formula.now)) }
    ensures count { OnOk result (length variables.new ≡ length variables.old + quantifiers (before_of items.now) (formula_of formula.now)) }
    ensures variables { OnOk result (variables.new ≡ variables.old ++ variables_named property (quantifier_names (before_of items.now) (formula_of formula.now))) }
{
    let core = expand(alloc, items, meaning, formula, property, variables)?;
    Ok(Box::new(alloc, core)?)
}

/// The same of two formulas, one after the other.
#[cycle(expansion)]
fn two<'a>(
    alloc: Global,
    items: &[Item],
    meaning: &'a Meaning<'a>,
    f: &Formula,
    g: &Formula,
    property: u32,
    variables: &mut Items<Variable>,
) -> Result<(Box<CoreFormula>, Box<CoreFormula>), AllocError>
    requires few { length variables.old + (quantifiers (before_of items.now) (formula_of f.now) + quantifiers (before_of items.now) (formula_of g.now)) < 4294967296 }
    ensures left { IfOk result (λ c. core_of c.0.value ≡ expansion (before_of items.now) (names_of meaning.now) (length variables.old) (formula_of f.now)) }
    ensures right { IfOk result (λ c. core_of c.1.value ≡ expansion (before_of items.now) (names_of meaning.now) (length variables.old + quantifiers (before_of items.now) (formula_of f.now)) (formula_of g.now)) }
    ensures count { OnOk result (length variables.new ≡ length variables.old + (quantifiers (before_of items.now) (formula_of f.now) + quantifiers (before_of items.now) (formula_of g.now))) }
    ensures variables { OnOk result (variables.new ≡ variables.old ++ variables_named property (quantifier_names (before_of items.now) (formula_of f.now) ++ quantifier_names (before_of items.now) (formula_of g.now))) }
{
    let left = one(alloc, items, &*meaning, f, property, variables)?;
    let right = one(alloc, items, meaning, g, property, variables)?;
    Ok((left, right))
}

/// The body of a quantifier of the name, which takes the next number.
#[cycle(expansion)]
fn under<'a>(
    alloc: Global,
    items: &[Item],
    meaning: &'a Meaning<'a>,
    name: &Text,
    formula: &Formula,
    property: u32,
    variables: &mut Items<Variable>,
) -> Result<Box<CoreFormula>, AllocError>
    requires few { length variables.old + (1 + quantifiers (before_of items.now) (formula_of formula.now)) < 4294967296 }
    ensures core { IfOk result (λ c. core_of c.value ≡ expansion (before_of items.now) ((name.now, term.Variable (length variables.old)) ∷ names_of meaning.now) (length variables.old + 1) (formula_of formula.now)) }
    ensures count { OnOk result (length variables.new ≡ length variables.old + (1 + quantifiers (before_of items.now) (formula_of formula.now))) }
    ensures variables { OnOk result (variables.new ≡ variables.old ++ variables_named property (name.now ∷ quantifier_names (before_of items.now) (formula_of formula.now))) }
{
    let own = variables.len() as u32;
    variables.push(Variable {
        name: name.copy()?,
        property,
    })?;
    let inner = Meaning::Bound {
        name: &*name,
        number: own,
        outer: &*meaning,
    };
    one(alloc, items, &inner, formula, property, variables)
}

/// What the properties of a specification are without macros.
#[derive(Drop)]
pub struct Expanded {
    pub variables: Items<Variable>,
    pub props: Items<CoreProp>,
}

/// The properties of the items without macros, and their variables.
pub fn expand_props(alloc: Global, items: &[Item]) -> Result<Expanded, AllocError>
    requires few { props_quantifiers [] (map item_of items.now) < 4294967296 }
    requires count { length items.now < 4294967296 }
    ensures props { IfOk result (λ e. props_of e.props ≡ expanded_props [] 0 (map item_of items.now)) }
    ensures variables { IfOk result (λ e. e.variables ≡ props_variables [] 0 (map item_of items.now)) }
    ensures count { IfOk result (λ e. length e.variables ≡ props_quantifiers [] (map item_of items.now)) }
{
    let mut variables = Items::new(alloc);
    let mut props = Items::new(alloc);
    let nothing = Meaning::Call {
        params: &[],
        terms: &[],
    };
    for (m, item) in items.iter().enumerate() {
        if let Item::Prop { name, body } = item {
            let property = props.len() as u32;
            let root = expand(alloc, &items[..m], &nothing, body, property, &mut variables)?;
            props.push(CoreProp {
                name: name.copy()?,
                root,
            })?;
        }
    }
    Ok(Expanded { variables, props })
}
