//! The canonical text of a specification.
ghost use Rattle.std.specs.Prelude.{◌≡◌, ℕ, List, ◌++◌, [], if◌then◌else◌, codes, decimal, map, IfOk};
ghost use Rattle.qtl_syntax.specs.Tree.{Item as TheItem, formula_of, item_of, items_of};
ghost use Rattle.qtl_syntax.specs.Canonical.{is_plain as is_plain_lem, after_commas, listed, term_text, atom_text, bound_text, text_of, line_of, canonical};
ghost use Rattle.qtl_syntax.specs.Signs.{sign_of};
ghost use Rattle.qtl_syntax.specs.Faults.{SpellsText, ReadsBack};

use crate::formula::{Bound, Formula, Item, Term};
use crate::spec::Spec;
use crate::text::Text;
use std::alloc::{AllocError, Global};

fn is_plain(formula: &Formula) -> bool
    ensures { result ≡ is_plain_lem (formula_of formula.now) }
{
    matches!(
        formula,
        Formula::True | Formula::False | Formula::Atom { .. } | Formula::Interval(_, _)
    )
}

fn write_term(out: &mut Vec<u8>, term: &Term) -> Result<(), AllocError>
    ensures { IfOk result (λ _. out.new.items ≡ out.old.items ++ term_text term.now) }
{
    match term {
        Term::Variable(name) => out.extend_from_slice(name.bytes()),
        Term::Constant(text) => {
            out.extend_from_slice(b"\"")?;
            out.extend_from_slice(text.bytes())?;
            out.extend_from_slice(b"\"")
        }
    }
}

fn write_more_terms(out: &mut Vec<u8>, terms: &[Term]) -> Result<(), AllocError>
    ensures { IfOk result (λ _. out.new.items ≡ out.old.items ++ after_commas (map term_text terms.now)) }
{
    for term in terms {
        out.extend_from_slice(b",")?;
        write_term(out, term)?;
    }
    Ok(())
}

fn write_atom(out: &mut Vec<u8>, name: &Text, terms: &[Term]) -> Result<(), AllocError>
    ensures { IfOk result (λ _. out.new.items ≡ out.old.items ++ atom_text name.now terms.now) }
{
    out.extend_from_slice(name.bytes())?;
    match terms {
        [] => Ok(()),
        [first, rest @ ..] => {
            out.extend_from_slice(b"(")?;
            write_term(out, first)?;
            write_more_terms(out, rest)?;
            out.extend_from_slice(b")")
        }
    }
}

fn write_more_params(out: &mut Vec<u8>, params: &[Text]) -> Result<(), AllocError>
    ensures { IfOk result (λ _. out.new.items ≡ out.old.items ++ after_commas params.now) }
{
    for param in params {
        out.extend_from_slice(b",")?;
        out.extend_from_slice(param.bytes())?;
    }
    Ok(())
}

fn write_params(out: &mut Vec<u8>, params: &[Text]) -> Result<(), AllocError>
    ensures { IfOk result (λ _. out.new.items ≡ out.old.items ++ listed params.now) }
{
    match params {
        [] => Ok(()),
        [first, rest @ ..] => {
            out.extend_from_slice(first.bytes())?;
            write_more_params(out, rest)
        }
    }
}

fn write_number(out: &mut Vec<u8>, number: u32) -> Result<(), AllocError>
    ensures { IfOk result (λ _. out.new.items ≡ out.old.items ++ decimal number) }
{
    let mut buffer = itoa::Buffer::new();
    out.extend_from_slice(buffer.format(number).as_bytes())
}

fn write_bound(out: &mut Vec<u8>, bound: Bound) -> Result<(), AllocError>
    ensures { IfOk result (λ _. out.new.items ≡ out.old.items ++ bound_text bound) }
{
    match bound {
        Bound::AtMost(n) => {
            out.extend_from_slice(b"[<=")?;
            write_number(out, n)?;
            out.extend_from_slice(b"]")
        }
        Bound::MoreThan(n) => {
            out.extend_from_slice(b"[>")?;
            write_number(out, n)?;
            out.extend_from_slice(b"]")
        }
    }
}

/// An operator with a bound, and a space behind it.
fn write_timed(out: &mut Vec<u8>, sign: &[u8], bound: Bound) -> Result<(), AllocError>
    ensures { IfOk result (λ _. out.new.items ≡ out.old.items ++ (sign.now ++ (bound_text bound ++ codes " "))) }
{
    out.extend_from_slice(sign)?;
    write_bound(out, bound)?;
    out.extend_from_slice(b" ")
}

/// A quantifier with its variable.
fn write_quantifier(out: &mut Vec<u8>, word: &[u8], variable: &Text) -> Result<(), AllocError>
    ensures { IfOk result (λ _. out.new.items ≡ out.old.items ++ (word.now ++ (variable.now ++ codes " . "))) }
{
    out.extend_from_slice(word)?;
    out.extend_from_slice(variable.bytes())?;
    out.extend_from_slice(b" . ")
}

/// The operator of a formula, with its spaces.
fn write_sign(out: &mut Vec<u8>, formula: &Formula) -> Result<(), AllocError>
    ensures { IfOk result (λ _. out.new.items ≡ out.old.items ++ sign_of (formula_of formula.now)) }
{
    match formula {
        Formula::Not(_) => out.extend_from_slice(b"! "),
        Formula::And(_, _) => out.extend_from_slice(b" & "),
        Formula::Or(_, _) => out.extend_from_slice(b" | "),
        Formula::Implies(_, _) => out.extend_from_slice(b" -> "),
        Formula::Iff(_, _) => out.extend_from_slice(b" <-> "),
        Formula::Prev(_) => out.extend_from_slice(b"@ "),
        Formula::Since(_, _) => out.extend_from_slice(b" S "),
        Formula::TimedSince(bound, _, _) => write_timed(out, b" S", *bound),
        Formula::Once(_) => out.extend_from_slice(b"P "),
        Formula::TimedOnce(bound, _) => write_timed(out, b"P", *bound),
        Formula::Always(_) => out.extend_from_slice(b"H "),
        Formula::TimedAlways(bound, _) => write_timed(out, b"H", *bound),
        Formula::Exists(x, _) => write_quantifier(out, b"exists ", x),
        Formula::Forall(x, _) => write_quantifier(out, b"forall ", x),
        _ => Ok(()),
    }
}

/// The parenthesis before an operand, if it stands in them.
fn write_open(out: &mut Vec<u8>, operand: &Formula) -> Result<(), AllocError>
    ensures { IfOk result (λ _. out.new.items ≡ out.old.items ++ (if is_plain_lem (formula_of operand.now) then [] else codes "(")) }
{
    if is_plain(operand) {
        return Ok(());
    }
    out.extend_from_slice(b"(")
}

/// The parenthesis behind it.
fn write_close(out: &mut Vec<u8>, operand: &Formula) -> Result<(), AllocError>
    ensures { IfOk result (λ _. out.new.items ≡ out.old.items ++ (if is_plain_lem (formula_of operand.now) then [] else codes ")")) }
{
    if is_plain(operand) {
        return Ok(());
    }
    out.extend_from_slice(b")")
}

fn write_formula(out: &mut Vec<u8>, formula: &Formula) -> Result<(), AllocError>
    ensures { IfOk result (λ _. out.new.items ≡ out.old.items ++ text_of (formula_of formula.now)) }
{
    match formula {
        Formula::True => out.extend_from_slice(b"true"),
        Formula::False => out.extend_from_slice(b"false"),
        Formula::Atom { name, terms } => write_atom(out, name, terms.as_slice()),
        Formula::Not(f)
        | Formula::Prev(f)
        | Formula::Once(f)
        | Formula::TimedOnce(_, f)
        | Formula::Always(f)
        | Formula::TimedAlways(_, f) => {
            write_sign(out, formula)?;
            write_open(out, f)?;
            write_formula(out, f)?;
            write_close(out, f)
        }
        Formula::And(f, g)
        | Formula::Or(f, g)
        | Formula::Implies(f, g)
        | Formula::Iff(f, g)
        | Formula::Since(f, g)
        | Formula::TimedSince(_, f, g) => {
            write_open(out, f)?;
            write_formula(out, f)?;
            write_close(out, f)?;
            write_sign(out, formula)?;
            write_open(out, g)?;
            write_formula(out, g)?;
            write_close(out, g)?;
            Ok(())
        }
        Formula::Interval(f, g) => {
            out.extend_from_slice(b"[")?;
            write_formula(out, f)?;
            out.extend_from_slice(b",")?;
            write_formula(out, g)?;
            out.extend_from_slice(b")")
        }
        Formula::Exists(_, f) | Formula::Forall(_, f) => {
            write_sign(out, formula)?;
            write_formula(out, f)
        }
    }
}

fn write_item(out: &mut Vec<u8>, item: &Item) -> Result<(), AllocError>
    ensures { IfOk result (λ _. out.new.items ≡ out.old.items ++ line_of (item_of item.now)) }
{
    match item {
        Item::Prop { name, body } => {
            out.extend_from_slice(b"prop ")?;
            out.extend_from_slice(name.bytes())?;
            out.extend_from_slice(b" : ")?;
            write_formula(out, body)?;
            out.extend_from_slice(b"\n")
        }
        Item::Pred { name, params, body } => {
            out.extend_from_slice(b"pred ")?;
            out.extend_from_slice(name.bytes())?;
            out.extend_from_slice(b"(")?;
            write_params(out, params.as_slice())?;
            out.extend_from_slice(b") = ")?;
            write_formula(out, body)?;
            out.extend_from_slice(b"\n")
        }
    }
}

fn write_items(out: &mut Vec<u8>, items: &[Item]) -> Result<(), AllocError>
    ensures { IfOk result (λ _. out.new.items ≡ out.old.items ++ canonical (map item_of items.now)) }
{
    for item in items {
        write_item(out, item)?;
    }
    Ok(())
}

/// The canonical text of the specification. Its tokens spell the specification and no other.
/// Its parentheses can make it too deep to be parsed; every other text of `print` is parsed as it.
pub fn print(alloc: Global, spec: &Spec) -> Result<Vec<u8>, AllocError>
    ensures canonical { IfOk result (λ text. text.items ≡ canonical (items_of spec.now)) }
    ensures spelled { IfOk result (λ text. (height : ℕ) × SpellsText height text.items (items_of spec.now)) }
    ensures only { IfOk result (λ text. (height : ℕ) (items : List TheItem) → SpellsText height text.items items → items ≡ items_of spec.now) }
    ensures read_back { IfOk result (λ text. ReadsBack text.items (items_of spec.now)) }
{
    let mut out = Vec::new(alloc);
    write_items(&mut out, spec.items.as_slice())?;
    Ok(out)
}
