//! What names stand for where a formula is expanded.
ghost use Rattle.std.specs.Prelude.{◌≡◌, map, IfOk};
ghost use Rattle.std.specs.List.{zip};
ghost use Rattle.wellformed.specs.Expansion.{meant, numbered_term};
ghost use Rattle.wellformed.specs.Meanings.{names_of};

use qtl_syntax::{Term, Text};
use qtl_truth::AtomTerm;
use sqlite_items::Items;
use std::alloc::{AllocError, Global};

/// What the names in scope stand for. Nothing outside a macro's body is in scope there, so no quantifier of a body can
/// bind a variable of a call.
#[derive(Clone, Copy)]
pub enum Meaning<'a> {
    /// Each parameter of a macro stands for the call's term in its place.
    Call {
        params: &'a [Text],
        terms: &'a [AtomTerm],
    },
    /// A quantifier's name stands for its variable; other names stand for what they do round it.
    Bound {
        name: &'a Text,
        number: u32,
        outer: &'a Meaning<'a>,
    },
}

/// The term in the place of the parameter of this name.
fn argument(params: &[Text], terms: &[AtomTerm], name: &Text) -> Result<AtomTerm, AllocError>
    ensures { IfOk result (λ t. t ≡ meant (zip params.now terms.now) name.now) }
{
    let count = params.len().min(terms.len());
    for k in 0..count {
        if params[k].is_same(name) {
            return terms[k].copy();
        }
    }
    Ok(AtomTerm::Constant(name.copy()?))
}

/// What the name stands for.
fn term_of<'a>(meaning: &'a Meaning<'a>, name: &Text) -> Result<AtomTerm, AllocError>
    ensures { IfOk result (λ t. t ≡ meant (names_of meaning.now) name.now) }
{
    match meaning {
        Meaning::Call { params, terms } => argument(params, terms, name),
        Meaning::Bound {
            name: own,
            number,
            outer,
        } => {
            if own.is_same(name) {
                Ok(AtomTerm::Variable(*number))
            } else {
                term_of(outer, name)
            }
        }
    }
}

/// The term, with what its name stands for in place of the name.
fn numbered<'a>(meaning: &'a Meaning<'a>, term: &Term) -> Result<AtomTerm, AllocError>
    ensures { IfOk result (λ t. t ≡ numbered_term (names_of meaning.now) term.now) }
{
    match term {
        Term::Variable(name) => term_of(meaning, name),
        Term::Constant(text) => Ok(AtomTerm::Constant(text.copy()?)),
    }
}

/// The terms, with what their names stand for in place of the names.
pub fn number_all<'a>(
    alloc: Global,
    meaning: &'a Meaning<'a>,
    terms: &[Term],
) -> Result<Items<AtomTerm>, AllocError>
    ensures { IfOk result (λ ts. ts ≡ map (numbered_term (names_of meaning.now)) terms.now) }
{
    let mut all = Items::new(alloc);
    for term in terms {
        let next = numbered(meaning, term)?;
        all.push(next)?;
    }
    Ok(all)
}
