//! Whether an event is the one that an atom names.
ghost use Rattle.std.specs.List.{zip};
ghost use Rattle.std.specs.Option.{option_copied};
ghost use Rattle.std.specs.Prelude.{◌≡◌, ◌↔◌, [], Some, IsTrue, IsSome, IsSomeAnd, unwrap_or};
ghost use Rattle.qtl_truth.specs.Scope.{assignment_of, HasTexts};
ghost use Rattle.qtl_truth.specs.Truth.{text_at, text_of, texts_of};

use crate::event::Event;
use crate::scope::Scope;
use qtl_syntax::{Term, Text};

/// The text that the pairs give to the variable: the first pair with its name counts.
fn text_at<'a>(pairs: &'a [(Text, Text)], variable: &Text) -> Option<&'a Text>
    ensures { option_copied result ≡ text_at pairs.now variable.now }
{
    for (name, text) in pairs {
        if name.is_same(variable) {
            return Some(text);
        }
    }
    None
}

/// The text of the term: a variable's by the scope, a constant's is itself.
#[cycle(text)]
fn text_of<'a>(scope: &'a Scope<'a>, term: &'a Term) -> Option<&'a Text>
    requires { HasTexts scope.now }
    ensures { option_copied result ≡ text_of (assignment_of scope.now) term.now }
{
    match term {
        Term::Constant(text) => Some(text),
        Term::Variable(name) => match scope {
            Scope::Pairs(pairs) => text_at(pairs, name),
            Scope::Call {
                params,
                terms,
                outer,
            } => argument(params, terms, outer, name),
        },
    }
}

/// The text that a call gives to the parameter of this name: that of the term in its place.
#[cycle(text)]
fn argument<'a>(
    params: &'a [Text],
    terms: &'a [Term],
    outer: &'a Scope<'a>,
    name: &Text,
) -> Option<&'a Text>
    requires own { IsSome (texts_of (assignment_of outer.now) terms.now) }
    requires texts { HasTexts outer.now }
    ensures { option_copied result
        ≡ text_at (zip params.now (unwrap_or (texts_of (assignment_of outer.now) terms.now) [])) name.now }
{
    let count = params.len().min(terms.len());
    for k in 0..count {
        if params[k].is_same(name) {
            return text_of(outer, &terms[k]);
        }
    }
    None
}

/// Whether each of the terms has a text.
pub fn have_texts<'a>(scope: &'a Scope<'a>, terms: &'a [Term]) -> bool
    requires { HasTexts scope.now }
    ensures { IsTrue result ↔ IsSome (texts_of (assignment_of scope.now) terms.now) }
{
    for term in terms {
        if text_of(scope, term).is_none() {
            return false;
        }
    }
    true
}

/// Whether the term has this text.
fn is_text_of(scope: &Scope, term: &Term, text: &Text) -> bool
    requires { HasTexts scope.now }
    ensures { IsTrue result ↔ (text_of (assignment_of scope.now) term.now ≡ Some text.now) }
{
    match text_of(scope, term) {
        Some(own) => own.is_same(text),
        None => false,
    }
}

/// Whether the terms, in order, have just these texts.
fn are_texts_of(scope: &Scope, terms: &[Term], texts: &[Text]) -> bool
    requires { HasTexts scope.now }
    ensures { IsTrue result ↔ (texts_of (assignment_of scope.now) terms.now ≡ Some texts.now) }
{
    if terms.len() != texts.len() {
        return false;
    }
    for (k, term) in terms.iter().enumerate() {
        if !is_text_of(scope, term, &texts[k]) {
            return false;
        }
    }
    true
}

/// Whether the event has the name, and as its arguments the texts of the terms. A variable without a text makes
/// it false.
pub fn is_event(scope: &Scope, name: &Text, terms: &[Term], event: &Event) -> bool
    requires { HasTexts scope.now }
    ensures { IsTrue result ↔ IsSomeAnd (texts_of (assignment_of scope.now) terms.now)
        (λ args. (event.now.name ≡ name.now) × (event.now.args ≡ args)) }
{
    event.name.is_same(name) && are_texts_of(scope, terms, event.args.as_slice())
}
