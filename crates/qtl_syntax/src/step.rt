//! One token more of a formula: a function for each state.
ghost use Rattle.std.specs.Prelude.{◌≡◌, ◌+◌, ◌≤◌, ◌∷◌, [], ◌++◌, Some, None, IfOk};
ghost use Rattle.std.specs.Option.{option_map};
ghost use Rattle.qtl_syntax.specs.Tree as tree;
ghost use Rattle.qtl_syntax.specs.Tree.{formula_of};
ghost use Rattle.qtl_syntax.specs.Machine as spec;
ghost use Rattle.qtl_syntax.specs.Machine.{total, least, reduce as reduce_lem, shut as shut_lem, next, untimed, timed};
ghost use Rattle.qtl_syntax.specs.Kept.{frames_of, behind_of};
ghost use Rattle.qtl_syntax.specs.KeptState.{state_of, timeable_of};

use crate::formula::{Bound, Formula, Term};
use crate::operator::{Binary, Prefix, Quantifier};
use crate::stack::{Behind, Stack, reduce, shut};
use crate::state::{State, Timeable};
use crate::text::Text;
use crate::token::{Sign, Token, Word};
use sqlite_items::Items;
use std::alloc::{AllocError, Global};

/// Where a formula begins.
pub fn operand_next(alloc: Global, stack: Stack, token: &Token) -> Result<Option<State>, AllocError>
    ensures { IfOk result (λ o. option_map state_of o ≡ spec.operand_next (frames_of stack) token.now) }
{
    match token {
        Token::Sign(Sign::Not) => prefix_opened(alloc, Prefix::Not, stack),
        Token::Sign(Sign::Prev) => prefix_opened(alloc, Prefix::Prev, stack),
        Token::Sign(Sign::LeftBracket) => Ok(Some(State::Operand(Stack::First(Box::new(
            alloc, stack,
        )?)))),
        Token::Sign(Sign::LeftParen) => Ok(Some(State::Operand(Stack::Paren(Box::new(
            alloc, stack,
        )?)))),
        Token::Word(word) => word_next(stack, *word),
        Token::Name(n) => Ok(Some(State::Named(stack, n.copy()?))),
        _ => Ok(None),
    }
}

fn prefix_opened(alloc: Global, op: Prefix, stack: Stack) -> Result<Option<State>, AllocError>
    ensures { IfOk result (λ o. option_map state_of o ≡ Some (spec.Operand (spec.PrefixOf op ∷ frames_of stack))) }
{
    Ok(Some(State::Operand(Stack::Prefix(op, Box::new(alloc, stack)?))))
}

fn word_next(stack: Stack, word: Word) -> Result<Option<State>, AllocError>
    ensures { IfOk result (λ o. option_map state_of o ≡ spec.operand_next (frames_of stack) (Token.Word word)) }
{
    Ok(match word {
        Word::Once => Some(State::Bounded(stack, Timeable::Once)),
        Word::Always => Some(State::Bounded(stack, Timeable::Always)),
        Word::Exists => Some(State::OfVariable(stack, Quantifier::Exists)),
        Word::Forall => Some(State::OfVariable(stack, Quantifier::Forall)),
        Word::True => Some(State::Whole(stack, Formula::True, 1)),
        Word::False => Some(State::Whole(stack, Formula::False, 1)),
        _ => None,
    })
}

fn with_sign(
    alloc: Global,
    op: Binary,
    left: u32,
    stack: Stack,
    f: Formula,
    height: u32,
) -> Result<Option<State>, AllocError>
    requires low { total (frames_of stack) height ≤ 256 }
    ensures { IfOk result (λ o. option_map state_of o ≡ Some (spec.with_sign op (reduce_lem left (frames_of stack) (formula_of f) height))) }
{
    let b = reduce(alloc, left, stack, f, height)?;
    let under = Box::new(alloc, b.stack)?;
    Ok(Some(State::Operand(Stack::Binary(op, b.formula, b.height, under))))
}

fn with_since(
    alloc: Global,
    stack: Stack,
    f: Formula,
    height: u32,
) -> Result<Option<State>, AllocError>
    requires low { total (frames_of stack) height ≤ 256 }
    ensures { IfOk result (λ o. option_map state_of o ≡ Some (spec.with_since (reduce_lem 4 (frames_of stack) (formula_of f) height))) }
{
    let b = reduce(alloc, 4, stack, f, height)?;
    Ok(Some(State::Bounded(b.stack, Timeable::Since(b.formula, b.height))))
}

#[tactic(auto, using(crate::proofs::Least::above))]
fn close(alloc: Global, b: Behind) -> Result<Option<State>, AllocError>
    requires low { total (frames_of b.stack) b.height ≤ 256 }
    ensures { IfOk result (λ o. option_map state_of o ≡ spec.close (behind_of b)) }
{
    let Behind {
        stack,
        formula,
        height,
    } = b;
    match stack {
        Stack::Paren(rest) => Ok(Some(State::Whole(Box::into_inner(rest), formula, height + 1))),
        Stack::Second(g, k, rest) => {
            let f = Formula::Interval(Box::new(alloc, g)?, Box::new(alloc, formula)?);
            let height = k.max(height) + 1;
            Ok(Some(State::Whole(Box::into_inner(rest), f, height)))
        }
        _other => Ok(None),
    }
}

fn part(b: Behind) -> Option<State>
    ensures { option_map state_of result ≡ spec.part (behind_of b) }
{
    let Behind {
        stack,
        formula,
        height,
    } = b;
    match stack {
        Stack::First(rest) => Some(State::Operand(Stack::Second(formula, height, rest))),
        _other => None,
    }
}

/// Behind a whole formula.
pub fn after_whole(
    alloc: Global,
    stack: Stack,
    f: Formula,
    height: u32,
    token: &Token,
) -> Result<Option<State>, AllocError>
    requires low { total (frames_of stack) height ≤ 256 }
    ensures { IfOk result (λ o. option_map state_of o ≡ spec.after_whole (frames_of stack) (formula_of f) height token.now) }
{
    match token {
        Token::Sign(Sign::Iff) => with_sign(alloc, Binary::Iff, 0, stack, f, height),
        Token::Sign(Sign::Implies) => with_sign(alloc, Binary::Implies, 2, stack, f, height),
        Token::Sign(Sign::Or) => with_sign(alloc, Binary::Or, 2, stack, f, height),
        Token::Sign(Sign::And) => with_sign(alloc, Binary::And, 3, stack, f, height),
        Token::Word(Word::Since) => with_since(alloc, stack, f, height),
        Token::Sign(Sign::RightParen) => close(alloc, shut(alloc, stack, f, height)?),
        Token::Sign(Sign::Comma) => Ok(part(shut(alloc, stack, f, height)?)),
        _ => Ok(None),
    }
}

/// Behind a name, which may have terms.
pub fn named_next(
    alloc: Global,
    stack: Stack,
    n: Text,
    token: &Token,
) -> Result<Option<State>, AllocError>
    requires low { total (frames_of stack) 1 ≤ 256 }
    ensures { IfOk result (λ o. option_map state_of o ≡ spec.named_next (frames_of stack) n token.now) }
{
    match token {
        Token::Sign(Sign::LeftParen) => Ok(Some(State::FirstTerm(stack, n))),
        _ => {
            let terms = Items::new(alloc);
            after_whole(alloc, stack, Formula::Atom { name: n, terms }, 1, token)
        }
    }
}

fn term_of(token: &Token) -> Result<Option<Term>, AllocError>
    ensures { IfOk result (λ o. o ≡ spec.term_of token.now) }
{
    match token {
        Token::Name(x) => Ok(Some(Term::Variable(x.copy()?))),
        Token::Quoted(c) => Ok(Some(Term::Constant(c.copy()?))),
        Token::Number(c) => Ok(Some(Term::Constant(c.copy()?))),
        _ => Ok(None),
    }
}

/// Behind the comma between two terms.
pub fn next_term(
    stack: Stack,
    n: Text,
    mut terms: Items<Term>,
    token: &Token,
) -> Result<Option<State>, AllocError>
    ensures { IfOk result (λ o. option_map state_of o ≡ spec.next_term (frames_of stack) n terms token.now) }
{
    match term_of(token)? {
        Some(x) => {
            terms.push(x)?;
            Ok(Some(State::TermEnd(stack, n, terms)))
        }
        None => Ok(None),
    }
}

/// Behind the parenthesis that opens the terms.
pub fn first_term(
    alloc: Global,
    stack: Stack,
    n: Text,
    token: &Token,
) -> Result<Option<State>, AllocError>
    ensures { IfOk result (λ o. option_map state_of o ≡ spec.first_term (frames_of stack) n token.now) }
{
    let terms = Items::new(alloc);
    match token {
        Token::Sign(Sign::RightParen) => {
            Ok(Some(State::Whole(stack, Formula::Atom { name: n, terms }, 1)))
        }
        _ => next_term(stack, n, terms, token),
    }
}

/// Behind a term.
pub fn term_end(stack: Stack, n: Text, terms: Items<Term>, token: &Token) -> Option<State>
    ensures { option_map state_of result ≡ spec.term_end (frames_of stack) n terms token.now }
{
    match token {
        Token::Sign(Sign::Comma) => Some(State::NextTerm(stack, n, terms)),
        Token::Sign(Sign::RightParen) => {
            Some(State::Whole(stack, Formula::Atom { name: n, terms }, 1))
        }
        _ => None,
    }
}

/// Behind the word of a quantifier.
pub fn of_variable(
    stack: Stack,
    quantifier: Quantifier,
    token: &Token,
) -> Result<Option<State>, AllocError>
    ensures { IfOk result (λ o. option_map state_of o ≡ spec.of_variable (frames_of stack) quantifier token.now) }
{
    match token {
        Token::Name(x) => Ok(Some(State::OfDot(stack, quantifier, x.copy()?))),
        _ => Ok(None),
    }
}

/// Behind the variable of a quantifier.
pub fn of_dot(
    alloc: Global,
    stack: Stack,
    quantifier: Quantifier,
    x: Text,
    token: &Token,
) -> Result<Option<State>, AllocError>
    ensures { IfOk result (λ o. option_map state_of o ≡ spec.of_dot (frames_of stack) quantifier x token.now) }
{
    match token {
        Token::Sign(Sign::Dot) => {
            let under = Box::new(alloc, stack)?;
            Ok(Some(State::Operand(Stack::Quantifier(quantifier, x, under))))
        }
        _ => Ok(None),
    }
}

fn without_bound(alloc: Global, stack: Stack, operator: Timeable) -> Result<Stack, AllocError>
    ensures { IfOk result (λ s. frames_of s ≡ untimed (timeable_of operator) ∷ frames_of stack) }
{
    let under = Box::new(alloc, stack)?;
    Ok(match operator {
        Timeable::Once => Stack::Prefix(Prefix::Once, under),
        Timeable::Always => Stack::Prefix(Prefix::Always, under),
        Timeable::Since(f, height) => Stack::Binary(Binary::Since, f, height, under),
    })
}

fn with_bound(
    alloc: Global,
    stack: Stack,
    operator: Timeable,
    bound: Bound,
) -> Result<Stack, AllocError>
    ensures { IfOk result (λ s. frames_of s ≡ timed bound (timeable_of operator) ∷ frames_of stack) }
{
    let under = Box::new(alloc, stack)?;
    Ok(match operator {
        Timeable::Once => Stack::Prefix(Prefix::TimedOnce(bound), under),
        Timeable::Always => Stack::Prefix(Prefix::TimedAlways(bound), under),
        Timeable::Since(f, height) => Stack::Binary(Binary::TimedSince(bound), f, height, under),
    })
}

/// Behind an operator that may have a bound.
pub fn bounded_next(
    alloc: Global,
    stack: Stack,
    operator: Timeable,
    token: &Token,
) -> Result<Option<State>, AllocError>
    ensures { IfOk result (λ o. option_map state_of o ≡ spec.bounded_next (frames_of stack) (timeable_of operator) token.now) }
{
    match token {
        Token::Sign(Sign::LeftBracket) => Ok(Some(State::Bracket(stack, operator))),
        _ => operand_next(alloc, without_bound(alloc, stack, operator)?, token),
    }
}

/// Behind a bracket there, which opens a bound or an interval.
pub fn bracket_next(
    alloc: Global,
    stack: Stack,
    operator: Timeable,
    token: &Token,
) -> Result<Option<State>, AllocError>
    ensures { IfOk result (λ o. option_map state_of o ≡ spec.bracket_next (frames_of stack) (timeable_of operator) token.now) }
{
    match token {
        Token::Sign(Sign::AtMost) => Ok(Some(State::OfNumber(stack, operator, true))),
        Token::Sign(Sign::MoreThan) => Ok(Some(State::OfNumber(stack, operator, false))),
        _ => {
            let stack = without_bound(alloc, stack, operator)?;
            operand_next(alloc, Stack::First(Box::new(alloc, stack)?), token)
        }
    }
}

/// Behind the number of a bound.
pub fn bound_end(
    alloc: Global,
    stack: Stack,
    operator: Timeable,
    bound: Bound,
    token: &Token,
) -> Result<Option<State>, AllocError>
    ensures { IfOk result (λ o. option_map state_of o ≡ spec.bound_end (frames_of stack) (timeable_of operator) bound token.now) }
{
    match token {
        Token::Sign(Sign::RightBracket) => Ok(Some(State::Operand(with_bound(
            alloc, stack, operator, bound,
        )?))),
        _ => Ok(None),
    }
}
