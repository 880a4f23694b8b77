//! The state of a formula after one token more, and the formula at its end.
ghost use Rattle.std.specs.Prelude.{◌≡◌, ◌<◌, ◌≤◌, Some, IfOk, IfSome, IfNone, false, nat_lt};
ghost use Rattle.std.specs.Option.{option_map};
ghost use Rattle.qtl_syntax.specs.Grammar.{decimal_from};
ghost use Rattle.qtl_syntax.specs.Machine as spec;
ghost use Rattle.qtl_syntax.specs.Machine.{total, least, next as next_lem, finish as finish_lem, bottom as bottom_lem, bound_of};
ghost use Rattle.qtl_syntax.specs.Kept.{frames_of, behind_of, measured_of};
ghost use Rattle.qtl_syntax.specs.KeptState.{state_of, timeable_of};
ghost use Rattle.qtl_syntax.specs.Judge.{is_large_at};

use crate::formula::{Bound, Formula};
use crate::stack::{Behind, Stack, shut};
use crate::state::{State, Timeable};
use crate::step::{
    after_whole, bound_end, bounded_next, bracket_next, first_term, named_next, next_term, of_dot,
    of_variable, operand_next, term_end,
};
use crate::text::Text;
use crate::token::Token;
use sqlite_items::Items;
use std::alloc::{AllocError, Global};

/// The value of a bound's digits, if it is at most 1,048,574.
fn bound_value(digits: &Text) -> Option<u32>
    ensures value { IfSome result (λ n. (n ≡ decimal_from 0 digits.now) × (n ≤ 1048574)) }
    ensures large { IfNone result (1048574 < decimal_from 0 digits.now) }
{
    let bytes = digits.bytes();
    let mut value: u32 = 0;
    for i in 0..bytes.len() {
        value = 10 * value + (bytes[i].saturating_sub(48) as u32);
        if value > 1048574 {
            return None;
        }
    }
    Some(value)
}

/// Whether the token is the number of a bound, and too large.
pub fn is_too_large(state: &State, token: &Token) -> bool
    ensures { result ≡ is_large_at (state_of state.now) token.now }
{
    match state {
        State::OfNumber(_, _, _) => match token {
            Token::Number(digits) => bound_value(digits).is_none(),
            _ => false,
        },
        _ => false,
    }
}

fn of_number(stack: Stack, operator: Timeable, at_most: bool, token: &Token) -> Option<State>
    requires small { is_large_at (spec.OfNumber (frames_of stack) (timeable_of operator) at_most) token.now ≡ false }
    ensures { option_map state_of result ≡ spec.of_number (frames_of stack) (timeable_of operator) at_most token.now }
{
    match token {
        Token::Number(digits) => match bound_value(digits) {
            Some(n) => {
                let bound = if at_most {
                    Bound::AtMost(n)
                } else {
                    Bound::MoreThan(n)
                };
                Some(State::BoundEnd(stack, operator, bound))
            }
            None => unreachable!(),
        },
        _ => None,
    }
}

/// The state after one token more, if some formula begins so.
pub fn next(alloc: Global, state: State, token: &Token) -> Result<Option<State>, AllocError>
    requires low { least (state_of state) ≤ 256 }
    requires small { is_large_at (state_of state) token.now ≡ false }
    ensures { IfOk result (λ o. option_map state_of o ≡ next_lem (state_of state) token.now) }
{
    match state {
        State::Operand(stack) => operand_next(alloc, stack, token),
        State::Named(stack, n) => named_next(alloc, stack, n, token),
        State::FirstTerm(stack, n) => first_term(alloc, stack, n, token),
        State::NextTerm(stack, n, terms) => next_term(stack, n, terms, token),
        State::TermEnd(stack, n, terms) => Ok(term_end(stack, n, terms, token)),
        State::Whole(stack, f, height) => after_whole(alloc, stack, f, height, token),
        State::OfVariable(stack, quantifier) => of_variable(stack, quantifier, token),
        State::OfDot(stack, quantifier, x) => of_dot(alloc, stack, quantifier, x, token),
        State::Bounded(stack, operator) => bounded_next(alloc, stack, operator, token),
        State::Bracket(stack, operator) => bracket_next(alloc, stack, operator, token),
        State::OfNumber(stack, operator, at_most) => Ok(of_number(stack, operator, at_most, token)),
        State::BoundEnd(stack, operator, bound) => bound_end(alloc, stack, operator, bound, token),
    }
}

/// A formula and its height.
#[derive(Drop)]
pub struct Measured {
    pub formula: Formula,
    pub height: u32,
}

fn bottom(b: Behind) -> Option<Measured>
    ensures { option_map measured_of result ≡ bottom_lem (behind_of b) }
{
    let Behind {
        stack,
        formula,
        height,
    } = b;
    match stack {
        Stack::Bottom => Some(Measured { formula, height }),
        _other => None,
    }
}

/// The formula that ends here, if one may.
pub fn finish(alloc: Global, state: State) -> Result<Option<Measured>, AllocError>
    requires low { least (state_of state) ≤ 256 }
    ensures { IfOk result (λ o. option_map measured_of o ≡ finish_lem (state_of state)) }
{
    match state {
        State::Named(stack, name) => {
            let terms = Items::new(alloc);
            Ok(bottom(shut(alloc, stack, Formula::Atom { name, terms }, 1)?))
        }
        State::Whole(stack, f, height) => Ok(bottom(shut(alloc, stack, f, height)?)),
        _other => Ok(None),
    }
}
