//! The forms that wait for a formula to their right, the nearest first.
ghost use Rattle.std.specs.Prelude.{◌≡◌, ◌+◌, ◌≤◌, nat_le, IfOk};
ghost use Rattle.qtl_syntax.specs.Tree.{formula_of};
ghost use Rattle.qtl_syntax.specs.Machine.{total, reduce as reduce_lem, shut as shut_lem};
ghost use Rattle.qtl_syntax.specs.Kept.{frames_of, behind_of};

use crate::forms::{joined, level_of, prefixed, quantified};
use crate::formula::Formula;
use crate::operator::{Binary, Prefix, Quantifier};
use crate::text::Text;
use std::alloc::{AllocError, Global};

/// The forms that wait; a left part stands with its height.
#[derive(Drop)]
pub enum Stack {
    Bottom,
    Prefix(Prefix, Box<Stack>),
    Binary(Binary, Formula, u32, Box<Stack>),
    Quantifier(Quantifier, Text, Box<Stack>),
    Paren(Box<Stack>),
    First(Box<Stack>),
    Second(Formula, u32, Box<Stack>),
}

/// A stack, and the formula with its height that stands behind it.
#[derive(Drop)]
pub struct Behind {
    pub stack: Stack,
    pub formula: Formula,
    pub height: u32,
}

/// Whether all forms of the stack stay within 256, round a formula of this height.
#[tactic(auto, using(crate::proofs::Least::above))]
pub fn is_low(stack: &Stack, height: u32) -> bool
    ensures { result ≡ nat_le (total (frames_of stack.now) height) 256 }
{
    if height > 256 {
        return false;
    }
    match stack {
        Stack::Bottom => true,
        Stack::Prefix(_, rest) => is_low(rest, height + 1),
        Stack::Binary(_, _, left, rest) => *left <= 256 && is_low(rest, height.max(*left) + 1),
        Stack::Quantifier(_, _, rest) => is_low(rest, height + 1),
        Stack::Paren(rest) => is_low(rest, height + 1),
        Stack::First(rest) => is_low(rest, height + 1),
        Stack::Second(_, left, rest) => *left <= 256 && is_low(rest, height.max(*left) + 1),
    }
}

/// Puts together what ends before a binary sign whose left part is of this level.
#[tactic(auto, using(crate::proofs::Least::above))]
pub fn reduce(
    alloc: Global,
    left: u32,
    stack: Stack,
    f: Formula,
    height: u32,
) -> Result<Behind, AllocError>
    requires low { total (frames_of stack) height ≤ 256 }
    ensures same { IfOk result (λ b. behind_of b ≡ reduce_lem left (frames_of stack) (formula_of f) height) }
    ensures low { IfOk result (λ b. total (frames_of b.stack) b.height ≤ 256) }
{
    match stack {
        Stack::Prefix(op, rest) => {
            let f = prefixed(alloc, op, f)?;
            reduce(alloc, left, Box::into_inner(rest), f, height + 1)
        }
        Stack::Binary(op, g, k, rest) => {
            if left <= level_of(op) {
                let f = joined(alloc, op, g, f)?;
                reduce(alloc, left, Box::into_inner(rest), f, k.max(height) + 1)
            } else {
                Ok(stands(Stack::Binary(op, g, k, rest), f, height))
            }
        }
        Stack::Quantifier(q, x, rest) => Ok(stands(Stack::Quantifier(q, x, rest), f, height)),
        Stack::Paren(rest) => Ok(stands(Stack::Paren(rest), f, height)),
        Stack::First(rest) => Ok(stands(Stack::First(rest), f, height)),
        Stack::Second(g, k, rest) => Ok(stands(Stack::Second(g, k, rest), f, height)),
        Stack::Bottom => Ok(stands(Stack::Bottom, f, height)),
    }
}

/// Puts together what ends before a closing sign, or at the end.
#[tactic(auto, using(crate::proofs::Least::above))]
pub fn shut(alloc: Global, stack: Stack, f: Formula, height: u32) -> Result<Behind, AllocError>
    requires low { total (frames_of stack) height ≤ 256 }
    ensures same { IfOk result (λ b. behind_of b ≡ shut_lem (frames_of stack) (formula_of f) height) }
    ensures low { IfOk result (λ b. total (frames_of b.stack) b.height ≤ 256) }
{
    match stack {
        Stack::Prefix(op, rest) => {
            let f = prefixed(alloc, op, f)?;
            shut(alloc, Box::into_inner(rest), f, height + 1)
        }
        Stack::Binary(op, g, k, rest) => {
            let f = joined(alloc, op, g, f)?;
            shut(alloc, Box::into_inner(rest), f, k.max(height) + 1)
        }
        Stack::Quantifier(q, x, rest) => {
            let f = quantified(alloc, q, x, f)?;
            shut(alloc, Box::into_inner(rest), f, height + 1)
        }
        Stack::Paren(rest) => Ok(stands(Stack::Paren(rest), f, height)),
        Stack::First(rest) => Ok(stands(Stack::First(rest), f, height)),
        Stack::Second(g, k, rest) => Ok(stands(Stack::Second(g, k, rest), f, height)),
        Stack::Bottom => Ok(stands(Stack::Bottom, f, height)),
    }
}

fn stands(stack: Stack, formula: Formula, height: u32) -> Behind
    ensures same { behind_of result ≡ record { frames = frames_of stack; formula = formula_of formula; height = height } }
    ensures parts { (frames_of result.stack ≡ frames_of stack) × (result.height ≡ height) }
{
    Behind {
        stack,
        formula,
        height,
    }
}
