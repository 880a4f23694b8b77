//! What has come behind the stack, and whether a low formula begins so.
ghost use Rattle.std.specs.Prelude.{◌≡◌, ◌≤◌, nat_le};
ghost use Rattle.qtl_syntax.specs.Machine.{least};
ghost use Rattle.qtl_syntax.specs.Machine as spec;
ghost use Rattle.qtl_syntax.specs.Kept.{frames_of};
ghost use Rattle.qtl_syntax.specs.KeptState.{state_of, timeable_of};

use crate::formula::{Bound, Formula, Term};
use crate::operator::Quantifier;
use crate::stack::{Stack, is_low};
use crate::text::Text;
use sqlite_items::Items;

/// An operator behind which a bound may come.
#[derive(Drop)]
pub enum Timeable {
    Once,
    Always,
    Since(Formula, u32),
}

/// Where in a formula, with the forms that wait round it.
#[derive(Drop)]
pub enum State {
    Operand(Stack),
    Named(Stack, Text),
    FirstTerm(Stack, Text),
    NextTerm(Stack, Text, Items<Term>),
    TermEnd(Stack, Text, Items<Term>),
    Whole(Stack, Formula, u32),
    OfVariable(Stack, Quantifier),
    OfDot(Stack, Quantifier, Text),
    Bounded(Stack, Timeable),
    Bracket(Stack, Timeable),
    OfNumber(Stack, Timeable, bool),
    BoundEnd(Stack, Timeable, Bound),
}

#[tactic(auto, using(crate::proofs::Least::above))]
fn is_low_behind(stack: &Stack, operator: &Timeable) -> bool
    ensures { result ≡ nat_le (least (spec.Bounded (frames_of stack.now) (timeable_of operator.now))) 256 }
{
    match operator {
        Timeable::Once => is_low(stack, 2),
        Timeable::Always => is_low(stack, 2),
        Timeable::Since(_, left) => *left <= 256 && is_low(stack, (*left).max(1) + 1),
    }
}

/// Whether some formula of height at most 256 begins so.
pub fn may_be_low(state: &State) -> bool
    ensures { result ≡ nat_le (least (state_of state.now)) 256 }
{
    match state {
        State::Operand(stack) => is_low(stack, 1),
        State::Named(stack, _) => is_low(stack, 1),
        State::FirstTerm(stack, _) => is_low(stack, 1),
        State::NextTerm(stack, _, _) => is_low(stack, 1),
        State::TermEnd(stack, _, _) => is_low(stack, 1),
        State::Whole(stack, _, height) => is_low(stack, *height),
        State::OfVariable(stack, _) => is_low(stack, 2),
        State::OfDot(stack, _, _) => is_low(stack, 2),
        State::Bounded(stack, operator) => is_low_behind(stack, operator),
        State::Bracket(stack, operator) => is_low_behind(stack, operator),
        State::OfNumber(stack, operator, _) => is_low_behind(stack, operator),
        State::BoundEnd(stack, operator, _) => is_low_behind(stack, operator),
    }
}
