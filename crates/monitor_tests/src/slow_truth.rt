//! Truth found from its definition at each position of a log: slow and plain, a yardstick for the monitor.

use qtl_syntax::{Bound, Text};
use qtl_truth::{Atom, AtomTerm, Event};
use std::alloc::{AllocError, Global};
use subformulas::Kind;
use wellformed::CoreFormula;

/// Whether a truth is true at position i, counted from 0; false behind the last one.
pub fn holds(truths: &[bool], i: usize) -> bool {
    matches!(truths.get(i), Some(true))
}

/// Whether a truth is true at each position after j up to i.
fn holds_after(truths: &[bool], j: usize, i: usize) -> bool {
    for k in j..i {
        if !holds(truths, k + 1) {
            return false;
        }
    }
    true
}

/// Whether a truth is true at no position from j up to i.
fn never_from(truths: &[bool], j: usize, i: usize) -> bool {
    for k in j..=i {
        if holds(truths, k) {
            return false;
        }
    }
    true
}

/// How long position i is after position j; 0 behind the last one.
fn age(log: &[Event], j: usize, i: usize) -> u64 {
    match (log.get(i), log.get(j)) {
        (Some(now), Some(then)) => now.time.saturating_sub(then.time),
        _ => 0,
    }
}

/// Whether position j makes an operator true at position i, where its operands have these truths.
fn is_support(kind: &Kind, f: &[bool], g: &[bool], log: &[Event], j: usize, i: usize) -> bool {
    let since = holds(g, j) && holds_after(f, j, i);
    match kind {
        Kind::Since => since,
        Kind::SinceAtMost(n) => since && age(log, j, i) <= *n as u64,
        Kind::SinceMoreThan(n) => since && age(log, j, i) > *n as u64,
        Kind::OnceAtMost(n) => holds(f, j) && age(log, j, i) <= *n as u64,
        Kind::OnceMoreThan(n) => holds(f, j) && age(log, j, i) > *n as u64,
        Kind::AlwaysAtMost(n) => !holds(f, j) && age(log, j, i) <= *n as u64,
        Kind::AlwaysMoreThan(n) => !holds(f, j) && age(log, j, i) > *n as u64,
        Kind::Interval => holds(f, j) && never_from(g, j, i),
        _ => holds(f, j),
    }
}

/// Whether some position up to i makes an operator true there, or, of an `H` with a bound, false.
fn has_support(kind: &Kind, f: &[bool], g: &[bool], log: &[Event], i: usize) -> bool {
    for j in 0..=i {
        if is_support(kind, f, g, log, j, i) {
            return true;
        }
    }
    false
}

/// Whether an operator is true at position i, where its operands have these truths.
fn is_true(kind: &Kind, f: &[bool], g: &[bool], log: &[Event], i: usize) -> bool {
    match kind {
        Kind::True => true,
        Kind::Not => !holds(f, i),
        Kind::And => holds(f, i) && holds(g, i),
        Kind::Or => holds(f, i) || holds(g, i),
        Kind::Implies => !holds(f, i) || holds(g, i),
        Kind::Iff => holds(f, i) == holds(g, i),
        Kind::Prev => i > 0 && holds(f, i - 1),
        Kind::Always => holds(f, 0) && holds_after(f, 0, i),
        Kind::AlwaysAtMost(_) | Kind::AlwaysMoreThan(_) => !has_support(kind, f, g, log, i),
        Kind::False => false,
        _ => has_support(kind, f, g, log, i),
    }
}

/// An operator's truths at the positions of the log, where its operands have these.
fn operator(
    alloc: Global,
    kind: &Kind,
    f: &[bool],
    g: &[bool],
    log: &[Event],
) -> Result<Vec<bool>, AllocError> {
    let mut truths = Vec::new(alloc);
    for i in 0..log.len() {
        truths.push(is_true(kind, f, g, log, i))?;
    }
    Ok(truths)
}

/// Whether this is the text of the term. The number of a variable's text stands in `given`.
fn is_text_of(term: &AtomTerm, text: &Text, texts: &[Text], given: &[usize]) -> bool {
    match term {
        AtomTerm::Constant(own) => own.is_same(text),
        AtomTerm::Variable(x) => match given.get(*x as usize) {
            Some(number) => match texts.get(*number) {
                Some(own) => own.is_same(text),
                None => false,
            },
            None => false,
        },
    }
}

/// Whether the event is the one that the atom names.
fn is_event(atom: &Atom, event: &Event, texts: &[Text], given: &[usize]) -> bool {
    let terms = atom.terms.as_slice();
    let args = event.args.as_slice();
    if !event.name.is_same(&atom.name) || args.len() != terms.len() {
        return false;
    }
    for (k, term) in terms.iter().enumerate() {
        if !is_text_of(term, &args[k], texts, given) {
            return false;
        }
    }
    true
}

/// The truths of an atom.
fn atom_truths(
    alloc: Global,
    atom: &Atom,
    log: &[Event],
    texts: &[Text],
    given: &[usize],
) -> Result<Vec<bool>, AllocError> {
    let mut truths = Vec::new(alloc);
    for event in log {
        truths.push(is_event(atom, event, texts, given))?;
    }
    Ok(truths)
}

fn since_kind(bound: Bound) -> Kind {
    match bound {
        Bound::AtMost(n) => Kind::SinceAtMost(n),
        Bound::MoreThan(n) => Kind::SinceMoreThan(n),
    }
}

fn once_kind(bound: Bound) -> Kind {
    match bound {
        Bound::AtMost(n) => Kind::OnceAtMost(n),
        Bound::MoreThan(n) => Kind::OnceMoreThan(n),
    }
}

fn always_kind(bound: Bound) -> Kind {
    match bound {
        Bound::AtMost(n) => Kind::AlwaysAtMost(n),
        Bound::MoreThan(n) => Kind::AlwaysMoreThan(n),
    }
}

/// The formula's truths at all positions of the log, where each variable x has the text of number `given[x]`. Quantifiers
/// go over the texts: those of the log and one that no event has, since an atom tells no two such texts apart.
#[cycle(slow_truth)]
pub fn truths(
    alloc: Global,
    formula: &CoreFormula,
    log: &[Event],
    texts: &[Text],
    given: &mut Vec<usize>,
) -> Result<Vec<bool>, AllocError> {
    match formula {
        CoreFormula::True => operator(alloc, &Kind::True, &[], &[], log),
        CoreFormula::Atom(atom) => atom_truths(alloc, atom, log, texts, given.as_slice()),
        CoreFormula::Not(f) => unary(alloc, Kind::Not, f, log, texts, given),
        CoreFormula::Prev(f) => unary(alloc, Kind::Prev, f, log, texts, given),
        CoreFormula::Once(f) => unary(alloc, Kind::Once, f, log, texts, given),
        CoreFormula::Always(f) => unary(alloc, Kind::Always, f, log, texts, given),
        CoreFormula::And(f, g) => binary(alloc, Kind::And, f, g, log, texts, given),
        CoreFormula::Or(f, g) => binary(alloc, Kind::Or, f, g, log, texts, given),
        CoreFormula::Implies(f, g) => binary(alloc, Kind::Implies, f, g, log, texts, given),
        CoreFormula::Iff(f, g) => binary(alloc, Kind::Iff, f, g, log, texts, given),
        CoreFormula::Since(f, g) => binary(alloc, Kind::Since, f, g, log, texts, given),
        CoreFormula::Interval(f, g) => binary(alloc, Kind::Interval, f, g, log, texts, given),
        CoreFormula::Exists(x, f) => over_texts(alloc, Kind::Or, *x, f, log, texts, given),
        CoreFormula::Forall(x, f) => over_texts(alloc, Kind::And, *x, f, log, texts, given),
        CoreFormula::TimedSince(b, f, g) => {
            binary(alloc, since_kind(*b), f, g, log, texts, given)
        }
        CoreFormula::TimedOnce(b, f) => unary(alloc, once_kind(*b), f, log, texts, given),
        CoreFormula::TimedAlways(b, f) => unary(alloc, always_kind(*b), f, log, texts, given),
        CoreFormula::False => operator(alloc, &Kind::False, &[], &[], log),
    }
}

/// The truths of an operator over one formula.
#[cycle(slow_truth)]
fn unary(
    alloc: Global,
    kind: Kind,
    formula: &CoreFormula,
    log: &[Event],
    texts: &[Text],
    given: &mut Vec<usize>,
) -> Result<Vec<bool>, AllocError> {
    let f = truths(alloc, formula, log, texts, given)?;
    operator(alloc, &kind, f.as_slice(), &[], log)
}

/// The truths of an operator over two.
#[cycle(slow_truth)]
fn binary(
    alloc: Global,
    kind: Kind,
    f: &CoreFormula,
    g: &CoreFormula,
    log: &[Event],
    texts: &[Text],
    given: &mut Vec<usize>,
) -> Result<Vec<bool>, AllocError> {
    let f = truths(alloc, f, log, texts, given)?;
    let g = truths(alloc, g, log, texts, given)?;
    operator(alloc, &kind, f.as_slice(), g.as_slice(), log)
}

/// The truths of a quantifier: those of its formula under each of the texts, joined by "or" or by "and".
#[cycle(slow_truth)]
fn over_texts(
    alloc: Global,
    kind: Kind,
    variable: u32,
    formula: &CoreFormula,
    log: &[Event],
    texts: &[Text],
    given: &mut Vec<usize>,
) -> Result<Vec<bool>, AllocError> {
    let none = match kind {
        Kind::And => Kind::True,
        _ => Kind::False,
    };
    let mut joined = operator(alloc, &none, &[], &[], log)?;
    for number in 0..texts.len() {
        if let Some(place) = given.get_mut(variable as usize) {
            *place = number;
        }
        let one = truths(alloc, formula, log, texts, given)?;
        joined = operator(alloc, &kind, joined.as_slice(), one.as_slice(), log)?;
    }
    Ok(joined)
}
