//! Formulas and properties without macros, as the program holds them.
use qtl_syntax::{Bound, Text};
use qtl_truth::Atom;

/// A quantifier's variable: the name that it has in the text, and the number of its property, counted from 0.
#[derive(Debug, PartialEq, Eq, Drop)]
pub struct Variable {
    pub name: Text,
    pub property: u32,
}

/// A formula without macros, whose variables are numbers. A quantifier has the number of its variable.
#[derive(Drop)]
pub enum CoreFormula {
    True,
    False,
    Atom(Atom),
    Not(Box<CoreFormula>),
    And(Box<CoreFormula>, Box<CoreFormula>),
    Or(Box<CoreFormula>, Box<CoreFormula>),
    Implies(Box<CoreFormula>, Box<CoreFormula>),
    Iff(Box<CoreFormula>, Box<CoreFormula>),
    Prev(Box<CoreFormula>),
    Since(Box<CoreFormula>, Box<CoreFormula>),
    TimedSince(Bound, Box<CoreFormula>, Box<CoreFormula>),
    Once(Box<CoreFormula>),
    TimedOnce(Bound, Box<CoreFormula>),
    Always(Box<CoreFormula>),
    TimedAlways(Bound, Box<CoreFormula>),
    Interval(Box<CoreFormula>, Box<CoreFormula>),
    Exists(u32, Box<CoreFormula>),
    Forall(u32, Box<CoreFormula>),
}

/// A property without macros.
#[derive(Drop)]
pub struct CoreProp {
    pub name: Text,
    pub root: CoreFormula,
}
