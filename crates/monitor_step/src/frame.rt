//! What the rows of an event are made with.

use bdd_ops::BlockCode;
use node_table::{Block, Handle};
use qtl_truth::Event;
use subformulas::Stretch;
use value_codes::Book;

/// What the rows of an event are made with. They read the codes alone; the event and the books say what these stand for.
#[derive(Clone, Copy)]
pub struct Frame<'a> {
    pub event: &'a Event,
    /// By number of variable.
    pub books: &'a [Book],
    /// By number of subformula, from 0: the codes of an atom that the event matches.
    pub matched: &'a [Option<Stretch>],
    pub coded: &'a [BlockCode],
    pub bits: u8,
    /// The levels that spell ages, behind the blocks of the variables.
    pub time: Block,
    /// The time since the event before.
    pub delta: u64,
}

/// The handles of a subformula's children at this event, and of what it remembers; any handle where there is none.
#[derive(Clone, Copy, Debug, PartialEq, Eq)]
pub struct Children {
    pub left: Handle,
    pub right: Handle,
    pub memory: Handle,
}
