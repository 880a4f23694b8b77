//! Atoms whose variables are numbers.
ghost use Rattle.std.specs.Prelude.{◌≡◌, IfOk};

use qtl_syntax::Text;
use sqlite_items::Items;
use std::alloc::{AllocError, Global};

/// A term of an atom: a variable by its number, counted from 0, or a constant by its text.
#[derive(Debug, Drop)]
pub enum AtomTerm {
    Variable(u32),
    Constant(Text),
}

/// A name, and terms whose variables are numbers.
#[derive(Debug, Drop)]
pub struct Atom {
    pub name: Text,
    pub terms: Items<AtomTerm>,
}

impl AtomTerm {
    /// The same term once more.
    pub fn copy(&self) -> Result<AtomTerm, AllocError>
        ensures { IfOk result (λ t. t ≡ self.now) }
    {
        match self {
            AtomTerm::Variable(number) => Ok(AtomTerm::Variable(*number)),
            AtomTerm::Constant(text) => Ok(AtomTerm::Constant(text.copy()?)),
        }
    }
}

impl Atom {
    /// The same atom once more.
    pub fn copy(&self, alloc: Global) -> Result<Atom, AllocError>
        ensures { IfOk result (λ a. a ≡ self.now) }
    {
        let mut terms = Items::new(alloc);
        for term in self.terms.as_slice() {
            terms.push(term.copy()?)?;
        }
        Ok(Atom {
            name: self.name.copy()?,
            terms,
        })
    }
}
