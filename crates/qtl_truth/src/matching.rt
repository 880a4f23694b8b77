//! The texts that an event gives to the variables of an atom.
ghost use Rattle.std.specs.Prelude.{◌≡◌, ◌↔◌, ℕ, List, ◌<◌, ◌≤◌, ◌++◌, ◌∷◌, [], length, map, slice_get, Some, Bool, true, false, IfOk, OnOk, IsOk};
ghost use Rattle.smallvec.specs.SmallVec.{HasRoomFor};
ghost use Rattle.qtl_syntax.specs.Tree.{Text as TheText};
ghost use Rattle.qtl_truth.specs.declared.event.Event.{Event as TheEvent};
ghost use Rattle.qtl_truth.specs.declared.numbered_atom.Atom.{Atom as TheAtom};
ghost use Rattle.qtl_truth.specs.NumberedAtom.{text_under, AtomHolds, IsAtomOf};
ghost use Rattle.qtl_truth.specs.Truth.{event_at};
ghost use Rattle.qtl_truth.specs.Matching.{arg_at, ArgsBelow, with_term, variables_of, place_variables, IsMatch, IsTaken};

use crate::event::Event;
use crate::numbered_atom::{Atom, AtomTerm};
use qtl_syntax::Text;
use smallvec::SmallVec;
use std::alloc::{AllocError, Global};
use std::marker::Model;

/// A variable, and the number of the argument that gives it its text, both counted from 0.
#[derive(Clone, Copy, Debug, Default, PartialEq, Eq)]
pub struct Place {
    pub variable: u32,
    pub arg: u32,
}

/// A place for each variable of an atom, in order of first appearance. Eight lie in the value itself.
#[derive(Drop)]
pub struct Binding {
    places: SmallVec<Place, 8>,
}

impl Model for Binding {
    ghost use Rattle.std.specs.Prelude.{List};
    ghost use Rattle.qtl_truth.specs.declared.matching.Place.{Place};

    ghost Value = { List Place };

    ghost view = { λ b. b.places.items };
}

impl Binding {
    /// The places, in order of the variables' first appearance in the atom.
    pub fn places(&self) -> &[Place]
        ensures { result.now ≡ self.now }
    {
        self.places.as_slice()
    }
}

/// The argument of the first place of the variable.
fn find(places: &[Place], variable: u32) -> Option<u32>
    ensures { result ≡ arg_at places.now variable }
{
    for place in places {
        if place.variable == variable {
            return Some(place.arg);
        }
    }
    None
}

/// Whether argument k can be the text of the term; a new variable gets a place.
fn take(
    places: &mut SmallVec<Place, 8>,
    term: &AtomTerm,
    args: &[Text],
    k: usize,
) -> Result<bool, AllocError>
    requires within { k < length args.now }
    requires few { length args.now < 4294967296 }
    requires places { ArgsBelow (length args.now) places.old.items }
    ensures taken { IfOk result (λ b. IsTaken args.now k term.now places.old.items places.new.items b) }
    ensures capacity { places.old.capacity ≤ places.new.capacity }
    ensures room { length (with_term (place_variables places.old.items) term.now) ≤ places.old.capacity → IsOk result }
{
    match term {
        AtomTerm::Constant(text) => Ok(text.is_same(&args[k])),
        AtomTerm::Variable(variable) => match find(places.as_slice(), *variable) {
            Some(arg) => Ok(args[arg as usize].is_same(&args[k])),
            None => {
                places.push(Place {
                    variable: *variable,
                    arg: k as u32,
                })?;
                Ok(true)
            }
        },
    }
}

/// The places of the atom's variables; `None` where no texts of the variables make the atom hold at the event. An atom
/// with at most eight variables takes no memory.
pub fn matches(alloc: Global, atom: &Atom, event: &Event) -> Result<Option<Binding>, AllocError>
    requires few { length atom.now.terms < 4294967296 }
    ensures answer { IfOk result (IsMatch atom.now event.now) }
    ensures no_memory { length (variables_of atom.now.terms) ≤ 8 → IsOk result }
{
    let terms = atom.terms.as_slice();
    let args = event.args.as_slice();
    if !event.name.is_same(&atom.name) || args.len() != terms.len() {
        return Ok(None);
    }
    let mut places = SmallVec::new(alloc);
    for (k, term) in terms.iter().enumerate() {
        if !take(&mut places, term, args, k)? {
            return Ok(None);
        }
    }
    Ok(Some(Binding { places }))
}

/// At a position of a log, an atom is true as at its event.
pub fn atom_is_of_its_event()
    ensures { (log : List TheEvent) (nu : List TheText) (a : TheAtom) (i : ℕ) (e : TheEvent) → event_at log i ≡ Some e →
        AtomHolds log nu a i ↔ IsAtomOf nu a e }
{}
