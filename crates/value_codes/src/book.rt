//! A book of texts and their codes.

ghost use Rattle.std.specs.Prelude.{◌≡◌, ◌≢◌, ◌+◌, ◌-◌, ◌^◌, ◌≤◌, ◌<◌, ◌↔◌, [], length, map, None, IsSomeAnd, IfOk, OnErr, IsErrOf, IsPermutation};
ghost use Rattle.std.specs.List.Sorted.{IsSortedByKey};
ghost use Rattle.std.specs.Cmp.Lexicographic.{slice_cmp};
ghost use Rattle.std.specs.Ordering.{nat_cmp};
ghost use Rattle.std.specs.Option.{option_map};
ghost use Rattle.value_codes.specs.Pairs.{code_of, value_of, IsLeastFree, Adds, Removes, IsBook};
ghost use Rattle.value_codes.specs.PairList.{pair_of};

use crate::Pair;
use crate::places::{code_limit, first_free, make_place, place_of};
use indexmap::IndexMap;
use qtl_syntax::Text;
use std::alloc::{AllocError as NoMemory, AllocFailed, Global};
use std::marker::Model;

/// Why a text got no code. The book is as before.
#[derive(Clone, Copy, Debug, PartialEq, Eq)]
pub enum GiveFault {
    /// All codes are given.
    NoFreeCode,
    NoMemory,
}

impl From<NoMemory> for GiveFault {
    ghost use Rattle.std.specs.Prelude.{◌≡◌};
    ghost use Rattle.value_codes.specs.declared.book.GiveFault.TheVariants.{NoMemory};

    ghost from_gives = { λ _ e. e ≡ NoMemory };

    fn from(_: NoMemory) -> Self {
        GiveFault::NoMemory
    }
}

impl<T: Drop> From<AllocFailed<T>> for GiveFault {
    ghost use Rattle.std.specs.Prelude.{◌≡◌};
    ghost use Rattle.value_codes.specs.declared.book.GiveFault.TheVariants.{NoMemory};

    ghost from_gives = { λ _ e. e ≡ NoMemory };

    fn from(_: AllocFailed<T>) -> Self {
        GiveFault::NoMemory
    }
}

/// Pairs of a text and a code, no text and no code twice. The codes are numbers of `bits` bits; the one of all ones
/// is never given.
#[derive(Drop)]
pub struct Book {
    bits: u8,
    codes: IndexMap<Text, u32>,
    /// For each code that was ever given the place of its pair in `codes`, if it has one.
    places: Vec<Option<u32>>,
    /// Each code below this one is given.
    hint: usize,
}

impl Model for Book {
    ghost use Rattle.value_codes.specs.Pairs.{Contents};
    ghost use Rattle.value_codes.specs.Places.{IsKept};

    ghost Value = { Contents };

    ghost view = { λ b. record { bits = b.bits; pairs = b.codes.entries } };

    ghost invariant = { λ b. IsKept b.bits b.codes.entries b.places.items b.hint };
}

impl Book {
    /// A book without pairs, of codes of 1 to 20 bits.
    pub fn open(alloc: Global, bits: u8) -> Result<Book, NoMemory>
        requires low { 1 ≤ bits }
        requires high { bits ≤ 20 }
        ensures empty { IfOk result (λ b. b ≡ record { bits = bits; pairs = [] }) }
        ensures sound { IfOk result IsBook }
    {
        Ok(Book {
            bits,
            codes: IndexMap::new(alloc),
            places: Vec::new(alloc),
            hint: 0,
        })
    }

    /// The code of a text.
    pub fn code_of(&self, value: &Text) -> Option<u32>
        ensures code { result ≡ code_of self.now.pairs value.now }
    {
        self.codes.get(value).copied()
    }

    /// The text of a code.
    pub fn value_of(&self, code: u32) -> Option<&Text>
        ensures value { option_map (λ t. t.now) result ≡ value_of self.now.pairs code }
    {
        let place = place_of(&self.places, code as usize)?;
        let (value, _) = self.codes.get_index(place as usize)?;
        Some(value)
    }

    /// How many codes are free. A book is sound whatever was done to it.
    pub fn free_count(&self) -> u32
        ensures count { result + length self.now.pairs ≡ 2 ^ self.now.bits - 1 }
        ensures sound { IsBook self.now }
    {
        code_limit(self.bits) - self.codes.len() as u32
    }

    /// Gives the least free code to a text that has none.
    pub fn give(&mut self, value: Text) -> Result<u32, GiveFault>
        requires { code_of self.old.pairs value ≡ None }
        ensures least { IfOk result (λ c. IsLeastFree self.old.pairs c) }
        ensures below { IfOk result (λ c. c < 2 ^ self.old.bits - 1) }
        ensures added { IfOk result (λ c. Adds self.old.pairs value c self.new.pairs) }
        ensures full { IsErrOf result GiveFault.NoFreeCode ↔ (length self.old.pairs ≡ 2 ^ self.old.bits - 1) }
        ensures kept { OnErr result (self.new ≡ self.old) }
        ensures bits { self.new.bits ≡ self.old.bits }
        ensures sound { IsBook self.new }
    {
        if self.free_count() == 0 {
            return Err(GiveFault::NoFreeCode);
        }
        let code = first_free(&self.places, self.hint);
        make_place(&mut self.places, code)?;
        let place = self.codes.len() as u32;
        self.codes.insert(value, code as u32)?;
        self.places[code] = Some(place);
        self.hint = code + 1;
        Ok(code as u32)
    }

    /// Takes a given code back from its text. Every other text keeps its code.
    pub fn release(&mut self, code: u32)
        requires { value_of self.old.pairs code ≢ None }
        ensures removed { IsSomeAnd (value_of self.old.pairs code) (λ t. Removes self.old.pairs t code self.new.pairs) }
        ensures bits { self.new.bits ≡ self.old.bits }
        ensures sound { IsBook self.new }
    {
        let place = place_of(&self.places, code as usize).unwrap();
        // The last pair moves into the place of the one that goes, which may be the last itself.
        let (_, moved) = self.codes.last().unwrap();
        self.places[*moved as usize] = Some(place);
        self.places[code as usize] = None;
        self.codes.swap_remove_index(place as usize);
        self.hint = self.hint.min(code as usize);
    }

    /// All pairs, their texts ascending by bytes.
    pub fn pairs_by_value(&self) -> Result<Vec<Pair>, NoMemory>
        ensures all { IfOk result (λ v. IsPermutation self.now.pairs (map pair_of v.items)) }
        ensures ascending { IfOk result (λ v. IsSortedByKey (λ p. p.value) (slice_cmp nat_cmp) v.items) }
    {
        let mut pairs = self.copied_pairs()?;
        pairs.sort_by(
            |a: &Pair, b: &Pair|
                ensures { result ≡ slice_cmp nat_cmp a.now.value b.now.value }
            { a.value.cmp(&b.value) },
        )?;
        Ok(pairs)
    }

    fn copied_pairs(&self) -> Result<Vec<Pair>, NoMemory>
        ensures { IfOk result (λ v. map pair_of v.items ≡ self.now.pairs) }
    {
        let mut pairs = Vec::with_capacity(*self.codes.allocator(), self.codes.len())?;
        for (value, code) in self.codes.iter() {
            pairs.push(Pair {
                value: value.copy()?,
                code: *code,
            })?;
        }
        Ok(pairs)
    }
}
