//! Per code the place of its pair: reading one, and finding the first code that has none.

ghost use Rattle.std.specs.Prelude.{◌≡◌, ◌-◌, ◌^◌, ◌≤◌, length, OnOk, OnErr};
ghost use Rattle.value_codes.specs.Places.{place_of, with_place, IsFirstFree};

use std::alloc::AllocError as NoMemory;

/// The place of a code's pair, where the code is given.
pub fn place_of(places: &[Option<u32>], code: usize) -> Option<u32>
    ensures { result ≡ place_of places.now code }
{
    match places.get(code) {
        Some(place) => *place,
        None => None,
    }
}

/// The first code from this one on that has no place. It is the length of the list where each has one.
pub fn first_free(places: &[Option<u32>], from: usize) -> usize
    requires { from ≤ length places.now }
    ensures { IsFirstFree places.now from result }
{
    let mut code = from;
    while code < places.len() && places[code].is_some() {
        code += 1;
    }
    code
}

/// Makes the list reach a code that is at most the next one.
pub fn make_place(places: &mut Vec<Option<u32>>, code: usize) -> Result<(), NoMemory>
    requires { code ≤ length places.old.items }
    ensures made { OnOk result (places.new.items ≡ with_place places.old.items code) }
    ensures kept { OnErr result (places.new.items ≡ places.old.items) }
{
    if code < places.len() {
        return Ok(());
    }
    places.push(None)?;
    Ok(())
}

/// How many codes there are of so many bits: all but the one of all ones.
pub fn code_limit(bits: u8) -> u32
    requires { bits ≤ 20 }
    ensures { result ≡ 2 ^ bits - 1 }
{
    (1 << bits) - 1
}
