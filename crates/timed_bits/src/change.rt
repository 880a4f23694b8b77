//! Changes of ages, on numbers.

ghost use Rattle.std.specs.Prelude.{◌≡◌};
ghost use Rattle.timed_bits.specs.Ages.{is_age};
ghost use Rattle.timed_bits.specs.Changes.{dropped, capped};

/// A change of ages.
#[derive(Clone, Copy, Debug, PartialEq, Eq)]
pub enum Change {
    /// Each age becomes later by delta, or none where that is above the most.
    Drop { delta: u64, most: u32 },
    /// Each age becomes later by delta, at most the cap.
    Cap { delta: u64, cap: u32 },
    /// The truth whether there is an age.
    Any,
    /// The truth whether the age is this one.
    At { age: u32 },
    /// Age 0 for the leaf that is true.
    Stamp,
}

/// What a change makes of an entry: an age or none, or a truth.
#[derive(Clone, Copy, Debug)]
pub enum Outcome {
    Age(Option<u32>),
    Truth(bool),
}

/// The age later by delta, or none where that is above the most.
pub fn drop_age(age: Option<u32>, delta: u64, most: u32) -> Option<u32>
    ensures { result ≡ dropped delta most age }
{
    let Some(old) = age else {
        return None;
    };
    if old <= most && delta <= (most - old) as u64 {
        Some(old + delta as u32)
    } else {
        None
    }
}

/// The age later by delta, at most the cap.
pub fn cap_age(age: Option<u32>, delta: u64, cap: u32) -> Option<u32>
    ensures { result ≡ capped delta cap age }
{
    let Some(old) = age else {
        return None;
    };
    if old <= cap && delta <= (cap - old) as u64 {
        Some(old + delta as u32)
    } else {
        Some(cap)
    }
}

/// Whether the age is this one.
pub fn is_wanted(age: Option<u32>, wanted: u32) -> bool
    ensures { result ≡ is_age age wanted }
{
    match age {
        Some(age) => age == wanted,
        None => false,
    }
}
