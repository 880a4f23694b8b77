//! A look over the bytes of a field, each byte once.
ghost use Rattle.std.specs.Prelude.{◌≤◌, length};
ghost use Rattle.log_reader.specs.State.{IsScanned};

use crate::place::{Place, is_usual, place_after};

/// How far the field goes, and the place there.
#[derive(Clone, Copy, Debug, PartialEq, Eq)]
pub struct Scanned {
    pub seen: usize,
    pub place: Place,
}

/// Looks at the bytes of a field from one on, up to the first that is not the field's or up to an end.
pub fn scan(bytes: &[u8], from: usize, end: usize, place: Place) -> Scanned
    requires in_order { from ≤ end }
    requires within { end ≤ length bytes.now }
    ensures { IsScanned bytes.now from end place result }
{
    let mut place = place;
    for i in from..end {
        if is_usual(place, bytes[i]) {
            continue;
        }
        let Some(next) = place_after(place, bytes[i]) else {
            return Scanned { seen: i, place };
        };
        place = next;
    }
    Scanned { seen: end, place }
}
