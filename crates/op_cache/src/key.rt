//! The keys of results: an operation and its operands, by handles and by numbers.

ghost use Rattle.std.specs.Prelude.{◌≡◌, ◌<◌, ◌^◌};
ghost use Rattle.op_cache.specs.Keys.{place_of, same_place};
ghost use Rattle.op_cache.specs.Chains.{hash_of, bucket_of};

use mon_base::Numbered;

// Odd multipliers, chosen by trial: numbers in a row spread evenly over each power of two of buckets.
const LEFT: u64 = 0x24FB_4733_7513_F78F;

const RIGHT: u64 = 0x66DB_8E39_ACCF_04C9;

const OPERATION: u64 = 0xB743_88F9_644C_E04F;

/// An operation, by a number that its caller gives it, and its two operands.
#[derive(Clone, Copy, Debug, PartialEq, Eq)]
pub struct Key<H> {
    pub op: u8,
    pub left: H,
    pub right: H,
}

/// A key by the numbers of its operands: where its result stands. Two keys that have one place are equal.
#[derive(Clone, Copy, Debug, PartialEq, Eq)]
pub struct Place {
    pub op: u8,
    pub left: u32,
    pub right: u32,
}

impl Place {
    pub(crate) fn of<H: Copy + Numbered>(key: Key<H>) -> Place
        ensures { result ≡ place_of H.number key }
    {
        Place {
            op: key.op,
            left: key.left.number(),
            right: key.right.number(),
        }
    }

    /// Whether both are one place.
    pub(crate) fn is(self, other: Place) -> bool
        ensures { result ≡ same_place self other }
    {
        self.op == other.op && self.left == other.left && self.right == other.right
    }

    /// Spreads places over 32 bits, of which the low ones serve as buckets.
    pub(crate) fn hash(self) -> u32
        ensures { result ≡ hash_of self }
    {
        let mixed = (self.left as u64).wrapping_mul(LEFT)
            ^ (self.right as u64).wrapping_mul(RIGHT)
            ^ (self.op as u64).wrapping_mul(OPERATION);
        (mixed >> 32) as u32
    }

    /// The bucket of a place, of so many.
    pub(crate) fn bucket(self, window: usize) -> usize
        requires { 0 < window }
        ensures bucket { result ≡ bucket_of window self }
        ensures within { result < window }
    {
        self.hash() as usize & (window - 1)
    }
}
