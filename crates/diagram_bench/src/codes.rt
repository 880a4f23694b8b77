//! A fixed sequence of codes, and the literals of their bits.

ghost use Rattle.std.specs.Prelude.{◌≡◌};
ghost use Rattle.bdd_ops.specs.Cube.{AscendFrom};

use bdd_ops::Literal;

/// A sequence of pairs of codes, the same at each run: a linear congruence's upper halves, of which only the bits of a
/// mask are kept.
#[derive(Clone, Copy)]
pub struct Codes {
    pub state: u64,
    pub mask: u32,
}

impl Codes {
    /// The next pair. Its first code has the upper 16 bits.
    pub fn next_pair(&mut self) -> u32 {
        self.state = self
            .state
            .wrapping_mul(6364136223846793005)
            .wrapping_add(1442695040888963407);
        (self.state >> 32) as u32 & self.mask
    }
}

/// The literal of a level: the levels go from the pair's first bit to its last.
fn at(level: u16, pair: u32) -> Literal
    ensures { result.level ≡ level }
{
    let moved = pair.wrapping_shl(level as u32);
    Literal {
        level,
        bit: moved >= 0x8000_0000,
    }
}

/// The 16 bits of a pair's first code.
pub fn first_bits(pair: u32) -> [Literal; 16]
    ensures { AscendFrom 0 result }
{
    [
        at(0, pair),
        at(1, pair),
        at(2, pair),
        at(3, pair),
        at(4, pair),
        at(5, pair),
        at(6, pair),
        at(7, pair),
        at(8, pair),
        at(9, pair),
        at(10, pair),
        at(11, pair),
        at(12, pair),
        at(13, pair),
        at(14, pair),
        at(15, pair),
    ]
}

/// The 16 bits of a pair's second code.
pub fn second_bits(pair: u32) -> [Literal; 16]
    ensures { AscendFrom 0 result }
{
    [
        at(16, pair),
        at(17, pair),
        at(18, pair),
        at(19, pair),
        at(20, pair),
        at(21, pair),
        at(22, pair),
        at(23, pair),
        at(24, pair),
        at(25, pair),
        at(26, pair),
        at(27, pair),
        at(28, pair),
        at(29, pair),
        at(30, pair),
        at(31, pair),
    ]
}
