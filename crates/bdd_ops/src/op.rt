//! The operations, by what they make of two truths.

ghost use Rattle.std.specs.Prelude.{◌≡◌};
ghost use Rattle.bdd_ops.specs.Numbers.{truth_of, number_of};

use node_table::Handle;
use op_cache::Key;

/// An operation on two truths. `AndNot` of u and v is u and not v.
#[derive(Clone, Copy, Debug, PartialEq, Eq)]
pub enum Op {
    And,
    Or,
    AndNot,
    Implies,
    Iff,
}

impl Op {
    /// The operation on two truths.
    pub(crate) fn truth(self, a: bool, b: bool) -> bool
        ensures { result ≡ truth_of self a b }
    {
        match self {
            Op::And => a && b,
            Op::Or => a || b,
            Op::AndNot => a && !b,
            Op::Implies => !a || b,
            Op::Iff => a == b,
        }
    }

    /// Its number in the memo.
    fn number(self) -> u8
        ensures { result ≡ number_of self }
    {
        match self {
            Op::And => 0,
            Op::Or => 1,
            Op::AndNot => 2,
            Op::Implies => 3,
            Op::Iff => 4,
        }
    }

    /// The key of its result on two handles.
    pub(crate) fn key(self, u: Handle, v: Handle) -> Key<Handle>
        ensures { result ≡ record { op = number_of self; left = u; right = v } }
    {
        Key {
            op: self.number(),
            left: u,
            right: v,
        }
    }
}
