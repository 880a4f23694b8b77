//! Decision trees as contracts see them, and their laws. A law is a function that does nothing, with the law as its
//! contract.

#![tactic(auto)]

ghost use Rattle.std.specs.Prelude.{◌≡◌, ◌≢◌, ◌⊎◌, ℕ, List, Bool};
ghost use Rattle.node_tree.specs.Tree.{Tree, IsOrdered, IsReduced, SameValues, value};
ghost use Rattle.node_tree.specs.Restrict.{restrict, with_bit};

/// Two ordered reduced trees with equal values at all bits are the same tree (Bryant 1986).
pub fn one_tree()
    ensures { (s t : Tree) → IsOrdered s → IsReduced s → IsOrdered t → IsReduced t → SameValues s t → s ≡ t }
{}

/// Two ordered reduced trees are the same tree, or there are bits at which their values differ.
pub fn same_or_differ()
    ensures { (s t : Tree) → IsOrdered s → IsReduced s → IsOrdered t → IsReduced t → (s ≡ t) ⊎ ((bits : List Bool) × (value s bits ≢ value t bits)) }
{}

/// A tree with one bit set is ordered and reduced again, and has the values that the tree has with that bit.
pub fn restricted()
    ensures ordered { (level : ℕ) (v : Bool) (t : Tree) → IsOrdered t → IsOrdered (restrict level v t) }
    ensures reduced { (level : ℕ) (v : Bool) (t : Tree) → IsReduced t → IsReduced (restrict level v t) }
    ensures values { (level : ℕ) (v : Bool) (t : Tree) → IsOrdered t → (bits : List Bool) → value (restrict level v t) bits ≡ value t (with_bit bits level v) }
{}
