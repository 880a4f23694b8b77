//! Laws of the definitions. A function here does nothing: its contract is the law.
ghost use Rattle.std.specs.Prelude.{◌≤◌, ◌<◌, List, [], length};
ghost use Rattle.std.specs.List.{AllByRecursion};
ghost use Rattle.qtl_syntax.specs.Faults.{SpellsWithin};
ghost use Rattle.qtl_syntax.specs.Tree.{Text, Item};
ghost use Rattle.wellformed.specs.Expansion.{expanded_props};
ghost use Rattle.wellformed.specs.Faults.{HasFewNodes};
ghost use Rattle.wellformed.specs.Terms.{HasFewTerms};

/// A text of at most 1,048,576 bytes spells items that `check` takes: they, and the nodes of each formula, are fewer
/// than 2^32.
pub fn short_texts_have_few_nodes()
    ensures items { (text : Text) (items : List Item) → length text ≤ 1048576 → SpellsWithin text items → length items < 4294967296 }
    ensures nodes { (text : Text) (items : List Item) → length text ≤ 1048576 → SpellsWithin text items → AllByRecursion HasFewNodes items }
{}

/// A text of at most 1,048,576 bytes spells properties whose atoms have fewer than 2^32 terms after expansion.
pub fn short_texts_have_few_terms()
    ensures { (text : Text) (items : List Item) → length text ≤ 1048576 → SpellsWithin text items → AllByRecursion (λ p. HasFewTerms p.1) (expanded_props [] 0 items) }
{}
