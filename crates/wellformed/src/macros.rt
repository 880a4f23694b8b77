//! Macros, found by their names.
ghost use Rattle.std.specs.Prelude.{◌≡◌, ◌<◌, None, length, map, MatchOption};
ghost use Rattle.std.specs.List.{list_any};
ghost use Rattle.qtl_syntax.specs.Tree.{item_of};
ghost use Rattle.qtl_truth.specs.Items.{before_of};
ghost use Rattle.wellformed.specs.Macros.{macro_of, is_macro_named, IsMacroAt};

use qtl_syntax::{Item, Text};

/// Whether the item is a macro of the name.
pub fn is_macro(item: &Item, name: &Text) -> bool
    ensures { result ≡ is_macro_named (item_of item.now) name.now }
{
    match item {
        Item::Pred { name: own, .. } => own.is_same(name),
        Item::Prop { .. } => false,
    }
}

/// Where the nearest macro of the name stands among the items before.
pub fn find_macro(items: &[Item], name: &Text) -> Option<usize>
    ensures { MatchOption result (macro_of (before_of items.now) name.now ≡ None) (IsMacroAt items.now (length items.now) name.now) }
{
    let mut found = None;
    for (m, item) in items.iter().enumerate() {
        if is_macro(item, name) {
            found = Some(m);
        }
    }
    found
}

/// Whether one of the items is a macro of the name.
pub fn has_macro(items: &[Item], name: &Text) -> bool
    ensures { result ≡ list_any (λ item. is_macro_named item name.now) (map item_of items.now) }
{
    for item in items {
        if is_macro(item, name) {
            return true;
        }
    }
    false
}
