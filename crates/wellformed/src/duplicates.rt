//! The first pass: names and parameters that stand twice.
ghost use Rattle.std.specs.Prelude.{◌≡◌, ◌<◌, ◌∷◌, [], length, map};
ghost use Rattle.qtl_syntax.specs.Tree.{item_of};
ghost use Rattle.qtl_truth.specs.Items.{before_of};
ghost use Rattle.wellformed.specs.Faults.{duplicate_from, has_repeat, is_duplicate, is_in, props_named};

use crate::macros::find_macro;
use qtl_syntax::{Item, Text};

/// Whether the text is one of the texts.
pub fn contains(texts: &[Text], text: &Text) -> bool
    ensures { result ≡ is_in texts.now text.now }
{
    for own in texts {
        if own.is_same(text) {
            return true;
        }
    }
    false
}

/// Whether a text stands twice.
fn repeats(texts: &[Text]) -> bool
    ensures { result ≡ has_repeat texts.now }
{
    for (k, text) in texts.iter().enumerate() {
        if contains(&texts[k + 1..], text) {
            return true;
        }
    }
    false
}

/// Whether the item is a property of the name.
fn is_prop(item: &Item, name: &Text) -> bool
    ensures { result ≡ props_named (item_of item.now ∷ []) name.now }
{
    match item {
        Item::Pred { .. } => false,
        Item::Prop { name: own, .. } => own.is_same(name),
    }
}

/// Whether one of the items is a property of the name.
fn has_prop_named(items: &[Item], name: &Text) -> bool
    ensures { result ≡ props_named (before_of items.now) name.now }
{
    let mut found = false;
    for item in items {
        found = is_prop(item, name) || found;
    }
    found
}

/// Whether the item has the name of an item before, or a parameter twice.
fn repeats_name(before: &[Item], item: &Item) -> bool
    ensures { result ≡ is_duplicate (before_of before.now) (item_of item.now) }
{
    match item {
        Item::Pred { name, params, .. } => find_macro(before, name).is_some()
            || repeats(params.as_slice()),
        Item::Prop { name, .. } => has_prop_named(before, name),
    }
}

/// The first item with a name that an earlier one has, or with a parameter twice.
pub fn duplicate_name(items: &[Item]) -> Option<u32>
    requires { length items.now < 4294967296 }
    ensures { result ≡ duplicate_from [] 0 (map item_of items.now) }
{
    for (m, item) in items.iter().enumerate() {
        if repeats_name(&items[..m], item) {
            return Some(m as u32);
        }
    }
    None
}
