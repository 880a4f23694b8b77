//! A specification: its items, in order of the text.
ghost use Rattle.std.specs.Prelude.{IsTrue, map};
ghost use Rattle.qtl_syntax.specs.Shape.{item_of};
ghost use Rattle.qtl_syntax.specs.Lawful.{are_lawful};

use crate::formula::Item;
use sqlite_items::Items;

/// The items of a specification, in order of the text. Its names are names of the language, its
/// constants hold no double quote and no line feed, and its bounds are at most 1,048,574.
#[derive(Drop)]
pub struct Spec {
    pub items: Items<Item>,
    pub ghost lawful: { IsTrue (are_lawful (map item_of items)) },
}
