//! A value cut at its commas.
ghost use Rattle.std.specs.Prelude.{◌≡◌, IfOk, option_map};
ghost use Rattle.settings.specs.Asked.{pieces, names_of};

use qtl_syntax::Text;
use sqlite_items::Items;
use std::alloc::{AllocError, Global};

/// The pieces between the commas.
fn pieces_in(alloc: Global, value: &str) -> Result<Items<Text>, AllocError>
    ensures { IfOk result (λ names. names ≡ pieces value.now) }
{
    let mut names = Items::new(alloc);
    let mut rest = value;
    while let Some((name, behind)) = rest.split_once(',') {
        names.push(Text::from_bytes(alloc, name.as_bytes())?)?;
        rest = behind;
    }
    names.push(Text::from_bytes(alloc, rest.as_bytes())?)?;
    Ok(names)
}

/// The names of `--listen`.
pub fn names_in(alloc: Global, value: Option<&str>) -> Result<Items<Text>, AllocError>
    ensures { IfOk result (λ names. names ≡ names_of (option_map (λ s. s.now) value.entry)) }
{
    match value {
        Some(value) => pieces_in(alloc, value),
        None => Ok(Items::new(alloc)),
    }
}
