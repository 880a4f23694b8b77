//! The law of codes that trees tell apart, on which those above rest.

ghost use Rattle.code_reclaim.specs.Laws.{ToldApartTells};

/// Whether trees tell a code apart is whether some tree has unequal values at some bits with the block set to the code
/// and to all ones.
pub fn told_apart_tells()
    ensures { ToldApartTells }
{}
