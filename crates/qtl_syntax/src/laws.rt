//! Laws of the definitions. A function here does nothing: its contract is the law.
ghost use Rattle.qtl_syntax.specs.Faults.{OneFault, FaultsSpellNothing, OneSpelled};

/// A text has one answer, want of memory aside: one specification within the limits, or one fault.
pub fn one_answer()
    ensures one_fault { OneFault }
    ensures never_both { FaultsSpellNothing }
    ensures one_specification { OneSpelled }
{}
