//! Laws of the definitions. A function here does nothing: its contract is the law.
ghost use Rattle.report.specs.Laws.{OneWitness, WitnessStays};
ghost use Rattle.report.specs.Lines.{ListsViolations};

/// What the verdicts on all events write are the lines of the violations, one after the other.
pub fn report_lists_violations()
    ensures { ListsViolations }
{}

/// A false property has at most one witness at an event.
pub fn one_witness()
    ensures { OneWitness }
{}

/// A witness stays one when events come.
pub fn witness_stays()
    ensures { WitnessStays }
{}
