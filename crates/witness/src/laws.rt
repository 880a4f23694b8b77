//! Laws of the definitions. A function here does nothing: its contract is the law.
ghost use Rattle.witness.specs.Laws.{WitnessesHold};

/// What is found of a false property is its witness, for each log for which the monitor stands.
pub fn witnesses_hold()
    ensures { WitnessesHold }
{}
