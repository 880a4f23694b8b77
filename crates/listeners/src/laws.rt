//! A law of the definitions. A function here does nothing: its contract is the law.
ghost use Rattle.listeners.specs.Laws.{RowReadsBack};

/// What reads a row by the defaults of `csv` gets its three fields.
pub fn row_reads_back()
    ensures { RowReadsBack }
{}
