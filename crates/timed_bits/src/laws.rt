//! The laws of the operations on ages. A law is a function that does nothing, with the law as its contract.

ghost use Rattle.timed_bits.specs.Laws.{EntryIsChain, EntryHasAge, AgeDropHasAges, AgeCapHasAges, AnyTimeSays, AtTimeSays, StampHasAges, WithinHasAges, EitherHasAges, BeforeSays, DropNow, CapNow, AnyTimeSame};

/// What stands at the entries to the block.
pub fn entries()
    ensures chain { EntryIsChain }
    ensures age { EntryHasAge }
{}

/// What each operation makes of the ages.
pub fn operations()
    ensures age_drop { AgeDropHasAges }
    ensures age_cap { AgeCapHasAges }
    ensures any_time { AnyTimeSays }
    ensures at_time { AtTimeSays }
    ensures stamp { StampHasAges }
{}

/// What operations on two trees make of ages.
pub fn with_others()
    ensures within { WithinHasAges }
    ensures either { EitherHasAges }
    ensures before { BeforeSays }
{}

/// Where an operation leaves a tree as it is.
pub fn shortcuts()
    ensures drop_now { DropNow }
    ensures cap_now { CapNow }
    ensures any_time { AnyTimeSame }
{}
