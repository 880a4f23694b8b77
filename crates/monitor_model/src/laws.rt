//! Laws of codes, diagrams and what a monitor stands for.

ghost use Rattle.monitor_model.specs.Laws.{CodesExact, ShapesStay, LiteralsSpell, OneBook, OneEnd, OpenStands, OrderFree, PrefixStands, ReadsAnswer, RowsQuantify, StandsGive, StandsTell, StepStands, ToldExist};

/// Rows over the bits of a block quantify over the block.
pub fn rows_quantify()
    ensures { RowsQuantify }
{}

/// The literals of a code hold exactly where the bits spell it.
pub fn literals_spell()
    ensures { LiteralsSpell }
{}

/// A new monitor stands for the first 0 events of each log.
pub fn open_stands()
    ensures { OpenStands }
{}

/// What stands after the first events of a log hangs on these events alone.
pub fn prefix_stands()
    ensures { PrefixStands }
{}

/// There is a next book exactly where the codes suffice.
pub fn codes_exact()
    ensures { CodesExact }
{}

/// Of a variable there is at most one book.
pub fn one_book()
    ensures { OneBook }
{}

/// Books with the same codes have next books with the same codes, whatever the order of their pairs.
pub fn order_free()
    ensures { OrderFree }
{}

/// The texts that are told apart after the events of a log are a list.
pub fn told_exist()
    ensures { ToldExist }
{}

/// At most one thing comes at an event.
pub fn one_end()
    ensures { OneEnd }
{}

/// Of a text with a code the remembered trees tell whether it is told apart; a text without a code isn't.
pub fn stands_tell()
    ensures { StandsTell }
{}

/// The trees of a monitor that stands for a log give truth and memory under each assignment.
pub fn stands_give()
    ensures { StandsGive }
{}

/// The rows of an event, with the books that come next, keep what a monitor stands for.
pub fn step_stands()
    ensures { StepStands }
{}

/// What an event does by the monitor's own books and trees is what the log says, where the monitor stands for one.
pub fn reads_answer()
    ensures { ReadsAnswer }
{}

/// What the rows make of remembered trees of a live monitor's shape has that shape.
pub fn shapes_stay()
    ensures { ShapesStay }
{}
