//! Events, of which a log is a list.
use qtl_syntax::Text;
use sqlite_items::Items;

/// What happened: a name, its arguments, and when. The time is in the unit of the log, which bounds are in too; it is 0
/// where the log has no times.
#[derive(Debug, Drop)]
pub struct Event {
    pub name: Text,
    pub args: Items<Text>,
    pub time: u64,
}
