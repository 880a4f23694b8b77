//! The byte-order mark at the start of a log.
ghost use Rattle.std.specs.Prelude.{◌≡◌};
ghost use Rattle.log_reader.specs.Marks.{mark_of as mark_of_lem, mark_length as mark_length_lem};

/// What the first bytes of a log say of a byte-order mark.
#[derive(Clone, Copy, Debug, PartialEq, Eq)]
enum Mark {
    /// The bytes EF BB BF stand there.
    Whole,
    /// The mark is begun, or no byte is there.
    Begun,
    /// The log begins with other bytes.
    Missing,
}

/// Whether the bytes begin with a byte-order mark.
fn mark_of(bytes: &[u8]) -> Mark
    ensures { result ≡ mark_of_lem bytes.now }
{
    match bytes {
        [] | [0xEF] | [0xEF, 0xBB] => Mark::Begun,
        [0xEF, 0xBB, 0xBF, ..] => Mark::Whole,
        _ => Mark::Missing,
    }
}

/// How many bytes the mark takes at the front of these bytes of a log, which may be all. None as long as it isn't known.
pub fn mark_length(bytes: &[u8], are_all: bool) -> Option<usize>
    ensures { result ≡ mark_length_lem (mark_of_lem bytes.now) are_all }
{
    match mark_of(bytes) {
        Mark::Whole => Some(3),
        Mark::Begun => { if are_all { Some(0) } else { None } }
        Mark::Missing => Some(0),
    }
}
