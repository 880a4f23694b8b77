//! Where in a field a byte stands.
ghost use Rattle.std.specs.Prelude.{◌≡◌, Some, IsTrue};
ghost use Rattle.log_reader.specs.Fields.{is_blank as is_blank_lem};
ghost use Rattle.log_reader.specs.Places.{is_between as is_between_lem, is_inside as is_inside_lem, place_on};

/// What the bytes of a field so far say of the byte behind them.
#[derive(Clone, Copy, Debug, PartialEq, Eq)]
pub enum Place {
    /// They are blanks alone.
    Before,
    /// The field has no quotes.
    Plain,
    /// The byte stands in quotes.
    Inside,
    /// The last one is a quote, which closes the field unless the byte doubles it.
    AtQuote,
    /// The field is closed, and something stands behind its quote.
    Behind,
}

/// Space, tab or carriage return.
pub fn is_blank(byte: u8) -> bool
    ensures { result ≡ is_blank_lem byte }
{
    byte == b' ' || byte == b'\t' || byte == b'\r'
}

/// In quotes.
pub fn is_inside(place: Place) -> bool
    ensures { result ≡ is_inside_lem place }
{
    place == Place::Inside
}

/// Neither a comma nor a line feed.
fn is_between(byte: u8) -> bool
    ensures { result ≡ is_between_lem byte }
{
    byte != b',' && byte != b'\n'
}

fn place_before(byte: u8) -> Option<Place>
    ensures { result ≡ place_on Place.Before byte }
{
    if !is_between(byte) {
        None
    } else if byte == b'"' {
        Some(Place::Inside)
    } else if is_blank(byte) {
        Some(Place::Before)
    } else {
        Some(Place::Plain)
    }
}

fn place_inside(byte: u8) -> Place
    ensures { Some result ≡ place_on Place.Inside byte }
{
    if byte == b'"' {
        Place::AtQuote
    } else {
        Place::Inside
    }
}

/// Without quotes, and the byte stands behind the comma up to ~ as letters and digits do: the field goes on. Nearly all
/// bytes of a log are told so.
pub fn is_usual(place: Place, byte: u8) -> bool
    ensures { IsTrue result → place_on place byte ≡ Some place }
{
    place == Place::Plain && b',' < byte && byte <= b'~'
}

/// The place behind a byte, or none where the byte is not the field's.
pub fn place_after(place: Place, byte: u8) -> Option<Place>
    ensures { result ≡ place_on place byte }
{
    match place {
        Place::Before => place_before(byte),
        Place::Plain => {
            if is_between(byte) {
                Some(Place::Plain)
            } else {
                None
            }
        }
        Place::Inside => Some(place_inside(byte)),
        Place::AtQuote => {
            if byte == b'"' {
                Some(Place::Inside)
            } else if is_blank(byte) {
                Some(Place::Behind)
            } else {
                None
            }
        }
        Place::Behind => {
            if is_blank(byte) {
                Some(Place::Behind)
            } else {
                None
            }
        }
    }
}
