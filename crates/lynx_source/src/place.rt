//! Places in sources.

ghost use Rattle.std.specs.Prelude.{◌≡◌, ◌<◌, length};
ghost use Rattle.lynx_source.specs.Places.{place_behind, place_of};

/// A line of a source and a column in it, both counted from 1. Columns count bytes, and a line ends with its line feed.
#[derive(Clone, Copy, Debug, PartialEq, Eq)]
pub struct Place {
    pub line: u32,
    pub column: u32,
}

/// The place that follows these bytes.
fn place_behind(bytes: &[u8]) -> Place
    requires { length bytes.now < 4294967295 }
    ensures { result ≡ place_behind bytes.now }
{
    let mut place = Place { line: 1, column: 1 };
    for byte in bytes {
        if *byte == b'\n' {
            place.line += 1;
            place.column = 1;
        } else {
            place.column += 1;
        }
    }
    place
}

/// Where the byte of this number stands, counted from 0; behind the last byte, the end of the source.
pub(crate) fn place_of(source: &[u8], byte: usize) -> Place
    requires { length source.now < 4294967295 }
    ensures { result ≡ place_of source.now byte }
{
    place_behind(&source[..byte.min(source.len())])
}
