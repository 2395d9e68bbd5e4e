//! White space.
ghost use Rattle.std.specs.Prelude.{◌≡◌, ◌↔◌, IsTrue};
ghost use Rattle.std.specs.List.{AllByRecursion};
ghost use Rattle.mig_token.specs.Lexical.{IsWhite};
ghost use Rattle.mig_lex.specs.Reading.{SkipsWhite};

/// Whether the byte is white space of a chain text: space, tab, carriage return or line feed.
pub(crate) fn is_white(byte: u8) -> bool
    ensures { IsTrue result ↔ IsWhite byte }
{
    matches!(byte, b' ' | b'\t' | b'\r' | b'\n')
}

/// The bytes behind the white space at the front.
pub(crate) fn after_white(bytes: &[u8]) -> &[u8]
    ensures { SkipsWhite bytes.now result.now }
{
    for (i, byte) in bytes.iter().enumerate() {
        if !is_white(*byte) {
            return &bytes[i..];
        }
    }
    &bytes[bytes.len()..]
}

/// Whether the bytes are white space alone.
pub fn is_blank(bytes: &[u8]) -> bool
    ensures { IsTrue result ↔ AllByRecursion IsWhite bytes.now }
{
    after_white(bytes).is_empty()
}
