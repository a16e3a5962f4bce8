//! The classes of bytes.
ghost use Rattle.std.specs.Prelude.{◌≡◌};
ghost use Rattle.encoding_vectors.specs.Bytes.{ends_line as ends_line_byte, is_continued as is_continued_byte, is_regular as is_regular_byte, is_special as is_special_byte, is_white as is_white_byte};

/// Returns whether a byte is white space: NUL, TAB, LF, FF, CR or the space.
#[tactic(auto, unfolding(crate::specs::Bytes::is_white))]
pub(crate) fn is_white(byte: u8) -> bool
    ensures { result ≡ is_white_byte byte }
{
    matches!(byte, 0 | 9 | 10 | 12 | 13 | b' ')
}

/// Returns whether a byte is one of the special characters `( ) < > [ ] { } / %`.
#[tactic(auto, unfolding(crate::specs::Bytes::is_special))]
fn is_special(byte: u8) -> bool
    ensures { result ≡ is_special_byte byte }
{
    matches!(
        byte,
        b'(' | b')' | b'<' | b'>' | b'[' | b']' | b'{' | b'}' | b'/' | b'%'
    )
}

/// Returns whether a byte is a regular character: neither white space nor a special character.
#[tactic(auto, unfolding(crate::specs::Bytes::is_regular))]
pub(crate) fn is_regular(byte: u8) -> bool
    ensures { result ≡ is_regular_byte byte }
{
    !(is_white(byte) || is_special(byte))
}

/// Returns whether a byte ends a line: LF or CR.
pub(crate) fn ends_line(byte: u8) -> bool
    ensures { result ≡ ends_line_byte byte }
{
    byte == b'\n' || byte == b'\r'
}

/// Returns whether regular characters after this byte belong to the same token.
pub(crate) fn is_continued(byte: u8) -> bool
    ensures { result ≡ is_continued_byte byte }
{
    is_regular(byte) || byte == b'/'
}
