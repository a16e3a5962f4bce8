ghost use Rattle.std.specs.Prelude.{◌≡◌, ◌<◌, ◌++◌, OnOk};
ghost use Rattle.std.specs.Fmt.{digit_glyph};
ghost use Rattle.font_texts.specs.JsonText.{json_byte, json_escaped, json_string, json_text};
ghost use Rattle.font_texts.specs.ListingWords.{escaped, escaped_text, hex_byte, hex_text};

use std::alloc::AllocError;

/// What a function returns that appends to a text. The error means that an allocation failed.
pub(crate) type Pushed = Result<(), AllocError>;

/// Returns a hexadecimal digit; if the flag is set, those above 9 are capitals.
pub(crate) fn hex_digit(value: u8, capital: bool) -> u8
    requires { value < 16 }
    ensures { result ≡ digit_glyph capital value }
{
    if value < 10 {
        return b'0' + value;
    }
    let ten = if capital { b'A' } else { b'a' };
    ten + (value - 10)
}

#[tactic(auto, using(crate::proofs::ListingLemmas::joined), unfolding(crate::specs::ListingWords::escaped))]
fn push_escaped(text: &mut Vec<u8>, byte: u8) -> Pushed
    ensures { OnOk result (text.new.items ≡ text.old.items ++ escaped byte) }
{
    if matches!(byte, 32..=126) && byte != b'\\' {
        return text.extend_from_slice(&[byte]);
    }
    text.extend_from_slice(b"\\x")?;
    push_hex_byte(text, byte)
}

/// Appends a text in which every backslash, and every byte that isn't printable ASCII, is escaped as
/// `\x` and two hexadecimal digits.
pub fn push_escaped_text(text: &mut Vec<u8>, bytes: &[u8]) -> Result<(), AllocError>
    ensures { OnOk result (text.new.items ≡ text.old.items ++ escaped_text bytes.now) }
{
    for byte in bytes {
        push_escaped(text, *byte)?;
    }
    Ok(())
}

#[tactic(auto, unfolding(crate::specs::JsonText::json_escaped))]
fn push_json_escaped(text: &mut Vec<u8>, byte: u8) -> Pushed
    ensures { OnOk result (text.new.items ≡ text.old.items ++ json_escaped byte) }
{
    if !matches!(byte, 32..=126) || byte == b'\\' || byte == b'"' {
        text.extend_from_slice(b"\\")?;
    }
    push_escaped(text, byte)
}

/// Appends a text in any encoding for a JSON string: escaped as `push_escaped_text` does, and then with a backslash
/// before each backslash and double quote.
pub(crate) fn push_json_text(text: &mut Vec<u8>, bytes: &[u8]) -> Pushed
    ensures { OnOk result (text.new.items ≡ text.old.items ++ json_text bytes.now) }
{
    for byte in bytes {
        push_json_escaped(text, *byte)?;
    }
    Ok(())
}

#[tactic(auto, unfolding(crate::specs::ListingWords::hex_byte))]
fn push_hex_byte(text: &mut Vec<u8>, byte: u8) -> Pushed
    ensures { OnOk result (text.new.items ≡ text.old.items ++ hex_byte byte) }
{
    text.extend_from_slice(&[hex_digit(byte / 16, false), hex_digit(byte % 16, false)])
}

/// Appends bytes, each as two hexadecimal digits in lower case, the higher digit first.
pub fn push_hex(text: &mut Vec<u8>, bytes: &[u8]) -> Result<(), AllocError>
    ensures { OnOk result (text.new.items ≡ text.old.items ++ hex_text bytes.now) }
{
    for byte in bytes {
        push_hex_byte(text, *byte)?;
    }
    Ok(())
}

#[tactic(auto, unfolding(crate::specs::JsonText::json_byte))]
fn push_json_byte(text: &mut Vec<u8>, byte: u8) -> Pushed
    ensures { OnOk result (text.new.items ≡ text.old.items ++ json_byte byte) }
{
    match byte {
        b'"' | b'\\' => text.extend_from_slice(&[b'\\', byte]),
        0..=31 => {
            text.extend_from_slice(b"\\u00")?;
            push_hex_byte(text, byte)
        }
        _ => text.extend_from_slice(&[byte]),
    }
}

/// Appends a text in UTF-8 for a JSON string (RFC 8259, section 7): with a backslash before each double quote and
/// backslash, and with each control character below U+0020 by its number, such as `\u001f`.
pub fn push_json_string(text: &mut Vec<u8>, utf8: &[u8]) -> Result<(), AllocError>
    ensures { OnOk result (text.new.items ≡ text.old.items ++ json_string utf8.now) }
{
    for byte in utf8 {
        push_json_byte(text, *byte)?;
    }
    Ok(())
}
