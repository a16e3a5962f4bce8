//! Appends a character as a field of text or of CSV, or as a JSON value.
ghost use Rattle.std.specs.Prelude.{◌≡◌, ◌++◌, OnOk, true};
ghost use Rattle.std.specs.Char.{encode_utf8};
ghost use Rattle.font_texts.specs.JsonText.{json_string};
ghost use Rattle.font_texts.specs.PairCharacters.{character_cell, character_name, character_word, csv_field, is_named as is_named_in, json_member, json_value};

use crate::appending::{Pushed, hex_digit, push_json_string};

fn push_utf8(text: &mut Vec<u8>, character: char) -> Pushed
    ensures { OnOk result (text.new.items ≡ text.old.items ++ encode_utf8 character) }
{
    let mut bytes = [0; 4];
    text.extend_from_slice(character.encode_utf8(&mut bytes).as_bytes())
}

/// Returns whether the character with this number is replaced by its name: a control character, the space,
/// the no-break space, or the soft hyphen.
fn is_named(number: u8) -> bool
    ensures { result ≡ is_named_in number }
{
    matches!(number, 0..=0x20 | 0x7F..=0xA0 | 0xAD)
}

/// Appends the name of the character with this number, such as `U+00A0`.
#[tactic(auto, unfolding(crate::specs::PairCharacters::character_name))]
fn push_name(text: &mut Vec<u8>, number: u8) -> Pushed
    ensures { OnOk result (text.new.items ≡ text.old.items ++ character_name number) }
{
    text.extend_from_slice(b"U+00")?;
    text.extend_from_slice(&[hex_digit(number / 16, true), hex_digit(number % 16, true)])
}

/// Appends a character as a field of a line of text.
#[tactic(auto, using(crate::proofs::PairLemmas::words))]
pub(crate) fn push_word(text: &mut Vec<u8>, character: char) -> Pushed
    ensures { OnOk result (text.new.items ≡ text.old.items ++ character_word character) }
{
    match u8::try_from(u32::from(character)) {
        Ok(number) if is_named(number) => push_name(text, number),
        _ => push_utf8(text, character),
    }
}

/// Appends a comma and a field of CSV, which is empty for `None`.
pub(crate) fn push_cell(text: &mut Vec<u8>, character: Option<char>) -> Pushed
    ensures { OnOk result (text.new.items ≡ text.old.items ++ csv_field character) }
{
    text.extend_from_slice(b",")?;
    match character {
        Some(character) => push_quoted(text, character),
        None => Ok(()),
    }
}

/// Appends a character as a field of CSV, in quotes where it needs them.
#[tactic(auto, unfolding(crate::specs::PairCharacters::character_cell))]
fn push_quoted(text: &mut Vec<u8>, character: char) -> Pushed
    ensures { OnOk result (text.new.items ≡ text.old.items ++ character_cell character) }
{
    match character {
        '"' => text.extend_from_slice(b"\"\"\"\""),
        ',' => text.extend_from_slice(b"\",\""),
        _ => push_word(text, character),
    }
}

/// Appends a comma and the member of a JSON object for the character of this field.
#[tactic(auto, using(crate::proofs::ListingLemmas::joined), unfolding(crate::specs::PairCharacters::json_member))]
pub(crate) fn push_json_member(text: &mut Vec<u8>, field: &[u8], character: Option<char>) -> Pushed
    ensures { OnOk result (text.new.items ≡ text.old.items ++ json_member field.now character) }
{
    text.extend_from_slice(b",\"")?;
    text.extend_from_slice(field)?;
    text.extend_from_slice(b"_character\":")?;
    push_json_value(text, character)
}

/// Appends a character as a JSON string, or `null`.
#[tactic(auto, unfolding(crate::specs::PairCharacters::json_value))]
fn push_json_value(text: &mut Vec<u8>, character: Option<char>) -> Pushed
    ensures { OnOk result (text.new.items ≡ text.old.items ++ json_value character) }
{
    match character {
        Some(character) => {
            text.extend_from_slice(b"\"")?;
            push_json_character(text, character)?;
            text.extend_from_slice(b"\"")
        }
        None => text.extend_from_slice(b"null"),
    }
}

/// Appends a character of a JSON string.
fn push_json_character(text: &mut Vec<u8>, character: char) -> Pushed
    ensures { OnOk result (text.new.items ≡ text.old.items ++ json_string (encode_utf8 character)) }
{
    let mut bytes = [0; 4];
    push_json_string(text, character.encode_utf8(&mut bytes).as_bytes())
}
