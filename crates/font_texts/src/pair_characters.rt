//! Appends the characters of a pair, which an encoding of the font gives its codes.
ghost use Rattle.std.specs.Prelude.{◌≡◌, ◌++◌, OnOk};
ghost use Rattle.font_texts.specs.PairCharacters.{characters_beside, code_word, csv_fields, json_members, symbol_character as character_of_symbol, symbol_field, text_fields, value_character as character_of_value, value_field, value_member};

use crate::appending::Pushed;
use crate::character_fields::{push_cell, push_json_member, push_word};
use crate::{Pair, PairsFormat, PairsLayout};
use encodings::{Encoding, character_at};
use lig_kern::{Action, Symbol};

/// Appends the characters of a pair, and before each of them what separates it from the field before; without an
/// encoding, nothing.
#[tactic(auto, unfolding(crate::specs::PairCharacters::characters_beside))]
pub(crate) fn push_characters(text: &mut Vec<u8>, pair: &Pair, layout: PairsLayout) -> Pushed
    ensures { OnOk result (text.new.items ≡ text.old.items
        ++ characters_beside layout.encoding layout.format pair.now) }
{
    let Some(encoding) = layout.encoding else {
        return Ok(());
    };
    match layout.format {
        PairsFormat::Text => push_fields(text, pair, encoding),
        PairsFormat::Csv => push_cells(text, pair, encoding),
        PairsFormat::Json => push_members(text, pair, encoding),
    }
}

#[tactic(auto, using(crate::proofs::ListingLemmas::joined))]
fn push_fields(text: &mut Vec<u8>, pair: &Pair, encoding: Encoding) -> Pushed
    ensures { OnOk result (text.new.items ≡ text.old.items ++ text_fields encoding.entry pair.now) }
{
    text.extend_from_slice(b" ")?;
    push_symbol(text, encoding, pair.left)?;
    text.extend_from_slice(b" ")?;
    push_symbol(text, encoding, pair.right)?;
    push_value(text, encoding, pair.action)
}

#[tactic(auto, using(crate::proofs::ListingLemmas::joined))]
fn push_cells(text: &mut Vec<u8>, pair: &Pair, encoding: Encoding) -> Pushed
    ensures { OnOk result (text.new.items ≡ text.old.items ++ csv_fields encoding.entry pair.now) }
{
    push_cell(text, symbol_character(encoding, pair.left))?;
    push_cell(text, symbol_character(encoding, pair.right))?;
    push_cell(text, value_character(encoding, pair.action))
}

#[tactic(auto, using(crate::proofs::ListingLemmas::joined))]
fn push_members(text: &mut Vec<u8>, pair: &Pair, encoding: Encoding) -> Pushed
    ensures { OnOk result (text.new.items ≡ text.old.items ++ json_members encoding.entry pair.now) }
{
    push_json_member(text, b"left", symbol_character(encoding, pair.left))?;
    push_json_member(text, b"right", symbol_character(encoding, pair.right))?;
    push_value_member(text, encoding, pair.action)
}

/// Returns the character of a symbol, or `None` for a boundary.
#[tactic(auto, unfolding(crate::specs::PairCharacters::symbol_character))]
fn symbol_character(encoding: Encoding, symbol: Symbol) -> Option<char>
    ensures { result ≡ character_of_symbol encoding.entry symbol }
{
    match symbol {
        Symbol::Char(code) => character_at(encoding, code),
        Symbol::Left | Symbol::Right => None,
    }
}

/// Returns the character that an action inserts, or `None` for a kern.
#[tactic(auto, unfolding(crate::specs::PairCharacters::value_character))]
fn value_character(encoding: Encoding, action: Action) -> Option<char>
    ensures { result ≡ character_of_value encoding.entry action }
{
    match action {
        Action::Kern(_) => None,
        Action::Lig { code, .. } => character_at(encoding, code),
    }
}

#[tactic(auto, unfolding(crate::specs::PairCharacters::symbol_field))]
fn push_symbol(text: &mut Vec<u8>, encoding: Encoding, symbol: Symbol) -> Pushed
    ensures { OnOk result (text.new.items ≡ text.old.items ++ symbol_field encoding.entry symbol) }
{
    match symbol {
        Symbol::Left => text.extend_from_slice(b"left"),
        Symbol::Char(code) => push_code(text, encoding, code),
        Symbol::Right => text.extend_from_slice(b"right"),
    }
}

#[tactic(auto, unfolding(crate::specs::PairCharacters::value_field))]
fn push_value(text: &mut Vec<u8>, encoding: Encoding, action: Action) -> Pushed
    ensures { OnOk result (text.new.items ≡ text.old.items ++ value_field encoding.entry action) }
{
    match action {
        Action::Kern(_) => Ok(()),
        Action::Lig { code, .. } => {
            text.extend_from_slice(b" ")?;
            push_code(text, encoding, code)
        }
    }
}

/// Appends the character of a code, or `none`.
fn push_code(text: &mut Vec<u8>, encoding: Encoding, code: u8) -> Pushed
    ensures { OnOk result (text.new.items ≡ text.old.items ++ code_word encoding.entry code) }
{
    match character_at(encoding, code) {
        Some(character) => push_word(text, character),
        None => text.extend_from_slice(b"none"),
    }
}

/// Appends the member of the character that a ligature operation inserts.
#[tactic(auto, unfolding(crate::specs::PairCharacters::value_member))]
fn push_value_member(text: &mut Vec<u8>, encoding: Encoding, action: Action) -> Pushed
    ensures { OnOk result (text.new.items ≡ text.old.items ++ value_member encoding.entry action) }
{
    match action {
        Action::Kern(_) => Ok(()),
        Action::Lig { code, .. } => {
            push_json_member(text, b"value", character_at(encoding, code))
        }
    }
}
