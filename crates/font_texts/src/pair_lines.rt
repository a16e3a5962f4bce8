//! Makes the text of the pairs of a font.
ghost use Rattle.std.specs.Prelude.{◌≡◌, ◌++◌, codes, flat_map, IfOk, OnOk};
ghost use Rattle.font_texts.specs.PairCharacters.{pair_line_with, pairs_head_with, pairs_text_with};
ghost use Rattle.font_texts.specs.PairsText.{action_name, action_value, line_end as end_of, pair_fields, pair_front, pair_members, slash_if, symbol_in};

use crate::appending::Pushed;
use crate::fields::{push_length_in, push_word};
use crate::pair_characters::push_characters;
use crate::pairing::pairs;
use crate::{ListLayout, OutputFormat, Pair, PairsFormat, PairsLayout};
use lig_kern::{Action, Symbol};
use std::alloc::{AllocError, Global};
use tex_sizes::LengthUnit;
use tfm_tables::Font;
use tfm_words::push_number;

/// The first line of CSV without an encoding.
const CODES_HEAD: &[u8] = b"left,right,action,value\n";

/// The first line of CSV with an encoding.
const CHARACTERS_HEAD: &[u8] =
    b"left,right,action,value,left_character,right_character,value_character\n";

/// Returns the text of the pairs of a font: a line for each pair that `pairs` returns, in order. With an
/// encoding, the characters follow the codes in each line. In CSV a line with the names of the fields precedes
/// the pairs. Fails if an allocation fails.
#[tactic(auto, unfolding(crate::specs::PairCharacters::pairs_text_with))]
pub fn pairs_text(alloc: Global, font: &Font, layout: PairsLayout) -> Result<Vec<u8>, AllocError>
    ensures { IfOk result (λ text. text.items ≡ pairs_text_with layout.unit layout.encoding layout.format font.now) }
{
    let pairs = pairs(alloc, font)?;
    let mut text = Vec::from_slice(alloc, head(layout))?;
    push_lines(&mut text, pairs.as_slice(), layout)?;
    Ok(text)
}

#[tactic(auto, using(crate::proofs::PairLemmas::heads), unfolding(crate::specs::PairCharacters::pairs_head_with, crate::specs::PairsText::pairs_head))]
fn head(layout: PairsLayout) -> &'static [u8]
    ensures { result.now ≡ pairs_head_with layout.encoding layout.format }
{
    match layout.format {
        PairsFormat::Csv => match layout.encoding {
            Some(_) => CHARACTERS_HEAD,
            None => CODES_HEAD,
        },
        PairsFormat::Text | PairsFormat::Json => b"",
    }
}

fn push_lines(text: &mut Vec<u8>, pairs: &[Pair], layout: PairsLayout) -> Pushed
    ensures { OnOk result (text.new.items ≡ text.old.items
        ++ flat_map (pair_line_with layout.unit layout.encoding layout.format) pairs.now) }
{
    for pair in pairs {
        push_line(text, pair, layout)?;
    }
    Ok(())
}

#[tactic(auto, using(crate::proofs::ListingLemmas::joined), unfolding(crate::specs::PairCharacters::pair_line_with))]
fn push_line(text: &mut Vec<u8>, pair: &Pair, layout: PairsLayout) -> Pushed
    ensures { OnOk result (text.new.items ≡ text.old.items
        ++ pair_line_with layout.unit layout.encoding layout.format pair.now) }
{
    push_front(text, pair, layout)?;
    push_characters(text, pair, layout)?;
    text.extend_from_slice(line_end(layout.format))
}

#[tactic(auto, unfolding(crate::specs::PairsText::line_end))]
fn line_end(format: PairsFormat) -> &'static [u8]
    ensures { result.now ≡ end_of format }
{
    match format {
        PairsFormat::Text | PairsFormat::Csv => b"\n",
        PairsFormat::Json => b"}\n",
    }
}

/// Appends the line of a pair up to the end of its four fields.
#[tactic(auto, unfolding(crate::specs::PairsText::pair_front))]
fn push_front(text: &mut Vec<u8>, pair: &Pair, layout: PairsLayout) -> Pushed
    ensures { OnOk result (text.new.items ≡ text.old.items ++ pair_front layout.unit layout.format pair.now) }
{
    match layout.format {
        PairsFormat::Text => push_fields(text, pair, b" ", layout.unit),
        PairsFormat::Csv => push_fields(text, pair, b",", layout.unit),
        PairsFormat::Json => push_object(text, pair, layout.unit),
    }
}

#[tactic(auto, using(crate::proofs::ListingLemmas::joined))]
fn push_fields(text: &mut Vec<u8>, pair: &Pair, separator: &[u8], unit: LengthUnit) -> Pushed
    ensures { OnOk result (text.new.items ≡ text.old.items ++ pair_fields unit separator.now pair.now) }
{
    push_symbol(text, OutputFormat::Text, pair.left)?;
    text.extend_from_slice(separator)?;
    push_symbol(text, OutputFormat::Text, pair.right)?;
    text.extend_from_slice(separator)?;
    push_name(text, pair.action)?;
    text.extend_from_slice(separator)?;
    push_value(text, pair.action, OutputFormat::Text, unit)
}

/// Appends a JSON object without its closing brace.
#[tactic(auto, using(crate::proofs::ListingLemmas::joined))]
fn push_object(text: &mut Vec<u8>, pair: &Pair, unit: LengthUnit) -> Pushed
    ensures { OnOk result (text.new.items ≡ text.old.items ++ codes "{" ++ pair_members unit pair.now) }
{
    text.extend_from_slice(b"{\"left\":")?;
    push_symbol(text, OutputFormat::Json, pair.left)?;
    text.extend_from_slice(b",\"right\":")?;
    push_symbol(text, OutputFormat::Json, pair.right)?;
    text.extend_from_slice(b",\"action\":\"")?;
    push_name(text, pair.action)?;
    text.extend_from_slice(b"\",\"value\":")?;
    push_value(text, pair.action, OutputFormat::Json, unit)
}

#[tactic(auto, unfolding(crate::specs::PairsText::symbol_in))]
fn push_symbol(text: &mut Vec<u8>, format: OutputFormat, symbol: Symbol) -> Pushed
    ensures { OnOk result (text.new.items ≡ text.old.items ++ symbol_in format symbol) }
{
    match symbol {
        Symbol::Left => push_word(text, format, b"left"),
        Symbol::Char(code) => push_number(text, b"", code),
        Symbol::Right => push_word(text, format, b"right"),
    }
}

#[tactic(auto, unfolding(crate::specs::PairsText::action_name))]
fn push_name(text: &mut Vec<u8>, action: Action) -> Pushed
    ensures { OnOk result (text.new.items ≡ text.old.items ++ action_name action) }
{
    match action {
        Action::Kern(_) => text.extend_from_slice(b"kern"),
        Action::Lig {
            keep_left,
            keep_right,
            pass,
            ..
        } => {
            text.extend_from_slice(slash_where(keep_left))?;
            text.extend_from_slice(b"LIG")?;
            text.extend_from_slice(slash_where(keep_right))?;
            text.resize(text.len() + usize::from(pass), b'>')
        }
    }
}

fn slash_where(kept: bool) -> &'static [u8]
    ensures { result.now ≡ slash_if kept }
{
    if kept { b"/" } else { b"" }
}

#[tactic(auto, using(crate::proofs::ListingLemmas::signed), unfolding(crate::specs::PairsText::action_value))]
fn push_value(text: &mut Vec<u8>, action: Action, format: OutputFormat, unit: LengthUnit) -> Pushed
    ensures { OnOk result (text.new.items ≡ text.old.items ++ action_value format unit action) }
{
    let layout = ListLayout { format, unit };
    match action {
        Action::Kern(amount) => push_length_in(text, layout, i64::from(amount)),
        Action::Lig { code, .. } => push_number(text, b"", code),
    }
}
