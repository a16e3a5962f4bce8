//! Appends the entries and the lines of a listing.
ghost use Rattle.std.specs.Prelude.{◌≡◌, ◌<◌, ◌≤◌, ◌++◌, codes, OnOk, option_map};
ghost use Rattle.std.specs.Option.{option_map_or};
ghost use Rattle.tfm_words.specs.declared.table.Table.TheVariants.{Kern};
ghost use Rattle.tfm_tables.specs.Acceptance.{kern_index_of};
ghost use Rattle.tfm_tables.specs.Table.{entries_of};
ghost use Rattle.font_texts.specs.Listing.{flag_where, length_entry, length_line, number_where, text_where};
ghost use Rattle.font_texts.specs.ListingFields.{action_fields, char_fields, measure_fields, operation_name, step_fields, tag_text, tag_with_remainder};
ghost use Rattle.font_texts.specs.ListingFormats.{entry, entry_start, hidden_name, in_format, line_end, line_of, line_start, string_in, table_of_lines, word_in};

use crate::appending::{Pushed, push_escaped_text, push_json_text};
use crate::fields::{
    pick, push_field_name, push_hidden_name, push_length_field, push_length_in, push_name,
    push_number_field, push_word,
};
use crate::{ListLayout, OutputFormat};
use itoa::Integer;
use tfm_tables::{FontMetrics, Metrics, Step, Tag};
use tfm_words::push_number;

/// Appends what precedes the value of an entry.
fn push_entry_start(text: &mut Vec<u8>, format: OutputFormat, name: &[u8]) -> Pushed
    ensures { OnOk result (text.new.items ≡ text.old.items ++ entry_start format name.now) }
{
    push_name(text, format, pick(format, b"", b",\""), name)
}

/// Appends an entry with a number.
#[tactic(auto, using(crate::proofs::ListingLemmas::joined), unfolding(crate::specs::ListingFormats::entry))]
pub fn push_number_entry<I: Integer>(
    text: &mut Vec<u8>,
    format: OutputFormat,
    name: &[u8],
    number: I,
) -> Pushed
    ensures { OnOk result (text.new.items ≡ text.old.items ++ entry format name.now (I.text number)) }
{
    push_entry_start(text, format, name)?;
    push_number(text, b"", number)?;
    text.extend_from_slice(pick(format, b"\n", b""))
}

/// Appends an entry with a length of so many sp.
#[tactic(auto, using(crate::proofs::ListingLemmas::joined), unfolding(crate::specs::ListingFormats::entry))]
pub fn push_length_entry(text: &mut Vec<u8>, layout: ListLayout, name: &[u8], sp: i64) -> Pushed
    ensures { OnOk result (text.new.items ≡ text.old.items ++ length_entry layout name.now sp) }
{
    push_entry_start(text, layout.format, name)?;
    push_length_in(text, layout, sp)?;
    text.extend_from_slice(pick(layout.format, b"\n", b""))
}

/// Appends an entry with this value.
#[tactic(auto, using(crate::proofs::ListingLemmas::joined), unfolding(crate::specs::ListingFormats::entry))]
fn push_entry(text: &mut Vec<u8>, format: OutputFormat, name: &[u8], value: &[u8]) -> Pushed
    ensures { OnOk result (text.new.items ≡ text.old.items ++ entry format name.now value.now) }
{
    push_entry_start(text, format, name)?;
    text.extend_from_slice(value)?;
    text.extend_from_slice(pick(format, b"\n", b""))
}

/// Appends an entry with a number, or with `none`, in JSON `null`, if there is no number.
pub fn push_number_or_none<I: Integer>(
    text: &mut Vec<u8>,
    format: OutputFormat,
    name: &[u8],
    number: Option<I>,
) -> Pushed
    ensures { OnOk result (text.new.items ≡ text.old.items
        ++ entry format name.now (option_map_or I.text number (in_format format (codes "none") (codes "null")))) }
{
    match number {
        Some(number) => push_number_entry(text, format, name, number),
        None => push_entry(text, format, name, pick(format, b"none", b"null")),
    }
}

/// Appends a text of the header.
#[tactic(auto, unfolding(crate::specs::ListingFormats::string_in))]
fn push_string(text: &mut Vec<u8>, format: OutputFormat, bytes: &[u8]) -> Pushed
    ensures { OnOk result (text.new.items ≡ text.old.items ++ string_in format bytes.now) }
{
    match format {
        OutputFormat::Text => push_escaped_text(text, bytes),
        OutputFormat::Json => {
            text.extend_from_slice(b"\"")?;
            push_json_text(text, bytes)?;
            text.extend_from_slice(b"\"")
        }
    }
}

/// Appends an entry with a text of the header, or nothing if there is no text.
#[tactic(auto, using(crate::proofs::ListingLemmas::joined), unfolding(crate::specs::Listing::text_where, crate::specs::ListingFormats::entry))]
pub fn push_text_where(
    text: &mut Vec<u8>,
    format: OutputFormat,
    name: &[u8],
    bytes: Option<&[u8]>,
) -> Pushed
    ensures { OnOk result (text.new.items ≡ text.old.items
        ++ text_where format name.now (option_map (λ shown. shown.now) bytes.entry)) }
{
    let Some(bytes) = bytes else {
        return Ok(());
    };
    push_entry_start(text, format, name)?;
    push_string(text, format, bytes)?;
    text.extend_from_slice(pick(format, b"\n", b""))
}

/// Appends an entry with a flag, or nothing if there is no flag.
#[tactic(auto, unfolding(crate::specs::Listing::flag_where))]
pub fn push_flag_where(
    text: &mut Vec<u8>,
    format: OutputFormat,
    name: &[u8],
    flag: Option<bool>,
) -> Pushed
    ensures { OnOk result (text.new.items ≡ text.old.items ++ flag_where format name.now flag) }
{
    match flag {
        Some(true) => push_entry(text, format, name, pick(format, b"yes", b"true")),
        Some(false) => push_entry(text, format, name, pick(format, b"no", b"false")),
        None => Ok(()),
    }
}

/// Appends an entry with a number, or nothing if there is no number.
#[tactic(auto, unfolding(crate::specs::Listing::number_where))]
pub fn push_number_where(
    text: &mut Vec<u8>,
    format: OutputFormat,
    name: &[u8],
    number: Option<u8>,
) -> Pushed
    ensures { OnOk result (text.new.items ≡ text.old.items ++ number_where format name.now number) }
{
    match number {
        Some(number) => push_number_entry(text, format, name, number),
        None => Ok(()),
    }
}

/// Appends these lines or, in JSON, a member with this name and a list of them.
#[tactic(auto, using(crate::proofs::ListingLemmas::joined), unfolding(crate::specs::ListingFormats::table_of_lines))]
pub fn push_table(text: &mut Vec<u8>, format: OutputFormat, name: &[u8], lines: &[u8]) -> Pushed
    ensures { OnOk result (text.new.items ≡ text.old.items ++ table_of_lines format name.now lines.now) }
{
    match format {
        OutputFormat::Text => text.extend_from_slice(lines),
        OutputFormat::Json => {
            push_name(text, format, b",\"", name)?;
            text.extend_from_slice(b"[")?;
            if let Some((_, rest)) = lines.split_first() {
                text.extend_from_slice(rest)?;
            }
            text.extend_from_slice(b"]")
        }
    }
}

/// Appends the name and the number of a line.
#[tactic(auto, using(crate::proofs::ListingLemmas::joined))]
pub fn push_line_start<I: Integer>(
    text: &mut Vec<u8>,
    format: OutputFormat,
    name: &[u8],
    number: I,
) -> Pushed
    ensures { OnOk result (text.new.items ≡ text.old.items ++ (line_start format name.now ++ I.text number)) }
{
    push_name(text, format, pick(format, b"", b",{\""), name)?;
    push_number(text, b"", number)
}

/// Appends the end of a line.
pub fn push_line_end(text: &mut Vec<u8>, format: OutputFormat) -> Pushed
    ensures { OnOk result (text.new.items ≡ text.old.items ++ line_end format) }
{
    text.extend_from_slice(pick(format, b"\n", b"}"))
}

/// Appends the line of an index and a length of so many sp.
#[tactic(auto, using(crate::proofs::ListingLemmas::signed), unfolding(crate::specs::ListingFormats::line_of))]
pub fn push_length_line(
    text: &mut Vec<u8>,
    layout: ListLayout,
    name: &[u8],
    number: usize,
    sp: i32,
) -> Pushed
    ensures { OnOk result (text.new.items ≡ text.old.items ++ length_line layout name.now number sp) }
{
    push_line_start(text, layout.format, name, number)?;
    push_hidden_name(text, layout.format, b"value")?;
    push_length_in(text, layout, i64::from(sp))?;
    push_line_end(text, layout.format)
}

#[tactic(auto, using(crate::proofs::ListingLemmas::joined))]
fn push_tag_with(text: &mut Vec<u8>, format: OutputFormat, name: &[u8], remainder: u8) -> Pushed
    ensures { OnOk result (text.new.items ≡ text.old.items ++ tag_with_remainder format name.now remainder) }
{
    push_word(text, format, name)?;
    push_hidden_name(text, format, b"remainder")?;
    push_number(text, b"", remainder)
}

#[tactic(auto, unfolding(crate::specs::ListingFields::tag_text))]
fn push_tag(text: &mut Vec<u8>, format: OutputFormat, tag: Tag) -> Pushed
    ensures { OnOk result (text.new.items ≡ text.old.items ++ tag_text format tag) }
{
    match tag {
        Tag::Plain => push_word(text, format, b"none"),
        Tag::Lig(remainder) => push_tag_with(text, format, b"lig", remainder),
        Tag::List(remainder) => push_tag_with(text, format, b"list", remainder),
        Tag::Ext(remainder) => push_tag_with(text, format, b"ext", remainder),
    }
}

#[tactic(auto, using(crate::proofs::ListingLemmas::signed), unfolding(crate::specs::ListingFields::measure_fields))]
fn push_measures(text: &mut Vec<u8>, layout: ListLayout, metrics: Metrics) -> Pushed
    ensures { OnOk result (text.new.items ≡ text.old.items ++ measure_fields layout metrics) }
{
    push_length_field(text, layout, b"width", i64::from(metrics.width))?;
    push_length_field(text, layout, b"height", i64::from(metrics.height))?;
    push_length_field(text, layout, b"depth", i64::from(metrics.depth))?;
    push_length_field(text, layout, b"italic", i64::from(metrics.italic))
}

/// Appends the line of a character: its code, dimensions and tag.
#[tactic(auto, using(crate::proofs::ListingLemmas::joined), unfolding(crate::specs::ListingFormats::line_of, crate::specs::ListingFields::char_fields))]
pub fn push_char_line(
    text: &mut Vec<u8>,
    layout: ListLayout,
    code: u8,
    metrics: Metrics,
    tag: Tag,
) -> Pushed
    ensures { OnOk result (text.new.items ≡ text.old.items
        ++ line_of layout.format (codes "char") code (char_fields layout metrics tag)) }
{
    push_line_start(text, layout.format, b"char", code)?;
    push_measures(text, layout, metrics)?;
    push_field_name(text, layout.format, b"tag")?;
    push_tag(text, layout.format, tag)?;
    push_line_end(text, layout.format)
}

#[tactic(auto, unfolding(crate::specs::ListingFields::operation_name))]
fn name_of(op: u8) -> &'static [u8]
    ensures { result.now ≡ operation_name op }
{
    match op {
        1 => b"LIG/",
        2 => b"/LIG",
        3 => b"/LIG/",
        5 => b"LIG/>",
        6 => b"/LIG>",
        7 => b"/LIG/>",
        11 => b"/LIG/>>",
        _ => b"LIG",
    }
}

/// Appends the name of an action, and a number of this name.
#[tactic(auto, using(crate::proofs::ListingLemmas::joined))]
fn push_action_with<I: Integer>(
    text: &mut Vec<u8>,
    format: OutputFormat,
    action: &[u8],
    name: &[u8],
    number: I,
) -> Pushed
    ensures { OnOk result (text.new.items ≡ text.old.items
        ++ (hidden_name format (codes "action") ++ word_in format action.now ++ hidden_name format name.now ++ I.text number)) }
{
    push_hidden_name(text, format, b"action")?;
    push_word(text, format, action)?;
    push_hidden_name(text, format, name)?;
    push_number(text, b"", number)
}

#[tactic(auto, using(crate::proofs::ListingLemmas::signed), unfolding(crate::specs::ListingFields::action_fields))]
fn push_action(text: &mut Vec<u8>, layout: ListLayout, font: &FontMetrics, step: Step) -> Pushed
    requires { step.skip ≤ 128 → 128 ≤ step.op → kern_index_of step < entries_of font.now.words Kern }
    ensures { OnOk result (text.new.items ≡ text.old.items ++ action_fields layout font.now step) }
{
    let format = layout.format;
    if step.skip > 128 {
        return push_action_with(text, format, b"goto", b"value", step.target());
    }
    match step.kern_index() {
        Some(kern) => {
            push_action_with(text, format, b"KRN", b"kern", kern)?;
            push_hidden_name(text, format, b"value")?;
            push_length_in(text, layout, i64::from(font.kern(kern)))
        }
        None => push_action_with(text, format, name_of(step.op), b"value", step.remainder),
    }
}

/// Appends the line of the instruction at address `i`: its address, its skip, the code to its right,
/// and its action.
#[tactic(auto, using(crate::proofs::ListingLemmas::joined), unfolding(crate::specs::ListingFormats::line_of, crate::specs::ListingFields::step_fields))]
pub fn push_step_line(
    text: &mut Vec<u8>,
    layout: ListLayout,
    font: &FontMetrics,
    i: usize,
    step: Step,
) -> Pushed
    requires { step.skip ≤ 128 → 128 ≤ step.op → kern_index_of step < entries_of font.now.words Kern }
    ensures { OnOk result (text.new.items ≡ text.old.items
        ++ line_of layout.format (codes "step") i (step_fields layout font.now step)) }
{
    push_line_start(text, layout.format, b"step", i)?;
    push_number_field(text, layout.format, b"skip", step.skip)?;
    push_number_field(text, layout.format, b"next", step.next)?;
    push_action(text, layout, font, step)?;
    push_line_end(text, layout.format)
}
