//! `tfmset_records`: writes the records of the lines of a text into an array of the caller.
ghost use Rattle.std.specs.Prelude.{◌≡◌, ◌≤◌, ◌<◌, ◌+◌, ◌++◌, ◌^◌, ◌⊎◌, Option, true, IfOk, OnOk, length, MatchOption};
ghost use Rattle.encodings.specs.declared.encoding.Encoding.{Encoding as EncodingValue};
ghost use Rattle.formats.specs.declared.record_format.RecordFormat.TheVariants.{Items};
ghost use Rattle.line_records.specs.Cells.{style_of};
ghost use Rattle.line_records.specs.Results.{IsResult};
ghost use Rattle.set_line.specs.Returns.{lines_in};
ghost use Rattle.tfmset_c.specs.Arrays.{IsFilled};
ghost use Rattle.tfmset_c.specs.Encoded.{IsEncodingTold, IsNoEncoding};
ghost use Rattle.tfmset_c.specs.Options.{IsOutOfRange, call_limit_of, lines_at, result_within, terms_at};
ghost use Rattle.tfmset_c.specs.Reading.{IsAnswer};
ghost use Rattle.tfmset_c.specs.Records.{AreRecordsTold, IsNoVersion, form_told, or_bytes, record_within, records_told, version_of};

use crate::arrays::{DONE, NO_ROOM, has_room, put_list};
use crate::encode::encoding_of;
use crate::lines::steps_of;
use crate::options::{Text, TfmsetOptions, terms_of};
use crate::reading::{MEMORY, RANGE};
use encodings::{Encoding, Vector};
use line_records::{LineResult, LineWriter, RecordFormat, RecordOf, SourceLine};
use set_line::{
    LineRefusal, OutOfMemory, RecordNumber, TextRefusal, Version, append_refusal, next_line,
};
use std::alloc::Global;

/// The largest number of bytes in a text whose records are made without a table of texts: with an empty table
/// they take about as long.
const FEW_FOR_TABLE: usize = 12_288;

/// The format and the numbers of records.
#[repr(C)]
#[derive(Clone, Copy, Debug, PartialEq, Eq)]
pub struct TfmsetForm {
    /// The number of the source in each record.
    pub source: u64,
    /// The number of the first line.
    pub first: u64,
    /// The record format: 1, 2, or 3 for JSON.
    pub version: u32,
}

/// How the lines of a text are read, and the format and the source of their records.
#[derive(Clone, Copy)]
pub struct Form<'a> {
    /// The encoding of the font, for a text in UTF-8. Without one, each byte is a code.
    pub encoding: Option<Encoding<'a>>,
    /// The format.
    pub version: Version,
    /// The number of the source.
    pub source: u64,
    /// The number of the first line.
    pub first: u64,
}

/// A line, and the steps that are left for the call.
#[derive(Clone, Copy)]
struct NextLine<'a> {
    line: SourceLine<'a>,
    left: u64,
}

/// Returns the record format with this number: 1, 2, or 3 for JSON. Returns `None` for any other number.
#[tactic(auto, unfolding(crate::specs::Records::version_of))]
fn version_numbered(version: u32) -> Option<Version>
    ensures { MatchOption result (IsNoVersion version) (λ v. (v ≡ version_of version) × (IsNoVersion version → ⊥)) }
{
    match version {
        1 => Some(Version::One),
        2 => Some(Version::Two),
        3 => Some(Version::Json),
        _ => None,
    }
}

/// Returns how the lines of a text are read and recorded, with this encoding. Returns `None` if the record format is
/// out of range.
fn form_of<'a>(encoding: Option<Encoding<'a>>, form: &TfmsetForm) -> Option<Form<'a>>
    ensures { MatchOption result (IsNoVersion form.now.version)
        (λ read. (read ≡ form_told encoding.entry form.now) × (IsNoVersion form.now.version → ⊥)) }
{
    Some(Form {
        encoding,
        version: version_numbered(form.version)?,
        source: form.source,
        first: form.first,
    })
}

/// Returns the bytes that state an encoding: if there are none, the name of that of bytes.
#[tactic(auto, unfolding(crate::specs::Records::or_bytes))]
fn or_bytes(bytes: &[u8]) -> &[u8]
    ensures { result.now ≡ or_bytes bytes.now }
{
    if bytes.is_empty() { b"bytes" } else { bytes }
}

/// Returns a writer for the lines of a text, which is prepared if the text is long enough.
fn writer_for(alloc: Global, text: Text, version: Version) -> LineWriter
    ensures { result ≡ style_of text.entry.terms.now (Items version) }
{
    let mut writer = LineWriter::new(alloc, text.terms, RecordFormat::Items(version));
    if text.bytes.len() > FEW_FOR_TABLE {
        writer.prepare(text.terms);
    }
    writer
}

/// Appends the record of a line: without any steps left it is refused, and isn't set. Returns its result without its
/// items.
#[tactic(auto, unfolding(crate::specs::Options::result_within))]
fn append_within(
    writer: &mut LineWriter,
    of: &RecordOf<'_>,
    version: Version,
    next: NextLine<'_>,
    records: &mut Vec<u8>,
) -> Result<LineResult, OutOfMemory>
    requires { writer.old ≡ style_of of.now.terms.now (Items version) }
    ensures kept { writer.new ≡ writer.old }
    ensures appended { OnOk result (records.new.items ≡ records.old.items ++ record_within of.now.terms.now
        (record { encoding = of.now.encoding; version = version; source = of.now.source; first = 0 })
        next.entry.line.number next.entry.line.first next.entry.left next.entry.line.bytes.now) }
    ensures result { IfOk result (IsResult (result_within of.now.terms.now of.now.encoding
        next.entry.line.first next.entry.left next.entry.line.bytes.now)) }
{
    let line = next.line;
    if next.left > 0 {
        return writer.append(of, line, records);
    }
    let number = RecordNumber {
        source: of.source,
        line: line.number,
    };
    let refusal = TextRefusal::Line(LineRefusal::Steps(0));
    append_refusal(records, number, refusal, version)?;
    Ok(LineResult::Refused(refusal))
}

/// Sets the lines of a text, and writes their records into the array while there is room. Returns the number of bytes
/// of all records, or 2^64 - 1 if it is larger. If an allocation fails, the contents of the array are unspecified.
#[tactic(auto, using(crate::proofs::TextLemmas::recorded))]
fn fill_records(
    alloc: Global,
    text: Text,
    form: Form,
    records: &mut [u8],
) -> Result<usize, OutOfMemory>
    requires { form.first + length text.bytes.now < 2 ^ 64 }
    ensures { IfOk result (λ count. IsFilled (records_told text.entry.terms.now form.entry form.entry.first true
        text.entry.call_limit (lines_in text.entry.crlf text.entry.bytes.now)) count records.old records.new) }
{
    let of = RecordOf {
        terms: text.terms,
        encoding: form.encoding,
        source: form.source,
    };
    let mut writer = writer_for(alloc, text, form.version);
    let mut made = Vec::new(alloc);
    let mut number = form.first;
    let mut is_first = true;
    let mut left = text.call_limit;
    let mut at = 0;
    let mut rest = text.bytes;
    while let Some((bytes, more)) = next_line(rest, text.crlf) {
        let line = SourceLine {
            number,
            first: is_first,
            bytes,
        };
        made.clear();
        let result = append_within(
            &mut writer,
            &of,
            form.version,
            NextLine { line, left },
            &mut made,
        )?;
        at = put_list(records, at, &made);
        left = left.saturating_sub(u64::from(steps_of(result)));
        number += 1;
        is_first = false;
        rest = more;
    }
    Ok(at)
}

/// Writes the records of a text into the array. Returns: 0 after success; 2 if an allocation fails, with
/// `count` unchanged; 3 if the array is too short.
#[tactic(auto, using(crate::proofs::ArrayLemmas::filled))]
fn write_records(
    alloc: Global,
    text: Text,
    form: Form,
    records: &mut [u8],
    count: &mut usize,
) -> u32
    requires { form.first + length text.bytes.now < 2 ^ 64 }
    ensures answers { (result ≡ 0) ⊎ ((result ≡ 2) ⊎ (result ≡ 3)) }
    ensures told { AreRecordsTold (records_told text.entry.terms.now form.entry form.entry.first true text.entry.call_limit
        (lines_in text.entry.crlf text.entry.bytes.now)) result count.old count.new records.old records.new }
{
    let Ok(told) = fill_records(alloc, text, form, records) else {
        return MEMORY;
    };
    *count = told;
    if has_room(told, records.len()) {
        return DONE;
    }
    NO_ROOM
}

/// Sets the lines of a text with these options, and writes their records into `records`. `encoding` states the
/// font's encoding, as in [`tfmset_encode`](crate::tfmset_encode), for a text in UTF-8; with the name `bytes` or
/// an empty one each byte of the text is a code.
///
/// Returns: 0 after success, where `count` is the number of bytes that were written, and the other bytes of
/// `records` are unchanged; 1 if the font is refused; 2 if an allocation fails; 3 if `records` is too short,
/// where `count` is the number of bytes needed, or 2^64 - 1 if it is larger; 4 if an option or the record format is
/// out of range, if `encoding` is neither a name nor a vector, or if the sum of `form.first` and the length of the
/// text is 2^64 or more. After 1 and 4 nothing is changed. After 2 `count` is unchanged. After 2 and 3 the contents
/// of `records` are unspecified.
#[unsafe(no_mangle)]
pub extern "C" fn tfmset_records(
    alloc: Global,
    font: &[u8],
    options: &TfmsetOptions,
    encoding: &[u8],
    text: &[u8],
    form: &TfmsetForm,
    records: &mut [u8],
    count: &mut usize,
) -> u32
    ensures font { IsAnswer (IsOutOfRange options.now ⊎ (IsNoEncoding (or_bytes encoding.now)
        ⊎ (IsNoVersion form.now.version ⊎ (2 ^ 64 ≤ form.now.first + length text.now)))) font.now result }
    ensures told { (result ≡ 4) ⊎ ((told : Option EncodingValue) × IsEncodingTold (or_bytes encoding.now) told
        × AreRecordsTold (records_told (terms_at font.now options.now) (form_told told form.now) form.now.first true
        (call_limit_of options.now.call_limit) (lines_at options.now text.now))
        result count.old count.new records.old records.new) }
    ensures kept { result ≡ 4 → (count.new ≡ count.old) × (records.new ≡ records.old) }
{
    let Some(settings) = options.in_range() else {
        return RANGE;
    };
    let mut vector = None;
    let Some(encoding) = encoding_of(or_bytes(encoding), &mut vector) else {
        return RANGE;
    };
    let Some(read) = form_of(encoding, form) else {
        return RANGE;
    };
    if form.first > u64::MAX - text.len() as u64 {
        return RANGE;
    }
    let (crlf, call_limit) = (settings.crlf, settings.call_limit);
    match terms_of(alloc, font, settings) {
        Ok(terms) => {
            let text = Text {
                terms: &terms,
                bytes: text,
                crlf,
                call_limit,
            };
            write_records(alloc, text, read, records, count)
        }
        Err(denial) => denial.code(),
    }
}
