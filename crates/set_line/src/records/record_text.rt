//! Records: the printed results of lines.
ghost use Rattle.std.specs.Prelude.{◌≡◌, ◌≤◌, ◌++◌, OnOk, OnErr, drop, vec_capacity};
ghost use Rattle.tfm_words.specs.Appending.{HasNoRoomFor, StaysInFront};
ghost use Rattle.set_line.specs.Record.{head_text, record_text, refusal_text, refused, set, set_text, text_record};

use crate::records::digits::push_character;
use crate::records::items_text::append_items;
use crate::{Answer, LineRefusal, OutOfMemory, Outcome, RecordNumber, TextRefusal, Version};
use std::alloc::AllocError;
use tfm_words::push_number;

/// What a record states of a line that is set.
#[derive(Clone, Copy, Debug)]
pub struct SetText<'a> {
    /// The width of the line, in sp.
    pub width: i64,
    /// The number of its steps.
    pub steps: u32,
    /// The texts of its items in the format of the record.
    pub texts: &'a [u8],
}

/// Appends the numbers in front of a record.
#[tactic(auto, using(tfm_words::proofs::AppendingLemmas::fronts), unfolding(crate::specs::Record::head_text))]
fn push_head(out: &mut Vec<u8>, number: RecordNumber, version: Version) -> Result<(), AllocError>
    ensures front { StaysInFront out.old.items out.new.items }
    ensures pushed { OnOk result (out.new.items
        ≡ out.old.items ++ head_text version number.source number.line) }
    ensures grows { vec_capacity out.old ≤ vec_capacity out.new }
    ensures full { OnErr result (HasNoRoomFor out.old (head_text version number.source number.line)) }
{
    push_number(out, version.label(b"", b"{\"source\":"), number.source)?;
    push_number(out, version.label(b":", b",\"line\":"), number.line)
}

/// Returns the bytes after the first one.
fn after_first(bytes: &[u8]) -> &[u8]
    ensures { result.now ≡ drop 1 bytes.now }
{
    match bytes {
        [] => bytes,
        [_, rest @ ..] => rest,
    }
}

/// Appends what a record states of a line that is set.
#[tactic(auto, using(tfm_words::proofs::AppendingLemmas::fronts), unfolding(crate::specs::Record::set_text))]
fn push_set(out: &mut Vec<u8>, line: SetText<'_>, version: Version) -> Result<(), AllocError>
    ensures front { StaysInFront out.old.items out.new.items }
    ensures pushed { OnOk result (out.new.items
        ≡ out.old.items ++ set_text version line.entry.width line.entry.steps line.entry.texts.now) }
{
    match version {
        Version::One => {
            push_number(out, b" set ", line.width)?;
            out.extend_from_slice(line.texts)
        }
        Version::Two => {
            push_number(out, b" set ", line.width)?;
            push_number(out, b" steps ", line.steps)?;
            out.extend_from_slice(line.texts)
        }
        Version::Json => {
            push_number(out, b",\"width\":", line.width)?;
            push_number(out, b",\"steps\":", line.steps)?;
            out.extend_from_slice(b",\"items\":[")?;
            out.extend_from_slice(after_first(line.texts))?;
            out.extend_from_slice(b"]")
        }
    }
}

/// Appends the reason of a refusal.
#[tactic(auto, using(tfm_words::proofs::AppendingLemmas::fronts), unfolding(crate::specs::Record::refusal_text))]
fn push_refusal(out: &mut Vec<u8>, refusal: TextRefusal, version: Version) -> Result<(), AllocError>
    ensures front { StaysInFront out.old.items out.new.items }
    ensures pushed { OnOk result (out.new.items ≡ out.old.items ++ refusal_text version refusal) }
    ensures grows { vec_capacity out.old ≤ vec_capacity out.new }
    ensures full { OnErr result (HasNoRoomFor out.old (refusal_text version refusal)) }
{
    match refusal {
        TextRefusal::Line(LineRefusal::TooLong(bytes)) => {
            let label = version.label(
                b" refused too-long ",
                b",\"refused\":\"too-long\",\"bytes\":",
            );
            push_number(out, label, bytes)
        }
        TextRefusal::Line(LineRefusal::Missing { offset, code }) => {
            let label = version.label(
                b" refused missing ",
                b",\"refused\":\"missing\",\"offset\":",
            );
            push_number(out, label, offset)?;
            push_number(out, version.label(b" ", b",\"code\":"), code)
        }
        TextRefusal::Line(LineRefusal::Steps(limit)) => {
            let label = version.label(b" refused steps ", b",\"refused\":\"steps\",\"limit\":");
            push_number(out, label, limit)
        }
        TextRefusal::NotUtf8(offset) => {
            let label = version.label(
                b" refused encoding ",
                b",\"refused\":\"encoding\",\"offset\":",
            );
            push_number(out, label, offset)
        }
        TextRefusal::Uncoded { offset, character } => {
            let label = version.label(
                b" refused uncoded ",
                b",\"refused\":\"uncoded\",\"offset\":",
            );
            push_number(out, label, offset)?;
            let label = version.label(b" U+", b",\"character\":");
            push_character(out, label, character, version)
        }
    }
}

/// Appends the record of a line that is set.
#[tactic(auto, using(tfm_words::proofs::AppendingLemmas::fronts), unfolding(crate::specs::Record::text_record))]
fn push_set_record(
    out: &mut Vec<u8>,
    number: RecordNumber,
    line: SetText<'_>,
    version: Version,
) -> Result<(), AllocError>
    ensures front { StaysInFront out.old.items out.new.items }
    ensures pushed { OnOk result (out.new.items ≡ out.old.items ++ text_record number.source number.line
        (set line.entry.width line.entry.steps line.entry.texts.now) version) }
{
    push_head(out, number, version)?;
    push_set(out, line, version)?;
    out.extend_from_slice(version.label(b"\n", b"}\n"))
}

/// Appends the record of a line that is refused.
#[tactic(auto, using(tfm_words::proofs::AppendingLemmas::fronts), unfolding(crate::specs::Record::text_record))]
fn push_refused_record(
    out: &mut Vec<u8>,
    number: RecordNumber,
    refusal: TextRefusal,
    version: Version,
) -> Result<(), AllocError>
    ensures front { StaysInFront out.old.items out.new.items }
    ensures pushed { OnOk result (out.new.items
        ≡ out.old.items ++ text_record number.source number.line (refused refusal) version) }
    ensures full { OnErr result (HasNoRoomFor out.old
        (text_record number.source number.line (refused refusal) version)) }
{
    push_head(out, number, version)?;
    push_refusal(out, refusal, version)?;
    out.extend_from_slice(version.label(b"\n", b"}\n"))
}

/// Appends the record of a line that is set: one line of text. If an allocation fails, the contents of `out` are as
/// before.
pub fn append_set(
    out: &mut Vec<u8>,
    number: RecordNumber,
    line: SetText<'_>,
    version: Version,
) -> Result<(), OutOfMemory>
    ensures appended { OnOk result (out.new.items ≡ out.old.items ++ text_record number.source number.line
        (set line.entry.width line.entry.steps line.entry.texts.now) version) }
    ensures unchanged { OnErr result (out.new.items ≡ out.old.items) }
{
    let before = out.len();
    match push_set_record(out, number, line, version) {
        Ok(()) => Ok(()),
        Err(_) => {
            out.truncate(before);
            Err(OutOfMemory)
        }
    }
}

/// Appends the record of a line that is refused: one line of text. Nothing is allocated if `out` has room for it. If
/// an allocation fails, the contents of `out` are as before.
pub fn append_refusal(
    out: &mut Vec<u8>,
    number: RecordNumber,
    refusal: TextRefusal,
    version: Version,
) -> Result<(), OutOfMemory>
    ensures appended { OnOk result (out.new.items
        ≡ out.old.items ++ text_record number.source number.line (refused refusal) version) }
    ensures memory { OnErr result (HasNoRoomFor out.old
        (text_record number.source number.line (refused refusal) version)) }
    ensures unchanged { OnErr result (out.new.items ≡ out.old.items) }
{
    let before = out.len();
    match push_refused_record(out, number, refusal, version) {
        Ok(()) => Ok(()),
        Err(_) => {
            out.truncate(before);
            Err(OutOfMemory)
        }
    }
}

/// Appends the record of an answer, with the number of its source and its line number there: one line of text. If
/// an allocation fails, the contents of `out` are as before.
#[tactic(auto, unfolding(crate::specs::Record::record_text, crate::specs::Record::text_result))]
pub fn record(
    source: u64,
    place: u64,
    answer: &Answer,
    version: Version,
    out: &mut Vec<u8>,
) -> Result<(), OutOfMemory>
    ensures ok { OnOk result (out.new.items
        ≡ out.old.items ++ record_text source place answer.now.outcome version) }
    ensures refused { OnErr result (out.new.items ≡ out.old.items) }
{
    let number = RecordNumber {
        source,
        line: place,
    };
    match answer.outcome() {
        Outcome::Set {
            items,
            width,
            steps,
        } => {
            let mut texts = Vec::new(*out.allocator());
            append_items(&mut texts, items.as_slice(), version)?;
            let line = SetText {
                width: *width,
                steps: *steps,
                texts: texts.as_slice(),
            };
            append_set(out, number, line, version)
        }
        Outcome::Refused(refusal) => {
            append_refusal(out, number, TextRefusal::Line(*refusal), version)
        }
    }
}
