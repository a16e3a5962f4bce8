//! `record`, `LineWriter::append` and `LineWriter::result`. After a failed allocation in `record` the output is unchanged.
//! It grows several times, so that an allocation may fail after a part of the record.
ghost use Rattle.std.specs.Prelude.{◌≡◌};
ghost use Rattle.line_records.specs.Cells.{Fits};

use super::lines::settings;
use super::{NO_ARGUMENTS, outcome, report};
use encodings::Encoding;
use line_records::RecordFormat::{Box, Items};
use line_records::{LineResult, LineWriter, RecordFormat, RecordOf, SourceLine};
use set_line::{Answer, Policy, Terms, Version, record, set};
use std::alloc::Global;
use std::process::Abort;
use std::test::Fail;
use test_support::fonts::{A, PLAIN, Sample};
use test_support::terms::terms_of;
use tex_sizes::LengthUnit;

const EARLIER: &str = "1 end complete 0\n";

/// The record of `ab`.
const ONE: &str = "2:1 set 962560 c97=327680 k-40960 c99=491520 k20480 c98=163840\n";

const TWO: &str = "2:1 set 962560 steps 4 c97=327680 k-40960 c99=491520 k20480 c98=163840\n";

const JSON: &str = "{\"source\":2,\"line\":1,\"width\":962560,\"steps\":4,\"items\":[\
[\"c\",97,327680],[\"k\",-40960],[\"c\",99,491520],[\"k\",20480],[\"c\",98,163840]]}\n";

/// The record of `acb`, which is set by the table of texts.
const BY_TABLE: &str = "2:1 set 962560 steps 3 c97=327680 k-40960 c99=491520 k20480 c98=163840\n";

/// The record of the box of `acb`.
const BOXED: &str = "2:1 box 962560 0 0 0 0\n";

/// The record of `a€b`.
const UNCODED: &str = "{\"source\":2,\"line\":1,\"width\":491520,\"steps\":2,\"items\":[\
[\"c\",97,327680],[\"u\",8364],[\"c\",98,163840]]}\n";

/// The record of `ad`, if missing characters are refused.
const REFUSED: &str =
    "{\"source\":2,\"line\":1,\"refused\":\"missing\",\"offset\":1,\"code\":100}\n";

/// Whether the record was appended after the earlier output. Otherwise the output has its earlier bytes.
fn has_record<R: Abort>(rt: &R, recorded: bool, text: &[u8], wanted: &str) -> bool {
    let (earlier, record) = text.split_at(EARLIER.len().min(text.len()));
    assert!(rt; earlier == EARLIER.as_bytes());
    assert!(rt; record == if recorded { wanted.as_bytes() } else { b"" });
    recorded
}

/// The answer to `ab`; `None` if an allocation fails.
fn answer(alloc: Global) -> Option<Answer> {
    let terms = settings(alloc, Policy::Skip)?;
    set(alloc, terms, test_support::line(alloc, b"ab")?).ok()
}

/// Appends the record of `ab` in this format. Returns the outcome.
fn is_appended<R: Abort + AllocGlobal>(rt: &R, version: Version, wanted: &str) -> &'static str {
    let text = Vec::from_slice(rt.alloc(), EARLIER.as_bytes()).ok();
    let Some((answer, mut text)) = answer(rt.alloc()).zip(text) else {
        return NO_ARGUMENTS;
    };
    let recorded = record(2, 1, &answer, version, &mut text).is_ok();
    if !has_record(rt, recorded, &text, wanted) {
        let recorded = record(2, 1, &answer, version, &mut text).is_ok();
        assert!(rt; has_record(rt, recorded, &text, wanted));
    }
    outcome(recorded)
}

#[test]
fn a_record_of_format_1_is_appended(rt: HostRuntime) -> Result<(), Fail> {
    report(&rt, is_appended(&rt, Version::One, ONE))
}

#[test]
fn a_record_of_format_2_is_appended(rt: HostRuntime) -> Result<(), Fail> {
    report(&rt, is_appended(&rt, Version::Two, TWO))
}

#[test]
fn a_record_in_json_is_appended(rt: HostRuntime) -> Result<(), Fail> {
    report(&rt, is_appended(&rt, Version::Json, JSON))
}

/// The first line of its source.
fn line_of(bytes: &[u8]) -> SourceLine<'_> {
    SourceLine {
        number: 1,
        first: true,
        bytes,
    }
}

/// Whether the writer appends the record of the line. Otherwise an allocation failed.
fn writes<R: Abort>(
    rt: &R,
    writer: &mut LineWriter,
    of: &RecordOf<'_>,
    line: (&str, &str),
    text: &mut Vec<u8>,
) -> bool
    requires { Fits writer.old of.now.terms.now }
    ensures { writer.new ≡ writer.old }
{
    let (line, wanted) = line;
    text.truncate(EARLIER.len());
    let appended = writer.append(of, line_of(line.as_bytes()), text);
    let refused = appended.map(LineResult::is_refused);
    assert!(rt; refused.is_err() || refused == Ok(wanted == REFUSED));
    refused.is_ok() && has_record(rt, true, text, wanted)
}

/// Appends the record of the line twice, by one writer, and prints the outcome. If the allocation of `prepare` fails, or
/// one of the texts of the table, the records are the same.
fn is_written<R: Abort + AllocGlobal + Print>(
    rt: &R,
    policy: Policy,
    (encoding, format): (Option<Encoding>, RecordFormat),
    line: (&str, &str),
) -> Result<(), Fail> {
    let text = Vec::from_slice(rt.alloc(), EARLIER.as_bytes()).ok();
    let Some((terms, mut text)) = settings(rt.alloc(), policy).zip(text) else {
        return report(rt, NO_ARGUMENTS);
    };
    let of = RecordOf {
        terms: &terms,
        encoding,
        source: 2,
    };
    let mut writer = LineWriter::new(rt.alloc(), &terms, format);
    writer.prepare(&terms);
    let first = writes(rt, &mut writer, &of, line, &mut text);
    let second = writes(rt, &mut writer, &of, line, &mut text);
    assert!(rt; first || second);
    assert!(rt; first && second || writes(rt, &mut writer, &of, line, &mut text));
    report(rt, outcome(first && second))
}

#[test]
fn records_are_appended_by_the_table_of_texts(rt: HostRuntime) -> Result<(), Fail> {
    is_written(
        &rt,
        Policy::Skip,
        (None, Items(Version::Two)),
        ("acb", BY_TABLE),
    )
}

#[test]
fn records_with_a_box_are_appended(rt: HostRuntime) -> Result<(), Fail> {
    let boxed = (None, Box(LengthUnit::ScaledPoints));
    is_written(&rt, Policy::Skip, boxed, ("acb", BOXED))
}

#[test]
fn records_of_a_refused_line_are_appended(rt: HostRuntime) -> Result<(), Fail> {
    is_written(
        &rt,
        Policy::Refuse,
        (None, Items(Version::Json)),
        ("ad", REFUSED),
    )
}

#[test]
fn records_with_an_uncoded_character_are_appended(rt: HostRuntime) -> Result<(), Fail> {
    let in_t1 = (Some(Encoding::T1), Items(Version::Json));
    is_written(&rt, Policy::Skip, in_t1, ("a€b", UNCODED))
}

/// Whether the line has its result, which is that of as many steps as pairs of bytes. Otherwise an allocation failed.
fn has_result<R: Abort>(rt: &R, writer: &mut LineWriter, terms: &Terms, line: &[u8]) -> bool
    requires { Fits writer.old terms.now }
    ensures { writer.new ≡ writer.old }
{
    let of = RecordOf {
        terms,
        encoding: None,
        source: 2,
    };
    let Ok(result) = writer.result(&of, line_of(line)) else {
        return false;
    };
    let LineResult::Set(sums) = result else {
        panic!(rt; "refused");
    };
    assert!(rt; (sums.width, sums.steps) == (1_090_519_040, 3_328));
    assert!(rt; (sums.items, sums.skipped) == (6_656, 3_328));
    true
}

/// The line has the 3,328 pairs of a character A to Z and a byte that is skipped, and as many texts in the table. The
/// width is 3,328 * 327,680 sp.
// Mutant: `MOST_ENTRIES` of `cells.rt`, the largest number of texts, is 40, or 1,000.
#[test]
fn a_line_with_3328_texts_is_set_by_the_table(rt: HostRuntime) -> Result<(), Fail> {
    let sample = Sample {
        bc: 65,
        ec: 90,
        characters: &[A; 26],
        ..PLAIN
    };
    let terms = terms_of(rt.alloc(), sample.file(rt.alloc()), 3_328, Policy::Skip);
    let line = Vec::with_capacity(rt.alloc(), 6_656).ok();
    let Some((terms, mut line)) = terms.zip(line) else {
        return report(&rt, NO_ARGUMENTS);
    };
    for left in 65..91 {
        for right in 128..=255 {
            line.extend_from_slice(&[left, right])?;
        }
    }
    let mut writer = LineWriter::new(rt.alloc(), &terms, Items(Version::One));
    writer.prepare(&terms);
    let first = has_result(&rt, &mut writer, &terms, &line);
    assert!(rt; first || has_result(&rt, &mut writer, &terms, &line));
    report(&rt, outcome(first))
}
