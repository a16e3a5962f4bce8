//! Records of lines, each whole, by each call that appends one.
ghost use Rattle.std.specs.Prelude.{◌≡◌};
ghost use Rattle.line_records.specs.Cells.{Fits};

use super::named::Named;
use super::named::Named::*;
use super::same;
use encodings::Encoding;
use line_records::{LineWriter, RecordFormat, RecordOf, SourceLine};
use set_line::Policy::{Refuse, Skip};
use set_line::Version::{Json, One, Two};
use set_line::{Limit, Line, Policy, Terms, Version, set};
use std::process::Abort;
use std::sync::Arc;
use test_support::terms::LIMIT;
use tfm_tables::Font;
use tfm_words::Size;

/// How a line is set and recorded. The line is bytes, or in UTF-8 for a font in T1. `place` has the numbers of the source
/// and of the line.
#[derive(Clone, Copy, Debug)]
pub struct Case {
    pub font: Named,
    pub size: u32,
    pub limit: u32,
    pub policy: Policy,
    pub is_utf8: bool,
    pub version: Version,
    pub place: (u64, u64),
}

/// Bytes, at 10 points.
pub const BYTES: Case = Case {
    font: Plain,
    size: 655_360,
    limit: LIMIT,
    policy: Refuse,
    is_utf8: false,
    version: One,
    place: (1, 1),
};

/// Lines in UTF-8, each after the first line of its source.
const UTF8: Case = Case {
    limit: 4,
    is_utf8: true,
    version: Two,
    place: (7, 2),
    ..BYTES
};

/// A case, a line, and its record without the numbers of the source and of the line.
type Row = (Case, &'static str, &'static str);

/// Rows of cases that differ from the first one in these fields.
macro_rules! rows {
    ($base:expr; $($font:expr $(, $field:ident: $value:expr)*; $line:expr => $record:expr;)+) => {
        [$((Case { font: $font, $($field: $value,)* ..$base }, $line, $record)),+]
    };
}

/// Lines of bytes.
static LINES: [Row; 58] = rows! { BYTES;
    Indirect; "ab" => "set 491520 c97=327680 c98=163840";
    Ligature(3); "ab" => "set 962560 c97=327680 k-40960 c99=491520 k20480 c98=163840";
    // the step limit
    Endless(1), limit: 100; "aa" => "refused steps 100";
    Endless(2), limit: 100, policy: Skip; "aa" => "refused steps 100";
    Endless(3), limit: 100; "aa" => "refused steps 100";
    Endless(3), limit: 100, place: (1, 2); "a" => "set 327680 c97=327680";
    Endless(7), limit: 100; "aa" => "refused steps 100";
    Endless(3); "aa" => "refused steps 1048576";
    Plain, limit: 4; "ab abc" => "refused steps 4";
    // spaces
    Plain; "" => "set 0";
    Plain; "  " => "set 436906 s218453 s218453";
    NoSpace; "  " => "set 0 s0 s0";
    // missing characters
    Plain; "ad" => "refused missing 1 100";
    Plain; "add" => "refused missing 1 100";
    Plain, version: Two; "ab  dad" => "refused missing 4 100";
    Plain, version: Two; "a\r" => "refused missing 1 13";
    Plain, version: Two; "\u{e9}" => "refused missing 0 195";
    Plain, limit: 1; "abc  |\0" => "refused missing 5 124";
    Endless(3), limit: 100, version: Two; "aa d" => "refused missing 3 100";
    // skipped characters
    RightBoundary, policy: Skip; "adb" => "set 512000 c97=327680 m100 c98=163840 k20480";
    RightBoundary, policy: Skip; "ad" => "set 327680 c97=327680 m100";
    RightBoundary, policy: Skip; "d a" => "set 669013 m100 s218453 c97=327680 k-40960 c98=163840";
    RightBoundary, policy: Skip; "a|b" => "set 512000 c97=327680 m124 c98=163840 k20480";
    LeftBoundary, policy: Skip; "ada" => "set 573440 k-40960 c97=327680 m100 k-40960 c97=327680";
    RightBoundary, policy: Skip; "db dd bd" =>
        "set 785066 m100 c98=163840 k20480 s218453 m100 m100 s218453 c98=163840 m100";
    RightBoundary, policy: Skip, version: Two; "db dd bd" =>
        "set 785066 steps 3 m100 c98=163840 k20480 s218453 m100 m100 s218453 c98=163840 m100";
    // numbers of sources and lines
    Plain, place: (2, 1); "abc" => "set 983040 c97=327680 c98=163840 c99=491520";
    Plain, place: (3, 100); "ab" => "set 491520 c97=327680 c98=163840";
    Plain, place: (64, 50); "ad" => "refused missing 1 100";
    Plain, place: (0, 0); "" => "set 0";
    Plain, place: (u64::MAX, 10); "" => "set 0";
    Plain, place: (10, u64::MAX); "d" => "refused missing 0 100";
    // the steps after the width
    Ligature(0), version: Two; "ab" => "set 491520 steps 2 c99=491520";
    Ligature(3), version: Two; "ab" =>
        "set 962560 steps 4 c97=327680 k-40960 c99=491520 k20480 c98=163840";
    Ligature(3), version: Two; "acb" =>
        "set 962560 steps 3 c97=327680 k-40960 c99=491520 k20480 c98=163840";
    RightBoundary, version: Two; "b b" =>
        "set 587093 steps 4 c98=163840 k20480 s218453 c98=163840 k20480";
    LeftBoundary, version: Two; "a" => "set 286720 steps 1 k-40960 c97=327680";
    Plain, version: Two; "" => "set 0 steps 0";
    Plain, limit: 5, version: Two; "ab abc" =>
        "set 1693013 steps 5 c97=327680 c98=163840 s218453 c97=327680 c98=163840 c99=491520";
    Plain, limit: 4, version: Two; "ab abc" => "refused steps 4";
    // JSON
    Plain, version: Json; "" => r#""width":0,"steps":0,"items":[]"#;
    Plain, version: Json; "a" => r#""width":327680,"steps":1,"items":[["c",97,327680]]"#;
    Ligature(3), version: Json; "ab" => "\"width\":962560,\"steps\":4,\"items\":[[\"c\",97,327680],\
        [\"k\",-40960],[\"c\",99,491520],[\"k\",20480],[\"c\",98,163840]]";
    Ligature(3), version: Json; "acb" => "\"width\":962560,\"steps\":3,\"items\":[[\"c\",97,327680],\
        [\"k\",-40960],[\"c\",99,491520],[\"k\",20480],[\"c\",98,163840]]";
    RightBoundary, policy: Skip, version: Json; "d a" => "\"width\":669013,\"steps\":3,\"items\":\
        [[\"m\",100],[\"s\",218453],[\"c\",97,327680],[\"k\",-40960],[\"c\",98,163840]]";
    LeftBoundary, policy: Skip, version: Json; "ada d" => "\"width\":791893,\"steps\":2,\"items\":\
        [[\"k\",-40960],[\"c\",97,327680],[\"m\",100],[\"k\",-40960],[\"c\",97,327680],\
        [\"s\",218453],[\"m\",100]]";
    RightBoundary, policy: Skip, version: Json; "db dd bd" => "\"width\":785066,\"steps\":3,\"items\":\
        [[\"m\",100],[\"c\",98,163840],[\"k\",20480],[\"s\",218453],[\"m\",100],[\"m\",100],\
        [\"s\",218453],[\"c\",98,163840],[\"m\",100]]";
    LeftBoundary, version: Json; "a" =>
        r#""width":286720,"steps":1,"items":[["k",-40960],["c",97,327680]]"#;
    Plain, policy: Skip, version: Json; "dd" =>
        r#""width":0,"steps":0,"items":[["m",100],["m",100]]"#;
    Plain, version: Json; "ad" => r#""refused":"missing","offset":1,"code":100"#;
    Plain, limit: 4, version: Json; "ab abc" => r#""refused":"steps","limit":4"#;
    Endless(3), limit: 100, version: Json; "aa" => r#""refused":"steps","limit":100"#;
    // other sizes
    Plain, size: 1_310_720, place: (2, 1); "abc" => "set 1966080 c97=655360 c98=327680 c99=983040";
    // texts of 32 bytes, which is the room of a text in the table, and longer ones
    BoundaryExists, size: 29_999_999; "a " => "set 23124987 c97=14999998 k-1875000 s9999989";
    BoundaryExists, size: 134_217_727; "a " => "set 103459443 c97=67108856 k-8388607 s44739194";
    BoundaryExists, size: 16_777_216, version: Json; "a" =>
        r#""width":7340032,"steps":2,"items":[["c",97,8388608],["k",-1048576]]"#;
    BoundaryExists, size: 29_999_999, version: Json; "a" =>
        r#""width":13124998,"steps":2,"items":[["c",97,14999998],["k",-1875000]]"#;
    BoundaryExists, version: Json; "a " =>
        r#""width":505173,"steps":2,"items":[["c",97,327680],["k",-40960],["s",218453]]"#;
};

/// Lines in UTF-8.
static TEXTS: [Row; 25] = rows! { UTF8;
    Letters; "äå" => "set 20 steps 2 c228=10 k-10 c229=20";
    // at a soft hyphen a run ends with the right boundary, and another one begins with the left boundary
    Letters; "ä\u{AD}å\u{AD}" => "set 30 steps 2 c228=10 c229=20";
    RightBoundary, policy: Skip; "b\u{AD}b€" =>
        "set 348160 steps 3 c98=163840 k20480 c98=163840 u20AC";
    LeftBoundary; "a\u{AD}\u{AD}a" =>
        "set 573440 steps 2 k-40960 c97=327680 k-40960 c97=327680";
    Letters; "\u{AD}" => "set 0 steps 0";
    Letters, policy: Skip; "ä€å" => "set 30 steps 2 c228=10 u20AC c229=20";
    Letters, policy: Skip; "åb €" => "set 70 steps 1 c229=20 m98 s50 u20AC";
    Letters, policy: Skip; "\u{80}\u{FFFF}" => "set 0 steps 0 u0080 uFFFF";
    Letters, policy: Skip; "\u{10000}\u{10FFFF}" => "set 0 steps 0 u10000 u10FFFF";
    Letters; "b\u{1F600}€" => "refused uncoded 1 U+1F600";
    Letters; "äb" => "refused missing 2 98";
    Letters, limit: 2; "äåæ" => "refused steps 2";
    Letters, limit: 2, policy: Skip; "äåæ€" => "refused steps 2";
    Letters, place: (1, 1); "\u{FEFF}ä" => "set 10 steps 1 c228=10";
    Letters, place: (1, 1); "\u{FEFF}b" => "refused missing 3 98";
    Letters; "\u{FEFF}ä" => "refused uncoded 0 U+FEFF";
    Letters, policy: Skip, version: One; "ä€" => "set 10 c228=10 u20AC";
    Letters, policy: Skip, version: Json; "äb €" =>
        r#""width":60,"steps":1,"items":[["c",228,10],["m",98],["s",50],["u",8364]]"#;
    Letters, version: Json; "ä€" => r#""refused":"uncoded","offset":2,"character":8364"#;
    // the table of texts, and the general way
    Ligature(3), version: Json; "acb" => "\"width\":962560,\"steps\":3,\"items\":[[\"c\",97,327680],\
        [\"k\",-40960],[\"c\",99,491520],[\"k\",20480],[\"c\",98,163840]]";
    RightBoundary, policy: Skip; "db dd bd" =>
        "set 785066 steps 3 m100 c98=163840 k20480 s218453 m100 m100 s218453 c98=163840 m100";
    RightBoundary, policy: Skip, version: One; "€a €€ b€" =>
        "set 1051306 u20AC c97=327680 k-40960 c98=163840 s218453 u20AC u20AC s218453 c98=163840 u20AC";
    RightBoundary, policy: Skip; "€a €€ b€" => "set 1051306 steps 4 u20AC c97=327680 k-40960 \
        c98=163840 s218453 u20AC u20AC s218453 c98=163840 u20AC";
    RightBoundary, policy: Skip, version: Json; "€a €€ b€" => "\"width\":1051306,\"steps\":4,\
        \"items\":[[\"u\",8364],[\"c\",97,327680],[\"k\",-40960],[\"c\",98,163840],[\"s\",218453],\
        [\"u\",8364],[\"u\",8364],[\"s\",218453],[\"c\",98,163840],[\"u\",8364]]";
    LeftBoundary, policy: Skip; "a€da" =>
        "set 573440 steps 2 k-40960 c97=327680 u20AC m100 k-40960 c97=327680";
};

/// Bytes, how often a line has them, and its record. The length of a line is the number of its bytes, and a line
/// that is too long needn't be UTF-8.
static REPEATED: [(Case, (&[u8], usize), &str); 7] = rows! { UTF8;
    Letters, is_utf8: false; (b"\xE4\xE5", 1) => "set 20 steps 2 c228=10 k-10 c229=20";
    Letters; (b"b\xE2\x82\xAC\xED\xA0\x80", 1) => "refused encoding 4";
    Letters, version: Json; (b"\xC3\xA4\xE2\x82", 1) => r#""refused":"encoding","offset":2"#;
    Letters; (b"\xC3\xA4", 32_767) => "refused steps 4";
    Letters; (b"\xC3\xA4", 32_768) => "refused too-long 65536";
    Letters, policy: Skip; (b"\xFF", 65_535) => "refused encoding 0";
    Letters, policy: Skip, version: Json; (b"\xFF", 65_536) => r#""refused":"too-long","bytes":65536"#;
};

/// Whether a writer appends this record.
fn appends<R: Abort + AllocGlobal>(
    rt: &R,
    writer: &mut LineWriter,
    of: &RecordOf<'_>,
    line: SourceLine<'_>,
    record: &str,
) -> bool
    requires { Fits writer.old of.now.terms.now }
    ensures { writer.new ≡ writer.old }
{
    let mut out = Vec::new(rt.alloc());
    let refused = writer
        .append(of, line, &mut out)
        .expect(rt, "memory")
        .is_refused();
    out.as_slice() == record.as_bytes() && refused == record.contains("refused")
}

/// Returns the terms of a case.
fn terms_of<R: Abort + AllocGlobal>(rt: &R, case: &Case) -> Terms {
    let file = case.font.file(rt.alloc()).expect(rt, "memory");
    let font = Font::read(rt.alloc(), &file, Size::new(case.size)).expect(rt, "a font");
    Terms::new(
        font,
        Limit::new(case.limit).expect(rt, "a limit"),
        case.policy,
    )
}

/// Whether a writer that isn't prepared appends this record.
fn writes<R: Abort + AllocGlobal>(
    rt: &R,
    of: &RecordOf<'_>,
    line: SourceLine<'_>,
    (version, record): (Version, &str),
) -> bool {
    let mut writer = LineWriter::new(rt.alloc(), of.terms, RecordFormat::Items(version));
    appends(rt, &mut writer, of, line, record)
}

/// Whether one that is prepared does: when the texts that the line needs are made, and when they are there.
fn writes_twice<R: Abort + AllocGlobal>(
    rt: &R,
    of: &RecordOf<'_>,
    line: SourceLine<'_>,
    (version, record): (Version, &str),
) -> bool {
    let mut writer = LineWriter::new(rt.alloc(), of.terms, RecordFormat::Items(version));
    writer.prepare(of.terms);
    let made = appends(rt, &mut writer, of, line, record);
    appends(rt, &mut writer, of, line, record) && made
}

/// Whether the line has this record by writers.
fn is_written<R: Abort + AllocGlobal>(rt: &R, case: &Case, bytes: &[u8], record: &str) -> bool {
    let terms = terms_of(rt, case);
    let (source, number) = case.place;
    let line = SourceLine {
        number,
        first: number == 1,
        bytes,
    };
    let of = RecordOf {
        terms: &terms,
        encoding: case.is_utf8.then_some(Encoding::T1),
        source,
    };
    let wanted = (case.version, record);
    writes(rt, &of, line, wanted) && writes_twice(rt, &of, line, wanted)
}

/// Whether `record` appends this record.
fn is_answer_recorded<R: Abort + AllocGlobal>(
    rt: &R,
    case: &Case,
    bytes: &[u8],
    record: &str,
) -> bool {
    let terms = Arc::new(rt.alloc(), terms_of(rt, case)).expect(rt, "memory");
    let line = Line::new(Vec::from_slice(rt.alloc(), bytes).expect(rt, "memory"));
    let answer = set(rt.alloc(), terms, line).expect(rt, "memory");
    let (source, number) = case.place;
    let mut out = Vec::new(rt.alloc());
    set_line::record(source, number, &answer, case.version, &mut out).expect(rt, "memory");
    out.as_slice() == record.as_bytes()
}

/// Returns the whole record of a case.
fn whole<R: Abort + AllocGlobal>(rt: &R, case: &Case, record: &str) -> String {
    let (source, number) = case.place;
    match case.version {
        Json => format!(in rt.alloc(); "{{\"source\":{source},\"line\":{number},{record}}}\n"),
        _ => format!(in rt.alloc(); "{source}:{number} {record}\n"),
    }
    .expect(rt, "memory")
}

/// Whether the line has this record, by a writer, and, if its bytes are codes, by `record`.
pub fn is_recorded<R: Abort + AllocGlobal>(
    rt: &R,
    case: &Case,
    bytes: &[u8],
    record: &str,
) -> bool {
    let record = whole(rt, case, record);
    let written = is_written(rt, case, bytes, &record);
    written && (case.is_utf8 || is_answer_recorded(rt, case, bytes, &record))
}

/// The lines have their records.
fn are_recorded<R: Abort + AllocGlobal>(rt: &R, rows: &[Row]) {
    for (case, line, record) in rows {
        let recorded = is_recorded(rt, case, line.as_bytes(), record);
        same(rt, &recorded, &true, &(line, case));
    }
}

/// The line of these bytes has its record.
fn is_repeated<R: Abort + AllocGlobal>(
    rt: &R,
    case: &Case,
    (bytes, count): (&[u8], usize),
    record: &str,
) {
    let line = bytes.repeat(rt.alloc(), count).expect(rt, "memory");
    let recorded = is_recorded(rt, case, &line, record);
    same(rt, &recorded, &true, &(count, bytes, case));
}

#[test]
fn records_of_lines(rt: HostRuntime) {
    are_recorded(&rt, &LINES);
    are_recorded(&rt, &TEXTS);
    for (case, line, record) in &REPEATED {
        is_repeated(&rt, case, *line, record);
    }
}
