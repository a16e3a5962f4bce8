//! Long lines, lines in fonts of which a part is long, and long texts.
use super::lines::{has, terms_of as named_terms};
use super::named::Named;
use super::named::Named::*;
use super::records::{BYTES, Case, is_recorded};
use super::same;
use lig_kern::Item;
use set_line::{Answer, Line, Policy, Terms, Version, lines, record, set, set_bytes};
use std::process::Abort;
use test_support::fonts::lengths::{LONG, Lengths, amount_of};
use test_support::items::{A, B, C};
use test_support::terms::{LIMIT, terms_of};

/// A beginning, what is repeated, and an end.
type Parts = [&'static str; 3];

/// A font, a policy, a line, how often its middle part is repeated, and the record, whose middle part is
/// repeated as often.
type Row = (Named, Policy, Parts, usize, Parts);

const REFUSE: Policy = Policy::Refuse;

const SKIP: Policy = Policy::Skip;

/// Each record is the one of source 1 and line 1, with the steps.
macro_rules! rows {
    ($($font:expr, $policy:expr; $times:expr; $line:expr => $record:expr;)+) => {
        [$(($font, $policy, $line, $times, $record)),+]
    };
}

static ROWS: [Row; 14] = rows! {
    // one byte, repeated
    Plain, REFUSE; 65_535; ["", " ", ""] => ["set 14316317355 steps 0", " s218453", ""];
    Plain, SKIP; 65_535; ["", "d", ""] => ["set 0 steps 0", " m100", ""];
    Plain, REFUSE; 65_536; ["", "a", ""] => ["refused too-long 65536", "", ""];
    Plain, SKIP; 65_536; ["", "a", ""] => ["refused too-long 65536", "", ""];
    Plain, REFUSE; 65_536; ["", "d", ""] => ["refused too-long 65536", "", ""];
    Plain, SKIP; 65_536; ["", "d", ""] => ["refused too-long 65536", "", ""];
    Plain, SKIP; 65_536; ["", " ", ""] => ["refused too-long 65536", "", ""];
    Plain, REFUSE; 1_048_575; ["", "a", ""] => ["refused too-long 1048575", "", ""];
    // a kern between each two characters, and none
    ThreeKerns, REFUSE; 65_534; ["a", "a", ""] =>
        ["set 21484994240 steps 65535 c97=327680", " k160 c97=327680", ""];
    ThreeKerns, SKIP; 65_535; ["", "b", ""] => ["set 10737254400 steps 65535", " c98=163840", ""];
    // a and b become c
    Ligature(0), REFUSE; 32_767; ["", "ab", "a"] =>
        ["set 16105963520 steps 65535", " c99=491520", " c97=327680"];
    // all kinds of items
    Ligature(0), SKIP; 16_383; ["", "ac d", "acb"] =>
        ["set 16329783979 steps 32769",
            " c97=327680 k-40960 c99=491520 s218453 m100",
            " c97=327680 k-40960 c99=491520 k20480 c98=163840"];
    // c comes between a and b, with a kern on each side
    Ligature(3), REFUSE; 32_767; ["", "ab", "a"] =>
        ["set 31540531200 steps 131069", " c97=327680 k-40960 c99=491520 k20480 c98=163840", " c97=327680"];
    // more steps than the default limit
    Endless(3), REFUSE; 32_767; ["", "aa", "a"] => ["refused steps 1048576", "", ""];
};

/// The parts one after the other, the middle one this many times.
fn joined<R: Abort + AllocGlobal>(rt: &R, [first, middle, last]: Parts, times: usize) -> String {
    let mut text = String::new(rt.alloc());
    text.push_str(first).expect(rt, "memory");
    let middle = middle.repeat(rt.alloc(), times).expect(rt, "memory");
    text.push_str(&middle).expect(rt, "memory");
    text.push_str(last).expect(rt, "memory");
    text
}

/// The line has its record.
fn has_record<R: Abort + AllocGlobal>(rt: &R, (font, policy, line, times, record): Row) {
    let case = Case {
        font,
        policy,
        version: Version::Two,
        ..BYTES
    };
    let bytes = joined(rt, line, times);
    let recorded = is_recorded(rt, &case, bytes.as_bytes(), &joined(rt, record, times));
    same(rt, &recorded, &true, &(times, line, font));
}

#[test]
fn long_lines_have_their_records(rt: HostRuntime) {
    for row in &ROWS {
        has_record(&rt, *row);
    }
}

/// The items and the width of the line `aab ac`, with the font's kerns and its space.
fn kerned(lengths: &Lengths) -> ([Item; 9], i64) {
    let [first, second, third] = lengths.used;
    let (first, second, third) = (amount_of(first), amount_of(second), amount_of(third));
    let space = if lengths.parameters < 2 { 0 } else { 320 };
    let items = [
        A,
        Item::Kern(first),
        A,
        Item::Kern(second),
        B,
        Item::Space(space),
        A,
        Item::Kern(third),
        C,
    ];
    let mut width = 1_638_400;
    for amount in &[first, second, third, space] {
        width = i64::from(*amount).wrapping_add(width);
    }
    (items, width)
}

/// The line `aab ac` has the font's kerns and its space.
fn has_kerns<R: Abort + AllocGlobal>(rt: &R, case: &str, lengths: &Lengths) {
    let (items, width) = kerned(lengths);
    let file = lengths.file(rt.alloc());
    let terms = terms_of(rt.alloc(), file, 5, REFUSE).expect(rt, "terms");
    has(rt, &terms, "aab ac", Ok((&items, width, 5)), &case);
}

#[test]
fn a_font_with_a_long_part_sets_lines(rt: HostRuntime) {
    for (case, lengths, _) in &LONG {
        has_kerns(&rt, case, lengths);
    }
}

/// How many lines a text has, and how many bytes each has without its line feed.
static TEXTS: [(usize, usize); 4] = [(1, 10_000_000), (3, 3_333_333), (100_000, 99), (200_000, 0)];

/// A text of this many lines, of this length, is cut into them.
fn is_cut<R: Abort + AllocGlobal>(rt: &R, (count, length): (usize, usize)) {
    let mut line = Vec::from_elem(rt.alloc(), b'b', length).expect(rt, "memory");
    line.push(b'\n').expect(rt, "memory");
    let text = line.repeat(rt.alloc(), count).expect(rt, "memory");
    let found = lines(rt.alloc(), &text).expect(rt, "memory");
    same(rt, &found.len(), &count, &length);
    for line in &found {
        same(rt, &line.bytes().len(), &length, &count);
    }
}

#[test]
fn texts_of_ten_million_bytes_are_cut(rt: HostRuntime) {
    for row in &TEXTS {
        is_cut(&rt, *row);
    }
}

/// The bytes before a record.
static BEFORE: [usize; 4] = [199_999, 200_000, 1_048_576, 10_000_000];

/// The records of the line `a`, of the source 7.
const RECORDS: &[u8] = b"7:1 set 327680 steps 1 c97=327680\n\
    {\"source\":7,\"line\":1,\"width\":327680,\"steps\":1,\"items\":[[\"c\",97,327680]]}\n";

/// The records come after this many bytes.
fn are_after<R: Abort + AllocGlobal>(rt: &R, answer: &Answer, before: usize) {
    let mut out = Vec::from_elem(rt.alloc(), b'+', before).expect(rt, "memory");
    for version in &[Version::Two, Version::Json] {
        record(7, 1, answer, *version, &mut out).expect(rt, "memory");
    }
    same(rt, &out.ends_with(RECORDS), &true, &before);
}

/// The records of an answer come after long texts.
fn are_appended<R: Abort + AllocGlobal>(rt: &R) {
    let terms = named_terms(rt, Plain, LIMIT, REFUSE);
    let line = Line::new(Vec::from_slice(rt.alloc(), b"a").expect(rt, "memory"));
    let answer = set(rt.alloc(), terms, line).expect(rt, "memory");
    for before in &BEFORE {
        are_after(rt, &answer, *before);
    }
}

#[test]
fn a_record_after_a_long_text(rt: HostRuntime) {
    are_appended(&rt);
}

/// The list has the same memory after a line.
fn is_kept<R: Abort>(rt: &R, terms: &Terms, line: &[u8], list: &mut Vec<Item>) {
    let before = list.capacity();
    let outcome = set_bytes(terms, line, list).expect(rt, "memory");
    outcome.give_back(list);
    same(rt, &list.capacity(), &before, &line.len());
}

/// The list keeps its memory through lines that are set, refused and too long.
fn keeps_its_memory<R: Abort + AllocGlobal>(rt: &R) {
    let terms = named_terms(rt, Ligature(3), 20, REFUSE);
    let mut list: Vec<Item> = Vec::with_capacity(rt.alloc(), 300).expect(rt, "memory");
    let long = [b'a'; 65_536];
    for line in &[b"ab ab".as_slice(), b"a?", &long[..200], &long, b""] {
        is_kept(rt, &terms, line, &mut list);
    }
}

#[test]
fn the_list_keeps_its_memory(rt: HostRuntime) {
    keeps_its_memory(&rt);
}
