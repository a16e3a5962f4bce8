//! The small types give what was put in, and a text is cut into its lines.
use super::lines::terms_of;
use super::named::Named::*;
use super::same;
use lig_kern::Item;
use set_line::{Items, Limit, Line, OutOfMemory, Policy, lines, set};
use std::alloc::AllocError;
use std::process::Abort;

/// A number of steps, and whether it is a limit.
static LIMITS: [(u32, bool); 6] = [
    (0, false),
    (1, true),
    (1_048_576, true),
    (16_777_216, true),
    (16_777_217, false),
    (u32::MAX, false),
];

/// The number of steps is a limit if the row says so.
fn is_limit<R: Abort>(rt: &R, (steps, is_limit): (u32, bool)) {
    let wanted = if is_limit { Some(steps) } else { None };
    let found = match Limit::new(steps) {
        Some(limit) => Some(limit.get()),
        None => None,
    };
    same(rt, &found, &wanted, &steps);
}

#[test]
fn a_limit_is_from_1_to_16777216(rt: HostRuntime) {
    for row in &LIMITS {
        is_limit(&rt, *row);
    }
}

static ITEMS: [Item; 2] = [
    Item::Char {
        code: 97,
        width: -1,
    },
    Item::Skipped(255),
];

/// Items are those that they were made of.
fn are_kept<R: Abort + AllocGlobal>(rt: &R, list: &[Item]) {
    let items = Items::new(Vec::from_slice(rt.alloc(), list).expect(rt, "memory"));
    same(rt, &items.as_slice(), &list, &"items");
    same(rt, &items.into_vec().as_slice(), &list, &"a list");
}

/// A line has the bytes that it was made of.
fn is_kept<R: Abort + AllocGlobal>(rt: &R, bytes: &[u8]) {
    let line = Line::new(Vec::from_slice(rt.alloc(), bytes).expect(rt, "memory"));
    same(rt, &line.bytes(), &bytes, &"a line");
    same(rt, &line.into_bytes().as_slice(), &bytes, &"bytes");
}

#[test]
fn values_are_what_they_were_made_of(rt: HostRuntime) {
    are_kept(&rt, &ITEMS);
    is_kept(&rt, b"a \r\n\x00\xFF");
    same(&rt, &OutOfMemory::from(AllocError), &OutOfMemory, &"memory");
}

/// The answer to the line `ad` in the plain font has its terms and its line.
fn has_its_terms<R: Abort + AllocGlobal>(rt: &R) {
    let terms = terms_of(rt, Plain, 100, Policy::Skip);
    let bytes = Vec::from_slice(rt.alloc(), b"ad").expect(rt, "memory");
    let answer = set(rt.alloc(), terms, Line::new(bytes)).expect(rt, "memory");
    let terms = answer.terms();
    let font = terms.font();
    let values = (terms.limit().get(), terms.policy(), font.space());
    let found = (answer.line().bytes(), values, font.exists(97));
    let wanted = (b"ad".as_slice(), (100, Policy::Skip, 218_453), true);
    same(rt, &found, &wanted, &"ad");
}

#[test]
fn an_answer_has_its_terms_and_its_line(rt: HostRuntime) {
    has_its_terms(&rt);
}

/// A text, and its lines.
static TEXTS: [(&str, &[&str]); 12] = [
    ("ab\n\nc", &["ab", "", "c"]),
    ("ab\n", &["ab"]),
    ("", &[]),
    ("\n", &[""]),
    ("\n\n\n", &["", "", ""]),
    ("ab", &["ab"]),
    ("ab\nc", &["ab", "c"]),
    ("ab\n\n", &["ab", ""]),
    ("\nab", &["", "ab"]),
    ("ab\r\nc\r\n", &["ab\r", "c\r"]),
    ("\r", &["\r"]),
    (" \n a b \n\u{0}\u{ff}", &[" ", " a b ", "\u{0}\u{ff}"]),
];

/// The text is cut into these lines.
fn has_lines<R: Abort + AllocGlobal>(rt: &R, text: &str, wanted: &[&str]) {
    let found = lines(rt.alloc(), text.as_bytes()).expect(rt, "memory");
    same(rt, &found.len(), &wanted.len(), &text);
    for (line, wanted) in found.iter().zip(wanted) {
        same(rt, &line.bytes(), &wanted.as_bytes(), &text);
    }
}

#[test]
fn lines_stand_between_line_feeds(rt: HostRuntime) {
    for (text, wanted) in &TEXTS {
        has_lines(&rt, text, wanted);
    }
}
