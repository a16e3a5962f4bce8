//! Spans, with exactly their items, places and steps; and spans in many small fonts, set and placed by the
//! crate and by the definitions alone.
use super::named::Named;
use super::named::Named::*;
use super::rewriting::{C, LETTERS, OPERATIONS, SHAPES, program_of, with_letters};
use super::same;
use super::slow::slow_place;
use lig_kern::Item;
use set_line::{Limit, OutOfMemory};
use spans::SpanRefusal::{Outside, Steps, TooLong};
use spans::{
    ByteRange, PlacedItem, Span, SpanOutcome, SpanRefusal, SpanSetter, SpanSize, place_span,
};
use std::process::Abort;
use test_support::items::{A, AHEAD, B, BACK, C as C_ITEM};
use tfm_tables::{Font, FontMetrics};

/// An item and its place.
type Part = (Item, (usize, usize));

/// The offset and the length of a span, whether it has both edges or none, and its hyphen.
type Shape = (usize, usize, bool, Option<u8>);

/// A font, a text, a span of it, its width, its steps and its items with their places.
type Row = (Named, &'static str, Shape, i64, u32, &'static [Part]);

static SPANS: [Row; 24] = [
    // characters come from their own bytes, counted in the text
    (
        Plain,
        "abc",
        (1, 2, true, None),
        655_360,
        2,
        &[(B, (1, 2)), (C_ITEM, (2, 3))],
    ),
    (
        Plain,
        "abc",
        (0, 2, false, None),
        491_520,
        1,
        &[(A, (0, 1)), (B, (1, 2))],
    ),
    // LIG deletes both neighbours
    (
        Ligature(0),
        "cab",
        (1, 2, false, None),
        491_520,
        1,
        &[(C_ITEM, (1, 3))],
    ),
    (
        Ligature(0),
        "abb",
        (0, 3, true, None),
        675_840,
        3,
        &[(C_ITEM, (0, 2)), (AHEAD, (2, 2)), (B, (2, 3))],
    ),
    // LIG/ deletes the left one, and /LIG the right one
    (
        Ligature(1),
        "ab",
        (0, 2, true, None),
        675_840,
        3,
        &[(C_ITEM, (0, 1)), (AHEAD, (1, 1)), (B, (1, 2))],
    ),
    (
        Ligature(2),
        "ab",
        (0, 2, true, None),
        778_240,
        3,
        &[(A, (0, 1)), (BACK, (1, 1)), (C_ITEM, (1, 2))],
    ),
    // /LIG/ deletes none
    (
        Ligature(3),
        "ab",
        (0, 2, true, None),
        962_560,
        4,
        &[
            (A, (0, 1)),
            (BACK, (1, 1)),
            (C_ITEM, (1, 1)),
            (AHEAD, (1, 1)),
            (B, (1, 2)),
        ],
    ),
    // the operations that pass some
    (
        Ligature(5),
        "ab",
        (0, 2, true, None),
        655_360,
        2,
        &[(C_ITEM, (0, 1)), (B, (1, 2))],
    ),
    (
        Ligature(6),
        "ab",
        (0, 2, true, None),
        819_200,
        2,
        &[(A, (0, 1)), (C_ITEM, (1, 2))],
    ),
    (
        Ligature(7),
        "ab",
        (0, 2, false, None),
        1_003_520,
        2,
        &[(A, (0, 1)), (C_ITEM, (1, 1)), (AHEAD, (1, 1)), (B, (1, 2))],
    ),
    (
        Ligature(11),
        "ab",
        (0, 2, false, None),
        983_040,
        1,
        &[(A, (0, 1)), (C_ITEM, (1, 1)), (B, (1, 2))],
    ),
    // a hyphen is in the run: it has no byte of its own
    (
        Plain,
        "ab",
        (0, 1, false, Some(99)),
        819_200,
        1,
        &[(A, (0, 1)), (C_ITEM, (1, 1))],
    ),
    (
        Ligature(0),
        "ab",
        (0, 1, false, Some(98)),
        491_520,
        1,
        &[(C_ITEM, (0, 1))],
    ),
    (
        Ligature(0),
        "ab",
        (0, 2, false, Some(98)),
        675_840,
        2,
        &[(C_ITEM, (0, 2)), (AHEAD, (2, 2)), (B, (2, 2))],
    ),
    (
        Plain,
        "ab",
        (2, 0, false, Some(97)),
        327_680,
        0,
        &[(A, (2, 2))],
    ),
    // a boundary is next to the codes only if the span has that edge
    (
        LeftBoundary,
        "a",
        (0, 1, true, None),
        286_720,
        1,
        &[(BACK, (0, 0)), (A, (0, 1))],
    ),
    (
        LeftBoundary,
        "a",
        (0, 1, false, None),
        327_680,
        0,
        &[(A, (0, 1))],
    ),
    (
        LeftBoundary,
        "b",
        (0, 1, true, None),
        655_360,
        3,
        &[(C_ITEM, (0, 0)), (B, (0, 1))],
    ),
    (
        LeftBoundary,
        "b",
        (0, 1, false, None),
        163_840,
        0,
        &[(B, (0, 1))],
    ),
    (
        RightBoundary,
        "ab",
        (0, 1, true, None),
        450_560,
        3,
        &[(A, (0, 1)), (BACK, (1, 1)), (B, (1, 1))],
    ),
    (
        RightBoundary,
        "ab",
        (0, 1, false, None),
        327_680,
        0,
        &[(A, (0, 1))],
    ),
    (
        RightBoundary,
        "b",
        (0, 1, true, None),
        184_320,
        2,
        &[(B, (0, 1)), (AHEAD, (1, 1))],
    ),
    // no codes
    (RightBoundary, "ab", (1, 0, true, None), 0, 1, &[]),
    (Plain, "", (0, 0, false, None), 0, 0, &[]),
];

/// The span of this shape.
fn span((offset, length, edges, hyphen): Shape) -> Span {
    Span {
        offset,
        length,
        left: edges,
        right: edges,
        hyphen,
    }
}

/// The limit of this many steps.
fn limit_of<R: Abort>(rt: &R, steps: u32) -> Limit {
    Limit::new(steps).expect(rt, "a limit")
}

/// What a row says of its span.
fn wanted_of((_, _, _, width, steps, parts): &Row) -> Result<SpanOutcome, OutOfMemory> {
    let size = SpanSize {
        width: *width,
        items: parts.len(),
        steps: *steps,
    };
    Ok(SpanOutcome::Set(size))
}

/// The span is set twice by one setter.
fn is_set_twice<R: Abort + AllocGlobal>(rt: &R, font: &Font, row: &Row) {
    let (named, text, shape, _, _, _) = row;
    let (span, limit) = (span(*shape), limit_of(rt, 40));
    let mut setter = SpanSetter::new(rt.alloc());
    let first = setter.set(font, text.as_bytes(), &span, limit);
    let second = setter.set(font, text.as_bytes(), &span, limit);
    let wanted = wanted_of(row);
    same(rt, &(first, second), &(wanted, wanted), &(text, named));
}

/// The span is placed, after an item that stays.
fn is_placed<R: Abort + AllocGlobal>(rt: &R, font: &Font, row: &Row) {
    let (named, text, shape, _, _, parts) = row;
    let (span, limit) = (span(*shape), limit_of(rt, 40));
    let mut list = Vec::new(rt.alloc());
    list.push(placed((BACK, (7, 8)))).expect(rt, "memory");
    let set = place_span(font, text.as_bytes(), &span, limit, &mut list);
    same(rt, &set, &wanted_of(row), &(text, named));
    are_placed(rt, &list, parts, (text, *named));
}

/// The list has the item that stays, and these with their places.
fn are_placed<R: Abort>(rt: &R, list: &[PlacedItem], parts: &[Part], case: (&str, Named)) {
    same(rt, &list.len(), &parts.len().saturating_add(1), &case);
    same(rt, &list.first(), &Some(&placed((BACK, (7, 8)))), &case);
    for (found, part) in list.iter().skip(1).zip(parts) {
        same(rt, found, &placed(*part), &case);
    }
}

/// The span is set and placed as its row says.
fn sets_span<R: Abort + AllocGlobal>(rt: &R, row: &Row) {
    let font = row.0.font(rt);
    is_set_twice(rt, &font, row);
    is_placed(rt, &font, row);
}

fn placed((item, (start, end)): Part) -> PlacedItem {
    let place = ByteRange { start, end };
    PlacedItem { item, place }
}

#[test]
fn spans_have_these_items_and_places(rt: HostRuntime) {
    for row in &SPANS {
        sets_span(&rt, row);
    }
}

/// A text and how often it is repeated, a span of it, its limit, and why it is refused in a font.
type Refused = (Named, (&'static str, usize), Shape, u32, SpanRefusal);

macro_rules! missing {
    ($offset:literal, $code:literal) => {
        SpanRefusal::Missing {
            offset: $offset,
            code: $code,
        }
    };
}

static REFUSED: [Refused; 12] = [
    (Plain, ("abc", 1), (2, 2, true, None), 9, Outside),
    (Plain, ("abc", 1), (4, 0, true, None), 9, Outside),
    (Plain, ("abc", 1), (1, usize::MAX, true, None), 9, Outside),
    (Plain, ("abc", 1), (usize::MAX, 1, true, None), 9, Outside),
    (Plain, ("a b\n", 1), (0, 4, true, None), 9, missing!(1, 32)),
    (Plain, ("a b\n", 1), (2, 2, true, None), 9, missing!(3, 10)),
    (
        Plain,
        ("a b", 1),
        (2, 1, false, Some(45)),
        9,
        missing!(3, 45),
    ),
    (Plain, ("abc", 1), (0, 3, false, None), 1, Steps),
    (Endless(3), ("aa", 1), (0, 2, true, None), 100, Steps),
    (Plain, ("c", 65_536), (0, 65_536, true, None), 9, TooLong),
    (Plain, ("c", 65_536), (1, 65_536, true, None), 9, Outside),
    (Plain, ("c", 65_536), (0, 65_535, true, None), 65_534, Steps),
];

/// Sets a span by a setter of its own.
fn set_alone<R: AllocGlobal>(
    rt: &R,
    font: &Font,
    text: &[u8],
    span: &Span,
    limit: Limit,
) -> Result<SpanOutcome, OutOfMemory> {
    SpanSetter::new(rt.alloc()).set(font, text, span, limit)
}

/// Both calls refuse a span of this text as the row says, and append nothing.
fn is_refused<R: Abort + AllocGlobal>(rt: &R, font: &Font, text: &[u8], row: &Refused) {
    let (_, _, shape, steps, refusal) = row;
    let (span, limit) = (span(*shape), limit_of(rt, *steps));
    let set = set_alone(rt, font, text, &span, limit);
    let mut list = Vec::new(rt.alloc());
    let placed = place_span(font, text, &span, limit, &mut list);
    let wanted = Ok(SpanOutcome::Refused(*refusal));
    same(rt, &(set, placed, list.len()), &(wanted, wanted, 0), &span);
}

/// The row's span is refused.
fn refuses<R: Abort + AllocGlobal>(rt: &R, row: &Refused) {
    let (named, (text, count), _, _, _) = row;
    let text = text.repeat(rt.alloc(), *count).expect(rt, "memory");
    is_refused(rt, &named.font(rt), text.as_bytes(), row);
}

#[test]
fn a_span_is_refused_for_the_first_reason(rt: HostRuntime) {
    for row in &REFUSED {
        refuses(&rt, row);
    }
}

/// Both calls and the definition agree on a span of a text within 40 steps. Returns whether it has an end.
fn agree<R: Abort + AllocGlobal>(rt: &R, font: &Font, text: &str, span: Span) -> bool {
    let file: &FontMetrics = font;
    let text = text.as_bytes();
    let limit = limit_of(rt, 40);
    let mut wanted = Vec::new(rt.alloc());
    let steps = slow_place(rt, font, (text, span), 40, &mut wanted);
    let mut found = Vec::new(rt.alloc());
    let set = place_span(font, text, &span, limit, &mut found);
    let same_set = set_alone(rt, font, text, &span, limit);
    let taken = match set {
        Ok(SpanOutcome::Set(size)) => Some(size.steps),
        _ => None,
    };
    let found = (found.as_slice(), same_set, taken);
    same(
        rt,
        &found,
        &(wanted.as_slice(), set, steps),
        &(span, text, file),
    );
    steps.is_some()
}

/// They agree on spans of these texts with all edges, without and with a hyphen.
fn agree_on_texts<R: Abort + AllocGlobal>(rt: &R, font: &Font) -> bool {
    let mut end = true;
    for text in &["bab", "babb", "baab", "babab"] {
        for (left, right) in &[(false, false), (false, true), (true, false), (true, true)] {
            for hyphen in &[None, Some(C)] {
                let span = Span {
                    offset: 1,
                    length: text.len().saturating_sub(1),
                    left: *left,
                    right: *right,
                    hyphen: *hyphen,
                };
                end = agree(rt, font, text, span) && end;
            }
        }
    }
    end
}

/// They agree in fonts of all shapes and operations. Some programs have no end.
fn agree_in_all<R: Abort + AllocGlobal>(rt: &R) {
    let mut end = true;
    for shape in &SHAPES {
        for first in &OPERATIONS {
            for second in &OPERATIONS {
                let program = program_of(*shape, (*first, *second), (true, true));
                let font = with_letters(rt, 100, &LETTERS, &program);
                end = agree_on_texts(rt, &font) && end;
            }
        }
    }
    same(rt, &end, &false, &"an end");
}

#[test]
fn spans_in_many_fonts(rt: HostRuntime) {
    agree_in_all(&rt);
}
