//! Lines, with exactly their items, width and steps.
ghost use Rattle.std.specs.Prelude.{◌≡◌};
ghost use Rattle.line_records.specs.Cells.{Fits};

use super::named::Named;
use super::named::Named::*;
use super::same;
use super::words::{RUNS, Row};
use lig_kern::Item;
use line_records::{LineResult, LineWriter, RecordFormat, RecordOf, SourceLine};
use set_line::{LineRefusal, Outcome, Policy, Terms, TextRefusal, Version, set_bytes};
use std::fmt::Debug;
use std::process::Abort;
use std::sync::Arc;
use test_support::items::{A, AHEAD, B, BACK, C, SPACE};
use test_support::terms;

/// The bytes 100 and 124, which are skipped.
const D: Item = Item::Skipped(100);

const BAR: Item = Item::Skipped(124);

/// A space without a width.
const NONE: Item = Item::Space(0);

/// Lines with spaces.
static LINES: [Row; 18] = [
    // the steps of all runs are counted together
    (Plain, "ab abc", 1_693_013, 5, &[A, B, SPACE, A, B, C]),
    (
        Plain,
        " a  b ",
        1_365_332,
        2,
        &[SPACE, A, SPACE, SPACE, B, SPACE],
    ),
    (
        TwoKerns,
        "ab ab",
        1_119_573,
        4,
        &[A, BACK, B, SPACE, A, BACK, B],
    ),
    // ligatures before a space, and after one
    (
        Ligature(0),
        " aab ab",
        1_747_626,
        5,
        &[SPACE, A, C, SPACE, C],
    ),
    (
        Ligature(3),
        "c ab",
        1_672_533,
        5,
        &[C, SPACE, A, BACK, C, AHEAD, B],
    ),
    (Endless(0), "aaa a", 873_813, 4, &[A, SPACE, A]),
    // a line without characters has no boundaries
    (Plain, "", 0, 0, &[]),
    (Largest, "", 0, 0, &[]),
    (Plain, "  ", 436_906, 0, &[SPACE, SPACE]),
    (NoSpace, "  ", 0, 0, &[NONE, NONE]),
    (NoParameters, "a b", 491_520, 2, &[A, NONE, B]),
    // each run has both boundaries
    (LeftBoundary, "a a", 791_893, 2, &[BACK, A, SPACE, BACK, A]),
    (
        RightBoundary,
        "b b",
        587_093,
        4,
        &[B, AHEAD, SPACE, B, AHEAD],
    ),
    (RightBoundary, "bcb", 839_680, 4, &[B, C, B, AHEAD]),
    (
        RightBoundary,
        "b a",
        853_333,
        5,
        &[B, AHEAD, SPACE, A, BACK, B],
    ),
    (BoundaryExists, "a ", 505_173, 2, &[A, BACK, SPACE]),
    (LeftBoundary, " a", 505_173, 1, &[SPACE, BACK, A]),
    (LeftBoundary, "a b", 1_160_533, 4, &[BACK, A, SPACE, C, B]),
];

/// Lines with bytes that are skipped.
static SKIPPED: [Row; 8] = [
    (RightBoundary, "adb", 512_000, 3, &[A, D, B, AHEAD]),
    (RightBoundary, "ad", 327_680, 1, &[A, D]),
    (RightBoundary, "d a", 669_013, 3, &[D, SPACE, A, BACK, B]),
    (RightBoundary, "a|b", 512_000, 3, &[A, BAR, B, AHEAD]),
    (LeftBoundary, "ada", 573_440, 2, &[BACK, A, D, BACK, A]),
    (Plain, "d", 0, 0, &[D]),
    (Plain, "dd", 0, 0, &[D, D]),
    (Plain, " d ", 436_906, 0, &[SPACE, D, SPACE]),
];

/// What a line has: its items, its width and its steps, or its refusal.
pub type Found<'a> = Result<(&'a [Item], i64, u32), LineRefusal>;

/// Reads a font at its design size, for lines that are set with this limit.
pub fn terms_of<R: Abort + AllocGlobal>(
    rt: &R,
    font: Named,
    limit: u32,
    policy: Policy,
) -> Arc<Terms> {
    let file = font.file(rt.alloc());
    terms::terms_of(rt.alloc(), file, limit, policy).expect(rt, "terms")
}

/// Sets a line, which has this.
pub fn has<R: Abort + AllocGlobal, C: Debug>(
    rt: &R,
    terms: &Terms,
    line: &str,
    wanted: Found<'_>,
    case: &C,
) {
    let mut list = Vec::new(rt.alloc());
    let outcome = set_bytes(terms, line.as_bytes(), &mut list).expect(rt, "memory");
    same(rt, &found_in(&outcome), &wanted, &(line, case));
}

/// The items, the width and the steps of a line that was set.
fn found_in(outcome: &Outcome) -> Found<'_> {
    match outcome {
        Outcome::Set {
            items,
            width,
            steps,
        } => Ok((items.as_slice(), *width, *steps)),
        Outcome::Refused(refusal) => Err(*refusal),
    }
}

/// The result of a line by a writer: its width, its steps and the number of its items, or its refusal.
fn has_result<R: Abort>(
    rt: &R,
    writer: &mut LineWriter,
    terms: &Terms,
    line: &str,
    wanted: Result<(i64, u32, usize), LineRefusal>,
)
    requires { Fits writer.old terms.now }
    ensures { writer.new ≡ writer.old }
{
    let of = RecordOf {
        terms,
        encoding: None,
        source: 1,
    };
    let source = SourceLine {
        number: 1,
        first: true,
        bytes: line.as_bytes(),
    };
    let found = match writer.result(&of, source).expect(rt, "memory") {
        LineResult::Set(sums) => Ok((sums.width, sums.steps, sums.items)),
        LineResult::Refused(refusal) => Err(refusal),
    };
    same(rt, &found, &wanted.map_err(TextRefusal::Line), &line);
}

/// The line has this result before the writer is prepared, when the texts that the line needs are made, and when they
/// are there.
fn has_results<R: Abort + AllocGlobal>(
    rt: &R,
    terms: &Terms,
    line: &str,
    wanted: Result<(i64, u32, usize), LineRefusal>,
) {
    let mut writer = LineWriter::new(rt.alloc(), terms, RecordFormat::Items(Version::One));
    has_result(rt, &mut writer, terms, line, wanted);
    writer.prepare(terms);
    has_result(rt, &mut writer, terms, line, wanted);
    has_result(rt, &mut writer, terms, line, wanted);
}

/// The line has this with this limit.
fn has_with<R: Abort + AllocGlobal>(
    rt: &R,
    (font, policy): (Named, Policy),
    limit: u32,
    line: &str,
    wanted: Found<'_>,
) {
    let terms = terms_of(rt, font, limit, policy);
    has(rt, &terms, line, wanted, &font);
    let sums = match wanted {
        Ok((items, width, steps)) => Ok((width, steps, items.len())),
        Err(refusal) => Err(refusal),
    };
    has_results(rt, &terms, line, sums);
}

/// The line is set so with just its steps as the limit, and refused with one step less, if that is a limit.
fn sets_line<R: Abort + AllocGlobal>(
    rt: &R,
    policy: Policy,
    (font, line, width, steps, items): Row,
) {
    let wanted = Ok((items, width, steps));
    has_with(rt, (font, policy), steps.max(1), line, wanted);
    let limit = steps.saturating_sub(1);
    if limit > 0 {
        let refused = Err(LineRefusal::Steps(limit));
        has_with(rt, (font, policy), limit, line, refused);
    }
}

/// The lines are set so, with just their steps as the limit, and not with one step less.
fn sets_each<R: Abort + AllocGlobal>(rt: &R, policy: Policy, rows: &[Row]) {
    for row in rows {
        sets_line(rt, policy, *row);
    }
}

/// Where no character is missing, the policy changes nothing.
#[test]
fn lines_have_their_items_widths_and_steps(rt: HostRuntime) {
    sets_each(&rt, Policy::Refuse, &RUNS);
    sets_each(&rt, Policy::Skip, &RUNS);
    sets_each(&rt, Policy::Refuse, &LINES);
    sets_each(&rt, Policy::Skip, &LINES);
    sets_each(&rt, Policy::Skip, &SKIPPED);
}
