//! `set`, `set_bytes` and `lines`. After a failed allocation `set` hands back the line, and the list of `set_bytes`
//! is empty, with its memory; a line that is too long, or has a missing character that is refused, gets this refusal.
use super::{NO_ARGUMENTS, outcome, report};
use lig_kern::Item;
use set_line::{Line, LineRefusal, OutOfMemory, Outcome, Policy, Terms, lines, set, set_bytes};
use std::alloc::{AllocError, Global};
use std::process::Abort;
use std::sync::Arc;
use std::test::Fail;
use test_support::fonts::examples::{endless, ligature};
use test_support::items::{A, A_C_B, AHEAD, B, BACK, C, SPACE};
use test_support::terms::terms_of;

const SKIPPED: Item = Item::Skipped(100);

const WITH_SPACE: [Item; 7] = [A, BACK, C, AHEAD, B, SPACE, SKIPPED];

const WITH_SKIPPED: [Item; 7] = [A, BACK, C, AHEAD, B, SKIPPED, SKIPPED];

/// The items of a line that is set in four steps, and its width; or why it is refused.
type Wanted = Result<(&'static [Item], i64), LineRefusal>;

fn is_right(outcome: &Outcome, wanted: Wanted) -> bool {
    match outcome {
        Outcome::Set {
            items,
            width,
            steps,
        } => wanted == Ok((items.as_slice(), *width)) && *steps == 4,
        Outcome::Refused(refusal) => wanted == Err(*refusal),
    }
}

/// Settings with the font that inserts c between a and b, and a limit of 100 steps; `None` if an allocation fails.
pub fn settings(alloc: Global, policy: Policy) -> Option<Arc<Terms>> {
    terms_of(alloc, ligature(alloc, 3), 100, policy)
}

/// Sets a line of these bytes, and compares its result. Returns the line if an allocation failed.
fn sets<R: Abort + AllocGlobal>(
    rt: &R,
    terms: Arc<Terms>,
    line: Line,
    (bytes, wanted): (&[u8], Wanted),
) -> Option<Line> {
    match set(rt.alloc(), terms, line) {
        Ok(answer) => {
            assert_eq!(rt; answer.line().bytes(), bytes);
            assert!(rt; is_right(answer.outcome(), wanted));
            None
        }
        Err((line, OutOfMemory)) => {
            assert_eq!(rt; line.bytes(), bytes);
            Some(line)
        }
    }
}

/// Sets a line of these bytes, and if it is handed back, once more. Returns the outcome.
fn is_set<R: Abort + AllocGlobal>(
    rt: &R,
    terms: Option<Arc<Terms>>,
    bytes: &[u8],
    wanted: Wanted,
) -> &'static str {
    let Some((terms, line)) = terms.zip(test_support::line(rt.alloc(), bytes)) else {
        return NO_ARGUMENTS;
    };
    let Ok(again) = terms.clone() else {
        return NO_ARGUMENTS;
    };
    match sets(rt, terms, line, (bytes, wanted)) {
        None => outcome(true),
        Some(line) => {
            assert!(rt; sets(rt, again, line, (bytes, wanted)).is_none());
            outcome(false)
        }
    }
}

/// The run has more items than its line has bytes.
#[test]
fn a_line_of_one_run_is_set(rt: HostRuntime) -> Result<(), Fail> {
    let terms = settings(rt.alloc(), Policy::Skip);
    report(&rt, is_set(&rt, terms, b"ab", Ok((&A_C_B, 962_560))))
}

/// Up to the space there is room for as many items as the run has.
#[test]
fn a_line_with_a_space_is_set(rt: HostRuntime) -> Result<(), Fail> {
    let terms = settings(rt.alloc(), Policy::Skip);
    report(
        &rt,
        is_set(&rt, terms, b"ab d", Ok((&WITH_SPACE, 1_181_013))),
    )
}

#[test]
fn a_line_with_skipped_characters_is_set(rt: HostRuntime) -> Result<(), Fail> {
    let terms = settings(rt.alloc(), Policy::Skip);
    report(
        &rt,
        is_set(&rt, terms, b"abdd", Ok((&WITH_SKIPPED, 962_560))),
    )
}

/// Each step puts one more character ahead, until there are more than have room without an allocation.
#[test]
fn a_line_has_many_characters_ahead(rt: HostRuntime) -> Result<(), Fail> {
    let terms = terms_of(rt.alloc(), endless(rt.alloc(), 3), 100, Policy::Refuse);
    report(&rt, is_set(&rt, terms, b"aa", Err(LineRefusal::Steps(100))))
}

#[test]
fn a_missing_character_is_reported(rt: HostRuntime) -> Result<(), Fail> {
    let terms = settings(rt.alloc(), Policy::Refuse);
    let missing = LineRefusal::Missing {
        offset: 3,
        code: 100,
    };
    report(&rt, is_set(&rt, terms, b"ab d", Err(missing)))
}

#[test]
fn a_line_that_is_too_long_is_reported(rt: HostRuntime) -> Result<(), Fail> {
    let Ok(line) = "d".repeat(rt.alloc(), 65_536) else {
        return report(&rt, NO_ARGUMENTS);
    };
    let terms = settings(rt.alloc(), Policy::Refuse);
    let refusal = LineRefusal::TooLong(65_536);
    report(&rt, is_set(&rt, terms, line.as_bytes(), Err(refusal)))
}

/// Whether the line `ab` is set with this list, which is empty afterwards. Otherwise an allocation failed.
fn sets_with<R: Abort>(rt: &R, terms: &Terms, list: &mut Vec<Item>) -> bool {
    let before = list.capacity();
    let set = set_bytes(terms, b"ab", list);
    assert!(rt; list.is_empty());
    match set {
        Ok(outcome) => {
            assert!(rt; is_right(&outcome, Ok((&A_C_B, 962_560))));
            true
        }
        Err(_) => {
            assert!(rt; list.capacity() >= before);
            false
        }
    }
}

/// The list has room for one item, which it has.
#[test]
fn a_line_is_set_with_a_list(rt: HostRuntime) -> Result<(), Fail> {
    let terms = settings(rt.alloc(), Policy::Skip);
    let list = Vec::from_slice(rt.alloc(), &[Item::Kern(1)]).ok();
    let Some((terms, mut list)) = terms.zip(list) else {
        return report(&rt, NO_ARGUMENTS);
    };
    let first = sets_with(&rt, &terms, &mut list);
    assert!(rt; first || sets_with(&rt, &terms, &mut list));
    report(&rt, outcome(first))
}

/// Whether a text of three lines is cut. Otherwise an allocation failed.
fn cuts<R: Abort + AllocGlobal>(rt: &R) -> bool {
    let Ok(found) = lines(rt.alloc(), b"ab\n\nc") else {
        return false;
    };
    assert_eq!(rt; found.len(), 3);
    assert_eq!(rt; found[0].bytes(), b"ab".as_slice());
    assert_eq!(rt; found[1].bytes(), b"".as_slice());
    assert_eq!(rt; found[2].bytes(), b"c".as_slice());
    true
}

#[test]
fn a_text_is_cut_into_lines(rt: HostRuntime) -> Result<(), Fail> {
    let first = cuts(&rt);
    assert!(rt; first || cuts(&rt));
    report(&rt, outcome(first))
}
