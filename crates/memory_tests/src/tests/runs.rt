//! `set_word`. After a failed allocation the error is `OutOfMemory`, and the list is unchanged.
use super::{NO_ARGUMENTS, outcome, report};
use lig_kern::{Item, WordFault, set_word};
use std::alloc::AllocError;
use std::process::Abort;
use std::test::Fail;
use test_support::fonts::examples::{endless, ligature};
use test_support::items::{A, A_C_B, AHEAD, B, BACK, C};
use test_support::terms::font_of;
use tfm_tables::Font;

const KERN: Item = Item::Kern(1);

const SPACE: Item = Item::Space(2);

const SKIPPED: Item = Item::Skipped(3);

const AFTER_EARLIER: [Item; 8] = [KERN, SPACE, SKIPPED, A, BACK, C, AHEAD, B];

/// A run, the items of a list before it, the result within 100 steps, and the items after it.
type Run = (
    &'static [u8],
    &'static [Item],
    Result<u32, WordFault>,
    &'static [Item],
);

/// Whether the run has its result. Otherwise an allocation failed.
fn sets<R: Abort>(rt: &R, font: &Font, run: Run, list: &mut Vec<Item>) -> bool {
    let (bytes, before, wanted, after) = run;
    let set = set_word(font, bytes, true, 100, list);
    let failed = set == Err(WordFault::OutOfMemory);
    assert_eq!(rt; list.as_slice(), if failed { before } else { after });
    assert!(rt; failed || set == wanted);
    !failed
}

/// Sets the run with the font in this file. Returns the outcome.
fn is_set<R: Abort + AllocGlobal>(
    rt: &R,
    file: Result<Vec<u8>, AllocError>,
    run: Run,
) -> &'static str {
    let Ok(font) = font_of(rt.alloc(), file) else {
        return NO_ARGUMENTS;
    };
    let Ok(mut list) = Vec::from_slice(rt.alloc(), run.1) else {
        return NO_ARGUMENTS;
    };
    let first = sets(rt, &font, run, &mut list);
    assert!(rt; first || sets(rt, &font, run, &mut list));
    outcome(first)
}

#[test]
fn a_run_is_appended_to_an_empty_list(rt: HostRuntime) -> Result<(), Fail> {
    const RUN: Run = (b"ab", &[], Ok(4), &A_C_B);
    report(&rt, is_set(&rt, ligature(rt.alloc(), 3), RUN))
}

#[test]
fn a_run_is_appended_to_earlier_items(rt: HostRuntime) -> Result<(), Fail> {
    const RUN: Run = (b"ab", &[KERN, SPACE, SKIPPED], Ok(4), &AFTER_EARLIER);
    report(&rt, is_set(&rt, ligature(rt.alloc(), 3), RUN))
}

/// Each step puts one more character ahead, until there are more than have room without an allocation.
#[test]
fn a_run_has_many_characters_ahead(rt: HostRuntime) -> Result<(), Fail> {
    const RUN: Run = (b"aa", &[], Err(WordFault::TooManySteps), &[]);
    report(&rt, is_set(&rt, endless(rt.alloc(), 3), RUN))
}
