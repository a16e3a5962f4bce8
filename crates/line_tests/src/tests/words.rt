//! Runs, with exactly their items and steps.
use super::named::Named;
use super::named::Named::*;
use super::same;
use lig_kern::{Item, WordFault, set_word};
use std::process::Abort;
use test_support::items::{A, AHEAD, B, BACK, C, SPACE};

/// A font, a line, its width, its steps and its items.
pub type Row = (Named, &'static str, i64, u32, &'static [Item]);

/// Lines of one run each.
pub static RUNS: [Row; 37] = [
    // plain programs
    (Plain, "a", 327_680, 1, &[A]),
    (Plain, "ab", 491_520, 2, &[A, B]),
    (Plain, "abc", 983_040, 3, &[A, B, C]),
    (Ligature(0), "a", 327_680, 1, &[A]),
    (Ligature(0), "ab", 491_520, 2, &[C]),
    (Ligature(0), "ac", 778_240, 2, &[A, BACK, C]),
    (Ligature(0), "cb", 675_840, 2, &[C, AHEAD, B]),
    (Ligature(0), "acb", 962_560, 3, &[A, BACK, C, AHEAD, B]),
    (Ligature(0), "abb", 675_840, 3, &[C, AHEAD, B]),
    // the first match wins, and an instruction that is skipped isn't met
    (TwoKerns, "ab", 450_560, 2, &[A, BACK, B]),
    (Skipping, "ab", 512_000, 2, &[A, AHEAD, B]),
    // a second indirection isn't followed, and a halt that is met ends the search
    (Indirect, "ab", 491_520, 2, &[A, B]),
    // the ligature operations
    (Ligature(1), "ab", 675_840, 3, &[C, AHEAD, B]),
    (Ligature(2), "ab", 778_240, 3, &[A, BACK, C]),
    (Ligature(3), "ab", 962_560, 4, &[A, BACK, C, AHEAD, B]),
    (Ligature(5), "ab", 655_360, 2, &[C, B]),
    (Ligature(6), "ab", 819_200, 2, &[A, C]),
    (Ligature(7), "ab", 1_003_520, 3, &[A, C, AHEAD, B]),
    (Ligature(11), "ab", 983_040, 2, &[A, C, B]),
    // their unlisted codes
    (Ligature(4), "ab", 491_520, 2, &[C]),
    (Ligature(8), "ab", 491_520, 2, &[C]),
    (Ligature(9), "ab", 491_520, 2, &[C]),
    (Ligature(10), "ab", 491_520, 2, &[C]),
    (Ligature(12), "ab", 491_520, 2, &[C]),
    (Ligature(127), "ab", 491_520, 2, &[C]),
    // the right boundary
    (RightBoundary, "a", 450_560, 3, &[A, BACK, B]),
    (RightBoundary, "b", 184_320, 2, &[B, AHEAD]),
    (RightBoundary, "aa", 778_240, 4, &[A, A, BACK, B]),
    (BoundaryExists, "a", 286_720, 2, &[A, BACK]),
    (BoundaryExists, "ab", 450_560, 3, &[A, BACK, B]),
    // the left boundary
    (LeftBoundary, "a", 286_720, 1, &[BACK, A]),
    (LeftBoundary, "b", 655_360, 3, &[C, B]),
    // programs that may have no end
    (Endless(3), "a", 327_680, 1, &[A]),
    (Endless(0), "aa", 327_680, 2, &[A]),
    (Endless(5), "aa", 655_360, 2, &[A, A]),
    (Endless(6), "aa", 655_360, 2, &[A, A]),
    (Endless(11), "aa", 983_040, 2, &[A, A, A]),
];

/// What stands in the list before a run is set.
const EARLIER: [Item; 3] = [C, SPACE, Item::Skipped(100)];

/// With one step less nothing is appended to the list, and with the steps just the items are.
fn sets_run<R: Abort + AllocGlobal>(rt: &R, (font, run, _, steps, items): Row) {
    let read = font.font(rt);
    let mut list = Vec::from_slice(rt.alloc(), &EARLIER).expect(rt, "memory");
    let less = steps.saturating_sub(1);
    let set = set_word(&read, run.as_bytes(), true, less, &mut list);
    let wanted = (Err(WordFault::TooManySteps), EARLIER.as_slice());
    same(rt, &(set, list.as_slice()), &wanted, &(run, font));
    let set = set_word(&read, run.as_bytes(), true, steps, &mut list);
    let (earlier, appended) = list.split_at(EARLIER.len().min(list.len()));
    let wanted = (Ok(steps), EARLIER.as_slice(), items);
    same(rt, &(set, earlier, appended), &wanted, &(run, font));
}

#[test]
fn runs_have_their_items_and_steps(rt: HostRuntime) {
    for row in &RUNS {
        sets_run(&rt, *row);
    }
}

/// A run of a font without the right boundary, or with it, has these steps and items.
fn ends<R: Abort + AllocGlobal>(
    rt: &R,
    (font, run): (Named, &[u8]),
    (right, limit): (bool, u32),
    wanted: (Result<u32, WordFault>, &[Item]),
) {
    let mut list = Vec::new(rt.alloc());
    let set = set_word(&font.font(rt), run, right, limit, &mut list);
    same(rt, &(set, list.as_slice()), &wanted, &font);
}

/// Without the right boundary nothing is done after the last character.
#[test]
fn a_run_without_the_right_boundary(rt: HostRuntime) {
    ends(&rt, (RightBoundary, b"a"), (false, 1), (Ok(1), &[A]));
}

#[test]
fn a_program_without_end_is_stopped(rt: HostRuntime) {
    let wanted = (Err(WordFault::TooManySteps), [].as_slice());
    for op in &[1, 2, 3, 7] {
        ends(&rt, (Endless(*op), b"aa"), (true, 100), wanted);
    }
}
