//! The results of lines as C gets them.
ghost use Rattle.std.specs.Prelude.{◌≡◌, Result};
ghost use Rattle.lig_kern.specs.Result.{Setting};
ghost use Rattle.std.specs.List.{count_by};
ghost use Rattle.line_records.specs.Boxes.{is_skipped};
ghost use Rattle.line_records.specs.Results.{IsOf, IsResult};
ghost use Rattle.set_line.specs.declared.outcome.Outcome.{Outcome as OutcomeValue};
ghost use Rattle.set_line.specs.declared.records.text_refusal.TextRefusal.{TextRefusal as TextRefusalValue};
ghost use Rattle.tfmset_c.specs.Options.{steps_in, steps_of as steps_of_outcome};
ghost use Rattle.tfmset_c.specs.Texts.{item_told, line_told, refused_with};

use lig_kern::Item;
use line_records::{LineResult, Sums};
use set_line::{LineRefusal, Outcome, TextRefusal};

/// An item of a line.
#[repr(C)]
#[derive(Clone, Copy, Debug, PartialEq, Eq)]
pub struct TfmsetItem {
    /// 0: a character. 1: a kern. 2: a space. 3: a missing character that was skipped.
    pub kind: u32,
    /// The code of a character, or of a missing character that was skipped. Otherwise 0.
    pub code: u32,
    /// The width in sp; 0 for a skipped character.
    pub width: i32,
}

/// The result of a line.
#[repr(C)]
#[derive(Clone, Copy, Debug, PartialEq, Eq)]
pub struct TfmsetLine {
    /// The sum of the widths of the line's items, in sp. 0 if the line is refused.
    pub width: i64,
    /// The index of the line's first item: the number of items of the lines before it, or 2^64 - 1 if it is
    /// larger.
    pub first: usize,
    /// The number of the line's items. 0 if the line is refused.
    pub count: usize,
    /// Refusal 1: the byte offset of the missing character, starting at 0. Refusal 2: the number of bytes in
    /// the line. Otherwise 0.
    pub place: usize,
    /// If the line is set, the number of steps that it took. Refusal 3: the limit. Otherwise 0.
    pub steps: u32,
    /// 0: the line is set. 1: it has a missing character. 2: it has more than 65,535 bytes. 3: it takes more
    /// steps than the limit.
    pub refusal: u32,
    /// Refusal 1: the code of the missing character. Otherwise 0.
    pub code: u32,
}

/// The number of lines in a text, and the number of items that they have together. A number above 2^64 - 1 is
/// reported as 2^64 - 1.
#[repr(C)]
#[derive(Clone, Copy, Debug, PartialEq, Eq)]
pub struct TfmsetCounts {
    /// The number of lines.
    pub lines: usize,
    /// The number of items.
    pub items: usize,
}

/// Returns an item as C gets it.
#[tactic(auto, unfolding(crate::specs::Texts::item_told))]
pub fn item_for_c(item: Item) -> TfmsetItem
    ensures { result ≡ item_told item }
{
    let (kind, code, width) = match item {
        Item::Char { code, width } => (0, code, width),
        Item::Kern(amount) => (1, 0, amount),
        Item::Space(amount) => (2, 0, amount),
        Item::Skipped(code) => (3, code, 0),
    };
    TfmsetItem {
        kind,
        code: u32::from(code),
        width,
    }
}

/// Returns the number of skipped characters among items.
fn count_skipped(items: &[Item]) -> usize
    ensures { result ≡ count_by is_skipped items.now }
{
    items
        .iter()
        .filter(|item| matches!(item, Item::Skipped(_)))
        .count()
}

/// Returns the result of a line without its items.
pub fn result_of(outcome: &Outcome) -> LineResult
    ensures { IsOf outcome.now result }
{
    match outcome {
        Outcome::Set {
            items,
            width,
            steps,
        } => LineResult::Set(Sums {
            width: *width,
            steps: *steps,
            items: items.as_slice().len(),
            skipped: count_skipped(items.as_slice()),
        }),
        Outcome::Refused(refusal) => LineResult::Refused(TextRefusal::Line(*refusal)),
    }
}

/// Returns the result of a line or a span without items: a refused one, or with refusal 0 an empty one. `first` is the
/// index of its first item.
pub fn refused_for_c(first: usize, refusal: u32, place: usize, steps: u32, code: u8) -> TfmsetLine
    ensures { result ≡ refused_with first refusal place steps code }
{
    TfmsetLine {
        width: 0,
        first,
        count: 0,
        place,
        steps,
        refusal,
        code: u32::from(code),
    }
}

/// Returns the result of a line of bytes as C gets it. `first` is the index of its first item.
#[tactic(auto, unfolding(crate::specs::Texts::line_told))]
pub fn line_for_c(set: LineResult, first: usize) -> TfmsetLine
    requires { (outcome : OutcomeValue) × IsOf outcome set }
    ensures { (outcome : OutcomeValue) → IsOf outcome set → result ≡ line_told first outcome }
{
    match set {
        LineResult::Set(sums) => TfmsetLine {
            width: sums.width,
            count: sums.items,
            steps: sums.steps,
            ..refused_for_c(first, 0, 0, 0, 0)
        },
        LineResult::Refused(TextRefusal::Line(refusal)) => match refusal {
            LineRefusal::Missing { offset, code } => refused_for_c(first, 1, offset, 0, code),
            LineRefusal::TooLong(bytes) => refused_for_c(first, 2, bytes, 0, 0),
            LineRefusal::Steps(limit) => refused_for_c(first, 3, 0, limit, 0),
        },
        LineResult::Refused(_) => unreachable!(),
    }
}

/// Returns the steps that a line takes from those that are left for the call. A line that takes too many takes as
/// many as its limit.
pub fn steps_of(line: LineResult) -> u32
    ensures bytes { (outcome : OutcomeValue) → IsOf outcome line → result ≡ steps_of_outcome outcome }
    ensures line { (set : Result Setting TextRefusalValue) → IsResult set line → result ≡ steps_in set }
{
    match line {
        LineResult::Set(sums) => sums.steps,
        LineResult::Refused(TextRefusal::Line(LineRefusal::Steps(limit))) => limit,
        LineResult::Refused(_) => 0,
    }
}
