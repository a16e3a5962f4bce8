//! Sets the portions of a line one after the other.
ghost use Rattle.std.specs.Prelude.{◌≡◌, ◌≤◌, true, false, IfOk, IfSome, MatchOption};
ghost use Rattle.std.specs.Option.{is_none};
ghost use Rattle.set_line.specs.Pieces.{IsRun, is_cut as is_cut_in, portion_of, portions_in, run_of};
ghost use Rattle.set_line.specs.Answer.{has_refused, is_refused as is_refused_in, plain_setting, setting_of};
ghost use Rattle.set_line.specs.Onward.{AreFew, IsFirstCut, Reaches, onward, setting};

use crate::{Policy, Terms};
use lig_kern::{Item, WordFault, set_word};
use std::alloc::AllocError;
use tfm_tables::Font;

/// Returns whether a byte is refused: it is neither a space nor a character, and missing characters are
/// refused.
pub(crate) fn is_refused(terms: &Terms, byte: u8) -> bool
    ensures { result ≡ is_refused_in terms.now.policy terms.now.font byte }
{
    terms.policy() == Policy::Refuse && byte != b' ' && !terms.font().exists(byte)
}

/// Returns whether a line is cut at a byte: at a space, and at a byte that is no character.
fn is_cut(font: &Font, byte: u8) -> bool
    ensures { result ≡ is_cut_in font.now byte }
{
    byte == b' ' || !font.exists(byte)
}

/// Cuts a line at the first byte at which it is cut: returns the run before it, this byte and the bytes
/// after it. `None` if the line is a run.
#[tactic(auto, using(crate::proofs::PieceLemmas::cuts))]
fn first_cut<'a>(font: &Font, line: &'a [u8]) -> Option<(&'a [u8], u8, &'a [u8])>
    ensures { MatchOption result (IsRun font.now line.now)
        (λ cut. IsFirstCut font.now line.now cut.0.now cut.1 cut.2.now) }
{
    let at = line.iter().position(|byte| is_cut(font, *byte))?;
    let (run, behind) = line.split_at(at);
    let (cut, rest) = behind.split_first()?;
    Some((run, *cut, rest))
}

/// Returns the item of a byte at which a line is cut, or `None` if the byte is refused.
#[tactic(auto, using(crate::proofs::OnwardLemmas::signed), unfolding(crate::specs::Answer::setting_of))]
fn item_at(terms: &Terms, cut: u8) -> Option<Item>
    requires { is_cut_in terms.now.font cut ≡ true }
    ensures refused { is_refused_in terms.now.policy terms.now.font cut ≡ is_none result }
    ensures item { IfSome result (λ item.
        setting_of terms.now.font terms.now.limit (portion_of cut) ≡ plain_setting item) }
{
    if cut == b' ' {
        return Some(Item::Space(terms.font().space()));
    }
    match terms.policy() {
        Policy::Refuse => None,
        Policy::Skip => Some(Item::Skipped(cut)),
    }
}

/// Sets a run, unless it is empty, and appends its items. `used` is the number of steps before it. Returns
/// the number of steps with it, or `None` if that is above the limit.
fn add_run(
    terms: &Terms,
    run: &[u8],
    right: bool,
    used: u32,
    items: &mut Vec<Item>,
) -> Result<Option<u32>, AllocError>
    requires { used ≤ terms.now.limit }
    ensures within { IfOk result (λ steps.
        IfSome steps (λ n. (n ≤ terms.now.limit) × (n ≤ 16777216))) }
    ensures few { IfOk result (λ steps.
        IfSome steps (AreFew used items.old.items run.now items.new.items)) }
    ensures reached { IfOk result (λ steps.
        Reaches (onward terms.now.font terms.now.limit (setting used items.old.items)
        (run_of run.now right)) steps items.new.items) }
{
    let limit = terms.limit().get();
    if run.is_empty() {
        return Ok(Some(used));
    }
    match set_word(terms.font(), run, right, limit - used, items) {
        Ok(steps) => Ok(Some(used + steps)),
        Err(WordFault::TooManySteps) => Ok(None),
        Err(WordFault::OutOfMemory) => Err(AllocError),
    }
}

/// Sets a stretch of a line, and appends its items. `right` says whether the right boundary may follow its
/// last run, and `used` is the number of steps before the stretch. Returns the number of steps with it, or
/// `None` if a byte is refused or the steps are above the limit. After an error, or `None`, the items of a
/// part of the stretch may have been appended.
pub fn set_stretch(
    terms: &Terms,
    codes: &[u8],
    right: bool,
    used: u32,
    items: &mut Vec<Item>,
) -> Result<Option<u32>, AllocError>
    requires { used ≤ terms.now.limit }
    ensures within { IfOk result (λ steps.
        IfSome steps (λ n. (n ≤ terms.now.limit) × (n ≤ 16777216))) }
    ensures few { IfOk result (λ steps.
        IfSome steps (AreFew used items.old.items codes.now items.new.items)) }
    ensures none { IfOk result (λ steps.
        IfSome steps (λ n. has_refused terms.now.policy terms.now.font codes.now ≡ false)) }
    ensures reached { IfOk result (λ steps. has_refused terms.now.policy terms.now.font codes.now ≡ false →
        Reaches (onward terms.now.font terms.now.limit (setting used items.old.items)
        (portions_in right terms.now.font codes.now)) steps items.new.items) }
{
    let mut rest = codes;
    let mut so_far = used;
    while let Some((run, cut, behind)) = first_cut(terms.font(), rest) {
        let Some(item) = item_at(terms, cut) else {
            return Ok(None);
        };
        let Some(steps) = add_run(terms, run, cut == b' ', so_far, items)? else {
            return Ok(None);
        };
        items.push(item)?;
        so_far = steps;
        rest = behind;
    }
    add_run(terms, rest, right, so_far, items)
}
