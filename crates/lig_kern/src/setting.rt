//! Sets one run.
ghost use Rattle.std.specs.Prelude.{◌≡◌, ◌+◌, ◌^◌, ◌<◌, length, Err, Some, IfOk, IfSome, OnErr, MatchOption};
ghost use Rattle.tfm_words.specs.Appending.{StaysInFront};
ghost use Rattle.tfm_tables.specs.Font.{FontValue};
ghost use Rattle.lig_kern.specs.declared.word_fault.WordFault.TheVariants.{TooManySteps as TooMany};
ghost use Rattle.lig_kern.specs.Places.{AreAppended, has_end, placed_run, run_symbols};
ghost use Rattle.lig_kern.specs.Result.{HasFew, HasNoResultFrom, HasNoResultWithin, IsAppendedResult};

use crate::ahead::SymbolsAhead;
use crate::beginning::Beginning;
use crate::walking::{push_symbol, walk, walk_plainly};
use crate::{Ends, Item, RunItem, WordFault, WordFont};
use std::alloc::AllocError;
use tfm_tables::Font;

/// Returns whether the right boundary follows a run: it is requested, and the font has a right boundary
/// character.
fn right_stands<F: WordFont>(font: &F, right: bool) -> bool
    ensures { (value : FontValue) → F.is_of font.now value → result ≡ has_end value right }
{
    right && font.right_code().is_some()
}

/// Makes all steps of a run, and then appends the item of its last symbol. Returns the number of steps,
/// or `None` if `steps_left` steps don't reach the end.
#[tactic(auto, using(tfm_words::proofs::AppendingLemmas::fronts))]
fn run_steps<F: WordFont, O: RunItem>(
    font: &F,
    codes: &[u8],
    ends: Ends,
    steps_left: u32,
    out: &mut Vec<O>,
) -> Result<Option<u32>, AllocError>
    requires { ends.offset + length codes.now < 2 ^ 64 }
    ensures few { IfOk result (λ steps. IfSome steps (λ n. HasFew n steps_left out.old.items out.new.items)) }
    ensures front { StaysInFront out.old.items out.new.items }
    ensures ended { (value : FontValue) → F.is_of font.now value → IfOk result (λ steps. MatchOption steps
        (HasNoResultFrom value (run_symbols value codes.now ends) steps_left)
        (AreAppended O.made value (placed_run value codes.now ends) steps_left out.old.items out.new.items)) }
{
    let Some(beginning) = Beginning::new(codes, ends) else {
        return Ok(Some(0));
    };
    let reached = walk_plainly(font, beginning, steps_left, out)?;
    let passed = reached.steps as usize;
    let stands = right_stands(font, ends.right);
    if passed == beginning.codes.len() && beginning.hyphen.is_none() && !stands {
        push_symbol(font, reached.current, out)?;
        return Ok(Some(reached.steps));
    }
    let mut ahead = SymbolsAhead::new(
        *out.allocator(),
        &beginning.codes[passed..],
        beginning.at + passed,
        beginning.hyphen,
        stands,
    );
    walk(font, reached, &mut ahead, steps_left, out)
}

/// Sets one run of character codes with any source of the data of a font as `set_word` does, with the ends that
/// the run has, and appends its items to `out`. A run without the left boundary begins with its first
/// character; a run without a character and without the left boundary has no item and takes no step.
///
/// Each item comes from bytes of the text from which the codes are taken. A character of the run comes from its
/// own byte, and a character that a ligature operation inserts from the bytes of the neighbours that the
/// operation deletes. The hyphen has an empty place at the end of the codes, and a kern and a character for which
/// nothing is deleted have an empty place before what follows.
///
/// The number of items is bounded by the number of steps for every `font`; the items are those of a
/// font if `font` is a source of its data. The errors are those of `set_word`.
pub fn set_run_of<F: WordFont, O: RunItem>(
    font: &F,
    codes: &[u8],
    ends: Ends,
    steps_left: u32,
    out: &mut Vec<O>,
) -> Result<u32, WordFault>
    requires { ends.offset + length codes.now < 2 ^ 64 }
    ensures few { IfOk result (λ n. HasFew n steps_left out.old.items out.new.items) }
    ensures set { (value : FontValue) → F.is_of font.now value → IfOk result
        (AreAppended O.made value (placed_run value codes.now ends) steps_left out.old.items out.new.items) }
    ensures too_many { (value : FontValue) → F.is_of font.now value → result ≡ Err TooMany
        → HasNoResultFrom value (run_symbols value codes.now ends) steps_left }
    ensures refused { OnErr result (out.new.items ≡ out.old.items) }
{
    let before = out.len();
    let fault = match run_steps(font, codes, ends, steps_left, out) {
        Ok(Some(steps)) => return Ok(steps),
        Ok(None) => WordFault::TooManySteps,
        Err(_) => WordFault::OutOfMemory,
    };
    out.truncate(before);
    Err(fault)
}

/// Sets one run of character codes with the lig/kern program of a font (The METAFONTbook, Appendix F),
/// and appends the characters and kerns of the result to `out`. The left boundary precedes the run; the
/// right boundary follows it if `right` is true and the font has a right boundary character. Returns
/// the number of steps: one for each ligature, each kern, and each move to the next element without
/// either. The working memory comes from the allocator of `out`.
///
/// Every list of codes is accepted: an empty run consists of its boundaries alone, and a code that
/// doesn't exist in the font has width 0.
///
/// The error is `TooManySteps` only if no final list is reached within `steps_left` steps. It is
/// `OutOfMemory` if allocation failed; this error is possible in place of either other outcome. After
/// an error `out` is unchanged.
pub fn set_word(
    font: &Font,
    word: &[u8],
    right: bool,
    steps_left: u32,
    out: &mut Vec<Item>,
) -> Result<u32, WordFault>
    ensures set { IfOk result
        (IsAppendedResult font.now word.now right steps_left out.old.items out.new.items) }
    ensures too_many { result ≡ Err TooMany → HasNoResultWithin font.now word.now right steps_left }
    ensures refused { OnErr result (out.new.items ≡ out.old.items) }
{
    let ends = Ends {
        offset: 0,
        left: true,
        hyphen: None,
        right,
    };
    set_run_of(font, word, ends, steps_left, out)
}
