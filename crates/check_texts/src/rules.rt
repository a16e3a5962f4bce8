//! The warning of a code, of an instruction, and of a piece of a recipe.
ghost use Rattle.std.specs.Prelude.{◌≡◌, ◌*◌, ◌<◌};
ghost use Rattle.std.specs.Option.{option_and_then};
ghost use Rattle.tfm_words.specs.CountFaults.{first_fault};
ghost use Rattle.tfm_words.specs.declared.table.Table.TheVariants.{Exten, LigKern};
ghost use Rattle.tfm_tables.specs.Table.{entries_of};
ghost use Rattle.check_texts.specs.Warnings.{code_warning as code_warning_of, info_of, is_in_circle as is_in_circle_of, is_number, is_operation, larger_of, piece_warning as piece_warning_of, step_rows, step_warning as step_warning_of};

use crate::Warning;
use tfm_tables::{Font, Step};

/// Returns the char_info word of a code, or four zero bytes if the code isn't from bc to ec.
#[tactic(auto, unfolding(crate::specs::Warnings::info_of))]
fn info(font: &Font, code: u8) -> [u8; 4]
    ensures { result ≡ info_of font.now.words code }
{
    font.char_info(code).unwrap_or([0; 4])
}

/// Returns the larger character of a code, if there is a code and it has one.
#[tactic(auto, unfolding(crate::specs::Warnings::larger_of))]
fn larger(font: &Font, code: Option<u8>) -> Option<u8>
    ensures { result ≡ option_and_then (larger_of font.now.words) code }
{
    let [_, _, tag, larger] = info(font, code?);
    if tag % 4 == 2 { Some(larger) } else { None }
}

/// Returns whether the charlist of a code leads back to it.
#[tactic(auto, using(crate::proofs::RangeLemmas::any), unfolding(crate::specs::Warnings::is_in_circle))]
fn is_in_circle(font: &Font, code: u8) -> bool
    ensures { result ≡ is_in_circle_of font.now.words code }
{
    let (mut at, mut found) = (Some(code), false);
    for _steps in 0..256u16 {
        at = larger(font, at);
        found |= is_code(at, code);
    }
    found
}

/// Returns whether there is a code, and it is this one.
fn is_code(found: Option<u8>, code: u8) -> bool
    ensures { result ≡ is_number found code }
{
    found == Some(code)
}

/// Returns the warning of a code, if it has one.
#[tactic(auto, unfolding(crate::specs::Warnings::code_warning, crate::specs::Warnings::code_rows))]
pub(crate) fn code_warning(font: &Font, code: u8) -> Option<Warning>
    ensures { result ≡ code_warning_of font.now.words code }
{
    let [_, _, tag, remainder] = info(font, code);
    let (larger, recipe) = (remainder, remainder);
    let is_listed = tag % 4 == 2;
    if is_listed && font.char_info(larger).is_none() {
        return Some(Warning::LargerOutside { code, larger });
    }
    if is_in_circle(font, code) {
        return Some(Warning::Circle(code));
    }
    if is_listed && font.exists(code) && !font.exists(larger) {
        return Some(Warning::LargerMissing { code, larger });
    }
    if tag % 4 == 3 && usize::from(recipe) >= font.recipes() {
        return Some(Warning::RecipeMissing { code, recipe });
    }
    None
}

/// Returns the warning of the instruction at address `i`, if it has one.
#[tactic(auto, unfolding(crate::specs::Warnings::step_warning))]
pub(crate) fn step_warning(font: &Font, i: usize) -> Option<Warning>
    requires { i < entries_of font.now.words LigKern }
    ensures { result ≡ step_warning_of font.now.words i }
{
    warning_of_step(i, font.step(i))
}

/// Returns the warning of this instruction at address `i`.
#[tactic(auto, unfolding(crate::specs::Warnings::step_rows))]
fn warning_of_step(i: usize, step: Step) -> Option<Warning>
    ensures { result ≡ first_fault (step_rows i step) }
{
    let op = step.op;
    if step.skip <= 128 && op < 128 && !is_listed(op) {
        return Some(Warning::Operation { index: i, op });
    }
    None
}

/// Returns whether an op code below 128 is that of an operation.
fn is_listed(op: u8) -> bool
    ensures { result ≡ is_operation op }
{
    matches!(op, 0..=3 | 5..=7 | 11)
}

/// Returns the warning of byte `k` of the recipes, if it has one.
#[tactic(auto, unfolding(crate::specs::Warnings::piece_warning, crate::specs::Warnings::piece_rows))]
pub(crate) fn piece_warning(font: &Font, k: usize) -> Option<Warning>
    requires { k < 4 * entries_of font.now.words Exten }
    ensures { result ≡ piece_warning_of font.now.words k }
{
    let recipe = k / 4;
    let code = font.recipe(recipe)[k % 4];
    if (k % 4 == 3 || code != 0) && !font.exists(code) {
        return Some(Warning::PieceMissing { recipe, code });
    }
    None
}
