ghost use Rattle.std.specs.Prelude.{◌≡◌, ℕ, ◌*◌, ◌++◌, IfErr, IfOk, None, OnOk, Option};
ghost use Rattle.tfm_words.specs.declared.table.Table.TheVariants.{Exten, LigKern};
ghost use Rattle.tfm_tables.specs.Acceptance.{font_fault_of, words_of};
ghost use Rattle.tfm_tables.specs.Font.{IsRefusalOf};
ghost use Rattle.tfm_tables.specs.Table.{entries_of};
ghost use Rattle.check_texts.specs.Warnings.{code_warning as code_warning_of, endless_warnings, listed, piece_warning as piece_warning_of, step_warning as step_warning_of, table_warnings, warnings_below, warnings_of};

use crate::rules::{code_warning, piece_warning, step_warning};
use crate::{Warning, endless_pair};
use std::alloc::{AllocError, Global};
use tfm_tables::{Font, FontFault};

/// Reads a font, and returns its warnings: in the order of the file those of its codes, instructions and recipes,
/// that of bytes after the last word, and then that of a pair for which the lig/kern program never ends. The error
/// is that of `Font::read`, or `OutOfMemory` if an allocation fails after it.
pub fn strict_warnings(alloc: Global, bytes: &[u8]) -> Result<Vec<Warning>, FontFault>
    ensures accepted { IfOk result (λ _. font_fault_of bytes.now ≡ None) }
    ensures warnings { IfOk result (λ found. (pair : Option (Option ℕ × ℕ))
        × (found.items ≡ warnings_of bytes.now ++ endless_warnings pair)) }
    ensures fault { IfErr result (IsRefusalOf bytes.now) }
{
    let font = Font::read(alloc, bytes, None)?;
    match warnings_in(alloc, bytes, &font) {
        Ok(found) => Ok(found),
        Err(_) => Err(FontFault::OutOfMemory),
    }
}

/// Returns the warnings of a font, which these bytes contain.
#[tactic(auto, using(crate::proofs::RangeLemmas::joined), unfolding(crate::specs::Warnings::warnings_of))]
fn warnings_in(alloc: Global, bytes: &[u8], font: &Font) -> Result<Vec<Warning>, AllocError>
    requires { font.now.words ≡ words_of bytes.now }
    ensures { IfOk result (λ found. (pair : Option (Option ℕ × ℕ))
        × (found.items ≡ warnings_of bytes.now ++ endless_warnings pair)) }
{
    let mut found = Vec::new(alloc);
    push_tables(&mut found, font)?;
    if font.words().len() < bytes.len() {
        found.push(Warning::ExtraBytes)?;
    }
    match endless_pair(alloc, font)? {
        Some((Some(left), right)) => found.push(Warning::Endless { left, right })?,
        Some((None, right)) => found.push(Warning::EndlessAtLeft(right))?,
        None => {}
    }
    Ok(found)
}

/// Appends the warnings of the tables of a font.
#[tactic(auto, using(crate::proofs::RangeLemmas::joined), unfolding(crate::specs::Warnings::table_warnings))]
fn push_tables(found: &mut Vec<Warning>, font: &Font) -> Result<(), AllocError>
    ensures { OnOk result (found.new.items ≡ found.old.items ++ table_warnings font.now.words) }
{
    push_codes(found, font)?;
    push_steps(found, font)?;
    push_pieces(found, font)
}

/// Appends the warning, if there is one.
fn push_found(found: &mut Vec<Warning>, warning: Option<Warning>) -> Result<(), AllocError>
    ensures { OnOk result (found.new.items ≡ found.old.items ++ listed warning) }
{
    if let Some(warning) = warning {
        found.push(warning)?;
    }
    Ok(())
}

/// Appends the warnings of the codes.
#[tactic(auto, using(crate::proofs::RangeLemmas::more))]
fn push_codes(found: &mut Vec<Warning>, font: &Font) -> Result<(), AllocError>
    ensures { OnOk result (found.new.items ≡ found.old.items ++ warnings_below (code_warning_of font.now.words) 256) }
{
    for code in 0..256u16 {
        push_found(found, code_warning(font, code as u8))?;
    }
    Ok(())
}

/// Appends the warnings of the instructions.
#[tactic(auto, using(crate::proofs::RangeLemmas::more))]
fn push_steps(found: &mut Vec<Warning>, font: &Font) -> Result<(), AllocError>
    ensures { OnOk result (found.new.items ≡ found.old.items ++ warnings_below (step_warning_of font.now.words) (entries_of font.now.words LigKern)) }
{
    for i in 0..font.steps() {
        push_found(found, step_warning(font, i))?;
    }
    Ok(())
}

/// Appends the warnings of the pieces of recipes.
#[tactic(auto, using(crate::proofs::RangeLemmas::more))]
fn push_pieces(found: &mut Vec<Warning>, font: &Font) -> Result<(), AllocError>
    ensures { OnOk result (found.new.items ≡ found.old.items ++ warnings_below (piece_warning_of font.now.words) (4 * entries_of font.now.words Exten)) }
{
    for k in 0..4 * font.recipes() {
        push_found(found, piece_warning(font, k))?;
    }
    Ok(())
}
