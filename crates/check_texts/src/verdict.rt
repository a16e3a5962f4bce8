ghost use Rattle.std.specs.Prelude.{◌≡◌, IfErr, IfOk, None};
ghost use Rattle.std.specs.List.{find};
ghost use Rattle.tfm_tables.specs.Acceptance.{font_fault_of};
ghost use Rattle.tfm_tables.specs.Font.{IsRefusalOf};
ghost use Rattle.check_texts.specs.Texts.{is_refusal};
ghost use Rattle.check_texts.specs.Verdicts.{AreWarningsOf, IsVerdictOf, is_accepted as is_accepted_verdict, is_plain as is_plain_verdict, is_unread as is_unread_verdict};

use crate::{Warning, strict_warnings};
use std::alloc::{AllocError, Global};
use tfm_tables::{FontFault, FontMetrics};

/// The result of the check of a font.
#[derive(Drop)]
pub enum Verdict {
    /// The font is accepted, and has these warnings; without `--strict` there are none.
    Accepted(Vec<Warning>),
    /// The font is refused; this is its first font error.
    Refused(FontFault),
    /// The bytes of the font weren't read.
    NotRead,
}

impl Verdict {
    /// Reads a font, and returns the verdict on it. An accepted font has its warnings if `strict` is set. Fails only if
    /// the font has no font error and an allocation failed.
    pub fn check(alloc: Global, bytes: &[u8], strict: bool) -> Result<Verdict, AllocError>
        ensures verdict { IfOk result (IsVerdictOf strict bytes.now) }
        ensures memory { IfErr result (λ _. font_fault_of bytes.now ≡ None) }
    {
        match warnings_of(alloc, bytes, strict) {
            Ok(warnings) => Ok(Verdict::Accepted(warnings)),
            Err(FontFault::OutOfMemory) => Err(AllocError),
            Err(fault) => Ok(Verdict::Refused(fault)),
        }
    }

    /// Returns whether the font is accepted, and TeX doesn't refuse it.
    pub fn is_accepted(&self) -> bool
        ensures { result ≡ is_accepted_verdict self.now }
    {
        match self {
            Verdict::Accepted(warnings) => first_refusal(warnings.as_slice()).is_none(),
            _ => false,
        }
    }

    /// Returns whether the font is accepted and has no warnings.
    pub fn is_plain(&self) -> bool
        ensures { result ≡ is_plain_verdict self.now }
    {
        match self {
            Verdict::Accepted(warnings) => warnings.is_empty(),
            _ => false,
        }
    }

    /// Returns whether the font wasn't read.
    pub fn is_unread(&self) -> bool
        ensures { result ≡ is_unread_verdict self.now }
    {
        matches!(self, Verdict::NotRead)
    }
}

/// Reads a font, at its design size, since no rule for fonts depends on the size. Returns its warnings if `strict` is
/// set, otherwise none. The error is the first font error, or `OutOfMemory` if an allocation fails.
fn warnings_of(alloc: Global, bytes: &[u8], strict: bool) -> Result<Vec<Warning>, FontFault>
    ensures accepted { IfOk result (λ _. font_fault_of bytes.now ≡ None) }
    ensures warnings { IfOk result (λ found. AreWarningsOf strict bytes.now found.items) }
    ensures fault { IfErr result (IsRefusalOf bytes.now) }
{
    if strict {
        return strict_warnings(alloc, bytes);
    }
    FontMetrics::read(alloc, bytes, None)?;
    Ok(Vec::new(alloc))
}

/// Returns the first of these warnings for which TeX refuses the font.
pub(crate) fn first_refusal(warnings: &[Warning]) -> Option<Warning>
    ensures { result ≡ find is_refusal warnings.now }
{
    warnings.iter().copied().find(|one| one.is_refusal())
}
