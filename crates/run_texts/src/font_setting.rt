//! Reads a font, and pairs the sources of a batch with the settings for it.
ghost use Rattle.std.specs.Prelude.{◌≡◌, ◌⊎◌, Err, Some, IfErr, IfOk, vec_len};
ghost use Rattle.std.specs.Arc.{arc_value};
ghost use Rattle.std.specs.List.{AllZip};
ghost use Rattle.tfm_tables.specs.declared.fault.FontFault.{FontFault as Refusal};
ghost use Rattle.tfm_tables.specs.Acceptance.{font_fault_of};
ghost use Rattle.tfm_tables.specs.Font.{FontValue, IsFontOf, IsRefusalOf};
ghost use Rattle.run_texts.specs.Setting.{HasTerms};

use crate::ToolFault;
use set_line::{Limit, Policy, Terms};
use std::alloc::{AllocError, Global};
use std::sync::Arc;
use tfm_tables::{Font, FontFault};
use tfm_words::Size;

/// The bytes and the size of a font, and the limit and the policy of its lines. [`terms_of`] makes settings
/// from them.
#[derive(Drop)]
pub struct FontSetting<'a> {
    /// The bytes of the font.
    pub bytes: &'a [u8],
    /// The size at which the font is read; `None` means its design size.
    pub size: Option<Size>,
    /// The largest number of steps for a line.
    pub limit: Limit,
    /// The missing-character policy.
    pub policy: Policy,
}

/// Reads a font, and returns settings that the lines of many sources may share. The error is that of
/// `Font::read`, or `OutOfMemory` if an allocation fails after it.
pub fn terms_of(alloc: Global, font: &FontSetting<'_>) -> Result<Arc<Terms>, FontFault>
    ensures terms { IfOk result (λ terms. (f : FontValue) × IsFontOf font.now.bytes.now font.now.size f
        × (arc_value terms ≡ record { font = f; limit = font.now.limit; policy = font.now.policy })) }
    ensures fault { IfErr result (IsRefusalOf font.now.bytes.now) }
{
    let accepted = Font::read(alloc, font.bytes, font.size)?;
    match Arc::new(alloc, Terms::new(accepted, font.limit, font.policy)) {
        Ok(terms) => Ok(terms),
        Err(_) => Err(FontFault::OutOfMemory),
    }
}

/// Returns the sources, or their names, in order, each paired with these settings. Fails if an allocation
/// fails.
pub fn with_terms<S: Drop>(
    alloc: Global,
    sources: Vec<S>,
    terms: &Arc<Terms>,
) -> Result<Vec<(S, Arc<Terms>)>, AllocError>
    ensures terms { IfOk result (λ pairs.
        AllZip (HasTerms (arc_value terms.now)) sources.items pairs.items) }
    ensures count { IfOk result (λ pairs. vec_len pairs ≡ vec_len sources) }
{
    let mut pairs = Vec::new(alloc);
    for source in sources {
        let terms = terms.clone()?;
        pairs.push((source, terms))?;
    }
    Ok(pairs)
}

/// Reads the font, and returns the sources in order, each paired with its settings. The error is `Font`,
/// with the first font error, exactly if the font isn't accepted; otherwise it is `OutOfMemory`.
pub(crate) fn with_font<S: Drop>(
    alloc: Global,
    font: &FontSetting<'_>,
    sources: Vec<S>,
) -> Result<Vec<(S, Arc<Terms>)>, ToolFault>
    ensures terms { IfOk result (λ pairs. (f : FontValue) × IsFontOf font.now.bytes.now font.now.size f
        × AllZip (HasTerms (record { font = f; limit = font.now.limit; policy = font.now.policy }))
        sources.items pairs.items) }
    ensures count { IfOk result (λ pairs. vec_len pairs ≡ vec_len sources) }
    ensures font { (f : Refusal) → result ≡ Err (ToolFault.Font f) → font_fault_of font.now.bytes.now ≡ Some f }
    ensures refused { (f : Refusal) → font_fault_of font.now.bytes.now ≡ Some f
        → result ≡ Err (ToolFault.Font f) }
    ensures fault { IfErr result (λ fault. (fault ≡ ToolFault.OutOfMemory)
        ⊎ ((f : Refusal) × (fault ≡ ToolFault.Font f))) }
{
    let terms = terms_of(alloc, font)?;
    Ok(with_terms(alloc, sources, &terms)?)
}
