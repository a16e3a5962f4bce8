//! The numbers of fonts that `check` counts, and their summary.
ghost use Rattle.std.specs.Prelude.{◌≡◌, ◌+◌, ◌∷◌, ◌++◌, ℕ, [], List, cond, string_bytes, IfOk};
ghost use Rattle.check_texts.specs.Tallies.{counted, fonts_noun, summary_end as summary_end_of, summary_line as summary_line_of, tally_of, warned_words};
ghost use Rattle.check_texts.specs.Verdicts.{Row};

use crate::Verdict;
use font_texts::OutputFormat;
use std::alloc::{AllocError, Global};

/// The numbers of fonts that were checked. They saturate at 2^64 - 1.
#[derive(Clone, Copy)]
pub struct Tally {
    /// The number of all fonts.
    pub fonts: u64,
    /// The number of fonts that are accepted, and that TeX doesn't refuse.
    pub accepted: u64,
    /// The number of accepted fonts with warnings; without `--strict` it is 0.
    pub warned: u64,
    /// The number of fonts that are refused, by a font error or by TeX.
    pub refused: u64,
    /// The number of fonts that weren't read.
    pub unread: u64,
    /// The number of fonts that aren't accepted without any warning.
    pub reported: u64,
}

/// Returns this count, or one more.
fn counting(count: u64, one_more: bool) -> u64
    ensures { result ≡ counted (count + cond one_more 1 0) }
{
    count.saturating_add(u64::from(one_more))
}

impl Tally {
    /// Returns the numbers of no fonts.
    pub fn new() -> Self
        ensures { result ≡ tally_of [] }
    {
        Tally {
            fonts: 0,
            accepted: 0,
            warned: 0,
            refused: 0,
            unread: 0,
            reported: 0,
        }
    }

    /// Returns these numbers with one font more, which has this verdict.
    pub fn with(self, verdict: &Verdict) -> Self
        ensures { (rows : List Row) (name : List ℕ) → self ≡ tally_of rows
            → result ≡ tally_of (rows ++ (name, verdict.now) ∷ []) }
    {
        let (accepted, unread) = (verdict.is_accepted(), verdict.is_unread());
        let plain = verdict.is_plain();
        Tally {
            fonts: counting(self.fonts, true),
            accepted: counting(self.accepted, accepted),
            warned: counting(self.warned, accepted && !plain),
            refused: counting(self.refused, !(accepted || unread)),
            unread: counting(self.unread, unread),
            reported: counting(self.reported, !plain),
        }
    }
}

/// Returns the noun for this number of fonts.
fn noun_of(count: u64) -> &'static str
    ensures { result.now ≡ fonts_noun count }
{
    if count == 1 { "font" } else { "fonts" }
}

/// Returns how many accepted fonts have warnings, for the line of `--summary`; nothing for 0.
fn warned_text(alloc: Global, warned: u64) -> Result<String, AllocError>
    ensures { IfOk result (λ text. string_bytes text ≡ warned_words warned) }
{
    if warned == 0 {
        return Ok(String::new(alloc));
    }
    format!(in alloc; " ({warned} with warnings)")
}

/// Returns the end of the line of `--summary`, by the number of fonts that weren't read.
fn summary_end(alloc: Global, unread: u64) -> Result<String, AllocError>
    ensures { IfOk result (λ text. string_bytes text ≡ summary_end_of unread) }
{
    if unread == 0 {
        return String::from_str(alloc, " refused\n");
    }
    format!(in alloc; " refused, {unread} not read\n")
}

/// Returns the line of `--summary` in a format. Fails if an allocation fails.
pub fn summary_line(alloc: Global, format: OutputFormat, tally: Tally) -> Result<String, AllocError>
    ensures { IfOk result (λ line. string_bytes line ≡ summary_line_of format tally) }
{
    let Tally {
        fonts,
        accepted,
        warned,
        refused,
        unread,
        ..
    } = tally;
    match format {
        OutputFormat::Text => {
            let noun = noun_of(fonts);
            let warned = warned_text(alloc, warned)?;
            let end = summary_end(alloc, unread)?;
            format!(in alloc; "{fonts} {noun}: {accepted} accepted{warned}, {refused}{end}")
        }
        OutputFormat::Json => {
            format!(in alloc;
                "{{\"fonts\":{fonts},\"accepted\":{accepted},\"warned\":{warned},\"refused\":{refused},\"unread\":{unread}}}\n"
            )
        }
    }
}
