//! The options of a call that sets lines, and the text that it sets.
ghost use Rattle.std.specs.Prelude.{◌≤◌, IfOk, IfErr, MatchOption};
ghost use Rattle.tfmset_c.specs.Reading.{IsDenial};
ghost use Rattle.tfmset_c.specs.Options.{IsOutOfRange, IsReadAs, IsSetWith};

use crate::reading::{Denial, MOST_SIZE, read_font};
use set_line::{Limit, Policy, Terms};
use std::alloc::Global;

/// How the lines of a call are set. A struct of zeros states the defaults.
#[repr(C)]
#[derive(Clone, Copy, Debug, PartialEq, Eq)]
pub struct TfmsetOptions {
    /// The steps of all lines together after which no further line is set; 0 for 2^64 - 1.
    pub call_limit: u64,
    /// The size of the font in sp, at most 134,217,727; 0 for the design size.
    pub size: u32,
    /// The largest number of steps of a line, at most 16,777,216; 0 for 1,048,576.
    pub limit: u32,
    /// 0: a line with a missing character is refused. 1: the missing character is skipped.
    pub policy: u32,
    /// 1: one carriage return before a line feed belongs to the line ending. 0: it is a byte of the line.
    pub crlf: u32,
}

/// Options in range, with the values that zeros stand for.
#[derive(Clone, Copy)]
pub struct Settings {
    /// The size of the font in sp; 0 for the design size.
    pub size: u32,
    /// The largest number of steps of a line.
    pub limit: Limit,
    policy: Policy,
    /// The steps of all lines together after which no further line is set.
    pub call_limit: u64,
    /// Whether lines may end with CR LF.
    pub crlf: bool,
}

/// A text, and how its lines are set.
#[derive(Clone, Copy)]
pub struct Text<'a> {
    /// The settings of each line.
    pub terms: &'a Terms,
    /// The bytes of the text.
    pub bytes: &'a [u8],
    /// Whether lines may end with CR LF.
    pub crlf: bool,
    /// The steps of all lines together after which no further line is set.
    pub call_limit: u64,
}

impl TfmsetOptions {
    /// Returns these options as settings, or `None` if one of them is out of range.
    #[tactic(auto, unfolding(crate::specs::Options::limit_of, crate::specs::Options::call_limit_of, crate::specs::Options::policy_of))]
    pub(crate) fn in_range(&self) -> Option<Settings>
        ensures { MatchOption result (IsOutOfRange self.now)
            (λ settings. IsReadAs self.now settings × (IsOutOfRange self.now → ⊥)) }
    {
        if self.size > MOST_SIZE || self.policy > 1 || self.crlf > 1 {
            return None;
        }
        let limit = Limit::new(if self.limit == 0 {
            1_048_576
        } else {
            self.limit
        })?;
        Some(Settings {
            size: self.size,
            limit,
            policy: if self.policy == 0 {
                Policy::Refuse
            } else {
                Policy::Skip
            },
            call_limit: if self.call_limit == 0 {
                u64::MAX
            } else {
                self.call_limit
            },
            crlf: self.crlf == 1,
        })
    }
}

/// Reads the font in these bytes, and returns the settings of a line with it. Returns a `Denial` if the font is
/// refused, or an allocation fails.
#[tactic(auto, unfolding(crate::specs::Options::terms_at))]
pub fn terms_of(alloc: Global, bytes: &[u8], settings: Settings) -> Result<Terms, Denial>
    requires { settings.size ≤ 134217727 }
    ensures ok { IfOk result (IsSetWith bytes.now settings) }
    ensures denied { IfErr result (IsDenial bytes.now) }
{
    let font = read_font(alloc, bytes, settings.size)?;
    Ok(Terms::new(font, settings.limit, settings.policy))
}
