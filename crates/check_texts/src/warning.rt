ghost use Rattle.std.specs.Prelude.{◌≡◌, Some};
ghost use Rattle.check_texts.specs.Texts.{is_refusal as is_refusal_of, warning_text};

use std::fmt;

/// What TeX or TFtoPL reports about an accepted font, with its place. Instructions and recipes are
/// counted from 0.
#[derive(Clone, Copy)]
pub enum Warning {
    /// The larger character of this code isn't from bc to ec. TeX refuses the font (tex.web, section 570).
    LargerOutside { code: u8, larger: u8 },
    /// The charlist of this code leads back to it. TeX refuses the font (tex.web, section 570).
    Circle(u8),
    /// The larger character of this character doesn't exist (tftopl.web, section 84).
    LargerMissing { code: u8, larger: u8 },
    /// The font has no recipe with the index of this code. TeX refuses the font (tex.web, section 569).
    RecipeMissing { code: u8, recipe: u8 },
    /// The op code of this instruction isn't that of an operation (tftopl.web, section 77).
    Operation { index: usize, op: u8 },
    /// This character of a recipe doesn't exist. TeX refuses the font (tex.web, section 574).
    PieceMissing { recipe: usize, code: u8 },
    /// The file has bytes after the words of the font (tftopl.web, section 20).
    ExtraBytes,
    /// The lig/kern program never ends for these neighbours (tftopl.web, sections 88 to 95).
    Endless { left: u8, right: u8 },
    /// The lig/kern program never ends for the left boundary and this neighbour.
    EndlessAtLeft(u8),
}

impl Warning {
    /// Returns whether TeX refuses a font with this warning.
    pub fn is_refusal(self) -> bool
        ensures { result ≡ is_refusal_of self }
    {
        matches!(
            self,
            Warning::LargerOutside { .. }
                | Warning::Circle(_)
                | Warning::RecipeMissing { .. }
                | Warning::PieceMissing { .. }
        )
    }
}

impl fmt::Display for Warning {
    ghost output = { λ warning. Some (warning_text warning) };

    #[tactic(auto, unfolding(crate::specs::Texts::warning_text))]
    fn fmt<W: fmt::Write>(&self, f: &mut fmt::Formatter<W>) -> fmt::Result {
        match self {
            Warning::LargerOutside { code, larger } => {
                write!(f, "character {code}, not from bc to ec: {larger}")
            }
            Warning::Circle(code) => write!(f, "character {code}, charlist is a circle"),
            Warning::LargerMissing { code, larger } => {
                write!(f, "character {code}, larger one missing: {larger}")
            }
            Warning::RecipeMissing { code, recipe } => {
                write!(f, "character {code}, recipe missing: {recipe}")
            }
            Warning::Operation { index, op } => {
                write!(f, "instruction {index}, unlisted op code: {op}")
            }
            Warning::PieceMissing { recipe, code } => {
                write!(f, "recipe {recipe}, character missing: {code}")
            }
            Warning::ExtraBytes => f.write_str("bytes after the last word"),
            Warning::Endless { left, right } => write!(f, "program never ends: {left} {right}"),
            Warning::EndlessAtLeft(right) => write!(f, "program never ends: left {right}"),
        }
    }
}
