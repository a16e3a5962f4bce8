ghost use Rattle.std.specs.Prelude.{◌≡◌};
ghost use Rattle.tfm_tables.specs.Character.{exists as exists_in};
ghost use Rattle.tfm_tables.specs.Program.{program_of, right_code_of};
ghost use Rattle.lig_kern.specs.Matching.{action_between};
ghost use Rattle.lig_kern.specs.Rewriting.{character_width};

use crate::{Action, Symbol, first_match};
use std::ops::Deref;
use tfm_tables::Font;

/// A source of the data of a font that setting a run reads. A source may hold any data: the methods return
/// the values of a font if the source is one of that font.
pub trait WordFont {
    ghost use Rattle.tfm_tables.specs.Font.{FontValue};

    /// This is a source of the data of the font with that value.
    ghost is_of: { Self → FontValue → Type 0 };

    /// Returns whether the font has a character with this code.
    fn exists(&self, code: u8) -> bool
        ensures { (value : FontValue) → is_of self.now value → result ≡ exists_in value.words code };

    /// Returns the width of a character in scaled points (sp); 0 for a code that doesn't exist.
    fn code_width(&self, code: u8) -> i32
        ensures { (value : FontValue) → is_of self.now value → result ≡ character_width value code };

    /// Returns the action of the lig/kern program between two neighbours, as `first_match` does.
    fn action(&self, left: Symbol, right: Symbol) -> Option<Action>
        ensures { (value : FontValue) → is_of self.now value → result ≡ action_between value left right };

    /// Returns the code of the right boundary character, if the font has one.
    fn right_code(&self) -> Option<u8>
        ensures { (value : FontValue) → is_of self.now value → result ≡ right_code_of (program_of value.words) };
}

impl WordFont for Font {
    ghost is_of = { λ font value. font ≡ value };

    fn exists(&self, code: u8) -> bool {
        self.deref().exists(code)
    }

    fn code_width(&self, code: u8) -> i32 {
        self.width(code)
    }

    fn action(&self, left: Symbol, right: Symbol) -> Option<Action> {
        first_match(self, left, right)
    }

    fn right_code(&self) -> Option<u8> {
        self.right_boundary()
    }
}
