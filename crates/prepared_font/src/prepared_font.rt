//! A table that was opened.
ghost use Rattle.std.specs.Prelude.{◌≡◌, ◌+◌, ◌*◌, ◌^◌, ◌<◌, ◌≤◌, ℕ, length, IfSome, MatchOption, Some};
ghost use Rattle.std.specs.List.{slice_get};
ghost use Rattle.tfm_words.specs.declared.table.Table.TheVariants.{Kern, LigKern};
ghost use Rattle.tfm_tables.specs.declared.left_side.LeftSide.TheVariants.{Boundary, Char};
ghost use Rattle.tfm_tables.specs.Table.{entries_of};
ghost use Rattle.tfm_tables.specs.Font.{FontValue};
ghost use Rattle.tfm_tables.specs.Measure.{kern_at, parameter_of};
ghost use Rattle.tfm_tables.specs.Program.{address_between, address_of, program_of, start_of, step_at};
ghost use Rattle.tfm_tables.specs.Acceptance.{kern_index_of};
ghost use Rattle.lig_kern.specs.Matching.{action_between, action_of, match_of};
ghost use Rattle.prepared_font.specs.Layout.{IsPreparedFrom, IsWhole, number_at, size_in};

use crate::layout::{
    KERNS, LEFT, LENGTH, MAGIC, NO_CHARACTER, PROGRAM, RIGHT, SIZE, SPACE, STATES, STEPS, VERSION,
    WIDTHS,
};
use lig_kern::{Action, Symbol, WordFont, ligature};
use std::marker::Model;
use tfm_tables::Step;
use tfm_words::{FixWord, word_at};

/// The table of a font in bytes of the caller. It is a source of the data of every font of which the bytes
/// are the table. In contracts it is these bytes.
#[derive(Drop)]
pub struct PreparedFont<'a> {
    bytes: &'a [u8],
    steps: usize,
    kerns: usize,
}

impl<'a> Model for PreparedFont<'a> {
    ghost use Rattle.std.specs.Prelude.{List, ℕ};
    ghost use Rattle.prepared_font.specs.Opened.{IsOpened};

    ghost Value = { List ℕ };

    ghost view = { λ p. p.bytes.now };

    ghost invariant = { λ p. IsOpened p.bytes.now p.steps p.kerns };
}

/// Returns the number in word `i`.
#[tactic(auto, unfolding(crate::specs::Layout::number_at))]
fn number(bytes: &[u8], i: usize) -> i32
    requires { 4 * i + 4 ≤ length bytes.now }
    ensures { result ≡ number_at bytes.now i }
{
    FixWord::of(word_at(bytes, i)).0
}

impl<'a> PreparedFont<'a> {
    /// Opens the table at the beginning of `bytes`; bytes after it are ignored. Returns `None` for bytes that
    /// don't begin with the header of a table of this version, and for a table whose end is missing. The
    /// remainder of the table isn't checked.
    pub fn open(bytes: &'a [u8]) -> Option<PreparedFont<'a>>
        ensures whole { MatchOption result (IsWhole bytes.now → ⊥)
            (λ prepared. (prepared ≡ bytes.now) × IsWhole bytes.now) }
        ensures opened { (font : FontValue) → IsPreparedFrom font bytes.now → result ≡ Some bytes.now }
    {
        if bytes.len() < 4 * PROGRAM {
            return None;
        }
        if number(bytes, 0) != MAGIC {
            return None;
        }
        if number(bytes, 1) != VERSION {
            return None;
        }
        let length = usize::try_from(number(bytes, LENGTH)).ok()?;
        let steps = usize::try_from(number(bytes, STEPS)).ok()?;
        let kerns = usize::try_from(number(bytes, KERNS)).ok()?;
        if bytes.len() < length {
            return None;
        }
        if length != 4 * (PROGRAM + steps + kerns) {
            return None;
        }
        Some(PreparedFont {
            bytes,
            steps,
            kerns,
        })
    }

    fn number(&self, i: usize) -> i32
        requires { i < 521 }
        ensures { result ≡ number_at self.now i }
    {
        number(self.bytes, i)
    }

    /// Returns the width of a space in sp: parameter 2, or 0 if the font has no parameter 2.
    pub fn space(&self) -> i32
        ensures { (font : FontValue) → IsPreparedFrom font self.now → result ≡ parameter_of font.words font.size 2 }
    {
        self.number(SPACE)
    }

    /// Returns the size that the font was read at, in sp; 0 if the table has a negative number instead.
    #[tactic(auto, unfolding(crate::specs::Layout::size_in))]
    pub fn size(&self) -> u32
        ensures stated { result ≡ size_in self.now }
        ensures font { (font : FontValue) → IsPreparedFrom font self.now → result ≡ font.size }
    {
        u32::try_from(self.number(SIZE)).unwrap_or(0)
    }

    /// Returns the starting address of a character's program.
    #[tactic(auto, unfolding(crate::specs::Layout::state_of, tfm_tables::specs::Program::start_of))]
    fn start(&self, code: u8) -> Option<usize>
        ensures { (font : FontValue) → IsPreparedFrom font self.now → result ≡ start_of font.words (Char code) }
    {
        usize::try_from(self.number(STATES + usize::from(code))).ok()
    }

    /// Returns the starting address of the left boundary's program.
    fn left_start(&self) -> Option<usize>
        ensures { (font : FontValue) → IsPreparedFrom font self.now → result ≡ start_of font.words Boundary }
    {
        usize::try_from(self.number(LEFT)).ok()
    }

    /// Returns the instruction at an address, if there is one.
    #[tactic(auto, using(crate::proofs::ChainSteps::instructions))]
    fn step(&self, i: usize) -> Option<Step>
        ensures value { (font : FontValue) → IsPreparedFrom font self.now → result ≡ slice_get (program_of font.words) i }
        ensures within { IfSome result (λ step. i < length self.now) }
        ensures few { IfSome result (λ step. i < 2 ^ 31) }
    {
        if i >= self.steps {
            return None;
        }
        let [skip, next, op, remainder] = word_at(self.bytes, PROGRAM + i);
        Some(Step {
            skip,
            next,
            op,
            remainder,
        })
    }

    /// Returns the address of the first instruction, in the chain from an address, that matches a code.
    fn find_from(&self, start: usize, code: u8) -> Option<usize>
        ensures { (font : FontValue) → IsPreparedFrom font self.now → result ≡ address_of (program_of font.words) start code }
    {
        let mut at = start;
        while let Some(step) = self.step(at) {
            if step.skip > 128 {
                return None;
            }
            if step.next == code {
                return Some(at);
            }
            if step.skip == 128 {
                return None;
            }
            at += usize::from(step.skip) + 1;
        }
        None
    }

    /// Returns the address of the instruction that matches two neighbours.
    #[tactic(auto, unfolding(lig_kern::specs::Matching::match_of, tfm_tables::specs::Program::address_between))]
    fn find(&self, left: Symbol, right: Symbol) -> Option<usize>
        ensures { (font : FontValue) → IsPreparedFrom font self.now → result ≡ match_of font.words left right }
    {
        let start = match left {
            Symbol::Left => self.left_start()?,
            Symbol::Char(code) => self.start(code)?,
            Symbol::Right => return None,
        };
        let code = match right {
            Symbol::Left => return None,
            Symbol::Char(code) => code,
            Symbol::Right => self.right_code()?,
        };
        self.find_from(start, code)
    }

    /// Returns a kern by its index, if there is one.
    fn kern(&self, k: usize) -> Option<i32>
        ensures { (font : FontValue) → IsPreparedFrom font self.now → k < entries_of font.words Kern
            → result ≡ Some (kern_at font.words font.size k) }
    {
        if k >= self.kerns {
            return None;
        }
        Some(number(self.bytes, PROGRAM + self.steps + k))
    }

    /// Returns the action of an instruction; none for a kern that the table doesn't have.
    #[tactic(auto, unfolding(lig_kern::specs::Matching::action_of))]
    fn action_by(&self, step: Step) -> Option<Action>
        ensures { (font : FontValue) → IsPreparedFrom font self.now → (128 ≤ step.op → kern_index_of step < entries_of font.words Kern)
            → result ≡ Some (action_of font step) }
    {
        match step.kern_index() {
            Some(k) => Some(Action::Kern(self.kern(k)?)),
            None => Some(ligature(step.op, step.remainder)),
        }
    }

    /// Returns the action of the instruction at an address.
    #[tactic(auto, using(crate::proofs::ChainSteps::instructions))]
    fn action_at(&self, address: usize) -> Option<Action>
        ensures { (font : FontValue) → IsPreparedFrom font self.now → address < entries_of font.words LigKern
            → (step_at font.words address).skip ≤ 128 → result ≡ Some (action_of font (step_at font.words address)) }
    {
        let step = self.step(address)?;
        self.action_by(step)
    }
}

impl<'a> WordFont for PreparedFont<'a> {
    ghost is_of = { λ bytes font. IsPreparedFrom font bytes };

    #[tactic(auto, unfolding(crate::specs::Layout::state_of))]
    fn exists(&self, code: u8) -> bool {
        self.number(STATES + usize::from(code)) != NO_CHARACTER
    }

    fn code_width(&self, code: u8) -> i32 {
        self.number(WIDTHS + usize::from(code))
    }

    #[tactic(auto, using(crate::proofs::ChainSteps::matched), unfolding(lig_kern::specs::Matching::action_between))]
    fn action(&self, left: Symbol, right: Symbol) -> Option<Action> {
        let address = self.find(left, right)?;
        self.action_at(address)
    }

    fn right_code(&self) -> Option<u8> {
        u8::try_from(self.number(RIGHT)).ok()
    }
}
