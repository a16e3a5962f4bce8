//! The tables of a font: the checks read them, and so do the values of an accepted font.
ghost use Rattle.std.specs.Prelude.{◌≡◌, ◌*◌, ◌<◌, ◌≤◌, length, MatchOption, Some, false, true};
ghost use Rattle.tfm_words.specs.Counts.{AreCountsOf};
ghost use Rattle.tfm_words.specs.declared.table.Table.TheVariants.{LigKern};
ghost use Rattle.tfm_tables.specs.Table.{entries_of, entry_at, table_of};
ghost use Rattle.tfm_tables.specs.Character.{char_info_of, exists as exists_in, info_where};
ghost use Rattle.tfm_tables.specs.Measure.{measure_at, scaled_entry};
ghost use Rattle.tfm_tables.specs.Program.{program_of, right_code_of, step_at};
ghost use Rattle.tfm_tables.specs.Sound.{IsScalableEntry};

use crate::Step;
use tfm_words::{Counts, FixWord, Size, Table, word_at};

/// The words of a file with lawful counts, and these counts.
#[derive(Clone, Copy)]
pub(crate) struct Tables<'a> {
    pub words: &'a [u8],
    pub counts: &'a Counts,
    ghost lawful: { AreCountsOf words.now counts.now },
}

impl<'a> Tables<'a> {
    /// Returns the bytes of a table.
    pub fn bytes_of(self, table: Table) -> &'a [u8]
        ensures bytes { result.now ≡ table_of self.entry.words.now table }
        ensures whole { length result.now ≡ 4 * entries_of self.entry.words.now table }
    {
        let (first, size) = self.counts.table(table);
        &self.words[4 * first..4 * (first + size)]
    }

    /// Returns entry `i` of a table, counted from 0.
    #[tactic(auto, unfolding(crate::specs::Table::entry_at))]
    pub fn entry(self, table: Table, i: usize) -> [u8; 4]
        requires { i < entries_of self.words.now table }
        ensures { result ≡ entry_at self.entry.words.now table i }
    {
        word_at(self.bytes_of(table), i)
    }

    /// Returns the char_info word of a code from `bc` to `ec`.
    #[tactic(auto, unfolding(crate::specs::Character::char_info_of))]
    pub fn char_info(self, code: u16) -> [u8; 4]
        requires { (self.counts.now.bc ≤ code) × (code ≤ self.counts.now.ec) }
        ensures { result ≡ char_info_of self.entry.words.now code }
    {
        self.entry(Table::CharInfo, usize::from(code - self.counts.bc()))
    }

    /// Returns the char_info word of a code, or `None` if the code isn't from `bc` to `ec`.
    #[tactic(auto, unfolding(crate::specs::Character::is_coded))]
    pub fn info(self, code: u8) -> Option<[u8; 4]>
        ensures { result ≡ info_where self.entry.words.now code }
    {
        let code = u16::from(code);
        if self.counts.bc() <= code && code <= self.counts.ec() {
            Some(self.char_info(code))
        } else {
            None
        }
    }

    /// Returns the char_info word of a character, or `None` if it doesn't exist: it exists if its code has such a word,
    /// whose width index isn't 0.
    #[tactic(auto, unfolding(crate::specs::Character::exists))]
    pub fn character(self, code: u8) -> Option<[u8; 4]>
        ensures { MatchOption result (exists_in self.entry.words.now code ≡ false)
            (λ info. (exists_in self.entry.words.now code ≡ true) × (info ≡ char_info_of self.entry.words.now code)) }
    {
        let info = self.info(code)?;
        if info[0] == 0 { None } else { Some(info) }
    }

    /// Returns whether the font has a character with this code.
    pub fn exists(self, code: u8) -> bool
        ensures { result ≡ exists_in self.entry.words.now code }
    {
        self.character(code).is_some()
    }

    /// Returns entry `i` of a table in sp at a size. The entry must be one that can be scaled.
    #[tactic(auto, unfolding(crate::specs::Measure::measure_of))]
    pub fn measure(self, size: Size, table: Table, i: usize) -> i32
        requires within { i < entries_of self.words.now table }
        requires scalable { IsScalableEntry self.words.now table i }
        ensures value { result ≡ measure_at self.entry.words.now size table i }
        ensures scaled { scaled_entry self.entry.words.now size table i ≡ Some result }
    {
        FixWord::of(self.entry(table, i)).scaled(size).unwrap()
    }

    /// Returns the instruction at address `i`.
    #[tactic(auto, unfolding(crate::specs::Program::step_at))]
    pub fn step(self, i: usize) -> Step
        requires { i < entries_of self.words.now LigKern }
        ensures { result ≡ step_at self.entry.words.now i }
    {
        Step::of(self.entry(Table::LigKern, i))
    }

    /// Returns the code of the right boundary character, which the first instruction may specify.
    #[tactic(auto, using(crate::proofs::ProgramLemmas::instructions), unfolding(crate::specs::Program::right_code_of))]
    pub fn right_code(self) -> Option<u8>
        ensures { result ≡ right_code_of (program_of self.entry.words.now) }
    {
        if self.counts.nl() == 0 {
            return None;
        }
        let first = self.step(0);
        if first.skip == 255 {
            Some(first.next)
        } else {
            None
        }
    }
}
