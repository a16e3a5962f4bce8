ghost use Rattle.std.specs.Prelude.{◌≡◌, ◌+◌, ◌*◌, ◌≤◌, ◌↔◌, take, IsOk, IfOk};
ghost use Rattle.tfm_words.specs.Counts.{AreCountsOf, HasLawfulCounts, IsLawful, first_word_of, length_of};
ghost use Rattle.tfm_words.specs.CountFaults.{AnswersFirst, count_faults};

use crate::numbers::Numbers;
use crate::{CountFault, Table};
use std::marker::Model;

/// The twelve counts at the start of a TFM file. Every value of this type follows the rules of the
/// format: each count is below 2^15, `bc` is at most `ec + 1` and `ec` at most 255, the header has at
/// least two words, the tables of widths, heights, depths and italic corrections have an entry 0, there
/// are at most 256 extensible recipes, and `lf` is 6 plus the lengths of the ten tables (tftopl.web,
/// sections 8, 9 and 21).
#[derive(Clone, Copy, Debug, PartialEq, Eq)]
pub struct Counts {
    numbers: Numbers,
}

impl Model for Counts {
    ghost use Rattle.tfm_words.specs.declared.numbers.Numbers.{Numbers};
    ghost use Rattle.tfm_words.specs.Counts.{IsLawful};

    ghost Value = { Numbers };

    ghost view = { λ c. c.numbers };

    ghost invariant = { λ c. IsLawful c.numbers };

    ghost inverse = { λ n. record { numbers = n } };
}

impl Counts {
    /// Reads the counts in the first 24 bytes of a file, and checks them and the length of the file.
    /// `bytes` has to contain the `lf` words of the file; bytes after these words are ignored. The
    /// error is the first one in the order of `CountFault`.
    pub fn read(bytes: &[u8]) -> Result<Self, CountFault>
        ensures accepted { IsOk result ↔ HasLawfulCounts bytes.now }
        ensures value { IfOk result (AreCountsOf bytes.now) }
        ensures reach { IfOk result (λ c. AreCountsOf (take (4 * c.lf) bytes.now) c) }
        ensures fault { AnswersFirst (count_faults bytes.now) result }
    {
        let numbers = Numbers::checked(bytes)?;
        Ok(Counts { numbers })
    }

    /// Returns the position of a table: its first word, counted from 0 at the start of the file, and
    /// its length in words. The sum of the two is at most `lf`. The header begins at word 6; the
    /// table of parameters begins with the slant.
    pub fn table(&self, table: Table) -> (usize, usize)
        ensures place { result ≡ (first_word_of self.now table, length_of self.now table) }
        ensures within { result.0 + result.1 ≤ self.now.lf }
    {
        let place = table as usize;
        (
            self.numbers.end_of(place),
            usize::from(self.numbers.lengths()[place]),
        )
    }

    /// Returns the length of the whole file, in words. The clause `lawful` states the rules for all
    /// twelve counts, which every value of this type follows.
    pub fn lf(&self) -> u16
        ensures value { result ≡ self.now.lf }
        ensures lawful { IsLawful self.now }
    {
        self.numbers.lf
    }

    /// Returns the length of the header, in words: at least 2.
    pub fn lh(&self) -> u16
        ensures { result ≡ self.now.lh }
    {
        self.numbers.lh
    }

    /// Returns the smallest character code: at most 256.
    pub fn bc(&self) -> u16
        ensures { result ≡ self.now.bc }
    {
        self.numbers.bc
    }

    /// Returns the largest character code: at most 255. In a font without characters it is one less
    /// than `bc`.
    pub fn ec(&self) -> u16
        ensures { result ≡ self.now.ec }
    {
        self.numbers.ec
    }

    /// Returns the number of words in the width table: at least 1.
    pub fn nw(&self) -> u16
        ensures { result ≡ self.now.nw }
    {
        self.numbers.nw
    }

    /// Returns the number of words in the height table: at least 1.
    pub fn nh(&self) -> u16
        ensures { result ≡ self.now.nh }
    {
        self.numbers.nh
    }

    /// Returns the number of words in the depth table: at least 1.
    pub fn nd(&self) -> u16
        ensures { result ≡ self.now.nd }
    {
        self.numbers.nd
    }

    /// Returns the number of words in the table of italic corrections: at least 1.
    pub fn ni(&self) -> u16
        ensures { result ≡ self.now.ni }
    {
        self.numbers.ni
    }

    /// Returns the number of instructions in the lig/kern program.
    pub fn nl(&self) -> u16
        ensures { result ≡ self.now.nl }
    {
        self.numbers.nl
    }

    /// Returns the number of kerns.
    pub fn nk(&self) -> u16
        ensures { result ≡ self.now.nk }
    {
        self.numbers.nk
    }

    /// Returns the number of extensible recipes: at most 256.
    pub fn ne(&self) -> u16
        ensures { result ≡ self.now.ne }
    {
        self.numbers.ne
    }

    /// Returns the number of parameters.
    pub fn np(&self) -> u16
        ensures { result ≡ self.now.np }
    {
        self.numbers.np
    }
}
