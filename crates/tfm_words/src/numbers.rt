ghost use Rattle.std.specs.Prelude.{◌≡◌, ◌+◌, ◌*◌, ◌≤◌, [], ◌∷◌, length, sum, take, IfOk};
ghost use Rattle.tfm_words.specs.Counts.{count_at as count_of, counts_of, lengths_of};
ghost use Rattle.tfm_words.specs.CountFaults.{AnswersFirst, count_faults, is_too_large, range_faults, shape_faults};

use crate::{Count, CountFault, Table};
use byteorder::{BigEndian, ByteOrder};

/// Every valid count is below this number: its highest bit is 0.
const LIMIT: u16 = 0x8000;

/// The twelve counts as a file has them, whether or not they follow the rules of the format.
#[derive(Clone, Copy, Debug, PartialEq, Eq)]
pub(crate) struct Numbers {
    pub lf: u16,
    pub lh: u16,
    pub bc: u16,
    pub ec: u16,
    pub nw: u16,
    pub nh: u16,
    pub nd: u16,
    pub ni: u16,
    pub nl: u16,
    pub nk: u16,
    pub ne: u16,
    pub np: u16,
}

fn check_range(count: Count, number: u16) -> Result<(), CountFault>
    ensures { AnswersFirst ((is_too_large number, CountFault.CountRange count) ∷ []) result }
{
    if number < LIMIT {
        Ok(())
    } else {
        Err(CountFault::CountRange(count))
    }
}

fn count_at(bytes: &[u8], k: usize) -> u16
    requires { 2 * k + 2 ≤ length bytes.now }
    ensures { result ≡ count_of bytes.now k }
{
    BigEndian::read_u16(&bytes[2 * k..])
}

impl Numbers {
    /// Reads the counts in the first 24 bytes of a file, and checks them and the length of the file.
    /// The error is the first one in the order of `CountFault`.
    #[tactic(auto, using(crate::proofs::CountLemmas::exits))]
    pub fn checked(bytes: &[u8]) -> Result<Self, CountFault>
        ensures value { IfOk result (λ c. c ≡ counts_of bytes.now) }
        ensures fault { AnswersFirst (count_faults bytes.now) result }
    {
        if bytes.len() < 24 {
            return Err(CountFault::Truncated { need: 24 });
        }
        let numbers = Numbers::read(bytes);
        numbers.check_ranges()?;
        numbers.check_shape()?;
        let need = 4 * usize::from(numbers.lf);
        if bytes.len() < need {
            return Err(CountFault::Truncated { need });
        }
        Ok(numbers)
    }

    #[tactic(auto, unfolding(crate::specs::Counts::counts_of))]
    fn read(bytes: &[u8]) -> Self
        requires { 24 ≤ length bytes.now }
        ensures { result ≡ counts_of bytes.now }
    {
        Numbers {
            lf: count_at(bytes, 0),
            lh: count_at(bytes, 1),
            bc: count_at(bytes, 2),
            ec: count_at(bytes, 3),
            nw: count_at(bytes, 4),
            nh: count_at(bytes, 5),
            nd: count_at(bytes, 6),
            ni: count_at(bytes, 7),
            nl: count_at(bytes, 8),
            nk: count_at(bytes, 9),
            ne: count_at(bytes, 10),
            np: count_at(bytes, 11),
        }
    }

    #[tactic(auto, unfolding(crate::specs::CountFaults::range_faults))]
    fn check_ranges(&self) -> Result<(), CountFault>
        ensures { AnswersFirst (range_faults self.now) result }
    {
        check_range(Count::Lf, self.lf)?;
        check_range(Count::Lh, self.lh)?;
        check_range(Count::Bc, self.bc)?;
        check_range(Count::Ec, self.ec)?;
        check_range(Count::Nw, self.nw)?;
        check_range(Count::Nh, self.nh)?;
        check_range(Count::Nd, self.nd)?;
        check_range(Count::Ni, self.ni)?;
        check_range(Count::Nl, self.nl)?;
        check_range(Count::Nk, self.nk)?;
        check_range(Count::Ne, self.ne)?;
        check_range(Count::Np, self.np)
    }

    #[tactic(auto, unfolding(crate::specs::CountFaults::shape_faults))]
    fn check_shape(&self) -> Result<(), CountFault>
        ensures { AnswersFirst (shape_faults self.now) result }
    {
        if self.ec > 255 || self.bc > self.ec + 1 {
            return Err(CountFault::CharRange);
        }
        if self.lh < 2 {
            return Err(CountFault::HeaderShort);
        }
        if self.nw == 0 {
            return Err(CountFault::EmptyTable(Table::Width));
        }
        if self.nh == 0 {
            return Err(CountFault::EmptyTable(Table::Height));
        }
        if self.nd == 0 {
            return Err(CountFault::EmptyTable(Table::Depth));
        }
        if self.ni == 0 {
            return Err(CountFault::EmptyTable(Table::Italic));
        }
        if self.ne > 256 {
            return Err(CountFault::TooManyRecipes);
        }
        if usize::from(self.lf) != self.end_of(10) {
            return Err(CountFault::LengthEquation);
        }
        Ok(())
    }

    /// Returns the lengths of the ten tables, in words, in the file's order.
    pub fn lengths(&self) -> [u16; 10]
        requires codes { self.now.ec ≤ 255 }
        requires characters { self.now.bc ≤ self.now.ec + 1 }
        ensures { result ≡ lengths_of self.now }
    {
        let characters = self.ec + 1 - self.bc;
        [
            self.lh, characters, self.nw, self.nh, self.nd, self.ni, self.nl, self.nk, self.ne,
            self.np,
        ]
    }

    /// Returns the number of the word, from 0, that follows the first `tables` of the ten tables.
    pub fn end_of(&self, tables: usize) -> usize
        requires codes { self.now.ec ≤ 255 }
        requires characters { self.now.bc ≤ self.now.ec + 1 }
        requires tables { tables ≤ 10 }
        ensures { result ≡ 6 + sum (take tables (lengths_of self.now)) }
    {
        let mut end = 6;
        for length in &self.lengths()[..tables] {
            end += usize::from(*length);
        }
        end
    }
}
