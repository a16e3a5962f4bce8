ghost use Rattle.std.specs.Prelude.{Some};
ghost use Rattle.tfm_tables.specs.FaultTexts.{font_fault_text, part_name};

use std::fmt;
use tfm_words::{CountFault, DesignFault, Table};
use thiserror::Error;

/// The part of an instruction that has an error: the first one that applies, in the order of these
/// variants. It prints as a name, for example `restart`.
#[derive(Clone, Copy, Debug, PartialEq, Eq)]
pub enum Part {
    /// The skip is above 128, and the instruction points to an address without an instruction.
    Restart,
    /// The code to the right is neither that of a character of the font nor that of the right boundary
    /// character.
    Next,
    /// The font doesn't have the character that the instruction inserts.
    Ligature,
    /// The font doesn't have the kern that the instruction inserts.
    Kern,
    /// The skip is below 128, and there is no instruction where the search would go on.
    Skip,
}

impl fmt::Display for Part {
    ghost output = { λ part. Some (part_name part) };

    #[tactic(auto, unfolding(crate::specs::FaultTexts::part_name))]
    fn fmt<W: fmt::Write>(&self, f: &mut fmt::Formatter<W>) -> fmt::Result {
        f.write_str(match self {
            Part::Restart => "restart",
            Part::Next => "next",
            Part::Ligature => "ligature",
            Part::Kern => "kern",
            Part::Skip => "skip",
        })
    }
}

/// Why a font is refused: its first font error, in the order of these variants. The whole font is
/// checked for one kind of error before the next kind. Within a kind, smaller character codes are
/// checked before larger ones, tables in the file's order, and the entries of a table and the
/// instructions from 0 upward (tex.web, sections 565 to 575; the order is this project's own).
#[derive(Clone, Copy, Debug, PartialEq, Eq, Error)]
pub enum FontFault {
    /// The counts have this error.
    Counts(CountFault),
    /// The design size has this error.
    Design(DesignFault),
    /// The index into this table, in the char_info word of this code, isn't below the table's length.
    CharIndex { code: u8, table: Table },
    /// The char_info word of this code has the tag of a lig/kern program, and the address in it isn't
    /// below the number of instructions.
    LigStart(u8),
    /// The four bytes of entry 0 of this table aren't all zero.
    FirstNotZero(Table),
    /// This entry, as a fix_word, is below -16, or is 16 or more. The index counts from 0. For a
    /// parameter it is the number of the parameter, which is at least 2, since the slant isn't checked.
    FixWordRange { table: Table, index: usize },
    /// This part of the instruction at this address refers to something that the font doesn't have.
    Step { index: usize, part: Part },
    /// An allocation failed. `Font::read` returns this only for a file without a font error.
    OutOfMemory,
}

impl fmt::Display for FontFault {
    ghost output = { λ fault. Some (font_fault_text fault) };

    #[tactic(auto, unfolding(crate::specs::FaultTexts::font_fault_text))]
    fn fmt<W: fmt::Write>(&self, f: &mut fmt::Formatter<W>) -> fmt::Result {
        match self {
            FontFault::Counts(fault) => write!(f, "{fault}"),
            FontFault::Design(fault) => write!(f, "{fault}"),
            FontFault::CharIndex { code, table } => write!(f, "character {code}, table {table}"),
            FontFault::LigStart(code) => write!(f, "character {code}, program start"),
            FontFault::FirstNotZero(table) => write!(f, "table {table}, first entry"),
            FontFault::FixWordRange { table, index } => write!(f, "table {table}, entry {index}"),
            FontFault::Step { index, part } => write!(f, "instruction {index}, {part}"),
            FontFault::OutOfMemory => f.write_str("out of memory"),
        }
    }
}
