ghost use Rattle.std.specs.Prelude.{Some};
ghost use Rattle.tfm_words.specs.FaultTexts.{table_name};

use std::fmt;

/// One of the ten tables after the counts, in the file's order. It prints as its name in the format,
/// for example `char_info` (tftopl.web, section 9).
#[derive(Clone, Copy, Debug, PartialEq, Eq)]
pub enum Table {
    /// The check sum, the design size, and, if the header is long enough, the coding scheme, the
    /// family, the seven-bit flag and the face.
    Header,
    /// One word for each character code from `bc` to `ec`.
    CharInfo,
    /// The widths, to which characters refer by index.
    Width,
    /// The heights, to which characters refer by index.
    Height,
    /// The depths, to which characters refer by index.
    Depth,
    /// The italic corrections, to which characters refer by index.
    Italic,
    /// The instructions of the lig/kern program.
    LigKern,
    /// The kerns, to which instructions refer by index.
    Kern,
    /// The extensible recipes.
    Exten,
    /// The parameters; the first, number 1, is the slant.
    Param,
}

impl fmt::Display for Table {
    ghost output = { λ table. Some (table_name table) };

    #[tactic(auto, unfolding(crate::specs::FaultTexts::table_name))]
    fn fmt<W: fmt::Write>(&self, f: &mut fmt::Formatter<W>) -> fmt::Result {
        f.write_str(match self {
            Table::Header => "header",
            Table::CharInfo => "char_info",
            Table::Width => "width",
            Table::Height => "height",
            Table::Depth => "depth",
            Table::Italic => "italic",
            Table::LigKern => "lig_kern",
            Table::Kern => "kern",
            Table::Exten => "exten",
            Table::Param => "param",
        })
    }
}
