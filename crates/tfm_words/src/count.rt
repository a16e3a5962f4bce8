ghost use Rattle.std.specs.Prelude.{Some};
ghost use Rattle.tfm_words.specs.FaultTexts.{count_name};

use std::fmt;

/// One of the twelve counts at the start of a TFM file, in the file's order. It prints as its name in
/// the format, for example `lf` (tftopl.web, section 8).
#[derive(Clone, Copy, Debug, PartialEq, Eq)]
pub enum Count {
    /// The length of the whole file, in words.
    Lf,
    /// The length of the header, in words.
    Lh,
    /// The smallest character code in the font.
    Bc,
    /// The largest character code in the font.
    Ec,
    /// The number of words in the width table.
    Nw,
    /// The number of words in the height table.
    Nh,
    /// The number of words in the depth table.
    Nd,
    /// The number of words in the table of italic corrections.
    Ni,
    /// The number of instructions in the lig/kern program.
    Nl,
    /// The number of words in the kern table.
    Nk,
    /// The number of extensible recipes.
    Ne,
    /// The number of parameters.
    Np,
}

impl fmt::Display for Count {
    ghost output = { λ count. Some (count_name count) };

    #[tactic(auto, unfolding(crate::specs::FaultTexts::count_name))]
    fn fmt<W: fmt::Write>(&self, f: &mut fmt::Formatter<W>) -> fmt::Result {
        f.write_str(match self {
            Count::Lf => "lf",
            Count::Lh => "lh",
            Count::Bc => "bc",
            Count::Ec => "ec",
            Count::Nw => "nw",
            Count::Nh => "nh",
            Count::Nd => "nd",
            Count::Ni => "ni",
            Count::Nl => "nl",
            Count::Nk => "nk",
            Count::Ne => "ne",
            Count::Np => "np",
        })
    }
}
