//! The formats of pairs.
use encodings::Encoding;
use tex_sizes::LengthUnit;

/// The format of the text of pairs.
#[derive(Clone, Copy, Debug)]
pub enum PairsFormat {
    /// A line of four fields for each pair, with spaces between them.
    Text,
    /// A line with the names of the fields, and a line for each pair, with commas between the fields.
    Csv,
    /// A JSON object in a line for each pair.
    Json,
}

/// The layout of the text of pairs.
#[derive(Clone, Copy, Debug)]
pub struct PairsLayout {
    /// The format.
    pub format: PairsFormat,
    /// The encoding of the font: the characters that it gives the codes are printed after the codes. With `None`
    /// only codes are printed.
    pub encoding: Option<Encoding<'static>>,
    /// The unit of kerns. In JSON a kern in a unit other than `sp` is a string.
    pub unit: LengthUnit,
}
