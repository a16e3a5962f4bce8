//! The formats of listings and of the output of `check`.
use tex_sizes::LengthUnit;

/// A format of the output of `check` and of listings.
#[derive(Clone, Copy)]
pub enum OutputFormat {
    /// Lines of text.
    Text,
    /// A JSON object in a line for each font.
    Json,
}

/// The layout of the listing of a font.
#[derive(Clone, Copy)]
pub struct ListLayout {
    /// The format: lines of text, or one JSON object in a line.
    pub format: OutputFormat,
    /// The unit of dimensions. In JSON a dimension in a unit other than `sp` is a string.
    pub unit: LengthUnit,
}
