ghost use Rattle.std.specs.Prelude.{◌≡◌};
ghost use Rattle.formats.specs.Records.{version_of};

use run_plan::Version;
use tex_sizes::LengthUnit;

/// What the record of a line has if the line is set: its items, or the dimensions of its box in this unit.
#[derive(Clone, Copy, Debug, PartialEq, Eq)]
pub enum RecordFormat {
    /// Its items, in this format.
    Items(Version),
    /// The width, the height and the depth of the box that TeX makes of it, the number of its spaces, and the number of
    /// characters that were skipped.
    Box(LengthUnit),
}

impl RecordFormat {
    /// Returns the format of all other lines of the output: of the records of refused lines, and of end lines.
    pub fn version(self) -> Version
        ensures { result ≡ version_of self }
    {
        match self {
            RecordFormat::Items(version) => version,
            RecordFormat::Box(_) => Version::One,
        }
    }
}
