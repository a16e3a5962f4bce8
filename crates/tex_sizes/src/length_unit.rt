ghost use Rattle.std.specs.Prelude.{◌≡◌};
ghost use Rattle.tex_sizes.specs.Lengths.{unit_name, unit_named};

/// A unit that lengths are written in.
#[derive(Clone, Copy, Debug, PartialEq, Eq)]
pub enum LengthUnit {
    /// Scaled points, `sp`: 65,536 of them are a point.
    ScaledPoints,
    /// Points, `pt`: 72.27 of them are an inch.
    Points,
    /// Big points, `bp`: 72 of them are an inch.
    BigPoints,
    /// Millimetres, `mm`: 25.4 of them are an inch.
    Millimetres,
    /// Centimetres, `cm`.
    Centimetres,
    /// Inches, `in`.
    Inches,
    /// Picas, `pc`, of 12 points.
    Picas,
}

impl LengthUnit {
    /// Returns the unit of this name, in lower case, or `None` if no unit has it.
    pub fn from_name(name: &str) -> Option<Self>
        ensures { result ≡ unit_named name.now }
    {
        match name {
            "sp" => Some(LengthUnit::ScaledPoints),
            "pt" => Some(LengthUnit::Points),
            "bp" => Some(LengthUnit::BigPoints),
            "mm" => Some(LengthUnit::Millimetres),
            "cm" => Some(LengthUnit::Centimetres),
            "in" => Some(LengthUnit::Inches),
            "pc" => Some(LengthUnit::Picas),
            _ => None,
        }
    }

    /// Returns the name.
    pub fn name(self) -> &'static str
        ensures { result.now ≡ unit_name self }
    {
        match self {
            LengthUnit::ScaledPoints => "sp",
            LengthUnit::Points => "pt",
            LengthUnit::BigPoints => "bp",
            LengthUnit::Millimetres => "mm",
            LengthUnit::Centimetres => "cm",
            LengthUnit::Inches => "in",
            LengthUnit::Picas => "pc",
        }
    }
}
