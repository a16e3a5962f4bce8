ghost use Rattle.std.specs.Prelude.{◌≡◌};
ghost use Rattle.encodings.specs.Names.{encoding_named, encodings, name_of};

use crate::Vector;

/// The encoding of a font: the codes that set the characters of a line in UTF-8. Where lines are bytes, each of
/// them a code of the font, callers have an `Option<Encoding>` that is `None`.
#[derive(Clone, Copy, Debug, PartialEq, Eq)]
pub enum Encoding<'a> {
    /// OT1, the encoding of cmr10.
    Ot1,
    /// T1, the Cork encoding, which is that of ecrm1000.
    T1,
    /// LY1, the encoding TeX 'n ANSI.
    Ly1,
    /// ISO 8859-1.
    Latin1,
    /// The encoding with the characters of a vector.
    Vector(&'a Vector),
}

impl<'a> Encoding<'a> {
    /// Returns the encoding of this name: `ot1`, `t1`, `ly1` or `latin1`, or the same in capitals. Returns `None` for
    /// any other name.
    pub fn from_name(name: &str) -> Option<Self>
        ensures { result ≡ encoding_named name.now }
    {
        match name {
            "ot1" | "OT1" => Some(Encoding::Ot1),
            "t1" | "T1" => Some(Encoding::T1),
            "ly1" | "LY1" => Some(Encoding::Ly1),
            "latin1" | "LATIN1" => Some(Encoding::Latin1),
            _ => None,
        }
    }

    /// Returns the name. That of a vector is `vector`, for which [`from_name`](Encoding::from_name) returns
    /// `None`.
    pub fn name(self) -> &'static str
        ensures { result.now ≡ name_of self.entry }
    {
        match self {
            Encoding::Ot1 => "ot1",
            Encoding::T1 => "t1",
            Encoding::Ly1 => "ly1",
            Encoding::Latin1 => "latin1",
            Encoding::Vector(_) => "vector",
        }
    }
}
